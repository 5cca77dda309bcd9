//! Why an image is not a file system.

use bp_layout::Check;
use thiserror::Error;

/// The reason why an image cannot be mounted.
#[derive(Clone, Copy, Debug, PartialEq, Eq, Error)]
pub enum MountFault {
    /// The image does not begin with a magic number of the format.
    #[error("not formatted")]
    NotFormatted,
    /// The image was formatted for another number of blocks, or its file does not have the length of an image.
    #[error("bad size: {found} bytes in place of {wanted}")]
    BadSize {
        /// The actual number of bytes.
        found: u64,
        /// The expected number of bytes, at most `u64::MAX`.
        wanted: u64,
    },
    /// A check of the format fails.
    #[error("damaged: check {} fails at word {place}", .check.number())]
    Damaged {
        /// The check that fails.
        check: Check,
        /// The number of the word of the region at which it fails.
        place: u64,
    },
    /// Allocation failed.
    #[error("out of memory")]
    Memory,
}
