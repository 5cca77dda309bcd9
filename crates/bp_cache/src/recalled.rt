//! What the cache remembers of a name.

use bp_read::Found;

/// What the cache remembers of a name in a directory.
#[derive(Clone, Copy)]
pub(crate) enum Recalled {
    /// The result of a search for it.
    Known(Option<Found>),
    /// Nothing.
    Unknown,
}
