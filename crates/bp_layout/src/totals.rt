//! The totals of an image.

/// The totals of an image.
#[derive(Clone, Copy, Debug, PartialEq, Eq)]
pub struct Totals {
    /// The number of files.
    pub files: u64,
    /// The number of directories, including the root directory.
    pub dirs: u64,
    /// The bytes of all files.
    pub bytes: u128,
    /// The number of blocks in use, without the superblock.
    pub live: u32,
}
