//! The space of a volume.

/// The numbers of free and of live blocks of a volume. The first block, which holds the superblock, counts as neither.
#[derive(Clone, Copy, Debug, PartialEq, Eq)]
pub struct Space {
    /// The number of blocks that are in neither tree.
    pub free: u32,
    /// The number of blocks that are in one of the trees or in both.
    pub live: u32,
}
