//! A region with its free numbers.

use crate::counts::Counts;
use crate::numbers::{Blocks, Inodes};

/// The data that the calls of a file system work on: a region, its free blocks and inodes, the number of names of its
/// inodes, and the blocks of the snapshot.
#[derive(Drop)]
pub struct Parts<R> {
    /// The words.
    pub region: R,
    /// The blocks that belong to no tree and not to the snapshot.
    pub free_blocks: Blocks,
    /// The inodes that no path reaches.
    pub free_inodes: Inodes,
    /// The number of names of each inode.
    pub link_counts: Counts,
    /// The blocks of the snapshot: no call stores to them or frees them.
    pub snapshot_blocks: Blocks,
}

/// Error: fewer blocks are free than a call needs.
#[derive(Clone, Copy, Debug, PartialEq, Eq)]
pub struct NoSpace {
    /// The number of blocks that the call needs.
    pub need: u32,
    /// The number of free blocks.
    pub free: u32,
}
