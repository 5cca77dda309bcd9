//! The memory of a volume.

ghost use Rattle.std.specs.Prelude.{◌≡◌, ◌*◌, ◌≤◌, IfOk, replicate};
ghost use Rattle.bp_free.specs.Set.{empty};
ghost use Rattle.bp_limits.specs.Limits.{block_inodes, max_blocks};

use bp_free::{Blocks, Counts, Inodes};
use bp_limits::BLOCK_INODES;
use bp_scan::Pending;
use std::alloc::{AllocError, Global};

/// The memory of a volume besides its region: the sets and counts, and the working memory of a scan.
#[derive(Drop)]
pub struct Sets {
    /// The free blocks.
    pub free_blocks: Blocks,
    /// The free inodes.
    pub free_inodes: Inodes,
    /// The number of links of each inode.
    pub link_counts: Counts,
    /// The blocks of the snapshot.
    pub snapshot_blocks: Blocks,
    /// The working memory of a scan.
    pub pending: Pending,
}

impl Sets {
    /// Makes empty sets, and the working memory of a scan, for a region of `blocks` blocks of 512 words, at most
    /// 67,108,864.
    ///
    /// # Errors
    ///
    /// - `AllocError`: allocation fails.
    pub fn new(alloc: Global, blocks: u32) -> Result<Sets, AllocError>
        requires { blocks ≤ max_blocks }
        ensures blocks { IfOk result (λ sets. sets.free_blocks ≡ empty blocks) }
        ensures inodes { IfOk result (λ sets. sets.free_inodes ≡ empty (block_inodes * blocks)) }
        ensures counts { IfOk result (λ sets. sets.link_counts ≡ replicate (block_inodes * blocks) 0) }
        ensures snapshot_blocks { IfOk result (λ sets. sets.snapshot_blocks ≡ empty blocks) }
        ensures pending { IfOk result (λ sets. sets.pending ≡ block_inodes * blocks) }
    {
        let free = empty_sets(alloc, blocks)?;
        let kept = counts_and_snapshot(alloc, blocks)?;
        let pending = Pending::new(alloc, inodes_for(blocks))?;
        Ok(Sets {
            free_blocks: free.0,
            free_inodes: free.1,
            link_counts: kept.0,
            snapshot_blocks: kept.1,
            pending,
        })
    }
}

/// Returns the number of inodes for which there is room in `blocks` blocks.
fn inodes_for(blocks: u32) -> usize
    requires { blocks ≤ max_blocks }
    ensures { result ≡ block_inodes * blocks }
{
    BLOCK_INODES as usize * blocks as usize
}

/// Makes an empty set of blocks, with hints for copies, and an empty set of inodes.
fn empty_sets(alloc: Global, blocks: u32) -> Result<(Blocks, Inodes), AllocError>
    requires { blocks ≤ max_blocks }
    ensures blocks { IfOk result (λ sets. sets.0 ≡ empty blocks) }
    ensures inodes { IfOk result (λ sets. sets.1 ≡ empty (block_inodes * blocks)) }
{
    Ok((
        Blocks::with_hints(alloc, blocks)?,
        Inodes::new(alloc, inodes_for(blocks))?,
    ))
}

/// Makes counts that are all 0, and an empty set for the blocks of a snapshot.
fn counts_and_snapshot(alloc: Global, blocks: u32) -> Result<(Counts, Blocks), AllocError>
    requires { blocks ≤ max_blocks }
    ensures counts { IfOk result (λ kept. kept.0 ≡ replicate (block_inodes * blocks) 0) }
    ensures snapshot_blocks { IfOk result (λ kept. kept.1 ≡ empty blocks) }
{
    Ok((
        Counts::new(alloc, inodes_for(blocks))?,
        Blocks::new(alloc, blocks)?,
    ))
}
