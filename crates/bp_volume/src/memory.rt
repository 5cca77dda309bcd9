//! The memory of a volume.

ghost use Rattle.std.specs.Prelude.{◌≡◌, ◌*◌, ◌≤◌, IfOk, replicate};
ghost use Rattle.bp_cache.specs.Cache.{IsCacheOf};
ghost use Rattle.bp_free.specs.Set.{empty};
ghost use Rattle.bp_layout.specs.Words.{Image};
ghost use Rattle.bp_limits.specs.Limits.{block_inodes, max_blocks};

use bp_cache::DirectoryCache;
use bp_mount::Sets;
use std::alloc::{AllocError, Global};

/// Allocates the memory of a volume of `blocks` blocks: its sets and its directory cache. One function does both, so
/// that a caller handles failed allocation in one place.
pub(crate) fn memory_for(alloc: Global, blocks: u32) -> Result<(Sets, DirectoryCache), AllocError>
    requires { blocks ≤ max_blocks }
    ensures blocks { IfOk result (λ memory. memory.0.free_blocks ≡ empty blocks) }
    ensures inodes { IfOk result (λ memory. memory.0.free_inodes ≡ empty (block_inodes * blocks)) }
    ensures counts { IfOk result (λ memory. memory.0.link_counts ≡ replicate (block_inodes * blocks) 0) }
    ensures snapshot_blocks { IfOk result (λ memory. memory.0.snapshot_blocks ≡ empty blocks) }
    ensures pending { IfOk result (λ memory. memory.0.pending ≡ block_inodes * blocks) }
    ensures right { IfOk result (λ memory. (image : Image) → IsCacheOf image memory.1) }
{
    let sets = Sets::new(alloc, blocks)?;
    let cache = DirectoryCache::new(alloc)?;
    Ok((sets, cache))
}
