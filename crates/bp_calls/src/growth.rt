//! Growth of the inode file by one leaf of inodes.

ghost use Rattle.std.specs.Prelude.{◌≡◌, ◌+◌, ◌≤◌, length};
ghost use Rattle.bp_calls.specs.FewBlocks.{most_for_leaf};
ghost use Rattle.bp_calls.specs.Growth.{CanGrowInodes, GrowsInodes, growth_need};
ghost use Rattle.bp_calls.specs.Mounted.{image_in, IsExactIn};
ghost use Rattle.bp_free.specs.Set.{members};
ghost use Rattle.bp_layout.specs.WellFormed.{IsWellFormed};
ghost use Rattle.bp_changes.specs.Sets.{in_snapshot_of};
ghost use Rattle.pm_region.specs.Memory.{words_in};

use bp_append::{need_prep, stage_append};
use bp_free::Parts;
use bp_limits::{BLOCK_SIZE, INODE_SIZE, SUPER_SIZE};
use bp_read::Slots;
use bp_read::inodes::inode_file;
use pm_region::Region;

/// Returns the number of blocks that [`grow`] takes.
pub(crate) fn grow_need<R: Region>(region: &R) -> u32
    requires { IsWellFormed (words_in R.memory region.now) }
    ensures need { result ≡ growth_need (words_in R.memory region.now) }
    ensures few { result ≤ most_for_leaf }
{
    let inodes = inode_file(region);
    need_prep(region, inodes, inodes.size, inodes.size + BLOCK_SIZE)
}

/// Grows the inode file by one leaf, whose inodes are zero and free. It takes the number of blocks that [`grow_need`]
/// returns.
///
/// The growth is invisible at every crash point: the size is stored once the leaf is linked, and a longer inode file
/// makes no further inode reachable.
pub(crate) fn grow<R: Region>(parts: &mut Parts<R>)
    requires can { CanGrowInodes (in_snapshot_of parts.old) (R.memory parts.old.region) parts.old.free_blocks parts.old.free_inodes }
    requires exact { IsExactIn R.memory parts.old }
    ensures grows { GrowsInodes (in_snapshot_of parts.old) (R.memory parts.old.region) (R.memory parts.new.region) }
    ensures exact { IsExactIn R.memory parts.new }
    ensures snapshot_blocks { parts.new.snapshot_blocks ≡ parts.old.snapshot_blocks }
    ensures left { length (members parts.old.free_blocks) ≡
        growth_need (image_in R.memory parts.old) + length (members parts.new.free_blocks) }
{
    let size = inode_file(&parts.region).size;
    let end = size + BLOCK_SIZE;
    stage_append(parts, &Slots::new(), size, &[], end);
    parts.region.store(SUPER_SIZE, end);
    // The size is durable before any store to an inode of the new leaf. So no crash leaves such a store past the end
    // of the inode file, and the contracts of the caller's next stores concern the longer file only.
    parts.region.barrier();
    let from = (size / INODE_SIZE) as usize;
    let to = (end / INODE_SIZE) as usize;
    parts.free_inodes.fill(from, to);
}
