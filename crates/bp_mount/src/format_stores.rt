//! The stores of a format.

ghost use Rattle.std.specs.Prelude.{[], ◌*◌, ◌≡◌, ◌≤◌, length};
ghost use Rattle.bp_layout.specs.Formatted.{IsSized};
ghost use Rattle.bp_layout.specs.Words.{block_count};
ghost use Rattle.bp_limits.specs.Limits.{block_words};
ghost use Rattle.bp_mount.specs.Laid.{IsLeftByFormat, OfEachReplay, format_events};
ghost use Rattle.pm_region.specs.Memory.{Adds, room_in};

use bp_limits::{
    ATTRIBUTE_FIELD, BLOCK_SIZE, BLOCK_WORDS, DIRECTORY_KIND, FIRST_INODE, ROOT_FIELD, SIZE_FIELD,
    SUPER_BLOCKS, SUPER_MAGIC, SUPER_ROOT, SUPER_SIZE, SUPER_SNAPSHOT_ROOT, SUPER_SNAPSHOT_SIZE,
    SUPER_SPARE_ROOT, SUPER_SPARE_SIZE, Version,
};
use pm_region::Region;

/// Stores the words of an empty file system with the given version and number of blocks. All of these words lie in the
/// first two blocks, so the region may end after those; every later word of a new file system is 0.
pub fn lay_first_blocks<R: Region>(region: &mut R, version: Version, blocks: u32)
    requires prefix { 2 * block_words ≤ length (R.memory region.old).base }
    requires fresh { (R.memory region.old).events ≡ [] }
    requires room { 18 ≤ room_in (R.memory region.old) }
    ensures { Adds (R.memory region.old) (R.memory region.new) (format_events version blocks) }
{
    // The magic number is removed before any other word changes, and stored again once all of them are written back.
    region.store(SUPER_MAGIC, 0);
    region.barrier();
    region.store(SUPER_BLOCKS, blocks as u64);
    region.store(SUPER_ROOT, BLOCK_SIZE);
    region.store(SUPER_SIZE, BLOCK_SIZE);
    if version != Version::One {
        region.store(SUPER_SNAPSHOT_ROOT, 0);
        region.store(SUPER_SNAPSHOT_SIZE, 0);
    }
    if version == Version::Three {
        region.store(SUPER_SPARE_ROOT, 0);
        region.store(SUPER_SPARE_SIZE, 0);
    }
    region.store(FIRST_INODE, DIRECTORY_KIND);
    region.store(FIRST_INODE + ROOT_FIELD, 0);
    region.store(FIRST_INODE + SIZE_FIELD, 0);
    if version == Version::Three {
        region.store(FIRST_INODE + ATTRIBUTE_FIELD, 0);
        region.store(FIRST_INODE + ATTRIBUTE_FIELD + 1, 0);
        region.store(FIRST_INODE + ATTRIBUTE_FIELD + 2, 0);
    }
    // The magic number states that all of these words are there, so it must not be written back before one of them.
    region.barrier();
    region.store(SUPER_MAGIC, version.magic());
    // A crash must not keep a store of a later call and lose the magic number.
    region.barrier();
}

/// Stores an empty file system of the given version into a region of 8 to 67,108,864 blocks of 512 words. The stores
/// are not durable until the region is drained: until then a crash may leave the old words, or words without a magic
/// number.
pub fn lay_out<R: Region>(region: &mut R, version: Version)
    requires sized { IsSized (R.memory region.old).base }
    requires fresh { (R.memory region.old).events ≡ [] }
    requires room { 18 ≤ room_in (R.memory region.old) }
    ensures stores { Adds (R.memory region.old) (R.memory region.new)
        (format_events version (block_count (R.memory region.old).base)) }
    ensures left { OfEachReplay (R.memory region.new) (IsLeftByFormat version (R.memory region.old).base) }
{
    let blocks = (region.words() / BLOCK_WORDS) as u32;
    lay_first_blocks(region, version, blocks);
}
