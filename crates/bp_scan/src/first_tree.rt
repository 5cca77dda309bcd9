//! The scan of the first tree of an image.

ghost use Rattle.std.specs.Prelude.{◌≡◌, ◌*◌, ◌≤◌, true, length, replicate, OnOk, OnErr, IfOk, IfErr};
ghost use Rattle.bp_free.specs.Set.{has, empty};
ghost use Rattle.bp_layout.specs.Formatted.{IsFormatted, IsSized};
ghost use Rattle.bp_layout.specs.Free.{AreFreeBlocks, AreFreeInodes};
ghost use Rattle.bp_layout.specs.Names.{AreCounts};
ghost use Rattle.bp_layout.specs.WellFormed.{IsWellFormed};
ghost use Rattle.bp_layout.specs.Words.{block_count, word};
ghost use Rattle.bp_limits.specs.Limits.{block_inodes, block_words, super_blocks, super_magic, super_root, super_size};
ghost use Rattle.bp_scan.specs.Faults.{IsScanFault, IsTreeFault};
ghost use Rattle.bp_scan.specs.Room.{HasScanMemory};
ghost use Rattle.bp_scan.specs.Scanned.{AreOthersLive};
ghost use Rattle.bp_layout.specs.Totals.{HasTreeTotals};
ghost use Rattle.bp_scan.specs.Walked.{fault_of_walk};
ghost use Rattle.pm_region.specs.Memory.{words_in};
ghost use Rattle.bp_layout.specs.Thaw.{none_in_snapshot};

use crate::fault::MountFault;
use crate::name_check::{NameCheck, WalkFault};
use crate::pending::Pending;
use crate::tree_walk::read_trees;
use crate::work::Scan;
use bp_free::{Blocks, Counts, Inodes};
use bp_layout::{Super, Totals};
use bp_limits::{
    BLOCK_SIZE, BLOCK_WORDS, SUPER_BLOCKS, SUPER_MAGIC, SUPER_ROOT, SUPER_SIZE, Version,
};
use pm_region::Region;
use std::mem;

/// Returns the fields of the superblock of an image.
fn read_superblock<R: Region>(region: &R) -> Super
    requires { block_words ≤ length (words_in R.memory region.now) }
    ensures magic { result.magic ≡ word (words_in R.memory region.now) super_magic }
    ensures blocks { result.blocks ≡ word (words_in R.memory region.now) super_blocks }
    ensures root { result.root ≡ word (words_in R.memory region.now) super_root }
    ensures size { result.size ≡ word (words_in R.memory region.now) super_size }
{
    Super::read(&[
        region.load(SUPER_MAGIC),
        region.load(SUPER_BLOCKS),
        region.load(SUPER_ROOT),
        region.load(SUPER_SIZE),
    ])
}

/// Checks that an image begins with the magic number of a version, and was formatted for the number of blocks that it
/// has.
///
/// # Errors
///
/// - `NotFormatted`: word 0 is the magic number of no version. It is returned in exactly this case.
/// - `BadSize`: word 0 is right, and word 1 is not the number of blocks. It is returned in exactly this case.
fn check_superblock<R: Region>(region: &R) -> Result<(), MountFault>
    requires sized { IsSized (words_in R.memory region.now) }
    ensures formatted { OnOk result (IsFormatted (words_in R.memory region.now)) }
    ensures fault { IfErr result (IsTreeFault (words_in R.memory region.now)) }
{
    let superblock = read_superblock(region);
    let magic_number = Version::at(superblock.magic).magic();
    if superblock.magic != magic_number {
        return Err(MountFault::NotFormatted);
    }
    let blocks = region.words() / BLOCK_WORDS;
    if superblock.blocks != blocks {
        return Err(MountFault::BadSize {
            found: BLOCK_SIZE * blocks,
            wanted: superblock.blocks.saturating_mul(BLOCK_SIZE),
        });
    }
    Ok(())
}

/// Does what [`scan`] does, with the two sets and the counts in the work.
fn scan_with<R: Region, N: NameCheck>(
    region: &R,
    names: &mut N,
    work: &mut Scan,
) -> Result<Totals, MountFault>
    requires sized { IsSized (words_in R.memory region.now) }
    requires room { HasScanMemory (words_in R.memory region.now) work.old }
    requires known { N.known ≡ true → IsWellFormed (words_in R.memory region.now) }
    ensures well_formed { OnOk result (IsWellFormed (words_in R.memory region.now)) }
    ensures blocks { OnOk result (AreFreeBlocks (words_in R.memory region.now) none_in_snapshot (has work.new.blocks)) }
    ensures others { OnOk result (AreOthersLive (words_in R.memory region.now) (has work.new.blocks)) }
    ensures inodes { OnOk result (AreFreeInodes (words_in R.memory region.now) (has work.new.inodes)) }
    ensures counts { OnOk result (AreCounts (words_in R.memory region.now) work.new.counts) }
    ensures totals { IfOk result (HasTreeTotals (words_in R.memory region.now)) }
    ensures fault { IfErr result (IsScanFault N.known (IsTreeFault (words_in R.memory region.now))) }
    ensures no_blocks { OnErr result (work.new.blocks ≡ empty (length work.old.blocks)) }
    ensures no_inodes { OnErr result (work.new.inodes ≡ empty (length work.old.inodes)) }
    ensures no_counts { OnErr result (work.new.counts ≡ replicate (length work.old.counts) 0) }
    ensures room { HasScanMemory (words_in R.memory region.now) work.new }
{
    work.clear();
    check_superblock(region)?;
    match read_trees(region, names, work) {
        Ok(totals) => Ok(totals),
        Err(fault) => {
            work.clear();
            Err(mount_fault(fault))
        }
    }
}

/// Converts the fault of a walk over the trees of a formatted image.
fn mount_fault(fault: WalkFault) -> MountFault
    ensures { result ≡ fault_of_walk fault }
{
    match fault {
        WalkFault::Check(fault) => MountFault::Damaged {
            check: fault.check,
            place: fault.place,
        },
        WalkFault::Memory => MountFault::Memory,
    }
}

/// Reads the first tree of the image in a region of 8 to 67,108,864 blocks of 512 words, and returns the totals. It puts
/// the blocks and the inodes that the tree lacks into the sets and the number of links of each inode into the counts,
/// whatever they had.
///
/// Its time is linear in the words that are in use and in the room of sets and counts, except for a directory in which
/// hashes of names collide: its names are sorted. Names that are known take no time and no memory.
///
/// # Errors
///
/// The sets are empty and each count is 0 then.
///
/// - `NotFormatted`: word 0 is the magic number of no version.
/// - `BadSize`: word 0 is right, and word 1 is not the number of blocks.
/// - `Damaged`: both are right, and a check of the format fails for that tree. The error has one check that fails, and
///   its place.
/// - `Memory`: allocation failed. It is not returned if the names are known.
pub(crate) fn scan<R: Region, N: NameCheck>(
    region: &R,
    names: &mut N,
    blocks: &mut Blocks,
    inodes: &mut Inodes,
    pending: &mut Pending,
    counts: &mut Counts,
) -> Result<Totals, MountFault>
    requires sized { IsSized (words_in R.memory region.now) }
    requires blocks { length blocks.old ≡ block_count (words_in R.memory region.now) }
    requires inodes { length inodes.old ≡ block_inodes * block_count (words_in R.memory region.now) }
    requires pending { pending.old ≡ block_inodes * block_count (words_in R.memory region.now) }
    requires counts { length counts.old ≡ block_inodes * block_count (words_in R.memory region.now) }
    requires known { N.known ≡ true → IsWellFormed (words_in R.memory region.now) }
    ensures well_formed { OnOk result (IsWellFormed (words_in R.memory region.now)) }
    ensures blocks { OnOk result (AreFreeBlocks (words_in R.memory region.now) none_in_snapshot (has blocks.new)) }
    ensures others { OnOk result (AreOthersLive (words_in R.memory region.now) (has blocks.new)) }
    ensures inodes { OnOk result (AreFreeInodes (words_in R.memory region.now) (has inodes.new)) }
    ensures counts { OnOk result (AreCounts (words_in R.memory region.now) counts.new) }
    ensures totals { IfOk result (HasTreeTotals (words_in R.memory region.now)) }
    ensures fault { IfErr result (IsScanFault N.known (IsTreeFault (words_in R.memory region.now))) }
    ensures no_blocks { OnErr result (blocks.new ≡ empty (length blocks.old)) }
    ensures no_inodes { OnErr result (inodes.new ≡ empty (length inodes.old)) }
    ensures no_counts { OnErr result (counts.new ≡ replicate (length counts.old) 0) }
    ensures block_room { length blocks.new ≡ length blocks.old }
    ensures inode_room { length inodes.new ≡ length inodes.old }
    ensures count_room { length counts.new ≡ length counts.old }
    ensures pending { pending.new ≡ pending.old }
{
    // The caller has the sets and counts of a volume by reference, so they are swapped in: those of the work have no
    // room.
    mem::swap(blocks, &mut pending.work.blocks);
    mem::swap(inodes, &mut pending.work.inodes);
    mem::swap(counts, &mut pending.work.counts);
    let reported = scan_with(region, names, &mut pending.work);
    mem::swap(blocks, &mut pending.work.blocks);
    mem::swap(inodes, &mut pending.work.inodes);
    mem::swap(counts, &mut pending.work.counts);
    reported
}
