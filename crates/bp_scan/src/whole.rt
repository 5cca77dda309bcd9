//! The scan of an image with both its trees.

ghost use Rattle.std.specs.Prelude.{◌≡◌, ◌⊎◌, ◌*◌, ◌<◌, true, length, replicate, OnOk, OnErr, IfOk, IfErr};
ghost use Rattle.bp_free.specs.Set.{empty, has};
ghost use Rattle.bp_layout.specs.Formatted.{IsSized};
ghost use Rattle.bp_layout.specs.Free.{AreFreeBlocks, AreFreeInodes};
ghost use Rattle.bp_layout.specs.Names.{AreCounts};
ghost use Rattle.bp_layout.specs.Trees.{AreInSnapshot, has_snapshot, snapshot_of};
ghost use Rattle.bp_layout.specs.WellFormed.{IsWellFormed};
ghost use Rattle.bp_layout.specs.Whole.{IsFileSystem, second_place};
ghost use Rattle.bp_layout.specs.Words.{block_count};
ghost use Rattle.bp_limits.specs.Limits.{block_inodes};
ghost use Rattle.bp_scan.specs.Faults.{IsFault, IsScanFault, of_second};
ghost use Rattle.bp_scan.specs.Others.{HasOthers, Loses};
ghost use Rattle.bp_layout.specs.Totals.{HasTotals};
ghost use Rattle.pm_region.specs.Memory.{words_in};

use crate::fault::MountFault;
use crate::first_tree::scan;
use crate::name_check::{CheckedNames, KnownNames, NameCheck};
use crate::pending::Pending;
use bp_free::{Blocks, Counts, Inodes};
use bp_layout::Totals;
use bp_limits::{SUPER_ROOT, SUPER_SIZE, SUPER_SNAPSHOT_ROOT, SUPER_SNAPSHOT_SIZE, Version};
use bp_read::version;
use bp_second::Shown;
use pm_region::Region;
use std::alloc::Global;

/// Returns whether an image has a second tree.
// Inlined into a scan, it takes registers from the loop over the entries of a leaf, which then costs 1 % more.
#[inline(never)]
pub fn has_second<R: Region>(region: &R) -> bool
    requires { IsSized (words_in R.memory region.now) }
    ensures { result ≡ has_snapshot (words_in R.memory region.now) }
{
    match version(region) {
        Version::One => false,
        Version::Two | Version::Three => region.load(SUPER_SNAPSHOT_SIZE) != 0,
    }
}

/// Puts all blocks that a set lacks, except the first, into another set, whatever it had.
pub fn fill_others(set: &Blocks, others: &mut Blocks)
    requires some { 0 < length set.now }
    requires room { length others.old ≡ length set.now }
    ensures { HasOthers set.now others.new }
{
    others.complement(set);
    // The first block holds the superblock: it is in no set.
    if others.is_free(0) {
        others.claim(0);
    }
}

/// Takes the blocks of a set out of another one.
fn take_out(lost: &Blocks, blocks: &mut Blocks)
    requires { length lost.now ≡ length blocks.old }
    ensures { Loses lost.now blocks.old blocks.new }
{
    if lost.count() == 0 {
        return;
    }
    for block in 0..lost.room() {
        if lost.is_free(block) && blocks.is_free(block) {
            blocks.claim(block);
        }
    }
}

/// Returns the place in an image of the word that is at `place` when the second tree is read as the first.
fn place_of_second(place: u64) -> u64
    ensures { result ≡ second_place place }
{
    match place {
        SUPER_ROOT => SUPER_SNAPSHOT_ROOT,
        SUPER_SIZE => SUPER_SNAPSHOT_SIZE,
        _ => place,
    }
}

/// Returns the fault of an image whose second tree, read as the first, has this fault.
fn fault_of_snapshot(fault: MountFault) -> MountFault
    ensures { result ≡ of_second fault }
{
    match fault {
        MountFault::Damaged { check, place } => MountFault::Damaged {
            check,
            place: place_of_second(place),
        },
        _ => fault,
    }
}

/// Scans the second tree of an image, and puts its blocks into `snapshot_blocks`. The other sets and the counts have no
/// defined contents then.
fn scan_snapshot<R: Region, N: NameCheck>(
    region: &R,
    names: &mut N,
    blocks: &mut Blocks,
    inodes: &mut Inodes,
    snapshot_blocks: &mut Blocks,
    pending: &mut Pending,
    counts: &mut Counts,
) -> Result<(), MountFault>
    requires sized { IsSized (words_in R.memory region.now) }
    requires there { has_snapshot (words_in R.memory region.now) ≡ true }
    requires known { N.known ≡ true → IsFileSystem (words_in R.memory region.now) }
    requires blocks { length blocks.old ≡ block_count (words_in R.memory region.now) }
    requires inodes { length inodes.old ≡ block_inodes * block_count (words_in R.memory region.now) }
    requires snapshot_blocks { length snapshot_blocks.old ≡ block_count (words_in R.memory region.now) }
    requires pending { pending.old ≡ block_inodes * block_count (words_in R.memory region.now) }
    requires counts { length counts.old ≡ block_inodes * block_count (words_in R.memory region.now) }
    ensures well_formed { OnOk result (IsWellFormed (snapshot_of (words_in R.memory region.now))) }
    ensures snapshot_blocks { OnOk result (AreInSnapshot (words_in R.memory region.now) (has snapshot_blocks.new)) }
    ensures fault { IfErr result (IsScanFault N.known (IsFault (words_in R.memory region.now))) }
    ensures no_blocks { OnErr result (blocks.new ≡ empty (length blocks.old)) }
    ensures no_inodes { OnErr result (inodes.new ≡ empty (length inodes.old)) }
    ensures no_snapshot_blocks { OnErr result (snapshot_blocks.new ≡ empty (length snapshot_blocks.old)) }
    ensures no_counts { OnErr result (counts.new ≡ replicate (length counts.old) 0) }
    ensures block_room { length blocks.new ≡ length blocks.old }
    ensures inode_room { length inodes.new ≡ length inodes.old }
    ensures snapshot_room { length snapshot_blocks.new ≡ length snapshot_blocks.old }
    ensures count_room { length counts.new ≡ length counts.old }
    ensures pending { pending.new ≡ pending.old }
{
    let second = Shown::second(region);
    match scan(&second, names, blocks, inodes, pending, counts) {
        Ok(_) => {
            fill_others(blocks, snapshot_blocks);
            Ok(())
        }
        Err(fault) => {
            snapshot_blocks.clear();
            Err(fault_of_snapshot(fault))
        }
    }
}

/// Does what `scan_snapshot` does if an image has a second tree, and else empties `snapshot_blocks`.
fn find_snapshot<R: Region, N: NameCheck>(
    region: &R,
    names: &mut N,
    blocks: &mut Blocks,
    inodes: &mut Inodes,
    snapshot_blocks: &mut Blocks,
    pending: &mut Pending,
    counts: &mut Counts,
) -> Result<(), MountFault>
    requires sized { IsSized (words_in R.memory region.now) }
    requires known { N.known ≡ true → IsFileSystem (words_in R.memory region.now) }
    requires blocks { length blocks.old ≡ block_count (words_in R.memory region.now) }
    requires inodes { length inodes.old ≡ block_inodes * block_count (words_in R.memory region.now) }
    requires snapshot_blocks { length snapshot_blocks.old ≡ block_count (words_in R.memory region.now) }
    requires pending { pending.old ≡ block_inodes * block_count (words_in R.memory region.now) }
    requires counts { length counts.old ≡ block_inodes * block_count (words_in R.memory region.now) }
    ensures well_formed { let words = words_in R.memory region.now in
        OnOk result (has_snapshot words ≡ true → IsWellFormed (snapshot_of words)) }
    ensures snapshot_blocks { OnOk result (AreInSnapshot (words_in R.memory region.now) (has snapshot_blocks.new)) }
    ensures fault { IfErr result (IsScanFault N.known (IsFault (words_in R.memory region.now))) }
    ensures no_blocks { OnErr result (blocks.new ≡ empty (length blocks.old)) }
    ensures no_inodes { OnErr result (inodes.new ≡ empty (length inodes.old)) }
    ensures no_snapshot_blocks { OnErr result (snapshot_blocks.new ≡ empty (length snapshot_blocks.old)) }
    ensures no_counts { OnErr result (counts.new ≡ replicate (length counts.old) 0) }
    ensures block_room { length blocks.new ≡ length blocks.old }
    ensures inode_room { length inodes.new ≡ length inodes.old }
    ensures snapshot_room { length snapshot_blocks.new ≡ length snapshot_blocks.old }
    ensures count_room { length counts.new ≡ length counts.old }
    ensures pending { pending.new ≡ pending.old }
{
    if has_second(region) {
        return scan_snapshot(
            region,
            names,
            blocks,
            inodes,
            snapshot_blocks,
            pending,
            counts,
        );
    }
    snapshot_blocks.clear();
    Ok(())
}

/// Does what [`scan_whole`] does, with this check of names.
fn scan_trees<R: Region, N: NameCheck>(
    region: &R,
    names: &mut N,
    blocks: &mut Blocks,
    inodes: &mut Inodes,
    snapshot_blocks: &mut Blocks,
    pending: &mut Pending,
    counts: &mut Counts,
) -> Result<Totals, MountFault>
    requires sized { IsSized (words_in R.memory region.now) }
    requires blocks { length blocks.old ≡ block_count (words_in R.memory region.now) }
    requires inodes { length inodes.old ≡ block_inodes * block_count (words_in R.memory region.now) }
    requires snapshot_blocks { length snapshot_blocks.old ≡ block_count (words_in R.memory region.now) }
    requires pending { pending.old ≡ block_inodes * block_count (words_in R.memory region.now) }
    requires counts { length counts.old ≡ block_inodes * block_count (words_in R.memory region.now) }
    requires known { N.known ≡ true → IsFileSystem (words_in R.memory region.now) }
    ensures well_formed { OnOk result (IsFileSystem (words_in R.memory region.now)) }
    ensures snapshot_blocks { OnOk result (AreInSnapshot (words_in R.memory region.now) (has snapshot_blocks.new)) }
    ensures blocks { let words = words_in R.memory region.now in
        OnOk result (AreFreeBlocks words (has snapshot_blocks.new) (has blocks.new)) }
    ensures inodes { OnOk result (AreFreeInodes (words_in R.memory region.now) (has inodes.new)) }
    ensures counts { OnOk result (AreCounts (words_in R.memory region.now) counts.new) }
    ensures totals { IfOk result (HasTotals (words_in R.memory region.now)) }
    ensures fault { IfErr result (IsScanFault N.known (IsFault (words_in R.memory region.now))) }
    ensures no_blocks { OnErr result (blocks.new ≡ empty (length blocks.old)) }
    ensures no_inodes { OnErr result (inodes.new ≡ empty (length inodes.old)) }
    ensures no_snapshot_blocks { OnErr result (snapshot_blocks.new ≡ empty (length snapshot_blocks.old)) }
    ensures no_counts { OnErr result (counts.new ≡ replicate (length counts.old) 0) }
    ensures block_room { length blocks.new ≡ length blocks.old }
    ensures inode_room { length inodes.new ≡ length inodes.old }
    ensures snapshot_room { length snapshot_blocks.new ≡ length snapshot_blocks.old }
    ensures count_room { length counts.new ≡ length counts.old }
    ensures pending { pending.new ≡ pending.old }
{
    // The second tree comes first, so that one set of each kind suffices for both.
    find_snapshot(
        region,
        names,
        blocks,
        inodes,
        snapshot_blocks,
        pending,
        counts,
    )?;
    match scan(region, names, blocks, inodes, pending, counts) {
        Ok(totals) => {
            take_out(snapshot_blocks, blocks);
            let live = blocks.room() - 1 - blocks.count();
            Ok(Totals { live, ..totals })
        }
        Err(fault) => {
            snapshot_blocks.clear();
            Err(fault)
        }
    }
}

/// Reads both trees of the image in a region of 8 to 67,108,864 blocks of 512 words, and returns the totals of the
/// first tree, with the live blocks of both.
///
/// It puts the blocks of the second tree into `snapshot_blocks`, and the blocks that are in neither into `blocks`. It
/// puts the inodes that the first tree lacks into `inodes`, and the number of links that each inode has in it into the
/// counts. Their old contents do not matter.
///
/// For each tree that is there, the time is linear in the words that are in use and in the room of sets and counts,
/// except for a directory in which hashes of names collide: its names are sorted. It allocates 24 bytes for each entry
/// of the largest directory, and some 1,000 more, and frees them at its end.
///
/// # Errors
///
/// All sets are empty and each count is 0 then.
///
/// - `NotFormatted`: word 0 is the magic number of no version.
/// - `BadSize`: word 0 is right, and word 1 is not the number of blocks.
/// - `Damaged`: both are right, and a check of the format fails for one of the trees. The error has one check that
///   fails, and its place, which for the second tree is a place in the image itself.
/// - `Memory`: allocation failed.
pub fn scan_whole<R: Region>(
    alloc: Global,
    region: &R,
    blocks: &mut Blocks,
    inodes: &mut Inodes,
    snapshot_blocks: &mut Blocks,
    pending: &mut Pending,
    counts: &mut Counts,
) -> Result<Totals, MountFault>
    requires sized { IsSized (words_in R.memory region.now) }
    requires blocks { length blocks.old ≡ block_count (words_in R.memory region.now) }
    requires inodes { length inodes.old ≡ block_inodes * block_count (words_in R.memory region.now) }
    requires snapshot_blocks { length snapshot_blocks.old ≡ block_count (words_in R.memory region.now) }
    requires pending { pending.old ≡ block_inodes * block_count (words_in R.memory region.now) }
    requires counts { length counts.old ≡ block_inodes * block_count (words_in R.memory region.now) }
    ensures well_formed { OnOk result (IsFileSystem (words_in R.memory region.now)) }
    ensures snapshot_blocks { OnOk result (AreInSnapshot (words_in R.memory region.now) (has snapshot_blocks.new)) }
    ensures blocks { let words = words_in R.memory region.now in
        OnOk result (AreFreeBlocks words (has snapshot_blocks.new) (has blocks.new)) }
    ensures inodes { OnOk result (AreFreeInodes (words_in R.memory region.now) (has inodes.new)) }
    ensures counts { OnOk result (AreCounts (words_in R.memory region.now) counts.new) }
    ensures totals { IfOk result (HasTotals (words_in R.memory region.now)) }
    ensures fault { IfErr result (λ f. (f ≡ MountFault.Memory) ⊎ IsFault (words_in R.memory region.now) f) }
    ensures exact { IsFileSystem (words_in R.memory region.now) → IfErr result (λ f. f ≡ MountFault.Memory) }
    ensures no_blocks { OnErr result (blocks.new ≡ empty (length blocks.old)) }
    ensures no_inodes { OnErr result (inodes.new ≡ empty (length inodes.old)) }
    ensures no_snapshot_blocks { OnErr result (snapshot_blocks.new ≡ empty (length snapshot_blocks.old)) }
    ensures no_counts { OnErr result (counts.new ≡ replicate (length counts.old) 0) }
    ensures block_room { length blocks.new ≡ length blocks.old }
    ensures inode_room { length inodes.new ≡ length inodes.old }
    ensures snapshot_room { length snapshot_blocks.new ≡ length snapshot_blocks.old }
    ensures count_room { length counts.new ≡ length counts.old }
    ensures pending { pending.new ≡ pending.old }
{
    scan_trees(
        region,
        &mut CheckedNames::new(alloc),
        blocks,
        inodes,
        snapshot_blocks,
        pending,
        counts,
    )
}

/// Does what [`scan_whole`] does for an image that is known to be a file system: it checks no names, allocates nothing
/// and cannot fail.
pub fn scan_known<R: Region>(
    region: &R,
    blocks: &mut Blocks,
    inodes: &mut Inodes,
    snapshot_blocks: &mut Blocks,
    pending: &mut Pending,
    counts: &mut Counts,
) -> Totals
    requires well_formed { IsFileSystem (words_in R.memory region.now) }
    requires blocks { length blocks.old ≡ block_count (words_in R.memory region.now) }
    requires inodes { length inodes.old ≡ block_inodes * block_count (words_in R.memory region.now) }
    requires snapshot_blocks { length snapshot_blocks.old ≡ block_count (words_in R.memory region.now) }
    requires pending { pending.old ≡ block_inodes * block_count (words_in R.memory region.now) }
    requires counts { length counts.old ≡ block_inodes * block_count (words_in R.memory region.now) }
    ensures snapshot_blocks { AreInSnapshot (words_in R.memory region.now) (has snapshot_blocks.new) }
    ensures blocks { AreFreeBlocks (words_in R.memory region.now) (has snapshot_blocks.new) (has blocks.new) }
    ensures inodes { AreFreeInodes (words_in R.memory region.now) (has inodes.new) }
    ensures counts { AreCounts (words_in R.memory region.now) counts.new }
    ensures totals { HasTotals (words_in R.memory region.now) result }
    ensures block_room { length blocks.new ≡ length blocks.old }
    ensures inode_room { length inodes.new ≡ length inodes.old }
    ensures snapshot_room { length snapshot_blocks.new ≡ length snapshot_blocks.old }
    ensures count_room { length counts.new ≡ length counts.old }
    ensures pending { pending.new ≡ pending.old }
{
    match scan_trees(
        region,
        &mut KnownNames,
        blocks,
        inodes,
        snapshot_blocks,
        pending,
        counts,
    ) {
        Ok(totals) => totals,
        // No check fails for a file system, and known names take no memory.
        Err(_) => unreachable!(),
    }
}
