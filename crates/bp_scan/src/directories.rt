//! The directories of an image, one after the other.

ghost use Rattle.std.specs.Prelude.{◌≡◌, ◌≢◌, true, false, ◌+◌, ◌/◌, ◌%◌, ◌<◌, ◌≤◌, OnOk, IfErr};
ghost use Rattle.bp_free.specs.Set.{has};
ghost use Rattle.bp_layout.specs.Checks.{Fails};
ghost use Rattle.bp_layout.specs.Inode.{inode_count};
ghost use Rattle.bp_layout.specs.Directory.{ino_in};
ghost use Rattle.bp_layout.specs.Tree.{IsFull, IsSound};
ghost use Rattle.bp_limits.specs.Limits.{block_entries, entry_size};
ghost use Rattle.bp_layout.specs.WellFormed.{IsWellFormed};
ghost use Rattle.bp_scan.specs.Reading.{IsReading, IsAtHand, IsInside, steps};
ghost use Rattle.bp_scan.specs.Room.{HasScanMemory};
ghost use Rattle.bp_scan.specs.Walked.{IsWalkFault};
ghost use Rattle.bp_spelling.specs.Gathered.{leaf_end};
ghost use Rattle.bp_spelling.specs.Names.{entry_place_in};
ghost use Rattle.pm_region.specs.Memory.{words_in};

use crate::name_check::{NameCheck, WalkFault};
use crate::trees::enter;
use crate::work::Scan;
use bp_layout::{Check, INO_WORD, Kind};
use bp_limits::{BLOCK_ENTRIES, ENTRY_SIZE, INODE_SIZE};
use bp_read::Tree;
use bp_read::directory::entry_place;
use bp_read::inodes::{get, inode_file};
use bp_spelling::named_in_row;
use bp_walk::CheckFault;
use pm_region::Region;

/// A directory, and its tree.
#[derive(Clone, Copy)]
pub(crate) struct Directory {
    /// The number of the directory's inode.
    pub inode: u32,
    /// The root word and the size of its tree.
    pub tree: Tree,
}

/// An entry of a directory: its slot, and the inode to which it refers.
#[derive(Clone, Copy)]
pub(crate) struct Slot {
    /// The number of the slot.
    pub number: u64,
    /// The number of the inode to which the entry refers.
    pub named: u32,
}

/// Returns a check that fails at an entry of a directory. The place is that of the entry's first word.
fn entry_fault<R: Region>(region: &R, directory: Directory, slot: u64, check: Check) -> CheckFault
    requires sound { IsSound (words_in R.memory region.now) directory.tree.root directory.tree.size }
    requires full { IsFull (words_in R.memory region.now) directory.tree.root directory.tree.size }
    requires live { slot < directory.tree.size / entry_size }
    ensures check { result.check ≡ check }
    ensures place { result.place ≡ entry_place_in (words_in R.memory region.now) directory.tree.root slot }
{
    CheckFault {
        check,
        place: entry_place(region, directory.tree, slot, INO_WORD),
    }
}

/// Reads an entry that refers to an inode which was entered before: a file may have more than one link.
fn read_again<R: Region>(
    region: &R,
    directory: Directory,
    slot: Slot,
    work: &mut Scan,
) -> Result<(), CheckFault>
    requires inside { IsInside (words_in R.memory region.now) work.old directory slot.number }
    requires live { slot.number < directory.tree.size / entry_size }
    requires named { slot.named ≡ ino_in (words_in R.memory region.now) directory.tree.root slot.number }
    requires some { slot.named ≢ 0 }
    requires there { slot.named < inode_count (words_in R.memory region.now) }
    requires entered { has work.old.inodes slot.named ≡ false }
    ensures inside { OnOk result (IsInside (words_in R.memory region.now) work.new directory (slot.number + 1)) }
    ensures steps { OnOk result (steps work.new ≤ steps work.old) }
    ensures fault { IfErr result (λ f. Fails (words_in R.memory region.now) f.check f.place) }
    ensures room { HasScanMemory (words_in R.memory region.now) work.new }
{
    match get(region, slot.named).kind {
        Kind::File => {
            let names = work.counts.names(slot.named);
            work.counts.set(slot.named, names + 1);
            Ok(())
        }
        Kind::Dir => Err(entry_fault(region, directory, slot.number, Check::InodeTwice)),
    }
}

/// Reads an entry that refers to an inode, and enters the inode if no entry before referred to it.
fn read_named<R: Region>(
    region: &R,
    directory: Directory,
    slot: Slot,
    work: &mut Scan,
) -> Result<(), CheckFault>
    requires inside { IsInside (words_in R.memory region.now) work.old directory slot.number }
    requires live { slot.number < directory.tree.size / entry_size }
    requires named { slot.named ≡ ino_in (words_in R.memory region.now) directory.tree.root slot.number }
    requires some { slot.named ≢ 0 }
    requires there { slot.named < inode_count (words_in R.memory region.now) }
    ensures inside { OnOk result (IsInside (words_in R.memory region.now) work.new directory (slot.number + 1)) }
    ensures steps { OnOk result (steps work.new ≤ steps work.old) }
    ensures fault { IfErr result (λ f. Fails (words_in R.memory region.now) f.check f.place) }
    ensures room { HasScanMemory (words_in R.memory region.now) work.new }
{
    if !work.inodes.is_free(slot.named) {
        return read_again(region, directory, slot, work);
    }
    work.inodes.claim(slot.named);
    work.counts.set(slot.named, 1);
    enter(region, slot.named, work)
}

/// Reads the entry in a slot of a directory, given its inode number.
fn read_entry<R: Region>(
    region: &R,
    directory: Directory,
    number: u64,
    named: u64,
    work: &mut Scan,
) -> Result<(), CheckFault>
    requires inside { IsInside (words_in R.memory region.now) work.old directory number }
    requires live { number < directory.tree.size / entry_size }
    requires named { named ≡ ino_in (words_in R.memory region.now) directory.tree.root number }
    ensures inside { OnOk result (IsInside (words_in R.memory region.now) work.new directory (number + 1)) }
    ensures steps { OnOk result (steps work.new ≤ steps work.old) }
    ensures fault { IfErr result (λ f. Fails (words_in R.memory region.now) f.check f.place) }
    ensures room { HasScanMemory (words_in R.memory region.now) work.new }
{
    if named == 0 {
        return Ok(());
    }
    if named >= inode_file(region).size / INODE_SIZE {
        return Err(entry_fault(region, directory, number, Check::InodeNumber));
    }
    let slot = Slot {
        number,
        named: named as u32,
    };
    read_named(region, directory, slot, work)
}

/// Reads the entries of a leaf of a directory, from slot `first` on. Their inode numbers are loaded together.
fn read_leaf<R: Region>(
    region: &R,
    directory: Directory,
    first: u64,
    work: &mut Scan,
) -> Result<(), CheckFault>
    requires inside { IsInside (words_in R.memory region.now) work.old directory first }
    requires starts { first % block_entries ≡ 0 }
    requires live { first < directory.tree.size / entry_size }
    ensures inside { let words = words_in R.memory region.now in
        OnOk result (IsInside words work.new directory (leaf_end directory.tree.size first)) }
    ensures steps { OnOk result (steps work.new ≤ steps work.old) }
    ensures fault { IfErr result (λ f. Fails (words_in R.memory region.now) f.check f.place) }
    ensures room { HasScanMemory (words_in R.memory region.now) work.new }
{
    let _words = region.words();
    let row = entry_place(region, directory.tree, first, INO_WORD);
    let slots = (directory.tree.size / ENTRY_SIZE - first).min(BLOCK_ENTRIES) as u32;
    let named = named_in_row(region, row, slots);
    for k in 0..slots {
        read_entry(region, directory, first + k as u64, named[k as usize], work)?;
    }
    Ok(())
}

/// Reads the entries of a directory whose names are right.
fn read_entries<R: Region>(
    region: &R,
    directory: Directory,
    work: &mut Scan,
) -> Result<(), CheckFault>
    requires { IsInside (words_in R.memory region.now) work.old directory 0 }
    ensures inside { let words = words_in R.memory region.now in
        OnOk result (IsInside words work.new directory (directory.tree.size / entry_size)) }
    ensures steps { OnOk result (steps work.new ≤ steps work.old) }
    ensures fault { IfErr result (λ f. Fails (words_in R.memory region.now) f.check f.place) }
    ensures room { HasScanMemory (words_in R.memory region.now) work.new }
{
    for leaf in 0..(directory.tree.size / ENTRY_SIZE).div_ceil(BLOCK_ENTRIES) {
        read_leaf(region, directory, BLOCK_ENTRIES * leaf, work)?;
    }
    Ok(())
}

/// Reads the current directory.
pub(crate) fn read_directory<R: Region, N: NameCheck>(
    region: &R,
    ino: u32,
    names: &mut N,
    work: &mut Scan,
) -> Result<(), WalkFault>
    requires at_hand { IsAtHand (words_in R.memory region.now) work.old ino 0 }
    requires known { N.known ≡ true → IsWellFormed (words_in R.memory region.now) }
    ensures done { OnOk result (IsReading (words_in R.memory region.now) work.new 0 0) }
    ensures steps { OnOk result (steps work.new ≤ steps work.old) }
    ensures fault { IfErr result (IsWalkFault (Fails (words_in R.memory region.now)) N.known) }
    ensures room { HasScanMemory (words_in R.memory region.now) work.new }
{
    let words = get(region, ino);
    let tree = Tree::of(&words);
    names.check(region, tree)?;
    read_entries(region, Directory { inode: ino, tree }, work)?;
    Ok(())
}
