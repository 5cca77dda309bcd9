//! What a scan does about the names of a directory: it checks them, or knows that they are right.

ghost use Rattle.std.specs.Prelude.{◌≡◌, ◌*◌, ◌/◌, ◌≤◌, Bool, true, false, length, OnOk, IfErr};
ghost use Rattle.bp_layout.specs.Tree.{IsFull, IsSound};
ghost use Rattle.bp_limits.specs.Limits.{block_words, entry_size, max_blocks};
ghost use Rattle.bp_scan.specs.Misspelled.{FailsNames};
ghost use Rattle.bp_scan.specs.Walked.{IsWalkFault};
ghost use Rattle.bp_scan.specs.declared.name_check.WalkFault.TheVariants.{Check, Memory};
ghost use Rattle.bp_spelling.specs.Names.{AreNames};
ghost use Rattle.pm_region.specs.Memory.{words_in};

use bp_layout::Check;
use bp_limits::ENTRY_SIZE;
use bp_read::Tree;
use bp_spelling::{NameFault, Spelled, check_names, make_room};
use bp_walk::CheckFault;
use pm_region::Region;
use std::alloc::{AllocError, Global};

/// Why a walk over the trees of an image ends early.
#[derive(Clone, Copy)]
pub(crate) enum WalkFault {
    /// A check fails.
    Check(CheckFault),
    /// Allocation failed.
    Memory,
}

impl From<CheckFault> for WalkFault {
    ghost from_gives = { λ check fault. fault ≡ Check check };

    fn from(fault: CheckFault) -> WalkFault {
        WalkFault::Check(fault)
    }
}

impl From<AllocError> for WalkFault {
    ghost from_gives = { λ _ fault. fault ≡ Memory };

    fn from(_error: AllocError) -> WalkFault {
        WalkFault::Memory
    }
}

/// What a walk over the trees of an image does about the names of each directory.
pub(crate) trait NameCheck {
    /// Whether the names of all directories are known to be right.
    ghost known: { Bool };

    /// Checks the names of a directory.
    ///
    /// # Errors
    ///
    /// - `Check`: a name is not valid, or two entries have the same name.
    /// - `Memory`: allocation failed. It is not returned if the names are known.
    fn check<R: Region>(&mut self, region: &R, tree: Tree) -> Result<(), WalkFault>
        requires sound { IsSound (words_in R.memory region.now) tree.root tree.size }
        requires full { IsFull (words_in R.memory region.now) tree.root tree.size }
        requires most { length (words_in R.memory region.now) ≤ block_words * max_blocks }
        requires right { known ≡ true → AreNames (words_in R.memory region.now) tree.root tree.size }
        ensures ok { OnOk result (AreNames (words_in R.memory region.now) tree.root tree.size) }
        ensures err { let words = words_in R.memory region.now in
            IfErr result (IsWalkFault (FailsNames words tree.root tree.size) known) };
}

/// The names are known to be right, so nothing is checked.
#[derive(Drop)]
pub(crate) struct KnownNames;

impl NameCheck for KnownNames {
    ghost known = { true };

    fn check<R: Region>(&mut self, _region: &R, _tree: Tree) -> Result<(), WalkFault> {
        Ok(())
    }
}

/// The names are checked, in memory that grows to what the largest directory needs.
#[derive(Drop)]
pub(crate) struct CheckedNames {
    entries: Vec<Spelled>,
}

impl CheckedNames {
    /// Returns a check that has no memory yet.
    pub(crate) fn new(alloc: Global) -> CheckedNames {
        CheckedNames {
            entries: Vec::new(alloc),
        }
    }
}

impl NameCheck for CheckedNames {
    ghost known = { false };

    fn check<R: Region>(&mut self, region: &R, tree: Tree) -> Result<(), WalkFault> {
        make_room(&mut self.entries, (tree.size / ENTRY_SIZE) as usize)?;
        check_in(region, tree, &mut self.entries)
    }
}

/// Checks the names of a directory in memory for as many entries as it has.
fn check_in<R: Region>(region: &R, tree: Tree, entries: &mut [Spelled]) -> Result<(), WalkFault>
    requires sound { IsSound (words_in R.memory region.now) tree.root tree.size }
    requires full { IsFull (words_in R.memory region.now) tree.root tree.size }
    requires most { length (words_in R.memory region.now) ≤ block_words * max_blocks }
    requires room { tree.size / entry_size ≤ length entries.old }
    ensures ok { OnOk result (AreNames (words_in R.memory region.now) tree.root tree.size) }
    ensures err { let words = words_in R.memory region.now in
        IfErr result (IsWalkFault (FailsNames words tree.root tree.size) false) }
    ensures room { length entries.new ≡ length entries.old }
{
    match check_names(region, tree, entries) {
        Ok(()) => Ok(()),
        Err(NameFault::Form { place }) => Err(WalkFault::Check(CheckFault {
            check: Check::NameForm,
            place,
        })),
        Err(NameFault::Twice { place }) => Err(WalkFault::Check(CheckFault {
            check: Check::NameTwice,
            place,
        })),
    }
}
