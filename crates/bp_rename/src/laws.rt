//! Properties of renames. Each is the contract of a function with an empty body.

ghost use Rattle.bp_changes.specs.Thawed.{AfterThaw};
ghost use Rattle.bp_layout.specs.WellFormed.{IsWellFormed};
ghost use Rattle.bp_rename.specs.CanRename.{CanRename};
ghost use Rattle.bp_rename.specs.MovesPath.{IsFoundMove, MovesPath};
ghost use Rattle.bp_rename.specs.RenamesEntry.{RenamesEntry};

use crate::moves::Move;

/// States that a renamed name has moved in the abstract tree, with all below it, for each two paths that find its
/// directories, of which the second is not below the name.
pub fn renamed_names_move(old: &[u64], new: &[u64], to_move: &Move<'_>)
    requires { CanRename old.now to_move.now }
    ensures { AfterThaw (RenamesEntry to_move.now) old.now new.now → MovesPath to_move.now old.now new.now }
{}

/// States that a name that a path finds may move into a directory that is not below it. If an entry has the new name
/// there, it has to refer to another inode and be one that may be removed.
pub fn found_names_may_move(image: &[u64], to_move: &Move<'_>)
    requires { IsWellFormed image.now }
    ensures { IsFoundMove image.now to_move.now → CanRename image.now to_move.now }
{}
