//! Moves of a name to another directory, none of whose entries is empty.

ghost use Rattle.std.specs.Prelude.{◌≡◌, ◌≢◌, None};
ghost use Rattle.bp_calls.specs.Commits.{CommitsChange, CommitsOrLacksSpace};
ghost use Rattle.bp_calls.specs.Space.{HasRoomWhereFree};
ghost use Rattle.bp_calls.specs.ThawedFor.{AreThawedFor};
ghost use Rattle.bp_calls.specs.Mounted.{image_in, IsExactIn};
ghost use Rattle.bp_cow.specs.Found.{AreWaysIn};
ghost use Rattle.bp_layout.specs.Directory.{empty_slot};
ghost use Rattle.bp_rename.specs.CanRename.{CanRename, change_across, change_of};
ghost use Rattle.bp_rename.specs.Planned.{AreWordsPastEnd, TouchesPastEnd};
ghost use Rattle.bp_rename.specs.RenamesEntry.{RenamesEntry};
ghost use Rattle.bp_changes.specs.Sets.{in_snapshot_of};
ghost use Rattle.pm_region.specs.Memory.{words_in};

use crate::moves::Move;
use crate::needs::ready_ways;
use crate::touched_words::{touched_two, trees_of_one};
use bp_append::need_prep;
use bp_calls::{append_entry, entry_path};
use bp_cow::{FoundWays, Touched, commit_at};
use bp_free::{NoSpace, Parts};
use bp_limits::ENTRY_SIZE;
use bp_read::Slots;
use bp_read::directory::entry_ino;
use bp_read::inodes::{size_path, tree_of};
use pm_region::Region;

/// Returns the touched words: the size of the new directory, which will include one more entry, and the inode number
/// of the entry that moves.
fn words_past_end<R: Region>(region: &R, to_move: &Move<'_>) -> [(Slots, u64); 2]
    requires can { CanRename (words_in R.memory region.now) to_move.now }
    ensures { AreWordsPastEnd (words_in R.memory region.now) to_move.now result }
{
    let target = tree_of(region, to_move.to_dir);
    let sized = size_path(region, to_move.to_dir);
    let emptied = entry_path(region, to_move.from_dir, to_move.from_slot);
    [(sized, target.size + ENTRY_SIZE), (emptied, 0)]
}

/// Moves a name after the last entry of its new directory. An entry is written there, where it is not visible. Then
/// one commit, by the paths that were found, stores the directory's size, which includes the entry, and empties the
/// old entry.
fn move_past_end<R: Region>(
    parts: &mut Parts<R>,
    to_move: &Move<'_>,
    touched: &Touched<'_>,
    found: &FoundWays,
)
    requires can { CanRename (image_in R.memory parts.old) to_move.now }
    requires new { to_move.now.to_slot ≡ None }
    requires other { to_move.now.from_dir ≢ to_move.now.to_dir }
    requires none { empty_slot (image_in R.memory parts.old) to_move.now.to_dir ≡ None }
    requires exact { IsExactIn R.memory parts.old }
    requires thawed { AreThawedFor R.memory parts.old (change_across to_move.now) }
    requires touches { TouchesPastEnd (image_in R.memory parts.old) to_move.now touched.now }
    requires found { AreWaysIn (image_in R.memory parts.old) touched.now found.now }
    ensures { CommitsChange R.memory parts.old parts.new (change_across to_move.now) (RenamesEntry to_move.now) }
{
    let source = tree_of(&parts.region, to_move.from_dir);
    let ino = entry_ino(&parts.region, source, to_move.from_slot) as u32;
    let target = tree_of(&parts.region, to_move.to_dir);
    append_entry(parts, to_move.to_dir, target, ino, to_move.name);
    commit_at(parts, touched, found);
}

/// Moves a name to another directory, in which it is new, after the last entry of that directory.
///
/// # Errors
///
/// Those of `rename`.
pub(crate) fn rename_past_end<R: Region>(
    parts: &mut Parts<R>,
    to_move: &Move<'_>,
) -> Result<(), NoSpace>
    requires can { CanRename (image_in R.memory parts.old) to_move.now }
    requires new { to_move.now.to_slot ≡ None }
    requires other { to_move.now.from_dir ≢ to_move.now.to_dir }
    requires none { empty_slot (image_in R.memory parts.old) to_move.now.to_dir ≡ None }
    requires exact { IsExactIn R.memory parts.old }
    requires room { HasRoomWhereFree (R.memory parts.old.region) (in_snapshot_of parts.old) parts.old.free_blocks (change_of to_move.now) }
    ensures { CommitsOrLacksSpace R.memory parts.old parts.new result (change_of to_move.now) (RenamesEntry to_move.now) }
{
    let target = tree_of(&parts.region, to_move.to_dir);
    let past_end = need_prep(&parts.region, target, target.size, target.size + ENTRY_SIZE);
    let words = words_past_end(&parts.region, to_move);
    let trees = trees_of_one(&parts.region, to_move.from_dir);
    let touched = touched_two(&words, &trees);
    match ready_ways(parts, to_move, None, &touched, past_end) {
        Ok(found) => {
            move_past_end(parts, to_move, &touched, &found);
            Ok(())
        }
        Err(lacks) => Err(lacks),
    }
}
