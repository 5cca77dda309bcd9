//! Moves of a name to another directory, into an empty entry.

ghost use Rattle.std.specs.Prelude.{◌≡◌, ◌≢◌, None, Some};
ghost use Rattle.bp_calls.specs.Commits.{CommitsChange, CommitsOrLacksSpace};
ghost use Rattle.bp_calls.specs.Space.{HasRoomWhereFree};
ghost use Rattle.bp_calls.specs.ThawedFor.{AreThawedFor};
ghost use Rattle.bp_calls.specs.Mounted.{image_in, IsExactIn};
ghost use Rattle.bp_cow.specs.Found.{AreWaysIn};
ghost use Rattle.bp_layout.specs.Directory.{empty_slot};
ghost use Rattle.bp_rename.specs.CanRename.{CanRename, change_across, change_of};
ghost use Rattle.bp_rename.specs.Planned.{AreWordsInto, TouchesInto};
ghost use Rattle.bp_rename.specs.RenamesEntry.{RenamesEntry};
ghost use Rattle.bp_changes.specs.Sets.{in_snapshot_of};
ghost use Rattle.pm_region.specs.Memory.{words_in};

use crate::moves::Move;
use crate::needs::ready_ways;
use crate::touched_words::{touched_two, trees_of_both};
use bp_calls::entry_path;
use bp_cow::{FoundWays, Touched, commit_at};
use bp_free::{NoSpace, Parts};
use bp_layout::INO_WORD;
use bp_read::directory::{entry_ino, entry_place};
use bp_read::inodes::tree_of;
use bp_read::{Slots, put_name};
use pm_region::Region;

/// Returns the touched words: the inode number of an empty entry of the new directory, and that of the entry that
/// moves.
fn words_into<R: Region>(region: &R, to_move: &Move<'_>, slot: u64) -> [(Slots, u64); 2]
    requires can { CanRename (words_in R.memory region.now) to_move.now }
    requires found { empty_slot (words_in R.memory region.now) to_move.now.to_dir ≡ Some slot }
    ensures { AreWordsInto (words_in R.memory region.now) to_move.now slot result }
{
    let source = tree_of(region, to_move.from_dir);
    let inode = entry_ino(region, source, to_move.from_slot);
    let entered = entry_path(region, to_move.to_dir, slot);
    let emptied = entry_path(region, to_move.from_dir, to_move.from_slot);
    [(entered, inode), (emptied, 0)]
}

/// Moves a name into an empty entry: the name is written there, where it is not visible, and then one commit stores
/// both inode numbers, by the paths that were found.
fn move_into<R: Region>(
    parts: &mut Parts<R>,
    to_move: &Move<'_>,
    slot: u64,
    touched: &Touched<'_>,
    found: &FoundWays,
)
    requires can { CanRename (image_in R.memory parts.old) to_move.now }
    requires new { to_move.now.to_slot ≡ None }
    requires other { to_move.now.from_dir ≢ to_move.now.to_dir }
    requires empty { empty_slot (image_in R.memory parts.old) to_move.now.to_dir ≡ Some slot }
    requires exact { IsExactIn R.memory parts.old }
    requires thawed { AreThawedFor R.memory parts.old (change_across to_move.now) }
    requires touches { TouchesInto (image_in R.memory parts.old) to_move.now slot touched.now }
    requires found { AreWaysIn (image_in R.memory parts.old) touched.now found.now }
    ensures { CommitsChange R.memory parts.old parts.new (change_across to_move.now) (RenamesEntry to_move.now) }
{
    let target = tree_of(&parts.region, to_move.to_dir);
    let entry = entry_place(&parts.region, target, slot, INO_WORD);
    put_name(&mut parts.region, entry, to_move.name);
    // The store of `commit_at` has a barrier before it anyway. But its contract on crashes starts from the words that
    // it finds, so all stores before it are written back first.
    parts.region.barrier();
    commit_at(parts, touched, found);
}

/// Moves a name to another directory, in which it is new, into the least empty slot of that directory.
///
/// # Errors
///
/// Those of `rename`.
pub(crate) fn rename_into<R: Region>(
    parts: &mut Parts<R>,
    to_move: &Move<'_>,
    slot: u64,
) -> Result<(), NoSpace>
    requires can { CanRename (image_in R.memory parts.old) to_move.now }
    requires new { to_move.now.to_slot ≡ None }
    requires other { to_move.now.from_dir ≢ to_move.now.to_dir }
    requires empty { empty_slot (image_in R.memory parts.old) to_move.now.to_dir ≡ Some slot }
    requires exact { IsExactIn R.memory parts.old }
    requires room { HasRoomWhereFree (R.memory parts.old.region) (in_snapshot_of parts.old) parts.old.free_blocks (change_of to_move.now) }
    ensures { CommitsOrLacksSpace R.memory parts.old parts.new result (change_of to_move.now) (RenamesEntry to_move.now) }
{
    let words = words_into(&parts.region, to_move, slot);
    let trees = trees_of_both(&parts.region, to_move.from_dir, to_move.to_dir);
    let touched = touched_two(&words, &trees);
    match ready_ways(parts, to_move, Some(slot), &touched, 0) {
        Ok(found) => {
            move_into(parts, to_move, slot, &touched, &found);
            Ok(())
        }
        Err(lacks) => Err(lacks),
    }
}
