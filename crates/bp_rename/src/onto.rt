//! Moves of a name onto another one, which it replaces.

ghost use Rattle.std.specs.Prelude.{◌≡◌, Some};
ghost use Rattle.bp_calls.specs.Commits.{CommitsChange, CommitsOrLacksSpace};
ghost use Rattle.bp_calls.specs.Space.{HasRoomWhereFree};
ghost use Rattle.bp_calls.specs.ThawedFor.{AreThawedFor};
ghost use Rattle.bp_calls.specs.Mounted.{image_in, IsExactIn};
ghost use Rattle.bp_cow.specs.Found.{AreWaysIn};
ghost use Rattle.bp_rename.specs.CanRename.{CanRename, change_of, change_onto};
ghost use Rattle.bp_rename.specs.Planned.{AreWordsOnto, TouchesOnto};
ghost use Rattle.bp_rename.specs.RenamesEntry.{MovesOnto, RenamesEntry};
ghost use Rattle.bp_changes.specs.Sets.{in_snapshot_of};
ghost use Rattle.pm_region.specs.Memory.{words_in};

use crate::moves::Move;
use crate::needs::ready_ways;
use crate::touched_words::{touched_two, trees_of_both};
use bp_calls::{entry_path, free_tree};
use bp_cow::{FoundWays, Touched, commit_at};
use bp_free::{NoSpace, Parts};
use bp_read::directory::entry_ino;
use bp_read::inodes::{get, tree_of};
use bp_read::{Slots, Tree};
use pm_region::Region;

/// Returns the touched words: the inode number of the entry that moves, and that of the entry in a slot of the new
/// directory.
fn words_onto<R: Region>(region: &R, to_move: &Move<'_>, slot: u64) -> [(Slots, u64); 2]
    requires can { CanRename (words_in R.memory region.now) to_move.now }
    requires onto { to_move.now.to_slot ≡ Some slot }
    ensures { AreWordsOnto (words_in R.memory region.now) to_move.now slot result }
{
    let source = tree_of(region, to_move.from_dir);
    let inode = entry_ino(region, source, to_move.from_slot);
    let emptied = entry_path(region, to_move.from_dir, to_move.from_slot);
    let entered = entry_path(region, to_move.to_dir, slot);
    [(emptied, 0), (entered, inode)]
}

/// Moves a name onto another one, by one commit of both inode numbers by the paths that were found. The inode that had
/// that name has one link less. If that was its last link, its inode is freed, and so are its blocks that are not
/// those of the snapshot.
fn move_onto<R: Region>(
    parts: &mut Parts<R>,
    to_move: &Move<'_>,
    slot: u64,
    touched: &Touched<'_>,
    found: &FoundWays,
)
    requires can { CanRename (image_in R.memory parts.old) to_move.now }
    requires onto { to_move.now.to_slot ≡ Some slot }
    requires exact { IsExactIn R.memory parts.old }
    requires thawed { AreThawedFor R.memory parts.old (change_onto to_move.now slot) }
    requires touches { TouchesOnto (image_in R.memory parts.old) to_move.now slot touched.now }
    requires found { AreWaysIn (image_in R.memory parts.old) touched.now found.now }
    ensures { CommitsChange R.memory parts.old parts.new (change_onto to_move.now slot) (MovesOnto to_move.now slot) }
{
    let target = tree_of(&parts.region, to_move.to_dir);
    let replaced = entry_ino(&parts.region, target, slot) as u32;
    let names = parts.link_counts.names(replaced) - 1;
    parts.link_counts.set(replaced, names);
    commit_at(parts, touched, found);
    if names > 0 {
        return;
    }
    // The inode is not reachable any more, but its words still lead to its blocks.
    let inode = get(&parts.region, replaced);
    let tree = Tree {
        root: inode.root,
        size: inode.size,
    };
    free_tree(
        &parts.region,
        tree,
        0,
        &mut parts.free_blocks,
        &parts.snapshot_blocks,
    );
    parts.free_inodes.give(replaced);
}

/// Moves a name onto another one, which it replaces.
///
/// # Errors
///
/// Those of `rename`.
pub(crate) fn rename_onto<R: Region>(
    parts: &mut Parts<R>,
    to_move: &Move<'_>,
    slot: u64,
) -> Result<(), NoSpace>
    requires can { CanRename (image_in R.memory parts.old) to_move.now }
    requires onto { to_move.now.to_slot ≡ Some slot }
    requires exact { IsExactIn R.memory parts.old }
    requires room { HasRoomWhereFree (R.memory parts.old.region) (in_snapshot_of parts.old) parts.old.free_blocks (change_of to_move.now) }
    ensures { CommitsOrLacksSpace R.memory parts.old parts.new result (change_of to_move.now) (RenamesEntry to_move.now) }
{
    let words = words_onto(&parts.region, to_move, slot);
    let trees = trees_of_both(&parts.region, to_move.from_dir, to_move.to_dir);
    let touched = touched_two(&words, &trees);
    match ready_ways(parts, to_move, None, &touched, 0) {
        Ok(found) => {
            move_onto(parts, to_move, slot, &touched, &found);
            Ok(())
        }
        Err(lacks) => Err(lacks),
    }
}
