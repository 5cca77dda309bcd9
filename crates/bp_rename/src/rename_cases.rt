//! Renames. There are four cases, by the place of the new name.

ghost use Rattle.bp_calls.specs.Commits.{CommitsOrLacksSpace};
ghost use Rattle.bp_calls.specs.Space.{HasRoomWhereFree};
ghost use Rattle.bp_calls.specs.Mounted.{image_in, IsExactIn};
ghost use Rattle.bp_rename.specs.CanRename.{CanRename, IsSlotAcross, change_of};
ghost use Rattle.bp_rename.specs.RenamesEntry.{RenamesEntry};
ghost use Rattle.bp_changes.specs.Sets.{in_snapshot_of};

use crate::across::rename_into;
use crate::moves::Move;
use crate::onto::rename_onto;
use crate::past_end::rename_past_end;
use crate::within::rename_within;
use bp_free::{NoSpace, Parts};
use pm_region::Region;

/// Moves a name, by one store alone in its epoch. The file or empty directory that had the new name has one link less.
/// If that was its last link, its inode is freed, and so are its blocks that are not those of the snapshot.
///
/// The caller has found the least empty slot of the new directory, `None` if no entry is empty. If an entry has the
/// new name, or if the name stays in its directory, the slot is not used.
///
/// # Errors
///
/// Nothing has changed then.
///
/// - `NoSpace`: fewer blocks are free than the rename needs, including those that are thawed. It is returned in
///   exactly this case.
pub fn rename<R: Region>(
    parts: &mut Parts<R>,
    to_move: &Move<'_>,
    empty: Option<u64>,
) -> Result<(), NoSpace>
    requires can { CanRename (image_in R.memory parts.old) to_move.now }
    requires empty { IsSlotAcross (image_in R.memory parts.old) to_move.now empty }
    requires exact { IsExactIn R.memory parts.old }
    requires room { HasRoomWhereFree (R.memory parts.old.region) (in_snapshot_of parts.old) parts.old.free_blocks (change_of to_move.now) }
    ensures { CommitsOrLacksSpace R.memory parts.old parts.new result (change_of to_move.now) (RenamesEntry to_move.now) }
{
    match to_move.to_slot {
        Some(slot) => rename_onto(parts, to_move, slot),
        None if to_move.from_dir == to_move.to_dir => rename_within(parts, to_move),
        None => match empty {
            Some(slot) => rename_into(parts, to_move, slot),
            None => rename_past_end(parts, to_move),
        },
    }
}
