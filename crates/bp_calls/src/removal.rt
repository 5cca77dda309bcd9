//! Removal of names from directories.

ghost use Rattle.std.specs.Prelude.{◌≡◌, ◌≤◌, [], IfErr, OnErr, OnOk};
ghost use Rattle.bp_calls.specs.Commits.{CommitsChange, CommitsOrLacksSpace};
ghost use Rattle.bp_calls.specs.Mounted.{image_in, IsMountedIn};
ghost use Rattle.bp_calls.specs.Space.{HasRoomWhereFree, LacksSpace};
ghost use Rattle.bp_calls.specs.ThawsFor.{ThawsBefore};
ghost use Rattle.bp_changes.specs.Effects.{CanUnlink, RemovesEntry};
ghost use Rattle.bp_layout.specs.Directory.{ino_at};
ghost use Rattle.bp_layout.specs.Need.Change.{leaves};
ghost use Rattle.bp_layout.specs.Thaw.{thawed};
ghost use Rattle.bp_changes.specs.Sets.{in_snapshot_of};
ghost use Rattle.pm_region.specs.Memory.{room_in};

use crate::release::free_tree;
use crate::targets::leaving;
use crate::thaw::thaw_before;
use bp_free::{NoSpace, Parts};
use bp_layout::INO_WORD;
use bp_read::directory::{entry_ino, entry_place};
use bp_read::inodes::tree_of;
use pm_region::{Region, commit_word};

/// Thaws the blocks of the snapshot on the path to the inode number of an entry.
///
/// # Errors
///
/// Nothing has changed then.
///
/// - `NoSpace`: fewer blocks are free than the thaw takes. It is returned in exactly this case.
fn thaw_entry<R: Region>(parts: &mut Parts<R>, dir: u32, slot: u64) -> Result<(), NoSpace>
    requires mounted { IsMountedIn R.memory parts.old }
    requires can { CanUnlink (image_in R.memory parts.old) dir slot
        (ino_at (image_in R.memory parts.old) dir slot) }
    requires room { HasRoomWhereFree (R.memory parts.old.region) (in_snapshot_of parts.old) parts.old.free_blocks (leaves dir slot) }
    ensures thaws { OnOk result (ThawsBefore R.memory parts.old parts.new (leaves dir slot)) }
    ensures room { OnOk result (3 ≤ room_in (R.memory parts.new.region)) }
    ensures refused { IfErr result (LacksSpace (image_in R.memory parts.old) (in_snapshot_of parts.old) (leaves dir slot)) }
    ensures same { OnErr result (parts.new ≡ parts.old) }
{
    if parts.snapshot_blocks.count() == 0 {
        return Ok(());
    }
    let targets = leaving(&parts.region, dir, slot);
    thaw_before(parts, &targets, 0)
}

/// Does what [`remove`] does once no block is left to thaw.
fn take_out<R: Region>(parts: &mut Parts<R>, dir: u32, slot: u64)
    requires mounted { IsMountedIn R.memory parts.old }
    requires can { CanUnlink (image_in R.memory parts.old) dir slot
        (ino_at (image_in R.memory parts.old) dir slot) }
    requires clear { thawed (image_in R.memory parts.old) (in_snapshot_of parts.old) (leaves dir slot) ≡ [] }
    requires room { 3 ≤ room_in (R.memory parts.old.region) }
    ensures { CommitsChange R.memory parts.old parts.new (leaves dir slot) (λ image after. RemovesEntry image after dir slot) }
{
    let directory = tree_of(&parts.region, dir);
    let entry = entry_place(&parts.region, directory, slot, INO_WORD);
    let ino = entry_ino(&parts.region, directory, slot) as u32;
    let tree = tree_of(&parts.region, ino);
    let names = parts.link_counts.names(ino) - 1;
    parts.link_counts.set(ino, names);
    commit_word(&mut parts.region, entry, 0);
    if names > 0 {
        return;
    }
    let shorter = 0;
    let snapshot_blocks = &parts.snapshot_blocks;
    free_tree(
        &parts.region,
        tree,
        shorter,
        &mut parts.free_blocks,
        snapshot_blocks,
    );
    parts.free_inodes.give(ino);
}

/// Removes a name from a directory, if it refers to a file or an empty directory, by one store alone in its epoch: of
/// 0 to the inode number of the entry in `slot`. It needs no block except those that it thaws. If the inode has no
/// other name, no path reaches it then: its words stay as they were, and its number and its blocks are freed, except
/// the blocks of the snapshot.
///
/// # Errors
///
/// Nothing has changed then.
///
/// - `NoSpace`: fewer blocks are free than the call needs. It is returned in exactly this case.
pub fn remove<R: Region>(parts: &mut Parts<R>, dir: u32, slot: u64) -> Result<(), NoSpace>
    requires mounted { IsMountedIn R.memory parts.old }
    requires can { CanUnlink (image_in R.memory parts.old) dir slot
        (ino_at (image_in R.memory parts.old) dir slot) }
    requires room { HasRoomWhereFree (R.memory parts.old.region) (in_snapshot_of parts.old) parts.old.free_blocks (leaves dir slot) }
    ensures { CommitsOrLacksSpace R.memory parts.old parts.new result (leaves dir slot)
        (λ image after. RemovesEntry image after dir slot) }
{
    match thaw_entry(parts, dir, slot) {
        Ok(()) => {
            take_out(parts, dir, slot);
            Ok(())
        }
        Err(lacks) => Err(lacks),
    }
}
