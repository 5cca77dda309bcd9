//! Hard links.

ghost use Rattle.std.specs.Prelude.{Some, ◌≡◌, ◌≤◌, None, IfErr, OnErr, OnOk};
ghost use Rattle.bp_free.specs.Parts.{KeepsSets};
ghost use Rattle.bp_calls.specs.Commits.{CommitsChange, CommitsOrLacksSpace};
ghost use Rattle.bp_calls.specs.Created.{CountsMore, LinksEntry};
ghost use Rattle.bp_calls.specs.Mounted.{image_in, IsExactIn, IsMountedIn};
ghost use Rattle.bp_calls.specs.NewEntry.{KeepsFree, KeepsFreeInodesIn, LinksInSlot, PerformsEntryIn};
ghost use Rattle.bp_calls.specs.Space.{HasRoomWhereFree, LacksSpace};
ghost use Rattle.bp_calls.specs.Steps.{CanLink, CanLinkPastEnd, CanShare, entering_room, name_need};
ghost use Rattle.bp_calls.specs.ThawedFor.{AreThawedFor};
ghost use Rattle.bp_calls.specs.ThawsFor.{ThawsBefore};
ghost use Rattle.bp_layout.specs.Directory.{empty_slot, slot_named};
ghost use Rattle.bp_layout.specs.Paths.{IsName};
ghost use Rattle.bp_layout.specs.Inode.{IsDirectory, IsFile};
ghost use Rattle.bp_layout.specs.Need.Change.{enters};
ghost use Rattle.bp_layout.specs.Need.Entrant.{linked};
ghost use Rattle.bp_layout.specs.Reached.{IsReached};
ghost use Rattle.bp_changes.specs.Sets.{in_snapshot_of};
ghost use Rattle.pm_region.specs.Memory.{words_in, room_in};

use crate::creation::entry_need;
use crate::new_entry::{append_entry, entering};
use crate::thaw::thaw_before;
use bp_free::{NoSpace, Parts};
use bp_layout::INO_WORD;
use bp_limits::{ENTRY_SIZE, SIZE_FIELD};
use bp_read::directory::entry_place;
use bp_read::inodes::{place, tree_of};
use bp_read::put_name;
use pm_region::{Region, commit_word};

/// Enters a name for an existing file in an empty entry of a directory, if the block of the entry is not in the
/// snapshot.
fn link_slot<R: Region>(region: &mut R, dir: u32, slot: u64, ino: u32, name: &[u8])
    requires can { CanLink (words_in R.memory region.old) dir ino name.now }
    requires found { empty_slot (words_in R.memory region.old) dir ≡ Some slot }
    requires room { entering_room (name_need (words_in R.memory region.old) dir) ≤ room_in (R.memory region.old) }
    ensures performs { LinksInSlot (R.memory region.old) (R.memory region.new) dir slot name.now ino }
    ensures exact { KeepsFree (R.memory region.old) (R.memory region.new) }
    ensures counts { CountsMore (words_in R.memory region.old) (words_in R.memory region.new) ino }
{
    let tree = tree_of(region, dir);
    let entry = entry_place(region, tree, slot, INO_WORD);
    put_name(region, entry, name);
    commit_word(region, entry, u64::from(ino));
}

/// Enters a name for an existing file in an entry after the last one of a directory, whose size then includes it.
fn link_past_end<R: Region>(parts: &mut Parts<R>, dir: u32, ino: u32, name: &[u8])
    requires can { CanLinkPastEnd (in_snapshot_of parts.old) (R.memory parts.old.region) parts.old.free_blocks dir ino name.now }
    ensures performs { PerformsEntryIn R.memory parts.old parts.new dir linked (LinksEntry dir name.now ino) }
    ensures exact { KeepsFreeInodesIn R.memory parts.old parts.new }
    ensures counts { CountsMore (image_in R.memory parts.old) (image_in R.memory parts.new) ino }
    ensures keeps { KeepsSets parts.old parts.new }
{
    let tree = tree_of(&parts.region, dir);
    let size_place = place(&parts.region, dir, SIZE_FIELD);
    append_entry(parts, dir, tree, ino, name);
    commit_word(&mut parts.region, size_place, tree.size + ENTRY_SIZE);
}

/// Thaws the blocks of the snapshot near the words where the name of an existing file is stored in a directory, given
/// its least empty slot.
///
/// # Errors
///
/// Nothing has changed then.
///
/// - `NoSpace`: fewer blocks are free than the thaw and the name take. It is returned in exactly this case.
fn thaw_linked<R: Region>(parts: &mut Parts<R>, dir: u32, slot: Option<u64>) -> Result<(), NoSpace>
    requires mounted { IsMountedIn R.memory parts.old }
    requires reached { IsReached (image_in R.memory parts.old) dir }
    requires directory { IsDirectory (image_in R.memory parts.old) dir }
    requires slot { slot ≡ empty_slot (image_in R.memory parts.old) dir }
    requires room { HasRoomWhereFree (R.memory parts.old.region) (in_snapshot_of parts.old) parts.old.free_blocks (enters dir linked) }
    ensures thaws { OnOk result (ThawsBefore R.memory parts.old parts.new (enters dir linked)) }
    ensures thawed { OnOk result (AreThawedFor R.memory parts.new (enters dir linked)) }
    ensures refused { IfErr result (λ lacks. LacksSpace (image_in R.memory parts.old) (in_snapshot_of parts.old)
        (enters dir linked) lacks) }
    ensures same { OnErr result (parts.new ≡ parts.old) }
{
    let need = entry_need(&parts.region, dir, slot);
    if parts.snapshot_blocks.count() == 0 {
        let free = parts.free_blocks.count();
        if free < need {
            return Err(NoSpace { need, free });
        }
        return Ok(());
    }
    let targets = entering(&parts.region, dir, slot);
    thaw_before(parts, &targets, need)
}

/// Gives a file another link, in a directory's least empty slot or after its last entry, once no block is left to
/// thaw.
fn add_link<R: Region>(parts: &mut Parts<R>, dir: u32, slot: Option<u64>, name: &[u8], ino: u32)
    requires can { CanShare (in_snapshot_of parts.old) (R.memory parts.old.region) parts.old.free_blocks parts.old.free_inodes dir ino name.now }
    requires exact { IsExactIn R.memory parts.old }
    requires slot { slot ≡ empty_slot (image_in R.memory parts.old) dir }
    ensures { CommitsChange R.memory parts.old parts.new (enters dir linked) (LinksEntry dir name.now ino) }
{
    let names = parts.link_counts.names(ino);
    parts.link_counts.set(ino, names + 1);
    match slot {
        Some(slot) => link_slot(&mut parts.region, dir, slot, ino, name),
        None => link_past_end(parts, dir, ino, name),
    }
}

/// Gives file `i` another link, under a name that directory `dir` does not have, by one store alone in its epoch. The
/// caller has found the directory's least empty slot (`None` if no entry is empty).
///
/// # Errors
///
/// - `NoSpace`: fewer blocks are free than the call needs: those that the directory lacks for one more entry if no
///   entry is empty, and those that it thaws. It is returned in exactly this case.
pub fn link_in<R: Region>(
    parts: &mut Parts<R>,
    dir: u32,
    slot: Option<u64>,
    name: &[u8],
    ino: u32,
) -> Result<(), NoSpace>
    requires mounted { IsMountedIn R.memory parts.old }
    requires reached { IsReached (image_in R.memory parts.old) dir }
    requires directory { IsDirectory (image_in R.memory parts.old) dir }
    requires name { IsName name.now }
    requires slot { slot ≡ empty_slot (image_in R.memory parts.old) dir }
    requires new { slot_named (image_in R.memory parts.old) dir name.now ≡ None }
    requires there { IsReached (image_in R.memory parts.old) ino }
    requires file { IsFile (image_in R.memory parts.old) ino }
    requires room { HasRoomWhereFree (R.memory parts.old.region) (in_snapshot_of parts.old) parts.old.free_blocks (enters dir linked) }
    ensures { CommitsOrLacksSpace R.memory parts.old parts.new result (enters dir linked) (LinksEntry dir name.now ino) }
{
    match thaw_linked(parts, dir, slot) {
        Ok(()) => {
            add_link(parts, dir, slot, name, ino);
            Ok(())
        }
        Err(lacks) => Err(lacks),
    }
}
