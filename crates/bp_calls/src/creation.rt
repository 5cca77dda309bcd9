//! Creation of names.

ghost use Rattle.std.specs.Prelude.{◌≡◌, ◌<◌, ◌≤◌, ◌^◌, [], None, IfErr, MatchOption, OnErr, OnOk};
ghost use Rattle.bp_calls.specs.Commits.{CommitsChange, CreatesOrLacksSpace};
ghost use Rattle.bp_calls.specs.Created.{EntersName};
ghost use Rattle.bp_changes.specs.Entrant.{ForCreation};
ghost use Rattle.bp_calls.specs.FewBlocks.{most_for_leaf};
ghost use Rattle.bp_calls.specs.Mounted.{image_in, IsExactIn, IsMountedIn};
ghost use Rattle.bp_calls.specs.NewEntry.{EntersLeastFree, PerformsCreation};
ghost use Rattle.bp_calls.specs.Space.{HasRoomToCreate, LacksSpaceToCreate};
ghost use Rattle.bp_calls.specs.Steps.{CanEnter, LacksName, name_need};
ghost use Rattle.bp_calls.specs.ThawedFor.{AreThawedFor};
ghost use Rattle.bp_calls.specs.ThawsFor.{ThawsBefore};
ghost use Rattle.bp_free.specs.Set.{IsLeast, members};
ghost use Rattle.bp_layout.specs.Directory.{empty_slot, slot_named};
ghost use Rattle.bp_layout.specs.Paths.{IsName};
ghost use Rattle.bp_layout.specs.Inode.{IsDirectory};
ghost use Rattle.bp_layout.specs.Need.{need};
ghost use Rattle.bp_layout.specs.Need.Change.{enters};
ghost use Rattle.bp_layout.specs.Need.Entrant.{grown};
ghost use Rattle.bp_layout.specs.Reached.{IsReached};
ghost use Rattle.bp_layout.specs.Thaw.{targets};
ghost use Rattle.bp_layout.specs.WellFormed.{IsWellFormed};
ghost use Rattle.bp_changes.specs.Sets.{in_snapshot_of};
ghost use Rattle.bp_thaw.specs.Thaws.{paths_in};
ghost use Rattle.pm_region.specs.Memory.{words_in};

use crate::growth::{grow, grow_need};
use crate::new_entry::{enter_past_end, enter_slot, entering};
use crate::targets::{Targets, push_end};
use crate::thaw::thaw_before;
use bp_append::need_prep;
use bp_free::{Inodes, NoSpace, Parts};
use bp_layout::Kind;
use bp_limits::{ENTRY_SIZE, INODE_SIZE};
use bp_read::directory::free_slot;
use bp_read::inodes::{inode_file, tree_of};
use bp_read::{Slots, word_path};
use pm_region::Region;

/// Returns the number of blocks that a name for an existing inode takes, given its directory's least empty slot. If no
/// slot is empty, these are the blocks that the tree lacks for one more entry.
pub(crate) fn entry_need<R: Region>(region: &R, dir: u32, slot: Option<u64>) -> u32
    requires well_formed { IsWellFormed (words_in R.memory region.now) }
    requires reached { IsReached (words_in R.memory region.now) dir }
    requires directory { IsDirectory (words_in R.memory region.now) dir }
    requires slot { slot ≡ empty_slot (words_in R.memory region.now) dir }
    ensures need { result ≡ name_need (words_in R.memory region.now) dir }
    ensures few { result ≤ most_for_leaf }
{
    match slot {
        Some(_) => 0,
        None => {
            let tree = tree_of(region, dir);
            need_prep(region, tree, tree.size, tree.size + ENTRY_SIZE)
        }
    }
}

/// Returns the number of blocks that a new name takes in a directory, given its least empty slot. If no inode is free,
/// it includes those of the inode file.
fn new_need<R: Region>(parts: &Parts<R>, dir: u32, slot: Option<u64>) -> u32
    requires mounted { IsMountedIn R.memory parts.now }
    requires reached { IsReached (image_in R.memory parts.now) dir }
    requires directory { IsDirectory (image_in R.memory parts.now) dir }
    requires slot { slot ≡ empty_slot (image_in R.memory parts.now) dir }
    ensures need { ForCreation (image_in R.memory parts.now) dir
        (λ change. need (image_in R.memory parts.now) change ≡ result) }
    ensures few { result < 2 ^ 31 }
{
    let entry = entry_need(&parts.region, dir, slot);
    if parts.free_inodes.count() > 0 {
        return entry;
    }
    entry + grow_need(&parts.region)
}

/// Returns the least free inode, or `None` if none is free. The inode is taken out of the set and put back.
fn least(inodes: &mut Inodes) -> Option<u32>
    ensures least { MatchOption result (members inodes.old ≡ []) (IsLeast inodes.old) }
    ensures same { inodes.new ≡ inodes.old }
{
    let least = inodes.take()?;
    inodes.give(least);
    Some(least)
}

/// Returns the words near which a new name of a directory is stored, given its least empty slot: the words of the
/// entry, and those of its inode, or those by which the inode file grows.
fn entering_new<R: Region>(parts: &mut Parts<R>, dir: u32, slot: Option<u64>) -> Targets
    requires mounted { IsMountedIn R.memory parts.old }
    requires reached { IsReached (image_in R.memory parts.old) dir }
    requires directory { IsDirectory (image_in R.memory parts.old) dir }
    requires slot { slot ≡ empty_slot (image_in R.memory parts.old) dir }
    ensures paths { let image = image_in R.memory parts.old in
        ForCreation image dir (λ change. paths_in result ≡ targets image change) }
    ensures same { parts.new ≡ parts.old }
{
    let mut targets = entering(&parts.region, dir, slot);
    let inodes = inode_file(&parts.region);
    match least(&mut parts.free_inodes) {
        Some(inode) => targets.push(word_path(inodes, INODE_SIZE * u64::from(inode))),
        None => push_end(&mut targets, &Slots::new(), inodes),
    }
    targets
}

/// Thaws the blocks of the snapshot near the words where a new name of a directory is stored, given its least empty
/// slot.
///
/// # Errors
///
/// Nothing has changed then.
///
/// - `NoSpace`: fewer blocks are free than the thaw and the name take. It is returned in exactly this case.
fn thaw_new<R: Region>(parts: &mut Parts<R>, dir: u32, slot: Option<u64>) -> Result<(), NoSpace>
    requires mounted { IsMountedIn R.memory parts.old }
    requires reached { IsReached (image_in R.memory parts.old) dir }
    requires directory { IsDirectory (image_in R.memory parts.old) dir }
    requires slot { slot ≡ empty_slot (image_in R.memory parts.old) dir }
    requires room { HasRoomToCreate (R.memory parts.old.region) (in_snapshot_of parts.old) parts.old.free_blocks dir }
    ensures thaws { OnOk result (ForCreation (image_in R.memory parts.old) dir
        (ThawsBefore R.memory parts.old parts.new)) }
    ensures thawed { OnOk result (ForCreation (image_in R.memory parts.old) dir (AreThawedFor R.memory parts.new)) }
    ensures refused { IfErr result (LacksSpaceToCreate (image_in R.memory parts.old) (in_snapshot_of parts.old) dir) }
    ensures same { OnErr result (parts.new ≡ parts.old) }
{
    let need = new_need(parts, dir, slot);
    if parts.snapshot_blocks.count() == 0 {
        let free = parts.free_blocks.count();
        if free < need {
            return Err(NoSpace { need, free });
        }
        return Ok(());
    }
    let targets = entering_new(parts, dir, slot);
    thaw_before(parts, &targets, need)
}

/// Enters a name for the least free inode in a directory, in its least empty slot or after its last entry.
fn enter<R: Region>(parts: &mut Parts<R>, dir: u32, slot: Option<u64>, name: &[u8], kind: Kind)
    requires can { CanEnter (in_snapshot_of parts.old) (R.memory parts.old.region) parts.old.free_blocks parts.old.free_inodes dir name.now }
    requires exact { IsExactIn R.memory parts.old }
    requires slot { slot ≡ empty_slot (image_in R.memory parts.old) dir }
    ensures performs { EntersLeastFree (in_snapshot_of parts.old) (R.memory parts.old.region) (R.memory parts.new.region) dir name.now
        kind }
    ensures exact { IsExactIn R.memory parts.new }
    ensures snapshot_blocks { parts.new.snapshot_blocks ≡ parts.old.snapshot_blocks }
{
    let ino = parts.free_inodes.alloc_lowest();
    parts.link_counts.set(ino, 1);
    match slot {
        Some(slot) => enter_slot(&mut parts.region, dir, slot, ino, name, kind),
        None => enter_past_end(parts, dir, ino, name, kind),
    }
}

/// Grows the inode file by a leaf and then enters the name as [`enter`] does, for a directory of a volume with no free
/// inode and no block left to thaw.
fn grow_and_enter<R: Region>(
    parts: &mut Parts<R>,
    dir: u32,
    slot: Option<u64>,
    name: &[u8],
    kind: Kind,
)
    requires lacks { LacksName (image_in R.memory parts.old) dir name.now }
    requires exact { IsExactIn R.memory parts.old }
    requires slot { slot ≡ empty_slot (image_in R.memory parts.old) dir }
    requires none { members parts.old.free_inodes ≡ [] }
    requires thawed { AreThawedFor R.memory parts.old (enters dir grown) }
    ensures { CommitsChange R.memory parts.old parts.new (enters dir grown) (EntersName dir name.now kind) }
{
    grow(parts);
    enter(parts, dir, slot, name, kind);
}

/// Does what [`create_in`] does once no block is left to thaw.
fn enter_new<R: Region>(parts: &mut Parts<R>, dir: u32, slot: Option<u64>, name: &[u8], kind: Kind)
    requires lacks { LacksName (image_in R.memory parts.old) dir name.now }
    requires exact { IsExactIn R.memory parts.old }
    requires slot { slot ≡ empty_slot (image_in R.memory parts.old) dir }
    requires thawed { ForCreation (image_in R.memory parts.old) dir (AreThawedFor R.memory parts.old) }
    ensures performs { PerformsCreation (in_snapshot_of parts.old) (R.memory parts.old.region) (R.memory parts.new.region) dir name.now
        kind }
    ensures exact { IsExactIn R.memory parts.new }
    ensures snapshot_blocks { parts.new.snapshot_blocks ≡ parts.old.snapshot_blocks }
{
    if parts.free_inodes.count() == 0 {
        grow_and_enter(parts, dir, slot, name, kind);
        return;
    }
    enter(parts, dir, slot, name, kind);
}

/// Does what [`create`] does, for a caller that has found the directory's least empty slot (`None` if no entry is
/// empty). It does not scan the directory.
///
/// # Errors
///
/// Those of [`create`].
pub fn create_in<R: Region>(
    parts: &mut Parts<R>,
    dir: u32,
    slot: Option<u64>,
    name: &[u8],
    kind: Kind,
) -> Result<(), NoSpace>
    requires mounted { IsMountedIn R.memory parts.old }
    requires reached { IsReached (image_in R.memory parts.old) dir }
    requires directory { IsDirectory (image_in R.memory parts.old) dir }
    requires name { IsName name.now }
    requires slot { slot ≡ empty_slot (image_in R.memory parts.old) dir }
    requires new { slot_named (image_in R.memory parts.old) dir name.now ≡ None }
    requires room { HasRoomToCreate (R.memory parts.old.region) (in_snapshot_of parts.old) parts.old.free_blocks dir }
    ensures { CreatesOrLacksSpace R.memory parts.old parts.new result dir name.now kind }
{
    match thaw_new(parts, dir, slot) {
        Ok(()) => {
            enter_new(parts, dir, slot, name, kind);
            Ok(())
        }
        Err(lacks) => Err(lacks),
    }
}

/// Creates an empty file or directory, under a name that directory `dir` does not have, by one store alone in its
/// epoch.
///
/// # Errors
///
/// - `NoSpace`: fewer blocks are free than the call needs. It needs those that the directory lacks for one more entry
///   if no entry is empty, those that the inode file lacks for one more leaf if no inode is free, and those that it
///   thaws. It is returned in exactly this case.
pub fn create<R: Region>(
    parts: &mut Parts<R>,
    dir: u32,
    name: &[u8],
    kind: Kind,
) -> Result<(), NoSpace>
    requires mounted { IsMountedIn R.memory parts.old }
    requires reached { IsReached (image_in R.memory parts.old) dir }
    requires directory { IsDirectory (image_in R.memory parts.old) dir }
    requires name { IsName name.now }
    requires new { slot_named (image_in R.memory parts.old) dir name.now ≡ None }
    requires room { HasRoomToCreate (R.memory parts.old.region) (in_snapshot_of parts.old) parts.old.free_blocks dir }
    ensures { CreatesOrLacksSpace R.memory parts.old parts.new result dir name.now kind }
{
    let slot = free_slot(&parts.region, tree_of(&parts.region, dir));
    create_in(parts, dir, slot, name, kind)
}
