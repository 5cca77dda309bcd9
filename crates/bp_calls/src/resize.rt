//! Changes of the size of a file.

ghost use Rattle.std.specs.Prelude.{◌≡◌, ◌≢◌, ◌<◌, ◌≤◌, [], IfErr, OnErr, OnOk, length};
ghost use Rattle.bp_calls.specs.Commits.{CommitsChange, CommitsOrLacksSpace};
ghost use Rattle.bp_calls.specs.Mounted.{image_in, IsExactIn, IsMountedIn};
ghost use Rattle.bp_calls.specs.Space.{HasRoomThawed, HasRoomWhereFree, LacksSpace};
ghost use Rattle.bp_calls.specs.ThawsFor.{ThawsBefore};
ghost use Rattle.bp_layout.specs.Thaw.{thawed};
ghost use Rattle.bp_calls.specs.CanGrow.{CanGrowFile};
ghost use Rattle.bp_calls.specs.Resized.{ResizesFile};
ghost use Rattle.bp_free.specs.Set.{members};
ghost use Rattle.bp_layout.specs.Inode.{IsFile, size_of};
ghost use Rattle.bp_layout.specs.Need.{need};
ghost use Rattle.bp_layout.specs.Need.Change.{resizes};
ghost use Rattle.bp_layout.specs.Reached.{IsReached};
ghost use Rattle.bp_layout.specs.Formatted.{version_of};
ghost use Rattle.bp_limits.specs.CallLimits.{greatest_size};
ghost use Rattle.bp_changes.specs.Sets.{in_snapshot_of};
ghost use Rattle.pm_region.specs.Memory.{room_in};

use crate::release::free_tree;
use crate::targets::{lengthening, shrinking};
use crate::thaw::{enough_free, thaw_before};
use bp_append::{need_prep, stage_append};
use bp_free::{NoSpace, Parts};
use bp_limits::SIZE_FIELD;
use bp_read::inodes::{place, root_path, tree_of};
use pm_region::{Region, commit_word};

/// Makes a file longer, with zeros after its bytes, once no block is left to thaw and enough blocks are free. A
/// preparation makes its tree high enough and clears the rest of its last leaf, and then the size is stored.
fn lengthen<R: Region>(parts: &mut Parts<R>, ino: u32, size: u64)
    requires can { CanGrowFile (in_snapshot_of parts.old) (R.memory parts.old.region) parts.old.free_blocks parts.old.free_inodes ino size }
    requires exact { IsExactIn R.memory parts.old }
    requires enough { need (image_in R.memory parts.old) (resizes ino size) ≤ length (members parts.old.free_blocks) }
    ensures { CommitsChange R.memory parts.old parts.new (resizes ino size) (ResizesFile ino size) }
{
    let size_place = place(&parts.region, ino, SIZE_FIELD);
    let at = root_path(&parts.region, ino);
    stage_append(parts, &at, size, &[], size);
    commit_word(&mut parts.region, size_place, size);
}

/// Thaws the blocks of the snapshot on the path to the size of a file that is to become shorter.
///
/// # Errors
///
/// Nothing has changed then.
///
/// - `NoSpace`: fewer blocks are free than the thaw takes. It is returned in exactly this case.
fn thaw_size<R: Region>(parts: &mut Parts<R>, ino: u32, size: u64) -> Result<(), NoSpace>
    requires mounted { IsMountedIn R.memory parts.old }
    requires reached { IsReached (image_in R.memory parts.old) ino }
    requires file { IsFile (image_in R.memory parts.old) ino }
    requires smaller { size < size_of (image_in R.memory parts.old) ino }
    requires room { HasRoomWhereFree (R.memory parts.old.region) (in_snapshot_of parts.old) parts.old.free_blocks (resizes ino size) }
    ensures thaws { OnOk result (ThawsBefore R.memory parts.old parts.new (resizes ino size)) }
    ensures room { OnOk result (3 ≤ room_in (R.memory parts.new.region)) }
    ensures refused { IfErr result (LacksSpace (image_in R.memory parts.old) (in_snapshot_of parts.old) (resizes ino size)) }
    ensures same { OnErr result (parts.new ≡ parts.old) }
{
    if parts.snapshot_blocks.count() == 0 {
        return Ok(());
    }
    let targets = shrinking(&parts.region, ino);
    thaw_before(parts, &targets, 0)
}

/// Does what [`shrink_file`] does once no block is left to thaw: it stores the size, and then frees the blocks that
/// hold no byte below it and are not in the snapshot.
fn shorten<R: Region>(parts: &mut Parts<R>, ino: u32, size: u64)
    requires mounted { IsMountedIn R.memory parts.old }
    requires reached { IsReached (image_in R.memory parts.old) ino }
    requires file { IsFile (image_in R.memory parts.old) ino }
    requires smaller { size < size_of (image_in R.memory parts.old) ino }
    requires clear { thawed (image_in R.memory parts.old) (in_snapshot_of parts.old) (resizes ino size) ≡ [] }
    requires room { 3 ≤ room_in (R.memory parts.old.region) }
    ensures { CommitsChange R.memory parts.old parts.new (resizes ino size) (ResizesFile ino size) }
{
    let tree = tree_of(&parts.region, ino);
    let size_place = place(&parts.region, ino, SIZE_FIELD);
    commit_word(&mut parts.region, size_place, size);
    let snapshot_blocks = &parts.snapshot_blocks;
    free_tree(
        &parts.region,
        tree,
        size,
        &mut parts.free_blocks,
        snapshot_blocks,
    );
}

/// Makes a file shorter. It needs no block except those that it thaws.
///
/// # Errors
///
/// Nothing has changed then.
///
/// - `NoSpace`: fewer blocks are free than the call needs. It is returned in exactly this case.
fn shrink_file<R: Region>(parts: &mut Parts<R>, ino: u32, size: u64) -> Result<(), NoSpace>
    requires mounted { IsMountedIn R.memory parts.old }
    requires reached { IsReached (image_in R.memory parts.old) ino }
    requires file { IsFile (image_in R.memory parts.old) ino }
    requires smaller { size < size_of (image_in R.memory parts.old) ino }
    requires room { HasRoomWhereFree (R.memory parts.old.region) (in_snapshot_of parts.old) parts.old.free_blocks (resizes ino size) }
    ensures { CommitsOrLacksSpace R.memory parts.old parts.new result (resizes ino size) (ResizesFile ino size) }
{
    match thaw_size(parts, ino, size) {
        Ok(()) => {
            shorten(parts, ino, size);
            Ok(())
        }
        Err(lacks) => Err(lacks),
    }
}

/// Thaws the blocks of the snapshot on the paths to the size of a file that is to become longer, and to the end of its
/// tree.
///
/// # Errors
///
/// Nothing has changed then.
///
/// - `NoSpace`: fewer blocks are free than the thaw takes, together with those that make the tree high enough. It is
///   returned in exactly this case.
fn thaw_end<R: Region>(parts: &mut Parts<R>, ino: u32, size: u64) -> Result<(), NoSpace>
    requires mounted { IsMountedIn R.memory parts.old }
    requires reached { IsReached (image_in R.memory parts.old) ino }
    requires file { IsFile (image_in R.memory parts.old) ino }
    requires longer { size_of (image_in R.memory parts.old) ino < size }
    requires fits { size ≤ greatest_size (version_of (image_in R.memory parts.old)) }
    requires room { HasRoomWhereFree (R.memory parts.old.region) (in_snapshot_of parts.old) parts.old.free_blocks (resizes ino size) }
    ensures thaws { OnOk result (ThawsBefore R.memory parts.old parts.new (resizes ino size)) }
    ensures room { OnOk result (HasRoomThawed (R.memory parts.new.region) parts.new.free_blocks (resizes ino size)) }
    ensures enough { OnOk result (need (image_in R.memory parts.new) (resizes ino size)
        ≤ length (members parts.new.free_blocks)) }
    ensures refused { IfErr result (LacksSpace (image_in R.memory parts.old) (in_snapshot_of parts.old) (resizes ino size)) }
    ensures same { OnErr result (parts.new ≡ parts.old) }
{
    let tree = tree_of(&parts.region, ino);
    let need = need_prep(&parts.region, tree, size, size);
    if parts.snapshot_blocks.count() == 0 {
        return enough_free(parts, need);
    }
    let targets = lengthening(&parts.region, ino);
    thaw_before(parts, &targets, need)
}

/// Makes a file longer. A tree that becomes higher takes a block for each level.
///
/// # Errors
///
/// Nothing has changed then.
///
/// - `NoSpace`: fewer blocks are free than the call needs. It is returned in exactly this case.
fn grow_file<R: Region>(parts: &mut Parts<R>, ino: u32, size: u64) -> Result<(), NoSpace>
    requires mounted { IsMountedIn R.memory parts.old }
    requires reached { IsReached (image_in R.memory parts.old) ino }
    requires file { IsFile (image_in R.memory parts.old) ino }
    requires longer { size_of (image_in R.memory parts.old) ino < size }
    requires fits { size ≤ greatest_size (version_of (image_in R.memory parts.old)) }
    requires room { HasRoomWhereFree (R.memory parts.old.region) (in_snapshot_of parts.old) parts.old.free_blocks (resizes ino size) }
    ensures { CommitsOrLacksSpace R.memory parts.old parts.new result (resizes ino size) (ResizesFile ino size) }
{
    match thaw_end(parts, ino, size) {
        Ok(()) => {
            lengthen(parts, ino, size);
            Ok(())
        }
        Err(lacks) => Err(lacks),
    }
}

/// Changes the size of a file in bytes, by one store alone in its epoch: the file is cut, or zeros follow its old
/// bytes.
///
/// # Errors
///
/// Nothing has changed then.
///
/// - `NoSpace`: fewer blocks are free than the call needs: one for each block of the snapshot on the paths to the
///   words to which it stores, and one for each level by which a tree becomes higher. It is returned in exactly this
///   case.
pub fn truncate<R: Region>(parts: &mut Parts<R>, ino: u32, size: u64) -> Result<(), NoSpace>
    requires mounted { IsMountedIn R.memory parts.old }
    requires reached { IsReached (image_in R.memory parts.old) ino }
    requires file { IsFile (image_in R.memory parts.old) ino }
    requires fits { size ≤ greatest_size (version_of (image_in R.memory parts.old)) }
    requires changed { size ≢ size_of (image_in R.memory parts.old) ino }
    requires room { HasRoomWhereFree (R.memory parts.old.region) (in_snapshot_of parts.old) parts.old.free_blocks (resizes ino size) }
    ensures { CommitsOrLacksSpace R.memory parts.old parts.new result (resizes ino size) (ResizesFile ino size) }
{
    let tree = tree_of(&parts.region, ino);
    if size < tree.size {
        return shrink_file(parts, ino, size);
    }
    grow_file(parts, ino, size)
}
