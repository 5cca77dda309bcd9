//! Writes of bytes into a file. There are three cases, by the position of the bytes relative to its size.

ghost use Rattle.std.specs.Prelude.{◌≡◌, ◌+◌, ◌<◌, ◌≤◌, [], length, true, IfErr, OnErr, OnOk};
ghost use Rattle.bp_calls.specs.Commits.{CommitsChange, CommitsOrLacksBlocks, CommitsOrLacksSpace};
ghost use Rattle.bp_calls.specs.CanWrite.{CanWrite, CanWriteThawed};
ghost use Rattle.bp_calls.specs.FewBlocks.{most_for_write};
ghost use Rattle.bp_calls.specs.Mounted.{image_in, IsExactIn, IsMountedIn};
ghost use Rattle.bp_changes.specs.Sets.{in_snapshot_of};
ghost use Rattle.bp_calls.specs.Space.{HasRoomThawed, HasRoomWhereFree, LacksSpace};
ghost use Rattle.bp_calls.specs.ThawsFor.{ThawsBefore};
ghost use Rattle.bp_free.specs.Set.{members};
ghost use Rattle.bp_layout.specs.Thaw.{cover_now, thawed};
ghost use Rattle.bp_calls.specs.WritesFile.{WritesFile};
ghost use Rattle.bp_layout.specs.Inode.{root_of, size_of};
ghost use Rattle.bp_layout.specs.Need.{need};
ghost use Rattle.bp_layout.specs.Need.Change.{writes};

mod across;

use crate::commit::{commit_below, commit_found, run_for, touched_by};
use crate::targets::{content_path, writing};
use crate::thaw::{enough_free, thaw_before};
use crate::writes::across::{need_across, write_across};
use bp_append::{need_prep, stage_append};
use bp_cow::{Run, find_ways, need_cover};
use bp_free::{NoSpace, Parts};
use bp_limits::SIZE_FIELD;
use bp_read::Tree;
use bp_read::inodes::{place, root_path, tree_of};
use bp_thaw::thaw_need;
use pm_region::{Region, commit_word};

/// Returns the number of blocks that bytes take that begin at or past the size of a file, given its tree.
fn need_past_end<R: Region>(
    parts: &Parts<R>,
    ino: u32,
    tree: Tree,
    offset: u64,
    bytes: &[u8],
) -> u32
    requires root { tree.root ≡ root_of (image_in R.memory parts.now) ino }
    requires size { tree.size ≡ size_of (image_in R.memory parts.now) ino }
    requires mounted { IsMountedIn R.memory parts.now }
    requires can { CanWrite (image_in R.memory parts.now) ino offset bytes.now }
    requires past_end { size_of (image_in R.memory parts.now) ino ≤ offset }
    ensures need { result ≡ need (image_in R.memory parts.now) (writes ino offset (length bytes.now)) }
    ensures few { result ≤ most_for_write }
{
    need_prep(&parts.region, tree, offset, offset + bytes.len() as u64)
}

/// Returns the number of blocks that bytes below the size of a file take, given its tree. It is one for each block on
/// the paths to them from the word that covers them down, and 0 if they lie in one word.
fn need_below<R: Region>(parts: &Parts<R>, ino: u32, tree: Tree, offset: u64, bytes: &[u8]) -> u32
    requires root { tree.root ≡ root_of (image_in R.memory parts.now) ino }
    requires size { tree.size ≡ size_of (image_in R.memory parts.now) ino }
    requires mounted { IsMountedIn R.memory parts.now }
    requires can { CanWrite (image_in R.memory parts.now) ino offset bytes.now }
    requires below { offset + length bytes.now ≤ size_of (image_in R.memory parts.now) ino }
    ensures need { result ≡ need (image_in R.memory parts.now) (writes ino offset (length bytes.now)) }
    ensures few { result ≤ most_for_write }
{
    let runs = [run_for(&parts.region, ino, tree, offset, bytes)];
    need_cover(&parts.region, &touched_by(&runs))
}

/// Returns the number of blocks that a write into a file takes besides those that are thawed, given its tree.
fn need_write<R: Region>(parts: &Parts<R>, ino: u32, tree: Tree, offset: u64, bytes: &[u8]) -> u32
    requires root { tree.root ≡ root_of (image_in R.memory parts.now) ino }
    requires size { tree.size ≡ size_of (image_in R.memory parts.now) ino }
    requires mounted { IsMountedIn R.memory parts.now }
    requires can { CanWrite (image_in R.memory parts.now) ino offset bytes.now }
    ensures need { result ≡ need (image_in R.memory parts.now) (writes ino offset (length bytes.now)) }
    ensures few { result ≤ most_for_write }
{
    if tree.size <= offset {
        return need_past_end(parts, ino, tree, offset, bytes);
    }
    if offset + bytes.len() as u64 <= tree.size {
        return need_below(parts, ino, tree, offset, bytes);
    }
    need_across(parts, ino, tree, offset, bytes)
}

/// Returns whether no block of the snapshot has to be thawed before bytes are written into a file.
fn is_clear<R: Region>(parts: &Parts<R>, ino: u32, offset: u64, bytes: &[u8]) -> bool
    requires mounted { IsMountedIn R.memory parts.now }
    requires can { CanWrite (image_in R.memory parts.now) ino offset bytes.now }
    ensures { result ≡ true →
        thawed (image_in R.memory parts.now) (in_snapshot_of parts.now) (writes ino offset (length bytes.now)) ≡ [] }
{
    if parts.snapshot_blocks.count() == 0 {
        return true;
    }
    let targets = writing(parts, ino, offset, bytes);
    thaw_need(parts, &targets) == 0
}

/// Returns whether no block of the snapshot has to be thawed before a run of bytes is written. The run ends at or
/// below the size of the file. Given are the file's tree, and the number of slots of the path that covers the words
/// that the bytes touch.
fn is_clear_below<R: Region>(
    parts: &Parts<R>,
    ino: u32,
    tree: Tree,
    run: &Run<'_>,
    cover: usize,
) -> bool
    requires root { tree.root ≡ root_of (image_in R.memory parts.now) ino }
    requires mounted { IsMountedIn R.memory parts.now }
    requires can { CanWrite (image_in R.memory parts.now) ino run.now.offset run.now.bytes.now }
    requires below { run.now.offset + length run.now.bytes.now ≤ size_of (image_in R.memory parts.now) ino }
    requires cover { cover ≡ length (cover_now (image_in R.memory parts.now)
        (writes ino run.now.offset (length run.now.bytes.now))) }
    ensures { result ≡ true → thawed (image_in R.memory parts.now) (in_snapshot_of parts.now)
        (writes ino run.now.offset (length run.now.bytes.now)) ≡ [] }
{
    if parts.snapshot_blocks.count() == 0 {
        return true;
    }
    let mut path = content_path(&parts.region, ino, tree, run.offset);
    path.truncate(cover);
    bp_thaw::is_clear(parts, &path)
}

/// Thaws the blocks of the snapshot on the paths to the words near which bytes are written into a file.
///
/// # Errors
///
/// Nothing has changed then.
///
/// - `NoSpace`: fewer blocks are free than the thaw and the bytes take. It is returned in exactly this case.
fn thaw_write<R: Region>(
    parts: &mut Parts<R>,
    ino: u32,
    offset: u64,
    bytes: &[u8],
) -> Result<(), NoSpace>
    requires mounted { IsMountedIn R.memory parts.old }
    requires can { CanWrite (image_in R.memory parts.old) ino offset bytes.now }
    requires room { HasRoomWhereFree (R.memory parts.old.region) (in_snapshot_of parts.old) parts.old.free_blocks
        (writes ino offset (length bytes.now)) }
    ensures thaws { OnOk result (ThawsBefore R.memory parts.old parts.new (writes ino offset (length bytes.now))) }
    ensures room { OnOk result (HasRoomThawed (R.memory parts.new.region) parts.new.free_blocks
        (writes ino offset (length bytes.now))) }
    ensures enough { OnOk result (need (image_in R.memory parts.new) (writes ino offset (length bytes.now))
        ≤ length (members parts.new.free_blocks)) }
    ensures refused { IfErr result (LacksSpace (image_in R.memory parts.old) (in_snapshot_of parts.old)
        (writes ino offset (length bytes.now))) }
    ensures same { OnErr result (parts.new ≡ parts.old) }
{
    let tree = tree_of(&parts.region, ino);
    let need = need_write(parts, ino, tree, offset, bytes);
    let targets = writing(parts, ino, offset, bytes);
    thaw_before(parts, &targets, need)
}

/// Writes bytes that begin at or past the size of a file, once no block is left to thaw and enough blocks are free.
/// The file's tree is prepared for them, and then its size includes them.
fn write_past_end<R: Region>(parts: &mut Parts<R>, ino: u32, offset: u64, bytes: &[u8])
    requires can { CanWriteThawed (in_snapshot_of parts.old) (R.memory parts.old.region) parts.old.free_blocks parts.old.free_inodes ino offset bytes.now }
    requires exact { IsExactIn R.memory parts.old }
    requires enough { need (image_in R.memory parts.old) (writes ino offset (length bytes.now))
        ≤ length (members parts.old.free_blocks) }
    requires past_end { size_of (image_in R.memory parts.old) ino ≤ offset }
    ensures { CommitsChange R.memory parts.old parts.new (writes ino offset (length bytes.now)) (WritesFile ino offset bytes.now) }
{
    let end = offset + bytes.len() as u64;
    let root = root_path(&parts.region, ino);
    let size_place = place(&parts.region, ino, SIZE_FIELD);
    stage_append(parts, &root, offset, bytes, end);
    commit_word(&mut parts.region, size_place, end);
}

/// Writes bytes below the size of a file, once no block is left to thaw, by one commit, given its tree.
///
/// # Errors
///
/// - `NoSpace`: fewer blocks are free than the write needs: one for each block on the paths to the bytes from the word
///   that covers them down, and none if they lie in one word.
fn write_below<R: Region>(
    parts: &mut Parts<R>,
    ino: u32,
    tree: Tree,
    offset: u64,
    bytes: &[u8],
) -> Result<(), NoSpace>
    requires root { tree.root ≡ root_of (image_in R.memory parts.old) ino }
    requires size { tree.size ≡ size_of (image_in R.memory parts.old) ino }
    requires can { CanWriteThawed (in_snapshot_of parts.old) (R.memory parts.old.region) parts.old.free_blocks parts.old.free_inodes ino offset bytes.now }
    requires exact { IsExactIn R.memory parts.old }
    requires below { offset + length bytes.now ≤ size_of (image_in R.memory parts.old) ino }
    ensures { CommitsOrLacksBlocks R.memory parts.old parts.new result (writes ino offset (length bytes.now)) (WritesFile ino offset bytes.now) }
{
    let runs = [run_for(&parts.region, ino, tree, offset, bytes)];
    let touched = touched_by(&runs);
    commit_below(parts, &touched)
}

/// Does what [`write`] does if some bytes lie past the size of the file, once no block is left to thaw, given its
/// tree.
///
/// # Errors
///
/// Nothing has changed then.
///
/// - `NoSpace`: fewer blocks are free than the write needs.
fn write_longer<R: Region>(
    parts: &mut Parts<R>,
    ino: u32,
    tree: Tree,
    offset: u64,
    bytes: &[u8],
) -> Result<(), NoSpace>
    requires root { tree.root ≡ root_of (image_in R.memory parts.old) ino }
    requires size { tree.size ≡ size_of (image_in R.memory parts.old) ino }
    requires can { CanWriteThawed (in_snapshot_of parts.old) (R.memory parts.old.region) parts.old.free_blocks parts.old.free_inodes ino offset bytes.now }
    requires exact { IsExactIn R.memory parts.old }
    requires past { size_of (image_in R.memory parts.old) ino < offset + length bytes.now }
    ensures { CommitsOrLacksBlocks R.memory parts.old parts.new result (writes ino offset (length bytes.now)) (WritesFile ino offset bytes.now) }
{
    if tree.size > offset {
        return write_across(parts, ino, tree, offset, bytes);
    }
    let need = need_past_end(parts, ino, tree, offset, bytes);
    match enough_free(parts, need) {
        Ok(()) => {
            write_past_end(parts, ino, offset, bytes);
            Ok(())
        }
        Err(lacks) => Err(lacks),
    }
}

/// Does what [`write`] does once no block is left to thaw.
///
/// # Errors
///
/// Nothing has changed then.
///
/// - `NoSpace`: fewer blocks are free than the write needs.
fn write_thawed<R: Region>(
    parts: &mut Parts<R>,
    ino: u32,
    offset: u64,
    bytes: &[u8],
) -> Result<(), NoSpace>
    requires can { CanWriteThawed (in_snapshot_of parts.old) (R.memory parts.old.region) parts.old.free_blocks parts.old.free_inodes ino offset bytes.now }
    requires exact { IsExactIn R.memory parts.old }
    ensures { CommitsOrLacksBlocks R.memory parts.old parts.new result (writes ino offset (length bytes.now)) (WritesFile ino offset bytes.now) }
{
    let tree = tree_of(&parts.region, ino);
    if offset + bytes.len() as u64 <= tree.size {
        return write_below(parts, ino, tree, offset, bytes);
    }
    write_longer(parts, ino, tree, offset, bytes)
}

/// Does what [`write`] does if blocks of the snapshot may have to be thawed.
///
/// # Errors
///
/// Those of [`write`].
fn thaw_and_write<R: Region>(
    parts: &mut Parts<R>,
    ino: u32,
    offset: u64,
    bytes: &[u8],
) -> Result<(), NoSpace>
    requires mounted { IsMountedIn R.memory parts.old }
    requires can { CanWrite (image_in R.memory parts.old) ino offset bytes.now }
    requires room { HasRoomWhereFree (R.memory parts.old.region) (in_snapshot_of parts.old) parts.old.free_blocks
        (writes ino offset (length bytes.now)) }
    ensures { CommitsOrLacksSpace R.memory parts.old parts.new result (writes ino offset (length bytes.now)) (WritesFile ino offset bytes.now) }
{
    match thaw_write(parts, ino, offset, bytes) {
        Ok(()) => write_thawed(parts, ino, offset, bytes),
        Err(lacks) => Err(lacks),
    }
}

/// Does what [`write`] does if the bytes end at or below the size of the file, given its tree. The word that covers
/// them is searched for once.
///
/// # Errors
///
/// Those of [`write`].
fn write_within<R: Region>(
    parts: &mut Parts<R>,
    ino: u32,
    tree: Tree,
    offset: u64,
    bytes: &[u8],
) -> Result<(), NoSpace>
    requires root { tree.root ≡ root_of (image_in R.memory parts.old) ino }
    requires size { tree.size ≡ size_of (image_in R.memory parts.old) ino }
    requires below { offset + length bytes.now ≤ size_of (image_in R.memory parts.old) ino }
    requires mounted { IsMountedIn R.memory parts.old }
    requires can { CanWrite (image_in R.memory parts.old) ino offset bytes.now }
    requires room { HasRoomWhereFree (R.memory parts.old.region) (in_snapshot_of parts.old) parts.old.free_blocks
        (writes ino offset (length bytes.now)) }
    ensures { CommitsOrLacksSpace R.memory parts.old parts.new result (writes ino offset (length bytes.now)) (WritesFile ino offset bytes.now) }
{
    let runs = [run_for(&parts.region, ino, tree, offset, bytes)];
    let touched = touched_by(&runs);
    let found = find_ways(&parts.region, &touched);
    if is_clear_below(parts, ino, tree, &runs[0], found.cover.len) {
        return commit_found(parts, &touched, &found);
    }
    thaw_and_write(parts, ino, offset, bytes)
}

/// Writes bytes into a file from an offset in bytes on, by one store alone in its epoch. The file then reaches at
/// least to their end, with zeros where it had no bytes.
///
/// # Errors
///
/// Nothing has changed then.
///
/// - `NoSpace`: fewer blocks are free than the call needs. It needs one for each block of the snapshot on the paths to
///   the words to which it stores, those for bytes past the size, and those that it copies for bytes below the size.
///   It is returned in exactly this case.
pub fn write<R: Region>(
    parts: &mut Parts<R>,
    ino: u32,
    offset: u64,
    bytes: &[u8],
) -> Result<(), NoSpace>
    requires mounted { IsMountedIn R.memory parts.old }
    requires can { CanWrite (image_in R.memory parts.old) ino offset bytes.now }
    requires room { HasRoomWhereFree (R.memory parts.old.region) (in_snapshot_of parts.old) parts.old.free_blocks
        (writes ino offset (length bytes.now)) }
    ensures { CommitsOrLacksSpace R.memory parts.old parts.new result (writes ino offset (length bytes.now)) (WritesFile ino offset bytes.now) }
{
    let tree = tree_of(&parts.region, ino);
    if offset + bytes.len() as u64 <= tree.size {
        return write_within(parts, ino, tree, offset, bytes);
    }
    if is_clear(parts, ino, offset, bytes) {
        return write_longer(parts, ino, tree, offset, bytes);
    }
    thaw_and_write(parts, ino, offset, bytes)
}
