//! Renames within a directory: the entry gets another name.

ghost use Rattle.std.specs.Prelude.{◌≡◌, ◌≤◌, None, length};
ghost use Rattle.bp_calls.specs.Commits.{CommitsOrLacksSpace};
ghost use Rattle.bp_calls.specs.Space.{HasRoomWhereFree};
ghost use Rattle.bp_calls.specs.Mounted.{image_in, IsExactIn};
ghost use Rattle.bp_limits.specs.CallLimits.{max_name};
ghost use Rattle.bp_rename.specs.CanRename.{CanRename, change_of};
ghost use Rattle.bp_rename.specs.RenamesEntry.{RenamesEntry};
ghost use Rattle.bp_rename.specs.Respelled.{IsNameRun, IsRespelled, respelled_byte};
ghost use Rattle.bp_changes.specs.Sets.{in_snapshot_of};
ghost use Rattle.pm_region.specs.Memory.{words_in};

use crate::moves::Move;
use crate::needs::ready_ways;
use bp_calls::touched_by;
use bp_cow::{Run, commit_at};
use bp_free::{NoSpace, Parts};
use bp_layout::{LENGTH_WORD, NAME_WORD};
use bp_limits::{ENTRY_SIZE, MAX_NAME, WORD_SIZE};
use bp_read::inodes::{root_path, tree_of};
use pm_region::Region;

/// The size of the length of a name in an entry, in bytes. The name follows it.
const LENGTH_SIZE: usize = ((NAME_WORD - LENGTH_WORD) * WORD_SIZE) as usize;

/// Returns a byte of an entry after its inode number: eight are the length of the name, least significant first, and
/// then comes the name, followed by zeros.
fn respelled_byte(name: &[u8], at: usize) -> u8
    requires { length name.now ≤ max_name }
    ensures { result ≡ respelled_byte name.now at }
{
    if at < LENGTH_SIZE {
        (name.len() as u64).to_le_bytes()[at]
    } else if at - LENGTH_SIZE < name.len() {
        name[at - LENGTH_SIZE]
    } else {
        0
    }
}

/// Returns the bytes of an entry after its inode number.
fn respelled(name: &[u8]) -> [u8; MAX_NAME + LENGTH_SIZE]
    requires { length name.now ≤ max_name }
    ensures { IsRespelled name.now result }
{
    let mut bytes = [0; MAX_NAME + LENGTH_SIZE];
    for at in 0..LENGTH_SIZE + name.len() {
        bytes[at] = respelled_byte(name, at);
    }
    bytes
}

/// Returns the run of the words that change: that of the length of the name, and those of the name up to the end of
/// its last word.
fn name_run<'a, R: Region>(
    region: &R,
    to_move: &Move<'_>,
    bytes: &'a [u8; MAX_NAME + LENGTH_SIZE],
) -> Run<'a>
    requires can { CanRename (words_in R.memory region.now) to_move.now }
    requires bytes { IsRespelled to_move.now.name.now bytes.now }
    ensures { IsNameRun (words_in R.memory region.now) to_move.now.from_dir to_move.now.from_slot
        to_move.now.name.now result }
{
    let tree = tree_of(region, to_move.from_dir);
    Run {
        root: root_path(region, to_move.from_dir),
        height: tree.height(),
        size: tree.size,
        offset: to_move.from_slot * ENTRY_SIZE + LENGTH_WORD * WORD_SIZE,
        bytes: &bytes[..LENGTH_SIZE + 8 * to_move.name.len().div_ceil(8)],
    }
}

/// Gives an entry another name, by one commit of its words.
///
/// # Errors
///
/// Those of `rename`.
pub(crate) fn rename_within<R: Region>(
    parts: &mut Parts<R>,
    to_move: &Move<'_>,
) -> Result<(), NoSpace>
    requires can { CanRename (image_in R.memory parts.old) to_move.now }
    requires new { to_move.now.to_slot ≡ None }
    requires here { to_move.now.from_dir ≡ to_move.now.to_dir }
    requires exact { IsExactIn R.memory parts.old }
    requires room { HasRoomWhereFree (R.memory parts.old.region) (in_snapshot_of parts.old) parts.old.free_blocks (change_of to_move.now) }
    ensures { CommitsOrLacksSpace R.memory parts.old parts.new result (change_of to_move.now) (RenamesEntry to_move.now) }
{
    let bytes = respelled(to_move.name);
    let runs = [name_run(&parts.region, to_move, &bytes)];
    let touched = touched_by(&runs);
    match ready_ways(parts, to_move, None, &touched, 0) {
        Ok(found) => {
            commit_at(parts, &touched, &found);
            Ok(())
        }
        Err(lacks) => Err(lacks),
    }
}
