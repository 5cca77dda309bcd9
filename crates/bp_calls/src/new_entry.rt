//! Entry of a name and its inode in a directory: in an empty entry, or in one after the last.

ghost use Rattle.std.specs.Prelude.{Some, ◌≡◌, ◌≤◌, length};
ghost use Rattle.bp_free.specs.Parts.{KeepsSets};
ghost use Rattle.bp_changes.specs.Sets.{in_snapshot_of};
ghost use Rattle.bp_calls.specs.Created.{CountsName, EntersName};
ghost use Rattle.bp_calls.specs.Entries.{AreEntryBytes, PutsEntry, entry_byte};
ghost use Rattle.bp_calls.specs.NewEntry.{EntersInSlot, PerformsEntryIn, TakesFreeInodeIn, TakesOnlyInode};
ghost use Rattle.bp_calls.specs.Steps.{CanEnterPastEnd, CanName, CanPutPastEnd, entering_room, name_need};
ghost use Rattle.bp_calls.specs.Mounted.{image_in};
ghost use Rattle.bp_layout.specs.Directory.{empty_slot};
ghost use Rattle.bp_layout.specs.Inode.{IsDirectory, root_of, size_of};
ghost use Rattle.bp_layout.specs.Need.Change.{enters};
ghost use Rattle.bp_layout.specs.Need.Entrant.{linked, taken};
ghost use Rattle.bp_layout.specs.Reached.{IsReached};
ghost use Rattle.bp_layout.specs.Thaw.{targets};
ghost use Rattle.bp_layout.specs.WellFormed.{IsWellFormed};
ghost use Rattle.bp_thaw.specs.Thaws.{paths_in};
ghost use Rattle.pm_region.specs.Memory.{words_in, room_in};

use crate::targets::{Targets, entry_path, push_end};
use bp_append::stage_append;
use bp_free::Parts;
use bp_layout::{INO_WORD, Kind, LENGTH_WORD, NAME_WORD};
use bp_limits::{ENTRY_SIZE, SIZE_FIELD, WORD_SIZE};
use bp_read::directory::entry_place;
use bp_read::inodes::{fill, place, root_path, size_path, tree_of};
use bp_read::{Tree, content_word, put_name};
use pm_region::{Region, commit_word};

/// The offset of the length of the name in an entry, in bytes: after the inode number.
const LENGTH_AT: usize = (LENGTH_WORD * WORD_SIZE) as usize;

/// The offset of the name in an entry, in bytes: after its length.
const NAME_AT: usize = (NAME_WORD * WORD_SIZE) as usize;

/// Returns the words near which a name of a directory is stored, given its least empty slot: the inode number of the
/// entry there, or else the size, which then includes an entry after the last one.
pub(crate) fn entering<R: Region>(region: &R, dir: u32, slot: Option<u64>) -> Targets
    requires well_formed { IsWellFormed (words_in R.memory region.now) }
    requires reached { IsReached (words_in R.memory region.now) dir }
    requires directory { IsDirectory (words_in R.memory region.now) dir }
    requires slot { slot ≡ empty_slot (words_in R.memory region.now) dir }
    ensures paths { paths_in result ≡ targets (words_in R.memory region.now) (enters dir linked) }
    ensures few { length result.items ≤ 3 }
{
    let mut targets = Targets::new();
    match slot {
        Some(slot) => targets.push(entry_path(region, dir, slot)),
        None => {
            targets.push(size_path(region, dir));
            push_end(&mut targets, &root_path(region, dir), tree_of(region, dir));
        }
    }
    targets
}

/// Enters a name for a new inode in an empty entry of a directory, if no block to which it stores is in the snapshot.
pub(crate) fn enter_slot<R: Region>(
    region: &mut R,
    dir: u32,
    slot: u64,
    ino: u32,
    name: &[u8],
    kind: Kind,
)
    requires can { CanName (words_in R.memory region.old) dir ino name.now }
    requires found { empty_slot (words_in R.memory region.old) dir ≡ Some slot }
    requires room { entering_room (name_need (words_in R.memory region.old) dir) ≤ room_in (R.memory region.old) }
    ensures performs { EntersInSlot (R.memory region.old) (R.memory region.new) dir slot ino name.now kind }
    ensures exact { TakesOnlyInode (R.memory region.old) (R.memory region.new) ino }
    ensures counts { CountsName (words_in R.memory region.old) (words_in R.memory region.new) ino }
{
    let tree = tree_of(region, dir);
    let entry = entry_place(region, tree, slot, INO_WORD);
    fill(region, ino, kind);
    put_name(region, entry, name);
    commit_word(region, entry, u64::from(ino));
}

/// Returns a byte of an entry: eight are the inode number, least significant first, eight the length of the name, and
/// then comes the name, followed by zeros.
fn entry_byte(ino: u32, name: &[u8], at: usize) -> u8
    ensures { result ≡ entry_byte ino name.now at }
{
    if at < LENGTH_AT {
        u64::from(ino).to_le_bytes()[at]
    } else if at < NAME_AT {
        (name.len() as u64).to_le_bytes()[at - LENGTH_AT]
    } else if at - NAME_AT < name.len() {
        name[at - NAME_AT]
    } else {
        0
    }
}

/// Returns the bytes of an entry.
fn entry_bytes(ino: u32, name: &[u8]) -> [u8; ENTRY_SIZE as usize]
    ensures { AreEntryBytes ino name.now result }
{
    let mut bytes = [0; ENTRY_SIZE as usize];
    for at in 0..bytes.len() {
        bytes[at] = entry_byte(ino, name, at);
    }
    bytes
}

/// Writes an entry after the last one of a directory, where it is not visible: the directory's tree is prepared for
/// one more entry.
pub fn append_entry<R: Region>(parts: &mut Parts<R>, dir: u32, tree: Tree, ino: u32, name: &[u8])
    requires can { CanPutPastEnd (in_snapshot_of parts.old) (R.memory parts.old.region) parts.old.free_blocks dir name.now }
    requires root { tree.root ≡ root_of (image_in R.memory parts.old) dir }
    requires size { tree.size ≡ size_of (image_in R.memory parts.old) dir }
    ensures puts { PutsEntry R.memory parts.old parts.new dir ino name.now }
    ensures keeps { KeepsSets parts.old parts.new }
{
    let end = tree.size + ENTRY_SIZE;
    let at = root_path(&parts.region, dir);
    stage_append(parts, &at, tree.size, &entry_bytes(ino, name), end);
    let prepared = Tree {
        root: tree_of(&parts.region, dir).root,
        size: end,
    };
    // A preparation describes bytes. The values of two words follow once they are read, as words of 64 bits.
    let first = tree.size / WORD_SIZE;
    let stored_ino = content_word(&parts.region, prepared, first + INO_WORD);
    let length = content_word(&parts.region, prepared, first + LENGTH_WORD);
    prove_eq!(stored_ino, u64::from(ino));
    prove_eq!(length, name.len() as u64);
}

/// Enters a name for a new inode in an entry after the last one of a directory, whose size then includes it.
pub(crate) fn enter_past_end<R: Region>(
    parts: &mut Parts<R>,
    dir: u32,
    ino: u32,
    name: &[u8],
    kind: Kind,
)
    requires can { CanEnterPastEnd (in_snapshot_of parts.old) (R.memory parts.old.region) parts.old.free_blocks dir ino name.now }
    ensures performs { PerformsEntryIn R.memory parts.old parts.new dir (taken ino) (EntersName dir name.now kind) }
    ensures exact { TakesFreeInodeIn R.memory parts.old parts.new ino }
    ensures counts { CountsName (image_in R.memory parts.old) (image_in R.memory parts.new) ino }
    ensures keeps { KeepsSets parts.old parts.new }
{
    let tree = tree_of(&parts.region, dir);
    let size_place = place(&parts.region, dir, SIZE_FIELD);
    append_entry(parts, dir, tree, ino, name);
    fill(&mut parts.region, ino, kind);
    commit_word(&mut parts.region, size_place, tree.size + ENTRY_SIZE);
}
