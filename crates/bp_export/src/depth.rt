//! The test whether a tree has a path that no call can spell.

ghost use Rattle.std.specs.Prelude.{◌↔◌, IsTrue};
ghost use Rattle.bp_export.specs.Depth.{HasLongPath, ReportsLongEntry, ReportsLongRow};
ghost use Rattle.bp_export.specs.Rows.{EachEntry, NamesReached};
ghost use Rattle.bp_layout.specs.Inode.{IsDirectory};
ghost use Rattle.bp_layout.specs.Reached.{IsReached};
ghost use Rattle.bp_layout.specs.WellFormed.{IsWellFormed};
ghost use Rattle.pm_region.specs.Memory.{words_in};

use crate::rows::{ENTRY, entry_row, leaf_count};
use bp_layout::{EntryView, Kind};
use bp_read::inodes::{get, tree_of};
use pm_region::Region;

/// Whether some path below directory `i` has more than `left` bytes. It allocates no memory, and descends no further
/// than there are bytes left.
#[cycle(depth)]
pub(crate) fn has_long_path<R: Region>(region: &R, ino: u32, left: usize) -> bool
    requires well_formed { IsWellFormed (words_in R.memory region.now) }
    requires reached { IsReached (words_in R.memory region.now) ino }
    requires directory { IsDirectory (words_in R.memory region.now) ino }
    ensures { IsTrue result ↔ HasLongPath (words_in R.memory region.now) ino left }
{
    let tree = tree_of(region, ino);
    for leaf in 0..leaf_count(tree) {
        if let Some(words) = entry_row(region, tree, leaf) {
            if has_long_entry(region, words, left) {
                return true;
            }
        }
    }
    false
}

/// Whether a path of more than `left` bytes begins with one of consecutive entries.
#[cycle(depth)]
fn has_long_entry<R: Region>(region: &R, words: &[u64], left: usize) -> bool
    requires well_formed { IsWellFormed (words_in R.memory region.now) }
    requires entries { EachEntry (NamesReached (words_in R.memory region.now)) words.now }
    ensures { ReportsLongRow (words_in R.memory region.now) words.now left result }
{
    for index in 0..words.len() / ENTRY {
        let view = EntryView::in_row(words, index);
        if is_long(region, view, left) {
            return true;
        }
    }
    false
}

/// Whether a path of more than `left` bytes begins with an entry.
#[cycle(depth)]
fn is_long<R: Region>(region: &R, view: EntryView<'_>, left: usize) -> bool
    requires well_formed { IsWellFormed (words_in R.memory region.now) }
    requires entry { NamesReached (words_in R.memory region.now) view.words.now }
    ensures { ReportsLongEntry (words_in R.memory region.now) view.entry.words.now left result }
{
    let ino = view.ino();
    if ino == 0 {
        return false;
    }
    // A `/` precedes each name.
    let taken = view.name_len() as usize + 1;
    if left < taken {
        return true;
    }
    match get(region, ino as u32).kind {
        Kind::File => false,
        Kind::Dir => has_long_path(region, ino as u32, left - taken),
    }
}
