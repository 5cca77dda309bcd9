//! The check of a directory's names.

ghost use Rattle.std.specs.Prelude.{◌≡◌, ◌*◌, ◌/◌, ◌≤◌, length, take, All, OnOk, IfErr};
ghost use Rattle.bp_layout.specs.Tree.{IsSound, IsFull};
ghost use Rattle.bp_limits.specs.Limits.{block_words, entry_size, max_blocks};
ghost use Rattle.bp_spelling.specs.Hashes.{IsSpelled, places_of};
ghost use Rattle.bp_spelling.specs.Names.{AreNames, AreWrong};
ghost use Rattle.bp_spelling.specs.Places.{HaveOwnNames};
ghost use Rattle.bp_spelling.specs.Tables.{IsPresent, IsTableError};
ghost use Rattle.pm_region.specs.Memory.{words_in};

use crate::doubles::find_double;
use crate::entry::Spelled;
use crate::fault::NameFault;
use crate::gather::gather;
use crate::table::{REACH, TableError, check_by_table};
use bp_read::Tree;
use pm_region::Region;

/// Returns what [`check_by_table`] returns for the first `count` entries. The table is in the memory after them and at
/// most half full. If there is no room for it, the result is `Crowded`.
fn try_table<R: Region>(region: &R, entries: &mut [Spelled], count: usize) -> Result<(), TableError>
    requires count { count ≤ length entries.old }
    requires spelled { All (IsSpelled (words_in R.memory region.now)) (take count entries.old) }
    requires present { All IsPresent (take count entries.old) }
    ensures same { take count entries.new ≡ take count entries.old }
    ensures ok { let words = words_in R.memory region.now in
        OnOk result (HaveOwnNames words (places_of (take count entries.old))) }
    ensures err { let words = words_in R.memory region.now in
        IfErr result (IsTableError words (places_of (take count entries.old))) }
    ensures room { length entries.new ≡ length entries.old }
{
    let (found, table) = entries.split_at_mut(count);
    if table.len() <= REACH || (table.len() - REACH - 1) / 2 < count {
        return Err(TableError::Crowded);
    }
    check_by_table(region, found, &mut table[..2 * count + REACH + 1])
}

/// Checks the names of a directory's entries that refer to an inode.
///
/// The region has at most 67,108,864 blocks of 512 words. `entries` has room for as many entries as the directory has.
/// The time is linear in them if it has the room that [`make_room`](crate::make_room) makes, and few hashes collide; else
/// the entries are sorted.
///
/// # Errors
///
/// Which of several faults is returned is not determined.
///
/// - `Form`: a name is not valid.
/// - `Twice`: two entries have the same name.
pub fn check_names<R: Region>(
    region: &R,
    tree: Tree,
    entries: &mut [Spelled],
) -> Result<(), NameFault>
    requires sound { IsSound (words_in R.memory region.now) tree.root tree.size }
    requires full { IsFull (words_in R.memory region.now) tree.root tree.size }
    requires most { length (words_in R.memory region.now) ≤ block_words * max_blocks }
    requires room { tree.size / entry_size ≤ length entries.old }
    ensures ok { OnOk result (AreNames (words_in R.memory region.now) tree.root tree.size) }
    ensures err { IfErr result (AreWrong (words_in R.memory region.now) tree.root tree.size) }
    ensures room { length entries.new ≡ length entries.old }
{
    let count = match gather(region, tree, entries) {
        Ok(count) => count,
        Err(place) => return Err(NameFault::Form { place }),
    };
    match try_table(region, entries, count) {
        Ok(()) => Ok(()),
        Err(TableError::Repeated(place)) => Err(NameFault::Twice { place }),
        Err(TableError::Crowded) => match find_double(region, &mut entries[..count]) {
            Some(place) => Err(NameFault::Twice { place }),
            None => Ok(()),
        },
    }
}
