//! Comparison of names by their hashes, with a table, as long as few hashes collide.

ghost use Rattle.std.specs.Prelude.{◌≡◌, ◌<◌, ◌≤◌, length, vec_len, All, OnOk, IfErr};
ghost use Rattle.bp_spelling.specs.Hashes.{IsSpelled, places_of};
ghost use Rattle.bp_spelling.specs.Places.{HaveOwnNames};
ghost use Rattle.bp_spelling.specs.Tables.{home, IsPresent, Puts, IsClash, IsTableError};
ghost use Rattle.pm_region.specs.Memory.{words_in};

use crate::doubles::compare_entries;
use crate::entry::Spelled;
use pm_region::Region;
use std::alloc::AllocError;
use std::cmp::Ordering;

/// The number of cells of a table that may hold a name: the cell of its hash, and those after it.
pub(crate) const REACH: usize = 128;

/// Why a name is not put into a table.
enum Clash {
    /// An entry with the same name is there.
    Double,
    /// Each cell that may hold it is taken.
    Full,
}

/// Why a table does not show that no two entries have the same name.
pub(crate) enum TableError {
    /// The entry at this place has the name of another one.
    Repeated(u64),
    /// Too many hashes collide, or there is no memory for a table.
    Crowded,
}

/// Makes room for the check of `names` names by [`check_names`](crate::check_names): for the names, and for a table that
/// is at most half full. The vector never becomes shorter.
///
/// # Errors
///
/// - `AllocError`: allocation fails.
pub fn make_room(entries: &mut Vec<Spelled>, names: usize) -> Result<(), AllocError>
    ensures { OnOk result (names ≤ vec_len entries.new) }
{
    let wanted = names.saturating_mul(3).saturating_add(REACH + 1);
    let len = entries.len();
    if len < wanted {
        // No more than that: a directory that is a little larger takes a little more.
        entries.reserve_exact(wanted - len)?;
        entries.resize(wanted, Spelled::default())?;
    }
    Ok(())
}

/// Returns the first cell that may hold a name with a hash, in a table of `cells` cells.
fn home_of(cells: usize, hash: u32) -> usize
    requires { 128 < cells }
    ensures { result ≡ home cells hash }
{
    hash as usize % (cells - REACH)
}

/// Puts an entry into the first empty cell that may hold it. A cell is empty if its entry is the one at word 0.
fn put<R: Region>(region: &R, table: &mut [Spelled], entry: Spelled) -> Result<(), Clash>
    requires room { 128 < length table.old }
    requires some { IsPresent entry }
    ensures ok { OnOk result (Puts (words_in R.memory region.now) table.old table.new entry) }
    ensures err { IfErr result (IsClash (words_in R.memory region.now) table.old entry) }
    ensures room { length table.new ≡ length table.old }
{
    let home = home_of(table.len(), entry.hash);
    for cell in home..home + REACH {
        if table[cell].number == 0 {
            table[cell] = entry;
            return Ok(());
        }
        if let Ordering::Equal = compare_entries(region, table[cell], entry) {
            return Err(Clash::Double);
        }
    }
    Err(Clash::Full)
}

/// Puts entries into a table, whatever its contents. The time is linear in the entries and the cells.
///
/// # Errors
///
/// - `Repeated`: an entry has the name of another one.
/// - `Crowded`: the table does not determine whether one has.
pub(crate) fn check_by_table<R: Region>(
    region: &R,
    entries: &[Spelled],
    table: &mut [Spelled],
) -> Result<(), TableError>
    requires spelled { All (IsSpelled (words_in R.memory region.now)) entries.now }
    requires present { All IsPresent entries.now }
    requires room { 128 < length table.old }
    ensures ok { OnOk result (HaveOwnNames (words_in R.memory region.now) (places_of entries.now)) }
    ensures err { IfErr result (IsTableError (words_in R.memory region.now) (places_of entries.now)) }
    ensures room { length table.new ≡ length table.old }
{
    table.fill(Spelled::default());
    for entry in entries {
        match put(region, table, *entry) {
            Ok(()) => {}
            Err(Clash::Double) => return Err(TableError::Repeated(entry.place())),
            Err(Clash::Full) => return Err(TableError::Crowded),
        }
    }
    Ok(())
}
