//! The entries of a directory, by their places.

ghost use Rattle.std.specs.Prelude.{◌≡◌, ◌*◌, ◌/◌, ◌%◌, ◌<◌, ◌≤◌, length, take, All, IfOk, OnOk, IfErr};
ghost use Rattle.bp_layout.specs.Directory.{slots};
ghost use Rattle.bp_layout.specs.Tree.{IsSound, IsFull};
ghost use Rattle.bp_limits.specs.Limits.{block_entries, block_words, entry_size, max_blocks};
ghost use Rattle.bp_spelling.specs.Gathered.{IsGathered, IsLeafGathered};
ghost use Rattle.bp_spelling.specs.Hashes.{IsSpelled, places_of};
ghost use Rattle.bp_spelling.specs.Places.{used_places, HaveForms, IsMisspelled};
ghost use Rattle.bp_spelling.specs.Tables.{IsPresent};
ghost use Rattle.pm_region.specs.Memory.{words_in};

use crate::entry::Spelled;
use crate::form::is_name;
use crate::hash::hash_name;
use crate::rows::named_in_row;
use bp_layout::{INO_WORD, LENGTH_WORD};
use bp_limits::{BLOCK_ENTRIES, ENTRY_SIZE, ENTRY_WORDS};
use bp_read::Tree;
use bp_read::directory::entry_place;
use pm_region::Region;

/// Records the entries of a leaf, from slot `first` on, after the `before` entries that were recorded before, and
/// returns how many there are then.
///
/// # Errors
///
/// The place of the length of a name that is not valid.
fn gather_leaf<R: Region>(
    region: &R,
    tree: Tree,
    first: u64,
    entries: &mut [Spelled],
    before: usize,
) -> Result<usize, u64>
    requires sound { IsSound (words_in R.memory region.now) tree.root tree.size }
    requires full { IsFull (words_in R.memory region.now) tree.root tree.size }
    requires most { length (words_in R.memory region.now) ≤ block_words * max_blocks }
    requires starts { first % block_entries ≡ 0 }
    requires live { first < tree.size / entry_size }
    requires room { tree.size / entry_size ≤ length entries.old }
    requires before { let words = words_in R.memory region.now in
        IsGathered words tree.root (tree.size / entry_size) first entries.old before }
    ensures gathered { IfOk result
        (IsLeafGathered (words_in R.memory region.now) tree.root tree.size first entries.new) }
    ensures err { IfErr result (IsMisspelled (words_in R.memory region.now) tree.root tree.size) }
    ensures room { length entries.new ≡ length entries.old }
{
    let _words = region.words();
    let row = entry_place(region, tree, first, INO_WORD);
    let slots = (tree.size / ENTRY_SIZE - first).min(BLOCK_ENTRIES) as u32;
    let named = named_in_row(region, row, slots);
    let mut count = before;
    for k in 0..slots {
        let place = row + ENTRY_WORDS * k as u64;
        if named[k as usize] != 0 {
            if !is_name(region, place) {
                return Err(place + LENGTH_WORD);
            }
            entries[count] = Spelled::at(hash_name(region, place), place);
            count += 1;
        }
    }
    Ok(count)
}

/// Records the entries that refer to an inode, with the hashes of their names, and returns their number.
///
/// # Errors
///
/// The place of the length of a name that is not valid.
pub(crate) fn gather<R: Region>(
    region: &R,
    tree: Tree,
    entries: &mut [Spelled],
) -> Result<usize, u64>
    requires sound { IsSound (words_in R.memory region.now) tree.root tree.size }
    requires full { IsFull (words_in R.memory region.now) tree.root tree.size }
    requires most { length (words_in R.memory region.now) ≤ block_words * max_blocks }
    requires room { tree.size / entry_size ≤ length entries.old }
    ensures places { IfOk result (λ count. places_of (take count entries.new) ≡
        used_places (words_in R.memory region.now) tree.root (slots tree.size)) }
    ensures hashes { let words = words_in R.memory region.now in
        IfOk result (λ count. All (IsSpelled words) (take count entries.new)) }
    ensures present { IfOk result (λ count. All IsPresent (take count entries.new)) }
    ensures count { IfOk result (λ count. count ≤ length entries.new) }
    ensures forms { OnOk result (HaveForms (words_in R.memory region.now) tree.root tree.size) }
    ensures err { IfErr result (IsMisspelled (words_in R.memory region.now) tree.root tree.size) }
    ensures room { length entries.new ≡ length entries.old }
{
    let mut count = 0;
    for leaf in 0..(tree.size / ENTRY_SIZE).div_ceil(BLOCK_ENTRIES) {
        count = gather_leaf(region, tree, BLOCK_ENTRIES * leaf, entries, count)?;
    }
    Ok(count)
}
