//! Search for two entries of a directory with the same name.

ghost use Rattle.std.specs.Prelude.{◌≡◌, ◌+◌, ◌^◌, ◌<◌, All, IsPermutation};
ghost use Rattle.std.specs.List.Sorted.{IsSortedBy};
ghost use Rattle.bp_layout.specs.Words.{word};
ghost use Rattle.bp_spelling.specs.Hashes.{IsSpelled, places_of, spelled_cmp, spelled_lt};
ghost use Rattle.bp_spelling.specs.Places.{rest_cmp, name_cmp, FindsDouble};
ghost use Rattle.pm_region.specs.Memory.{words_in};

use crate::entry::Spelled;
use crate::name_words::{compare_words, word_at};
use bp_layout::{LENGTH_WORD, NAME_WORDS};
use pm_region::Region;
use std::cmp::Ordering;

/// Compares the bytes of the names of the entries at two places, which have equal lengths.
fn compare_bytes<R: Region>(region: &R, a: u64, b: u64, count: u64) -> Ordering
    requires a_low { a < 2 ^ 37 }
    requires b_low { b < 2 ^ 37 }
    requires first { word (words_in R.memory region.now) (a + 1) ≡ count }
    requires second { word (words_in R.memory region.now) (b + 1) ≡ count }
    ensures { result ≡ rest_cmp (words_in R.memory region.now) a b 1 }
{
    // The words of the name follow that of its length.
    for part in 1..NAME_WORDS as u64 + 1 {
        let x = word_at(region, a + LENGTH_WORD + part);
        let y = word_at(region, b + LENGTH_WORD + part);
        match compare_words(x, y, count.saturating_sub(8 * (part - 1))) {
            Ordering::Equal => {}
            unequal => return unequal,
        }
    }
    Ordering::Equal
}

/// Compares the names of the entries at two places: the shorter one comes first.
fn compare_names<R: Region>(region: &R, a: u64, b: u64) -> Ordering
    requires a_low { a < 2 ^ 37 }
    requires b_low { b < 2 ^ 37 }
    ensures { result ≡ name_cmp (words_in R.memory region.now) a b }
{
    let count = word_at(region, a + LENGTH_WORD);
    let other = word_at(region, b + LENGTH_WORD);
    if count < other {
        return Ordering::Less;
    }
    if other < count {
        return Ordering::Greater;
    }
    compare_bytes(region, a, b, count)
}

/// Compares two entries by the hashes of their names, and by the names only if these are equal.
pub(crate) fn compare_entries<R: Region>(region: &R, a: Spelled, b: Spelled) -> Ordering
    ensures { result ≡ spelled_cmp (words_in R.memory region.now) a b }
{
    match a.hash.cmp(&b.hash) {
        Ordering::Equal => compare_names(region, a.place(), b.place()),
        unequal => unequal,
    }
}

fn sort_by_name<R: Region>(region: &R, entries: &mut [Spelled])
    ensures same { IsPermutation entries.old entries.new }
    ensures sorted { IsSortedBy (spelled_lt (words_in R.memory region.now)) entries.new }
{
    entries.sort_unstable_by(|a, b| compare_entries(region, *a, *b));
}

/// Returns the place of an entry that has the name of another one. It sorts the entries by their hashes, then by their
/// names.
pub(crate) fn find_double<R: Region>(region: &R, entries: &mut [Spelled]) -> Option<u64>
    requires { All (IsSpelled (words_in R.memory region.now)) entries.old }
    ensures same { IsPermutation entries.old entries.new }
    ensures double { FindsDouble result (words_in R.memory region.now) (places_of entries.new) }
{
    sort_by_name(region, entries);
    for i in 1..entries.len() {
        if let Ordering::Equal = compare_entries(region, entries[i - 1], entries[i]) {
            return Some(entries[i].place());
        }
    }
    None
}
