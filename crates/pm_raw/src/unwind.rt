//! Words as they were before the last events of a log, by its undo log.

ghost use Rattle.std.specs.Prelude.{◌≡◌, ◌+◌, ◌-◌, ◌<◌, ◌≤◌, true, false, drop, length, slice_index, take};
ghost use Rattle.pm_region.specs.Memory.{AreWithin, stores_from};
ghost use Rattle.pm_raw.specs.Entries.{events_of};
ghost use Rattle.pm_raw.specs.Unwound.{base_from, events_from, unwound, unwound_within};

use super::log::{Log, NO_WORD, Piece};
use super::runs::{Runs, WordRow};

/// Returns whether a word is one of `count` consecutive ones, from `first` on.
fn is_among(word: u64, first: u64, count: usize) -> bool
    ensures inside { result ≡ true → (first ≤ word) × (word < first + count) }
    ensures outside { result ≡ false → first ≤ word → first + count ≤ word }
{
    first <= word && ((word - first) as usize) < count
}

/// Returns the value of a word before a log with this undo log: what the first store to the word replaced.
pub fn word_before(words: &[u64], undos: Log<'_>, word: u64) -> u64
    requires { word < length words.now }
    ensures { result ≡ slice_index (base_from words.now undos.entry) word }
{
    let mut rest = undos;
    while rest.len() > 0 {
        match rest.take_first() {
            Piece::Stores {
                word: first,
                values,
            } => {
                if is_among(word, first, values.len()) {
                    return values[(word - first) as usize];
                }
            }
            Piece::Barrier => {}
            Piece::CallEnd => {}
        }
    }
    words[word as usize]
}

/// Unwinds stores to consecutive words, from `first` on, which replaced these values. From the last store to the
/// first, each word is swapped with the value.
fn unwind_stores(words: &mut [u64], first: usize, saved: &mut [u64])
    requires { first + length saved.old ≤ length words.old }
    ensures words { words.new ≡ base_from words.old (stores_from first saved.old) }
    ensures saved { stores_from first saved.new ≡ events_from words.old (stores_from first saved.old) }
{
    let mut left = saved.len();
    while left > 0 {
        left -= 1;
        let value = words[first + left];
        words[first + left] = saved[left];
        saved[left] = value;
    }
}

/// Unwinds the last of the first `end` events, and those before it, from `start` on, that are in a row with it.
/// Returns where the row begins.
fn unwind_row(
    words: &mut [u64],
    places: &Runs,
    saved: &mut [u64],
    start: usize,
    end: usize,
) -> usize
    requires each { length saved.old ≡ length places.now.words }
    requires some { start < end }
    requires inside { end ≤ length saved.old }
    requires within { AreWithin (length words.old) (events_of places.now.words saved.old) }
    ensures low { start ≤ result }
    ensures less { result < end }
    ensures each { length saved.new ≡ length saved.old }
    ensures words { words.new ≡ base_from words.old (take (end - result) (drop result (events_of places.now.words saved.old))) }
    ensures log { events_of places.now.words saved.new ≡
        unwound_within result end words.old (events_of places.now.words saved.old) }
{
    let WordRow { first, len } = places.row_before(start, end);
    let from = end - len;
    if first != NO_WORD {
        unwind_stores(words, first as usize, &mut saved[from..end]);
    }
    from
}

/// Unwinds a log from its last event down to index `start`. The words are then those before that event, and the values
/// that its events replaced are then those that they brought.
pub fn unwind(words: &mut [u64], places: &Runs, saved: &mut [u64], start: usize)
    requires each { length saved.old ≡ length places.now.words }
    requires fits { start ≤ length saved.old }
    requires within { AreWithin (length words.old) (events_of places.now.words saved.old) }
    ensures each { length saved.new ≡ length saved.old }
    ensures words { words.new ≡ base_from words.old (drop start (events_of places.now.words saved.old)) }
    ensures log { events_of places.now.words saved.new ≡ unwound start words.old (events_of places.now.words saved.old) }
{
    let mut end = saved.len();
    while end > start {
        end = unwind_row(words, places, saved, start, end);
    }
}
