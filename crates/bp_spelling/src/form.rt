//! The check that a name is valid.

ghost use Rattle.std.specs.Prelude.{◌≡◌, ◌≢◌, ℕ, ◌+◌, ◌/◌, ◌%◌, ◌≤◌, ◌<◌, ◌↔◌, IsTrue, length, slice_index};
ghost use Rattle.bp_layout.specs.Paths.{IsName};
ghost use Rattle.bp_layout.specs.Words.{byte_of};
ghost use Rattle.bp_limits.specs.Limits.{entry_words};
ghost use Rattle.bp_limits.specs.CallLimits.{max_name};
ghost use Rattle.bp_spelling.specs.Places.{name_there, IsPlain, ArePlain, ArePlainBytes, IsDots};
ghost use Rattle.pm_region.specs.Memory.{words_in};

use bp_layout::{LENGTH_WORD, NAME_WORD, NAME_WORDS};
use bp_limits::MAX_NAME;
use pm_region::{HEAD_WORDS, Region};
use pm_words::low_bytes;

/// Returns a word whose bytes are 0, except where a byte of the given word is 0.
fn zero_marks(word: u64) -> u64
    ensures { (o : ℕ) → o < 8 → (byte_of result o ≡ 0) ↔ (byte_of word o ≢ 0) }
{
    // A byte's highest bit is set in the sums if one of its lower seven bits was. No sum carries into the next byte.
    let sums = (word & 0x7f7f_7f7f_7f7f_7f7f) + 0x7f7f_7f7f_7f7f_7f7f;
    ((sums | word) & 0x8080_8080_8080_8080) ^ 0x8080_8080_8080_8080
}

/// Returns a word whose bytes are 0, except where a byte of the given word is 0 or `/`.
fn forbidden_marks(word: u64) -> u64
    ensures { (o : ℕ) → o < 8 → (byte_of result o ≡ 0) ↔ IsPlain (byte_of word o) }
{
    zero_marks(word) | zero_marks(word ^ 0x2f2f_2f2f_2f2f_2f2f)
}

/// Returns whether none of the lowest `count` bytes of a word is 0 or `/`.
fn is_plain(word: u64, count: u64) -> bool
    ensures { IsTrue result ↔ ArePlainBytes word count }
{
    low_bytes(forbidden_marks(word), count) == 0
}

/// Returns whether no byte of these words is 0 or `/`. It looks at each, which takes less time than to stop at the
/// first.
fn are_plain_words(words: &[u64]) -> bool
    ensures { IsTrue result ↔ ((i : ℕ) → i < length words.now → ArePlainBytes (slice_index words.now i) 8) }
{
    let mut found = 0;
    for word in words {
        found |= forbidden_marks(*word);
    }
    found == 0
}

/// Returns whether none of `count` bytes is 0 or `/`, of which the first word is at a place.
fn are_plain<R: Region>(region: &R, first: u64, count: u64) -> bool
    requires short { count ≤ max_name }
    requires after_head { HEAD_WORDS ≤ first }
    requires within { first + 30 ≤ length (words_in R.memory region.now) }
    ensures { IsTrue result ↔ ArePlain (words_in R.memory region.now) first count }
{
    let _words = region.words();
    let words = region.load_words(first, NAME_WORDS);
    let whole = count as usize / 8;
    if !are_plain_words(&words[..whole]) {
        return false;
    }
    count % 8 == 0 || is_plain(words[whole], count % 8)
}

/// Returns whether a name of `count` bytes, the first of which are in this word, is `.` or `..`.
fn is_dots(word: u64, count: u64) -> bool
    ensures { IsTrue result ↔ IsDots word count }
{
    match count {
        1 => word % 256 == 46,
        2 => word % 65536 == 0x2e2e,
        _ => false,
    }
}

/// Returns whether the entry at a place has a valid name: 1 to 240 bytes, no byte 0 and no `/`, and neither `.` nor
/// `..`.
pub(crate) fn is_name<R: Region>(region: &R, place: u64) -> bool
    requires after_head { HEAD_WORDS ≤ place }
    requires within { place + entry_words ≤ length (words_in R.memory region.now) }
    ensures { IsTrue result ↔ IsName (name_there (words_in R.memory region.now) place) }
{
    let _words = region.words();
    let count = region.load_past_head(place + LENGTH_WORD);
    if count == 0 {
        return false;
    }
    if count > MAX_NAME as u64 {
        return false;
    }
    let first = region.load_past_head(place + NAME_WORD);
    if is_dots(first, count) {
        return false;
    }
    are_plain(region, place + NAME_WORD, count)
}
