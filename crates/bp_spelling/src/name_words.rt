//! The words of names.

ghost use Rattle.std.specs.Prelude.{◌≡◌, ◌%◌, ◌^◌, min};
ghost use Rattle.std.specs.Ordering.{nat_cmp};
ghost use Rattle.bp_layout.specs.Words.{word};
ghost use Rattle.pm_region.specs.Memory.{words_in};

use pm_region::Region;
use pm_words::low_bytes;
use std::cmp::Ordering;

/// Returns the word at a place; 0 past the end of the region.
pub(crate) fn word_at<R: Region>(region: &R, place: u64) -> u64
    ensures { result ≡ word (words_in R.memory region.now) place }
{
    if place < region.words() {
        region.load(place)
    } else {
        0
    }
}

/// Compares the lowest `count` bytes of two words.
pub(crate) fn compare_words(x: u64, y: u64, count: u64) -> Ordering
    ensures { result ≡ nat_cmp (x % 256 ^ min 8 count) (y % 256 ^ min 8 count) }
{
    if x == y {
        return Ordering::Equal;
    }
    low_bytes(x, count).cmp(&low_bytes(y, count))
}
