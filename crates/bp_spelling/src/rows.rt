//! The inode numbers of the entries of a leaf.

ghost use Rattle.std.specs.Prelude.{◌≡◌, ℕ, ◌+◌, ◌*◌, ◌<◌, ◌≤◌, length, slice_index};
ghost use Rattle.bp_limits.specs.Limits.{entry_words, block_entries};
ghost use Rattle.bp_layout.specs.Words.{word};
ghost use Rattle.pm_region.specs.Memory.{words_in};

use bp_layout::INO_WORD;
use bp_limits::{BLOCK_ENTRIES, ENTRY_WORDS};
use pm_region::{HEAD_WORDS, Region};

/// Returns the inode numbers of `count` consecutive entries, at most sixteen, from the one that begins at word `place`
/// of the region on. The number of an empty entry is 0. They are read together, so the processor waits for all of them
/// at once.
pub fn named_in_row<R: Region>(region: &R, place: u64, count: u32) -> [u64; BLOCK_ENTRIES as usize]
    requires few { count ≤ block_entries }
    requires after_head { HEAD_WORDS ≤ place }
    requires within { place + entry_words * count ≤ length (words_in R.memory region.now) }
    ensures { (k : ℕ) → k < count →
        slice_index result k ≡ word (words_in R.memory region.now) (place + entry_words * k) }
{
    let _words = region.words();
    let mut named = [0; BLOCK_ENTRIES as usize];
    for k in 0..count {
        named[k as usize] = region.load_past_head(place + ENTRY_WORDS * k as u64 + INO_WORD);
    }
    named
}
