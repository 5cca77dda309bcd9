//! Hashes of names. Equal names have equal hashes.

ghost use Rattle.std.specs.Prelude.{◌≡◌, ◌+◌, ◌≤◌, length};
ghost use Rattle.bp_layout.specs.Words.{word};
ghost use Rattle.bp_limits.specs.Limits.{entry_words};
ghost use Rattle.bp_limits.specs.CallLimits.{max_name};
ghost use Rattle.bp_spelling.specs.Hashes.{mixed, name_hash};
ghost use Rattle.pm_region.specs.Memory.{words_in};

use bp_layout::{LENGTH_WORD, NAME_WORD, NAME_WORDS};
use pm_region::{HEAD_WORDS, Region};
use pm_words::low_bytes;

const FACTOR: u64 = 0x9e37_79b9_7f4a_7c15;

/// Returns the hash after one more word, given the hash of the words before it. A product carries only upwards, so
/// names that differ only in the highest bytes of their words would have few different hashes. Therefore the high half
/// is folded into the low half, which the next product spreads.
fn mix(state: u64, word: u64) -> u64
    ensures { result ≡ mixed state word }
{
    let product = FACTOR.wrapping_mul(state.wrapping_add(word));
    product ^ (product >> 32)
}

/// Returns the hash of the name of the entry at a place: of its length, and of its words without the bytes past its
/// end.
pub(crate) fn hash_name<R: Region>(region: &R, place: u64) -> u32
    requires short { word (words_in R.memory region.now) (place + 1) ≤ max_name }
    requires after_head { HEAD_WORDS ≤ place }
    requires within { place + entry_words ≤ length (words_in R.memory region.now) }
    ensures { result ≡ name_hash (words_in R.memory region.now) place }
{
    let _words = region.words();
    let count = region.load_past_head(place + LENGTH_WORD);
    let words = region.load_words(place + NAME_WORD, NAME_WORDS);
    let whole = count as usize / 8;
    let mut state = mix(0, count);
    for word in &words[..whole] {
        state = mix(state, *word);
    }
    if count % 8 != 0 {
        state = mix(state, low_bytes(words[whole], count % 8));
    }
    (state >> 32) as u32
}
