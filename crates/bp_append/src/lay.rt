//! Writes bytes into a leaf, by runs of words.

ghost use Rattle.std.specs.Prelude.{◌≡◌, ℕ, ◌+◌, ◌*◌, ◌/◌, ◌^◌, ◌<◌, ◌≤◌, length, slice_index};
ghost use Rattle.bp_layout.specs.Words.{byte_of};
ghost use Rattle.bp_limits.specs.Limits.{block_size, block_words};
ghost use Rattle.pm_region.specs.Memory.{words_in, room_in};
ghost use Rattle.bp_append.specs.Given.{given, run_words, IsLaid, Lays, LaysRun};

use crate::bytes::{given_in, word_with};
use bp_limits::BLOCK_WORDS;
use pm_region::{HEAD_WORDS, Region};
use pm_words::word_at;

/// Words that are stored at once: a cache line. The length is known at each copy, so a copy is a few moves, and a short
/// write fills no larger array than it needs.
const RUN: usize = 8;

/// Bytes to write: from offset `low` on the given bytes, which start at offset `from`, and 0 elsewhere.
#[derive(Clone, Copy)]
struct Layer<'a> {
    low: u64,
    from: u64,
    bytes: &'a [u8],
}

/// Returns the given bytes that are before an offset.
fn bytes_before(high: u64, from: u64, bytes: &[u8]) -> &[u8]
    ensures before { (offset : ℕ) → offset < high → given from result.now offset ≡ given from bytes.now offset }
    ensures past_end { (offset : ℕ) → high ≤ offset → given from result.now offset ≡ 0 }
{
    let count = high.saturating_sub(from).min(bytes.len() as u64);
    &bytes[..count as usize]
}

/// Returns the words of a run that is fully within the given bytes, from byte `at` of them on.
fn given_run(bytes: &[u8], at: usize) -> [u64; RUN]
    requires { at + 8 * run_words ≤ length bytes.now }
    ensures { (k c : ℕ) → k < run_words → c < 8 → byte_of (slice_index result k) c ≡ slice_index bytes.now (at + 8 * k + c) }
{
    let mut words = [0; RUN];
    for k in 0..RUN {
        words[k] = word_at(bytes, at + 8 * k);
    }
    words
}

/// Returns the words of a run that starts at `start`, if it keeps no old byte.
fn new_run(start: u64, layer: &Layer<'_>) -> [u64; RUN]
    requires few { start + 8 * run_words < 2 ^ 64 }
    ensures { (k c : ℕ) → k < run_words → c < 8 → byte_of (slice_index result k) c ≡
        given layer.now.from layer.now.bytes.now (start + 8 * k + c) }
{
    let mut words = [0; RUN];
    for k in 0..RUN {
        words[k] = given_in(start + 8 * k as u64, layer.from, layer.bytes);
    }
    words
}

/// Returns the words of a run that starts at `start`; 0 if it ends before the first given byte.
fn early_run(start: u64, layer: &Layer<'_>) -> [u64; RUN]
    requires few { start + 8 * run_words < 2 ^ 64 }
    ensures { (k c : ℕ) → k < run_words → c < 8 → byte_of (slice_index result k) c ≡
        given layer.now.from layer.now.bytes.now (start + 8 * k + c) }
{
    let end = start + 8 * RUN as u64;
    if end <= layer.from {
        return [0; RUN];
    }
    new_run(start, layer)
}

/// Returns the words of a run that starts at `start`, past the bytes that are kept. A run fully within the given bytes
/// is copied from them, and a run without any of them is 0.
fn laid_run(start: u64, layer: &Layer<'_>) -> [u64; RUN]
    requires few { start + 8 * run_words < 2 ^ 64 }
    ensures { (k c : ℕ) → k < run_words → c < 8 → byte_of (slice_index result k) c ≡
        given layer.now.from layer.now.bytes.now (start + 8 * k + c) }
{
    let count = layer.bytes.len();
    if start < layer.from {
        return early_run(start, layer);
    }
    let at = (start - layer.from) as usize;
    if at + 8 * RUN <= count {
        return given_run(layer.bytes, at);
    }
    if count <= at {
        return [0; RUN];
    }
    new_run(start, layer)
}

/// Stores a run of words past the bytes that are kept. Its first word is at `place`, and its first byte at `start`.
fn lay_run<R: Region>(region: &mut R, place: u64, start: u64, layer: &Layer<'_>)
    requires after_head { HEAD_WORDS ≤ place }
    requires in_range { place + run_words ≤ length (R.memory region.old).base }
    requires few { start + 8 * run_words < 2 ^ 64 }
    requires past_end { layer.now.low ≤ start }
    requires room { run_words ≤ room_in (R.memory region.old) }
    ensures { LaysRun (R.memory region.old) (R.memory region.new) place start run_words
        layer.now.low layer.now.from layer.now.bytes.now }
{
    let words = laid_run(start, layer);
    region.store_words(place, &words);
}

/// Returns the value of the word at `place`, whose first byte is at `start`. Offset `low` may be in this word.
fn laid_word<R: Region>(region: &R, place: u64, start: u64, layer: &Layer<'_>) -> u64
    requires after_head { HEAD_WORDS ≤ place }
    requires in_range { place < length (R.memory region.now).base }
    requires few { start + 8 < 2 ^ 64 }
    requires begun { layer.now.low < start + 8 }
    ensures { IsLaid layer.now.low layer.now.from layer.now.bytes.now
        (slice_index (words_in R.memory region.now) place) start result }
{
    if layer.low <= start {
        return given_in(start, layer.from, layer.bytes);
    }
    let old = region.load_past_head(place);
    word_with(old, start, layer.low, layer.from, layer.bytes)
}

/// Stores the word at `place`, whose first byte is at `start`. Offset `low` may be in this word.
fn lay_word<R: Region>(region: &mut R, place: u64, start: u64, layer: &Layer<'_>)
    requires after_head { HEAD_WORDS ≤ place }
    requires in_range { place < length (R.memory region.old).base }
    requires few { start + 8 < 2 ^ 64 }
    requires begun { layer.now.low < start + 8 }
    requires room { 1 ≤ room_in (R.memory region.old) }
    ensures { LaysRun (R.memory region.old) (R.memory region.new) place start 1
        layer.now.low layer.now.from layer.now.bytes.now }
{
    let value = laid_word(region, place, start, layer);
    region.store_past_head(place, value);
}

/// Stores the first of `count` words, or a whole run of them if there are enough and none of their bytes is kept.
/// Returns how many words it stored. The first word is at `place`, and its first byte at `start`.
fn lay_some<R: Region>(region: &mut R, place: u64, start: u64, count: u32, layer: &Layer<'_>) -> u32
    requires any { 0 < count }
    requires after_head { HEAD_WORDS ≤ place }
    requires in_range { place + count ≤ length (R.memory region.old).base }
    requires few { start + 8 * count < 2 ^ 64 }
    requires begun { layer.now.low < start + 8 }
    requires room { count ≤ room_in (R.memory region.old) }
    ensures lays { LaysRun (R.memory region.old) (R.memory region.new) place start result
        layer.now.low layer.now.from layer.now.bytes.now }
    ensures any { 0 < result }
    ensures most { result ≤ count }
{
    if count < RUN as u32 || start < layer.low {
        lay_word(region, place, start, layer);
        1
    } else {
        lay_run(region, place, start, layer);
        RUN as u32
    }
}

/// Writes the given bytes into the leaf at block `block` of the region, from offset `low` to `high`. The leaf's first
/// byte is at `start`.
pub(crate) fn lay<R: Region>(
    region: &mut R,
    block: u32,
    start: u64,
    low: u64,
    high: u64,
    from: u64,
    bytes: &[u8],
)
    requires order { start ≤ low }
    requires some { low ≤ high }
    requires in_leaf { high ≤ start + block_size }
    requires few { start + block_size < 2 ^ 64 }
    requires some_block { 1 ≤ block }
    requires in_range { block < length (R.memory region.old).base / block_words }
    requires room { block_words ≤ room_in (R.memory region.old) }
    ensures lays { Lays (R.memory region.old) (R.memory region.new) block start low high from bytes.now }
{
    let given = bytes_before(high, from, bytes);
    let layer = Layer {
        low,
        from,
        bytes: given,
    };
    let end = ((high - start + 7) / 8) as u32;
    let mut index = ((low - start) / 8) as u32;
    while index < end {
        let place = block as u64 * BLOCK_WORDS + index as u64;
        index += lay_some(region, place, start + 8 * index as u64, end - index, &layer);
    }
}
