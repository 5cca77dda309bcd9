//! Conversion of the words of a region to the blocks of a file.

ghost use Rattle.std.specs.Prelude.{◌≡◌, ◌≤◌, ◌+◌, ◌*◌, ◌/◌, ◌%◌, length, take};
ghost use Rattle.bp_io.specs.Files.{blocks_of};
ghost use Rattle.bp_limits.specs.Limits.{block_size, block_words};
ghost use Rattle.bp_layout.specs.Bytes.{image_bytes};
ghost use Rattle.pm_region.specs.Memory.{words_in};

use bp_limits::BLOCK_WORDS;
use pm_region::{HEAD_WORDS, Region};
use pm_words::write_word;

/// The greatest number of blocks that a load or a save passes in one call. More would save no time.
pub const RUN_BLOCKS: u32 = 16;

/// The number of words of the head, which are read one by one.
const HEAD: usize = HEAD_WORDS as usize;

/// Writes the bytes of words.
fn encode(words: &[u64], into: &mut [u8])
    requires { length into.old ≡ 8 * length words.now }
    ensures { into.new ≡ image_bytes words.now }
{
    for k in 0..words.len() {
        into[8 * k..8 * k + 8].copy_from_slice(&write_word(words[k]));
    }
}

/// Reads the words of a region's head one by one.
fn head_words<R: Region>(region: &R) -> [u64; HEAD]
    requires { HEAD ≤ length (R.memory region.now).base }
    ensures { result ≡ take HEAD (words_in R.memory region.now) }
{
    let mut words = [0; HEAD];
    for k in 0..HEAD {
        words[k] = region.load(k as u64);
    }
    words
}

/// Reads the bytes of the first words as they are now, as many as `into` has room for.
fn read_prefix<R: Region>(region: &R, into: &mut [u8])
    requires some { 8 * HEAD ≤ length into.old }
    requires whole { length into.old % 8 ≡ 0 }
    requires inside { length into.old / 8 ≤ length (R.memory region.now).base }
    ensures { into.new ≡ image_bytes (take (length into.old / 8) (words_in R.memory region.now)) }
{
    let count = into.len() / 8;
    let (head, rest) = into.split_at_mut(8 * HEAD);
    encode(&head_words(region), head);
    encode(region.load_words(HEAD_WORDS, count - HEAD), rest);
}

/// Reads the bytes of the words as they are now, of as many blocks as `into` has room for, from block `first` on.
pub fn read_blocks<R: Region>(region: &R, first: u32, into: &mut [u8])
    requires whole { length into.old % block_size ≡ 0 }
    requires inside { block_words * first + length into.old / 8 ≤ length (R.memory region.now).base }
    ensures { into.new ≡ blocks_of (image_bytes (words_in R.memory region.now)) first (length into.old / block_size) }
{
    if into.is_empty() {
        return;
    }
    if first == 0 {
        read_prefix(region, into);
        return;
    }
    encode(
        region.load_words(BLOCK_WORDS * first as u64, into.len() / 8),
        into,
    );
}
