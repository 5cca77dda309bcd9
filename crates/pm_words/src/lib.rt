//! Words of 64 bits: their bytes, the block of a pointer, the digits of a leaf's number.
#![tactic(auto)]

ghost use Rattle.pm_words.specs.Bytes.{word_bytes, word_of};
ghost use Rattle.bp_limits.specs.Limits.{block_size, block_words};
ghost use Rattle.pm_words.specs.Digits.{digit, max_level};
ghost use Rattle.std.specs.Prelude.{◌%◌, ◌*◌, ◌/◌, ◌^◌, ◌≡◌, ◌≤◌, min};

use bp_limits::{BLOCK_SIZE, BLOCK_WORDS};

pub mod laws;
mod overlay;

pub use overlay::{Overlay, word_at};

/// The maximum level whose span fits into a word: 2^57 bytes.
pub const MAX_LEVEL: u32 = 5;

/// Returns the word of these bytes, the lowest first.
#[tactic(auto, using(crate::proofs::Bytes::eight_of))]
pub fn read_word(bytes: &[u8; 8]) -> u64
    ensures { result ≡ word_of bytes.now }
{
    u64::from_le_bytes(*bytes)
}

/// Returns the bytes of a word, the lowest first.
pub fn write_word(word: u64) -> [u8; 8]
    ensures { result ≡ word_bytes word }
{
    word.to_le_bytes()
}

/// Returns the lowest `count` bytes of a word: all of it from eight on.
#[tactic(auto, using(crate::proofs::LowBytes::masked))]
pub fn low_bytes(word: u64, count: u64) -> u64
    ensures { result ≡ word % 256 ^ min 8 count }
{
    if count < 8 {
        word & ((1 << (8 * count)) - 1)
    } else {
        word
    }
}

/// Returns the number of the block to which a pointer points, which is its bits 12 to 63; 0 if the pointer is null.
pub fn block_of(pointer: u64) -> u64
    ensures { result ≡ pointer / block_size }
{
    pointer / BLOCK_SIZE
}

/// Returns the number of bytes that a tree node `level` levels above the leaves covers. `level` is at most
/// `MAX_LEVEL`.
#[tactic(auto, using(crate::proofs::Digits::shifted_span))]
pub fn span(level: u32) -> u64
    requires { level ≤ max_level }
    ensures { result ≡ block_size * block_words ^ level }
{
    BLOCK_SIZE << (9 * level)
}

/// Returns the slot on the path to leaf `leaf` in the block of the node `level + 1` levels above the leaves: a digit
/// of `leaf` in base 512.
#[tactic(auto, using(crate::proofs::Digits::shifted_digit))]
pub fn digit(leaf: u64, level: u32) -> u16
    requires { level ≤ max_level }
    ensures { result ≡ digit leaf level }
{
    ((leaf >> (9 * level)) % BLOCK_WORDS) as u16
}
