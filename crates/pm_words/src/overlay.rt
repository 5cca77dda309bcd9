//! Words of consecutive bytes, and words that such bytes overlay.

ghost use Rattle.std.specs.Prelude.{◌≡◌, ℕ, ◌+◌, ◌^◌, ◌<◌, ◌≤◌, length, slice_index};
ghost use Rattle.pm_words.specs.Bytes.{byte_of};
ghost use Rattle.pm_words.specs.Overlay.{byte_over};

use crate::{low_bytes, read_word};

/// Bytes that overlay others.
#[derive(Clone, Copy)]
pub struct Overlay<'a> {
    /// The offset of the first byte.
    pub from: u64,
    /// The bytes, in order.
    pub bytes: &'a [u8],
}

/// Returns the word whose eight bytes are at an index.
pub fn word_at(bytes: &[u8], at: usize) -> u64
    requires { at + 8 ≤ length bytes.now }
    ensures { (c : ℕ) → c < 8 → byte_of result c ≡ slice_index bytes.now (at + c) }
{
    let mut word = [0; 8];
    word.copy_from_slice(&bytes[at..at + 8]);
    read_word(&word)
}

/// Returns a byte, or 0 past the last one.
fn byte_or_zero(bytes: &[u8], at: usize) -> u8
    ensures { result ≡ slice_index bytes.now at }
{
    if at < bytes.len() { bytes[at] } else { 0 }
}

/// Returns the word whose first byte is at an index, made byte by byte: bytes past the last one are 0.
fn short_word(bytes: &[u8], at: usize) -> u64
    requires few { at + 8 < 2 ^ 64 }
    ensures { (c : ℕ) → c < 8 → byte_of result c ≡ slice_index bytes.now (at + c) }
{
    let word = [
        byte_or_zero(bytes, at),
        byte_or_zero(bytes, at + 1),
        byte_or_zero(bytes, at + 2),
        byte_or_zero(bytes, at + 3),
        byte_or_zero(bytes, at + 4),
        byte_or_zero(bytes, at + 5),
        byte_or_zero(bytes, at + 6),
        byte_or_zero(bytes, at + 7),
    ];
    u64::from_le_bytes(word)
}

/// Returns the word whose first byte is at an index, and which has the last byte in it: bytes past that one are 0. If
/// there are at least eight bytes, one read of the last eight has all that are needed.
fn last_word(bytes: &[u8], at: usize) -> u64
    requires few { at + 8 < 2 ^ 64 }
    requires begun { at < length bytes.now }
    requires ended { length bytes.now < at + 8 }
    ensures { (c : ℕ) → c < 8 → byte_of result c ≡ slice_index bytes.now (at + c) }
{
    let count = bytes.len();
    if count < 8 {
        short_word(bytes, at)
    } else {
        word_at(bytes, count - 8) >> (8 * (at + 8 - count))
    }
}

/// Returns the lowest `count` bytes of one word with the other bytes of another one.
fn join(low: u64, high: u64, count: u64) -> u64
    requires { count < 8 }
    ensures lowest { (c : ℕ) → c < count → byte_of result c ≡ byte_of low c }
    ensures others { (c : ℕ) → count ≤ c → c < 8 → byte_of result c ≡ byte_of high c }
{
    let kept = low_bytes(low, count);
    let rest = high >> (8 * count) << (8 * count);
    kept | rest
}

/// Returns the word whose first byte is at an index, with the bytes of an old word past the last byte.
fn word_over(bytes: &[u8], at: usize, old: u64) -> u64
    requires few { at + 8 < 2 ^ 64 }
    ensures { (c : ℕ) → c < 8 → byte_of result c ≡ byte_over 0 bytes.now (at + c) (byte_of old c) }
{
    let count = bytes.len();
    if at + 8 <= count {
        word_at(bytes, at)
    } else if count <= at {
        old
    } else {
        join(last_word(bytes, at), old, (count - at) as u64)
    }
}

impl Overlay<'_> {
    /// Returns the word whose first byte is at offset `start`, given the word that is there without the overlay.
    pub fn word(&self, start: u64, old: u64) -> u64
        requires few { start + 8 < 2 ^ 64 }
        ensures { (c : ℕ) → c < 8 →
            byte_of result c ≡ byte_over self.now.from self.now.bytes.now (start + c) (byte_of old c) }
    {
        if self.from <= start {
            word_over(self.bytes, (start - self.from) as usize, old)
        } else if self.from - start < 8 {
            let before = self.from - start;
            let word = word_over(self.bytes, 0, old >> (8 * before));
            join(old, word << (8 * before), before)
        } else {
            old
        }
    }
}
