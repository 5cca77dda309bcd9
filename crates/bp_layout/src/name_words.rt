//! Names as words, eight bytes a word, the first byte lowest. The last word of a name has its last one to eight bytes,
//! with zeros above them.

ghost use Rattle.std.specs.Prelude.{◌≡◌, ℕ, ◌+◌, ◌-◌, ◌*◌, ◌/◌, ◌^◌, ◌<◌, ◌≤◌, length, slice_index};
ghost use Rattle.bp_layout.specs.EntryWords.{part_word, last_part};
ghost use Rattle.bp_layout.specs.Words.{byte_of};
ghost use Rattle.pm_words.specs.Bytes.{word_of};

use pm_words::read_word;

/// Returns the word with these bytes, at most two, and zeros above them.
fn pack_two(bytes: &[u8]) -> u64
    requires { length bytes.now ≤ 2 }
    ensures word { result ≡ word_of bytes.now }
    ensures small { result < 2 ^ 16 }
{
    if bytes.is_empty() {
        return 0;
    }
    let first = bytes[0] as u64;
    if bytes.len() == 1 {
        first
    } else {
        first + 0x100 * bytes[1] as u64
    }
}

/// Returns the word with these bytes, at most four, and zeros above them.
fn pack_four(bytes: &[u8]) -> u64
    requires { length bytes.now ≤ 4 }
    ensures word { result ≡ word_of bytes.now }
    ensures small { result < 2 ^ 32 }
{
    if bytes.len() < 2 {
        return pack_two(bytes);
    }
    let (low, high) = bytes.split_at(2);
    pack_two(low) + 0x1_0000 * pack_two(high)
}

/// Returns the word with these bytes, and zeros above them.
// The word is put together from two halves, and each half likewise. Reading a word from memory right after storing its
// bytes would make the processor wait for these stores, and for all earlier ones.
fn pack(bytes: &[u8]) -> u64
    requires { length bytes.now ≤ 8 }
    ensures { result ≡ word_of bytes.now }
{
    if bytes.len() < 4 {
        return pack_four(bytes);
    }
    let (low, high) = bytes.split_at(4);
    pack_four(low) + 0x1_0000_0000 * pack_four(high)
}

/// Returns the number of a name's last word, which is the number of whole words before it.
pub(crate) fn last_part(name: &[u8]) -> usize
    ensures { result ≡ last_part name.now }
{
    name.len().saturating_sub(1) / 8
}

/// Returns the last word of a name.
pub fn last_word(name: &[u8]) -> u64
    ensures { result ≡ part_word name.now (last_part name.now) }
{
    pack(&name[8 * last_part(name)..])
}

/// Returns a word of a name that has eight bytes of it.
pub(crate) fn whole_word(name: &[u8], part: usize) -> u64
    requires { 8 * part + 8 ≤ length name.now }
    ensures { result ≡ part_word name.now part }
{
    let mut whole = [0; 8];
    whole.copy_from_slice(&name[8 * part..8 * part + 8]);
    read_word(&whole)
}

/// Returns a word of a name, with zeros after the name's end.
pub fn name_word(name: &[u8], index: usize) -> u64
    requires { index < 30 }
    ensures { (offset : ℕ) → offset < 8 → byte_of result offset ≡ slice_index name.now (8 * index + offset) }
{
    let from = 8 * index;
    if from + 8 <= name.len() {
        whole_word(name, index)
    } else if from < name.len() {
        pack(&name[from..])
    } else {
        0
    }
}
