//! Entries of a directory.

ghost use Rattle.std.specs.Prelude.{◌*◌, ◌+◌, ◌<◌, ◌≡◌, ◌≤◌, ℕ, slice_index};
ghost use Rattle.bp_layout.specs.Fields.{name_byte, name_of};
ghost use Rattle.bp_limits.specs.CallLimits.{max_name};
ghost use Rattle.bp_layout.specs.Words.{byte_of};
ghost use Rattle.arrayvec.specs.ArrayVec.{array_vec_len};

use crate::Name;
use crate::name_words::name_word;
use bp_limits::ENTRY_WORDS;

/// The word of an entry with the number of the inode that it names; 0 if the entry is empty.
pub const INO_WORD: u64 = 0;

/// The word of an entry with the length of the name, in bytes.
pub const LENGTH_WORD: u64 = 1;

/// The first word of an entry with bytes of the name: eight in each word, the first byte lowest.
pub const NAME_WORD: u64 = 2;

/// The number of words of an entry with bytes of the name.
pub const NAME_WORDS: usize = 30;

/// An entry of a directory, 32 words.
#[derive(Debug, Drop)]
pub struct Entry {
    /// Inode that the entry names; 0 if the entry is empty.
    pub ino: u64,
    /// Name of that inode.
    pub name: Name,
}

impl Entry {
    /// Reads the number of the inode, and the name.
    pub fn read(words: &[u64; ENTRY_WORDS as usize]) -> Entry
        requires least { 1 ≤ slice_index words.now 1 }
        requires most { slice_index words.now 1 ≤ max_name }
        ensures ino { result.ino ≡ slice_index words.now 0 }
        ensures name { result.name.items ≡ name_of words.now }
    {
        let mut name = Name::new();
        for offset in 0..words[LENGTH_WORD as usize] as usize {
            name.push(byte(words[NAME_WORD as usize + offset / 8], offset % 8));
        }
        Entry {
            ino: words[INO_WORD as usize],
            name,
        }
    }

    /// Returns the words with these fields, with zeros after the name.
    pub fn words(&self) -> [u64; ENTRY_WORDS as usize]
        requires { 1 ≤ array_vec_len self.now.name }
        ensures ino { slice_index result 0 ≡ self.now.ino }
        ensures length { slice_index result 1 ≡ array_vec_len self.now.name }
        ensures name { (offset : ℕ) → offset < max_name
            → name_byte result offset ≡ slice_index self.now.name.items offset }
    {
        let mut words = [0; ENTRY_WORDS as usize];
        words[INO_WORD as usize] = self.ino;
        words[LENGTH_WORD as usize] = self.name.len() as u64;
        for index in 0..NAME_WORDS {
            words[NAME_WORD as usize + index] = name_word(&self.name, index);
        }
        words
    }
}

/// Returns a byte of a word; index 0 is the lowest byte.
fn byte(word: u64, index: usize) -> u8
    requires { index < 8 }
    ensures { result ≡ byte_of word index }
{
    word.to_le_bytes()[index]
}
