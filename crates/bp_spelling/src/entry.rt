//! The data by which the names of a directory are compared.

ghost use Rattle.std.specs.Prelude.{◌≡◌, ◌%◌, ◌^◌, ◌<◌};
ghost use Rattle.bp_limits.specs.Limits.{entry_words};
ghost use Rattle.bp_spelling.specs.Hashes.{place_of};

use bp_limits::ENTRY_WORDS;

/// Memory for one entry of a directory: its place, and a hash of its name. It has 8 bytes.
#[derive(Clone, Copy, Default)]
pub struct Spelled {
    /// The hash of its name.
    pub(crate) hash: u32,
    /// The number of the word of the region at which the entry begins, divided by the number of words of an entry.
    pub(crate) number: u32,
}

impl Spelled {
    /// Returns the memory for an entry that begins at a place, with the hash of its name.
    pub(crate) fn at(hash: u32, place: u64) -> Spelled
        requires whole { place % entry_words ≡ 0 }
        requires low { place < 2 ^ 37 }
        ensures hash { result.hash ≡ hash }
        ensures place { place_of result ≡ place }
    {
        Spelled {
            hash,
            number: (place / ENTRY_WORDS) as u32,
        }
    }

    /// Returns the number of the word of the region at which the entry begins.
    pub(crate) fn place(self) -> u64
        ensures place { result ≡ place_of self }
        ensures low { result < 2 ^ 37 }
    {
        ENTRY_WORDS * self.number as u64
    }
}
