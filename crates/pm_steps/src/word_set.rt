//! Sets of words.

ghost use Rattle.std.specs.Prelude.{◌≡◌, ◌%◌, ◌<◌, [], ◌∷◌, ◌++◌, IfOk, length};
ghost use Rattle.pm_steps.specs.WordSet.{is_noted, remainders, IsLinked};

use std::alloc::{AllocError, Global};
use std::marker::Model;

/// Number of remainders by which a set finds its words: few enough to stay in cache, and enough for the words of most
/// storms.
const REMAINDERS: usize = 16_384;

/// A set of words of a region. It allocates only in `new`. Adding a word takes constant time. A search goes through
/// the words with the same remainder, which are few unless a caller picks them to be many.
#[derive(Drop)]
pub struct WordSet {
    words: Vec<u64>,
    // For each word, the last word before it with the same remainder. Any number if there was none.
    before: Vec<usize>,
    // For each remainder, the last word that leaves it. Any number if there is none, so that `clear` need not reset
    // these.
    heads: Vec<usize>,
    room: usize,
}

impl Model for WordSet {
    ghost use Rattle.std.specs.Prelude.{◌≤◌, vec_capacity};
    ghost use Rattle.pm_steps.specs.WordSet.{Noted, IsLinked};

    ghost Value = { Noted };

    ghost view = { λ set. record { words = set.words.items; room = set.room } };

    ghost invariant = { λ set. record {
      linked : IsLinked set.words.items set.before.items set.heads.items;
      words_reserved : set.room ≤ vec_capacity set.words;
      before_reserved : set.room ≤ vec_capacity set.before;
    } };
}

impl WordSet {
    /// Makes an empty set, with memory for `room` words. No other call allocates.
    ///
    /// # Errors
    ///
    /// `AllocError`: out of memory.
    pub fn new(alloc: Global, room: usize) -> Result<WordSet, AllocError>
        ensures { IfOk result (λ set. set ≡ record { words = []; room = room }) }
    {
        let words = Vec::with_capacity(alloc, room)?;
        let before = Vec::with_capacity(alloc, room)?;
        let heads = vec![in alloc; 0usize; REMAINDERS]?;
        Ok(WordSet {
            words,
            before,
            heads,
            room,
        })
    }

    /// Removes all words. The memory stays allocated.
    pub fn clear(&mut self)
        ensures { self.new ≡ record { words = []; room = self.old.room } }
    {
        self.words.clear();
        self.before.clear();
    }

    /// Adds a word. A word that is already there takes memory again.
    pub fn note(&mut self, word: u64)
        requires { length self.old.words < self.old.room }
        ensures { self.new ≡ record { words = self.old.words ++ word ∷ []; room = self.old.room } }
    {
        let remainder = remainder_of(word);
        let last = self.heads[remainder];
        self.heads[remainder] = self.words.len();
        let _ = self.before.push(last);
        let _ = self.words.push(word);
    }

    /// Returns whether a word is in the set.
    pub fn has(&self, word: u64) -> bool
        ensures { result ≡ is_noted self.now.words word }
    {
        is_among(&self.words, &self.before, &self.heads, word)
    }
}

/// Returns the remainder by which a word is found.
fn remainder_of(word: u64) -> usize
    ensures { result ≡ word % remainders }
{
    word as usize % REMAINDERS
}

/// Returns whether a word is among these, by the links between the words with the same remainder.
fn is_among(words: &[u64], before: &[usize], heads: &[usize], word: u64) -> bool
    requires { IsLinked words.now before.now heads.now }
    ensures { result ≡ is_noted words.now word }
{
    if words.is_empty() {
        return false;
    }
    let remainder = remainder_of(word);
    let mut bound = words.len();
    let mut entry = heads[remainder];
    'entries: while entry < bound && remainder_of(words[entry]) == remainder {
        if words[entry] == word {
            return true;
        }
        bound = entry;
        entry = before[entry];
    }
    false
}
