//! The words of a set that are not empty.

ghost use Rattle.std.specs.Prelude.{◌≡◌, ℕ, ◌+◌, ◌/◌, ◌<◌, ◌≤◌, false, length, IfOk, IfSome, MatchOption};
ghost use Rattle.bp_free.specs.Set.{has, with, without, empty, IsLeast, IsComplement};
ghost use Rattle.bp_free.specs.Words.{IsEmptyBelow, IsSummary};

use crate::bits::{Bits, WORD};
use crate::steps::Looks;
use std::alloc::{AllocError, Global};

/// The words of 64 numbers that have a number. A search for the first one begins where the last search ended, or at a
/// word that was added before it since.
#[derive(Drop)]
pub(crate) struct Summary {
    /// The words that have a number, one bit for each.
    pub words: Bits,
    /// The word of bits at which a search begins.
    pub from: usize,
    /// All bits before that word are 0.
    ghost none: { IsEmptyBelow words from },
}

impl Summary {
    /// Makes the summary of an empty set of as many words.
    ///
    /// # Errors
    ///
    /// `AllocError`: out of memory.
    pub fn new(alloc: Global, words: usize) -> Result<Summary, AllocError>
        ensures { IfOk result (λ summary. summary.words ≡ empty words) }
    {
        let words = Bits::new(alloc, words)?;
        Ok(Summary { words, from: 0 })
    }

    /// Adds a word.
    pub fn insert(&mut self, word: usize)
        requires { word < length self.old.words }
        ensures { self.new.words ≡ with self.old.words word }
    {
        self.from = self.from.min(word / WORD);
        self.words.insert(word);
    }

    /// Removes a word.
    pub fn remove(&mut self, word: usize)
        requires { word < length self.old.words }
        ensures words { self.new.words ≡ without self.old.words word }
        ensures from { self.new.from ≡ self.old.from }
    {
        self.words.remove(word);
    }

    /// Returns the first word, and begins the next search there.
    pub fn first<C: Looks>(&mut self, counter: &mut C) -> Option<usize>
        ensures least { MatchOption result ((i : ℕ) → has self.old.words i ≡ false) (IsLeast self.old.words) }
        ensures words { self.new.words ≡ self.old.words }
        ensures from { IfSome result (λ word. self.new.from ≡ word / 64) }
        ensures looks { IfSome result (λ word. C.taken counter.new + self.old.from ≤
            C.taken counter.old + word / 64 + 1) }
    {
        let word = self.words.first(self.from, counter)?;
        self.from = word / WORD;
        Some(word)
    }

    /// Removes all words.
    pub fn clear(&mut self)
        ensures { self.new.words ≡ empty (length self.old.words) }
    {
        self.from = 0;
        self.words.clear();
    }

    /// Turns a set into the numbers that another one lacks. The summary is then that of this set.
    pub fn complement(&mut self, numbers: &mut Bits, other: &Bits)
        requires room { length other.now ≡ length numbers.old }
        requires words { length self.old.words ≡ (length numbers.old + 63) / 64 }
        ensures numbers { IsComplement other.now numbers.new }
        ensures summary { IsSummary numbers.new self.new.words }
    {
        self.from = 0;
        numbers.complement(other, &mut self.words);
    }
}
