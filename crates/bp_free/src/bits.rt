//! A set of numbers as bits.

ghost use Rattle.std.specs.Prelude.{◌≡◌, ℕ, ◌+◌, ◌-◌, ◌*◌, ◌/◌, ◌%◌, ◌<◌, ◌≤◌, ◌↔◌, ◌^◌, false, length, IsTrue, IfOk, IfSome, MatchOption};
ghost use Rattle.bp_free.specs.Set.{Set, has, with, without, empty, IsLeast, Fills, IsComplement};
ghost use Rattle.bp_free.specs.Words.{IsEmptyBelow, IsLowestBit, IsTurnedOver, IsLeastInWord, IsEmptyWord, ReportsEmpty, ReportsAlone, ComplementsWord, IsSummary};

use crate::padded::Padded;
use crate::steps::Looks;
use std::alloc::{AllocError, Global};
use std::marker::Model;

/// The number of numbers that a word represents.
pub(crate) const WORD: usize = 64;

/// A set of numbers below a bound, one bit for each.
#[derive(Drop)]
pub(crate) struct Bits {
    words: Padded<u64>,
    room: usize,
}

impl Model for Bits {
    ghost use Rattle.bp_free.specs.Set.{Set};
    ghost use Rattle.bp_free.specs.Words.{set_in, HoldRoom};

    ghost Value = { Set };

    ghost view = { λ b. set_in b.words b.room };

    ghost invariant = { λ b. HoldRoom b.words b.room };
}

/// A member, for its removal from its word.
#[derive(Clone, Copy)]
pub(crate) struct Member {
    /// The number.
    pub number: usize,
    /// Whether no other number of its word is a member.
    pub alone: bool,
}

/// Returns the position of the lowest bit that is set, or `None` if none is.
fn lowest_bit(word: u64) -> Option<usize>
    ensures { MatchOption result (word ≡ 0) (IsLowestBit word) }
{
    if word == 0 {
        return None;
    }
    Some(word.trailing_zeros() as usize)
}

/// Returns a word in which the lowest `count` bits are set.
fn low_ones(count: usize) -> u64
    requires { count ≤ 64 }
    ensures { result ≡ 2 ^ count - 1 }
{
    if count < WORD {
        (1 << count) - 1
    } else {
        u64::MAX
    }
}

/// Returns a word in which `count` bits are set, from one on.
fn ones(first: usize, count: usize) -> u64
    requires { first + count ≤ 64 }
    ensures { result ≡ 2 ^ (first + count) - 2 ^ first }
{
    low_ones(first + count) - low_ones(first)
}

/// Returns a word whose lowest `count` bits are inverted, and which has no others.
fn turned_over(word: u64, count: usize) -> u64
    requires { count ≤ 64 }
    ensures { IsTurnedOver word count result }
{
    !word & low_ones(count)
}

impl Bits {
    /// Makes the empty set with a bound.
    ///
    /// # Errors
    ///
    /// `AllocError`: out of memory.
    pub fn new(alloc: Global, room: usize) -> Result<Bits, AllocError>
        ensures { IfOk result (λ set. set ≡ empty room) }
    {
        let words = Padded::new(alloc, room.div_ceil(WORD))?;
        Ok(Bits { words, room })
    }

    /// Returns the bound of the set: one more than the greatest possible member.
    pub fn room(&self) -> usize
        ensures { result ≡ length self.now }
    {
        self.room
    }

    /// Returns whether a number is a member.
    pub fn has<C: Looks>(&self, i: usize, counter: &mut C) -> bool
        requires { i < length self.now }
        ensures has { result ≡ has self.now i }
        ensures look { C.taken counter.new ≤ C.taken counter.old + 1 }
    {
        counter.look();
        (self.words.get(i / WORD) >> (i % WORD)) & 1 == 1
    }

    /// Adds a number.
    pub fn insert(&mut self, i: usize)
        requires { i < length self.old }
        ensures { self.new ≡ with self.old i }
    {
        let word = self.words.get(i / WORD) | 1 << (i % WORD);
        self.words.set(i / WORD, word);
    }

    /// Returns whether none of `count` numbers from one on is a member. All of them share a word.
    pub fn has_none<C: Looks>(&self, first: usize, count: usize, counter: &mut C) -> bool
        requires one_word { first % 64 + count ≤ 64 }
        requires some { 0 < count }
        requires in_range { first + count ≤ length self.now }
        ensures none { IsTrue result ↔ ((k : ℕ) → first ≤ k → k < first + count → has self.now k ≡ false) }
        ensures look { C.taken counter.new ≤ C.taken counter.old + 1 }
    {
        counter.look();
        self.words.get(first / WORD) & ones(first % WORD, count) == 0
    }

    /// Adds `count` numbers from one on, which share a word.
    pub fn insert_run(&mut self, first: usize, count: usize)
        requires one_word { first % 64 + count ≤ 64 }
        requires some { 0 < count }
        requires in_range { first + count ≤ length self.old }
        ensures { Fills first (first + count) self.old self.new }
    {
        let word = self.words.get(first / WORD) | ones(first % WORD, count);
        self.words.set(first / WORD, word);
    }

    /// Removes a number.
    pub fn remove(&mut self, i: usize)
        requires { i < length self.old }
        ensures { self.new ≡ without self.old i }
    {
        let word = self.words.get(i / WORD) & !(1 << (i % WORD));
        self.words.set_stored(i / WORD, word);
    }

    /// Returns a number, with whether no other number of its word is a member.
    pub fn member<C: Looks>(&self, i: usize, counter: &mut C) -> Member
        requires { i < length self.now }
        ensures number { result.number ≡ i }
        ensures alone { ReportsAlone self.now i result.alone }
        ensures look { C.taken counter.new ≤ C.taken counter.old + 1 }
    {
        counter.look();
        Member {
            number: i,
            alone: self.words.get(i / WORD) & !(1 << (i % WORD)) == 0,
        }
    }

    /// Returns the least member of a word, or `None` if the word is empty. The result also says whether it is the only
    /// one, so that no call that removes it looks at the word again.
    pub fn first_in_word<C: Looks>(&self, word: usize, counter: &mut C) -> Option<Member>
        requires { WORD * word < length self.now }
        ensures least { MatchOption result (IsEmptyWord self.now word)
            (λ least. IsLeastInWord self.now word least.number) }
        ensures alone { IfSome result (λ least. ReportsAlone self.now least.number least.alone) }
        ensures look { C.taken counter.new ≤ C.taken counter.old + 1 }
    {
        counter.look();
        let bits = self.words.get(word);
        let bit = lowest_bit(bits)?;
        Some(Member {
            number: WORD * word + bit,
            alone: bits & !(1 << bit) == 0,
        })
    }

    /// Returns the least member, or `None` if the set is empty. The search begins at word `from`, and no word before it
    /// has a member.
    pub fn first<C: Looks>(&self, from: usize, counter: &mut C) -> Option<usize>
        requires { IsEmptyBelow self.now from }
        ensures least { MatchOption result ((i : ℕ) → has self.now i ≡ false) (IsLeast self.now) }
        ensures looks { IfSome result (λ i. C.taken counter.new + from ≤ C.taken counter.old + i / 64 + 1) }
    {
        for word in from..self.words.stored() {
            if let Some(least) = self.first_in_word(word, counter) {
                return Some(least.number);
            }
        }
        None
    }

    /// Removes all numbers.
    pub fn clear(&mut self)
        ensures { self.new ≡ empty (length self.old) }
    {
        self.words.clear();
    }

    /// Sets a word to the numbers that another set lacks in it, and no others. Returns whether the word is then empty.
    fn complement_word(&mut self, other: &Bits, word: usize) -> bool
        requires room { length other.now ≡ length self.old }
        requires in_range { WORD * word < length self.old }
        ensures numbers { ComplementsWord other.now self.old self.new word }
        ensures empty { ReportsEmpty self.new word result }
    {
        let count = (self.room - WORD * word).min(WORD);
        let bits = turned_over(other.words.get(word), count);
        self.words.set(word, bits);
        bits == 0
    }

    /// Adds the numbers that another set lacks, and removes the others. `words_in_use` then has the words that are not
    /// empty.
    pub fn complement(&mut self, other: &Bits, words_in_use: &mut Bits)
        requires room { length other.now ≡ length self.old }
        requires words { length words_in_use.old ≡ (length self.old + 63) / 64 }
        ensures numbers { IsComplement other.now self.new }
        ensures summary { IsSummary self.new words_in_use.new }
    {
        for word in 0..words_in_use.room() {
            if self.complement_word(other, word) {
                words_in_use.remove(word);
            } else {
                words_in_use.insert(word);
            }
        }
    }
}
