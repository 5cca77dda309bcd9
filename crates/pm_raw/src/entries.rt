//! What a region records of each event since the last drain.
ghost use Rattle.std.specs.Prelude.{◌≡◌, ◌+◌, ◌-◌, ◌^◌, ◌<◌, ◌≤◌, [], ◌∷◌, ◌++◌, IfOk, Some, drop, length, option_map, slice_get, take};
ghost use Rattle.std.specs.List.{range_with_len};
ghost use Rattle.pm_epochs.specs.Kind.{event_kind};
ghost use Rattle.pm_region.specs.Memory.{AreInRow, AreWithin};
ghost use Rattle.pm_raw.specs.Entries.{event_of, events_of};
ghost use Rattle.pm_raw.specs.Unwound.{base_from, unwound};

use super::log::{BARRIER, Log, NO_WORD};
use super::runs::{Runs, WordRow};
use super::unwind::unwind;
use super::values::add;
use pm_epochs::EventKind;
use pm_region::Row;
use std::alloc::{AllocError, Global};
use std::marker::Model;

/// The events of a log: all their words, as runs, and one number for each event, in a vector that is allocated once.
/// The number of a store is the value that it replaced. The value that it brought is what the next store to its word
/// replaced, or the current word.
#[derive(Drop)]
pub struct Entries {
    words: Runs,
    saved: Vec<u64>,
}

impl Model for Entries {
    ghost use Rattle.pm_raw.specs.Entries.{Entered};

    ghost Value = { Entered };

    ghost use Rattle.pm_raw.specs.EntriesRoom.{entered_of, HasNumbers};

    ghost view = { entered_of };

    ghost invariant = { HasNumbers };
}

/// Returns the kind of the event with this word and this number.
#[tactic(auto, using(std::proofs::lemmas::Bool::Decides::nat_tests))]
fn read_kind(word: u64, number: u64) -> EventKind
    ensures { result ≡ event_kind (event_of word number) }
{
    if word == NO_WORD {
        if number == BARRIER {
            EventKind::Barrier
        } else {
            EventKind::CallEnd
        }
    } else {
        EventKind::Store(word)
    }
}

impl Entries {
    /// Makes an empty list with memory for `room` events. No other call allocates.
    ///
    /// # Errors
    ///
    /// `AllocError`: out of memory.
    pub fn new(alloc: Global, room: usize) -> Result<Entries, AllocError>
        ensures { IfOk result (λ entries. entries ≡ record { words = []; saved = []; room = room }) }
    {
        let words = Runs::new(alloc, room)?;
        let saved = Vec::with_capacity(alloc, room)?;
        Ok(Entries { words, saved })
    }

    /// Returns the number of events.
    pub fn len(&self) -> usize
        ensures { result ≡ length self.now.words }
    {
        self.words.len()
    }

    /// Returns how many more events there is room for.
    pub fn room(&self) -> usize
        ensures { result ≡ self.now.room - length self.now.words }
    {
        self.words.room()
    }

    /// Returns the undo log.
    pub fn log(&self) -> Log<'_>
        requires { length self.now.saved ≡ length self.now.words }
        ensures { result ≡ events_of self.now.words self.now.saved }
    {
        self.words.log(&self.saved)
    }

    /// Returns the kind of event `i`, counted from 0.
    #[inline]
    pub fn kind(&self, i: usize) -> EventKind
        requires each { length self.now.saved ≡ length self.now.words }
        requires inside { i < length self.now.words }
        ensures { option_map event_kind (slice_get (events_of self.now.words self.now.saved) i) ≡ Some result }
    {
        read_kind(self.words.word(i), self.saved[i])
    }

    /// Returns the kind of event `i`, counted from 0, and a number of events from it on that store to consecutive
    /// words.
    #[inline]
    pub fn row(&self, i: usize) -> Row
        requires each { length self.now.saved ≡ length self.now.words }
        requires inside { i < length self.now.words }
        ensures get { option_map event_kind (slice_get (events_of self.now.words self.now.saved) i) ≡ Some result.kind }
        ensures some { 0 < result.len }
        ensures fits { i + result.len ≤ length self.now.words }
        ensures row { AreInRow (events_of self.now.words self.now.saved) i result.len }
    {
        let WordRow { first, len } = self.words.row(i);
        // `NO_WORD`, which represents an event that is no store, belongs to no row of stores.
        let stores = (NO_WORD - first) as usize;
        Row {
            kind: read_kind(first, self.saved[i]),
            len: len.min(stores.max(1)),
        }
    }

    /// Unwinds the events from the last one down to index `start`: the words are then those before that event, and the
    /// numbers of the stores from it on are the values that they brought.
    pub fn unwind(&mut self, words: &mut [u64], start: usize)
        requires each { length self.old.saved ≡ length self.old.words }
        requires fits { start ≤ length self.old.words }
        requires within { AreWithin (length words.old) (events_of self.old.words self.old.saved) }
        ensures each { length self.new.saved ≡ length self.new.words }
        ensures words { words.new ≡ base_from words.old (drop start (events_of self.old.words self.old.saved)) }
        ensures log { events_of self.new.words self.new.saved ≡
            unwound start words.old (events_of self.old.words self.old.saved) }
        ensures room { self.new.room ≡ self.old.room }
    {
        unwind(words, &self.words, &mut self.saved, start);
    }

    /// Removes all events. The memory stays allocated.
    pub fn clear(&mut self)
        ensures { self.new ≡ record { words = []; saved = []; room = self.old.room } }
    {
        self.words.clear();
        self.saved.clear();
    }

    /// Appends an event.
    #[inline(always)]
    pub fn push(&mut self, word: u64, saved: u64)
        requires room { length self.old.words < self.old.room }
        requires in_range { word < 2 ^ 41 }
        ensures words { self.new.words ≡ self.old.words ++ word ∷ [] }
        ensures saved { self.new.saved ≡ self.old.saved ++ saved ∷ [] }
        ensures room { self.new.room ≡ self.old.room }
    {
        self.saved.push_reserved(saved);
        self.words.push(word, 1);
    }

    /// Appends a run of stores to the words from `first` on, which replaced these values.
    // It is a function of its own, so that callers that compare words before they store them stay small enough to be
    // inlined.
    #[inline(never)]
    pub fn push_run(&mut self, first: u64, saved: &[u64])
        requires room { length self.old.words + length saved.now ≤ self.old.room }
        requires in_range { first + length saved.now < 2 ^ 41 }
        ensures words { self.new.words ≡ self.old.words ++ range_with_len first (length saved.now) }
        ensures saved { self.new.saved ≡ self.old.saved ++ saved.now }
        ensures room { self.new.room ≡ self.old.room }
    {
        add(&mut self.saved, saved);
        self.words.extend(first, saved.len());
    }
}
