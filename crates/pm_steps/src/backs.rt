//! Which stores are written back.

ghost use Rattle.std.specs.Prelude.{◌≡◌, ◌<◌, [], ◌∷◌, ◌++◌, IfOk, length, slice_get, slice_index_or, slice_set, Some, true, false};
ghost use Rattle.pm_steps.specs.WordSet.{is_noted};

use super::word_set::WordSet;
use std::alloc::{AllocError, Global};
use std::marker::Model;

/// Which of the executed events are stores that are written back: one flag an event, in the log's order. It can also
/// note words whose stores wait. It allocates only in `new`, so that going through a log allocates nothing.
#[derive(Drop)]
pub struct Backs {
    flags: Vec<bool>,
    room: usize,
    waiting: WordSet,
}

impl Model for Backs {
    ghost use Rattle.std.specs.Prelude.{◌≡◌, ◌≤◌, vec_capacity};
    ghost use Rattle.pm_steps.specs.Machine.{Flags};

    ghost Value = { Flags };

    ghost view = { λ backs. record {
      back = backs.flags.items;
      room = backs.room;
      waiting = backs.waiting.words;
    } };

    ghost invariant = { λ backs. (backs.room ≤ vec_capacity backs.flags) × (backs.waiting.room ≡ backs.room) };
}

impl Backs {
    /// Makes flags for no event yet, with memory for `room` events. No other call allocates.
    ///
    /// # Errors
    ///
    /// `AllocError`: out of memory.
    pub fn new(alloc: Global, room: usize) -> Result<Backs, AllocError>
        ensures { IfOk result (λ backs. backs ≡ record { back = []; room = room; waiting = [] }) }
    {
        let flags = Vec::with_capacity(alloc, room)?;
        let waiting = WordSet::new(alloc, room)?;
        Ok(Backs {
            flags,
            room,
            waiting,
        })
    }

    /// Returns the number of events that it has memory for.
    pub fn room(&self) -> usize
        ensures { result ≡ self.now.room }
    {
        self.room
    }

    /// Returns the number of events executed.
    pub fn len(&self) -> usize
        ensures { result ≡ length self.now.back }
    {
        self.flags.len()
    }

    /// Returns whether an executed event is a store that is written back. `which` is its index in the log, from 0.
    pub fn is_back(&self, which: usize) -> bool
        requires { which < length self.now.back }
        ensures get { slice_get self.now.back which ≡ Some result }
        ensures value { result ≡ slice_index_or self.now.back which result }
    {
        self.flags[which]
    }

    /// Clears all flags and noted words. The memory stays allocated.
    pub fn clear(&mut self)
        ensures { self.new ≡ record { back = []; room = self.old.room; waiting = [] } }
    {
        self.flags.clear();
        self.waiting.clear();
    }

    /// Appends an executed event. If it is a store, it is not written back yet.
    pub fn push(&mut self)
        requires { length self.old.back < self.old.room }
        ensures { self.new ≡ record self.old { back = self.old.back ++ false ∷ [] } }
    {
        self.push_flag(false);
    }

    /// Appends an executed event, with the flag whether it is a store that is written back.
    pub fn push_flag(&mut self, is_back: bool)
        requires { length self.old.back < self.old.room }
        ensures { self.new ≡ record self.old { back = self.old.back ++ is_back ∷ [] } }
    {
        let _ = self.flags.push(is_back);
    }

    /// Sets the flag of a store that is written back. `which` is its index in the log, from 0.
    pub fn set_back(&mut self, which: usize)
        requires { which < length self.old.back }
        ensures { self.new ≡ record self.old { back = slice_set self.old.back which true } }
    {
        self.flags[which] = true;
    }

    /// Returns whether a word was noted.
    pub fn waits(&self, word: u64) -> bool
        ensures { result ≡ is_noted self.now.waiting word }
    {
        self.waiting.has(word)
    }

    /// Notes a word whose store waits.
    pub fn wait_for(&mut self, word: u64)
        requires { length self.old.waiting < self.old.room }
        ensures { self.new ≡ record self.old { waiting = self.old.waiting ++ word ∷ [] } }
    {
        self.waiting.note(word);
    }
}
