//! A region that stores the values of its log.
ghost use Rattle.std.specs.Prelude.{◌≡◌, ◌+◌, ◌^◌, ◌<◌, ◌≤◌, [], ◌++◌, IfOk, length, map, replicate};
ghost use Rattle.pm_epochs.specs.Kind.{event_value};
ghost use Rattle.pm_region.specs.Memory.{current_words};

use pm_epochs::{BadChoice, Choice, Event, EventKind, Kept};
use pm_raw::values::add;
use pm_raw::{RawArray, RawRegion};
use pm_region::{Region, Row};
use std::alloc::{AllocError, Global};
use std::marker::Model;

/// A raw region with the value of each event of its log next to it, 0 for an event that is no store. The raw region
/// records the value that a store replaced, and would have to search for the one that it brought. Here the values of
/// consecutive stores are lent as a slice.
#[derive(Drop)]
pub struct RedoRegion {
    region: RawRegion,
    values: Vec<u64>,
}

impl Model for RedoRegion {
    ghost use Rattle.pm_region.specs.Memory.{Memory};

    ghost Value = { Memory };

    ghost use Rattle.pm_runs.specs.Redo.{redo_memory, HasValues};

    ghost view = { redo_memory };

    ghost invariant = { HasValues };
}

impl RedoRegion {
    ghost use Rattle.pm_region.specs.Memory.{Memory};

    /// Makes a region of `size` words, each 0, with an empty log that can hold `capacity` events. No other call
    /// allocates.
    ///
    /// # Errors
    ///
    /// `AllocError`: out of memory.
    pub fn new(alloc: Global, size: u64, capacity: usize) -> Result<RedoRegion, AllocError>
        requires few { size < 2 ^ 41 }
        ensures { IfOk result (λ region. region ≡ record {
          base = replicate size 0;
          events = [];
          capacity = capacity;
          drains = 0;
          through = 0;
        }) }
    {
        let region = RawRegion::new(alloc, size, capacity)?;
        let values = Vec::with_capacity(alloc, capacity)?;
        Ok(RedoRegion { region, values })
    }

    /// Replaces all words of the region by these, as the words at the last drain.
    pub fn adopt_all(&mut self, words: RawArray<u64>)
        requires few { length words < 2 ^ 41 }
        requires drained { self.old.events ≡ [] }
        ensures { self.new ≡ record self.old { base = words } }
    {
        self.region.adopt_all(words);
    }

    /// Returns the current words, without the region.
    pub fn into_words(self) -> RawArray<u64>
        ensures { result ≡ current_words self }
    {
        self.region.into_words()
    }

    /// Returns the value of each event of the log, 0 for an event that is no store.
    #[inline]
    pub fn values(&self) -> &[u64]
        ensures { result.now ≡ map event_value self.now.events }
    {
        &self.values
    }
}

impl Region for RedoRegion {
    ghost memory = { λ region. region };

    fn words(&self) -> u64 {
        self.region.words()
    }

    #[inline(always)]
    fn load(&self, word: u64) -> u64 {
        self.region.load(word)
    }

    #[inline(always)]
    fn load_words(&self, first: u64, count: usize) -> &[u64] {
        self.region.load_words(first, count)
    }

    #[inline(always)]
    fn store(&mut self, word: u64, value: u64) {
        self.region.store(word, value);
        self.values.push_reserved(value);
    }

    #[inline(always)]
    fn store_words(&mut self, first: u64, values: &[u64]) {
        self.region.store_words(first, values);
        add(&mut self.values, values);
    }

    #[inline(always)]
    fn barrier(&mut self) {
        self.region.barrier();
        self.values.push_reserved(0);
    }

    #[inline(always)]
    fn end_call(&mut self) {
        self.region.end_call();
        self.values.push_reserved(0);
    }

    fn drain(&mut self) {
        self.region.drain();
        self.values.clear();
    }

    fn room(&self) -> usize {
        self.region.room()
    }

    fn event_count(&self) -> usize {
        self.region.event_count()
    }

    fn kind(&self, i: usize) -> EventKind {
        self.region.kind(i)
    }

    fn word_at(&self, moment: usize, word: u64) -> u64 {
        self.region.word_at(moment, word)
    }

    fn event(&self, i: usize) -> Event {
        match self.region.kind(i) {
            EventKind::Store(word) => Event::Store {
                word,
                value: self.values[i],
            },
            EventKind::Barrier => Event::Barrier,
            EventKind::CallEnd => Event::CallEnd,
        }
    }

    fn row(&self, first: usize) -> Row {
        self.region.row(first)
    }

    fn barriers_before(&self, moment: usize) -> usize {
        self.region.barriers_before(moment)
    }

    fn start_of_epoch(&self, epoch: usize) -> usize {
        self.region.start_of_epoch(epoch)
    }

    fn base_word(&self, word: u64) -> u64 {
        self.region.base_word(word)
    }

    fn crash_to(&mut self, choice: &Choice) -> Result<Kept, BadChoice> {
        let kept = self.region.crash_to(choice)?;
        self.values.clear();
        Ok(kept)
    }
}
