//! A region in ordinary memory.

ghost use Rattle.std.specs.Prelude.{◌≡◌, ◌^◌, ◌<◌, [], ◌∷◌, ◌++◌, IfOk, length, vec_len};

use super::region::Region;
use super::words::{apply, apply_event, apply_kept, apply_to_word, put_back};
use pm_epochs::{BadChoice, Choice, Event, EventKind, Kept, kept_calls};
use std::alloc::{AllocError, Global};
use std::marker::Model;

/// A region in ordinary memory, for tests, simulations and files that are read whole. A drain, a crash, `word_at` and
/// the calls that count barriers take time for the events of the log; `word_at` takes constant time for a word that no
/// event stores to. A store of several words takes time for these words. Each other call takes constant time.
#[derive(Drop)]
pub struct ListRegion {
    base: Vec<u64>,
    now: Vec<u64>,
    events: Vec<Event>,
    capacity: usize,
    drains: u64,
}

impl Model for ListRegion {
    ghost use Rattle.pm_region.specs.Memory.{Memory};

    ghost Value = { Memory };

    ghost use Rattle.pm_region.specs.ListRegion.{memory_of, IsInStep};

    ghost view = { memory_of };

    ghost invariant = { IsInStep };
}

impl ListRegion {
    ghost use Rattle.pm_region.specs.Memory.{Memory, AreWithin};

    /// Makes a region of these words, with an empty log that can hold `capacity` events. No other call allocates.
    ///
    /// # Errors
    ///
    /// `AllocError`: out of memory.
    pub fn new(alloc: Global, words: Vec<u64>, capacity: usize) -> Result<ListRegion, AllocError>
        requires { vec_len words < 2 ^ 41 }
        ensures { IfOk result (λ region. region ≡ record {
          base = words.items;
          events = [];
          capacity = capacity;
          drains = 0;
          through = 0;
        }) }
    {
        let now = Vec::from_slice(alloc, &words)?;
        let events = Vec::with_capacity(alloc, capacity)?;
        Ok(ListRegion {
            base: words,
            now,
            events,
            capacity,
            drains: 0,
        })
    }

    fn push(&mut self, event: Event)
        requires within { AreWithin (length self.old.base) (event ∷ []) }
        requires room { length self.old.events < self.old.capacity }
        ensures { self.new ≡ record self.old { events = self.old.events ++ event ∷ [] } }
    {
        apply_event(&mut self.now, event);
        let _ = self.events.push(event);
    }
}

impl Region for ListRegion {
    ghost memory = { λ region. region };

    fn words(&self) -> u64 {
        self.base.len() as u64
    }

    fn load(&self, word: u64) -> u64 {
        self.now[word as usize]
    }

    fn load_words(&self, first: u64, count: usize) -> &[u64] {
        let first = first as usize;
        &self.now[first..first + count]
    }

    fn store(&mut self, word: u64, value: u64) {
        self.push(Event::Store { word, value });
    }

    fn barrier(&mut self) {
        self.push(Event::Barrier);
    }

    fn end_call(&mut self) {
        self.push(Event::CallEnd);
    }

    fn drain(&mut self) {
        apply(&mut self.base, &self.events);
        self.events.clear();
        self.drains = self.drains.saturating_add(1);
    }

    fn room(&self) -> usize {
        self.capacity - self.events.len()
    }

    fn event_count(&self) -> usize {
        self.events.len()
    }

    fn kind(&self, i: usize) -> EventKind {
        self.events[i].kind()
    }

    fn word_at(&self, moment: usize, word: u64) -> u64 {
        apply_to_word(self.base[word as usize], &self.events[..moment], word)
    }

    fn event(&self, i: usize) -> Event {
        self.events[i]
    }

    fn base_word(&self, word: u64) -> u64 {
        self.base[word as usize]
    }

    fn crash_to(&mut self, choice: &Choice) -> Result<Kept, BadChoice> {
        let kept = kept_calls(&self.events, choice)?;
        apply_kept(
            &mut self.base,
            &self.events[..choice.moment()],
            choice.epoch(),
            choice.mask(),
        );
        put_back(&mut self.now, &self.base, &self.events);
        self.events.clear();
        Ok(kept)
    }
}
