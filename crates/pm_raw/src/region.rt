//! A region over raw memory.

ghost use Rattle.std.specs.Prelude.{◌≡◌, ◌+◌, ◌^◌, ◌<◌, [], ◌∷◌, ◌++◌, ◌≤◌, IfOk, length, replicate};
ghost use Rattle.pm_region.specs.Memory.{current_words, with_values};
ghost use Rattle.pm_raw.specs.Entries.{signal_of};
ghost use Rattle.pm_raw.specs.Places.{is_barrier, is_call_end, places_where};

use super::array::RawArray;
use super::crash::{apply_first, kept_calls, start_of, start_of_epoch};
use super::entries::Entries;
use super::log::{BARRIER, MARK, NO_WORD};
use super::places::Places;
use super::unwind::word_before;
use pm_epochs::{BadChoice, Choice, EventKind, Kept};
use pm_region::{Region, Row};
use std::alloc::{AllocError, Global};
use std::marker::Model;

/// A region in raw memory. It stores the current words, the words of the events since the last drain as runs, and for
/// each store the value that it replaced. It also records the positions of the barriers and of the end-of-call
/// markers, so that a crash and a storm need not search for them among the stores.
///
/// The words at the last drain are stored nowhere: unwinding the log restores them. Nor is the value of a store: it is
/// what the next store to its word replaced, or the current word. So a drain takes constant time, as does each other
/// call, with three exceptions. A crash, and a look at a word as of an earlier event, take time for the events after
/// it. A count of the barriers before an event takes time for the barriers.
#[derive(Drop)]
pub struct RawRegion {
    current: RawArray<u64>,
    entries: Entries,
    barriers: Places,
    call_ends: Places,
    drains: u64,
}

impl Model for RawRegion {
    ghost use Rattle.pm_region.specs.Memory.{Memory};

    ghost Value = { Memory };

    ghost use Rattle.pm_raw.specs.RawRegion.{raw_memory, IsConsistent};

    ghost view = { raw_memory };

    ghost invariant = { IsConsistent };
}

/// Replaces the words from `first` on by these values.
fn overwrite(words: &mut [u64], first: usize, values: &[u64])
    requires { first + length values.now ≤ length words.old }
    ensures { words.new ≡ with_values words.old first values.now }
{
    words[first..first + values.len()].copy_from_slice(values);
}

/// Records the position of an event that is no store, by its value.
fn note_signal(barriers: &mut Places, call_ends: &mut Places, place: usize, value: u64)
    requires barriers_room { length barriers.old.items < barriers.old.room }
    requires call_ends_room { length call_ends.old.items < call_ends.old.room }
    ensures barriers { barriers.new ≡ record barriers.old {
      items = barriers.old.items ++ places_where is_barrier place (signal_of value ∷ []);
    } }
    ensures call_ends { call_ends.new ≡ record call_ends.old {
      items = call_ends.old.items ++ places_where is_call_end place (signal_of value ∷ []);
    } }
{
    if value == BARRIER {
        barriers.push(place);
    } else {
        call_ends.push(place);
    }
}

impl RawRegion {
    ghost use Rattle.pm_region.specs.Memory.{Memory};

    /// Makes a region of `size` words, each 0, with an empty log that can hold `capacity` events. No other call
    /// allocates.
    ///
    /// # Errors
    ///
    /// `AllocError`: out of memory.
    pub fn new(alloc: Global, size: u64, capacity: usize) -> Result<RawRegion, AllocError>
        requires few { size < 2 ^ 41 }
        ensures { IfOk result (λ region. region ≡ record {
          base = replicate size 0;
          events = [];
          capacity = capacity;
          drains = 0;
          through = 0;
        }) }
    {
        let current = RawArray::new(alloc, size as usize, 0)?;
        let entries = Entries::new(alloc, capacity)?;
        let barriers = Places::new(alloc, capacity)?;
        let call_ends = Places::new(alloc, capacity)?;
        Ok(RawRegion {
            current,
            entries,
            barriers,
            call_ends,
            drains: 0,
        })
    }

    /// Replaces all words of the region by these, as the words at the last drain.
    pub fn adopt_all(&mut self, words: RawArray<u64>)
        requires few { length words < 2 ^ 41 }
        requires drained { self.old.events ≡ [] }
        ensures { self.new ≡ record self.old { base = words } }
    {
        self.current = words;
    }

    /// Returns the current words, without the region.
    pub fn into_words(self) -> RawArray<u64>
        ensures { result ≡ current_words self }
    {
        self.current
    }

    /// Appends an event that is no store to the log, by its value.
    #[inline(always)]
    fn push_signal(&mut self, value: u64)
        requires { length self.old.events < self.old.capacity }
        ensures { self.new ≡ record self.old { events = self.old.events ++ signal_of value ∷ [] } }
    {
        let place = self.entries.len();
        note_signal(&mut self.barriers, &mut self.call_ends, place, value);
        self.entries.push(NO_WORD, value);
    }
}

impl Region for RawRegion {
    ghost memory = { λ region. region };

    fn words(&self) -> u64 {
        self.current.len() as u64
    }

    fn load(&self, word: u64) -> u64 {
        let _words = self.words();
        self.current.as_slice()[word as usize]
    }

    #[inline(always)]
    fn load_words(&self, first: u64, count: usize) -> &[u64] {
        let _words = self.words();
        let first = first as usize;
        &self.current.as_slice()[first..first + count]
    }

    #[inline(always)]
    fn store(&mut self, word: u64, value: u64) {
        let _words = self.words();
        let replaced = self.current.as_slice()[word as usize];
        self.current.set(word as usize, value);
        self.entries.push(word, replaced);
    }

    // Most runs have a length that their caller knows: inlined, their copies are a few moves.
    #[inline(always)]
    fn store_words(&mut self, first: u64, values: &[u64]) {
        let _words = self.words();
        let place = first as usize;
        let replaced = &self.current.as_slice()[place..place + values.len()];
        self.entries.push_run(first, replaced);
        overwrite(self.current.as_mut_slice(), place, values);
    }

    #[inline(always)]
    fn barrier(&mut self) {
        self.push_signal(BARRIER);
    }

    #[inline(always)]
    fn end_call(&mut self) {
        self.push_signal(MARK);
    }

    fn drain(&mut self) {
        self.entries.clear();
        self.barriers.clear();
        self.call_ends.clear();
        self.drains = self.drains.saturating_add(1);
    }

    fn room(&self) -> usize {
        self.entries.room()
    }

    fn event_count(&self) -> usize {
        self.entries.len()
    }

    fn kind(&self, i: usize) -> EventKind {
        self.entries.kind(i)
    }

    fn word_at(&self, moment: usize, word: u64) -> u64 {
        word_before(
            self.current.as_slice(),
            self.entries.log().suffix(moment),
            word,
        )
    }

    fn row(&self, first: usize) -> Row {
        self.entries.row(first)
    }

    fn barriers_before(&self, moment: usize) -> usize {
        self.barriers.before(moment)
    }

    fn start_of_epoch(&self, epoch: usize) -> usize {
        start_of_epoch(&self.barriers, epoch)
    }

    fn crash_to(&mut self, choice: &Choice) -> Result<Kept, BadChoice> {
        let log = self.entries.log();
        let start = start_of(&log, &self.barriers, choice)?;
        let kept = kept_calls(&log, &self.call_ends, start, choice);
        self.entries.unwind(self.current.as_mut_slice(), start);
        // The log's stores from there on now have the values that they brought.
        let log = self.entries.log();
        apply_first(
            self.current.as_mut_slice(),
            log.prefix(choice.moment()).suffix(start),
            choice.mask(),
        );
        self.entries.clear();
        self.barriers.clear();
        self.call_ends.clear();
        Ok(kept)
    }
}
