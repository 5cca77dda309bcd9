//! The words of a log's events, stored as runs of consecutive words.
ghost use Rattle.std.specs.Prelude.{◌≡◌, ℕ, ◌+◌, ◌-◌, ◌^◌, ◌<◌, ◌≤◌, [], ◌++◌, IfOk, drop, length, slice_index, take};
ghost use Rattle.std.specs.List.{range_with_len};
ghost use Rattle.pm_raw.specs.Entries.{events_of, no_word};
ghost use Rattle.pm_raw.specs.RunWords.{Rises};

use super::log::{Log, NO_WORD};
use std::alloc::{AllocError, Global};
use std::cell::Cell;
use std::marker::Model;

/// The next word when there is no run: more than any word of a region.
const NOWHERE: usize = 1 << 41;

/// The word of each event of a log, `NO_WORD` for an event that is no store. Consecutive words are one run, stored as
/// its first word and the index of its first event, in two vectors that are allocated once. There is room for a run
/// for each event.
#[derive(Drop)]
pub struct Runs {
    firsts: Vec<u64>,
    starts: Vec<usize>,
    next: usize,
    count: usize,
    room: usize,
    // The run of the event that was last looked up.
    asked: Cell<usize>,
}

/// The word of an event, and how many events from it on have consecutive words: each is one more than the word before
/// it.
pub struct WordRow {
    /// The word of the first of these events, `NO_WORD` if it is no store.
    pub first: u64,
    /// The number of events in the row, the first among them.
    pub len: usize,
}

impl Model for Runs {
    ghost use Rattle.pm_raw.specs.RunWords.{Worded};

    ghost Value = { Worded };

    ghost use Rattle.pm_raw.specs.RunsRoom.{worded_of, HasRuns};

    ghost view = { worded_of };

    ghost invariant = { HasRuns };
}

/// Returns the index of the last run that begins no later than an event.
pub fn run_of(starts: &[usize], event: usize) -> usize
    requires rises { Rises starts.now }
    requires some { (0 < length starts.now) × (slice_index starts.now 0 ≤ event) }
    ensures inside { result < length starts.now }
    ensures begun { slice_index starts.now result ≤ event }
    ensures last { result + 1 < length starts.now → event < slice_index starts.now (result + 1) }
{
    let mut low = 0;
    let mut high = starts.len();
    while high - low > 1 {
        let middle = low + (high - low) / 2;
        if starts[middle] <= event {
            low = middle;
        } else {
            high = middle;
        }
    }
    low
}

/// Returns the same run as `run_of`, for look-ups that are mostly in order: it looks first at the run with index
/// `near`, and at the one after it.
#[inline(always)]
fn run_near(starts: &[usize], event: usize, near: usize) -> usize
    requires rises { Rises starts.now }
    requires some { (0 < length starts.now) × (slice_index starts.now 0 ≤ event) }
    ensures inside { result < length starts.now }
    ensures begun { slice_index starts.now result ≤ event }
    ensures last { result + 1 < length starts.now → event < slice_index starts.now (result + 1) }
{
    if near < starts.len() && starts[near] <= event {
        let next = near + 1;
        if next == starts.len() || event < starts[next] {
            return near;
        }
        let after = next + 1;
        if after == starts.len() || event < starts[after] {
            return next;
        }
    }
    run_of(starts, event)
}

/// Returns the start of a row whose last event is `last`, with this word, in a run that begins at `begun`. The start
/// is not before `start`, and it is the event itself if the event is no store.
fn row_start(word: u64, last: usize, begun: usize, start: usize) -> usize
    requires { (begun ≤ last) × (start ≤ last) }
    ensures run { begun ≤ result }
    ensures low { start ≤ result }
    ensures within { result ≤ last }
    ensures signal { word ≡ no_word → result ≡ last }
{
    if word == NO_WORD {
        last
    } else {
        begun.max(start)
    }
}

impl Runs {
    /// Makes an empty list with memory for the words of `room` events. No other call allocates.
    ///
    /// # Errors
    ///
    /// `AllocError`: out of memory.
    pub fn new(alloc: Global, room: usize) -> Result<Runs, AllocError>
        ensures { IfOk result (λ runs. runs ≡ record { words = []; room = room }) }
    {
        let firsts = Vec::with_capacity(alloc, room)?;
        let starts = Vec::with_capacity(alloc, room)?;
        Ok(Runs {
            firsts,
            starts,
            next: NOWHERE,
            count: 0,
            room,
            asked: Cell::new(0),
        })
    }

    /// Returns the number of events.
    pub fn len(&self) -> usize
        ensures { result ≡ length self.now.words }
    {
        self.count
    }

    /// Returns for how many more events there is room.
    pub fn room(&self) -> usize
        ensures { result ≡ self.now.room - length self.now.words }
    {
        self.room - self.count
    }

    /// Returns the events with these words and values.
    pub fn log<'a>(&'a self, values: &'a [u64]) -> Log<'a>
        requires { length values.now ≡ length self.now.words }
        ensures { result ≡ events_of self.now.words values.now }
    {
        Log::new(&self.firsts, &self.starts, values)
    }

    /// Returns the word of event `i`, counted from 0.
    #[inline]
    pub fn word(&self, i: usize) -> u64
        requires { i < length self.now.words }
        ensures word { result ≡ slice_index self.now.words i }
        ensures small { result ≤ no_word }
    {
        let (firsts, starts) = (self.firsts.as_slice(), self.starts.as_slice());
        let run = run_near(starts, i, self.asked.get());
        self.asked.set(run);
        firsts[run] + (i - starts[run]) as u64
    }

    /// Returns the word of event `i`, counted from 0, and how many events from it on have consecutive words.
    #[inline]
    pub fn row(&self, i: usize) -> WordRow
        requires { i < length self.now.words }
        ensures first { result.first ≡ slice_index self.now.words i }
        ensures small { result.first ≤ no_word }
        ensures some { 0 < result.len }
        ensures inside { i + result.len ≤ length self.now.words }
        ensures row { (j : ℕ) → j < result.len → slice_index self.now.words (i + j) ≡ slice_index self.now.words i + j }
    {
        let (firsts, starts) = (self.firsts.as_slice(), self.starts.as_slice());
        let run = run_near(starts, i, self.asked.get());
        self.asked.set(run);
        let next = run + 1;
        let end = if next < starts.len() {
            starts[next]
        } else {
            self.count
        };
        WordRow {
            first: firsts[run] + (i - starts[run]) as u64,
            len: end - i,
        }
    }

    /// Returns the row that ends with the last of the first `end` events: that event, and those before it, from
    /// `start` on, whose words are consecutive with its own. A row has one event if that event is no store; no such
    /// event is in a row with stores.
    pub fn row_before(&self, start: usize, end: usize) -> WordRow
        requires some { start < end }
        requires inside { end ≤ length self.now.words }
        ensures some { 0 < result.len }
        ensures fits { start + result.len ≤ end }
        ensures row { take result.len (drop (end - result.len) self.now.words) ≡ range_with_len result.first result.len }
        ensures in_range { result.first + result.len ≤ 2 ^ 41 }
        ensures signal { result.first ≡ no_word → result.len ≡ 1 }
        ensures stores { result.first < no_word → result.first + result.len ≤ no_word }
    {
        let (firsts, starts) = (self.firsts.as_slice(), self.starts.as_slice());
        let last = end - 1;
        let run = run_near(starts, last, self.asked.get());
        // Look-ups go from the last event to the first.
        self.asked.set(run.saturating_sub(1));
        let word = firsts[run] + (last - starts[run]) as u64;
        let from = row_start(word, last, starts[run], start);
        WordRow {
            first: word - (last - from) as u64,
            len: end - from,
        }
    }

    /// Removes all words. The memory stays allocated.
    pub fn clear(&mut self)
        ensures { self.new ≡ record { words = []; room = self.old.room } }
    {
        self.firsts.clear();
        self.starts.clear();
        self.next = NOWHERE;
        self.count = 0;
    }

    /// Appends consecutive words, of `wanted` events.
    #[inline(always)]
    pub fn push(&mut self, first: u64, wanted: usize)
        requires some { 0 < wanted }
        requires room { length self.old.words + wanted ≤ self.old.room }
        requires in_range { first + wanted ≤ 2 ^ 41 }
        ensures words { self.new.words ≡ self.old.words ++ range_with_len first wanted }
        ensures room { self.new.room ≡ self.old.room }
    {
        let count = self.count;
        if first as usize != self.next {
            self.firsts.push_reserved(first);
            self.starts.push_reserved(count);
        }
        self.next = first as usize + wanted;
        self.count = count + wanted;
    }

    /// Appends consecutive words, of any number of events, also of none.
    #[inline(always)]
    pub fn extend(&mut self, first: u64, wanted: usize)
        requires room { length self.old.words + wanted ≤ self.old.room }
        requires in_range { first + wanted ≤ 2 ^ 41 }
        ensures words { self.new.words ≡ self.old.words ++ range_with_len first wanted }
        ensures room { self.new.room ≡ self.old.room }
    {
        if wanted > 0 {
            self.push(first, wanted);
        }
    }
}
