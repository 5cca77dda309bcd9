//! A part of a log as it is stored in memory.

ghost use Rattle.std.specs.Prelude.{◌≡◌, ◌+◌, ◌^◌, ◌<◌, ◌≤◌, [], ◌∷◌, ◌++◌, length, take, drop, slice_index};
ghost use Rattle.std.specs.List.{range_with_len};
ghost use Rattle.pm_raw.specs.Entries.{no_word, signal_of, events_of};
ghost use Rattle.pm_raw.specs.RunWords.{AreRuns, Rises, words_from};
ghost use Rattle.pm_raw.specs.Pieces.{piece_end, piece_events};

use super::runs::run_of;
use std::marker::Model;

/// The word of an event that is no store. No region has a word with this index.
pub const NO_WORD: u64 = 2_199_023_255_551;

/// The value of a barrier, whose word is `NO_WORD`.
pub const BARRIER: u64 = 0;

/// The value of an end-of-call marker, whose word is `NO_WORD`.
pub const MARK: u64 = 1;

/// Consecutive events of a log.
#[derive(Drop)]
pub enum Piece<'a> {
    /// Stores of these values to consecutive words, from this one on.
    Stores { word: u64, values: &'a [u64] },
    /// A barrier.
    Barrier,
    /// An end-of-call marker.
    CallEnd,
}

/// A part of a log as it is stored in memory: the runs of words, each by its first word and the index of its first
/// event; the index of the part's first event; and the values of its events.
#[derive(Drop)]
pub struct Log<'a> {
    firsts: &'a [u64],
    starts: &'a [usize],
    at: usize,
    values: &'a [u64],
}

impl<'a> Model for Log<'a> {
    ghost use Rattle.std.specs.Prelude.{List};
    ghost use Rattle.pm_epochs.specs.declared.event.Event.{Event};
    ghost use Rattle.pm_raw.specs.LogRuns.{events_in_log, IsPart};

    ghost Value = { List Event };

    ghost view = { events_in_log };

    ghost invariant = { IsPart };
}

/// Returns the number of events of the first piece in a log from `at` to `end` whose first word is this one. The piece
/// has the events of the first run. An event that is no store is a piece by itself, and ends a piece of stores.
#[inline]
fn count_of_first(starts: &[usize], at: usize, end: usize, word: u64) -> usize
    requires some { at < end }
    requires small { word ≤ no_word }
    requires first { 1 < length starts.now → at < slice_index starts.now 1 }
    requires next { 1 < length starts.now → slice_index starts.now 1 ≤ end }
    ensures some { 0 < result }
    ensures within { at + result ≤ end }
    ensures run { 1 < length starts.now → at + result ≤ slice_index starts.now 1 }
    ensures signal { word ≡ no_word → result ≡ 1 }
    ensures stores { word < no_word → word + result ≤ no_word }
{
    let last = if starts.len() > 1 { starts[1] } else { end };
    (last - at).min(((NO_WORD - word) as usize).max(1))
}

/// Returns the index of the run of an event that is in the first run or begins the next one.
fn first_or_next(starts: &[usize], event: usize) -> usize
    requires rises { Rises starts.now }
    requires some { (0 < length starts.now) × (slice_index starts.now 0 ≤ event) }
    requires near { 1 < length starts.now → event ≤ slice_index starts.now 1 }
    ensures inside { result < length starts.now }
    ensures begun { slice_index starts.now result ≤ event }
    ensures last { result + 1 < length starts.now → event < slice_index starts.now (result + 1) }
{
    if starts.len() > 1 && starts[1] == event {
        1
    } else {
        0
    }
}

/// Returns the piece of an event that is no store, by its value.
#[tactic(auto, using(std::proofs::lemmas::Bool::Decides::nat_tests))]
fn signal_piece<'a>(value: u64) -> Piece<'a>
    ensures events { piece_events result ≡ signal_of value ∷ [] }
    ensures in_range { piece_end result ≡ 0 }
{
    if value == BARRIER {
        Piece::Barrier
    } else {
        Piece::CallEnd
    }
}

/// Returns the piece of events with consecutive words, from this one on, and with these values.
#[tactic(auto, using(crate::proofs::EntryLaws::row_signal, crate::proofs::EntryLaws::row_stores))]
#[inline]
fn piece_of<'a>(word: u64, values: &'a [u64]) -> Piece<'a>
    requires some { 0 < length values.now }
    requires small { word ≤ no_word }
    requires signal { word ≡ no_word → length values.now ≡ 1 }
    requires stores { word < no_word → word + length values.now ≤ no_word }
    ensures events { piece_events result ≡ events_of (range_with_len word (length values.now)) values.now }
    ensures in_range { piece_end result ≤ 2 ^ 41 }
{
    if word == NO_WORD {
        signal_piece(values[0])
    } else {
        Piece::Stores { word, values }
    }
}

impl<'a> Log<'a> {
    /// Makes the log of events with these values, whose words are in these runs.
    pub fn new(firsts: &'a [u64], starts: &'a [usize], values: &'a [u64]) -> Log<'a>
        requires { AreRuns firsts.now starts.now 0 (length values.now) }
        ensures { result ≡ events_of (words_from firsts.now starts.now 0 (length values.now)) values.now }
    {
        Log {
            firsts,
            starts,
            at: 0,
            values,
        }
    }

    /// Returns the number of events.
    pub fn len(&self) -> usize
        ensures { result ≡ length self.now }
    {
        self.values.len()
    }

    /// Returns the first `wanted` events.
    pub fn prefix(&self, wanted: usize) -> Log<'a>
        requires { wanted ≤ length self.now }
        ensures { result ≡ take wanted self.now }
    {
        if wanted == 0 {
            return Log {
                firsts: &[],
                starts: &[],
                at: self.at,
                values: &[],
            };
        }
        let runs = run_of(self.starts, self.at + (wanted - 1)) + 1;
        Log {
            firsts: &self.firsts[..runs],
            starts: &self.starts[..runs],
            at: self.at,
            values: &self.values[..wanted],
        }
    }

    /// Returns the events after the first `first` ones.
    pub fn suffix(&self, first: usize) -> Log<'a>
        requires { first ≤ length self.now }
        ensures { result ≡ drop first self.now }
    {
        if self.values.len() == 0 {
            return Log {
                firsts: self.firsts,
                starts: self.starts,
                at: self.at,
                values: self.values,
            };
        }
        let at = self.at + first;
        let run = run_of(self.starts, at);
        Log {
            firsts: &self.firsts[run..],
            starts: &self.starts[run..],
            at,
            values: &self.values[first..],
        }
    }

    /// Removes the first piece and returns it: a barrier or a marker, or stores to consecutive words, as many as their
    /// run has. There is at least one event.
    #[inline]
    pub fn take_first(&mut self) -> Piece<'a>
        requires { 0 < length self.old }
        ensures events { self.old ≡ piece_events result ++ self.new }
        ensures some { length self.new < length self.old }
        ensures in_range { piece_end result ≤ 2 ^ 41 }
    {
        let (firsts, starts, values) = (self.firsts, self.starts, self.values);
        let word = firsts[0] + (self.at - starts[0]) as u64;
        let count = count_of_first(starts, self.at, self.at + values.len(), word);
        let at = self.at + count;
        let run = first_or_next(starts, at);
        self.at = at;
        self.firsts = &firsts[run..];
        self.starts = &starts[run..];
        self.values = &values[count..];
        piece_of(word, &values[..count])
    }
}
