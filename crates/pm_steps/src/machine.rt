//! The processor and the write-back engine, over a region's log.

ghost use Rattle.std.specs.Prelude.{◌≡◌, ◌<◌, ◌≤◌, ◌↔◌, [], ◌∷◌, ◌++◌, IsOk, OnOk, IfErr, OnErr, length, slice_get, slice_index, slice_set, Some, true, false};
ghost use Rattle.pm_epochs.specs.Log.{call_ends};
ghost use Rattle.pm_epochs.specs.Replay.{IsRight, epoch_of, kept_calls};
ghost use Rattle.pm_steps.specs.Machine.{IsInOrder, MayGoBack, IsFirstMissing, IsBackBelow, IsWaiting, is_some_store, cut_of, open_epoch, epoch_flags, waiting_call_ends};
ghost use Rattle.pm_steps.specs.Runs.{FindsFirstTo, FindsMissing, words_in};

use super::backs::Backs;
use pm_epochs::{Choice, EventKind, Kept};
use pm_region::Region;

/// Error: a store cannot be written back yet, because an earlier one has to go first: of an earlier epoch, or to the
/// same word.
#[derive(Clone, Copy, Debug, PartialEq, Eq)]
pub struct NotYet {
    /// The first such store that is not written back, by its index in the log, from 0.
    pub needs: usize,
}

/// The log of a region, how many of its events the processor has executed, and which of its stores are written back.
/// The region itself does not change: the machine computes what a crash would leave in memory.
#[derive(Drop)]
pub struct Machine<'a, R: Region> {
    /// The region whose log it is.
    pub region: &'a R,
    /// Which events are executed and which stores are written back.
    pub backs: &'a mut Backs,
    // Each store before this index of the log is written back, so that a search begins here.
    low: usize,
    ghost in_order: { IsInOrder (R.memory region.now).events backs.now.back },
    ghost fits: { length (R.memory region.now).events ≤ backs.now.room },
    ghost below: { IsBackBelow (R.memory region.now).events backs.now.back low },
}

impl<'a, R: Region> Machine<'a, R> {
    /// Makes a machine that has executed nothing: the memory has the words of the last drain. Clears `backs`.
    pub fn over(region: &'a R, backs: &'a mut Backs) -> Machine<'a, R>
        requires { length (R.memory region.now).events ≤ backs.old.room }
        ensures same_region { result.region.now ≡ region.now }
        ensures same_backs { result.backs.ghost_name ≡ backs.entry.ghost_name }
        ensures none { result.backs.now ≡ record { back = []; room = backs.old.room; waiting = [] } }
    {
        backs.clear();
        Machine {
            region,
            backs,
            low: 0,
        }
    }

    /// Makes a machine in the state that `backs` records.
    pub fn resume(region: &'a R, backs: &'a mut Backs) -> Machine<'a, R>
        requires fits { length (R.memory region.now).events ≤ backs.old.room }
        requires in_order { IsInOrder (R.memory region.now).events backs.old.back }
        ensures same_region { result.region.now ≡ region.now }
        ensures same_backs { result.backs.ghost_name ≡ backs.entry.ghost_name }
        ensures stands { result.backs.now ≡ backs.old }
    {
        Machine {
            region,
            backs,
            low: 0,
        }
    }

    /// Returns the number of events that the processor has executed.
    pub fn moment(&self) -> usize
        ensures { result ≡ length self.now.backs.now.back }
    {
        self.backs.len()
    }

    /// Executes the next event of the log.
    pub fn execute(&mut self)
        requires { length self.old.backs.now.back < length (R.memory self.old.region.now).events }
        ensures same_region { self.new.region.now ≡ self.old.region.now }
        ensures same_backs { self.new.backs.ghost_name ≡ self.old.backs.ghost_name }
        ensures executed { self.new.backs.now ≡ record self.old.backs.now {
          back = self.old.backs.now.back ++ false ∷ [];
        } }
    {
        self.backs.push();
    }

    /// Returns whether an executed event is a store that is written back. `which` is its index in the log, from 0.
    pub fn is_back(&self, which: usize) -> bool
        requires { which < length self.now.backs.now.back }
        ensures { slice_get self.now.backs.now.back which ≡ Some result }
    {
        self.backs.is_back(which)
    }

    /// Writes back a store that was executed and is not written back; `which` is its index in the log, from 0. A log
    /// that is written back in order takes constant time for each store; a store after one that waits takes time for
    /// the events between.
    ///
    /// # Errors
    ///
    /// `NotYet`: an earlier store has to go first; `needs` is the first of these, and nothing changes.
    pub fn back(&mut self, which: usize) -> Result<(), NotYet>
        requires store { is_some_store (slice_get (R.memory self.old.region.now).events which) ≡ true }
        requires waits { slice_get self.old.backs.now.back which ≡ Some false }
        ensures same_region { self.new.region.now ≡ self.old.region.now }
        ensures same_backs { self.new.backs.ghost_name ≡ self.old.backs.ghost_name }
        ensures allowed { IsOk result ↔ MayGoBack (R.memory self.old.region.now).events self.old.backs.now.back which }
        ensures written { OnOk result
            (self.new.backs.now ≡ record self.old.backs.now { back = slice_set self.old.backs.now.back which true }) }
        ensures missing { IfErr result (λ not_yet.
            IsFirstMissing (R.memory self.old.region.now).events self.old.backs.now.back which not_yet.needs) }
        ensures err { OnErr result (self.new.backs.now ≡ self.old.backs.now) }
    {
        self.low = first_waiting(self.region, self.backs, self.low);
        match first_missing(self.region, self.backs, self.low, which) {
            Some(needs) => Err(NotYet { needs }),
            None => {
                self.backs.set_back(which);
                Ok(())
            }
        }
    }

    /// Returns a word of the memory: what a crash would leave now, since a store that is not written back is lost.
    /// Takes time for all events of the log.
    pub fn image_word(&self, word: u64) -> u64
        requires { word < length (R.memory self.now.region.now).base }
        ensures { result ≡ slice_index (words_in (R.memory self.now.region.now) self.now.backs.now.back) word }
    {
        image_word_of(self.region, self.backs, word)
    }

    /// Sets `choice` to what a crash would keep now. `Region::crash_to` with it leaves the words of this memory.
    pub fn choice(&self, choice: &mut Choice)
        requires { length self.now.backs.now.back ≤ choice.old.room }
        ensures chosen { choice.new ≡ record {
          cut = cut_of (R.memory self.now.region.now).events self.now.backs.now.back;
          room = choice.old.room;
        } }
        ensures right { IsRight (R.memory self.now.region.now).events choice.new.cut }
    {
        let epoch = open_epoch_at(self.region, self.backs);
        choice.start(self.backs.len(), epoch);
        push_flags(self.region, self.backs, epoch, choice);
    }

    /// Returns how many calls would survive a crash now, and how many the log has.
    pub fn kept(&self) -> Kept
        ensures c { result.c ≡ kept_calls (R.memory self.now.region.now).events
            (cut_of (R.memory self.now.region.now).events self.now.backs.now.back) }
        ensures n { result.n ≡ call_ends (R.memory self.now.region.now).events }
    {
        Kept {
            c: waiting_call_end_count(self.region, self.backs),
            n: call_end_count(self.region),
        }
    }
}

/// Returns whether an executed event needs no more of the engine: it is no store, or it is written back.
fn is_done<R: Region>(region: &R, backs: &Backs, which: usize) -> bool
    requires done { length backs.now.back ≤ length (R.memory region.now).events }
    requires taken { which < length backs.now.back }
    ensures back { result ≡ true → is_some_store (slice_get (R.memory region.now).events which) ≡ true →
        slice_get backs.now.back which ≡ Some true }
    ensures waits { result ≡ false → IsWaiting (R.memory region.now).events backs.now.back which }
{
    match region.kind(which) {
        EventKind::Store(_) => backs.is_back(which),
        EventKind::Barrier => true,
        EventKind::CallEnd => true,
    }
}

/// Returns the first store from `low` on that was executed and is not written back, or the number of executed events.
fn first_waiting<R: Region>(region: &R, backs: &Backs, low: usize) -> usize
    requires done { length backs.now.back ≤ length (R.memory region.now).events }
    requires below { IsBackBelow (R.memory region.now).events backs.now.back low }
    ensures below { IsBackBelow (R.memory region.now).events backs.now.back result }
    ensures waits { result < length backs.now.back → IsWaiting (R.memory region.now).events backs.now.back result }
{
    for i in low..backs.len() {
        let done = is_done(region, backs, i);
        if !done {
            return i;
        }
    }
    backs.len()
}

/// Returns whether there is a barrier in this range.
fn has_barrier<R: Region>(region: &R, from: usize, to: usize) -> bool
    requires { (from ≤ to) × (to ≤ length (R.memory region.now).events) }
    ensures some { result ≡ true →
        epoch_of (R.memory region.now).events from < epoch_of (R.memory region.now).events to }
    ensures none { result ≡ false →
        epoch_of (R.memory region.now).events from ≡ epoch_of (R.memory region.now).events to }
{
    for i in from..to {
        match region.kind(i) {
            EventKind::Store(_) => {}
            EventKind::Barrier => return true,
            EventKind::CallEnd => {}
        }
    }
    false
}

/// Returns the first store to a word in this range that is not written back.
fn first_waiting_to<R: Region>(
    region: &R,
    backs: &Backs,
    word: u64,
    from: usize,
    to: usize,
) -> Option<usize>
    requires done { length backs.now.back ≤ length (R.memory region.now).events }
    requires taken { (from ≤ to) × (to ≤ length backs.now.back) }
    ensures { FindsFirstTo result (R.memory region.now).events backs.now.back word from to }
{
    for i in from..to {
        match region.kind(i) {
            EventKind::Store(place) => {
                let is_back = backs.is_back(i);
                if place == word && !is_back {
                    return Some(i);
                }
            }
            EventKind::Barrier => {}
            EventKind::CallEnd => {}
        }
    }
    None
}

/// Returns the first store that must be written back before this one and is not. `low` is the first store that is not
/// back.
fn first_missing<R: Region>(region: &R, backs: &Backs, low: usize, which: usize) -> Option<usize>
    requires done { length backs.now.back ≤ length (R.memory region.now).events }
    requires below { IsBackBelow (R.memory region.now).events backs.now.back low }
    requires low { IsWaiting (R.memory region.now).events backs.now.back low }
    requires which { IsWaiting (R.memory region.now).events backs.now.back which }
    ensures { FindsMissing result (R.memory region.now).events backs.now.back which }
{
    let word = match region.kind(which) {
        EventKind::Store(word) => word,
        EventKind::Barrier => unreachable!(),
        EventKind::CallEnd => unreachable!(),
    };
    if low >= which {
        return None;
    }
    if has_barrier(region, low, which) {
        return Some(low);
    }
    first_waiting_to(region, backs, word, low, which)
}

/// Returns a word after the stores that are written back.
fn image_word_of<R: Region>(region: &R, backs: &Backs, word: u64) -> u64
    requires in_order { IsInOrder (R.memory region.now).events backs.now.back }
    requires in_range { word < length (R.memory region.now).base }
    ensures { result ≡ slice_index (words_in (R.memory region.now) backs.now.back) word }
{
    // After this number of events of the log, the word has the value of the last store to it that is written back.
    let mut moment = 0;
    for i in 0..backs.len() {
        let is_back = backs.is_back(i);
        match region.kind(i) {
            EventKind::Store(place) => {
                if is_back && place == word {
                    moment = i + 1;
                }
            }
            EventKind::Barrier => {}
            EventKind::CallEnd => {}
        }
    }
    region.word_at(moment, word)
}

/// Returns the epoch that is being written back: the number of barriers executed before the first store that is not
/// back.
fn open_epoch_at<R: Region>(region: &R, backs: &Backs) -> usize
    requires { length backs.now.back ≤ length (R.memory region.now).events }
    ensures { result ≡ open_epoch (R.memory region.now).events backs.now.back }
{
    let mut passed = 0;
    for i in 0..backs.len() {
        let is_back = backs.is_back(i);
        match region.kind(i) {
            EventKind::Store(_) => {
                if !is_back {
                    return passed;
                }
            }
            EventKind::Barrier => passed += 1,
            EventKind::CallEnd => {}
        }
    }
    passed
}

/// Appends to the mask, for each store of an epoch, whether it is written back.
fn push_flags<R: Region>(region: &R, backs: &Backs, epoch: usize, choice: &mut Choice)
    requires done { length backs.now.back ≤ length (R.memory region.now).events }
    requires room { length backs.now.back ≤ choice.old.room }
    requires empty { choice.old.cut.mask ≡ [] }
    ensures { choice.new ≡ record choice.old {
      cut = record choice.old.cut { mask = epoch_flags epoch (R.memory region.now).events backs.now.back };
    } }
{
    let mut left = epoch;
    for i in 0..backs.len() {
        let is_back = backs.is_back(i);
        match region.kind(i) {
            EventKind::Store(_) => {
                if left == 0 {
                    choice.push(is_back);
                }
            }
            EventKind::Barrier => {
                if left == 0 {
                    return;
                }
                left -= 1;
            }
            EventKind::CallEnd => {}
        }
    }
}

/// Returns the number of end-of-call markers before the first store that is not written back.
fn waiting_call_end_count<R: Region>(region: &R, backs: &Backs) -> usize
    ensures { result ≡ waiting_call_ends (R.memory region.now).events backs.now.back }
{
    let mut count = 0;
    for i in 0..region.event_count() {
        match region.kind(i) {
            EventKind::Store(_) => {
                let is_back = i < backs.len() && backs.is_back(i);
                if !is_back {
                    return count;
                }
            }
            EventKind::Barrier => {}
            EventKind::CallEnd => count += 1,
        }
    }
    count
}

/// Returns the number of end-of-call markers in the log.
fn call_end_count<R: Region>(region: &R) -> usize
    ensures { result ≡ call_ends (R.memory region.now).events }
{
    let mut count = 0;
    for i in 0..region.event_count() {
        if let EventKind::CallEnd = region.kind(i) {
            count += 1;
        }
    }
    count
}
