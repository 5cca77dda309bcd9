//! What a crash leaves of a log, and how many calls survive.

ghost use Rattle.std.specs.Prelude.{◌≡◌, ◌+◌, ◌-◌, ◌<◌, ◌≤◌, ◌↔◌, if◌then◌else◌, [], ◌∷◌, ◌++◌, IsOk, IfOk};
ghost use Rattle.std.specs.Prelude.{MatchOption, List};
ghost use Rattle.pm_epochs.specs.Log.{word_after, barriers, call_ends, epoch_stores};
ghost use Rattle.pm_epochs.specs.Keeping.{calls_by, calls_from, kept_by};
ghost use Rattle.pm_epochs.specs.Replay.{IsRight, LeavesWord, stores_of, call_ends_of, kept_calls as kept_calls_of};

use super::choice::{BadChoice, Choice};
use super::event::Event;

/// The number of calls that survive a crash, and the number of calls in the log.
#[derive(Clone, Copy, Debug, PartialEq, Eq)]
pub struct Kept {
    /// The number of calls that survive.
    pub c: usize,
    /// The number of calls in the log, which is the number of its end-of-call markers.
    pub n: usize,
}

/// A pass over a log, event by event, which decides of each event whether it is a store that survives.
#[derive(Drop)]
pub struct Keeper<'a> {
    /// The number of barriers still to come before the epoch that the mask belongs to.
    pub epoch: usize,
    /// Which of the epoch's stores still to come survive. It is empty once the epoch has ended.
    pub mask: &'a [bool],
}

impl Keeper<'_> {
    /// Takes the next event, and returns whether it is a store that survives. Of a log that begins with this event,
    /// the event survives if the result is true, and then what survives of the rest. Calls are counted up to the first
    /// lost store.
    pub fn keeps(&mut self, event: Event) -> bool
        ensures stores { (rest : List Event) → kept_by self.old (event ∷ rest) ≡
            (if result then event ∷ [] else []) ++ kept_by self.new rest }
        ensures call_ends { (rest : List Event) →
            calls_by self.old (event ∷ rest) ≡ calls_from event result (calls_by self.new rest) }
        ensures epoch { self.new.epoch ≡ self.old.epoch - barriers (event ∷ []) }
    {
        match event {
            Event::Store { .. } => {
                if self.epoch > 0 {
                    return true;
                }
                match self.mask.split_first() {
                    Some((keep, mask)) => {
                        self.mask = mask;
                        *keep
                    }
                    None => false,
                }
            }
            Event::Barrier => {
                if self.epoch > 0 {
                    self.epoch -= 1;
                } else {
                    self.mask = &[];
                }
                false
            }
            Event::CallEnd => false,
        }
    }
}

/// Returns the number of stores in an epoch, or `None` if there are fewer barriers than the epoch's number.
fn epoch_len(events: &[Event], epoch: usize) -> Option<usize>
    ensures { MatchOption result (barriers events.now < epoch)
        (λ count. (epoch ≤ barriers events.now) × (count ≡ epoch_stores epoch events.now)) }
{
    let mut left = epoch;
    let mut count = 0;
    for event in events {
        match event {
            Event::Store { .. } => {
                if left == 0 {
                    count += 1;
                }
            }
            Event::Barrier => {
                if left == 0 {
                    return Some(count);
                }
                left -= 1;
            }
            Event::CallEnd => {}
        }
    }
    if left == 0 { Some(count) } else { None }
}

/// Returns one word after the stores that survive.
fn word_of(base: u64, events: &[Event], epoch: usize, mask: &[bool], word: u64) -> u64
    ensures { result ≡ word_after base (stores_of epoch mask.now events.now) word }
{
    let mut keeper = Keeper { epoch, mask };
    let mut now = base;
    for event in events {
        if keeper.keeps(*event) {
            if let Event::Store { word: place, value } = *event {
                if place == word {
                    now = value;
                }
            }
        }
    }
    now
}

/// Returns the number of end-of-call markers before the first lost store.
fn calls_of(events: &[Event], epoch: usize, mask: &[bool]) -> usize
    ensures { result ≡ call_ends_of epoch mask.now events.now }
{
    let mut keeper = Keeper { epoch, mask };
    let mut calls = 0;
    for event in events {
        let kept = keeper.keeps(*event);
        match event {
            Event::Store { .. } => {
                if !kept {
                    return calls;
                }
            }
            Event::Barrier => {}
            Event::CallEnd => calls += 1,
        }
    }
    calls
}

fn call_end_count(events: &[Event]) -> usize
    ensures { result ≡ call_ends events.now }
{
    let mut count = 0;
    for event in events {
        if let Event::CallEnd = event {
            count += 1;
        }
    }
    count
}

/// Checks that a crash point is valid for a log.
///
/// # Errors
///
/// `BadChoice`: the crash point is not valid for the log.
pub fn check_choice(events: &[Event], choice: &Choice) -> Result<(), BadChoice>
    ensures { IsOk result ↔ IsRight events.now choice.now.cut }
{
    if choice.moment() > events.len() {
        return Err(BadChoice);
    }
    match epoch_len(&events[..choice.moment()], choice.epoch()) {
        Some(count) if choice.mask().len() <= count => Ok(()),
        _ => Err(BadChoice),
    }
}

/// Returns what a crash leaves of the word at index `word`, in any memory that had `base` there before the log.
///
/// # Errors
///
/// `BadChoice`: the crash point is not valid for the log.
pub fn replay_word(
    base: u64,
    events: &[Event],
    choice: &Choice,
    word: u64,
) -> Result<u64, BadChoice>
    ensures right { IsOk result ↔ IsRight events.now choice.now.cut }
    ensures value { IfOk result (λ value. LeavesWord events.now choice.now.cut word base value) }
{
    check_choice(events, choice)?;
    Ok(word_of(
        base,
        &events[..choice.moment()],
        choice.epoch(),
        choice.mask(),
        word,
    ))
}

/// Returns how many calls survive a crash: a call survives if each of its stores, and each store before them, survives.
///
/// # Errors
///
/// `BadChoice`: the crash point is not valid for the log.
pub fn kept_calls(events: &[Event], choice: &Choice) -> Result<Kept, BadChoice>
    ensures right { IsOk result ↔ IsRight events.now choice.now.cut }
    ensures kept { IfOk result (λ kept. kept.c ≡ kept_calls_of events.now choice.now.cut) }
    ensures of { IfOk result (λ kept. kept.n ≡ call_ends events.now) }
{
    check_choice(events, choice)?;
    Ok(Kept {
        c: calls_of(events, choice.epoch(), choice.mask()),
        n: call_end_count(events),
    })
}
