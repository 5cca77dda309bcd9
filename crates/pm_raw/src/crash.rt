//! What a power failure leaves of a log, and how many calls survive.

ghost use Rattle.std.specs.Prelude.{◌≡◌, ◌+◌, ◌^◌, ◌<◌, ◌≤◌, ◌↔◌, true, false, IsOk, IfOk, length, slice_set};
ghost use Rattle.pm_epochs.specs.Log.{epoch_stores, call_ends, words_after};
ghost use Rattle.pm_epochs.specs.Replay.{IsRight, kept_calls as kept_calls_of, call_ends_of, stores_of};
ghost use Rattle.pm_region.specs.Epochs.{epoch_start};
ghost use Rattle.pm_region.specs.Memory.{stores_from};
ghost use Rattle.pm_raw.specs.Pieces.{all_kept, keeps};
ghost use Rattle.pm_raw.specs.Places.{is_barrier, is_call_end, places_where, start_after};

use super::log::{Log, Piece};
use super::places::Places;
use pm_epochs::{BadChoice, Choice, Kept};

/// Returns the number of stores before the first barrier.
fn first_stores(log: Log<'_>) -> usize
    ensures { result ≡ epoch_stores 0 log.entry }
{
    let _events = log.len();
    let mut rest = log;
    let mut count = 0;
    while rest.len() > 0 {
        match rest.take_first() {
            Piece::Stores { values, .. } => count += values.len(),
            Piece::Barrier => return count,
            Piece::CallEnd => {}
        }
    }
    count
}

/// Returns whether the mask keeps all of its stores.
fn keeps_all(mask: &[bool]) -> bool
    ensures { result ≡ all_kept mask.now }
{
    for keep in mask {
        if !*keep {
            return false;
        }
    }
    true
}

/// Returns whether the mask keeps the first `wanted` stores.
#[tactic(auto, using(crate::proofs::PieceLaws::keeps_short, crate::proofs::PieceLaws::keeps_long))]
fn keeps_first(mask: &[bool], wanted: usize) -> bool
    ensures { result ≡ keeps wanted mask.now }
{
    if mask.len() < wanted {
        false
    } else {
        keeps_all(&mask[..wanted])
    }
}

/// Returns the number of end-of-call markers before the first lost store, if the mask is for the first epoch.
fn calls_of(log: Log<'_>, mask: &[bool]) -> usize
    ensures { result ≡ call_ends_of 0 mask.now log.entry }
{
    let _events = log.len();
    let mut rest = log;
    let mut mask = mask;
    let mut calls = 0;
    while rest.len() > 0 {
        match rest.take_first() {
            Piece::Stores { values, .. } => {
                if !keeps_first(mask, values.len()) {
                    return calls;
                }
                mask = &mask[values.len()..];
            }
            Piece::Barrier => mask = &[],
            Piece::CallEnd => calls += 1,
        }
    }
    calls
}

/// Returns the index of an epoch's first event, in a log with these barriers.
pub fn start_of_epoch(barrier_places: &Places, epoch: usize) -> usize
    requires begun { epoch ≤ length barrier_places.now.items }
    requires small { start_after barrier_places.now.items epoch < 2 ^ 64 }
    ensures { result ≡ start_after barrier_places.now.items epoch }
{
    if epoch == 0 {
        0
    } else {
        barrier_places.get(epoch - 1) + 1
    }
}

/// Returns the index of the first event of the choice's epoch.
///
/// # Errors
///
/// `BadChoice`: the crash point is not valid for the log.
pub fn start_of(log: &Log<'_>, barrier_places: &Places, choice: &Choice) -> Result<usize, BadChoice>
    requires places { barrier_places.now.items ≡ places_where is_barrier 0 log.now }
    requires small { length log.now < 2 ^ 64 }
    ensures right { IsOk result ↔ IsRight log.now choice.now.cut }
    ensures start { IfOk result (λ start. start ≡ epoch_start choice.now.cut.epoch log.now) }
    ensures taken { IfOk result (λ start. start ≤ choice.now.cut.moment) }
{
    let (moment, epoch) = (choice.moment(), choice.epoch());
    if moment > log.len() || epoch > barrier_places.before(moment) {
        return Err(BadChoice);
    }
    let start = start_of_epoch(barrier_places, epoch);
    if choice.mask().len() > first_stores(log.prefix(moment).suffix(start)) {
        return Err(BadChoice);
    }
    Ok(start)
}

/// Returns how many calls survive a crash that keeps the stores before `start`, where its epoch begins, and how many
/// calls there are. The log has these end-of-call markers.
pub fn kept_calls(log: &Log<'_>, call_end_places: &Places, start: usize, choice: &Choice) -> Kept
    requires places { call_end_places.now.items ≡ places_where is_call_end 0 log.now }
    requires start { start ≡ epoch_start choice.now.cut.epoch log.now }
    requires small { length log.now < 2 ^ 64 }
    ensures kept { result.c ≡ kept_calls_of log.now choice.now.cut }
    ensures of { result.n ≡ call_ends log.now }
{
    Kept {
        c: call_end_places.before(start) + calls_of(log.suffix(start), choice.mask()),
        n: call_end_places.len(),
    }
}

/// Replaces a word by a value, if the word exists and the store survives.
#[inline(always)]
#[tactic(auto, using(std::proofs::lemmas::List::set_past))]
fn put_kept(words: &mut [u64], place: usize, value: u64, keep: bool)
    ensures kept { keep ≡ true → words.new ≡ slice_set words.old place value }
    ensures lost { keep ≡ false → words.new ≡ words.old }
{
    if keep && place < words.len() {
        words[place] = value;
    }
}

/// Stores those of these values that the mask keeps, to the words from this one on.
fn apply_stores(words: &mut [u64], word: u64, values: &[u64], mask: &[bool])
    requires { word + length values.now ≤ 2 ^ 41 }
    ensures { words.new ≡ words_after words.old (stores_of 0 mask.now (stores_from word values.now)) }
{
    let first = word as usize;
    for i in 0..values.len().min(mask.len()) {
        put_kept(words, first + i, values[i], mask[i]);
    }
}

/// Applies those stores before the first barrier that the mask keeps.
pub fn apply_first(words: &mut [u64], log: Log<'_>, mask: &[bool])
    ensures { words.new ≡ words_after words.old (stores_of 0 mask.now log.entry) }
{
    let mut rest = log;
    let mut mask = mask;
    while rest.len() > 0 {
        match rest.take_first() {
            Piece::Stores { word, values } => {
                apply_stores(words, word, values, mask);
                mask = &mask[values.len().min(mask.len())..];
            }
            Piece::Barrier => return,
            Piece::CallEnd => {}
        }
    }
}
