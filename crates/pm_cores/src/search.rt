//! Searches in the log, and write-back by the log.

ghost use Rattle.std.specs.Prelude.{◌≡◌, ℕ, ◌+◌, ◌*◌, ◌<◌, ◌≤◌, ◌^◌, ◌-◌, ◌==◌, ◌&&◌, nat_lt, if◌then◌else◌, length, take, drop, slice_index, slice_set, replicate, Some, [], ◌++◌};
ghost use Rattle.std.proofs.Common.{suc};
ghost use Rattle.pm_cores.specs.declared.entry.Entry.TheVariants.{Store};
ghost use Rattle.pm_cores.specs.Log.{line_at, IsStore};
ghost use Rattle.pm_cores.specs.Caches.{first_owner};
ghost use Rattle.pm_cores.specs.Choice.{mask_to};
ghost use Rattle.pm_cores.specs.Inside.{waits_at, owner_since, owners_of, flag_if, flags_of, since_after, AreSound, AreCounted, IsLow, Waits, recorded_by};

use super::entry::{Entry, Owner};
use pm_epochs::Choice;
use pm_region::Region;

/// Returns whether the store at a position of the log waits, where `since` is the number of entries up to the first
/// waiting store to its word.
pub fn waits(since: u32, place: usize) -> bool
    ensures { result ≡ waits_at since place }
{
    0 < since && since as usize - 1 <= place
}

/// Returns the owner of a word, where `since` is the number of entries of the log up to the first waiting store to it.
pub fn owner_at(log: &[Entry], epochs: &[u32], since: u32) -> Option<Owner>
    requires sized { length epochs.now ≡ length log.now }
    requires in_log { since ≤ length log.now }
    ensures { result ≡ owner_since log.now epochs.now since }
{
    if since == 0 {
        return None;
    }
    let place = since as usize - 1;
    match log[place] {
        Entry::Load { .. } => None,
        Entry::Store { core, .. } => Some(Owner {
            core,
            epoch: epochs[place],
        }),
        Entry::Barrier { .. } => None,
    }
}

/// Returns the owner of the dirty words of a word's line.
pub fn line_owner(since: &[u32], log: &[Entry], epochs: &[u32], word: u64) -> Option<Owner>
    requires sized { length epochs.now ≡ length log.now }
    requires in_log { (other : ℕ) → slice_index since.now other ≤ length log.now }
    requires whole { 8 * line_at word + 8 ≤ length since.now }
    ensures { result ≡ first_owner (take 8 (drop (8 * line_at word) (owners_of since.now log.now epochs.now))) }
{
    let first = 8 * (word as usize / 8);
    for i in first..first + 8 {
        let owner = owner_at(log, epochs, since[i]);
        if owner.is_some() {
            return owner;
        }
    }
    None
}

/// Returns a word by the number of entries of the log up to a store: the value of that store, or the region's word at
/// its last drain if the number is 0.
pub fn recorded_word<R: Region>(log: &[Entry], number: u32, region: &R, word: u64) -> u64
    requires in_log { number ≤ length log.now }
    requires in_region { word < length (R.memory region.now).base }
    ensures { result ≡ recorded_by log.now number (slice_index (R.memory region.now).base word) }
{
    if number == 0 {
        return region.base_word(word);
    }
    let place = number as usize - 1;
    match log[place] {
        Entry::Load { .. } => region.base_word(word),
        Entry::Store { value, .. } => value,
        Entry::Barrier { .. } => region.base_word(word),
    }
}

/// Writes back all dirty words of an owner's core, of its epoch and earlier ones. None of the core's stores before
/// `low` waits, and afterwards none before the result. Takes time for the entries of the log from `low` to the result.
pub fn settle_words(
    since: &mut [u32],
    log: &[Entry],
    epochs: &[u32],
    low: usize,
    owner: Owner,
) -> usize
    requires sound { AreSound (length since.old) since.old log.now epochs.now }
    requires low { IsLow since.old log.now owner.core low }
    requires high { low ≤ length log.now }
    ensures since { (word : ℕ) → slice_index since.new word ≡
        since_after owner log.now epochs.now (slice_index since.old word) }
    ensures low { IsLow since.new log.now owner.core result }
    ensures high { result ≤ length log.now }
{
    for k in low..log.len() {
        match log[k] {
            Entry::Load { .. } => {}
            Entry::Store { core, word, .. } => {
                if core == owner.core {
                    if owner.epoch < epochs[k] {
                        return k;
                    }
                    clean_waiting(since, word as usize, k);
                }
            }
            Entry::Barrier { .. } => {}
        }
    }
    log.len()
}

/// Makes a word clean if the store at a position is the first waiting store to it.
fn clean_waiting(since: &mut [u32], word: usize, place: usize)
    requires in_since { word < length since.old }
    requires place { place < 2 ^ 64 - 1 }
    ensures { (other : ℕ) → slice_index since.new other ≡
        (if other == word && slice_index since.old other == place + 1 then 0 else slice_index since.old other) }
{
    if since[word] as usize == place + 1 {
        since[word] = 0;
    }
}

/// Returns the position of a core's first waiting store, from `low` on, or the log's length. Takes time for the
/// entries up to it.
pub fn first_waiting(since: &[u32], log: &[Entry], low: usize, core: u32) -> usize
    requires low { IsLow since.now log.now core low }
    requires high { low ≤ length log.now }
    requires words { (place its_core word : ℕ) → IsStore log.now place its_core word → word < length since.now }
    ensures low { IsLow since.now log.now core result }
    ensures high { result ≤ length log.now }
    ensures found { result < length log.now → (word : ℕ) × Waits since.now log.now result core word }
{
    for k in low..log.len() {
        match log[k] {
            Entry::Load { .. } => {}
            Entry::Store {
                core: other,
                word,
                ..
            } => {
                if other == core && waits(since[word as usize], k) {
                    return k;
                }
            }
            Entry::Barrier { .. } => {}
        }
    }
    log.len()
}

/// Returns the lowest dirty word of an owner whose first waiting store is the first of its core. Takes time for the
/// entries from there to the core's next epoch.
pub fn lowest_word(since: &[u32], log: &[Entry], epochs: &[u32], first: usize, owner: Owner) -> u64
    requires sound { AreSound (length since.now) since.now log.now epochs.now }
    requires low { IsLow since.now log.now owner.core first }
    requires found { (word : ℕ) × Waits since.now log.now first owner.core word }
    requires epoch { owner.epoch ≡ slice_index epochs.now first }
    ensures under { owner_since log.now epochs.now (slice_index since.now result) ≡ Some owner }
    ensures lowest { (word : ℕ) → owner_since log.now epochs.now (slice_index since.now word) ≡ Some owner →
        result ≤ word }
{
    let mut lowest = stored_word(log[first]);
    for k in first..log.len() {
        match log[k] {
            Entry::Load { .. } => {}
            Entry::Store { core, word, .. } => {
                if core == owner.core {
                    if owner.epoch < epochs[k] {
                        return lowest;
                    }
                    lowest = lower_of(lowest, word, waits(since[word as usize], k));
                }
            }
            Entry::Barrier { .. } => {}
        }
    }
    lowest
}

/// Returns the lower of two words if the second counts, otherwise the first.
fn lower_of(lowest: u64, word: u64, counts: bool) -> u64
    ensures { result ≡ (if counts && nat_lt word lowest then word else lowest) }
{
    if counts && word < lowest {
        word
    } else {
        lowest
    }
}

/// Returns the word of a store. For another entry the result has no meaning.
fn stored_word(entry: Entry) -> u64
    ensures { (core word value : ℕ) → entry ≡ Store core word value → result ≡ word }
{
    match entry {
        Entry::Load { word, .. } => word,
        Entry::Store { word, .. } => word,
        Entry::Barrier { .. } => 0,
    }
}

/// Makes a word clean.
fn clean_word(since: &mut [u32], word: u64)
    requires { word < length since.old }
    ensures { since.new ≡ slice_set since.old word 0 }
{
    since[word as usize] = 0;
}

/// Makes all words clean, by going through the log, which has a store to each waiting word.
pub fn clean_words(since: &mut [u32], log: &[Entry])
    requires words { (place its_core word : ℕ) → IsStore log.now place its_core word → word < length since.old }
    requires first { (word first : ℕ) → slice_index since.old word ≡ suc first →
        (core : ℕ) × IsStore log.now first core word }
    ensures { since.new ≡ replicate (length since.old) 0 }
{
    for k in 0..log.len() {
        match log[k] {
            Entry::Load { .. } => {}
            Entry::Store { word, .. } => clean_word(since, word),
            Entry::Barrier { .. } => {}
        }
    }
}

/// Appends to the mask, for each store of core 0 of an epoch, in order, whether it is written back.
pub fn push_flags(since: &[u32], log: &[Entry], epochs: &[u32], epoch: u32, choice: &mut Choice)
    requires words { (place its_core word : ℕ) → IsStore log.now place its_core word → word < length since.now }
    requires sized { length epochs.now ≡ length log.now }
    requires counted { AreCounted log.now epochs.now }
    requires room { length log.now ≤ choice.old.room }
    requires empty { choice.old.cut.mask ≡ [] }
    ensures { choice.new ≡ record choice.old {
      cut = record choice.old.cut { mask = mask_to 0 epoch log.now (flags_of since.now log.now) (length log.now) };
    } }
{
    for k in 0..log.len() {
        match log[k] {
            Entry::Load { .. } => {}
            Entry::Store { core, word, .. } => {
                let counts = is_counted(core, epochs[k], epoch);
                push_flag(counts, since[word as usize], k, choice);
            }
            Entry::Barrier { .. } => {}
        }
    }
}

/// Returns whether a store is core 0's, and of this epoch.
fn is_counted(core: u32, its_epoch: u32, epoch: u32) -> bool
    ensures { result ≡ (core == 0 && its_epoch == epoch) }
{
    core == 0 && its_epoch == epoch
}

/// Appends to the mask, for a store that counts, whether it is written back.
fn push_flag(counts: bool, since: u32, place: usize, choice: &mut Choice)
    requires { length choice.old.cut.mask < choice.old.room }
    ensures { choice.new ≡ record {
      cut = record choice.old.cut {
        mask = choice.old.cut.mask ++ flag_if counts since place;
      };
      room = choice.old.room;
    } }
{
    if counts {
        choice.push(!waits(since, place));
    }
}
