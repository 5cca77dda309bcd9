//! The cores, their caches and the memory.

ghost use Rattle.std.specs.Prelude.{◌≡◌, ◌≢◌, ◌<◌, ◌≤◌, ◌+◌, ◌*◌, ◌^◌, ℕ, List, ◌-◌, ◌==◌, ◌&&◌, nat_le, [], ◌∷◌, ◌++◌, vec_len, vec_capacity, length, replicate, slice_index, IsOk, IfOk, OnOk, IfErr, OnErr, IfSome, MatchOption, ◌↔◌, true, Some, is_some};
ghost use Rattle.pm_cores.specs.declared.entry.Entry.TheVariants.{Load};
ghost use Rattle.pm_cores.specs.declared.entry.Owner.{Owner as TheOwner};
ghost use Rattle.pm_cores.specs.Log.{core_barriers, line_at};
ghost use Rattle.pm_cores.specs.Caches.{Caches, caches_over, memory_over, value_at, owner_at as owner_in, line_owner as line_owner_in, settled, ready_to_load, ready_to_store, after_load, after_store, after_barrier, stored, with_back, logged, IsDirtyUnder, IsOpenToLoad, IsOpenToStore, MayLeave, IsNeeded};
ghost use Rattle.pm_cores.specs.Order.{IsCoherent, words_up_to, BacksTo};
ghost use Rattle.pm_cores.specs.Choice.{dirty_epoch, cut_at};
ghost use Rattle.pm_cores.specs.Inside.{recorded_by};

use super::entry::{Entry, Owner};
use super::search::{
    clean_words, first_waiting, line_owner, lowest_word, owner_at, push_flags, recorded_word,
    settle_words,
};
use pm_epochs::Choice;
use pm_region::Region;
use std::alloc::{AllocError, Global};
use std::marker::Model;

/// Error: a word cannot be written back yet, because its owner's core has a dirty word of an earlier epoch.
#[derive(Clone, Copy, Debug, PartialEq, Eq)]
pub struct NotYet {
    /// The lowest dirty word of the earliest such epoch.
    pub needs: u64,
}

/// Several cores over one memory, each with a cache. The memory is a region's words at its last drain with the stores
/// that are written back, so a call that reads a word takes the region.
#[derive(Drop)]
pub struct Cores {
    words: u64,
    // For each dirty word, the number of entries of the log up to the first waiting store to it. 0 for a clean word.
    since: Vec<u32>,
    // For each word, the number of entries of the log up to the last store to it. 0 if there is none.
    lasts: Vec<u32>,
    log: Vec<Entry>,
    // For each entry, its core's epoch.
    epochs: Vec<u32>,
    // For each store, the number of entries of the log up to the previous store to its word. 0 if there is none.
    befores: Vec<u32>,
    // For each core, its current epoch.
    counts: Vec<u32>,
    // For each core, a position of the log before which none of its stores waits.
    lows: Vec<usize>,
    room: usize,
}

impl Model for Cores {
    ghost use Rattle.pm_cores.specs.Caches.{Caches};

    ghost Value = { Caches };

    ghost use Rattle.pm_cores.specs.Inside.{caches_of, HoldsCaches};

    ghost view = { caches_of };

    ghost invariant = { HoldsCaches };
}

impl Cores {
    /// Makes cores that have executed nothing, with memory for a log of `room` entries. Takes 8 bytes for each word,
    /// and about 32 for each entry. No other call allocates.
    ///
    /// # Errors
    ///
    /// `AllocError`: out of memory, or `room` is 4,294,967,295 or more.
    pub fn new(alloc: Global, cores: u32, words: u64, room: usize) -> Result<Cores, AllocError>
        requires few { 1 ≤ cores }
        requires whole { (lines : ℕ) × (1 ≤ lines) × (words ≡ 8 * lines) }
        ensures { IfOk result (λ it. it ≡ caches_over cores words room) }
    {
        if room >= 4_294_967_295 {
            return Err(AllocError);
        }
        let since = vec![in alloc; 0u32; words as usize]?;
        let lasts = vec![in alloc; 0u32; words as usize]?;
        let log = Vec::with_capacity(alloc, room)?;
        let epochs = Vec::with_capacity(alloc, room)?;
        let befores = Vec::with_capacity(alloc, room)?;
        let counts = vec![in alloc; 0u32; cores as usize]?;
        let lows = vec![in alloc; 0usize; cores as usize]?;
        Ok(Cores {
            words,
            since,
            lasts,
            log,
            epochs,
            befores,
            counts,
            lows,
            room,
        })
    }

    /// Resets the cores. Takes time for the entries of the log, whatever the number of words.
    pub fn begin(&mut self)
        ensures { self.new ≡ caches_over self.old.cores self.old.words self.old.capacity }
    {
        clean_words(&mut self.since, &self.log);
        clean_words(&mut self.lasts, &self.log);
        clear_counts(&mut self.counts);
        clear_places(&mut self.lows);
        self.log.clear();
        self.epochs.clear();
        self.befores.clear();
    }

    /// Returns how many more entries fit into the log.
    pub fn room(&self) -> usize
        ensures { result ≡ self.now.capacity - length self.now.log }
    {
        self.room - self.log.len()
    }

    /// Returns whether a word is dirty.
    pub fn is_dirty(&self, i: u64) -> bool
        requires { i < self.now.words }
        ensures { result ≡ is_some (owner_in self.now i) }
    {
        self.since[i as usize] != 0
    }

    /// Returns a word of the memory over a region: the last store to it that is written back, or the region's word at
    /// its last drain.
    pub fn memory_word<R: Region>(&self, region: &R, i: u64) -> u64
        requires word { i < self.now.words }
        requires region { self.now.words ≡ length (R.memory region.now).base }
        ensures { result ≡ slice_index (memory_over (R.memory region.now).base self.now) i }
    {
        recorded_word(&self.log, self.last_back(i), region, i)
    }

    /// States the invariant of the caches, which holds after any sequence of calls.
    pub fn is_coherent(&self)
        ensures { IsCoherent self.now }
    {
        let _ = &self.log;
    }

    /// States that a settle is a sequence of allowed write-backs: of the core's dirty words up to the epoch, by epoch,
    /// then by word.
    pub fn settles_by_backs(&self)
        ensures { (owner : TheOwner) →
            BacksTo self.now (words_up_to owner.core owner.epoch self.now.owners) (settled self.now owner) }
    {
        let _ = &self.log;
    }

    /// Loads a word for a core: the value of the last store to it, or the region's word at its last drain. A line that
    /// is dirty under another core is settled first.
    pub fn load<R: Region>(&mut self, region: &R, core: u32, i: u64) -> u64
        requires core { core < self.old.cores }
        requires word { i < self.old.words }
        requires region { self.old.words ≡ length (R.memory region.now).base }
        requires room { length self.old.log < self.old.capacity }
        ensures value { result ≡ value_at (R.memory region.now).base self.old i }
        ensures after { self.new ≡ after_load self.old core i }
    {
        let value = recorded_word(&self.log, self.last_store(i), region, i);
        self.open_to_load(core, i);
        self.push_load(core, i);
        value
    }

    /// Stores a word for a core. A line is settled first if it is dirty under another core, or under an older epoch of
    /// the same core.
    pub fn store(&mut self, core: u32, i: u64, v: u64)
        requires core { core < self.old.cores }
        requires word { i < self.old.words }
        requires room { length self.old.log < self.old.capacity }
        ensures { self.new ≡ after_store self.old core i v }
    {
        self.open_to_store(core, i);
        self.push_store(core, i, v);
    }

    /// Ends the core's epoch: each store of the core before the barrier is written back before any store of the core
    /// after it.
    pub fn barrier(&mut self, core: u32)
        requires core { core < self.old.cores }
        requires room { length self.old.log < self.old.capacity }
        ensures { self.new ≡ after_barrier self.old core }
    {
        let epoch = self.counts[core as usize];
        push_entry(&mut self.log, Entry::Barrier { core });
        push_number(&mut self.epochs, epoch);
        push_number(&mut self.befores, 0);
        self.counts[core as usize] = epoch + 1;
    }

    /// Writes back a dirty word. Takes time for the entries from the owner's first waiting store to its next epoch,
    /// and for those before it once.
    ///
    /// # Errors
    ///
    /// `NotYet`: the owner's core has a dirty word of an earlier epoch. `needs` is the lowest of the earliest such
    /// epoch, and nothing changes.
    pub fn back(&mut self, i: u64) -> Result<(), NotYet>
        requires word { i < self.old.words }
        requires dirty { is_some (owner_in self.old i) ≡ true }
        ensures allowed { IsOk result ↔ MayLeave self.old i }
        ensures written { OnOk result (self.new ≡ with_back self.old i) }
        ensures needs { IfErr result (λ not_yet. IsNeeded self.old i not_yet.needs) }
        ensures err { OnErr result (self.new ≡ self.old) }
    {
        match self.needed(i) {
            Some(needs) => Err(NotYet { needs }),
            None => {
                self.write_back(i);
                Ok(())
            }
        }
    }

    /// Returns the owner of a dirty word.
    fn owner_of_word(&self, i: u64) -> Owner
        requires word { i < self.now.words }
        requires dirty { is_some (owner_in self.now i) ≡ true }
        ensures under { IsDirtyUnder self.now i result }
        ensures core { result.core < self.now.cores }
    {
        match owner_at(&self.log, &self.epochs, self.since[i as usize]) {
            Some(owner) => owner,
            None => unreachable!(),
        }
    }

    /// Returns the word that must be written back before this one, or `None` if this one may be.
    fn needed(&mut self, i: u64) -> Option<u64>
        requires word { i < self.old.words }
        requires dirty { is_some (owner_in self.old i) ≡ true }
        ensures same { self.new ≡ self.old }
        ensures needed { MatchOption result (MayLeave self.old i) (IsNeeded self.old i) }
    {
        let owner = self.owner_of_word(i);
        let core = owner.core as usize;
        let first = first_waiting(&self.since, &self.log, self.lows[core], owner.core);
        self.lows[core] = first;
        let epoch = self.epochs[first];
        if epoch == owner.epoch {
            return None;
        }
        let earliest = Owner {
            core: owner.core,
            epoch,
        };
        Some(lowest_word(&self.since, &self.log, &self.epochs, first, earliest))
    }

    /// Writes back one word.
    fn write_back(&mut self, i: u64)
        requires word { i < self.old.words }
        requires may { MayLeave self.old i }
        ensures { self.new ≡ with_back self.old i }
    {
        self.since[i as usize] = 0;
    }

    /// Sets `choice` to the crash point after `moment` events of core 0, if no other core stores: the first epoch that
    /// has a dirty word, or the current one, and which of its stores are written back. Takes time for the whole log.
    pub fn choice(&self, choice: &mut Choice, moment: usize)
        requires { length self.now.log ≤ choice.old.room }
        ensures { choice.new ≡ record { cut = cut_at self.now moment; room = choice.old.room } }
    {
        let epoch = self.dirty_epoch();
        choice.start(moment, epoch as usize);
        push_flags(&self.since, &self.log, &self.epochs, epoch, choice);
    }

    /// Returns the first epoch of core 0 that has a dirty word, or its current epoch if none has.
    fn dirty_epoch(&self) -> u32
        ensures { result ≡ dirty_epoch 0 self.now }
    {
        let first = first_waiting(&self.since, &self.log, self.lows[0], 0);
        if first < self.log.len() {
            self.epochs[first]
        } else {
            self.counts[0]
        }
    }

    /// Returns a core's epoch, which is the number of its barriers.
    fn epoch(&self, core: u32) -> u32
        requires { core < self.now.cores }
        ensures { result ≡ core_barriers core self.now.log }
    {
        self.counts[core as usize]
    }

    /// Returns the number of entries of the log up to the last store to a word; 0 if there is none.
    fn last_store(&self, i: u64) -> u32
        requires { i < self.now.words }
        ensures within { result ≤ length self.now.log }
        ensures recorded { (base : List ℕ) → recorded_by self.now.log result (slice_index base i) ≡ value_at base self.now i }
    {
        self.lasts[i as usize]
    }

    /// Returns the number of entries of the log up to the last store to a word that is written back; 0 if there is
    /// none.
    fn last_back(&self, i: u64) -> u32
        requires { i < self.now.words }
        ensures within { result ≤ length self.now.log }
        ensures recorded { (base : List ℕ) → i < length base →
            recorded_by self.now.log result (slice_index base i) ≡ slice_index (memory_over base self.now) i }
    {
        let since = self.since[i as usize];
        if since == 0 {
            self.lasts[i as usize]
        } else {
            self.befores[since as usize - 1]
        }
    }

    /// Returns the owner of the dirty words of a word's line.
    fn owner_of_line(&self, i: u64) -> Option<Owner>
        requires { i < self.now.words }
        ensures line { result ≡ line_owner_in self.now i }
        ensures core { IfSome result (λ owner. owner.core < self.now.cores) }
        ensures epoch { IfSome result (λ owner. owner.epoch ≤ core_barriers owner.core self.now.log) }
        ensures each { (other : ℕ) (owner : TheOwner) → IsDirtyUnder self.now other owner → line_at other ≡ line_at i →
            result ≡ Some owner }
    {
        line_owner(&self.since, &self.log, &self.epochs, i)
    }

    /// Writes back all dirty words of an owner's core, of its epoch and earlier ones.
    fn settle(&mut self, owner: Owner)
        requires { owner.core < self.old.cores }
        ensures { self.new ≡ settled self.old owner }
    {
        let core = owner.core as usize;
        let low = self.lows[core];
        self.lows[core] = settle_words(&mut self.since, &self.log, &self.epochs, low, owner);
    }

    /// Settles a word's line if it is dirty under another core.
    fn open_to_load(&mut self, core: u32, i: u64)
        requires { i < self.old.words }
        ensures after { self.new ≡ ready_to_load self.old core (line_owner_in self.old i) }
        ensures ready { IsOpenToLoad self.new core i }
    {
        if let Some(owner) = self.owner_of_line(i) {
            if owner.core != core {
                self.settle(owner);
            }
        }
    }

    /// Settles a word's line if it is dirty under another core, or under an older epoch of this one.
    fn open_to_store(&mut self, core: u32, i: u64)
        requires word { i < self.old.words }
        requires core { core < self.old.cores }
        ensures after { self.new ≡
            ready_to_store self.old core (core_barriers core self.old.log) (line_owner_in self.old i) }
        ensures ready { IsOpenToStore self.new core i }
    {
        let epoch = self.epoch(core);
        if let Some(owner) = self.owner_of_line(i) {
            let stays = is_of_epoch(owner, core, epoch);
            if !stays {
                self.settle(owner);
            }
        }
    }

    /// Appends a load to the log.
    fn push_load(&mut self, core: u32, i: u64)
        requires core { core < self.old.cores }
        requires room { length self.old.log < self.old.capacity }
        requires ready { IsOpenToLoad self.old core i }
        ensures { self.new ≡ logged self.old (Load core i) }
    {
        let epoch = self.counts[core as usize];
        push_entry(&mut self.log, Entry::Load { core, word: i });
        push_number(&mut self.epochs, epoch);
        push_number(&mut self.befores, 0);
    }

    /// Appends a store to the log. Its word waits.
    fn push_store(&mut self, core: u32, i: u64, v: u64)
        requires core { core < self.old.cores }
        requires word { i < self.old.words }
        requires room { length self.old.log < self.old.capacity }
        requires ready { IsOpenToStore self.old core i }
        ensures { self.new ≡ stored self.old core i v }
    {
        let epoch = self.counts[core as usize];
        let before = self.lasts[i as usize];
        let place = self.log.len();
        let entry = Entry::Store {
            core,
            word: i,
            value: v,
        };
        wait_since(&mut self.since, i as usize, place);
        push_entry(&mut self.log, entry);
        push_number(&mut self.epochs, epoch);
        push_number(&mut self.befores, before);
        self.lasts[i as usize] = place as u32 + 1;
    }
}

/// Returns whether an owner is this core, in this epoch or a later one.
fn is_of_epoch(owner: Owner, core: u32, epoch: u32) -> bool
    ensures { result ≡ (owner.core == core && nat_le epoch owner.epoch) }
{
    owner.core == core && epoch <= owner.epoch
}

fn clear_counts(counts: &mut [u32])
    ensures { counts.new ≡ replicate (length counts.old) 0 }
{
    counts.fill(0);
}

fn clear_places(lows: &mut [usize])
    ensures { lows.new ≡ replicate (length lows.old) 0 }
{
    lows.fill(0);
}

/// Appends an entry to a log that has room.
fn push_entry(log: &mut Vec<Entry>, entry: Entry)
    requires { vec_len log.old < vec_capacity log.old }
    ensures items { log.new.items ≡ log.old.items ++ entry ∷ [] }
    ensures len { vec_len log.new ≡ vec_len log.old + 1 }
    ensures capacity { vec_capacity log.old ≤ vec_capacity log.new }
{
    let _ = log.push(entry);
}

/// Appends the number of an entry to a vector that has room.
fn push_number(numbers: &mut Vec<u32>, number: u32)
    requires { vec_len numbers.old < vec_capacity numbers.old }
    ensures items { numbers.new.items ≡ numbers.old.items ++ number ∷ [] }
    ensures capacity { vec_capacity numbers.old ≤ vec_capacity numbers.new }
{
    let _ = numbers.push(number);
}

/// Records that a clean word waits since the store at this position of the log.
fn wait_since(since: &mut [u32], word: usize, place: usize)
    requires in_range { word < length since.old }
    requires place { place < 2 ^ 32 - 1 }
    ensures here { slice_index since.old word ≡ 0 → slice_index since.new word ≡ place + 1 }
    ensures same { (other : ℕ) → 0 < slice_index since.old other → slice_index since.new other ≡ slice_index since.old other }
    ensures others { (other : ℕ) → other ≢ word → slice_index since.new other ≡ slice_index since.old other }
{
    if since[word] == 0 {
        since[word] = place as u32 + 1;
    }
}
