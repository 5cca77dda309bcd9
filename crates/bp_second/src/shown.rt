//! A region with one of its two trees shown as the first.

ghost use Rattle.std.specs.Prelude.{◌≡◌, ◌<◌, ◌≤◌, length, slice_index};
ghost use Rattle.bp_layout.specs.Trees.{snapshot_of};
ghost use Rattle.pm_region.specs.Memory.{words_in};

use bp_limits::{SUPER_ROOT, SUPER_SIZE, SUPER_SNAPSHOT_ROOT, SUPER_SNAPSHOT_SIZE};
use pm_epochs::{BadChoice, Choice, Event, EventKind, Kept, kept_calls};
use pm_region::Region;

/// A region that is lent to read its second tree: the root word and the size of that tree are in the places of those
/// of the first one.
#[derive(Drop)]
pub struct SnapshotTree<'a, R: Region> {
    region: &'a R,
    drains: u64,
    ghost wide: { 6 ≤ length (R.memory region.now).base },
}

impl<'a, R: Region> SnapshotTree<'a, R> {
    /// Returns a word as the processor sees it.
    fn load(&self, word: u64) -> u64
        requires { word < length (R.memory self.now.region.now).base }
        ensures { result ≡ slice_index (snapshot_of (words_in R.memory self.now.region.now)) word }
    {
        match word {
            SUPER_ROOT => self.region.load(SUPER_SNAPSHOT_ROOT),
            SUPER_SIZE => self.region.load(SUPER_SNAPSHOT_SIZE),
            _ => self.region.load(word),
        }
    }
}

/// A region with one of its two trees shown as the first. Code that reads the first tree of any region reads either
/// tree by it.
///
/// The first tree is read and changed in the region itself. The second one can only be read: its log has no room, so
/// that nothing can be stored, and the current words count as those at the last drain.
#[derive(Drop)]
pub enum Shown<'a, R: Region> {
    /// The region as it is.
    First(&'a mut R),
    /// The region with the second tree in place of the first one.
    Snapshot(SnapshotTree<'a, R>),
}

impl<'a, R: Region> Shown<'a, R> {
    ghost use Rattle.bp_second.specs.Shown.{shown_memory, second_memory};

    /// Shows the region with its second tree in place of the first one. It has its own count of drains, from 0 on.
    pub fn second(region: &'a R) -> Shown<'a, R>
        requires { 6 ≤ length (R.memory region.now).base }
        ensures { shown_memory R.memory result ≡ second_memory (R.memory region.now) 0 }
    {
        Shown::Snapshot(SnapshotTree { region, drains: 0 })
    }
}

impl<'a, R: Region> Region for Shown<'a, R> {
    ghost use Rattle.bp_second.specs.Shown.{shown_memory};

    ghost memory = { shown_memory R.memory };

    fn words(&self) -> u64 {
        match self {
            Shown::First(region) => region.words(),
            Shown::Snapshot(second) => second.region.words(),
        }
    }

    fn load(&self, word: u64) -> u64 {
        match self {
            Shown::First(region) => region.load(word),
            Shown::Snapshot(second) => second.load(word),
        }
    }

    fn load_words(&self, first: u64, count: usize) -> &[u64] {
        match self {
            Shown::First(region) => region.load_words(first, count),
            Shown::Snapshot(second) => second.region.load_words(first, count),
        }
    }

    fn store(&mut self, word: u64, value: u64) {
        match self {
            Shown::First(region) => region.store(word, value),
            Shown::Snapshot(_) => unreachable!(),
        }
    }

    fn store_words(&mut self, first: u64, values: &[u64]) {
        match self {
            Shown::First(region) => region.store_words(first, values),
            Shown::Snapshot(_) => {}
        }
    }

    fn barrier(&mut self) {
        match self {
            Shown::First(region) => region.barrier(),
            Shown::Snapshot(_) => unreachable!(),
        }
    }

    fn end_call(&mut self) {
        match self {
            Shown::First(region) => region.end_call(),
            Shown::Snapshot(_) => unreachable!(),
        }
    }

    fn drain(&mut self) {
        match self {
            Shown::First(region) => region.drain(),
            Shown::Snapshot(second) => second.drains = second.drains.saturating_add(1),
        }
    }

    fn room(&self) -> usize {
        match self {
            Shown::First(region) => region.room(),
            Shown::Snapshot(_) => 0,
        }
    }

    fn event_count(&self) -> usize {
        match self {
            Shown::First(region) => region.event_count(),
            Shown::Snapshot(_) => 0,
        }
    }

    fn kind(&self, i: usize) -> EventKind {
        match self {
            Shown::First(region) => region.kind(i),
            Shown::Snapshot(_) => unreachable!(),
        }
    }

    fn word_at(&self, moment: usize, word: u64) -> u64 {
        match self {
            Shown::First(region) => region.word_at(moment, word),
            Shown::Snapshot(second) => second.load(word),
        }
    }

    fn event(&self, i: usize) -> Event {
        match self {
            Shown::First(region) => region.event(i),
            Shown::Snapshot(_) => unreachable!(),
        }
    }

    fn base_word(&self, word: u64) -> u64 {
        match self {
            Shown::First(region) => region.base_word(word),
            Shown::Snapshot(second) => second.load(word),
        }
    }

    fn crash_to(&mut self, choice: &Choice) -> Result<Kept, BadChoice> {
        match self {
            Shown::First(region) => region.crash_to(choice),
            Shown::Snapshot(_) => kept_calls(&[], choice),
        }
    }
}
