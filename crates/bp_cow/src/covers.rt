//! The cover: the longest path that exists and is a prefix of all touched paths.

ghost use Rattle.std.specs.Prelude.{◌≡◌, ◌↔◌, ℕ, ◌+◌, ◌-◌, ◌/◌, ◌^◌, ◌<◌, ◌≤◌, length, slice_index, IfSome};
ghost use Rattle.bp_limits.specs.Limits.{block_words};
ghost use Rattle.pm_region.specs.Memory.{words_in};
ghost use Rattle.bp_cow.specs.Cover.{end_path, ends, BeginAlike, BothBegin, LeadsInside, commit_cover};
ghost use Rattle.bp_cow.specs.Touched.{IsRun, IsTouched, run_end, run_path};
ghost use Rattle.bp_cow.specs.Found.{AreWaysIn, IsCoverIn};

use crate::touched::{Run, Touched};
use crate::ways::Shared;
use bp_limits::{BLOCK_WORDS, SUPER_ROOT};
use bp_read::Slots;
use pm_region::Region;

impl Run<'_> {
    /// Returns how many slots the paths of two words of the tree have in common at their start.
    fn alike_words(&self, first: u64, last: u64) -> usize
        requires run { IsRun self.now }
        requires first { first < block_words ^ (self.now.height + 1) }
        requires last { last < block_words ^ (self.now.height + 1) }
        ensures { (n : ℕ) → (n ≤ result) ↔ BothBegin (run_path self.now first) (run_path self.now last) n }
    {
        for level in 0..self.height + 1 {
            if first >> (9 * level) == last >> (9 * level) {
                return self.root.len() + (self.height + 1 - level) as usize;
            }
        }
        self.root.len()
    }

    /// Returns how many slots the paths of the run's first and last word have in common at their start.
    fn alike(&self) -> usize
        requires { IsRun self.now }
        ensures { (n : ℕ) → (n ≤ result) ↔ BothBegin (run_path self.now (self.now.offset / 8))
            (run_path self.now ((run_end self.now - 1) / 8)) n }
    {
        let (first, last) = (self.end_word(true), self.end_word(false));
        self.alike_words(first, last)
    }

    /// Returns how many slots the paths of the first words of two runs have in common at their start, or `None` if the
    /// runs are in different trees.
    fn alike_with(&self, other: &Run<'_>) -> Option<usize>
        requires run { IsRun self.now }
        requires other { IsRun other.now }
        ensures { IfSome result (λ alike. (n : ℕ) → (n ≤ alike) ↔ BothBegin (run_path self.now (self.now.offset / 8))
            (run_path other.now (other.now.offset / 8)) n) }
    {
        if self.height == other.height && self.is_under(&other.root) {
            let (first, last) = (self.end_word(true), other.end_word(true));
            return Some(self.alike_words(first, last));
        }
        None
    }
}

impl Touched<'_> {
    /// Returns the number of end paths, which determine the common prefix of all touched paths: two for each run (its
    /// first and its last word), and one for each word.
    fn ends(&self) -> usize
        requires { IsTouched self.now }
        ensures { result ≡ ends self.now }
    {
        2 * self.runs.len() + self.words.len()
    }

    /// Returns the number of slots of end path `i`.
    fn end_len(&self, i: usize) -> usize
        requires touched { IsTouched self.now }
        requires i { i < ends self.now }
        ensures { result ≡ length (end_path self.now i) }
    {
        let of_runs = 2 * self.runs.len();
        if i < of_runs {
            let run = &self.runs[i / 2];
            return run.root.len() + run.height as usize + 1;
        }
        self.path_len(i - of_runs)
    }

    /// Returns a slot of end path `i`.
    pub(crate) fn end_slot(&self, i: usize, depth: usize) -> u32
        requires touched { IsTouched self.now }
        requires i { i < ends self.now }
        requires depth { depth < length (end_path self.now i) }
        ensures { result ≡ slice_index (end_path self.now i) depth }
    {
        let of_runs = 2 * self.runs.len();
        if i < of_runs {
            let run = &self.runs[i / 2];
            return run.slot(run.end_word(i % 2 == 0), depth);
        }
        self.path_slot(i - of_runs, depth)
    }

    /// Returns how many of the first `most` slots end path `i` has in common with the first end path. The end path
    /// before it must have all of them in common.
    fn alike_at(&self, i: usize, most: usize) -> usize
        requires touched { IsTouched self.now }
        requires later { 0 < i }
        requires i { i < ends self.now }
        requires before { BothBegin (end_path self.now (i - 1)) (end_path self.now 0) most }
        ensures { (n : ℕ) → (n ≤ result) ↔ (n ≤ most) × BothBegin (end_path self.now i) (end_path self.now 0) n }
    {
        let of_runs = 2 * self.runs.len();
        if i < of_runs {
            let run = &self.runs[i / 2];
            if i % 2 == 1 {
                return most.min(run.alike());
            }
            if let Some(alike) = run.alike_with(&self.runs[0]) {
                return most.min(alike);
            }
        }
        let end = most.min(self.end_len(i));
        for depth in 0..end {
            if self.end_slot(i, depth) != self.end_slot(0, depth) {
                return depth;
            }
        }
        end
    }

    /// Returns how many slots all touched paths have in common at their start.
    fn alike(&self) -> usize
        requires touched { IsTouched self.now }
        ensures { (n : ℕ) → (n ≤ result) ↔ BeginAlike self.now n }
    {
        let mut alike = self.end_len(0);
        for i in 1..self.ends() {
            alike = self.alike_at(i, alike);
        }
        alike
    }
}

/// Cover of touched words, as found by a search.
#[derive(Clone, Copy)]
pub struct FoundCover {
    /// Number of its slots.
    pub len: usize,
    /// Place of its word.
    pub place: u64,
}

/// Result of a search of the ways to touched words.
#[derive(Drop)]
pub struct FoundWays {
    /// Cover of the touched words.
    pub cover: FoundCover,
    /// Counts of the slots that the ways share.
    pub shared: Shared,
}

/// Follows the common prefix of all touched paths as far as it exists, which gives the cover. Needs no free block.
fn find_cover<R: Region>(region: &R, touched: &Touched<'_>) -> FoundCover
    requires touched { IsTouched touched.now }
    requires some { block_words ≤ length (words_in R.memory region.now) }
    requires in_range { LeadsInside (words_in R.memory region.now) touched.now }
    ensures { IsCoverIn (words_in R.memory region.now) touched.now result }
{
    let _words = region.words();
    let alike = touched.alike();
    let mut found = FoundCover {
        len: 0,
        place: SUPER_ROOT,
    };
    while found.len < alike {
        let block = pm_words::block_of(region.load(found.place));
        if block == 0 {
            return found;
        }
        let slot = touched.end_slot(0, found.len);
        found = FoundCover {
            len: found.len + 1,
            place: BLOCK_WORDS * block + slot as u64,
        };
    }
    found
}

/// Finds the cover of the touched words, and counts the slots that their ways share. Needs no free block.
pub fn find_ways<R: Region>(region: &R, touched: &Touched<'_>) -> FoundWays
    requires touched { IsTouched touched.now }
    requires some { block_words ≤ length (words_in R.memory region.now) }
    requires in_range { LeadsInside (words_in R.memory region.now) touched.now }
    ensures { AreWaysIn (words_in R.memory region.now) touched.now result }
{
    let cover = find_cover(region, touched);
    if touched.runs.len() < 2 {
        return FoundWays {
            cover,
            shared: touched.few_shared(),
        };
    }
    FoundWays {
        cover,
        shared: touched.all_shared(),
    }
}

/// Returns the cover of the touched words: the longest path that exists and is a prefix of each of their paths. Needs
/// no free block.
pub fn cover<R: Region>(region: &R, touched: &Touched<'_>) -> Slots
    requires touched { IsTouched touched.now }
    requires some { block_words ≤ length (words_in R.memory region.now) }
    requires in_range { LeadsInside (words_in R.memory region.now) touched.now }
    ensures { result.items ≡ commit_cover (words_in R.memory region.now) touched.now }
{
    let found = find_cover(region, touched);
    let mut path = Slots::new();
    for depth in 0..found.len {
        path.push(touched.end_slot(0, depth) as u16);
    }
    path
}
