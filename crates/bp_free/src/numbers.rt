//! Free numbers, and their count.

ghost use Rattle.std.specs.Prelude.{Some, ◌≡◌, ℕ, ◌+◌, ◌-◌, ◌*◌, ◌/◌, ◌%◌, ◌<◌, ◌≤◌, ◌^◌, [], false, true, length, IfOk, IfSome, MatchOption};
ghost use Rattle.std.specs.Int.{div_ceil};
ghost use Rattle.std.proofs.Common.{arith};
ghost use Rattle.bp_free.specs.Looks.{looks, LooksFrom};
ghost use Rattle.bp_free.specs.Set.{Set, has, members, with, without, empty, IsLeast, TakesLeast, TakesOne, Fills, IsComplement};
ghost use Rattle.bp_free.specs.Words.{ReportsAlone, IsCounted};

use crate::bits::{Bits, Member, WORD};
use crate::hints::Hints;
use crate::searching::Summary;
use crate::steps::{Looks, Steps, Uncounted};
use std::alloc::{AllocError, Global};
use std::marker::{Model, PhantomData};
use std::sync::ledger::Ledger;

/// Number of blocks that are tried, one by one, for a copy without a hint.
const NEAR: u32 = 64;

/// A kind of numbers.
pub trait Kind {
    /// The greatest bound of a set of this kind.
    ghost bound: { ℕ };

    /// The numbers fit 32 bits.
    ghost fits: { bound ≤ 2 ^ 32 };
}

/// A kind of numbers of which the bound of a set, and so the count, fits 32 bits too.
pub trait ShortKind: Kind {
    /// The bound fits.
    ghost short: { Self.bound < 2 ^ 32 };
}

/// The kind of numbers of free blocks.
#[derive(Clone, Copy)]
pub struct BlockNumbers;

impl Kind for BlockNumbers {
    ghost bound = { 2 ^ 32 - 1 };

    ghost fits = { omega arith };
}

impl ShortKind for BlockNumbers {
    ghost short = { omega arith };
}

/// The kind of numbers of free inodes.
#[derive(Clone, Copy)]
pub struct InodeNumbers;

impl Kind for InodeNumbers {
    ghost bound = { 2 ^ 32 };

    ghost fits = { omega arith };
}

/// Free block numbers.
pub type Blocks = Numbers<BlockNumbers>;

/// Free inode numbers.
pub type Inodes = Numbers<InodeNumbers>;

/// A set of free numbers below a bound: numbers of blocks or of inodes, by its kind.
///
/// It allocates only when it is made, and touches memory up to that of the greatest number that was ever free. The
/// least number is found in a pass over one bit for each 64 numbers, which begins where the last search ended.
#[derive(Drop)]
pub struct Numbers<K: Kind> {
    free: Bits,
    summary: Summary,
    count: usize,
    hints: Hints,
    kind: PhantomData<K>,
}

impl<K: Kind> Model for Numbers<K> {
    ghost use Rattle.bp_free.specs.Set.{Set};
    ghost use Rattle.bp_free.specs.Words.{IsCountedBelow};

    ghost Value = { Set };

    ghost view = { λ s. s.free };

    ghost invariant = { λ s. IsCountedBelow K.bound s.free s.summary.words s.count };
}

/// Removes a member of a set with its summary and its count, and its word from the summary if it was the last of it.
fn remove_from(free: &mut Bits, summary: &mut Summary, count: &mut usize, member: Member)
    requires counted { IsCounted free.old summary.old.words count.old }
    requires in_range { member.number < length free.old }
    requires free { has free.old member.number ≡ true }
    requires alone { ReportsAlone free.old member.number member.alone }
    ensures counted { IsCounted free.new summary.new.words count.new }
    ensures free { free.new ≡ without free.old member.number }
    ensures from { summary.new.from ≡ summary.old.from }
{
    free.remove(member.number);
    *count -= 1;
    if member.alone {
        summary.remove(member.number / WORD);
    }
}

/// Removes the least member of a set with its summary and its count, and reports each look at a word to `counter`. The
/// search begins where the summary says, and the next one will begin at the bit of this member's word.
fn take_from<C: Looks>(
    free: &mut Bits,
    summary: &mut Summary,
    count: &mut usize,
    counter: &mut C,
) -> Option<u32>
    requires { IsCounted free.old summary.old.words count.old }
    ensures counted { IsCounted free.new summary.new.words count.new }
    ensures least { MatchOption result ((members free.old ≡ []) × (free.new ≡ free.old))
        (λ i. IsLeast free.old i × (free.new ≡ without free.old i)) }
    ensures room { length free.new ≡ length free.old }
    ensures from { IfSome result (λ i. summary.new.from ≡ i / 4096) }
    ensures looks { LooksFrom summary.old.from (C.taken counter.old) (C.taken counter.new) result }
{
    if *count == 0 {
        return None;
    }
    let Some(word) = summary.first(counter) else {
        // A set that is not empty has a word.
        unreachable!();
    };
    let Some(least) = free.first_in_word(word, counter) else {
        // A word of the summary has a member.
        unreachable!();
    };
    remove_from(free, summary, count, least);
    Some(least.number as u32)
}

impl<K: Kind> Numbers<K> {
    /// Makes the empty set with a bound.
    fn with_room(alloc: Global, room: usize) -> Result<Numbers<K>, AllocError>
        requires { room ≤ K.bound }
        ensures { IfOk result (λ set. set ≡ empty room) }
    {
        let free = Bits::new(alloc, room)?;
        let summary = Summary::new(alloc, room.div_ceil(WORD))?;
        Ok(Numbers {
            free,
            summary,
            count: 0,
            hints: Hints::none(alloc),
            kind: PhantomData,
        })
    }

    /// Returns whether a number is free.
    pub fn is_free(&self, i: u32) -> bool
        requires { i < length self.now }
        ensures { result ≡ has self.now i }
    {
        self.contains(i as usize)
    }

    /// Returns whether a number is free.
    fn contains(&self, i: usize) -> bool
        requires { i < length self.now }
        ensures { result ≡ has self.now i }
    {
        self.free.has(i, &mut Uncounted)
    }

    /// Adds a number that was not free.
    pub fn give(&mut self, i: u32)
        requires in_range { i < length self.old }
        requires taken { has self.old i ≡ false }
        ensures { self.new ≡ with self.old i }
    {
        self.add(i as usize);
    }

    /// Adds a number that was not free.
    fn add(&mut self, i: usize)
        requires in_range { i < length self.old }
        requires taken { has self.old i ≡ false }
        ensures { self.new ≡ with self.old i }
    {
        self.free.insert(i);
        self.summary.insert(i / WORD);
        self.count += 1;
    }

    /// Removes a number that was free.
    pub fn claim(&mut self, i: u32)
        requires in_range { i < length self.old }
        requires free { has self.old i ≡ true }
        ensures { self.new ≡ without self.old i }
    {
        let member = self.free.member(i as usize, &mut Uncounted);
        remove_from(&mut self.free, &mut self.summary, &mut self.count, member);
    }

    /// Removes the least number and returns it, or returns `None` if none is free.
    pub fn take(&mut self) -> Option<u32>
        ensures { MatchOption result ((members self.old ≡ []) × (self.new ≡ self.old))
            (λ i. IsLeast self.old i × (self.new ≡ without self.old i)) }
    {
        take_from(
            &mut self.free,
            &mut self.summary,
            &mut self.count,
            &mut Uncounted,
        )
    }

    /// Removes the least number of a set that is not empty, and returns it.
    pub fn alloc_lowest(&mut self) -> u32
        requires { 0 < length (members self.old) }
        ensures { TakesLeast self.old self.new result }
    {
        match self.take() {
            Some(least) => least,
            // The set is not empty.
            None => unreachable!(),
        }
    }

    /// Removes the least number as [`Numbers::take`] does, and counts the steps of the search. A step is a look at a
    /// word of 64 numbers, or at a word of the bits that say which of those words are not empty.
    pub fn take_counted<L: Ledger>(&mut self, steps: &mut Steps<L>) -> Option<u32>
        ensures least { MatchOption result ((members self.old ≡ []) × (self.new ≡ self.old))
            (λ i. IsLeast self.old i × (self.new ≡ without self.old i)) }
        ensures looks { steps.new ≤ steps.old + looks result }
        ensures most { steps.new ≤ steps.old + div_ceil (length self.old) 4096 + 1 }
    {
        take_from(&mut self.free, &mut self.summary, &mut self.count, steps)
    }

    /// Removes the two least numbers, as two calls of [`Numbers::take_counted`] do. The search for the second one begins
    /// at the bit of the first one's word.
    pub(crate) fn take_two<L: Ledger>(&mut self, steps: &mut Steps<L>) -> (Option<u32>, Option<u32>)
        ensures { IfSome result.0 (λ i. IfSome result.1 (λ j. steps.new ≤ steps.old + looks (Some i) +
            (j / 4096 - i / 4096) + 2)) }
    {
        let first = take_from(&mut self.free, &mut self.summary, &mut self.count, steps);
        let second = take_from(&mut self.free, &mut self.summary, &mut self.count, steps);
        (first, second)
    }

    /// Removes all numbers.
    pub fn clear(&mut self)
        ensures { self.new ≡ empty (length self.old) }
    {
        self.free.clear();
        self.summary.clear();
        self.count = 0;
    }

    /// Adds all numbers from one up to another, the latter not included, one by one.
    fn fill_singly(&mut self, from: usize, to: usize)
        requires order { from ≤ to }
        requires in_range { to ≤ length self.old }
        ensures { Fills from to self.old self.new }
    {
        for i in from..to {
            if !self.contains(i) {
                self.add(i);
            }
        }
    }

    /// Adds `count` numbers from one on, which share a word.
    fn fill_run(&mut self, from: usize, count: usize)
        requires one_word { from % 64 + count ≤ 64 }
        requires some { 0 < count }
        requires in_range { from + count ≤ length self.old }
        ensures { Fills from (from + count) self.old self.new }
    {
        if !self.free.has_none(from, count, &mut Uncounted) {
            self.fill_singly(from, from + count);
            return;
        }
        self.free.insert_run(from, count);
        self.summary.insert(from / WORD);
        self.count += count;
    }

    /// Adds all numbers from one up to another, the latter not included.
    pub fn fill(&mut self, from: usize, to: usize)
        requires order { from ≤ to }
        requires in_range { to ≤ length self.old }
        ensures { Fills from to self.old self.new }
    {
        let mut next = from;
        while next < to {
            let count = (to - next).min(WORD - next % WORD);
            self.fill_run(next, count);
            next += count;
        }
    }

    /// Adds the numbers that another set lacks, and removes the others, 64 at once.
    pub fn complement(&mut self, other: &Numbers<K>)
        requires { length other.now ≡ length self.old }
        ensures { IsComplement other.now self.new }
    {
        self.summary.complement(&mut self.free, &other.free);
        self.count = other.free.room() - other.count;
    }
}

impl<K: ShortKind> Numbers<K> {
    /// Makes the empty set with a bound.
    ///
    /// # Errors
    ///
    /// `AllocError`: out of memory.
    pub fn new(alloc: Global, room: u32) -> Result<Numbers<K>, AllocError>
        requires { room ≤ K.bound }
        ensures { IfOk result (λ set. set ≡ empty room) }
    {
        Numbers::with_room(alloc, room as usize)
    }

    /// Returns the bound of the set: one more than the greatest number that may be free.
    pub fn room(&self) -> u32
        ensures { result ≡ length self.now }
    {
        self.free.room() as u32
    }

    /// Returns the number of free numbers.
    #[tactic(auto, using(crate::proofs::Members::count_most))]
    pub fn count(&self) -> u32
        ensures { result ≡ length (members self.now) }
    {
        self.count as u32
    }
}

impl Numbers<InodeNumbers> {
    /// Makes the empty set with a bound, for at most 2^32 numbers.
    ///
    /// # Errors
    ///
    /// `AllocError`: out of memory.
    pub fn new(alloc: Global, room: usize) -> Result<Inodes, AllocError>
        requires { room ≤ 2 ^ 32 }
        ensures { IfOk result (λ set. set ≡ empty room) }
    {
        Numbers::with_room(alloc, room)
    }

    /// Returns the bound of the set: one more than the greatest number that may be free.
    pub fn room(&self) -> usize
        ensures { result ≡ length self.now }
    {
        self.free.room()
    }

    /// Returns the number of free numbers.
    pub fn count(&self) -> usize
        ensures { result ≡ length (members self.now) }
    {
        self.count
    }
}

impl Numbers<BlockNumbers> {
    /// Makes the empty set with a bound, with memory for the hints of [`Numbers::take_in_place_of`], four bytes for
    /// each block.
    ///
    /// # Errors
    ///
    /// `AllocError`: out of memory.
    pub fn with_hints(alloc: Global, room: u32) -> Result<Blocks, AllocError>
        ensures { IfOk result (λ set. set ≡ empty room) }
    {
        let mut blocks = Blocks::new(alloc, room)?;
        blocks.hints = Hints::new(alloc, room as usize)?;
        Ok(blocks)
    }

    /// Removes a block from a set that is not empty, for a copy of another block, and returns it. If that other block
    /// was itself allocated in place of a block that is free, the result is the latter: it has an older version, from
    /// which the copy likely differs in few words.
    ///
    /// Otherwise the result is a block near the last one that was chosen so. It is not the least one, since exactly
    /// the blocks that were freed last are older versions of others. The search looks at [`NEAR`] numbers at most, and
    /// then continues as [`Numbers::alloc_lowest`]. A set that was made by [`Numbers::new`] has no hints.
    pub fn take_in_place_of(&mut self, block: u64) -> u32
        requires { 0 < length (members self.old) }
        ensures { TakesOne self.old self.new result }
    {
        let taken = self.take_hinted(block);
        self.hints.note(taken, block);
        taken
    }

    /// Removes the block that may have an older version of this one, or otherwise a block without a hint.
    #[tactic(auto, using(crate::proofs::Members::taken_one))]
    fn take_hinted(&mut self, block: u64) -> u32
        requires { 0 < length (members self.old) }
        ensures { TakesOne self.old self.new result }
    {
        let older = self.hints.older(block);
        if older != 0 && older < self.room() && self.is_free(older) {
            self.claim(older);
            return older;
        }
        self.take_next()
    }

    /// Removes a block after the last one that was chosen so, and records it as the last one.
    fn take_next(&mut self) -> u32
        requires { 0 < length (members self.old) }
        ensures { TakesOne self.old self.new result }
    {
        let taken = self.take_near(self.start());
        self.hints.next = taken.saturating_add(1);
        taken
    }

    /// Returns where the search for a block without a hint begins: after the last one that was found, and at 0 again
    /// once that is past twice the number of blocks in use. So older versions take at most as much room as the blocks
    /// in use, and an image stays compact.
    fn start(&self) -> u32 {
        let in_use = self.room().saturating_sub(self.count());
        if self.hints.next <= in_use.saturating_mul(2).saturating_add(NEAR) {
            self.hints.next
        } else {
            0
        }
    }

    /// Removes the first free block of the next few from `first` on, or the least one if none of these is free.
    fn take_near(&mut self, first: u32) -> u32
        requires { 0 < length (members self.old) }
        ensures { TakesOne self.old self.new result }
    {
        match self.first_near(first) {
            Some(near) => {
                self.claim(near);
                near
            }
            None => self.alloc_lowest(),
        }
    }

    /// Returns the first free block of the next few from `first` on.
    fn first_near(&self, first: u32) -> Option<u32>
        ensures { IfSome result (λ i. (i < length self.now) × (has self.now i ≡ true)) }
    {
        for i in first..first.saturating_add(NEAR).min(self.room()) {
            if self.is_free(i) {
                return Some(i);
            }
        }
        None
    }
}
