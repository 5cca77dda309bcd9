//! The entries of one leaf of a directory.

ghost use Rattle.std.specs.Prelude.{◌≡◌, ◌≢◌, ℕ, ◌+◌, ◌-◌, ◌*◌, ◌/◌, ◌%◌, ◌<◌, ◌≤◌, min, length, Option, IfSome, IfNone};
ghost use Rattle.bp_layout.specs.Tree.{IsSound};
ghost use Rattle.bp_layout.specs.Directory.{ino_in};
ghost use Rattle.pm_region.specs.Memory.{words_in};
ghost use Rattle.bp_layout.specs.EntryWords.{HasWords, IsRow, IsZeroEntry, last_part, part_word};
ghost use Rattle.bp_read.specs.EntryWords.{IsLeaf};
ghost use Rattle.bp_read.specs.DirectoryLeaves.{empty_in_leaf, named_in_leaf, names_in_leaf};
ghost use Rattle.bp_read.specs.Spots.{found_slot};
ghost use Rattle.bp_limits.specs.Limits.{block_entries, entry_size};
ghost use Rattle.bp_limits.specs.CallLimits.{max_name};

use crate::spot::Found;
use crate::tree::{Tree, leaf_block};
use bp_layout::EntryView;
use bp_limits::{BLOCK_ENTRIES, BLOCK_WORDS, ENTRY_SIZE, ENTRY_WORDS};
use pm_region::Region;

/// Consecutive slots whose entries share a block.
#[derive(Clone, Copy)]
pub(crate) struct Leaf {
    /// Tree of the directory.
    pub tree: Tree,
    /// First slot.
    pub first: u64,
    /// Number of slots: sixteen, or fewer at the end of the directory.
    pub count: u64,
    /// Block with the entries, 0 if all of them are empty.
    pub block: u64,
}

/// Returns the number of leaves that have the slots of a directory.
pub(crate) fn leaf_count(tree: Tree) -> u64
    ensures most { (leaf : ℕ) → leaf < result → block_entries * leaf < tree.size / entry_size }
    ensures all { tree.size / entry_size ≤ block_entries * result }
{
    (tree.size / ENTRY_SIZE).div_ceil(BLOCK_ENTRIES)
}

/// Returns the leaf that starts with a slot.
pub(crate) fn leaf_from<R: Region>(region: &R, tree: Tree, first: u64) -> Leaf
    requires sound { IsSound (words_in R.memory region.now) tree.root tree.size }
    requires starts { first % block_entries ≡ 0 }
    requires live { first < tree.size / entry_size }
    ensures leaf { IsLeaf (words_in R.memory region.now) result }
    ensures tree { result.tree ≡ tree }
    ensures first { result.first ≡ first }
    ensures count { result.count ≡ min block_entries (tree.size / entry_size - first) }
{
    Leaf {
        tree,
        first,
        count: (tree.size / ENTRY_SIZE - first).min(BLOCK_ENTRIES),
        block: leaf_block(region, tree, first / BLOCK_ENTRIES),
    }
}

impl Leaf {
    /// Returns the words of the entries, which must be in a block.
    fn words<'a, R: Region>(&self, region: &'a R) -> &'a [u64]
        requires leaf { IsLeaf (words_in R.memory region.now) self.now }
        requires present { self.now.block ≢ 0 }
        ensures { IsRow (words_in R.memory region.now) self.now.tree.root self.now.first self.now.count result.now }
    {
        // A region has fewer than 2^41 words, so the place of a word fits.
        let _words = region.words();
        region.load_words(
            BLOCK_WORDS * self.block,
            (ENTRY_WORDS * self.count) as usize,
        )
    }

    /// Returns one of the entries, or `None` if all of them are empty because the block is null.
    pub fn entry<'a, R: Region>(&self, region: &'a R, index: u64) -> Option<EntryView<'a>>
        requires leaf { IsLeaf (words_in R.memory region.now) self.now }
        requires live { index < self.now.count }
        ensures some { IfSome result (λ entry. HasWords (words_in R.memory region.now)
            self.now.tree.root (self.now.first + index) entry.words.now) }
        ensures none { IfNone result (IsZeroEntry (words_in R.memory region.now)
            self.now.tree.root (self.now.first + index)) }
    {
        if self.block == 0 {
            return None;
        }
        Some(EntryView::in_row(self.words(region), index as usize))
    }

    /// Returns the first entry that names an inode by this name, whose last word is `last`.
    pub fn find<R: Region>(&self, region: &R, name: &[u8], last: u64) -> Option<Found>
        requires leaf { IsLeaf (words_in R.memory region.now) self.now }
        requires short { length name.now ≤ max_name }
        requires last { last ≡ part_word name.now (last_part name.now) }
        ensures slot { found_slot result ≡ named_in_leaf (words_in R.memory region.now) self.now name.now }
        ensures ino { IfSome result
            (λ found. found.ino ≡ ino_in (words_in R.memory region.now) self.now.tree.root found.slot) }
    {
        if self.block == 0 {
            return None;
        }
        let words = self.words(region);
        for index in 0..self.count {
            let entry = EntryView::in_row(words, index as usize);
            if entry.is_named(name, last) {
                return Some(Found {
                    slot: self.first + index,
                    ino: entry.ino(),
                });
            }
        }
        None
    }

    /// Returns the earlier result if there is one, else the first entry that names an inode by this name, whose last
    /// word is `last`.
    pub fn find_after<R: Region>(
        &self,
        region: &R,
        name: &[u8],
        last: u64,
        before: Option<Found>,
    ) -> Option<Found>
        requires leaf { IsLeaf (words_in R.memory region.now) self.now }
        requires short { length name.now ≤ max_name }
        requires last { last ≡ part_word name.now (last_part name.now) }
        ensures some { IfSome before (λ found. result ≡ before) }
        ensures slot { IfNone before
            (found_slot result ≡ named_in_leaf (words_in R.memory region.now) self.now name.now) }
        ensures ino { IfNone before (IfSome result
            (λ found. found.ino ≡ ino_in (words_in R.memory region.now) self.now.tree.root found.slot)) }
    {
        match before {
            Some(_) => before,
            None => self.find(region, name, last),
        }
    }

    /// Returns the first slot whose entry is empty.
    pub fn first_empty<R: Region>(&self, region: &R) -> Option<u64>
        requires { IsLeaf (words_in R.memory region.now) self.now }
        ensures { result ≡ empty_in_leaf (words_in R.memory region.now) self.now }
    {
        if self.block == 0 {
            return Some(self.first);
        }
        let words = self.words(region);
        for index in 0..self.count {
            if EntryView::in_row(words, index as usize).ino() == 0 {
                return Some(self.first + index);
            }
        }
        None
    }

    /// Returns the earlier result if there is one, else the first empty slot of the leaf.
    pub fn first_empty_after<R: Region>(&self, region: &R, before: Option<u64>) -> Option<u64>
        requires { IsLeaf (words_in R.memory region.now) self.now }
        ensures some { IfSome before (λ slot. result ≡ before) }
        ensures none { IfNone before (result ≡ empty_in_leaf (words_in R.memory region.now) self.now) }
    {
        match before {
            Some(_) => before,
            None => self.first_empty(region),
        }
    }

    /// Returns how many of the entries name an inode.
    pub fn count_names<R: Region>(&self, region: &R) -> u64
        requires { IsLeaf (words_in R.memory region.now) self.now }
        ensures count { result ≡ names_in_leaf (words_in R.memory region.now) self.now }
        ensures few { result ≤ self.now.count }
    {
        if self.block == 0 {
            return 0;
        }
        let words = self.words(region);
        let mut names = 0;
        for index in 0..self.count {
            if EntryView::in_row(words, index as usize).ino() != 0 {
                names += 1;
            }
        }
        names
    }
}
