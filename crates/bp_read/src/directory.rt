//! The entries of a directory.

ghost use Rattle.std.specs.Prelude.{◌≡◌, ◌≢◌, ◌+◌, ◌*◌, ◌/◌, ◌<◌, ◌≤◌, ◌↔◌, ℕ, length, IsTrue, IfNone, IfSome};
ghost use Rattle.bp_layout.specs.Words.{height_of};
ghost use Rattle.bp_layout.specs.Tree.{node, IsSound, IsFull};
ghost use Rattle.bp_layout.specs.Directory.{ino_in, word_in, empty_slot_in, slot_named_in};
ghost use Rattle.bp_limits.specs.Limits.{block_words, entry_size, entry_words};
ghost use Rattle.bp_limits.specs.CallLimits.{max_name};
ghost use Rattle.pm_region.specs.Memory.{words_in};
ghost use Rattle.bp_layout.specs.EntryWords.{HasWords};
ghost use Rattle.bp_read.specs.EntryWords.{word_place_in};
ghost use Rattle.bp_read.specs.Names.{name_count};
ghost use Rattle.bp_read.specs.Spots.{FreeIs, found_slot, named_slot};

use crate::leaf::{leaf_count, leaf_from};
use crate::spot::{Both, Found, Spot};
use crate::tree::{Tree, content_place, content_word};
use bp_layout::{EntryView, INO_WORD, last_word};
use bp_limits::{BLOCK_ENTRIES, ENTRY_WORDS};
use pm_region::{HEAD_WORDS, Region};

/// Returns the number of the inode that the entry in a slot names, 0 if the entry is empty.
pub fn entry_ino<R: Region>(region: &R, tree: Tree, slot: u64) -> u64
    requires sound { IsSound (words_in R.memory region.now) tree.root tree.size }
    requires live { slot < tree.size / entry_size }
    ensures { result ≡ ino_in (words_in R.memory region.now) tree.root slot }
{
    content_word(region, tree, ENTRY_WORDS * slot + INO_WORD)
}

/// Returns the entry in a slot, or `None` if it is empty because its block is null.
pub fn entry<R: Region>(region: &R, tree: Tree, slot: u64) -> Option<EntryView<'_>>
    requires sound { IsSound (words_in R.memory region.now) tree.root tree.size }
    requires live { slot < tree.size / entry_size }
    ensures some { IfSome result (λ entry. HasWords (words_in R.memory region.now) tree.root slot entry.words.now) }
    ensures none { IfNone result ((field : ℕ) → field < entry_words →
        word_in (words_in R.memory region.now) tree.root slot field ≡ 0) }
{
    let index = slot % BLOCK_ENTRIES;
    leaf_from(region, tree, slot - index).entry(region, index)
}

/// Returns the first slot whose entry names an inode by this name, or `None` if there is none.
pub fn find<R: Region>(region: &R, tree: Tree, name: &[u8]) -> Option<u64>
    requires sound { IsSound (words_in R.memory region.now) tree.root tree.size }
    requires short { length name.now ≤ max_name }
    ensures { result ≡ slot_named_in (words_in R.memory region.now) tree.root tree.size name.now }
{
    match find_entry(region, tree, name) {
        Some(found) => Some(found.slot),
        None => None,
    }
}

/// Returns the entry that [`find`] finds: its slot and the number of the inode that it names.
pub fn find_entry<R: Region>(region: &R, tree: Tree, name: &[u8]) -> Option<Found>
    requires sound { IsSound (words_in R.memory region.now) tree.root tree.size }
    requires short { length name.now ≤ max_name }
    ensures slot { found_slot result ≡ slot_named_in (words_in R.memory region.now) tree.root tree.size name.now }
    ensures ino { IfSome result
        (λ found. found.ino ≡ ino_in (words_in R.memory region.now) tree.root found.slot) }
{
    let last = last_word(name);
    for number in 0..leaf_count(tree) {
        let leaf = leaf_from(region, tree, BLOCK_ENTRIES * number);
        if let Some(found) = leaf.find(region, name, last) {
            return Some(found);
        }
    }
    None
}

/// Returns the first slot whose entry is empty, or `None` if there is none.
pub fn free_slot<R: Region>(region: &R, tree: Tree) -> Option<u64>
    requires { IsSound (words_in R.memory region.now) tree.root tree.size }
    ensures { result ≡ empty_slot_in (words_in R.memory region.now) tree.root tree.size }
{
    for number in 0..leaf_count(tree) {
        let leaf = leaf_from(region, tree, BLOCK_ENTRIES * number);
        if let Some(slot) = leaf.first_empty(region) {
            return Some(slot);
        }
    }
    None
}

/// Returns the results of [`find`] and [`free_slot`] by one scan: the slot that has a name, or else the first empty
/// slot.
pub fn find_or_free<R: Region>(region: &R, tree: Tree, name: &[u8]) -> Spot
    requires sound { IsSound (words_in R.memory region.now) tree.root tree.size }
    requires short { length name.now ≤ max_name }
    ensures named { named_slot result ≡ slot_named_in (words_in R.memory region.now) tree.root tree.size name.now }
    ensures free { FreeIs result (empty_slot_in (words_in R.memory region.now) tree.root tree.size) }
{
    let last = last_word(name);
    let mut empty = None;
    for number in 0..leaf_count(tree) {
        let leaf = leaf_from(region, tree, BLOCK_ENTRIES * number);
        if let Some(found) = leaf.find(region, name, last) {
            return Spot::Named(found.slot);
        }
        empty = leaf.first_empty_after(region, empty);
    }
    Spot::Free(empty)
}

/// Returns where a name is or may be put, from the entry that was found for it and the first empty slot.
fn spot_of(found: Option<Found>, empty: Option<u64>) -> Spot
    ensures named { named_slot result ≡ found_slot found }
    ensures free { FreeIs result empty }
{
    match found {
        Some(found) => Spot::Named(found.slot),
        None => Spot::Free(empty),
    }
}

/// Returns the results of [`find_entry`] for one name and of [`find_or_free`] for another one, by one scan.
pub fn find_both<R: Region>(region: &R, tree: Tree, one: &[u8], other: &[u8]) -> Both
    requires sound { IsSound (words_in R.memory region.now) tree.root tree.size }
    requires one { length one.now ≤ max_name }
    requires other { length other.now ≤ max_name }
    ensures slot { found_slot result.found ≡ slot_named_in (words_in R.memory region.now) tree.root tree.size one.now }
    ensures ino { IfSome result.found
        (λ found. found.ino ≡ ino_in (words_in R.memory region.now) tree.root found.slot) }
    ensures named { named_slot result.spot ≡
        slot_named_in (words_in R.memory region.now) tree.root tree.size other.now }
    ensures free { FreeIs result.spot (empty_slot_in (words_in R.memory region.now) tree.root tree.size) }
{
    let one_last = last_word(one);
    let other_last = last_word(other);
    let mut found = None;
    let mut named = None;
    let mut free = None;
    for number in 0..leaf_count(tree) {
        let leaf = leaf_from(region, tree, BLOCK_ENTRIES * number);
        found = leaf.find_after(region, one, one_last, found);
        named = leaf.find_after(region, other, other_last, named);
        free = leaf.first_empty_after(region, free);
        if found.is_some() && named.is_some() {
            break;
        }
    }
    Both {
        found,
        spot: spot_of(named, free),
    }
}

/// Returns how many entries name an inode.
pub fn count<R: Region>(region: &R, tree: Tree) -> u64
    requires { IsSound (words_in R.memory region.now) tree.root tree.size }
    ensures { result ≡ name_count (words_in R.memory region.now) tree.root tree.size }
{
    let mut names = 0;
    for number in 0..leaf_count(tree) {
        names += leaf_from(region, tree, BLOCK_ENTRIES * number).count_names(region);
    }
    names
}

/// Returns whether no entry names an inode.
pub fn is_empty<R: Region>(region: &R, tree: Tree) -> bool
    requires { IsSound (words_in R.memory region.now) tree.root tree.size }
    ensures { IsTrue result ↔ (name_count (words_in R.memory region.now) tree.root tree.size ≡ 0) }
{
    for number in 0..leaf_count(tree) {
        if leaf_from(region, tree, BLOCK_ENTRIES * number).count_names(region) != 0 {
            return false;
        }
    }
    true
}

/// Returns the place in the region of a word of the entry in a slot.
pub fn entry_place<R: Region>(region: &R, tree: Tree, slot: u64, field: u64) -> u64
    requires sound { IsSound (words_in R.memory region.now) tree.root tree.size }
    requires full { IsFull (words_in R.memory region.now) tree.root tree.size }
    requires live { slot < tree.size / entry_size }
    requires field { field < entry_words }
    ensures place { result ≡ word_place_in (words_in R.memory region.now) tree.root slot field }
    ensures present { node (words_in R.memory region.now) tree.root (height_of tree.root)
        ((entry_words * slot + field) / block_words) ≢ 0 }
    ensures after_head { HEAD_WORDS ≤ result }
    ensures in_range { result < length (words_in R.memory region.now) }
{
    content_place(region, tree, ENTRY_WORDS * slot + field)
}
