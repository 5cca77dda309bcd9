//! The index of a directory.

ghost use Rattle.std.specs.Prelude.{◌≡◌, ℕ, ◌/◌, ◌<◌, ◌≤◌, max, min, nat_eq, true, length, vec_capacity, IfOk, IfSome, IsSome, Some};
ghost use Rattle.std.specs.Bool.{OnTrue};
ghost use Rattle.std.specs.HashMap.{get, hash_map_len, spare, Updates};
ghost use Rattle.bp_layout.specs.EntryWords.{HasWords};
ghost use Rattle.bp_read.specs.Spots.{FreeIs, found_slot, named_slot};
ghost use Rattle.bp_cache.specs.Collisions.{AddsCollision};
ghost use Rattle.bp_cache.specs.Index.{CanEnter, EntersEntry, EntersSlot, GainsSlot, IsEmptyIndex, IsIndexOf, IsIndexed, KeepsIndexed, LeavesSlot, LosesSlot};
ghost use Rattle.bp_layout.specs.Directory.{empty_slot_in, ino_in, slot_named_in};
ghost use Rattle.bp_layout.specs.Tree.{IsSound};
ghost use Rattle.bp_layout.specs.Words.{Image};
ghost use Rattle.bp_limits.specs.Limits.{entry_size};
ghost use Rattle.bp_limits.specs.CallLimits.{max_name};
ghost use Rattle.pm_region.specs.Memory.{words_in};

use crate::collisions::Collisions;
use crate::entry::{find_at, live_entry};
use crate::hash::hash_of;
use crate::slots::{SlotNumbers, put_in, take_out};
use bp_free::Numbers;
use bp_layout::EntryView;
use bp_limits::{ENTRY_SIZE, MAX_NAME};
use bp_read::directory::entry_ino;
use bp_read::{Found, Spot, Tree};
use pm_region::Region;
use std::alloc::{AllocError, Global};
use std::collections::HashMap;

/// The number of slots for which there is room beyond twice those of the directory.
const SPARE_SLOTS: u32 = 1024;

/// The slots of the names of a directory, and the slots that may be empty.
///
/// An index does not refer to a directory: its calls get the tree each time, and require that the index is correct for
/// it (`IsIndexOf`). The caller reports each change of the directory by [`Index::enter`] or [`Index::leave`]; the laws
/// of `proofs/ChangeLaws` state when the index is correct for the tree after that. Surplus contents do no harm: a slot
/// is looked at before it is returned.
#[derive(Drop)]
pub struct Index {
    // from the hash of a name to its slot, the least one if several names have the hash
    slots: HashMap<u64, u32>,
    // The greater slots of hashes that several names have. A name has one place, here or in `slots`, and gives it up
    // when it leaves. So the number of places changes only with the number of names, and memory does not grow otherwise.
    collisions: Collisions,
    // the slots that may be empty, below a bound
    empties: Numbers<SlotNumbers>,
}

impl Index {
    /// Makes an index without entries, with room for more than `slots` slots.
    fn with_room(alloc: Global, slots: u32) -> Result<Index, AllocError>
        ensures { IfOk result (IsEmptyIndex slots) }
    {
        let room = slots.saturating_mul(2).saturating_add(SPARE_SLOTS);
        Ok(Index {
            slots: HashMap::with_capacity(alloc, slots as usize)?,
            collisions: Collisions::new(alloc),
            empties: Numbers::<SlotNumbers>::new(alloc, room)?,
        })
    }

    /// Adds an entry that refers to an inode. Returns false if its name cannot be added: if it is too long, or if
    /// allocation fails.
    fn take_in(&mut self, entry: &EntryView<'_>, slot: u32) -> bool
        requires { slot < length self.old.empties }
        ensures { (image : Image) (root : ℕ) → HasWords image root slot entry.now.words.now → result ≡ true →
            EntersEntry image root slot self.old self.new }
    {
        if entry.name_len() > MAX_NAME as u64 {
            return false;
        }
        let mut buffer = [0; MAX_NAME];
        let name = entry.read_name(&mut buffer);
        self.enter(name, slot as u64)
    }

    /// Adds the entry in a slot, empty or not.
    fn scan<R: Region>(&mut self, region: &R, tree: Tree, slot: u32) -> bool
        requires sound { IsSound (words_in R.memory region.now) tree.root tree.size }
        requires live { slot < tree.size / entry_size }
        requires room { slot < length self.old.empties }
        ensures here { OnTrue result (IsIndexed (words_in R.memory region.now) tree.root slot self.new) }
        ensures others { OnTrue result (KeepsIndexed (words_in R.memory region.now) tree.root slot self.old self.new) }
        ensures room { OnTrue result (length self.new.empties ≡ length self.old.empties) }
    {
        match live_entry(region, tree, slot as u64) {
            Some(entry) => self.take_in(&entry, slot),
            None => {
                put_in(&mut self.empties, slot);
                true
            }
        }
    }

    /// Makes the index of a directory, by one pass over its entries. Returns `None` if allocation fails, if a name is
    /// longer than allowed, or if the number of slots exceeds 32 bits.
    pub fn of<R: Region>(alloc: Global, region: &R, tree: Tree) -> Option<Index>
        requires { IsSound (words_in R.memory region.now) tree.root tree.size }
        ensures { IfSome result (IsIndexOf (words_in R.memory region.now) tree.root tree.size) }
    {
        let slots = tree.size / ENTRY_SIZE;
        if slots > u32::MAX as u64 {
            return None;
        }
        let slots = slots as u32;
        let Ok(mut index) = Index::with_room(alloc, slots) else {
            return None;
        };
        for slot in 0..slots {
            if !index.scan(region, tree, slot) {
                return None;
            }
        }
        Some(index)
    }

    /// Returns what [`bp_read::directory::find_entry`] returns, after a look at each entry with the hash of the name at
    /// most. If the first of them has another name, it also compares all the hashes that are in `collisions`.
    pub fn find_entry<R: Region>(&self, region: &R, tree: Tree, name: &[u8]) -> Option<Found>
        requires sound { IsSound (words_in R.memory region.now) tree.root tree.size }
        requires short { length name.now ≤ max_name }
        requires right { IsIndexOf (words_in R.memory region.now) tree.root tree.size self.now }
        ensures slot { found_slot result ≡ slot_named_in (words_in R.memory region.now) tree.root tree.size name.now }
        ensures ino { IfSome result
            (λ found. found.ino ≡ ino_in (words_in R.memory region.now) tree.root found.slot) }
    {
        let hash = hash_of(name);
        let Some(first) = self.slots.get(&hash) else {
            return None;
        };
        match find_at(region, tree, *first as u64, name) {
            Some(found) => Some(found),
            None => self.collisions.find(region, tree, hash, name),
        }
    }

    /// Returns what [`bp_read::directory::free_slot`] returns. Slots below it that turn out not to be empty are never looked at
    /// again.
    pub fn free_slot<R: Region>(&mut self, region: &R, tree: Tree) -> Option<u64>
        requires sound { IsSound (words_in R.memory region.now) tree.root tree.size }
        requires right { IsIndexOf (words_in R.memory region.now) tree.root tree.size self.old }
        ensures slot { result ≡ empty_slot_in (words_in R.memory region.now) tree.root tree.size }
        ensures right { IsIndexOf (words_in R.memory region.now) tree.root tree.size self.new }
    {
        while let Some(slot) = self.empties.take() {
            if slot as u64 >= tree.size / ENTRY_SIZE {
                return None;
            }
            if entry_ino(region, tree, slot as u64) == 0 {
                self.empties.give(slot);
                return Some(slot as u64);
            }
        }
        None
    }

    /// Returns what [`bp_read::directory::find_or_free`] returns.
    pub fn find_or_free<R: Region>(&mut self, region: &R, tree: Tree, name: &[u8]) -> Spot
        requires sound { IsSound (words_in R.memory region.now) tree.root tree.size }
        requires short { length name.now ≤ max_name }
        requires right { IsIndexOf (words_in R.memory region.now) tree.root tree.size self.old }
        ensures named { named_slot result ≡ slot_named_in (words_in R.memory region.now) tree.root tree.size name.now }
        ensures free { FreeIs result (empty_slot_in (words_in R.memory region.now) tree.root tree.size) }
        ensures right { IsIndexOf (words_in R.memory region.now) tree.root tree.size self.new }
    {
        match self.find_entry(region, tree, name) {
            Some(found) => Spot::Named(found.slot),
            None => Spot::Free(self.free_slot(region, tree)),
        }
    }

    /// Makes a hash lead to the lesser one of two slots by the table, and to the greater one as a collision. Returns
    /// false if allocation fails.
    #[inline(never)]
    fn collide(&mut self, hash: u64, first: u32, slot: u32) -> bool
        ensures table { OnTrue result (Updates nat_eq self.old.slots self.new.slots hash (Some (min first slot))) }
        ensures collision { OnTrue result (AddsCollision self.old.collisions self.new.collisions hash (max first slot)) }
        ensures succeeds { IsSome (get nat_eq self.old.slots hash) →
            length self.old.collisions.slots.items < vec_capacity self.old.collisions.slots → result ≡ true }
        ensures count { IsSome (get nat_eq self.old.slots hash) → hash_map_len self.new.slots ≡ hash_map_len self.old.slots }
        ensures empties { self.new.empties ≡ self.old.empties }
    {
        self.slots.insert(hash, first.min(slot)).is_ok()
            && self.collisions.add(hash, first.max(slot))
    }

    /// Makes a hash lead to a slot, too. Returns false if allocation fails.
    fn lead(&mut self, hash: u64, slot: u32) -> bool
        ensures gains { OnTrue result (GainsSlot self.old self.new hash slot) }
        ensures succeeds { 0 < spare self.old.slots →
            (IsSome (get nat_eq self.old.slots hash) → length self.old.collisions.slots.items < vec_capacity self.old.collisions.slots) →
            result ≡ true }
        ensures empties { self.new.empties ≡ self.old.empties }
    {
        match self.slots.insert(hash, slot) {
            Ok(None) => true,
            Ok(Some(first)) => first == slot || self.collide(hash, first, slot),
            Err(_) => false,
        }
    }

    /// Updates the index after a name was added in a slot. If it returns false, the index is no longer correct and has
    /// to be dropped: allocation failed, or the slot is past those for which there is room. Names may share a hash.
    pub fn enter(&mut self, name: &[u8], slot: u64) -> bool
        ensures enters { OnTrue result (EntersSlot self.old self.new name.now slot) }
        ensures succeeds { CanEnter self.old name.now slot → result ≡ true }
    {
        if slot >= self.empties.room() as u64 {
            return false;
        }
        let slot = slot as u32;
        if !self.lead(hash_of(name), slot) {
            return false;
        }
        take_out(&mut self.empties, slot);
        true
    }

    /// Makes a hash not lead to the slot that the table has for it. The least of the others takes its place.
    fn lose_first(&mut self, hash: u64)
        ensures loses { (slot : ℕ) → get nat_eq self.old.slots hash ≡ Some slot → LosesSlot self.old self.new hash slot }
        ensures empties { self.new.empties ≡ self.old.empties }
    {
        match self.collisions.least(hash) {
            Some(next) => {
                let _first = self.slots.insert(hash, next);
                self.collisions.remove(hash, next as u64);
            }
            None => {
                let _first = self.slots.remove(&hash);
            }
        }
    }

    /// Makes a hash not lead to a slot, if there are collisions.
    #[inline(never)]
    fn lose_among(&mut self, hash: u64, slot: u64)
        ensures loses { LosesSlot self.old self.new hash slot }
        ensures empties { self.new.empties ≡ self.old.empties }
    {
        match self.slots.get(&hash) {
            Some(first) if *first as u64 == slot => self.lose_first(hash),
            _ => self.collisions.remove(hash, slot),
        }
    }

    /// Makes a hash not lead to a slot.
    fn lose(&mut self, hash: u64, slot: u64)
        ensures loses { LosesSlot self.old self.new hash slot }
        ensures empties { self.new.empties ≡ self.old.empties }
    {
        if !self.collisions.is_empty() {
            self.lose_among(hash, slot);
            return;
        }
        let _first = self.slots.remove(&hash);
    }

    /// Updates the index after a name was removed from its slot.
    pub fn leave(&mut self, name: &[u8], slot: u64)
        ensures { LeavesSlot self.old self.new name.now slot }
    {
        self.lose(hash_of(name), slot);
        if slot < self.empties.room() as u64 {
            put_in(&mut self.empties, slot as u32);
        }
    }
}
