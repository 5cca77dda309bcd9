//! Slots of names whose hash is that of the name in a lesser slot.

ghost use Rattle.std.specs.Prelude.{◌≡◌, ℕ, ◌<◌, ◌≤◌, length, min, true, vec_capacity, IfNone, IfSome};
ghost use Rattle.std.specs.Bool.{OnTrue};
ghost use Rattle.bp_cache.specs.Collisions.{AddsCollision, Collides, IsLeastNamed, IsRecordedAt, RemovesCollision, lesser_found};
ghost use Rattle.bp_layout.specs.Tree.{IsSound};
ghost use Rattle.bp_limits.specs.CallLimits.{max_name};
ghost use Rattle.pm_region.specs.Memory.{words_in};

use crate::entry::find_at;
use bp_read::{Found, Tree};
use pm_region::Region;
use std::alloc::Global;

/// A slot, with the hash of the name of its entry.
#[derive(Clone, Copy)]
pub(crate) struct HashedSlot {
    pub hash: u64,
    pub slot: u32,
}

/// Slots with the hashes of their names, in no order.
#[derive(Drop)]
pub(crate) struct Collisions {
    slots: Vec<HashedSlot>,
}

impl Collisions {
    /// Makes a list without slots.
    pub fn new(alloc: Global) -> Collisions
        ensures { length result.slots.items ≡ 0 }
    {
        Collisions {
            slots: Vec::new(alloc),
        }
    }

    /// Returns whether there are no slots.
    pub fn is_empty(&self) -> bool
        ensures { OnTrue result (length self.now.slots.items ≡ 0) }
    {
        self.slots.is_empty()
    }

    /// Adds a slot. Returns false if allocation fails.
    pub fn add(&mut self, hash: u64, slot: u32) -> bool
        ensures adds { OnTrue result (AddsCollision self.old self.new hash slot) }
        ensures succeeds { length self.old.slots.items < vec_capacity self.old.slots → result ≡ true }
    {
        self.slots.push(HashedSlot { hash, slot }).is_ok()
    }

    /// Returns the place of a slot with this hash; `None` if it is not in the list.
    fn place_of(&self, hash: u64, slot: u64) -> Option<usize>
        ensures some { IfSome result (λ at. IsRecordedAt self.now at hash slot) }
        ensures none { IfNone result (Collides self.now hash slot → ⊥) }
    {
        for at in 0..self.slots.len() {
            let item = self.slots[at];
            if item.hash == hash && item.slot as u64 == slot {
                return Some(at);
            }
        }
        None
    }

    /// Removes a slot with this hash, if it is in the list.
    pub fn remove(&mut self, hash: u64, slot: u64)
        ensures { RemovesCollision self.old self.new hash slot }
    {
        if let Some(at) = self.place_of(hash, slot) {
            let _item = self.slots.swap_remove(at);
        }
    }

    /// Returns the least of the slots with this hash.
    pub fn least(&self, hash: u64) -> Option<u32>
        ensures some { IfSome result (Collides self.now hash) }
        ensures least { IfSome result (λ least. (slot : ℕ) → Collides self.now hash slot → least ≤ slot) }
        ensures none { IfNone result ((slot : ℕ) → Collides self.now hash slot → ⊥) }
    {
        let mut least = None;
        for at in 0..self.slots.len() {
            let item = self.slots[at];
            if item.hash == hash {
                least = Some(lesser_slot(least, item.slot));
            }
        }
        least
    }

    /// Returns the entry with this name in the least slot, of the slots with this hash.
    #[inline(never)]
    pub fn find<R: Region>(&self, region: &R, tree: Tree, hash: u64, name: &[u8]) -> Option<Found>
        requires sound { IsSound (words_in R.memory region.now) tree.root tree.size }
        requires short { length name.now ≤ max_name }
        ensures { IsLeastNamed (words_in R.memory region.now) tree.root tree.size name.now (Collides self.now hash) result }
    {
        let mut least = None;
        for at in 0..self.slots.len() {
            let item = self.slots[at];
            if item.hash == hash {
                least = lesser_found(least, find_at(region, tree, item.slot as u64, name));
            }
        }
        least
    }
}

/// Returns the lesser one of two slots.
fn lesser_slot(least: Option<u32>, slot: u32) -> u32
    ensures some { IfSome least (λ least. result ≡ min least slot) }
    ensures none { IfNone least (result ≡ slot) }
{
    match least {
        Some(least) => least.min(slot),
        None => slot,
    }
}

/// Returns the one of two entries that is in the lesser slot.
fn lesser_found(one: Option<Found>, other: Option<Found>) -> Option<Found>
    ensures { result ≡ lesser_found one other }
{
    match (one, other) {
        (Some(one), Some(other)) if other.slot < one.slot => Some(other),
        (Some(one), _) => Some(one),
        (None, other) => other,
    }
}
