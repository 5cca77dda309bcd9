//! The state that is held for a large directory.

ghost use Rattle.std.specs.Prelude.{◌≡◌, ◌≤◌, length};
ghost use Rattle.bp_cache.specs.Held.{Becomes, IndexIs};
ghost use Rattle.bp_cache.specs.Recalled.{IsRecalled};
ghost use Rattle.bp_read.specs.Spots.{FreeIs, named_slot};
ghost use Rattle.bp_cache.specs.Index.{EntersSlot, IsIndexOf, LeavesSlot};
ghost use Rattle.bp_layout.specs.Directory.{empty_slot_in, slot_named_in};
ghost use Rattle.bp_layout.specs.Tree.{IsSound};
ghost use Rattle.bp_limits.specs.CallLimits.{max_name};
ghost use Rattle.pm_region.specs.Memory.{words_in};

use crate::index::Index;
use crate::recalled::Recalled;
use bp_read::directory::find_or_free;
use bp_read::{Spot, Tree};
use pm_region::Region;
use std::alloc::Global;

/// The state that is held for a large directory.
#[derive(Drop)]
pub(crate) enum Held {
    /// Its index.
    Indexed(Index),
    /// Its index was dropped because a new name could not be added. The next search may rebuild it.
    Lost,
    /// An index of it could not be made.
    Unindexed,
}

impl Held {
    /// Makes an index of the directory with this tree, if possible.
    pub fn of<R: Region>(alloc: Global, region: &R, tree: Tree) -> Held
        requires { IsSound (words_in R.memory region.now) tree.root tree.size }
        ensures { IndexIs (IsIndexOf (words_in R.memory region.now) tree.root tree.size) result }
    {
        match Index::of(alloc, region, tree) {
            Some(index) => Held::Indexed(index),
            None => Held::Unindexed,
        }
    }

    /// Returns what the index records of a name in the directory with this tree.
    pub fn recall<R: Region>(&self, region: &R, tree: Tree, name: &[u8]) -> Recalled
        requires sound { IsSound (words_in R.memory region.now) tree.root tree.size }
        requires short { length name.now ≤ max_name }
        requires right { IndexIs (IsIndexOf (words_in R.memory region.now) tree.root tree.size) self.now }
        ensures { IsRecalled (words_in R.memory region.now) tree name.now result }
    {
        match self {
            Held::Indexed(index) => Recalled::Known(index.find_entry(region, tree, name)),
            _ => Recalled::Unknown,
        }
    }

    /// Returns what [`find_or_free`] returns, by the index if there is one.
    pub fn find_or_free<R: Region>(&mut self, region: &R, tree: Tree, name: &[u8]) -> Spot
        requires sound { IsSound (words_in R.memory region.now) tree.root tree.size }
        requires short { length name.now ≤ max_name }
        requires right { IndexIs (IsIndexOf (words_in R.memory region.now) tree.root tree.size) self.old }
        ensures named { named_slot result ≡ slot_named_in (words_in R.memory region.now) tree.root tree.size name.now }
        ensures free { FreeIs result (empty_slot_in (words_in R.memory region.now) tree.root tree.size) }
        ensures right { IndexIs (IsIndexOf (words_in R.memory region.now) tree.root tree.size) self.new }
    {
        match self {
            Held::Indexed(index) => index.find_or_free(region, tree, name),
            _ => find_or_free(region, tree, name),
        }
    }

    /// Updates the index after a name was added in its slot. An index that cannot hold the name is dropped, and the
    /// next search makes another one, if possible.
    pub fn enter(&mut self, name: &[u8], slot: u64)
        ensures { Becomes (λ before after. EntersSlot before after name.now slot) self.old self.new }
    {
        let Held::Indexed(index) = self else {
            return;
        };
        if !index.enter(name, slot) {
            *self = Held::Lost;
        }
    }

    /// Updates the index after a name was removed from its slot.
    pub fn leave(&mut self, name: &[u8], slot: u64)
        ensures { Becomes (λ before after. LeavesSlot before after name.now slot) self.old self.new }
    {
        if let Held::Indexed(index) = self {
            index.leave(name, slot);
        }
    }
}
