//! A file system that keeps abstract trees.

ghost use Rattle.std.specs.Prelude.{[], ◌≡◌, ◌≤◌, OnErr, OnOk, length};
ghost use Rattle.bp_limits.specs.Limits.{call_room};
ghost use Rattle.bp_plain.specs.Seen.{CanAsk, call_of};
ghost use Rattle.bp_reference.specs.ByTree.{CallsTree};
ghost use Rattle.bp_reference.specs.Trees.{AreInStep, latest, present};
ghost use Rattle.pm_region.specs.Memory.{room_in};

use bp_plain::{Call, Plain, Reply};
use pm_region::{ListRegion, Region};
use std::alloc::{AllocError, Global};

/// A file system whose calls are those of the abstract tree. It keeps the tree at the last drain, and the tree after
/// each call since. Its region has for each of these calls a store to the first word, a barrier and an end-of-call
/// marker.
#[derive(Drop)]
pub struct Reference {
    pub(crate) region: ListRegion,
    pub(crate) durable: Plain,
    pub(crate) since: Vec<Plain>,
    ghost in_step: { AreInStep (record { memory = region; durable = durable; since = since.items }) },
}

impl Reference {
    ghost use Rattle.bp_reference.specs.State.{trees_in};

    /// Makes a file system of a tree, which is durable, over a region of one or more words with an empty log.
    pub fn new(alloc: Global, region: ListRegion, tree: Plain) -> Reference
        requires some { 1 ≤ length region.base }
        requires fresh { region.events ≡ [] }
        requires roomy { call_room ≤ region.capacity }
        ensures { trees_in result ≡ record { memory = region; durable = tree; since = [] } }
    {
        Reference {
            region,
            durable: tree,
            since: Vec::new(alloc),
        }
    }

    /// Returns the present tree.
    fn present(&self) -> &Plain
        ensures { result.now ≡ present (trees_in self.now) }
    {
        match self.since.last() {
            Some(tree) => tree,
            None => &self.durable,
        }
    }

    /// Makes a call on a copy of the present tree, which becomes the present one.
    ///
    /// # Errors
    ///
    /// - `AllocError`: allocation fails. Nothing has changed then, except the reply.
    pub(crate) fn call(
        &mut self,
        alloc: Global,
        call: &Call,
        reply: &mut Reply,
    ) -> Result<(), AllocError>
        requires can { CanAsk call.now }
        requires room { call_room ≤ room_in (self.old.region) }
        ensures done { OnOk result (CallsTree (trees_in self.old) (call_of call.now) reply.new.answer (trees_in self.new)) }
        ensures kept { OnErr result (trees_in self.new ≡ trees_in self.old) }
    {
        let mut next = self.present().copied(alloc)?;
        next.apply(alloc, call, reply)?;
        self.since.push(next)?;
        self.region.store(0, 1);
        self.region.barrier();
        self.region.end_call();
        Ok(())
    }
}

/// Makes the last of the trees since the durable one the durable one.
pub(crate) fn settle(durable: &mut Plain, since: &mut Vec<Plain>)
    ensures durable { durable.new ≡ latest durable.old since.old.items }
    ensures since { since.new.items ≡ [] }
{
    if let Some(last) = since.pop() {
        *durable = last;
    }
    since.clear();
}
