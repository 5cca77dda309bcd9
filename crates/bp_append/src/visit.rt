//! The nodes of a tree that have its last byte, from the top down.

ghost use Rattle.std.specs.Prelude.{◌≡◌, ◌+◌, ◌-◌, ◌*◌, ◌/◌, ◌<◌, ◌≤◌, length};
ghost use Rattle.bp_limits.specs.Limits.{block_words, max_height};
ghost use Rattle.bp_limits.specs.CallLimits.{max_size};
ghost use Rattle.bp_layout.specs.Tree.{span};
ghost use Rattle.bp_append.specs.Visited.{IsLast};
ghost use Rattle.bp_append.specs.Nodes.{CanVisitNode, VisitsNode, PassesSlot, CanHangNode, HangsNode};

use crate::fill::{fill, make};
use crate::wanted::{TreeBlock, Wanted, begun_slots, slot_start};
use bp_free::Blocks;
use bp_limits::BLOCK_WORDS;
use bp_read::Tree;
use pm_region::Region;
use pm_words::span;

/// A pending store of a pointer to a new node, in place of a null pointer.
#[derive(Clone, Copy)]
pub(crate) struct Link {
    /// Place of the word in the region.
    pub place: u64,
    /// The pointer.
    pub pointer: u64,
}

/// Returns the slot of a node above the leaves that has the last byte of a tree.
fn last_slot(node: TreeBlock, size: u64) -> u32
    requires some { 1 ≤ node.level }
    requires level { node.level ≤ max_height }
    requires begun { node.start < size }
    requires inside { size ≤ node.start + span node.level }
    requires few { node.start + span node.level ≤ 2 * max_size }
    ensures { IsLast size (node.level - 1) node.start result }
{
    begun_slots(node, size) - 1
}

/// Builds a node for a null pointer, if it has wanted bytes. Returns the pending store.
fn hang<R: Region>(
    region: &mut R,
    blocks: &mut Blocks,
    node: TreeBlock,
    slot: u32,
    wanted: Wanted,
    bytes: &[u8],
) -> Option<Link>
    requires some { 1 ≤ node.level }
    requires level { node.level ≤ max_height }
    requires slot { slot < block_words }
    requires few { node.start + span node.level ≤ 2 * max_size }
    requires in_range { node.block < length (R.memory region.old).base / block_words }
    requires can { CanHangNode R.memory region.old blocks.old node slot wanted }
    ensures builds { HangsNode R.memory region.old region.new blocks.old blocks.new node slot wanted bytes.now result }
    ensures room { length blocks.new ≡ length blocks.old }
{
    let pointer = make(
        region,
        blocks,
        node.level - 1,
        slot_start(node, slot),
        wanted,
        bytes,
    );
    if pointer == 0 {
        return None;
    }
    Some(Link {
        place: node.block as u64 * BLOCK_WORDS + slot as u64,
        pointer,
    })
}

/// Walks down through the slot of a node that has the last byte of a tree.
#[cycle(visit)]
fn visit_slot<R: Region>(
    region: &mut R,
    blocks: &mut Blocks,
    tree: Tree,
    node: TreeBlock,
    slot: u32,
    wanted: Wanted,
    bytes: &[u8],
) -> Option<Link>
    requires some { 1 ≤ node.level }
    requires can { CanVisitNode R.memory region.old blocks.old tree node wanted }
    requires last { IsLast tree.size (node.level - 1) node.start slot }
    ensures below { PassesSlot R.memory region.old region.new blocks.old blocks.new
        tree node slot wanted bytes.now result }
    ensures room { length blocks.new ≡ length blocks.old }
{
    let _words = region.words();
    let pointer = region.load_past_head(node.block as u64 * BLOCK_WORDS + slot as u64);
    let block = pm_words::block_of(pointer) as u32;
    if block == 0 {
        return hang(region, blocks, node, slot, wanted, bytes);
    }
    let below = TreeBlock {
        block,
        level: node.level - 1,
        start: slot_start(node, slot),
    };
    visit(region, blocks, tree, below, wanted, bytes)
}

/// Walks down from a node that has the last byte of a tree, and fills each node on the way past the size. If a pointer
/// on the way is null and wanted bytes are below it, builds a node for it. Returns the store that links this node,
/// since it must wait for a barrier.
#[cycle(visit)]
pub(crate) fn visit<R: Region>(
    region: &mut R,
    blocks: &mut Blocks,
    tree: Tree,
    node: TreeBlock,
    wanted: Wanted,
    bytes: &[u8],
) -> Option<Link>
    requires can { CanVisitNode R.memory region.old blocks.old tree node wanted }
    ensures visits { VisitsNode R.memory region.old region.new blocks.old blocks.new tree node wanted bytes.now result }
    ensures room { length blocks.new ≡ length blocks.old }
{
    if node.level == 0 {
        fill(region, blocks, node, tree.size, wanted, bytes);
        return None;
    }
    let slot = last_slot(node, tree.size);
    let hung = visit_slot(region, blocks, tree, node, slot, wanted, bytes);
    let end = slot_start(node, slot) + span(node.level - 1);
    // If there are few bytes, they usually end in the node below.
    if wanted.to <= end {
        return hung;
    }
    fill(region, blocks, node, end, wanted, bytes);
    hung
}
