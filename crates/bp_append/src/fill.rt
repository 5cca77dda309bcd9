//! New blocks, from a node down to its leaves.

ghost use Rattle.std.specs.Prelude.{◌≡◌, ◌+◌, ◌<◌, ◌∷◌, length};
ghost use Rattle.bp_free.specs.Set.{members};
ghost use Rattle.bp_layout.specs.Tree.{span};
ghost use Rattle.bp_append.specs.Filled.{CanBuild, CanLay};
ghost use Rattle.bp_append.specs.Nodes.{MakesNode, CanFillNode, FillsNode, FillsLeaf};

use crate::lay::lay;
use crate::wanted::{TreeBlock, Wanted, begun_slots, is_met, slot_at, slot_start};
use bp_free::Blocks;
use bp_limits::{BLOCK_SIZE, BLOCK_WORDS};
use pm_region::Region;
use pm_words::span;

/// Fills a leaf from the byte at `low` to the last wanted one.
pub(crate) fn fill_leaf<R: Region>(
    region: &mut R,
    node: TreeBlock,
    low: u64,
    wanted: Wanted,
    bytes: &[u8],
)
    requires can { CanLay (R.memory region.old) node.block node.start low wanted.to }
    ensures { FillsLeaf R.memory region.old region.new node low wanted bytes.now }
{
    let end = wanted.to.min(node.start + BLOCK_SIZE);
    lay(region, node.block, node.start, low, end, wanted.from, bytes);
}

/// Builds the node of a level that starts at an offset, and the nodes below it, as far as they have wanted bytes.
/// Returns a pointer to the node, or a null pointer if it has no wanted byte.
#[cycle(fill)]
pub(crate) fn make<R: Region>(
    region: &mut R,
    blocks: &mut Blocks,
    level: u32,
    start: u64,
    wanted: Wanted,
    bytes: &[u8],
) -> u64
    requires can { CanBuild (R.memory region.old) (members blocks.old) level start wanted.from wanted.to }
    ensures made { MakesNode R.memory region.old region.new blocks.old blocks.new level start wanted bytes.now result }
    ensures met { 0 < result → wanted.from < start + span level }
    ensures room { length blocks.new ≡ length blocks.old }
{
    if !is_met(wanted, level, start) {
        return 0;
    }
    let block = blocks.alloc_lowest();
    let node = TreeBlock {
        block,
        level,
        start,
    };
    fill(region, blocks, node, start, wanted, bytes);
    bp_layout::pointer_word(block as u64)
}

/// Fills a node from the byte at `low` to the last wanted one: a leaf with the given bytes, a higher node with new
/// nodes.
#[cycle(fill)]
pub(crate) fn fill<R: Region>(
    region: &mut R,
    blocks: &mut Blocks,
    node: TreeBlock,
    low: u64,
    wanted: Wanted,
    bytes: &[u8],
)
    requires can { CanFillNode R.memory region.old blocks.old node low wanted }
    ensures fills { FillsNode R.memory region.old region.new blocks.old blocks.new node low wanted bytes.now }
    ensures room { length blocks.new ≡ length blocks.old }
{
    if node.level == 0 {
        fill_leaf(region, node, low, wanted, bytes);
        return;
    }
    for slot in slot_at(node, low)..begun_slots(node, wanted.to) {
        let pointer = make(
            region,
            blocks,
            node.level - 1,
            slot_start(node, slot),
            wanted,
            bytes,
        );
        region.store_past_head(node.block as u64 * BLOCK_WORDS + slot as u64, pointer);
    }
}
