//! The next existing leaf of a tree.

ghost use Rattle.std.specs.Prelude.{◌≡◌, ◌-◌, ◌^◌, ◌<◌, ◌≤◌, IfSome, IfNone};
ghost use Rattle.bp_layout.specs.Tree.{IsSound};
ghost use Rattle.bp_layout.specs.Words.{height_of};
ghost use Rattle.bp_limits.specs.Limits.{block_words, max_height};
ghost use Rattle.pm_region.specs.Memory.{words_in};
ghost use Rattle.bp_read.specs.Leaves.{HasNoLeafFrom, IsNextLeaf};

use crate::subtrees::{child, live_slots};
use crate::tree::Tree;
use bp_limits::BLOCK_SIZE;
use pm_region::Region;
use pm_words::span;

/// Returns how many leaves are below one slot of a tree's top block.
fn leaves_below(tree: Tree) -> u64
    requires least { 1 ≤ height_of tree.root }
    requires most { height_of tree.root ≤ max_height }
    ensures count { result ≡ block_words ^ (height_of tree.root - 1) }
    ensures some { 0 < result }
{
    let level = tree.height() - 1;
    span(level) / BLOCK_SIZE
}

/// Returns the number of the first live leaf from `from` on that is not null and below no null pointer, or `None` if
/// there is none. Follows live pointers only, and skips everything below a null pointer in one step.
pub fn next_leaf<R: Region>(region: &R, tree: Tree, from: u64) -> Option<u64>
    requires { IsSound (words_in R.memory region.now) tree.root tree.size }
    ensures some { IfSome result (IsNextLeaf (words_in R.memory region.now) tree.root tree.size from) }
    ensures none { IfNone result (HasNoLeafFrom (words_in R.memory region.now) tree.root tree.size from) }
{
    if tree.size == 0 {
        return None;
    }
    if tree.block() == 0 {
        return None;
    }
    if tree.height() == 0 {
        if from == 0 {
            return Some(0);
        }
        return None;
    }
    let leaves = leaves_below(tree);
    for slot in from / leaves..live_slots(tree) {
        let before = slot * leaves;
        let rest = from.saturating_sub(before);
        if let Some(leaf) = next_leaf(region, child(region, tree, slot), rest) {
            return Some(before + leaf);
        }
    }
    None
}
