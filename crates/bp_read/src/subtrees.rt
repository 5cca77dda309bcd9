//! The subtrees in the slots of a tree's top block.

ghost use Rattle.std.specs.Prelude.{◌≡◌, ◌≢◌, ℕ, ◌+◌, ◌-◌, ◌*◌, ◌/◌, ◌<◌, ◌≤◌};
ghost use Rattle.bp_layout.specs.Words.{block_of, height_of};
ghost use Rattle.bp_layout.specs.Tree.{span, IsSound};
ghost use Rattle.bp_layout.specs.Pieces.{piece, child};
ghost use Rattle.bp_limits.specs.Limits.{max_height};
ghost use Rattle.pm_region.specs.Memory.{words_in};

use crate::tree::{Tree, load_slot};
use pm_region::Region;
use pm_words::span;

/// Returns how many slots of a tree's top block are live; they are the first ones.
pub(crate) fn live_slots(tree: Tree) -> u64
    requires some { 0 < tree.size }
    requires least { 1 ≤ height_of tree.root }
    requires most { height_of tree.root ≤ max_height }
    ensures live { (slot : ℕ) → slot < result → slot * span (height_of tree.root - 1) < tree.size }
    ensures all { (slot : ℕ) → slot * span (height_of tree.root - 1) < tree.size → slot < result }
{
    let level = tree.height() - 1;
    (tree.size - 1) / span(level) + 1
}

/// Returns the subtree in a live slot of a tree's top block, one level lower.
pub fn child<R: Region>(region: &R, tree: Tree, slot: u64) -> Tree
    requires sound { IsSound (words_in R.memory region.now) tree.root tree.size }
    requires least { 1 ≤ height_of tree.root }
    requires present { block_of tree.root ≢ 0 }
    requires live { slot * span (height_of tree.root - 1) < tree.size }
    ensures root { let words = words_in R.memory region.now in
        result.root ≡ child words (block_of tree.root) (height_of tree.root - 1) slot }
    ensures size { result.size ≡ piece tree.size (height_of tree.root - 1) slot }
    ensures sound { IsSound (words_in R.memory region.now) result.root result.size }
    ensures lower { height_of result.root + 1 ≡ height_of tree.root }
{
    let level = tree.height() - 1;
    let word = load_slot(region, tree.block(), slot);
    let before = slot * span(level);
    Tree {
        root: word + level as u64,
        size: (tree.size - before).min(span(level)),
    }
}
