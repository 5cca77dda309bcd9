//! The first null leaf of a tree.

ghost use Rattle.std.specs.Prelude.{IfSome, IfNone};
ghost use Rattle.bp_layout.specs.Tree.{IsSound};
ghost use Rattle.pm_region.specs.Memory.{words_in};
ghost use Rattle.bp_read.specs.Nulls.{HasNoNullLeaf, IsFirstNullLeaf};

use crate::subtrees::{child, live_slots};
use crate::tree::Tree;
use bp_limits::BLOCK_SIZE;
use pm_region::Region;
use pm_words::span;

/// Returns the number of the first live leaf that is null, or `None` if there is none. Each leaf below a null pointer
/// is null too. Follows live pointers only, and stops at the first null pointer.
pub fn first_null<R: Region>(region: &R, tree: Tree) -> Option<u64>
    requires { IsSound (words_in R.memory region.now) tree.root tree.size }
    ensures some { IfSome result (IsFirstNullLeaf (words_in R.memory region.now) tree.root tree.size) }
    ensures none { IfNone result (HasNoNullLeaf (words_in R.memory region.now) tree.root tree.size) }
{
    if tree.size == 0 {
        return None;
    }
    if tree.block() == 0 {
        return Some(0);
    }
    if tree.height() == 0 {
        return None;
    }
    for slot in 0..live_slots(tree) {
        if let Some(leaf) = first_null(region, child(region, tree, slot)) {
            let level = tree.height() - 1;
            return Some(slot * (span(level) / BLOCK_SIZE) + leaf);
        }
    }
    None
}
