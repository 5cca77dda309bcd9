//! The number of blocks of a tree.

ghost use Rattle.bp_layout.specs.Tree.{IsSound};
ghost use Rattle.pm_region.specs.Memory.{words_in};
ghost use Rattle.bp_read.specs.Counts.{HasBlockCount};

use crate::subtrees::{child, live_slots};
use crate::tree::Tree;
use pm_region::Region;

/// Returns the number of blocks of a tree, which is the number of its present nodes: live ones without a null pointer
/// on the way to them.
pub fn count_live<R: Region>(region: &R, tree: Tree) -> u32
    requires { IsSound (words_in R.memory region.now) tree.root tree.size }
    ensures { HasBlockCount (words_in R.memory region.now) tree.root tree.size result }
{
    let _words = region.words();
    if tree.size == 0 || tree.block() == 0 {
        return 0;
    }
    if tree.height() == 0 {
        return 1;
    }
    let mut count = 1;
    for slot in 0..live_slots(tree) {
        count += count_live(region, child(region, tree, slot));
    }
    count
}
