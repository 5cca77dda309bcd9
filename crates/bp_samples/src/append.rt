//! The blocks that a tree without bytes needs.

use crate::images::laid;
use crate::same::same;
use bp_append::need_prep;
use bp_limits::MAX_SIZE;
use bp_read::Tree;
use pm_region::ListRegion;
use std::test::Fail;

#[test]
#[tactic(auto, using(bp_layout::proofs::SmallTrees::empty_sound))]
fn needs_of_an_empty_tree(rt: HostRuntime) -> Result<(), Fail> {
    let words = laid(rt.alloc(), &[])?;
    let region = ListRegion::new(rt.alloc(), words, 0)?;
    let tree = Tree {
        root: 0xeeee,
        size: 0,
    };
    same(&rt, need_prep(&region, tree, 0, 16_384), 5);
    same(&rt, need_prep(&region, tree, 0, 20_480), 6);
    same(&rt, need_prep(&region, tree, 2_097_151, 2_097_153), 5);
    for (size, nodes) in [(549_755_813_888, 4), (MAX_SIZE, 6)] {
        same(&rt, need_prep(&region, tree, size - 1, size), nodes);
        same(&rt, need_prep(&region, tree, size, size), 0);
    }
    Ok(())
}
