//! The blocks of a tree of two leaves, with a null between them.

use crate::same::same;
use crate::tree::{TREE, sample};
use bp_free::Blocks;
use bp_layout::Check;
use bp_walk::{CheckFault, take_tree};

#[test]
fn takes_the_blocks_of_a_tree(rt: HostRuntime) {
    let region = sample(rt.alloc()).expect(&rt, "there is memory");
    let mut blocks = Blocks::new(rt.alloc(), 8).expect(&rt, "there is memory");
    blocks.fill(1, 8);
    same(&rt, take_tree(&region, 2, TREE, true, &mut blocks), Ok(()));
    same(&rt, blocks.count(), 4);
}

#[test]
fn reports_a_hole_of_a_directory(rt: HostRuntime) {
    let region = sample(rt.alloc()).expect(&rt, "there is memory");
    let mut blocks = Blocks::new(rt.alloc(), 8).expect(&rt, "there is memory");
    blocks.fill(1, 8);
    let fault = CheckFault {
        check: Check::Hole,
        place: 1537,
    };
    same(
        &rt,
        take_tree(&region, 2, TREE, false, &mut blocks),
        Err(fault),
    );
}
