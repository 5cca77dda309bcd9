//! A tree of two leaves, with a null between them.

ghost use Rattle.std.specs.Prelude.{◌*◌, ◌≡◌, IfOk, length, slice_index};
ghost use Rattle.bp_limits.specs.Limits.{block_words, min_blocks};
ghost use Rattle.bp_layout.specs.Tree.{IsSound};
ghost use Rattle.pm_region.specs.Memory.{current_words};

use crate::images::{TWO_LEAVES, laid};
use crate::same::same;
use bp_read::{Tree, address, count_live, first_null, node, read, word_path};
use pm_region::ListRegion;
use std::alloc::{AllocError, Global};
use std::test::Fail;

pub(crate) const TREE: Tree = Tree {
    root: 0x3001,
    size: 8200,
};

pub(crate) fn sample(alloc: Global) -> Result<ListRegion, AllocError>
    ensures sound { IfOk result (λ region. IsSound (current_words region) 0x3001 8200) }
    ensures whole { IfOk result (λ region. length (current_words region) ≡ min_blocks * block_words) }
    ensures root { IfOk result (λ region. slice_index (current_words region) 2 ≡ 0x3001) }
    ensures third { IfOk result (λ region. slice_index (current_words region) 1538 ≡ 0x5000) }
{
    let words = laid(alloc, &TWO_LEAVES)?;
    let region = ListRegion::new(alloc, words, 0)?;
    Ok(region)
}

#[test]
fn reads_its_nodes(rt: HostRuntime) -> Result<(), Fail> {
    let region = sample(rt.alloc())?;
    same(&rt, node(&region, TREE, 0, 1), 0);
    same(&rt, node(&region, TREE, 0, 2), 5);
    same(&rt, count_live(&region, TREE), 3);
    same(&rt, first_null(&region, TREE), Some(1));
    Ok(())
}

#[test]
fn reads_its_bytes(rt: HostRuntime) -> Result<(), Fail> {
    let region = sample(rt.alloc())?;
    for (offset, room, count, want) in [
        (0, 2, 2, [0x11, 0, 0xee, 0xee]),
        (8190, 4, 4, [0, 0, 0, 0x22]),
        (8198, 4, 2, [0, 0, 0xee, 0xee]),
        (8200, 4, 0, [0xee, 0xee, 0xee, 0xee]),
    ] {
        let mut into = [0xee; 4];
        let found = read(&region, TREE, offset, &mut into[..room]);
        same(&rt, (offset, found, into), (offset, count, want));
    }
    Ok(())
}

#[test]
fn goes_by_paths(rt: HostRuntime) -> Result<(), Fail> {
    let region = sample(rt.alloc())?;
    let path = word_path(TREE, 8193);
    same(&rt, path.as_slice(), [2, 0].as_slice());
    same(&rt, address(&region, &path), 2560);
    Ok(())
}
