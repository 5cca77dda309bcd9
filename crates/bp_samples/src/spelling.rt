//! Directories of two entries, in one leaf.

ghost use Rattle.std.specs.Prelude.{◌*◌, ◌≤◌, length, IfOk};
ghost use Rattle.bp_layout.specs.Tree.{IsSound, IsFull};
ghost use Rattle.bp_limits.specs.Limits.{block_words, max_blocks};
ghost use Rattle.pm_region.specs.Memory.{current_words};

use crate::images::{Start, laid, leaf};
use crate::same::same;
use bp_limits::MAX_NAME;
use bp_read::Tree;
use bp_read::directory::entry;
use bp_spelling::{NameFault, Spelled, check_names};
use pm_region::ListRegion;
use std::alloc::{AllocError, Global};
use std::test::Fail;

pub(crate) const TREE: Tree = Tree {
    root: 0x3000,
    size: 512,
};

pub(crate) fn sample(alloc: Global, first: Start, second: Start) -> Result<ListRegion, AllocError>
    ensures sound { IfOk result (λ region. IsSound (current_words region) 0x3000 512) }
    ensures full { IfOk result (λ region. IsFull (current_words region) 0x3000 512) }
    ensures most { IfOk result (λ region. length (current_words region) ≤ block_words * max_blocks) }
{
    let words = laid(alloc, &leaf(first, second))?;
    let region = ListRegion::new(alloc, words, 0)?;
    Ok(region)
}

/// Checks the names by a table.
fn checked(
    alloc: Global,
    first: Start,
    second: Start,
) -> Result<Result<(), NameFault>, AllocError> {
    let region = sample(alloc, first, second)?;
    let mut entries = [Spelled::default(); 160];
    Ok(check_names(&region, TREE, &mut entries))
}

/// Checks the names without memory for a table.
fn checked_by_order(
    alloc: Global,
    first: Start,
    second: Start,
) -> Result<Result<(), NameFault>, AllocError> {
    let region = sample(alloc, first, second)?;
    let mut entries = [Spelled::default(); 2];
    Ok(check_names(&region, TREE, &mut entries))
}

/// "ab" and "ac", with any unused bytes; "..." is a name.
#[test]
fn names_that_differ(rt: HostRuntime) -> Result<(), Fail> {
    for (first, second) in [
        ((2, 0x6261), (2, 0x6361)),
        ((2, 0xff_6261), (2, 0xff_6361)),
        ((1, 0x61), (2, 0x61_61)),
        ((3, 0x2e_2e2e), (8, 0x6161_6161_6161_6161)),
    ] {
        let answer = checked(rt.alloc(), first, second)?;
        same(&rt, (first, second, answer), (first, second, Ok(())));
        let answer = checked_by_order(rt.alloc(), first, second)?;
        same(&rt, (first, second, answer), (first, second, Ok(())));
    }
    Ok(())
}

/// "ab" twice, with different unused bytes.
#[test]
fn names_that_are_equal(rt: HostRuntime) -> Result<(), Fail> {
    let answer = checked(rt.alloc(), (2, 0x1234_6261), (2, 0xff00_6261))?;
    assert!(rt; matches!(answer, Err(NameFault::Twice { place: 1568 })));
    let answer = checked_by_order(rt.alloc(), (2, 0x1234_6261), (2, 0xff00_6261))?;
    assert!(rt; matches!(answer, Err(NameFault::Twice { place: 1536 | 1568 })));
    Ok(())
}

/// No byte, 241 bytes, "a/b", "a" and byte 0, ".", ".." and their unused bytes.
#[test]
fn names_of_a_wrong_form(rt: HostRuntime) -> Result<(), Fail> {
    for wrong in [
        (0, 0x61),
        (241, 0x6161_6161_6161_6161),
        (3, 0x62_2f61),
        (2, 0x0061),
        (1, 0x612e),
        (2, 0x61_2e2e),
    ] {
        let answer = checked(rt.alloc(), (1, 0x61), wrong)?;
        let fault = NameFault::Form { place: 1569 };
        same(&rt, (wrong, answer), (wrong, Err(fault)));
    }
    Ok(())
}

#[test]
fn an_entry_is_read(rt: HostRuntime) -> Result<(), Fail> {
    let region = sample(rt.alloc(), (2, 0x6261), (1, 0x7863))?;
    let second = entry(&region, TREE, 1).expect(&rt, "its block is there");
    same(&rt, second.ino(), 3);
    same(&rt, second.name_len(), 1);
    let mut name = [0; MAX_NAME];
    same(&rt, second.read_name(&mut name), b"c".as_slice());
    Ok(())
}
