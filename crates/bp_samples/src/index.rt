//! The index of a directory of two entries, in one leaf.

use crate::same::same;
use crate::spelling::{TREE, sample};
use bp_cache::Index;
use bp_read::{Found, Spot};
use std::test::Fail;

/// "ab" and "c" are found in their slots; "a" is not, and no slot is empty.
#[test]
fn names_are_found_by_an_index(rt: HostRuntime) -> Result<(), Fail> {
    let region = sample(rt.alloc(), (2, 0x6261), (1, 0x7863))?;
    let made = Index::of(rt.alloc(), &region, TREE);
    let mut index = made.expect(&rt, "there is memory");
    let first = Found { slot: 0, ino: 2 };
    same(&rt, index.find_entry(&region, TREE, b"ab"), Some(first));
    same(&rt, index.find_entry(&region, TREE, b"a"), None);
    same(&rt, index.find_or_free(&region, TREE, b"c"), Spot::Named(1));
    same(
        &rt,
        index.find_or_free(&region, TREE, b"d"),
        Spot::Free(None),
    );
    Ok(())
}

/// A name gets a slot, and another one after it left the slot; there is no room for slot 5,000.
#[test]
fn names_come_and_leave(rt: HostRuntime) -> Result<(), Fail> {
    let region = sample(rt.alloc(), (2, 0x6261), (1, 0x7863))?;
    let made = Index::of(rt.alloc(), &region, TREE);
    let mut index = made.expect(&rt, "there is memory");
    assert!(rt; index.enter(b"d", 2));
    index.leave(b"d", 2);
    assert!(rt; index.enter(b"d", 3));
    assert!(rt; !index.enter(b"e", 5000));
    Ok(())
}
