//! The calls by path over a file system without a name.

ghost use Rattle.std.specs.Prelude.{IfOk};
ghost use Rattle.bp_layout.specs.WellFormed.{IsWellFormed};
ghost use Rattle.pm_region.specs.Memory.{current_words};

use crate::images::{EMPTY, laid};
use crate::same::same;
use bp_layout::{Inode, Kind};
use bp_path::{FoundEntry, WalkFault, parse, walk, walk_parent};
use bp_read::directory::{count, find, free_slot, is_empty};
use bp_read::inodes::{get, inode_file, place};
use bp_read::{Tree, content_place, content_word, leaf_block, node};
use pm_region::ListRegion;
use std::alloc::{AllocError, Global};
use std::test::Fail;

fn fresh(alloc: Global) -> Result<ListRegion, AllocError>
    ensures { IfOk result (λ region. IsWellFormed (current_words region)) }
{
    let words = laid(alloc, &EMPTY)?;
    let region = ListRegion::new(alloc, words, 0)?;
    Ok(region)
}

#[test]
fn leads_to_the_root(rt: HostRuntime) {
    let region = fresh(rt.alloc()).expect(&rt, "there is memory");
    let path = parse(b"/").expect(&rt, "it is a path");
    assert!(rt; path.is_root());
    let root = FoundEntry {
        ino: 1,
        dir: 0,
        slot: 0,
    };
    same(&rt, walk(&region, &path), Ok(root));
}

#[test]
fn finds_no_name(rt: HostRuntime) {
    let region = fresh(rt.alloc()).expect(&rt, "there is memory");
    let path = parse(b"/a/b.txt").expect(&rt, "it is a path");
    assert!(rt; !path.is_root());
    same(&rt, walk(&region, &path), Err(WalkFault::NotFound));
    same(&rt, walk_parent(&region, &path), Err(WalkFault::NotFound));
    let path = parse(b"/a").expect(&rt, "it is a path");
    same(&rt, walk_parent(&region, &path), Ok(1));
    same(&rt, path.last(), b"a".as_slice());
}

#[test]
fn refuses_what_is_no_path(rt: HostRuntime) {
    assert!(rt; parse(b"").is_err());
    assert!(rt; parse(b"a").is_err());
    assert!(rt; parse(b"//").is_err());
    assert!(rt; parse(b"/a/").is_err());
    assert!(rt; parse(b"/a/../b").is_err());
    assert!(rt; parse(b"/a\0").is_err());
    assert!(rt; parse(b"/...").is_ok());
}

/// The root directory, which has no entry, and inode 1 in the inode file.
#[test]
fn reads_an_empty_directory(rt: HostRuntime) -> Result<(), Fail> {
    let region = fresh(rt.alloc())?;
    let inode = get(&region, 1);
    let root = Inode {
        kind: Kind::Dir,
        root: 0,
        size: 0,
    };
    same(&rt, inode, root);
    let tree = Tree {
        root: inode.root,
        size: inode.size,
    };
    same(&rt, find(&region, tree, b"a"), None);
    same(&rt, free_slot(&region, tree), None);
    same(&rt, count(&region, tree), 0);
    assert!(rt; is_empty(&region, tree));
    Ok(())
}

#[test]
fn reads_the_inode_file(rt: HostRuntime) -> Result<(), Fail> {
    let region = fresh(rt.alloc())?;
    let inodes = inode_file(&region);
    same(&rt, place(&region, 1, 2), 522);
    same(&rt, content_word(&region, inodes, 8), 2);
    same(&rt, content_place(&region, inodes, 8), 520);
    same(&rt, leaf_block(&region, inodes, 0), 1);
    same(&rt, node(&region, inodes, 0, 0), 1);
    Ok(())
}
