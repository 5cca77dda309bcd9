//! Remembered names, and walks with hints.

ghost use Rattle.std.specs.Prelude.{◌*◌, ◌≡◌, vec_len};
ghost use Rattle.bp_layout.specs.Hints.{AreRight};
ghost use Rattle.bp_layout.specs.WellFormed.{IsWellFormed};
ghost use Rattle.bp_layout.specs.Words.{Image};
ghost use Rattle.bp_limits.specs.Limits.{block_words, min_blocks};
ghost use Rattle.bp_cache.specs.Names.{known_of};
ghost use Rattle.pm_region.specs.Memory.{current_words};

use crate::images::{DEEP, EMPTY, laid, put};
use crate::same::same;
use bp_cache::Names;
use bp_free::{Blocks, Counts, Inodes};
use bp_layout::{Hints, NoHints};
use bp_path::{FoundEntry, WalkFault, parse, walk, walk_parent_with, walk_with};
use bp_scan::{Pending, scan_whole};
use pm_region::ListRegion;
use std::alloc::Global;
use std::process::Abort;

/// The entry that `/d/f` finds in the image [`DEEP`].
const FILE: FoundEntry = FoundEntry {
    ino: 3,
    dir: 2,
    slot: 0,
};

/// Counts the hints that are asked for, and the names to remember.
#[derive(Drop)]
struct Counting {
    names: Names,
    asked: u32,
    learned: u32,
}

impl Hints for Counting {
    ghost use Rattle.bp_cache.specs.Names.{known_of};

    ghost known = { λ hints. known_of hints.names };

    fn hint(&mut self, dir: u32, name: &[u8]) -> Option<u64> {
        self.asked = self.asked.saturating_add(1);
        self.names.hint(dir, name)
    }

    fn learn(&mut self, dir: u32, name: &[u8], slot: u64) -> bool {
        self.learned = self.learned.saturating_add(1);
        self.names.learn(dir, name, slot)
    }
}

/// Makes the words of a file system of one directory with one file.
fn deep_words(rt: &impl Abort, alloc: Global) -> Vec<u64>
    ensures { vec_len result ≡ min_blocks * block_words }
{
    let mut words = laid(alloc, &EMPTY).expect(rt, "there is memory");
    put(&mut words, &DEEP);
    words
}

/// Makes a file system of one directory with one file.
fn deep(rt: &impl Abort, alloc: Global) -> ListRegion
    ensures { IsWellFormed (current_words result) }
{
    let words = deep_words(rt, alloc);
    let region = ListRegion::new(alloc, words, 0).expect(rt, "there is memory");
    let mut blocks = Blocks::new(alloc, 8).expect(rt, "there is memory");
    let mut inodes = Inodes::new(alloc, 512).expect(rt, "there is memory");
    let mut pending = Pending::new(alloc, 512).expect(rt, "there is memory");
    let mut counts = Counts::new(alloc, 512).expect(rt, "there is memory");
    let mut snapshot_blocks = Blocks::new(alloc, 8).expect(rt, "there is memory");
    let scanned = scan_whole(
        alloc,
        &region,
        &mut blocks,
        &mut inodes,
        &mut snapshot_blocks,
        &mut pending,
        &mut counts,
    );
    scanned.expect(rt, "it is well formed");
    region
}

/// Makes hints that know nothing yet.
fn nothing_known(rt: &impl Abort, alloc: Global) -> Counting
    ensures { (image : Image) → AreRight image (known_of result.names) }
{
    let names = Names::new(alloc, 4).expect(rt, "there is memory");
    Counting {
        names,
        asked: 0,
        learned: 0,
    }
}

#[test]
fn a_second_walk_asks_two_hints_and_learns_nothing(rt: HostRuntime) {
    let region = deep(&rt, rt.alloc());
    let mut hints = nothing_known(&rt, rt.alloc());
    let path = parse(b"/d/f").expect(&rt, "it is a path");
    same(&rt, walk_with(&region, &path, &mut hints), Ok(FILE));
    same(&rt, (hints.asked, hints.learned), (2, 2));
    same(&rt, walk_with(&region, &path, &mut hints), Ok(FILE));
    same(&rt, (hints.asked, hints.learned), (4, 2));
    same(&rt, walk_parent_with(&region, &path, &mut hints), Ok(2));
    same(&rt, (hints.asked, hints.learned), (5, 2));
}

/// A missing name, and a name below a file, for which no hint is asked.
#[test]
fn what_is_not_found_is_not_learned(rt: HostRuntime) {
    let region = deep(&rt, rt.alloc());
    let mut hints = nothing_known(&rt, rt.alloc());
    let path = parse(b"/d/x").expect(&rt, "it is a path");
    let answer = walk_with(&region, &path, &mut hints);
    same(&rt, answer, Err(WalkFault::NotFound));
    same(&rt, (hints.asked, hints.learned), (2, 1));
    let path = parse(b"/d/f/x").expect(&rt, "it is a path");
    let answer = walk_with(&region, &path, &mut hints);
    same(&rt, answer, Err(WalkFault::NotDir));
    same(&rt, (hints.asked, hints.learned), (4, 2));
}

#[test]
fn who_knows_nothing_is_led_by_the_directories(rt: HostRuntime) {
    let region = deep(&rt, rt.alloc());
    let path = parse(b"/d/f").expect(&rt, "it is a path");
    same(&rt, walk(&region, &path), Ok(FILE));
    same(&rt, walk_with(&region, &path, &mut NoHints), Ok(FILE));
}

/// Checks the remembered slots of names, each in a directory.
fn remembers(rt: &impl Abort, names: &mut Names, wanted: &[(u32, &[u8], Option<u64>)]) {
    for (dir, name, slot) in wanted {
        same(rt, (*dir, names.hint(*dir, *name)), (*dir, *slot));
    }
}

#[test]
fn the_oldest_name_goes(rt: HostRuntime) {
    let mut names = Names::new(rt.alloc(), 2).expect(&rt, "there is memory");
    for (name, slot) in [(b"a", 0), (b"b", 1), (b"c", 2)] {
        assert!(rt; names.learn(1, name, slot));
    }
    let wanted: [(u32, &[u8], Option<u64>); 4] = [
        (1, b"a", None),
        (1, b"b", Some(1)),
        (1, b"c", Some(2)),
        (2, b"c", None),
    ];
    remembers(&rt, &mut names, &wanted);
}

#[test]
fn names_are_forgotten(rt: HostRuntime) {
    let mut names = Names::new(rt.alloc(), 2).expect(&rt, "there is memory");
    for (name, slot) in [(b"b", 1), (b"c", 2)] {
        assert!(rt; names.learn(1, name, slot));
    }
    names.forget(1, b"b");
    remembers(&rt, &mut names, &[(1, b"b", None), (1, b"c", Some(2))]);
    names.forget_all();
    remembers(&rt, &mut names, &[(1, b"c", None)]);
}
