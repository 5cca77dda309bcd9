//! Sets of free numbers and counts of links: each call once, the numbers at the ends of words, and the place of a
//! copy.

ghost use Rattle.std.specs.Prelude.{◌≡◌, ◌+◌, ◌<◌, ◌≤◌, length};
ghost use Rattle.bp_limits.specs.Limits.{max_file_blocks};

use crate::same::same;
use bp_free::{Blocks, Counts, Inodes, Steps};
use bp_limits::MAX_FILE_BLOCKS;
use std::marker::Brand;
use std::sync::ledger::{Blank, Ledger};
use std::test::Fail;

#[test]
fn blocks_are_given_and_taken(rt: HostRuntime) -> Result<(), Fail> {
    let mut blocks = Blocks::new(rt.alloc(), 200)?;
    assert!(rt; blocks.room() == 200);
    same(&rt, blocks.count(), 0);
    same(&rt, blocks.take(), None);
    for block in [63, 199, 64, 1, 128] {
        if block < blocks.room() && !blocks.is_free(block) {
            blocks.give(block);
        }
    }
    same(&rt, blocks.count(), 5);
    if 64 < blocks.room() && blocks.is_free(64) {
        blocks.claim(64);
    }
    for wanted in [Some(1), Some(63), Some(128), Some(199), None] {
        same(&rt, blocks.take(), wanted);
    }
    Ok(())
}

#[test]
fn inodes_are_filled_and_cleared(rt: HostRuntime) -> Result<(), Fail> {
    let mut inodes = Inodes::new(rt.alloc(), 130)?;
    inodes.fill(2, 130);
    same(&rt, inodes.count(), 128);
    assert!(rt; !inodes.is_free(1));
    assert!(rt; inodes.is_free(129));
    same(&rt, inodes.take(), Some(2));
    inodes.clear();
    same(&rt, inodes.count(), 0);
    same(&rt, inodes.room(), 130);
    Ok(())
}

#[test]
fn names_are_counted(rt: HostRuntime) -> Result<(), Fail> {
    let mut counts = Counts::new(rt.alloc(), 64)?;
    counts.set(2, 3);
    same(&rt, [counts.names(1), counts.names(2)], [0, 3]);
    same(&rt, counts.names(63), 0);
    Ok(())
}

/// Takes a block: a search of 65,536 numbers has at most seventeen steps.
fn take_in_seventeen<L: Ledger>(blocks: &mut Blocks, steps: &mut Steps<L>) -> Option<u32>
    requires { length blocks.old ≡ max_file_blocks }
    ensures { steps.new ≤ steps.old + 17 }
{
    blocks.take_counted(steps)
}

fn take_counting<L: Ledger>(blocks: &mut Blocks, blank: Blank) -> Option<u32>
    requires name { blank.name ≡ L.name }
    requires parts { blank.parts ≡ L.parts }
    requires some { 0 < L.parts }
    requires room { length blocks.old ≡ max_file_blocks }
{
    let mut steps = Steps::<L>::new(blank);
    take_in_seventeen(blocks, &mut steps)
}

#[test]
fn blocks_are_found_in_seventeen_steps(rt: HostRuntime) -> Result<(), Fail> {
    let mut blocks = Blocks::new(rt.alloc(), MAX_FILE_BLOCKS)?;
    assert!(rt; blocks.room() == MAX_FILE_BLOCKS);
    let none = take_counting::<Brand>(&mut blocks, Blank::new(1));
    same(&rt, none, None);
    assert!(rt; blocks.room() == MAX_FILE_BLOCKS);
    blocks.fill(MAX_FILE_BLOCKS as usize - 1, MAX_FILE_BLOCKS as usize);
    assert!(rt; blocks.room() == MAX_FILE_BLOCKS);
    let last = take_counting::<Brand>(&mut blocks, Blank::new(1));
    same(&rt, last, Some(65_535));
    assert!(rt; blocks.room() == MAX_FILE_BLOCKS);
    blocks.fill(0, MAX_FILE_BLOCKS as usize);
    assert!(rt; blocks.room() == MAX_FILE_BLOCKS);
    let first = take_counting::<Brand>(&mut blocks, Blank::new(1));
    same(&rt, first, Some(0));
    same(&rt, blocks.count(), 65_535);
    Ok(())
}

/// Takes a block in place of another one, if one is free.
fn take_in_place_of(blocks: &mut Blocks, block: u64) -> Option<u32> {
    if blocks.count() == 0 {
        return None;
    }
    Some(blocks.take_in_place_of(block))
}

/// Frees a block that is not free.
fn give_back(blocks: &mut Blocks, block: u32) {
    if block < blocks.room() && !blocks.is_free(block) {
        blocks.give(block);
    }
}

#[test]
fn a_block_is_taken_where_an_older_version_stands(rt: HostRuntime) -> Result<(), Fail> {
    let mut blocks = Blocks::with_hints(rt.alloc(), 200)?;
    assert!(rt; blocks.room() == 200);
    blocks.fill(10, 200);
    same(&rt, take_in_place_of(&mut blocks, 5), Some(10));
    give_back(&mut blocks, 5);
    // The copy of the copy is freed, and a block of which nothing is known does not take its place.
    same(&rt, take_in_place_of(&mut blocks, 7), Some(11));
    same(&rt, take_in_place_of(&mut blocks, 10), Some(5));
    give_back(&mut blocks, 10);
    same(&rt, take_in_place_of(&mut blocks, 5), Some(10));
    // If the older version was overwritten, another one is taken.
    same(&rt, take_in_place_of(&mut blocks, 10), Some(12));
    Ok(())
}

#[test]
fn blocks_without_a_hint_begin_again(rt: HostRuntime) -> Result<(), Fail> {
    let mut blocks = Blocks::new(rt.alloc(), 200)?;
    assert!(rt; blocks.room() == 200);
    blocks.fill(2, 200);
    // Two blocks are in use, so the search begins again after 2 * 2 + 64.
    for wanted in 2..69 {
        same(&rt, take_in_place_of(&mut blocks, u64::MAX), Some(wanted));
        give_back(&mut blocks, wanted);
    }
    same(&rt, take_in_place_of(&mut blocks, u64::MAX), Some(2));
    Ok(())
}
