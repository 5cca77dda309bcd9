//! The pointers of a tree, from the root word down.

ghost use Rattle.std.specs.Prelude.{◌≡◌, ◌≢◌, ℕ, suc, ◌+◌, ◌*◌, ◌<◌, ◌≤◌, true, false, length, slice_index, OnOk, IfOk, IfErr};
ghost use Rattle.bp_free.specs.Set.{has};
ghost use Rattle.bp_layout.specs.Words.{word, block_count, height_of};
ghost use Rattle.bp_limits.specs.Limits.{block_words, max_blocks, max_height};
ghost use Rattle.bp_layout.specs.Tree.{node, covered, IsLivePointer};
ghost use Rattle.bp_layout.specs.Checks.{IsFollowed, Passes};
ghost use Rattle.bp_layout.specs.declared.check.Check.TheVariants.{Height, PointerBits};
ghost use Rattle.pm_region.specs.Memory.{words_in};
ghost use Rattle.bp_walk.specs.Pointed.{ClaimsPointed, RefusesPointed};
ghost use Rattle.bp_walk.specs.Walk.{WalksBelow, FailsBelow, TakesTree, FailsTree};

use bp_free::Blocks;
use bp_layout::{Check, RootWord};
use bp_limits::BLOCK_WORDS;
use bp_read::{Tree, version};
use pm_region::Region;

/// The number of pointers that are looked at together if there may be null pointers: a cache line of the processor.
const LINE: usize = 8;

/// A check of the format that fails, and the place where it does.
#[derive(Clone, Copy, Debug, PartialEq, Eq)]
pub struct CheckFault {
    /// The check that fails. In a tree it is `Height`, `PointerBits`, `Range`, `BlockTwice`, `Hole` or `Capacity`.
    pub check: Check,
    /// The number of the word of the region at which the check fails.
    pub place: u64,
}

/// Returns the number of bytes below a pointer that is `level` levels above the content words.
fn covered_bytes(level: u32) -> u64
    requires least { 1 ≤ level }
    requires most { level ≤ suc max_height }
    ensures { result ≡ covered level }
{
    pm_words::span(level - 1)
}

/// Takes the block to which a pointer points out of the set, and returns its number: 0 if the pointer is null and may
/// be.
fn claim_pointed(
    block: u64,
    place: u64,
    holes: bool,
    blocks: &mut Blocks,
) -> Result<u32, CheckFault>
    requires some { 0 < length blocks.old }
    ensures named { IfOk result (λ number. number ≡ block) }
    ensures ok { IfOk result (λ number. ClaimsPointed number holes blocks.old blocks.new) }
    ensures err { IfErr result (λ f. RefusesPointed block holes blocks.old f.check) }
    ensures place { IfErr result (λ f. f.place ≡ place) }
    ensures room { length blocks.new ≡ length blocks.old }
{
    if block >= blocks.room() as u64 {
        return Err(CheckFault {
            check: Check::Range,
            place,
        });
    }
    let block = block as u32;
    if block == 0 {
        return if holes {
            Ok(0)
        } else {
            Err(CheckFault {
                check: Check::Hole,
                place,
            })
        };
    }
    if !blocks.is_free(block) {
        return Err(CheckFault {
            check: Check::BlockTwice,
            place,
        });
    }
    blocks.claim(block);
    Ok(block)
}

/// A pointer of a tree, and the block to which it points.
#[derive(Clone, Copy)]
struct Pointer {
    /// Its depth below the root word.
    depth: u32,
    /// The level of its block above the leaves.
    level: u32,
    /// Its index among the pointers at its depth.
    index: u64,
    /// The number of the block; 0 if the pointer is null.
    block: u32,
}

/// Returns the number of live pointers of a node's block: those of its first slots.
fn live_slots(size: u64, top: Pointer) -> u32
    requires least { 1 ≤ top.level }
    requires most { top.level ≤ max_height }
    requires live { top.index * covered (suc top.level) < size }
    ensures most { result ≤ block_words }
    ensures live { (slot : ℕ) → slot < result → (block_words * top.index + slot) * covered top.level < size }
    ensures all { (slot : ℕ) → slot < block_words → (block_words * top.index + slot) * covered top.level < size
        → slot < result }
{
    let rest = size - top.index * covered_bytes(top.level + 1);
    ((rest - 1) / covered_bytes(top.level) + 1).min(BLOCK_WORDS) as u32
}

/// Returns whether all of these pointers are null. It looks at each, which takes less time than to stop at the first
/// that is not.
fn are_null(pointers: &[u64]) -> bool
    ensures { result ≡ true → (i : ℕ) → i < length pointers.now → slice_index pointers.now i ≡ 0 }
{
    let mut bits = 0;
    for pointer in pointers {
        bits |= *pointer;
    }
    bits == 0
}

/// Returns a slot after one whose pointer is null, with only null pointers between them. Its own pointer may be null
/// too.
fn past_nulls(pointers: &[u64], slot: u32) -> u32
    requires low { slot < length pointers.now }
    requires few { length pointers.now ≤ block_words }
    ensures further { slot < result }
    ensures most { result ≤ length pointers.now }
    ensures nulls { (i : ℕ) → slot < i → i < result → slice_index pointers.now i ≡ 0 }
{
    let mut next = slot as usize + 1;
    while next + LINE <= pointers.len() && are_null(&pointers[next..next + LINE]) {
        next += LINE;
    }
    next as u32
}

/// Takes out the blocks below a node above the leaves, whose own block is already taken out of the set.
fn take_below<R: Region>(
    region: &R,
    tree: Tree,
    holes: bool,
    top: Pointer,
    blocks: &mut Blocks,
) -> Result<(), CheckFault>
    requires whole { let words = words_in R.memory region.now in length words ≡ block_words * block_count words }
    requires most { block_count (words_in R.memory region.now) ≤ max_blocks }
    requires room { length blocks.old ≡ block_count (words_in R.memory region.now) }
    requires not_first { has blocks.old 0 ≡ false }
    requires height { top.depth + top.level ≡ height_of tree.root }
    requires low { height_of tree.root ≤ max_height }
    requires fits { tree.size ≤ covered (suc (height_of tree.root)) }
    requires above { 1 ≤ top.level }
    requires live { IsLivePointer tree.root tree.size top.depth top.index }
    requires followed { IsFollowed (words_in R.memory region.now) tree.root tree.size top.depth top.index }
    requires passes { Passes (words_in R.memory region.now) tree.root top.depth top.index }
    requires block { node (words_in R.memory region.now) tree.root top.depth top.index ≡ top.block }
    requires present { top.block ≢ 0 }
    requires taken { has blocks.old top.block ≡ false }
    ensures ok { OnOk result (WalksBelow (words_in R.memory region.now)
        0 tree.root tree.size holes top.depth top.index block_words blocks.old blocks.new) }
    ensures err { IfErr result (λ f. FailsBelow (words_in R.memory region.now)
        0 tree.root tree.size holes top.block blocks.old f.check f.place) }
    ensures room { length blocks.new ≡ length blocks.old }
{
    let first = BLOCK_WORDS * top.block as u64;
    let live = live_slots(tree.size, top);
    let pointers = region.load_words(first, live as usize);
    let mut slot = 0;
    while slot < live {
        let place = first + slot as u64;
        let pointer = pointers[slot as usize];
        // If there may be null pointers, there may be very many.
        if pointer == 0 && holes {
            slot = past_nulls(pointers, slot);
            continue;
        }
        let Ok(named) = bp_layout::pointer(pointer) else {
            return Err(CheckFault {
                check: Check::PointerBits,
                place,
            });
        };
        let block = claim_pointed(named, place, holes, blocks)?;
        let index = BLOCK_WORDS * top.index + slot as u64;
        slot += 1;
        if top.level == 1 {
            continue;
        }
        let child = Pointer {
            depth: top.depth + 1,
            level: top.level - 1,
            index,
            block,
        };
        take_below(region, tree, holes, child, blocks)?;
    }
    Ok(())
}

/// Returns the check that fails at a malformed root word of a tree: that of the height if it is above `top`, else that
/// of the bits.
fn root_fault(tree: Tree, top: u32, place: u64) -> CheckFault
    ensures high { top < height_of tree.root → result.check ≡ Height }
    ensures low { height_of tree.root ≤ top → result.check ≡ PointerBits }
    ensures place { result.place ≡ place }
{
    let check = if tree.height() > top {
        Check::Height
    } else {
        Check::PointerBits
    };
    CheckFault { check, place }
}

/// Takes the blocks of a tree out of the set of blocks that no tree has yet. `at` is the number of the word of the
/// region that is the root word; the word of the size follows it. If `holes` is false, no pointer may be null, as in a
/// directory and in the inode file. A pointer is live if a byte that it covers is below the size.
///
/// # Errors
///
/// - `CheckFault`: a check fails in the tree. It is returned in exactly this case. Some blocks are then taken out of
///   the set, and its contents are not defined.
pub fn take_tree<R: Region>(
    region: &R,
    at: u64,
    tree: Tree,
    holes: bool,
    blocks: &mut Blocks,
) -> Result<(), CheckFault>
    requires whole { let words = words_in R.memory region.now in length words ≡ block_words * block_count words }
    requires most { block_count (words_in R.memory region.now) ≤ max_blocks }
    requires room { length blocks.old ≡ block_count (words_in R.memory region.now) }
    requires not_first { has blocks.old 0 ≡ false }
    requires place { at + 1 < length (words_in R.memory region.now) }
    requires root { word (words_in R.memory region.now) at ≡ tree.root }
    ensures ok { let words = words_in R.memory region.now in
        OnOk result (TakesTree words at tree.root tree.size holes blocks.old blocks.new) }
    ensures err { let words = words_in R.memory region.now in
        IfErr result (λ f. FailsTree words at tree.root tree.size holes blocks.old f.check f.place) }
    ensures room { length blocks.new ≡ length blocks.old }
{
    if tree.size == 0 {
        return Ok(());
    }
    let version = version(region);
    let top = version.greatest_height();
    let Ok(root) = RootWord::read(tree.root, top) else {
        return Err(root_fault(tree, top, at));
    };
    if tree.size > covered_bytes(root.height + 1) {
        return Err(CheckFault {
            check: Check::Capacity,
            place: at + 1,
        });
    }
    let block = claim_pointed(root.block, at, holes, blocks)?;
    if root.height == 0 || block == 0 {
        return Ok(());
    }
    let top = Pointer {
        depth: 0,
        level: root.height,
        index: 0,
        block,
    };
    take_below(region, tree, holes, top, blocks)
}
