//! Release of the blocks of a tree past a smaller size.

ghost use Rattle.std.specs.Prelude.{◌≡◌, ℕ, ◌-◌, ◌*◌, ◌<◌, false, length};
ghost use Rattle.bp_calls.specs.Truncated.{IsTopTruncated};
ghost use Rattle.bp_calls.specs.GivenBack.{GivesBack};
ghost use Rattle.bp_free.specs.Set.{has};
ghost use Rattle.bp_layout.specs.Tree.{HasBlock, IsSound, span};
ghost use Rattle.bp_layout.specs.Words.{block_count};
ghost use Rattle.bp_changes.specs.Freed.{IsTruncated};
ghost use Rattle.pm_region.specs.Memory.{words_in};

use bp_free::Blocks;
use bp_read::{Tree, child};
use pm_region::Region;
use pm_words::span;

/// Frees the topmost block of a tree, if nothing is left of the tree and the block is not in the snapshot.
fn give_top(blocks: &mut Blocks, snapshot_blocks: &Blocks, top: u32, shorter: u64)
    requires in_range { top < length blocks.old }
    requires known { top < length snapshot_blocks.now }
    requires taken { has blocks.old top ≡ false }
    ensures { GivesBack (has snapshot_blocks.now) (IsTopTruncated top shorter) blocks.old blocks.new }
{
    if shorter == 0 && !snapshot_blocks.is_free(top) {
        blocks.give(top);
    }
}

/// Frees the blocks of a tree that hold no byte below `shorter`, a size in bytes; all of them if that is 0. Blocks of
/// the snapshot are not freed. The size of `tree` is its old one, and the words of its blocks are still the old ones.
pub fn free_tree<R: Region>(
    region: &R,
    tree: Tree,
    shorter: u64,
    blocks: &mut Blocks,
    snapshot_blocks: &Blocks,
)
    requires sound { IsSound (words_in R.memory region.now) tree.root tree.size }
    requires room { length blocks.old ≡ block_count (words_in R.memory region.now) }
    requires known { length snapshot_blocks.now ≡ block_count (words_in R.memory region.now) }
    requires taken { (b : ℕ) → HasBlock (words_in R.memory region.now) tree.root tree.size b →
        has blocks.old b ≡ false }
    ensures { GivesBack (has snapshot_blocks.now)
        (IsTruncated (words_in R.memory region.now) tree.root tree.size shorter) blocks.old blocks.new }
{
    let _words = region.words();
    if tree.size <= shorter {
        return;
    }
    let top = tree.block() as u32;
    if top == 0 {
        return;
    }
    give_top(blocks, snapshot_blocks, top, shorter);
    let height = tree.height();
    if height == 0 {
        return;
    }
    let step = span(height - 1);
    for slot in shorter / step..(tree.size - 1) / step + 1 {
        let below = child(region, tree, slot);
        let left = shorter.saturating_sub(slot * step);
        free_tree(region, below, left, blocks, snapshot_blocks);
    }
}
