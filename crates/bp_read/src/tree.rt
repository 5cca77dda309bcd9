//! A tree, and its blocks and content words by their numbers.

ghost use Rattle.std.specs.Prelude.{◌≡◌, ◌≢◌, ◌+◌, ◌-◌, ◌*◌, ◌/◌, ◌%◌, ◌<◌, ◌≤◌, suc, length};
ghost use Rattle.bp_layout.specs.Words.{block_count, block_of, height_of, slot_word};
ghost use Rattle.bp_layout.specs.Tree.{node, content_word, covered, IsSound};
ghost use Rattle.bp_limits.specs.Limits.{block_size, block_words};
ghost use Rattle.bp_read.specs.Leaves.{content_place};
ghost use Rattle.pm_region.specs.Memory.{words_in};

use crate::descent::descend;
use bp_layout::Inode;
use bp_limits::BLOCK_WORDS;
use pm_region::{HEAD_WORDS, Region};

/// Content words of a leaf.
const LEAF_WORDS: u64 = BLOCK_WORDS;

/// A tree: its root word, which has the height and the top block, and its size in bytes.
#[derive(Clone, Copy, Debug, PartialEq, Eq)]
pub struct Tree {
    /// Root word: bits 0 to 2 are the height, bits 12 to 63 the number of the top block ([`Tree::height`],
    /// [`Tree::block`]).
    pub root: u64,
    /// Size of the content in bytes.
    pub size: u64,
}

impl Tree {
    /// Returns the tree of an inode.
    pub fn of(inode: &Inode) -> Tree
        ensures root { result.root ≡ inode.now.root }
        ensures size { result.size ≡ inode.now.size }
    {
        Tree {
            root: inode.root,
            size: inode.size,
        }
    }

    /// Returns the level of the top block above the leaves.
    pub fn height(self) -> u32
        ensures { result ≡ height_of self.root }
    {
        (self.root & 7) as u32
    }

    /// Returns the number of the top block, 0 if there is none.
    pub fn block(self) -> u64
        ensures { result ≡ block_of self.root }
    {
        pm_words::block_of(self.root)
    }
}

/// Returns the word in a slot of a block, and 0 for block 0, which represents no block.
pub fn load_slot<R: Region>(region: &R, block: u64, slot: u64) -> u64
    requires block { block < block_count (words_in R.memory region.now) }
    requires slot { slot < block_words }
    ensures { result ≡ slot_word (words_in R.memory region.now) block slot }
{
    // A region has fewer than 2^41 words, so the place of a word fits.
    let _words = region.words();
    if block == 0 {
        0
    } else {
        region.load_past_head(LEAF_WORDS * block + slot)
    }
}

/// Returns block number `index` among those `level` levels above the leaves, 0 if it is null.
pub fn node<R: Region>(region: &R, tree: Tree, level: u32, index: u64) -> u32
    requires sound { IsSound (words_in R.memory region.now) tree.root tree.size }
    requires level { level ≤ height_of tree.root }
    requires live { index * covered (suc level) < tree.size }
    ensures node { result ≡ node (words_in R.memory region.now) tree.root (height_of tree.root - level) index }
    ensures in_range { result < block_count (words_in R.memory region.now) }
{
    let _words = region.words();
    let depth = tree.height() - level;
    pm_words::block_of(descend(region, tree, depth, index)) as u32
}

/// Returns the block with the content words `512 * leaf` to `512 * leaf + 511`, 0 if it is null.
pub fn leaf_block<R: Region>(region: &R, tree: Tree, leaf: u64) -> u64
    requires sound { IsSound (words_in R.memory region.now) tree.root tree.size }
    requires live { block_size * leaf < tree.size }
    ensures node { result ≡ node (words_in R.memory region.now) tree.root (height_of tree.root) leaf }
    ensures in_range { result < block_count (words_in R.memory region.now) }
{
    pm_words::block_of(descend(region, tree, tree.height(), leaf))
}

/// Returns content word number `index`: bytes `8 * index` to `8 * index + 7`, the lowest first.
pub fn content_word<R: Region>(region: &R, tree: Tree, index: u64) -> u64
    requires sound { IsSound (words_in R.memory region.now) tree.root tree.size }
    requires live { 8 * index < tree.size }
    ensures { result ≡ content_word (words_in R.memory region.now) tree.root index }
{
    descend(region, tree, tree.height() + 1, index)
}

/// Returns the place in the region of content word number `index`.
pub fn content_place<R: Region>(region: &R, tree: Tree, index: u64) -> u64
    requires sound { IsSound (words_in R.memory region.now) tree.root tree.size }
    requires live { 8 * index < tree.size }
    requires present { let words = words_in R.memory region.now in
        node words tree.root (height_of tree.root) (index / block_words) ≢ 0 }
    ensures place { result ≡ content_place (words_in R.memory region.now) tree.root index }
    ensures after_head { HEAD_WORDS ≤ result }
    ensures in_range { result < length (words_in R.memory region.now) }
{
    let _words = region.words();
    LEAF_WORDS * leaf_block(region, tree, index / LEAF_WORDS) + index % LEAF_WORDS
}
