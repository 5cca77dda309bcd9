//! New nodes above a tree.

ghost use Rattle.std.specs.Prelude.{◌≡◌, ◌≤◌, suc, length};
ghost use Rattle.bp_layout.specs.Words.{height_of};
ghost use Rattle.bp_append.specs.Nodes.{CanRaiseTree, RaisesTree, RaisesOnce};

use crate::fill::fill;
use crate::wanted::{TreeBlock, Wanted};
use bp_free::Blocks;
use bp_layout::RootWord;
use bp_limits::BLOCK_WORDS;
use bp_read::Tree;
use pm_region::Region;
use pm_words::span;

/// Puts one new node above a tree of a height, and fills it past the tree. Returns the root word.
fn raise_once<R: Region>(
    region: &mut R,
    blocks: &mut Blocks,
    root: u64,
    height: u32,
    wanted: Wanted,
    bytes: &[u8],
) -> u64
    requires height { height ≡ height_of root }
    requires can { CanRaiseTree R.memory region.old blocks.old root (suc (height_of root)) wanted }
    ensures rises { RaisesOnce R.memory region.old region.new blocks.old blocks.new root wanted bytes.now result }
    ensures tall { height_of result ≡ suc (height_of root) }
    ensures room { length blocks.new ≡ length blocks.old }
{
    let block = blocks.alloc_lowest();
    let below = bp_layout::pointer_word(pm_words::block_of(root));
    region.store_past_head(block as u64 * BLOCK_WORDS, below);
    let node = TreeBlock {
        block,
        level: height + 1,
        start: 0,
    };
    fill(region, blocks, node, span(height), wanted, bytes);
    let top = RootWord {
        height: height + 1,
        block: block as u64,
    };
    top.word()
}

/// Puts new nodes above a tree up to a height, and fills them past the tree. Returns the root word.
pub(crate) fn raise<R: Region>(
    region: &mut R,
    blocks: &mut Blocks,
    tree: Tree,
    height: u32,
    wanted: Wanted,
    bytes: &[u8],
) -> u64
    requires order { height_of tree.root ≤ height }
    requires can { CanRaiseTree R.memory region.old blocks.old tree.root height wanted }
    ensures rises { RaisesTree R.memory region.old region.new
        blocks.old blocks.new tree.root height wanted bytes.now result }
    ensures room { length blocks.new ≡ length blocks.old }
{
    let mut top = tree.root;
    for level in tree.height()..height {
        top = raise_once(region, blocks, top, level, wanted, bytes);
    }
    top
}
