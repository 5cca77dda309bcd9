//! How far the pointers of a way to a word exist.

ghost use Rattle.std.specs.Prelude.{◌≡◌, ◌≢◌, ℕ, ◌+◌, ◌-◌, ◌*◌, ◌/◌, ◌^◌, ◌<◌, ◌≤◌, length, slice_index, take, drop};
ghost use Rattle.bp_layout.specs.Inode.{root_of, size_of};
ghost use Rattle.bp_layout.specs.Need.{path_number};
ghost use Rattle.bp_layout.specs.Nodes.{is_present};
ghost use Rattle.bp_layout.specs.Reached.{IsReached};
ghost use Rattle.bp_layout.specs.Thaw.{is_there_now};
ghost use Rattle.bp_layout.specs.Tree.{IsSound};
ghost use Rattle.bp_layout.specs.WellFormed.{IsWellFormed};
ghost use Rattle.bp_layout.specs.Words.{height_of};
ghost use Rattle.bp_limits.specs.Limits.{block_words};
ghost use Rattle.pm_region.specs.Memory.{words_in};
ghost use Rattle.bp_thaw.specs.Prefixes.{IsWayIn};

use bp_limits::{INODE_WORDS, SUPER_ROOT, SUPER_SIZE};
use bp_read::{Slots, Tree};
use pm_region::Region;

/// Returns the number whose base-512 digits are the slots of a way from `from` to `to`, at most six of them.
fn number(way: &Slots, from: usize, to: usize) -> u64
    requires order { from ≤ to }
    requires in_range { to ≤ length way.now.items }
    requires few { to ≤ from + 6 }
    requires slots { (n : ℕ) → slice_index way.now.items n < block_words }
    ensures { result ≡ path_number (drop from (take to way.now.items)) }
{
    let mut number = 0;
    for i in from..to {
        number = 512 * number + u64::from(way[i]);
    }
    number
}

/// Returns whether a node of a tree is live and neither the node nor one above it is null.
fn is_present<R: Region>(region: &R, tree: Tree, level: u32, index: u64) -> bool
    requires sound { IsSound (words_in R.memory region.now) tree.root tree.size }
    requires some { 0 < tree.size }
    requires level { level ≤ height_of tree.root }
    ensures { result ≡ is_present (words_in R.memory region.now) tree.root tree.size
        (record { level = level; index = index }) }
{
    index <= (tree.size - 1) / pm_words::span(level)
        && bp_read::node(region, tree, level, index) != 0
}

/// Returns the tree of the inode file.
fn inode_file<R: Region>(region: &R) -> Tree
    requires { IsWellFormed (words_in R.memory region.now) }
    ensures root { result.root ≡ root_of (words_in R.memory region.now) 0 }
    ensures size { result.size ≡ size_of (words_in R.memory region.now) 0 }
{
    Tree {
        root: region.load(SUPER_ROOT),
        size: region.load(SUPER_SIZE),
    }
}

/// Returns the tree of an inode.
fn tree_of<R: Region>(region: &R, file: Tree, inode: u64) -> Tree
    requires well_formed { IsWellFormed (words_in R.memory region.now) }
    requires file { (file.root ≡ root_of (words_in R.memory region.now) 0) ×
        (file.size ≡ size_of (words_in R.memory region.now) 0) }
    requires reached { IsReached (words_in R.memory region.now) inode }
    requires inode { inode ≢ 0 }
    requires few { inode < 2 ^ 61 }
    ensures root { result.root ≡ root_of (words_in R.memory region.now) inode }
    ensures size { result.size ≡ size_of (words_in R.memory region.now) inode }
{
    let first = INODE_WORDS * inode;
    Tree {
        root: bp_read::content_word(region, file, first + 1),
        size: bp_read::content_word(region, file, first + 2),
    }
}

/// Returns whether the pointer after the first `depth` slots of a way exists: it is live, and no pointer on the way to
/// the block to which it leads is null.
pub(crate) fn is_there<R: Region>(region: &R, way: &Slots, depth: usize) -> bool
    requires well_formed { IsWellFormed (words_in R.memory region.now) }
    requires way { IsWayIn (words_in R.memory region.now) way.now.items }
    requires depth { depth < length way.now.items }
    ensures { result ≡ is_there_now (words_in R.memory region.now) (take depth way.now.items) }
{
    let file = inode_file(region);
    let top = file.height() as usize;
    if depth <= top {
        return is_present(region, file, (top - depth) as u32, number(way, 0, depth));
    }
    let inode = number(way, 0, top + 1) / INODE_WORDS;
    let tree = tree_of(region, file, inode);
    if tree.size == 0 {
        return false;
    }
    let below = depth - (top + 1);
    let level = tree.height() - below as u32;
    is_present(region, tree, level, number(way, top + 1, depth))
}
