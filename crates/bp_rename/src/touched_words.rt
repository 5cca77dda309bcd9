//! The words that a rename touches, and the trees on the paths to them.

ghost use Rattle.std.specs.Prelude.{◌≡◌, ◌≢◌, ℕ, ◌<◌, ◌≤◌, []};
ghost use Rattle.bp_layout.specs.Inode.{size_of};
ghost use Rattle.bp_layout.specs.Reached.{IsReached};
ghost use Rattle.bp_layout.specs.WellFormed.{IsWellFormed};
ghost use Rattle.bp_rename.specs.TouchesTwo.{AnyTree, IsSizedTree, ListsTrees, OtherTree};
ghost use Rattle.pm_region.specs.Memory.{words_in};

use bp_cow::{Touched, TreeSize};
use bp_read::Slots;
use bp_read::inodes::{inode_file, root_path, tree_of};
use pm_region::Region;

/// Returns the tree of a directory that has entries, with its size.
fn size_of_directory<R: Region>(region: &R, dir: u32) -> TreeSize
    requires well_formed { IsWellFormed (words_in R.memory region.now) }
    requires reached { IsReached (words_in R.memory region.now) dir }
    requires some { 1 ≤ dir }
    requires entries { 0 < size_of (words_in R.memory region.now) dir }
    ensures { IsSizedTree (words_in R.memory region.now) dir result }
{
    let tree = tree_of(region, dir);
    TreeSize {
        root: root_path(region, dir),
        height: tree.height(),
        size: tree.size,
    }
}

/// Returns the inode file, with its size.
fn size_of_inodes<R: Region>(region: &R) -> TreeSize
    requires { IsWellFormed (words_in R.memory region.now) }
    ensures { IsSizedTree (words_in R.memory region.now) 0 result }
{
    let tree = inode_file(region);
    TreeSize {
        root: Slots::new(),
        height: tree.height(),
        size: tree.size,
    }
}

/// Returns the trees on the paths to words of a directory.
pub(crate) fn trees_of_one<R: Region>(region: &R, dir: u32) -> [TreeSize; 2]
    requires well_formed { IsWellFormed (words_in R.memory region.now) }
    requires reached { IsReached (words_in R.memory region.now) dir }
    requires some { 1 ≤ dir }
    requires entries { 0 < size_of (words_in R.memory region.now) dir }
    ensures { (j : ℕ) → 1 ≤ j → dir ≢ j → ListsTrees (words_in R.memory region.now) (OtherTree j) result }
{
    [size_of_directory(region, dir), size_of_inodes(region)]
}

/// Returns the trees on the paths to words of two directories.
pub(crate) fn trees_of_both<R: Region>(region: &R, first: u32, second: u32) -> [TreeSize; 3]
    requires well_formed { IsWellFormed (words_in R.memory region.now) }
    requires first_reached { IsReached (words_in R.memory region.now) first }
    requires first_some { 1 ≤ first }
    requires first_entries { 0 < size_of (words_in R.memory region.now) first }
    requires second_reached { IsReached (words_in R.memory region.now) second }
    requires second_some { 1 ≤ second }
    requires second_entries { 0 < size_of (words_in R.memory region.now) second }
    ensures { ListsTrees (words_in R.memory region.now) AnyTree result }
{
    [
        size_of_directory(region, first),
        size_of_directory(region, second),
        size_of_inodes(region),
    ]
}

/// Returns what two words and no run touch, on paths through these trees.
pub(crate) fn touched_two<'a>(words: &'a [(Slots, u64); 2], trees: &'a [TreeSize]) -> Touched<'a>
    ensures words { result.words.now ≡ words.now }
    ensures none { result.runs.now ≡ [] }
    ensures trees { result.trees.now ≡ trees.now }
{
    Touched {
        words,
        runs: &[],
        trees,
    }
}
