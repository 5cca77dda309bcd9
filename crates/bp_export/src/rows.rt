//! The entries of a directory, leaf by leaf.

ghost use Rattle.std.specs.Prelude.{ℕ, ◌*◌, ◌/◌, ◌<◌, ◌≤◌, IfNone, IfSome};
ghost use Rattle.bp_export.specs.Rows.{IsEmptyLeaf, IsLeafRow};
ghost use Rattle.bp_layout.specs.Tree.{IsSound};
ghost use Rattle.bp_limits.specs.Limits.{block_entries, entry_size};
ghost use Rattle.pm_region.specs.Memory.{words_in};

use bp_limits::{BLOCK_ENTRIES, ENTRY_SIZE, ENTRY_WORDS};
use bp_read::{Tree, leaf_words};
use pm_region::Region;

/// The number of words of an entry, as a length.
pub(crate) const ENTRY: usize = ENTRY_WORDS as usize;

/// Returns the number of leaves that have the entries of a directory.
pub(crate) fn leaf_count(tree: Tree) -> u64
    ensures most { (leaf : ℕ) → leaf < result → block_entries * leaf < tree.size / entry_size }
    ensures all { tree.size / entry_size ≤ block_entries * result }
{
    (tree.size / ENTRY_SIZE).div_ceil(BLOCK_ENTRIES)
}

/// Returns the words of those entries of a leaf that are below the size. None if the leaf is null, so that each of
/// them is empty.
pub(crate) fn entry_row<R: Region>(region: &R, tree: Tree, leaf: u64) -> Option<&[u64]>
    requires sound { IsSound (words_in R.memory region.now) tree.root tree.size }
    requires live { block_entries * leaf < tree.size / entry_size }
    ensures some { IfSome result
        (λ words. IsLeafRow (words_in R.memory region.now) tree.root tree.size leaf words.now) }
    ensures none { IfNone result (IsEmptyLeaf (words_in R.memory region.now) tree.root leaf) }
{
    match leaf_words(region, tree, leaf) {
        Some(words) => {
            let rest = tree.size / ENTRY_SIZE - BLOCK_ENTRIES * leaf;
            Some(&words[..ENTRY * rest.min(BLOCK_ENTRIES) as usize])
        }
        None => None,
    }
}
