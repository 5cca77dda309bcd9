//! The number of words that count in a block of a tree.

ghost use Rattle.std.specs.Prelude.{◌≡◌, ℕ, ◌+◌, ◌-◌, ◌*◌, ◌^◌, ◌<◌, ◌≤◌, length, slice_index};
ghost use Rattle.bp_limits.specs.Limits.{block_words, max_height};
ghost use Rattle.bp_cow.specs.Touched.{has_block, level_live, slots_number, tree_live};

use crate::common_prefix::common;
use crate::touched::TreeSize;

/// Returns the number of pieces that hold the counted words of a block, from the tree's size, the block's level above
/// the leaves, and its number among the blocks of that level.
pub(crate) fn block_pieces(size: u64, level: u32, block: u64) -> u32
    requires level { level ≤ max_height }
    requires block { block < 2 ^ 54 }
    ensures some { 0 < result }
    ensures few { result ≤ 64 }
    ensures live { (slot : ℕ) → slot < block_words → slot < level_live size level block → slot < 8 * result }
{
    let last = (size.saturating_sub(1) / 8) >> (9 * level);
    let slot = last.saturating_sub(512 * block).min(511) as u32;
    slot / 8 + 1
}

/// Returns the number whose base-512 digits are the slots `from` to `to` of a path.
fn slots_number(path: &[u16], from: usize, to: usize) -> u64
    requires order { from ≤ to }
    requires to { to ≤ length path.now }
    requires few { to ≤ from + max_height }
    requires slots { (d : ℕ) → d < length path.now → slice_index path.now d < block_words }
    ensures number { result ≡ slots_number path.now from (to - from) }
    ensures low { result < block_words ^ (to - from) }
{
    let mut number = 0;
    for level in 0..to - from {
        number = 512 * number + u64::from(path[from + level]);
    }
    number
}

impl TreeSize {
    /// Returns whether the block at a depth of a way is a block of the tree.
    pub(crate) fn has_block(&self, path: &[u16], depth: usize) -> bool
        requires { depth ≤ length path.now }
        ensures { result ≡ has_block self.now path.now depth }
    {
        let above = self.root.len();
        if depth < above {
            return false;
        }
        if above + (self.height as usize) < depth {
            return false;
        }
        common(path, self.root.as_slice()) == above
    }

    /// Returns the number of pieces that hold the counted words of the block at a depth of a way.
    pub(crate) fn pieces(&self, path: &[u16], depth: usize) -> u32
        requires height { self.now.height ≤ max_height }
        requires depth { depth ≤ length path.now }
        requires above { length self.now.root.items ≤ depth }
        requires below { depth ≤ length self.now.root.items + self.now.height }
        requires slots { (d : ℕ) → d < length path.now → slice_index path.now d < block_words }
        ensures some { 0 < result }
        ensures few { result ≤ 64 }
        ensures live { (slot : ℕ) → slot < block_words → slot < tree_live self.now path.now depth → slot < 8 * result }
    {
        let above = self.root.len();
        let block = slots_number(path, above, depth);
        block_pieces(self.size, self.height - (depth - above) as u32, block)
    }
}
