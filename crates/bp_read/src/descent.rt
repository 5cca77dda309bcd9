//! The walk from a root word down to one of its words.

ghost use Rattle.std.specs.Prelude.{◌≡◌};
ghost use Rattle.bp_layout.specs.Tree.{tree_word, IsLiveWord, IsSound};
ghost use Rattle.pm_region.specs.Memory.{words_in};

use crate::tree::{Tree, load_slot};
use pm_region::Region;
use pm_words::{block_of, digit};

/// Returns word number `index` at a depth of the tree. Only the root word is at depth 0.
pub(crate) fn descend<R: Region>(region: &R, tree: Tree, depth: u32, index: u64) -> u64
    requires sound { IsSound (words_in R.memory region.now) tree.root tree.size }
    requires live { IsLiveWord tree.root tree.size depth index }
    ensures { result ≡ tree_word (words_in R.memory region.now) tree.root depth index }
{
    let mut word = tree.root;
    let mut levels = depth;
    while levels > 0 {
        levels -= 1;
        let slot = digit(index, levels);
        word = load_slot(region, block_of(word), slot as u64);
    }
    word
}
