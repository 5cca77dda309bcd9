//! Word paths: the slots on the way to a word from the root word of the inode file.

ghost use Rattle.std.specs.Prelude.{◌≡◌, suc, ◌+◌, ◌*◌, ◌/◌, ◌<◌, length};
ghost use Rattle.std.specs.List.{All};
ghost use Rattle.bp_layout.specs.Words.{height_of};
ghost use Rattle.bp_layout.specs.WordPaths.{digits, address, Exists};
ghost use Rattle.bp_limits.specs.Limits.{block_words, super_root};
ghost use Rattle.pm_region.specs.Memory.{words_in};
ghost use Rattle.bp_read.specs.Paths.{IsInRange};

use crate::tree::Tree;
use arrayvec::ArrayVec;
use bp_limits::{BLOCK_WORDS, SUPER_ROOT};
use pm_region::Region;

/// A word path: slots below 512, from the top. The empty path names the root word of the inode file.
pub type Slots = ArrayVec<u16, 12>;

/// Returns the path from a tree's root word to the content word that has the byte at `offset`: one slot for each level
/// of the tree, and then the slot in the leaf.
pub fn word_path(tree: Tree, offset: u64) -> Slots
    ensures { result.items ≡ digits (suc (height_of tree.root)) (offset / 8) }
{
    let word = offset / 8;
    let mut path = Slots::new();
    let mut levels = tree.height() + 1;
    while levels > 0 {
        levels -= 1;
        path.push(((word >> (9 * levels)) & 511) as u16);
    }
    path
}

/// Returns the place in the region of the word that a path names.
pub fn address<R: Region>(region: &R, path: &Slots) -> u64
    requires exists { Exists (words_in R.memory region.now) path.now.items }
    requires slots { All (λ slot. slot < block_words) path.now.items }
    requires in_range { IsInRange (words_in R.memory region.now) path.now.items }
    ensures address { result ≡ address (words_in R.memory region.now) path.now.items }
    ensures in_range { let count = length (words_in R.memory region.now) in super_root < count → result < count }
{
    let _words = region.words();
    let mut place = SUPER_ROOT;
    for slot in path.as_slice() {
        let block = pm_words::block_of(region.load(place));
        place = BLOCK_WORDS * block + *slot as u64;
    }
    place
}
