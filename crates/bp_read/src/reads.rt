//! Reads bytes: one walk for each leaf, and then eight words at a time.

ghost use Rattle.std.specs.Prelude.{◌≡◌, ℕ, ◌+◌, ◌-◌, ◌*◌, ◌/◌, ◌%◌, ◌<◌, ◌≤◌, IfNone, IfSome, length, take, drop, min};
ghost use Rattle.bp_layout.specs.Tree.{IsSound, content_word};
ghost use Rattle.bp_limits.specs.Limits.{block_size, block_words};
ghost use Rattle.pm_region.specs.Memory.{words_in};
ghost use Rattle.bp_layout.specs.Bytes.{stored_bytes};
ghost use Rattle.bp_read.specs.Bytes.{content_part};
ghost use Rattle.bp_read.specs.Leaves.{AreLeafWords};

use crate::tree::{Tree, leaf_block};
use bp_layout::unpack;
use bp_limits::{BLOCK_SIZE, BLOCK_WORDS};
use pm_region::{HEAD_WORDS, Region};

/// Reads the bytes of a tree from `offset` on, as many as fit into `into` and are below the size, and returns their
/// number. It is 0 from the size on. The rest of `into` does not change.
pub fn read<R: Region>(region: &R, tree: Tree, offset: u64, into: &mut [u8]) -> usize
    requires { IsSound (words_in R.memory region.now) tree.root tree.size }
    ensures count { result ≡ min (length into.old) (tree.size - offset) }
    ensures bytes { let words = words_in R.memory region.now in
        take result into.new ≡ content_part words tree.root offset result }
    ensures rest { drop result into.new ≡ drop result into.old }
{
    let count = (into.len() as u64).min(tree.size.saturating_sub(offset)) as usize;
    let mut done = 0;
    while done < count {
        let from = offset + done as u64;
        let to = done + ((BLOCK_SIZE - from % BLOCK_SIZE) as usize).min(count - done);
        read_leaf(region, tree, from, &mut into[done..to]);
        done = to;
    }
    count
}

/// Reads bytes of one leaf.
fn read_leaf<R: Region>(region: &R, tree: Tree, offset: u64, into: &mut [u8])
    requires sound { IsSound (words_in R.memory region.now) tree.root tree.size }
    requires some { 0 < length into.old }
    requires live { offset + length into.old ≤ tree.size }
    requires within { offset % block_size + length into.old ≤ block_size }
    ensures { into.new ≡ content_part (words_in R.memory region.now) tree.root offset (length into.old) }
{
    let _words = region.words();
    let leaf = leaf_block(region, tree, offset / BLOCK_SIZE);
    if leaf == 0 {
        into.fill(0);
    } else {
        read_bytes(region, BLOCK_SIZE * leaf + offset % BLOCK_SIZE, into);
    }
}

/// Reads bytes of the region from a place on; word `w` has the places `8 * w` to `8 * w + 7`.
fn read_bytes<R: Region>(region: &R, place: u64, into: &mut [u8])
    requires some { 0 < length into.old }
    requires after_first { block_size ≤ place }
    requires in_range { place + length into.old ≤ 8 * length (words_in R.memory region.now) }
    ensures { into.new ≡ stored_bytes (words_in R.memory region.now) place (length into.old) }
{
    let _words = region.words();
    let word = place / 8;
    let first = (place % 8) as usize;
    let head = (8 - first).min(into.len());
    let end = into.len();
    read_part(region, word, first, &mut into[..head]);
    read_words(region, word + 1, &mut into[head..end]);
}

/// Reads the bytes of the words from `word` on.
fn read_words<R: Region>(region: &R, word: u64, into: &mut [u8])
    requires after_head { HEAD_WORDS ≤ word }
    requires in_range { 8 * word + length into.old ≤ 8 * length (words_in R.memory region.now) }
    ensures { into.new ≡ stored_bytes (words_in R.memory region.now) (8 * word) (length into.old) }
{
    let _words = region.words();
    unpack(region.load_words(word, into.len().div_ceil(8)), into);
}

/// Reads some of the bytes of a word.
fn read_part<R: Region>(region: &R, word: u64, first: usize, into: &mut [u8])
    requires after_head { HEAD_WORDS ≤ word }
    requires word { word < length (words_in R.memory region.now) }
    requires within { first + length into.old ≤ 8 }
    ensures { into.new ≡ stored_bytes (words_in R.memory region.now) (8 * word + first) (length into.old) }
{
    let _words = region.words();
    let bytes = region.load_past_head(word).to_le_bytes();
    into.copy_from_slice(&bytes[first..first + into.len()]);
}

/// Returns the content words `512 * leaf` to `512 * leaf + 511` in place, or `None` if the leaf is null, so that all
/// are 0.
pub fn leaf_words<R: Region>(region: &R, tree: Tree, leaf: u64) -> Option<&[u64]>
    requires sound { IsSound (words_in R.memory region.now) tree.root tree.size }
    requires live { block_size * leaf < tree.size }
    ensures len { IfSome result (λ words. length words.now ≡ block_words) }
    ensures words { IfSome result (λ words. AreLeafWords (words_in R.memory region.now) tree.root leaf words.now) }
    ensures none { IfNone result ((i : ℕ) → i < block_words →
        content_word (words_in R.memory region.now) tree.root (block_words * leaf + i) ≡ 0) }
{
    let _words = region.words();
    let block = leaf_block(region, tree, leaf);
    if block == 0 {
        None
    } else {
        Some(region.load_words(BLOCK_WORDS * block, BLOCK_WORDS as usize))
    }
}
