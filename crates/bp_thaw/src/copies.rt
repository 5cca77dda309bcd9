//! Copies of blocks that point to one another.

ghost use Rattle.std.specs.Prelude.{◌≡◌, ◌+◌, ◌*◌, ◌/◌, ◌<◌, ◌≤◌, length};
ghost use Rattle.bp_free.specs.Set.{members};
ghost use Rattle.bp_layout.specs.Members.{AreApart};
ghost use Rattle.bp_layout.specs.Words.{word, block_count, block_of};
ghost use Rattle.pm_region.specs.Memory.{words_in};
ghost use Rattle.bp_cow.specs.Copies.{CanFillBlock, FillsBlock, pointing_to};
ghost use Rattle.bp_thaw.specs.Copies.{AreTurned, blocks_of, places_of};
ghost use Rattle.bp_thaw.specs.Steps.{CanFillCopies, FillsCopies, IsTurnedCopy, TakesAll};

use crate::find::Places;
use arrayvec::ArrayVec;
use bp_free::Blocks;
use bp_limits::{BLOCK_SIZE, BLOCK_WORDS};
use pm_region::Region;

/// Copies of blocks, each given by the place of the pointer to its block and the number of the copy.
pub(crate) type Copies = ArrayVec<(u64, u32), 96>;

/// Returns a pointer to another block, with the other bits unchanged.
pub(crate) fn pointing_to(pointer: u64, block: u32) -> u64
    ensures { result ≡ pointing_to pointer block }
{
    bp_layout::pointer_word(block as u64) + pointer % BLOCK_SIZE
}

/// Takes a block for the copy of each block to which a pointer at one of these places leads.
pub(crate) fn take_all(blocks: &mut Blocks, places: &Places) -> Copies
    requires { length places.now.items ≤ length (members blocks.old) }
    ensures of { places_of result.items ≡ places.now.items }
    ensures takes { TakesAll blocks.old blocks.new (blocks_of result.items) }
{
    let mut copies = Copies::new();
    for i in 0..places.len() {
        copies.push((places[i], blocks.alloc_lowest()));
    }
    copies
}

/// Sets the pointers among the words of a block to the copies.
fn turn_words(copies: &Copies, block: u32, words: &mut [u64; 512])
    requires { AreApart (places_of copies.now.items) }
    ensures { AreTurned copies.now.items block words.old words.new }
{
    for i in 0..copies.len() {
        let (place, copy) = copies[i];
        if place / BLOCK_WORDS == block as u64 {
            let slot = (place % BLOCK_WORDS) as usize;
            words[slot] = pointing_to(words[slot], copy);
        }
    }
}

/// Stores the words of a copy: those of its block, with the pointers set to the copies.
fn fill_copy<R: Region>(region: &mut R, copies: &Copies, place: u64, copy: u32)
    requires apart { AreApart (places_of copies.now.items) }
    requires place { place < length (words_in R.memory region.old) }
    requires present { 0 < block_of (word (words_in R.memory region.old) place) }
    requires block { block_of (word (words_in R.memory region.old) place) < block_count (words_in R.memory region.old) }
    requires copy { CanFillBlock copy (R.memory region.old) }
    ensures fills { FillsBlock copy (R.memory region.old) (R.memory region.new) }
    ensures words { IsTurnedCopy copies.now.items (block_of (word (words_in R.memory region.old) place)) copy
        (R.memory region.old) (R.memory region.new) }
{
    let _words = region.words();
    let block = pm_words::block_of(region.load(place)) as u32;
    let mut words = [0; 512];
    words.copy_from_slice(region.load_words(BLOCK_WORDS * block as u64, BLOCK_WORDS as usize));
    turn_words(copies, block, &mut words);
    region.store_words(BLOCK_WORDS * copy as u64, &words);
}

/// Stores the words of all copies.
pub(crate) fn fill_all<R: Region>(region: &mut R, copies: &Copies)
    requires { CanFillCopies copies.now.items (R.memory region.old) }
    ensures { FillsCopies copies.now.items (R.memory region.old) (R.memory region.new) }
{
    for i in 0..copies.len() {
        let (place, copy) = copies[i];
        fill_copy(region, copies, place, copy);
    }
}
