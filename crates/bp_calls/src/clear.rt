//! Clearing before an upgrade: the words of inodes that version 3 makes attributes become 0. No earlier version reads
//! them, so a crash at any point changes nothing that is visible.

ghost use Rattle.std.specs.Prelude.{true, false, ◌≡◌, ◌+◌, ◌*◌, ◌<◌, ◌≤◌, IfNone, IfSome, length};
ghost use Rattle.bp_calls.specs.Cleared.{ClearsFrom, ClearsInode};
ghost use Rattle.bp_layout.specs.Clearing.{IsClearInode, IsNextToClear, IsSetInode, cleared_inodes};
ghost use Rattle.bp_layout.specs.Formatted.{version_of};
ghost use Rattle.bp_layout.specs.Inode.{AreClear, AreClearBelow, inode_count};
ghost use Rattle.bp_layout.specs.Trees.{has_snapshot};
ghost use Rattle.bp_layout.specs.WellFormed.{IsWellFormed};
ghost use Rattle.bp_layout.specs.Words.{word};
ghost use Rattle.bp_limits.specs.CallLimits.{allows_attributes};
ghost use Rattle.bp_limits.specs.Limits.{attributes};
ghost use Rattle.pm_region.specs.Memory.{room_in, words_in};
ghost use Rattle.pm_region.specs.Safe.{AddsMay};

use bp_layout::CLEARED_INODES;
use bp_limits::{ATTRIBUTE_FIELD, INODE_SIZE};
use bp_read::inodes::{inode_file, place};
use pm_region::Region;

/// Returns the number of inodes in the inode file.
fn inode_count<R: Region>(region: &R) -> u32
    requires { IsWellFormed (words_in R.memory region.now) }
    ensures { result ≡ inode_count (words_in R.memory region.now) }
{
    (inode_file(region).size / INODE_SIZE) as u32
}

/// Returns whether the words of an inode that version 3 makes attributes are all 0.
fn is_clear<R: Region>(region: &R, ino: u32) -> bool
    requires well_formed { IsWellFormed (words_in R.memory region.now) }
    requires there { ino < inode_count (words_in R.memory region.now) }
    ensures clear { result ≡ true → IsClearInode (words_in R.memory region.now) ino }
    ensures set { result ≡ false → IsSetInode (words_in R.memory region.now) ino }
{
    let at = place(region, ino, ATTRIBUTE_FIELD);
    let words = region.load_words(at, 3);
    words[0] == 0 && words[1] == 0 && words[2] == 0
}

/// Returns the first inode from `first` on in which a word is not 0 that version 3 makes an attribute, or `None` if
/// there is none. The caller knows that these words are 0 in all inodes below `first`, or passes 0.
pub fn next_to_clear<R: Region>(region: &R, first: u32) -> Option<u32>
    requires { IsWellFormed (words_in R.memory region.now) }
    ensures some { IfSome result (IsNextToClear (words_in R.memory region.now) first) }
    ensures none { IfNone result
        (AreClearBelow (words_in R.memory region.now) first → AreClear (words_in R.memory region.now)) }
{
    for ino in first..inode_count(region) {
        if !is_clear(region, ino) {
            return Some(ino);
        }
    }
    None
}

/// Sets a word to 0, unless it is 0.
fn clear_word<R: Region>(region: &mut R, at: u64)
    requires in_range { at < length (R.memory region.old).base }
    requires room { 1 ≤ room_in (R.memory region.old) }
    ensures stores { AddsMay (λ place value. (place ≡ at) × (value ≡ 0)) 0 1 (R.memory region.old) (R.memory region.new) }
    ensures cleared { word (words_in R.memory region.new) at ≡ 0 }
{
    if region.load(at) != 0 {
        region.store(at, 0);
    }
}

/// Sets to 0 the words of an inode that version 3 makes attributes, except those that are 0.
fn clear_inode<R: Region>(region: &mut R, ino: u32)
    requires well_formed { IsWellFormed (words_in R.memory region.old) }
    requires there { ino < inode_count (words_in R.memory region.old) }
    requires room { attributes ≤ room_in (R.memory region.old) }
    ensures { ClearsInode (R.memory region.old) ino (R.memory region.new) }
{
    let at = place(region, ino, ATTRIBUTE_FIELD);
    // A region has fewer than 2^41 words, so the places fit.
    let _words = region.words();
    clear_word(region, at);
    clear_word(region, at + 1);
    clear_word(region, at + 2);
}

/// Clears up to [`CLEARED_INODES`] inodes from `first` on: sets to 0 each of their words that version 3 makes an
/// attribute and that is not 0, and then separates these stores from later ones by a barrier.
pub fn clear_some<R: Region>(region: &mut R, first: u32)
    requires well_formed { IsWellFormed (words_in R.memory region.old) }
    requires version { allows_attributes (version_of (words_in R.memory region.old)) ≡ false }
    requires single { has_snapshot (words_in R.memory region.old) ≡ false }
    requires room { attributes * cleared_inodes + 1 ≤ room_in (R.memory region.old) }
    ensures { ClearsFrom (R.memory region.old) first cleared_inodes (R.memory region.new) }
{
    let end = first
        .saturating_add(CLEARED_INODES)
        .min(inode_count(region));
    for ino in first..end {
        clear_inode(region, ino);
    }
    region.barrier();
}
