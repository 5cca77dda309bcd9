//! Inodes: records of eight words in the content of the inode file.
//!
//! Word 0 of an inode is its kind, word 1 the root word of its tree, and word 2 its size in bytes. In version 3 words 3
//! to 5 are its attributes. The others are unused.

ghost use Rattle.std.specs.Prelude.{◌≡◌, ◌+◌, ◌-◌, ◌*◌, ◌<◌, ◌≤◌, length};
ghost use Rattle.bp_limits.specs.Limits.{attribute_field, attributes, inode_fields, inode_words};
ghost use Rattle.bp_layout.specs.Reached.{IsReached};
ghost use Rattle.bp_layout.specs.WordPaths.{inode_path};
ghost use Rattle.bp_layout.specs.Words.{height_of};
ghost use Rattle.bp_layout.specs.Tree.{IsFull, IsSound};
ghost use Rattle.bp_layout.specs.Inode.{ContentStandsAt, inode_count, kind_of, root_of, size_of};
ghost use Rattle.bp_layout.specs.Fields.{kind_word};
ghost use Rattle.bp_layout.specs.Free.{IsFreeInode};
ghost use Rattle.bp_layout.specs.WellFormed.{IsWellFormed};
ghost use Rattle.bp_read.specs.Filled.{AreClear, FillsInode, HasInodeAt};
ghost use Rattle.bp_read.specs.Within.{IsWithin};
ghost use Rattle.pm_epochs.specs.May.{AnyAt};
ghost use Rattle.pm_region.specs.Memory.{words_in, room_in};
ghost use Rattle.pm_region.specs.Safe.{AddsMay};

use crate::magic;
use crate::paths::{Slots, word_path};
use crate::tree::{Tree, content_place, leaf_block};
use bp_layout::{Inode, Kind};
use bp_limits::{
    ATTRIBUTE_FIELD, BLOCK_INODES, BLOCK_WORDS, INODE_SIZE, INODE_WORDS, ROOT_FIELD, SIZE_FIELD,
    SUPER_ROOT, SUPER_SIZE, Version, WORD_SIZE,
};
use pm_region::{HEAD_WORDS, Region};

/// Returns the tree of the inode file: words 2 and 3 of the superblock are its root word and its size.
pub fn inode_file<R: Region>(region: &R) -> Tree
    requires { 4 ≤ length (words_in R.memory region.now) }
    ensures root { result.root ≡ root_of (words_in R.memory region.now) 0 }
    ensures size { result.size ≡ size_of (words_in R.memory region.now) 0 }
{
    Tree {
        root: region.load(SUPER_ROOT),
        size: region.load(SUPER_SIZE),
    }
}

/// Returns inode number `ino`.
pub fn get<R: Region>(region: &R, ino: u32) -> Inode
    requires sound { let words = words_in R.memory region.now in IsSound words (root_of words 0) (size_of words 0) }
    requires some { 1 ≤ ino }
    requires there { ino < inode_count (words_in R.memory region.now) }
    requires least { 1 ≤ kind_of (words_in R.memory region.now) ino }
    requires most { kind_of (words_in R.memory region.now) ino ≤ 2 }
    ensures kind { kind_word result.kind ≡ kind_of (words_in R.memory region.now) ino }
    ensures root { result.root ≡ root_of (words_in R.memory region.now) ino }
    ensures size { result.size ≡ size_of (words_in R.memory region.now) ino }
{
    get_in(region, inode_file(region), ino)
}

/// Returns what [`get`] returns, for a caller that has the tree of the inode file already.
pub fn get_in<R: Region>(region: &R, inodes: Tree, ino: u32) -> Inode
    requires root { inodes.root ≡ root_of (words_in R.memory region.now) 0 }
    requires size { inodes.size ≡ size_of (words_in R.memory region.now) 0 }
    requires sound { let words = words_in R.memory region.now in IsSound words (root_of words 0) (size_of words 0) }
    requires some { 1 ≤ ino }
    requires there { ino < inode_count (words_in R.memory region.now) }
    requires least { 1 ≤ kind_of (words_in R.memory region.now) ino }
    requires most { kind_of (words_in R.memory region.now) ino ≤ 2 }
    ensures kind { kind_word result.kind ≡ kind_of (words_in R.memory region.now) ino }
    ensures root { result.root ≡ root_of (words_in R.memory region.now) ino }
    ensures size { result.size ≡ size_of (words_in R.memory region.now) ino }
{
    let block = leaf_block(region, inodes, (ino / BLOCK_INODES) as u64);
    // An existing inode is in a block, and a region has fewer than 2^41 words, so its place fits.
    let _words = region.words();
    let first = BLOCK_WORDS * block + INODE_WORDS * (ino % BLOCK_INODES) as u64;
    let words = region.load_words(first, 3);
    Inode::read(&[words[0], words[1], words[2]])
}

/// Returns the place in the region of a word of an inode.
pub fn place<R: Region>(region: &R, ino: u32, field: u64) -> u64
    requires sound { let words = words_in R.memory region.now in IsSound words (root_of words 0) (size_of words 0) }
    requires full { let words = words_in R.memory region.now in IsFull words (root_of words 0) (size_of words 0) }
    requires there { ino < inode_count (words_in R.memory region.now) }
    requires field { field < inode_words }
    ensures place { ContentStandsAt (words_in R.memory region.now) 0 (inode_words * ino + field) result }
    ensures after_head { HEAD_WORDS ≤ result }
    ensures in_range { result < length (words_in R.memory region.now) }
{
    content_place(region, inode_file(region), INODE_WORDS * ino as u64 + field)
}

/// Sets the three words from `first` on to 0.
fn clear<R: Region>(region: &mut R, first: u64)
    requires after_head { HEAD_WORDS ≤ first }
    requires in_range { first + attributes ≤ length (R.memory region.old).base }
    requires room { attributes ≤ room_in (R.memory region.old) }
    ensures stores { AddsMay (AnyAt (IsWithin first attributes)) 0 attributes
        (R.memory region.old) (R.memory region.new) }
    ensures cleared { AreClear (words_in R.memory region.new) first attributes }
{
    // A region has fewer than 2^41 words, so the last place fits.
    let _words = region.words();
    region.store_past_head(first, 0);
    region.store_past_head(first + 1, 0);
    region.store_past_head(first + 2, 0);
}

/// Sets the attributes of the inode at a place of the region to 0, if the version has attributes.
fn clear_attributes<R: Region>(region: &mut R, place: u64, version: Version)
    requires after_head { HEAD_WORDS ≤ place }
    requires in_range { place + inode_fields version ≤ length (R.memory region.old).base }
    requires room { inode_fields version ≤ room_in (R.memory region.old) + attribute_field }
    ensures stores { let count = inode_fields version - attribute_field in
        AddsMay (AnyAt (IsWithin (place + attribute_field) count)) 0 count
        (R.memory region.old) (R.memory region.new) }
    ensures cleared { AreClear (words_in R.memory region.new) (place + attribute_field)
        (inode_fields version - attribute_field) }
{
    match version {
        Version::One | Version::Two => {}
        Version::Three => {
            // A region has fewer than 2^41 words, so the place fits.
            let _words = region.words();
            clear(region, place + ATTRIBUTE_FIELD);
        }
    }
}

/// Makes the inode at a place of the region a file or a directory without bytes, whose attributes are 0.
fn put<R: Region>(region: &mut R, place: u64, kind: Kind, version: Version)
    requires after_head { HEAD_WORDS ≤ place }
    requires in_range { place + inode_fields version ≤ length (R.memory region.old).base }
    requires room { inode_fields version ≤ room_in (R.memory region.old) }
    ensures stores { AddsMay (AnyAt (IsWithin place (inode_fields version))) 0 (inode_fields version)
        (R.memory region.old) (R.memory region.new) }
    ensures inode { HasInodeAt version (words_in R.memory region.new) place (kind_word kind) }
{
    // A region has fewer than 2^41 words, so the last place fits.
    let _words = region.words();
    region.store_past_head(place, kind.word());
    region.store_past_head(place + ROOT_FIELD, 0);
    region.store_past_head(place + SIZE_FIELD, 0);
    clear_attributes(region, place, version);
}

/// Makes an unreachable inode a file or a directory without bytes, whose attributes are 0, by stores to its words only.
pub fn fill<R: Region>(region: &mut R, ino: u32, kind: Kind)
    requires well_formed { IsWellFormed (words_in R.memory region.old) }
    requires free { IsFreeInode (words_in R.memory region.old) ino }
    requires room { inode_words ≤ room_in (R.memory region.old) }
    ensures { FillsInode (R.memory region.old) (R.memory region.new) ino (kind_word kind) }
{
    let at = place(region, ino, 0);
    let version = magic::version(region);
    put(region, at, kind, version);
}

/// Returns the tree of an inode.
pub fn tree_of<R: Region>(region: &R, ino: u32) -> Tree
    requires well_formed { IsWellFormed (words_in R.memory region.now) }
    requires reached { IsReached (words_in R.memory region.now) ino }
    requires some { 1 ≤ ino }
    ensures root { result.root ≡ root_of (words_in R.memory region.now) ino }
    ensures size { result.size ≡ size_of (words_in R.memory region.now) ino }
{
    let inode = get(region, ino);
    Tree::of(&inode)
}

/// Returns the path of the root word of an inode.
pub fn root_path<R: Region>(region: &R, ino: u32) -> Slots
    requires { 4 ≤ length (words_in R.memory region.now) }
    ensures { result.items ≡ inode_path (height_of (root_of (words_in R.memory region.now) 0)) ino 1 }
{
    word_path(
        inode_file(region),
        INODE_SIZE * u64::from(ino) + WORD_SIZE * ROOT_FIELD,
    )
}

/// Returns the path of the size word of an inode.
pub fn size_path<R: Region>(region: &R, ino: u32) -> Slots
    requires { 4 ≤ length (words_in R.memory region.now) }
    ensures { result.items ≡ inode_path (height_of (root_of (words_in R.memory region.now) 0)) ino 2 }
{
    word_path(
        inode_file(region),
        INODE_SIZE * u64::from(ino) + WORD_SIZE * SIZE_FIELD,
    )
}
