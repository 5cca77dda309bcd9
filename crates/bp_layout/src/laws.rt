//! Theorems on the fields of an image: reading undoes writing, and writing undoes reading.

ghost use Rattle.std.specs.Prelude.{Ok, ◌<◌, ◌^◌, ◌≡◌, ◌≤◌, slice_index};
ghost use Rattle.bp_layout.specs.Fields.{IsPointerWord, IsRootWord, pointer_word, root_word};
ghost use Rattle.bp_limits.specs.Limits.{max_height};
ghost use Rattle.bp_layout.specs.Words.{block_of, height_of};
ghost use Rattle.arrayvec.specs.ArrayVec.{array_vec_len};

use crate::{BadPointer, Entry, Inode, RootWord, Super, pointer, pointer_word};

/// Writes and reads a root word: the result is the same, if `top` is no less than its height.
pub fn root_word_read(root: RootWord, top: u32) -> Result<RootWord, BadPointer>
    requires height { root.height ≤ top }
    requires top { top ≤ max_height }
    requires block { root.block < 2 ^ 52 }
    ensures { result ≡ Ok root }
{
    RootWord::read(root.word(), top)
}

/// States that writing the fields of a valid root word gives the same word.
pub fn root_word_written(word: u64, top: u32)
    requires { IsRootWord top word }
    ensures { root_word (height_of word) (block_of word) ≡ word }
{}

/// Writes and reads a pointer: the result is the same.
pub fn pointer_read(block: u64) -> Result<u64, BadPointer>
    requires { block < 2 ^ 52 }
    ensures { result ≡ Ok block }
{
    pointer(pointer_word(block))
}

/// States that writing the block of a valid pointer gives the same word.
pub fn pointer_written(word: u64)
    requires { IsPointerWord word }
    ensures { pointer_word (block_of word) ≡ word }
{}

/// Writes and reads a superblock: the result is the same.
pub fn super_read(block: Super) -> Super
    ensures { result ≡ block }
{
    Super::read(&block.words())
}

/// Reads and writes the words of a superblock: the result is the same.
pub fn super_written(words: [u64; 4]) -> [u64; 4]
    ensures { result ≡ words }
{
    Super::read(&words).words()
}

/// Writes and reads an inode: the result is the same.
pub fn inode_read(inode: Inode) -> Inode
    ensures { result ≡ inode }
{
    Inode::read(&inode.words())
}

/// Reads and writes the words of an inode: the result is the same.
pub fn inode_written(words: [u64; 3]) -> [u64; 3]
    requires least { 1 ≤ slice_index words 0 }
    requires most { slice_index words 0 ≤ 2 }
    ensures { result ≡ words }
{
    Inode::read(&words).words()
}

/// Writes and reads an entry: the result is the same.
pub fn entry_read(entry: Entry) -> Entry
    requires { 1 ≤ array_vec_len entry.name }
    ensures ino { result.ino ≡ entry.ino }
    ensures name { result.name ≡ entry.name }
{
    Entry::read(&entry.words())
}
