//! The images of the samples, as the words that are not 0.

ghost use Rattle.std.specs.Prelude.{◌*◌, ◌≡◌, IfOk, vec_len};
ghost use Rattle.bp_limits.specs.Limits.{block_words, min_blocks};
ghost use Rattle.bp_layout.specs.Stores.{after_stores};
ghost use Rattle.bp_samples.specs.Laid.{laid_image};

use bp_limits::{
    BLOCK_SIZE, BLOCK_WORDS, MIN_BLOCKS, SUPER_BLOCKS, SUPER_MAGIC, SUPER_ROOT, SUPER_SIZE,
};
use std::alloc::{AllocError, Global};

/// The index of each word in an image, and its value.
pub type Stores<'a> = &'a [(usize, u64)];

/// The number of words of an image of 8 blocks.
const WORDS: usize = MIN_BLOCKS as usize * BLOCK_WORDS as usize;

/// The magic number of version 1, `BPFSRS01`.
const MARK: u64 = 0x3130_5352_5346_5042;

/// The magic number of version 2, `BPFSRS02`.
const SECOND_MARK: u64 = 0x3230_5352_5346_5042;

/// A file system of 8 blocks in version 1: the inodes in block 1, and a root directory without an entry.
pub const EMPTY: [(usize, u64); 5] = [
    (SUPER_MAGIC as usize, MARK),
    (SUPER_BLOCKS as usize, MIN_BLOCKS as u64),
    (SUPER_ROOT as usize, 0x1000),
    (SUPER_SIZE as usize, BLOCK_SIZE),
    (520, 2),
];

/// On top of any of these: the magic number of version 2.
pub const SECOND: (usize, u64) = (SUPER_MAGIC as usize, SECOND_MARK);

/// On top of [`EMPTY`]: in block 2 a root directory of two entries, which are empty.
pub const TWO_ENTRIES: [(usize, u64); 2] = [(521, 0x2000), (522, 512)];

/// On top of [`TWO_ENTRIES`]: the entries name the empty files `a` and `b`, inodes 2 and 3.
pub const TWO_NAMES: [(usize, u64); 8] = [
    (528, 1),
    (536, 1),
    (1024, 2),
    (1025, 1),
    (1026, 0x61),
    (1056, 3),
    (1057, 1),
    (1058, 0x62),
];

/// On top of [`EMPTY`]: the directory `/d`, inode 2 with block 3, and in it the empty file `/d/f`, inode 3.
pub const DEEP: [(usize, u64); 12] = [
    (521, 0x2000),
    (522, 256),
    (528, 2),
    (529, 0x3000),
    (530, 256),
    (536, 1),
    (1024, 2),
    (1025, 1),
    (1026, 0x64),
    (1536, 3),
    (1537, 1),
    (1538, 0x66),
];

/// A tree of two leaves, blocks 4 and 5, with a null between them. Its root word is word 2 and its size is word 3.
pub const TWO_LEAVES: [(usize, u64); 6] = [
    (2, 0x3001),
    (3, 8200),
    (1536, 0x4000),
    (1538, 0x5000),
    (2048, 0x11),
    (2560, 0x2200),
];

/// The length of a name in bytes, and the word of its first eight bytes, with its unused bytes.
pub type Start = (u64, u64);

/// Block 3 as a directory of two entries, which name the inodes 2 and 3.
pub fn leaf(first: Start, second: Start) -> [(usize, u64); 6] {
    [
        (1536, 2),
        (1537, first.0),
        (1538, first.1),
        (1568, 3),
        (1569, second.0),
        (1570, second.1),
    ]
}

/// Writes stores on top of these words. A store past their end does nothing.
pub fn put(words: &mut Vec<u64>, stores: Stores<'_>)
    ensures words { words.new.items ≡ after_stores words.old.items stores.now }
    ensures whole { vec_len words.new ≡ vec_len words.old }
{
    for (place, value) in stores {
        if *place < words.len() {
            words[*place] = *value;
        }
    }
}

/// Makes the words of an image of 8 blocks with these stores over words of 0.
pub fn laid(alloc: Global, stores: Stores<'_>) -> Result<Vec<u64>, AllocError>
    ensures words { IfOk result (λ words. words.items ≡ laid_image stores.now) }
    ensures whole { IfOk result (λ words. vec_len words ≡ min_blocks * block_words) }
{
    let mut words = vec![in alloc; 0u64; WORDS]?;
    put(&mut words, stores);
    Ok(words)
}
