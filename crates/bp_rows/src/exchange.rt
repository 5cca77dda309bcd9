//! The exchange of the two magic numbers of version 3: it makes an image with one of them an image of the same files
//! with the other. No call does it, so it is how rows run over images with `BPFSRS3B`.

use crate::image::{set_word, word_at};
use std::alloc::{AllocError, Global};

/// The magic number of version 3 that a format makes: the bytes `BPFSRS3A`. The files are at words 2 and 3.
const MAGIC_A: u64 = 0x4133_5352_5346_5042;

/// The other magic number of version 3: the bytes `BPFSRS3B`. The files are at words 6 and 7.
const MAGIC_B: u64 = 0x4233_5352_5346_5042;

/// The number of bytes of the words that the magic number gives their roles.
const HEAD: usize = 64;

fn other_magic(magic: u64) -> Option<u64> {
    if magic == MAGIC_A {
        Some(MAGIC_B)
    } else if magic == MAGIC_B {
        Some(MAGIC_A)
    } else {
        None
    }
}

/// Whether bytes begin with the magic number `BPFSRS3B`.
pub fn has_magic_b(bytes: &[u8]) -> bool {
    word_at(bytes, 0) == MAGIC_B
}

/// Exchanges the magic numbers of version 3 at word 0, and words 2 and 3 with words 6 and 7. Bytes without such a magic
/// number, or of fewer than 8 words, stay as they are; then it returns false. Done twice, it changes nothing.
pub fn exchange(bytes: &mut [u8]) -> bool {
    if bytes.len() < HEAD {
        return false;
    }
    let Some(magic) = other_magic(word_at(bytes, 0)) else {
        return false;
    };
    set_word(bytes, 0, magic);
    exchange_words(bytes, 2, 6);
    exchange_words(bytes, 3, 7);
    true
}

fn exchange_words(bytes: &mut [u8], one: usize, other: usize) {
    let value = word_at(bytes, one);
    set_word(bytes, one as u64, word_at(bytes, other));
    set_word(bytes, other as u64, value);
}

/// Returns a copy of FILE, exchanged; `None` if FILE is missing or has nothing to exchange.
pub fn exchanged(alloc: Global, file: Option<&[u8]>) -> Result<Option<Vec<u8>>, AllocError> {
    let Some(bytes) = file else {
        return Ok(None);
    };
    let mut copy = Vec::from_slice(alloc, bytes)?;
    if exchange(&mut copy) {
        Ok(Some(copy))
    } else {
        Ok(None)
    }
}
