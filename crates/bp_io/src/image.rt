//! The bytes of a file in memory.

ghost use Rattle.std.specs.Prelude.{◌≡◌, ◌≤◌, ◌<◌, ◌+◌, ◌*◌, ◌/◌, ◌%◌, vec_capacity, length, IfOk};
ghost use Rattle.bp_limits.specs.Limits.{block_size, max_file_blocks};
ghost use Rattle.bp_io.specs.Files.{blocks_of, with_block, with_blocks, resized_file};

use crate::BLOCK;
use bp_limits::MAX_FILE_BLOCKS;
use std::alloc::{AllocError, Global};

/// The number of bytes of the largest file.
const ROOM: usize = BLOCK * MAX_FILE_BLOCKS as usize;

/// The bytes of a file, with memory for the largest file from the start, so that no change allocates.
#[derive(Drop)]
pub(crate) struct Image {
    bytes: Vec<u8>,
    ghost room: { block_size * max_file_blocks ≤ vec_capacity bytes },
}

impl Image {
    pub(crate) fn new(alloc: Global, from: &[u8]) -> Result<Self, AllocError>
        ensures { IfOk result (λ image. image.bytes.items ≡ from.now) }
    {
        let mut bytes = Vec::with_capacity(alloc, ROOM.max(from.len()))?;
        bytes.extend_from_slice(from)?;
        Ok(Image { bytes })
    }

    pub(crate) fn bytes(&self) -> &[u8]
        ensures { result.now ≡ self.now.bytes.items }
    {
        &self.bytes
    }

    pub(crate) fn length(&self) -> u64
        ensures { result ≡ length self.now.bytes.items }
    {
        self.bytes.len() as u64
    }

    pub(crate) fn read_blocks(&self, first: u32, into: &mut [u8])
        requires whole { length into.old % block_size ≡ 0 }
        requires inside { first + length into.old / block_size ≤ length self.now.bytes.items / block_size }
        ensures { into.new ≡ blocks_of self.now.bytes.items first (length into.old / block_size) }
    {
        let at = BLOCK * first as usize;
        into.copy_from_slice(&self.bytes[at..at + into.len()]);
    }

    pub(crate) fn write_block(&mut self, i: u32, from: &[u8; BLOCK])
        requires { i < length self.old.bytes.items / block_size }
        ensures block { self.new.bytes.items ≡ with_block i from.now self.old.bytes.items }
        ensures length { length self.new.bytes.items ≡ length self.old.bytes.items }
    {
        let at = BLOCK * i as usize;
        self.bytes[at..at + BLOCK].copy_from_slice(from);
    }

    pub(crate) fn write_blocks(&mut self, first: u32, from: &[u8])
        requires whole { length from.now % block_size ≡ 0 }
        requires inside { first + length from.now / block_size ≤ length self.old.bytes.items / block_size }
        ensures blocks { self.new.bytes.items ≡ with_blocks first from.now self.old.bytes.items }
        ensures length { length self.new.bytes.items ≡ length self.old.bytes.items }
    {
        let at = BLOCK * first as usize;
        self.bytes[at..at + from.len()].copy_from_slice(from);
    }

    pub(crate) fn set_blocks(&mut self, n: u32)
        requires { n ≤ MAX_FILE_BLOCKS }
        ensures bytes { self.new.bytes.items ≡ resized_file (block_size * n) self.old.bytes.items }
        ensures length { length self.new.bytes.items ≡ block_size * n }
    {
        match self.bytes.resize(BLOCK * n as usize, 0) {
            Ok(()) => (),
            Err(_) => unreachable!(),
        }
    }

    pub(crate) fn replace(&mut self, prefix: &[u8], n: u32)
        requires whole { length prefix.now % block_size ≡ 0 }
        requires inside { length prefix.now / block_size ≤ n }
        requires fits { n ≤ MAX_FILE_BLOCKS }
        ensures bytes { self.new.bytes.items ≡ resized_file (block_size * n) prefix.now }
        ensures length { length self.new.bytes.items ≡ block_size * n }
    {
        self.bytes.clear();
        match self.bytes.extend_from_slice(prefix) {
            Ok(()) => (),
            Err(_) => unreachable!(),
        }
        self.set_blocks(n);
    }
}
