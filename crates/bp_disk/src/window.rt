//! Blocks of a file on the disk that wait to be written.

ghost use Rattle.bp_limits.specs.Limits.{block_size};
ghost use Rattle.std.specs.Prelude.{◌≡◌, ◌<◌, ◌≤◌, ◌+◌, ◌*◌, ◌^◌, ◌++◌, ◌↔◌, IsTrue, length, take, vec_len};

use bp_io::BLOCK;
use bp_limits::BLOCK_SIZE;
use std::alloc::{AllocError, Global};

/// The maximum number of blocks in a window.
const ROOM: usize = 64;

/// Consecutive blocks of a file that wait to be written. One system call then writes many blocks.
#[derive(Drop)]
pub(crate) struct Window {
    pub(crate) bytes: Vec<u8>,
    pub(crate) first: u64,
    pub(crate) count: usize,
    ghost size: { vec_len bytes ≡ 262144 },
    ghost few: { count ≤ 64 },
    ghost near: { first < 2 ^ 32 },
}

impl Window {
    /// Makes a window in which no block waits.
    pub(crate) fn new(alloc: Global) -> Result<Self, AllocError> {
        Ok(Window {
            bytes: vec![in alloc; 0u8; BLOCK * ROOM]?,
            first: 0,
            count: 0,
        })
    }

    /// Returns whether no block waits.
    pub(crate) fn is_empty(&self) -> bool
        ensures { IsTrue result ↔ self.now.count ≡ 0 }
    {
        self.count == 0
    }

    /// Returns the byte at which the blocks begin in the file.
    pub(crate) fn start(&self) -> u64
        ensures value { result ≡ block_size * self.now.first }
        ensures near { result < 2 ^ 44 }
    {
        BLOCK_SIZE * self.first
    }

    /// Returns the bytes of the blocks.
    pub(crate) fn bytes(&self) -> &[u8]
        ensures value { result.now ≡ take (block_size * self.now.count) self.now.bytes.items }
        ensures size { length result.now ≡ block_size * self.now.count }
        ensures few { length result.now ≤ 262144 }
    {
        &self.bytes[..BLOCK * self.count]
    }

    /// Drops the blocks.
    pub(crate) fn clear(&mut self)
        ensures { self.new.count ≡ 0 }
    {
        self.count = 0;
    }

    /// Drops the blocks, and moves to block `i`.
    pub(crate) fn restart(&mut self, i: u32)
        ensures first { self.new.first ≡ i }
        ensures count { self.new.count ≡ 0 }
    {
        self.first = u64::from(i);
        self.count = 0;
    }

    /// Returns whether block `i` can wait after those that wait already.
    pub(crate) fn takes(&self, i: u32) -> bool
        ensures room { IsTrue result → self.now.count < 64 }
        ensures next { IsTrue result → i ≡ self.now.first + self.now.count }
    {
        self.count < ROOM && u64::from(i) == self.first + self.count as u64
    }

    /// Appends a block to those that wait.
    pub(crate) fn push(&mut self, from: &[u8; BLOCK])
        requires { self.old.count < 64 }
        ensures first { self.new.first ≡ self.old.first }
        ensures count { self.new.count ≡ self.old.count + 1 }
        ensures bytes { take (block_size * self.new.count) self.new.bytes.items
            ≡ take (block_size * self.old.count) self.old.bytes.items ++ from.now }
    {
        let at = BLOCK * self.count;
        self.bytes[at..at + BLOCK].copy_from_slice(from);
        self.count += 1;
    }
}
