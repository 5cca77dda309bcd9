//! The state of the blocks of a second file.

ghost use Rattle.bp_disk.specs.Held.{AllLack, HasNone, HasOnly, IsNextRun, Notes, Swaps, state_of};
ghost use Rattle.bp_limits.specs.Limits.{block_size, max_file_blocks};
ghost use Rattle.std.specs.Int.{div_ceil};
ghost use Rattle.std.specs.Prelude.{◌≡◌, ◌⊎◌, ◌<◌, ◌≤◌, ◌+◌, ◌*◌, ◌/◌, ◌^◌, IfOk, MatchOption, vec_len};

use bp_limits::{BLOCK_SIZE, MAX_FILE_BLOCKS};
use std::alloc::{AllocError, Global};

/// The number of blocks whose state is recorded.
const BLOCKS: usize = MAX_FILE_BLOCKS as usize;

/// The bytes of the blocks whose state is recorded.
pub(crate) const TRACKED_BYTES: u64 = BLOCK_SIZE * MAX_FILE_BLOCKS as u64;

/// The state of a block of a second file.
#[derive(Clone, Copy, PartialEq, Eq)]
pub(crate) enum Held {
    /// It has the bytes of the first file, which stay.
    Same,
    /// It does not have the bytes of the first file yet, which stay.
    Lacking,
    /// It has bytes that were written since the last flush.
    Written,
    /// It has zeros by the length alone, since the last flush.
    Zeros,
}

/// Consecutive blocks: the number of the first, and of the block after the last.
#[derive(Clone, Copy)]
pub(crate) struct Run {
    pub(crate) first: usize,
    pub(crate) next: usize,
}

impl Run {
    /// Returns the byte at which the run begins.
    pub(crate) fn start(self) -> u64
        requires { self.first ≤ max_file_blocks }
        ensures { result ≡ block_size * self.first }
    {
        BLOCK_SIZE * self.first as u64
    }

    /// Returns the byte after the run.
    pub(crate) fn end(self) -> u64
        requires { self.next ≤ max_file_blocks }
        ensures { result ≡ block_size * self.next }
    {
        BLOCK_SIZE * self.next as u64
    }
}

/// The state of each block of a second file, as far as it is recorded.
#[derive(Drop)]
pub(crate) struct HeldBlocks {
    pub(crate) blocks: Vec<Held>,
    ghost size: { vec_len blocks ≡ max_file_blocks },
}

/// Returns the states of this many blocks, none of which has its bytes.
fn all_lacking(alloc: Global, count: usize) -> Result<Vec<Held>, AllocError>
    ensures size { IfOk result (λ blocks. vec_len blocks ≡ count) }
    ensures each { IfOk result (λ blocks. AllLack blocks.items) }
{
    vec![in alloc; Held::Lacking; count]
}

impl HeldBlocks {
    /// Makes the state in which no block has its bytes.
    pub(crate) fn new(alloc: Global) -> Result<Self, AllocError>
        ensures { IfOk result (λ held. AllLack held.blocks.items) }
    {
        Ok(HeldBlocks {
            blocks: all_lacking(alloc, BLOCKS)?,
        })
    }

    /// Resets the state: no block has its bytes.
    pub(crate) fn clear(&mut self)
        ensures { AllLack self.new.blocks.items }
    {
        self.set(0, BLOCKS as u64, Held::Lacking);
    }

    /// Sets the state of the blocks from one on, up to another one.
    fn set(&mut self, first: u64, end: u64, held: Held)
        ensures { Notes first end held self.old.blocks.items self.new.blocks.items }
    {
        let end = end.min(BLOCKS as u64) as usize;
        let first = first.min(end as u64) as usize;
        for i in first..end {
            self.blocks[i] = held;
        }
    }

    /// Records that the blocks of these bytes were written.
    pub(crate) fn set_written(&mut self, at: u64, count: u64)
        requires { at + count < 2 ^ 64 }
        ensures { Notes (at / block_size) (div_ceil (at + count) block_size) Held.Written
            self.old.blocks.items self.new.blocks.items }
    {
        self.set(
            at / BLOCK_SIZE,
            (at + count).div_ceil(BLOCK_SIZE),
            Held::Written,
        );
    }

    /// Records that all blocks after these bytes are zeros by the length alone.
    pub(crate) fn set_zeros_after(&mut self, length: u64)
        ensures { Notes (div_ceil length block_size) max_file_blocks Held.Zeros
            self.old.blocks.items self.new.blocks.items }
    {
        self.set(length.div_ceil(BLOCK_SIZE), BLOCKS as u64, Held::Zeros);
    }

    /// Records that the blocks of a run have the bytes of the first file.
    pub(crate) fn set_same(&mut self, run: Run)
        ensures { Notes run.first run.next Held.Same self.old.blocks.items self.new.blocks.items }
    {
        self.set(run.first as u64, run.next as u64, Held::Same);
    }

    /// Records that the second file took the place of the first, which is the next second file: it lacks what was
    /// written.
    pub(crate) fn swap(&mut self)
        ensures { Swaps self.old.blocks.items self.new.blocks.items }
    {
        for i in 0..BLOCKS {
            self.blocks[i] = match self.blocks[i] {
                Held::Same => Held::Same,
                Held::Lacking | Held::Written | Held::Zeros => Held::Lacking,
            };
        }
    }

    /// Returns the first block in this state, from one on, or the number of all blocks if there is none.
    fn first_of(&self, from: usize, held: Held) -> usize
        requires { from ≤ max_file_blocks }
        ensures low { from ≤ result }
        ensures high { result ≤ max_file_blocks }
        ensures skipped { HasNone self.now.blocks.items from result held }
        ensures found { result < max_file_blocks → state_of self.now.blocks.items result ≡ held }
    {
        let mut at = from;
        while at < BLOCKS && self.blocks[at] != held {
            at += 1;
        }
        at
    }

    /// Returns the end of the consecutive blocks in this state, from one on.
    fn end_of(&self, from: usize, held: Held) -> usize
        requires { from ≤ max_file_blocks }
        ensures low { from ≤ result }
        ensures high { result ≤ max_file_blocks }
        ensures each { HasOnly self.now.blocks.items from result held }
        ensures longest { (result ≡ max_file_blocks) ⊎ ¬ (state_of self.now.blocks.items result ≡ held) }
    {
        let mut at = from;
        while at < BLOCKS && self.blocks[at] == held {
            at += 1;
        }
        at
    }

    /// Returns the next consecutive blocks in this state, from one on.
    pub(crate) fn run_of(&self, from: usize, held: Held) -> Option<Run>
        requires { from ≤ max_file_blocks }
        ensures { MatchOption result (HasNone self.now.blocks.items from max_file_blocks held)
            (IsNextRun self.now.blocks.items from held) }
    {
        let first = self.first_of(from, held);
        if first == BLOCKS {
            return None;
        }
        let next = self.end_of(first + 1, held);
        Some(Run { first, next })
    }
}
