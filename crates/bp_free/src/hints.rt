//! Hints for placing the copy of a block.

use crate::padded::Padded;
use std::alloc::{AllocError, Global};

/// For blocks that were allocated in place of others, the blocks that they replaced. All of this is a hint, which may
/// be wrong.
///
/// It allocates only when it is made, and touches memory up to that of the last block with a hint.
#[derive(Drop)]
pub(crate) struct Hints {
    /// For each block with a possible hint, the block that it was allocated in place of, 0 if none is known. That
    /// block has an older version of this one, if nothing has allocated it since.
    before: Padded<u32>,
    /// One past the last block that was allocated without a hint.
    pub next: u32,
}

impl Hints {
    /// Makes hints that record nothing and allocate nothing.
    pub fn none(alloc: Global) -> Hints {
        Hints {
            before: Padded::none(alloc),
            next: 0,
        }
    }

    /// Makes hints for `blocks` blocks, with nothing recorded yet.
    ///
    /// # Errors
    ///
    /// `AllocError`: out of memory.
    pub fn new(alloc: Global, blocks: usize) -> Result<Hints, AllocError> {
        let before = Padded::new(alloc, blocks)?;
        Ok(Hints { before, next: 0 })
    }

    /// Returns the block that may have an older version of this one, 0 if none is known.
    pub fn older(&self, block: u64) -> u32 {
        if block < self.before.stored() as u64 {
            self.before.get(block as usize)
        } else {
            0
        }
    }

    /// Records that a block was allocated in place of another one, if there are hints for it.
    pub fn note(&mut self, taken: u32, block: u64) {
        if let Ok(block) = u32::try_from(block)
            && (taken as usize) < self.before.room()
        {
            self.before.set(taken as usize, block);
        }
    }
}
