//! The memory of scans.

ghost use Rattle.std.specs.Prelude.{◌≡◌, ◌≤◌, ◌^◌, IfOk};

use crate::inode_count::no_totals;
use crate::work::Scan;
use bp_free::{Blocks, Counts, Inodes};
use std::alloc::{AllocError, Global};
use std::marker::Model;

/// The working memory of scans: the directories that are still to be read. Contracts describe it by the number of inodes
/// for which it was made.
#[derive(Drop)]
pub struct Pending {
    /// The memory of a scan. Its sets of blocks and inodes and its counts are empty between scans: a scan borrows
    /// those that it fills.
    pub(crate) work: Scan,
    inodes: usize,
}

impl Model for Pending {
    ghost use Rattle.std.specs.Prelude.{ℕ, ◌*◌};
    ghost use Rattle.bp_scan.specs.Room.{HasReserved};

    ghost Value = { ℕ };

    ghost view = { λ pending. pending.inodes };

    ghost invariant = { HasReserved };
}

impl Pending {
    /// Allocates memory for images of at most `inodes` inodes, which is 64 for each block, and at most 2^32.
    ///
    /// # Errors
    ///
    /// - `AllocError`: allocation fails.
    pub fn new(alloc: Global, inodes: usize) -> Result<Pending, AllocError>
        requires { inodes ≤ 2 ^ 32 }
        ensures { IfOk result (λ pending. pending ≡ inodes) }
    {
        let work = Scan {
            blocks: Blocks::new(alloc, 0)?,
            inodes: Inodes::new(alloc, 0)?,
            todo: Inodes::new(alloc, inodes)?,
            counts: Counts::new(alloc, 0)?,
            totals: no_totals(),
        };
        Ok(Pending { work, inodes })
    }

    /// Returns the number of inodes for which it was made.
    pub fn room(&self) -> usize
        ensures { result ≡ self.now }
    {
        self.inodes
    }
}
