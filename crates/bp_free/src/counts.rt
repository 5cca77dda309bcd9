//! The number of names of each inode.

ghost use Rattle.std.specs.Prelude.{◌≡◌, ◌<◌, IfOk, length, replicate, slice_index, slice_set};

use crate::padded::Padded;
use std::alloc::{AllocError, Global};
use std::marker::Model;

/// A number of names for each inode. The numbers are in memory that is allocated once, up to that of the last inode
/// that ever had a name. So if few inodes are in use, little of that memory is touched.
#[derive(Drop)]
pub struct Counts {
    names: Padded<u32>,
}

impl Model for Counts {
    ghost use Rattle.std.specs.Prelude.{ℕ, List};

    ghost Value = { List ℕ };

    ghost view = { λ counts. counts.names };
}

impl Counts {
    /// Makes counts of 0 for `n` inodes.
    ///
    /// # Errors
    ///
    /// `AllocError`: out of memory.
    pub fn new(alloc: Global, n: usize) -> Result<Counts, AllocError>
        ensures { IfOk result (λ counts. counts ≡ replicate n 0) }
    {
        let names = Padded::new(alloc, n)?;
        Ok(Counts { names })
    }

    /// Returns the number of names of an inode.
    pub fn names(&self, ino: u32) -> u32
        requires { ino < length self.now }
        ensures { result ≡ slice_index self.now ino }
    {
        self.names.get(ino as usize)
    }

    /// Sets the number of names of an inode.
    pub fn set(&mut self, ino: u32, names: u32)
        requires { ino < length self.old }
        ensures { self.new ≡ slice_set self.old ino names }
    {
        self.names.set(ino as usize, names);
    }

    /// Sets the number of names of each inode to 0.
    pub fn clear(&mut self)
        ensures { self.new ≡ replicate (length self.old) 0 }
    {
        self.names.clear();
    }
}
