//! A file in memory that has every name and never fails.

ghost use Rattle.std.specs.Prelude.{◌≡◌, false, true, IfOk};

use crate::files::Files;
use crate::image::Image;
use crate::{Access, BLOCK, Failed};
use std::alloc::{AllocError, Global};

/// A file in memory that has every name and never fails: every attach attaches this file. It has memory for 65,536
/// blocks of 4,096 bytes from the start.
#[derive(Drop)]
pub struct FairFiles {
    image: Image,
    is_attached: bool,
    may_write: bool,
    is_flushed: bool,
}

impl FairFiles {
    ghost use Rattle.bp_io.specs.Memory.{fair_image, fair_view};

    /// Makes a file of these bytes, which is not attached yet.
    ///
    /// # Errors
    ///
    /// `AllocError`: no memory for 268,435,456 bytes, or for these bytes if they are more.
    pub fn new(alloc: Global, bytes: &[u8]) -> Result<Self, AllocError>
        ensures image { IfOk result (λ files. fair_image files ≡ bytes.now) }
        ensures attached { IfOk result (λ files. (fair_view files).is_attached ≡ λ name. false) }
        ensures flushed { IfOk result (λ files. (fair_view files).is_flushed ≡ true) }
    {
        Ok(FairFiles {
            image: Image::new(alloc, bytes)?,
            is_attached: false,
            may_write: false,
            is_flushed: true,
        })
    }

    /// Returns the bytes of the file.
    pub fn image(&self) -> &[u8]
        ensures { result.now ≡ fair_image self.now }
    {
        self.image.bytes()
    }

    /// Returns whether all that was written is flushed.
    pub fn is_flushed(&self) -> bool
        ensures { result ≡ (fair_view self.now).is_flushed }
    {
        self.is_flushed
    }
}

impl Files for FairFiles {
    ghost use Rattle.bp_io.specs.Memory.{fair_view};

    ghost view = { λ s. fair_view s };

    fn attach(&mut self, _name: &str, access: Access) -> Result<Option<u64>, Failed> {
        self.is_attached = true;
        self.may_write = access.may_change();
        Ok(Some(self.image.length()))
    }

    fn read_blocks(&mut self, first: u32, into: &mut [u8]) -> Result<(), Failed> {
        self.image.read_blocks(first, into);
        Ok(())
    }

    fn write_block(&mut self, i: u32, from: &[u8; BLOCK]) -> Result<(), Failed> {
        self.is_flushed = false;
        self.image.write_block(i, from);
        Ok(())
    }

    fn write_blocks(&mut self, first: u32, from: &[u8]) -> Result<(), Failed> {
        self.is_flushed = false;
        self.image.write_blocks(first, from);
        Ok(())
    }

    fn set_blocks(&mut self, n: u32) -> Result<(), Failed> {
        self.is_flushed = false;
        self.image.set_blocks(n);
        Ok(())
    }

    fn replace(&mut self, prefix: &[u8], n: u32) -> Result<(), Failed> {
        self.is_flushed = false;
        self.image.replace(prefix, n);
        Ok(())
    }

    fn flush(&mut self) -> Result<(), Failed> {
        self.is_flushed = true;
        Ok(())
    }
}
