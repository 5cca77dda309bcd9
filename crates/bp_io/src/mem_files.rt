//! A file in memory that has every name, or none until it is created, and of which chosen calls fail.

ghost use Rattle.std.specs.Prelude.{◌<◌, ◌+◌, ◌/◌, ◌%◌, ◌⊎◌, List, ℕ, OnOk, OnErr, IfNone, ◌≡◌, ◌≤◌, Some, true, false, length, IfOk, IfSome};
ghost use Rattle.std.specs.Option.{option_copied};
ghost use Rattle.bp_io.specs.Plans.{new_plan, FollowsPlan};
ghost use Rattle.bp_io.specs.Causes.{HasCause};
ghost use Rattle.bp_io.specs.Files.{StaysAttached, StaysOrIsMade, Becomes, Answers, Attaches, IsAttached, KeepsFiles, KeepsOthers, ChangesBytes, MayChange, MayChangeBlocks, Resizes, Replaces, ReplacesPartly, KeepsSize, AreBytesOfBlocks, Reads, makes, with_block, with_blocks};

use crate::faults::CallPlan;
use crate::files::Files;
use crate::image::Image;
use crate::{Access, BLOCK, Failed};
use bp_limits::{BLOCK_SIZE, MAX_FILE_BLOCKS};
use std::alloc::{AllocError, Global};

/// A file in memory that has every name, or none until one is created; then each name has it. It has memory for 65,536
/// blocks of 4,096 bytes from the start.
///
/// Chosen calls fail, and change no byte. The calls of all functions are numbered together from 0, and those fail
/// whose numbers are in a list.
#[derive(Drop)]
pub struct MemFiles<'a> {
    image: Image,
    is_there: bool,
    is_attached: bool,
    may_write: bool,
    is_flushed: bool,
    plan: CallPlan<'a>,
    ghost there: { is_attached ≡ true → is_there ≡ true },
    ghost empty: { is_there ≡ false → length image.bytes.items ≡ 0 },
}

impl<'a> MemFiles<'a> {
    ghost use Rattle.bp_io.specs.Memory.{mem_image, mem_view, files_plan};

    /// Makes a file of these bytes, or none, which is not attached yet. The calls fail whose numbers are in `fail_at`;
    /// the first call has the number 0.
    ///
    /// # Errors
    ///
    /// `AllocError`: no memory for 268,435,456 bytes, or for these bytes if they are more.
    pub fn new(alloc: Global, image: Option<&[u8]>, fail_at: &'a [u64]) -> Result<Self, AllocError>
        ensures image { IfOk result (λ files. mem_image files ≡ option_copied image.entry) }
        ensures attached { IfOk result (λ files. (mem_view files).is_attached ≡ λ name. false) }
        ensures flushed { IfOk result (λ files. (mem_view files).is_flushed ≡ true) }
        ensures plan { IfOk result (λ files. files_plan files ≡ new_plan fail_at.entry.now) }
        ensures faults { IfOk result (λ files. (mem_view files).faults ≡ 0) }
    {
        Ok(MemFiles {
            image: Image::new(alloc, image.unwrap_or(&[]))?,
            is_there: image.is_some(),
            is_attached: false,
            may_write: false,
            is_flushed: true,
            plan: CallPlan::new(fail_at),
        })
    }

    /// Returns the bytes of the file, if it exists.
    pub fn image(&self) -> Option<&[u8]>
        ensures { option_copied result ≡ mem_image self.now }
    {
        if self.is_there {
            Some(self.image.bytes())
        } else {
            None
        }
    }

    /// Returns whether all that was written is flushed.
    pub fn is_flushed(&self) -> bool
        ensures { result ≡ (mem_view self.now).is_flushed }
    {
        self.is_flushed
    }
}

impl Files for MemFiles<'_> {
    ghost use Rattle.bp_io.specs.Memory.{mem_image, mem_view, files_plan};

    ghost view = { λ s. mem_view s };

    fn attach(&mut self, _name: &str, access: Access) -> Result<Option<u64>, Failed>
        ensures answers { IfOk result (Answers (Some (mem_image self.old)) (makes access)) }
        ensures attached { IfOk result (λ r. IfSome r (IsAttached (mem_view self.new) _name.now access)) }
        ensures contents { IfOk result (λ r. Attaches (Some (mem_image self.old)) r (Some (mem_image self.new))) }

        // If no file was attached, the previous one still is.
        ensures missing { IfOk result (λ r. IfNone r (StaysAttached (mem_view self.old) (mem_view self.new))) }
        ensures failed { OnErr result (StaysAttached (mem_view self.old) (mem_view self.new)) }

        // Each existing file keeps its bytes, and a new file is empty.
        ensures kept { (other : List ℕ) →
            Becomes (λ bytes. bytes) (Some (mem_image self.old)) (Some (mem_image self.new)) }
        ensures made { (other : List ℕ) →
            StaysOrIsMade (makes access) (Some (mem_image self.old)) (Some (mem_image self.new)) }

        // An attach never turns a file into a flushed one that was not known to be.
        ensures flushed { makes access ≡ false → (mem_view self.new).is_flushed ≡ (mem_view self.old).is_flushed }
        ensures flushed_before { (mem_view self.new).is_flushed ≡ true → (mem_view self.old).is_flushed ≡ true }
        ensures cause { HasCause (mem_view self.old).faults (mem_view self.new).faults result }

        // A call fails exactly if the plan says so, and then changes no byte.
        ensures plan { FollowsPlan (files_plan self.old) (files_plan self.new) result }
        ensures unchanged { OnErr result (mem_image self.new ≡ mem_image self.old) }
    {
        self.plan.call()?;
        if !self.is_there {
            if !access.makes() {
                return Ok(None);
            }
            self.is_there = true;
            self.is_flushed = false;
        }
        self.is_attached = true;
        self.may_write = access.may_change();
        Ok(Some(self.image.length()))
    }

    fn read_blocks(&mut self, first: u32, into: &mut [u8]) -> Result<(), Failed>
        requires whole { length into.old % BLOCK_SIZE ≡ 0 }
        requires inside { first + length into.old / BLOCK_SIZE ≤ (mem_view self.old).blocks }
        ensures blocks { OnOk result (AreBytesOfBlocks (mem_view self.old) first (length into.old / BLOCK_SIZE) into.new) }
        ensures reads { Reads (mem_view self.old) (mem_view self.new) }
        ensures cause { HasCause (mem_view self.old).faults (mem_view self.new).faults result }

        // A call fails exactly if the plan says so.
        ensures plan { FollowsPlan (files_plan self.old) (files_plan self.new) result }
    {
        self.plan.call()?;
        self.image.read_blocks(first, into);
        Ok(())
    }

    fn write_block(&mut self, i: u32, from: &[u8; BLOCK]) -> Result<(), Failed>
        requires inside { i < (mem_view self.old).blocks }
        requires may_write { (mem_view self.old).may_write ≡ true }
        ensures written { OnOk result (ChangesBytes (with_block i from.now) (mem_view self.old) (mem_view self.new)) }
        ensures failed { OnErr result (MayChange (with_block i from.now) (mem_view self.old) (mem_view self.new)) }
        ensures others { KeepsOthers (mem_view self.old) (mem_view self.new) }
        ensures attached { StaysAttached (mem_view self.old) (mem_view self.new) }
        ensures flushed { (mem_view self.new).is_flushed ≡ false }
        ensures cause { HasCause (mem_view self.old).faults (mem_view self.new).faults result }

        // A call fails exactly if the plan says so, and then changes no byte.
        ensures plan { FollowsPlan (files_plan self.old) (files_plan self.new) result }
        ensures unchanged { OnErr result (mem_image self.new ≡ mem_image self.old) }
    {
        self.is_flushed = false;
        self.plan.call()?;
        self.image.write_block(i, from);
        Ok(())
    }

    fn write_blocks(&mut self, first: u32, from: &[u8]) -> Result<(), Failed>
        requires attached { (name : List ℕ) × ((mem_view self.old).is_attached name ≡ true) }
        requires may_write { (mem_view self.old).may_write ≡ true }
        requires whole { length from.now % BLOCK_SIZE ≡ 0 }
        requires inside { first + length from.now / BLOCK_SIZE ≤ (mem_view self.old).blocks }
        ensures written { OnOk result
            (ChangesBytes (with_blocks first from.now) (mem_view self.old) (mem_view self.new)) }
        ensures failed { OnErr result
            (MayChangeBlocks (with_blocks first from.now) (mem_view self.old) (mem_view self.new)) }
        ensures others { KeepsOthers (mem_view self.old) (mem_view self.new) }
        ensures attached { StaysAttached (mem_view self.old) (mem_view self.new) }
        ensures flushed { (mem_view self.new).is_flushed ≡ false }
        ensures cause { HasCause (mem_view self.old).faults (mem_view self.new).faults result }

        // A call fails exactly if the plan says so, and then changes no byte.
        ensures plan { FollowsPlan (files_plan self.old) (files_plan self.new) result }
        ensures unchanged { OnErr result (mem_image self.new ≡ mem_image self.old) }
    {
        self.is_flushed = false;
        self.plan.call()?;
        self.image.write_blocks(first, from);
        Ok(())
    }

    fn set_blocks(&mut self, n: u32) -> Result<(), Failed>
        requires attached { (name : List ℕ) × ((mem_view self.old).is_attached name ≡ true) }
        requires may_write { (mem_view self.old).may_write ≡ true }
        requires fits { n ≤ MAX_FILE_BLOCKS }
        ensures resized { OnOk result (Resizes n (mem_view self.old) (mem_view self.new)) }
        ensures failed { OnErr result (KeepsSize (mem_view self.old) (mem_view self.new)
            ⊎ Resizes n (mem_view self.old) (mem_view self.new)) }
        ensures others { KeepsOthers (mem_view self.old) (mem_view self.new) }
        ensures attached { (name : List ℕ) →
            (mem_view self.new).is_attached name ≡ (mem_view self.old).is_attached name }
        ensures may_write { (mem_view self.new).may_write ≡ (mem_view self.old).may_write }
        ensures flushed { (mem_view self.new).is_flushed ≡ false }
        ensures cause { HasCause (mem_view self.old).faults (mem_view self.new).faults result }

        // A call fails exactly if the plan says so, and then changes no byte.
        ensures plan { FollowsPlan (files_plan self.old) (files_plan self.new) result }
        ensures unchanged { OnErr result (mem_image self.new ≡ mem_image self.old) }
    {
        self.is_flushed = false;
        self.plan.call()?;
        self.image.set_blocks(n);
        Ok(())
    }

    fn replace(&mut self, prefix: &[u8], n: u32) -> Result<(), Failed>
        requires attached { (name : List ℕ) × ((mem_view self.old).is_attached name ≡ true) }
        requires may_write { (mem_view self.old).may_write ≡ true }
        requires whole { length prefix.now % BLOCK_SIZE ≡ 0 }
        requires inside { length prefix.now / BLOCK_SIZE ≤ n }
        requires fits { n ≤ MAX_FILE_BLOCKS }
        ensures replaced { OnOk result (Replaces prefix.now n (mem_view self.old) (mem_view self.new)) }
        ensures failed { OnErr result (ReplacesPartly prefix.now n (mem_view self.old) (mem_view self.new)) }
        ensures others { KeepsOthers (mem_view self.old) (mem_view self.new) }
        ensures attached { (name : List ℕ) →
            (mem_view self.new).is_attached name ≡ (mem_view self.old).is_attached name }
        ensures may_write { (mem_view self.new).may_write ≡ (mem_view self.old).may_write }
        ensures flushed { (mem_view self.new).is_flushed ≡ false }
        ensures cause { HasCause (mem_view self.old).faults (mem_view self.new).faults result }

        // A call fails exactly if the plan says so, and then changes no byte.
        ensures plan { FollowsPlan (files_plan self.old) (files_plan self.new) result }
        ensures unchanged { OnErr result (mem_image self.new ≡ mem_image self.old) }
    {
        self.is_flushed = false;
        self.plan.call()?;
        self.image.replace(prefix, n);
        Ok(())
    }

    fn flush(&mut self) -> Result<(), Failed>
        requires attached { (name : List ℕ) × ((mem_view self.old).is_attached name ≡ true) }
        requires may_write { (mem_view self.old).may_write ≡ true }
        ensures contents { KeepsFiles (mem_view self.old) (mem_view self.new) }
        ensures attached { StaysAttached (mem_view self.old) (mem_view self.new) }
        ensures flushed { OnOk result ((mem_view self.new).is_flushed ≡ true) }
        ensures failed { OnErr result ((mem_view self.new).is_flushed ≡ (mem_view self.old).is_flushed) }
        ensures cause { HasCause (mem_view self.old).faults (mem_view self.new).faults result }

        // A call fails exactly if the plan says so.
        ensures plan { FollowsPlan (files_plan self.old) (files_plan self.new) result }
    {
        self.plan.call()?;
        self.is_flushed = true;
        Ok(())
    }
}
