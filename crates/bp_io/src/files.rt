//! Files of blocks.

ghost use Rattle.std.specs.Prelude.{◌⊎◌, OnErr, ◌≡◌, ◌≤◌, ◌<◌, ◌+◌, ◌/◌, ◌%◌, List, length, ℕ, IfNone, IfOk, OnOk, IfSome, true, false};
ghost use Rattle.bp_io.specs.Causes.{HasCause};
ghost use Rattle.bp_io.specs.Files.{StaysAttached, StaysOrIsMade, Becomes, Answers, Attaches, IsAttached, KeepsFiles, KeepsOthers, ChangesBytes, MayChange, MayChangeBlocks, Resizes, Replaces, ReplacesPartly, KeepsSize, AreBytesOfBlocks, Reads, makes, with_block, with_blocks};
ghost use Rattle.bp_io.specs.Views.{View};

use crate::{Access, Failed};
use bp_limits::{BLOCK_SIZE, MAX_FILE_BLOCKS};

/// The bytes of a block, as a length.
pub const BLOCK: usize = BLOCK_SIZE as usize;

/// Files of blocks of 4,096 bytes, of which one at a time is attached.
///
/// What is unknown of a file stays unknown. A call fails only if the environment failed in that call, and it counts
/// the fault. A failed call leaves the same file attached, and changes nothing except what its postconditions allow.
pub trait Files {
    /// What is known of the files.
    ghost view: { Self → View };

    /// Attaches the file of that name in place of the previous one, and returns its length in bytes, or `None` exactly
    /// if the name does not exist and no file is to be created. With `Access::Make`, a name that does not exist gets
    /// an empty file. A length that is no whole number of blocks is returned as it is; the bytes after the last whole
    /// block belong to no block.
    ///
    /// # Errors
    ///
    /// `Failed`: the environment failed in this call. The previous file stays attached; with `Access::Make`, the name
    /// may have got an empty file.
    fn attach(&mut self, name: &str, access: Access) -> Result<Option<u64>, Failed>
        ensures answers { IfOk result (Answers ((view self.old).contents name.now) (makes access)) }
        ensures attached { IfOk result (λ r. IfSome r (IsAttached (view self.new) name.now access)) }
        ensures contents { IfOk result (λ r. Attaches ((view self.old).contents name.now) r
            ((view self.new).contents name.now)) }

        // If no file was attached, the previous one still is.
        ensures missing { IfOk result (λ r. IfNone r (StaysAttached (view self.old) (view self.new))) }
        ensures failed { OnErr result (StaysAttached (view self.old) (view self.new)) }

        // Each existing file keeps its bytes, and a new file is empty.
        ensures kept { (other : List ℕ) →
            Becomes (λ bytes. bytes) ((view self.old).contents other) ((view self.new).contents other) }
        ensures made { (other : List ℕ) →
            StaysOrIsMade (makes access) ((view self.old).contents other) ((view self.new).contents other) }

        // An attach never turns a file into a flushed one that was not known to be.
        ensures flushed { makes access ≡ false → (view self.new).is_flushed ≡ (view self.old).is_flushed }
        ensures flushed_before { (view self.new).is_flushed ≡ true → (view self.old).is_flushed ≡ true }
        ensures cause { HasCause (view self.old).faults (view self.new).faults result };

    /// Reads as many blocks of the attached file as fit into `into`, from block `first` on, counted from 0.
    ///
    /// # Errors
    ///
    /// `Failed`: the environment failed in this call. The contents of `into` are unspecified.
    fn read_blocks(&mut self, first: u32, into: &mut [u8]) -> Result<(), Failed>
        requires whole { length into.old % BLOCK_SIZE ≡ 0 }
        requires inside { first + length into.old / BLOCK_SIZE ≤ (view self.old).blocks }
        ensures blocks { OnOk result (AreBytesOfBlocks (view self.old) first (length into.old / BLOCK_SIZE) into.new) }
        ensures reads { Reads (view self.old) (view self.new) }
        ensures cause { HasCause (view self.old).faults (view self.new).faults result };

    /// Writes block `i` of the attached file, counted from 0. All other bytes stay.
    ///
    /// # Errors
    ///
    /// `Failed`: the environment failed in this call. The block is as before, or the one that was to be written.
    fn write_block(&mut self, i: u32, from: &[u8; BLOCK]) -> Result<(), Failed>
        requires inside { i < (view self.old).blocks }
        requires may_write { (view self.old).may_write ≡ true }
        ensures written { OnOk result (ChangesBytes (with_block i from.now) (view self.old) (view self.new)) }
        ensures failed { OnErr result (MayChange (with_block i from.now) (view self.old) (view self.new)) }
        ensures others { KeepsOthers (view self.old) (view self.new) }
        ensures attached { StaysAttached (view self.old) (view self.new) }
        ensures flushed { (view self.new).is_flushed ≡ false }
        ensures cause { HasCause (view self.old).faults (view self.new).faults result };

    /// Writes as many blocks of the attached file as `from` has, from block `first` on, counted from 0. All other
    /// bytes stay.
    ///
    /// # Errors
    ///
    /// `Failed`: the environment failed in this call. Each of these blocks is as before, or the one that was to be
    /// written.
    fn write_blocks(&mut self, first: u32, from: &[u8]) -> Result<(), Failed>
        requires attached { (name : List ℕ) × ((view self.old).is_attached name ≡ true) }
        requires may_write { (view self.old).may_write ≡ true }
        requires whole { length from.now % BLOCK_SIZE ≡ 0 }
        requires inside { first + length from.now / BLOCK_SIZE ≤ (view self.old).blocks }
        ensures written { OnOk result (ChangesBytes (with_blocks first from.now) (view self.old) (view self.new)) }
        ensures failed { OnErr result (MayChangeBlocks (with_blocks first from.now) (view self.old) (view self.new)) }
        ensures others { KeepsOthers (view self.old) (view self.new) }
        ensures attached { StaysAttached (view self.old) (view self.new) }
        ensures flushed { (view self.new).is_flushed ≡ false }
        ensures cause { HasCause (view self.old).faults (view self.new).faults result };

    /// Sets the length of the attached file to `n` blocks: it is truncated, or padded with zeros.
    ///
    /// # Errors
    ///
    /// `Failed`: the environment failed in this call. The file has its old length or the new one.
    fn set_blocks(&mut self, n: u32) -> Result<(), Failed>
        requires attached { (name : List ℕ) × ((view self.old).is_attached name ≡ true) }
        requires may_write { (view self.old).may_write ≡ true }
        requires fits { n ≤ MAX_FILE_BLOCKS }
        ensures resized { OnOk result (Resizes n (view self.old) (view self.new)) }
        ensures failed { OnErr result
            (KeepsSize (view self.old) (view self.new) ⊎ Resizes n (view self.old) (view self.new)) }
        ensures others { KeepsOthers (view self.old) (view self.new) }
        ensures attached { (name : List ℕ) → (view self.new).is_attached name ≡ (view self.old).is_attached name }
        ensures may_write { (view self.new).may_write ≡ (view self.old).may_write }
        ensures flushed { (view self.new).is_flushed ≡ false }
        ensures cause { HasCause (view self.old).faults (view self.new).faults result };

    /// Replaces the attached file by `n` blocks, whatever its contents were: its first blocks are those of `prefix`,
    /// and all blocks after them are zeros.
    ///
    /// # Errors
    ///
    /// `Failed`: the environment failed in this call. The file has its old length or the new one, and each of its
    /// blocks is as before, or as before and padded with zeros, or the new one.
    fn replace(&mut self, prefix: &[u8], n: u32) -> Result<(), Failed>
        requires attached { (name : List ℕ) × ((view self.old).is_attached name ≡ true) }
        requires may_write { (view self.old).may_write ≡ true }
        requires whole { length prefix.now % BLOCK_SIZE ≡ 0 }
        requires inside { length prefix.now / BLOCK_SIZE ≤ n }
        requires fits { n ≤ MAX_FILE_BLOCKS }
        ensures replaced { OnOk result (Replaces prefix.now n (view self.old) (view self.new)) }
        ensures failed { OnErr result (ReplacesPartly prefix.now n (view self.old) (view self.new)) }
        ensures others { KeepsOthers (view self.old) (view self.new) }
        ensures attached { (name : List ℕ) → (view self.new).is_attached name ≡ (view self.old).is_attached name }
        ensures may_write { (view self.new).may_write ≡ (view self.old).may_write }
        ensures flushed { (view self.new).is_flushed ≡ false }
        ensures cause { HasCause (view self.old).faults (view self.new).faults result };

    /// Asks the system to make what was written to the attached file durable. That the system does so is trusted.
    ///
    /// # Errors
    ///
    /// `Failed`: the environment failed in this call. What was not known to be flushed still is not.
    fn flush(&mut self) -> Result<(), Failed>
        requires attached { (name : List ℕ) × ((view self.old).is_attached name ≡ true) }
        requires may_write { (view self.old).may_write ≡ true }
        ensures contents { KeepsFiles (view self.old) (view self.new) }
        ensures attached { StaysAttached (view self.old) (view self.new) }
        ensures flushed { OnOk result ((view self.new).is_flushed ≡ true) }
        ensures failed { OnErr result ((view self.new).is_flushed ≡ (view self.old).is_flushed) }
        ensures cause { HasCause (view self.old).faults (view self.new).faults result };
}
