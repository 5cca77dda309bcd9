//! A second file, which takes the place of the first once it is complete.

ghost use Rattle.bp_disk.specs.Calls.{number_of};
ghost use Rattle.bp_disk.specs.Disk.{ChangesNone, ChangesOnly, Cuts, HasOnlyBytes, IsCopied, IsNamed, IsOther, Settles, Spares, TakesPlace, Writes, led};
ghost use Rattle.bp_disk.specs.Held.{IsZeros, Notes};
ghost use Rattle.bp_disk.specs.Second.{CompletesStates, IsCompleted};
ghost use Rattle.bp_limits.specs.Limits.{block_size, max_file_blocks};
ghost use Rattle.std.specs.Int.{div_ceil};
ghost use Rattle.std.specs.Prelude.{◌≡◌, ◌<◌, ◌≤◌, ◌+◌, ◌*◌, ◌/◌, ◌^◌, ◌↔◌, IfOk, IsTrue, OnErr, OnOk, length, min, take};

use crate::exclusive_open::{check_length, lock};
use crate::held_blocks::{Held, HeldBlocks, TRACKED_BYTES};
use crate::names::Names;
use crate::system::System;
use crate::window::Window;
use bp_io::Access;
use std::fs::{File, Metadata};
use std::io;
use std::io::ErrorKind;
use std::os::unix::fs::{MetadataExt, fchown};

/// The number of bytes that the system counts as one block of a file's room.
const ROOM_UNIT: u64 = 512;

/// The number of bytes that are copied at once.
const PIECE: usize = 65_536;

/// A second file of a first one. The state of its blocks is in `HeldBlocks`; the bytes past the blocks whose state is
/// recorded are final.
#[derive(Drop)]
pub(crate) struct TempFile {
    pub(crate) file: File,
    pub(crate) folder: File,
    /// The number of bytes of the first file that stay, except those that were written.
    pub(crate) kept: u64,
    /// The length that the file will have.
    pub(crate) length: u64,
    /// Whether zeros of the first file are left out: this file was newly made, so that it has zeros there by its
    /// length, and the first file has holes as well.
    pub(crate) has_holes: bool,
}

/// Returns whether an error says that there is no room on the disk.
pub(crate) fn lacks_room(error: &io::Error) -> bool {
    matches!(
        error.kind(),
        ErrorKind::StorageFull | ErrorKind::QuotaExceeded
    )
}

/// Returns whether a file has all of its room on the disk.
fn is_full(metadata: &Metadata) -> bool {
    metadata.len() / ROOM_UNIT <= metadata.blocks()
}

/// Returns whether a file has all of its room on the disk, so that no write in it needs more, up to this length.
pub(crate) fn has_room(file: &File, length: u64) -> io::Result<bool> {
    let metadata = file.metadata()?;
    Ok(length <= metadata.len() && is_full(&metadata))
}

/// Gives a file the owner, the group and the permissions of another one on the same file system.
fn take_after(file: &File, first: &Metadata) -> io::Result<()> {
    let own = file.metadata()?;
    if own.dev() != first.dev() {
        return Err(ErrorKind::CrossesDevices.into());
    }
    if own.uid() != first.uid() || own.gid() != first.gid() {
        fchown(file, Some(first.uid()), Some(first.gid()))?;
    }
    file.set_permissions(first.permissions())
}

/// Returns whether a piece has only zeros.
fn is_zeros(piece: &[u8]) -> bool
    ensures { IsTrue result ↔ IsZeros piece.now }
{
    piece.iter().all(|byte| *byte == 0)
}

/// Copies a piece of a file, from byte `at` on, to the same place in another one, through a buffer of its length. If
/// the other one has a hole there, zeros are left out.
fn copy_piece<S: System>(
    system: &mut S,
    from: &File,
    to: &File,
    at: u64,
    piece: &mut [u8],
    has_hole: bool,
) -> io::Result<()>
    ensures named { (led (S.calls system.new)).second ≡ (led (S.calls system.old)).second }
    ensures changes { ChangesOnly (number_of to.now) (S.calls system.old) (S.calls system.new) }
    ensures copied { OnOk result (IsCopied has_hole (number_of from.now) (number_of to.now) at (at + length piece.old)
        (S.calls system.old) (S.calls system.new)) }
{
    system.read(from, piece, at)?;
    if has_hole && is_zeros(piece) {
        return Ok(());
    }
    system.write(to, piece, at)
}

/// Copies the bytes from `start` up to `end` from a file to the same place in another one, through a buffer. If the
/// other one has holes, pieces that have only zeros are left out.
fn copy_bytes<S: System>(
    system: &mut S,
    from: &File,
    to: &File,
    start: u64,
    end: u64,
    piece: &mut [u8; PIECE],
    has_holes: bool,
) -> io::Result<()>
    ensures named { (led (S.calls system.new)).second ≡ (led (S.calls system.old)).second }
    ensures changes { ChangesOnly (number_of to.now) (S.calls system.old) (S.calls system.new) }
    ensures copied { OnOk result (IsCopied has_holes (number_of from.now) (number_of to.now) start end
        (S.calls system.old) (S.calls system.new)) }
{
    let mut at = start;
    while at < end {
        let count = (end - at).min(PIECE as u64);
        copy_piece(
            system,
            from,
            to,
            at,
            &mut piece[..count as usize],
            has_holes,
        )?;
        at += count;
    }
    Ok(())
}

/// Writes zeros from byte `start` up to `end`.
fn write_zeros<S: System>(system: &mut S, file: &File, start: u64, end: u64) -> io::Result<()>
    ensures { ChangesOnly (number_of file.now) (S.calls system.old) (S.calls system.new) }
{
    let piece = [0u8; PIECE];
    let mut at = start;
    while at < end {
        let count = (end - at).min(PIECE as u64);
        system.write(file, &piece[..count as usize], at)?;
        at += count;
    }
    Ok(())
}

/// Replaces a file by these bytes in place, and zeros after them up to its new length. The file frees no room on the
/// disk that it still needs, and never has a third length.
pub(crate) fn fill_in_place<S: System>(
    system: &mut S,
    file: &File,
    prefix: &[u8],
    length: u64,
) -> io::Result<()>
    ensures { ChangesOnly (number_of file.now) (S.calls system.old) (S.calls system.new) }
{
    let had = file.metadata()?.len();
    system.set_len(file, length)?;
    system.write(file, prefix, 0)?;
    write_zeros(system, file, prefix.len() as u64, had.min(length))
}

/// Locks a file, and makes it like the first one except for the blocks whose state is recorded.
fn prepare<S: System>(
    system: &mut S,
    file: &File,
    first: &File,
    metadata: &Metadata,
) -> io::Result<()>
    ensures changes { ChangesOnly (number_of file.now) (S.calls system.old) (S.calls system.new) }
    ensures named { (led (S.calls system.new)).second ≡ (led (S.calls system.old)).second }
{
    lock(file, Access::Write)?;
    take_after(file, metadata)?;
    system.set_len(file, metadata.len())?;
    copy_bytes(
        system,
        first,
        file,
        TRACKED_BYTES,
        metadata.len(),
        &mut [0; PIECE],
        false,
    )
}

/// Returns the file that waits under the second name, or a new one.
fn take_or_make<S: System>(
    system: &mut S,
    names: &Names,
    first: &File,
    waiting: Option<File>,
) -> io::Result<File>
    ensures spares { Spares (number_of first.now) (S.calls system.old) (S.calls system.new) }
    ensures other { IsOther (number_of first.now) waiting → IfOk result (λ second. ¬ (number_of second ≡ number_of first.now)) }
    ensures named { IsNamed (S.calls system.old) waiting → IfOk result (λ second.
        (led (S.calls system.new)).second ≡ number_of second) }
{
    match waiting {
        Some(file) => Ok(file),
        None => Ok(names.make_second(system, first)?),
    }
}

impl TempFile {
    /// Makes a second file for the first: from the one that waits under the second name, whose state is in `held`, or
    /// a new one.
    ///
    /// # Errors
    ///
    /// `in_use`: another process has a file of that name. Otherwise no such file can take the place of the first. No
    /// second file is left.
    pub(crate) fn new<S: System>(
        system: &mut S,
        names: &Names,
        first: &File,
        waiting: Option<File>,
        held: &mut HeldBlocks,
    ) -> io::Result<Self>
        ensures spares { IsOther (number_of first.now) waiting → Spares (number_of first.now) (S.calls system.old) (S.calls system.new) }
        ensures other { IsOther (number_of first.now) waiting → IfOk result (λ second. ¬ (number_of second.file ≡ number_of first.now)) }
        ensures named { IsNamed (S.calls system.old) waiting → IfOk result (λ second.
            (led (S.calls system.new)).second ≡ number_of second.file) }
    {
        if waiting.is_none() {
            held.clear();
        }
        let waits = waiting.is_some();
        let made = Self::make(system, names, first, waiting);
        if waits && made.is_err() {
            names.remove_second(system);
        }
        made
    }

    fn make<S: System>(
        system: &mut S,
        names: &Names,
        first: &File,
        waiting: Option<File>,
    ) -> io::Result<Self>
        ensures spares { IsOther (number_of first.now) waiting → Spares (number_of first.now) (S.calls system.old) (S.calls system.new) }
        ensures other { IsOther (number_of first.now) waiting → IfOk result (λ second. ¬ (number_of second.file ≡ number_of first.now)) }
        ensures named { IsNamed (S.calls system.old) waiting → IfOk result (λ second.
            (led (S.calls system.new)).second ≡ number_of second.file) }
    {
        names.remove_old(system, first);
        let metadata = first.metadata()?;
        if metadata.nlink() > 1 {
            return Err(ErrorKind::TooManyLinks.into());
        }
        let folder = names.open_folder(system)?;
        let has_holes = waiting.is_none() && !is_full(&metadata);
        let file = take_or_make(system, names, first, waiting)?;
        if let Err(e) = prepare(system, &file, first, &metadata) {
            names.remove_second(system);
            return Err(e);
        }
        Ok(TempFile {
            file,
            folder,
            kept: metadata.len(),
            length: metadata.len(),
            has_holes,
        })
    }

    /// Writes these bytes from a byte on.
    pub(crate) fn write<S: System>(
        &self,
        system: &mut S,
        held: &mut HeldBlocks,
        from: &[u8],
        at: u64,
    ) -> io::Result<()>
        requires { at + length from.now < 2 ^ 64 }
        ensures changes { ChangesOnly (number_of self.now.file) (S.calls system.old) (S.calls system.new) }
        ensures named { (led (S.calls system.new)).second ≡ (led (S.calls system.old)).second }
        ensures written { OnOk result (Writes (number_of self.now.file) at from.now (S.calls system.old) (S.calls system.new)) }
        ensures held { OnOk result (Notes (at / block_size) (div_ceil (at + length from.now) block_size) Held.Written
            held.old.blocks.items held.new.blocks.items) }
        ensures failed { OnErr result (held.new ≡ held.old) }
    {
        system.write(&self.file, from, at)?;
        held.set_written(at, from.len() as u64);
        Ok(())
    }

    /// Writes the blocks that wait.
    pub(crate) fn take<S: System>(
        &self,
        system: &mut S,
        held: &mut HeldBlocks,
        window: &mut Window,
    ) -> io::Result<()>
        ensures changes { ChangesOnly (number_of self.now.file) (S.calls system.old) (S.calls system.new) }
        ensures named { (led (S.calls system.new)).second ≡ (led (S.calls system.old)).second }
        ensures written { OnOk result (Writes (number_of self.now.file) (block_size * window.old.first)
            (take (block_size * window.old.count) window.old.bytes.items) (S.calls system.old) (S.calls system.new)) }
        ensures held { OnOk result (Notes window.old.first (window.old.first + window.old.count) Held.Written
            held.old.blocks.items held.new.blocks.items) }
        ensures empty { OnOk result (window.new.count ≡ 0) }
        ensures failed { OnErr result (held.new ≡ held.old) }
    {
        self.write(system, held, window.bytes(), window.start())?;
        window.clear();
        Ok(())
    }

    /// Copies all bytes of the first file that this one lacks. If the first file has holes, so does this one.
    pub(crate) fn complete<S: System>(
        &self,
        system: &mut S,
        held: &mut HeldBlocks,
        first: &File,
    ) -> io::Result<()>
        ensures changes { ChangesOnly (number_of self.now.file) (S.calls system.old) (S.calls system.new) }
        ensures named { (led (S.calls system.new)).second ≡ (led (S.calls system.old)).second }
        ensures completed { OnOk result (IsCompleted self.now.has_holes held.old.blocks.items self.now.kept
            (number_of first.now) (number_of self.now.file) (S.calls system.old) (S.calls system.new)) }
        ensures held { OnOk result (CompletesStates max_file_blocks held.old.blocks.items held.new.blocks.items) }
    {
        let mut piece = [0; PIECE];
        let mut at = 0;
        while let Some(run) = held.run_of(at, Held::Lacking) {
            let end = run.end().min(self.kept);
            copy_bytes(
                system,
                first,
                &self.file,
                run.start(),
                end,
                &mut piece,
                self.has_holes,
            )?;
            held.set_same(run);
            at = run.next;
        }
        Ok(())
    }

    /// Sets the length: the file is truncated, or padded with zeros.
    pub(crate) fn set_len<S: System>(
        &mut self,
        system: &mut S,
        held: &mut HeldBlocks,
        length: u64,
    ) -> io::Result<()>
        ensures changes { ChangesOnly (number_of self.old.file) (S.calls system.old) (S.calls system.new) }
        ensures named { (led (S.calls system.new)).second ≡ (led (S.calls system.old)).second }
        ensures file { self.new.file ≡ self.old.file }
        ensures cut { OnOk result (Cuts (number_of self.old.file) length (S.calls system.old) (S.calls system.new)) }
        ensures held { OnOk result (Notes (div_ceil (min self.old.length length) block_size) max_file_blocks Held.Zeros
            held.old.blocks.items held.new.blocks.items) }
        ensures size { OnOk result (self.new.length ≡ length) }
        ensures kept { OnOk result (self.new.kept ≡ min self.old.kept length) }
    {
        system.set_len(&self.file, length)?;
        held.set_zeros_after(self.length.min(length));
        self.kept = self.kept.min(length);
        self.length = length;
        Ok(())
    }

    /// Replaces the contents by these bytes, and zeros after them up to the new length. Nothing of the first file
    /// stays.
    pub(crate) fn replace<S: System>(
        &mut self,
        system: &mut S,
        held: &mut HeldBlocks,
        prefix: &[u8],
        length: u64,
    ) -> io::Result<()>
        ensures changes { ChangesOnly (number_of self.old.file) (S.calls system.old) (S.calls system.new) }
        ensures named { (led (S.calls system.new)).second ≡ (led (S.calls system.old)).second }
        ensures file { self.new.file ≡ self.old.file }
        ensures bytes { OnOk result (HasOnlyBytes (number_of self.old.file) prefix.now (S.calls system.new)) }
        ensures size { OnOk result (self.new.length ≡ length) }
        ensures kept { OnOk result (self.new.kept ≡ 0) }
    {
        // Zeros by the length alone take no time, and on most file systems no room.
        system.set_len(&self.file, 0)?;
        system.set_len(&self.file, length)?;
        held.set_zeros_after(0);
        self.kept = 0;
        self.length = length;
        self.write(system, held, prefix, 0)
    }

    /// Reads from the file, which must be complete.
    pub(crate) fn read<S: System>(&self, system: &mut S, into: &mut [u8], at: u64) -> io::Result<()>
        ensures changes { ChangesNone (S.calls system.old) (S.calls system.new) }
        ensures named { (led (S.calls system.new)).second ≡ (led (S.calls system.old)).second }
    {
        system.read(&self.file, into, at)
    }

    /// Returns whether its bytes fit into the first file without more room on the disk.
    pub(crate) fn fits_in(&self, first: &File) -> io::Result<bool> {
        has_room(first, self.length)
    }

    /// Copies the blocks that were written to the first file.
    fn copy_written<S: System>(
        &self,
        system: &mut S,
        held: &HeldBlocks,
        first: &File,
    ) -> io::Result<()>
        ensures { ChangesOnly (number_of first.now) (S.calls system.old) (S.calls system.new) }
    {
        let mut piece = [0; PIECE];
        let mut at = 0;
        while let Some(run) = held.run_of(at, Held::Written) {
            let end = run.end().min(self.length);
            copy_bytes(
                system,
                &self.file,
                first,
                run.start(),
                end,
                &mut piece,
                false,
            )?;
            at = run.next;
        }
        copy_bytes(
            system,
            &self.file,
            first,
            TRACKED_BYTES,
            self.length,
            &mut piece,
            false,
        )
    }

    /// Writes zeros to the first file where this one has them by its length alone, up to a byte.
    fn copy_zeros<S: System>(
        &self,
        system: &mut S,
        held: &HeldBlocks,
        first: &File,
        end: u64,
    ) -> io::Result<()>
        ensures { ChangesOnly (number_of first.now) (S.calls system.old) (S.calls system.new) }
    {
        let mut at = 0;
        while let Some(run) = held.run_of(at, Held::Zeros) {
            write_zeros(system, first, run.start(), run.end().min(end))?;
            at = run.next;
        }
        Ok(())
    }

    /// Writes the contents of this file to the first one, in place. The first file frees no room on the disk that it
    /// still needs, and never has a third length.
    pub(crate) fn write_to<S: System>(
        &self,
        system: &mut S,
        held: &HeldBlocks,
        first: &File,
    ) -> io::Result<()>
        ensures { ChangesOnly (number_of first.now) (S.calls system.old) (S.calls system.new) }
    {
        let had = first.metadata()?.len();
        system.set_len(first, self.length)?;
        self.copy_written(system, held, first)?;
        self.copy_zeros(system, held, first, had.min(self.length))
    }

    /// Flushes the file, and gives it the name of the first, which must still have that name and this length. The
    /// first file then has the second name, if it can have it. The second file must be complete.
    ///
    /// # Errors
    ///
    /// The name leads where it did before.
    pub(crate) fn take_place<S: System>(
        &self,
        system: &mut S,
        names: &Names,
        first: &File,
        first_length: u64,
    ) -> io::Result<()>
        ensures taken { OnOk result ((led (S.calls system.old)).second ≡ number_of self.now.file →
            TakesPlace (number_of self.now.file) (S.calls system.old) (S.calls system.new)) }
        ensures failed { OnErr result (ChangesOnly (number_of self.now.file) (S.calls system.old) (S.calls system.new)) }
    {
        system.flush(&self.file)?;
        names.check(system, first)?;
        check_length(first, first_length)?;
        names.exchange(system)?;
        Ok(())
    }

    /// Flushes the new name, as far as the file system supports this. If it does not, the name may still lead to the
    /// first file after a power failure. That file must not be written again, so it is removed.
    pub(crate) fn settle<S: System>(&self, system: &mut S, names: &Names) -> io::Result<()>
        ensures done { OnOk result (Settles (S.calls system.old) (S.calls system.new)) }
        ensures failed { OnErr result (ChangesNone (S.calls system.old) (S.calls system.new)) }
    {
        if !system.flush_names(&self.folder)? {
            names.remove_second(system);
        }
        Ok(())
    }

    /// Returns the length that the file will have.
    pub(crate) fn length(&self) -> u64
        ensures { result ≡ self.now.length }
    {
        self.length
    }

    /// Returns the file itself.
    pub(crate) fn into_file(self) -> File
        ensures { result ≡ self.file }
    {
        self.file
    }
}
