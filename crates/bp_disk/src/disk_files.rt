//! Files on the disk. Their contents are not known to the specification.

ghost use Rattle.std.specs.Prelude.{◌≡◌, ◌/◌, List, ℕ, IfOk, None, true, false, is_some, if◌then◌else◌};
ghost use Rattle.bp_io.specs.Files.{makes, may_change};
ghost use Rattle.bp_disk.specs.Calls.{number_of};
ghost use Rattle.bp_disk.specs.Saves.{IsRight};
ghost use Rattle.bp_limits.specs.Limits.{block_size};

use crate::exclusive_open::open;
use crate::host::Host;
use crate::names::Names;
use crate::save::Saver;
use crate::system::System;
use crate::system_faults::SystemFaults;
use bp_io::{Access, BLOCK, Failed, Files};
use bp_limits::BLOCK_SIZE;
use std::alloc::{AllocError, Global};
use std::fs::File;
use std::io::ErrorKind;
use std::{io, rt};

/// The files that a runtime opens, by path. Their contents are not known to the specification: that blocks are read
/// from the file and written to it is trusted, and tested.
///
/// Every error of the system is a fault, except that a name that does not exist and is not to be created is none. A
/// name of something other than a regular file, such as a directory or a device, is a fault. So is a read of a block
/// that the file lost since it was attached.
///
/// **One process at a time.** A file that may be written is locked for this process alone as long as it is attached. A
/// file that is only read is locked together with all its readers. Attaching a file that another process has locked
/// otherwise is a fault. The lock binds only programs that ask for it, as each `DiskFiles` does. If the file system
/// has no locks, there is none.
///
/// **What is written appears at the flush, whole.** What is written between two flushes goes to a second file in the
/// same directory. A flush copies the bytes of the first file that the second one lacks, makes the second file
/// durable, gives it the name of the first, and makes the name durable too. So whenever the process is killed, or the
/// power fails, the name leads to a file as of the end of one flush (or as it was attached), and not of an older flush
/// than the last that succeeded.
///
/// The new file has the owner, the group and the permissions of the old one; other attributes of a file, such as
/// access lists, are not kept. Symbolic links are followed. The name of the second file is that of the first with
/// `.bpfs-sync` appended, and this name is reserved for it. A killed process leaves the second file there. The next
/// flush of the first one begins by removing it, and anyone else may remove it too.
///
/// **The replaced file is the next second file.** So only the first flush has to find room on the disk and to copy the
/// whole file; after it, the second file lacks exactly the blocks that the previous flush wrote. The replaced file
/// waits under the second name, and is removed when another file is attached and when the files are dropped. While it
/// is renamed, its name is that of the first file with `.bpfs-sync-old` appended, to which the same rules apply.
///
/// No file waits if a file cannot have two names, or if a directory cannot be made durable. A waiting file that
/// meanwhile has another name, another length, or another time of change is not written: a new file is made. A change
/// within the same tick of the system's clock as the flush is not noticed. A program that opened the file before a
/// flush reads on in the replaced file, and sees what is written for the flush after the next.
///
/// A file is written **in place** if no second file can be made, or if none may take its place:
///
/// - it has several hard links;
/// - its directory cannot be opened, or no file can be made in it;
/// - the owner, the group or the permissions cannot be given to a new file;
/// - the second name is too long, or belongs to something that no process left there;
/// - the disk has no room for a second file, while the file has all of its own room and is not to grow.
///
/// Then each block is the old or the new one if the process is killed between two flushes.
///
/// **A file whose length another program changed is not written.** The first write after a flush, and the flush
/// itself, look at the length. Each is a fault if the length is not the one that the file had when it was attached, or
/// was given since. A change between the last look and the renaming of the second file is not noticed.
///
/// **A replace takes little time**: a second file has zeros by its length alone, and nothing is copied to it. Most
/// file systems allocate no room on the disk for such zeros until they are written. In place, `prefix` is written, and
/// zeros where the file had bytes after it.
///
/// **A fault loses what was written since the last flush**: the file is as it was then, or, in place, each of its
/// blocks is the old or the new one. After it each read, write and flush is a fault until a file is attached again. If
/// the disk has no room, and the file cannot be written in place as above, that is such a fault.
///
/// Consecutive blocks that are written one by one wait in memory, at most 64 of them (256 KiB). They go to the disk
/// together before any block is read, before a block elsewhere is written, and before the file is flushed, resized or
/// another one is attached. So the fault of a write may come in such a later call. Blocks that are written in one call
/// go to the disk at once, after those that wait.
///
/// What was written is flushed before another file is attached. Without that and without a flush, it does not reach
/// the file, except in place, where a part of it may.
pub struct DiskFiles<R: rt::Files<File = File> + Drop> {
    alloc: Global,
    pub(crate) system: Host<R>,
    file: Option<File>,
    blocks: u64,
    may_write: bool,
    is_flushed: bool,
    faults: SystemFaults,
    pub(crate) saver: Saver,
}

impl<R: rt::Files<File = File> + Drop> DiskFiles<R> {
    /// Makes the files of this runtime, of which none is attached yet.
    ///
    /// # Errors
    ///
    /// `AllocError`: no memory for 64 blocks, and for the state of 65,536 blocks.
    pub fn new(alloc: Global, runtime: R) -> Result<Self, AllocError>
        ensures attached { IfOk result (λ files. (name : List ℕ) →
            (⟦<DiskFiles<R> as Files>⟧.view files).is_attached name ≡ false) }
        ensures blocks { IfOk result (λ files. (⟦<DiskFiles<R> as Files>⟧.view files).blocks ≡ 0) }
        ensures flushed { IfOk result (λ files. (⟦<DiskFiles<R> as Files>⟧.view files).is_flushed ≡ true) }
        ensures faults { IfOk result (λ files. (⟦<DiskFiles<R> as Files>⟧.view files).faults ≡ 0) }
    {
        Ok(DiskFiles {
            alloc,
            system: Host::new(runtime),
            file: None,
            blocks: 0,
            may_write: false,
            is_flushed: true,
            faults: SystemFaults::none(),
            saver: Saver::new(alloc)?,
        })
    }

    /// Returns the last error of the system, if there was one.
    pub fn last_error(&self) -> Option<io::Error> {
        self.faults.last
    }

    /// Attaches an open file in place of the previous one.
    fn take(&mut self, name: &str, access: Access, file: File, length: u64)
        ensures file { is_some self.new.file ≡ true }
        ensures blocks { self.new.blocks ≡ length / block_size }
        ensures may_write { self.new.may_write ≡ may_change access }
        ensures flushed { makes access ≡ false → self.new.is_flushed ≡ self.old.is_flushed }
        ensures flushed_before { self.new.is_flushed ≡ true → self.old.is_flushed ≡ true }
        ensures faults { self.new.faults.count ≡ self.old.faults.count }
        ensures right { IsRight (number_of file) self.new.saver.way self.new.saver.waiting self.new.system.list.calls }
    {
        // A file whose names cannot be determined is written in place.
        let names = if access.may_change() {
            Names::of(self.alloc, &self.system, name).ok()
        } else {
            None
        };
        self.saver.restart(names, length);
        self.system.attach(&file);
        self.file = Some(file);
        self.blocks = length / BLOCK_SIZE;
        self.may_write = access.may_change();
        if access.makes() {
            self.is_flushed = false;
        }
    }
}

impl<R: rt::Files<File = File> + Drop> Drop for DiskFiles<R> {
    fn drop(self) {
        let DiskFiles {
            alloc: _,
            mut system,
            file: _file,
            blocks: _,
            may_write: _,
            is_flushed: _,
            faults: _,
            mut saver,
        } = self;
        // Its lock is released after that.
        saver.remove_second(&mut system);
    }
}

/// Returns the attached file.
fn attached(file: &Option<File>) -> &File
    requires { is_some file.now ≡ true }
{
    match file {
        Some(file) => file,
        None => unreachable!(),
    }
}

impl<R: rt::Files<File = File> + Drop> Files for DiskFiles<R> {
    ghost view = { λ s. record {
      is_attached = λ name. is_some s.file;
      blocks = if is_some s.file then s.blocks else 0;
      may_write = s.may_write;
      is_flushed = s.is_flushed;
      contents = λ name. None;
      faults = s.faults.count;
    } };

    fn attach(&mut self, name: &str, access: Access) -> Result<Option<u64>, Failed> {
        let left = self.saver.leave(&mut self.system, &mut self.file);
        self.faults.or_fault(left)?;
        match open(&self.system, name, access) {
            Ok((file, length)) => {
                self.take(name, access, file, length);
                Ok(Some(length))
            }
            Err(e) => {
                self.saver
                    .stay(&mut self.system, &self.file, self.may_write);
                if !access.makes() && e.kind() == ErrorKind::NotFound {
                    return Ok(None);
                }
                Err(self.faults.raise(e))
            }
        }
    }

    fn read_blocks(&mut self, first: u32, into: &mut [u8]) -> Result<(), Failed> {
        let Some(file) = &self.file else {
            // No block is asked for then.
            return Ok(());
        };
        let at = BLOCK_SIZE * u64::from(first);
        let done = self.saver.read(&mut self.system, file, into, at);
        self.faults.or_fault(done)
    }

    fn write_block(&mut self, i: u32, from: &[u8; BLOCK]) -> Result<(), Failed> {
        self.is_flushed = false;
        let file = attached(&self.file);
        let done = self.saver.write_block(&mut self.system, file, i, from);
        self.faults.or_fault(done)
    }

    fn write_blocks(&mut self, first: u32, from: &[u8]) -> Result<(), Failed> {
        self.is_flushed = false;
        let file = attached(&self.file);
        let at = BLOCK_SIZE * u64::from(first);
        let done = self.saver.write_blocks(&mut self.system, file, from, at);
        self.faults.or_fault(done)
    }

    fn set_blocks(&mut self, n: u32) -> Result<(), Failed> {
        self.is_flushed = false;
        let file = attached(&self.file);
        let length = BLOCK_SIZE * u64::from(n);
        let done = self.saver.set_len(&mut self.system, file, length);
        self.faults.or_fault(done)?;
        self.blocks = u64::from(n);
        Ok(())
    }

    fn replace(&mut self, prefix: &[u8], n: u32) -> Result<(), Failed> {
        self.is_flushed = false;
        let file = attached(&self.file);
        let length = BLOCK_SIZE * u64::from(n);
        let done = self.saver.replace(&mut self.system, file, prefix, length);
        self.faults.or_fault(done)?;
        self.blocks = u64::from(n);
        Ok(())
    }

    fn flush(&mut self) -> Result<(), Failed> {
        let done = self.saver.flush(&mut self.system, &mut self.file);
        self.faults.or_fault(done)?;
        self.is_flushed = true;
        Ok(())
    }
}
