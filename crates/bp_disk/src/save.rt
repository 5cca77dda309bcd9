//! How written data reaches a file on the disk.

ghost use Rattle.bp_disk.specs.Calls.{number_of};
ghost use Rattle.bp_disk.specs.Disk.{ChangesNone, HasOnlyBytes, IsNamed, IsOther, Writes};
ghost use Rattle.bp_disk.specs.Held.{HasNone, Notes};
ghost use Rattle.bp_disk.specs.declared.held_blocks.Held.{Held};
ghost use Rattle.bp_disk.specs.declared.held_blocks.Held.TheVariants.{Lacking, Written};
ghost use Rattle.bp_disk.specs.Saves.{GoesOn, IsApart, IsPlaced, IsRight, IsRightWay, Stands};
ghost use Rattle.bp_disk.specs.declared.temp_file.TempFile.{TempFile};
ghost use Rattle.bp_limits.specs.Limits.{block_size, max_file_blocks};
ghost use Rattle.std.specs.Int.{div_ceil};
ghost use Rattle.std.specs.Prelude.{◌≡◌, ◌⊎◌, ◌<◌, ◌+◌, ◌*◌, ◌/◌, ◌^◌, ◌++◌, ℕ, List, IfOk, IfSome, None, OnOk, is_some, length, take};

use crate::exclusive_open::{check_length, lock};
use crate::held_blocks::HeldBlocks;
use crate::names::{Names, Waiting};
use crate::system::System;
use crate::temp_file::{TempFile, fill_in_place, has_room, lacks_room};
use crate::window::Window;
use bp_io::{Access, BLOCK};
use bp_limits::BLOCK_SIZE;
use std::alloc::{AllocError, Global};
use std::fs::File;
use std::io::ErrorKind;
use std::{io, mem};

/// How written data reaches the attached file.
#[derive(Drop)]
pub(crate) enum Way {
    /// Nothing was written since the last flush.
    Clean,
    /// By a second file, which takes the place of the attached one at the flush.
    Beside(TempFile),
    /// By writing the attached file itself.
    InPlace,
    /// Not at all: a call failed, and what was written since the last flush is lost, or a part of it.
    Lost,
}

/// The data that was written to the attached file and is not flushed yet.
#[derive(Drop)]
pub(crate) struct Saver {
    names: Option<Names>,
    /// The length of the attached file, as long as no other program changes it.
    length: u64,
    pub(crate) way: Way,
    /// The file that was attached before the last flush. It waits under the second name to be the next second file,
    /// which then already has its room on the disk, and most of its bytes.
    pub(crate) waiting: Option<Waiting>,
    /// The state of the blocks of the second file, or of the one that waits to be it.
    held: HeldBlocks,
    window: Window,
}

/// Makes the fault of a file of which a write was lost.
fn lost() -> io::Error {
    io::Error::new(ErrorKind::Other, "an earlier write failed")
}

/// Returns whether an error says that a name may not be given to another file.
fn keeps_its_file(error: &io::Error) -> bool {
    matches!(
        error.kind(),
        ErrorKind::PermissionDenied | ErrorKind::ResourceBusy | ErrorKind::CrossesDevices
    )
}

/// Chooses the way for data that is to be written to a file, which needs room for `least` bytes at least.
fn way_to<S: System>(
    system: &mut S,
    names: &Option<Names>,
    file: &File,
    least: u64,
    waiting: Option<File>,
    held: &mut HeldBlocks,
) -> io::Result<Way>
    ensures { Stands (number_of file.now) (S.calls system.old) → IsOther (number_of file.now) waiting
        → IsNamed (S.calls system.old) waiting
        → IfOk result (λ way. IsRightWay (number_of file.now) way (S.calls system.new)) }
{
    let Some(names) = names else {
        return Ok(Way::InPlace);
    };
    match TempFile::new(system, names, file, waiting, held) {
        Ok(second) => Ok(Way::Beside(second)),
        // Another process is writing, or no write reaches the end of the file.
        Err(e) if matches!(e.kind(), ErrorKind::ResourceBusy | ErrorKind::FileTooLarge) => Err(e),
        Err(e) if lacks_room(&e) && !has_room(file, least)? => Err(e),
        Err(_) => Ok(Way::InPlace),
    }
}

/// Lets a file wait under the second name, if possible.
fn wait_under<S: System>(system: &mut S, names: &Option<Names>, file: File) -> Option<Waiting>
    ensures changes { ChangesNone (S.calls system.old) (S.calls system.new) }
    ensures same { IfSome result (λ waiting. waiting.file ≡ file) }
{
    match names {
        Some(names) => names.let_wait(system, file),
        None => None,
    }
}

impl Saver {
    /// Makes a saver for no file, with nothing written.
    pub(crate) fn new(alloc: Global) -> Result<Self, AllocError> {
        Ok(Saver {
            names: None,
            length: 0,
            way: Way::Clean,
            waiting: None,
            held: HeldBlocks::new(alloc)?,
            window: Window::new(alloc)?,
        })
    }

    /// Restarts for a file of these names and this length, with nothing written. Without names the file is written in
    /// place.
    pub(crate) fn restart(&mut self, names: Option<Names>, length: u64)
        ensures way { self.new.way ≡ Way.Clean }
        ensures waiting { self.new.waiting ≡ None }
    {
        self.names = names;
        self.length = length;
        self.way = Way::Clean;
        self.waiting = None;
    }

    /// Removes the second file, and the one that waits to be it.
    pub(crate) fn remove_second<S: System>(&mut self, system: &mut S) {
        let waiting = self.waiting.take();
        match (&self.names, &self.way, &waiting) {
            (Some(names), Way::Beside(_), _) => names.remove_second(system),
            (Some(names), _, Some(waiting)) => waiting.remove(system, names),
            _ => {}
        }
    }

    /// Drops what was written since the last flush, and makes each later write fail.
    fn lose<S: System>(&mut self, system: &mut S) {
        self.window.restart(0);
        self.remove_second(system);
        self.way = Way::Lost;
    }

    /// Lets the file wait that a flush replaced, if possible.
    fn let_wait<S: System>(&mut self, system: &mut S, file: File)
        ensures changes { ChangesNone (S.calls system.old) (S.calls system.new) }
        ensures way { self.new.way ≡ self.old.way }
        ensures apart { (first : ℕ) → ¬ (number_of file ≡ first) → IsApart first self.new.waiting }
    {
        self.held.swap();
        self.waiting = wait_under(system, &self.names, file);
    }

    /// Returns the file that waits, unless it was changed in any way.
    fn take_waiting<S: System>(&mut self, system: &mut S) -> Option<File>
        ensures changes { ChangesNone (S.calls system.old) (S.calls system.new) }
        ensures way { self.new.way ≡ self.old.way }
        ensures none { self.new.waiting ≡ None }
        ensures other { (first : ℕ) → IsApart first self.old.waiting → IsOther first result }
        ensures named { IsNamed (S.calls system.new) result }
    {
        let waiting = self.waiting.take()?;
        match &self.names {
            Some(names) => names.if_unchanged(system, waiting),
            None => None,
        }
    }

    /// Loses what was written if the call failed.
    fn or_lose<T, S: System>(&mut self, system: &mut S, done: io::Result<T>) -> io::Result<T>
        ensures same { result ≡ done }
        ensures kept { (first : ℕ) → OnOk done (IsRight first self.old.way self.old.waiting (S.calls system.old)
            → IsRight first self.new.way self.new.waiting (S.calls system.new)) }
    {
        if done.is_err() {
            self.lose(system);
        }
        done
    }

    /// Checks that its name still leads to the attached file, and that the file has its length.
    fn check_attached<S: System>(&self, system: &S, file: &File) -> io::Result<()> {
        if let Some(names) = &self.names {
            names.check(system, file)?;
        }
        check_length(file, self.length)
    }

    /// Chooses a way at the first write since the last flush. The file will need room for `least` bytes at least, and
    /// must still have its name and its length.
    fn begin<S: System>(&mut self, system: &mut S, file: &File, least: u64) -> io::Result<()>
        ensures right { OnOk result (IsRight (number_of file.now) self.old.way self.old.waiting (S.calls system.old)
            → IsRight (number_of file.now) self.new.way self.new.waiting (S.calls system.new)) }
    {
        match self.way {
            Way::Clean => {
                self.check_attached(system, file)?;
                let waiting = self.take_waiting(system);
                self.way = way_to(system, &self.names, file, least, waiting, &mut self.held)?;
                Ok(())
            }
            Way::Beside(_) | Way::InPlace => Ok(()),
            Way::Lost => Err(lost()),
        }
    }

    /// Continues in place. The contents of the second file go to the first.
    fn go_in_place<S: System>(&mut self, system: &mut S, file: &File) -> io::Result<()>
        ensures way { self.new.way ≡ Way.InPlace }
        ensures waiting { self.new.waiting ≡ self.old.waiting }
        ensures held { self.new.held ≡ self.old.held }
    {
        match (mem::replace(&mut self.way, Way::InPlace), &self.names) {
            (Way::Beside(second), Some(names)) => {
                let _ = system.remove_second(names);
                self.length = second.length();
                second.write_to(system, &self.held, file)
            }
            _ => Ok(()),
        }
    }

    /// Continues in place if there was no room for the second file, and the first needs none.
    fn or_go_in_place<S: System>(
        &mut self,
        system: &mut S,
        file: &File,
        done: io::Result<()>,
    ) -> io::Result<()>
        ensures right { OnOk result (IsRight (number_of file.now) self.old.way self.old.waiting (S.calls system.old)
            → IsRight (number_of file.now) self.new.way self.new.waiting (S.calls system.new)) }
        ensures beside { OnOk result ((self.new.way ≡ Way.InPlace)
            ⊎ GoesOn done self.old.way self.new.way (S.calls system.old) (S.calls system.new)) }
        ensures held { self.new.held ≡ self.old.held }
    {
        match (done, &self.way) {
            (Err(e), Way::Beside(second)) if lacks_room(&e) && second.fits_in(file)? => {
                self.go_in_place(system, file)
            }
            (done, _) => done,
        }
    }

    /// Writes the blocks that wait.
    fn write_out<S: System>(&mut self, system: &mut S, file: &File) -> io::Result<()>
        ensures right { OnOk result (IsRight (number_of file.now) self.old.way self.old.waiting (S.calls system.old)
            → IsRight (number_of file.now) self.new.way self.new.waiting (S.calls system.new)) }
        ensures bytes { OnOk result ((second : TempFile) → self.new.way ≡ Way.Beside second
            → Writes (number_of second.file) (block_size * self.old.window.first)
            (take (block_size * self.old.window.count) self.old.window.bytes.items)
            (S.calls system.old) (S.calls system.new)) }
        ensures held { OnOk result ((second : TempFile) → self.new.way ≡ Way.Beside second
            → Notes self.old.window.first (self.old.window.first + self.old.window.count) Written
            self.old.held.blocks.items self.new.held.blocks.items) }
    {
        if self.window.is_empty() {
            return Ok(());
        }
        if let Way::Beside(second) = &self.way {
            let done = second.take(system, &mut self.held, &mut self.window);
            self.or_go_in_place(system, file, done)?;
        }
        match self.way {
            Way::InPlace => {
                system.write(file, self.window.bytes(), self.window.start())?;
                self.window.clear();
                Ok(())
            }
            Way::Clean | Way::Beside(_) | Way::Lost => Ok(()),
        }
    }

    /// Writes the blocks that wait, and completes a second file.
    fn write_all<S: System>(&mut self, system: &mut S, file: &File) -> io::Result<()>
        ensures right { OnOk result (IsRight (number_of file.now) self.old.way self.old.waiting (S.calls system.old)
            → IsRight (number_of file.now) self.new.way self.new.waiting (S.calls system.new)) }
        ensures complete { OnOk result ((second : TempFile) → self.new.way ≡ Way.Beside second
            → HasNone self.new.held.blocks.items 0 max_file_blocks Lacking) }
    {
        self.write_out(system, file)?;
        if let Way::Beside(second) = &self.way {
            let done = second.complete(system, &mut self.held, file);
            self.or_go_in_place(system, file, done)?;
        }
        Ok(())
    }

    fn try_write_block<S: System>(
        &mut self,
        system: &mut S,
        file: &File,
        i: u32,
        from: &[u8; BLOCK],
    ) -> io::Result<()>
        ensures right { OnOk result (IsRight (number_of file.now) self.old.way self.old.waiting (S.calls system.old)
            → IsRight (number_of file.now) self.new.way self.new.waiting (S.calls system.new)) }
        ensures last { OnOk result (self.new.window.first + self.new.window.count ≡ i + 1) }
        ensures waits { OnOk result ((before : List ℕ)
            × (take (block_size * self.new.window.count) self.new.window.bytes.items ≡ before ++ from.now)) }
    {
        self.begin(system, file, BLOCK_SIZE * (u64::from(i) + 1))?;
        if !self.window.takes(i) {
            self.write_out(system, file)?;
            self.window.restart(i);
        }
        self.window.push(from);
        Ok(())
    }

    /// Writes a run of bytes that does not wait.
    fn write_run<S: System>(
        &mut self,
        system: &mut S,
        file: &File,
        from: &[u8],
        at: u64,
    ) -> io::Result<()>
        requires { at + length from.now < 2 ^ 64 }
        ensures right { OnOk result (IsRight (number_of file.now) self.old.way self.old.waiting (S.calls system.old)
            → IsRight (number_of file.now) self.new.way self.new.waiting (S.calls system.new)) }
        ensures bytes { OnOk result ((second : TempFile) → self.new.way ≡ Way.Beside second
            → Writes (number_of second.file) at from.now (S.calls system.old) (S.calls system.new)) }
        ensures held { OnOk result ((second : TempFile) → self.new.way ≡ Way.Beside second
            → Notes (at / block_size) (div_ceil (at + length from.now) block_size) Written
            self.old.held.blocks.items self.new.held.blocks.items) }
    {
        if let Way::Beside(second) = &self.way {
            let done = second.write(system, &mut self.held, from, at);
            self.or_go_in_place(system, file, done)?;
        }
        match self.way {
            Way::InPlace => system.write(file, from, at),
            Way::Clean | Way::Beside(_) | Way::Lost => Ok(()),
        }
    }

    fn try_write_blocks<S: System>(
        &mut self,
        system: &mut S,
        file: &File,
        from: &[u8],
        at: u64,
    ) -> io::Result<()>
        requires { at + length from.now < 2 ^ 64 }
        ensures right { OnOk result (IsRight (number_of file.now) self.old.way self.old.waiting (S.calls system.old)
            → IsRight (number_of file.now) self.new.way self.new.waiting (S.calls system.new)) }
    {
        self.begin(system, file, at + from.len() as u64)?;
        self.write_out(system, file)?;
        self.write_run(system, file, from, at)
    }

    fn try_set_len<S: System>(&mut self, system: &mut S, file: &File, length: u64) -> io::Result<()>
        ensures right { OnOk result (IsRight (number_of file.now) self.old.way self.old.waiting (S.calls system.old)
            → IsRight (number_of file.now) self.new.way self.new.waiting (S.calls system.new)) }
        ensures size { OnOk result ((second : TempFile) → self.new.way ≡ Way.Beside second → second.length ≡ length) }
    {
        self.begin(system, file, length)?;
        self.write_out(system, file)?;
        match &mut self.way {
            Way::Beside(second) => second.set_len(system, &mut self.held, length),
            Way::InPlace => {
                self.length = length;
                system.set_len(file, length)
            }
            Way::Clean | Way::Lost => Ok(()),
        }
    }

    fn try_replace<S: System>(
        &mut self,
        system: &mut S,
        file: &File,
        prefix: &[u8],
        length: u64,
    ) -> io::Result<()>
        ensures right { OnOk result (IsRight (number_of file.now) self.old.way self.old.waiting (S.calls system.old)
            → IsRight (number_of file.now) self.new.way self.new.waiting (S.calls system.new)) }
        ensures bytes { OnOk result ((second : TempFile) → self.new.way ≡ Way.Beside second
            → HasOnlyBytes (number_of second.file) prefix.now (S.calls system.new)) }
    {
        self.begin(system, file, length)?;
        // The blocks that wait are replaced too.
        self.window.restart(0);
        let done = match &mut self.way {
            Way::Beside(second) => second.replace(system, &mut self.held, prefix, length),
            Way::InPlace => {
                self.length = length;
                fill_in_place(system, file, prefix, length)
            }
            Way::Clean | Way::Lost => Ok(()),
        };
        match (done, &self.way, &self.names) {
            (Err(e), Way::Beside(_), Some(names)) if lacks_room(&e) && has_room(file, length)? => {
                let _ = system.remove_second(names);
                self.way = Way::InPlace;
                self.length = length;
                fill_in_place(system, file, prefix, length)
            }
            (done, _, _) => done,
        }
    }

    /// Gives a complete second file the name of the first.
    fn take_place<S: System>(&mut self, system: &mut S, file: &File) -> io::Result<()>
        ensures placed { OnOk result (IsRightWay (number_of file.now) self.old.way (S.calls system.old)
            → IsPlaced (number_of file.now) self.new.way (S.calls system.new)) }
        ensures waiting { self.new.waiting ≡ self.old.waiting }
    {
        let Way::Beside(second) = &self.way else {
            return Ok(());
        };
        // A second file is made only under a name.
        let Some(names) = &self.names else {
            return Err(lost());
        };
        match second.take_place(system, names, file, self.length) {
            Ok(()) => second.settle(system, names),
            Err(e) if keeps_its_file(&e) => self.go_in_place(system, file),
            Err(e) => Err(e),
        }
    }

    /// Checks that what was written can still reach the attached file.
    fn check<S: System>(&self, system: &S, file: &File) -> io::Result<()> {
        match self.way {
            Way::Clean | Way::Beside(_) | Way::InPlace => self.check_attached(system, file),
            Way::Lost => Err(lost()),
        }
    }

    fn try_flush<S: System>(&mut self, system: &mut S, file: &mut File) -> io::Result<()>
        ensures right { OnOk result (IsRight (number_of file.old) self.old.way self.old.waiting (S.calls system.old)
            → IsRight (number_of file.new) self.new.way self.new.waiting (S.calls system.new)) }
    {
        self.check(system, file)?;
        self.write_all(system, file)?;
        self.take_place(system, file)?;
        match mem::replace(&mut self.way, Way::Clean) {
            Way::Beside(second) => {
                self.length = second.length();
                let first = mem::replace(file, second.into_file());
                self.let_wait(system, first);
                Ok(())
            }
            Way::Clean => system.flush_data(file),
            Way::InPlace => {
                system.flush_data(file)?;
                // FILE is as if it was attached now.
                system.attach(file);
                Ok(())
            }
            Way::Lost => Err(lost()),
        }
    }

    /// Writes block `i`, or lets it wait.
    pub(crate) fn write_block<S: System>(
        &mut self,
        system: &mut S,
        file: &File,
        i: u32,
        from: &[u8; BLOCK],
    ) -> io::Result<()>
        ensures right { OnOk result (IsRight (number_of file.now) self.old.way self.old.waiting (S.calls system.old)
            → IsRight (number_of file.now) self.new.way self.new.waiting (S.calls system.new)) }
    {
        let done = self.try_write_block(system, file, i, from);
        self.or_lose(system, done)
    }

    /// Writes these blocks from a byte on, after those that wait.
    pub(crate) fn write_blocks<S: System>(
        &mut self,
        system: &mut S,
        file: &File,
        from: &[u8],
        at: u64,
    ) -> io::Result<()>
        requires { at + length from.now < 2 ^ 64 }
        ensures right { OnOk result (IsRight (number_of file.now) self.old.way self.old.waiting (S.calls system.old)
            → IsRight (number_of file.now) self.new.way self.new.waiting (S.calls system.new)) }
    {
        let done = self.try_write_blocks(system, file, from, at);
        self.or_lose(system, done)
    }

    /// Sets the length of the file, in bytes.
    pub(crate) fn set_len<S: System>(
        &mut self,
        system: &mut S,
        file: &File,
        length: u64,
    ) -> io::Result<()>
        ensures right { OnOk result (IsRight (number_of file.now) self.old.way self.old.waiting (S.calls system.old)
            → IsRight (number_of file.now) self.new.way self.new.waiting (S.calls system.new)) }
    {
        let done = self.try_set_len(system, file, length);
        self.or_lose(system, done)
    }

    /// Replaces the file by these bytes, and zeros after them up to its new length, in bytes.
    pub(crate) fn replace<S: System>(
        &mut self,
        system: &mut S,
        file: &File,
        prefix: &[u8],
        length: u64,
    ) -> io::Result<()>
        ensures right { OnOk result (IsRight (number_of file.now) self.old.way self.old.waiting (S.calls system.old)
            → IsRight (number_of file.now) self.new.way self.new.waiting (S.calls system.new)) }
    {
        let done = self.try_replace(system, file, prefix, length);
        self.or_lose(system, done)
    }

    /// Reads what was written from a byte on, and the contents of the file where nothing was written.
    pub(crate) fn read<S: System>(
        &mut self,
        system: &mut S,
        file: &File,
        into: &mut [u8],
        at: u64,
    ) -> io::Result<()> {
        let done = self.write_all(system, file);
        self.or_lose(system, done)?;
        match &self.way {
            Way::Beside(second) => second.read(system, into, at),
            Way::Clean | Way::InPlace => system.read(file, into, at),
            Way::Lost => Err(lost()),
        }
    }

    /// Makes what was written durable, if a file is attached. Another file may be attached afterwards.
    pub(crate) fn flush<S: System>(
        &mut self,
        system: &mut S,
        attached: &mut Option<File>,
    ) -> io::Result<()>
        ensures { is_some attached.new ≡ is_some attached.old }
    {
        let Some(file) = attached else {
            return Ok(());
        };
        let done = self.try_flush(system, file);
        self.or_lose(system, done)
    }

    /// Flushes what was written, and releases the lock of the attached file, which may be the one that is to be
    /// attached next.
    pub(crate) fn leave<S: System>(
        &mut self,
        system: &mut S,
        attached: &mut Option<File>,
    ) -> io::Result<()>
        ensures { is_some attached.new ≡ is_some attached.old }
    {
        if matches!(self.way, Way::Beside(_) | Way::InPlace) {
            self.flush(system, attached)?;
        }
        self.remove_second(system);
        if let Some(file) = attached {
            let _ = file.unlock();
        }
        Ok(())
    }

    /// Locks a file again that stays attached. If another process has the lock now, each later write is a fault.
    pub(crate) fn stay<S: System>(
        &mut self,
        system: &mut S,
        attached: &Option<File>,
        may_write: bool,
    ) {
        let Some(file) = attached else {
            return;
        };
        let access = if may_write {
            Access::Write
        } else {
            Access::Read
        };
        if lock(file, access).is_err() {
            self.lose(system);
        }
    }
}
