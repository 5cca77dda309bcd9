//! The names of a file and of its second file, and the file that waits under the second name.

ghost use Rattle.bp_disk.specs.Calls.{number_of};
ghost use Rattle.bp_disk.specs.Disk.{ChangesNone, ChangesOnly, Makes, TakesName, led};
ghost use Rattle.std.specs.Prelude.{◌≡◌, IfOk, IfSome, OnErr, OnOk, true};

use crate::exclusive_open::{check_name, in_use};
use crate::system::System;
use std::alloc::Global;
use std::fs::{File, TryLockError};
use std::io;
use std::io::ErrorKind;
use std::os::unix::fs::MetadataExt;
use std::path::PathBuf;

/// The ending of the name of a second file, after the name of the first.
const ENDING: &str = "bpfs-sync";

/// The ending of the name that the first file gets while the second one takes its place.
const OLD_ENDING: &str = "bpfs-sync-old";

/// The names of a file and of its second file, and the name that a file has between the first name and the second,
/// with all symbolic links resolved.
#[derive(Drop)]
pub(crate) struct Names {
    pub(crate) file: PathBuf,
    pub(crate) second: PathBuf,
    pub(crate) old: PathBuf,
}

/// Opens and locks what a killed process left. A name that is no regular file, or whose file is locked or cannot be,
/// was left by no process.
fn lock_leftover<S: System>(system: &S, name: &str) -> io::Result<File> {
    if !system.stat_link(name)?.is_file() {
        return Err(ErrorKind::AlreadyExists.into());
    }
    let leftover = system.open_existing(name)?;
    match leftover.try_lock() {
        Ok(()) => Ok(leftover),
        Err(TryLockError::WouldBlock) => Err(in_use()),
        Err(TryLockError::Error(e)) => Err(e),
    }
}

/// Returns whether this is a name of a file, and no symbolic link to it.
fn is_name_of<S: System>(system: &S, name: &str, file: &File) -> io::Result<bool> {
    let found = system.stat_link(name)?;
    let own = file.metadata()?;
    Ok(found.dev() == own.dev() && found.ino() == own.ino())
}

impl Names {
    /// Returns the names for a file that has this name.
    pub(crate) fn of<S: System>(alloc: Global, system: &S, name: &str) -> io::Result<Self> {
        let file = system.canonicalize(alloc, name)?;
        let second = file.with_added_extension(alloc, ENDING)?;
        let old = file.with_added_extension(alloc, OLD_ENDING)?;
        Ok(Names { file, second, old })
    }

    /// Checks that the first name still leads to this file.
    pub(crate) fn check<S: System>(&self, system: &S, first: &File) -> io::Result<()> {
        check_name(system, self.file.as_str(), first)
    }

    /// Opens the directory of the names, so that it can be flushed.
    pub(crate) fn open_folder<S: System>(&self, system: &S) -> io::Result<File> {
        match self.file.parent() {
            Some(folder) => system.open_folder(folder.as_str()),
            None => Err(ErrorKind::InvalidFilename.into()),
        }
    }

    /// Removes the second file, if possible.
    pub(crate) fn remove_second<S: System>(&self, system: &mut S)
        ensures { ChangesNone (S.calls system.old) (S.calls system.new) }
    {
        let _ = system.remove_second(self);
    }

    /// Removes the second name from a file, if the file has it.
    pub(crate) fn take_from<S: System>(&self, system: &mut S, file: &File)
        ensures { ChangesNone (S.calls system.old) (S.calls system.new) }
    {
        if let Ok(true) = system.has_second(self, file) {
            self.remove_second(system);
        }
    }

    /// Returns whether a file has the second name, and no other one.
    fn is_second<S: System>(&self, system: &mut S, file: &File) -> io::Result<bool>
        ensures changes { ChangesNone (S.calls system.old) (S.calls system.new) }
        ensures second { IfOk result (λ is. is ≡ true → (led (S.calls system.new)).second ≡ number_of file.now) }
    {
        Ok(file.metadata()?.nlink() == 1 && system.has_second(self, file)?)
    }

    /// Lets a file wait if it has the second name and no other one. Otherwise it loses that name.
    pub(crate) fn let_wait<S: System>(&self, system: &mut S, file: File) -> Option<Waiting>
        ensures changes { ChangesNone (S.calls system.old) (S.calls system.new) }
        ensures same { IfSome result (λ waiting. waiting.file ≡ file) }
    {
        match (self.is_second(system, &file), Stamp::of(&file)) {
            (Ok(true), Ok(stamp)) => Some(Waiting { file, stamp }),
            _ => {
                self.take_from(system, &file);
                None
            }
        }
    }

    /// Returns the waiting file if it still has the second name and no other one, and was not changed in any way.
    /// Otherwise it loses that name.
    pub(crate) fn if_unchanged<S: System>(&self, system: &mut S, waiting: Waiting) -> Option<File>
        ensures changes { ChangesNone (S.calls system.old) (S.calls system.new) }
        ensures same { IfSome result (λ file. file ≡ waiting.file) }
        ensures second { IfSome result (λ file. (led (S.calls system.new)).second ≡ number_of file) }
    {
        let Waiting { file, stamp } = waiting;
        match (self.is_second(system, &file), Stamp::of(&file)) {
            (Ok(true), Ok(now)) if now == stamp => Some(file),
            _ => {
                self.take_from(system, &file);
                None
            }
        }
    }

    /// Removes the intermediate name if a killed process left it. It may be one more name of the first file, which is
    /// already locked.
    pub(crate) fn remove_old<S: System>(&self, system: &mut S, first: &File)
        ensures changes { ChangesNone (S.calls system.old) (S.calls system.new) }
        ensures second { (led (S.calls system.new)).second ≡ (led (S.calls system.old)).second }
    {
        let old = self.old.as_str();
        if matches!(is_name_of(system, old, first), Ok(true)) {
            let _ = system.remove_old(self);
            return;
        }
        if let Ok(_leftover) = lock_leftover(system, old) {
            let _ = system.remove_old(self);
        }
    }

    /// Makes a file of the second name, in place of one that a killed process left.
    pub(crate) fn make_second<S: System>(&self, system: &mut S, first: &File) -> io::Result<File>
        ensures made { IfOk result (λ file. Makes (number_of first.now) (number_of file)
            (S.calls system.old) (S.calls system.new)) }
        ensures failed { OnErr result (ChangesNone (S.calls system.old) (S.calls system.new)) }
    {
        match system.make_second(self, first) {
            Err(e) if e.kind() == ErrorKind::AlreadyExists => {
                let _leftover = lock_leftover(system, self.second.as_str())?;
                system.remove_second(self)?;
                system.make_second(self, first)
            }
            made => made,
        }
    }

    /// Gives the second file the name of the first, and the first that of the second, if the file system allows two
    /// names of one file. The name of the first leads to one of them at any time.
    ///
    /// # Errors
    ///
    /// The names lead where they did before.
    pub(crate) fn exchange<S: System>(&self, system: &mut S) -> io::Result<()>
        ensures taken { OnOk result (TakesName (S.calls system.old) (S.calls system.new)) }
        ensures failed { OnErr result (ChangesNone (S.calls system.old) (S.calls system.new)) }
    {
        let is_kept = system.link_old(self).is_ok();
        let renamed = system.rename_second(self);
        if is_kept && (renamed.is_err() || system.rename_old(self).is_err()) {
            let _ = system.remove_old(self);
        }
        renamed
    }
}

/// The length of a file, and when it was last written or otherwise changed. An equal stamp shows that nobody changed
/// it since.
#[derive(Clone, Copy, PartialEq, Eq)]
struct Stamp {
    length: u64,
    modified: (i64, i64),
    changed: (i64, i64),
}

impl Stamp {
    fn of(file: &File) -> io::Result<Self> {
        let metadata = file.metadata()?;
        Ok(Stamp {
            length: metadata.len(),
            modified: (metadata.mtime(), metadata.mtime_nsec()),
            changed: (metadata.ctime(), metadata.ctime_nsec()),
        })
    }
}

/// The file that the last flush replaced. It waits under the second name to be the next second file.
#[derive(Drop)]
pub(crate) struct Waiting {
    pub(crate) file: File,
    stamp: Stamp,
}

impl Waiting {
    /// Removes the second name from the file.
    pub(crate) fn remove<S: System>(&self, system: &mut S, names: &Names)
        ensures { ChangesNone (S.calls system.old) (S.calls system.new) }
    {
        names.take_from(system, &self.file);
    }
}
