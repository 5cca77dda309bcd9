//! Opens a file on the disk, for one process at a time.

use crate::host::Host;
use crate::system::System;
use bp_io::Access;
use std::fs::{File, Metadata, OpenOptions, TryLockError};
use std::io::ErrorKind;
use std::os::unix::fs::MetadataExt;
use std::{fs, io, rt};

/// How often a name is opened again if another process meanwhile gave it to another file.
const TRIES: u32 = 16;

/// Returns the error of a name that leads to a directory. The system has another text for it where the
/// directory is opened for writing.
fn is_directory() -> io::Error {
    io::Error::new(ErrorKind::IsADirectory, "is a directory")
}

/// Tests whether a name leads to a regular file.
///
/// # Errors
///
/// `IsADirectory`: it leads to a directory. `InvalidInput`: it leads to a device, a pipe or a socket.
fn check_is_file(found: Metadata) -> io::Result<()> {
    if found.is_file() {
        return Ok(());
    }
    if found.is_dir() {
        return Err(is_directory());
    }
    Err(io::Error::new(ErrorKind::InvalidInput, "not a regular file"))
}

/// Makes the fault of a file that another process has attached. Its kind is `ResourceBusy`.
pub(crate) fn in_use() -> io::Error {
    io::Error::new(ErrorKind::ResourceBusy, "in use by another process")
}

/// Locks a file, and never waits for the lock: for this process alone if the file is to be written, and otherwise
/// together with all its readers. If the file system has no locks, the file stays unlocked.
///
/// # Errors
///
/// `in_use`: another process has a conflicting lock.
pub(crate) fn lock(file: &File, access: Access) -> io::Result<()> {
    let done = if access.may_change() {
        file.try_lock()
    } else {
        file.try_lock_shared()
    };
    match done {
        Err(TryLockError::WouldBlock) => Err(in_use()),
        Ok(()) | Err(TryLockError::Error(_)) => Ok(()),
    }
}

/// Returns whether a name leads to this file.
pub(crate) fn leads_to<S: System>(system: &S, name: &str, file: &File) -> io::Result<bool> {
    let found = match system.stat(name) {
        Err(e) if e.kind() == ErrorKind::NotFound => return Ok(false),
        found => found?,
    };
    let own = file.metadata()?;
    Ok(found.dev() == own.dev() && found.ino() == own.ino())
}

/// Checks that a name still leads to this file.
///
/// # Errors
///
/// The name leads to another file or to none, or the system returned an error.
pub(crate) fn check_name<S: System>(system: &S, name: &str, file: &File) -> io::Result<()> {
    if leads_to(system, name, file)? {
        return Ok(());
    }
    let message = match system.stat(name) {
        Ok(_) => "not saved: it was replaced by another file meanwhile",
        Err(e) if e.kind() == ErrorKind::NotFound =>
            "not saved: it was renamed or removed meanwhile",
        Err(e) => return Err(e),
    };
    Err(io::Error::new(ErrorKind::Other, message))
}

/// Checks that a file still has its length. The lock does not bind a program that does not ask for it.
///
/// # Errors
///
/// The file has another length, or the system returned an error.
pub(crate) fn check_length(file: &File, length: u64) -> io::Result<()> {
    if file.metadata()?.len() == length {
        return Ok(());
    }
    let message = "not saved: another program changed its size";
    Err(io::Error::new(ErrorKind::Other, message))
}

/// Opens a regular file. A file that is only read is examined before it is opened, since opening a pipe so would wait
/// for a writer.
fn open_once<R: rt::Files<File = File>>(
    runtime: &R,
    name: &str,
    access: Access,
) -> io::Result<File> {
    if !access.may_change() {
        check_is_file(fs::metadata(runtime, name)?)?;
    }
    let opened = OpenOptions::new()
        .read(true)
        .write(access.may_change())
        .create(access.makes())
        .open(runtime, name);
    let file = match opened {
        Err(e) if e.kind() == ErrorKind::IsADirectory => return Err(is_directory()),
        opened => opened?,
    };
    check_is_file(file.metadata()?)?;
    Ok(file)
}

/// Opens and locks a regular file, and returns it with its length in bytes. The process that had the lock before may
/// have put another file in the place of the one that was opened; then the name is opened again.
///
/// # Errors
///
/// `in_use`: another process has the file. Otherwise an error of the system.
pub(crate) fn open<R: rt::Files<File = File> + Drop>(
    host: &Host<R>,
    name: &str,
    access: Access,
) -> io::Result<(File, u64)> {
    for _tries in 0..TRIES {
        let file = open_once(&host.runtime, name, access)?;
        lock(&file, access)?;
        if leads_to(host, name, &file)? {
            let length = file.metadata()?.len();
            return Ok((file, length));
        }
    }
    Err(in_use())
}
