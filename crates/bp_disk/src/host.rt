//! The calls to the real system. Each method makes one call, and then notes it with its result.

ghost use Rattle.bp_disk.specs.Calls.{number_of};
ghost use Rattle.std.specs.Prelude.{◌≡◌, [], IfOk};

use crate::names::Names;
use crate::record::Record;
use crate::system::System;
use std::alloc::Global;
use std::fs::{File, Metadata, OpenOptions};
use std::io::ErrorKind;
use std::os::fd::AsRawFd;
use std::os::unix::fs::{FileExt, MetadataExt, OpenOptionsExt};
use std::path::PathBuf;
use std::{fs, io, rt};

/// The permissions of a second file until it has those of the first: its owner may read and write it.
const PRIVATE: u32 = 0o600;

const ATTACHED: u64 = 0;

const READ: u64 = 1;

const WRITTEN: u64 = 2;

const PARTLY_WRITTEN: u64 = 3;

const RESIZED: u64 = 4;

const NOT_RESIZED: u64 = 5;

const FLUSHED: u64 = 6;

const NOT_FLUSHED: u64 = 7;

const MADE: u64 = 8;

const SEEN_SECOND: u64 = 9;

const LINKED_OLD: u64 = 10;

const RENAMED_SECOND: u64 = 11;

const RENAMED_OLD: u64 = 12;

const REMOVED_SECOND: u64 = 13;

const REMOVED_OLD: u64 = 14;

const FLUSHED_NAMES: u64 = 15;

const UNFLUSHABLE_NAMES: u64 = 16;

/// The real system, through a runtime, with a record of the calls.
#[derive(Drop)]
pub(crate) struct Host<R: rt::Files<File = File> + Drop> {
    pub(crate) runtime: R,
    pub(crate) list: Record,
}

impl<R: rt::Files<File = File> + Drop> Host<R> {
    /// Makes a system of which no call was made.
    pub(crate) fn new(runtime: R) -> Self {
        Host {
            runtime,
            list: Record::new(),
        }
    }
}

/// Returns the number of an open file.
fn number(file: &File) -> u64
    ensures { result ≡ number_of file.now }
{
    u64::from(file.as_raw_fd().unsigned_abs())
}

/// Opens a new file that nothing leads to yet.
fn open_new<R: rt::Files<File = File>>(runtime: &R, name: &str) -> io::Result<File> {
    OpenOptions::new()
        .read(true)
        .write(true)
        .create_new(true)
        .mode(PRIVATE)
        .open(runtime, name)
}

impl<R: rt::Files<File = File> + Drop> System for Host<R> {
    ghost calls = { λ host. host.list.calls };

    fn stat(&self, path: &str) -> io::Result<Metadata> {
        fs::metadata(&self.runtime, path)
    }

    fn stat_link(&self, path: &str) -> io::Result<Metadata> {
        fs::symlink_metadata(&self.runtime, path)
    }

    fn canonicalize(&self, alloc: Global, path: &str) -> io::Result<PathBuf> {
        self.runtime.canonicalize(alloc, path)
    }

    fn open_folder(&self, path: &str) -> io::Result<File> {
        File::open(&self.runtime, path)
    }

    fn open_existing(&self, path: &str) -> io::Result<File> {
        OpenOptions::new()
            .read(true)
            .write(true)
            .open(&self.runtime, path)
    }

    fn attach(&mut self, file: &File) {
        self.list.note(&[ATTACHED, number(file)], &[]);
    }

    fn read(&mut self, file: &File, into: &mut [u8], at: u64) -> io::Result<()> {
        file.read_exact_at(into, at)?;
        self.list.note(&[READ, number(file), at], into);
        Ok(())
    }

    fn write(&mut self, file: &File, from: &[u8], at: u64) -> io::Result<()> {
        let done = file.write_all_at(from, at);
        let kind = if done.is_ok() {
            WRITTEN
        } else {
            PARTLY_WRITTEN
        };
        self.list.note(&[kind, number(file), at], from);
        done
    }

    fn set_len(&mut self, file: &File, length: u64) -> io::Result<()> {
        let done = file.set_len(length);
        let kind = if done.is_ok() { RESIZED } else { NOT_RESIZED };
        self.list.note(&[kind, number(file), length], &[]);
        done
    }

    fn flush(&mut self, file: &File) -> io::Result<()> {
        let done = file.sync_all();
        let kind = if done.is_ok() { FLUSHED } else { NOT_FLUSHED };
        self.list.note(&[kind, number(file)], &[]);
        done
    }

    fn flush_data(&mut self, file: &File) -> io::Result<()> {
        let done = file.sync_data();
        let kind = if done.is_ok() { FLUSHED } else { NOT_FLUSHED };
        self.list.note(&[kind, number(file)], &[]);
        done
    }

    fn flush_names(&mut self, folder: &File) -> io::Result<bool> {
        match folder.sync_all() {
            Ok(()) => {
                self.list.note(&[FLUSHED_NAMES], &[]);
                Ok(true)
            }
            Err(e) if matches!(e.kind(), ErrorKind::InvalidInput | ErrorKind::Unsupported) => {
                self.list.note(&[UNFLUSHABLE_NAMES], &[]);
                Ok(false)
            }
            Err(e) => Err(e),
        }
    }

    fn make_second(&mut self, names: &Names, beside: &File) -> io::Result<File> {
        let file = open_new(&self.runtime, names.second.as_str())?;
        // The system never gives an open file's number to another one.
        if number(&file) == number(beside) {
            return Err(ErrorKind::Other.into());
        }
        self.list.note(&[MADE, number(&file)], &[]);
        Ok(file)
    }

    fn has_second(&mut self, names: &Names, file: &File) -> io::Result<bool> {
        let found = fs::symlink_metadata(&self.runtime, &names.second)?;
        let own = file.metadata()?;
        let has = found.dev() == own.dev() && found.ino() == own.ino();
        if has {
            self.list.note(&[SEEN_SECOND, number(file)], &[]);
        }
        Ok(has)
    }

    fn link_old(&mut self, names: &Names) -> io::Result<()> {
        fs::hard_link(&self.runtime, &names.file, &names.old)?;
        self.list.note(&[LINKED_OLD], &[]);
        Ok(())
    }

    fn rename_second(&mut self, names: &Names) -> io::Result<()> {
        fs::rename(&self.runtime, &names.second, &names.file)?;
        self.list.note(&[RENAMED_SECOND], &[]);
        Ok(())
    }

    fn rename_old(&mut self, names: &Names) -> io::Result<()> {
        fs::rename(&self.runtime, &names.old, &names.second)?;
        self.list.note(&[RENAMED_OLD], &[]);
        Ok(())
    }

    fn remove_second(&mut self, names: &Names) -> io::Result<()> {
        fs::remove_file(&self.runtime, &names.second)?;
        self.list.note(&[REMOVED_SECOND], &[]);
        Ok(())
    }

    fn remove_old(&mut self, names: &Names) -> io::Result<()> {
        fs::remove_file(&self.runtime, &names.old)?;
        self.list.note(&[REMOVED_OLD], &[]);
        Ok(())
    }
}
