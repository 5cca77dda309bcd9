//! The standard streams of a program that was started without one of them.

use std::fs::{File, Metadata, OpenOptions};
use std::io::ErrorKind;
use std::os::fd::AsRawFd;
use std::os::unix::fs::MetadataExt;
use std::{fs, io, rt};

/// The name under which the system shows the file of standard output.
const OUTPUT: &str = "/proc/self/fd/1";

/// Files in place of closed streams, as long as they are held.
#[derive(Drop)]
pub(crate) struct StandIns {
    _input: Option<File>,
    _output: Option<File>,
    _errors: Option<File>,
}

/// Takes the descriptors of the closed standard streams, so that no file is opened under one of them and takes a
/// reply, or is read as a script. Each use of such a stream then fails: the null device replaces the input, open for
/// writing only, and the outputs, open for reading only. If all streams are open, the null device need not exist.
pub(crate) fn take_streams<R: rt::Files<File = File>>(runtime: &R) -> io::Result<StandIns> {
    if are_open(runtime) {
        return Ok(StandIns {
            _input: None,
            _output: None,
            _errors: None,
        });
    }
    Ok(StandIns {
        _input: up_to(
            0,
            OpenOptions::new().write(true).open(runtime, "/dev/null")?,
        ),
        _output: up_to(2, OpenOptions::new().read(true).open(runtime, "/dev/null")?),
        _errors: up_to(2, OpenOptions::new().read(true).open(runtime, "/dev/null")?),
    })
}

/// Whether each standard stream is known to be open: a new file, here the root directory, gets the least free
/// descriptor.
fn are_open<R: rt::Files<File = File>>(runtime: &R) -> bool {
    match OpenOptions::new().read(true).open(runtime, "/") {
        Ok(root) => root.as_raw_fd() > 2,
        Err(_) => false,
    }
}

/// Returns the regular file to which standard output is known to go. Nothing is known if the system does not show the
/// file of standard output.
pub(crate) fn output_file<R: rt::Files<File = File>>(runtime: &R) -> Option<Metadata> {
    match fs::metadata(runtime, OUTPUT) {
        Ok(output) if output.is_file() => Some(output),
        _ => None,
    }
}

/// Whether a name leads to this file. It does not if nothing has the name; any other error leaves that open.
pub(crate) fn leads_to<R: rt::Files<File = File>>(
    runtime: &R,
    name: &str,
    file: &Metadata,
) -> io::Result<bool> {
    match fs::metadata(runtime, name) {
        Ok(found) => Ok(found.dev() == file.dev() && found.ino() == file.ino()),
        Err(error) if error.kind() == ErrorKind::NotFound => Ok(false),
        Err(error) => Err(error),
    }
}

/// Returns the file if its descriptor is at most `last`. A new file gets the least free descriptor.
fn up_to(last: i32, file: File) -> Option<File> {
    if file.as_raw_fd() <= last {
        Some(file)
    } else {
        None
    }
}
