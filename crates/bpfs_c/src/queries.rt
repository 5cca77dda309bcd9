//! Exports that look up a path: `bpfs_read`, `bpfs_stat`, `bpfs_links`, `bpfs_inode`. They add nothing to the log.

ghost use Rattle.std.specs.Prelude.{◌≡◌, length};
ghost use Rattle.bp_plain.specs.Calls.Call.{links, read, stat};
ghost use Rattle.bp_volume.specs.Seen.{links_answer, stat_answer_of};
ghost use Rattle.bpfs_c.specs.Codes.{ReportsCount, ReportsFound, ReportsInode, ReportsLinks};
ghost use Rattle.bpfs_c.specs.Exports.{AsksFound, AsksRead};
ghost use Rattle.bpfs_c.specs.Serves.{Asks, Looked};

use crate::codes::{CLOSED, OK, number_of};
use crate::handle::Handle;
use bp_layout::Stat;
use bp_plain::FsError;
use std::alloc::Global;

/// A file or a directory at a path.
#[repr(C)]
#[derive(Clone, Copy, Drop)]
pub struct Found {
    /// The size of a file in bytes, or the number of entries of a directory.
    pub size: u64,
    /// Whether it is a directory.
    pub is_dir: bool,
}

/// Stores the number of bytes that were read, and returns the number of the call's end.
pub(crate) fn report_count(ending: Result<usize, FsError>, count: &mut usize) -> u32
    ensures { ReportsCount ending count.old result count.new }
{
    match ending {
        Ok(read) => {
            *count = read;
            OK
        }
        Err(error) => number_of(error),
    }
}

/// Reads bytes of a file.
#[unsafe(no_mangle)]
pub extern "C" fn bpfs_read(
    alloc: Global,
    handle: &mut Handle,
    path: &[u8],
    offset: u64,
    into: &mut [u8],
    count: &mut usize,
) -> u32
    ensures { AsksRead handle.old.held (read path.now offset (length into.old)) into.old count.old
        result into.new count.new handle.new.held }
{
    let Some(mut mounted) = handle.take(alloc) else {
        return CLOSED;
    };
    let code = report_count(mounted.volume.look_read(path, offset, into), count);
    handle.put(alloc, mounted);
    code
}

/// Stores the size and the kind at a path, and returns the number of the call's end.
pub(crate) fn report_found(ending: Result<Stat, FsError>, found: &mut Found) -> u32
    ensures { ReportsFound (stat_answer_of ending) found.old result found.new }
{
    match ending {
        Ok(Stat::File { size }) => {
            *found = Found {
                size,
                is_dir: false,
            };
            OK
        }
        Ok(Stat::Dir { count }) => {
            *found = Found {
                size: count,
                is_dir: true,
            };
            OK
        }
        Err(error) => number_of(error),
    }
}

/// Looks up a path: its kind, and its size or number of entries.
#[unsafe(no_mangle)]
pub extern "C" fn bpfs_stat(
    alloc: Global,
    handle: &mut Handle,
    path: &[u8],
    found: &mut Found,
) -> u32
    ensures { AsksFound handle.old.held (stat path.now) found.old result found.new handle.new.held }
{
    let Some(mut mounted) = handle.take(alloc) else {
        return CLOSED;
    };
    let code = report_found(mounted.volume.look_stat(path), found);
    handle.put(alloc, mounted);
    code
}

/// Stores the number of links of a file, and returns the number of the call's end.
fn report_links(ending: Result<u32, FsError>, count: &mut u32) -> u32
    ensures { ReportsLinks (links_answer ending) count.old result count.new }
{
    match ending {
        Ok(links) => {
            *count = links;
            OK
        }
        Err(error) => number_of(error),
    }
}

/// Counts the hard links of the file at a path.
#[unsafe(no_mangle)]
pub extern "C" fn bpfs_links(
    alloc: Global,
    handle: &mut Handle,
    path: &[u8],
    count: &mut u32,
) -> u32
    ensures { Asks handle.old.held (links path.now) (λ answer. ReportsLinks answer count.old result count.new)
        (count.new ≡ count.old) result handle.new.held }
{
    let Some(mut mounted) = handle.take(alloc) else {
        return CLOSED;
    };
    let code = report_links(mounted.volume.look_links(path), count);
    handle.put(alloc, mounted);
    code
}

/// Stores the number of an inode, and returns the number of the call's end.
fn report_inode(ending: Result<u32, FsError>, ino: &mut u32) -> u32
    ensures { ReportsCount ending ino.old result ino.new }
{
    match ending {
        Ok(found) => {
            *ino = found;
            OK
        }
        Err(error) => number_of(error),
    }
}

/// Gets the number of the inode of the file or directory at a path. All links of a file have the same number.
#[unsafe(no_mangle)]
pub extern "C" fn bpfs_inode(alloc: Global, handle: &mut Handle, path: &[u8], ino: &mut u32) -> u32
    ensures { Looked handle.old.held (λ held. ReportsInode held.volume path.now ino.old result ino.new)
        (ino.new ≡ ino.old) result handle.new.held }
{
    let Some(mut mounted) = handle.take(alloc) else {
        return CLOSED;
    };
    let code = report_inode(mounted.volume.look_inode(path), ino);
    handle.put(alloc, mounted);
    code
}
