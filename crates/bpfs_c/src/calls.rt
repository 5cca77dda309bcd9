//! Exports that may change the tree.

ghost use Rattle.bp_plain.specs.Calls.{Call};
ghost use Rattle.bp_plain.specs.Calls.Call.{create, link, mkdir, rename, rmdir, truncate, unlink, write};
ghost use Rattle.bpfs_c.specs.Exports.{ExportsChange};
ghost use Rattle.bpfs_c.specs.Serves.{IsCall};

use crate::codes::{CLOSED, LOG_FULL, Lack, ended};
use crate::handle::Handle;
use crate::mounted::has_room;
use bp_plain::FsError;
use bp_volume::Volume;
use pm_runs::RedoRegion;
use std::alloc::Global;

/// Makes a call that changes the tree of the handle's volume, if its log has room for a call.
fn change<F: FnOnce(&mut Volume<RedoRegion>) -> Result<(), FsError>>(
    alloc: Global,
    handle: &mut Handle,
    lack: &mut Lack,
    act: F,
) -> u32
    requires { F.IsAlwaysCallable act }
    ensures { (call : Call) → IsCall F.FnOnce act call →
        ExportsChange handle.old.held call lack.old result lack.new handle.new.held }
{
    let Some(mut mounted) = handle.take(alloc) else {
        return CLOSED;
    };
    let code = if has_room(&mounted) {
        ended(act(&mut mounted.volume), lack)
    } else {
        LOG_FULL
    };
    handle.put(alloc, mounted);
    code
}

/// Creates an empty file.
#[unsafe(no_mangle)]
pub extern "C" fn bpfs_create(
    alloc: Global,
    handle: &mut Handle,
    path: &[u8],
    lack: &mut Lack,
) -> u32
    ensures { ExportsChange handle.old.held (create path.now) lack.old result lack.new handle.new.held }
{
    change(alloc, handle, lack, |volume| volume.create(path))
}

/// Creates an empty directory.
#[unsafe(no_mangle)]
pub extern "C" fn bpfs_mkdir(
    alloc: Global,
    handle: &mut Handle,
    path: &[u8],
    lack: &mut Lack,
) -> u32
    ensures { ExportsChange handle.old.held (mkdir path.now) lack.old result lack.new handle.new.held }
{
    change(alloc, handle, lack, |volume| volume.mkdir(path))
}

/// Removes a link to a file, and deletes the file with its last link.
#[unsafe(no_mangle)]
pub extern "C" fn bpfs_unlink(
    alloc: Global,
    handle: &mut Handle,
    path: &[u8],
    lack: &mut Lack,
) -> u32
    ensures { ExportsChange handle.old.held (unlink path.now) lack.old result lack.new handle.new.held }
{
    change(alloc, handle, lack, |volume| volume.unlink(path))
}

/// Removes an empty directory.
#[unsafe(no_mangle)]
pub extern "C" fn bpfs_rmdir(
    alloc: Global,
    handle: &mut Handle,
    path: &[u8],
    lack: &mut Lack,
) -> u32
    ensures { ExportsChange handle.old.held (rmdir path.now) lack.old result lack.new handle.new.held }
{
    change(alloc, handle, lack, |volume| volume.rmdir(path))
}

/// Moves a file or directory to another path.
#[unsafe(no_mangle)]
pub extern "C" fn bpfs_rename(
    alloc: Global,
    handle: &mut Handle,
    from: &[u8],
    to: &[u8],
    lack: &mut Lack,
) -> u32
    ensures { ExportsChange handle.old.held (rename from.now to.now) lack.old result lack.new handle.new.held }
{
    change(alloc, handle, lack, |volume| volume.rename(from, to))
}

/// Gives a file one more hard link.
#[unsafe(no_mangle)]
pub extern "C" fn bpfs_link(
    alloc: Global,
    handle: &mut Handle,
    from: &[u8],
    to: &[u8],
    lack: &mut Lack,
) -> u32
    ensures { ExportsChange handle.old.held (link from.now to.now) lack.old result lack.new handle.new.held }
{
    change(alloc, handle, lack, |volume| volume.link(from, to))
}

/// Writes bytes to a file.
#[unsafe(no_mangle)]
pub extern "C" fn bpfs_write(
    alloc: Global,
    handle: &mut Handle,
    path: &[u8],
    offset: u64,
    bytes: &[u8],
    lack: &mut Lack,
) -> u32
    ensures { ExportsChange handle.old.held (write path.now offset bytes.now) lack.old result lack.new handle.new.held }
{
    change(
        alloc,
        handle,
        lack,
        |volume| volume.write(path, offset, bytes),
    )
}

/// Changes the size of a file.
#[unsafe(no_mangle)]
pub extern "C" fn bpfs_truncate(
    alloc: Global,
    handle: &mut Handle,
    path: &[u8],
    size: u64,
    lack: &mut Lack,
) -> u32
    ensures { ExportsChange handle.old.held (truncate path.now size) lack.old result lack.new handle.new.held }
{
    change(alloc, handle, lack, |volume| volume.truncate(path, size))
}
