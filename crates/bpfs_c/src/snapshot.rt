//! Calls on the snapshot. Those that read it add nothing to the log.

ghost use Rattle.std.specs.Prelude.{◌≡◌, length};
ghost use Rattle.bp_plain.specs.Calls.Call.{snap, snap_list, snap_read, snap_stat, unsnap};
ghost use Rattle.bpfs_c.specs.Codes.{IsEndedBy, IsListed};
ghost use Rattle.bpfs_c.specs.Exports.{AsksFound, AsksRead};
ghost use Rattle.bpfs_c.specs.Serves.{Asks, Exported};

use crate::codes::{CLOSED, LOG_FULL, ended_by};
use crate::handle::Handle;
use crate::listing::keep;
use crate::mounted::has_room;
use crate::queries::{Found, report_count, report_found};
use std::alloc::Global;

/// Takes a snapshot.
#[unsafe(no_mangle)]
pub extern "C" fn bpfs_snap(alloc: Global, handle: &mut Handle) -> u32
    ensures { Exported handle.old.held snap (λ answer. IsEndedBy answer result) (Unit {0}) result handle.new.held }
{
    let Some(mut mounted) = handle.take(alloc) else {
        return CLOSED;
    };
    let code = if has_room(&mounted) {
        ended_by(mounted.volume.snap())
    } else {
        LOG_FULL
    };
    handle.put(alloc, mounted);
    code
}

/// Deletes the snapshot.
#[unsafe(no_mangle)]
pub extern "C" fn bpfs_unsnap(alloc: Global, handle: &mut Handle) -> u32
    ensures { Exported handle.old.held unsnap (λ answer. IsEndedBy answer result) (Unit {0}) result handle.new.held }
{
    let Some(mut mounted) = handle.take(alloc) else {
        return CLOSED;
    };
    let code = if has_room(&mounted) {
        ended_by(mounted.volume.unsnap())
    } else {
        LOG_FULL
    };
    handle.put(alloc, mounted);
    code
}

/// Reads bytes of a file of the snapshot.
#[unsafe(no_mangle)]
pub extern "C" fn bpfs_snap_read(
    alloc: Global,
    handle: &mut Handle,
    path: &[u8],
    offset: u64,
    into: &mut [u8],
    count: &mut usize,
) -> u32
    ensures { AsksRead handle.old.held (snap_read path.now offset (length into.old)) into.old count.old
        result into.new count.new handle.new.held }
{
    let Some(mounted) = handle.take(alloc) else {
        return CLOSED;
    };
    let code = report_count(mounted.volume.look_snap_read(path, offset, into), count);
    handle.put(alloc, mounted);
    code
}

/// Looks up a path of the snapshot: its kind, and its size or number of entries.
#[unsafe(no_mangle)]
pub extern "C" fn bpfs_snap_stat(
    alloc: Global,
    handle: &mut Handle,
    path: &[u8],
    found: &mut Found,
) -> u32
    ensures { AsksFound handle.old.held (snap_stat path.now) found.old result found.new handle.new.held }
{
    let Some(mounted) = handle.take(alloc) else {
        return CLOSED;
    };
    let code = report_found(mounted.volume.look_snap_stat(path), found);
    handle.put(alloc, mounted);
    code
}

/// Lists a directory of the snapshot. The handle keeps the entries until the next listing.
#[unsafe(no_mangle)]
pub extern "C" fn bpfs_snap_list(
    alloc: Global,
    handle: &mut Handle,
    path: &[u8],
    count: &mut usize,
) -> u32
    ensures { Asks handle.old.held (snap_list path.now) (λ answer. IsListed answer count.old result count.new)
        (count.new ≡ count.old) result handle.new.held }
{
    let Some(mut mounted) = handle.take(alloc) else {
        return CLOSED;
    };
    let ending = mounted.volume.look_snap_list(alloc, path);
    let code = keep(&mut mounted.listing, ending, count);
    handle.put(alloc, mounted);
    code
}
