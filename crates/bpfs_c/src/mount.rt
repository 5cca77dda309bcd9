//! Mounting and closing.

ghost use Rattle.std.specs.Prelude.{[], ◌≡◌, IfOk, None};
ghost use Rattle.bp_layout.specs.Formatted.{IsSized};
ghost use Rattle.bp_limits.specs.Limits.{log_events};
ghost use Rattle.bpfs_c.specs.Opens.{Closes, Holds, IsSizedOr, Mounts, Opens, ReportsFault, ReportsWhetherHeld};

use crate::codes::{BAD_SIZE, CLOSED, DAMAGED, NO_MEMORY, NOT_FORMATTED, OK, OPEN, PENDING};
use crate::handle::Handle;
use crate::mounted::Mounted;
use bp_limits::{LOG_EVENTS, MAX_BLOCKS};
use bp_scan::image_length;
use bp_volume::{MountFault, Volume};
use pm_raw::RawArray;
use pm_region::Region;
use pm_runs::RedoRegion;
use std::alloc::{AllocError, Global};

/// Why words are no image: the check that fails and the word at which it does, or the number of bytes found and
/// wanted. The two fields that a fault does not set keep their values.
#[repr(C)]
#[derive(Clone, Copy, Drop)]
pub struct Fault {
    /// The number of the check.
    pub check: u32,
    /// The index at which the word is stored, from the start of the image.
    pub place: u64,
    /// The length of the words in bytes, at most `u64::MAX`.
    pub found: u64,
    /// The length in bytes that the image states for itself, at most `u64::MAX`. Where no image has this number of
    /// words: the next larger length that an image can have, or the largest.
    pub wanted: u64,
}

/// Returns the number of a mount fault, and stores its details.
pub(crate) fn faulty(fault: MountFault, reported: &mut Fault) -> u32
    ensures { ReportsFault fault reported.old result reported.new }
{
    match fault {
        MountFault::NotFormatted => NOT_FORMATTED,
        MountFault::BadSize { found, wanted } => {
            reported.found = found;
            reported.wanted = wanted;
            BAD_SIZE
        }
        MountFault::Damaged { check, place } => {
            reported.check = check.number() as u32;
            reported.place = place;
            DAMAGED
        }
        MountFault::Memory => NO_MEMORY,
    }
}

/// Tests whether an image may have this number of words.
pub(crate) fn test_size(words: &[u64]) -> Result<(), MountFault>
    ensures { IsSizedOr words.now result }
{
    image_length(MAX_BLOCKS, (words.len() as u64).saturating_mul(8))?;
    Ok(())
}

/// Copies the words into a new array.
fn array_of(alloc: Global, words: &[u64]) -> Result<RawArray<u64>, AllocError>
    requires { IsSized words.now }
    ensures { IfOk result (λ array. array ≡ words.now) }
{
    let mut array = RawArray::new(alloc, words.len(), 0)?;
    array.as_mut_slice().copy_from_slice(words);
    Ok(array)
}

/// Copies the words into a new region.
fn copy(alloc: Global, words: &[u64]) -> Result<RedoRegion, AllocError>
    requires { IsSized words.now }
    ensures { IfOk result (λ region. region ≡ record {
      base = words.now;
      events = [];
      capacity = log_events;
      drains = 0;
      through = 0;
    }) }
{
    let mut region = RedoRegion::new(alloc, 0, LOG_EVENTS)?;
    region.adopt_all(array_of(alloc, words)?);
    Ok(region)
}

/// Mounts a copy of the words.
fn mount(alloc: Global, words: &[u64]) -> Result<Volume<RedoRegion>, MountFault>
    ensures { Mounts words.now result }
{
    test_size(words)?;
    let Ok(region) = copy(alloc, words) else {
        return Err(MountFault::Memory);
    };
    match Volume::mount(alloc, region) {
        Ok(volume) => Ok(volume),
        Err((_, fault)) => Err(fault),
    }
}

/// Gives a volume to a handle. A volume that the handle held is freed.
fn hold(alloc: Global, handle: &mut Handle, volume: Volume<RedoRegion>) -> u32
    ensures { Holds volume handle.old.held result handle.new.held }
{
    match Box::new(
        alloc,
        Mounted {
            volume,
            listing: None,
            drained: 0,
            tag: 0,
        },
    ) {
        Ok(mounted) => {
            handle.put(alloc, mounted);
            OK
        }
        Err(_) => NO_MEMORY,
    }
}

/// Mounts a copy of the words of an image.
#[unsafe(no_mangle)]
pub extern "C" fn bpfs_mount(
    alloc: Global,
    handle: &mut Handle,
    words: &[u64],
    fault: &mut Fault,
) -> u32
    ensures { Opens words.now handle.old.held fault.old result handle.new.held fault.new }
{
    if let Some(mounted) = handle.take(alloc) {
        handle.put(alloc, mounted);
        return OPEN;
    }
    match mount(alloc, words) {
        Ok(volume) => hold(alloc, handle, volume),
        Err(why) => faulty(why, fault),
    }
}

/// Frees the volume of a handle, if its log is empty. Else the handle keeps it, so that no event is lost.
#[unsafe(no_mangle)]
pub extern "C" fn bpfs_close(alloc: Global, handle: &mut Handle) -> u32
    ensures { Closes handle.old.held result handle.new.held }
{
    let Some(mounted) = handle.take(alloc) else {
        return CLOSED;
    };
    if mounted.volume.region().event_count() != 0 {
        handle.put(alloc, mounted);
        return PENDING;
    }
    OK
}

/// Frees the volume of a handle, whatever its log has: events that were not carried are lost.
#[unsafe(no_mangle)]
pub extern "C" fn bpfs_discard(alloc: Global, handle: &mut Handle) -> u32
    ensures code { ReportsWhetherHeld handle.old.held result }
    ensures closed { handle.new.held ≡ None }
{
    match handle.take(alloc) {
        Some(_) => OK,
        None => CLOSED,
    }
}
