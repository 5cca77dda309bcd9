//! Mounting words in memory that the caller lends, and giving that memory back.

ghost use Rattle.std.specs.Prelude.{◌≡◌, MatchResult, None, Some};
ghost use Rattle.bp_layout.specs.Formatted.{IsSized};
ghost use Rattle.pm_region.specs.Memory.{current_words};
ghost use Rattle.bpfs_c.specs.Opens.{GivesBack, HoldsAt, MountsAt, OpensAt, ReportsWhetherHeld, region_of};

use crate::codes::{CLOSED, NO_MEMORY, OK, OPEN, OUT_OF_RANGE};
use crate::handle::Handle;
use crate::mount::{Fault, faulty, test_size};
use crate::mounted::Mounted;
use bp_limits::LOG_EVENTS;
use bp_volume::{MountFault, Volume};
use pm_raw::{Lent, RawArray};
use pm_runs::RedoRegion;
use std::alloc::Global;
use std::mem::replace;

/// Makes a region of these words, in the memory where they are. Where allocation of the log fails, the words come back.
fn region_over(alloc: Global, words: RawArray<u64>) -> Result<RedoRegion, RawArray<u64>>
    requires { IsSized words }
    ensures { MatchResult result (λ region. region ≡ region_of words) (λ again. again ≡ words) }
{
    match RedoRegion::new(alloc, 0, LOG_EVENTS) {
        Ok(mut region) => {
            region.adopt_all(words);
            Ok(region)
        }
        Err(_) => Err(words),
    }
}

/// Mounts these words where they are. Where there is no volume, they come back.
fn mount_words(
    alloc: Global,
    words: RawArray<u64>,
) -> Result<Volume<RedoRegion>, (RawArray<u64>, MountFault)>
    ensures { MountsAt words result }
{
    if let Err(fault) = test_size(words.as_slice()) {
        return Err((words, fault));
    }
    match region_over(alloc, words) {
        Ok(region) => match Volume::mount(alloc, region) {
            Ok(volume) => Ok(volume),
            Err((region, fault)) => Err((region.into_words(), fault)),
        },
        Err(words) => Err((words, MountFault::Memory)),
    }
}

/// Gives a volume over lent words to a handle. A volume that the handle held is freed. Where allocation fails, the
/// words are lent again.
fn hold_lent(alloc: Global, handle: &mut Handle, volume: Volume<RedoRegion>, lent: &mut Lent) -> u32
    ensures { HoldsAt volume handle.old.held lent.old.words result handle.new.held lent.new.words }
{
    match Box::new(
        alloc,
        Mounted {
            volume,
            listing: None,
            drained: 0,
            tag: 0,
        },
    ) {
        Ok(mounted) => {
            handle.put(alloc, mounted);
            OK
        }
        Err(failed) => {
            *lent = lent_of(failed.value);
            NO_MEMORY
        }
    }
}

/// Lends the words of a volume, as they are now. The rest of the volume is freed.
fn lent_of(mounted: Mounted) -> Lent
    ensures { result.words ≡ Some (current_words mounted.volume) }
{
    let Mounted {
        volume,
        listing: _,
        drained: _,
        tag: _,
    } = mounted;
    volume.into_region().into_words().into_lent()
}

/// Mounts the words of an image where they are: none is copied. The handle has the lent memory until
/// [`bpfs_close_at`] gives it back.
#[unsafe(no_mangle)]
pub extern "C" fn bpfs_mount_at(
    alloc: Global,
    handle: &mut Handle,
    lent: &mut Lent,
    fault: &mut Fault,
) -> u32
    ensures { OpensAt lent.old.words handle.old.held fault.old result handle.new.held lent.new.words fault.new }
{
    if let Some(mounted) = handle.take(alloc) {
        handle.put(alloc, mounted);
        return OPEN;
    }
    let Some(words) = RawArray::of_lent(alloc, replace(lent, Lent::none())) else {
        return OUT_OF_RANGE;
    };
    match mount_words(alloc, words) {
        Ok(volume) => hold_lent(alloc, handle, volume, lent),
        Err((words, why)) => {
            *lent = words.into_lent();
            faulty(why, fault)
        }
    }
}

/// Frees the volume of a handle, and gives its words to the caller with their memory. For a volume that
/// [`bpfs_mount`](crate::mount::bpfs_mount) made, that is a block of the C library's `malloc`.
#[unsafe(no_mangle)]
pub extern "C" fn bpfs_close_at(alloc: Global, handle: &mut Handle, lent: &mut Lent) -> u32
    ensures code { ReportsWhetherHeld handle.old.held result }
    ensures closed { handle.new.held ≡ None }
    ensures again { GivesBack handle.old.held lent.old.words lent.new.words }
{
    match handle.take(alloc) {
        Some(mounted) => {
            *lent = lent_of(Box::into_inner(mounted));
            OK
        }
        None => CLOSED,
    }
}
