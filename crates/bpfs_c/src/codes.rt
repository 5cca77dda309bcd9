//! The numbers that exports return for the end of a call.

ghost use Rattle.std.specs.Prelude.{◌≡◌, Result, Ok, Err};
ghost use Rattle.bp_plain.specs.Refusals.{refusal_number};
ghost use Rattle.bp_plain.specs.Seen.{refusal_of};
ghost use Rattle.bp_volume.specs.Seen.{unit_answer};
ghost use Rattle.bpfs_c.specs.Codes.{HasLack, IsEndedAs, IsEndedBy};

use bp_plain::FsError;

/// The call succeeded.
pub const OK: u32 = 0;

/// Allocation of memory for the volume failed.
pub const NO_MEMORY: u32 = 12;

/// The handle holds no volume.
pub const CLOSED: u32 = 32;

/// The handle holds a volume already.
pub const OPEN: u32 = 33;

/// The log has no room for a call: carry its events, then drain it.
pub const LOG_FULL: u32 = 34;

/// The words do not begin with the magic number of a version of the format.
pub const NOT_FORMATTED: u32 = 35;

/// No image has this number of words, or the image was formatted for another number.
pub const BAD_SIZE: u32 = 36;

/// A check of the format fails.
pub const DAMAGED: u32 = 37;

/// No such place in the words or in the listing, or the caller's array is too short or too long.
pub const OUT_OF_RANGE: u32 = 38;

/// A part of an upgrade is done: carry the events, and call again.
pub const AGAIN: u32 = 39;

/// The log has events: carry them, then drain it.
pub const PENDING: u32 = 40;

/// The blocks that a call needs and those that are free, after a refusal for lack of space.
#[repr(C)]
#[derive(Clone, Copy, Drop)]
pub struct Lack {
    /// The number of blocks that the call needs.
    pub need: u32,
    /// The number of free blocks.
    pub free: u32,
}

/// The number of a refusal.
pub(crate) fn number_of(error: FsError) -> u32
    ensures { result ≡ refusal_number (refusal_of error) }
{
    error.number() as u32
}

/// Returns the number of a refusal; for lack of space it also stores the needed and the free blocks.
fn refused(error: FsError, lack: &mut Lack) -> u32
    ensures number { result ≡ refusal_number (refusal_of error) }
    ensures lack { HasLack (refusal_of error) lack.old lack.new }
{
    if let FsError::NoSpace { need, free } = error {
        *lack = Lack { need, free };
    }
    number_of(error)
}

/// Returns the number of a call's end; for lack of space it also stores the needed and the free blocks.
pub(crate) fn ended(ending: Result<(), FsError>, lack: &mut Lack) -> u32
    ensures { IsEndedAs (unit_answer ending) lack.old result lack.new }
{
    match ending {
        Ok(()) => OK,
        Err(error) => refused(error, lack),
    }
}

/// Returns the number of the end of a call that never fails for lack of space.
pub(crate) fn ended_by(ending: Result<(), FsError>) -> u32
    ensures { IsEndedBy (unit_answer ending) result }
{
    match ending {
        Ok(()) => OK,
        Err(error) => number_of(error),
    }
}
