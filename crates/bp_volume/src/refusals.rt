//! The refusals of calls on inodes, as those of calls with a path.

ghost use Rattle.std.specs.Prelude.{◌≡◌};
ghost use Rattle.bp_plain.specs.Calls.Refusal.{no_space};
ghost use Rattle.bp_plain.specs.Seen.{refusal_of};

use bp_free::NoSpace;
use bp_plain::FsError;

/// Returns the refusal of a call that needs more blocks than are free.
pub(crate) fn no_space(lacks: NoSpace) -> FsError
    ensures { refusal_of result ≡ no_space lacks.need lacks.free }
{
    FsError::NoSpace {
        need: lacks.need,
        free: lacks.free,
    }
}
