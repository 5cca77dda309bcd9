//! When a call drains.

ghost use Rattle.bp_fs.specs.Behaviour.{drains_first};
ghost use Rattle.std.specs.Prelude.{◌≡◌};

use bp_limits::CALL_ROOM;
use pm_region::Region;

/// Whether the next call drains the region before it does anything else: the log might not have room for its events.
pub fn needs_drain<R: Region>(region: &R) -> bool
    ensures { result ≡ drains_first (R.memory region.now) }
{
    region.room() < CALL_ROOM
}
