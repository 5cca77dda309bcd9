//! The contents of a handle that holds a volume.

ghost use Rattle.std.specs.Prelude.{◌≤◌, ◌↔◌, IsTrue};
ghost use Rattle.bp_limits.specs.Limits.{call_room};
ghost use Rattle.pm_region.specs.Memory.{room_in};

use bp_fs::needs_drain;
use bp_layout::Listing;
use bp_volume::Volume;
use pm_runs::RedoRegion;

/// A mounted volume, and what the library keeps with it.
#[derive(Drop)]
pub struct Mounted {
    /// The volume, over a copy of the caller's words.
    pub volume: Volume<RedoRegion>,
    /// The entries that the last listing found.
    pub listing: Option<Listing>,
    /// How many events drains have removed from the log since the mount, modulo 2^64.
    pub drained: u64,
    /// A number for the caller's own use.
    pub tag: u64,
}

/// Whether the log has room for a call, so that none of its events is dropped.
pub(crate) fn has_room(mounted: &Mounted) -> bool
    ensures { IsTrue result ↔ (call_room ≤ room_in mounted.now.volume) }
{
    !needs_drain(mounted.volume.region())
}
