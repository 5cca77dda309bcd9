//! What a volume is: `bpfs_info`.

ghost use Rattle.std.specs.Prelude.{◌≡◌};
ghost use Rattle.bp_layout.specs.Formatted.{version_of};
ghost use Rattle.bp_layout.specs.Words.{block_count};
ghost use Rattle.bp_roles.specs.Mounted.{served_words};
ghost use Rattle.bp_plain.specs.TreeCode.{version_number};
ghost use Rattle.bpfs_c.specs.Infos.{HasInfo};
ghost use Rattle.bpfs_c.specs.Serves.{Looked};

use crate::codes::{CLOSED, OK};
use crate::handle::Handle;
use bp_limits::{BLOCK_WORDS, Version};
use bp_volume::Volume;
use pm_region::Region;
use pm_runs::RedoRegion;
use std::alloc::Global;

/// Properties of a mounted volume.
#[repr(C)]
#[derive(Clone, Copy, Drop)]
pub struct About {
    /// The version of its format: 1, 2 or 3.
    pub version: u32,
    /// The number of its blocks.
    pub blocks: u32,
    /// How many events its log can hold, at most `usize::MAX`.
    pub capacity: usize,
    /// How many events its log still has room for.
    pub room: usize,
    /// Whether there is a snapshot.
    pub has_snapshot: bool,
}

/// Returns the number of a version.
fn number_of(version: Version) -> u32
    ensures { result ≡ version_number version }
{
    match version {
        Version::One => 1,
        Version::Two => 2,
        Version::Three => 3,
    }
}

/// Returns the number of blocks of a volume.
fn blocks_of(volume: &Volume<RedoRegion>) -> u32
    ensures { result ≡ block_count (served_words volume.now) }
{
    (volume.region().words() / BLOCK_WORDS) as u32
}

/// Returns the properties of a volume.
fn about_volume(volume: &Volume<RedoRegion>) -> About
    ensures { HasInfo volume.now result }
{
    let region = volume.region();
    let room = region.room();
    About {
        version: number_of(volume.version()),
        blocks: blocks_of(volume),
        capacity: region.event_count().saturating_add(room),
        room,
        has_snapshot: volume.has_snapshot(),
    }
}

/// Stores the properties of the volume.
#[unsafe(no_mangle)]
pub extern "C" fn bpfs_info(alloc: Global, handle: &mut Handle, into: &mut About) -> u32
    ensures { Looked handle.old.held (λ held. (result ≡ 0) × HasInfo held.volume into.new)
        (into.new ≡ into.old) result handle.new.held }
{
    let Some(mounted) = handle.take(alloc) else {
        return CLOSED;
    };
    *into = about_volume(&mounted.volume);
    handle.put(alloc, mounted);
    OK
}
