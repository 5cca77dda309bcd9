//! Upgrades of the format, as far as they change the superblock.

ghost use Rattle.std.specs.Prelude.{◌≤◌};
ghost use Rattle.bp_layout.specs.Formatted.{IsSized};
ghost use Rattle.bp_volume.specs.Seen.{unit_answer};
ghost use Rattle.bp_fs.specs.SuperEvents.{to_three_events};
ghost use Rattle.bp_volume.specs.Upgraded.{MayUpgrade, Upgrades, UpgradesToThree};
ghost use Rattle.pm_region.specs.Memory.{Adds, words_in, room_in};

use bp_limits::{
    SUPER_MAGIC, SUPER_SNAPSHOT_ROOT, SUPER_SNAPSHOT_SIZE, SUPER_SPARE_ROOT, SUPER_SPARE_SIZE,
    Version,
};
use bp_plain::FsError;
use bp_read::version;
use bp_scan::has_second;
use pm_region::Region;

/// Carries out `upgrade`, except for its end-of-call marker. In version 1 it stores 0 to the words that version 2 uses
/// for the snapshot, and once they are written back, the magic number of version 2. A crash before that leaves version
/// 1, in which these words have no meaning. From version 2 on it does nothing.
pub(crate) fn upgrade_region<R: Region>(region: &mut R)
    requires sized { IsSized (words_in R.memory region.old) }
    requires room { 5 ≤ room_in (R.memory region.old) }
    ensures { Upgrades (R.memory region.old) (R.memory region.new) }
{
    match version(region) {
        Version::One => {}
        Version::Two | Version::Three => return,
    }
    region.store(SUPER_SNAPSHOT_ROOT, 0);
    region.store(SUPER_SNAPSHOT_SIZE, 0);
    // In version 2 these words describe the snapshot, so the magic number must not be written back before them.
    region.barrier();
    region.store(SUPER_MAGIC, Version::Two.magic());
    // A crash must not keep a store of a later call and lose the magic number.
    region.barrier();
}

/// Returns whether an upgrade to version 3 changes the version: the image is of version 1 or 2.
///
/// # Errors
///
/// - `HasSnap`: the image is of version 2 and has a snapshot.
pub(crate) fn is_before_three<R: Region>(region: &R) -> Result<bool, FsError>
    requires { IsSized (words_in R.memory region.now) }
    ensures { MayUpgrade (words_in R.memory region.now) result }
{
    match version(region) {
        Version::One | Version::Two => {}
        Version::Three => return Ok(false),
    }
    if has_second(region) {
        return Err(FsError::HasSnap);
    }
    Ok(true)
}

/// Turns an image of an earlier version into one of version 3. It stores 0 to the words that version 3 uses for other
/// inode files, and once they are written back, the magic number of version 3. A crash before that leaves the version
/// and the files as they were, if there is no snapshot.
fn store_three<R: Region>(region: &mut R)
    requires sized { IsSized (words_in R.memory region.old) }
    requires room { 7 ≤ room_in (R.memory region.old) }
    ensures { Adds (R.memory region.old) (R.memory region.new) to_three_events }
{
    region.store(SUPER_SNAPSHOT_ROOT, 0);
    region.store(SUPER_SNAPSHOT_SIZE, 0);
    region.store(SUPER_SPARE_ROOT, 0);
    region.store(SUPER_SPARE_SIZE, 0);
    // In version 3 these words describe inode files, so the magic number must not be written back before them.
    region.barrier();
    region.store(SUPER_MAGIC, Version::Three.magic());
    // A crash must not keep a store of a later call and lose the magic number.
    region.barrier();
}

/// Carries out `upgrade_to_three`, except for its end-of-call marker, once the words of inodes that version 3 makes
/// attributes are 0. In version 3 it does nothing.
pub(crate) fn upgrade_region_to_three<R: Region>(region: &mut R) -> Result<(), FsError>
    requires sized { IsSized (words_in R.memory region.old) }
    requires room { 7 ≤ room_in (R.memory region.old) }
    ensures { UpgradesToThree (R.memory region.old) (unit_answer result) (R.memory region.new) }
{
    if is_before_three(region)? {
        store_three(region);
    }
    Ok(())
}
