//! Upgrades of the format: `bpfs_upgrade`, `bpfs_upgrade_to_three`.

ghost use Rattle.std.specs.Prelude.{◌≡◌};
ghost use Rattle.bp_plain.specs.Calls.Answer.{done};
ghost use Rattle.bp_plain.specs.Calls.Call.{upgrade, upgrade_to_three};
ghost use Rattle.bpfs_c.specs.Codes.{IsEndedBy};
ghost use Rattle.bpfs_c.specs.Serves.{Exported};
ghost use Rattle.bpfs_c.specs.Upgrades.{ClearsHeld, ClearsOrUpgrades};

use crate::codes::{AGAIN, CLOSED, LOG_FULL, OK, ended_by};
use crate::handle::Handle;
use crate::mounted::has_room;
use bp_volume::Volume;
use pm_runs::RedoRegion;
use std::alloc::Global;

/// Changes the version of the image's format to 2.
#[unsafe(no_mangle)]
pub extern "C" fn bpfs_upgrade(alloc: Global, handle: &mut Handle) -> u32
    ensures { Exported handle.old.held upgrade (λ answer. (answer ≡ done) × (result ≡ 0)) (Unit {0}) result
        handle.new.held }
{
    let Some(mut mounted) = handle.take(alloc) else {
        return CLOSED;
    };
    let code = if has_room(&mounted) {
        mounted.volume.upgrade();
        OK
    } else {
        LOG_FULL
    };
    handle.put(alloc, mounted);
    code
}

/// Sets words to 0 that version 3 makes attributes; or upgrades to version 3, if these words are 0 already.
fn clear_or_upgrade(volume: &mut Volume<RedoRegion>) -> u32
    ensures { ClearsOrUpgrades volume.old result volume.new }
{
    match volume.clear_for_upgrade() {
        Ok(true) => AGAIN,
        // A refused upgrade makes the call too, and so gets its end-of-call marker as other refused calls do.
        Ok(false) | Err(_) => ended_by(volume.upgrade_to_three()),
    }
}

/// Changes the version of the image's format to 3. While words are set that version 3 makes attributes, it sets some of
/// them to 0 and returns `AGAIN`: the caller carries the events and calls again.
#[unsafe(no_mangle)]
pub extern "C" fn bpfs_upgrade_to_three(alloc: Global, handle: &mut Handle) -> u32
    ensures again { result ≡ 39 → ClearsHeld handle.old.held handle.new.held }
    ensures called { ¬ (result ≡ 39) →
        Exported handle.old.held upgrade_to_three (λ answer. IsEndedBy answer result) (Unit {0}) result handle.new.held }
{
    let Some(mut mounted) = handle.take(alloc) else {
        return CLOSED;
    };
    let code = if has_room(&mounted) {
        clear_or_upgrade(&mut mounted.volume)
    } else {
        LOG_FULL
    };
    handle.put(alloc, mounted);
    code
}
