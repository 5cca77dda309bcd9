//! Thaws before changes: copy-on-write of the blocks of the snapshot near the words of a change.

ghost use Rattle.std.specs.Prelude.{◌≡◌, ◌+◌, ◌^◌, ◌<◌, ◌≤◌, IfErr, OnErr, OnOk, length};
ghost use Rattle.bp_calls.specs.Mounted.{image_in, IsMountedIn};
ghost use Rattle.bp_calls.specs.Space.{LacksBlocks};
ghost use Rattle.bp_calls.specs.ThawsFor.{HasRoomToThaw, LacksBlocksToThaw, ThawsFor, thaw_count};
ghost use Rattle.bp_free.specs.Set.{members};
ghost use Rattle.bp_layout.specs.Members.{Has};
ghost use Rattle.bp_layout.specs.WordPaths.{WordPath};
ghost use Rattle.bp_changes.specs.Sets.{in_snapshot_of};
ghost use Rattle.bp_thaw.specs.Prefixes.{IsWayIn};
ghost use Rattle.bp_thaw.specs.Thaws.{paths_in};

use crate::targets::Targets;
use bp_free::{NoSpace, Parts};
use bp_thaw::{thaw, thaw_need};
use pm_region::Region;

/// Checks whether `need` blocks are free, for a change that thaws nothing.
///
/// # Errors
///
/// - `NoSpace`: fewer blocks are free.
pub(crate) fn enough_free<R: Region>(parts: &Parts<R>, need: u32) -> Result<(), NoSpace>
    requires { IsMountedIn R.memory parts.now }
    ensures enough { OnOk result (need ≤ length (members parts.now.free_blocks)) }
    ensures refused { IfErr result (LacksBlocks (image_in R.memory parts.now) (in_snapshot_of parts.now) need) }
    ensures free { IfErr result (λ lacks. lacks.free ≡ length (members parts.now.free_blocks)) }
{
    let free = parts.free_blocks.count();
    if free < need {
        return Err(NoSpace { need, free });
    }
    Ok(())
}

/// Thaws the blocks of the snapshot on the paths to some words, for a change that takes `more` blocks after that.
///
/// # Errors
///
/// Nothing has changed then.
///
/// - `NoSpace`: fewer blocks are free than the thaw and the change take together.
pub fn thaw_before<R: Region>(
    parts: &mut Parts<R>,
    targets: &Targets,
    more: u32,
) -> Result<(), NoSpace>
    requires mounted { IsMountedIn R.memory parts.old }
    requires ways { (path : WordPath) → Has (paths_in targets.now) path → IsWayIn (image_in R.memory parts.old) path }
    requires few { more < 2 ^ 31 }
    requires room { HasRoomToThaw R.memory (paths_in targets.now) parts.old more }
    ensures thaws { OnOk result (ThawsFor R.memory (paths_in targets.now) parts.old parts.new) }
    ensures enough { OnOk result (thaw_count R.memory (paths_in targets.now) parts.old + more ≤
        length (members parts.old.free_blocks)) }
    ensures refused { IfErr result (LacksBlocksToThaw R.memory (paths_in targets.now) parts.old more) }
    ensures same { OnErr result (parts.new ≡ parts.old) }
{
    let need = thaw_need(parts, targets) + more;
    match enough_free(parts, need) {
        Ok(()) => {
            thaw(parts, targets);
            Ok(())
        }
        Err(lacks) => Err(lacks),
    }
}
