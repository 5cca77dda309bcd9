//! Writes of bytes into several files at once.

ghost use Rattle.std.specs.Prelude.{◌≡◌, ◌+◌, ◌≤◌, [], ◌∷◌, length, IfErr, OnErr, OnOk};
ghost use Rattle.bp_calls.specs.Commits.{CommitsOrLacksBlocks, CommitsOrLacksSpace};
ghost use Rattle.bp_calls.specs.Mounted.{image_in, IsExactIn, IsMountedIn};
ghost use Rattle.bp_calls.specs.Overwritten.{AreRuns, CanOverwrite, CanOverwriteThawedIn, IsPatchIn, batch_change, patch_seen, patches_seen};
ghost use Rattle.bp_calls.specs.Space.{HasRoomWhereFree, LacksSpace};
ghost use Rattle.bp_calls.specs.ThawsFor.{ThawsBefore};
ghost use Rattle.bp_calls.specs.TouchedBelow.{IsRunFor};
ghost use Rattle.bp_changes.specs.Overwrites.{OverwritesFiles};
ghost use Rattle.bp_changes.specs.Performs.{room_for};
ghost use Rattle.bp_cow.specs.Cover.{LeadsInside, commit_cover};
ghost use Rattle.bp_cow.specs.Touched.{IsTouched};
ghost use Rattle.bp_free.specs.Set.{members};
ghost use Rattle.bp_layout.specs.Members.{Each};
ghost use Rattle.bp_layout.specs.Need.{need};
ghost use Rattle.bp_layout.specs.WellFormed.{IsWellFormed};
ghost use Rattle.bp_limits.specs.Limits.{block_words, max_pieces};
ghost use Rattle.bp_changes.specs.Sets.{in_snapshot_of};
ghost use Rattle.bp_thaw.specs.Thaws.{paths_in};
ghost use Rattle.pm_region.specs.Memory.{words_in, room_in};

use crate::commit::{commit_below, run_for, touched_by};
use crate::targets::Targets;
use crate::thaw::thaw_before;
use arrayvec::ArrayVec;
use bp_cow::{Run, Touched, cover, need_cover};
use bp_free::{NoSpace, Parts};
use bp_limits::MAX_PIECES;
use bp_read::inodes::tree_of;
use pm_region::Region;

/// Bytes for a file, below its size.
#[derive(Clone, Copy, Debug, Default)]
pub struct Patch<'a> {
    /// The number of the file's inode.
    pub inode: u32,
    /// The offset of the bytes in the file, in bytes.
    pub offset: u64,
    /// The bytes. They end at or below the file's size.
    pub bytes: &'a [u8],
}

/// Returns the run of a patch that has bytes.
fn run_of<'a, R: Region>(region: &R, patch: &Patch<'a>) -> Run<'a>
    requires well_formed { IsWellFormed (words_in R.memory region.now) }
    requires inside { IsPatchIn (words_in R.memory region.now) (patch_seen patch.now) }
    ensures { IsRunFor (words_in R.memory region.now) patch.now.inode patch.now.offset patch.now.bytes.now result }
{
    let tree = tree_of(region, patch.inode);
    run_for(region, patch.inode, tree, patch.offset, patch.bytes)
}

/// Returns the runs of those patches that have bytes, in their order.
fn runs_of<'a, R: Region>(region: &R, patches: &[Patch<'a>]) -> ArrayVec<Run<'a>, MAX_PIECES>
    requires well_formed { IsWellFormed (words_in R.memory region.now) }
    requires few { length patches.now ≤ max_pieces }
    requires each { Each (IsPatchIn (words_in R.memory region.now)) (patches_seen patches.now) }
    ensures { AreRuns (words_in R.memory region.now) (patches_seen patches.now) result.items }
{
    let mut runs = ArrayVec::new();
    for patch in patches {
        if !patch.bytes.is_empty() {
            runs.push(run_of(region, patch));
        }
    }
    runs
}

/// Returns where bytes below the sizes of files change: the word that covers them all.
fn covering<R: Region>(region: &R, touched: &Touched<'_>) -> Targets
    requires touched { IsTouched touched.now }
    requires some { block_words ≤ length (words_in R.memory region.now) }
    requires in_range { LeadsInside (words_in R.memory region.now) touched.now }
    ensures { paths_in result ≡ commit_cover (words_in R.memory region.now) touched.now ∷ [] }
{
    let mut targets = Targets::new();
    targets.push(cover(region, touched));
    targets
}

/// Does what [`batch`] does once no block is left to thaw.
///
/// # Errors
///
/// Nothing has changed then.
///
/// - `NoSpace`: fewer blocks are free than the call copies.
fn overlay<R: Region>(parts: &mut Parts<R>, patches: &[Patch<'_>]) -> Result<(), NoSpace>
    requires can { CanOverwriteThawedIn R.memory parts.old (patches_seen patches.now) }
    requires exact { IsExactIn R.memory parts.old }
    ensures { CommitsOrLacksBlocks R.memory parts.old parts.new result (batch_change patches.now)
        (OverwritesFiles (patches_seen patches.now)) }
{
    let runs = runs_of(&parts.region, patches);
    let touched = touched_by(runs.as_slice());
    commit_below(parts, &touched)
}

/// Thaws the blocks of the snapshot on the path to the word that covers all the bytes, if enough blocks are free for
/// the copies of the batch too.
///
/// # Errors
///
/// Nothing has changed then.
///
/// - `NoSpace`: fewer blocks are free than the call needs. It is returned in exactly this case.
fn thaw_batch<R: Region>(parts: &mut Parts<R>, patches: &[Patch<'_>]) -> Result<(), NoSpace>
    requires mounted { IsMountedIn R.memory parts.old }
    requires can { CanOverwrite (image_in R.memory parts.old) (patches_seen patches.now) }
    requires room { HasRoomWhereFree (R.memory parts.old.region) (in_snapshot_of parts.old) parts.old.free_blocks
        (batch_change patches.now) }
    ensures thaws { OnOk result (ThawsBefore R.memory parts.old parts.new (batch_change patches.now)) }
    ensures room { OnOk result (room_for (need (image_in R.memory parts.old) (batch_change patches.now))
        ≤ room_in (R.memory parts.new.region) + 2) }
    ensures enough { OnOk result (need (image_in R.memory parts.old) (batch_change patches.now)
        ≤ length (members parts.new.free_blocks)) }
    ensures refused { IfErr result (LacksSpace (image_in R.memory parts.old) (in_snapshot_of parts.old)
        (batch_change patches.now)) }
    ensures same { OnErr result (parts.new ≡ parts.old) }
{
    let runs = runs_of(&parts.region, patches);
    let touched = touched_by(runs.as_slice());
    let targets = covering(&parts.region, &touched);
    let copies = need_cover(&parts.region, &touched);
    thaw_before(parts, &targets, copies)
}

/// Writes bytes into files, below their sizes, all of them by one store alone in its epoch. If two patches write the
/// same byte, the later one wins.
///
/// # Errors
///
/// Nothing has changed then.
///
/// - `NoSpace`: fewer blocks are free than the call copies. It copies once each block on the paths to the bytes from
///   the word that covers all of them down, and those that it thaws. It is returned in exactly this case.
pub fn batch<R: Region>(parts: &mut Parts<R>, patches: &[Patch<'_>]) -> Result<(), NoSpace>
    requires mounted { IsMountedIn R.memory parts.old }
    requires can { CanOverwrite (image_in R.memory parts.old) (patches_seen patches.now) }
    requires room { HasRoomWhereFree (R.memory parts.old.region) (in_snapshot_of parts.old) parts.old.free_blocks
        (batch_change patches.now) }
    ensures { CommitsOrLacksSpace R.memory parts.old parts.new result (batch_change patches.now)
        (OverwritesFiles (patches_seen patches.now)) }
{
    if parts.snapshot_blocks.count() == 0 {
        return overlay(parts, patches);
    }
    match thaw_batch(parts, patches) {
        // After a thaw enough blocks are free for the copies, so this succeeds.
        Ok(()) => overlay(parts, patches),
        Err(lacks) => Err(lacks),
    }
}
