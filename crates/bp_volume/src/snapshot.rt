//! The snapshot. Stores to the superblock alone make it and delete it, and it is read as the first tree is.

ghost use Rattle.std.specs.Prelude.{◌*◌, ◌≡◌, ◌≤◌, IfErr, IfOk, OnErr, OnOk, Some, drop, false, length, true};
ghost use Rattle.bp_layout.specs.Formatted.{IsSized, version_of};
ghost use Rattle.bp_layout.specs.Trees.{AreInSnapshot, has_snapshot};
ghost use Rattle.bp_layout.specs.Whole.{IsFileSystem};
ghost use Rattle.bp_layout.specs.Words.{block_count};
ghost use Rattle.bp_limits.specs.CallLimits.{allows_snapshot};
ghost use Rattle.bp_limits.specs.Limits.{block_inodes};
ghost use Rattle.bp_plain.specs.Calls.Answer.{refused};
ghost use Rattle.bp_plain.specs.Calls.Call.{snap, snap_list, snap_read, snap_stat};
ghost use Rattle.bp_plain.specs.Calls.Refusal.{no_snap};
ghost use Rattle.bp_plain.specs.Plain.{on_path};
ghost use Rattle.bp_plain.specs.Seen.{refusal_of};
ghost use Rattle.bp_changes.specs.Sets.{in_snapshot_of};
ghost use Rattle.bp_volume.specs.Ready.{IsReady};
ghost use Rattle.bp_volume.specs.Seen.{list_answer_of, read_answer_of, stat_answer_of, unit_answer};
ghost use Rattle.bp_volume.specs.Snapped.{Snaps, Unsnaps};
ghost use Rattle.bp_fs.specs.SuperEvents.{snap_events, unsnap_events};
ghost use Rattle.bp_volume.specs.Queries.{Answers};
ghost use Rattle.pm_region.specs.Memory.{Adds, words_in, room_in};
ghost use Rattle.bp_calls.specs.Mounted.{image_in, IsExactIn};

use crate::queries::{do_list, do_read, do_stat};
use crate::rescan::rescan;
use bp_free::Parts;
use bp_layout::{Listing, Stat};
use bp_limits::{SUPER_ROOT, SUPER_SIZE, SUPER_SNAPSHOT_ROOT, SUPER_SNAPSHOT_SIZE, Version};
use bp_path::parse;
use bp_plain::FsError;
use bp_read::{Scan, version};
use bp_scan::{Pending, fill_others, has_second};
use bp_second::Shown;
use pm_region::Region;
use std::alloc::Global;

/// Refuses to make a snapshot in version 1, or if there is one.
fn may_snap<R: Region>(region: &R) -> Result<(), FsError>
    requires { IsSized (words_in R.memory region.now) }
    ensures version { OnOk result (allows_snapshot (version_of (words_in R.memory region.now)) ≡ true) }
    ensures none { OnOk result (has_snapshot (words_in R.memory region.now) ≡ false) }
    ensures refused { IfErr result (λ error. Answers (words_in R.memory region.now) snap (refused (refusal_of error))) }
{
    match version(region) {
        Version::One => Err(FsError::OldVersion),
        Version::Two | Version::Three => {
            if has_second(region) {
                return Err(FsError::HasSnap);
            }
            Ok(())
        }
    }
}

/// Stores the root word and the size of the first tree as those of the second. The size comes last, since it
/// determines whether there is a second tree.
fn store_snapshot<R: Region>(region: &mut R)
    requires sized { IsSized (words_in R.memory region.old) }
    requires room { 4 ≤ room_in (R.memory region.old) }
    ensures { Adds (R.memory region.old) (R.memory region.new) (snap_events (words_in R.memory region.old)) }
{
    let root = region.load(SUPER_ROOT);
    let size = region.load(SUPER_SIZE);
    region.store(SUPER_SNAPSHOT_ROOT, root);
    // The size makes the second tree exist, so a crash must not leave the size with an old root word.
    region.barrier();
    region.store(SUPER_SNAPSHOT_SIZE, size);
    // A crash must not keep a store of a later call and lose the snapshot.
    region.barrier();
}

/// Sets the size of the second tree to 0, which deletes it.
fn drop_snapshot<R: Region>(region: &mut R)
    requires sized { IsSized (words_in R.memory region.old) }
    requires room { 3 ≤ room_in (R.memory region.old) }
    ensures { Adds (R.memory region.old) (R.memory region.new) unsnap_events }
{
    // The store is alone in its epoch, as the last store of each change is.
    region.barrier();
    region.store(SUPER_SNAPSHOT_SIZE, 0);
    // Later calls may store to the freed blocks: a crash must not keep such a store and leave the snapshot there.
    region.barrier();
}

/// Carries out `snap`, except for its end-of-call marker. It reads and copies no block: the blocks of the first tree
/// are those of the snapshot from then on.
pub(crate) fn do_snap<R: Region>(parts: &mut Parts<R>) -> Result<(), FsError>
    requires ready { IsReady (R.memory parts.old.region) parts.old }
    ensures snaps { Snaps (R.memory parts.old.region) (unit_answer result) (R.memory parts.new.region) }
    ensures exact { IsExactIn R.memory parts.new }
    ensures snapshot_blocks { AreInSnapshot (image_in R.memory parts.new) (in_snapshot_of parts.new) }
{
    may_snap(&parts.region)?;
    store_snapshot(&mut parts.region);
    fill_others(&parts.free_blocks, &mut parts.snapshot_blocks);
    Ok(())
}

/// Carries out `unsnap`, except for its end-of-call marker. A scan of the first tree determines which blocks of the
/// snapshot are free then.
pub(crate) fn do_unsnap<R: Region>(
    parts: &mut Parts<R>,
    pending: &mut Pending,
) -> Result<(), FsError>
    requires ready { IsReady (R.memory parts.old.region) parts.old }
    requires pending { pending.old ≡ block_inodes * block_count (image_in R.memory parts.old) }
    ensures unsnaps { Unsnaps (R.memory parts.old.region) (unit_answer result) (R.memory parts.new.region) }
    ensures exact { IsExactIn R.memory parts.new }
    ensures snapshot_blocks { AreInSnapshot (image_in R.memory parts.new) (in_snapshot_of parts.new) }
    ensures pending { pending.new ≡ pending.old }
{
    if !has_second(&parts.region) {
        return Err(FsError::NoSnap);
    }
    drop_snapshot(&mut parts.region);
    rescan(parts, pending);
    Ok(())
}

/// Returns the refusal of a call on a path of the snapshot if there is no snapshot.
fn no_snapshot(text: &[u8]) -> FsError
    ensures { on_path text.now (λ path. Some no_snap) ≡ Some (refusal_of result) }
{
    match parse(text) {
        Ok(_) => FsError::NoSnap,
        Err(_) => FsError::BadPath,
    }
}

/// Returns the result of `snap_stat`.
pub(crate) fn do_snap_stat<R: Region>(region: &R, text: &[u8]) -> Result<Stat, FsError>
    requires { IsFileSystem (words_in R.memory region.now) }
    ensures { Answers (words_in R.memory region.now) (snap_stat text.now) (stat_answer_of result) }
{
    if !has_second(region) {
        return Err(no_snapshot(text));
    }
    let second = Shown::second(region);
    do_stat(&second, &mut Scan, text)
}

/// Returns the result of `snap_list`.
pub(crate) fn do_snap_list<R: Region>(
    alloc: Global,
    region: &R,
    text: &[u8],
) -> Result<Listing, FsError>
    requires { IsFileSystem (words_in R.memory region.now) }
    ensures { Answers (words_in R.memory region.now) (snap_list text.now) (list_answer_of result) }
{
    if !has_second(region) {
        return Err(no_snapshot(text));
    }
    let second = Shown::second(region);
    do_list(alloc, &second, &mut Scan, text)
}

/// Carries out `snap_read`: reads bytes into `into` and returns their number.
pub(crate) fn do_snap_read<R: Region>(
    region: &R,
    text: &[u8],
    offset: u64,
    into: &mut [u8],
) -> Result<usize, FsError>
    requires { IsFileSystem (words_in R.memory region.now) }
    ensures reported { Answers (words_in R.memory region.now) (snap_read text.now offset (length into.old))
        (read_answer_of result into.new) }
    ensures fits { IfOk result (λ count. count ≤ length into.new) }
    ensures rest { IfOk result (λ count. drop count into.new ≡ drop count into.old) }
    ensures unread { OnErr result (into.new ≡ into.old) }
{
    if !has_second(region) {
        return Err(no_snapshot(text));
    }
    let second = Shown::second(region);
    do_read(&second, &mut Scan, text, offset, into)
}
