//! The commit.

ghost use Rattle.std.specs.Prelude.{◌≡◌, ◌≢◌, ℕ, ◌+◌, ◌/◌, ◌<◌, ◌≤◌, length, false};
ghost use Rattle.bp_free.specs.Set.{Set, has};
ghost use Rattle.bp_free.specs.Parts.{KeepsSets};
ghost use Rattle.bp_limits.specs.Limits.{block_words};
ghost use Rattle.bp_layout.specs.Words.{word, block_count};
ghost use Rattle.bp_changes.specs.Forest.{IsExactSet, IsTreePointer};
ghost use Rattle.pm_epochs.specs.Crash.{commit};
ghost use Rattle.pm_region.specs.Memory.{words_in, room_in, Adds};
ghost use Rattle.bp_cow.specs.CanCommit.{IsSetOfSnapshot};
ghost use Rattle.bp_cow.specs.Commit.{CanCommitIn, CommitsParts};
ghost use Rattle.bp_cow.specs.Found.{AreWaysIn};
ghost use Rattle.bp_cow.specs.Plan.{Plan};
ghost use Rattle.bp_cow.specs.Touched.{IsTouched, only_value};
ghost use Rattle.bp_cow.specs.Turned.{CanTurn, HasTurned};
ghost use Rattle.bp_cow.specs.Ways.{AreShared};
ghost use Rattle.bp_changes.specs.Sets.{in_snapshot_of};

use crate::build::copy_subtree;
use crate::covers::FoundWays;
use crate::release::free_replaced;
use crate::touched::Touched;
use crate::ways::Shared;
use bp_free::{Blocks, Parts};
use bp_limits::BLOCK_SIZE;
use pm_region::{HEAD_WORDS, Region, commit_word};

/// Copies the blocks from the cover down with the touched words in place, and sets the cover's pointer to the copies.
/// The old blocks are not free yet.
fn turn_over<R: Region>(
    region: &mut R,
    blocks: &mut Blocks,
    touched: &Touched<'_>,
    shared: &Shared,
    from: usize,
    place: u64,
)
    ghost plan: { Plan }
    requires touched { IsTouched touched.now }
    requires can { CanTurn plan touched.now from place blocks.old (R.memory region.old) }
    requires shared { AreShared touched.now shared.now }
    ensures done { HasTurned plan touched.now from place blocks.old blocks.new
        (R.memory region.old) (R.memory region.new) }
    ensures others { (w : ℕ) → w ≢ place → plan.free (w / block_words) ≡ false →
        word (words_in R.memory region.new) w ≡ word plan.old w }
    ensures base { length (R.memory region.new).base ≡ length (R.memory region.old).base }
{
    let pointer = region.load(place);
    let top = copy_subtree(region, blocks, touched, shared, from, place);
    let turned = bp_layout::pointer_word(top as u64) + pointer % BLOCK_SIZE;
    commit_word(region, place, turned);
}

/// Copies the blocks from the cover down with the touched words in place, sets the cover's pointer to the copies, and
/// frees the old blocks that are not in the snapshot.
fn commit_copies<R: Region>(
    parts: &mut Parts<R>,
    touched: &Touched<'_>,
    shared: &Shared,
    from: usize,
    place: u64,
)
    ghost plan: { Plan }
    requires touched { IsTouched touched.now }
    requires can { CanTurn plan touched.now from place parts.old.free_blocks (R.memory parts.old.region) }
    requires fits { block_count plan.old ≤ length parts.old.free_blocks }
    requires snapshot { IsSetOfSnapshot plan.in_snapshot plan.old parts.old.snapshot_blocks }
    requires shared { AreShared touched.now shared.now }
    ensures done { (taken : Set) × HasTurned plan touched.now from place parts.old.free_blocks taken
        (R.memory parts.old.region) (R.memory parts.new.region) }
    ensures exact { IsExactSet (words_in R.memory parts.new.region)
        (IsTreePointer plan.old plan.bound) plan.in_snapshot (has parts.new.free_blocks) }
    ensures keeps { KeepsSets parts.old parts.new }
{
    let _words = parts.region.words();
    let pointer = parts.region.load(place);
    let top = pm_words::block_of(pointer) as u32;
    turn_over(
        &mut parts.region,
        &mut parts.free_blocks,
        touched,
        shared,
        from,
        place,
    );
    free_replaced(
        &parts.region,
        &mut parts.free_blocks,
        &parts.snapshot_blocks,
        touched,
        shared,
        from,
        top,
    );
}

/// Stores the value of the only touched word in place, at `place`.
fn commit_one<R: Region>(region: &mut R, touched: &Touched<'_>, place: u64)
    requires touched { IsTouched touched.now }
    requires after_head { HEAD_WORDS ≤ place }
    requires place { place < length (words_in R.memory region.old) }
    requires room { 3 ≤ room_in (R.memory region.old) }
    ensures { Adds (R.memory region.old) (R.memory region.new)
        (commit place (only_value touched.now (word (words_in R.memory region.old) place))) }
{
    let old = region.load_past_head(place);
    commit_word(region, place, touched.only_value(old));
}

/// Gives the touched words their values by one store at the word of the cover, alone in its epoch. If the cover is the
/// only touched word, the store is its value; otherwise it is a pointer to copies of the blocks from the cover to the
/// touched words. Takes as many blocks as `copies_below` returns. At the end frees the blocks that were copied, except
/// those of the snapshot, to which no store goes. The caller passes the result of `find_ways`.
pub fn commit_at<R: Region>(parts: &mut Parts<R>, touched: &Touched<'_>, found: &FoundWays)
    ghost bound: { ℕ → ℕ }
    requires can { CanCommitIn bound (in_snapshot_of parts.old) (R.memory parts.old.region) touched.now parts.old.free_blocks }
    requires found { AreWaysIn (words_in R.memory parts.old.region) touched.now found.now }
    requires snapshot { IsSetOfSnapshot (in_snapshot_of parts.old) (words_in R.memory parts.old.region) parts.old.snapshot_blocks }
    ensures commits { CommitsParts R.memory bound touched.now parts.old parts.new }
    ensures keeps { KeepsSets parts.old parts.new }
{
    let cover = found.cover;
    if touched.way_len(0, &found.shared) < cover.len {
        commit_one(&mut parts.region, touched, cover.place);
    } else {
        commit_copies(parts, touched, &found.shared, cover.len, cover.place);
    }
}
