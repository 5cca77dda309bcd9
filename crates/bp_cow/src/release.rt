//! Frees the blocks that a commit replaced, except those of the snapshot.

ghost use Rattle.std.specs.Prelude.{◌≡◌, ◌+◌, ◌<◌, ◌≤◌, length, true, false};
ghost use Rattle.bp_free.specs.Set.{TakesNumber, has};
ghost use Rattle.bp_changes.specs.Trail.{block_on};
ghost use Rattle.bp_layout.specs.Words.{block_count};
ghost use Rattle.pm_region.specs.Memory.{words_in};
ghost use Rattle.bp_cow.specs.CanCommit.{IsSetOfSnapshot};
ghost use Rattle.bp_cow.specs.Job.{ways, prefix};
ghost use Rattle.bp_cow.specs.Plan.{Plan, planned};
ghost use Rattle.bp_cow.specs.Return.{IsLeft, IsBack, CanGive};
ghost use Rattle.bp_cow.specs.Touched.{IsTouched, job_of};
ghost use Rattle.bp_cow.specs.Ways.{AreShared, IsWay};

use crate::copies::give;
use crate::touched::Touched;
use crate::ways::{Shared, Way, is_new};
use bp_free::Blocks;
use bp_read::load_slot;
use pm_region::Region;

/// Frees a block, unless it is in the snapshot.
fn give_loose(blocks: &mut Blocks, snapshot_blocks: &Blocks, block: u32)
    requires in_range { block < length blocks.old }
    requires known { block < length snapshot_blocks.now }
    requires used { has blocks.old block ≡ false }
    ensures given { has snapshot_blocks.now block ≡ false → TakesNumber (has blocks.new) (has blocks.old) block }
    ensures stays { has snapshot_blocks.now block ≡ true → blocks.new ≡ blocks.old }
    ensures size { length blocks.new ≡ length blocks.old }
{
    if !snapshot_blocks.is_free(block) {
        give(blocks, block);
    }
}

/// A block on a way of the old image.
#[derive(Clone, Copy)]
struct OldBlock {
    /// Number of slots of the way that lead to it.
    depth: usize,
    /// Number of the block.
    block: u32,
}

/// Goes one block further down a way of the old image. Frees the block there if it is not in the snapshot and no
/// earlier way freed it.
fn give_step<R: Region>(
    region: &R,
    blocks: &mut Blocks,
    snapshot_blocks: &Blocks,
    touched: &Touched<'_>,
    way: &Way<'_>,
    from: usize,
    at: OldBlock,
) -> u32
    ghost plan: { Plan }
    requires touched { IsTouched touched.now }
    requires is_way { IsWay touched.now way.now }
    requires can { CanGive (planned plan touched.now) from way.now.index at.depth blocks.old
        (words_in R.memory region.now) }
    requires more { at.depth < length ((job_of touched.now).way way.now.index) }
    requires block { at.block ≡ block_on plan.old (prefix (job_of touched.now) way.now.index at.depth) }
    requires snapshot { IsSetOfSnapshot plan.in_snapshot plan.old snapshot_blocks.now }
    ensures back { IsBack (planned plan touched.now) from way.now.index (at.depth + 1) plan.free_after (has blocks.new) }
    ensures block { result ≡ block_on plan.old (prefix (job_of touched.now) way.now.index (at.depth + 1)) }
    ensures size { length blocks.new ≡ length blocks.old }
{
    let _words = region.words();
    let pointer = load_slot(region, at.block as u64, touched.slot(way, at.depth) as u64);
    let next = pm_words::block_of(pointer) as u32;
    if next != 0 && is_new(touched, way, at.depth + 1) {
        give_loose(blocks, snapshot_blocks, next);
    }
    next
}

/// Frees the old blocks on a way that are not in the snapshot and that no earlier way freed.
fn give_way<R: Region>(
    region: &R,
    blocks: &mut Blocks,
    snapshot_blocks: &Blocks,
    touched: &Touched<'_>,
    way: &Way<'_>,
    from: usize,
    top: u32,
)
    ghost plan: { Plan }
    requires touched { IsTouched touched.now }
    requires is_way { IsWay touched.now way.now }
    requires can { CanGive (planned plan touched.now) from way.now.index from blocks.old (words_in R.memory region.now) }
    requires top { top ≡ block_on plan.old (prefix (job_of touched.now) 0 from) }
    requires snapshot { IsSetOfSnapshot plan.in_snapshot plan.old snapshot_blocks.now }
    ensures back { IsBack (planned plan touched.now) from (way.now.index + 1) from plan.free_after (has blocks.new) }
    ensures size { length blocks.new ≡ length blocks.old }
{
    let end = way.len;
    let mut block = top;
    for depth in from..end {
        let at = OldBlock { depth, block };
        block = give_step(region, blocks, snapshot_blocks, touched, way, from, at);
    }
}

/// Frees the old blocks on all ways that are not in the snapshot. `top` is the block to which the cover's pointer led
/// before.
pub(crate) fn free_replaced<R: Region>(
    region: &R,
    blocks: &mut Blocks,
    snapshot_blocks: &Blocks,
    touched: &Touched<'_>,
    shared: &Shared,
    from: usize,
    top: u32,
)
    ghost plan: { Plan }
    requires touched { IsTouched touched.now }
    requires left { IsLeft (planned plan touched.now) from plan.free_after (words_in R.memory region.now) }
    requires taken { plan.free_after ≡ has blocks.old }
    requires top { top ≡ block_on plan.old (prefix (job_of touched.now) 0 from) }
    requires fits { block_count plan.old ≤ length blocks.old }
    requires snapshot { IsSetOfSnapshot plan.in_snapshot plan.old snapshot_blocks.now }
    requires shared { AreShared touched.now shared.now }
    ensures back { IsBack (planned plan touched.now) from (ways (job_of touched.now)) from plan.free_after (has blocks.new) }
    ensures size { length blocks.new ≡ length blocks.old }
{
    let ways = touched.ways(&shared.ends);
    if top != 0 {
        give_loose(blocks, snapshot_blocks, top);
    }
    for i in 0..ways {
        if touched.adds_no_block(i, shared) {
            continue;
        }
        give_way(
            region,
            blocks,
            snapshot_blocks,
            touched,
            &touched.way(i, shared),
            from,
            top,
        );
    }
}
