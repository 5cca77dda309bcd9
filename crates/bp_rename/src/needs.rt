//! What a rename needs, and the words near which it stores.

ghost use Rattle.std.specs.Prelude.{◌≡◌, ◌^◌, ◌<◌, ◌∷◌, [], None, true, IfErr, IfOk, OnErr};
ghost use Rattle.bp_calls.specs.Space.{HasRoomWhereFree, LacksSpace};
ghost use Rattle.bp_calls.specs.Mounted.{image_in, IsExactIn};
ghost use Rattle.bp_layout.specs.Directory.{empty_slot};
ghost use Rattle.bp_layout.specs.Need.{need};
ghost use Rattle.bp_rename.specs.CanRename.{CanRename, IsSlotAcross, change_across, change_of};
ghost use Rattle.bp_rename.specs.Planned.{IsPlanned, IsReadyToRename, Needs};
ghost use Rattle.bp_layout.specs.Thaw.{cover_now, targets, thawed};
ghost use Rattle.bp_changes.specs.Sets.{in_snapshot_of};
ghost use Rattle.bp_thaw.specs.Thaws.{paths_in};
ghost use Rattle.pm_region.specs.Memory.{words_in};

use crate::moves::Move;
use bp_calls::{Targets, entry_path, push_end, thaw_before};
use bp_cow::{FoundWays, Touched, copies_below, cover, find_ways};
use bp_free::{NoSpace, Parts};
use bp_read::inodes::{root_path, tree_of};
use bp_thaw::thaw_need;
use pm_region::Region;

/// Adds the words near which a name is stored in another directory, given the least empty slot of that directory.
fn push_new<R: Region>(near: &mut Targets, region: &R, to_move: &Move<'_>, empty: Option<u64>)
    requires can { CanRename (words_in R.memory region.now) to_move.now }
    requires slot { empty ≡ empty_slot (words_in R.memory region.now) to_move.now.to_dir }
    requires cover { paths_in near.old ≡ cover_now (words_in R.memory region.now) (change_across to_move.now) ∷ [] }
    ensures { paths_in near.new ≡ targets (words_in R.memory region.now) (change_across to_move.now) }
{
    match empty {
        Some(slot) => near.push(entry_path(region, to_move.to_dir, slot)),
        None => {
            let root = root_path(region, to_move.to_dir);
            push_end(near, &root, tree_of(region, to_move.to_dir));
        }
    }
}

/// Returns the words near which a rename stores: the cover, and those of a new entry in another directory. The least
/// empty slot of the new directory is given (used only if the name is new there), and the touched words.
fn targets_of<R: Region>(
    region: &R,
    to_move: &Move<'_>,
    empty: Option<u64>,
    touched: &Touched<'_>,
) -> Targets
    requires can { CanRename (words_in R.memory region.now) to_move.now }
    requires empty { IsSlotAcross (words_in R.memory region.now) to_move.now empty }
    requires planned { IsPlanned (words_in R.memory region.now) to_move.now touched.now }
    ensures { paths_in result ≡ targets (words_in R.memory region.now) (change_of to_move.now) }
{
    let mut targets = Targets::new();
    targets.push(cover(region, touched));
    match to_move.to_slot {
        Some(_) => targets,
        None if to_move.from_dir == to_move.to_dir => targets,
        None => {
            push_new(&mut targets, region, to_move, empty);
            targets
        }
    }
}

/// Returns whether no block of the snapshot has to be thawed before a rename.
fn is_clear<R: Region>(
    parts: &Parts<R>,
    to_move: &Move<'_>,
    empty: Option<u64>,
    touched: &Touched<'_>,
) -> bool
    requires can { CanRename (image_in R.memory parts.now) to_move.now }
    requires empty { IsSlotAcross (image_in R.memory parts.now) to_move.now empty }
    requires exact { IsExactIn R.memory parts.now }
    requires planned { IsPlanned (image_in R.memory parts.now) to_move.now touched.now }
    ensures { result ≡ true → thawed (image_in R.memory parts.now) (in_snapshot_of parts.now) (change_of to_move.now) ≡ [] }
{
    if parts.snapshot_blocks.count() == 0 {
        return true;
    }
    let targets = targets_of(&parts.region, to_move, empty, touched);
    thaw_need(parts, &targets) == 0
}

/// Thaws the blocks of the snapshot near the words of a rename that takes `more` blocks after that, and finds the
/// paths again.
///
/// # Errors
///
/// Nothing has changed then.
///
/// - `NoSpace`: fewer blocks are free than the thaw and `more`. It is returned in exactly this case.
fn thaw_ways<R: Region>(
    parts: &mut Parts<R>,
    to_move: &Move<'_>,
    empty: Option<u64>,
    touched: &Touched<'_>,
    more: u32,
) -> Result<FoundWays, NoSpace>
    requires can { CanRename (image_in R.memory parts.old) to_move.now }
    requires empty { IsSlotAcross (image_in R.memory parts.old) to_move.now empty }
    requires exact { IsExactIn R.memory parts.old }
    requires planned { IsPlanned (image_in R.memory parts.old) to_move.now touched.now }
    requires need { more ≡ need (image_in R.memory parts.old) (change_of to_move.now) }
    requires few { more < 2 ^ 31 }
    requires room { HasRoomWhereFree (R.memory parts.old.region) (in_snapshot_of parts.old) parts.old.free_blocks (change_of to_move.now) }
    ensures ready { IfOk result (λ found. IsReadyToRename R.memory to_move.now touched.now parts.old parts.new found) }
    ensures refused { IfErr result (LacksSpace (image_in R.memory parts.old) (in_snapshot_of parts.old)
        (change_of to_move.now)) }
    ensures same { OnErr result (parts.new ≡ parts.old) }
{
    let targets = targets_of(&parts.region, to_move, empty, touched);
    match thaw_before(parts, &targets, more) {
        Ok(()) => Ok(find_ways(&parts.region, touched)),
        Err(lacks) => Err(lacks),
    }
}

/// Finds the paths to what a rename touches, once no block of the snapshot is left on them. Given are the least empty
/// slot of the new directory (used only if the name is new in another directory), and the number of blocks that the
/// rename takes besides those that are copied.
///
/// # Errors
///
/// Nothing has changed then.
///
/// - `NoSpace`: fewer blocks are free than the rename needs, including those that are thawed. It is returned in
///   exactly this case.
pub(crate) fn ready_ways<R: Region>(
    parts: &mut Parts<R>,
    to_move: &Move<'_>,
    empty: Option<u64>,
    touched: &Touched<'_>,
    besides: u32,
) -> Result<FoundWays, NoSpace>
    requires can { CanRename (image_in R.memory parts.old) to_move.now }
    requires empty { IsSlotAcross (image_in R.memory parts.old) to_move.now empty }
    requires exact { IsExactIn R.memory parts.old }
    requires planned { IsPlanned (image_in R.memory parts.old) to_move.now touched.now }
    requires needs { Needs (image_in R.memory parts.old) to_move.now touched.now besides }
    requires room { HasRoomWhereFree (R.memory parts.old.region) (in_snapshot_of parts.old) parts.old.free_blocks (change_of to_move.now) }
    ensures ready { IfOk result (λ found. IsReadyToRename R.memory to_move.now touched.now parts.old parts.new found) }
    ensures refused { IfErr result (LacksSpace (image_in R.memory parts.old) (in_snapshot_of parts.old)
        (change_of to_move.now)) }
    ensures same { OnErr result (parts.new ≡ parts.old) }
{
    let found = find_ways(&parts.region, touched);
    let need = besides + copies_below(touched, &found);
    if !is_clear(parts, to_move, empty, touched) {
        return thaw_ways(parts, to_move, empty, touched, need);
    }
    let free = parts.free_blocks.count();
    if free < need {
        return Err(NoSpace { need, free });
    }
    Ok(found)
}
