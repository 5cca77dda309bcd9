//! Crash points that a script spells out.

ghost use Rattle.std.specs.Prelude.{◌≡◌, ◌+◌, ◌*◌, ◌<◌, ◌≤◌, ◌↔◌, ◌++◌, true, IsOk, OnOk, Some, length, take, replicate, slice_get, ◌^◌, []};
ghost use Rattle.pm_epochs.specs.Log.{barriers, epoch_stores};
ghost use Rattle.pm_epochs.specs.Replay.{IsRight};
ghost use Rattle.bp_replay.specs.Wanted.{all, wanted_by, bits, trimmed, cut_for, mask_places};

use super::cut::Cut;
use pm_epochs::{BadChoice, Choice, EventKind};
use pm_region::Region;

/// Sets `choice` to the crash point that a script asks for. Allocates nothing.
///
/// # Errors
///
/// `BadChoice`: the crash point is not valid for the region's log; `choice` then has any contents. It is not valid if
///
/// - its event count is past the end of the log,
/// - the log has fewer barriers before that count than the epoch's number, or
/// - the mask has a bit set past the epoch's stores before that count.
pub fn choice_of<R: Region>(region: &R, cut: &Cut<'_>, choice: &mut Choice) -> Result<(), BadChoice>
    requires log { length (R.memory region.now).events ≤ choice.old.room }
    requires mask { mask_places cut.now ≤ choice.old.room }
    ensures right { IsOk result ↔
        IsRight (R.memory region.now).events (cut_for (R.memory region.now).events (wanted_by cut.now)) }
    ensures chosen { OnOk result (choice.new.cut ≡ cut_for (R.memory region.now).events (wanted_by cut.now)) }
    ensures room { choice.new.room ≡ choice.old.room }
{
    match *cut {
        Cut::All => {
            choose_all(region, choice);
            Ok(())
        }
        Cut::Nothing => {
            choice.start(region.event_count(), 0);
            Ok(())
        }
        Cut::At {
            moment,
            epoch,
            mask,
        } => choose_at(region, moment, epoch, mask, choice),
    }
}

/// Returns the number of stores of an epoch among the first `moment` events. The epoch has begun by then.
fn stores_before<R: Region>(region: &R, moment: usize, epoch: usize) -> usize
    requires taken { moment ≤ length (R.memory region.now).events }
    requires begun { epoch ≤ barriers (take moment (R.memory region.now).events) }
    ensures few { result ≤ moment }
    ensures count { result ≡ epoch_stores epoch (take moment (R.memory region.now).events) }
{
    let mut count = 0;
    for i in region.start_of_epoch(epoch)..moment {
        match region.kind(i) {
            EventKind::Store(_) => count += 1,
            EventKind::Barrier => return count,
            EventKind::CallEnd => {}
        }
    }
    count
}

/// Sets `choice` to keep each store of the log.
fn choose_all<R: Region>(region: &R, choice: &mut Choice)
    requires { length (R.memory region.now).events ≤ choice.old.room }
    ensures { choice.new ≡ record { cut = cut_for (R.memory region.now).events all; room = choice.old.room } }
{
    let moment = region.event_count();
    let epoch = region.barriers_before(moment);
    let stores = stores_before(region, moment, epoch);
    choice.start(moment, epoch);
    push_true(choice, stores);
}

/// Appends to the mask that the next `stores` stores are kept.
fn push_true(choice: &mut Choice, stores: usize)
    requires { length choice.old.cut.mask + stores ≤ choice.old.room }
    ensures { choice.new ≡ record {
      cut = record choice.old.cut { mask = choice.old.cut.mask ++ replicate stores true };
      room = choice.old.room;
    } }
{
    for _ in 0..stores {
        choice.push(true);
    }
}

/// Sets `choice` to what was written back at a crash point. The numbers of a script may be too large for the machine;
/// such numbers are refused before they are cast.
fn choose_at<R: Region>(
    region: &R,
    moment: u64,
    epoch: u64,
    mask: &[u8],
    choice: &mut Choice,
) -> Result<(), BadChoice>
    requires { 8 * length mask.now ≤ choice.old.room }
    ensures right { IsOk result ↔ IsRight (R.memory region.now).events (record {
      moment = moment;
      epoch = epoch;
      mask = trimmed (bits mask.now);
    }) }
    ensures chosen { OnOk result (choice.new.cut ≡ record {
      moment = moment;
      epoch = epoch;
      mask = trimmed (bits mask.now);
    }) }
    ensures room { choice.new.room ≡ choice.old.room }
{
    if moment > region.event_count() as u64 {
        return Err(BadChoice);
    }
    let moment = moment as usize;
    if epoch > region.barriers_before(moment) as u64 {
        return Err(BadChoice);
    }
    let epoch = epoch as usize;
    choice.start(moment, epoch);
    push_mask(choice, mask);
    if choice.mask().len() > stores_before(region, moment, epoch) {
        return Err(BadChoice);
    }
    Ok(())
}

/// Keeps the stores at the positions whose bits are set. The positions after the last of these are left out.
fn push_mask(choice: &mut Choice, mask: &[u8])
    requires room { 8 * length mask.now ≤ choice.old.room }
    requires empty { choice.old.cut.mask ≡ [] }
    ensures { choice.new ≡ record {
      cut = record choice.old.cut { mask = trimmed (bits mask.now) };
      room = choice.old.room;
    } }
{
    // The capacity of the choice bounds the number of positions.
    let _room = choice.room();
    let places = places_up_to_last(mask);
    for place in 0..places {
        choice.push(is_set(mask, place));
    }
}

/// Returns the number of positions of a mask up to the last one whose bit is set.
fn places_up_to_last(mask: &[u8]) -> usize
    requires { 8 * length mask.now < 2 ^ 64 }
    ensures few { result ≤ 8 * length mask.now }
    ensures count { result ≡ length (trimmed (bits mask.now)) }
{
    let mut places = 0;
    for place in 0..8 * mask.len() {
        if is_set(mask, place) {
            places = place + 1;
        }
    }
    places
}

/// Returns whether the bit of a position is set. Each byte has eight positions, the lowest bit first.
fn is_set(mask: &[u8], place: usize) -> bool
    requires { place < 8 * length mask.now }
    ensures { slice_get (bits mask.now) place ≡ Some result }
{
    mask[place / 8] >> (place % 8) & 1 == 1
}
