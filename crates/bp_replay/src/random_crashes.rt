//! Random crashes.

ghost use Rattle.std.specs.Prelude.{◌≡◌, ◌<◌, ◌≤◌, [], length, take};
ghost use Rattle.pm_region.specs.Epochs.{epoch_start};
ghost use Rattle.pm_epochs.specs.Log.{barriers};
ghost use Rattle.pm_epochs.specs.Replay.{IsRight};
ghost use Rattle.bp_replay.specs.Generator.{next_state, drawn};
ghost use Rattle.bp_replay.specs.Storm.{drawn_cut, goes_back, waiting_after, storm_cut};

use super::generator::Generator;
use pm_epochs::{Choice, EventKind};
use pm_region::Region;
use pm_steps::Backs;

/// Runs the write-back machine at random over the region's log, and sets `choice` to what a crash then keeps. A number
/// of events is drawn, and an epoch among them. All stores of earlier epochs are written back. Of the epoch's own
/// stores, each is whose draw is odd, unless an earlier store of the epoch to the same word waits. The same log and
/// seed give the same choice. Allocates nothing, and takes time for the events of the log.
pub fn storm<R: Region>(region: &R, seed: u64, backs: &mut Backs, choice: &mut Choice)
    requires backs { length (R.memory region.now).events ≤ backs.old.room }
    requires choice { length (R.memory region.now).events ≤ choice.old.room }
    ensures chosen { choice.new.cut ≡ storm_cut (R.memory region.now).events seed }
    ensures right { IsRight (R.memory region.now).events choice.new.cut }
    ensures backs_room { backs.new.room ≡ backs.old.room }
    ensures choice_room { choice.new.room ≡ choice.old.room }
{
    let mut generator = Generator::new(seed);
    let moment = generator.draw_up_to(region.event_count());
    let epoch = generator.draw_up_to(region.barriers_before(moment));
    let start = region.start_of_epoch(epoch);
    backs.clear();
    choice.start(moment, epoch);
    choose_drawn(region, start, &mut generator, backs, choice);
}

/// Draws for the stores of the storm's epoch, which begins at `start`, and sets `choice` to what is then written back.
/// If all of these stores are, the machine is in the first later epoch with a store, or in the last one; no store of
/// that epoch is written back.
fn choose_drawn<R: Region>(
    region: &R,
    start: usize,
    generator: &mut Generator,
    backs: &mut Backs,
    choice: &mut Choice,
)
    requires taken { choice.old.cut.moment ≤ length (R.memory region.now).events }
    requires begun { choice.old.cut.epoch ≤ barriers (take choice.old.cut.moment (R.memory region.now).events) }
    requires low { choice.old.cut.epoch ≤ start }
    requires high { start ≤ choice.old.cut.moment }
    requires start { start ≡
        epoch_start choice.old.cut.epoch (take choice.old.cut.moment (R.memory region.now).events) }
    requires mask { choice.old.cut.mask ≡ [] }
    requires waiting { backs.old.waiting ≡ [] }
    requires backs { choice.old.cut.moment ≤ backs.old.room }
    requires choice { choice.old.cut.moment ≤ choice.old.room }
    ensures chosen { choice.new.cut ≡
        drawn_cut (R.memory region.now).events generator.old.state choice.old.cut.moment choice.old.cut.epoch }
    ensures right { IsRight (R.memory region.now).events choice.new.cut }
    ensures backs_room { backs.new.room ≡ backs.old.room }
    ensures choice_room { choice.new.room ≡ choice.old.room }
{
    let moment = choice.moment();
    // Only the stores of the storm's own epoch are drawn for.
    let mut draws = true;
    // Whether a store of the machine's current epoch waits; the machine does not leave the epoch then.
    let mut waits = false;
    for i in start..moment {
        match region.kind(i) {
            EventKind::Store(word) => {
                let is_back = draws && draw_for(word, generator, backs);
                waits = waits || !is_back;
                choice.push(is_back);
            }
            EventKind::Barrier => {
                if waits {
                    return;
                }
                draws = false;
                let next = choice.epoch() + 1;
                choice.start(moment, next);
            }
            EventKind::CallEnd => {}
        }
    }
}

/// Draws whether a store to a word is written back. It waits if an earlier store to its word does.
fn draw_for(word: u64, generator: &mut Generator, backs: &mut Backs) -> bool
    requires { length backs.old.waiting < backs.old.room }
    ensures state { generator.new.state ≡ next_state generator.old.state }
    ensures drawn { result ≡ goes_back generator.old.state backs.old.waiting word }
    ensures waiting { backs.new ≡ record backs.old { waiting = waiting_after result backs.old.waiting word } }
{
    let is_odd = generator.draw() % 2 == 1;
    let is_back = is_odd && !backs.waits(word);
    if !is_back {
        backs.wait_for(word);
    }
    is_back
}
