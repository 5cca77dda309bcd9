//! Crashes after a run with two cores' caches.

ghost use Rattle.std.specs.Prelude.{◌≡◌, ℕ, ◌*◌, ◌<◌, ◌≤◌, length};
ghost use Rattle.pm_epochs.specs.declared.event.EventKind.TheVariants.{Store};
ghost use Rattle.pm_epochs.specs.Kind.{event_of};
ghost use Rattle.pm_epochs.specs.May.{StoresMay};
ghost use Rattle.pm_epochs.specs.Replay.{IsRight};
ghost use Rattle.pm_cores.specs.Caches.{caches_over};
ghost use Rattle.bp_replay.specs.Generator.{drawn};
ghost use Rattle.bp_replay.specs.Cache.{after_back, after_event, last_word, by_draw, after_draw, cache_cut, IsLike, IsWordBelow};

use super::generator::Generator;
use pm_cores::Cores;
use pm_cores::laws::a_choice_leaves_the_memory;
use pm_epochs::{Choice, EventKind};
use pm_region::Region;

/// Runs two cores' caches at random over the region's log, and sets `choice` to what a crash then keeps. A number of
/// events is drawn. Core 0 executes these events. After each a number is drawn: core 1 reads the word of the last
/// store, or that word is written back if that is allowed, or nothing is done. The same log and seed give the same
/// choice. Allocates nothing, and takes time for the events of the log.
pub fn cache<R: Region>(region: &R, seed: u64, cores: &mut Cores, choice: &mut Choice)
    requires cores { 2 ≤ cores.old.cores }
    requires words { cores.old.words ≡ length (R.memory region.now).base }
    requires stores { StoresMay (λ word value. word < length (R.memory region.now).base) (R.memory region.now).events }
    requires room { 2 * length (R.memory region.now).events ≤ cores.old.capacity }
    requires choice { 2 * length (R.memory region.now).events ≤ choice.old.room }
    ensures chosen { choice.new.cut ≡
        cache_cut (caches_over cores.old.cores cores.old.words cores.old.capacity) (R.memory region.now).events seed }
    ensures right { IsRight (R.memory region.now).events choice.new.cut }
    ensures choice_room { choice.new.room ≡ choice.old.room }
    ensures cores_like { IsLike cores.old (2 * length (R.memory region.now).events) cores.new }
{
    let mut generator = Generator::new(seed);
    let moment = generator.draw_up_to(region.event_count());
    cores.begin();
    let mut last = None;
    for i in 0..moment {
        let kind = region.kind(i);
        play_kind(kind, cores);
        last = word_after(last, kind);
        play_draw(region, generator.draw(), last, cores);
    }
    cores.is_coherent();
    a_choice_leaves_the_memory();
    cores.choice(choice, moment);
}

/// Executes an event of a kind on core 0. A store has the value 0, since no value affects what a crash keeps.
fn play_kind(kind: EventKind, cores: &mut Cores)
    requires cores { 0 < cores.old.cores }
    requires word { (word : ℕ) → kind ≡ Store word → word < cores.old.words }
    requires room { length cores.old.log < cores.old.capacity }
    ensures { cores.new ≡ after_event cores.old (event_of kind 0) }
{
    match kind {
        EventKind::Store(word) => cores.store(0, word, 0),
        EventKind::Barrier => cores.barrier(0),
        EventKind::CallEnd => {}
    }
}

/// Returns the word of the last store after one more event.
fn word_after(last: Option<u64>, kind: EventKind) -> Option<u64>
    ensures { result ≡ last_word last (event_of kind 0) }
{
    match kind {
        EventKind::Store(word) => Some(word),
        EventKind::Barrier => last,
        EventKind::CallEnd => last,
    }
}

/// Does what is drawn after an event.
fn play_draw<R: Region>(region: &R, draw: u32, last: Option<u64>, cores: &mut Cores)
    requires region { cores.old.words ≡ length (R.memory region.now).base }
    requires cores { 1 < cores.old.cores }
    requires word { IsWordBelow cores.old.words last }
    requires room { length cores.old.log < cores.old.capacity }
    ensures { cores.new ≡ after_draw cores.old last draw }
{
    if let Some(word) = last {
        play_eighth(region, draw % 8, word, cores);
    }
}

/// Does what is drawn for a word.
fn play_eighth<R: Region>(region: &R, eighth: u32, word: u64, cores: &mut Cores)
    requires region { cores.old.words ≡ length (R.memory region.now).base }
    requires cores { 1 < cores.old.cores }
    requires word { word < cores.old.words }
    requires room { length cores.old.log < cores.old.capacity }
    ensures { cores.new ≡ by_draw cores.old word eighth }
{
    if eighth == 0 {
        let _ = cores.load(region, 1, word);
    } else if eighth <= 4 {
        write_back(word, cores);
    }
}

/// Writes a word back if it is dirty and may go.
fn write_back(word: u64, cores: &mut Cores)
    requires { word < cores.old.words }
    ensures { cores.new ≡ after_back cores.old word }
{
    if cores.is_dirty(word) {
        let _ = cores.back(word);
    }
}
