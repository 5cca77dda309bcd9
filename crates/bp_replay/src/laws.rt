//! Laws of all crashes that a script asks for. Each law is a function that does nothing.

ghost use Rattle.std.specs.Prelude.{◌≡◌, ◌<◌, ℕ, List};
ghost use Rattle.pm_epochs.specs.declared.event.Event.{Event};
ghost use Rattle.pm_epochs.specs.Log.{words_after, call_ends};
ghost use Rattle.pm_epochs.specs.Replay.{IsRight, replay, kept_calls, epoch_of};
ghost use Rattle.pm_cores.specs.Caches.{caches_over};
ghost use Rattle.bp_replay.specs.Cache.{IsBlindToValues};
ghost use Rattle.bp_replay.specs.Generator.{next_state, drawn};
ghost use Rattle.bp_replay.specs.Storm.{GoesByItsDraw, IsNotWrittenBack, IsWrittenBack, OfEachStore, RunsToStorm, storm_cut};
ghost use Rattle.bp_replay.specs.Wanted.{all, nothing, cut_for};

/// States that a crash that keeps all stores keeps each call, and leaves the words as the processor sees them.
pub fn all_keeps_each_call()
    ensures right { (events : List Event) → IsRight events (cut_for events all) }
    ensures kept { (events : List Event) → kept_calls events (cut_for events all) ≡ call_ends events }
    ensures words { (base : List ℕ) (events : List Event) →
        replay base events (cut_for events all) ≡ words_after base events }
{}

/// States that a crash that keeps nothing leaves the words of the last drain.
pub fn nothing_leaves_the_base()
    ensures right { (events : List Event) → IsRight events (cut_for events nothing) }
    ensures words { (base : List ℕ) (events : List Event) → replay base events (cut_for events nothing) ≡ base }
{}

/// States what the generator draws first from seed 0.
pub fn first_draw()
    ensures state { next_state 0 ≡ 1442695040888963407 }
    ensures drawn { drawn 0 ≡ 335903614 }
{}

/// States that the write-back machine reaches what a storm leaves, by allowed steps. The processor executes the first
/// events, and then the stores go back in the order of the log, so those of earlier epochs first. The crash point is
/// valid, and the memory is its replay.
pub fn a_storm_is_a_run()
    ensures right { (events : List Event) (seed : ℕ) → IsRight events (storm_cut events seed) }
    ensures runs { (base : List ℕ) (events : List Event) (seed : ℕ) → RunsToStorm base events seed }
{}

/// States which stores a storm writes back, by the machine's own rule. All stores of earlier epochs than its own are,
/// and none of later ones. Of its own epoch, each store is whose draw is odd and that may go: all stores that must go
/// before it went. The draws are those for the epoch's stores, one after the other.
pub fn a_storm_writes_back_what_may_go()
    ensures earlier { (state epoch : ℕ) (events : List Event) →
        OfEachStore events (λ i. epoch_of events i < epoch → IsWrittenBack state epoch events i) }
    ensures later { (state epoch : ℕ) (events : List Event) →
        OfEachStore events (λ i. epoch < epoch_of events i → IsNotWrittenBack state epoch events i) }
    ensures own { (state epoch : ℕ) (events : List Event) →
        OfEachStore events (λ i. epoch_of events i ≡ epoch → GoesByItsDraw state epoch events i) }
{}

/// States that what a crash keeps of a run of caches does not depend on the values that are stored.
pub fn a_cache_cut_is_blind_to_values()
    ensures { (cores words capacity : ℕ) → IsBlindToValues (caches_over cores words capacity) }
{}
