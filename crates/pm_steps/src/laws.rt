//! Laws of all runs. Each law is a function that does nothing.

ghost use Rattle.std.specs.Prelude.{ℕ, Bool, List};
ghost use Rattle.pm_epochs.specs.declared.event.Event.{Event};
ghost use Rattle.pm_epochs.specs.Replay.{PowerCut, IsRight};
ghost use Rattle.pm_steps.specs.Machine.{MachineState, MachineStep, IsInOrder};
ghost use Rattle.pm_steps.specs.Runs.{AfterEachRun, HasRunTo, HoldsCalls, HoldsReplay, RunsInLogOrder, StandsRight};

use pm_epochs::laws::Likeness;

/// States that after any allowed steps, in whatever order, the memory is the replay of the machine's crash point, and
/// that this crash point is valid.
pub fn memory_is_a_replay()
    ensures right { (base : List ℕ) (events : List Event) → AfterEachRun base events (StandsRight events) }
    ensures replay { (base : List ℕ) (events : List Event) → AfterEachRun base events (HoldsReplay base events) }
{}

/// States that some allowed steps reach the words that any valid crash point leaves.
pub fn each_replay_is_reached()
    ensures { (base : List ℕ) (events : List Event) (cut : PowerCut) → IsRight events cut → HasRunTo base events cut }
{}

/// States that stores in order are written back by allowed steps: the processor executes its events, and then the
/// stores go back in the order of the log. The memory is then the replay of the machine's crash point.
pub fn stores_in_order_are_reached()
    ensures { (base : List ℕ) (events : List Event) (back : List Bool) → IsInOrder events back →
        RunsInLogOrder base events back }
{}

/// States that over a right log (`CrashRight`), in whatever order the processor and the engine take their steps, the
/// memory is like the words after the first calls, as many as survive whole.
pub fn memory_is_as_after_a_call<L: Likeness>()
    ensures { (base : List ℕ) (events : List Event) (steps : List MachineStep) (state : MachineState) →
        HoldsCalls L.same base events steps state }
{}
