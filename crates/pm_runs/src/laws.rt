//! A law of all runs, as a function that does nothing.

ghost use Rattle.std.specs.Prelude.{◌≡◌, ℕ, List, length};
ghost use Rattle.pm_region.specs.Memory.{AreWithin};
ghost use Rattle.pm_runs.specs.Runs.{copied, runs_events, words_after_runs};
ghost use Rattle.pm_runs.specs.declared.pieces.Run.{Run};

/// States that copying runs to their places, one after the other, equals the stores of their events in order.
pub fn copying_runs_is_storing()
    ensures { (words : List ℕ) (runs : List (Run × List ℕ)) → AreWithin (length words) (runs_events runs) →
        copied words runs ≡ words_after_runs words runs }
{}
