//! Laws of all logs. Each law is a function that does nothing.
//!
//! A log is **quiet** if a crash at any point leaves words like those before the log (`IsQuiet`). It is **right** if a
//! crash at any point leaves words like those after the surviving calls (`CrashRight`). It is **closed** if each store
//! has a barrier after it (`IsClosed`).

ghost use Rattle.std.specs.Prelude.{◌≡◌, ℕ, Bool, List, [], ◌∷◌, ◌++◌};
ghost use Rattle.pm_epochs.specs.declared.event.Event.{Event};
ghost use Rattle.pm_epochs.specs.declared.event.Event.TheVariants.{Barrier, CallEnd};
ghost use Rattle.pm_epochs.specs.Log.{call_ends, IsClosed};
ghost use Rattle.pm_epochs.specs.Replay.{PowerCut, IsRight, IsReplay, SplitsReplays, kept_calls, kept_stores, kept_indices, events_at, IsGreatestKept};
ghost use Rattle.pm_epochs.specs.Crash.{CommitsRight, CrashRight, IsQuiet, IsQuietIfSame, StaysQuiet, StaysRight, commit};
ghost use Rattle.pm_epochs.specs.May.{AnyOf, IsQuietByTest, links_of};

/// A relation between the words of two memories, as "they represent the same tree". Words that are related to
/// themselves are well formed.
pub trait Likeness {
    ghost same: { List ℕ → List ℕ → Type 0 };

    ghost symmetric: { (first second : List ℕ) → same first second → same second first };

    ghost transitive: { (first second third : List ℕ) → same first second → same second third → same first third };
}

/// States that the number of surviving calls is the largest for which each store before their last end-of-call marker
/// survives.
pub fn kept_calls_are_greatest()
    ensures { (events : List Event) (cut : PowerCut) → IsRight events cut →
        IsGreatestKept events cut (kept_calls events cut) }
{}

/// States that the surviving stores are those at the surviving indices, in order. An index survives if it is before
/// the crash point, and its epoch is earlier than the crash's epoch, or is that epoch and the mask has the store's
/// position true.
pub fn kept_stores_by_index()
    ensures { (events : List Event) (cut : PowerCut) →
        kept_stores events cut ≡ events_at events (kept_indices events cut) }
{}

/// States that a replay of two logs in a row is one of the first, or one of the second over the words that the first
/// leaves, if each store of the first log has a barrier after it.
pub fn replays_of_joined_logs()
    ensures { (base : List ℕ) (first rest : List Event) → IsClosed first → SplitsReplays base first rest }
{}

/// States that two quiet logs in a row are quiet, if the first of them is closed.
pub fn quiet_pieces<L: Likeness>()
    ensures { (base : List ℕ) (first rest : List Event) → IsClosed first → StaysQuiet L.same base first rest }
{}

/// States that stores of values that are allowed at their words are quiet, if the relation ignores the difference.
pub fn quiet_where_nobody_looks<L: Likeness>()
    ensures { (base : List ℕ) (events : List Event) (may : ℕ → ℕ → Bool) → IsQuietByTest L.same may base events }
{}

/// States that link stores in one epoch are quiet, if the relation ignores which of them survive.
pub fn quiet_whichever_is_kept<L: Likeness>()
    ensures { (base : List ℕ) (links : List (ℕ × ℕ)) → AnyOf L.same base base links →
        IsQuiet L.same base (links_of links ++ Barrier ∷ []) }
{}

/// States that a quiet preparation with one store alone in its epoch is quiet, if it leaves words like those before.
pub fn quiet_commit<L: Likeness>()
    ensures { (base : List ℕ) (prepared : List Event) (word value : ℕ) → IsQuiet L.same base prepared →
        IsQuietIfSame L.same base (prepared ++ commit word value) }
{}

/// States that two right logs in a row are right, the second one over the words that the first leaves, if the first is
/// closed.
pub fn right_logs_in_a_row<L: Likeness>()
    ensures { (base : List ℕ) (first rest : List Event) → IsClosed first → StaysRight L.same base first rest }
{}

/// States that a call that prepares quietly and then commits by one store alone in its epoch is right and closed.
pub fn committed_call<L: Likeness>()
    ensures right { (base : List ℕ) (prepared : List Event) (word value : ℕ) → call_ends prepared ≡ 0 →
        CommitsRight L.same base prepared word value }
    ensures closed { (prepared : List Event) (word value : ℕ) → IsClosed (prepared ++ commit word value ++ CallEnd ∷ []) }
{}

/// States that a call without a store is right, and that the empty log is.
pub fn call_without_store<L: Likeness>()
    ensures end_call { (base : List ℕ) → L.same base base → CrashRight L.same base (CallEnd ∷ []) }
    ensures nothing { (base : List ℕ) → L.same base base → CrashRight L.same base [] }
{}

/// States that what a crash may leave in the middle of a call, it may also leave at the end of the call.
pub fn replays_of_a_prefix()
    ensures { (base : List ℕ) (prefix rest : List Event) (image : List ℕ) → IsReplay base prefix image →
        IsReplay base (prefix ++ rest) image }
{}
