//! Theorems on performed calls, whatever their effect. Each is the contract of a function with an empty body.

ghost use Rattle.std.specs.Prelude.{ℕ};
ghost use Rattle.bp_changes.specs.Costs.{ForPerformed, IsShortBetween, LeavesFreeBlock, NeedsAtMost, StaysSafe};
ghost use Rattle.pm_region.specs.Memory.{Memory};

/// States that a performed call costs no more than its need requires, that enough blocks were free for it, and that
/// with its end-of-call marker it keeps a safe memory safe.
pub fn performed_calls_are_short()
    ensures short { ForPerformed IsShortBetween }
    ensures fits { ForPerformed (λ in_snapshot old new change. (free : ℕ) → NeedsAtMost in_snapshot old change free) }
    ensures safe { ForPerformed (λ in_snapshot old new change. (ended : Memory) → StaysSafe old new ended) }
{}

/// States that a performed call that needs no block stores to no free block, so that no call does the work of another
/// one.
pub fn performed_calls_leave_free_blocks()
    ensures { ForPerformed (λ in_snapshot old new change. (b : ℕ) → LeavesFreeBlock in_snapshot old new change b) }
{}
