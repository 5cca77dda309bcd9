//! Laws of all caches. Each law is a function that does nothing.

ghost use Rattle.std.specs.Prelude.{◌≡◌, ℕ, List};
ghost use Rattle.pm_epochs.specs.declared.event.Event.{Event};
ghost use Rattle.pm_cores.specs.declared.entry.Entry.{Entry};
ghost use Rattle.pm_cores.specs.Caches.{Caches, caches_over, memory_over, logged, MayLeave};
ghost use Rattle.pm_cores.specs.MemoryLaws.{IsRightChoice, LeavesMemory, WritesOneWord};
ghost use Rattle.pm_cores.specs.Order.{IsCoherent};

/// States how the memory changes. It is the base with the stores that are written back, in the order of the log.
/// Before anything is executed it is the base. A new entry of the log leaves it unchanged. Writing back a word changes
/// that word alone, which takes its value.
pub fn a_write_back_writes_one_word()
    ensures start { (cores words capacity : ℕ) (base : List ℕ) → memory_over base (caches_over cores words capacity) ≡ base }
    ensures entry { (base : List ℕ) (caches : Caches) (entry : Entry) → IsCoherent caches →
        memory_over base (logged caches entry) ≡ memory_over base caches }
    ensures back { (base : List ℕ) (caches : Caches) (word : ℕ) → IsCoherent caches → MayLeave caches word →
        WritesOneWord base caches word }
{}

/// States that the choice is valid for a log, and that the memory is its replay over the base, if only core 0 stored,
/// and its entries are the log's first events.
pub fn a_choice_leaves_the_memory()
    ensures right { (caches : Caches) (events : List Event) (moment : ℕ) → IsCoherent caches →
        IsRightChoice caches events moment }
    ensures replay { (base : List ℕ) (caches : Caches) (events : List Event) (moment : ℕ) → IsCoherent caches →
        LeavesMemory base caches events moment }
{}
