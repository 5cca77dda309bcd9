//! Theorems on images of version 3 and on transactions. Each is the contract of a function with an empty body.

ghost use Rattle.std.specs.Prelude.{◌≡◌, ℕ, Bool, List};
ghost use Rattle.bp_layout.specs.Need.{Change};
ghost use Rattle.bp_layout.specs.Same.{Same};
ghost use Rattle.bp_layout.specs.Trees.{has_snapshot};
ghost use Rattle.bp_layout.specs.WellFormed.{IsWellFormed};
ghost use Rattle.bp_layout.specs.Whole.{SameFiles};
ghost use Rattle.bp_layout.specs.Words.{Image};
ghost use Rattle.bp_changes.specs.Performs.{IsShort};
ghost use Rattle.bp_roles.specs.Seen.{IsWide, MemoryByRoles, raw_events, seen};
ghost use Rattle.bp_roles.specs.Stored.{stored_base, stored_events, stored_words};
ghost use Rattle.bp_roles.specs.Mounted.{KeepsRoles, SameDurable, by_roles, served_words};
ghost use Rattle.bp_roles.specs.Transaction.{AvoidsSnapshot, BeginsInside, IsOneStore};
ghost use Rattle.bp_roles.specs.TransactionLaws.{AddsSeen, Begins, CallsInside, HasOnlyFiles, HasSnapshotInside, HasTreeInside, IsSeenAsStored};
ghost use Rattle.bp_roles.specs.TransactionLaws.{IsRightOutside, IsVersionThree, MayCommit};
ghost use Rattle.bp_roles.specs.TransactionLaws.{StoresToSpare, committed, seen_inside, seen_outside, snapshot_inside};
ghost use Rattle.pm_epochs.specs.declared.event.Event.{Event};
ghost use Rattle.pm_epochs.specs.Crash.{CrashRight, IsQuiet};
ghost use Rattle.pm_epochs.specs.Replay.{PowerCut, replay};
ghost use Rattle.pm_region.specs.Memory.{Adds, Memory, current_words};
ghost use Rattle.pm_region.specs.Safe.{IsSafe};

/// States that the two stores that begin a transaction act as a snapshot does: the image seen inside then has the files
/// of the outside, both as its files and as its snapshot.
pub fn a_begin_is_a_snapshot()
    ensures { (is_b : Bool) (image after : Image) → Begins is_b image after →
        BeginsInside (seen_outside is_b image) (seen_inside is_b after) }
{}

/// States that events that store to the spare slot only, as a begin does, leave the same files after a crash at any
/// point.
pub fn a_begin_is_right()
    ensures { (is_b : Bool) (image : Image) (events : List Event) → HasOnlyFiles is_b image →
        StoresToSpare is_b events → CrashRight SameDurable image events }
{}

/// States that a log without a store to word 0, which is right (`CrashRight`) as it is seen outside a transaction, is
/// right for the files that the image represents.
pub fn a_call_outside_is_right()
    ensures { (is_b : Bool) (image : Image) (events : List Event) → IsRightOutside is_b image events →
        CrashRight SameDurable image events }
{}

/// States that the events of each short call (`IsShort`), and so of each call that changes files, meet the condition on
/// calls inside a transaction.
pub fn short_calls_avoid_the_snapshot()
    ensures { (old new : Image) (set : ℕ → Bool) (change : Change) (events : List Event) →
        IsShort old new set change events → AvoidsSnapshot set events }
{}

/// States that the memory that is seen determines the roles and the memory of the region, also among memories with other
/// roles. So events that are added to the log that is seen leave the roles as they are, and they determine those that
/// were added to the log of the region.
pub fn what_is_seen_determines_the_region()
    ensures memory { (one two : MemoryByRoles) → IsWide one.memory → IsWide two.memory → seen one ≡ seen two →
        one ≡ two }
    ensures roles { (old new : MemoryByRoles) (more : List Event) → AddsSeen old new more → new.roles ≡ old.roles }
    ensures adds { (old new : MemoryByRoles) (more : List Event) → AddsSeen old new more →
        Adds old.memory new.memory (raw_events old.roles more) }
{}

/// States that the memory that is seen says what is stored: the words of the region below, now and at the last drain,
/// and its log. For a region's own memory the words are its words.
pub fn what_is_seen_says_what_is_stored()
    ensures now { (it : MemoryByRoles) → IsWide it.memory → stored_words (seen it) ≡ current_words it.memory }
    ensures base { (it : MemoryByRoles) → IsWide it.memory → stored_base (seen it) ≡ it.memory.base }
    ensures events { (it : MemoryByRoles) → stored_events (seen it) ≡ it.memory.events }
    ensures own { (memory : Memory) → memory.through ≡ 0 → stored_words memory ≡ current_words memory }
    ensures own_base { (memory : Memory) → memory.through ≡ 0 → stored_base memory ≡ memory.base }
{}

/// States that images of versions 1 and 2 are seen as they are stored, and so are images of version 3 under the magic
/// number `BPFSRS3A`.
pub fn most_images_are_seen_as_they_are_stored()
    ensures { (image : Image) → IsSeenAsStored image → by_roles image ≡ image }
{}

/// States what a mount of the words of a region sees, now and after a crash at any point, if they keep their roles
/// (`KeepsRoles`): the words that the view by these roles shows. A memory that is safe (`IsSafe`) as it is seen is safe
/// for the files that a mount sees.
pub fn a_mount_sees_what_the_roles_show()
    ensures now { (it : MemoryByRoles) → KeepsRoles it → served_words it.memory ≡ current_words (seen it) }
    ensures crash { (it : MemoryByRoles) → KeepsRoles it → (cut : PowerCut) →
        by_roles (replay it.memory.base it.memory.events cut) ≡ replay (seen it).base (seen it).events cut }
    ensures safe { (it : MemoryByRoles) → KeepsRoles it → IsSafe SameFiles (seen it) → IsSafe SameDurable it.memory }
{}

/// States that the snapshot seen inside a transaction has the files seen outside.
pub fn the_snapshot_inside_is_the_tree_outside()
    ensures { (is_b : Bool) (image : Image) → HasSnapshotInside is_b image →
        Same (snapshot_inside is_b image) (seen_outside is_b image) }
{}

/// States that the calls inside a transaction are quiet outside: a crash at any point of their events leaves the files
/// from before the transaction. The events store neither to a block of the snapshot seen inside nor to a word of the
/// superblock except the two for the inode file, and outside there is no snapshot.
pub fn calls_inside_are_quiet_outside()
    ensures { (is_b : Bool) (image : Image) (events : List Event) → CallsInside is_b image events →
        IsQuiet SameDurable image events }
{}

/// States that the image represents the tree of the transaction once word 0 has the other magic number, and that it has
/// a snapshot exactly if it had one outside before.
pub fn a_commit_shows_the_tree_inside()
    ensures first { (is_b : Bool) (image : Image) → HasTreeInside is_b image →
        Same (seen_inside is_b image) (committed is_b image) }
    ensures second { (is_b : Bool) (image : Image) → IsVersionThree is_b image →
        has_snapshot (committed is_b image) ≡ has_snapshot (seen_outside is_b image) }
{}

/// States that a transaction takes effect by one store: a crash at any point of its calls and its commit leaves the
/// files from before it, or, if the commit survives, its tree. So no call inside survives without the commit.
pub fn a_transaction_is_one_store()
    ensures { (is_b : Bool) (image : Image) (events : List Event) → CallsInside is_b image events →
        MayCommit is_b image events → IsOneStore is_b image events }
{}

/// States that a memory is safe (`IsSafe`) only if its words at the last drain are a file system. So the memory seen
/// inside a transaction is not safe while its log goes back to a drain at which the spare slot had no tree.
pub fn a_safe_log_begins_well_formed()
    ensures { (memory : Memory) → IsSafe SameFiles memory → IsWellFormed memory.base }
{}
