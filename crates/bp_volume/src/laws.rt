//! Properties of volumes. Each is the contract of a function with an empty body.

ghost use Rattle.std.specs.Prelude.{ℕ, List};
ghost use Rattle.bp_plain.specs.Calls.Call.{rmdir, unlink};
ghost use Rattle.bp_plain.specs.PlainTree.{FileTree};
ghost use Rattle.bp_roles.specs.Mounted.{SameDurable};
ghost use Rattle.bp_fs.specs.Step.{IsNeverShort};
ghost use Rattle.bp_volume.specs.VolumeLaws.{SetsInPlace, ShortensInPlace, ShowsFirstCalls, WithoutSnapshot, WritesInPlace};
ghost use Rattle.pm_region.specs.Memory.{Memory};
ghost use Rattle.pm_region.specs.Safe.{IsSafe};
ghost use Rattle.pm_steps.specs.Machine.{MachineState, MachineStep};

/// States that at each point of execution the words in memory have, to a mount, the files and directories after the first
/// calls, as many as are kept whole. This holds for each order in which the processor executes the events since the last drain
/// and the engine writes their stores back.
pub fn memory_is_as_after_a_call()
    ensures { (memory : Memory) (steps : List MachineStep) (state : MachineState) → IsSafe SameDurable memory →
        ShowsFirstCalls memory steps state }
{}

/// States which calls work on a full volume that has no snapshot. Each is one store to a word that is in use: an
/// unlink, an rmdir, a truncate that does not make the file longer, a write of bytes that lie in one word and not in a
/// hole, and the setting of an attribute. They have the answer of the abstract tree, and are never refused for lack of
/// space.
pub fn calls_in_place_need_no_space(image: &[u64])
    ensures unlink { WithoutSnapshot image.now (λ tree. (text : List ℕ) → IsNeverShort image.now tree (unlink text)) }
    ensures rmdir { WithoutSnapshot image.now (λ tree. (text : List ℕ) → IsNeverShort image.now tree (rmdir text)) }
    ensures truncate { WithoutSnapshot image.now (λ tree. (text : List ℕ) (size : ℕ) → ShortensInPlace image.now tree text size) }
    ensures write { WithoutSnapshot image.now (λ tree. (text new : List ℕ) (i offset : ℕ) → WritesInPlace image.now tree text i offset new) }
    ensures set_attribute { WithoutSnapshot image.now (λ tree. (text : List ℕ) (number value : ℕ) → SetsInPlace image.now tree text number value) }
{}
