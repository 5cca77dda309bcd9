//! The trait of file systems.

ghost use Rattle.std.specs.Prelude.{◌≡◌, ◌↔◌, IfOk, IsOk, OnErr, OnOk};
ghost use Rattle.bp_fs.specs.Behaviour.{Behaviour, IsBehaviour};
ghost use Rattle.bp_plain.specs.Seen.{CanAsk, call_of};
ghost use Rattle.pm_epochs.specs.Log.{call_ends};
ghost use Rattle.pm_epochs.specs.Replay.{IsRight, kept_calls};

use crate::space::Space;
use bp_layout::Totals;
use bp_plain::{Call, Reply};
use pm_epochs::{BadChoice, Choice, Kept};
use pm_region::Region;
use std::alloc::Global;

/// A file system over a region. The states of its `Behaviour` say what its calls do.
pub trait FileSystem {
    /// The region in which it stores.
    type Region: Region;

    ghost State: { Type 0 };

    ghost behaviour: { Behaviour State };

    ghost state: { Self → State };

    /// Returns the region.
    fn region(&self) -> &Self::Region
        ensures { Self.Region.memory result.now ≡ behaviour.memory (state self.now) };

    /// Makes a call, and sets the reply to its result. A read may ask for at most 65,536 bytes, and the number of an
    /// attribute is at most 2.
    fn apply(&mut self, alloc: Global, call: &Call, reply: &mut Reply)
        requires can { CanAsk call.now }
        ensures calls { behaviour.calls (state self.old) (call_of call.now) reply.new.answer (state self.new) };

    /// Waits until all stores of the calls so far are written back, and empties the log.
    fn sync(&mut self)
        ensures drained { state self.new ≡ behaviour.drained (state self.old) };

    /// Crashes, and continues with what the choice leaves and an empty log.
    ///
    /// # Errors
    ///
    /// Nothing has changed then.
    ///
    /// - `BadChoice`: the choice is not possible for the log. It is returned for exactly these choices.
    fn crash(&mut self, choice: &Choice) -> Result<Kept, BadChoice>
        ensures right { IsOk result ↔ IsRight (behaviour.memory (state self.old)).events choice.now.cut }
        ensures left { OnOk result (state self.new ≡ behaviour.crashed (state self.old) choice.now.cut) }
        ensures kept { IfOk result
            (λ kept. kept.c ≡ kept_calls (behaviour.memory (state self.old)).events choice.now.cut) }
        ensures of { IfOk result (λ kept. kept.n ≡ call_ends (behaviour.memory (state self.old)).events) }
        ensures err { OnErr result (state self.new ≡ state self.old) };

    /// Returns the numbers of free and of live blocks.
    fn space(&self) -> Space
        ensures space { behaviour.space (state self.now) result.free result.live };

    /// Returns the totals: the files, directories and bytes, and the live blocks.
    fn totals(&mut self) -> Totals
        ensures totals { behaviour.totals (state self.old) result }
        ensures same { state self.new ≡ state self.old };

    ghost lawful: { IsBehaviour behaviour };
}
