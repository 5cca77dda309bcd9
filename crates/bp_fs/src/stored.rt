//! The trait of file systems that are stored in the words of a region.

ghost use Rattle.std.specs.Prelude.{◌≡◌, ◌↔◌, IfOk, IsOk, OnErr, OnOk};
ghost use Rattle.bp_fs.specs.WordLaws.{words_behave};
ghost use Rattle.bp_fs.specs.ByWords.{by_words};
ghost use Rattle.bp_fs.specs.Called.{Called};
ghost use Rattle.bp_layout.specs.Totals.{HasLive, HasTotals};
ghost use Rattle.bp_layout.specs.Whole.{HasSpace};
ghost use Rattle.bp_plain.specs.Seen.{CanAsk, call_of};
ghost use Rattle.bp_roles.specs.Mounted.{SameDurable, served_words};
ghost use Rattle.pm_epochs.specs.Log.{call_ends};
ghost use Rattle.pm_epochs.specs.Replay.{IsRight, kept_calls};
ghost use Rattle.pm_region.specs.Memory.{Memory, crashed, drained};
ghost use Rattle.pm_region.specs.Safe.{IsSafe};

use crate::file_system::FileSystem;
use crate::space::Space;
use bp_layout::Totals;
use bp_plain::{Call, Reply};
use pm_epochs::{BadChoice, Choice, Kept};
use pm_region::Region;
use std::alloc::Global;

/// A file system that is stored in the words of a region. Contracts describe it by the region's memory, and its files
/// by the words as a mount sees them (`served_words`).
pub trait StoredFileSystem {
    /// The region in which it is stored.
    type Region: Region;

    ghost memory: { Self → Memory };

    /// Returns the region. To a mount its words are a file system, and a crash at any point leaves a file system with
    /// the files and directories of some prefix of the calls.
    fn region(&self) -> &Self::Region
        ensures memory { Self.Region.memory result.now ≡ memory self.now }
        ensures safe { IsSafe SameDurable (memory self.now) };

    /// Makes a call, and sets the reply to its result. A read may ask for at most 65,536 bytes, and the number of an
    /// attribute is at most 2.
    fn apply(&mut self, alloc: Global, call: &Call, reply: &mut Reply)
        requires can { CanAsk call.now }
        ensures called { Called (memory self.old) (call_of call.now) reply.new.answer (memory self.new) };

    /// Waits until all stores of the calls so far are written back, and empties the log.
    fn sync(&mut self)
        ensures drained { memory self.new ≡ drained (memory self.old) };

    /// Crashes, and continues with the words that the choice leaves and an empty log.
    ///
    /// # Errors
    ///
    /// Nothing has changed then.
    ///
    /// - `BadChoice`: the choice is not possible for the log. It is returned for exactly these choices.
    fn crash(&mut self, choice: &Choice) -> Result<Kept, BadChoice>
        ensures right { IsOk result ↔ IsRight (memory self.old).events choice.now.cut }
        ensures left { OnOk result (memory self.new ≡ crashed (memory self.old) choice.now.cut) }
        ensures kept { IfOk result (λ kept. kept.c ≡ kept_calls (memory self.old).events choice.now.cut) }
        ensures of { IfOk result (λ kept. kept.n ≡ call_ends (memory self.old).events) }
        ensures err { OnErr result (memory self.new ≡ memory self.old) };

    /// Returns the numbers of free blocks, and of blocks that are live in one of the trees or in both.
    fn space(&self) -> Space
        ensures free { HasSpace (served_words (memory self.now)) result.free }
        ensures live { HasLive (served_words (memory self.now)) result.live };

    /// Returns the totals: the files, directories and bytes, and the live blocks of both trees.
    fn totals(&mut self) -> Totals
        ensures totals { HasTotals (served_words (memory self.old)) result }
        ensures same { memory self.new ≡ memory self.old };
}

/// A stored file system behaves by its words.
impl<W: StoredFileSystem> FileSystem for W {
    type Region = W::Region;

    ghost State = { Memory };

    ghost behaviour = { by_words };

    ghost state = { W.memory };

    ghost lawful = { words_behave };

    fn region(&self) -> &W::Region {
        StoredFileSystem::region(self)
    }

    fn apply(&mut self, alloc: Global, call: &Call, reply: &mut Reply) {
        StoredFileSystem::apply(self, alloc, call, reply);
    }

    fn sync(&mut self) {
        StoredFileSystem::sync(self);
    }

    fn crash(&mut self, choice: &Choice) -> Result<Kept, BadChoice> {
        StoredFileSystem::crash(self, choice)
    }

    fn space(&self) -> Space {
        StoredFileSystem::space(self)
    }

    fn totals(&mut self) -> Totals {
        StoredFileSystem::totals(self)
    }
}
