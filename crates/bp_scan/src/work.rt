//! The working memory of a scan.

ghost use Rattle.std.specs.Prelude.{◌≡◌, ◌+◌, ◌<◌, length, replicate};
ghost use Rattle.bp_free.specs.Set.{empty, members};
ghost use Rattle.bp_scan.specs.Counted.{no_totals};

use crate::inode_count::no_totals;
use bp_free::{Blocks, Counts, Inodes};
use bp_layout::Totals;

/// The working memory of a scan. At the end of a scan its sets of blocks and of inodes have exactly the free ones, and
/// the counts are the numbers of links of the inodes.
#[derive(Drop)]
pub(crate) struct Scan {
    /// The blocks of no tree that was entered.
    pub blocks: Blocks,
    /// The inodes to which no entry referred so far.
    pub inodes: Inodes,
    /// The directories that are still to be read.
    pub todo: Inodes,
    /// For each inode, the number of entries read so far that refer to it.
    pub counts: Counts,
    /// The totals of the inodes that were entered. Their live blocks are not counted.
    pub totals: Totals,
}

impl Scan {
    /// Empties the sets, and sets the counts and the totals to 0.
    pub fn clear(&mut self)
        ensures blocks { self.new.blocks ≡ empty (length self.old.blocks) }
        ensures inodes { self.new.inodes ≡ empty (length self.old.inodes) }
        ensures todo { self.new.todo ≡ empty (length self.old.todo) }
        ensures counts { self.new.counts ≡ replicate (length self.old.counts) 0 }
        ensures totals { self.new.totals ≡ no_totals }
    {
        self.blocks.clear();
        self.inodes.clear();
        self.todo.clear();
        self.counts.clear();
        self.totals = no_totals();
    }

    /// Returns the totals of the inodes that were entered, with the number of blocks that were taken out of the set of
    /// all blocks except the first.
    pub fn all_totals(&self) -> Totals
        requires { length (members self.now.blocks) < length self.now.blocks }
        ensures files { result.files ≡ self.now.totals.files }
        ensures dirs { result.dirs ≡ self.now.totals.dirs }
        ensures bytes { result.bytes ≡ self.now.totals.bytes }
        ensures live { result.live + length (members self.now.blocks) + 1 ≡ length self.now.blocks }
    {
        Totals {
            live: self.blocks.room() - 1 - self.blocks.count(),
            ..self.totals
        }
    }
}
