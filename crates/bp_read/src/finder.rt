//! Lookup of names in the directories of an image.

ghost use Rattle.std.specs.Prelude.{◌≡◌, ◌≤◌, length, IfSome, refl, ⊤};
ghost use Rattle.std.proofs.Common.{◌∙◌};
ghost use Rattle.bp_layout.specs.Directory.{ino_at, slot_named};
ghost use Rattle.bp_layout.specs.Hints.{AreRight};
ghost use Rattle.bp_layout.specs.Inode.{IsDirectory, root_of, size_of};
ghost use Rattle.bp_layout.specs.Reached.{IsReached};
ghost use Rattle.bp_layout.specs.WellFormed.{IsWellFormed};
ghost use Rattle.bp_layout.specs.Words.{Image};
ghost use Rattle.bp_limits.specs.CallLimits.{max_name};
ghost use Rattle.pm_region.specs.Memory.{words_in};
ghost use Rattle.bp_read.specs.Spots.{found_slot};

use crate::directory::{entry_ino, find_entry};
use crate::spot::Found;
use crate::tree::Tree;
use bp_layout::Hints;
use pm_region::Region;

/// A way to look up names in the directories of an image.
pub trait Finder {
    /// Whether the remembered names are correct for an image.
    ghost right: { Self → Image → Type 0 };

    /// Whether two finders hold the same references, so that the lender of one sees its new state.
    ghost same_references: { Self → Self → Type 0 };

    /// Returns the result of [`find_entry`] for the directory with inode `dir` and this tree.
    fn find<R: Region>(&mut self, region: &R, dir: u32, tree: Tree, name: &[u8]) -> Option<Found>
        requires well { IsWellFormed (words_in R.memory region.now) }
        requires reached { IsReached (words_in R.memory region.now) dir }
        requires directory { IsDirectory (words_in R.memory region.now) dir }
        requires root { tree.root ≡ root_of (words_in R.memory region.now) dir }
        requires size { tree.size ≡ size_of (words_in R.memory region.now) dir }
        requires short { length name.now ≤ max_name }
        requires right { right self.old (words_in R.memory region.now) }
        ensures slot { found_slot result ≡ slot_named (words_in R.memory region.now) dir name.now }
        ensures ino { IfSome result
            (λ found. found.ino ≡ ino_at (words_in R.memory region.now) dir found.slot) }
        ensures right { right self.new (words_in R.memory region.now) }
        ensures references { same_references self.old self.new };

    ghost same_references_reflexive: { (x : Self) → same_references x x };

    ghost same_references_transitive: { (x y z : Self) → same_references x y → same_references y z
        → same_references x z };
}

/// Finder that remembers nothing, and scans the directory.
#[derive(Clone, Copy, Debug)]
pub struct Scan;

impl Finder for Scan {
    ghost right = { λ _ _. ⊤ };

    ghost same_references = { λ _ _. ⊤ };

    fn find<R: Region>(&mut self, region: &R, _dir: u32, tree: Tree, name: &[u8]) -> Option<Found> {
        find_entry(region, tree, name)
    }

    ghost same_references_reflexive = { λ _. tt };

    ghost same_references_transitive = { λ _ _ _ _ _. tt };
}

/// Finder that first asks hints for the slot of a name. If they have none, it scans the directory, and has the hints
/// learn the slot.
#[derive(Drop)]
pub struct Hinted<'a, H> {
    /// The hints.
    pub hints: &'a mut H,
}

impl<'a, H: Hints> Finder for Hinted<'a, H> {
    ghost right = { λ hinted image. AreRight image (H.known hinted.hints.now) };

    ghost same_references = { λ before after. after.hints.ghost_name ≡ before.hints.ghost_name };

    fn find<R: Region>(&mut self, region: &R, dir: u32, tree: Tree, name: &[u8]) -> Option<Found> {
        if let Some(slot) = self.hints.hint(dir, name) {
            return Some(Found {
                slot,
                ino: entry_ino(region, tree, slot),
            });
        }
        let found = find_entry(region, tree, name)?;
        self.hints.learn(dir, name, found.slot);
        Some(found)
    }

    ghost same_references_reflexive = { λ _. refl };

    ghost same_references_transitive = { λ _ _ _ one two. two ∙ one };
}
