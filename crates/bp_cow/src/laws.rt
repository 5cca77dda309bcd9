//! Theorems on commits. Each is the contract of a function with an empty body.

ghost use Rattle.std.specs.Prelude.{◌≡◌, ℕ, suc, ◌+◌, ◌*◌, ◌<◌, ◌≤◌, length, slice_index, Bool};
ghost use Rattle.bp_layout.specs.Free.{AreFreeBlocks};
ghost use Rattle.bp_layout.specs.Inode.{size_of};
ghost use Rattle.bp_layout.specs.Members.{Has};
ghost use Rattle.bp_layout.specs.Reached.{IsReached};
ghost use Rattle.bp_changes.specs.Trail.{Trail};
ghost use Rattle.bp_layout.specs.WordPaths.{WordPath};
ghost use Rattle.bp_layout.specs.Words.{byte_of};
ghost use Rattle.bp_layout.specs.WellFormed.{IsWellFormed};
ghost use Rattle.bp_cow.specs.AfterCommit.{CommitsTrees, HasPointer, HasRunBytes, HasSizeWord, HasValue, KeepsWord, LiesInTree};
ghost use Rattle.bp_cow.specs.CanCommit.{CanCommitRuns, CanCommitWord, IsInodeFileTree, IsInodeTree, IsTreeIn, StaysTree, WhereCanCommit};
ghost use Rattle.bp_cow.specs.Commit.{OnCommit};
ghost use Rattle.bp_cow.specs.Cover.{BeginAlike, BeginsAsEnds, LeadsInside, IsCover, commit_cover};
ghost use Rattle.bp_cow.specs.Touched.{IsTouched, NoneBegins, run_word, run_byte, all_paths};
ghost use Rattle.bp_cow.specs.declared.touched.Run.{Run};

use crate::touched::{Run, Touched, TreeSize};

/// States that all touched paths have a common prefix if the end paths have it.
pub fn all_touched_paths_begin_alike(touched: &Touched<'_>)
    requires { IsTouched touched.now }
    ensures long { (count : ℕ) (path : WordPath) → BeginAlike touched.now count → Has (all_paths touched.now) path →
        count ≤ length path }
    ensures same { (count : ℕ) (path : WordPath) → BeginAlike touched.now count → Has (all_paths touched.now) path →
        BeginsAsEnds touched.now count path }
{}

/// States that the cover of touched words is a common prefix of their paths that exists and cannot be longer, and that
/// no other path is.
pub fn a_cover_is_determined(image: &[u64], touched: &Touched<'_>)
    requires { IsTouched touched.now }
    ensures is { IsCover image.now touched.now (commit_cover image.now touched.now) }
    ensures only { (path : WordPath) → IsCover image.now touched.now path → path ≡ commit_cover image.now touched.now }
{}

/// States that touched words that can be committed meet the conditions of `find_ways`, `cover` and `need_cover`.
pub fn what_can_be_committed_has_a_cover(image: &[u64], touched: &Touched<'_>)
    requires { IsWellFormed image.now }
    ensures inside { WhereCanCommit image.now touched.now (LeadsInside image.now touched.now) }
    ensures apart { WhereCanCommit image.now touched.now (NoneBegins (all_paths touched.now)) }
{}

/// States that after a commit each touched word has its new value, each word of a run has the new bytes beside its old
/// ones, and each other word has its old value.
pub fn touched_words_have_their_values(image: &[u64], touched: &Touched<'_>)
    requires { IsWellFormed image.now }
    ensures words { (i : ℕ) → WhereCanCommit image.now touched.now (HasValue image.now touched.now i) }
    ensures run { (run : Run) (k : ℕ) → WhereCanCommit image.now touched.now (HasRunBytes image.now touched.now run k) }
    ensures others { (slot : ℕ) (p : Trail) →
        WhereCanCommit image.now touched.now (KeepsWord image.now touched.now slot p) }
{}

/// States that each byte of a word with a run written over it is the new byte or else the old one.
pub fn words_of_a_run_have_its_bytes(run: &Run<'_>)
    requires { (i : ℕ) → slice_index run.now.bytes.now i < 256 }
    ensures { (k old c : ℕ) → c < 8 →
        byte_of (run_word run.now k old) c ≡ run_byte run.now (8 * k + c) (byte_of old c) }
{}

/// States the effect of a commit on the words of the trees. If the new sizes are within `bound` and with them no
/// pointer of the inode file or of a directory is null, each content word has its value. The size of an inode is the
/// value of its size word. The blocks to which pointers lead are those of the trees up to `bound`.
pub fn commits_on_trees(old: &[u64], new: &[u64], touched: &Touched<'_>)
    ensures reported { (bound : ℕ → ℕ) (cover : ℕ) →
        OnCommit bound touched.now cover old.now new.now (CommitsTrees old.now new.now bound touched.now) }
    ensures sizes { (bound : ℕ → ℕ) (cover i : ℕ) →
        OnCommit bound touched.now cover old.now new.now (HasSizeWord old.now new.now touched.now (suc i)) }
    ensures blocks { (bound : ℕ → ℕ) (cover b : ℕ) →
        OnCommit bound touched.now cover old.now new.now (LiesInTree old.now new.now bound b) }
    ensures led { (bound : ℕ → ℕ) (cover b t : ℕ) →
        OnCommit bound touched.now cover old.now new.now (HasPointer old.now new.now bound t b) }
{}

/// States that one word of a tree of a well-formed image, below its size and no root word in the inode file, can be
/// committed; and so can runs within files and directories, below their sizes. The given trees must have the image's
/// sizes.
pub fn a_word_or_runs_can_be_committed(image: &[u64], touched: &Touched<'_>)
    requires well_formed { IsWellFormed image.now }
    requires touched { IsTouched touched.now }
    ensures word { (in_snapshot free : ℕ → Bool) (t k : ℕ) → AreFreeBlocks image.now in_snapshot free →
        CanCommitWord image.now in_snapshot touched.now free t k }
    ensures runs { (in_snapshot free : ℕ → Bool) → AreFreeBlocks image.now in_snapshot free →
        CanCommitRuns image.now in_snapshot touched.now free }
{}

/// States that the tree of a reachable inode, and the inode file, can be given with its size in the image. The same
/// tree can be given for another image that has it at the same height, if its size in `bound` is not greater.
pub fn trees_can_be_given_with_their_sizes(old: &[u64], new: &[u64], tree: &TreeSize)
    ensures inode { (n : ℕ) → IsReached old.now (suc n) → IsInodeTree old.now (suc n) tree.now }
    ensures inode_file { IsInodeFileTree old.now tree.now }
    ensures stays { (bound : ℕ → ℕ) (at : IsTreeIn old.now (size_of old.now) tree.now) →
        StaysTree old.now new.now bound at.number tree.now }
{}
