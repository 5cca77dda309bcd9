//! Properties of the paths of words, of free blocks, and of the effect of calls on the abstract tree. Each is the
//! contract of a function with an empty body.

ghost use Rattle.std.specs.Prelude.{◌≡◌, ◌<◌, ◌≤◌, ℕ, Bool, List, [], length};
ghost use Rattle.bp_calls.specs.ContentPaths.{HasContentWord, KeepsHeights, WholePathExists};
ghost use Rattle.bp_calls.specs.Created.{EntersName, LinksEntry};
ghost use Rattle.bp_calls.specs.InPlace.{LiesInWord};
ghost use Rattle.bp_calls.specs.OnTrees.{GainsName, GetsBytes, GetsPieces, GetsSize, LosesName, OverwritesPieces, SharesName};
ghost use Rattle.bp_calls.specs.Removed.{HasNoName, IsFoundAt};
ghost use Rattle.bp_calls.specs.Resized.{ResizesFile};
ghost use Rattle.bp_calls.specs.WritesFile.{WritesFile};
ghost use Rattle.bp_layout.specs.declared.fields.Kind.{Kind};
ghost use Rattle.bp_changes.specs.Effects.{CanUnlink, RemovesEntry};
ghost use Rattle.bp_changes.specs.Thawed.{AfterThaw};
ghost use Rattle.bp_free.specs.Set.{has, members};
ghost use Rattle.bp_layout.specs.Directory.{ino_at, name_at};
ghost use Rattle.bp_layout.specs.Paths.{Name, Path};
ghost use Rattle.bp_layout.specs.Free.{AreFreeBlocks, HasFree};
ghost use Rattle.bp_layout.specs.Inode.{IsDirectory, IsFile, size_of};
ghost use Rattle.bp_layout.specs.Need.{Change, need};
ghost use Rattle.bp_layout.specs.Need.Change.{leaves, resizes, sets, writes};
ghost use Rattle.bp_layout.specs.Reached.{IsReached};
ghost use Rattle.bp_limits.specs.Limits.{attributes};
ghost use Rattle.bp_layout.specs.WellFormed.{IsWellFormed};
ghost use Rattle.bp_layout.specs.Words.{block_count};
ghost use Rattle.bp_plain.specs.Calls.{Piece};

use bp_free::Blocks;

/// States that the whole path of each content word of a tree exists, if the tree has no null pointer and the change
/// keeps its height and that of the inode file.
pub fn content_paths_exist(image: &[u64])
    requires { IsWellFormed image.now }
    ensures { (change : Change) (t k : ℕ) → HasContentWord image.now t k → KeepsHeights image.now change t
        → WholePathExists image.now change t k }
{}

/// States that an image has one number of free blocks.
pub fn one_number_is_free(image: &[u64])
    ensures { (in_snapshot : ℕ → Bool) (one other : ℕ) → HasFree image.now in_snapshot one → HasFree image.now in_snapshot other
        → one ≡ other }
{}

/// States that an exact set has as many blocks as the image has free.
pub fn set_has_the_free(image: &[u64], blocks: &Blocks)
    requires room { length blocks.now ≡ block_count image.now }
    ensures count { (in_snapshot : ℕ → Bool) → AreFreeBlocks image.now in_snapshot (has blocks.now)
        → HasFree image.now in_snapshot (length (members blocks.now)) }
    ensures none { (in_snapshot : ℕ → Bool) → AreFreeBlocks image.now in_snapshot (has blocks.now) → members blocks.now ≡ []
        → HasFree image.now in_snapshot 0 }
{}

/// States that a change that is one store in place needs no block: a name is removed, a file is not made longer, bytes
/// are written that lie in one word below its size and not in a hole, or an attribute is set.
pub fn changes_in_place_need_no_block(image: &[u64])
    requires { IsWellFormed image.now }
    ensures leaves { (i s j : ℕ) → CanUnlink image.now i s j → need image.now (leaves i s) ≡ 0 }
    ensures shorter { (i size : ℕ) → IsReached image.now i → IsFile image.now i → size ≤ size_of image.now i
        → need image.now (resizes i size) ≡ 0 }
    ensures in_word { (i offset len : ℕ) → LiesInWord image.now i offset len → need image.now (writes i offset len) ≡ 0 }
    ensures attribute { (i number : ℕ) → IsReached image.now i → number < attributes → need image.now (sets i number) ≡ 0 }
{}

/// States that a directory with a new name gains it in the abstract tree, at each path that finds the directory.
pub fn entered_names_are_gained(old: &[u64], new: &[u64])
    requires { IsWellFormed old.now }
    ensures { (i : ℕ) (name : Name) (kind : Kind) → AfterThaw (EntersName i name kind) old.now new.now
        → GainsName i name kind old.now new.now }
{}

/// States that a file with a new link in a directory is there too in the abstract tree, at each path that finds the
/// directory.
pub fn linked_names_are_shared(old: &[u64], new: &[u64])
    requires { IsWellFormed old.now }
    ensures { (i : ℕ) (name : Name) (j : ℕ) → AfterThaw (LinksEntry i name j) old.now new.now
        → SharesName i name j old.now new.now }
{}

/// States that a directory loses the name of an emptied entry in the abstract tree, at each path that finds the
/// directory, if the entry referred to a file or an empty directory.
pub fn removed_names_are_lost(old: &[u64], new: &[u64])
    requires { IsWellFormed old.now }
    ensures { (i s j : ℕ) → CanUnlink old.now i s j → AfterThaw (λ image after. RemovesEntry image after i s) old.now new.now
        → LosesName i s old.now new.now }
{}

/// States that an entry may be removed if a path finds a file by it, or a directory without names. No other directory
/// may be removed.
pub fn files_and_empty_directories_may_leave(image: &[u64])
    ensures ino { (parent : Path) (name : Name) (i s j : ℕ) → IsFoundAt image.now parent name i s j
        → ino_at image.now i s ≡ j }
    ensures spelled { (parent : Path) (name : Name) (i s j : ℕ) → IsFoundAt image.now parent name i s j
        → name_at image.now i s ≡ name }
    ensures file { (parent : Path) (name : Name) (i s j : ℕ) → IsFoundAt image.now parent name i s j
        → IsFile image.now j → CanUnlink image.now i s j }
    ensures directory { (parent : Path) (name : Name) (i s j : ℕ) → IsFoundAt image.now parent name i s j
        → HasNoName image.now j → CanUnlink image.now i s j }
    ensures no_other { (i s j : ℕ) → CanUnlink image.now i s j → IsDirectory image.now j → HasNoName image.now j }
{}

/// States that a resized file has its first bytes in the abstract tree, or zeros after them, at each path that finds
/// it.
pub fn resized_files_get_their_size(old: &[u64], new: &[u64])
    requires { IsWellFormed old.now }
    ensures { (i size : ℕ) → AfterThaw (ResizesFile i size) old.now new.now → GetsSize i size old.now new.now }
{}

/// States that a file into which bytes were written has them in the abstract tree, at each path that finds it: in
/// place of its old bytes, and after zeros if they begin past its end.
pub fn written_files_get_their_bytes(old: &[u64], new: &[u64])
    requires { IsWellFormed old.now }
    ensures { (i offset : ℕ) (bytes : List ℕ) → AfterThaw (WritesFile i offset bytes) old.now new.now →
        GetsBytes i offset bytes old.now new.now }
{}

/// States that files into which the pieces of a batch were written have them in the abstract tree, one piece after the
/// other, at each path that finds one of the files.
pub fn overwritten_files_get_their_bytes(old: &[u64], new: &[u64])
    requires { IsWellFormed old.now }
    ensures { (pieces : List Piece) → OverwritesPieces pieces old.now new.now → GetsPieces pieces old.now new.now }
{}
