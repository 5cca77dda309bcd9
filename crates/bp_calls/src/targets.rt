//! The words near which a change stores, before it is made.

ghost use Rattle.std.specs.Prelude.{◌≡◌, ◌+◌, ◌/◌, ◌<◌, ◌≤◌, [], ◌∷◌, ◌++◌, length};
ghost use Rattle.bp_calls.specs.CanWrite.{CanWrite};
ghost use Rattle.bp_calls.specs.Mounted.{image_in, IsMountedIn};
ghost use Rattle.bp_calls.specs.NearEnd.{AreTargetsAcross, AreTargetsPastEnd, AreTargetsLonger, AreTargetsShorter, ForTree};
ghost use Rattle.bp_changes.specs.Effects.{CanUnlink};
ghost use Rattle.bp_layout.specs.Directory.{entry_count, ino_at};
ghost use Rattle.bp_layout.specs.Inode.{root_of, size_of};
ghost use Rattle.bp_layout.specs.Need.{content_path_at, entry_path_at};
ghost use Rattle.bp_layout.specs.Need.Change.{leaves, resizes, writes};
ghost use Rattle.bp_layout.specs.Reached.{IsReached};
ghost use Rattle.bp_layout.specs.Thaw.{end_path_now, heights_now, root_path_now, targets};
ghost use Rattle.bp_layout.specs.WellFormed.{IsWellFormed};
ghost use Rattle.bp_layout.specs.Words.{height_of};
ghost use Rattle.bp_limits.specs.Limits.{max_height};
ghost use Rattle.bp_thaw.specs.Thaws.{paths_in};
ghost use Rattle.pm_region.specs.Memory.{words_in};

use crate::commit::{run_for, touched_by};
use arrayvec::ArrayVec;
use bp_cow::cover;
use bp_free::Parts;
use bp_layout::INO_WORD;
use bp_limits::{ENTRY_SIZE, WORD_SIZE};
use bp_read::inodes::{root_path, size_path, tree_of};
use bp_read::{Slots, Tree, word_path};
use pm_region::Region;
use pm_words::span;

/// The paths to these words. No change has more than eight.
pub type Targets = ArrayVec<Slots, 8>;

/// Returns the path of the word that holds a byte of a tree other than the inode file, given the tree.
pub(crate) fn content_path<R: Region>(region: &R, ino: u32, tree: Tree, offset: u64) -> Slots
    requires well_formed { IsWellFormed (words_in R.memory region.now) }
    requires reached { IsReached (words_in R.memory region.now) ino }
    requires some { 1 ≤ ino }
    requires root { tree.root ≡ root_of (words_in R.memory region.now) ino }
    requires below { offset < size_of (words_in R.memory region.now) ino }
    ensures { result.items ≡ content_path_at (heights_now (words_in R.memory region.now)) ino (offset / 8) }
{
    let mut path = root_path(region, ino);
    let within = word_path(tree, offset);
    match path.try_extend_from_slice(within.as_slice()) {
        Ok(()) => path,
        Err(_) => unreachable!(),
    }
}

/// Returns the path of the inode number of an entry.
pub fn entry_path<R: Region>(region: &R, dir: u32, slot: u64) -> Slots
    requires well_formed { IsWellFormed (words_in R.memory region.now) }
    requires reached { IsReached (words_in R.memory region.now) dir }
    requires some { 1 ≤ dir }
    requires live { slot < entry_count (words_in R.memory region.now) dir }
    ensures { result.items ≡ entry_path_at (heights_now (words_in R.memory region.now)) dir slot 0 }
{
    content_path(
        region,
        dir,
        tree_of(region, dir),
        slot * ENTRY_SIZE + WORD_SIZE * INO_WORD,
    )
}

/// Returns the target of the removal of the entry in `slot`: its inode number alone.
pub(crate) fn leaving<R: Region>(region: &R, dir: u32, slot: u64) -> Targets
    requires well_formed { IsWellFormed (words_in R.memory region.now) }
    requires can { CanUnlink (words_in R.memory region.now) dir slot
        (ino_at (words_in R.memory region.now) dir slot) }
    ensures { paths_in result ≡ targets (words_in R.memory region.now) (leaves dir slot) }
{
    let mut targets = Targets::new();
    targets.push(entry_path(region, dir, slot));
    targets
}

/// Returns the target of making a file no longer: the word of its size alone.
pub(crate) fn shrinking<R: Region>(region: &R, ino: u32) -> Targets
    requires well_formed { IsWellFormed (words_in R.memory region.now) }
    requires reached { IsReached (words_in R.memory region.now) ino }
    ensures { AreTargetsShorter (words_in R.memory region.now) ino (paths_in result) }
{
    let mut targets = Targets::new();
    targets.push(size_path(region, ino));
    targets
}

/// Returns a copy of a path.
fn copy_of(path: &Slots) -> Slots
    ensures { result.items ≡ path.now.items }
{
    let mut copy = Slots::new();
    match copy.try_extend_from_slice(path.as_slice()) {
        Ok(()) => copy,
        Err(_) => unreachable!(),
    }
}

/// Returns a word, and those near which bytes past the size of a file are stored.
fn with_end<R: Region>(region: &R, ino: u32, word: Slots) -> Targets
    requires well_formed { IsWellFormed (words_in R.memory region.now) }
    requires reached { IsReached (words_in R.memory region.now) ino }
    requires some { 1 ≤ ino }
    ensures { paths_in result ≡ word.items ∷ root_path_now (words_in R.memory region.now) ino
        ∷ end_path_now (words_in R.memory region.now) ino ∷ [] }
{
    let mut targets = Targets::new();
    targets.push(word);
    push_end(&mut targets, &root_path(region, ino), tree_of(region, ino));
    targets
}

/// Returns the targets of making a file longer, with zeros or with bytes past its size: the word of its size, and the
/// end of its tree.
pub(crate) fn lengthening<R: Region>(region: &R, ino: u32) -> Targets
    requires well_formed { IsWellFormed (words_in R.memory region.now) }
    requires reached { IsReached (words_in R.memory region.now) ino }
    requires some { 1 ≤ ino }
    ensures resizes { AreTargetsLonger (words_in R.memory region.now) ino (paths_in result) }
    ensures writes { AreTargetsPastEnd (words_in R.memory region.now) ino (paths_in result) }
{
    with_end(region, ino, size_path(region, ino))
}

/// Returns the targets of a write on both sides of a file's size: the pointer to the leaf with its inode, which holds
/// both the word of its size and its root word, and the end of its tree.
fn crossing<R: Region>(region: &R, ino: u32) -> Targets
    requires well_formed { IsWellFormed (words_in R.memory region.now) }
    requires reached { IsReached (words_in R.memory region.now) ino }
    requires some { 1 ≤ ino }
    ensures { AreTargetsAcross (words_in R.memory region.now) ino (paths_in result) }
{
    let mut leaf = size_path(region, ino);
    leaf.pop();
    with_end(region, ino, leaf)
}

/// Returns the target of a write below a file's size: the word that covers the bytes.
fn covering<R: Region>(parts: &Parts<R>, ino: u32, offset: u64, bytes: &[u8]) -> Targets
    requires mounted { IsMountedIn R.memory parts.now }
    requires can { CanWrite (image_in R.memory parts.now) ino offset bytes.now }
    requires below { offset + length bytes.now ≤ size_of (image_in R.memory parts.now) ino }
    ensures { paths_in result ≡ targets (image_in R.memory parts.now) (writes ino offset (length bytes.now)) }
{
    let tree = tree_of(&parts.region, ino);
    let runs = [run_for(&parts.region, ino, tree, offset, bytes)];
    let mut targets = Targets::new();
    targets.push(cover(&parts.region, &touched_by(&runs)));
    targets
}

/// Returns the targets of a write.
pub(crate) fn writing<R: Region>(parts: &Parts<R>, ino: u32, offset: u64, bytes: &[u8]) -> Targets
    requires mounted { IsMountedIn R.memory parts.now }
    requires can { CanWrite (image_in R.memory parts.now) ino offset bytes.now }
    ensures { paths_in result ≡ targets (image_in R.memory parts.now) (writes ino offset (length bytes.now)) }
{
    let size = tree_of(&parts.region, ino).size;
    if size <= offset {
        return lengthening(&parts.region, ino);
    }
    if offset + bytes.len() as u64 <= size {
        return covering(parts, ino, offset, bytes);
    }
    crossing(&parts.region, ino)
}

/// Returns the path of the word of the byte at the size of a tree, given the path of its root word. If the tree is
/// empty or too low for the byte, it is the path of the root word.
fn end_path(root: &Slots, tree: Tree) -> Slots
    requires low { 0 < tree.size → height_of tree.root ≤ max_height }
    requires short { length root.now.items ≤ 6 }
    ensures { ForTree root.now.items tree (λ image t. result.items ≡ end_path_now image t) }
{
    let mut path = copy_of(root);
    if tree.size == 0 || span(tree.height()) <= tree.size {
        return path;
    }
    let within = word_path(tree, tree.size);
    match path.try_extend_from_slice(within.as_slice()) {
        Ok(()) => path,
        Err(_) => unreachable!(),
    }
}

/// Adds the words near which bytes past the size of a tree are stored, given the path of its root word: that word, and
/// the word of the byte at the size.
pub fn push_end(targets: &mut Targets, root: &Slots, tree: Tree)
    requires low { 0 < tree.size → height_of tree.root ≤ max_height }
    requires short { length root.now.items ≤ 6 }
    requires few { length targets.old.items ≤ 6 }
    ensures { ForTree root.now.items tree (λ image t.
        paths_in targets.new ≡ paths_in targets.old ++ root_path_now image t ∷ end_path_now image t ∷ []) }
{
    let end = end_path(root, tree);
    targets.push(copy_of(root));
    targets.push(end);
}
