//! Theorems on the abstract tree that an image represents.

ghost use Rattle.bp_layout.specs.Format.{formatted};
ghost use Rattle.bp_limits.specs.Limits.{max_blocks, min_blocks};
ghost use Rattle.bp_layout.specs.Trees.{has_snapshot, snapshot_of};
ghost use Rattle.bp_layout.specs.WellFormed.{IsWellFormed};
ghost use Rattle.bp_plain.specs.Export.{AllDone, HasShortPaths, IsExportable, IsOfBytes, IsWalked, export_calls, without_snapshot};
ghost use Rattle.bp_plain.specs.PlainTree.{FileTree, IsFileTree, PathMap, IsPathMap, empty_tree};
ghost use Rattle.bp_plain.specs.Stands.{ShowsOne, Stands, StandsForOne};
ghost use Rattle.std.specs.Prelude.{◌*◌, ◌≡◌, ◌≤◌, length, true};

use bp_limits::Version;

/// States that a well-formed image has exactly one map of paths.
pub fn one_map(_image: &[u64])
    requires { IsWellFormed _image.now }
    ensures { ShowsOne _image.now }
{}

/// States that an image represents exactly one abstract tree, if it is well formed and so is its snapshot, if any.
pub fn one_tree(_image: &[u64])
    requires first { IsWellFormed _image.now }
    requires second { has_snapshot _image.now ≡ true → IsWellFormed (snapshot_of _image.now) }
    ensures { StandsForOne _image.now }
{}

/// States that the abstract tree of an image has a directory at its root and above each other path.
pub fn file_tree(_image: &[u64])
    ensures { (tree : FileTree) → Stands _image.now tree → IsFileTree tree }
{}

/// States that formatting any words as an image of `_blocks` blocks makes an image of the empty tree of that version.
pub fn format_is_empty(_image: &[u64], _version: Version, _blocks: u64)
    requires whole { length _image.now ≡ 512 * _blocks }
    requires least { min_blocks ≤ _blocks }
    requires most { _blocks ≤ max_blocks }
    ensures { Stands (formatted _image.now _version _blocks) (empty_tree _version) }
{}

/// States that all calls of a tree's export succeed, applied one after the other to the empty tree of its version, and
/// make that tree without its snapshot.
pub fn exports_come_back()
    ensures { (tree : FileTree) → IsExportable tree →
        AllDone (empty_tree tree.version) (export_calls tree) (without_snapshot tree) }
{}

/// States that the entries of a map are those that a walk finds, in the same order: for a directory its own entry, and
/// then those at and below each of its names.
pub fn trees_are_walked()
    ensures { (map : PathMap) → IsPathMap map → IsWalked map }
{}

/// States that the tree of an image consists of bytes and can be exported, if each of its paths is short enough for a
/// call.
pub fn images_are_exportable(_image: &[u64])
    ensures { (tree : FileTree) → Stands _image.now tree → HasShortPaths tree → IsExportable tree × IsOfBytes tree }
{}
