//! Theorems on the meaning of an image. Each is the contract of a function with an empty body.

ghost use Rattle.std.specs.Prelude.{None, Some, [], ℕ, ◌*◌, ◌∷◌, ◌↔◌, ◌≡◌, ◌≤◌, false, length};
ghost use Rattle.bp_layout.specs.Checks.{NoneFails};
ghost use Rattle.bp_layout.specs.Formatted.{IsFormatted, version_of};
ghost use Rattle.bp_layout.specs.Paths.{Name, Path, no_attributes};
ghost use Rattle.bp_layout.specs.Format.{formatted, upgraded, upgraded_to_three};
ghost use Rattle.bp_limits.specs.declared.version.Version.TheVariants.{Three, Two};
ghost use Rattle.bp_layout.specs.Inode.{AreClear, IsDirectory};
ghost use Rattle.bp_limits.specs.CallLimits.{allows_attributes};
ghost use Rattle.bp_limits.specs.Limits.{block_words, max_blocks, min_blocks};
ghost use Rattle.bp_layout.specs.Lookup.{find_one, lookup, shown};
ghost use Rattle.bp_layout.specs.Paths.Node.{dir};
ghost use Rattle.bp_layout.specs.Trees.{has_snapshot};
ghost use Rattle.bp_layout.specs.WellFormed.{IsWellFormed};
ghost use Rattle.bp_layout.specs.Whole.{IsFileSystem, NoneFailsWhole};

use bp_limits::Version;

/// States that the first tree of an image is well formed exactly if the image is formatted and no check of that tree
/// fails at any place.
pub fn well_formed_by_checks(image: &[u64])
    ensures { IsWellFormed image.now ↔ (IsFormatted image.now × NoneFails image.now) }
{}

/// States that an image is a file system exactly if it is formatted and no check of either tree fails at any place.
pub fn file_system_by_checks(image: &[u64])
    ensures { IsFileSystem image.now ↔ (IsFormatted image.now × NoneFailsWhole image.now) }
{}

/// States that a format over any words makes a file system of its version, without a snapshot, whose only path is the
/// root directory.
pub fn format_shows_the_root(image: &[u64], version: Version, blocks: u64)
    requires whole { length image.now ≡ block_words * blocks }
    requires least { min_blocks ≤ blocks }
    requires most { blocks ≤ max_blocks }
    ensures well_formed { IsFileSystem (formatted image.now version blocks) }
    ensures single { has_snapshot (formatted image.now version blocks) ≡ false }
    ensures version { version_of (formatted image.now version blocks) ≡ version }
    ensures root { shown (formatted image.now version blocks) [] ≡ Some (dir no_attributes) }
    ensures alone { (name : Name) (path : Path) → shown (formatted image.now version blocks) (name ∷ path) ≡ None }
{}

/// States that an upgrade makes a well-formed image a file system of version 2, without a snapshot, with the same
/// contents at each path if the image's version has no attributes.
pub fn upgrade_shows_the_same(image: &[u64])
    requires { IsWellFormed image.now }
    ensures well_formed { IsFileSystem (upgraded image.now) }
    ensures single { has_snapshot (upgraded image.now) ≡ false }
    ensures version { version_of (upgraded image.now) ≡ Two }
    ensures shows { allows_attributes (version_of image.now) ≡ false
        → (path : Path) → shown (upgraded image.now) path ≡ shown image.now path }
    ensures one { (p q : Path) → find_one (upgraded image.now) p q ≡ find_one image.now p q }
{}

/// States that an upgrade to version 3 makes a well-formed image a file system of version 3, without a snapshot. The
/// contents at each path are the same if the image's version has no attributes and the words that become attributes
/// are 0.
pub fn upgrade_to_three_shows_the_same(image: &[u64])
    requires { IsWellFormed image.now }
    ensures well_formed { IsFileSystem (upgraded_to_three image.now) }
    ensures single { has_snapshot (upgraded_to_three image.now) ≡ false }
    ensures version { version_of (upgraded_to_three image.now) ≡ Three }
    ensures shows { AreClear image.now → allows_attributes (version_of image.now) ≡ false
        → (path : Path) → shown (upgraded_to_three image.now) path ≡ shown image.now path }
    ensures one { (p q : Path) → find_one (upgraded_to_three image.now) p q ≡ find_one image.now p q }
{}

/// States that a directory of a well-formed image has only one path.
pub fn directory_has_one_path(image: &[u64])
    requires { IsWellFormed image.now }
    ensures { (one other : Path) (i : ℕ) → lookup image.now one ≡ Some i → lookup image.now other ≡ Some i
        → IsDirectory image.now i → one ≡ other }
{}
