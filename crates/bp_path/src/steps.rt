//! Walks: a path is resolved name by name from the root directory on.

ghost use Rattle.std.specs.Prelude.{◌≡◌, ◌≢◌, ◌≤◌, [], true, length, Some, IfOk, IfErr};
ghost use Rattle.std.specs.List.{list_all};
ghost use Rattle.bp_layout.specs.Inode.{IsDirectory, root_of, size_of};
ghost use Rattle.bp_layout.specs.Directory.{ino_at, slot_named};
ghost use Rattle.bp_layout.specs.Hints.{AreRight};
ghost use Rattle.bp_limits.specs.Limits.{root_ino};
ghost use Rattle.bp_limits.specs.CallLimits.{max_name};
ghost use Rattle.bp_layout.specs.Lookup.{lookup};
ghost use Rattle.bp_layout.specs.Paths.{is_name};
ghost use Rattle.bp_layout.specs.Reached.{IsReached};
ghost use Rattle.bp_layout.specs.WellFormed.{IsWellFormed};
ghost use Rattle.pm_region.specs.Memory.{words_in};
ghost use Rattle.bp_path.specs.Names.{path_parts};
ghost use Rattle.bp_path.specs.Walk.{walk_from};
ghost use Rattle.bp_path.specs.FoundEntries.{FailsAt, FindsParent, IsEntryOf, WalksToParent, walked_of};

use crate::names::{split_first, split_last};
use crate::path::Path;
use bp_layout::{Hints, Kind};
use bp_limits::ROOT_INO;
use bp_read::inodes::{get, get_in, inode_file};
use bp_read::{Finder, Hinted, Scan, Tree};
use pm_region::Region;

/// The directory entry that a path finds, and the inode to which it refers. The path `/` has an inode and no entry.
#[derive(Clone, Copy, Debug, PartialEq, Eq)]
pub struct FoundEntry {
    /// The number of the inode.
    pub ino: u32,
    /// The number of the directory's inode; 0 for `/`.
    pub dir: u32,
    /// The entry's slot in the directory; 0 for `/`.
    pub slot: u64,
}

/// Why a path finds nothing: how the first of its names that fails does so.
#[derive(Clone, Copy, Debug, PartialEq, Eq)]
pub enum WalkFault {
    /// The name is searched for in a directory that does not have it.
    NotFound,
    /// The name is searched for in a file.
    NotDir,
}

/// Returns the entry of a name in a directory, and its inode. `inodes` is the tree of the inode file.
///
/// # Errors
///
/// - `NotDir`: the name is searched for in a file.
/// - `NotFound`: the directory does not have it.
fn step<R: Region, F: Finder>(
    region: &R,
    inodes: Tree,
    dir: u32,
    name: &[u8],
    finder: &mut F,
) -> Result<FoundEntry, WalkFault>
    requires root { inodes.root ≡ root_of (words_in R.memory region.now) 0 }
    requires size { inodes.size ≡ size_of (words_in R.memory region.now) 0 }
    requires well { IsWellFormed (words_in R.memory region.now) }
    requires reached { IsReached (words_in R.memory region.now) dir }
    requires some { 1 ≤ dir }
    requires short { length name.now ≤ max_name }
    requires right { F.right finder.old (words_in R.memory region.now) }
    ensures kind { IfOk result (λ entry. IsDirectory (words_in R.memory region.now) dir) }
    ensures dir { IfOk result (λ entry. entry.dir ≡ dir) }
    ensures slot { let words = words_in R.memory region.now in
        IfOk result (λ entry. slot_named words dir name.now ≡ Some entry.slot) }
    ensures ino { let words = words_in R.memory region.now in
        IfOk result (λ entry. ino_at words dir entry.slot ≡ entry.ino) }
    ensures fault { IfErr result (FailsAt (words_in R.memory region.now) dir name.now) }
    ensures right { F.right finder.new (words_in R.memory region.now) }
    ensures references { F.same_references finder.old finder.new }
{
    let inode = get_in(region, inodes, dir);
    let tree = Tree::of(&inode);
    match inode.kind {
        Kind::File => Err(WalkFault::NotDir),
        Kind::Dir => match finder.find(region, dir, tree, name) {
            None => Err(WalkFault::NotFound),
            Some(found) => Ok(FoundEntry {
                ino: found.ino as u32,
                dir,
                slot: found.slot,
            }),
        },
    }
}

/// Returns the entry and the inode to which names lead that are separated by `/`.
fn walk_names<R: Region, F: Finder>(
    region: &R,
    text: &[u8],
    finder: &mut F,
) -> Result<FoundEntry, WalkFault>
    requires well { IsWellFormed (words_in R.memory region.now) }
    requires names { list_all is_name (path_parts text.now) ≡ true }
    requires right { F.right finder.old (words_in R.memory region.now) }
    ensures walked { let words = words_in R.memory region.now in
        walked_of result ≡ walk_from words root_ino (path_parts text.now) }
    ensures lookup { let words = words_in R.memory region.now in
        IfOk result (λ entry. lookup words (path_parts text.now) ≡ Some entry.ino) }
    ensures entry { IfOk result (λ entry. IsEntryOf (words_in R.memory region.now) (path_parts text.now) entry) }
    ensures reached { IfOk result (λ entry. IsReached (words_in R.memory region.now) entry.ino) }
    ensures some { IfOk result (λ entry. 1 ≤ entry.ino) }
    ensures right { F.right finder.new (words_in R.memory region.now) }
    ensures references { F.same_references finder.old finder.new }
{
    let inodes = inode_file(region);
    let mut entry = FoundEntry {
        ino: ROOT_INO,
        dir: 0,
        slot: 0,
    };
    let mut rest = text;
    while !rest.is_empty() {
        let (name, following) = split_first(rest);
        entry = step(region, inodes, entry.ino, name, finder)?;
        rest = following;
    }
    Ok(entry)
}

/// Returns the entry and the inode that a path finds.
///
/// # Errors
///
/// The first name that fails decides.
///
/// - `NotDir`: the name is searched for in a file.
/// - `NotFound`: the directory does not have it.
pub fn walk<R: Region>(region: &R, path: &Path<'_>) -> Result<FoundEntry, WalkFault>
    requires { IsWellFormed (words_in R.memory region.now) }
    ensures walked { walked_of result ≡ walk_from (words_in R.memory region.now) root_ino path.now }
    ensures lookup { let words = words_in R.memory region.now in
        IfOk result (λ entry. lookup words path.now ≡ Some entry.ino) }
    ensures entry { IfOk result (λ entry. IsEntryOf (words_in R.memory region.now) path.now entry) }
    ensures reached { IfOk result (λ entry. IsReached (words_in R.memory region.now) entry.ino) }
    ensures some { IfOk result (λ entry. 1 ≤ entry.ino) }
{
    walk_by(region, path, &mut Scan)
}

/// Returns what [`walk`] returns, by a finder of the names in the directories.
///
/// # Errors
///
/// Those of [`walk`].
pub fn walk_by<R: Region, F: Finder>(
    region: &R,
    path: &Path<'_>,
    finder: &mut F,
) -> Result<FoundEntry, WalkFault>
    requires well { IsWellFormed (words_in R.memory region.now) }
    requires right { F.right finder.old (words_in R.memory region.now) }
    ensures walked { walked_of result ≡ walk_from (words_in R.memory region.now) root_ino path.now }
    ensures lookup { let words = words_in R.memory region.now in
        IfOk result (λ entry. lookup words path.now ≡ Some entry.ino) }
    ensures entry { IfOk result (λ entry. IsEntryOf (words_in R.memory region.now) path.now entry) }
    ensures reached { IfOk result (λ entry. IsReached (words_in R.memory region.now) entry.ino) }
    ensures some { IfOk result (λ entry. 1 ≤ entry.ino) }
    ensures right { F.right finder.new (words_in R.memory region.now) }
    ensures references { F.same_references finder.old finder.new }
{
    walk_names(region, path.text(), finder)
}

/// Returns what [`walk`] returns, by hints. It does not scan a directory for a name whose slot the hints know, and the
/// hints learn the slots of the others.
///
/// # Errors
///
/// Those of [`walk`].
pub fn walk_with<R: Region, H: Hints>(
    region: &R,
    path: &Path<'_>,
    hints: &mut H,
) -> Result<FoundEntry, WalkFault>
    requires well { IsWellFormed (words_in R.memory region.now) }
    requires right { AreRight (words_in R.memory region.now) (H.known hints.old) }
    ensures walked { walked_of result ≡ walk_from (words_in R.memory region.now) root_ino path.now }
    ensures lookup { let words = words_in R.memory region.now in
        IfOk result (λ entry. lookup words path.now ≡ Some entry.ino) }
    ensures entry { IfOk result (λ entry. IsEntryOf (words_in R.memory region.now) path.now entry) }
    ensures reached { IfOk result (λ entry. IsReached (words_in R.memory region.now) entry.ino) }
    ensures some { IfOk result (λ entry. 1 ≤ entry.ino) }
    ensures right { AreRight (words_in R.memory region.now) (H.known hints.new) }
{
    let mut finder = Hinted { hints };
    walk_by(region, path, &mut finder)
}

/// Returns the parent directory of the last name of a path.
///
/// # Errors
///
/// - Those of a walk to the parent.
/// - `NotDir`: the parent is a file.
pub fn walk_parent<R: Region>(region: &R, path: &Path<'_>) -> Result<u32, WalkFault>
    requires well { IsWellFormed (words_in R.memory region.now) }
    requires below { path.now ≢ [] }
    ensures walked { WalksToParent (words_in R.memory region.now) path.now result }
    ensures lookup { FindsParent (words_in R.memory region.now) path.now result }
    ensures kind { IfOk result (λ dir. IsDirectory (words_in R.memory region.now) dir) }
    ensures reached { IfOk result (λ dir. IsReached (words_in R.memory region.now) dir) }
    ensures some { IfOk result (λ dir. 1 ≤ dir) }
{
    walk_parent_by(region, path, &mut Scan)
}

/// Returns what [`walk_parent`] returns, by a finder of the names in the directories.
///
/// # Errors
///
/// Those of [`walk_parent`].
pub fn walk_parent_by<R: Region, F: Finder>(
    region: &R,
    path: &Path<'_>,
    finder: &mut F,
) -> Result<u32, WalkFault>
    requires well { IsWellFormed (words_in R.memory region.now) }
    requires below { path.now ≢ [] }
    requires right { F.right finder.old (words_in R.memory region.now) }
    ensures walked { WalksToParent (words_in R.memory region.now) path.now result }
    ensures lookup { FindsParent (words_in R.memory region.now) path.now result }
    ensures kind { IfOk result (λ dir. IsDirectory (words_in R.memory region.now) dir) }
    ensures reached { IfOk result (λ dir. IsReached (words_in R.memory region.now) dir) }
    ensures some { IfOk result (λ dir. 1 ≤ dir) }
    ensures right { F.right finder.new (words_in R.memory region.now) }
    ensures references { F.same_references finder.old finder.new }
{
    let (parent, _) = split_last(path.text());
    let dir = walk_names(region, parent, finder)?.ino;
    match get(region, dir).kind {
        Kind::File => Err(WalkFault::NotDir),
        Kind::Dir => Ok(dir),
    }
}

/// Returns what [`walk_parent`] returns, by hints. It does not scan a directory for a name whose slot the hints know,
/// and the hints learn the slots of the others.
///
/// # Errors
///
/// Those of [`walk_parent`].
pub fn walk_parent_with<R: Region, H: Hints>(
    region: &R,
    path: &Path<'_>,
    hints: &mut H,
) -> Result<u32, WalkFault>
    requires well { IsWellFormed (words_in R.memory region.now) }
    requires below { path.now ≢ [] }
    requires right { AreRight (words_in R.memory region.now) (H.known hints.old) }
    ensures walked { WalksToParent (words_in R.memory region.now) path.now result }
    ensures lookup { FindsParent (words_in R.memory region.now) path.now result }
    ensures kind { IfOk result (λ dir. IsDirectory (words_in R.memory region.now) dir) }
    ensures reached { IfOk result (λ dir. IsReached (words_in R.memory region.now) dir) }
    ensures some { IfOk result (λ dir. 1 ≤ dir) }
    ensures right { AreRight (words_in R.memory region.now) (H.known hints.new) }
{
    let mut finder = Hinted { hints };
    walk_parent_by(region, path, &mut finder)
}
