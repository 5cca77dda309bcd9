//! Where the path of a call leads.

ghost use Rattle.std.specs.Prelude.{◌≡◌, ◌≢◌, ◌≤◌, IfErr, IfOk, IfSome, IsTrue, Some, [], length, unwrap_or};
ghost use Rattle.bp_cache.specs.Cache.{IsCacheOf};
ghost use Rattle.bp_read.specs.Spots.{FreeIs, found_slot, named_slot};
ghost use Rattle.bp_layout.specs.Directory.{empty_slot, entry_count, ino_at, slot_named};
ghost use Rattle.bp_layout.specs.Inode.{IsDirectory, IsFile, size_of};
ghost use Rattle.bp_layout.specs.Lookup.{lookup};
ghost use Rattle.bp_layout.specs.Paths.{Path as PathNames, is_name};
ghost use Rattle.bp_limits.specs.CallLimits.{max_name};
ghost use Rattle.bp_layout.specs.Reached.{IsReached};
ghost use Rattle.bp_layout.specs.WellFormed.{IsWellFormed};
ghost use Rattle.bp_path.specs.FoundEntries.{fault_of};
ghost use Rattle.bp_plain.specs.Calls.{Refusal};
ghost use Rattle.bp_plain.specs.Seen.{refusal_of};
ghost use Rattle.bp_volume.specs.Renaming.{IsNameIn, IsTarget};
ghost use Rattle.bp_fs.specs.Step.{FindsEntry, IsEntryOn, IsNewOn, FindsNew, PathFinds};
ghost use Rattle.bp_volume.specs.Queries.{RefusesEntry, RefusesFileAt, RefusesNew, RefusesParent, RefusesWalk, refusal_of_walk};
ghost use Rattle.bp_volume.specs.Queries.{StopsAtEntry, StopsAtFile, StopsAtNew, StopsWalk};
ghost use Rattle.pm_region.specs.Memory.{words_in};

use bp_cache::{DirectoryCache, NameAt};
use bp_layout::Kind;
use bp_limits::ENTRY_SIZE;
use bp_path::{BadPath, FoundEntry, Path, WalkFault, parse, walk_by, walk_parent_by};
use bp_plain::FsError;
use bp_read::directory::entry_ino;
use bp_read::inodes::{get, tree_of};
use bp_read::{Both, Finder, Spot};
use pm_region::Region;

/// A name that a directory does not have.
#[derive(Clone, Copy)]
pub(crate) struct NewName<'a> {
    /// The directory's inode.
    pub dir: u32,
    /// The name.
    pub name: &'a [u8],
    /// The least slot of the directory whose entry is empty; `None` if there is none.
    pub slot: Option<u64>,
}

impl<'a> NewName<'a> {
    /// Returns the name, in the slot that it gets.
    pub fn at(&self, slot: u64) -> NameAt<'a>
        ensures dir { result.dir ≡ self.now.dir }
        ensures name { result.name.now ≡ self.now.name.now }
        ensures slot { result.slot ≡ slot }
    {
        NameAt {
            dir: self.dir,
            name: self.name,
            slot,
        }
    }
}

/// A name in a directory, whether the directory has it or not.
#[derive(Clone, Copy)]
pub(crate) struct Target<'a> {
    /// The directory's inode.
    pub dir: u32,
    /// The name.
    pub name: &'a [u8],
    /// The entry that has this name; `None` if there is none.
    pub there: Option<FoundEntry>,
    /// If no entry has this name, the least slot of the directory whose entry is empty; `None` if there is none.
    pub empty: Option<u64>,
}

impl<'a> Target<'a> {
    /// Returns the name, in the given slot.
    pub fn at(&self, slot: u64) -> NameAt<'a>
        ensures dir { result.dir ≡ self.now.dir }
        ensures name { result.name.now ≡ self.now.name.now }
        ensures slot { result.slot ≡ slot }
    {
        NameAt {
            dir: self.dir,
            name: self.name,
            slot,
        }
    }
}

/// An entry, and the name by which it was found.
#[derive(Clone, Copy)]
pub(crate) struct NamedEntry<'a> {
    /// The number of the inode that it refers to.
    pub ino: u32,
    /// The directory's inode.
    pub dir: u32,
    /// The name.
    pub name: &'a [u8],
    /// The slot of the entry.
    pub slot: u64,
}

impl<'a> NamedEntry<'a> {
    /// Returns the name, in its slot.
    pub fn at(&self) -> NameAt<'a>
        ensures dir { result.dir ≡ self.now.dir }
        ensures name { result.name.now ≡ self.now.name.now }
        ensures slot { result.slot ≡ self.now.slot }
    {
        NameAt {
            dir: self.dir,
            name: self.name,
            slot: self.slot,
        }
    }
}

/// A file that a path finds.
#[derive(Clone, Copy)]
pub(crate) struct FoundFile {
    /// The number of its inode.
    pub ino: u32,
    /// Its size in bytes.
    pub size: u64,
}

/// Returns the refusal of a call whose path finds nothing.
pub(crate) fn refused(fault: WalkFault) -> FsError
    ensures { refusal_of_walk (fault_of fault) ≡ Some (refusal_of result) }
{
    match fault {
        WalkFault::NotFound => FsError::NotFound,
        WalkFault::NotDir => FsError::NotDir,
    }
}

/// Returns the refusal of a call whose path text is no path.
pub(crate) fn bad_path(_: BadPath) -> FsError
    ensures { result ≡ FsError.BadPath }
{
    FsError::BadPath
}

/// Returns the inode at a path.
pub(crate) fn inode_on<R: Region, F: Finder>(
    region: &R,
    finder: &mut F,
    path: &Path<'_>,
) -> Result<u32, FsError>
    requires well_formed { IsWellFormed (words_in R.memory region.now) }
    requires right { F.right finder.old (words_in R.memory region.now) }
    ensures found { IfOk result (λ i. lookup (words_in R.memory region.now) path.now ≡ Some i) }
    ensures stopped { IfErr result (λ e. RefusesWalk (words_in R.memory region.now) path.now (refusal_of e)) }
    ensures right { F.right finder.new (words_in R.memory region.now) }
{
    let entry = walk_by(region, path, finder).map_err(refused)?;
    Ok(entry.ino)
}

/// Returns the inode at a path text.
pub(crate) fn inode_at<R: Region, F: Finder>(
    region: &R,
    finder: &mut F,
    text: &[u8],
) -> Result<u32, FsError>
    requires well_formed { IsWellFormed (words_in R.memory region.now) }
    requires right { F.right finder.old (words_in R.memory region.now) }
    ensures found { IfOk result (λ i. PathFinds (words_in R.memory region.now) text.now i) }
    ensures stopped { IfErr result (λ e. StopsWalk (words_in R.memory region.now) text.now (refusal_of e)) }
    ensures right { F.right finder.new (words_in R.memory region.now) }
{
    let path = parse(text).map_err(bad_path)?;
    inode_on(region, finder, &path)
}

/// Returns the file at a path.
pub(crate) fn file_on<R: Region, F: Finder>(
    region: &R,
    finder: &mut F,
    path: &Path<'_>,
) -> Result<FoundFile, FsError>
    requires well_formed { IsWellFormed (words_in R.memory region.now) }
    requires right { F.right finder.old (words_in R.memory region.now) }
    ensures found { IfOk result (λ file. lookup (words_in R.memory region.now) path.now ≡ Some file.ino) }
    ensures kind { IfOk result (λ file. IsFile (words_in R.memory region.now) file.ino) }
    ensures size { IfOk result (λ file. file.size ≡ size_of (words_in R.memory region.now) file.ino) }
    ensures refused { IfErr result (λ e. RefusesFileAt (words_in R.memory region.now) path.now (refusal_of e)) }
    ensures right { F.right finder.new (words_in R.memory region.now) }
{
    let ino = inode_on(region, finder, path)?;
    let inode = get(region, ino);
    match inode.kind {
        Kind::File => Ok(FoundFile {
            ino: ino,
            size: inode.size,
        }),
        Kind::Dir => Err(FsError::IsDir),
    }
}

/// Returns the file at a path text.
pub(crate) fn file_at<R: Region, F: Finder>(
    region: &R,
    finder: &mut F,
    text: &[u8],
) -> Result<FoundFile, FsError>
    requires well_formed { IsWellFormed (words_in R.memory region.now) }
    requires right { F.right finder.old (words_in R.memory region.now) }
    ensures found { IfOk result (λ file. PathFinds (words_in R.memory region.now) text.now file.ino) }
    ensures kind { IfOk result (λ file. IsFile (words_in R.memory region.now) file.ino) }
    ensures size { IfOk result (λ file. file.size ≡ size_of (words_in R.memory region.now) file.ino) }
    ensures refused { IfErr result (λ e. StopsAtFile (words_in R.memory region.now) text.now (refusal_of e)) }
    ensures right { F.right finder.new (words_in R.memory region.now) }
{
    let path = parse(text).map_err(bad_path)?;
    file_on(region, finder, &path)
}

/// Returns the entry at a path below the root directory.
pub(crate) fn entry_on<'a, R: Region>(
    region: &R,
    cache: &mut DirectoryCache,
    path: &Path<'a>,
) -> Result<NamedEntry<'a>, FsError>
    requires well_formed { IsWellFormed (words_in R.memory region.now) }
    requires below { path.now ≢ [] }
    requires right { IsCacheOf (words_in R.memory region.now) cache.old }
    ensures found { IfOk result
        (λ entry. IsEntryOn (words_in R.memory region.now) path.now entry.dir entry.slot entry.ino) }
    ensures named { IfOk result
        (λ entry. slot_named (words_in R.memory region.now) entry.dir entry.name.now ≡ Some entry.slot) }
    ensures refused { IfErr result
        (λ e. (root : Refusal) → RefusesEntry (words_in R.memory region.now) path.now root (refusal_of e)) }
    ensures right { IsCacheOf (words_in R.memory region.now) cache.new }
{
    let entry = walk_by(region, path, cache).map_err(refused)?;
    Ok(NamedEntry {
        ino: entry.ino,
        dir: entry.dir,
        name: path.last(),
        slot: entry.slot,
    })
}

/// Returns the entry by which a path text finds a file or directory. The root directory has no entry: there the error
/// is `root`.
pub(crate) fn entry_at<'a, R: Region>(
    region: &R,
    cache: &mut DirectoryCache,
    text: &'a [u8],
    root: FsError,
) -> Result<NamedEntry<'a>, FsError>
    requires well_formed { IsWellFormed (words_in R.memory region.now) }
    requires right { IsCacheOf (words_in R.memory region.now) cache.old }
    ensures found { IfOk result
        (λ entry. FindsEntry (words_in R.memory region.now) text.now entry.dir entry.slot entry.ino) }
    ensures named { IfOk result
        (λ entry. slot_named (words_in R.memory region.now) entry.dir entry.name.now ≡ Some entry.slot) }
    ensures refused { IfErr result
        (λ e. StopsAtEntry (words_in R.memory region.now) text.now (refusal_of root) (refusal_of e)) }
    ensures right { IsCacheOf (words_in R.memory region.now) cache.new }
{
    let path = parse(text).map_err(bad_path)?;
    if path.is_root() {
        return Err(root);
    }
    entry_on(region, cache, &path)
}

/// Returns where a directory has a name, or where it has room for it.
fn spot_of<R: Region>(region: &R, cache: &mut DirectoryCache, dir: u32, name: &[u8]) -> Spot
    requires well_formed { IsWellFormed (words_in R.memory region.now) }
    requires reached { IsReached (words_in R.memory region.now) dir }
    requires inode { 1 ≤ dir }
    requires directory { IsDirectory (words_in R.memory region.now) dir }
    requires short { length name.now ≤ max_name }
    requires right { IsCacheOf (words_in R.memory region.now) cache.old }
    ensures named { named_slot result ≡ slot_named (words_in R.memory region.now) dir name.now }
    ensures free { FreeIs result (empty_slot (words_in R.memory region.now) dir) }
    ensures right { IsCacheOf (words_in R.memory region.now) cache.new }
{
    cache.find_or_free(region, dir, tree_of(region, dir), name)
}

/// Returns the slot for a new name of a directory, given its least empty slot: that slot, or the one after the last
/// entry if no entry is empty.
pub(crate) fn slot_for<R: Region>(region: &R, dir: u32, empty: Option<u64>) -> u64
    requires well_formed { IsWellFormed (words_in R.memory region.now) }
    requires reached { IsReached (words_in R.memory region.now) dir }
    requires inode { 1 ≤ dir }
    requires empty { empty ≡ empty_slot (words_in R.memory region.now) dir }
    ensures { let words = words_in R.memory region.now in
        result ≡ unwrap_or (empty_slot words dir) (entry_count words dir) }
{
    match empty {
        Some(slot) => slot,
        None => tree_of(region, dir).size / ENTRY_SIZE,
    }
}

/// Returns the last name of a path below the root directory, if its directory does not have it yet.
fn last_name<'a, R: Region>(
    region: &R,
    cache: &mut DirectoryCache,
    path: &Path<'a>,
) -> Result<NewName<'a>, FsError>
    requires well_formed { IsWellFormed (words_in R.memory region.now) }
    requires below { path.now ≢ [] }
    requires right { IsCacheOf (words_in R.memory region.now) cache.old }
    ensures found { IfOk result (λ new. IsNewOn (words_in R.memory region.now) path.now new.dir new.name.now) }
    ensures slot { IfOk result (λ new. new.slot ≡ empty_slot (words_in R.memory region.now) new.dir) }
    ensures refused { IfErr result (λ e. RefusesNew (words_in R.memory region.now) path.now (refusal_of e)) }
    ensures right { IsCacheOf (words_in R.memory region.now) cache.new }
{
    let dir = walk_parent_by(region, path, cache).map_err(refused)?;
    let name = path.last();
    match spot_of(region, cache, dir, name) {
        Spot::Named(_) => Err(FsError::Exists),
        Spot::Free(slot) => Ok(NewName { dir, name, slot }),
    }
}

/// Returns a name in a directory and the entry that has it, as found by a search for it.
pub(crate) fn target_in<'a, R: Region>(
    region: &R,
    dir: u32,
    name: &'a [u8],
    spot: Spot,
) -> Target<'a>
    requires well_formed { IsWellFormed (words_in R.memory region.now) }
    requires reached { IsReached (words_in R.memory region.now) dir }
    requires inode { 1 ≤ dir }
    requires directory { IsDirectory (words_in R.memory region.now) dir }
    requires form { IsTrue (is_name name.now) }
    requires named { named_slot spot ≡ slot_named (words_in R.memory region.now) dir name.now }
    requires free { FreeIs spot (empty_slot (words_in R.memory region.now) dir) }
    ensures { let words = words_in R.memory region.now in
        (path : PathNames) → IsNameIn words path dir name.now → IsTarget words path result }
{
    match spot {
        Spot::Named(slot) => {
            let entry = FoundEntry {
                ino: entry_ino(region, tree_of(region, dir), slot) as u32,
                dir,
                slot,
            };
            Target {
                dir,
                name,
                there: Some(entry),
                empty: None,
            }
        }
        Spot::Free(empty) => Target {
            dir,
            name,
            there: None,
            empty,
        },
    }
}

/// Returns the last name of a path below the root directory, and the entry that has it, if any.
pub(crate) fn target_on<'a, R: Region>(
    region: &R,
    cache: &mut DirectoryCache,
    path: &Path<'a>,
) -> Result<Target<'a>, FsError>
    requires well_formed { IsWellFormed (words_in R.memory region.now) }
    requires below { path.now ≢ [] }
    requires right { IsCacheOf (words_in R.memory region.now) cache.old }
    ensures found { IfOk result (λ target. IsTarget (words_in R.memory region.now) path.now target) }
    ensures refused { IfErr result (λ e. RefusesParent (words_in R.memory region.now) path.now (refusal_of e)) }
    ensures right { IsCacheOf (words_in R.memory region.now) cache.new }
{
    let dir = walk_parent_by(region, path, cache).map_err(refused)?;
    let name = path.last();
    let spot = spot_of(region, cache, dir, name);
    Ok(target_in(region, dir, name, spot))
}

/// Returns where a directory has one name, and where it has another name or room for it.
pub(crate) fn both_of<R: Region>(
    region: &R,
    cache: &mut DirectoryCache,
    dir: u32,
    one: &[u8],
    other: &[u8],
) -> Both
    requires well_formed { IsWellFormed (words_in R.memory region.now) }
    requires reached { IsReached (words_in R.memory region.now) dir }
    requires inode { 1 ≤ dir }
    requires directory { IsDirectory (words_in R.memory region.now) dir }
    requires one { length one.now ≤ max_name }
    requires other { length other.now ≤ max_name }
    requires right { IsCacheOf (words_in R.memory region.now) cache.old }
    ensures slot { found_slot result.found ≡ slot_named (words_in R.memory region.now) dir one.now }
    ensures ino { IfSome result.found
        (λ found. found.ino ≡ ino_at (words_in R.memory region.now) dir found.slot) }
    ensures named { named_slot result.spot ≡ slot_named (words_in R.memory region.now) dir other.now }
    ensures free { FreeIs result.spot (empty_slot (words_in R.memory region.now) dir) }
    ensures right { IsCacheOf (words_in R.memory region.now) cache.new }
{
    cache.find_both(region, dir, tree_of(region, dir), one, other)
}

/// Returns the directory and the name of a new entry at a path.
pub(crate) fn new_on<'a, R: Region>(
    region: &R,
    cache: &mut DirectoryCache,
    path: &Path<'a>,
) -> Result<NewName<'a>, FsError>
    requires well_formed { IsWellFormed (words_in R.memory region.now) }
    requires right { IsCacheOf (words_in R.memory region.now) cache.old }
    ensures found { IfOk result (λ new. IsNewOn (words_in R.memory region.now) path.now new.dir new.name.now) }
    ensures slot { IfOk result (λ new. new.slot ≡ empty_slot (words_in R.memory region.now) new.dir) }
    ensures refused { IfErr result (λ e. RefusesNew (words_in R.memory region.now) path.now (refusal_of e)) }
    ensures right { IsCacheOf (words_in R.memory region.now) cache.new }
{
    if path.is_root() {
        Err(FsError::Exists)
    } else {
        last_name(region, cache, path)
    }
}

/// Returns the directory and the name of a new entry at a path text.
pub(crate) fn new_name<'a, R: Region>(
    region: &R,
    cache: &mut DirectoryCache,
    text: &'a [u8],
) -> Result<NewName<'a>, FsError>
    requires well_formed { IsWellFormed (words_in R.memory region.now) }
    requires right { IsCacheOf (words_in R.memory region.now) cache.old }
    ensures found { IfOk result (λ new. FindsNew (words_in R.memory region.now) text.now new.dir new.name.now) }
    ensures slot { IfOk result (λ new. new.slot ≡ empty_slot (words_in R.memory region.now) new.dir) }
    ensures refused { IfErr result (λ e. StopsAtNew (words_in R.memory region.now) text.now (refusal_of e)) }
    ensures right { IsCacheOf (words_in R.memory region.now) cache.new }
{
    let path = parse(text).map_err(bad_path)?;
    new_on(region, cache, &path)
}
