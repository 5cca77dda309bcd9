//! The cache of a volume's directories.

ghost use Rattle.std.specs.Prelude.{◌≡◌, ◌≤◌, length, IfOk, IfSome, ⊤};
ghost use Rattle.bp_cache.specs.Cache.{HasTree, IsCacheOf};
ghost use Rattle.bp_cache.specs.Changes.{NameEnters, NameLeaves, NameMoves, NameReplaces, name_in_directory};
ghost use Rattle.bp_cache.specs.Held.{ChangesOne, Enters, ForgetsBoth, Leaves};
ghost use Rattle.bp_cache.specs.Recalled.{IsRecalled};
ghost use Rattle.bp_read.specs.Spots.{FreeIs, found_slot, named_slot};
ghost use Rattle.bp_layout.specs.Directory.{empty_slot, ino_at, slot_named};
ghost use Rattle.bp_layout.specs.Hints.{IsSlotOf};
ghost use Rattle.bp_layout.specs.Inode.{IsDirectory, root_of, size_of};
ghost use Rattle.bp_layout.specs.Reached.{IsReached};
ghost use Rattle.bp_layout.specs.WellFormed.{IsWellFormed};
ghost use Rattle.bp_layout.specs.Words.{Image};
ghost use Rattle.bp_limits.specs.CallLimits.{max_name};
ghost use Rattle.bp_cache.specs.Names.{known_of};
ghost use Rattle.pm_region.specs.Memory.{words_in};

use crate::held::Held;
use crate::name_at::NameAt;
use crate::names::Names;
use crate::recalled::Recalled;
use crate::searches::Searches;
use bp_layout::Hints;
use bp_limits::ENTRY_SIZE;
use bp_read::directory::{entry_ino, find_both, find_entry, find_or_free};
use bp_read::{Both, Finder, Found, Spot, Tree};
use lru::LruCache;
use pm_region::Region;
use std::alloc::{AllocError, Global};
use std::num::NonZeroUsize;

/// The greatest number of names that are known.
const KNOWN_NAMES: usize = 256;

/// The greatest number of large directories for which an index is held.
const HELD_DIRECTORIES: usize = 256;

/// The size in bytes of a directory of 32 entries. A directory of at most this size is searched from its first entry
/// on, which takes no longer than to recall a name.
const FEW_SIZE: u64 = 32 * ENTRY_SIZE;

/// The size in bytes of a directory of 64 entries. A directory of at most this size is small: it gets no index.
const SMALL_SIZE: u64 = 64 * ENTRY_SIZE;

/// The slots of the names that were found last, and the indexes of large directories that are searched often.
///
/// The cache can be correct for an image (`IsCacheOf`). The caller reports each change of the names in directories to
/// it, by [`enter`], [`leave`], [`rename`] or [`replace`]; then it is correct for the image after the change. If
/// allocation fails, it remembers less.
///
/// [`enter`]: DirectoryCache::enter
/// [`leave`]: DirectoryCache::leave
/// [`rename`]: DirectoryCache::rename
/// [`replace`]: DirectoryCache::replace
#[derive(Drop)]
pub struct DirectoryCache {
    // the slots of names in small directories
    names: Names,
    // the state held for large directories, by their inodes
    directories: LruCache<u32, Held>,
    // the number of searches of directories for which no state is held
    searches: Searches,
    alloc: Global,
}

impl DirectoryCache {
    /// Makes a cache that remembers nothing.
    ///
    /// # Errors
    ///
    /// - `AllocError`: allocation fails.
    pub fn new(alloc: Global) -> Result<DirectoryCache, AllocError>
        ensures { IfOk result (λ cache. (image : Image) → IsCacheOf image cache) }
    {
        let room = NonZeroUsize::new(HELD_DIRECTORIES).unwrap();
        Ok(DirectoryCache {
            names: Names::new(alloc, KNOWN_NAMES)?,
            directories: LruCache::sparse(alloc, room)?,
            searches: Searches::new(),
            alloc,
        })
    }

    /// Returns what is remembered of a name in a small directory.
    fn recall_name<R: Region>(&mut self, region: &R, dir: u32, tree: Tree, name: &[u8]) -> Recalled
        requires tree { HasTree (words_in R.memory region.now) dir tree }
        requires short { length name.now ≤ max_name }
        requires right { IsCacheOf (words_in R.memory region.now) self.old }
        ensures reported { IsRecalled (words_in R.memory region.now) tree name.now result }
        ensures right { IsCacheOf (words_in R.memory region.now) self.new }
    {
        match self.names.hint(dir, name) {
            Some(slot) => Recalled::Known(Some(Found {
                slot,
                ino: entry_ino(region, tree, slot),
            })),
            None => Recalled::Unknown,
        }
    }

    /// Returns what is remembered of a name in a large directory, by its index if one is held. Else it counts the
    /// search, and makes an index after many searches.
    fn recall_large<R: Region>(&mut self, region: &R, dir: u32, tree: Tree, name: &[u8]) -> Recalled
        requires tree { HasTree (words_in R.memory region.now) dir tree }
        requires short { length name.now ≤ max_name }
        requires right { IsCacheOf (words_in R.memory region.now) self.old }
        ensures reported { IsRecalled (words_in R.memory region.now) tree name.now result }
        ensures right { IsCacheOf (words_in R.memory region.now) self.new }
    {
        match self.directories.get(&dir) {
            None | Some(Held::Lost) => {}
            Some(held) => return held.recall(region, tree, name),
        }
        if !self.make_held(region, dir, tree) {
            return Recalled::Unknown;
        }
        match self.directories.peek(&dir) {
            Some(held) => held.recall(region, tree, name),
            None => Recalled::Unknown,
        }
    }

    /// Returns what is remembered of a name in a directory of more than 32 entries.
    #[inline(never)]
    fn recall_larger<R: Region>(
        &mut self,
        region: &R,
        dir: u32,
        tree: Tree,
        name: &[u8],
    ) -> Recalled
        requires tree { HasTree (words_in R.memory region.now) dir tree }
        requires short { length name.now ≤ max_name }
        requires right { IsCacheOf (words_in R.memory region.now) self.old }
        ensures reported { IsRecalled (words_in R.memory region.now) tree name.now result }
        ensures right { IsCacheOf (words_in R.memory region.now) self.new }
    {
        if tree.size <= SMALL_SIZE {
            return self.recall_name(region, dir, tree, name);
        }
        self.recall_large(region, dir, tree, name)
    }

    /// Returns what is remembered of a name in a directory.
    fn recall<R: Region>(&mut self, region: &R, dir: u32, tree: Tree, name: &[u8]) -> Recalled
        requires tree { HasTree (words_in R.memory region.now) dir tree }
        requires short { length name.now ≤ max_name }
        requires right { IsCacheOf (words_in R.memory region.now) self.old }
        ensures reported { IsRecalled (words_in R.memory region.now) tree name.now result }
        ensures right { IsCacheOf (words_in R.memory region.now) self.new }
    {
        if tree.size <= FEW_SIZE {
            return Recalled::Unknown;
        }
        self.recall_larger(region, dir, tree, name)
    }

    /// Records the slot of a name that was found in a small directory.
    #[inline(never)]
    fn learn(&mut self, dir: u32, name: &[u8], slot: u64)
        requires short { length name.now ≤ max_name }
        ensures { (image : Image) → IsCacheOf image self.old → IsSlotOf image (dir, name.now) slot → IsCacheOf image self.new }
    {
        self.names.learn(dir, name, slot);
    }

    /// Returns whether an index of a directory is held, or is known to be impossible. Marks the directory as the one
    /// used last.
    fn is_held(&mut self, dir: u32) -> bool
        ensures { (image : Image) → IsCacheOf image self.old → IsCacheOf image self.new }
    {
        if self.directories.is_empty() {
            return false;
        }
        match self.directories.get(&dir) {
            None => false,
            Some(Held::Lost) => false,
            Some(_) => true,
        }
    }

    /// Counts a search of a large directory for which no state is held, and makes an index of it if it was searched
    /// often. Returns whether a state is held for it then.
    fn make_held<R: Region>(&mut self, region: &R, dir: u32, tree: Tree) -> bool
        requires tree { HasTree (words_in R.memory region.now) dir tree }
        requires right { IsCacheOf (words_in R.memory region.now) self.old }
        ensures right { IsCacheOf (words_in R.memory region.now) self.new }
    {
        if !self.searches.count(dir) {
            return false;
        }
        let held = Held::of(self.alloc, region, tree);
        let _ = self.directories.put(dir, held);
        true
    }

    /// Counts a search of a large directory, and makes an index of it if it was searched often. Returns whether a
    /// state is held for it.
    fn count_search<R: Region>(&mut self, region: &R, dir: u32, tree: Tree) -> bool
        requires tree { HasTree (words_in R.memory region.now) dir tree }
        requires right { IsCacheOf (words_in R.memory region.now) self.old }
        ensures right { IsCacheOf (words_in R.memory region.now) self.new }
    {
        self.is_held(dir) || self.make_held(region, dir, tree)
    }

    /// Returns what [`bp_read::directory::find_or_free`] returns for a directory, given its inode and its tree.
    pub fn find_or_free<R: Region>(&mut self, region: &R, dir: u32, tree: Tree, name: &[u8]) -> Spot
        requires well { IsWellFormed (words_in R.memory region.now) }
        requires reached { IsReached (words_in R.memory region.now) dir }
        requires directory { IsDirectory (words_in R.memory region.now) dir }
        requires root { tree.root ≡ root_of (words_in R.memory region.now) dir }
        requires size { tree.size ≡ size_of (words_in R.memory region.now) dir }
        requires short { length name.now ≤ max_name }
        requires right { IsCacheOf (words_in R.memory region.now) self.old }
        ensures named { named_slot result ≡ slot_named (words_in R.memory region.now) dir name.now }
        ensures free { FreeIs result (empty_slot (words_in R.memory region.now) dir) }
        ensures right { IsCacheOf (words_in R.memory region.now) self.new }
    {
        if tree.size <= SMALL_SIZE {
            return find_or_free(region, tree, name);
        }
        if !self.count_search(region, dir, tree) {
            return find_or_free(region, tree, name);
        }
        match self.directories.peek_mut(&dir) {
            Some(held) => held.find_or_free(region, tree, name),
            None => find_or_free(region, tree, name),
        }
    }

    /// Returns what [`Finder::find`] returns for one name and [`DirectoryCache::find_or_free`] for another one in the
    /// same directory, by one scan if the first is not remembered.
    pub fn find_both<R: Region>(
        &mut self,
        region: &R,
        dir: u32,
        tree: Tree,
        one: &[u8],
        other: &[u8],
    ) -> Both
        requires well { IsWellFormed (words_in R.memory region.now) }
        requires reached { IsReached (words_in R.memory region.now) dir }
        requires directory { IsDirectory (words_in R.memory region.now) dir }
        requires root { tree.root ≡ root_of (words_in R.memory region.now) dir }
        requires size { tree.size ≡ size_of (words_in R.memory region.now) dir }
        requires one { length one.now ≤ max_name }
        requires other { length other.now ≤ max_name }
        requires right { IsCacheOf (words_in R.memory region.now) self.old }
        ensures slot { found_slot result.found ≡ slot_named (words_in R.memory region.now) dir one.now }
        ensures ino { IfSome result.found
            (λ found. found.ino ≡ ino_at (words_in R.memory region.now) dir found.slot) }
        ensures named { named_slot result.spot ≡ slot_named (words_in R.memory region.now) dir other.now }
        ensures free { FreeIs result.spot (empty_slot (words_in R.memory region.now) dir) }
        ensures right { IsCacheOf (words_in R.memory region.now) self.new }
    {
        match self.recall(region, dir, tree, one) {
            Recalled::Known(found) => {
                let spot = self.find_or_free(region, dir, tree, other);
                Both { found, spot }
            }
            Recalled::Unknown => find_both(region, tree, one, other),
        }
    }

    /// Updates the state held for a directory after a name was added in its slot.
    fn enter_held(&mut self, at: NameAt<'_>)
        ensures names { self.new.names ≡ self.old.names }
        ensures held { ChangesOne at.entry.dir (Enters at.entry) self.old.directories.entries self.new.directories.entries }
    {
        // The postconditions of `len` state that no directory is held twice.
        let _held = self.directories.len();
        if let Some(held) = self.directories.peek_mut(&at.dir) {
            held.enter(at.name, at.slot);
        }
    }

    /// Updates the state held for a directory after a name was removed from its slot.
    fn leave_held(&mut self, at: NameAt<'_>)
        ensures names { self.new.names ≡ self.old.names }
        ensures held { ChangesOne at.entry.dir (Leaves at.entry) self.old.directories.entries self.new.directories.entries }
    {
        // The postconditions of `len` state that no directory is held twice.
        let _held = self.directories.len();
        if let Some(held) = self.directories.peek_mut(&at.dir) {
            held.leave(at.name, at.slot);
        }
    }

    /// Updates the cache after a name was added in its slot.
    pub fn enter(&mut self, at: NameAt<'_>)
        ensures { (old new : Image) → IsCacheOf old self.old → NameEnters old new at.entry → IsCacheOf new self.new }
    {
        self.enter_held(at);
    }

    /// Updates the cache after a name was removed from its slot.
    pub fn leave(&mut self, at: NameAt<'_>)
        ensures { (old new : Image) → IsCacheOf old self.old → NameLeaves old new at.entry → IsCacheOf new self.new }
    {
        self.names.forget(at.dir, at.name);
        self.leave_held(at);
    }

    /// Forgets two names.
    fn forget_both(&mut self, one: NameAt<'_>, other: NameAt<'_>)
        ensures directories { self.new.directories ≡ self.old.directories }
        ensures names { ForgetsBoth (known_of self.old.names) (known_of self.new.names) (name_in_directory one.entry) (name_in_directory other.entry) }
    {
        self.names.forget(one.dir, one.name);
        self.names.forget(other.dir, other.name);
    }

    /// Updates the cache after a name was removed from its slot and another one was added in its own.
    pub fn rename(&mut self, from: NameAt<'_>, to: NameAt<'_>)
        ensures { (old new : Image) → IsCacheOf old self.old → NameMoves old new from.entry to.entry → IsCacheOf new self.new }
    {
        self.forget_both(from, to);
        self.leave_held(from);
        self.enter_held(to);
    }

    /// Updates the cache after a name replaced another one: the name `from` was removed from its slot, and the entry
    /// of the name `to` may refer to another inode now.
    pub fn replace(&mut self, from: NameAt<'_>, to: NameAt<'_>)
        ensures { (old new : Image) → IsCacheOf old self.old → NameReplaces old new from.entry to.entry → IsCacheOf new self.new }
    {
        self.forget_both(from, to);
        self.leave_held(from);
    }

    /// Drops the state held for a directory, which may have been removed.
    pub fn drop_directory(&mut self, dir: u32)
        ensures { (image : Image) → IsCacheOf image self.old → IsCacheOf image self.new }
    {
        let _held = self.directories.pop(&dir);
    }

    /// Forgets everything.
    pub fn clear(&mut self)
        ensures { (image : Image) → IsCacheOf image self.new }
    {
        self.names.forget_all();
        self.directories.clear();
        self.searches = Searches::new();
    }
}

impl Finder for DirectoryCache {
    ghost right = { λ cache image. IsCacheOf image cache };

    ghost same_references = { λ _ _. ⊤ };

    /// Finds a name in a directory: by the names that are known, by the directory's index, or by a scan.
    fn find<R: Region>(&mut self, region: &R, dir: u32, tree: Tree, name: &[u8]) -> Option<Found> {
        if let Recalled::Known(reported) = self.recall(region, dir, tree, name) {
            return reported;
        }
        let found = find_entry(region, tree, name)?;
        if tree.size > FEW_SIZE && tree.size <= SMALL_SIZE {
            self.learn(dir, name, found.slot);
        }
        Some(found)
    }

    ghost same_references_reflexive = { λ _. tt };

    ghost same_references_transitive = { λ _ _ _ _ _. tt };
}
