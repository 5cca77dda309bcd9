//! The entries of a directory, in the order of their names.

ghost use Rattle.std.specs.Prelude.{[], ◌++◌, ◌≡◌, ◌≤◌, ◌<◌, ◌∷◌, IfOk, IsPermutation, OnOk, Some, drop, length, slice_get, take};
ghost use Rattle.std.specs.List.Sorted.{IsSortedBy};
ghost use Rattle.bp_export.specs.Entries.{AreEntries, PutsEntry, PutsRow, entries_named, entry_comes_before};
ghost use Rattle.bp_export.specs.Rows.{EachEntry, HasEntryForm};
ghost use Rattle.bp_layout.specs.Directory.{entry_count};
ghost use Rattle.bp_layout.specs.Inode.{IsDirectory};
ghost use Rattle.bp_layout.specs.Reached.{IsReached};
ghost use Rattle.bp_layout.specs.WellFormed.{IsWellFormed};
ghost use Rattle.bp_limits.specs.CallLimits.{max_name};
ghost use Rattle.pm_region.specs.Memory.{words_in};

use crate::rows::{ENTRY, entry_row, leaf_count};
use bp_layout::EntryView;
use bp_limits::MAX_NAME;
use bp_read::directory::count;
use bp_read::inodes::tree_of;
use pm_region::Region;
use std::alloc::{AllocError, Global};
use std::marker::Model;

/// An entry: the inode that it refers to, and the range of its name among the bytes of all names.
#[derive(Clone, Copy)]
struct Row {
    inode: u32,
    first: usize,
    len: usize,
}

/// Inodes and names, as a directory has them.
#[derive(Drop)]
pub(crate) struct Entries {
    rows: Vec<Row>,
    bytes: Vec<u8>,
}

impl Model for Entries {
    ghost use Rattle.std.specs.Prelude.{List, ℕ};
    ghost use Rattle.bp_layout.specs.Paths.{Name};
    ghost use Rattle.bp_export.specs.Named.{AreRowsWithin, named_rows};

    ghost Value = { List (ℕ × Name) };

    ghost view = { λ entries. named_rows entries.bytes.items entries.rows.items };

    // Stored by offsets, so that adding a name moves none of the others.
    ghost invariant = { λ entries. AreRowsWithin entries.bytes.items entries.rows.items };
}

/// Returns the bytes of a name that are in `bytes`.
fn name_in(bytes: &[u8], row: Row) -> &[u8]
    ensures bytes { result.now ≡ take row.len (drop row.first bytes.now) }
    ensures few { length result.now ≤ row.len }
{
    let rest = &bytes[row.first.min(bytes.len())..];
    &rest[..row.len.min(rest.len())]
}

/// Collects the entries of directory `i` that are not empty, in the order of their slots.
fn entries_of<R: Region>(alloc: Global, region: &R, ino: u32) -> Result<Entries, AllocError>
    requires well_formed { IsWellFormed (words_in R.memory region.now) }
    requires reached { IsReached (words_in R.memory region.now) ino }
    requires directory { IsDirectory (words_in R.memory region.now) ino }
    ensures { let image = words_in R.memory region.now in
        IfOk result (λ entries. entries ≡ entries_named image ino 0 (entry_count image ino)) }
{
    let tree = tree_of(region, ino);
    let mut entries = Entries::with_capacity(alloc, count(region, tree) as usize)?;
    for leaf in 0..leaf_count(tree) {
        if let Some(words) = entry_row(region, tree, leaf) {
            entries.add_row(words)?;
        }
    }
    Ok(entries)
}

impl Entries {
    /// Collects the entries of directory `i` that are not empty, in the byte order of their names.
    ///
    /// # Errors
    ///
    /// * `AllocError`: allocation fails.
    pub(crate) fn of<R: Region>(alloc: Global, region: &R, ino: u32) -> Result<Entries, AllocError>
        requires well_formed { IsWellFormed (words_in R.memory region.now) }
        requires reached { IsReached (words_in R.memory region.now) ino }
        requires directory { IsDirectory (words_in R.memory region.now) ino }
        ensures { IfOk result (λ entries. AreEntries (words_in R.memory region.now) ino entries) }
    {
        let mut entries = entries_of(alloc, region, ino)?;
        entries.sort();
        Ok(entries)
    }

    /// Makes a list without entries, with memory for this number of them, except for the bytes of their names.
    fn with_capacity(alloc: Global, count: usize) -> Result<Entries, AllocError>
        ensures { IfOk result (λ entries. entries ≡ []) }
    {
        Ok(Entries {
            rows: Vec::with_capacity(alloc, count)?,
            bytes: Vec::new(alloc),
        })
    }

    /// Appends those of consecutive entries that are not empty.
    fn add_row(&mut self, words: &[u64]) -> Result<(), AllocError>
        requires { EachEntry HasEntryForm words.now }
        ensures { PutsRow words.now result self.old self.new }
    {
        for index in 0..words.len() / ENTRY {
            self.add(EntryView::in_row(words, index))?;
        }
        Ok(())
    }

    /// Appends an entry, unless it is empty.
    fn add(&mut self, view: EntryView<'_>) -> Result<(), AllocError>
        requires { HasEntryForm view.words.now }
        ensures { PutsEntry view.entry.words.now result self.old self.new }
    {
        let ino = view.ino();
        if ino == 0 {
            return Ok(());
        }
        let mut name = [0; MAX_NAME];
        self.push(ino as u32, view.read_name(&mut name))
    }

    /// Appends a name of at most 240 bytes.
    fn push(&mut self, ino: u32, name: &[u8]) -> Result<(), AllocError>
        requires { length name.now ≤ max_name }
        ensures { OnOk result (self.new ≡ self.old ++ (ino, name.now) ∷ []) }
    {
        let first = self.bytes.len();
        self.bytes.extend_from_slice(name)?;
        self.rows.push(Row {
            inode: ino,
            first,
            len: name.len(),
        })?;
        Ok(())
    }

    /// Sorts the names by their bytes.
    fn sort(&mut self)
        ensures all { IsPermutation self.old self.new }
        ensures sorted { IsSortedBy entry_comes_before self.new }
    {
        let bytes = self.bytes.as_slice();
        self.rows.sort_unstable_by(|one, other| name_in(bytes, *one).cmp(name_in(bytes, *other)));
    }

    /// Returns the number of entries.
    pub(crate) fn len(&self) -> usize
        ensures { result ≡ length self.now }
    {
        self.rows.len()
    }

    /// Returns the inode and the name at an index, from 0 on.
    pub(crate) fn at(&self, index: usize) -> (u32, &[u8])
        requires { index < length self.now }
        ensures entry { slice_get self.now index ≡ Some (result.0, result.1.now) }
        ensures short { length result.1.now ≤ max_name }
    {
        let row = self.rows[index];
        (row.inode, name_in(&self.bytes, row))
    }
}
