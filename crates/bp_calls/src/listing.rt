//! Listings of directories.

ghost use Rattle.std.specs.Prelude.{◌≡◌, IfOk, OnOk};
ghost use Rattle.bp_calls.specs.Asked.{ListsNames, entries_seen};
ghost use Rattle.bp_calls.specs.Rows.{AddsEntries, AddsEntry, AreEntries, IsEntryRow};
ghost use Rattle.bp_layout.specs.Directory.{entry_count};
ghost use Rattle.bp_layout.specs.Inode.{IsDirectory};
ghost use Rattle.bp_layout.specs.Reached.{IsReached};
ghost use Rattle.bp_layout.specs.WellFormed.{IsWellFormed};
ghost use Rattle.pm_region.specs.Memory.{words_in};

use bp_layout::{EntryView, Listing};
use bp_limits::{BLOCK_ENTRIES, ENTRY_SIZE, ENTRY_WORDS, MAX_NAME};
use bp_read::directory::count;
use bp_read::inodes::{get, tree_of};
use bp_read::leaf_words;
use pm_region::Region;
use std::alloc::{AllocError, Global};

/// The length of an entry in words.
const ENTRY: usize = ENTRY_WORDS as usize;

/// Returns the names in directory `i` with their kinds, in byte order of the names.
///
/// # Errors
///
/// - `AllocError`: allocation fails.
pub fn list<R: Region>(alloc: Global, region: &R, ino: u32) -> Result<Listing, AllocError>
    requires well_formed { IsWellFormed (words_in R.memory region.now) }
    requires reached { IsReached (words_in R.memory region.now) ino }
    requires directory { IsDirectory (words_in R.memory region.now) ino }
    ensures { IfOk result (λ names. ListsNames (words_in R.memory region.now) ino names) }
{
    let mut listing = entries(alloc, region, ino)?;
    listing.sort();
    Ok(listing)
}

/// Returns the kinds and names of the entries of directory `i` that refer to an inode, in the order of their slots.
fn entries<R: Region>(alloc: Global, region: &R, ino: u32) -> Result<Listing, AllocError>
    requires well_formed { IsWellFormed (words_in R.memory region.now) }
    requires reached { IsReached (words_in R.memory region.now) ino }
    requires directory { IsDirectory (words_in R.memory region.now) ino }
    ensures { let image = words_in R.memory region.now in
        IfOk result (λ listing. listing ≡ entries_seen image ino (entry_count image ino)) }
{
    let tree = tree_of(region, ino);
    let slots = tree.size / ENTRY_SIZE;
    let mut listing = Listing::with_capacity(alloc, count(region, tree) as usize)?;
    for leaf in 0..slots.div_ceil(BLOCK_ENTRIES) {
        if let Some(words) = leaf_words(region, tree, leaf) {
            let count = (slots - BLOCK_ENTRIES * leaf).min(BLOCK_ENTRIES) as usize;
            list_row(region, &words[..ENTRY * count], &mut listing)?;
        }
    }
    Ok(listing)
}

/// Adds the kinds and names of those of some consecutive entries of a directory that refer to an inode.
fn list_row<R: Region>(region: &R, words: &[u64], listing: &mut Listing) -> Result<(), AllocError>
    requires well_formed { IsWellFormed (words_in R.memory region.now) }
    requires entries { AreEntries (words_in R.memory region.now) words.now }
    ensures { OnOk result (AddsEntries (words_in R.memory region.now) words.now listing.old listing.new) }
{
    for index in 0..words.len() / ENTRY {
        let view = EntryView::in_row(words, index);
        list_entry(region, view, listing)?;
    }
    Ok(())
}

/// Adds the kind and the name of an entry of a directory, if it refers to an inode.
fn list_entry<R: Region>(
    region: &R,
    view: EntryView<'_>,
    listing: &mut Listing,
) -> Result<(), AllocError>
    requires well_formed { IsWellFormed (words_in R.memory region.now) }
    requires entry { IsEntryRow (words_in R.memory region.now) view.words.now }
    ensures { OnOk result (AddsEntry (words_in R.memory region.now) view.entry.words.now listing.old listing.new) }
{
    let ino = view.ino();
    if ino == 0 {
        return Ok(());
    }
    let kind = get(region, ino as u32).kind;
    let mut name = [0; MAX_NAME];
    listing.push(kind, view.read_name(&mut name))
}
