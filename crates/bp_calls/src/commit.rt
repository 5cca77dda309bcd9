//! Commits of bytes below the sizes of files.

ghost use Rattle.std.specs.Prelude.{◌≡◌, ◌≤◌, [], length};
ghost use Rattle.bp_calls.specs.CommitsTouched.{CanCommitTouched, CommitsTouchedOrLacks, HasRoomToCommit};
ghost use Rattle.bp_calls.specs.TouchedBelow.{IsRunFor};
ghost use Rattle.bp_calls.specs.Mounted.{image_in};
ghost use Rattle.bp_cow.specs.Commit.{HasLooseCover};
ghost use Rattle.bp_cow.specs.Found.{AreWaysIn};
ghost use Rattle.bp_layout.specs.Inode.{root_of, size_of};
ghost use Rattle.bp_layout.specs.WellFormed.{IsWellFormed};
ghost use Rattle.bp_layout.specs.Words.{block_count};
ghost use Rattle.bp_changes.specs.Sets.{in_snapshot_of};
ghost use Rattle.pm_region.specs.Memory.{words_in};

use bp_cow::{FoundWays, Run, Touched, commit_at, copies_below, find_ways};
use bp_free::{NoSpace, Parts};
use bp_read::Tree;
use bp_read::inodes::root_path;
use pm_region::Region;

/// Returns the run of bytes that lie below the size of a file, in its tree.
pub(crate) fn run_for<'a, R: Region>(
    region: &R,
    ino: u32,
    tree: Tree,
    offset: u64,
    bytes: &'a [u8],
) -> Run<'a>
    requires some { 4 ≤ length (words_in R.memory region.now) }
    requires root { tree.root ≡ root_of (words_in R.memory region.now) ino }
    requires size { tree.size ≡ size_of (words_in R.memory region.now) ino }
    ensures { IsRunFor (words_in R.memory region.now) ino offset bytes.now result }
{
    Run {
        root: root_path(region, ino),
        height: tree.height(),
        size: tree.size,
        offset,
        bytes,
    }
}

/// Returns what runs alone touch.
pub fn touched_by<'a>(runs: &'a [Run<'a>]) -> Touched<'a>
    ensures runs { result.runs.now ≡ runs.now }
    ensures words { result.words.now ≡ [] }
    ensures trees { result.trees.now ≡ [] }
{
    Touched {
        words: &[],
        runs,
        trees: &[],
    }
}

/// Commits touched bytes and words below the sizes of files, given the paths to them, if enough blocks are free.
///
/// # Errors
///
/// - `NoSpace`: fewer blocks are free than the commit copies.
pub(crate) fn commit_found<R: Region>(
    parts: &mut Parts<R>,
    touched: &Touched<'_>,
    found: &FoundWays,
) -> Result<(), NoSpace>
    requires well_formed { IsWellFormed (image_in R.memory parts.old) }
    requires can { CanCommitTouched R.memory parts.old touched.now }
    requires loose { HasLooseCover (image_in R.memory parts.old) (in_snapshot_of parts.old) touched.now }
    requires known { block_count (image_in R.memory parts.old) ≤ length parts.old.snapshot_blocks }
    requires fits { block_count (image_in R.memory parts.old) ≤ length parts.old.free_blocks }
    requires room { HasRoomToCommit R.memory parts.old touched.now }
    requires found { AreWaysIn (image_in R.memory parts.old) touched.now found.now }
    ensures { CommitsTouchedOrLacks R.memory parts.old parts.new result touched.now }
{
    let copies = copies_below(touched, found);
    let free = parts.free_blocks.count();
    if free < copies {
        return Err(NoSpace { need: copies, free });
    }
    commit_at(parts, touched, found);
    Ok(())
}

/// Commits touched bytes and words below the sizes of files, if enough blocks are free.
///
/// # Errors
///
/// - `NoSpace`: fewer blocks are free than the commit copies.
pub(crate) fn commit_below<R: Region>(
    parts: &mut Parts<R>,
    touched: &Touched<'_>,
) -> Result<(), NoSpace>
    requires well_formed { IsWellFormed (image_in R.memory parts.old) }
    requires can { CanCommitTouched R.memory parts.old touched.now }
    requires loose { HasLooseCover (image_in R.memory parts.old) (in_snapshot_of parts.old) touched.now }
    requires known { block_count (image_in R.memory parts.old) ≤ length parts.old.snapshot_blocks }
    requires fits { block_count (image_in R.memory parts.old) ≤ length parts.old.free_blocks }
    requires room { HasRoomToCommit R.memory parts.old touched.now }
    ensures { CommitsTouchedOrLacks R.memory parts.old parts.new result touched.now }
{
    let found = find_ways(&parts.region, touched);
    commit_found(parts, touched, &found)
}
