//! Writes of bytes that begin below the size of a file and end past it: a preparation for those past the size, and
//! then a commit of the others together with the size.

ghost use Rattle.std.specs.Prelude.{◌≡◌, ◌+◌, ◌<◌, ◌≤◌, ◌∷◌, [], ℕ, length, slice_index};
ghost use Rattle.bp_calls.specs.Commits.{CommitsChange, CommitsOrLacksBlocks};
ghost use Rattle.bp_calls.specs.CanWrite.{CanWrite, CanWriteThawed};
ghost use Rattle.bp_calls.specs.FewBlocks.{most_for_write};
ghost use Rattle.bp_calls.specs.Mounted.{image_in, IsExactIn, IsMountedIn};
ghost use Rattle.bp_calls.specs.Space.{HasRoomThawed};
ghost use Rattle.bp_cow.specs.Found.{AreWaysIn};
ghost use Rattle.bp_free.specs.Set.{members};
ghost use Rattle.bp_layout.specs.Need.{need};
ghost use Rattle.bp_layout.specs.Thaw.{thawed};
ghost use Rattle.bp_calls.specs.TouchedAcross.{IsPlanFor, IsRunAcross, WritesPlanned, planned_change};
ghost use Rattle.bp_calls.specs.WritesFile.{WritesFile};
ghost use Rattle.bp_layout.specs.Inode.{root_of, size_of};
ghost use Rattle.bp_layout.specs.Need.Change.{writes};
ghost use Rattle.bp_layout.specs.WordPaths.{inode_path};
ghost use Rattle.bp_layout.specs.Words.{height_of};
ghost use Rattle.bp_changes.specs.Sets.{in_snapshot_of};
ghost use Rattle.pm_region.specs.Memory.{words_in};

use crate::thaw::enough_free;
use bp_append::{height_with, need_prep, stage_append};
use bp_cow::{FoundWays, Run, Touched, commit_at, copies_below, find_ways};
use bp_free::{NoSpace, Parts};
use bp_read::inodes::{root_path, size_path};
use bp_read::{Slots, Tree};
use pm_region::Region;
use std::slice;

/// Returns the run of bytes that lie below the size of a file, in its tree once it is high enough for an end.
fn run_across<'a, R: Region>(
    region: &R,
    ino: u32,
    tree: Tree,
    offset: u64,
    below: &'a [u8],
    end: u64,
) -> Run<'a>
    requires some { 4 ≤ length (words_in R.memory region.now) }
    requires root { tree.root ≡ root_of (words_in R.memory region.now) ino }
    requires size { tree.size ≡ size_of (words_in R.memory region.now) ino }
    ensures { IsRunAcross (words_in R.memory region.now) ino offset end below.now result }
{
    Run {
        root: root_path(region, ino),
        height: height_with(tree, end),
        size: end,
        offset,
        bytes: below,
    }
}

/// A write across the size of a file, with what it touches.
#[derive(Drop)]
struct Plan<'a> {
    /// The number of the file's inode.
    inode: u32,
    /// The file's tree, before the write.
    tree: Tree,
    /// The offset of the bytes, which is below the size.
    offset: u64,
    /// The bytes, which end past the size.
    bytes: &'a [u8],
    /// The path of the word of the size, and its new value: the end of the bytes.
    sized: (Slots, u64),
    /// The run of those bytes that lie below the size.
    run: Run<'a>,
}

/// Plans a write of bytes across the size of a file, given its tree.
fn plan_write<'a, R: Region>(
    region: &R,
    ino: u32,
    tree: Tree,
    offset: u64,
    bytes: &'a [u8],
) -> Plan<'a>
    requires some { 4 ≤ length (words_in R.memory region.now) }
    requires root { tree.root ≡ root_of (words_in R.memory region.now) ino }
    requires size { tree.size ≡ size_of (words_in R.memory region.now) ino }
    requires can { CanWrite (words_in R.memory region.now) ino offset bytes.now }
    requires below { offset < size_of (words_in R.memory region.now) ino }
    requires past { size_of (words_in R.memory region.now) ino < offset + length bytes.now }
    ensures { IsPlanFor (words_in R.memory region.now) ino offset bytes.now result }
{
    let end = offset + bytes.len() as u64;
    let (below, _) = bytes.split_at((tree.size - offset) as usize);
    Plan {
        inode: ino,
        tree,
        offset,
        bytes,
        sized: (size_path(region, ino), end),
        run: run_across(region, ino, tree, offset, below, end),
    }
}

/// Returns what a planned write touches: the bytes below the size, and the word of the size.
fn touched_across<'a>(plan: &'a Plan<'_>) -> Touched<'a>
    ensures words { result.words.now ≡ plan.now.sized ∷ [] }
    ensures runs { result.runs.now ≡ plan.now.run ∷ [] }
    ensures trees { result.trees.now ≡ [] }
{
    Touched {
        words: slice::from_ref(&plan.sized),
        runs: slice::from_ref(&plan.run),
        trees: &[],
    }
}

/// Returns the number of blocks that a planned write takes, given the paths to what it touches.
fn need_found<R: Region>(
    parts: &Parts<R>,
    plan: &Plan<'_>,
    touched: &Touched<'_>,
    found: &FoundWays,
) -> u32
    requires across { WritesPlanned R.memory parts.now plan.now touched.now }
    requires root { plan.now.tree.root ≡ root_of (image_in R.memory parts.now) plan.now.inode }
    requires size { plan.now.tree.size ≡ size_of (image_in R.memory parts.now) plan.now.inode }
    requires found { AreWaysIn (image_in R.memory parts.now) touched.now found.now }
    ensures need { result ≡ need (image_in R.memory parts.now) (planned_change plan.now) }
    ensures few { result ≤ most_for_write }
{
    let end = plan.offset + plan.bytes.len() as u64;
    let copied = copies_below(touched, found);
    need_prep(&parts.region, plan.tree, plan.tree.size, end) + copied
}

/// Returns the number of blocks that bytes take that begin below the size of a file and end past it, given its tree.
pub(crate) fn need_across<R: Region>(
    parts: &Parts<R>,
    ino: u32,
    tree: Tree,
    offset: u64,
    bytes: &[u8],
) -> u32
    requires root { tree.root ≡ root_of (image_in R.memory parts.now) ino }
    requires size { tree.size ≡ size_of (image_in R.memory parts.now) ino }
    requires mounted { IsMountedIn R.memory parts.now }
    requires can { CanWrite (image_in R.memory parts.now) ino offset bytes.now }
    requires below { offset < size_of (image_in R.memory parts.now) ino }
    requires past { size_of (image_in R.memory parts.now) ino < offset + length bytes.now }
    ensures need { result ≡ need (image_in R.memory parts.now) (writes ino offset (length bytes.now)) }
    ensures few { result ≤ most_for_write }
{
    let plan = plan_write(&parts.region, ino, tree, offset, bytes);
    let touched = touched_across(&plan);
    let found = find_ways(&parts.region, &touched);
    need_found(parts, &plan, &touched, &found)
}

/// Makes a planned write, given the paths to what it touches. The tree is prepared for the bytes past the size, which
/// does not change these paths, and then one store makes the other bytes visible together with the size.
fn write_planned<R: Region>(
    parts: &mut Parts<R>,
    plan: &Plan<'_>,
    touched: &Touched<'_>,
    found: &FoundWays,
)
    requires exact { IsExactIn R.memory parts.old }
    requires across { WritesPlanned R.memory parts.old plan.now touched.now }
    requires size { plan.now.tree.size ≡ size_of (image_in R.memory parts.old) plan.now.inode }
    requires root { plan.now.run.root.items ≡
        inode_path (height_of (root_of (image_in R.memory parts.old) 0)) plan.now.inode 1 }
    requires small { (k : ℕ) → slice_index plan.now.bytes.now k < 256 }
    requires clear { thawed (image_in R.memory parts.old) (in_snapshot_of parts.old) (planned_change plan.now) ≡ [] }
    requires room { HasRoomThawed (R.memory parts.old.region) parts.old.free_blocks (planned_change plan.now) }
    requires enough { need (image_in R.memory parts.old) (planned_change plan.now) ≤ length (members parts.old.free_blocks) }
    requires found { AreWaysIn (image_in R.memory parts.old) touched.now found.now }
    ensures { CommitsChange R.memory parts.old parts.new (planned_change plan.now)
        (WritesFile plan.now.inode plan.now.offset plan.now.bytes.now) }
{
    let size = plan.tree.size;
    let end = plan.offset + plan.bytes.len() as u64;
    let (_, beyond) = plan.bytes.split_at((size - plan.offset) as usize);
    stage_append(parts, &plan.run.root, size, beyond, end);
    commit_at(parts, touched, found);
}

/// Writes bytes that begin below the size of a file and end past it, once no block is left to thaw, given its tree.
/// The paths to what they touch are searched for once.
///
/// # Errors
///
/// Nothing has changed then.
///
/// - `NoSpace`: fewer blocks are free than the write needs.
pub(crate) fn write_across<R: Region>(
    parts: &mut Parts<R>,
    ino: u32,
    tree: Tree,
    offset: u64,
    bytes: &[u8],
) -> Result<(), NoSpace>
    requires root { tree.root ≡ root_of (image_in R.memory parts.old) ino }
    requires size { tree.size ≡ size_of (image_in R.memory parts.old) ino }
    requires can { CanWriteThawed (in_snapshot_of parts.old) (R.memory parts.old.region) parts.old.free_blocks parts.old.free_inodes ino offset bytes.now }
    requires exact { IsExactIn R.memory parts.old }
    requires below { offset < size_of (image_in R.memory parts.old) ino }
    requires past { size_of (image_in R.memory parts.old) ino < offset + length bytes.now }
    ensures { CommitsOrLacksBlocks R.memory parts.old parts.new result (writes ino offset (length bytes.now)) (WritesFile ino offset bytes.now) }
{
    let plan = plan_write(&parts.region, ino, tree, offset, bytes);
    let touched = touched_across(&plan);
    let found = find_ways(&parts.region, &touched);
    let need = need_found(parts, &plan, &touched, &found);
    match enough_free(parts, need) {
        Ok(()) => {
            write_planned(parts, &plan, &touched, &found);
            Ok(())
        }
        Err(lacks) => Err(lacks),
    }
}
