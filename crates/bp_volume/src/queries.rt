//! Calls that change nothing.

ghost use Rattle.std.specs.Prelude.{◌≡◌, ◌≤◌, IfOk, OnErr, drop, length};
ghost use Rattle.bp_cache.specs.Cache.{IsCacheOf};
ghost use Rattle.bp_calls.specs.Mounted.{image_in, IsMountedIn};
ghost use Rattle.bp_plain.specs.Calls.Call.{links, list, read, stat};
ghost use Rattle.bp_layout.specs.WellFormed.{IsWellFormed};
ghost use Rattle.bp_volume.specs.Seen.{links_answer, list_answer_of, read_answer_of, stat_answer_of};
ghost use Rattle.bp_fs.specs.Step.{PathFinds};
ghost use Rattle.bp_volume.specs.Queries.{Answers};
ghost use Rattle.pm_region.specs.Memory.{words_in};

use crate::lookup::{file_at, inode_at};
use bp_cache::DirectoryCache;
use bp_calls::{links, list, read, stat};
use bp_free::Parts;
use bp_layout::{Kind, Listing, Stat};
use bp_plain::FsError;
use bp_read::Finder;
use bp_read::inodes::get;
use pm_region::Region;
use std::alloc::{AllocError, Global};

/// Returns the result of `stat`.
pub(crate) fn do_stat<R: Region, F: Finder>(
    region: &R,
    finder: &mut F,
    text: &[u8],
) -> Result<Stat, FsError>
    requires well_formed { IsWellFormed (words_in R.memory region.now) }
    requires right { F.right finder.old (words_in R.memory region.now) }
    ensures reported { Answers (words_in R.memory region.now) (stat text.now) (stat_answer_of result) }
    ensures right { F.right finder.new (words_in R.memory region.now) }
{
    let ino = inode_at(region, finder, text)?;
    Ok(stat(region, ino))
}

/// Returns the result of `links`.
pub(crate) fn do_links<R: Region>(
    parts: &Parts<R>,
    cache: &mut DirectoryCache,
    text: &[u8],
) -> Result<u32, FsError>
    requires mounted { IsMountedIn R.memory parts.now }
    requires right { IsCacheOf (image_in R.memory parts.now) cache.old }
    ensures reported { Answers (image_in R.memory parts.now) (links text.now) (links_answer result) }
    ensures right { IsCacheOf (image_in R.memory parts.now) cache.new }
{
    let file = file_at(&parts.region, cache, text)?;
    Ok(links(parts, file.ino))
}

/// Returns the refusal of a call for which allocation failed.
fn no_memory(_: AllocError) -> FsError
    ensures { result ≡ FsError.Memory }
{
    FsError::Memory
}

/// Returns the names in the directory at a path text, which has inode `i`.
fn list_inode<R: Region>(
    alloc: Global,
    region: &R,
    text: &[u8],
    ino: u32,
) -> Result<Listing, FsError>
    requires well_formed { IsWellFormed (words_in R.memory region.now) }
    requires at { PathFinds (words_in R.memory region.now) text.now ino }
    ensures { Answers (words_in R.memory region.now) (list text.now) (list_answer_of result) }
{
    match get(region, ino).kind {
        Kind::File => Err(FsError::NotDir),
        Kind::Dir => list(alloc, region, ino).map_err(no_memory),
    }
}

/// Returns the result of `list`.
pub(crate) fn do_list<R: Region, F: Finder>(
    alloc: Global,
    region: &R,
    finder: &mut F,
    text: &[u8],
) -> Result<Listing, FsError>
    requires well_formed { IsWellFormed (words_in R.memory region.now) }
    requires right { F.right finder.old (words_in R.memory region.now) }
    ensures reported { Answers (words_in R.memory region.now) (list text.now) (list_answer_of result) }
    ensures right { F.right finder.new (words_in R.memory region.now) }
{
    let ino = inode_at(region, finder, text)?;
    list_inode(alloc, region, text, ino)
}

/// Carries out `read`: reads bytes into `into` and returns their number.
pub(crate) fn do_read<R: Region, F: Finder>(
    region: &R,
    finder: &mut F,
    text: &[u8],
    offset: u64,
    into: &mut [u8],
) -> Result<usize, FsError>
    requires well_formed { IsWellFormed (words_in R.memory region.now) }
    requires right { F.right finder.old (words_in R.memory region.now) }
    ensures reported { Answers (words_in R.memory region.now) (read text.now offset (length into.old))
        (read_answer_of result into.new) }
    ensures fits { IfOk result (λ count. count ≤ length into.new) }
    ensures rest { IfOk result (λ count. drop count into.new ≡ drop count into.old) }
    ensures unread { OnErr result (into.new ≡ into.old) }
    ensures right { F.right finder.new (words_in R.memory region.now) }
{
    let file = file_at(region, finder, text)?;
    Ok(read(region, file.ino, offset, into))
}
