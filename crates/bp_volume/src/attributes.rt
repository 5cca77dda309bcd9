//! Attributes of files and directories: words of the caller's own, which images of version 3 have.

ghost use Rattle.std.specs.Prelude.{true, ◌≡◌, ◌<◌, IfErr, IfOk};
ghost use Rattle.bp_cache.specs.Cache.{IsCacheOf};
ghost use Rattle.bp_cache.specs.Changes.{KeepsAllNames};
ghost use Rattle.bp_calls.specs.Mounted.{image_in, IsExactIn};
ghost use Rattle.bp_layout.specs.Formatted.{version_of};
ghost use Rattle.bp_layout.specs.WellFormed.{IsWellFormed};
ghost use Rattle.bp_limits.specs.CallLimits.{allows_attributes};
ghost use Rattle.bp_limits.specs.Limits.{attributes};
ghost use Rattle.bp_plain.specs.Calls.Call.{attribute, set_attribute};
ghost use Rattle.bp_plain.specs.Seen.{refusal_of};
ghost use Rattle.bp_volume.specs.Carried.{CarriesOut};
ghost use Rattle.bp_volume.specs.Queries.{Answers, StopsAtAttributes};
ghost use Rattle.bp_volume.specs.Ready.{IsReady};
ghost use Rattle.bp_volume.specs.Seen.{attribute_answer, unit_answer};
ghost use Rattle.bp_fs.specs.Step.{FindsAttributes, PathFinds};
ghost use Rattle.pm_region.specs.Memory.{words_in};

use crate::lookup::{bad_path, inode_on};
use crate::refusals::no_space;
use bp_cache::DirectoryCache;
use bp_calls::{attribute, set_attribute};
use bp_free::Parts;
use bp_limits::Version;
use bp_path::parse;
use bp_plain::FsError;
use bp_read::{Finder, version};
use pm_region::Region;

/// Returns the inode at a path text, whose attributes a call asks for or sets.
fn owner_at<R: Region, F: Finder>(region: &R, finder: &mut F, text: &[u8]) -> Result<u32, FsError>
    requires well_formed { IsWellFormed (words_in R.memory region.now) }
    requires right { F.right finder.old (words_in R.memory region.now) }
    ensures found { IfOk result (λ i. FindsAttributes (words_in R.memory region.now) text.now i) }
    ensures refused { IfErr result (λ e. StopsAtAttributes (words_in R.memory region.now) text.now (refusal_of e)) }
    ensures right { F.right finder.new (words_in R.memory region.now) }
{
    let path = parse(text).map_err(bad_path)?;
    match version(region) {
        Version::One | Version::Two => Err(FsError::OldVersion),
        Version::Three => inode_on(region, finder, &path),
    }
}

/// Returns the result of `attribute`.
pub(crate) fn do_attribute<R: Region, F: Finder>(
    region: &R,
    finder: &mut F,
    text: &[u8],
    number: u64,
) -> Result<u64, FsError>
    requires well_formed { IsWellFormed (words_in R.memory region.now) }
    requires right { F.right finder.old (words_in R.memory region.now) }
    requires number { number < attributes }
    ensures reported { Answers (words_in R.memory region.now) (attribute text.now number) (attribute_answer result) }
    ensures right { F.right finder.new (words_in R.memory region.now) }
{
    let ino = owner_at(region, finder, text)?;
    Ok(attribute(region, ino, number))
}

/// Gives an attribute of the inode that a path text finds a value.
fn set_on<R: Region>(
    parts: &mut Parts<R>,
    text: &[u8],
    ino: u32,
    number: u64,
    value: u64,
) -> Result<(), FsError>
    requires ready { IsReady (R.memory parts.old.region) parts.old }
    requires at { PathFinds (image_in R.memory parts.old) text.now ino }
    requires version { allows_attributes (version_of (image_in R.memory parts.old)) ≡ true }
    requires number { number < attributes }
    ensures called { CarriesOut (R.memory parts.old.region) (set_attribute text.now number value) (unit_answer result)
        (R.memory parts.new.region) }
    ensures snapshot_blocks { parts.new.snapshot_blocks ≡ parts.old.snapshot_blocks }
    ensures exact { IsExactIn R.memory parts.new }
    ensures names { KeepsAllNames (image_in R.memory parts.old) (image_in R.memory parts.new) }
{
    set_attribute(parts, ino, number, value).map_err(no_space)
}

/// Carries out `set_attribute`, except for its end-of-call marker.
pub(crate) fn do_set_attribute<R: Region>(
    parts: &mut Parts<R>,
    cache: &mut DirectoryCache,
    text: &[u8],
    number: u64,
    value: u64,
) -> Result<(), FsError>
    requires ready { IsReady (R.memory parts.old.region) parts.old }
    requires right { IsCacheOf (image_in R.memory parts.old) cache.old }
    requires number { number < attributes }
    ensures called { CarriesOut (R.memory parts.old.region) (set_attribute text.now number value) (unit_answer result)
        (R.memory parts.new.region) }
    ensures snapshot_blocks { parts.new.snapshot_blocks ≡ parts.old.snapshot_blocks }
    ensures exact { IsExactIn R.memory parts.new }
    ensures right { IsCacheOf (image_in R.memory parts.new) cache.new }
{
    let ino = owner_at(&parts.region, cache, text)?;
    set_on(parts, text, ino, number, value)
}
