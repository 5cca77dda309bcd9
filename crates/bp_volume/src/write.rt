//! Writes of bytes into files.

ghost use Rattle.std.specs.Prelude.{◌≡◌, ◌≤◌, ℕ, IfErr, IfOk, OnOk, length};
ghost use Rattle.bp_cache.specs.Cache.{IsCacheOf};
ghost use Rattle.bp_cache.specs.Changes.{KeepsAllNames};
ghost use Rattle.bp_layout.specs.Inode.{IsFile};
ghost use Rattle.bp_layout.specs.Formatted.{version_of};
ghost use Rattle.bp_layout.specs.WellFormed.{IsWellFormed};
ghost use Rattle.bp_limits.specs.CallLimits.{greatest_write};
ghost use Rattle.bp_plain.specs.Calls.Call.{write};
ghost use Rattle.bp_plain.specs.Seen.{refusal_of};
ghost use Rattle.bp_volume.specs.Carried.{CarriesOut};
ghost use Rattle.bp_volume.specs.Ready.{IsReady};
ghost use Rattle.bp_volume.specs.Seen.{unit_answer};
ghost use Rattle.bp_fs.specs.Step.{PathFinds};
ghost use Rattle.bp_volume.specs.Queries.{Refuses};
ghost use Rattle.pm_region.specs.Memory.{words_in};
ghost use Rattle.bp_calls.specs.Mounted.{image_in, IsExactIn};

use crate::lookup::{bad_path, file_on};
use crate::refusals::no_space;
use bp_cache::DirectoryCache;
use bp_free::Parts;
use bp_path::parse;
use bp_plain::FsError;
use bp_read::version;
use pm_region::Region;

/// Returns the inode of the file at a path text, into which bytes are to be written. More bytes than the version
/// writes at once are refused before the file is looked up.
fn file_for<R: Region>(
    region: &R,
    cache: &mut DirectoryCache,
    text: &[u8],
    bytes: &[u8],
) -> Result<u32, FsError>
    requires well_formed { IsWellFormed (words_in R.memory region.now) }
    requires right { IsCacheOf (words_in R.memory region.now) cache.old }
    ensures found { IfOk result (λ i. PathFinds (words_in R.memory region.now) text.now i) }
    ensures kind { IfOk result (λ i. IsFile (words_in R.memory region.now) i) }
    ensures short { OnOk result (length bytes.now ≤ greatest_write (version_of (words_in R.memory region.now))) }
    ensures refused { IfErr result (λ e. (offset : ℕ) → Refuses (words_in R.memory region.now)
        (write text.now offset bytes.now) (refusal_of e)) }
    ensures right { IsCacheOf (words_in R.memory region.now) cache.new }
{
    let path = parse(text).map_err(bad_path)?;
    if bytes.len() > version(region).greatest_write() {
        return Err(FsError::TooLong);
    }
    let file = file_on(region, cache, &path)?;
    Ok(file.ino)
}

/// Writes bytes into the file at a path text, which has inode `i`.
fn write_into<R: Region>(
    parts: &mut Parts<R>,
    text: &[u8],
    ino: u32,
    offset: u64,
    bytes: &[u8],
) -> Result<(), FsError>
    requires ready { IsReady (R.memory parts.old.region) parts.old }
    requires at { PathFinds (image_in R.memory parts.old) text.now ino }
    requires kind { IsFile (image_in R.memory parts.old) ino }
    requires short { length bytes.now ≤ greatest_write (version_of (image_in R.memory parts.old)) }
    ensures called { CarriesOut (R.memory parts.old.region) (write text.now offset bytes.now) (unit_answer result)
        (R.memory parts.new.region) }
    ensures snapshot_blocks { parts.new.snapshot_blocks ≡ parts.old.snapshot_blocks }
    ensures exact { IsExactIn R.memory parts.new }
    ensures names { KeepsAllNames (image_in R.memory parts.old) (image_in R.memory parts.new) }
{
    if bytes.is_empty() {
        return Ok(());
    }
    if offset > version(&parts.region).greatest_size() - bytes.len() as u64 {
        return Err(FsError::TooBig);
    }
    bp_calls::write(parts, ino, offset, bytes).map_err(no_space)
}

/// Carries out `write`, except for its end-of-call marker.
pub(crate) fn do_write<R: Region>(
    parts: &mut Parts<R>,
    cache: &mut DirectoryCache,
    text: &[u8],
    offset: u64,
    bytes: &[u8],
) -> Result<(), FsError>
    requires ready { IsReady (R.memory parts.old.region) parts.old }
    requires right { IsCacheOf (image_in R.memory parts.old) cache.old }
    ensures called { CarriesOut (R.memory parts.old.region) (write text.now offset bytes.now) (unit_answer result)
        (R.memory parts.new.region) }
    ensures snapshot_blocks { parts.new.snapshot_blocks ≡ parts.old.snapshot_blocks }
    ensures exact { IsExactIn R.memory parts.new }
    ensures right { IsCacheOf (image_in R.memory parts.new) cache.new }
{
    let ino = file_for(&parts.region, cache, text, bytes)?;
    write_into(parts, text, ino, offset, bytes)
}
