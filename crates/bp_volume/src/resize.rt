//! Changes of the size of files.

ghost use Rattle.std.specs.Prelude.{◌≡◌};
ghost use Rattle.bp_cache.specs.Cache.{IsCacheOf};
ghost use Rattle.bp_cache.specs.Changes.{KeepsAllNames};
ghost use Rattle.bp_layout.specs.Inode.{IsFile, size_of};
ghost use Rattle.bp_plain.specs.Calls.Call.{truncate};
ghost use Rattle.bp_volume.specs.Carried.{CarriesOut};
ghost use Rattle.bp_volume.specs.Ready.{IsReady};
ghost use Rattle.bp_volume.specs.Seen.{unit_answer};
ghost use Rattle.bp_fs.specs.Step.{PathFinds};
ghost use Rattle.bp_calls.specs.Mounted.{image_in, IsExactIn};

use crate::lookup::{FoundFile, file_at};
use crate::refusals::no_space;
use bp_cache::DirectoryCache;
use bp_free::Parts;
use bp_plain::FsError;
use bp_read::version;
use pm_region::Region;

/// Changes the size of the file that a path text finds, unless the size is above the version's limit.
fn resize<R: Region>(
    parts: &mut Parts<R>,
    text: &[u8],
    file: FoundFile,
    size: u64,
) -> Result<(), FsError>
    requires ready { IsReady (R.memory parts.old.region) parts.old }
    requires at { PathFinds (image_in R.memory parts.old) text.now file.ino }
    requires kind { IsFile (image_in R.memory parts.old) file.ino }
    requires size { file.size ≡ size_of (image_in R.memory parts.old) file.ino }
    ensures called { CarriesOut (R.memory parts.old.region) (truncate text.now size) (unit_answer result)
        (R.memory parts.new.region) }
    ensures snapshot_blocks { parts.new.snapshot_blocks ≡ parts.old.snapshot_blocks }
    ensures exact { IsExactIn R.memory parts.new }
    ensures names { KeepsAllNames (image_in R.memory parts.old) (image_in R.memory parts.new) }
{
    if size > version(&parts.region).greatest_size() {
        return Err(FsError::TooBig);
    }
    if size == file.size {
        return Ok(());
    }
    bp_calls::truncate(parts, file.ino, size).map_err(no_space)
}

/// Carries out `truncate`, except for its end-of-call marker.
pub(crate) fn do_truncate<R: Region>(
    parts: &mut Parts<R>,
    cache: &mut DirectoryCache,
    text: &[u8],
    size: u64,
) -> Result<(), FsError>
    requires ready { IsReady (R.memory parts.old.region) parts.old }
    requires right { IsCacheOf (image_in R.memory parts.old) cache.old }
    ensures called { CarriesOut (R.memory parts.old.region) (truncate text.now size) (unit_answer result)
        (R.memory parts.new.region) }
    ensures snapshot_blocks { parts.new.snapshot_blocks ≡ parts.old.snapshot_blocks }
    ensures exact { IsExactIn R.memory parts.new }
    ensures right { IsCacheOf (image_in R.memory parts.new) cache.new }
{
    let file = file_at(&parts.region, cache, text)?;
    resize(parts, text, file, size)
}
