//! Removal of names from directories.

ghost use Rattle.std.specs.Prelude.{◌≡◌, IfErr, IfOk, OnOk, Some};
ghost use Rattle.bp_cache.specs.Cache.{IsCacheOf};
ghost use Rattle.bp_calls.specs.Removed.{HasNoName};
ghost use Rattle.bp_calls.specs.Mounted.{image_in, IsExactIn};
ghost use Rattle.bp_layout.specs.Directory.{slot_named};
ghost use Rattle.bp_layout.specs.Inode.{IsDirectory, IsFile};
ghost use Rattle.bp_layout.specs.WellFormed.{IsWellFormed};
ghost use Rattle.bp_plain.specs.Calls.Call.{rmdir, unlink};
ghost use Rattle.bp_plain.specs.Seen.{refusal_of};
ghost use Rattle.bp_volume.specs.Carried.{CarriesOut};
ghost use Rattle.bp_volume.specs.Ready.{IsReady};
ghost use Rattle.bp_volume.specs.Seen.{unit_answer};
ghost use Rattle.bp_fs.specs.Step.{FindsEntry};
ghost use Rattle.bp_volume.specs.Queries.{Refuses};
ghost use Rattle.pm_region.specs.Memory.{words_in};

use crate::lookup::{NamedEntry, entry_at};
use crate::refusals::no_space;
use bp_cache::DirectoryCache;
use bp_calls::remove;
use bp_free::Parts;
use bp_layout::Kind;
use bp_plain::FsError;
use bp_read::Tree;
use bp_read::directory::is_empty;
use bp_read::inodes::get;
use pm_region::Region;

/// Returns the entry by which a path text finds a file.
fn file_entry<'a, R: Region>(
    region: &R,
    cache: &mut DirectoryCache,
    text: &'a [u8],
) -> Result<NamedEntry<'a>, FsError>
    requires well_formed { IsWellFormed (words_in R.memory region.now) }
    requires right { IsCacheOf (words_in R.memory region.now) cache.old }
    ensures found { IfOk result
        (λ entry. FindsEntry (words_in R.memory region.now) text.now entry.dir entry.slot entry.ino) }
    ensures named { IfOk result
        (λ entry. slot_named (words_in R.memory region.now) entry.dir entry.name.now ≡ Some entry.slot) }
    ensures file { IfOk result (λ entry. IsFile (words_in R.memory region.now) entry.ino) }
    ensures refused { IfErr result (λ e. Refuses (words_in R.memory region.now) (unlink text.now) (refusal_of e)) }
    ensures right { IsCacheOf (words_in R.memory region.now) cache.new }
{
    let entry = entry_at(region, cache, text, FsError::IsDir)?;
    match get(region, entry.ino).kind {
        Kind::File => Ok(entry),
        Kind::Dir => Err(FsError::IsDir),
    }
}

/// Refuses an entry that refers to a file, or to a directory that is not empty.
fn without_names<R: Region>(region: &R, text: &[u8], entry: &NamedEntry<'_>) -> Result<(), FsError>
    requires well_formed { IsWellFormed (words_in R.memory region.now) }
    requires at { FindsEntry (words_in R.memory region.now) text.now entry.now.dir entry.now.slot entry.now.ino }
    ensures directory { OnOk result (IsDirectory (words_in R.memory region.now) entry.now.ino) }
    ensures empty { OnOk result (HasNoName (words_in R.memory region.now) entry.now.ino) }
    ensures refused { IfErr result (λ e. Refuses (words_in R.memory region.now) (rmdir text.now) (refusal_of e)) }
{
    let inode = get(region, entry.ino);
    let tree = Tree::of(&inode);
    match inode.kind {
        Kind::File => Err(FsError::NotDir),
        Kind::Dir => {
            if is_empty(region, tree) {
                Ok(())
            } else {
                Err(FsError::NotEmpty)
            }
        }
    }
}

/// Returns the entry by which a path text finds an empty directory.
fn empty_entry<'a, R: Region>(
    region: &R,
    cache: &mut DirectoryCache,
    text: &'a [u8],
) -> Result<NamedEntry<'a>, FsError>
    requires well_formed { IsWellFormed (words_in R.memory region.now) }
    requires right { IsCacheOf (words_in R.memory region.now) cache.old }
    ensures found { IfOk result
        (λ entry. FindsEntry (words_in R.memory region.now) text.now entry.dir entry.slot entry.ino) }
    ensures named { IfOk result
        (λ entry. slot_named (words_in R.memory region.now) entry.dir entry.name.now ≡ Some entry.slot) }
    ensures directory { IfOk result (λ entry. IsDirectory (words_in R.memory region.now) entry.ino) }
    ensures empty { IfOk result (λ entry. HasNoName (words_in R.memory region.now) entry.ino) }
    ensures refused { IfErr result (λ e. Refuses (words_in R.memory region.now) (rmdir text.now) (refusal_of e)) }
    ensures right { IsCacheOf (words_in R.memory region.now) cache.new }
{
    let entry = entry_at(region, cache, text, FsError::IsRoot)?;
    without_names(region, text, &entry)?;
    Ok(entry)
}

/// Carries out `unlink`, except for its end-of-call marker.
pub(crate) fn do_unlink<R: Region>(
    parts: &mut Parts<R>,
    cache: &mut DirectoryCache,
    text: &[u8],
) -> Result<(), FsError>
    requires ready { IsReady (R.memory parts.old.region) parts.old }
    requires right { IsCacheOf (image_in R.memory parts.old) cache.old }
    ensures called { CarriesOut (R.memory parts.old.region) (unlink text.now) (unit_answer result)
        (R.memory parts.new.region) }
    ensures snapshot_blocks { parts.new.snapshot_blocks ≡ parts.old.snapshot_blocks }
    ensures exact { IsExactIn R.memory parts.new }
    ensures right { IsCacheOf (image_in R.memory parts.new) cache.new }
{
    let file = file_entry(&parts.region, cache, text)?;
    remove(parts, file.dir, file.slot).map_err(no_space)?;
    cache.leave(file.at());
    Ok(())
}

/// Carries out `rmdir`, except for its end-of-call marker.
pub(crate) fn do_rmdir<R: Region>(
    parts: &mut Parts<R>,
    cache: &mut DirectoryCache,
    text: &[u8],
) -> Result<(), FsError>
    requires ready { IsReady (R.memory parts.old.region) parts.old }
    requires right { IsCacheOf (image_in R.memory parts.old) cache.old }
    ensures called { CarriesOut (R.memory parts.old.region) (rmdir text.now) (unit_answer result)
        (R.memory parts.new.region) }
    ensures snapshot_blocks { parts.new.snapshot_blocks ≡ parts.old.snapshot_blocks }
    ensures exact { IsExactIn R.memory parts.new }
    ensures right { IsCacheOf (image_in R.memory parts.new) cache.new }
{
    let empty = empty_entry(&parts.region, cache, text)?;
    remove(parts, empty.dir, empty.slot).map_err(no_space)?;
    cache.leave(empty.at());
    cache.drop_directory(empty.ino);
    Ok(())
}
