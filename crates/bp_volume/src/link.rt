//! Hard links.

ghost use Rattle.std.specs.Prelude.{◌≡◌, IfErr, IfOk};
ghost use Rattle.bp_cache.specs.Cache.{IsCacheOf};
ghost use Rattle.bp_layout.specs.Directory.{empty_slot};
ghost use Rattle.bp_layout.specs.Inode.{IsFile};
ghost use Rattle.bp_layout.specs.WellFormed.{IsWellFormed};
ghost use Rattle.bp_plain.specs.Calls.Call.{link};
ghost use Rattle.bp_plain.specs.Seen.{refusal_of};
ghost use Rattle.bp_volume.specs.Carried.{CarriesOut};
ghost use Rattle.bp_volume.specs.Ready.{IsReady};
ghost use Rattle.bp_volume.specs.Seen.{unit_answer};
ghost use Rattle.bp_fs.specs.Step.{FindsNew, PathFinds};
ghost use Rattle.bp_volume.specs.Queries.{Refuses};
ghost use Rattle.pm_region.specs.Memory.{words_in};
ghost use Rattle.bp_calls.specs.Mounted.{image_in, IsExactIn};

use crate::lookup::{NewName, bad_path, file_at, new_on, slot_for};
use crate::refusals::no_space;
use bp_cache::DirectoryCache;
use bp_calls::link_in;
use bp_free::Parts;
use bp_path::parse;
use bp_plain::FsError;
use pm_region::Region;

/// The ends of a link: a file, and the new name that it gets.
#[derive(Clone, Copy)]
pub(crate) struct LinkEnds<'a> {
    /// The file's inode.
    pub inode: u32,
    /// The new name.
    pub name: NewName<'a>,
}

/// Returns the file that the first path text finds, and the new name that the second one spells.
fn link_ends<'a, R: Region>(
    region: &R,
    cache: &mut DirectoryCache,
    from: &[u8],
    to: &'a [u8],
) -> Result<LinkEnds<'a>, FsError>
    requires well_formed { IsWellFormed (words_in R.memory region.now) }
    requires right { IsCacheOf (words_in R.memory region.now) cache.old }
    ensures found { IfOk result (λ ends. PathFinds (words_in R.memory region.now) from.now ends.inode) }
    ensures kind { IfOk result (λ ends. IsFile (words_in R.memory region.now) ends.inode) }
    ensures new { IfOk result
        (λ ends. FindsNew (words_in R.memory region.now) to.now ends.name.dir ends.name.name.now) }
    ensures slot { IfOk result (λ ends. ends.name.slot ≡ empty_slot (words_in R.memory region.now) ends.name.dir) }
    ensures refused { IfErr result (λ e. Refuses (words_in R.memory region.now) (link from.now to.now) (refusal_of e)) }
    ensures right { IsCacheOf (words_in R.memory region.now) cache.new }
{
    // Both texts must be paths before any file is looked up.
    let path = parse(to).map_err(bad_path)?;
    let file = file_at(region, cache, from)?;
    let name = new_on(region, cache, &path)?;
    Ok(LinkEnds {
        inode: file.ino,
        name,
    })
}

/// Gives the file that the first path text finds the new name that the second one spells.
fn link_found<R: Region>(
    parts: &mut Parts<R>,
    cache: &mut DirectoryCache,
    from: &[u8],
    to: &[u8],
    ends: LinkEnds<'_>,
) -> Result<(), FsError>
    requires ready { IsReady (R.memory parts.old.region) parts.old }
    requires at { PathFinds (image_in R.memory parts.old) from.now ends.inode }
    requires kind { IsFile (image_in R.memory parts.old) ends.inode }
    requires new { FindsNew (image_in R.memory parts.old) to.now ends.name.dir ends.name.name.now }
    requires slot { ends.name.slot ≡ empty_slot (image_in R.memory parts.old) ends.name.dir }
    requires right { IsCacheOf (image_in R.memory parts.old) cache.old }
    ensures called { CarriesOut (R.memory parts.old.region) (link from.now to.now) (unit_answer result)
        (R.memory parts.new.region) }
    ensures snapshot_blocks { parts.new.snapshot_blocks ≡ parts.old.snapshot_blocks }
    ensures exact { IsExactIn R.memory parts.new }
    ensures right { IsCacheOf (image_in R.memory parts.new) cache.new }
{
    let new = ends.name;
    let slot = slot_for(&parts.region, new.dir, new.slot);
    link_in(parts, new.dir, new.slot, new.name, ends.inode).map_err(no_space)?;
    cache.enter(new.at(slot));
    Ok(())
}

/// Carries out `link`, except for its end-of-call marker.
pub(crate) fn do_link<R: Region>(
    parts: &mut Parts<R>,
    cache: &mut DirectoryCache,
    from: &[u8],
    to: &[u8],
) -> Result<(), FsError>
    requires ready { IsReady (R.memory parts.old.region) parts.old }
    requires right { IsCacheOf (image_in R.memory parts.old) cache.old }
    ensures called { CarriesOut (R.memory parts.old.region) (link from.now to.now) (unit_answer result)
        (R.memory parts.new.region) }
    ensures snapshot_blocks { parts.new.snapshot_blocks ≡ parts.old.snapshot_blocks }
    ensures exact { IsExactIn R.memory parts.new }
    ensures right { IsCacheOf (image_in R.memory parts.new) cache.new }
{
    let ends = link_ends(&parts.region, cache, from, to)?;
    link_found(parts, cache, from, to, ends)
}
