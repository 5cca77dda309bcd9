//! New files and directories.

ghost use Rattle.std.specs.Prelude.{◌≡◌};
ghost use Rattle.bp_cache.specs.Cache.{IsCacheOf};
ghost use Rattle.bp_layout.specs.Directory.{empty_slot};
ghost use Rattle.bp_volume.specs.Carried.{CarriesOut, making};
ghost use Rattle.bp_volume.specs.Ready.{IsReady};
ghost use Rattle.bp_volume.specs.Seen.{unit_answer};
ghost use Rattle.bp_fs.specs.Step.{FindsNew};
ghost use Rattle.bp_calls.specs.Mounted.{image_in, IsExactIn};

use crate::lookup::{NewName, new_name, slot_for};
use crate::refusals::no_space;
use bp_cache::DirectoryCache;
use bp_calls::create_in;
use bp_free::Parts;
use bp_layout::Kind;
use bp_plain::FsError;
use pm_region::Region;

/// Creates a file or a directory at the new name that a path text spells.
fn create_new<R: Region>(
    parts: &mut Parts<R>,
    cache: &mut DirectoryCache,
    text: &[u8],
    new: NewName<'_>,
    kind: Kind,
) -> Result<(), FsError>
    requires ready { IsReady (R.memory parts.old.region) parts.old }
    requires new { FindsNew (image_in R.memory parts.old) text.now new.dir new.name.now }
    requires slot { new.slot ≡ empty_slot (image_in R.memory parts.old) new.dir }
    requires right { IsCacheOf (image_in R.memory parts.old) cache.old }
    ensures called { CarriesOut (R.memory parts.old.region) (making kind text.now) (unit_answer result)
        (R.memory parts.new.region) }
    ensures snapshot_blocks { parts.new.snapshot_blocks ≡ parts.old.snapshot_blocks }
    ensures exact { IsExactIn R.memory parts.new }
    ensures right { IsCacheOf (image_in R.memory parts.new) cache.new }
{
    let slot = slot_for(&parts.region, new.dir, new.slot);
    create_in(parts, new.dir, new.slot, new.name, kind).map_err(no_space)?;
    cache.enter(new.at(slot));
    Ok(())
}

/// Carries out `create` or `mkdir`, except for the end-of-call marker.
pub(crate) fn do_create<R: Region>(
    parts: &mut Parts<R>,
    cache: &mut DirectoryCache,
    text: &[u8],
    kind: Kind,
) -> Result<(), FsError>
    requires ready { IsReady (R.memory parts.old.region) parts.old }
    requires right { IsCacheOf (image_in R.memory parts.old) cache.old }
    ensures called { CarriesOut (R.memory parts.old.region) (making kind text.now) (unit_answer result)
        (R.memory parts.new.region) }
    ensures snapshot_blocks { parts.new.snapshot_blocks ≡ parts.old.snapshot_blocks }
    ensures exact { IsExactIn R.memory parts.new }
    ensures right { IsCacheOf (image_in R.memory parts.new) cache.new }
{
    let new = new_name(&parts.region, cache, text)?;
    create_new(parts, cache, text, new, kind)
}
