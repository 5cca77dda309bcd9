//! The thaw.

ghost use Rattle.std.specs.Prelude.{◌≡◌, ◌≤◌, length};
ghost use Rattle.bp_free.specs.Set.{has};
ghost use Rattle.bp_free.specs.Parts.{KeepsSets};
ghost use Rattle.bp_layout.specs.Members.{Has};
ghost use Rattle.bp_layout.specs.WellFormed.{IsWellFormed};
ghost use Rattle.bp_layout.specs.WordPaths.{WordPath};
ghost use Rattle.bp_layout.specs.Words.{block_count};
ghost use Rattle.pm_region.specs.Memory.{words_in};
ghost use Rattle.bp_layout.specs.Thaw.{thawed_on};
ghost use Rattle.bp_thaw.specs.Prefixes.{IsWayIn};
ghost use Rattle.bp_thaw.specs.Thaws.{CanThaw, ThawsIn, paths_in};

use crate::copies::{fill_all, take_all};
use crate::find::find;
use crate::links::{links_to, store_links};
use arrayvec::ArrayVec;
use bp_free::Parts;
use bp_read::Slots;
use pm_region::Region;

/// Returns how many blocks a thaw of the ways to some words copies.
pub fn thaw_need<R: Region>(parts: &Parts<R>, targets: &ArrayVec<Slots, 8>) -> u32
    requires well_formed { IsWellFormed (words_in R.memory parts.now.region) }
    requires snapshot_blocks { block_count (words_in R.memory parts.now.region) ≤ length parts.now.snapshot_blocks }
    requires ways { (path : WordPath) → Has (paths_in targets.now) path →
        IsWayIn (words_in R.memory parts.now.region) path }
    ensures need { result ≡ length (thawed_on (words_in R.memory parts.now.region) (has parts.now.snapshot_blocks)
        (paths_in targets.now)) }
    ensures few { result ≤ 96 }
{
    find(&parts.region, &parts.snapshot_blocks, targets).len() as u32
}

/// Copies the blocks of the snapshot on the ways to some words, and sets the pointers to them to the copies. At each
/// crash point the meaning of the image is unchanged.
pub fn thaw<R: Region>(parts: &mut Parts<R>, targets: &ArrayVec<Slots, 8>)
    requires can { CanThaw (has parts.old.snapshot_blocks) (paths_in targets.now) (R.memory parts.old.region) parts.old.free_blocks }
    requires snapshot_blocks { block_count (words_in R.memory parts.old.region) ≤ length parts.old.snapshot_blocks }
    ensures thaws { ThawsIn R.memory (paths_in targets.now) parts.old parts.new }
    ensures keeps { KeepsSets parts.old parts.new }
{
    let places = find(&parts.region, &parts.snapshot_blocks, targets);
    if places.is_empty() {
        return;
    }
    let copies = take_all(&mut parts.free_blocks, &places);
    fill_all(&mut parts.region, &copies);
    let links = links_to(&parts.region, &copies);
    store_links(&mut parts.region, &links);
}
