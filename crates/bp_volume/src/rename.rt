//! Renames.

ghost use Rattle.std.specs.Prelude.{◌≡◌, ◌≢◌, ◌≤◌, IfErr, IfOk, OnOk, None, Some, [], false, option_map};
ghost use Rattle.bp_cache.specs.Cache.{IsCacheOf};
ghost use Rattle.bp_layout.specs.Directory.{empty_slot, slot_named};
ghost use Rattle.bp_layout.specs.Reached.{IsReached};
ghost use Rattle.bp_layout.specs.WellFormed.{IsWellFormed};
ghost use Rattle.bp_layout.specs.Words.{Image};
ghost use Rattle.bp_path.specs.Names.{AreBeside};
ghost use Rattle.bp_plain.specs.Calls.Call.{rename};
ghost use Rattle.bp_plain.specs.Seen.{refusal_of};
ghost use Rattle.bp_volume.specs.Carried.{CarriesOut};
ghost use Rattle.bp_volume.specs.Ready.{IsReady};
ghost use Rattle.bp_volume.specs.Renaming.{Allows, AreRenameEnds, CanUnlinkThere, FindsEnds, IsMoveOf, IsNewName, IsTarget, MayMove, MovesName, are_same};
ghost use Rattle.bp_volume.specs.Seen.{unit_answer};
ghost use Rattle.bp_fs.specs.Step.{IsEntryOn};
ghost use Rattle.bp_volume.specs.Queries.{Refuses, RefusesRename};
ghost use Rattle.pm_region.specs.Memory.{words_in};
ghost use Rattle.bp_calls.specs.Mounted.{image_in, IsExactIn};

use crate::lookup::{
    NamedEntry, Target, bad_path, both_of, entry_on, refused, slot_for, target_in, target_on,
};
use crate::refusals::no_space;
use bp_cache::{DirectoryCache, NameAt};
use bp_free::Parts;
use bp_layout::Kind;
use bp_path::{FoundEntry, Path, parse, walk_parent_by};
use bp_plain::FsError;
use bp_read::Tree;
use bp_read::directory::is_empty;
use bp_read::inodes::get;
use bp_rename::{Move, rename};
use pm_region::Region;

/// The ends of a rename: the entry that moves, and its new directory and name.
#[derive(Clone, Copy)]
pub(crate) struct Ends<'a> {
    /// The entry that moves.
    pub source: NamedEntry<'a>,
    /// The new name, and the entry that has it, if any.
    pub target: Target<'a>,
}

/// Returns the ends of a rename whose two paths name entries of one directory. Both names are searched for there at
/// once.
fn ends_beside<'a, R: Region>(
    region: &R,
    cache: &mut DirectoryCache,
    from: &Path<'a>,
    to: &Path<'a>,
) -> Result<Ends<'a>, FsError>
    requires well_formed { IsWellFormed (words_in R.memory region.now) }
    requires below { from.now ≢ [] }
    requires below_too { to.now ≢ [] }
    requires beside { AreBeside from.now to.now }
    requires right { IsCacheOf (words_in R.memory region.now) cache.old }
    ensures source { IfOk result
        (λ ends. IsEntryOn (words_in R.memory region.now) from.now ends.source.dir ends.source.slot ends.source.ino) }
    ensures named { IfOk result
        (λ ends. slot_named (words_in R.memory region.now) ends.source.dir ends.source.name.now ≡ Some ends.source.slot) }
    ensures target { IfOk result (λ ends. IsTarget (words_in R.memory region.now) to.now ends.target) }
    ensures refused { IfErr result (λ e. RefusesRename (words_in R.memory region.now) from.now to.now (refusal_of e)) }
    ensures right { IsCacheOf (words_in R.memory region.now) cache.new }
{
    let dir = walk_parent_by(region, from, cache).map_err(refused)?;
    let name = from.last();
    let new = to.last();
    let both = both_of(region, cache, dir, name, new);
    match both.found {
        None => Err(FsError::NotFound),
        Some(found) => {
            let source = NamedEntry {
                ino: found.ino as u32,
                dir,
                name,
                slot: found.slot,
            };
            Ok(Ends {
                source,
                target: target_in(region, dir, new, both.spot),
            })
        }
    }
}

/// Returns the ends of a rename, if the walks to both find them.
fn found_ends<'a, R: Region>(
    region: &R,
    cache: &mut DirectoryCache,
    from: &Path<'a>,
    to: &Path<'a>,
) -> Result<Ends<'a>, FsError>
    requires well_formed { IsWellFormed (words_in R.memory region.now) }
    requires below { from.now ≢ [] }
    requires below_too { to.now ≢ [] }
    requires right { IsCacheOf (words_in R.memory region.now) cache.old }
    ensures source { IfOk result
        (λ ends. IsEntryOn (words_in R.memory region.now) from.now ends.source.dir ends.source.slot ends.source.ino) }
    ensures named { IfOk result
        (λ ends. slot_named (words_in R.memory region.now) ends.source.dir ends.source.name.now ≡ Some ends.source.slot) }
    ensures target { IfOk result (λ ends. IsTarget (words_in R.memory region.now) to.now ends.target) }
    ensures refused { IfErr result (λ e. RefusesRename (words_in R.memory region.now) from.now to.now (refusal_of e)) }
    ensures right { IsCacheOf (words_in R.memory region.now) cache.new }
{
    if from.is_beside(to) {
        return ends_beside(region, cache, from, to);
    }
    let source = entry_on(region, cache, from)?;
    let target = target_on(region, cache, to)?;
    Ok(Ends { source, target })
}

/// Returns the ends of a rename from one path to another.
fn ends_on<'a, R: Region>(
    region: &R,
    cache: &mut DirectoryCache,
    from: &Path<'a>,
    to: &Path<'a>,
) -> Result<Ends<'a>, FsError>
    requires well_formed { IsWellFormed (words_in R.memory region.now) }
    requires right { IsCacheOf (words_in R.memory region.now) cache.old }
    ensures found { IfOk result (λ ends. AreRenameEnds (words_in R.memory region.now) from.now to.now ends) }
    ensures refused { IfErr result (λ e. RefusesRename (words_in R.memory region.now) from.now to.now (refusal_of e)) }
    ensures right { IsCacheOf (words_in R.memory region.now) cache.new }
{
    if from.is_root() {
        return Err(FsError::IsRoot);
    }
    if to.is_root() {
        return Err(FsError::IsRoot);
    }
    let ends = found_ends(region, cache, from, to)?;
    if to.is_below(from) {
        Err(FsError::IntoSelf)
    } else {
        Ok(ends)
    }
}

/// Returns the ends of a rename from one path text to another.
fn ends_at<'a, R: Region>(
    region: &R,
    cache: &mut DirectoryCache,
    from: &'a [u8],
    to: &'a [u8],
) -> Result<Ends<'a>, FsError>
    requires well_formed { IsWellFormed (words_in R.memory region.now) }
    requires right { IsCacheOf (words_in R.memory region.now) cache.old }
    ensures found { IfOk result (λ ends. FindsEnds (words_in R.memory region.now) from.now to.now ends) }
    ensures refused { IfErr result
        (λ e. Refuses (words_in R.memory region.now) (rename from.now to.now) (refusal_of e)) }
    ensures right { IsCacheOf (words_in R.memory region.now) cache.new }
{
    let source = parse(from).map_err(bad_path)?;
    let target = parse(to).map_err(bad_path)?;
    ends_on(region, cache, &source, &target)
}

/// Refuses a rename onto an entry that it may not replace: a file may only replace a file, and a directory only an
/// empty directory.
fn may_replace<R: Region>(
    region: &R,
    from: &[u8],
    to: &[u8],
    ends: &Ends<'_>,
    there: FoundEntry,
) -> Result<(), FsError>
    requires well_formed { IsWellFormed (words_in R.memory region.now) }
    requires found { FindsEnds (words_in R.memory region.now) from.now to.now ends.now }
    requires there { ends.now.target.there ≡ Some there }
    requires other { are_same ends.now ≡ false }
    ensures leaves { OnOk result (CanUnlinkThere (words_in R.memory region.now) ends.now there) }
    ensures allowed { OnOk result (Allows (words_in R.memory region.now) (rename from.now to.now)) }
    ensures refused { IfErr result
        (λ e. Refuses (words_in R.memory region.now) (rename from.now to.now) (refusal_of e)) }
{
    let source = get(region, ends.source.ino);
    let target = get(region, there.ino);
    match target.kind {
        Kind::File => match source.kind {
            Kind::File => Ok(()),
            Kind::Dir => Err(FsError::NotDir),
        },
        Kind::Dir => match source.kind {
            Kind::File => Err(FsError::IsDir),
            Kind::Dir => {
                let tree = Tree::of(&target);
                if is_empty(region, tree) {
                    Ok(())
                } else {
                    Err(FsError::NotEmpty)
                }
            }
        },
    }
}

/// Refuses a rename whose new name belongs to an entry that it may not replace.
fn may_move<R: Region>(region: &R, from: &[u8], to: &[u8], ends: &Ends<'_>) -> Result<(), FsError>
    requires well_formed { IsWellFormed (words_in R.memory region.now) }
    requires found { FindsEnds (words_in R.memory region.now) from.now to.now ends.now }
    requires other { are_same ends.now ≡ false }
    ensures may { OnOk result (MayMove (words_in R.memory region.now) from.now to.now ends.now) }
    ensures refused { IfErr result
        (λ e. Refuses (words_in R.memory region.now) (rename from.now to.now) (refusal_of e)) }
{
    match ends.target.there {
        Some(there) => may_replace(region, from, to, ends, there),
        None => Ok(()),
    }
}

/// Returns whether both ends are one entry, or two links of one file.
fn are_same(ends: &Ends<'_>) -> bool
    ensures { result ≡ are_same ends.now }
{
    match ends.target.there {
        Some(there) => there.ino == ends.source.ino,
        None => false,
    }
}

/// Returns the slot of an entry.
fn slot_of(entry: Option<FoundEntry>) -> Option<u64>
    ensures { result ≡ option_map (λ there. there.slot) entry }
{
    match entry {
        Some(entry) => Some(entry.slot),
        None => None,
    }
}

/// Returns the move from the first end to the second.
fn move_of<'a>(ends: &Ends<'a>) -> Move<'a>
    ensures { IsMoveOf ends.now result }
{
    Move {
        from_dir: ends.source.dir,
        from_slot: ends.source.slot,
        to_dir: ends.target.dir,
        to_slot: slot_of(ends.target.there),
        name: ends.target.name,
    }
}

/// Returns the new name, and the slot that it gets. If an entry has this name, it is that entry's slot. Otherwise,
/// within its directory, it is the slot of the entry that moves; in another directory, the least empty slot, or the
/// one after the last entry.
fn target_at<'a, R: Region>(region: &R, ends: &Ends<'a>) -> NameAt<'a>
    requires well_formed { IsWellFormed (words_in R.memory region.now) }
    requires reached { IsReached (words_in R.memory region.now) ends.now.target.dir }
    requires inode { 1 ≤ ends.now.target.dir }
    requires empty { let target = ends.now.target in target.there ≡ None
        → target.empty ≡ empty_slot (words_in R.memory region.now) target.dir }
    ensures { IsNewName (words_in R.memory region.now) ends.now result }
{
    let target = &ends.target;
    match target.there {
        Some(there) => target.at(there.slot),
        None if target.dir == ends.source.dir => target.at(ends.source.slot),
        None => target.at(slot_for(region, target.dir, target.empty)),
    }
}

/// Updates the cache after a name has moved, with or without replacing an entry.
fn report_move(
    cache: &mut DirectoryCache,
    from: NameAt<'_>,
    to: NameAt<'_>,
    there: Option<FoundEntry>,
)
    ensures { (old new : Image) → IsCacheOf old cache.old → MovesName old new from.entry to.entry there
        → IsCacheOf new cache.new }
{
    match there {
        Some(entry) => {
            cache.replace(from, to);
            cache.drop_directory(entry.ino);
        }
        None => cache.rename(from, to),
    }
}

/// Moves a name that may move.
fn move_name<R: Region>(
    parts: &mut Parts<R>,
    cache: &mut DirectoryCache,
    from: &[u8],
    to: &[u8],
    ends: &Ends<'_>,
) -> Result<(), FsError>
    requires ready { IsReady (R.memory parts.old.region) parts.old }
    requires right { IsCacheOf (image_in R.memory parts.old) cache.old }
    requires may { MayMove (image_in R.memory parts.old) from.now to.now ends.now }
    ensures called { CarriesOut (R.memory parts.old.region) (rename from.now to.now) (unit_answer result)
        (R.memory parts.new.region) }
    ensures snapshot_blocks { parts.new.snapshot_blocks ≡ parts.old.snapshot_blocks }
    ensures exact { IsExactIn R.memory parts.new }
    ensures right { IsCacheOf (image_in R.memory parts.new) cache.new }
{
    let to_move = move_of(ends);
    let target = target_at(&parts.region, ends);
    rename(parts, &to_move, ends.target.empty).map_err(no_space)?;
    report_move(cache, ends.source.at(), target, ends.target.there);
    Ok(())
}

/// Moves a name between the ends that were found. If both ends are the same entry, or two links of one file, nothing
/// changes.
fn rename_found<R: Region>(
    parts: &mut Parts<R>,
    cache: &mut DirectoryCache,
    from: &[u8],
    to: &[u8],
    ends: &Ends<'_>,
) -> Result<(), FsError>
    requires ready { IsReady (R.memory parts.old.region) parts.old }
    requires right { IsCacheOf (image_in R.memory parts.old) cache.old }
    requires found { FindsEnds (image_in R.memory parts.old) from.now to.now ends.now }
    ensures called { CarriesOut (R.memory parts.old.region) (rename from.now to.now) (unit_answer result)
        (R.memory parts.new.region) }
    ensures snapshot_blocks { parts.new.snapshot_blocks ≡ parts.old.snapshot_blocks }
    ensures exact { IsExactIn R.memory parts.new }
    ensures right { IsCacheOf (image_in R.memory parts.new) cache.new }
{
    if are_same(ends) {
        return Ok(());
    }
    may_move(&parts.region, from, to, ends)?;
    move_name(parts, cache, from, to, ends)
}

/// Carries out `rename`, except for its end-of-call marker.
pub(crate) fn do_rename<R: Region>(
    parts: &mut Parts<R>,
    cache: &mut DirectoryCache,
    from: &[u8],
    to: &[u8],
) -> Result<(), FsError>
    requires ready { IsReady (R.memory parts.old.region) parts.old }
    requires right { IsCacheOf (image_in R.memory parts.old) cache.old }
    ensures called { CarriesOut (R.memory parts.old.region) (rename from.now to.now) (unit_answer result)
        (R.memory parts.new.region) }
    ensures snapshot_blocks { parts.new.snapshot_blocks ≡ parts.old.snapshot_blocks }
    ensures exact { IsExactIn R.memory parts.new }
    ensures right { IsCacheOf (image_in R.memory parts.new) cache.new }
{
    let ends = ends_at(&parts.region, cache, from, to)?;
    rename_found(parts, cache, from, to, &ends)
}
