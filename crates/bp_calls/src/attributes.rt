//! Attributes of inodes: words of the caller's own, which images of version 3 have.

ghost use Rattle.std.specs.Prelude.{true, ◌≡◌, ◌+◌, ◌<◌, ◌≤◌, [], IfErr, OnErr, OnOk, length};
ghost use Rattle.bp_calls.specs.Commits.{CommitsChange, CommitsOrLacksSpace};
ghost use Rattle.bp_calls.specs.Mounted.{image_in, IsMountedIn};
ghost use Rattle.bp_calls.specs.Space.{HasRoomWhereFree, LacksSpace};
ghost use Rattle.bp_calls.specs.ThawsFor.{ThawsBefore};
ghost use Rattle.bp_changes.specs.Effects.{SetsAttribute};
ghost use Rattle.bp_changes.specs.Sets.{in_snapshot_of};
ghost use Rattle.bp_layout.specs.Formatted.{version_of};
ghost use Rattle.bp_layout.specs.Inode.{attribute, root_of};
ghost use Rattle.bp_layout.specs.Need.Change.{sets};
ghost use Rattle.bp_layout.specs.Reached.{IsReached};
ghost use Rattle.bp_layout.specs.Thaw.{targets, thawed};
ghost use Rattle.bp_layout.specs.WellFormed.{IsWellFormed};
ghost use Rattle.bp_layout.specs.WordPaths.{inode_path};
ghost use Rattle.bp_layout.specs.Words.{height_of};
ghost use Rattle.bp_limits.specs.CallLimits.{allows_attributes};
ghost use Rattle.bp_limits.specs.Limits.{attribute_field, attributes};
ghost use Rattle.bp_thaw.specs.Thaws.{paths_in};
ghost use Rattle.pm_region.specs.Memory.{room_in, words_in};

use crate::targets::Targets;
use crate::thaw::thaw_before;
use bp_free::{NoSpace, Parts};
use bp_limits::{ATTRIBUTE_FIELD, INODE_SIZE, WORD_SIZE};
use bp_read::inodes::{inode_file, place};
use bp_read::{Slots, word_path};
use pm_region::{Region, commit_word};

/// Returns an attribute of an inode, from number 0 on.
pub fn attribute<R: Region>(region: &R, ino: u32, number: u64) -> u64
    requires well_formed { IsWellFormed (words_in R.memory region.now) }
    requires reached { IsReached (words_in R.memory region.now) ino }
    requires some { 1 ≤ ino }
    requires number { number < attributes }
    requires version { allows_attributes (version_of (words_in R.memory region.now)) ≡ true }
    ensures { result ≡ attribute (words_in R.memory region.now) ino number }
{
    let at = place(region, ino, ATTRIBUTE_FIELD + number);
    region.load(at)
}

/// Returns the path of an attribute of an inode.
fn attribute_path<R: Region>(region: &R, ino: u32, number: u64) -> Slots
    requires words { 4 ≤ length (words_in R.memory region.now) }
    requires number { number < attributes }
    ensures { result.items ≡ inode_path (height_of (root_of (words_in R.memory region.now) 0)) ino (attribute_field + number) }
{
    word_path(
        inode_file(region),
        INODE_SIZE * u64::from(ino) + WORD_SIZE * (ATTRIBUTE_FIELD + number),
    )
}

/// Returns the target of setting an attribute: its word alone.
fn setting<R: Region>(region: &R, ino: u32, number: u64) -> Targets
    requires well_formed { IsWellFormed (words_in R.memory region.now) }
    requires reached { IsReached (words_in R.memory region.now) ino }
    requires number { number < attributes }
    ensures { paths_in result ≡ targets (words_in R.memory region.now) (sets ino number) }
{
    let mut targets = Targets::new();
    targets.push(attribute_path(region, ino, number));
    targets
}

/// Thaws the blocks of the snapshot on the path to an attribute.
///
/// # Errors
///
/// Nothing has changed then.
///
/// - `NoSpace`: fewer blocks are free than the thaw takes. It is returned in exactly this case.
fn thaw_attribute<R: Region>(parts: &mut Parts<R>, ino: u32, number: u64) -> Result<(), NoSpace>
    requires mounted { IsMountedIn R.memory parts.old }
    requires reached { IsReached (image_in R.memory parts.old) ino }
    requires number { number < attributes }
    requires room { HasRoomWhereFree (R.memory parts.old.region) (in_snapshot_of parts.old) parts.old.free_blocks (sets ino number) }
    ensures thaws { OnOk result (ThawsBefore R.memory parts.old parts.new (sets ino number)) }
    ensures room { OnOk result (3 ≤ room_in (R.memory parts.new.region)) }
    ensures refused { IfErr result (LacksSpace (image_in R.memory parts.old) (in_snapshot_of parts.old) (sets ino number)) }
    ensures same { OnErr result (parts.new ≡ parts.old) }
{
    if parts.snapshot_blocks.count() == 0 {
        return Ok(());
    }
    let targets = setting(&parts.region, ino, number);
    thaw_before(parts, &targets, 0)
}

/// Does what [`set_attribute`] does once no block is left to thaw.
fn put_attribute<R: Region>(parts: &mut Parts<R>, ino: u32, number: u64, value: u64)
    requires mounted { IsMountedIn R.memory parts.old }
    requires reached { IsReached (image_in R.memory parts.old) ino }
    requires some { 1 ≤ ino }
    requires number { number < attributes }
    requires version { allows_attributes (version_of (image_in R.memory parts.old)) ≡ true }
    requires clear { thawed (image_in R.memory parts.old) (in_snapshot_of parts.old) (sets ino number) ≡ [] }
    requires room { 3 ≤ room_in (R.memory parts.old.region) }
    ensures { CommitsChange R.memory parts.old parts.new (sets ino number) (λ image after. SetsAttribute image after ino number value) }
{
    let at = place(&parts.region, ino, ATTRIBUTE_FIELD + number);
    commit_word(&mut parts.region, at, value);
}

/// Gives an attribute of a file or a directory a value, by one store alone in its epoch. It needs no block except those
/// that it thaws.
///
/// # Errors
///
/// Nothing has changed then.
///
/// - `NoSpace`: fewer blocks are free than the call needs. It is returned in exactly this case.
pub fn set_attribute<R: Region>(
    parts: &mut Parts<R>,
    ino: u32,
    attribute: u64,
    value: u64,
) -> Result<(), NoSpace>
    requires mounted { IsMountedIn R.memory parts.old }
    requires reached { IsReached (image_in R.memory parts.old) ino }
    requires some { 1 ≤ ino }
    requires attribute { attribute < attributes }
    requires version { allows_attributes (version_of (image_in R.memory parts.old)) ≡ true }
    requires room { HasRoomWhereFree (R.memory parts.old.region) (in_snapshot_of parts.old) parts.old.free_blocks (sets ino attribute) }
    ensures { CommitsOrLacksSpace R.memory parts.old parts.new result (sets ino attribute)
        (λ image after. SetsAttribute image after ino attribute value) }
{
    match thaw_attribute(parts, ino, attribute) {
        Ok(()) => {
            put_attribute(parts, ino, attribute, value);
            Ok(())
        }
        Err(lacks) => Err(lacks),
    }
}
