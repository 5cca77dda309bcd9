//! One entry of a directory.

ghost use Rattle.std.specs.Prelude.{◌≡◌, ◌≢◌, ◌/◌, ◌<◌, ◌≤◌, length, IfSome, IfNone};
ghost use Rattle.bp_layout.specs.EntryWords.{HasWords};
ghost use Rattle.bp_cache.specs.Entries.{IsEntryAt, IsNotAt};
ghost use Rattle.bp_layout.specs.Directory.{ino_in};
ghost use Rattle.bp_layout.specs.Tree.{IsSound};
ghost use Rattle.bp_limits.specs.Limits.{entry_size};
ghost use Rattle.bp_limits.specs.CallLimits.{max_name};
ghost use Rattle.pm_region.specs.Memory.{words_in};

use bp_layout::{EntryView, last_word};
use bp_limits::ENTRY_SIZE;
use bp_read::directory::entry;
use bp_read::{Found, Tree};
use pm_region::Region;

/// Returns the entry in a slot; `None` if it is empty.
pub(crate) fn live_entry<R: Region>(region: &R, tree: Tree, slot: u64) -> Option<EntryView<'_>>
    requires sound { IsSound (words_in R.memory region.now) tree.root tree.size }
    requires live { slot < tree.size / entry_size }
    ensures words { IfSome result (λ entry. HasWords (words_in R.memory region.now) tree.root slot entry.words.now) }
    ensures some { IfSome result (λ entry. ino_in (words_in R.memory region.now) tree.root slot ≢ 0) }
    ensures none { IfNone result (ino_in (words_in R.memory region.now) tree.root slot ≡ 0) }
{
    let entry = entry(region, tree, slot)?;
    if entry.ino() == 0 {
        return None;
    }
    Some(entry)
}

/// Returns the entry in a slot; `None` if it is not below the size, or does not refer to an inode by this name.
pub(crate) fn find_at<R: Region>(region: &R, tree: Tree, slot: u64, name: &[u8]) -> Option<Found>
    requires sound { IsSound (words_in R.memory region.now) tree.root tree.size }
    requires short { length name.now ≤ max_name }
    ensures some { IfSome result (IsEntryAt (words_in R.memory region.now) tree.root tree.size name.now slot) }
    ensures none { IfNone result (IsNotAt (words_in R.memory region.now) tree.root tree.size name.now slot) }
{
    if slot >= tree.size / ENTRY_SIZE {
        return None;
    }
    let entry = live_entry(region, tree, slot)?;
    if !entry.is_named(name, last_word(name)) {
        return None;
    }
    Some(Found {
        slot,
        ino: entry.ino(),
    })
}
