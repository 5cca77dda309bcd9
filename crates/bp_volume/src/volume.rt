//! The volume.

ghost use Rattle.std.specs.List.{All};
ghost use Rattle.std.specs.Prelude.{[], ◌*◌, ◌≡◌, ◌⊎◌, ◌<◌, ◌≤◌, ◌↔◌, IfErr, IfOk, IsOk, OnErr, OnOk, drop, length, map};
ghost use Rattle.bp_cache.specs.Cache.{IsCacheOf};
ghost use Rattle.bp_layout.specs.Formatted.{IsSized};
ghost use Rattle.bp_layout.specs.Whole.{HasSpace, IsFileSystem};
ghost use Rattle.bp_layout.specs.Words.{block_count, word};
ghost use Rattle.bp_limits.specs.Limits.{attributes, block_inodes, call_room, max_pieces, max_read, super_magic};
ghost use Rattle.pm_epochs.specs.Log.{call_ends};
ghost use Rattle.pm_epochs.specs.Replay.{IsRight, after_calls, kept_calls};
ghost use Rattle.pm_region.specs.Memory.{crashed, current_words, drained, room_in, with_room};
ghost use Rattle.pm_region.specs.Safe.{IsSafe};
ghost use Rattle.bp_limits.specs.declared.version.Version.TheVariants.{One};
ghost use Rattle.bp_plain.specs.Calls.Call.{attribute, batch, create, link, links, list, mkdir, read, rename, rmdir};
ghost use Rattle.bp_plain.specs.Calls.Call.{set_attribute, snap, snap_list, snap_read, snap_stat, stat, truncate, unlink, unsnap, upgrade, write};
ghost use Rattle.bp_plain.specs.PlainTree.{empty_tree};
ghost use Rattle.bp_plain.specs.Seen.{CanAsk, LiesIn, call_of, piece_in};
ghost use Rattle.bp_plain.specs.Stands.{Stands};
ghost use Rattle.bp_roles.specs.Mounted.{SameDurable, by_roles, roles_of, served_words};
ghost use Rattle.bp_roles.specs.Seen.{IsWide, seen};
ghost use Rattle.bp_scan.specs.Faults.{IsFault};
ghost use Rattle.bp_layout.specs.Totals.{HasLive, HasTotals};
ghost use Rattle.bp_fs.specs.Called.{Called};
ghost use Rattle.bp_mount.specs.Faults.{IsMountFault};
ghost use Rattle.bp_fs.specs.FileCall.{FileCall};
ghost use Rattle.bp_mount.specs.Laid.{formatted_memory};
ghost use Rattle.bp_volume.specs.Seen.{attribute_answer, links_answer, list_answer_of, read_answer_of, stat_answer_of, unit_answer};

mod looks;
mod upgrades;

use crate::attributes::{do_attribute, do_set_attribute};
use crate::batch::do_batch;
use crate::create::do_create;
use crate::link::do_link;
use crate::memory::memory_for;
use crate::queries::{do_links, do_list, do_read, do_stat};
use crate::remove::{do_rmdir, do_unlink};
use crate::rename::do_rename;
use crate::replies::{
    report_attribute, report_done, report_links, report_list, report_read, report_stat,
};
use crate::rescan::rescan;
use crate::resize::do_truncate;
use crate::snapshot::{do_snap, do_snap_list, do_snap_read, do_snap_stat, do_unsnap};
use crate::write::do_write;
use bp_cache::DirectoryCache;
use bp_free::Parts;
use bp_fs::{Space, needs_drain};
use bp_layout::{Kind, Listing, Stat, Totals};
use bp_limits::{BLOCK_WORDS, Version};
use bp_mount::{MountFault, Sets, lay_out, stored_fault};
use bp_plain::{Call, FsError, Piece, Reply};
use bp_roles::{RegionByRoles, Roles};
use bp_scan::{Pending, scan_whole};
use pm_epochs::{BadChoice, Choice, Kept};
use pm_region::Region;
use std::alloc::Global;
use std::marker::Model;

/// A file system over a region. Contracts describe it by the region's memory, and its files by the words as a mount
/// sees them (`served_words`).
#[derive(Drop)]
pub struct Volume<R: Region> {
    parts: Parts<RegionByRoles<R>>,
    pending: Pending,
    cache: DirectoryCache,
}

impl<R: Region> Model for Volume<R> {
    ghost use Rattle.pm_region.specs.Memory.{Memory};
    ghost use Rattle.bp_volume.specs.Volume.{IsCachedVolume};

    ghost Value = { Memory };

    ghost view = { λ v. v.parts.region.memory };

    ghost invariant = { λ v. IsCachedVolume v.parts v.pending v.cache };
}

impl<R: Region> Volume<R> {
    /// Formats a region of 8 to 67,108,864 blocks of 512 words, whatever they hold, as an empty file system of
    /// version 1.
    ///
    /// # Errors
    ///
    /// The region is returned unchanged.
    ///
    /// - `Memory`: allocation fails.
    pub fn format(alloc: Global, region: R) -> Result<Volume<R>, (R, MountFault)>
        requires sized { IsSized (R.memory region).base }
        requires fresh { (R.memory region).events ≡ [] }
        requires roomy { call_room ≤ (R.memory region).capacity }
        ensures made { IfOk result (λ volume. volume ≡ formatted_memory One (R.memory region)) }
        ensures empty { IfOk result (λ volume. Stands (served_words volume) (empty_tree One)) }
        ensures safe { IfOk result (IsSafe SameDurable) }
        ensures handed_back { IfErr result (λ e. e.0 ≡ region) }
        ensures memory { IfErr result (λ e. e.1 ≡ MountFault.Memory) }
    {
        Volume::format_as(alloc, region, Version::One)
    }

    /// Formats the region as [`Volume::format`] does, in the given version of the format.
    ///
    /// # Errors
    ///
    /// Those of [`Volume::format`].
    pub fn format_as(
        alloc: Global,
        region: R,
        version: Version,
    ) -> Result<Volume<R>, (R, MountFault)>
        requires sized { IsSized (R.memory region).base }
        requires fresh { (R.memory region).events ≡ [] }
        requires roomy { call_room ≤ (R.memory region).capacity }
        ensures made { IfOk result (λ volume. volume ≡ formatted_memory version (R.memory region)) }
        ensures empty { IfOk result (λ volume. Stands (served_words volume) (empty_tree version)) }
        ensures safe { IfOk result (IsSafe SameDurable) }
        ensures handed_back { IfErr result (λ e. e.0 ≡ region) }
        ensures memory { IfErr result (λ e. e.1 ≡ MountFault.Memory) }
    {
        let Ok((sets, cache)) = memory_for(alloc, (region.words() / BLOCK_WORDS) as u32) else {
            return Err((region, MountFault::Memory));
        };
        let mut region = region;
        lay_out(&mut region, version);
        // From here on a crash cannot leave the words that were there before: it always leaves a file system.
        region.drain();
        // The stores of a format turn any words into a file system.
        let view = RegionByRoles::new(region, Roles::OutsideA);
        Ok(Volume::of_file_system(view, sets, cache))
    }

    /// Mounts the file system of a formatted region of 8 to 67,108,864 blocks of 512 words. Its magic number says where
    /// the superblock has the roots of the two trees.
    ///
    /// # Errors
    ///
    /// The region is returned with the same memory.
    ///
    /// - `NotFormatted`: the region does not begin with a magic number of the format.
    /// - `BadSize`: it was formatted for another number of blocks.
    /// - `Damaged`: a check of the format fails; it holds one check that does, and the word of the region at which it
    ///   does.
    /// - `Memory`: allocation fails.
    pub fn mount(alloc: Global, region: R) -> Result<Volume<R>, (R, MountFault)>
        requires sized { IsSized (R.memory region).base }
        requires fresh { (R.memory region).events ≡ [] }
        requires roomy { call_room ≤ (R.memory region).capacity }
        ensures same { IfOk result (λ volume. volume ≡ R.memory region) }
        ensures well_formed { OnOk result (IsFileSystem (by_roles (R.memory region).base)) }
        ensures safe { IfOk result (IsSafe SameDurable) }
        ensures handed_back { IfErr result (λ e. R.memory e.0 ≡ R.memory region) }
        ensures fault { IfErr result (λ e. (e.1 ≡ MountFault.Memory) ⊎ IsMountFault (R.memory region).base e.1) }
        ensures exact { IsFileSystem (by_roles (R.memory region).base) → IfErr result (λ e. e.1 ≡ MountFault.Memory) }
    {
        let Ok((sets, cache)) = memory_for(alloc, (region.words() / BLOCK_WORDS) as u32) else {
            return Err((region, MountFault::Memory));
        };
        match Volume::scanned(alloc, RegionByRoles::by_magic(region), sets, cache) {
            Ok(volume) => Ok(volume),
            Err((view, fault)) => {
                let roles = view.roles();
                Err((view.into_region(), stored_fault(roles, fault)))
            }
        }
    }

    /// Returns the region of the volume. To a mount its words are a file system, and a crash at any point leaves a file
    /// system with the files and directories of some prefix of the calls.
    pub fn region(&self) -> &R
        ensures memory { R.memory result.now ≡ self.now }
        ensures safe { IsSafe SameDurable self.now }
    {
        self.parts.region.region()
    }

    /// Returns the region, without the volume.
    pub fn into_region(self) -> R
        ensures { R.memory result ≡ self }
    {
        let Volume {
            parts,
            pending: _,
            cache: _,
        } = self;
        let Parts {
            region,
            free_blocks: _,
            free_inodes: _,
            link_counts: _,
            snapshot_blocks: _,
        } = parts;
        region.into_region()
    }

    /// Waits until all stores of the calls so far are written back, and empties the log.
    pub fn sync(&mut self)
        ensures drained { self.new ≡ drained self.old }
        ensures safe { IsSafe SameDurable self.new }
    {
        self.parts.region.drain();
    }

    /// Crashes, and continues with the words that the choice leaves and an empty log. To a mount they are a file system
    /// with the files and directories after the calls that are kept. It allocates no memory: the scan of the words uses the
    /// volume's own.
    ///
    /// # Errors
    ///
    /// Nothing has changed then.
    ///
    /// - `BadChoice`: the choice is not possible for the log. It is returned for exactly these choices.
    pub fn crash(&mut self, choice: &Choice) -> Result<Kept, BadChoice>
        ensures right { IsOk result ↔ IsRight self.old.events choice.now.cut }
        ensures left { OnOk result (self.new ≡ crashed self.old choice.now.cut) }
        ensures kept { IfOk result (λ kept. kept.c ≡ kept_calls self.old.events choice.now.cut) }
        ensures of { IfOk result (λ kept. kept.n ≡ call_ends self.old.events) }
        ensures shows { IfOk result
            (λ kept. SameDurable (current_words self.new) (after_calls self.old.base self.old.events kept.c)) }
        ensures safe { IsSafe SameDurable self.new }
        ensures err { OnErr result (self.new ≡ self.old) }
    {
        let kept = self.parts.region.crash_to(choice)?;
        self.cache.clear();
        rescan(&mut self.parts, &mut self.pending);
        Ok(kept)
    }

    /// Returns the totals of the volume: its files, directories and bytes, and the live blocks of both its trees. The
    /// time grows with the whole image, as for a mount. It allocates no memory.
    pub fn totals(&mut self) -> Totals
        ensures totals { HasTotals (served_words self.old) result }
        ensures same { self.new ≡ self.old }
    {
        rescan(&mut self.parts, &mut self.pending)
    }

    /// Returns the numbers of free blocks, and of blocks that are live in one of the trees or in both.
    pub fn space(&self) -> Space
        ensures free { HasSpace (served_words self.now) result.free }
        ensures live { HasLive (served_words self.now) result.live }
    {
        let free = self.parts.free_blocks.count();
        let live = self.parts.free_blocks.room() - free - 1;
        Space { free, live }
    }

    /// Creates an empty file at a path.
    ///
    /// # Errors
    ///
    /// The first of these that applies. Nothing has changed then.
    ///
    /// - `BadPath`: the text is no path.
    /// - `Exists`: the path is the root directory.
    /// - `NotFound`, `NotDir`: on the way to the parent directory, a name is missing or is searched for in a file. The
    ///   first such name decides.
    /// - `Exists`: the name is there.
    /// - `NoSpace`: fewer blocks are free than the file needs.
    pub fn create(&mut self, path: &[u8]) -> Result<(), FsError>
        ensures { FileCall self.old (create path.now) (unit_answer result) self.new }
    {
        self.make_room();
        let made = do_create(&mut self.parts, &mut self.cache, path, Kind::File);
        self.parts.region.end_call();
        made
    }

    /// Creates an empty directory at a path.
    ///
    /// # Errors
    ///
    /// The first of these that applies. Nothing has changed then.
    ///
    /// - `BadPath`: the text is no path.
    /// - `Exists`: the path is the root directory.
    /// - `NotFound`, `NotDir`: on the way to the parent directory, a name is missing or is searched for in a file. The
    ///   first such name decides.
    /// - `Exists`: the name is there.
    /// - `NoSpace`: fewer blocks are free than the directory needs.
    pub fn mkdir(&mut self, path: &[u8]) -> Result<(), FsError>
        ensures { FileCall self.old (mkdir path.now) (unit_answer result) self.new }
    {
        self.make_room();
        let made = do_create(&mut self.parts, &mut self.cache, path, Kind::Dir);
        self.parts.region.end_call();
        made
    }

    /// Removes a link of a file, and deletes the file with its last link. The blocks of a deleted file are free then,
    /// except those of the snapshot.
    ///
    /// # Errors
    ///
    /// The first of these that applies. Nothing has changed then.
    ///
    /// - `BadPath`: the text is no path.
    /// - `IsDir`: the path is the root directory.
    /// - `NotFound`, `NotDir`: a name of the path is missing or is searched for in a file. The first such name
    ///   decides.
    /// - `IsDir`: the path finds a directory.
    /// - `NoSpace`: there is a snapshot, and fewer blocks are free than the call has to copy because of it.
    pub fn unlink(&mut self, path: &[u8]) -> Result<(), FsError>
        ensures { FileCall self.old (unlink path.now) (unit_answer result) self.new }
    {
        self.make_room();
        let made = do_unlink(&mut self.parts, &mut self.cache, path);
        self.parts.region.end_call();
        made
    }

    /// Removes the empty directory at a path. Its blocks are free then, except those of the snapshot.
    ///
    /// # Errors
    ///
    /// The first of these that applies. Nothing has changed then.
    ///
    /// - `BadPath`: the text is no path.
    /// - `IsRoot`: the path is the root directory.
    /// - `NotFound`, `NotDir`: a name of the path is missing or is searched for in a file. The first such name
    ///   decides.
    /// - `NotDir`: the path finds a file.
    /// - `NotEmpty`: the directory has a name.
    /// - `NoSpace`: there is a snapshot, and fewer blocks are free than the call has to copy because of it.
    pub fn rmdir(&mut self, path: &[u8]) -> Result<(), FsError>
        ensures { FileCall self.old (rmdir path.now) (unit_answer result) self.new }
    {
        self.make_room();
        let made = do_rmdir(&mut self.parts, &mut self.cache, path);
        self.parts.region.end_call();
        made
    }

    /// Moves a file, or a directory with all below it, from one path to another. It replaces what is at the second
    /// path: a file replaces a file, and a directory replaces an empty directory. If both paths find one file or
    /// directory, nothing changes.
    ///
    /// # Errors
    ///
    /// The first of these that applies. Nothing has changed then.
    ///
    /// - `BadPath`: a text is no path.
    /// - `IsRoot`: one of the paths is the root directory.
    /// - `NotFound`, `NotDir`: a name of the first path is missing or is searched for in a file, or else one on the
    ///   way to the directory of the second path. The first such name decides.
    /// - `IntoSelf`: the second path is below the first.
    /// - `IsDir`: a file would replace a directory.
    /// - `NotDir`: a directory would replace a file.
    /// - `NotEmpty`: a directory would replace one that has a name.
    /// - `NoSpace`: fewer blocks are free than the move needs.
    pub fn rename(&mut self, from: &[u8], to: &[u8]) -> Result<(), FsError>
        ensures { FileCall self.old (rename from.now to.now) (unit_answer result) self.new }
    {
        self.make_room();
        let made = do_rename(&mut self.parts, &mut self.cache, from, to);
        self.parts.region.end_call();
        made
    }

    /// Gives the file at a path another link, the second path. From then on both paths have the same bytes.
    ///
    /// # Errors
    ///
    /// The first of these that applies. Nothing has changed then.
    ///
    /// - `BadPath`: a text is no path.
    /// - `NotFound`, `NotDir`: a name of the first path is missing or is searched for in a file. The first such name
    ///   decides.
    /// - `IsDir`: the first path finds a directory.
    /// - `Exists`: the second path is the root directory.
    /// - `NotFound`, `NotDir`: the same on the way to the directory of the second path.
    /// - `Exists`: the second name is there.
    /// - `NoSpace`: fewer blocks are free than the name needs.
    pub fn link(&mut self, from: &[u8], to: &[u8]) -> Result<(), FsError>
        ensures { FileCall self.old (link from.now to.now) (unit_answer result) self.new }
    {
        self.make_room();
        let made = do_link(&mut self.parts, &mut self.cache, from, to);
        self.parts.region.end_call();
        made
    }

    /// Writes bytes into the file at a path, from byte `offset` on. Bytes between the old end of the file and `offset`
    /// become 0. If there are no bytes, the file stays as it is, whatever `offset` is.
    ///
    /// # Errors
    ///
    /// The first of these that applies. Nothing has changed then.
    ///
    /// - `BadPath`: the text is no path.
    /// - `TooLong`: there are more than 65,536 bytes; from version 2 on, more than 1,048,576.
    /// - `NotFound`, `NotDir`: a name of the path is missing or is searched for in a file. The first such name
    ///   decides.
    /// - `IsDir`: the path finds a directory.
    /// - `TooBig`: there are bytes, and the last would lie past the greatest size of a file in this version.
    /// - `NoSpace`: fewer blocks are free than the write needs.
    pub fn write(&mut self, path: &[u8], offset: u64, bytes: &[u8]) -> Result<(), FsError>
        ensures { FileCall self.old (write path.now offset bytes.now) (unit_answer result) self.new }
    {
        self.make_room();
        let made = do_write(&mut self.parts, &mut self.cache, path, offset, bytes);
        self.parts.region.end_call();
        made
    }

    /// Writes bytes into several files, or into one, all at once. The pieces apply in their order, so if two of them
    /// write the same byte, the later one wins. The paths and the bytes of the pieces are parts of the text. Each file
    /// keeps its size. If there are no bytes in all, nothing changes.
    ///
    /// # Errors
    ///
    /// The first of these that applies. Nothing has changed then.
    ///
    /// - `BadPath`: the path text of a piece is no path.
    /// - `TooLong`: there are more than 65,536 bytes in all.
    /// - The first error of the first piece that has one. `NotFound` or `NotDir`: a name of its path is missing or is
    ///   searched for in a file; the first such name decides. `IsDir`: its path finds a directory. `PastEnd`: its
    ///   bytes end past the size of the file, or it is empty and lies there.
    /// - `NoSpace`: fewer blocks are free than the batch needs.
    pub fn batch(&mut self, text: &[u8], pieces: &[Piece]) -> Result<(), FsError>
        requires few { length pieces.now ≤ max_pieces }
        requires lie { All (LiesIn text.now) pieces.now }
        ensures { FileCall self.old (batch (map (piece_in text.now) pieces.now)) (unit_answer result) self.new }
    {
        self.make_room();
        let made = do_batch(&mut self.parts, &mut self.cache, text, pieces);
        self.parts.region.end_call();
        made
    }

    /// Changes the size of the file at a path, in bytes: the file is cut, or zeros follow its old bytes.
    ///
    /// # Errors
    ///
    /// The first of these that applies. Nothing has changed then.
    ///
    /// - `BadPath`: the text is no path.
    /// - `NotFound`, `NotDir`: a name of the path is missing or is searched for in a file. The first such name
    ///   decides.
    /// - `IsDir`: the path finds a directory.
    /// - `TooBig`: the size is above the greatest size of a file in this version.
    /// - `NoSpace`: fewer blocks are free than a higher tree needs, together with the blocks of the snapshot that are
    ///   copied first.
    pub fn truncate(&mut self, path: &[u8], size: u64) -> Result<(), FsError>
        ensures { FileCall self.old (truncate path.now size) (unit_answer result) self.new }
    {
        self.make_room();
        let made = do_truncate(&mut self.parts, &mut self.cache, path, size);
        self.parts.region.end_call();
        made
    }

    /// Reads bytes of the file at a path from an offset on, and returns their number: as many as `into` has room for
    /// and the file has from there on. At and past the end of the file there are none. The rest of `into` is
    /// unchanged.
    ///
    /// # Errors
    ///
    /// The first of these that applies. `into` is unchanged then.
    ///
    /// - Those of [`Volume::stat`].
    /// - `IsDir`: the path finds a directory.
    pub fn read(&mut self, path: &[u8], offset: u64, into: &mut [u8]) -> Result<usize, FsError>
        ensures called { FileCall self.old (read path.now offset (length into.old)) (read_answer_of result into.new)
            self.new }
        ensures fits { IfOk result (λ count. count ≤ length into.new) }
        ensures rest { IfOk result (λ count. drop count into.new ≡ drop count into.old) }
        ensures unread { OnErr result (into.new ≡ into.old) }
    {
        self.make_room();
        let reported = do_read(&self.parts.region, &mut self.cache, path, offset, into);
        self.parts.region.end_call();
        reported
    }

    /// Returns the size in bytes of the file at a path, or the number of names of the directory there.
    ///
    /// # Errors
    ///
    /// - `BadPath`: the text is no path.
    /// - `NotFound`, `NotDir`: a name of the path is missing or is searched for in a file. The first such name
    ///   decides.
    pub fn stat(&mut self, path: &[u8]) -> Result<Stat, FsError>
        ensures { FileCall self.old (stat path.now) (stat_answer_of result) self.new }
    {
        self.make_room();
        let reported = do_stat(&self.parts.region, &mut self.cache, path);
        self.parts.region.end_call();
        reported
    }

    /// Returns the number of links of the file at a path.
    ///
    /// # Errors
    ///
    /// The first of these that applies.
    ///
    /// - Those of [`Volume::stat`].
    /// - `IsDir`: the path finds a directory.
    pub fn links(&mut self, path: &[u8]) -> Result<u32, FsError>
        ensures { FileCall self.old (links path.now) (links_answer result) self.new }
    {
        self.make_room();
        let reported = do_links(&self.parts, &mut self.cache, path);
        self.parts.region.end_call();
        reported
    }

    /// Returns an attribute of the file or directory at a path. The attributes have the numbers 0 to 2.
    ///
    /// # Errors
    ///
    /// The first of these that applies.
    ///
    /// - `BadPath`: the text is no path.
    /// - `OldVersion`: the image is of version 1 or 2, whose inodes have no attributes.
    /// - The others of [`Volume::stat`].
    pub fn attribute(&mut self, path: &[u8], number: u64) -> Result<u64, FsError>
        requires number { number < attributes }
        ensures { FileCall self.old (attribute path.now number) (attribute_answer result) self.new }
    {
        self.make_room();
        let reported = do_attribute(&self.parts.region, &mut self.cache, path, number);
        self.parts.region.end_call();
        reported
    }

    /// Gives an attribute of the file or directory at a path a value, which is any word of the caller's own. A file has
    /// its attributes at each of its paths.
    ///
    /// # Errors
    ///
    /// The first of these that applies. Nothing has changed then.
    ///
    /// - Those of [`Volume::attribute`].
    /// - `NoSpace`: there is a snapshot, and fewer blocks are free than the call has to copy because of it.
    pub fn set_attribute(&mut self, path: &[u8], number: u64, value: u64) -> Result<(), FsError>
        requires number { number < attributes }
        ensures { FileCall self.old (set_attribute path.now number value) (unit_answer result) self.new }
    {
        self.make_room();
        let made = do_set_attribute(&mut self.parts, &mut self.cache, path, number, value);
        self.parts.region.end_call();
        made
    }

    /// Returns the names in the directory at a path, in byte order.
    ///
    /// # Errors
    ///
    /// The first of these that applies.
    ///
    /// - Those of [`Volume::stat`].
    /// - `NotDir`: the path finds a file.
    /// - `Memory`: allocation of the listing fails.
    pub fn list(&mut self, alloc: Global, path: &[u8]) -> Result<Listing, FsError>
        ensures { FileCall self.old (list path.now) (list_answer_of result) self.new }
    {
        self.make_room();
        let reported = do_list(alloc, &self.parts.region, &mut self.cache, path);
        self.parts.region.end_call();
        reported
    }

    /// Makes a snapshot: the files and directories as they are now, which can be read until the snapshot is deleted.
    /// It copies nothing and needs no block. But the present blocks of the tree are not freed until then, so later
    /// changes may need more blocks.
    ///
    /// # Errors
    ///
    /// The first of these that applies. Nothing has changed then.
    ///
    /// - `OldVersion`: the image is of version 1, whose format has no snapshot.
    /// - `HasSnap`: there is a snapshot.
    pub fn snap(&mut self) -> Result<(), FsError>
        ensures { FileCall self.old snap (unit_answer result) self.new }
    {
        self.make_room();
        let made = do_snap(&mut self.parts);
        self.parts.region.end_call();
        made
    }

    /// Deletes the snapshot. The blocks that only the snapshot has are free then. The time grows with the whole image,
    /// as for a mount.
    ///
    /// # Errors
    ///
    /// Nothing has changed then.
    ///
    /// - `NoSnap`: there is no snapshot.
    pub fn unsnap(&mut self) -> Result<(), FsError>
        ensures { FileCall self.old unsnap (unit_answer result) self.new }
    {
        self.make_room();
        let made = do_unsnap(&mut self.parts, &mut self.pending);
        self.parts.region.end_call();
        made
    }

    /// Reads the bytes that [`Volume::read`] read when the snapshot was made.
    ///
    /// # Errors
    ///
    /// The first of these that applies. `into` is unchanged then.
    ///
    /// - `BadPath`: the text is no path.
    /// - `NoSnap`: there is no snapshot.
    /// - Those of [`Volume::read`] when the snapshot was made.
    pub fn snap_read(&mut self, path: &[u8], offset: u64, into: &mut [u8]) -> Result<usize, FsError>
        ensures called { FileCall self.old (snap_read path.now offset (length into.old)) (read_answer_of result into.new)
            self.new }
        ensures fits { IfOk result (λ count. count ≤ length into.new) }
        ensures rest { IfOk result (λ count. drop count into.new ≡ drop count into.old) }
        ensures unread { OnErr result (into.new ≡ into.old) }
    {
        self.make_room();
        let reported = do_snap_read(&self.parts.region, path, offset, into);
        self.parts.region.end_call();
        reported
    }

    /// Returns what [`Volume::stat`] returned when the snapshot was made.
    ///
    /// # Errors
    ///
    /// The first of these that applies.
    ///
    /// - `BadPath`: the text is no path.
    /// - `NoSnap`: there is no snapshot.
    /// - Those of [`Volume::stat`] when the snapshot was made.
    pub fn snap_stat(&mut self, path: &[u8]) -> Result<Stat, FsError>
        ensures { FileCall self.old (snap_stat path.now) (stat_answer_of result) self.new }
    {
        self.make_room();
        let reported = do_snap_stat(&self.parts.region, path);
        self.parts.region.end_call();
        reported
    }

    /// Returns the names that [`Volume::list`] returned when the snapshot was made.
    ///
    /// # Errors
    ///
    /// The first of these that applies.
    ///
    /// - `BadPath`: the text is no path.
    /// - `NoSnap`: there is no snapshot.
    /// - Those of [`Volume::list`] when the snapshot was made, except `Memory`.
    /// - `Memory`: allocation of the listing fails now.
    pub fn snap_list(&mut self, alloc: Global, path: &[u8]) -> Result<Listing, FsError>
        ensures { FileCall self.old (snap_list path.now) (list_answer_of result) self.new }
    {
        self.make_room();
        let reported = do_snap_list(alloc, &self.parts.region, path);
        self.parts.region.end_call();
        reported
    }

    /// Makes a call, and sets the reply to its result. A read may ask for at most 65,536 bytes, and the number of an
    /// attribute is at most 2.
    pub fn apply(&mut self, alloc: Global, call: &Call, reply: &mut Reply)
        requires can { CanAsk call.now }
        ensures { Called self.old (call_of call.now) reply.new.answer self.new }
    {
        match call {
            Call::Create(path) => report_done(reply, self.create(path)),
            Call::Mkdir(path) => report_done(reply, self.mkdir(path)),
            Call::Unlink(path) => report_done(reply, self.unlink(path)),
            Call::Rmdir(path) => report_done(reply, self.rmdir(path)),
            Call::List(path) => self.apply_list(alloc, path, reply),
            Call::Stat(path) => report_stat(reply, self.stat(path)),
            Call::Read { path, offset, len } => self.apply_read(path, *offset, *len, reply),
            Call::Write {
                path,
                offset,
                bytes,
            } => report_done(reply, self.write(path, *offset, bytes)),
            Call::Truncate { path, size } => report_done(reply, self.truncate(path, *size)),
            Call::Rename { from, to } => report_done(reply, self.rename(from, to)),
            Call::Link { from, to } => report_done(reply, self.link(from, to)),
            Call::Links(path) => report_links(reply, self.links(path)),
            Call::Attribute { path, number } => {
                report_attribute(reply, self.attribute(path, *number));
            }
            Call::SetAttribute {
                path,
                number,
                value,
            } => report_done(reply, self.set_attribute(path, *number, *value)),
            Call::Upgrade => self.apply_upgrade(reply),
            Call::UpgradeToThree => report_done(reply, self.upgrade_to_three()),
            Call::Batch { text, pieces } => report_done(reply, self.batch(text, pieces)),
            Call::Snap => report_done(reply, self.snap()),
            Call::Unsnap => report_done(reply, self.unsnap()),
            Call::SnapList(path) => self.apply_snap_list(alloc, path, reply),
            Call::SnapStat(path) => report_stat(reply, self.snap_stat(path)),
            Call::SnapRead { path, offset, len } => self.apply_snap_read(
                path, *offset, *len, reply,
            ),
        }
    }

    /// Upgrades the format from version 1 to version 2, and sets the reply.
    fn apply_upgrade(&mut self, reply: &mut Reply)
        ensures { FileCall self.old upgrade reply.new.answer self.new }
    {
        self.upgrade();
        reply.set_done();
    }

    /// Lists the names in a directory in a reply. The memory of the reply's last listing is freed before.
    fn apply_list(&mut self, alloc: Global, path: &[u8], reply: &mut Reply)
        ensures { FileCall self.old (list path.now) reply.new.answer self.new }
    {
        reply.set_done();
        report_list(reply, self.list(alloc, path));
    }

    /// Reads at most `len` bytes into the first bytes of `buffer`.
    fn read_prefix(
        &mut self,
        path: &[u8],
        offset: u64,
        len: usize,
        buffer: &mut [u8],
    ) -> Result<usize, FsError>
        requires { len ≤ length buffer.old }
        ensures called { FileCall self.old (read path.now offset len) (read_answer_of result buffer.new) self.new }
        ensures fits { IfOk result (λ count. count ≤ len) }
    {
        self.read(path, offset, &mut buffer[..len])
    }

    /// Reads bytes into the buffer of a reply, and sets the reply to the result.
    fn apply_read(&mut self, path: &[u8], offset: u64, len: usize, reply: &mut Reply)
        requires { len ≤ max_read }
        ensures { FileCall self.old (read path.now offset len) reply.new.answer self.new }
    {
        let reported = self.read_prefix(path, offset, len, reply.buffer());
        report_read(reply, reported);
    }

    /// Lists the names in a directory of the snapshot in a reply. The memory of the reply's last listing is freed
    /// before.
    fn apply_snap_list(&mut self, alloc: Global, path: &[u8], reply: &mut Reply)
        ensures { FileCall self.old (snap_list path.now) reply.new.answer self.new }
    {
        reply.set_done();
        report_list(reply, self.snap_list(alloc, path));
    }

    /// Reads at most `len` bytes of the snapshot into the first bytes of `buffer`.
    fn snap_read_prefix(
        &mut self,
        path: &[u8],
        offset: u64,
        len: usize,
        buffer: &mut [u8],
    ) -> Result<usize, FsError>
        requires { len ≤ length buffer.old }
        ensures called { FileCall self.old (snap_read path.now offset len) (read_answer_of result buffer.new) self.new }
        ensures fits { IfOk result (λ count. count ≤ len) }
    {
        self.snap_read(path, offset, &mut buffer[..len])
    }

    /// Reads bytes of the snapshot into the buffer of a reply, and sets the reply to the result.
    fn apply_snap_read(&mut self, path: &[u8], offset: u64, len: usize, reply: &mut Reply)
        requires { len ≤ max_read }
        ensures { FileCall self.old (snap_read path.now offset len) reply.new.answer self.new }
    {
        let reported = self.snap_read_prefix(path, offset, len, reply.buffer());
        report_read(reply, reported);
    }

    /// Makes a volume of a region with an empty log, seen by the roles that its magic number gives. As they are seen, its
    /// words are known to be a file system.
    fn of_file_system(region: RegionByRoles<R>, sets: Sets, cache: DirectoryCache) -> Volume<R>
        requires wide { IsWide region.memory }
        requires roles { roles_of (word region.memory.base super_magic) ≡ region.roles }
        requires well_formed { IsFileSystem (seen region).base }
        requires fresh { (seen region).events ≡ [] }
        requires roomy { call_room ≤ (seen region).capacity }
        requires blocks { length sets.free_blocks ≡ block_count (seen region).base }
        requires inodes { length sets.free_inodes ≡ block_inodes * block_count (seen region).base }
        requires counts { length sets.link_counts ≡ block_inodes * block_count (seen region).base }
        requires snapshot_blocks { length sets.snapshot_blocks ≡ block_count (seen region).base }
        requires pending { sets.pending ≡ block_inodes * block_count (seen region).base }
        requires right { IsCacheOf (seen region).base cache }
        ensures { result ≡ region.memory }
    {
        let Sets {
            free_blocks,
            free_inodes,
            link_counts,
            snapshot_blocks,
            mut pending,
        } = sets;
        let mut parts = Parts {
            region,
            free_blocks,
            free_inodes,
            link_counts,
            snapshot_blocks,
        };
        rescan(&mut parts, &mut pending);
        Volume {
            parts,
            pending,
            cache,
        }
    }

    /// Makes a volume of a region with an empty log, seen by the roles that its magic number gives, if its image passes a
    /// scan. The place of a fault is the one that is seen.
    fn scanned(
        alloc: Global,
        region: RegionByRoles<R>,
        sets: Sets,
        cache: DirectoryCache,
    ) -> Result<Volume<R>, (RegionByRoles<R>, MountFault)>
        requires wide { IsWide region.memory }
        requires roles { roles_of (word region.memory.base super_magic) ≡ region.roles }
        requires sized { IsSized (seen region).base }
        requires fresh { (seen region).events ≡ [] }
        requires roomy { call_room ≤ (seen region).capacity }
        requires blocks { length sets.free_blocks ≡ block_count (seen region).base }
        requires inodes { length sets.free_inodes ≡ block_inodes * block_count (seen region).base }
        requires counts { length sets.link_counts ≡ block_inodes * block_count (seen region).base }
        requires snapshot_blocks { length sets.snapshot_blocks ≡ block_count (seen region).base }
        requires pending { sets.pending ≡ block_inodes * block_count (seen region).base }
        requires right { IsCacheOf (seen region).base cache }
        ensures same { IfOk result (λ volume. volume ≡ region.memory) }
        ensures well_formed { OnOk result (IsFileSystem (seen region).base) }
        ensures handed_back { IfErr result (λ e. e.0 ≡ region) }
        ensures fault { IfErr result (λ e. (e.1 ≡ MountFault.Memory) ⊎ IsFault (seen region).base e.1) }
        ensures exact { IsFileSystem (seen region).base → IfErr result (λ e. e.1 ≡ MountFault.Memory) }
    {
        let Sets {
            mut free_blocks,
            mut free_inodes,
            mut link_counts,
            mut snapshot_blocks,
            mut pending,
        } = sets;
        match scan_whole(
            alloc,
            &region,
            &mut free_blocks,
            &mut free_inodes,
            &mut snapshot_blocks,
            &mut pending,
            &mut link_counts,
        ) {
            Ok(_) => Ok(Volume {
                parts: Parts {
                    region,
                    free_blocks,
                    free_inodes,
                    link_counts,
                    snapshot_blocks,
                },
                pending,
                cache,
            }),
            Err(fault) => Err((region, fault)),
        }
    }

    /// Drains the region if the events of a call might not fit into the log. The room that is required holds more
    /// events than any call adds.
    fn make_room(&mut self)
        ensures memory { self.new ≡ with_room call_room self.old }
        ensures room { call_room ≤ room_in self.new }
    {
        if needs_drain(&self.parts.region) {
            self.parts.region.drain();
        }
    }
}
