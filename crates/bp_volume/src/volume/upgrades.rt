//! Upgrades of the format.

ghost use Rattle.std.specs.Prelude.{false, ◌≡◌};
ghost use Rattle.bp_layout.specs.Clearing.{cleared_inodes};
ghost use Rattle.bp_layout.specs.Formatted.{version_of};
ghost use Rattle.bp_layout.specs.Trees.{has_snapshot};
ghost use Rattle.bp_limits.specs.CallLimits.{allows_attributes};
ghost use Rattle.bp_plain.specs.Calls.Answer.{done};
ghost use Rattle.bp_plain.specs.Calls.Call.{upgrade, upgrade_to_three};
ghost use Rattle.bp_roles.specs.Mounted.{served_words};
ghost use Rattle.bp_fs.specs.Called.{Called, ClearsSome, ClearsStep};
ghost use Rattle.bp_fs.specs.FileCall.{FileCall};
ghost use Rattle.bp_volume.specs.Seen.{unit_answer};
ghost use Rattle.bp_volume.specs.Upgraded.{ClearsFirst};

use super::Volume;
use crate::upgrade::{is_before_three, upgrade_region, upgrade_region_to_three};
use bp_calls::clear::{clear_some, next_to_clear};
use bp_layout::CLEARED_INODES;
use bp_plain::FsError;
use pm_region::Region;

impl<R: Region> Volume<R> {
    /// Upgrades the format from version 1 to version 2, whose limits are larger, with the same files and directories. In
    /// a later version it changes nothing. It needs no block.
    pub fn upgrade(&mut self)
        ensures { FileCall self.old upgrade done self.new }
    {
        self.make_room();
        upgrade_region(&mut self.parts.region);
        self.parts.region.end_call();
    }

    /// Upgrades the format from version 1 or 2 to version 3, whose inodes have attributes, with the same files and
    /// directories, whose attributes are 0 then. In version 3 it changes nothing. It needs no block.
    ///
    /// Before that it clears the words of inodes that version 3 makes attributes. If one of them is not 0, the call waits
    /// until these stores are written back, so all earlier calls are durable then. [`Volume::clear_for_upgrade`] clears
    /// the words without such a wait.
    ///
    /// # Errors
    ///
    /// Nothing has changed then.
    ///
    /// - `HasSnap`: the image is of version 2 and has a snapshot.
    pub fn upgrade_to_three(&mut self) -> Result<(), FsError>
        ensures { Called self.old upgrade_to_three (unit_answer result) self.new }
    {
        self.clear_all();
        self.make_room();
        let made = upgrade_region_to_three(&mut self.parts.region);
        self.parts.region.end_call();
        made
    }

    /// Clears the words of some inodes that version 3 makes attributes, as the first part of an upgrade to it. Returns
    /// `true` if it has cleared some; then it has added its stores and an end-of-call marker to the log, as a call
    /// does. Returns `false` if there was nothing to clear, or the version is 3: nothing has changed then, and
    /// [`Volume::upgrade_to_three`] clears nothing. Each call starts to look for such words at inode 0.
    ///
    /// # Errors
    ///
    /// Nothing has changed then.
    ///
    /// - `HasSnap`: the image is of version 2 and has a snapshot.
    pub fn clear_for_upgrade(&mut self) -> Result<bool, FsError>
        ensures { ClearsStep self.old result self.new }
    {
        if !is_before_three(&self.parts.region)? {
            return Ok(false);
        }
        match next_to_clear(&self.parts.region, 0) {
            Some(first) => {
                self.clear_from(first);
                Ok(true)
            }
            None => Ok(false),
        }
    }

    /// Clears the words that version 3 makes attributes in some inodes, from inode `first` on.
    fn clear_from(&mut self, first: u32)
        requires early { allows_attributes (version_of (served_words self.old)) ≡ false }
        requires single { has_snapshot (served_words self.old) ≡ false }
        ensures { ClearsSome self.old first cleared_inodes self.new }
    {
        self.make_room();
        clear_some(&mut self.parts.region, first);
        self.parts.region.end_call();
    }

    /// Clears the words that version 3 makes attributes in all inodes, if an upgrade to version 3 needs that.
    fn clear_all(&mut self)
        ensures { ClearsFirst self.old self.new }
    {
        let Ok(true) = is_before_three(&self.parts.region) else {
            return;
        };
        let mut first = 0;
        while let Some(ino) = next_to_clear(&self.parts.region, first) {
            self.clear_from(ino);
            self.sync();
            first = ino.saturating_add(CLEARED_INODES);
        }
    }
}
