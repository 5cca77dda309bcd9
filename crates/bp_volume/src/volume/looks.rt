//! Looks: the answers of calls that change nothing, without a call. A look adds nothing to the log.

ghost use Rattle.std.specs.Prelude.{◌≡◌, ◌<◌, ◌≤◌, IfErr, IfOk, OnErr, drop, length};
ghost use Rattle.bp_layout.specs.Formatted.{version_of};
ghost use Rattle.bp_layout.specs.Trees.{has_snapshot};
ghost use Rattle.bp_limits.specs.Limits.{attributes};
ghost use Rattle.bp_plain.specs.Calls.Call.{attribute, links, list, read, snap_list, snap_read, snap_stat, stat};
ghost use Rattle.bp_plain.specs.Seen.{refusal_of};
ghost use Rattle.bp_roles.specs.Mounted.{served_words};
ghost use Rattle.bp_volume.specs.Queries.{Answers, StopsWalk};
ghost use Rattle.bp_volume.specs.Seen.{attribute_answer, links_answer, list_answer_of, read_answer_of, stat_answer_of};
ghost use Rattle.bp_fs.specs.Step.{PathFinds};

use super::Volume;
use crate::attributes::do_attribute;
use crate::lookup::inode_at;
use crate::queries::{do_links, do_list, do_read, do_stat};
use crate::snapshot::{do_snap_list, do_snap_read, do_snap_stat};
use bp_layout::{Listing, Stat};
use bp_limits::Version;
use bp_plain::FsError;
use bp_scan::has_second;
use pm_region::Region;
use std::alloc::Global;

impl<R: Region> Volume<R> {
    /// Returns the version of the format.
    pub fn version(&self) -> Version
        ensures { result ≡ version_of (served_words self.now) }
    {
        bp_read::version(&self.parts.region)
    }

    /// Returns whether there is a snapshot.
    pub fn has_snapshot(&self) -> bool
        ensures { result ≡ has_snapshot (served_words self.now) }
    {
        has_second(&self.parts.region)
    }

    /// Returns the number of the inode of a file or directory. All names of a file have the same one, and no two files
    /// that exist at one time. A new file may get the number of a removed one.
    ///
    /// # Errors
    ///
    /// - `BadPath`: the text is no path.
    /// - `NotFound`, `NotDir`: a name of the path is missing or is searched for in a file. The first such name decides.
    pub fn look_inode(&mut self, path: &[u8]) -> Result<u32, FsError>
        ensures found { IfOk result (PathFinds (served_words self.old) path.now) }
        ensures stopped { IfErr result (λ e. StopsWalk (served_words self.old) path.now (refusal_of e)) }
        ensures same { self.new ≡ self.old }
    {
        inode_at(&self.parts.region, &mut self.cache, path)
    }

    /// Returns what [`Volume::stat`] returns, for the same reasons.
    pub fn look_stat(&mut self, path: &[u8]) -> Result<Stat, FsError>
        ensures answers { Answers (served_words self.old) (stat path.now) (stat_answer_of result) }
        ensures same { self.new ≡ self.old }
    {
        do_stat(&self.parts.region, &mut self.cache, path)
    }

    /// Returns what [`Volume::links`] returns, for the same reasons.
    pub fn look_links(&mut self, path: &[u8]) -> Result<u32, FsError>
        ensures answers { Answers (served_words self.old) (links path.now) (links_answer result) }
        ensures same { self.new ≡ self.old }
    {
        do_links(&self.parts, &mut self.cache, path)
    }

    /// Returns what [`Volume::attribute`] returns, for the same reasons. The number of an attribute is at most 2.
    pub fn look_attribute(&mut self, path: &[u8], number: u64) -> Result<u64, FsError>
        requires { number < attributes }
        ensures answers { Answers (served_words self.old) (attribute path.now number) (attribute_answer result) }
        ensures same { self.new ≡ self.old }
    {
        do_attribute(&self.parts.region, &mut self.cache, path, number)
    }

    /// Returns what [`Volume::list`] returns, for the same reasons.
    pub fn look_list(&mut self, alloc: Global, path: &[u8]) -> Result<Listing, FsError>
        ensures answers { Answers (served_words self.old) (list path.now) (list_answer_of result) }
        ensures same { self.new ≡ self.old }
    {
        do_list(alloc, &self.parts.region, &mut self.cache, path)
    }

    /// Reads what [`Volume::read`] reads, and returns what it returns, for the same reasons.
    pub fn look_read(&mut self, path: &[u8], offset: u64, into: &mut [u8]) -> Result<usize, FsError>
        ensures answers { Answers (served_words self.old) (read path.now offset (length into.old))
            (read_answer_of result into.new) }
        ensures fits { IfOk result (λ count. count ≤ length into.new) }
        ensures rest { IfOk result (λ count. drop count into.new ≡ drop count into.old) }
        ensures unread { OnErr result (into.new ≡ into.old) }
        ensures same { self.new ≡ self.old }
    {
        do_read(&self.parts.region, &mut self.cache, path, offset, into)
    }

    /// Returns what [`Volume::snap_stat`] returns, for the same reasons.
    pub fn look_snap_stat(&self, path: &[u8]) -> Result<Stat, FsError>
        ensures { Answers (served_words self.now) (snap_stat path.now) (stat_answer_of result) }
    {
        do_snap_stat(&self.parts.region, path)
    }

    /// Returns what [`Volume::snap_list`] returns, for the same reasons.
    pub fn look_snap_list(&self, alloc: Global, path: &[u8]) -> Result<Listing, FsError>
        ensures { Answers (served_words self.now) (snap_list path.now) (list_answer_of result) }
    {
        do_snap_list(alloc, &self.parts.region, path)
    }

    /// Reads what [`Volume::snap_read`] reads, and returns what it returns, for the same reasons.
    pub fn look_snap_read(
        &self,
        path: &[u8],
        offset: u64,
        into: &mut [u8],
    ) -> Result<usize, FsError>
        ensures answers { Answers (served_words self.now) (snap_read path.now offset (length into.old))
            (read_answer_of result into.new) }
        ensures fits { IfOk result (λ count. count ≤ length into.new) }
        ensures rest { IfOk result (λ count. drop count into.new ≡ drop count into.old) }
        ensures unread { OnErr result (into.new ≡ into.old) }
    {
        do_snap_read(&self.parts.region, path, offset, into)
    }
}
