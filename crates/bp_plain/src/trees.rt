//! The abstract file tree as a program. It is slow and easy to understand; tests compare a volume with it.

ghost use Rattle.bp_limits.specs.Limits.{attributes, max_read};
ghost use Rattle.bp_limits.specs.CallLimits.{allows_attributes, allows_snapshot};
ghost use Rattle.bp_plain.specs.Calls.Call.{attribute, create, link, links, list, mkdir, read, rmdir, set_attribute, snap, snap_list, snap_read, snap_stat, stat, truncate, unlink, unsnap, upgrade, upgrade_to_three, write};
ghost use Rattle.bp_plain.specs.Plain as plain;
ghost use Rattle.bp_plain.specs.PlainTree.{empty_tree};
ghost use Rattle.bp_plain.specs.Seen.{CanAsk, call_of, refusal_of};
ghost use Rattle.bp_plain.specs.SeenTree.{carried_out, names_of};
ghost use Rattle.std.specs.Prelude.{IfOk, None, OnErr, OnOk, ◌<◌, ◌≡◌, ◌≤◌, not, option_map};

mod batches;
mod entries;
mod maps;
mod moves;

use crate::calls::Call;
use crate::contents::ends_too_late;
use crate::errors::FsError;
use crate::paths::{first, parse, path_of, when};
use crate::replies::Reply;
use bp_layout::Name;
use bp_limits::Version;
use maps::FileMap;
use std::alloc::{AllocError, Global};
use std::marker::Model;

/// A file tree: its version, and the map of its paths, now and at the snapshot.
#[derive(Drop)]
pub struct Plain {
    version: Version,
    current: FileMap,
    snapshot: Option<FileMap>,
}

impl Model for Plain {
    ghost use Rattle.bp_plain.specs.PlainTree.{FileTree};
    ghost use Rattle.bp_plain.specs.TreeCode.{tree_code};

    ghost Value = { FileTree };

    ghost coded = { tree_code };

    ghost use Rattle.bp_plain.specs.SeenMap.{tree_seen};

    ghost view = { tree_seen };
}

impl Plain {
    /// Makes a tree that has only the root directory, in this version. Fails only if memory is out.
    pub fn of(alloc: Global, version: Version) -> Result<Plain, AllocError>
        ensures { IfOk result (λ tree. tree ≡ empty_tree version) }
    {
        Ok(Plain {
            version,
            current: FileMap::root_alone(alloc)?,
            snapshot: None,
        })
    }

    /// Returns the version.
    fn version(&self) -> Version
        ensures { result ≡ self.now.version }
    {
        self.version
    }

    /// Returns the present map of paths.
    fn current(&self) -> &FileMap
        ensures { result.now ≡ self.now.now }
    {
        &self.current
    }

    /// Returns the map of paths of the snapshot, if there is one.
    fn snapshot(&self) -> Option<&FileMap>
        ensures { option_map (λ map. map.now) result ≡ self.now.snap }
    {
        match &self.snapshot {
            Some(map) => Some(map),
            None => None,
        }
    }

    /// Returns a copy.
    ///
    /// # Errors
    ///
    /// - `AllocError`: out of memory.
    pub fn copied(&self, alloc: Global) -> Result<Plain, AllocError>
        ensures { IfOk result (λ copy. copy ≡ self.now) }
    {
        let snapshot = match self.snapshot() {
            Some(map) => Some(map.copied(alloc)?),
            None => None,
        };
        Ok(Plain {
            version: self.version,
            current: self.current.copied(alloc)?,
            snapshot,
        })
    }

    /// Carries out a call and puts its answer into the reply. A read may ask for at most 65,536 bytes, a batch has 1
    /// to 16 pieces whose parts lie within its text, and the number of an attribute is at most 2.
    ///
    /// # Errors
    ///
    /// - `AllocError`: out of memory. The tree is unchanged.
    pub fn apply(
        &mut self,
        alloc: Global,
        call: &Call<'_>,
        reply: &mut Reply,
    ) -> Result<(), AllocError>
        requires { CanAsk call.now }
        ensures done { OnOk result ((reply.new.answer, self.new) ≡ plain.plain self.old (call_of call.now)) }
        ensures kept { OnErr result (self.new ≡ self.old) }
    {
        match self.refusal(alloc, call)? {
            Some(error) => {
                reply.set_refused(error);
                Ok(())
            }
            None => self.carry_out(alloc, call, reply),
        }
    }

    // ---- refusals, in the order of the checks

    fn refusal(&self, alloc: Global, call: &Call<'_>) -> Result<Option<FsError>, AllocError>
        requires { CanAsk call.now }
        ensures { IfOk result (λ found. option_map refusal_of found ≡ plain.refusal self.now (call_of call.now)) }
    {
        match *call {
            Call::Create(text) | Call::Mkdir(text) => self.refuses_new(alloc, text),
            Call::Unlink(text) => self.refuses_unlink(alloc, text),
            Call::Rmdir(text) => self.refuses_rmdir(alloc, text),
            Call::List(text) => self.refuses_list(alloc, text),
            Call::Stat(text) => self.refuses_stat(alloc, text),
            Call::Read { path, offset, len } => self.refuses_read(alloc, path, offset, len),
            Call::Write {
                path,
                offset,
                bytes,
            } => self.refuses_write(alloc, path, offset, bytes),
            Call::Truncate { path, size } => self.refuses_truncate(alloc, path, size),
            Call::Rename { from, to } => self.refuses_rename(alloc, from, to),
            Call::Link { from, to } => self.refuses_link(alloc, from, to),
            Call::Links(text) => self.refuses_links(alloc, text),
            Call::Upgrade => Ok(None),
            Call::UpgradeToThree => Ok(self.refuses_upgrade_to_three()),
            Call::Snap => Ok(self.refuses_snap()),
            Call::Unsnap => Ok(self.refuses_unsnap()),
            Call::SnapList(text) => self.refuses_snap_list(alloc, text),
            Call::SnapStat(text) => self.refuses_snap_stat(alloc, text),
            Call::SnapRead { path, offset, len } => self.refuses_snap_read(
                alloc, path, offset, len,
            ),
            Call::Attribute { path, .. } | Call::SetAttribute { path, .. } =>
                self.refuses_attribute(alloc, path),
            Call::Batch { text, pieces } => self.refuses_batch(alloc, text, pieces),
        }
    }

    /// Returns why a new file cannot be created. A new directory has the same refusals.
    fn refuses_new(&self, alloc: Global, text: &[u8]) -> Result<Option<FsError>, AllocError>
        ensures { IfOk result (λ found. option_map refusal_of found ≡ plain.refusal self.now (create text.now)) }
    {
        match parse(alloc, text)? {
            None => Ok(Some(FsError::BadPath)),
            Some(path) => Ok(self.current().refuses_new(&path)),
        }
    }

    fn refuses_unlink(&self, alloc: Global, text: &[u8]) -> Result<Option<FsError>, AllocError>
        ensures { IfOk result (λ found. option_map refusal_of found ≡ plain.refusal self.now (unlink text.now)) }
    {
        match parse(alloc, text)? {
            None => Ok(Some(FsError::BadPath)),
            Some(path) => Ok(first(&[
                when(path.is_empty(), FsError::IsDir),
                self.current().refuses_file(&path),
            ])),
        }
    }

    fn refuses_rmdir(&self, alloc: Global, text: &[u8]) -> Result<Option<FsError>, AllocError>
        ensures { IfOk result (λ found. option_map refusal_of found ≡ plain.refusal self.now (rmdir text.now)) }
    {
        match parse(alloc, text)? {
            None => Ok(Some(FsError::BadPath)),
            Some(path) => self.current().refuses_rmdir(alloc, &path),
        }
    }

    fn refuses_list(&self, alloc: Global, text: &[u8]) -> Result<Option<FsError>, AllocError>
        ensures { IfOk result (λ found. option_map refusal_of found ≡ plain.refusal self.now (list text.now)) }
    {
        match parse(alloc, text)? {
            None => Ok(Some(FsError::BadPath)),
            Some(path) => Ok(self.current().refuses_dir(&path)),
        }
    }

    fn refuses_stat(&self, alloc: Global, text: &[u8]) -> Result<Option<FsError>, AllocError>
        ensures { IfOk result (λ found. option_map refusal_of found ≡ plain.refusal self.now (stat text.now)) }
    {
        match parse(alloc, text)? {
            None => Ok(Some(FsError::BadPath)),
            Some(path) => Ok(self.current().walk(&path)),
        }
    }

    fn refuses_read(
        &self,
        alloc: Global,
        text: &[u8],
        _offset: u64,
        _len: usize,
    ) -> Result<Option<FsError>, AllocError>
        ensures { IfOk result (λ found.
            option_map refusal_of found ≡ plain.refusal self.now (read text.now _offset _len)) }
    {
        match parse(alloc, text)? {
            None => Ok(Some(FsError::BadPath)),
            Some(path) => Ok(self.current().refuses_file(&path)),
        }
    }

    fn refuses_write(
        &self,
        alloc: Global,
        text: &[u8],
        offset: u64,
        new: &[u8],
    ) -> Result<Option<FsError>, AllocError>
        ensures { IfOk result (λ found.
            option_map refusal_of found ≡ plain.refusal self.now (write text.now offset new.now)) }
    {
        match parse(alloc, text)? {
            None => Ok(Some(FsError::BadPath)),
            Some(path) => Ok(first(&[
                when(
                    new.len() > self.version().greatest_write(),
                    FsError::TooLong,
                ),
                self.current().refuses_file(&path),
                when(ends_too_late(self.version(), offset, new), FsError::TooBig),
            ])),
        }
    }

    fn refuses_truncate(
        &self,
        alloc: Global,
        text: &[u8],
        size: u64,
    ) -> Result<Option<FsError>, AllocError>
        ensures { IfOk result (λ found. option_map refusal_of found ≡ plain.refusal self.now (truncate text.now size)) }
    {
        match parse(alloc, text)? {
            None => Ok(Some(FsError::BadPath)),
            Some(path) => Ok(first(&[
                self.current().refuses_file(&path),
                when(size > self.version().greatest_size(), FsError::TooBig),
            ])),
        }
    }

    fn refuses_link(
        &self,
        alloc: Global,
        from: &[u8],
        to: &[u8],
    ) -> Result<Option<FsError>, AllocError>
        ensures { IfOk result (λ found. option_map refusal_of found ≡ plain.refusal self.now (link from.now to.now)) }
    {
        match (parse(alloc, from)?, parse(alloc, to)?) {
            (Some(from), Some(to)) => Ok(first(&[
                self.current().refuses_file(&from),
                self.current().refuses_new(&to),
            ])),
            _ => Ok(Some(FsError::BadPath)),
        }
    }

    fn refuses_links(&self, alloc: Global, text: &[u8]) -> Result<Option<FsError>, AllocError>
        ensures { IfOk result (λ found. option_map refusal_of found ≡ plain.refusal self.now (links text.now)) }
    {
        match parse(alloc, text)? {
            None => Ok(Some(FsError::BadPath)),
            Some(path) => Ok(self.current().refuses_file(&path)),
        }
    }

    fn refuses_upgrade_to_three(&self) -> Option<FsError>
        ensures { option_map refusal_of result ≡ plain.refusal self.now upgrade_to_three }
    {
        when(
            !has_attributes(self.version()) && self.snapshot().is_some(),
            FsError::HasSnap,
        )
    }

    fn refuses_snap(&self) -> Option<FsError>
        ensures { option_map refusal_of result ≡ plain.refusal self.now snap }
    {
        first(&[
            when(is_old(self.version()), FsError::OldVersion),
            when(self.snapshot().is_some(), FsError::HasSnap),
        ])
    }

    fn refuses_unsnap(&self) -> Option<FsError>
        ensures { option_map refusal_of result ≡ plain.refusal self.now unsnap }
    {
        when(self.snapshot().is_none(), FsError::NoSnap)
    }

    fn refuses_snap_list(&self, alloc: Global, text: &[u8]) -> Result<Option<FsError>, AllocError>
        ensures { IfOk result (λ found. option_map refusal_of found ≡ plain.refusal self.now (snap_list text.now)) }
    {
        match parse(alloc, text)? {
            None => Ok(Some(FsError::BadPath)),
            Some(path) => Ok(self.refuses_dir_then(&path)),
        }
    }

    fn refuses_snap_stat(&self, alloc: Global, text: &[u8]) -> Result<Option<FsError>, AllocError>
        ensures { IfOk result (λ found. option_map refusal_of found ≡ plain.refusal self.now (snap_stat text.now)) }
    {
        match parse(alloc, text)? {
            None => Ok(Some(FsError::BadPath)),
            Some(path) => Ok(self.refuses_walk_then(&path)),
        }
    }

    fn refuses_snap_read(
        &self,
        alloc: Global,
        text: &[u8],
        _offset: u64,
        _len: usize,
    ) -> Result<Option<FsError>, AllocError>
        ensures { IfOk result (λ found.
            option_map refusal_of found ≡ plain.refusal self.now (snap_read text.now _offset _len)) }
    {
        match parse(alloc, text)? {
            None => Ok(Some(FsError::BadPath)),
            Some(path) => Ok(self.refuses_file_then(&path)),
        }
    }

    /// Returns why an attribute cannot be returned. Setting it has the same refusals.
    fn refuses_attribute(&self, alloc: Global, text: &[u8]) -> Result<Option<FsError>, AllocError>
        ensures { IfOk result (λ found.
            option_map refusal_of found ≡ plain.on_path text.now (plain.attribute_refusal self.now)) }
    {
        match parse(alloc, text)? {
            None => Ok(Some(FsError::BadPath)),
            Some(path) => Ok(first(&[
                when(!has_attributes(self.version()), FsError::OldVersion),
                self.current().walk(&path),
            ])),
        }
    }

    /// Returns why a path is no directory of the snapshot.
    fn refuses_dir_then(&self, path: &[Name]) -> Option<FsError>
        ensures { option_map refusal_of result
            ≡ plain.on_snap self.now.snap (λ nodes. plain.dir_refusal nodes (names_of path.now)) }
    {
        match self.snapshot() {
            None => Some(FsError::NoSnap),
            Some(map) => map.refuses_dir(path),
        }
    }

    /// Returns why a path does not exist in the snapshot.
    fn refuses_walk_then(&self, path: &[Name]) -> Option<FsError>
        ensures { option_map refusal_of result
            ≡ plain.on_snap self.now.snap (λ nodes. plain.walk nodes (names_of path.now)) }
    {
        match self.snapshot() {
            None => Some(FsError::NoSnap),
            Some(map) => map.walk(path),
        }
    }

    /// Returns why a path is no file of the snapshot.
    fn refuses_file_then(&self, path: &[Name]) -> Option<FsError>
        ensures { option_map refusal_of result
            ≡ plain.on_snap self.now.snap (λ nodes. plain.file_refusal nodes (names_of path.now)) }
    {
        match self.snapshot() {
            None => Some(FsError::NoSnap),
            Some(map) => map.refuses_file(path),
        }
    }

    // ---- effects and answers of calls that are not refused

    fn carry_out(
        &mut self,
        alloc: Global,
        call: &Call<'_>,
        reply: &mut Reply,
    ) -> Result<(), AllocError>
        requires can { CanAsk call.now }
        requires passes { plain.refusal self.old (call_of call.now) ≡ None }
        ensures done { OnOk result ((reply.new.answer, self.new) ≡ carried_out self.old (call_of call.now)) }
        ensures kept { OnErr result (self.new ≡ self.old) }
    {
        match *call {
            Call::Create(text) => self.create(alloc, text, reply),
            Call::Mkdir(text) => self.mkdir(alloc, text, reply),
            Call::Unlink(text) => self.unlink(alloc, text, reply),
            Call::Rmdir(text) => self.rmdir(alloc, text, reply),
            Call::List(text) => self.list(alloc, text, reply),
            Call::Stat(text) => self.stat(alloc, text, reply),
            Call::Read { path, offset, len } => self.read(alloc, path, offset, len, reply),
            Call::Write {
                path,
                offset,
                bytes,
            } => self.write(alloc, path, offset, bytes, reply),
            Call::Truncate { path, size } => self.truncate(alloc, path, size, reply),
            Call::Rename { from, to } => self.rename(alloc, from, to, reply),
            Call::Link { from, to } => self.link(alloc, from, to, reply),
            Call::Links(text) => self.links(alloc, text, reply),
            Call::Upgrade => self.upgrade(reply),
            Call::UpgradeToThree => self.upgrade_to_three(reply),
            Call::Snap => self.snap(alloc, reply),
            Call::Unsnap => self.unsnap(reply),
            Call::SnapList(text) => self.snap_list(alloc, text, reply),
            Call::SnapStat(text) => self.snap_stat(alloc, text, reply),
            Call::SnapRead { path, offset, len } => self.snap_read(alloc, path, offset, len, reply),
            Call::Attribute { path, number } => self.attribute(alloc, path, number, reply),
            Call::SetAttribute {
                path,
                number,
                value,
            } => self.set_attribute(alloc, path, number, value, reply),
            Call::Batch { text, pieces } => self.batch(alloc, text, pieces, reply),
        }
    }

    fn create(&mut self, alloc: Global, text: &[u8], reply: &mut Reply) -> Result<(), AllocError>
        requires { plain.refusal self.old (create text.now) ≡ None }
        ensures done { OnOk result ((reply.new.answer, self.new) ≡ carried_out self.old (create text.now)) }
        ensures kept { OnErr result (self.new ≡ self.old) }
    {
        let path = path_of(alloc, text)?;
        self.current.make_file(alloc, path)?;
        reply.set_done();
        Ok(())
    }

    fn mkdir(&mut self, alloc: Global, text: &[u8], reply: &mut Reply) -> Result<(), AllocError>
        requires { plain.refusal self.old (mkdir text.now) ≡ None }
        ensures done { OnOk result ((reply.new.answer, self.new) ≡ carried_out self.old (mkdir text.now)) }
        ensures kept { OnErr result (self.new ≡ self.old) }
    {
        let path = path_of(alloc, text)?;
        self.current.make_dir(path)?;
        reply.set_done();
        Ok(())
    }

    fn unlink(&mut self, alloc: Global, text: &[u8], reply: &mut Reply) -> Result<(), AllocError>
        requires { plain.refusal self.old (unlink text.now) ≡ None }
        ensures done { OnOk result ((reply.new.answer, self.new) ≡ carried_out self.old (unlink text.now)) }
        ensures kept { OnErr result (self.new ≡ self.old) }
    {
        let path = path_of(alloc, text)?;
        self.current.remove_file(&path);
        reply.set_done();
        Ok(())
    }

    fn rmdir(&mut self, alloc: Global, text: &[u8], reply: &mut Reply) -> Result<(), AllocError>
        requires { plain.refusal self.old (rmdir text.now) ≡ None }
        ensures done { OnOk result ((reply.new.answer, self.new) ≡ carried_out self.old (rmdir text.now)) }
        ensures kept { OnErr result (self.new ≡ self.old) }
    {
        let path = path_of(alloc, text)?;
        self.current.remove_dir(&path);
        reply.set_done();
        Ok(())
    }

    fn list(&self, alloc: Global, text: &[u8], reply: &mut Reply) -> Result<(), AllocError>
        ensures { OnOk result ((reply.new.answer, self.now) ≡ carried_out self.now (list text.now)) }
    {
        self.current().list(alloc, text, reply)
    }

    fn stat(&self, alloc: Global, text: &[u8], reply: &mut Reply) -> Result<(), AllocError>
        ensures { OnOk result ((reply.new.answer, self.now) ≡ carried_out self.now (stat text.now)) }
    {
        self.current().stat(alloc, text, reply)
    }

    fn read(
        &self,
        alloc: Global,
        text: &[u8],
        offset: u64,
        len: usize,
        reply: &mut Reply,
    ) -> Result<(), AllocError>
        requires { len ≤ max_read }
        ensures { OnOk result ((reply.new.answer, self.now) ≡ carried_out self.now (read text.now offset len)) }
    {
        self.current().read(alloc, text, offset, len, reply)
    }

    fn write(
        &mut self,
        alloc: Global,
        text: &[u8],
        offset: u64,
        new: &[u8],
        reply: &mut Reply,
    ) -> Result<(), AllocError>
        ensures done { OnOk result ((reply.new.answer, self.new) ≡ carried_out self.old (write text.now offset new.now)) }
        ensures kept { OnErr result (self.new ≡ self.old) }
    {
        if !new.is_empty() {
            let path = path_of(alloc, text)?;
            self.current.write(alloc, &path, offset, new)?;
        }
        reply.set_done();
        Ok(())
    }

    fn truncate(
        &mut self,
        alloc: Global,
        text: &[u8],
        size: u64,
        reply: &mut Reply,
    ) -> Result<(), AllocError>
        ensures done { OnOk result ((reply.new.answer, self.new) ≡ carried_out self.old (truncate text.now size)) }
        ensures kept { OnErr result (self.new ≡ self.old) }
    {
        let path = path_of(alloc, text)?;
        if size != self.current().bytes(&path).len() as u64 {
            self.current.resize(alloc, &path, size)?;
        }
        reply.set_done();
        Ok(())
    }

    fn link(
        &mut self,
        alloc: Global,
        from: &[u8],
        to: &[u8],
        reply: &mut Reply,
    ) -> Result<(), AllocError>
        requires { plain.refusal self.old (link from.now to.now) ≡ None }
        ensures done { OnOk result ((reply.new.answer, self.new) ≡ carried_out self.old (link from.now to.now)) }
        ensures kept { OnErr result (self.new ≡ self.old) }
    {
        let from = path_of(alloc, from)?;
        let to = path_of(alloc, to)?;
        self.current.link(&from, to)?;
        reply.set_done();
        Ok(())
    }

    fn links(&self, alloc: Global, text: &[u8], reply: &mut Reply) -> Result<(), AllocError>
        ensures { OnOk result ((reply.new.answer, self.now) ≡ carried_out self.now (links text.now)) }
    {
        let path = path_of(alloc, text)?;
        reply.set_links(self.current().links(&path)?);
        Ok(())
    }

    fn upgrade(&mut self, reply: &mut Reply) -> Result<(), AllocError>
        ensures done { OnOk result ((reply.new.answer, self.new) ≡ carried_out self.old upgrade) }
        ensures kept { OnErr result (self.new ≡ self.old) }
    {
        if is_old(self.version) {
            self.version = Version::Two;
        }
        reply.set_done();
        Ok(())
    }

    fn upgrade_to_three(&mut self, reply: &mut Reply) -> Result<(), AllocError>
        ensures done { OnOk result ((reply.new.answer, self.new) ≡ carried_out self.old upgrade_to_three) }
        ensures kept { OnErr result (self.new ≡ self.old) }
    {
        self.version = Version::Three;
        reply.set_done();
        Ok(())
    }

    fn snap(&mut self, alloc: Global, reply: &mut Reply) -> Result<(), AllocError>
        ensures done { OnOk result ((reply.new.answer, self.new) ≡ carried_out self.old snap) }
        ensures kept { OnErr result (self.new ≡ self.old) }
    {
        self.snapshot = Some(self.current.copied(alloc)?);
        reply.set_done();
        Ok(())
    }

    fn unsnap(&mut self, reply: &mut Reply) -> Result<(), AllocError>
        ensures done { OnOk result ((reply.new.answer, self.new) ≡ carried_out self.old unsnap) }
        ensures kept { OnErr result (self.new ≡ self.old) }
    {
        self.snapshot = None;
        reply.set_done();
        Ok(())
    }

    fn snap_list(&self, alloc: Global, text: &[u8], reply: &mut Reply) -> Result<(), AllocError>
        requires { plain.refusal self.now (snap_list text.now) ≡ None }
        ensures { OnOk result ((reply.new.answer, self.now) ≡ carried_out self.now (snap_list text.now)) }
    {
        match self.snapshot() {
            Some(map) => map.list(alloc, text, reply),
            None => unreachable!(),
        }
    }

    fn snap_stat(&self, alloc: Global, text: &[u8], reply: &mut Reply) -> Result<(), AllocError>
        requires { plain.refusal self.now (snap_stat text.now) ≡ None }
        ensures { OnOk result ((reply.new.answer, self.now) ≡ carried_out self.now (snap_stat text.now)) }
    {
        match self.snapshot() {
            Some(map) => map.stat(alloc, text, reply),
            None => unreachable!(),
        }
    }

    fn snap_read(
        &self,
        alloc: Global,
        text: &[u8],
        offset: u64,
        len: usize,
        reply: &mut Reply,
    ) -> Result<(), AllocError>
        requires few { len ≤ max_read }
        requires passes { plain.refusal self.now (snap_read text.now offset len) ≡ None }
        ensures { OnOk result ((reply.new.answer, self.now) ≡ carried_out self.now (snap_read text.now offset len)) }
    {
        match self.snapshot() {
            Some(map) => map.read(alloc, text, offset, len, reply),
            None => unreachable!(),
        }
    }

    fn attribute(
        &self,
        alloc: Global,
        text: &[u8],
        number: u64,
        reply: &mut Reply,
    ) -> Result<(), AllocError>
        requires { number < attributes }
        ensures { OnOk result ((reply.new.answer, self.now) ≡ carried_out self.now (attribute text.now number)) }
    {
        let path = path_of(alloc, text)?;
        reply.set_attribute(self.current().attribute(&path, number));
        Ok(())
    }

    fn set_attribute(
        &mut self,
        alloc: Global,
        text: &[u8],
        number: u64,
        value: u64,
        reply: &mut Reply,
    ) -> Result<(), AllocError>
        requires { number < attributes }
        ensures done { OnOk result
            ((reply.new.answer, self.new) ≡ carried_out self.old (set_attribute text.now number value)) }
        ensures kept { OnErr result (self.new ≡ self.old) }
    {
        let path = path_of(alloc, text)?;
        self.current.set_attribute(alloc, &path, number, value)?;
        reply.set_done();
        Ok(())
    }
}

/// Returns whether a version has no snapshots.
fn is_old(version: Version) -> bool
    ensures { result ≡ not (allows_snapshot version) }
{
    match version {
        Version::One => true,
        Version::Two | Version::Three => false,
    }
}

/// Returns whether files and directories have attributes in a version.
fn has_attributes(version: Version) -> bool
    ensures { result ≡ allows_attributes version }
{
    match version {
        Version::One | Version::Two => false,
        Version::Three => true,
    }
}
