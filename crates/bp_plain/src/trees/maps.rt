//! The node at each path, and which paths are one file.

ghost use Rattle.bp_layout.specs.Paths.{same_path};
ghost use Rattle.bp_layout.specs.Listing.{listed};
ghost use Rattle.bp_layout.specs.Lookup.{are_one};
ghost use Rattle.bp_limits.specs.Limits.{attributes, max_read};
ghost use Rattle.bp_plain.specs.Calls.Answer.{names};
ghost use Rattle.bp_plain.specs.Plain as plain;
ghost use Rattle.bp_plain.specs.Plain.{is_dir_at, listing};
ghost use Rattle.bp_plain.specs.PlainTree.{empty_map, is_one};
ghost use Rattle.bp_plain.specs.Seen.{refusal_of};
ghost use Rattle.bp_plain.specs.SeenTree.{names_of, node_seen};
ghost use Rattle.std.specs.FinMap.{get};
ghost use Rattle.std.specs.Prelude.{IfOk, None, OnErr, OnOk, ◌+◌, ◌<◌, ◌≡◌, ◌≤◌, false, is_some, option_map, slice_index, true};

use super::entries::{Attributes, Change, Files, NO_ATTRIBUTES, Node, copy};
use crate::contents::{answer_bytes, part, resized, written};
use crate::errors::FsError;
use crate::paths::{copied, first, parent_of, path_of, when};
use crate::replies::Reply;
use bp_layout::{Kind, Listing, Name};
use std::alloc::{AllocError, Global};
use std::marker::Model;

/// Nodes of all paths, and which paths are one file.
#[derive(Drop)]
pub(super) struct FileMap {
    files: Files,
    next: u64,
}

impl Model for FileMap {
    ghost use Rattle.bp_plain.specs.PlainTree.{PathMap};
    ghost use Rattle.bp_plain.specs.TreeCode.{map_code};

    ghost Value = { PathMap };

    ghost coded = { map_code };

    ghost use Rattle.bp_plain.specs.SeenMap.{IsKept, map_seen};

    ghost view = { map_seen };

    ghost invariant = { IsKept };
}

impl FileMap {
    /// Makes a map that has only the root directory.
    pub(super) fn root_alone(alloc: Global) -> Result<FileMap, AllocError>
        ensures { IfOk result (λ map. map ≡ empty_map) }
    {
        let files = Files::root_alone(alloc)?;
        Ok(FileMap { files, next: 0 })
    }

    /// Returns a copy.
    pub(super) fn copied(&self, alloc: Global) -> Result<FileMap, AllocError>
        ensures { IfOk result (λ map. map ≡ self.now) }
    {
        let files = self.files.changed(alloc, &Change::Nothing)?;
        Ok(FileMap {
            files,
            next: self.next,
        })
    }

    // ---- the node at a path

    /// Returns the node at a path.
    fn node(&self, path: &[Name]) -> Option<&Node>
        ensures { option_map (λ node. node_seen node.now) result ≡ get self.now.nodes (names_of path.now) }
    {
        self.files.node(path)
    }

    pub(super) fn has(&self, path: &[Name]) -> bool
        ensures { result ≡ is_some (get self.now.nodes (names_of path.now)) }
    {
        self.node(path).is_some()
    }

    pub(super) fn is_dir(&self, path: &[Name]) -> bool
        ensures { result ≡ is_dir_at self.now.nodes (names_of path.now) }
    {
        match self.node(path) {
            Some(Node::Dir { .. }) => true,
            _ => false,
        }
    }

    pub(super) fn is_empty_dir(&self, alloc: Global, path: &[Name]) -> Result<bool, AllocError>
        ensures { IfOk result (λ is_empty. is_empty ≡ plain.is_empty_dir self.now.nodes (names_of path.now)) }
    {
        let names = self.names(alloc, path)?;
        Ok(names.is_empty())
    }

    pub(super) fn bytes(&self, path: &[Name]) -> &[u8]
        ensures { result.now ≡ plain.bytes_at self.now.nodes (names_of path.now) }
    {
        match self.node(path) {
            Some(Node::File { content, .. }) => content.as_slice(),
            _ => &[],
        }
    }

    /// Returns the attributes of the node at a path, or those of a new node if nothing is there.
    fn attributes(&self, path: &[Name]) -> Attributes
        ensures { result ≡ plain.attributes_at self.now.nodes (names_of path.now) }
    {
        match self.node(path) {
            Some(Node::Dir { attributes }) => *attributes,
            Some(Node::File { attributes, .. }) => *attributes,
            None => NO_ATTRIBUTES,
        }
    }

    /// Returns the names in a directory with their kinds, in the order of their bytes.
    fn names(&self, alloc: Global, dir: &[Name]) -> Result<Vec<(Kind, Name)>, AllocError>
        ensures { IfOk result (λ names. listed names.items ≡ listing self.now.nodes (names_of dir.now)) }
    {
        self.files.names(alloc, dir)
    }

    // ---- refusals

    /// Returns the refusal at the first name of the path that is looked up in a file or is missing.
    pub(super) fn walk(&self, path: &[Name]) -> Option<FsError>
        ensures { option_map refusal_of result ≡ plain.walk self.now.nodes (names_of path.now) }
    {
        for depth in 0..path.len() {
            if !self.is_dir(&path[..depth]) {
                return Some(FsError::NotDir);
            }
            if !self.has(&path[..depth + 1]) {
                return Some(FsError::NotFound);
            }
        }
        None
    }

    pub(super) fn walk_parent(&self, path: &[Name]) -> Option<FsError>
        ensures { option_map refusal_of result ≡ plain.walk_parent self.now.nodes (names_of path.now) }
    {
        let parent = parent_of(path);
        first(&[
            self.walk(parent),
            when(!self.is_dir(parent), FsError::NotDir),
        ])
    }

    /// Returns why no new file or directory can be created at a path.
    pub(super) fn refuses_new(&self, path: &[Name]) -> Option<FsError>
        ensures { option_map refusal_of result ≡ plain.new_refusal self.now.nodes (names_of path.now) }
    {
        first(&[
            when(path.is_empty(), FsError::Exists),
            self.walk_parent(path),
            when(self.has(path), FsError::Exists),
        ])
    }

    /// Returns why a path is not that of a file.
    pub(super) fn refuses_file(&self, path: &[Name]) -> Option<FsError>
        ensures { option_map refusal_of result ≡ plain.file_refusal self.now.nodes (names_of path.now) }
    {
        first(&[self.walk(path), when(self.is_dir(path), FsError::IsDir)])
    }

    /// Returns why a path is not that of a directory.
    pub(super) fn refuses_dir(&self, path: &[Name]) -> Option<FsError>
        ensures { option_map refusal_of result ≡ plain.dir_refusal self.now.nodes (names_of path.now) }
    {
        first(&[self.walk(path), when(!self.is_dir(path), FsError::NotDir)])
    }

    /// Returns why the directory at a path cannot be removed.
    pub(super) fn refuses_rmdir(
        &self,
        alloc: Global,
        path: &[Name],
    ) -> Result<Option<FsError>, AllocError>
        ensures { IfOk result (λ found. option_map refusal_of found ≡
            plain.rmdir_refusal self.now.nodes (names_of path.now)) }
    {
        let is_empty = self.is_empty_dir(alloc, path)?;
        Ok(first(&[
            when(path.is_empty(), FsError::IsRoot),
            self.refuses_dir(path),
            when(!is_empty, FsError::NotEmpty),
        ]))
    }

    // ---- answers

    pub(super) fn list(
        &self,
        alloc: Global,
        text: &[u8],
        reply: &mut Reply,
    ) -> Result<(), AllocError>
        ensures { OnOk result (reply.new.answer ≡ names (listing self.now.nodes (plain.path_named text.now))) }
    {
        let path = path_of(alloc, text)?;
        let names = self.names(alloc, &path)?;
        reply.set_names(Listing::of(alloc, &names)?);
        Ok(())
    }

    pub(super) fn stat(
        &self,
        alloc: Global,
        text: &[u8],
        reply: &mut Reply,
    ) -> Result<(), AllocError>
        ensures { let path = plain.path_named text.now in
            OnOk result (reply.new.answer ≡ plain.stat_answer self.now.nodes path (get self.now.nodes path)) }
    {
        let path = path_of(alloc, text)?;
        match self.node(&path) {
            Some(Node::File { content, .. }) => reply.set_file(content.len() as u64),
            _ => reply.set_dir(self.names(alloc, &path)?.len() as u64),
        }
        Ok(())
    }

    pub(super) fn read(
        &self,
        alloc: Global,
        text: &[u8],
        offset: u64,
        len: usize,
        reply: &mut Reply,
    ) -> Result<(), AllocError>
        requires { len ≤ max_read }
        ensures { OnOk result (reply.new.answer ≡ plain.read_answer self.now.nodes text.now offset len) }
    {
        let path = path_of(alloc, text)?;
        answer_bytes(reply, part(self.bytes(&path), offset, len));
        Ok(())
    }

    /// Returns an attribute of the node at a path.
    pub(super) fn attribute(&self, path: &[Name], number: u64) -> u64
        requires { number < attributes }
        ensures { result ≡ slice_index (plain.attributes_at self.now.nodes (names_of path.now)) number }
    {
        let attributes = self.attributes(path);
        attributes[number as usize]
    }

    // ---- which paths are one file

    /// Returns whether two paths are one file.
    pub(super) fn is_one(&self, path: &[Name], other: &[Name]) -> bool
        ensures { result ≡ is_one self.now.one (names_of path.now) (names_of other.now) }
    {
        are_one(self.files.id(path), self.files.id(other))
    }

    /// Returns how many paths the file at a path has.
    ///
    /// # Errors
    ///
    /// - `AllocError`: the file has 2^32 paths or more.
    pub(super) fn links(&self, path: &[Name]) -> Result<u32, AllocError>
        ensures { IfOk result (λ count. count ≡ plain.path_count self.now.one (names_of path.now)) }
    {
        match self.files.id(path) {
            Some(id) => self.files.count(id),
            None => Ok(0),
        }
    }

    // ---- changes

    /// Creates an empty file at a path.
    ///
    /// # Errors
    ///
    /// - `AllocError`: out of memory, or no number is left after 2^64 files. The map is unchanged.
    pub(super) fn make_file(&mut self, alloc: Global, path: Vec<Name>) -> Result<(), AllocError>
        requires { plain.new_refusal self.old.nodes (names_of path.items) ≡ None }
        ensures made { OnOk result (self.new ≡ plain.with_file self.old (names_of path.items)) }
        ensures kept { OnErr result (self.new ≡ self.old) }
    {
        let next = following(self.next)?;
        let content = Vec::new(alloc);
        self.files.put(
            path,
            Node::File {
                id: self.next,
                attributes: NO_ATTRIBUTES,
                content,
            },
        )?;
        self.next = next;
        Ok(())
    }

    /// Creates an empty directory at a path.
    pub(super) fn make_dir(&mut self, path: Vec<Name>) -> Result<(), AllocError>
        requires { plain.new_refusal self.old.nodes (names_of path.items) ≡ None }
        ensures made { OnOk result (self.new ≡ plain.with_dir self.old (names_of path.items)) }
        ensures kept { OnErr result (self.new ≡ self.old) }
    {
        let made = Node::Dir {
            attributes: NO_ATTRIBUTES,
        };
        self.files.put(path, made)?;
        Ok(())
    }

    /// Gives the file at a path another path.
    pub(super) fn link(&mut self, path: &[Name], new: Vec<Name>) -> Result<(), AllocError>
        requires file { plain.file_refusal self.old.nodes (names_of path.now) ≡ None }
        requires new { plain.new_refusal self.old.nodes (names_of new.items) ≡ None }
        ensures linked { OnOk result (self.new ≡ plain.with_name self.old (names_of path.now) (names_of new.items)) }
        ensures kept { OnErr result (self.new ≡ self.old) }
    {
        match self.files.node(path) {
            Some(node) => {
                let copied = copy(node)?;
                self.files.put(new, copied)?;
                Ok(())
            }
            None => unreachable!(),
        }
    }

    /// Removes one path of a file.
    pub(super) fn remove_file(&mut self, path: &[Name])
        requires { plain.file_refusal self.old.nodes (names_of path.now) ≡ None }
        ensures { self.new ≡ plain.with_nothing self.old (names_of path.now) }
    {
        self.files.take(path);
    }

    /// Removes an empty directory other than the root.
    pub(super) fn remove_dir(&mut self, path: &[Name])
        requires other { plain.is_root_path (names_of path.now) ≡ false }
        requires empty { plain.is_empty_dir self.old.nodes (names_of path.now) ≡ true }
        ensures { self.new ≡ plain.with_nothing self.old (names_of path.now) }
    {
        self.files.take(path);
    }

    /// Writes bytes to the file at a path, from byte `offset` on.
    pub(super) fn write(
        &mut self,
        alloc: Global,
        path: &[Name],
        offset: u64,
        new: &[u8],
    ) -> Result<(), AllocError>
        ensures written { OnOk result (self.new ≡ plain.with_written self.old (names_of path.now) offset new.now) }
        ensures kept { OnErr result (self.new ≡ self.old) }
    {
        let content = written(alloc, self.bytes(path), offset as usize, new)?;
        self.set_content(alloc, path, &content)
    }

    /// Sets the size of the file at a path.
    pub(super) fn resize(
        &mut self,
        alloc: Global,
        path: &[Name],
        size: u64,
    ) -> Result<(), AllocError>
        ensures resized { OnOk result (self.new ≡ plain.with_size self.old (names_of path.now) size) }
        ensures kept { OnErr result (self.new ≡ self.old) }
    {
        let content = resized(alloc, self.bytes(path), size as usize)?;
        self.set_content(alloc, path, &content)
    }

    /// Replaces the bytes of the file at a path; changes nothing if there is no file.
    fn set_content(&mut self, alloc: Global, path: &[Name], bytes: &[u8]) -> Result<(), AllocError>
        ensures set { OnOk result (self.new ≡ plain.with_content self.old (names_of path.now) bytes.now) }
        ensures kept { OnErr result (self.new ≡ self.old) }
    {
        match self.files.id(path) {
            Some(id) => {
                let attributes = self.attributes(path);
                let change = Change::Content {
                    id,
                    attributes,
                    bytes,
                };
                let files = self.files.changed(alloc, &change)?;
                self.files = files;
                Ok(())
            }
            None => Ok(()),
        }
    }

    /// Sets an attribute of the file or directory at a path; changes nothing if nothing is there.
    pub(super) fn set_attribute(
        &mut self,
        alloc: Global,
        path: &[Name],
        number: u64,
        value: u64,
    ) -> Result<(), AllocError>
        requires { number < attributes }
        ensures set { OnOk result (self.new ≡ plain.with_attribute self.old (names_of path.now) number value) }
        ensures kept { OnErr result (self.new ≡ self.old) }
    {
        let mut attributes = self.attributes(path);
        attributes[number as usize] = value;
        self.set_attributes(alloc, path, attributes)
    }

    /// Replaces the attributes of the file or directory at a path; changes nothing if nothing is there.
    fn set_attributes(
        &mut self,
        alloc: Global,
        path: &[Name],
        attributes: Attributes,
    ) -> Result<(), AllocError>
        ensures set { OnOk result (self.new ≡ plain.with_attributes self.old (names_of path.now) attributes) }
        ensures kept { OnErr result (self.new ≡ self.old) }
    {
        if self.is_dir(path) {
            let same = copied(alloc, path)?;
            self.files.put(same, Node::Dir { attributes })?;
            return Ok(());
        }
        match self.files.id(path) {
            Some(id) => {
                let bytes = self.bytes(path);
                let change = Change::Content {
                    id,
                    attributes,
                    bytes,
                };
                let files = self.files.changed(alloc, &change)?;
                self.files = files;
                Ok(())
            }
            None => Ok(()),
        }
    }

    /// Moves everything at or below `from` to `to`. The old node at `to` is removed.
    pub(super) fn move_to(
        &mut self,
        alloc: Global,
        from: &[Name],
        to: &[Name],
    ) -> Result<(), AllocError>
        requires can { plain.move_refusal self.old.nodes (names_of from.now) (names_of to.now) ≡ None }
        requires apart { same_path (names_of from.now) (names_of to.now) ≡ false }
        ensures moved { OnOk result (self.new ≡ plain.with_moved self.old (names_of from.now) (names_of to.now)) }
        ensures kept { OnErr result (self.new ≡ self.old) }
    {
        let files = self.files.changed(alloc, &Change::Moved { from, to })?;
        self.files = files;
        Ok(())
    }
}

/// Returns whether both paths have a number and the numbers are equal.
fn are_one(id: Option<u64>, other: Option<u64>) -> bool
    ensures { result ≡ are_one id other }
{
    match (id, other) {
        (Some(id), Some(other)) => id == other,
        _ => false,
    }
}

/// Returns the next number.
fn following(number: u64) -> Result<u64, AllocError>
    ensures { IfOk result (λ next. next ≡ number + 1) }
{
    match number.checked_add(1) {
        Some(next) => Ok(next),
        None => Err(AllocError),
    }
}
