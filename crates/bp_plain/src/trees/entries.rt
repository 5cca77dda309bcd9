//! The node at each path, as the program holds it: a file has a number, the same one at each of its paths.

ghost use Rattle.bp_layout.specs.Paths.{rest_below};
ghost use Rattle.bp_layout.specs.Listing.{listed};
ghost use Rattle.bp_plain.specs.Changed.{changed, changed_files, with_bytes_in, with_entry};
ghost use Rattle.bp_plain.specs.Numbered.{has_number, number_at, paths_numbered, plain_nodes, root_alone};
ghost use Rattle.bp_plain.specs.Plain as plain;
ghost use Rattle.bp_plain.specs.Plain.{listing};
ghost use Rattle.bp_plain.specs.SeenTree.{names_of, node_seen, numbered};
ghost use Rattle.std.specs.FinMap.{empty, entries, get, insert, remove};
ghost use Rattle.std.specs.Prelude.{IfOk, OnErr, OnOk, ◌+◌, ◌≡◌, if◌then◌else◌, length, option_map};

use crate::paths::{copied, is_same, joined};
use bp_layout::{Kind, Name};
use bp_limits::ATTRIBUTES;
use std::alloc::{AllocError, Global};
use std::collections::BTreeMap;
use std::marker::Model;

/// Attributes of a file or a directory: words of the caller's own.
pub(super) type Attributes = [u64; ATTRIBUTES as usize];

/// Attributes of a new file or directory.
pub(super) const NO_ATTRIBUTES: Attributes = [0; ATTRIBUTES as usize];

/// Node at a path.
#[derive(Drop)]
pub(super) enum Node {
    /// A directory.
    Dir {
        /// Attributes of the directory.
        attributes: Attributes,
    },
    /// A file.
    File {
        /// Number of the file, which no other file has.
        id: u64,
        /// Attributes of the file.
        attributes: Attributes,
        /// Bytes of the file.
        content: Vec<u8>,
    },
}

/// Change that a copy of the files makes.
#[derive(Clone, Copy)]
pub(super) enum Change<'a> {
    /// No change.
    Nothing,
    /// The file with a number gets other attributes and bytes, at each of its paths.
    Content {
        /// Number of the file.
        id: u64,
        /// New attributes.
        attributes: Attributes,
        /// New bytes.
        bytes: &'a [u8],
    },
    /// Everything at or below path `from` moves to `to`. The old node at `to` is removed.
    Moved {
        /// Old path.
        from: &'a [Name],
        /// New path.
        to: &'a [Name],
    },
}

/// Nodes of all paths.
#[derive(Drop)]
pub(super) struct Files {
    nodes: BTreeMap<Vec<Name>, Node>,
}

impl Model for Files {
    ghost use Rattle.bp_plain.specs.Numbered.{NumberedFiles};
    ghost use Rattle.bp_plain.specs.TreeCode.{numbered_code};

    ghost Value = { NumberedFiles };

    ghost coded = { numbered_code };

    ghost use Rattle.bp_plain.specs.SeenTree.{AreInOrder, files_seen};

    ghost view = { files_seen };

    ghost invariant = { AreInOrder };
}

impl Files {
    /// Makes the files of a tree that has only the root directory.
    pub(super) fn root_alone(alloc: Global) -> Result<Files, AllocError>
        ensures { IfOk result (λ files. files ≡ root_alone) }
    {
        let mut nodes = BTreeMap::new(alloc);
        let root = Node::Dir {
            attributes: NO_ATTRIBUTES,
        };
        nodes.insert(Vec::new(alloc), root)?;
        Ok(Files { nodes })
    }

    /// Makes files with no path at all, not even the root directory.
    fn with_nothing(alloc: Global) -> Files
        ensures { result ≡ empty }
    {
        Files {
            nodes: BTreeMap::new(alloc),
        }
    }

    /// Puts this node at the path, in place of any node there.
    pub(super) fn put(&mut self, path: Vec<Name>, node: Node) -> Result<(), AllocError>
        ensures put { OnOk result (self.new ≡ insert self.old (names_of path.items) (numbered node)) }
        ensures kept { OnErr result (self.new ≡ self.old) }
    {
        self.nodes.insert(path, node)?;
        Ok(())
    }

    /// Removes the node at the path.
    pub(super) fn take(&mut self, path: &[Name])
        ensures { self.new ≡ remove self.old (names_of path.now) }
    {
        let _ = self.nodes.remove(path);
    }

    /// Returns the node at a path.
    pub(super) fn node(&self, path: &[Name]) -> Option<&Node>
        ensures { option_map (λ node. numbered node.now) result ≡ get self.now (names_of path.now) }
    {
        self.nodes.get(path)
    }

    /// Returns the number of the file at a path.
    pub(super) fn id(&self, path: &[Name]) -> Option<u64>
        ensures { result ≡ number_at self.now (names_of path.now) }
    {
        match self.node(path) {
            Some(Node::File { id, .. }) => Some(*id),
            _ => None,
        }
    }

    /// Returns how many paths the file with a number has.
    ///
    /// # Errors
    ///
    /// - `AllocError`: the file has 2^32 paths or more.
    pub(super) fn count(&self, id: u64) -> Result<u32, AllocError>
        ensures { IfOk result (λ count. count ≡ length (paths_numbered id (entries self.now))) }
    {
        let mut count: u32 = 0;
        for (_, node) in self.nodes.iter() {
            let more = with_one(count, has_number(node, id))?;
            count = more;
        }
        Ok(count)
    }

    /// Returns the names in a directory with their kinds, in the order of their bytes.
    pub(super) fn names(&self, alloc: Global, dir: &[Name]) -> Result<Vec<(Kind, Name)>, AllocError>
        ensures { IfOk result (λ names. listed names.items ≡ listing (plain_nodes self.now) (names_of dir.now)) }
    {
        let mut names = Vec::new(alloc);
        for (path, node) in self.nodes.iter() {
            if let Some(name) = name_below(dir, path.as_slice()) {
                names.push((kind_of(node), name.clone()?))?;
            }
        }
        Ok(names)
    }

    /// Returns a copy of the files with a change.
    pub(super) fn changed(&self, alloc: Global, change: &Change<'_>) -> Result<Files, AllocError>
        ensures { IfOk result (λ files. files ≡ changed_files change.now self.now) }
    {
        let mut files = Files::with_nothing(alloc);
        for (path, node) in self.nodes.iter().rev() {
            files.put_changed(alloc, change, path.as_slice(), node)?;
        }
        Ok(files)
    }

    /// Inserts a copy of an entry of the old files, after the change.
    fn put_changed(
        &mut self,
        alloc: Global,
        change: &Change<'_>,
        path: &[Name],
        node: &Node,
    ) -> Result<(), AllocError>
        ensures { OnOk result (self.new
            ≡ with_entry (changed change.now (names_of path.now, numbered node.now)) self.old) }
    {
        match *change {
            Change::Nothing => {
                let same = copied(alloc, path)?;
                self.put(same, copy(node)?)
            }
            Change::Content {
                id,
                attributes,
                bytes,
            } => {
                let same = copied(alloc, path)?;
                self.put(same, with_bytes(alloc, node, id, attributes, bytes)?)
            }
            Change::Moved { from, to } => self.put_moved(alloc, from, to, path, node),
        }
    }

    /// Inserts a copy of an entry at its path after the move of `from` to `to`.
    fn put_moved(
        &mut self,
        alloc: Global,
        from: &[Name],
        to: &[Name],
        path: &[Name],
        node: &Node,
    ) -> Result<(), AllocError>
        ensures { OnOk result (self.new ≡ with_entry
            (plain.moved_entry (names_of from.now) (names_of to.now) (names_of path.now, numbered node.now)) self.old) }
    {
        if is_same(path, to) {
            return Ok(());
        }
        self.put(moved_path(alloc, from, to, path)?, copy(node)?)
    }
}

fn has_number(node: &Node, id: u64) -> bool
    ensures { result ≡ has_number id (numbered node.now) }
{
    match node {
        Node::Dir { .. } => false,
        Node::File { id: other, .. } => *other == id,
    }
}

/// Returns `count`, plus 1 if `holds`.
fn with_one(count: u32, holds: bool) -> Result<u32, AllocError>
    ensures { IfOk result (λ more. more ≡ count + (if holds then 1 else 0)) }
{
    if !holds {
        return Ok(count);
    }
    match count.checked_add(1) {
        Some(more) => Ok(more),
        None => Err(AllocError),
    }
}

/// Returns a path after the move of `from` to `to`.
fn moved_path(
    alloc: Global,
    from: &[Name],
    to: &[Name],
    path: &[Name],
) -> Result<Vec<Name>, AllocError>
    ensures { IfOk result (λ moved.
        names_of moved.items ≡ plain.moved_path (names_of from.now) (names_of to.now) (names_of path.now)) }
{
    match path.strip_prefix(from) {
        Some(rest) => joined(alloc, to, rest),
        None => copied(alloc, path),
    }
}

/// Returns a copy of a node.
pub(super) fn copy(node: &Node) -> Result<Node, AllocError>
    ensures { IfOk result (λ copied. numbered copied ≡ numbered node.now) }
{
    match node {
        Node::Dir { attributes } => Ok(Node::Dir {
            attributes: *attributes,
        }),
        Node::File {
            id,
            attributes,
            content,
        } => Ok(Node::File {
            id: *id,
            attributes: *attributes,
            content: content.clone()?,
        }),
    }
}

/// Returns a copy of a node, with these attributes and bytes if it is the file with this number.
fn with_bytes(
    alloc: Global,
    node: &Node,
    id: u64,
    attributes: Attributes,
    bytes: &[u8],
) -> Result<Node, AllocError>
    ensures { IfOk result (λ copied. numbered copied ≡ with_bytes_in id attributes bytes.now (numbered node.now)) }
{
    if has_number(node, id) {
        let content = vec_of(alloc, bytes)?;
        return Ok(Node::File {
            id,
            attributes,
            content,
        });
    }
    copy(node)
}

fn vec_of(alloc: Global, bytes: &[u8]) -> Result<Vec<u8>, AllocError>
    ensures { IfOk result (λ copied. copied.items ≡ bytes.now) }
{
    let mut copied = Vec::new(alloc);
    copied.extend_from_slice(bytes)?;
    Ok(copied)
}

fn kind_of(node: &Node) -> Kind
    ensures { result ≡ plain.kind_of_node (node_seen node.now) }
{
    match node {
        Node::Dir { .. } => Kind::Dir,
        Node::File { .. } => Kind::File,
    }
}

/// Returns the last name of a path if the path is that of an entry of this directory.
fn name_below<'a>(dir: &[Name], path: &'a [Name]) -> Option<&'a Name>
    ensures { option_map (λ name. name.now.items) result
        ≡ plain.only_name (rest_below (names_of dir.now) (names_of path.now)) }
{
    match path.strip_prefix(dir) {
        Some(rest) => only(rest),
        None => None,
    }
}

fn only(path: &[Name]) -> Option<&Name>
    ensures { option_map (λ name. name.now.items) result ≡ plain.only_name (Some (names_of path.now)) }
{
    match path {
        [name] => Some(name),
        _ => None,
    }
}
