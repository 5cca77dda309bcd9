//! Renames in the abstract tree.

ghost use Rattle.bp_layout.specs.Paths.{rest_below};
ghost use Rattle.bp_plain.specs.Calls.Call.{rename};
ghost use Rattle.bp_plain.specs.Plain as plain;
ghost use Rattle.bp_plain.specs.Seen.{refusal_of};
ghost use Rattle.bp_plain.specs.SeenTree.{carried_out, names_of};
ghost use Rattle.std.specs.Prelude.{IfOk, None, OnErr, OnOk, ◌≡◌, is_some, option_map};

use super::Plain;
use super::maps::FileMap;
use crate::errors::FsError;
use crate::paths::{first, is_same, parse, path_of, when};
use crate::replies::Reply;
use bp_layout::Name;
use std::alloc::{AllocError, Global};

impl Plain {
    // ---- refusals

    pub(super) fn refuses_rename(
        &self,
        alloc: Global,
        from: &[u8],
        to: &[u8],
    ) -> Result<Option<FsError>, AllocError>
        ensures { IfOk result (λ found.
            option_map refusal_of found ≡ plain.refusal self.now (rename from.now to.now)) }
    {
        match (parse(alloc, from)?, parse(alloc, to)?) {
            (Some(from), Some(to)) => self.current().refuses_move(alloc, &from, &to),
            _ => Ok(Some(FsError::BadPath)),
        }
    }

    // ---- the effect of a rename

    pub(super) fn rename(
        &mut self,
        alloc: Global,
        from: &[u8],
        to: &[u8],
        reply: &mut Reply,
    ) -> Result<(), AllocError>
        requires { plain.refusal self.old (rename from.now to.now) ≡ None }
        ensures done { OnOk result ((reply.new.answer, self.new) ≡ carried_out self.old (rename from.now to.now)) }
        ensures kept { OnErr result (self.new ≡ self.old) }
    {
        let from = path_of(alloc, from)?;
        let to = path_of(alloc, to)?;
        if !is_same(&from, &to) && !self.current().is_one(&from, &to) {
            self.current.move_to(alloc, &from, &to)?;
        }
        reply.set_done();
        Ok(())
    }
}

impl FileMap {
    /// Returns why the node at one path cannot move to the other, for paths that are parsed already.
    fn refuses_move(
        &self,
        alloc: Global,
        from: &[Name],
        to: &[Name],
    ) -> Result<Option<FsError>, AllocError>
        ensures { IfOk result (λ found.
            option_map refusal_of found ≡ plain.move_refusal self.now.nodes (names_of from.now) (names_of to.now)) }
    {
        let onto_names = self.moves_onto_names(alloc, from, to)?;
        Ok(first(&[
            when(from.is_empty(), FsError::IsRoot),
            when(to.is_empty(), FsError::IsRoot),
            self.walk(from),
            self.walk_parent(to),
            when(moves_below(from, to), FsError::IntoSelf),
            when(self.moves_file_onto_dir(from, to), FsError::IsDir),
            when(self.moves_dir_onto_file(from, to), FsError::NotDir),
            when(onto_names, FsError::NotEmpty),
        ]))
    }

    fn moves_file_onto_dir(&self, from: &[Name], to: &[Name]) -> bool
        ensures { result ≡ plain.moves_file_onto_dir self.now.nodes (names_of from.now) (names_of to.now) }
    {
        !self.is_dir(from) && self.is_dir(to)
    }

    fn moves_dir_onto_file(&self, from: &[Name], to: &[Name]) -> bool
        ensures { result ≡ plain.moves_dir_onto_file self.now.nodes (names_of from.now) (names_of to.now) }
    {
        self.is_dir(from) && self.has(to) && !self.is_dir(to)
    }

    fn moves_onto_names(
        &self,
        alloc: Global,
        from: &[Name],
        to: &[Name],
    ) -> Result<bool, AllocError>
        ensures { IfOk result (λ holds.
            holds ≡ plain.moves_onto_names self.now.nodes (names_of from.now) (names_of to.now)) }
    {
        let is_empty = self.is_empty_dir(alloc, to)?;
        Ok(!is_same(from, to) && self.is_dir(from) && self.is_dir(to) && !is_empty)
    }
}

fn moves_below(from: &[Name], to: &[Name]) -> bool
    ensures { result ≡ plain.moves_below (names_of from.now) (names_of to.now) }
{
    !is_same(from, to) && is_below(from, to)
}

/// Returns whether `path` is `above` or below it.
fn is_below(above: &[Name], path: &[Name]) -> bool
    ensures { result ≡ is_some (rest_below (names_of above.now) (names_of path.now)) }
{
    path.starts_with(above)
}
