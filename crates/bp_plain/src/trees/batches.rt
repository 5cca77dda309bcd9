//! Batches of writes in the abstract tree.

ghost use Rattle.bp_layout.specs.Paths.{parse};
ghost use Rattle.bp_limits.specs.Limits.{max_pieces};
ghost use Rattle.bp_plain.specs.Calls.Call.{batch};
ghost use Rattle.bp_plain.specs.Plain as plain;
ghost use Rattle.bp_plain.specs.Seen.{LiesIn, piece_in, refusal_of, spanned};
ghost use Rattle.bp_plain.specs.SeenTree.{carried_out};
ghost use Rattle.std.specs.List.{All, list_any, sum_by};
ghost use Rattle.std.specs.Prelude.{IfOk, OnErr, OnOk, ◌+◌, ◌≡◌, ◌≤◌, is_none, length, map, option_map};

use super::Plain;
use super::maps::FileMap;
use crate::calls::{Piece, Span};
use crate::errors::FsError;
use crate::paths::{first, parse, path_of, when};
use crate::replies::Reply;
use bp_limits::MAX_BATCH;
use std::alloc::{AllocError, Global};

impl Plain {
    // ---- refusals

    pub(super) fn refuses_batch(
        &self,
        alloc: Global,
        text: &[u8],
        pieces: &[Piece],
    ) -> Result<Option<FsError>, AllocError>
        requires few { length pieces.now ≤ max_pieces }
        requires lie { All (LiesIn text.now) pieces.now }
        ensures { IfOk result (λ found. option_map refusal_of found
            ≡ plain.refusal self.now (batch (map (piece_in text.now) pieces.now))) }
    {
        let has_bad_path = has_bad_path(alloc, text, pieces)?;
        let refused = self.current().refuses_pieces(alloc, text, pieces)?;
        Ok(first(&[
            when(has_bad_path, FsError::BadPath),
            when(total(pieces) > MAX_BATCH, FsError::TooLong),
            refused,
        ]))
    }

    // ---- the effect of a batch

    pub(super) fn batch(
        &mut self,
        alloc: Global,
        text: &[u8],
        pieces: &[Piece],
        reply: &mut Reply,
    ) -> Result<(), AllocError>
        requires { All (LiesIn text.now) pieces.now }
        ensures done { OnOk result ((reply.new.answer, self.new)
            ≡ carried_out self.old (batch (map (piece_in text.now) pieces.now))) }
        ensures kept { OnErr result (self.new ≡ self.old) }
    {
        let mut written = self.current.copied(alloc)?;
        written.write_pieces(alloc, text, pieces)?;
        self.current = written;
        reply.set_done();
        Ok(())
    }
}

impl FileMap {
    /// Returns the first refusal of a piece.
    fn refuses_pieces(
        &self,
        alloc: Global,
        text: &[u8],
        pieces: &[Piece],
    ) -> Result<Option<FsError>, AllocError>
        requires { All (LiesIn text.now) pieces.now }
        ensures { IfOk result (λ found. option_map refusal_of found
            ≡ plain.first (map (plain.piece_refusal self.now.nodes) (map (piece_in text.now) pieces.now))) }
    {
        for piece in pieces {
            let found = self.refuses_piece(alloc, text, piece)?;
            if found.is_some() {
                return Ok(found);
            }
        }
        Ok(None)
    }

    fn refuses_piece(
        &self,
        alloc: Global,
        text: &[u8],
        piece: &Piece,
    ) -> Result<Option<FsError>, AllocError>
        requires { LiesIn text.now piece.now }
        ensures { IfOk result (λ found. option_map refusal_of found
            ≡ plain.piece_refusal self.now.nodes (piece_in text.now piece.now)) }
    {
        let path = path_of(alloc, part_of(text, piece.path))?;
        let end = u128::from(piece.offset) + part_of(text, piece.bytes).len() as u128;
        Ok(first(&[
            self.refuses_file(&path),
            when(end > self.bytes(&path).len() as u128, FsError::PastEnd),
        ]))
    }

    /// Writes the pieces, one after the other.
    fn write_pieces(
        &mut self,
        alloc: Global,
        text: &[u8],
        pieces: &[Piece],
    ) -> Result<(), AllocError>
        requires { All (LiesIn text.now) pieces.now }
        ensures { OnOk result (self.new ≡ plain.with_pieces self.old (map (piece_in text.now) pieces.now)) }
    {
        for piece in pieces {
            self.write_piece(alloc, text, piece)?;
        }
        Ok(())
    }

    fn write_piece(&mut self, alloc: Global, text: &[u8], piece: &Piece) -> Result<(), AllocError>
        requires { LiesIn text.now piece.now }
        ensures { OnOk result (self.new ≡ plain.with_piece self.old (piece_in text.now piece.now)) }
    {
        let bytes = part_of(text, piece.bytes);
        if !bytes.is_empty() {
            let path = path_of(alloc, part_of(text, piece.path))?;
            self.write(alloc, &path, piece.offset, bytes)?;
        }
        Ok(())
    }
}

/// Returns whether the path of some piece is not a valid path.
fn has_bad_path(alloc: Global, text: &[u8], pieces: &[Piece]) -> Result<bool, AllocError>
    requires { All (LiesIn text.now) pieces.now }
    ensures { IfOk result (λ holds.
        holds ≡ list_any (λ piece. is_none (parse piece.path)) (map (piece_in text.now) pieces.now)) }
{
    for piece in pieces {
        let path = parse(alloc, part_of(text, piece.path))?;
        if path.is_none() {
            return Ok(true);
        }
    }
    Ok(false)
}

/// Returns the number of bytes of all pieces together.
fn total(pieces: &[Piece]) -> u64
    requires { length pieces.now ≤ max_pieces }
    ensures { result ≡ sum_by (λ piece. piece.bytes.len) pieces.now }
{
    let mut total = 0;
    for piece in pieces {
        total += u64::from(piece.bytes.len);
    }
    total
}

/// Returns a part of a text.
fn part_of(text: &[u8], span: Span) -> &[u8]
    requires { span.at + span.len ≤ length text.now }
    ensures { result.now ≡ spanned text.now span }
{
    let at = span.at as usize;
    &text[at..at + span.len as usize]
}
