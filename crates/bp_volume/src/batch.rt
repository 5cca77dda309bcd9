//! Batches: bytes written into several files at once.

ghost use Rattle.std.specs.List.{All, list_any, sum_by};
ghost use Rattle.std.specs.Prelude.{◌≡◌, ◌+◌, ◌≤◌, IfErr, IfOk, IfSome, false, is_none, length, map};
ghost use Rattle.bp_cache.specs.Cache.{IsCacheOf};
ghost use Rattle.bp_cache.specs.Changes.{KeepsAllNames};
ghost use Rattle.bp_calls.specs.Overwritten.{patch_seen, patches_seen};
ghost use Rattle.bp_calls.specs.Mounted.{image_in, IsExactIn};
ghost use Rattle.bp_layout.specs.Inode.{IsFile, size_of};
ghost use Rattle.bp_layout.specs.Paths.{parse};
ghost use Rattle.bp_layout.specs.WellFormed.{IsWellFormed};
ghost use Rattle.bp_limits.specs.Limits.{max_pieces};
ghost use Rattle.bp_limits.specs.CallLimits.{max_batch};
ghost use Rattle.bp_plain.specs.Calls.Call.{batch};
ghost use Rattle.bp_plain.specs.Seen.{LiesIn, piece_in, refusal_of, spanned};
ghost use Rattle.bp_stands.specs.Pieces.{ArePatches, PieceFinds, patch_of};
ghost use Rattle.bp_volume.specs.Carried.{CarriesOut};
ghost use Rattle.bp_volume.specs.Ready.{IsReady};
ghost use Rattle.bp_volume.specs.Seen.{unit_answer};
ghost use Rattle.bp_fs.specs.Step.{FindsFile, PathFinds};
ghost use Rattle.bp_volume.specs.Queries.{RefusesPiece, RefusesPieces, StopsAtFile};
ghost use Rattle.pm_region.specs.Memory.{words_in};

use crate::lookup::{FoundFile, file_at};
use crate::refusals::no_space;
use arrayvec::ArrayVec;
use bp_cache::DirectoryCache;
use bp_calls::Patch;
use bp_free::Parts;
use bp_limits::MAX_BATCH;
use bp_path::parse;
use bp_plain::{FsError, Piece, Span};
use pm_region::Region;

/// Returns a part of a text.
fn part_of(text: &[u8], span: Span) -> &[u8]
    requires { span.at + span.len ≤ length text.now }
    ensures { result.now ≡ spanned text.now span }
{
    let at = span.at as usize;
    &text[at..at + span.len as usize]
}

/// A file, and the path at which it was found.
#[derive(Clone, Copy)]
struct Known<'a> {
    /// The text of the path.
    path: &'a [u8],
    /// The file.
    file: FoundFile,
}

/// Returns whether the path text of some piece is not a path.
fn has_bad_path(text: &[u8], pieces: &[Piece]) -> bool
    requires { All (LiesIn text.now) pieces.now }
    ensures { result ≡ list_any (λ piece. is_none (parse piece.path)) (map (piece_in text.now) pieces.now) }
{
    // Consecutive pieces are mostly for one file, so a text that was a path is not parsed again for the next piece.
    let mut good = b"/".as_slice();
    for piece in pieces {
        let path = part_of(text, piece.path);
        if path != good && parse(path).is_err() {
            return true;
        }
        good = path;
    }
    false
}

/// Returns the total number of bytes of the pieces.
fn total(pieces: &[Piece]) -> u64
    requires { length pieces.now ≤ max_pieces }
    ensures { result ≡ sum_by (λ piece. piece.bytes.len) pieces.now }
{
    let mut total = 0;
    for piece in pieces {
        total += u64::from(piece.bytes.len);
    }
    total
}

/// Returns the file at a path text. If `last` was found at the same path, it is `last`; else a walk finds the file,
/// which then becomes `last`.
fn file_for<'a, R: Region>(
    region: &R,
    cache: &mut DirectoryCache,
    path: &'a [u8],
    last: &mut Option<Known<'a>>,
) -> Result<FoundFile, FsError>
    requires well_formed { IsWellFormed (words_in R.memory region.now) }
    requires right { IsCacheOf (words_in R.memory region.now) cache.old }
    requires last { IfSome last.old (λ last.
        FindsFile (words_in R.memory region.now) last.path.now last.file.ino last.file.size) }
    ensures found { IfOk result (λ file. PathFinds (words_in R.memory region.now) path.now file.ino) }
    ensures kind { IfOk result (λ file. IsFile (words_in R.memory region.now) file.ino) }
    ensures size { IfOk result (λ file. file.size ≡ size_of (words_in R.memory region.now) file.ino) }
    ensures refused { IfErr result (λ e. StopsAtFile (words_in R.memory region.now) path.now (refusal_of e)) }
    ensures last { IfSome last.new (λ last.
        FindsFile (words_in R.memory region.now) last.path.now last.file.ino last.file.size) }
    ensures right { IsCacheOf (words_in R.memory region.now) cache.new }
{
    match &*last {
        Some(known) if known.path == path => Ok(known.file),
        _ => {
            let file = file_at(region, cache, path)?;
            *last = Some(Known { path, file });
            Ok(file)
        }
    }
}

/// Returns the patch of a piece whose path text is a path: its bytes, and the inode of the file at the path.
fn patch_for<'a, R: Region>(
    region: &R,
    cache: &mut DirectoryCache,
    text: &'a [u8],
    piece: &Piece,
    last: &mut Option<Known<'a>>,
) -> Result<Patch<'a>, FsError>
    requires well_formed { IsWellFormed (words_in R.memory region.now) }
    requires right { IsCacheOf (words_in R.memory region.now) cache.old }
    requires lies { LiesIn text.now piece.now }
    requires path { is_none (parse (spanned text.now piece.now.path)) ≡ false }
    requires last { IfSome last.old (λ last.
        FindsFile (words_in R.memory region.now) last.path.now last.file.ino last.file.size) }
    ensures found { IfOk result (λ patch.
        PieceFinds (words_in R.memory region.now) (piece_in text.now piece.now) patch.inode) }
    ensures patch { IfOk result (λ patch. patch_seen patch ≡ patch_of (piece_in text.now piece.now) patch.inode) }
    ensures refused { IfErr result (λ e.
        RefusesPiece (words_in R.memory region.now) (piece_in text.now piece.now) (refusal_of e)) }
    ensures last { IfSome last.new (λ last.
        FindsFile (words_in R.memory region.now) last.path.now last.file.ino last.file.size) }
    ensures right { IsCacheOf (words_in R.memory region.now) cache.new }
{
    let file = file_for(region, cache, part_of(text, piece.path), last)?;
    let bytes = part_of(text, piece.bytes);
    if file.size < piece.offset || file.size - piece.offset < bytes.len() as u64 {
        return Err(FsError::PastEnd);
    }
    Ok(Patch {
        inode: file.ino,
        offset: piece.offset,
        bytes,
    })
}

/// Returns the patches of pieces whose path texts are paths, in the order of the pieces.
fn patches_for<'a, R: Region>(
    region: &R,
    cache: &mut DirectoryCache,
    text: &'a [u8],
    pieces: &[Piece],
) -> Result<ArrayVec<Patch<'a>, 16>, FsError>
    requires well_formed { IsWellFormed (words_in R.memory region.now) }
    requires right { IsCacheOf (words_in R.memory region.now) cache.old }
    requires few { length pieces.now ≤ max_pieces }
    requires lie { All (LiesIn text.now) pieces.now }
    requires paths { list_any (λ piece. is_none (parse piece.path)) (map (piece_in text.now) pieces.now) ≡ false }
    ensures found { IfOk result (λ patches. ArePatches (words_in R.memory region.now)
        (map (piece_in text.now) pieces.now) (patches_seen patches.items)) }
    ensures refused { IfErr result (λ e. RefusesPieces (words_in R.memory region.now)
        (map (piece_in text.now) pieces.now) (refusal_of e)) }
    ensures right { IsCacheOf (words_in R.memory region.now) cache.new }
{
    let mut patches = ArrayVec::new();
    let mut last = None;
    for piece in pieces {
        let patch = patch_for(region, cache, text, piece, &mut last)?;
        patches.push(patch);
    }
    Ok(patches)
}

/// Writes the bytes of pieces into their files, all at once. If there are no bytes, it changes nothing.
fn batch_into<R: Region>(
    parts: &mut Parts<R>,
    text: &[u8],
    pieces: &[Piece],
    total: u64,
    patches: &[Patch<'_>],
) -> Result<(), FsError>
    requires ready { IsReady (R.memory parts.old.region) parts.old }
    requires few { length pieces.now ≤ max_pieces }
    requires lie { All (LiesIn text.now) pieces.now }
    requires paths { list_any (λ piece. is_none (parse piece.path)) (map (piece_in text.now) pieces.now) ≡ false }
    requires total { total ≡ sum_by (λ piece. piece.bytes.len) pieces.now }
    requires short { total ≤ max_batch }
    requires found { ArePatches (image_in R.memory parts.old) (map (piece_in text.now) pieces.now)
        (patches_seen patches.now) }
    ensures called { CarriesOut (R.memory parts.old.region) (batch (map (piece_in text.now) pieces.now))
        (unit_answer result) (R.memory parts.new.region) }
    ensures snapshot_blocks { parts.new.snapshot_blocks ≡ parts.old.snapshot_blocks }
    ensures exact { IsExactIn R.memory parts.new }
    ensures names { KeepsAllNames (image_in R.memory parts.old) (image_in R.memory parts.new) }
{
    if total == 0 {
        return Ok(());
    }
    bp_calls::batch(parts, patches).map_err(no_space)
}

/// Carries out `batch`, except for its end-of-call marker.
pub(crate) fn do_batch<R: Region>(
    parts: &mut Parts<R>,
    cache: &mut DirectoryCache,
    text: &[u8],
    pieces: &[Piece],
) -> Result<(), FsError>
    requires ready { IsReady (R.memory parts.old.region) parts.old }
    requires right { IsCacheOf (image_in R.memory parts.old) cache.old }
    requires few { length pieces.now ≤ max_pieces }
    requires lie { All (LiesIn text.now) pieces.now }
    ensures called { CarriesOut (R.memory parts.old.region) (batch (map (piece_in text.now) pieces.now))
        (unit_answer result) (R.memory parts.new.region) }
    ensures snapshot_blocks { parts.new.snapshot_blocks ≡ parts.old.snapshot_blocks }
    ensures exact { IsExactIn R.memory parts.new }
    ensures right { IsCacheOf (image_in R.memory parts.new) cache.new }
{
    // All texts must be paths before any file is looked up.
    if has_bad_path(text, pieces) {
        return Err(FsError::BadPath);
    }
    let total = total(pieces);
    if total > MAX_BATCH {
        return Err(FsError::TooLong);
    }
    let patches = patches_for(&parts.region, cache, text, pieces)?;
    batch_into(parts, text, pieces, total, patches.as_slice())
}
