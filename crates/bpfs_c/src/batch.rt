//! Writes to several files at once: `bpfs_batch`.

ghost use Rattle.std.specs.Prelude.{◌≡◌, ◌≤◌, ◌↔◌, ◌+◌, IsTrue, MatchOption, map};
ghost use Rattle.bp_plain.specs.Seen.{LiesIn};
ghost use Rattle.bpfs_c.specs.Exports.{ExportsChange};
ghost use Rattle.bpfs_c.specs.Patches.{AreFit, patch_batch, piece_of};

use crate::codes::{CLOSED, LOG_FULL, Lack, OUT_OF_RANGE, ended};
use crate::handle::Handle;
use crate::mounted::has_room;
use arrayvec::ArrayVec;
use bp_limits::MAX_PIECES;
use bp_plain::{Piece, Span};
use std::alloc::Global;

/// A write of bytes to the file at a path, from an offset on. Path and bytes are parts of one text.
#[repr(C)]
#[derive(Clone, Copy, Drop)]
pub struct Patch {
    /// The offset of the path in the text, in bytes.
    pub path_at: u32,
    /// The length of the path, in bytes.
    pub path_length: u32,
    /// The offset in the file at which the new bytes begin.
    pub offset: u64,
    /// The offset of the new bytes in the text, in bytes.
    pub bytes_at: u32,
    /// The number of new bytes.
    pub bytes_length: u32,
}

/// Converts a patch of C to a piece of a batch.
fn as_piece(patch: &Patch) -> Piece
    ensures { result ≡ piece_of patch.now }
{
    Piece {
        path: Span {
            at: patch.path_at,
            len: patch.path_length,
        },
        offset: patch.offset,
        bytes: Span {
            at: patch.bytes_at,
            len: patch.bytes_length,
        },
    }
}

/// Whether a part lies in a text of `len` bytes.
fn fits(span: Span, len: usize) -> bool
    ensures { IsTrue result ↔ (span.at + span.len ≤ len) }
{
    let at = span.at as usize;
    at <= len && span.len as usize <= len - at
}

/// Whether both parts of a piece lie in a text.
fn lies_in(text: &[u8], piece: &Piece) -> bool
    ensures { IsTrue result ↔ LiesIn text.now piece.now }
{
    fits(piece.path, text.len()) && fits(piece.bytes, text.len())
}

/// Converts patches to the pieces of a batch, if there are at most `MAX_PIECES` and their parts lie in the text.
fn pieces_in(text: &[u8], patches: &[Patch]) -> Option<ArrayVec<Piece, MAX_PIECES>>
    ensures { MatchOption result (¬ AreFit text.now patches.now)
        (λ pieces. AreFit text.now patches.now × (pieces.items ≡ map piece_of patches.now)) }
{
    if MAX_PIECES < patches.len() {
        return None;
    }
    let mut pieces = ArrayVec::new();
    for patch in patches {
        let piece = as_piece(patch);
        if !lies_in(text, &piece) {
            return None;
        }
        pieces.push(piece);
    }
    Some(pieces)
}

/// Writes bytes to one or several files, all at once.
#[unsafe(no_mangle)]
pub extern "C" fn bpfs_batch(
    alloc: Global,
    handle: &mut Handle,
    text: &[u8],
    patches: &[Patch],
    lack: &mut Lack,
) -> u32
    ensures fit { AreFit text.now patches.now →
        ExportsChange handle.old.held (patch_batch text.now patches.now) lack.old result lack.new handle.new.held }
    ensures unfit { ¬ AreFit text.now patches.now →
        (result ≡ 38) × (handle.new.held ≡ handle.old.held) × (lack.new ≡ lack.old) }
{
    let Some(pieces) = pieces_in(text, patches) else {
        return OUT_OF_RANGE;
    };
    let Some(mut mounted) = handle.take(alloc) else {
        return CLOSED;
    };
    let code = if has_room(&mounted) {
        ended(mounted.volume.batch(text, pieces.as_slice()), lack)
    } else {
        LOG_FULL
    };
    handle.put(alloc, mounted);
    code
}
