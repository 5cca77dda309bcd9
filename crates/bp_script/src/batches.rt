//! The pieces of a batch.

ghost use Rattle.bp_plain.specs.Seen.{LiesIn, piece_in, spanned};
ghost use Rattle.bp_script.specs.Commands.Command.{bad_syntax, file_call};
ghost use Rattle.bp_script.specs.Commands.{asked_batch, path_bytes, words_of};
ghost use Rattle.bp_script.specs.Lines.{batch_in, first_piece, first_word, len_after, most_room, bytes_in_word, words_at, words_after, words_len};
ghost use Rattle.std.specs.List.{All};
ghost use Rattle.std.specs.Option.{option_map_or};
ghost use Rattle.std.specs.Prelude.{if◌then◌else◌, ◌∷◌, ◌+◌, ◌≡◌, ◌≤◌, IfOk, OnErr, OnOk, [], length, option_map, take, vec_capacity};
ghost use Rattle.std.specs.Result.{is_ok, result_ok};

use crate::fields::{decode_word, lengthen, put_path, split_once};
use crate::lines::Syntax;
use crate::numbers::number;
use arrayvec::ArrayVec;
use bp_limits::MAX_PIECES;
use bp_plain::{Piece, Span};

/// The fields of a piece. The last is the first field of a text.
#[derive(Clone, Copy)]
pub(crate) struct PieceWords<'a> {
    /// The field of the path.
    pub(crate) path: &'a [u8],
    /// The field of the offset.
    pub(crate) offset: &'a [u8],
    /// The field of the bytes, with the text after it.
    pub(crate) rest: &'a [u8],
}

/// Decodes the pieces of a batch, from the fields of the first one on: paths and bytes go into a text, one after the
/// other, in memory that is allocated. They overwrite the contents of the text, so that only missing bytes have to be
/// filled.
///
/// # Errors
///
/// * `Syntax`: the fields are not those of 1 to 16 pieces.
pub(crate) fn decode_pieces(
    first: PieceWords<'_>,
    text: &mut Vec<u8>,
    pieces: &mut ArrayVec<Piece, MAX_PIECES>,
) -> Result<(), Syntax>
    requires room { length first.path.now + length first.offset.now + length first.rest.now ≤ vec_capacity text.old }
    requires low { length first.path.now + length first.offset.now + length first.rest.now ≤ most_room }
    ensures meaning { (if is_ok result then file_call (batch_in text.new.items pieces.new.items) else bad_syntax) ≡
        asked_batch (words_at first.entry) }
    ensures whole { OnOk result (All (LiesIn text.new.items) pieces.new.items) }
    ensures room { vec_capacity text.old ≤ vec_capacity text.new }
{
    pieces.clear();
    let mut end = 0;
    let mut left = Some(first);
    while let Some(words) = left {
        if pieces.is_full() {
            return Err(Syntax);
        }
        let (piece, more) = add_piece(words, text, end)?;
        end = end_of(piece.bytes);
        pieces.push(piece);
        left = next_words(more)?;
    }
    Ok(())
}

/// Splits off the fields of the piece that a text begins with; none if there is no text.
///
/// # Errors
///
/// * `Syntax`: the text has fewer than three fields.
fn next_words(text: Option<&[u8]>) -> Result<Option<PieceWords<'_>>, Syntax>
    ensures split { IfOk result (λ next. option_map_or words_at next [] ≡ words_after text.entry) }
    ensures few { OnErr result ((1 ≤ length (words_after text.entry)) × (length (words_after text.entry) ≤ 2)) }
    ensures len { IfOk result (λ next. option_map_or words_len next 0 ≤ len_after text.entry) }
{
    let Some(text) = text else {
        return Ok(None);
    };
    let (path, rest) = split_once(text, b' ');
    let (offset, rest) = split_once(rest.ok_or(Syntax)?, b' ');
    let rest = rest.ok_or(Syntax)?;
    Ok(Some(PieceWords { path, offset, rest }))
}

/// Decodes the fields of a piece: its path and its bytes go into a text, from an offset on, in memory that is
/// allocated. Returns the piece, and the text after its fields.
///
/// # Errors
///
/// * `Syntax`: exactly if a field is empty, the offset is no number or the bytes are no hexadecimal digits.
fn add_piece<'a>(
    words: PieceWords<'a>,
    text: &mut Vec<u8>,
    at: usize,
) -> Result<(Piece, Option<&'a [u8]>), Syntax>
    requires within { at ≤ length text.old.items }
    requires room { at + length words.path.now + length words.rest.now ≤ vec_capacity text.old }
    requires low { at + length words.path.now + length words.rest.now ≤ most_room }
    ensures piece { option_map (λ added. piece_in text.new.items added.0) (result_ok result) ≡
        first_piece words.entry }
    ensures following { IfOk result (λ added. words_of words.entry.rest.now ≡ first_word words.entry.rest.now ∷ words_after added.1) }
    ensures lies { IfOk result (λ added. LiesIn text.new.items added.0) }
    ensures later { IfOk result (λ added. at ≤ added.0.bytes.at) }
    ensures order { IfOk result (λ added. added.0.path.at + added.0.path.len ≤ added.0.bytes.at) }
    ensures prefix { OnOk result (take at text.new.items ≡ take at text.old.items) }
    ensures len { IfOk result (λ added. added.0.bytes.at + added.0.bytes.len + len_after added.1 ≤ at + words_len words.entry) }
    ensures less { IfOk result (λ added. option_map_or (λ rest. length rest.now + 1) added.1 0 ≤ length words.entry.rest.now) }
    ensures room { vec_capacity text.old ≤ vec_capacity text.new }
{
    if words.path.is_empty() {
        return Err(Syntax);
    }
    let Some(offset) = number(words.offset) else {
        return Err(Syntax);
    };
    let path = add_path_part(words.path, text, at);
    let (bytes, following) = add_bytes_part(words.rest, text, end_of(path))?;
    Ok((
        Piece {
            path,
            offset,
            bytes,
        },
        following,
    ))
}

/// Returns the end of a part of a text.
fn end_of(part: Span) -> usize
    requires { part.at + part.len ≤ most_room }
    ensures { result ≡ part.at + part.len }
{
    (part.at + part.len) as usize
}

/// Writes the path that a field spells into a text from an offset on, and returns its part of the text.
fn add_path_part(word: &[u8], text: &mut Vec<u8>, at: usize) -> Span
    requires within { at ≤ length text.old.items }
    requires room { at + length word.now ≤ vec_capacity text.old }
    requires low { at + length word.now ≤ most_room }
    ensures part { spanned text.new.items result ≡ path_bytes word.now }
    ensures place { result.at ≡ at }
    ensures lies { result.at + result.len ≤ length text.new.items }
    ensures prefix { take at text.new.items ≡ take at text.old.items }
    ensures len { result.len ≤ length word.now }
    ensures room { vec_capacity text.old ≤ vec_capacity text.new }
{
    let end = put_path(word, text, at);
    Span {
        at: at as u32,
        len: (end - at) as u32,
    }
}

/// Writes the bytes that the first field of `rest` spells into a text from an offset on. Returns their part of the
/// text, and the text after the field.
///
/// # Errors
///
/// * `Syntax`: exactly if the field is empty or spells no bytes.
fn add_bytes_part<'a>(
    rest: &'a [u8],
    text: &mut Vec<u8>,
    at: usize,
) -> Result<(Span, Option<&'a [u8]>), Syntax>
    requires within { at ≤ length text.old.items }
    requires room { at + length rest.now ≤ vec_capacity text.old }
    requires low { at + length rest.now ≤ most_room }
    ensures part { option_map (λ added. spanned text.new.items added.0) (result_ok result) ≡ bytes_in_word (first_word rest.now) }
    ensures following { IfOk result (λ added. words_of rest.now ≡ first_word rest.now ∷ words_after added.1) }
    ensures place { IfOk result (λ added. added.0.at ≡ at) }
    ensures lies { IfOk result (λ added. added.0.at + added.0.len ≤ length text.new.items) }
    ensures prefix { take at text.new.items ≡ take at text.old.items }
    ensures len { IfOk result (λ added. added.0.len + option_map_or (λ more. length more.now + 1) added.1 0 ≤ length rest.now) }
    ensures room { vec_capacity text.old ≤ vec_capacity text.new }
{
    // Long enough for the bytes of all remaining fields: mostly only the first piece of a line fills missing bytes.
    lengthen(at + rest.len() / 2, text);
    let (len, following) = decode_word(rest, &mut text[at..])?;
    let part = Span {
        at: at as u32,
        len: len as u32,
    };
    Ok((part, following))
}
