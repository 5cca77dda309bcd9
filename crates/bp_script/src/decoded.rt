//! Memory for the decoded fields of a line, and the decoding of lines.

ghost use Rattle.bp_plain.specs.Calls.Call.{batch, link, rename};
ghost use Rattle.bp_replay.specs.Wanted.Wanted.{at};
ghost use Rattle.bp_script.specs.Commands.Command.{bad_syntax, crash, file_call};
ghost use Rattle.bp_script.specs.Commands.{IsServedCommand, asked_batch, asked_by, bytes_spelled, decoded, in_grammar, long_command, mask_in, masked_crash, pair_command, path_bytes, word_command, words_of, write_command};
ghost use Rattle.bp_script.specs.Lines.{CanBeAsked, HasItsParts, HoldsParts, KeepsRoom, decoded_room, first_held, line_asks, most_room, path_row, pieces_held, second_held};
ghost use Rattle.std.specs.Borrow.{sem};
ghost use Rattle.hex.specs.Hex.{decode_of};
ghost use Rattle.std.specs.Result.{is_ok, result_ok};
ghost use Rattle.std.specs.Prelude.{◌*◌, if◌then◌else◌, None, Ok, Some, IfOk, OnOk, length, min, option_map, ◌∷◌, ◌+◌, ◌<◌, ◌≡◌, ◌≤◌};

use crate::batches::{PieceWords, decode_pieces};
use crate::fields::{decode_bytes, decode_escaped, decoded_or, digits_of, split_once};
use crate::lines::{
    Line, Syntax, attribute, bare, cache, path_line, read, set_attribute, snap_read, storm,
    truncate, upgrade, whole_crash,
};
use crate::numbers::{attribute_number, number, read_len};
use crate::verbs::{PairVerb, PathVerb, WordVerb, is_batch, pair_verb, word_verb};
use arrayvec::ArrayVec;
use bp_limits::MAX_PIECES;
use bp_plain::{Call, Piece};
use bp_replay::Cut;
use std::alloc::{AllocError, Global};

/// The greatest number of bytes of a line, so that an offset in it has 32 bits.
const MOST_ROOM: usize = 4_294_967_295;

/// Memory for the decoded fields of a line. Both texts have the room of a line, and the pieces of a batch are parts
/// of the first.
#[derive(Drop)]
pub struct Decoded {
    first: Vec<u8>,
    second: Vec<u8>,
    pieces: ArrayVec<Piece, MAX_PIECES>,
}

impl Decoded {
    /// Allocates memory for lines of at most `room` bytes, and of less than 4 GiB. Fails only if memory lacks.
    pub fn new(alloc: Global, room: usize) -> Result<Decoded, AllocError>
        ensures { IfOk result (λ decoded. decoded_room decoded ≡ min room most_room) }
    {
        let first = Vec::with_capacity(alloc, room)?;
        let second = Vec::with_capacity(alloc, room)?;
        Ok(Decoded {
            first,
            second,
            pieces: ArrayVec::new(),
        })
    }

    /// Returns the length in bytes of the longest line for which there is memory.
    pub fn room(&self) -> usize
        ensures { result ≡ decoded_room self.now }
    {
        self.first
            .capacity()
            .min(self.second.capacity())
            .min(MOST_ROOM)
    }

    /// Decodes a line of a script. Its paths, its bytes and its mask are decoded into this memory, except that a path
    /// without escapes is borrowed from the line. A mask has at most half as many bytes as the line. A call is one
    /// that a volume carries out: the parts of a batch lie in its text.
    ///
    /// # Errors
    ///
    /// * `Syntax`: exactly if the line is not in the table of commands.
    pub fn line<'a>(&'a mut self, bytes: &'a [u8]) -> Result<Line<'a>, Syntax>
        requires room { length bytes.now ≤ decoded_room self.old }
        ensures* keeps_room { sem 𝓛 (KeepsRoom self.entry) }
        ensures meaning { line_asks result ≡ in_grammar bytes.now }
        ensures mask { 2 * length (mask_in (line_asks result)) ≤ length bytes.now }
        ensures served { IsServedCommand (line_asks result) }
        ensures can { CanBeAsked result }
    {
        let (verb, rest) = split_once(bytes, b' ');
        match rest {
            Some(rest) => self.after_verb(verb, rest),
            None => bare(verb),
        }
    }

    /// Decodes a line from its verb and the text after the space of the verb.
    fn after_verb<'a>(&'a mut self, verb: &[u8], rest: &'a [u8]) -> Result<Line<'a>, Syntax>
        requires { length rest.now ≤ decoded_room self.old }
        ensures* keeps_room { sem 𝓛 (KeepsRoom self.entry) }
        ensures meaning { line_asks result ≡ decoded (asked_by (verb.now ∷ words_of rest.now)) }
        ensures whole { HasItsParts result }
    {
        let (word, more) = split_once(rest, b' ');
        if word.is_empty() {
            return Err(Syntax);
        }
        match more {
            Some(more) => self.after_pair(verb, word, more),
            None => self.on_word(verb, word),
        }
    }

    /// Decodes a line from two fields and the text after the space of the second.
    fn after_pair<'a>(
        &'a mut self,
        verb: &[u8],
        first: &'a [u8],
        rest: &'a [u8],
    ) -> Result<Line<'a>, Syntax>
        requires some { 0 < length first.now }
        requires fits { length first.now + length rest.now ≤ decoded_room self.old }
        ensures* keeps_room { sem 𝓛 (KeepsRoom self.entry) }
        ensures meaning { line_asks result ≡ decoded (asked_by (verb.now ∷ first.now ∷ words_of rest.now)) }
        ensures whole { HasItsParts result }
    {
        let (second, third) = split_once(rest, b' ');
        if second.is_empty() {
            return Err(Syntax);
        }
        match third {
            Some(third) => self.long(verb, first, second, third),
            None => self.on_pair(verb, first, second),
        }
    }

    /// Decodes a line of two fields.
    fn on_word<'a>(&'a mut self, verb: &[u8], word: &'a [u8]) -> Result<Line<'a>, Syntax>
        requires { length word.now ≤ decoded_room self.old }
        ensures* keeps_room { sem 𝓛 (KeepsRoom self.entry) }
        ensures meaning { line_asks result ≡ decoded (word_command verb.now word.now) }
    {
        match word_verb(verb) {
            Some(WordVerb::Crash) => whole_crash(word),
            Some(WordVerb::Storm) => storm(number(word)),
            Some(WordVerb::Cache) => cache(number(word)),
            Some(WordVerb::Upgrade) => upgrade(word),
            Some(WordVerb::Path(verb)) => Ok(self.on_path(verb, word)),
            None => Err(Syntax),
        }
    }

    /// Makes the line of a verb and a path.
    fn on_path<'a>(&'a mut self, verb: PathVerb, path: &'a [u8]) -> Line<'a>
        requires { length path.now ≤ decoded_room self.old }
        ensures* keeps_room { sem 𝓛 (KeepsRoom self.entry) }
        ensures meaning { line_asks (Ok result) ≡ decoded (path_row verb path.now) }
    {
        path_line(verb, self.path_of(path))
    }

    /// Decodes a line of a verb, a path and a last field.
    fn on_pair<'a>(
        &'a mut self,
        verb: &[u8],
        path: &'a [u8],
        last: &'a [u8],
    ) -> Result<Line<'a>, Syntax>
        requires path { length path.now ≤ decoded_room self.old }
        requires last { length last.now ≤ decoded_room self.old }
        ensures* keeps_room { sem 𝓛 (KeepsRoom self.entry) }
        ensures meaning { line_asks result ≡ decoded (pair_command verb.now path.now last.now) }
    {
        match pair_verb(verb) {
            Some(PairVerb::Truncate) => truncate(self.path_of(path), number(last)),
            Some(PairVerb::Rename) => Ok(self.rename(path, last)),
            Some(PairVerb::Link) => Ok(self.link(path, last)),
            Some(PairVerb::Attribute) => attribute(self.path_of(path), attribute_number(last)),
            None => Err(Syntax),
        }
    }

    /// Makes the line of a rename.
    fn rename<'a>(&'a mut self, from: &'a [u8], to: &'a [u8]) -> Line<'a>
        requires from { length from.now ≤ decoded_room self.old }
        requires to { length to.now ≤ decoded_room self.old }
        ensures* keeps_room { sem 𝓛 (KeepsRoom self.entry) }
        ensures meaning { line_asks (Ok result) ≡ file_call (rename (path_bytes from.now) (path_bytes to.now)) }
    {
        let (from, to) = self.pair(from, to);
        Line::Call(Call::Rename { from, to })
    }

    /// Makes the line of a link.
    fn link<'a>(&'a mut self, from: &'a [u8], to: &'a [u8]) -> Line<'a>
        requires from { length from.now ≤ decoded_room self.old }
        requires to { length to.now ≤ decoded_room self.old }
        ensures* keeps_room { sem 𝓛 (KeepsRoom self.entry) }
        ensures meaning { line_asks (Ok result) ≡ file_call (link (path_bytes from.now) (path_bytes to.now)) }
    {
        let (from, to) = self.pair(from, to);
        Line::Call(Call::Link { from, to })
    }

    /// Decodes a line from three fields and the text after the space of the third. Except in a batch, a space in that
    /// text is no digit of any kind. So a line with one is not in the table, as it must be: it has more than four
    /// fields.
    fn long<'a>(
        &'a mut self,
        verb: &[u8],
        first: &'a [u8],
        second: &[u8],
        rest: &[u8],
    ) -> Result<Line<'a>, Syntax>
        requires some_first { 0 < length first.now }
        requires some_second { 0 < length second.now }
        requires fits { length first.now + length second.now + length rest.now ≤ decoded_room self.old }
        ensures* keeps_room { sem 𝓛 (KeepsRoom self.entry) }
        ensures meaning { line_asks result ≡
            decoded (asked_by (verb.now ∷ first.now ∷ second.now ∷ words_of rest.now)) }
        ensures whole { HasItsParts result }
    {
        if rest.is_empty() {
            return Err(Syntax);
        }
        if is_batch(verb) {
            self.batch(first, second, rest)
        } else {
            self.on_long(verb, first, second, rest)
        }
    }

    /// Decodes the line of a batch from the first two fields of its first piece, and the text after them.
    fn batch(&mut self, path: &[u8], offset: &[u8], rest: &[u8]) -> Result<Line<'_>, Syntax>
        requires { length path.now + length offset.now + length rest.now ≤ decoded_room self.old }
        ensures* keeps_room { sem 𝓛 (KeepsRoom self.entry) }
        ensures meaning { line_asks result ≡
            asked_batch (path.now ∷ offset.now ∷ words_of rest.now) }
        ensures whole { HasItsParts result }
    {
        self.pieces_of(path, offset, rest)?;
        Ok(self.batch_held())
    }

    /// Decodes the pieces of a batch.
    fn pieces_of(&mut self, path: &[u8], offset: &[u8], rest: &[u8]) -> Result<(), Syntax>
        requires { length path.now + length offset.now + length rest.now ≤ decoded_room self.old }
        ensures meaning { (if is_ok result then file_call (batch (pieces_held self.new)) else bad_syntax) ≡
            asked_batch (path.now ∷ offset.now ∷ words_of rest.now) }
        ensures whole { OnOk result (HoldsParts self.new) }
        ensures room { decoded_room self.old ≤ decoded_room self.new }
    {
        let Decoded { first, pieces, .. } = self;
        decode_pieces(PieceWords { path, offset, rest }, first, pieces)
    }

    /// Makes the line of a batch from the decoded pieces.
    fn batch_held(&self) -> Line<'_>
        requires { HoldsParts self.now }
        ensures meaning { line_asks (Ok result) ≡ file_call (batch (pieces_held self.now)) }
        ensures whole { HasItsParts (Ok result) }
    {
        Line::Call(Call::Batch {
            text: self.first.as_slice(),
            pieces: self.pieces.as_slice(),
        })
    }

    /// Decodes a line of four fields. The last may contain spaces.
    fn on_long<'a>(
        &'a mut self,
        verb: &[u8],
        first: &'a [u8],
        second: &[u8],
        third: &[u8],
    ) -> Result<Line<'a>, Syntax>
        requires first { length first.now ≤ decoded_room self.old }
        requires third { length third.now ≤ decoded_room self.old }
        ensures* keeps_room { sem 𝓛 (KeepsRoom self.entry) }
        ensures meaning { line_asks result ≡ decoded (long_command verb.now first.now second.now third.now) }
    {
        match verb {
            b"read" => read(self.path_of(first), number(second), read_len(third)),
            b"write" => self.write(first, number(second), third),
            b"crash" => self.crash(number(first), number(second), third),
            b"sread" => snap_read(self.path_of(first), number(second), read_len(third)),
            b"setattr" => set_attribute(
                self.path_of(first),
                attribute_number(second),
                number(third),
            ),
            _ => Err(Syntax),
        }
    }

    /// Decodes the line of a write.
    fn write<'a>(
        &'a mut self,
        path: &'a [u8],
        offset: Option<u64>,
        word: &[u8],
    ) -> Result<Line<'a>, Syntax>
        requires path { length path.now ≤ decoded_room self.old }
        requires word { length word.now ≤ decoded_room self.old }
        ensures* keeps_room { sem 𝓛 (KeepsRoom self.entry) }
        ensures meaning { line_asks result ≡ decoded (write_command path.now offset (bytes_spelled word.now)) }
    {
        match offset {
            Some(offset) => {
                let (path, bytes) = self.path_and_bytes(path, digits_of(word))?;
                Ok(Line::Call(Call::Write {
                    path,
                    offset,
                    bytes,
                }))
            }
            None => Err(Syntax),
        }
    }

    /// Decodes the line of a crash at a given point.
    fn crash(
        &mut self,
        moment: Option<u64>,
        epoch: Option<u64>,
        word: &[u8],
    ) -> Result<Line<'_>, Syntax>
        requires { length word.now ≤ decoded_room self.old }
        ensures* keeps_room { sem 𝓛 (KeepsRoom self.entry) }
        ensures meaning { line_asks result ≡ masked_crash moment epoch (bytes_spelled word.now) }
    {
        match (moment, epoch) {
            (Some(moment), Some(epoch)) => {
                self.decode_digits(digits_of(word))?;
                Ok(self.crash_held(moment, epoch))
            }
            _ => Err(Syntax),
        }
    }

    /// Makes the line of a crash with the decoded mask.
    fn crash_held(&self, moment: u64, epoch: u64) -> Line<'_>
        ensures { line_asks (Ok result) ≡ crash (at moment epoch (second_held self.now)) }
    {
        Line::Crash(Cut::At {
            moment,
            epoch,
            mask: self.second.as_slice(),
        })
    }

    /// Decodes hexadecimal digits to bytes, into the second memory.
    fn decode_digits(&mut self, digits: &[u8]) -> Result<(), Syntax>
        requires { length digits.now ≤ decoded_room self.old }
        ensures bytes { result_ok (decode_of digits.now) ≡
            (if is_ok result then Some (second_held self.new) else None) }
        ensures room { decoded_room self.old ≤ decoded_room self.new }
    {
        decode_bytes(digits, &mut self.second)
    }

    /// Decodes the path that a field spells.
    fn path_of<'a>(&'a mut self, word: &'a [u8]) -> &'a [u8]
        requires { length word.now ≤ decoded_room self.old }
        ensures* keeps_room { sem 𝓛 (KeepsRoom self.entry) }
        ensures path { result.now ≡ path_bytes word.now }
    {
        let is_decoded = decode_escaped(word, &mut self.first);
        decoded_or(is_decoded, self.first.as_slice(), word)
    }

    /// Decodes the paths that two fields spell.
    pub fn pair<'a>(&'a mut self, one: &'a [u8], other: &'a [u8]) -> (&'a [u8], &'a [u8])
        requires one { length one.now ≤ decoded_room self.old }
        requires other { length other.now ≤ decoded_room self.old }
        ensures* keeps_room { sem 𝓛 (KeepsRoom self.entry) }
        ensures first { result.0.now ≡ path_bytes one.now }
        ensures second { result.1.now ≡ path_bytes other.now }
    {
        let are_decoded = self.decode_pair(one, other);
        self.pair_held(are_decoded, one, other)
    }

    /// Decodes two fields as paths, each if it has an escape, and returns which of them it decoded.
    fn decode_pair(&mut self, one: &[u8], other: &[u8]) -> (bool, bool)
        requires one { length one.now ≤ decoded_room self.old }
        requires other { length other.now ≤ decoded_room self.old }
        ensures first { (if result.0 then first_held self.new else one.now) ≡ path_bytes one.now }
        ensures second { (if result.1 then second_held self.new else other.now) ≡ path_bytes other.now }
        ensures room { decoded_room self.old ≤ decoded_room self.new }
    {
        let Decoded { first, second, .. } = self;
        (decode_escaped(one, first), decode_escaped(other, second))
    }

    /// Returns two paths, each from its memory or from its field.
    fn pair_held<'a>(
        &'a self,
        are_decoded: (bool, bool),
        one: &'a [u8],
        other: &'a [u8],
    ) -> (&'a [u8], &'a [u8])
        ensures first { result.0.now ≡ (if are_decoded.0 then first_held self.now else one.now) }
        ensures second { result.1.now ≡ (if are_decoded.1 then second_held self.now else other.now) }
    {
        (
            decoded_or(are_decoded.0, self.first.as_slice(), one),
            decoded_or(are_decoded.1, self.second.as_slice(), other),
        )
    }

    /// Decodes the path that a field spells, and the bytes that hexadecimal digits spell.
    ///
    /// # Errors
    ///
    /// * `Syntax`: exactly if the digits spell no bytes.
    pub fn path_and_bytes<'a>(
        &'a mut self,
        path: &'a [u8],
        digits: &[u8],
    ) -> Result<(&'a [u8], &'a [u8]), Syntax>
        requires path { length path.now ≤ decoded_room self.old }
        requires digits { length digits.now ≤ decoded_room self.old }
        ensures* keeps_room { sem 𝓛 (KeepsRoom self.entry) }
        ensures path { IfOk result (λ parts. parts.0.now ≡ path_bytes path.now) }
        ensures bytes { result_ok (decode_of digits.now) ≡ option_map (λ parts. parts.1.now) (result_ok result) }
    {
        self.decode_digits(digits)?;
        let is_decoded = self.decode_path(path);
        Ok(self.path_and_bytes_held(is_decoded, path))
    }

    /// Decodes a field as a path if it has an escape, and returns whether it did.
    fn decode_path(&mut self, word: &[u8]) -> bool
        requires { length word.now ≤ decoded_room self.old }
        ensures first { (if result then first_held self.new else word.now) ≡ path_bytes word.now }
        ensures second { second_held self.new ≡ second_held self.old }
        ensures room { decoded_room self.old ≤ decoded_room self.new }
    {
        decode_escaped(word, &mut self.first)
    }

    /// Returns a path, from its memory or from its field, and the decoded bytes.
    fn path_and_bytes_held<'a>(&'a self, is_decoded: bool, path: &'a [u8]) -> (&'a [u8], &'a [u8])
        ensures path { result.0.now ≡ (if is_decoded then first_held self.now else path.now) }
        ensures bytes { result.1.now ≡ second_held self.now }
    {
        (
            decoded_or(is_decoded, self.first.as_slice(), path),
            self.second.as_slice(),
        )
    }
}
