//! Texts concatenated from pieces.

ghost use Rattle.bp_script.specs.Texts.{pair_text};
ghost use Rattle.hex.specs.Hex.{encode_lower};
ghost use Rattle.percent_encoding.specs.Percent.{percent_encode};
ghost use Rattle.std.specs.Prelude.{drop, flat_map, length, take, ◌*◌, ◌+◌, ◌++◌, ◌≡◌, ◌≤◌};

use crate::digits::encode_digits;
use percent_encoding::AsciiSet;

/// The room in bytes that suffices for two numbers, a space between them and a newline after them.
const PAIR_ROOM: usize = 82;

/// Writes pieces one after the other to the beginning of a buffer, and returns their length in bytes.
pub(crate) fn write_pieces(into: &mut [u8], pieces: &[&[u8]]) -> usize
    requires { length (flat_map (λ piece. piece.now) pieces.now) ≤ length into.old }
    ensures text { into.new ≡ flat_map (λ piece. piece.now) pieces.now ++ drop result into.old }
    ensures len { result ≡ length (flat_map (λ piece. piece.now) pieces.now) }
{
    let mut end = 0;
    for piece in pieces {
        end = put(into, end, piece);
    }
    end
}

/// Writes a line of two numbers after `prefix`, and returns its length in bytes.
pub(crate) fn write_pair(into: &mut [u8], prefix: &[u8], first: u64, second: u64) -> usize
    requires { length prefix.now + PAIR_ROOM ≤ length into.old }
    ensures whole { into.new ≡ pair_text prefix.now first second ++ drop result into.old }
    ensures len { result ≡ length (pair_text prefix.now first second) }
{
    let mut left = itoa::Buffer::new();
    let mut right = itoa::Buffer::new();
    write_pieces(
        into,
        &[
            prefix,
            left.format(first).as_bytes(),
            b" ",
            right.format(second).as_bytes(),
            b"\n",
        ],
    )
}

/// Writes a piece at an offset of a buffer, and returns its end.
pub(crate) fn put(into: &mut [u8], at: usize, piece: &[u8]) -> usize
    requires { at + length piece.now ≤ length into.old }
    ensures text { into.new ≡ take at into.old ++ piece.now ++ drop (at + length piece.now) into.old }
    ensures end { result ≡ at + length piece.now }
{
    let end = at + piece.len();
    into[at..end].copy_from_slice(piece);
    end
}

/// Writes the hexadecimal digits of bytes at an offset of a buffer, and returns their end.
pub(crate) fn put_digits(into: &mut [u8], at: usize, content: &[u8]) -> usize
    requires { at + 2 * length content.now ≤ length into.old }
    ensures text { into.new ≡
        take at into.old ++ encode_lower content.now ++ drop (at + 2 * length content.now) into.old }
    ensures end { result ≡ at + 2 * length content.now }
{
    let end = at + 2 * content.len();
    encode_digits(content, &mut into[at..end]);
    end
}

/// Writes bytes at an offset of a buffer, run by run, with an escape for each byte of a set and each byte outside
/// ASCII. Returns their end.
pub(crate) fn put_escaped(into: &mut [u8], at: usize, bytes: &[u8], escaped: AsciiSet) -> usize
    requires { at + length (percent_encode escaped bytes.now) ≤ length into.old }
    ensures text { into.new ≡ take at into.old ++ percent_encode escaped bytes.now
        ++ drop (at + length (percent_encode escaped bytes.now)) into.old }
    ensures end { result ≡ at + length (percent_encode escaped bytes.now) }
{
    let mut end = at;
    for piece in percent_encoding::percent_encode(bytes, escaped) {
        end = put(into, end, piece.as_bytes());
    }
    end
}
