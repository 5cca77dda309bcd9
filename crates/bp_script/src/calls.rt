//! The lines that ask for calls.

ghost use Rattle.bp_limits.specs.Limits.{max_text};
ghost use Rattle.bp_plain.specs.Seen.{call_of};
ghost use Rattle.bp_script.specs.Export.{FitsText, call_line, path_word};
ghost use Rattle.bp_plain.specs.Calls.Call.{link, set_attribute, truncate, write};
ghost use Rattle.bp_script.specs.Texts.{digits_or_dash};
ghost use Rattle.std.specs.Prelude.{codes, decimal, drop, length, take, ◌+◌, ◌++◌, ◌≡◌, ◌<◌, ◌≤◌};

use crate::pieces::{put, put_digits, put_escaped};
use bp_plain::Call;
use percent_encoding::{AsciiSet, CONTROLS, ascii_set};

/// The bytes of ASCII that the field of a path escapes: those that the text of a name escapes, except `/`.
const PATH_ESCAPED: AsciiSet = ascii_set!(CONTROLS.add(b' ').add(b'%'));

/// Writes the line that asks for a call of an export, with its newline, to the beginning of `into`, and returns its
/// length in bytes.
pub fn say_call(call: &Call<'_>, into: &mut [u8]) -> usize
    requires room { max_text ≤ length into.old }
    requires short { FitsText (call_of call.now) }
    ensures whole { into.new ≡ call_line (call_of call.now) ++ codes "\n" ++ drop result into.old }
    ensures len { result ≡ length (call_line (call_of call.now)) + 1 }
{
    let end = say_line(call, into);
    put(into, end, b"\n")
}

/// Writes the line that asks for a call of an export, without its newline, and returns its length in bytes.
fn say_line(call: &Call<'_>, into: &mut [u8]) -> usize
    requires room { max_text ≤ length into.old }
    requires short { FitsText (call_of call.now) }
    ensures text { into.new ≡ call_line (call_of call.now) ++ drop result into.old }
    ensures end { result ≡ length (call_line (call_of call.now)) }
    ensures below { result < max_text }
{
    match *call {
        Call::Create(path) => say_verb(b"create ", path, into),
        Call::Mkdir(path) => say_verb(b"mkdir ", path, into),
        Call::Write {
            path,
            offset,
            bytes,
        } => say_write(path, offset, bytes, into),
        Call::Truncate { path, size } => say_truncate(path, size, into),
        Call::Link { from, to } => say_link(from, to, into),
        Call::SetAttribute {
            path,
            number,
            value,
        } => say_set_attribute(path, number, value, into),
        _ => unreachable!(),
    }
}

/// Writes the line of a write.
fn say_write(path: &[u8], offset: u64, bytes: &[u8], into: &mut [u8]) -> usize
    requires { length (call_line (write path.now offset bytes.now)) ≤ length into.old }
    ensures text { into.new ≡ call_line (write path.now offset bytes.now) ++ drop result into.old }
    ensures end { result ≡ length (call_line (write path.now offset bytes.now)) }
{
    let end = say_verb(b"write ", path, into);
    let end = put_number(into, end, offset);
    put_bytes(into, end, bytes)
}

/// Writes the line of a truncate.
fn say_truncate(path: &[u8], size: u64, into: &mut [u8]) -> usize
    requires { length (call_line (truncate path.now size)) ≤ length into.old }
    ensures text { into.new ≡ call_line (truncate path.now size) ++ drop result into.old }
    ensures end { result ≡ length (call_line (truncate path.now size)) }
{
    let end = say_verb(b"truncate ", path, into);
    put_number(into, end, size)
}

/// Writes the line of a link.
fn say_link(from: &[u8], to: &[u8], into: &mut [u8]) -> usize
    requires { length (call_line (link from.now to.now)) ≤ length into.old }
    ensures text { into.new ≡ call_line (link from.now to.now) ++ drop result into.old }
    ensures end { result ≡ length (call_line (link from.now to.now)) }
{
    let end = say_verb(b"link ", from, into);
    put_second(into, end, to)
}

/// Writes the line that sets an attribute.
fn say_set_attribute(path: &[u8], number: u64, value: u64, into: &mut [u8]) -> usize
    requires { length (call_line (set_attribute path.now number value)) ≤ length into.old }
    ensures text { into.new ≡ call_line (set_attribute path.now number value) ++ drop result into.old }
    ensures end { result ≡ length (call_line (set_attribute path.now number value)) }
{
    let end = say_verb(b"setattr ", path, into);
    let end = put_number(into, end, number);
    put_number(into, end, value)
}

/// Writes a verb with the space after it, and the field of a path.
fn say_verb(verb: &[u8], path: &[u8], into: &mut [u8]) -> usize
    requires { length verb.now + length (path_word path.now) ≤ length into.old }
    ensures text { into.new ≡ verb.now ++ path_word path.now ++ drop result into.old }
    ensures end { result ≡ length verb.now + length (path_word path.now) }
{
    let end = put(into, 0, verb);
    put_path(into, end, path)
}

/// Writes a space and the field of a path at an offset of a buffer, and returns their end.
fn put_second(into: &mut [u8], at: usize, path: &[u8]) -> usize
    requires { at + 1 + length (path_word path.now) ≤ length into.old }
    ensures text { into.new ≡
        take at into.old ++ codes " " ++ path_word path.now ++ drop (at + 1 + length (path_word path.now)) into.old }
    ensures end { result ≡ at + 1 + length (path_word path.now) }
{
    let end = put(into, at, b" ");
    put_path(into, end, path)
}

/// Writes the field of a path at an offset of a buffer, and returns its end.
fn put_path(into: &mut [u8], at: usize, path: &[u8]) -> usize
    requires { at + length (path_word path.now) ≤ length into.old }
    ensures text { into.new ≡
        take at into.old ++ path_word path.now ++ drop (at + length (path_word path.now)) into.old }
    ensures end { result ≡ at + length (path_word path.now) }
{
    put_escaped(into, at, path, PATH_ESCAPED)
}

/// Writes a space and a number at an offset of a buffer, and returns their end.
fn put_number(into: &mut [u8], at: usize, number: u64) -> usize
    requires { at + 1 + length (decimal number) ≤ length into.old }
    ensures text { into.new ≡
        take at into.old ++ codes " " ++ decimal number ++ drop (at + 1 + length (decimal number)) into.old }
    ensures end { result ≡ at + 1 + length (decimal number) }
{
    let mut digits = itoa::Buffer::new();
    let end = put(into, at, b" ");
    put(into, end, digits.format(number).as_bytes())
}

/// Writes a space and the digits of bytes at an offset of a buffer, and returns their end.
fn put_bytes(into: &mut [u8], at: usize, bytes: &[u8]) -> usize
    requires { at + 1 + length (digits_or_dash bytes.now) ≤ length into.old }
    ensures text { into.new ≡
        take at into.old ++ codes " " ++ digits_or_dash bytes.now
        ++ drop (at + 1 + length (digits_or_dash bytes.now)) into.old }
    ensures end { result ≡ at + 1 + length (digits_or_dash bytes.now) }
{
    let end = put(into, at, b" ");
    put_content(into, end, bytes)
}

/// Writes the digits of bytes, or a dash for none, at an offset of a buffer, and returns their end.
fn put_content(into: &mut [u8], at: usize, bytes: &[u8]) -> usize
    requires { at + length (digits_or_dash bytes.now) ≤ length into.old }
    ensures text { into.new ≡
        take at into.old ++ digits_or_dash bytes.now ++ drop (at + length (digits_or_dash bytes.now)) into.old }
    ensures end { result ≡ at + length (digits_or_dash bytes.now) }
{
    if bytes.is_empty() {
        put(into, at, b"-")
    } else {
        put_digits(into, at, bytes)
    }
}
