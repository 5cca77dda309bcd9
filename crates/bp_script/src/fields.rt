//! The fields of a line, and the bytes and the paths that they spell.

ghost use Rattle.bp_script.specs.Commands.{bytes_spelled, part_bytes, path_bytes, unslashed, words_of};
ghost use Rattle.bp_script.specs.Lines.{first_word, bytes_in_word, words_after};
ghost use Rattle.std.specs.List.{slice_split};
ghost use Rattle.std.specs.Option.{option_map_or};
ghost use Rattle.hex.specs.Hex.{decode_of};
ghost use Rattle.std.specs.Result.{is_ok, result_ok};
ghost use Rattle.std.specs.Prelude.{◌/◌, if◌then◌else◌, IfOk, None, Some, length, option_map, take, vec_capacity, vec_len, [], ◌∷◌, ◌+◌, ◌++◌, ◌==◌, ◌<◌, ◌≡◌, ◌≤◌};

use crate::digits::{decode_digits, decode_prefix};
use crate::lines::Syntax;
use bp_text::first_of;
use percent_encoding::percent_decode;

/// Splits a text at the first byte of this value: the text before and the text after it.
pub(crate) fn split_once(text: &[u8], at: u8) -> (&[u8], Option<&[u8]>)
    ensures split { slice_split (λ b. b == at) text.now ≡
        result.0.now ∷ option_map_or (λ rest. slice_split (λ b. b == at) rest.now) result.1 [] }
    ensures len { length result.0.now + option_map_or (λ rest. length rest.now + 1) result.1 0 ≡ length text.now }
{
    match first_of(at, text) {
        Some(i) => (&text[..i], Some(&text[i + 1..])),
        None => (text, None),
    }
}

/// Returns the hexadecimal digits of a field; for `-` there are none.
pub(crate) fn digits_of(word: &[u8]) -> &[u8]
    ensures bytes { result_ok (decode_of result.now) ≡ bytes_spelled word.now }
    ensures len { length result.now ≤ length word.now }
{
    match word {
        b"-" => &[],
        _ => word,
    }
}

/// Decodes hexadecimal digits to bytes, in memory that is allocated.
pub(crate) fn decode_bytes(digits: &[u8], into: &mut Vec<u8>) -> Result<(), Syntax>
    requires { length digits.now ≤ vec_capacity into.old }
    ensures bytes { result_ok (decode_of digits.now) ≡ (if is_ok result then Some into.new.items else None) }
    ensures room { vec_capacity into.old ≤ vec_capacity into.new }
{
    // Not cleared before: old contents are overwritten, and only missing bytes have to be filled.
    match into.resize(digits.len() / 2, 0) {
        Ok(()) => {}
        Err(_) => unreachable!(),
    }
    decode_into(digits, into.as_mut_slice())
}

/// Decodes hexadecimal digits to bytes, into memory with half as many bytes.
pub(crate) fn decode_into(digits: &[u8], into: &mut [u8]) -> Result<(), Syntax>
    requires { length into.old ≡ length digits.now / 2 }
    ensures { result_ok (decode_of digits.now) ≡ (if is_ok result then Some into.new else None) }
{
    if digits.len() % 2 == 0 && decode_digits(digits, into) {
        Ok(())
    } else {
        Err(Syntax)
    }
}

/// Decodes the field of bytes that a text begins with. Returns the number of bytes, and the text after the field. The
/// digits are read once: the end of the field is searched only after the runs that are all digits.
///
/// # Errors
///
/// * `Syntax`: exactly if the field is empty or spells no bytes.
pub(crate) fn decode_word<'a>(
    text: &'a [u8],
    into: &mut [u8],
) -> Result<(usize, Option<&'a [u8]>), Syntax>
    requires { length text.now / 2 ≤ length into.old }
    ensures bytes { option_map (λ word. take word.0 into.new) (result_ok result) ≡ bytes_in_word (first_word text.now) }
    ensures following { IfOk result (λ word. words_of text.now ≡ first_word text.now ∷ words_after word.1) }
    ensures within { IfOk result (λ word. word.0 ≤ length into.new) }
    ensures len { IfOk result (λ word. word.0 + option_map_or (λ rest. length rest.now + 1) word.1 0 ≤ length text.now) }
{
    let prefix = decode_prefix(text, into);
    let (left, following) = split_once(&text[2 * prefix..], b' ');
    if prefix == 0 && left.is_empty() {
        return Err(Syntax);
    }
    let left = left_digits(left, prefix == 0);
    let len = prefix + left.len() / 2;
    decode_into(left, &mut into[prefix..len])?;
    Ok((len, following))
}

/// Returns the digits of the rest of a field. If this is the whole field, `-` spells none.
fn left_digits(left: &[u8], is_whole: bool) -> &[u8]
    ensures bytes { result_ok (decode_of result.now) ≡ (if is_whole then bytes_spelled left.now else result_ok (decode_of left.now)) }
    ensures len { length result.now ≤ length left.now }
{
    if is_whole { digits_of(left) } else { left }
}

/// Decodes a field as a path, in memory that is allocated, if it has an escape. False if the field is its own path;
/// nothing is written then.
pub(crate) fn decode_escaped(word: &[u8], into: &mut Vec<u8>) -> bool
    requires { length word.now ≤ vec_capacity into.old }
    ensures path { (if result then into.new.items else word.now) ≡ path_bytes word.now }
    ensures room { vec_capacity into.old ≤ vec_capacity into.new }
{
    match first_of(b'%', word) {
        Some(_) => {
            let end = put_parts(word, into, 0);
            into.truncate(end);
            true
        }
        None => false,
    }
}

/// Returns the decoded path, or the field that is its own path.
pub(crate) fn decoded_or<'a>(is_decoded: bool, decoded: &'a [u8], word: &'a [u8]) -> &'a [u8]
    ensures { result.now ≡ (if is_decoded then decoded.now else word.now) }
{
    if is_decoded { decoded } else { word }
}

/// Writes the path that a field spells into a text from an offset on, over its old contents and in memory that is
/// allocated. Returns the end of the path.
pub(crate) fn put_path(word: &[u8], text: &mut Vec<u8>, at: usize) -> usize
    requires within { at ≤ length text.old.items }
    requires room { at + length word.now ≤ vec_capacity text.old }
    ensures path { take result text.new.items ≡ take at text.old.items ++ path_bytes word.now }
    ensures later { at ≤ result }
    ensures within { result ≤ length text.new.items }
    ensures len { result ≤ at + length word.now }
    ensures room { vec_capacity text.old ≤ vec_capacity text.new }
{
    match first_of(b'%', word) {
        Some(_) => put_parts(word, text, at),
        None => {
            put(word, text, at);
            at + word.len()
        }
    }
}

/// Writes the path that a field spells part by part, as `put_path` does.
fn put_parts(word: &[u8], text: &mut Vec<u8>, at: usize) -> usize
    requires within { at ≤ length text.old.items }
    requires room { at + length word.now ≤ vec_capacity text.old }
    ensures path { take result text.new.items ≡ take at text.old.items ++ path_bytes word.now }
    ensures later { at ≤ result }
    ensures within { result ≤ length text.new.items }
    ensures len { result ≤ at + length word.now }
    ensures room { vec_capacity text.old ≤ vec_capacity text.new }
{
    let (first, mut left) = split_once(word, b'/');
    let mut end = put_part(first, text, at);
    while let Some(parts) = left {
        put_byte(b'/', text, end);
        let (part, more) = split_once(parts, b'/');
        end = put_part(part, text, end + 1);
        left = more;
    }
    end
}

/// Writes the bytes that a part of a path spells into a text from an offset on, and returns their end.
fn put_part(part: &[u8], text: &mut Vec<u8>, at: usize) -> usize
    requires within { at ≤ length text.old.items }
    requires room { at + length part.now ≤ vec_capacity text.old }
    ensures items { take result text.new.items ≡ take at text.old.items ++ part_bytes part.now }
    ensures later { at ≤ result }
    ensures within { result ≤ length text.new.items }
    ensures len { result ≤ at + length part.now }
    ensures room { vec_capacity text.old ≤ vec_capacity text.new }
{
    let mut end = at;
    for byte in percent_decode(part) {
        put_byte(without_slash(byte), text, end);
        end += 1;
    }
    end
}

/// Writes bytes into a text from an offset on, over its old contents and in memory that is allocated.
fn put(bytes: &[u8], text: &mut Vec<u8>, at: usize)
    requires within { at ≤ length text.old.items }
    requires room { at + length bytes.now ≤ vec_capacity text.old }
    ensures items { take (at + length bytes.now) text.new.items ≡ take at text.old.items ++ bytes.now }
    ensures within { at + length bytes.now ≤ length text.new.items }
    ensures room { vec_capacity text.old ≤ vec_capacity text.new }
{
    let end = at + bytes.len();
    if end <= text.len() {
        text[at..end].copy_from_slice(bytes);
    } else {
        // Appended directly, with nothing filled before.
        text.truncate(at);
        add(bytes, text);
    }
}

/// Writes one byte into a text at an offset, as `put` does.
fn put_byte(byte: u8, text: &mut Vec<u8>, at: usize)
    requires within { at ≤ length text.old.items }
    requires room { at < vec_capacity text.old }
    ensures items { take (at + 1) text.new.items ≡ take at text.old.items ++ byte ∷ [] }
    ensures within { at + 1 ≤ length text.new.items }
    ensures room { vec_capacity text.old ≤ vec_capacity text.new }
{
    if at < text.len() {
        text[at] = byte;
    } else {
        add_byte(byte, text);
    }
}

/// Makes a text at least this long, in memory that is allocated: only missing bytes have to be filled.
pub(crate) fn lengthen(len: usize, text: &mut Vec<u8>)
    requires { len ≤ vec_capacity text.old }
    ensures prefix { take (length text.old.items) text.new.items ≡ text.old.items }
    ensures longer { length text.old.items ≤ length text.new.items }
    ensures len { len ≤ length text.new.items }
    ensures room { vec_capacity text.old ≤ vec_capacity text.new }
{
    if len <= text.len() {
        return;
    }
    match text.resize(len, 0) {
        Ok(()) => {}
        Err(_) => unreachable!(),
    }
}

/// Appends bytes, in memory that is allocated.
fn add(bytes: &[u8], into: &mut Vec<u8>)
    requires { vec_len into.old + length bytes.now ≤ vec_capacity into.old }
    ensures items { into.new.items ≡ into.old.items ++ bytes.now }
    ensures len { vec_len into.new ≡ vec_len into.old + length bytes.now }
    ensures room { vec_capacity into.old ≤ vec_capacity into.new }
{
    match into.extend_from_slice(bytes) {
        Ok(()) => {}
        Err(_) => unreachable!(),
    }
}

/// Returns the byte, or for `/` one that no name may contain.
fn without_slash(byte: u8) -> u8
    ensures { result ≡ unslashed byte }
{
    if byte == b'/' { 0 } else { byte }
}

/// Appends a byte, in memory that is allocated.
fn add_byte(byte: u8, path: &mut Vec<u8>)
    requires { vec_len path.old < vec_capacity path.old }
    ensures items { path.new.items ≡ path.old.items ++ byte ∷ [] }
    ensures len { vec_len path.new ≡ vec_len path.old + 1 }
    ensures room { vec_capacity path.old ≤ vec_capacity path.new }
{
    match path.push(byte) {
        Ok(()) => {}
        Err(_) => unreachable!(),
    }
}
