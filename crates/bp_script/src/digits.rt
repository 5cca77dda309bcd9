//! Conversion between bytes and hexadecimal digits: sixteen bytes at a time, and then the remaining ones.

ghost use Rattle.hex.specs.Hex.{decode_of, encode_lower, hex_digit_value, lower_digits};
ghost use Rattle.std.specs.Option.{unwrap_or};
ghost use Rattle.std.specs.Prelude.{if◌then◌else◌, None, Some, drop, length, map, max, slice_index, take, ◌*◌, ◌%◌, ◌+◌, ◌++◌, ◌/◌, ◌<◌, ◌≡◌, ◌≤◌};
ghost use Rattle.std.specs.Result.{result_ok};
ghost use Rattle.std.specs.Simd.Lanes.{Each1};

use std::simd::prelude::*;

/// The number of bytes converted at a time.
const LANES: usize = 16;

/// The number of bytes converted at a time if there are fewer.
const FEW_LANES: usize = 8;

/// The value given to a byte that is no digit: greater than that of any digit.
const NO_DIGIT: u8 = 16;

/// The bit in which a lower-case letter differs from the same upper-case letter.
const LOWER_CASE: u8 = 32;

/// The digits in the order of their values.
const LOWER_DIGITS: [u8; 16] = *b"0123456789abcdef";

/// The number added to the value of each digit while digits and other bytes are distinguished: the greatest byte then
/// means the value 15.
const RAISED: u8 = 240;

/// The number of digits that are letters.
const LETTERS: u8 = 6;

/// The value of each digit of either case, and `NO_DIGIT` for each other byte: eight bytes in a row.
const DIGIT_VALUES: [[u8; 8]; 32] = [
    [16, 16, 16, 16, 16, 16, 16, 16],
    [16, 16, 16, 16, 16, 16, 16, 16],
    [16, 16, 16, 16, 16, 16, 16, 16],
    [16, 16, 16, 16, 16, 16, 16, 16],
    [16, 16, 16, 16, 16, 16, 16, 16],
    [16, 16, 16, 16, 16, 16, 16, 16],
    [0, 1, 2, 3, 4, 5, 6, 7],
    [8, 9, 16, 16, 16, 16, 16, 16],
    [16, 10, 11, 12, 13, 14, 15, 16],
    [16, 16, 16, 16, 16, 16, 16, 16],
    [16, 16, 16, 16, 16, 16, 16, 16],
    [16, 16, 16, 16, 16, 16, 16, 16],
    [16, 10, 11, 12, 13, 14, 15, 16],
    [16, 16, 16, 16, 16, 16, 16, 16],
    [16, 16, 16, 16, 16, 16, 16, 16],
    [16, 16, 16, 16, 16, 16, 16, 16],
    [16, 16, 16, 16, 16, 16, 16, 16],
    [16, 16, 16, 16, 16, 16, 16, 16],
    [16, 16, 16, 16, 16, 16, 16, 16],
    [16, 16, 16, 16, 16, 16, 16, 16],
    [16, 16, 16, 16, 16, 16, 16, 16],
    [16, 16, 16, 16, 16, 16, 16, 16],
    [16, 16, 16, 16, 16, 16, 16, 16],
    [16, 16, 16, 16, 16, 16, 16, 16],
    [16, 16, 16, 16, 16, 16, 16, 16],
    [16, 16, 16, 16, 16, 16, 16, 16],
    [16, 16, 16, 16, 16, 16, 16, 16],
    [16, 16, 16, 16, 16, 16, 16, 16],
    [16, 16, 16, 16, 16, 16, 16, 16],
    [16, 16, 16, 16, 16, 16, 16, 16],
    [16, 16, 16, 16, 16, 16, 16, 16],
    [16, 16, 16, 16, 16, 16, 16, 16],
];

/// Decodes pairs of digits of either case, and returns whether all of them are digits.
pub(crate) fn decode_digits(digits: &[u8], into: &mut [u8]) -> bool
    requires { length digits.now ≡ 2 * length into.old }
    ensures { result_ok (decode_of digits.now) ≡ (if result then Some into.new else None) }
{
    let prefix = decode_prefix(digits, into);
    if prefix + LANES <= into.len() {
        // The next run has a byte that is no digit.
        return false;
    }
    decode_few(&digits[2 * prefix..], &mut into[prefix..])
}

/// Decodes the digits that a text begins with, run by run, up to the first run that has another byte. Returns the
/// number of decoded bytes.
pub(crate) fn decode_prefix(text: &[u8], into: &mut [u8]) -> usize
    requires { length text.now / 2 ≤ length into.old }
    ensures prefix { result_ok (decode_of (take (2 * result) text.now)) ≡ Some (take result into.new) }
    ensures within { 2 * result ≤ length text.now }
    ensures last { 2 * (result + LANES) ≤ length text.now → result_ok (decode_of (take (2 * LANES) (drop (2 * result) text.now))) ≡ None }
{
    let pairs = text.len() / (4 * LANES);
    for i in 0..pairs {
        // Two runs an iteration, since each iteration loads the constants again.
        let run = 2 * i;
        let (first, is_first) = decode_run(&text[2 * LANES * run..]);
        let (second, is_second) = decode_run(&text[2 * LANES * (run + 1)..]);
        if !is_first {
            return LANES * run;
        }
        first.copy_to_slice(&mut into[LANES * run..]);
        if !is_second {
            return LANES * (run + 1);
        }
        second.copy_to_slice(&mut into[LANES * (run + 1)..]);
    }
    let run = 2 * pairs;
    if text.len() < 2 * LANES * (run + 1) {
        return LANES * run;
    }
    let (bytes, is_right) = decode_run(&text[2 * LANES * run..]);
    if !is_right {
        return LANES * run;
    }
    bytes.copy_to_slice(&mut into[LANES * run..]);
    LANES * (run + 1)
}

/// Decodes the run of digits that a text begins with, and returns whether all of them are digits.
fn decode_run(digits: &[u8]) -> (u8x16, bool)
    requires { 2 * LANES ≤ length digits.now }
    ensures bytes { result_ok (decode_of (take (2 * LANES) digits.now)) ≡ (if result.1 then Some result.0 else None) }
    ensures len { length result.0 ≡ LANES }
{
    let first = u8x16::from_slice(digits);
    let second = u8x16::from_slice(&digits[LANES..]);
    let (high, low) = first.deinterleave(second);
    let high = values_of(high);
    let low = values_of(low);
    let none = u8x16::splat(NO_DIGIT);
    let foreign = high.simd_ge(none) | low.simd_ge(none);
    (high * u8x16::splat(16) + low, foreign.to_bitmask() == 0)
}

/// Returns the values of digits of either case, or `NO_DIGIT`.
fn values_of<const N: usize>(digits: Simd<u8, N>) -> Simd<u8, N>
    ensures { result ≡ map (λ digit. unwrap_or (hex_digit_value digit) NO_DIGIT) digits.entry }
{
    // Each part makes `RAISED` plus the value of its own digits, and a smaller number of any other byte. So the
    // greater part is the result, without a comparison and a choice, which take more instructions. Numbers become the
    // ten greatest bytes, and then six less.
    let number = (digits + Simd::splat(u8::MAX - b'9')).saturating_sub(Simd::splat(LETTERS));
    // After subtracting one, letters begin a block of 32 bytes, which contains no byte before them.
    let letter = ((digits - Simd::splat(1)) | Simd::splat(LOWER_CASE))
        + Simd::splat(u8::MAX - (b'f' - 1));
    (number.simd_max(letter) - Simd::splat(RAISED)).simd_min(Simd::splat(NO_DIGIT))
}

/// Decodes pairs of digits as `decode_digits` does, for few digits.
fn decode_few(digits: &[u8], into: &mut [u8]) -> bool
    requires { length digits.now ≡ 2 * length into.old }
    ensures { result_ok (decode_of digits.now) ≡ (if result then Some into.new else None) }
{
    if into.len() < FEW_LANES {
        return decode_pairs(digits, into);
    }
    let (first, rest) = digits.split_at(2 * FEW_LANES);
    let (prefix, back) = into.split_at_mut(FEW_LANES);
    decode_short_run(first, prefix) && decode_pairs(rest, back)
}

/// Decodes a short run of digits, as `decode_digits` does.
fn decode_short_run(digits: &[u8], into: &mut [u8]) -> bool
    requires digits { length digits.now ≡ 2 * FEW_LANES }
    requires into { length into.old ≡ FEW_LANES }
    ensures { result_ok (decode_of digits.now) ≡ (if result then Some into.new else None) }
{
    let first = u8x8::from_slice(digits);
    let second = u8x8::from_slice(&digits[FEW_LANES..]);
    let (high, low) = first.deinterleave(second);
    let high = values_of(high);
    let low = values_of(low);
    let none = u8x8::splat(NO_DIGIT);
    let foreign = high.simd_ge(none) | low.simd_ge(none);
    (high * u8x8::splat(16) + low).copy_to_slice(into);
    foreign.to_bitmask() == 0
}

/// Decodes digits pair by pair, as `decode_digits` does.
fn decode_pairs(digits: &[u8], into: &mut [u8]) -> bool
    requires { length digits.now ≡ 2 * length into.old }
    ensures { result_ok (decode_of digits.now) ≡ (if result then Some into.new else None) }
{
    let mut most = 0;
    for i in 0..into.len() {
        let high = value_of(digits[2 * i]);
        let low = value_of(digits[2 * i + 1]);
        // For a byte that is no digit anything may be written: `most` records it.
        into[i] = high % 16 * 16 + low % 16;
        most = greatest(most, high, low);
    }
    most < NO_DIGIT
}

/// Returns the greatest of three numbers.
fn greatest(first: u8, second: u8, third: u8) -> u8
    ensures { result ≡ max (max first second) third }
{
    first.max(second).max(third)
}

/// Returns the value of a digit of either case, or `NO_DIGIT`.
fn value_of(digit: u8) -> u8
    ensures { result ≡ unwrap_or (hex_digit_value digit) NO_DIGIT }
{
    DIGIT_VALUES[digit as usize / 8][digit as usize % 8]
}

/// Writes each byte as two lower-case digits.
pub(crate) fn encode_digits(content: &[u8], into: &mut [u8])
    requires { length into.old ≡ 2 * length content.now }
    ensures { into.new ≡ encode_lower content.now }
{
    let whole = content.len() / LANES * LANES;
    let (long, short) = content.split_at(whole);
    let (prefix, back) = into.split_at_mut(2 * whole);
    encode_runs(long, prefix);
    encode_bytes(short, back);
}

/// Writes whole runs of bytes as lower-case digits.
fn encode_runs(content: &[u8], into: &mut [u8])
    requires pairs { length into.old ≡ 2 * length content.now }
    requires whole { length content.now % LANES ≡ 0 }
    ensures { into.new ≡ encode_lower content.now }
{
    for i in 0..content.len() / LANES {
        let (first, second) = encode_run(&content[LANES * i..]);
        first.copy_to_slice(&mut into[2 * LANES * i..]);
        second.copy_to_slice(&mut into[2 * LANES * i + LANES..]);
    }
}

/// Returns the digits of the run of bytes that a content begins with.
fn encode_run(content: &[u8]) -> (u8x16, u8x16)
    requires { LANES ≤ length content.now }
    ensures digits { result.0 ++ result.1 ≡ encode_lower (take LANES content.now) }
    ensures first { length result.0 ≡ LANES }
    ensures second { length result.1 ≡ LANES }
{
    let bytes = u8x16::from_slice(content);
    let high = digits_of(bytes / u8x16::splat(16));
    let low = digits_of(bytes % u8x16::splat(16));
    high.interleave(low)
}

/// Returns the lower-case digits of values.
fn digits_of(values: u8x16) -> u8x16
    requires { Each1 (λ value. value < 16) values }
    ensures { result ≡ map (λ value. slice_index lower_digits value) values }
{
    // A look-up takes fewer instructions than a comparison and a choice.
    u8x16::from_array(LOWER_DIGITS).swizzle_dyn(values)
}

/// Writes few bytes as lower-case digits.
fn encode_bytes(content: &[u8], into: &mut [u8])
    requires { length into.old ≡ 2 * length content.now }
    ensures { into.new ≡ encode_lower content.now }
{
    for i in 0..content.len() {
        let byte = content[i];
        into[2 * i] = digit_of(byte / 16);
        into[2 * i + 1] = digit_of(byte % 16);
    }
}

/// Returns the lower-case digit of a value.
fn digit_of(value: u8) -> u8
    requires { value < 16 }
    ensures { result ≡ slice_index lower_digits value }
{
    if value < 10 {
        b'0' + value
    } else {
        b'a' - 10 + value
    }
}
