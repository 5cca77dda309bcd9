//! The numbers of lines.

ghost use Rattle.bp_script.specs.Commands.{attribute_number, length_spelled, number_spelled};
ghost use Rattle.std.specs.Prelude.{length, ◌<◌, ◌≡◌, ◌≤◌};

use bp_limits::{ATTRIBUTES, MAX_READ};

/// The greatest number of digits of a number.
const MOST_DIGITS: usize = 20;

/// Decodes the number that a field spells: one to twenty decimal digits, with a value below 2^64.
pub(crate) fn number(word: &[u8]) -> Option<u64>
    ensures { result ≡ number_spelled word.now }
{
    if word.is_empty() || word.len() > MOST_DIGITS {
        None
    } else if word.len() < MOST_DIGITS {
        short_number(word)
    } else {
        long_number(word)
    }
}

/// Decodes a number with so few digits that its value is always below 2^64.
fn short_number(word: &[u8]) -> Option<u64>
    requires some { 1 ≤ length word.now }
    requires short { length word.now < MOST_DIGITS }
    ensures { result ≡ number_spelled word.now }
{
    let mut value: u64 = 0;
    for &byte in word {
        if !byte.is_ascii_digit() {
            return None;
        }
        value = value * 10 + (byte - b'0') as u64;
    }
    Some(value)
}

/// Decodes a number with the greatest number of digits.
fn long_number(word: &[u8]) -> Option<u64>
    requires { length word.now ≡ MOST_DIGITS }
    ensures { result ≡ number_spelled word.now }
{
    let mut value: u64 = 0;
    for &byte in word {
        if !byte.is_ascii_digit() {
            return None;
        }
        let digit = (byte - b'0') as u64;
        value = value.checked_mul(10)?.checked_add(digit)?;
    }
    Some(value)
}

/// Decodes the length of a read that a field spells: a number of at most the bytes that one call reads.
pub(crate) fn read_len(word: &[u8]) -> Option<usize>
    ensures { result ≡ length_spelled word.now }
{
    match number(word) {
        Some(len) => {
            if len <= MAX_READ as u64 {
                Some(len as usize)
            } else {
                None
            }
        }
        None => None,
    }
}

/// Decodes the number of an attribute that a field spells.
pub(crate) fn attribute_number(word: &[u8]) -> Option<u64>
    ensures { result ≡ attribute_number (number_spelled word.now) }
{
    match number(word) {
        Some(number) => {
            if number < ATTRIBUTES {
                Some(number)
            } else {
                None
            }
        }
        None => None,
    }
}
