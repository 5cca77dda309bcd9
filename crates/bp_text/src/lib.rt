//! Finds the first position of a byte in a text. It is meant for texts that are mostly short or have the byte near:
//! the fields of a line, the names of a path.
#![tactic(auto)]

ghost use Rattle.std.specs.Prelude.{◌≡◌, ◌≤◌, ◌==◌, ◌||◌, length, position};
ghost use Rattle.memchr.specs.Find.{IsFirst, Passes, is_byte2};

use memchr::memchr;
use std::simd::prelude::*;

/// Number of bytes that are compared at once.
const LANES: usize = 16;

/// Number of bytes that are searched before the byte counts as far.
const NEAR: usize = 128;

/// Returns the index of the first byte of this value in a text.
pub fn first_of(byte: u8, text: &[u8]) -> Option<usize>
    ensures { result ≡ position (λ b. b == byte) text.now }
{
    let mut at = 0;
    while at < NEAR && LANES <= text.len() - at {
        match first_in_block(byte, byte, &text[at..]) {
            Some(place) => return Some(at + place),
            None => at += LANES,
        }
    }
    if LANES <= text.len() - at {
        first_far(byte, text, at)
    } else {
        first_in_rest(byte, byte, text, at)
    }
}

/// Returns the index of the first byte of either of two values in a text.
pub fn first_of_either(one: u8, other: u8, text: &[u8]) -> Option<usize>
    ensures { result ≡ position (λ b. b == one || b == other) text.now }
{
    let mut at = 0;
    while LANES <= text.len() - at {
        match first_in_block(one, other, &text[at..]) {
            Some(place) => return Some(at + place),
            None => at += LANES,
        }
    }
    first_in_rest(one, other, text, at)
}

/// Returns the index of the first byte of either value in the first block of a text.
fn first_in_block(one: u8, other: u8, text: &[u8]) -> Option<usize>
    requires { LANES ≤ length text.now }
    ensures { IsFirst (Passes (is_byte2 one other) text.now) 0 LANES result }
{
    let block = u8x16::from_slice(text);
    let found = block.simd_eq(u8x16::splat(one)) | block.simd_eq(u8x16::splat(other));
    let places = found.to_bitmask();
    if places == 0 {
        None
    } else {
        Some(places.trailing_zeros() as usize)
    }
}

/// Returns the index of the first byte of either value in a text, from an index on.
fn first_in_rest(one: u8, other: u8, text: &[u8], from: usize) -> Option<usize>
    requires { from ≤ length text.now }
    ensures { IsFirst (Passes (is_byte2 one other) text.now) from (length text.now) result }
{
    for i in from..text.len() {
        if text[i] == one || text[i] == other {
            return Some(i);
        }
    }
    None
}

/// Returns the index of the first byte of this value, from an index on, if much of the text is left.
fn first_far(byte: u8, text: &[u8], from: usize) -> Option<usize>
    requires { from ≤ length text.now }
    ensures { IsFirst (Passes (is_byte2 byte byte) text.now) from (length text.now) result }
{
    match memchr(byte, &text[from..]) {
        Some(place) => Some(from + place),
        None => None,
    }
}
