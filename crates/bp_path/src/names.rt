//! The names in the text of a path.

ghost use Rattle.std.specs.Prelude.{◌≡◌, ◌+◌, ◌-◌, ◌==◌, ◌&&◌, ◌<◌, ◌≤◌, ◌++◌, ◌∷◌, [], true, length, drop, slice_index, is_some, not};
ghost use Rattle.std.specs.List.{list_all};
ghost use Rattle.bp_layout.specs.Paths.{rest_below, same_path, is_name, parts};
ghost use Rattle.bp_path.specs.Names.{path_parts};

use bp_limits::MAX_NAME;
use bp_text::{first_of, first_of_either};
use memchr::memrchr;

/// Returns whether bytes of which none is 0 or `/` are a valid name: 1 to 240 of them, and neither `.` nor `..`.
fn is_plain_name(name: &[u8]) -> bool
    requires { list_all (λ b. not (b == 0) && not (b == 47)) name.now ≡ true }
    ensures { result ≡ is_name name.now }
{
    if name.is_empty() {
        return false;
    }
    if name.len() > MAX_NAME {
        return false;
    }
    if name[0] != b'.' {
        return true;
    }
    name != b".".as_slice() && name != b"..".as_slice()
}

/// Returns whether all parts that `/` separates are valid names.
pub(crate) fn are_names(text: &[u8]) -> bool
    ensures { result ≡ list_all is_name (parts text.now) }
{
    let mut rest = text;
    while let Some(end) = first_of_either(0, b'/', rest) {
        if rest[end] == 0 {
            return false;
        }
        if !is_plain_name(&rest[..end]) {
            return false;
        }
        rest = &rest[end + 1..];
    }
    is_plain_name(rest)
}

/// Returns the first name of a text, and the text after it.
pub(crate) fn split_first(text: &[u8]) -> (&[u8], &[u8])
    requires some { 0 < length text.now }
    requires names { list_all is_name (path_parts text.now) ≡ true }
    ensures split { path_parts text.now ≡ result.0.now ∷ path_parts result.1.now }
    ensures rest { list_all is_name (path_parts result.1.now) ≡ true }
    ensures shorter { length result.1.now < length text.now }
{
    match first_of(b'/', text) {
        Some(end) => (&text[..end], &text[end + 1..]),
        None => (text, &text[text.len()..]),
    }
}

/// Returns the offset of the last part of a text.
fn last_start(text: &[u8]) -> usize
    ensures within { result ≤ length text.now }
    ensures last { parts (drop result text.now) ≡ drop result text.now ∷ [] }
    ensures slash { 0 < result → slice_index text.now (result - 1) ≡ 47 }
{
    match memrchr(b'/', text) {
        Some(slash) => slash + 1,
        None => 0,
    }
}

/// Returns the text before the last name, and the last name.
pub(crate) fn split_last(text: &[u8]) -> (&[u8], &[u8])
    requires some { 0 < length text.now }
    requires names { list_all is_name (path_parts text.now) ≡ true }
    ensures split { path_parts text.now ≡ path_parts result.0.now ++ result.1.now ∷ [] }
    ensures prefix { list_all is_name (path_parts result.0.now) ≡ true }
{
    let start = last_start(text);
    (&text[..start.saturating_sub(1)], &text[start..])
}

/// Returns whether the names of a text begin with all those of another one, and continue after them.
pub(crate) fn is_below(text: &[u8], above: &[u8]) -> bool
    requires names { list_all is_name (path_parts text.now) ≡ true }
    requires above { list_all is_name (path_parts above.now) ≡ true }
    ensures { result ≡ (not (same_path (path_parts above.now) (path_parts text.now))
        && is_some (rest_below (path_parts above.now) (path_parts text.now))) }
{
    let mut text = text;
    let mut above = above;
    while !above.is_empty() {
        if text.is_empty() {
            return false;
        }
        let (name, following) = split_first(text);
        let (first, others) = split_first(above);
        if first != name {
            return false;
        }
        text = following;
        above = others;
    }
    !text.is_empty()
}
