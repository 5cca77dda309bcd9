//! Paths that were parsed from text.

ghost use Rattle.std.specs.Prelude.{◌≡◌, ◌≢◌, ◌&&◌, ◌++◌, ◌∷◌, ◌↔◌, [], true, List, ℕ, None, Some, IsTrue, IfOk, OnErr, is_some, not};
ghost use Rattle.std.specs.List.{list_all};
ghost use Rattle.bp_layout.specs.Paths.{rest_below, same_path, is_name, parse};
ghost use Rattle.bp_path.specs.Names.{AreBeside, path_parts};

use crate::names::{are_names, is_below, split_last};
use bp_limits::MAX_PATH;
use std::marker::Model;

/// The text is no path: it is longer than 4,096 bytes, or it is neither `/` nor a sequence of `/` and a name, once or
/// more.
#[derive(Clone, Copy, Debug, PartialEq, Eq)]
pub struct BadPath;

/// A path from the root directory: a list of names, which is empty for `/`.
#[derive(Drop)]
pub struct Path<'a> {
    // the text after the first `/`
    text: &'a [u8],
}

impl<'a> Model for Path<'a> {
    ghost Value = { List (List ℕ) };

    ghost view = { λ path. path_parts path.text.now };

    ghost invariant = { λ path. list_all is_name (path_parts path.text.now) ≡ true };
}

/// Parses the text of a path.
///
/// # Errors
///
/// - `BadPath`: the text is no path. It is returned in exactly this case.
pub fn parse(text: &[u8]) -> Result<Path<'_>, BadPath>
    ensures ok { IfOk result (λ path. parse text.now ≡ Some path) }
    ensures err { OnErr result (parse text.now ≡ None) }
{
    if text.is_empty() {
        return Err(BadPath);
    }
    if text[0] != b'/' {
        return Err(BadPath);
    }
    if text.len() > MAX_PATH {
        return Err(BadPath);
    }
    let text = &text[1..];
    if text.is_empty() {
        return Ok(Path { text });
    }
    if !are_names(text) {
        return Err(BadPath);
    }
    Ok(Path { text })
}

impl<'a> Path<'a> {
    /// Returns whether the path is `/`.
    pub fn is_root(&self) -> bool
        ensures { IsTrue result ↔ (self.now ≡ []) }
    {
        self.text().is_empty()
    }

    /// Returns the names, separated by `/`.
    pub(crate) fn text(&self) -> &'a [u8]
        ensures names { path_parts result.now ≡ self.now }
        ensures right { list_all is_name (path_parts result.now) ≡ true }
    {
        self.text
    }

    /// Returns the last name.
    pub fn last(&self) -> &'a [u8]
        requires { self.now ≢ [] }
        ensures last { (parent : List (List ℕ)) (name : List ℕ) → self.now ≡ parent ++ name ∷ []
            → result.now ≡ name }
        ensures name { IsTrue (is_name result.now) }
    {
        split_last(self.text()).1
    }

    /// Returns whether another path has the same names before its last one.
    pub fn is_beside(&self, other: &Path<'_>) -> bool
        requires below { self.now ≢ [] }
        requires other { other.now ≢ [] }
        ensures beside { IsTrue result → AreBeside self.now other.now }
        ensures reported { AreBeside self.now other.now → IsTrue result }
    {
        split_last(self.text()).0 == split_last(other.text()).0
    }

    /// Returns whether the path begins with all names of another path, and continues after them.
    pub fn is_below(&self, above: &Path<'_>) -> bool
        ensures { result ≡ (not (same_path above.now self.now) && is_some (rest_below above.now self.now)) }
    {
        is_below(self.text(), above.text())
    }
}
