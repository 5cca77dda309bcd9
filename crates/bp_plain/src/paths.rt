//! Paths as lists of names, and refusals in their order.

ghost use Rattle.bp_layout.specs.Paths.{same_path, is_name, parse, parts};
ghost use Rattle.bp_plain.specs.Plain as plain;
ghost use Rattle.bp_plain.specs.Seen.{refusal_of};
ghost use Rattle.bp_plain.specs.SeenTree.{all_names, names_of};
ghost use Rattle.std.specs.List.{list_all};
ghost use Rattle.std.specs.Prelude.{IfOk, None, OnOk, Some, [], ◌&&◌, ◌++◌, ◌<◌, ◌==◌, ◌≡◌, if◌then◌else◌, map, not, option_map, position};

use crate::errors::FsError;
use bp_layout::Name;
use bp_limits::{MAX_NAME, MAX_PATH};
use std::alloc::{AllocError, Global};

/// Returns the names of the path that a text spells, or `None` if it is no valid path.
pub(crate) fn parse(alloc: Global, text: &[u8]) -> Result<Option<Vec<Name>>, AllocError>
    ensures { IfOk result (λ path. option_map (λ names. names_of names.items) path ≡ parse text.now) }
{
    if text.is_empty() {
        return Ok(None);
    }
    if text[0] != b'/' {
        return Ok(None);
    }
    if text.len() > MAX_PATH {
        return Ok(None);
    }
    let text = &text[1..];
    if text.is_empty() {
        return Ok(Some(Vec::new(alloc)));
    }
    names_in(alloc, text)
}

/// Returns the names of the path that a text spells, or the root path if it is no valid path.
pub(crate) fn path_of(alloc: Global, text: &[u8]) -> Result<Vec<Name>, AllocError>
    ensures { IfOk result (λ names. names_of names.items ≡ plain.path_named text.now) }
{
    match parse(alloc, text)? {
        Some(path) => Ok(path),
        None => Ok(Vec::new(alloc)),
    }
}

/// Returns the parts of a text between its `/` bytes, or `None` if one of them is no valid name.
fn names_in(alloc: Global, text: &[u8]) -> Result<Option<Vec<Name>>, AllocError>
    ensures { IfOk result (λ path. option_map (λ names. names_of names.items) path ≡ all_names [] (parts text.now)) }
{
    let mut names = Vec::new(alloc);
    let mut rest = text;
    while let Some(end) = first_slash(rest) {
        match name(&rest[..end]) {
            Some(name) => names.push(name)?,
            None => return Ok(None),
        }
        rest = &rest[end + 1..];
    }
    match name(rest) {
        Some(name) => {
            names.push(name)?;
            Ok(Some(names))
        }
        None => Ok(None),
    }
}

fn first_slash(text: &[u8]) -> Option<usize>
    ensures { result ≡ position (λ b. b == 47) text.now }
{
    text.iter().position(|byte| *byte == b'/')
}

/// Returns these bytes as a name, or `None` if they are no valid name.
fn name(bytes: &[u8]) -> Option<Name>
    ensures { option_map (λ name. name.items) result ≡ (if is_name bytes.now then Some bytes.now else None) }
{
    if !is_name(bytes) {
        return None;
    }
    match Name::try_from(bytes) {
        Ok(name) => Some(name),
        Err(_) => unreachable!(),
    }
}

fn is_name(bytes: &[u8]) -> bool
    ensures { result ≡ is_name bytes.now }
{
    if bytes.is_empty() {
        return false;
    }
    if bytes.len() > MAX_NAME {
        return false;
    }
    if bytes == b".".as_slice() {
        return false;
    }
    if bytes == b"..".as_slice() {
        return false;
    }
    has_plain_bytes(bytes)
}

fn has_plain_bytes(bytes: &[u8]) -> bool
    ensures { result ≡ list_all (λ b. not (b == 0) && not (b == 47)) bytes.now }
{
    bytes.iter().all(|byte| *byte != 0 && *byte != b'/')
}

/// Returns a path without its last name.
pub(crate) fn parent_of(path: &[Name]) -> &[Name]
    ensures { names_of result.now ≡ plain.parent_of (names_of path.now) }
{
    &path[..path.len().saturating_sub(1)]
}

/// Returns whether two paths have the same names.
pub(crate) fn is_same(path: &[Name], other: &[Name]) -> bool
    ensures { result ≡ same_path (names_of path.now) (names_of other.now) }
{
    path == other
}

/// Returns the names of one path followed by those of another.
pub(crate) fn joined(alloc: Global, above: &[Name], below: &[Name]) -> Result<Vec<Name>, AllocError>
    ensures { IfOk result (λ path. names_of path.items ≡ names_of above.now ++ names_of below.now) }
{
    let mut path = Vec::new(alloc);
    add_names(&mut path, above)?;
    add_names(&mut path, below)?;
    Ok(path)
}

/// Returns a copy of these names.
pub(crate) fn copied(alloc: Global, names: &[Name]) -> Result<Vec<Name>, AllocError>
    ensures { IfOk result (λ path. names_of path.items ≡ names_of names.now) }
{
    let mut path = Vec::new(alloc);
    add_names(&mut path, names)?;
    Ok(path)
}

fn add_names(path: &mut Vec<Name>, names: &[Name]) -> Result<(), AllocError>
    ensures { OnOk result (names_of path.new.items ≡ names_of path.old.items ++ names_of names.now) }
{
    for name in names {
        path.push(name.clone()?)?;
    }
    Ok(())
}

/// Returns the refusal if `holds`, else `None`.
pub(crate) fn when(holds: bool, error: FsError) -> Option<FsError>
    ensures { option_map refusal_of result ≡ plain.when holds (refusal_of error) }
{
    if holds { Some(error) } else { None }
}

/// Returns the first refusal of the list, or `None` if there is none.
pub(crate) fn first(refusals: &[Option<FsError>]) -> Option<FsError>
    ensures { option_map refusal_of result ≡ plain.first (map (option_map refusal_of) refusals.now) }
{
    for refusal in refusals {
        if let Some(error) = refusal {
            return Some(*error);
        }
    }
    None
}
