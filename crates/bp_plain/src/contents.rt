//! The bytes of files and of answers.

ghost use Rattle.bp_limits.specs.Limits.{max_read};
ghost use Rattle.bp_limits.specs.CallLimits.{greatest_size};
ghost use Rattle.bp_plain.specs.Calls.Answer.{bytes};
ghost use Rattle.bp_plain.specs.Plain as plain;
ghost use Rattle.std.specs.Prelude.{IfOk, ◌&&◌, ◌+◌, ◌++◌, ◌≡◌, ◌≤◌, drop, length, nat_lt, take};

use crate::replies::Reply;
use bp_limits::Version;
use std::alloc::{AllocError, Global};

/// Returns at most `len` bytes of `content` from byte `offset` on.
pub(crate) fn part(content: &[u8], offset: u64, len: usize) -> &[u8]
    ensures { result.now ≡ take len (drop offset content.now) }
{
    if offset >= content.len() as u64 {
        return &[];
    }
    let rest = &content[offset as usize..];
    &rest[..rest.len().min(len)]
}

/// Returns whether a write has bytes and ends past the version's greatest file size.
pub(crate) fn ends_too_late(version: Version, offset: u64, new: &[u8]) -> bool
    ensures { result ≡ (nat_lt 0 (length new.now) && nat_lt (greatest_size version) (offset + length new.now)) }
{
    !new.is_empty() && u128::from(offset) + new.len() as u128 > u128::from(version.greatest_size())
}

/// Returns the old bytes with the new ones written over them from byte `offset` on, and 0 between the old end and
/// `offset`.
pub(crate) fn written(
    alloc: Global,
    old: &[u8],
    offset: usize,
    new: &[u8],
) -> Result<Vec<u8>, AllocError>
    ensures { IfOk result (λ content. content.items ≡ plain.written old.now offset new.now) }
{
    let mut content = resized(alloc, old, offset)?;
    content.extend_from_slice(new)?;
    content.extend_from_slice(following(old, offset, new.len()))?;
    Ok(content)
}

/// Returns the bytes of `content` after byte `offset + len`.
fn following(content: &[u8], offset: usize, len: usize) -> &[u8]
    ensures { result.now ≡ drop (offset + len) content.now }
{
    if offset >= content.len() {
        return &[];
    }
    let rest = &content[offset..];
    if len >= rest.len() {
        return &[];
    }
    &rest[len..]
}

/// Returns the first `size` of the old bytes, extended with 0 up to that size.
pub(crate) fn resized(alloc: Global, old: &[u8], size: usize) -> Result<Vec<u8>, AllocError>
    ensures { IfOk result (λ content. content.items ≡ plain.resized old.now size) }
{
    let mut content = Vec::new(alloc);
    content.extend_from_slice(old)?;
    content.resize(size, 0)?;
    Ok(content)
}

/// Sets the answer to these bytes.
pub(crate) fn answer_bytes(reply: &mut Reply, content: &[u8])
    requires { length content.now ≤ max_read }
    ensures { reply.new.answer ≡ bytes content.now }
{
    copy_to(content, reply.buffer());
    reply.set_bytes(content.len());
}

fn copy_to(content: &[u8], into: &mut [u8])
    requires { length content.now ≤ length into.old }
    ensures { into.new ≡ content.now ++ drop (length content.now) into.old }
{
    into[..content.len()].copy_from_slice(content);
}
