//! The names of a directory.

ghost use Rattle.std.specs.Prelude.{[], ◌++◌, ◌<◌, ◌↔◌, ◌∷◌, ◌≡◌, IfOk, IsPermutation, IsTrue, OnErr, OnOk, Some, ◌≤◌, drop, length, slice_get, take};
ghost use Rattle.std.specs.List.Sorted.{IsSortedBy};
ghost use Rattle.bp_layout.specs.Listing.{comes_before, listed};
ghost use Rattle.bp_limits.specs.CallLimits.{max_name};

use crate::{Kind, Name};
use std::alloc::{AllocError, Global};
use std::marker::Model;

/// A name of a listing: its kind, and the position of its bytes among those of all names.
#[derive(Clone, Copy)]
struct Listed {
    first: usize,
    len: usize,
    kind: Kind,
}

/// A list of names with their kinds, as those of a directory.
#[derive(Drop)]
pub struct Listing {
    entries: Vec<Listed>,
    bytes: Vec<u8>,
}

impl Model for Listing {
    ghost use Rattle.std.specs.Prelude.{List, ℕ};
    ghost use Rattle.bp_layout.specs.declared.fields.Kind.{Kind};
    ghost use Rattle.bp_layout.specs.Listed.{AreWithin, listed_names};

    ghost Value = { List (Kind × List ℕ) };

    ghost view = { λ listing. listed_names listing.bytes.items listing.entries.items };

    // The bytes of a name never move when another name is added.
    ghost invariant = { λ listing. AreWithin listing.bytes.items listing.entries.items };
}

/// Returns the bytes of a name, as far as they are in `bytes`.
fn name_in(bytes: &[u8], listed: Listed) -> &[u8]
    ensures bytes { result.now ≡ take listed.len (drop listed.first bytes.now) }
    ensures few { length result.now ≤ listed.len }
{
    let rest = &bytes[listed.first.min(bytes.len())..];
    &rest[..listed.len.min(rest.len())]
}

impl Listing {
    /// Makes a list without names, with memory for `count` entries (not for the bytes of the names).
    ///
    /// # Errors
    ///
    /// - `AllocError`: out of memory.
    pub fn with_capacity(alloc: Global, count: usize) -> Result<Listing, AllocError>
        ensures { IfOk result (λ listing. listing ≡ []) }
    {
        Ok(Listing {
            entries: Vec::with_capacity(alloc, count)?,
            bytes: Vec::new(alloc),
        })
    }

    /// Makes a list of these kinds and names.
    ///
    /// # Errors
    ///
    /// - `AllocError`: out of memory.
    pub fn of(alloc: Global, entries: &[(Kind, Name)]) -> Result<Listing, AllocError>
        ensures { IfOk result (λ listing. listing ≡ listed entries.now) }
    {
        let mut listing = Listing::with_capacity(alloc, entries.len())?;
        for (kind, name) in entries {
            listing.push(*kind, name.as_slice())?;
        }
        Ok(listing)
    }

    /// Adds a name, of at most 240 bytes, at the end of the list.
    ///
    /// # Errors
    ///
    /// - `AllocError`: out of memory. The list is unchanged.
    // Two walks add one name a step, so no compiler inlines this function by itself; a call would cost 70 of about
    // 1,400 instructions a name.
    #[inline(always)]
    pub fn push(&mut self, kind: Kind, name: &[u8]) -> Result<(), AllocError>
        requires { length name.now ≤ max_name }
        ensures pushed { OnOk result (self.new ≡ self.old ++ (kind, name.now) ∷ []) }
        ensures kept { OnErr result (self.new ≡ self.old) }
    {
        let first = self.bytes.len();
        self.bytes.extend_from_slice(name)?;
        self.entries.push(Listed {
            first,
            len: name.len(),
            kind,
        })?;
        Ok(())
    }

    /// Sorts the names by their bytes.
    pub fn sort(&mut self)
        ensures all { IsPermutation self.old self.new }
        ensures sorted { IsSortedBy comes_before self.new }
    {
        let bytes = self.bytes.as_slice();
        self.entries.sort_unstable_by(|one, other| name_in(bytes, *one).cmp(name_in(
            bytes, *other,
        )));
    }

    /// Returns the number of names.
    pub fn len(&self) -> usize
        ensures { result ≡ length self.now }
    {
        self.entries.len()
    }

    /// Returns whether the list has no names.
    pub fn is_empty(&self) -> bool
        ensures { IsTrue result ↔ (self.now ≡ []) }
    {
        self.entries.is_empty()
    }

    /// Returns the kind and the name at an index, from 0 on.
    pub fn at(&self, index: usize) -> (Kind, &[u8])
        requires { index < length self.now }
        ensures entry { slice_get self.now index ≡ Some (result.0, result.1.now) }
        ensures short { length result.1.now ≤ max_name }
    {
        let entry = self.entries[index];
        (entry.kind, name_in(&self.bytes, entry))
    }
}
