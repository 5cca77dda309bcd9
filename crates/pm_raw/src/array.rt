//! Arrays of a fixed length over raw memory.
ghost use Rattle.std.specs.Prelude.{◌≡◌, ◌+◌, ◌/◌, ◌^◌, ◌<◌, ◌≤◌, [], ◌++◌, length, replicate, slice_set, IfOk, MatchOption, None, Some};
ghost use Rattle.std.specs.Borrow.{sem};
ghost use Rattle.std.specs.Vec.Ownership.{FitsInBlock};
ghost use Rattle.pm_raw.specs.Spelled.{spelled_words};

use super::cells::{Base, Cells, Deed, Lent};
use pm_words::word_at;
use std::alloc::{AllocError, Global};
use std::marker::Model;

/// An array in a block of memory. Its model is the list of its items. When the array is dropped, the block is freed if
/// it came from the allocator, and left to its owner if it was lent.
pub struct RawArray<T: Copy> {
    base: Base<T>,
    len: usize,
    cells: Cells<T>,
    deed: Option<Deed<T, Global>>,
    alloc: Global,
}

impl<T: Copy> Model for RawArray<T> {
    ghost use Rattle.std.specs.Prelude.{List};
    ghost use Rattle.std.specs.Coded.{coded_list};

    ghost Value = { List T };

    ghost coded = { coded_list T.code };

    ghost use Rattle.pm_raw.specs.RawArray.{items_of, IsWhole};

    ghost view = { items_of };

    ghost invariant = { IsWhole };
}

impl<T: Copy> Drop for RawArray<T> {
    fn drop(self) {
        let RawArray {
            base,
            len,
            cells,
            deed,
            alloc,
        } = self;
        if let Some(deed) = deed {
            Base::deallocate(&alloc, base, len, cells, deed);
        }
    }
}

/// Writes the value into each place of an empty block.
fn fill<T: Copy>(cells: &mut Cells<T>, base: Base<T>, len: usize, value: T)
    requires at { base.address ≡ cells.old.at }
    requires empty { cells.old.items ≡ [] }
    requires count { cells.old.count ≡ len }
    ensures at { cells.new.at ≡ cells.old.at }
    ensures filled { cells.new.items ≡ replicate len value }
    ensures count { cells.new.count ≡ cells.old.count }
{
    for i in 0..len {
        cells.push(base, i, value);
    }
}

impl<T: Copy> RawArray<T> {
    ghost use Rattle.pm_raw.specs.RawLends.{AreReplaced, lends_array};

    /// Makes an array of `len` items, each of this value. No other call allocates.
    ///
    /// # Errors
    ///
    /// `AllocError`: out of memory.
    pub fn new(alloc: Global, len: usize, value: T) -> Result<RawArray<T>, AllocError>
        requires { FitsInBlock T.row len }
        ensures { IfOk result (λ array. array ≡ replicate len value) }
    {
        let (base, mut cells, deed) = Base::allocate(&alloc, len)?;
        fill(&mut cells, base, len, value);
        Ok(RawArray {
            base,
            len,
            cells,
            deed: Some(deed),
            alloc,
        })
    }

    /// Returns the number of items.
    pub fn len(&self) -> usize
        ensures { result ≡ length self.now }
    {
        self.len
    }

    /// Returns the items.
    pub fn as_slice(&self) -> &[T]
        ensures { result.now ≡ self.now }
    {
        self.cells.slice(self.base, self.len)
    }

    /// Returns the items for modification.
    pub fn as_mut_slice(&mut self) -> &mut [T]
        ensures* writes_back { sem 𝓛 (lends_array T.row self.entry result) }
        ensures value { result.now ≡ self.old }
        ensures same_len { AreReplaced self.old }
    {
        let (base, len) = (self.base, self.len);
        self.cells.slice_mut(base, len)
    }

    /// Sets an item.
    pub fn set(&mut self, i: usize, value: T)
        requires { i < length self.old }
        ensures { self.new ≡ slice_set self.old i value }
    {
        self.as_mut_slice()[i] = value;
    }
}

impl RawArray<u64> {
    /// Makes an array of the words that are lent, in the memory where they are. It is `None` if none are.
    pub fn of_lent(alloc: Global, lent: Lent) -> Option<RawArray<u64>>
        ensures { MatchOption result (lent.words ≡ None) (λ array. lent.words ≡ Some array) }
    {
        match lent.unseal() {
            Some((base, len, cells)) => Some(RawArray {
                base,
                len,
                cells,
                deed: None,
                alloc,
            }),
            None => None,
        }
    }

    /// Lends the words with their memory, which the array does not free then: memory that was lent goes back, and
    /// memory of the allocator passes to the borrower.
    pub fn into_lent(self) -> Lent
        ensures { result.words ≡ Some self }
    {
        let RawArray {
            base,
            len,
            cells,
            deed,
            alloc: _,
        } = self;
        if let Some(deed) = deed {
            deed.waive();
        }
        Lent::seal(base, len, cells)
    }
}

/// The words of a region while they are being filled: a block of `size` places, of which the first are written. The
/// block is freed when the value is dropped.
pub struct Filling {
    base: Base<u64>,
    size: usize,
    count: usize,
    cells: Cells<u64>,
    deed: Deed<u64, Global>,
    alloc: Global,
}

impl Model for Filling {
    ghost use Rattle.pm_raw.specs.Part.{Part};

    ghost Value = { Part };

    ghost use Rattle.pm_raw.specs.Filling.{part_of, IsPartly};

    ghost view = { part_of };

    ghost invariant = { IsPartly };
}

impl Drop for Filling {
    fn drop(self) {
        let Filling {
            base,
            size,
            count: _,
            cells,
            deed,
            alloc,
        } = self;
        Base::deallocate(&alloc, base, size, cells, deed);
    }
}

/// Writes the words that the bytes encode into the first empty places, which begin at index `count`.
fn push_spelled(cells: &mut Cells<u64>, base: Base<u64>, count: usize, bytes: &[u8])
    requires at { base.address ≡ cells.old.at }
    requires count { count ≡ length cells.old.items }
    requires room { count + length bytes.now / 8 ≤ cells.old.count }
    requires small { cells.old.count < 2 ^ 64 }
    ensures { cells.new ≡ record cells.old {
      items = cells.old.items ++ spelled_words (length bytes.now / 8) bytes.now;
    } }
{
    for k in 0..bytes.len() / 8 {
        cells.push(base, count + k, word_at(bytes, 8 * k));
    }
}

impl Filling {
    /// Allocates `size` empty places. No other call allocates.
    ///
    /// # Errors
    ///
    /// `AllocError`: out of memory.
    pub fn new(alloc: Global, size: u64) -> Result<Filling, AllocError>
        requires few { size < 2 ^ 41 }
        ensures { IfOk result (λ filling. filling ≡ record { words = []; size = size }) }
    {
        let size = size as usize;
        let (base, cells, deed) = Base::allocate(&alloc, size)?;
        Ok(Filling {
            base,
            size,
            count: 0,
            cells,
            deed,
            alloc,
        })
    }

    /// Appends the words that these bytes encode: each eight bytes are one word, the lowest byte first. Fewer than
    /// eight bytes at the end are ignored.
    pub fn push_bytes(&mut self, bytes: &[u8])
        requires room { length self.old.words + length bytes.now / 8 ≤ self.old.size }
        ensures { self.new ≡ record self.old {
          words = self.old.words ++ spelled_words (length bytes.now / 8) bytes.now;
        } }
    {
        push_spelled(&mut self.cells, self.base, self.count, bytes);
        self.count += bytes.len() / 8;
    }

    /// Returns the words, once all of them are present.
    pub fn finish(self) -> RawArray<u64>
        requires full { length self.words ≡ self.size }
        ensures { result ≡ self.words }
    {
        let Filling {
            base,
            size,
            count: _,
            cells,
            deed,
            alloc,
        } = self;
        RawArray {
            base,
            len: size,
            cells,
            deed: Some(deed),
            alloc,
        }
    }
}
