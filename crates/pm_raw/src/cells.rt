//! The raw memory of an array: a block of places, of which the first have an item each and the others are empty. All
//! raw pointers of the crate are in this file.
ghost use Rattle.std.specs.Prelude.{◌≡◌, ℕ, ◌<◌, ◌≤◌, List, [], ◌∷◌, ◌++◌, length, IfOk, Option, None, Some};
ghost use Rattle.std.specs.Borrow.{sem};
ghost use Rattle.std.specs.Vec.Ownership.{FitsInBlock};
ghost use base.Fml.{ftrue};
ghost use denote.RawPtr.{Ptr};
ghost use Rattle.pm_raw.specs.Ownership.{places_own, places_lend, deed_owns, lent_owns};

use std::alloc::{AllocError, Allocator, Global};
use std::marker::{Model, PhantomData};
use std::mem::{align_of, size_of};
use std::ptr::null_mut;
use std::slice;

/// The address of a block. It owns nothing, so it is copied freely.
#[derive(Clone, Copy)]
pub struct Base<T> {
    address: *mut T,
}

/// The owner of a block's `count` places, of which the first hold `items`. It has no bytes. Dropping it frees nothing:
/// the right to free a block is its deed, and a lent block has none.
#[derive(Drop)]
pub struct Cells<T> {
    of: PhantomData<*const T>,
    ghost at: { Ptr },
    ghost items: { List T },
    ghost count: { ℕ },
}

impl<T> Model for Cells<T> {
    ghost also_owns = { λ cells. places_own T.row cells.at cells.items cells.count };

    ghost also_shares = { λ cells _ κ. places_lend T.row cells.at cells.items cells.count κ };
}

/// The right to return a block of `count` places to the allocator that it came from. It has no bytes.
pub struct Deed<T, A: Allocator> {
    of: PhantomData<*const (T, A)>,
    ghost at: { Ptr },
    ghost count: { ℕ },
    ghost alloc: { A },
}

impl<T, A: Allocator> Model for Deed<T, A> {
    ghost also_owns = { λ deed. deed_owns T.row (A.dealloc_token deed.alloc) deed.at deed.count };

    ghost also_shares = { λ _ _ _. ftrue };
}

impl Deed<u64, Global> {
    /// Gives up the right to free the block: its memory then belongs to the holder of the places.
    pub(crate) fn waive(self) {
        let Deed { of: _ } = self;
    }
}

impl<T> Base<T> {
    ghost use Rattle.pm_raw.specs.Block.{IsBlock};

    /// Allocates a block of `count` places, all empty.
    ///
    /// # Errors
    ///
    /// `AllocError`: out of memory.
    pub(crate) fn allocate<A: Allocator>(
        alloc: &A,
        count: usize,
    ) -> Result<(Base<T>, Cells<T>, Deed<T, A>), AllocError>
        requires { FitsInBlock T.row count }
        ensures { IfOk result (λ block. IsBlock block.0 block.1 block.2 count alloc.now × (block.1.items ≡ [])) }
    {
        match alloc.allocate(count * size_of::<T>(), align_of::<T>()) {
            Ok(block) => {
                let base = Base {
                    address: block as *mut T,
                };
                let cells = Cells { of: PhantomData };
                let deed = Deed { of: PhantomData };
                Ok((base, cells, deed))
            }
            Err(error) => Err(error),
        }
    }

    /// Frees a block. Its items are forgotten, so their type must be `Copy`.
    pub(crate) fn deallocate<A: Allocator>(
        alloc: &A,
        base: Base<T>,
        count: usize,
        cells: Cells<T>,
        deed: Deed<T, A>,
    )
        requires { IsBlock base cells deed count alloc.now × (length cells.items ≤ count) }
    {
        let Cells { of: _ } = cells;
        let Deed { of: _ } = deed;
        unsafe {
            alloc.deallocate(
                base.address as *mut u8,
                count * size_of::<T>(),
                align_of::<T>(),
            );
        }
    }
}

impl<T> Cells<T> {
    ghost use Rattle.pm_raw.specs.Lends.{lends_items};

    /// Writes an item into the first empty place, which has this index.
    pub(crate) fn push(&mut self, base: Base<T>, index: usize, item: T)
        requires { (base.address ≡ self.old.at) × (index ≡ length self.old.items) × (index < self.old.count) }
        ensures { self.new ≡ record self.old { items = self.old.items ++ item ∷ [] } }
    {
        unsafe { base.address.add(index).write(item) }
    }

    /// Returns the items of a block whose places all have one.
    pub(crate) fn slice(&self, base: Base<T>, len: usize) -> &[T]
        requires { (base.address ≡ self.now.at) × (length self.now.items ≡ len) × (self.now.count ≡ len) }
        ensures { result.now ≡ self.now.items }
    {
        unsafe { slice::from_raw_parts(base.address, len) }
    }

    /// Returns the items of a block whose places all have one, for modification.
    pub(crate) fn slice_mut(&mut self, base: Base<T>, len: usize) -> &mut [T]
        requires { (base.address ≡ self.old.at) × (length self.old.items ≡ len) × (self.old.count ≡ len) }
        ensures* writes_back { sem 𝓛 (lends_items T.row self.entry result) }
        ensures value { result.now ≡ self.old.items }
    {
        unsafe { slice::from_raw_parts_mut(base.address, len) }
    }
}

/// Words in memory that the caller lends, or none. C sees their address, their number, and whether there are any.
/// Dropping it frees nothing.
#[repr(C)]
#[derive(Drop)]
pub struct Lent {
    at: *mut u64,
    count: usize,
    is_there: bool,
    /// The words.
    pub ghost words: { Option (List ℕ) },
}

impl Model for Lent {
    ghost also_owns = { λ lent. lent_owns lent.at lent.count lent.is_there lent.words };
}

impl Lent {
    ghost use Rattle.pm_raw.specs.Lent.{IsFull, IsUnsealed};

    /// Returns the value that lends nothing.
    pub fn none() -> Lent
        ensures { result.words ≡ None }
    {
        Lent {
            at: null_mut(),
            count: 0,
            is_there: false,
        }
    }

    /// Lends a block whose places all have a word.
    pub(crate) fn seal(base: Base<u64>, count: usize, cells: Cells<u64>) -> Lent
        requires { IsFull base count cells }
        ensures { result.words ≡ Some cells.items }
    {
        let Base { address } = base;
        let Cells { of: _ } = cells;
        Lent {
            at: address,
            count,
            is_there: true,
        }
    }

    /// Returns the block that is lent, or `None` if none is.
    pub(crate) fn unseal(self) -> Option<(Base<u64>, usize, Cells<u64>)>
        ensures { IsUnsealed self.words result }
    {
        let Lent {
            at,
            count,
            is_there,
        } = self;
        if is_there {
            let base = Base { address: at };
            let cells = Cells { of: PhantomData };
            Some((base, count, cells))
        } else {
            None
        }
    }
}
