//! The list of the calls to the system, which only clauses read.

ghost use Rattle.bp_disk.specs.Calls.{Call, call_of};
ghost use Rattle.std.specs.Borrow.{ftrue};
ghost use Rattle.std.specs.Prelude.{◌≡◌, List, [], ◌∷◌};

use std::marker::{Model, PhantomData};

/// The calls to the system so far, the last one first. They take no memory, and noting one costs nothing.
#[derive(Drop)]
pub(crate) struct Record {
    marker: PhantomData<u8>,
    pub(crate) ghost calls: { List Call },
}

impl Model for Record {
    ghost also_owns = { λ _. ftrue };
}

impl Record {
    /// Makes a record of no call.
    pub(crate) fn new() -> Record
        ensures { result.calls ≡ [] }
    {
        Record {
            marker: PhantomData,
        }
    }

    /// Notes a call: its kind and its numbers, and the bytes that it moved.
    pub(crate) fn note(&mut self, _numbers: &[u64], _bytes: &[u8])
        ensures { self.new.calls ≡ call_of _numbers.now _bytes.now ∷ self.old.calls }
    {}
}
