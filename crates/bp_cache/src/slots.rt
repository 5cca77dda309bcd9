//! Sets of slots.

ghost use Rattle.std.specs.Prelude.{◌-◌, ◌<◌, ◌^◌, true, false, length};
ghost use Rattle.std.proofs.Common.{arith};
ghost use Rattle.bp_cache.specs.Slots.{SetsSlot};

use bp_free::{Kind, Numbers, ShortKind};

/// The kind of numbers that slots are.
#[derive(Clone, Copy)]
pub(crate) struct SlotNumbers;

impl Kind for SlotNumbers {
    ghost bound = { 2 ^ 32 - 1 };

    ghost fits = { omega arith };
}

impl ShortKind for SlotNumbers {
    ghost short = { omega arith };
}

/// Puts a slot into the set, which may have it already.
pub(crate) fn put_in(slots: &mut Numbers<SlotNumbers>, slot: u32)
    requires { slot < length slots.old }
    ensures { SetsSlot slots.old slots.new slot true }
{
    if !slots.is_free(slot) {
        slots.give(slot);
    }
}

/// Takes a slot out of the set, which need not have it.
pub(crate) fn take_out(slots: &mut Numbers<SlotNumbers>, slot: u32)
    requires { slot < length slots.old }
    ensures { SetsSlot slots.old slots.new slot false }
{
    if slots.is_free(slot) {
        slots.claim(slot);
    }
}
