//! Why an export ends early.

ghost use Rattle.std.specs.Prelude.{◌≡◌};
ghost use Rattle.bp_export.specs.declared.fault.Fault.TheVariants.{Memory, Sink};

use bp_io::Failed;
use std::alloc::AllocError;

/// The reason for which an export ends early.
#[derive(Clone, Copy, Debug, PartialEq, Eq)]
pub enum Fault {
    /// Some path of the tree has more bytes than a call can spell.
    Deep,
    /// Allocation failed.
    Memory,
    /// The sink failed.
    Sink,
}

impl From<AllocError> for Fault {
    ghost from_gives = { λ _ fault. fault ≡ Memory };

    fn from(_error: AllocError) -> Fault {
        Fault::Memory
    }
}

impl From<Failed> for Fault {
    ghost from_gives = { λ _ fault. fault ≡ Sink };

    fn from(_error: Failed) -> Fault {
        Fault::Sink
    }
}
