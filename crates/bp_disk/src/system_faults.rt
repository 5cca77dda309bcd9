//! The faults of a device of the system.

ghost use Rattle.std.specs.Prelude.{◌≡◌, ◌≤◌};
ghost use Rattle.bp_io.specs.Causes.{HasCause, Rose};

use bp_io::{Failed, raise};
use std::io;

/// The faults of a device of the system: their number, and the last one.
#[derive(Drop)]
pub(crate) struct SystemFaults {
    pub(crate) count: u64,
    pub(crate) last: Option<io::Error>,
}

impl SystemFaults {
    pub(crate) fn none() -> Self
        ensures { result.count ≡ 0 }
    {
        SystemFaults {
            count: 0,
            last: None,
        }
    }

    /// Counts and stores a fault.
    pub(crate) fn raise(&mut self, error: io::Error) -> Failed
        ensures later { self.old.count ≤ self.new.count }
        ensures rose { Rose self.old.count self.new.count }
    {
        self.last = Some(error);
        raise(&mut self.count)
    }

    /// Turns an error of std into a fault.
    pub(crate) fn or_fault(&mut self, done: io::Result<()>) -> Result<(), Failed>
        ensures { HasCause self.old.count self.new.count result }
    {
        match done {
            Ok(()) => Ok(()),
            Err(error) => Err(self.raise(error)),
        }
    }
}
