//! Faults of the environment, and how they are counted.

ghost use Rattle.std.specs.Prelude.{◌≡◌, ◌≤◌, ◌↔◌, IsErr};
ghost use Rattle.bp_io.specs.Causes.{HasCause, Rose};

/// Error: the environment failed in this call. The object counted the fault: its count of faults rose by at least one,
/// or is at `u64::MAX`, where it stops.
#[derive(Clone, Copy, Debug, PartialEq, Eq)]
pub struct Failed;

/// Counts a fault.
pub fn raise(faults: &mut u64) -> Failed
    ensures later { faults.old ≤ faults.new }
    ensures rose { Rose faults.old faults.new }
{
    *faults = faults.saturating_add(1);
    Failed
}

/// The calls of an object in memory, of which those fail whose numbers are in a list.
#[derive(Drop)]
pub(crate) struct CallPlan<'a> {
    fail_at: &'a [u64],
    next: u64,
    faults: u64,
}

impl<'a> CallPlan<'a> {
    ghost use Rattle.bp_io.specs.Plans.{new_plan, FailsNext, after_call};
    ghost use Rattle.bp_io.specs.Memory.{plan_of};

    pub(crate) fn new(fail_at: &'a [u64]) -> Self
        ensures plan { plan_of result ≡ new_plan fail_at.entry.now }
        ensures faults { result.faults ≡ 0 }
    {
        CallPlan {
            fail_at,
            next: 0,
            faults: 0,
        }
    }

    /// Counts a call, and a fault if the call is one of those that fail.
    pub(crate) fn call(&mut self) -> Result<(), Failed>
        ensures fails { IsErr result ↔ FailsNext (plan_of self.old) }
        ensures plan { plan_of self.new ≡ after_call (plan_of self.old) }
        ensures cause { HasCause self.old.faults self.new.faults result }
    {
        let fails = self.fail_at.contains(&self.next);
        self.next = self.next.saturating_add(1);
        if fails {
            return Err(raise(&mut self.faults));
        }
        Ok(())
    }

    /// Counts a fault of a call that is not in the list.
    pub(crate) fn fault(&mut self) -> Failed
        ensures plan { plan_of self.new ≡ plan_of self.old }
        ensures later { self.old.faults ≤ self.new.faults }
        ensures rose { Rose self.old.faults self.new.faults }
    {
        raise(&mut self.faults)
    }
}
