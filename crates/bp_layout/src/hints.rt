//! Remembered slots of names, for a faster second lookup.

ghost use Rattle.std.specs.Prelude.{◌≡◌, ◌≤◌, length, true, false};
ghost use Rattle.std.specs.FinMap.{get, empty};
ghost use Rattle.bp_layout.specs.Hints.{Known, Learns};
ghost use Rattle.bp_limits.specs.CallLimits.{max_name};

/// A memory of the slots of some names. The directory of a name is given by its inode.
pub trait Hints {
    /// The remembered names and their slots.
    ghost known: { Self → Known };

    /// Returns the slot of a name, or `None` exactly if the name is not remembered for that directory.
    fn hint(&mut self, dir: u32, name: &[u8]) -> Option<u64>
        ensures hint { result ≡ get (known self.old) (dir, name.now) }
        ensures same { known self.new ≡ known self.old };

    /// Remembers the slot of a name, and returns whether it did. It may forget other names.
    fn learn(&mut self, dir: u32, name: &[u8], slot: u64) -> bool
        requires { length name.now ≤ max_name }
        ensures learned { result ≡ true → Learns (known self.old) (known self.new) (dir, name.now) slot }
        ensures unlearned { result ≡ false → known self.new ≡ known self.old };
}

/// Remembers nothing.
#[derive(Clone, Copy, Debug)]
pub struct NoHints;

impl Hints for NoHints {
    ghost known = { λ _. empty };

    fn hint(&mut self, _dir: u32, _name: &[u8]) -> Option<u64> {
        None
    }

    fn learn(&mut self, _dir: u32, _name: &[u8], _slot: u64) -> bool {
        false
    }
}
