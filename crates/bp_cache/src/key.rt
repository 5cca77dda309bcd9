//! Names as keys.

ghost use Rattle.std.specs.Prelude.{◌≡◌, ◌≤◌, [], length};

use bp_limits::MAX_NAME;
use std::hash::{Hash, Hasher};
use std::marker::Model;

/// A name in a directory. It holds its bytes itself, so that no key allocates memory.
#[derive(Drop)]
pub(crate) struct Key {
    dir: u32,
    len: usize,
    // the bytes after the name are old ones
    bytes: [u8; MAX_NAME],
}

impl Model for Key {
    ghost use Rattle.std.specs.Prelude.{◌≤◌, take};
    ghost use Rattle.bp_limits.specs.CallLimits.{max_name};
    ghost use Rattle.bp_layout.specs.Hints.{NameIn};

    ghost Value = { NameIn };

    ghost view = { λ key. (key.dir, take key.len key.bytes) };

    ghost invariant = { λ key. key.len ≤ max_name };
}

impl Key {
    ghost use Rattle.bp_limits.specs.CallLimits.{max_name};

    /// Makes an empty key, to be set later.
    pub fn new() -> Key
        ensures { result ≡ (0, []) }
    {
        Key {
            dir: 0,
            len: 0,
            bytes: [0; MAX_NAME],
        }
    }

    /// Sets the key to a name.
    pub fn set(&mut self, dir: u32, name: &[u8])
        requires { length name.now ≤ max_name }
        ensures { self.new ≡ (dir, name.now) }
    {
        self.dir = dir;
        self.len = name.len();
        self.bytes[..name.len()].copy_from_slice(name);
    }

    /// Returns a copy of the key.
    pub fn copied(&self) -> Key
        ensures { result ≡ self.now }
    {
        Key {
            dir: self.dir,
            len: self.len,
            bytes: self.bytes,
        }
    }

    fn name(&self) -> &[u8]
        ensures { result.now ≡ self.now.1 }
    {
        &self.bytes[..self.len]
    }
}

impl PartialEq for Key {
    ghost use Rattle.bp_cache.specs.Names.{is_same};
    ghost use Rattle.bp_cache.specs.Same.{same_per};

    ghost eq = { is_same };

    ghost laws = { same_per };

    fn eq(&self, other: &Key) -> bool {
        self.dir == other.dir && self.name() == other.name()
    }
}

impl Eq for Key {
    ghost use Rattle.bp_cache.specs.Same.{same_equiv};

    ghost laws = { same_equiv };
}

impl Hash for Key {
    ghost use Rattle.bp_cache.specs.Names.{hash_writes};
    ghost use Rattle.bp_cache.specs.Same.{same_writes};

    ghost hash_input = { hash_writes };

    ghost respects_eq = { same_writes };

    fn hash<H: Hasher>(&self, state: &mut H) {
        state.write_u32(self.dir);
        state.write(self.name());
    }
}
