//! The cache of names.

ghost use Rattle.std.specs.Prelude.{◌≡◌, ◌≤◌, [], IfOk, IsSome, length, true, false};
ghost use Rattle.std.specs.FinMap.{get};
ghost use Rattle.bp_layout.specs.Hints.{Learns};
ghost use Rattle.bp_limits.specs.CallLimits.{max_name};
ghost use Rattle.bp_cache.specs.Forgets.{Forgets};
ghost use Rattle.bp_cache.specs.Names.{forgot, known_of, learned, recalled, remembered, slot_in};

use crate::key::Key;
use bp_layout::Hints;
use bp_limits::MAX_NAME;
use lru::LruCache;
use std::alloc::{AllocError, Global};
use std::marker::Model;
use std::num::NonZeroUsize;

/// A cache of the slots of names, at most as many as there is room for. If it is full, the name that was neither found
/// nor learned for the longest time is forgotten. Contracts see the names and slots, the most recent first, and the
/// room.
#[derive(Drop)]
pub struct Names {
    cache: LruCache<Key, u64>,
    // the key of the current lookup
    sought: Key,
}

impl Model for Names {
    ghost use Rattle.bp_cache.specs.Names.{AreShort, Remembered, remembered, remembered_code};

    ghost Value = { Remembered };

    ghost coded = { remembered_code };

    ghost view = { λ names. remembered names.cache.entries names.cache.cap };

    ghost invariant = { λ names. AreShort names.cache.entries };
}

impl Names {
    /// Makes an empty cache with room for `room` names.
    ///
    /// # Errors
    ///
    /// - `AllocError`: out of memory.
    pub fn new(alloc: Global, room: usize) -> Result<Names, AllocError>
        requires { 1 ≤ room }
        ensures { IfOk result (λ names. names ≡ remembered [] room) }
    {
        let room = NonZeroUsize::new(room).unwrap();
        let cache = LruCache::new(alloc, room)?;
        Ok(Names {
            cache,
            sought: Key::new(),
        })
    }

    /// Returns the slot of a name, and makes the name the most recent one.
    fn recall(&mut self, dir: u32, name: &[u8]) -> Option<u64>
        ensures slot { result ≡ slot_in (dir, name.now) self.old.pairs }
        ensures recalled { self.new ≡ remembered (recalled (dir, name.now) self.old.pairs) self.old.room }
    {
        if self.cache.is_empty() {
            return None;
        }
        if name.len() > MAX_NAME {
            return None;
        }
        self.sought.set(dir, name);
        self.cache.get(&self.sought).copied()
    }

    /// Puts a name and its slot first.
    fn put(&mut self, dir: u32, name: &[u8], slot: u64) -> bool
        requires { length name.now ≤ max_name }
        ensures room { 1 ≤ self.old.room }
        ensures put { result ≡ true → self.new ≡ remembered (learned (dir, name.now) slot self.old.room self.old.pairs) self.old.room }
        ensures refused { result ≡ false → self.new ≡ self.old }
        ensures there { IsSome (slot_in (dir, name.now) self.old.pairs) → result ≡ true }
    {
        let _known = self.cache.len();
        self.sought.set(dir, name);
        self.cache.put(self.sought.copied(), slot).is_ok()
    }

    /// Forgets a name.
    pub fn forget(&mut self, dir: u32, name: &[u8])
        ensures forgot { self.new ≡ remembered (forgot (dir, name.now) self.old.pairs) self.old.room }
        ensures known { Forgets (known_of self.old) (known_of self.new) (dir, name.now) }
    {
        let _known = self.cache.len();
        if self.cache.is_empty() {
            return;
        }
        if name.len() > MAX_NAME {
            return;
        }
        self.sought.set(dir, name);
        let _slot = self.cache.pop(&self.sought);
    }

    /// Forgets all names.
    pub fn forget_all(&mut self)
        ensures { self.new ≡ remembered [] self.old.room }
    {
        self.cache.clear();
    }
}

impl Hints for Names {
    ghost known = { known_of };

    /// Returns the slot of a name, or `None` exactly if the name is not remembered. A name that is found becomes the
    /// most recent one.
    fn hint(&mut self, dir: u32, name: &[u8]) -> Option<u64>
        ensures hint { result ≡ get (known_of self.old) (dir, name.now) }
        ensures same { known_of self.new ≡ known_of self.old }
        ensures slot { result ≡ slot_in (dir, name.now) self.old.pairs }
        ensures recalled { self.new ≡ remembered (recalled (dir, name.now) self.old.pairs) self.old.room }
    {
        self.recall(dir, name)
    }

    /// Remembers the slot of a name, which becomes the most recent one. Returns false if memory is out for a name that
    /// is not remembered yet; then nothing has changed.
    fn learn(&mut self, dir: u32, name: &[u8], slot: u64) -> bool
        requires { length name.now ≤ max_name }
        ensures learned { result ≡ true → Learns (known_of self.old) (known_of self.new) (dir, name.now) slot }
        ensures unlearned { result ≡ false → known_of self.new ≡ known_of self.old }
        ensures put { result ≡ true → self.new ≡ remembered (learned (dir, name.now) slot self.old.room self.old.pairs) self.old.room }
        ensures refused { result ≡ false → self.new ≡ self.old }
        ensures there { IsSome (slot_in (dir, name.now) self.old.pairs) → result ≡ true }
    {
        self.put(dir, name, slot)
    }
}
