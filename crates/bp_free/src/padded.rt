//! A list of which only a prefix is stored.

ghost use Rattle.std.specs.Prelude.{◌≡◌, ℕ, ◌<◌, ◌≤◌, IfOk, length, replicate, slice_index_or, slice_set, vec_capacity};
ghost use Rattle.bp_free.specs.Padded.{padded, AddsBlanks, HasRoomForAll};

use std::alloc::{AllocError, Global};
use std::marker::Model;

/// The number of entries that are stored at once past the one that is needed.
const SPARE: usize = 64;

/// A type of entries.
pub(crate) trait Blank: Copy {
    /// The value of an entry that was never set.
    ghost blank: { Self };

    /// Returns the value of an entry that was never set.
    fn blank() -> Self
        ensures { result ≡ blank };

    /// Makes all entries of a list blank.
    fn make_blank(list: &mut [Self])
        ensures { list.new ≡ replicate (length list.old) blank };
}

impl Blank for u32 {
    ghost blank = { 0 };

    fn blank() -> u32 {
        0
    }

    fn make_blank(list: &mut [u32]) {
        list.fill(0);
    }
}

impl Blank for u64 {
    ghost blank = { 0 };

    fn blank() -> u64 {
        0
    }

    fn make_blank(list: &mut [u64]) {
        list.fill(0);
    }
}

/// A list of a fixed length. Memory for all entries is reserved when it is made. The entries up to the last one that
/// was ever set are stored, and the others are blank. So if only low entries are set, little of that
/// memory is touched.
#[derive(Drop)]
pub(crate) struct Padded<T: Blank> {
    stored: Vec<T>,
    room: usize,
}

impl<T: Blank> Model for Padded<T> {
    ghost use Rattle.std.specs.Prelude.{List};
    ghost use Rattle.bp_free.specs.Padded.{padded, HasRoomForAll};

    ghost Value = { List T };

    ghost view = { λ p. padded T.blank p.stored.items p.room };

    ghost invariant = { λ p. HasRoomForAll p.stored p.room };
}

/// Appends blank entries, up to the wanted number of entries and some more, so that it is seldom done.
#[cold]
#[inline(never)]
fn grow<T: Blank>(stored: &mut Vec<T>, wanted: usize, room: usize)
    requires wanted { (length stored.old.items < wanted) × (wanted ≤ room) }
    requires room { HasRoomForAll stored.old room }
    ensures wanted { wanted ≤ length stored.new.items }
    ensures room { HasRoomForAll stored.new room }
    ensures blanks { AddsBlanks T.blank stored.old stored.new }
{
    let entries = wanted + (room - wanted).min(SPARE);
    let _ = stored.resize(entries, T::blank());
}

/// Stores at least the wanted number of entries.
#[tactic(auto, using(crate::proofs::Prefixes::padded_more))]
fn cover<T: Blank>(stored: &mut Vec<T>, wanted: usize, room: usize)
    requires wanted { wanted ≤ room }
    requires room { HasRoomForAll stored.old room }
    ensures wanted { wanted ≤ length stored.new.items }
    ensures room { HasRoomForAll stored.new room }
    ensures same { padded T.blank stored.new.items room ≡ padded T.blank stored.old.items room }
{
    if stored.len() < wanted {
        grow(stored, wanted, room);
    }
}

impl<T: Blank> Padded<T> {
    /// Makes a list of `room` blank entries.
    ///
    /// # Errors
    ///
    /// `AllocError`: out of memory.
    pub fn new(alloc: Global, room: usize) -> Result<Padded<T>, AllocError>
        ensures { IfOk result (λ list. list ≡ replicate room T.blank) }
    {
        let stored = Vec::with_capacity(alloc, room)?;
        Ok(Padded { stored, room })
    }

    /// Makes a list without entries. It allocates nothing.
    pub fn none(alloc: Global) -> Padded<T>
        ensures { length result ≡ 0 }
    {
        Padded {
            stored: Vec::new(alloc),
            room: 0,
        }
    }

    /// Returns the number of entries.
    pub fn room(&self) -> usize
        ensures { result ≡ length self.now }
    {
        self.room
    }

    /// Returns the number of entries that are stored. Those from there on are blank.
    pub fn stored(&self) -> usize
        ensures within { result ≤ length self.now }
        ensures blank { (i : ℕ) → result ≤ i → slice_index_or self.now i T.blank ≡ T.blank }
    {
        self.stored.len()
    }

    /// Returns an entry.
    pub fn get(&self, i: usize) -> T
        requires { i < length self.now }
        ensures { result ≡ slice_index_or self.now i result }
    {
        match self.stored.get(i) {
            Some(entry) => *entry,
            None => T::blank(),
        }
    }

    /// Sets an entry.
    pub fn set(&mut self, i: usize, entry: T)
        requires { i < length self.old }
        ensures { self.new ≡ slice_set self.old i entry }
    {
        cover(&mut self.stored, i + 1, self.room);
        self.stored[i] = entry;
    }

    /// Sets an entry, to the blank value if it has that. So it appends nothing.
    pub fn set_stored(&mut self, i: usize, entry: T)
        requires in_range { i < length self.old }
        requires blank { slice_index_or self.old i T.blank ≡ T.blank → entry ≡ T.blank }
        ensures { self.new ≡ slice_set self.old i entry }
    {
        if i < self.stored.len() {
            self.stored[i] = entry;
        }
    }

    /// Makes all entries blank. It touches those that are stored, and keeps them stored, so that setting them again does
    /// not append them once more.
    pub fn clear(&mut self)
        ensures { self.new ≡ replicate (length self.old) T.blank }
    {
        T::make_blank(&mut self.stored[..]);
    }
}
