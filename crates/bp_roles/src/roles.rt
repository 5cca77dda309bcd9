//! The roles of the slots of the superblock.

ghost use Rattle.std.specs.Prelude.{◌≡◌};
ghost use Rattle.bp_roles.specs.Seen.{seen_event};
ghost use Rattle.bp_roles.specs.Roles.{exchanged, magic_of, seen_at, seen_places, stored_at, stored_places, swapped};
ghost use Rattle.bp_roles.specs.Mounted.{roles_of};

use bp_limits::{SUPER_MAGIC, Version};
use pm_epochs::Event;
use pm_region::HEAD_WORDS;

/// Which slot of the superblock has which role. A slot is the root word and, next to it, the size in bytes of an inode
/// file: words 2 and 3, 4 and 5, or 6 and 7.
///
/// Seen by its roles, an image has the slot of its files at words 2 and 3, and that of its snapshot at words 4 and 5,
/// as version 3 has them under the magic number `BPFSRS3A`. Word 0 says which roles they are outside a transaction; no
/// word says whether a transaction is open. No program makes an image with the other magic number yet.
#[derive(Clone, Copy, Debug, PartialEq, Eq)]
pub enum Roles {
    /// Versions 1 and 2, and version 3 under the magic number `BPFSRS3A`: the files at words 2 and 3, the snapshot at
    /// words 4 and 5, the spare slot at words 6 and 7. Each word is seen where it is stored.
    OutsideA,
    /// Version 3 under the magic number `BPFSRS3B`: the files at words 6 and 7, the snapshot at words 4 and 5, the spare
    /// slot at words 2 and 3.
    OutsideB,
    /// In a transaction under `BPFSRS3A`: the tree of the transaction, in the spare slot, is seen as the files, and the
    /// files of the outside as the snapshot.
    InsideA,
    /// In a transaction under `BPFSRS3B`, likewise.
    InsideB,
}

impl Roles {
    /// Returns the magic number that word 0 has under these roles, and that is seen as `BPFSRS3A`.
    pub fn magic(self) -> u64
        ensures { result ≡ magic_of self }
    {
        match self {
            Roles::OutsideA | Roles::InsideA => Version::Three.magic(),
            Roles::OutsideB | Roles::InsideB => 0x4233_5352_5346_5042,
        }
    }

    /// Returns the roles outside a transaction under this magic number.
    pub fn of(magic: u64) -> Roles
        ensures { result ≡ roles_of magic }
    {
        if magic == Roles::OutsideB.magic() {
            Roles::OutsideB
        } else {
            Roles::OutsideA
        }
    }

    /// Returns the places where the first words are stored, in the order in which they are seen.
    pub(crate) fn stored_places(self) -> [u64; 8]
        ensures { result ≡ stored_places self }
    {
        match self {
            Roles::OutsideA => [0, 1, 2, 3, 4, 5, 6, 7],
            Roles::OutsideB => [0, 1, 6, 7, 4, 5, 2, 3],
            Roles::InsideA => [0, 1, 6, 7, 2, 3, 4, 5],
            Roles::InsideB => [0, 1, 2, 3, 6, 7, 4, 5],
        }
    }

    /// Returns the places at which the first words are seen, in the order in which they are stored.
    pub(crate) fn seen_places(self) -> [u64; 8]
        ensures { result ≡ seen_places self }
    {
        match self {
            Roles::OutsideA => [0, 1, 2, 3, 4, 5, 6, 7],
            Roles::OutsideB => [0, 1, 6, 7, 4, 5, 2, 3],
            Roles::InsideA => [0, 1, 4, 5, 6, 7, 2, 3],
            Roles::InsideB => [0, 1, 2, 3, 6, 7, 4, 5],
        }
    }

    /// Returns the place where the word that is seen at `word` is stored.
    pub fn stored_at(self, word: u64) -> u64
        ensures { result ≡ stored_at self word }
    {
        if word < HEAD_WORDS {
            self.stored_places()[word as usize]
        } else {
            word
        }
    }

    /// Returns the place at which the word that is stored at `word` is seen.
    pub fn seen_at(self, word: u64) -> u64
        ensures { result ≡ seen_at self word }
    {
        if word < HEAD_WORDS {
            self.seen_places()[word as usize]
        } else {
            word
        }
    }

    /// Returns the value that is seen at `word` for the stored `value`; and the value to store for one that is to be
    /// seen, since at word 0 the magic number of the roles and `BPFSRS3A` are exchanged.
    #[tactic(auto, unfolding(crate::specs::Roles::swapped))]
    pub fn swapped(self, word: u64, value: u64) -> u64
        ensures { result ≡ swapped self word value }
    {
        if word == SUPER_MAGIC {
            exchanged(self.magic(), Version::Three.magic(), value)
        } else {
            value
        }
    }

    /// Returns an event of the log as it is seen.
    pub fn seen_event(self, event: Event) -> Event
        ensures { result ≡ seen_event self event }
    {
        match event {
            Event::Store { word, value } => {
                let seen = self.seen_at(word);
                Event::Store {
                    word: seen,
                    value: self.swapped(seen, value),
                }
            }
            Event::Barrier => Event::Barrier,
            Event::CallEnd => Event::CallEnd,
        }
    }
}

/// Returns one of two values in place of the other, and any other value as it is.
#[inline(always)]
pub(crate) fn exchanged(one: u64, other: u64, value: u64) -> u64
    ensures { result ≡ exchanged one other value }
{
    if value == one {
        other
    } else if value == other {
        one
    } else {
        value
    }
}
