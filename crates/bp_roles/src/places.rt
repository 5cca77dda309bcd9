//! Roles with tables of their places.

ghost use Rattle.std.specs.Prelude.{◌≡◌};
ghost use Rattle.bp_roles.specs.Roles.{seen_at, stored_at, swapped};
ghost use Rattle.bp_roles.specs.Seen.{is_of_head, seen_event, seen_kind};

use crate::roles::{Roles, exchanged};
use bp_limits::{SUPER_MAGIC, Version};
use pm_epochs::{Event, EventKind};
use pm_region::HEAD_WORDS;
use std::marker::Model;

/// Roles, with tables of the places and with the magic number that they give, so that a load or a store does not
/// distinguish the roles. Contracts see the roles alone.
#[derive(Drop)]
pub(crate) struct Places {
    roles: Roles,
    /// The places where the first words are stored, in the order in which they are seen.
    stored: [u64; 8],
    /// The places at which the first words are seen, in the order in which they are stored.
    seen: [u64; 8],
    magic: u64,
}

impl Model for Places {
    ghost use Rattle.std.specs.Prelude.{◌≡◌};
    ghost use Rattle.bp_roles.specs.Roles.{magic_of, seen_places, stored_places};
    ghost use Rattle.bp_roles.specs.declared.roles.Roles.{Roles};

    ghost Value = { Roles };

    ghost view = { λ it. it.roles };

    ghost invariant = { λ it.
        (it.stored ≡ stored_places it.roles) × (it.seen ≡ seen_places it.roles) × (it.magic ≡ magic_of it.roles) };
}

impl Places {
    /// Returns these roles with their places and their magic number.
    pub(crate) fn of(roles: Roles) -> Places
        ensures { result ≡ roles }
    {
        Places {
            roles,
            stored: roles.stored_places(),
            seen: roles.seen_places(),
            magic: roles.magic(),
        }
    }

    /// Returns the roles.
    pub(crate) fn roles(&self) -> Roles
        ensures { result ≡ self.now }
    {
        self.roles
    }

    /// Returns the place where the word that is seen at `word` is stored.
    #[inline(always)]
    pub(crate) fn stored_at(&self, word: u64) -> u64
        ensures { result ≡ stored_at self.now word }
    {
        if word < HEAD_WORDS {
            self.stored[word as usize]
        } else {
            word
        }
    }

    /// Returns the place at which the word that is stored at `word` is seen.
    #[inline(always)]
    pub(crate) fn seen_at(&self, word: u64) -> u64
        ensures { result ≡ seen_at self.now word }
    {
        if word < HEAD_WORDS {
            self.seen[word as usize]
        } else {
            word
        }
    }

    /// Returns the value that is seen at `word` for the stored `value`, and the value to store for one that is to be
    /// seen, as `Roles::swapped` does.
    #[inline(always)]
    #[tactic(auto, unfolding(crate::specs::Roles::swapped))]
    pub(crate) fn swapped(&self, word: u64, value: u64) -> u64
        ensures { result ≡ swapped self.now word value }
    {
        if word == SUPER_MAGIC {
            exchanged(self.magic, Version::Three.magic(), value)
        } else {
            value
        }
    }

    /// Returns an event of the log as it is seen.
    pub(crate) fn seen_event(&self, event: Event) -> Event
        ensures { result ≡ seen_event self.now event }
    {
        self.roles.seen_event(event)
    }

    /// Returns the kind of an event of the log as it is seen.
    #[inline(always)]
    pub(crate) fn seen_kind(&self, kind: EventKind) -> EventKind
        ensures { result ≡ seen_kind self.now kind }
    {
        match kind {
            EventKind::Store(word) => EventKind::Store(self.seen_at(word)),
            EventKind::Barrier => EventKind::Barrier,
            EventKind::CallEnd => EventKind::CallEnd,
        }
    }
}

/// Returns whether an event of this kind is a store to one of the first words, which may be seen at another place than
/// the one where it is stored.
#[inline(always)]
pub(crate) fn is_of_head(kind: EventKind) -> bool
    ensures { result ≡ is_of_head kind }
{
    match kind {
        EventKind::Store(word) => word < HEAD_WORDS,
        EventKind::Barrier => false,
        EventKind::CallEnd => false,
    }
}
