//! A region that is seen by roles.

ghost use Rattle.std.specs.Prelude.{◌≡◌, ◌<◌, [], ◌∷◌, length, slice_index};
ghost use Rattle.bp_layout.specs.Words.{word};
ghost use Rattle.bp_limits.specs.Limits.{super_magic};
ghost use Rattle.bp_roles.specs.Mounted.{roles_of};
ghost use Rattle.bp_roles.specs.Seen.{head_words, seen, seen_memory};
ghost use Rattle.pm_epochs.specs.declared.event.Event.TheVariants.{Store};
ghost use Rattle.pm_region.specs.Memory.{Adds, current_words, room_in};

use crate::places::{Places, is_of_head};
use crate::roles::Roles;
use bp_limits::SUPER_MAGIC;
use pm_epochs::{BadChoice, Choice, Event, EventKind, Kept};
use pm_region::{HEAD_WORDS, Region, Row};
use std::marker::Model;

/// A region seen by roles. Its calls read and change the slots that have the roles of the files and of the snapshot, in
/// the places where versions 2 and 3 have these slots. All other words are those of the region below.
#[derive(Drop)]
pub struct RegionByRoles<R: Region> {
    region: R,
    places: Places,
    /// The first words as they are seen now, so that a load of one of them needs no place.
    head: [u64; 8],
}

impl<R: Region> Model for RegionByRoles<R> {
    ghost use Rattle.std.specs.Prelude.{◌≡◌};
    ghost use Rattle.bp_roles.specs.Seen.{IsWide, MemoryByRoles, head_words, seen_memory};

    ghost Value = { MemoryByRoles };

    ghost view = { λ it. record { roles = it.places; memory = R.memory it.region } };

    ghost invariant = { λ it.
        IsWide (R.memory it.region) × (it.head ≡ head_words (seen_memory it.places (R.memory it.region))) };
}

impl<R: Region> RegionByRoles<R> {
    ghost use Rattle.bp_roles.specs.Seen.{IsWide};

    /// Returns a region of at least 8 words as these roles show it. The roles are not compared with its word 0.
    pub fn new(region: R, roles: Roles) -> RegionByRoles<R>
        requires { IsWide (R.memory region) }
        ensures { result ≡ record { roles = roles; memory = R.memory region } }
    {
        let places = Places::of(roles);
        let head = RegionByRoles::head_of(&region, &places);
        RegionByRoles {
            region,
            places,
            head,
        }
    }

    /// Returns a region of at least 8 words as a mount sees it: by the roles that its magic number gives.
    pub fn by_magic(region: R) -> RegionByRoles<R>
        requires { IsWide (R.memory region) }
        ensures { result ≡ record {
          roles = roles_of (word (current_words (R.memory region)) super_magic);
          memory = R.memory region;
        } }
    {
        let roles = Roles::of(region.load(SUPER_MAGIC));
        RegionByRoles::new(region, roles)
    }

    /// Returns the roles by which the region is seen.
    pub fn roles(&self) -> Roles
        ensures { result ≡ self.now.roles }
    {
        self.places.roles()
    }

    /// Sets the roles by which the region is seen from now on. Nothing is stored.
    pub fn set_roles(&mut self, roles: Roles)
        ensures { self.new ≡ record self.old { roles = roles } }
    {
        self.places = Places::of(roles);
        self.head = RegionByRoles::head_of(&self.region, &self.places);
    }

    /// Returns the region below, with its words and its log as they are stored.
    pub fn region(&self) -> &R
        ensures { R.memory result.now ≡ self.now.memory }
    {
        &self.region
    }

    /// Returns the region below and ends the view.
    pub fn into_region(self) -> R
        ensures { R.memory result ≡ self.memory }
    {
        self.region
    }

    /// Returns the first words of a region as they are seen.
    fn head_of(region: &R, places: &Places) -> [u64; 8]
        requires { IsWide (R.memory region.now) }
        ensures { result ≡ head_words (seen_memory places.now (R.memory region.now)) }
    {
        let mut head = [0; 8];
        for word in 0..HEAD_WORDS {
            head[word as usize] = places.swapped(word, region.load(places.stored_at(word)));
        }
        head
    }

    /// Sets one of the first words.
    #[inline(always)]
    fn store_head(&mut self, word: u64, value: u64)
        requires of_head { word < HEAD_WORDS }
        requires in_range { word < length (seen self.old).base }
        requires room { 0 < room_in (seen self.old) }
        ensures { Adds (seen self.old) (seen self.new) (Store word value ∷ []) }
    {
        self.region.store(
            self.places.stored_at(word),
            self.places.swapped(word, value),
        );
        self.head[word as usize] = value;
    }
}

impl<R: Region> Region for RegionByRoles<R> {
    ghost memory = { seen };

    fn words(&self) -> u64 {
        self.region.words()
    }

    #[inline(always)]
    fn load(&self, word: u64) -> u64 {
        if word < HEAD_WORDS {
            self.head[word as usize]
        } else {
            self.region.load_past_head(word)
        }
    }

    #[inline(always)]
    fn load_words(&self, first: u64, count: usize) -> &[u64] {
        self.region.load_words(first, count)
    }

    #[inline(always)]
    fn load_past_head(&self, word: u64) -> u64 {
        self.region.load_past_head(word)
    }

    #[inline(always)]
    fn store(&mut self, word: u64, value: u64) {
        if word < HEAD_WORDS {
            self.store_head(word, value);
        } else {
            self.region.store(word, value);
        }
    }

    #[inline(always)]
    fn store_past_head(&mut self, word: u64, value: u64) {
        self.region.store_past_head(word, value);
    }

    #[inline(always)]
    fn store_words(&mut self, first: u64, values: &[u64]) {
        self.region.store_words(first, values);
    }

    fn barrier(&mut self) {
        self.region.barrier();
    }

    fn end_call(&mut self) {
        self.region.end_call();
    }

    fn drain(&mut self) {
        self.region.drain();
    }

    fn room(&self) -> usize {
        self.region.room()
    }

    fn event_count(&self) -> usize {
        self.region.event_count()
    }

    fn kind(&self, i: usize) -> EventKind {
        self.places.seen_kind(self.region.kind(i))
    }

    fn word_at(&self, moment: usize, word: u64) -> u64 {
        self.places.swapped(
            word,
            self.region.word_at(moment, self.places.stored_at(word)),
        )
    }

    fn event(&self, i: usize) -> Event {
        self.places.seen_event(self.region.event(i))
    }

    /// Returns one event for a store to the first words, since the next store may be seen at another place than next to
    /// it.
    fn row(&self, first: usize) -> Row {
        let Row { kind, len } = self.region.row(first);
        Row {
            kind: self.places.seen_kind(kind),
            len: if is_of_head(kind) { 1 } else { len },
        }
    }

    fn barriers_before(&self, moment: usize) -> usize {
        self.region.barriers_before(moment)
    }

    fn start_of_epoch(&self, epoch: usize) -> usize {
        self.region.start_of_epoch(epoch)
    }

    fn base_word(&self, word: u64) -> u64 {
        self.places
            .swapped(word, self.region.base_word(self.places.stored_at(word)))
    }

    fn crash_to(&mut self, choice: &Choice) -> Result<Kept, BadChoice> {
        let kept = self.region.crash_to(choice)?;
        self.head = RegionByRoles::head_of(&self.region, &self.places);
        Ok(kept)
    }
}
