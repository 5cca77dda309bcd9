//! The positions of the events of one kind in a log.

ghost use Rattle.std.specs.Prelude.{◌≡◌, ◌<◌, ◌≤◌, ◌++◌, [], ◌∷◌, IfOk, length, slice_index};
ghost use Rattle.pm_raw.specs.Places.{count_below};

use std::alloc::{AllocError, Global};
use std::marker::Model;

/// Positions of events of one kind in a log, by their indices from 0, in order. Memory is allocated once.
#[derive(Drop)]
pub struct Places {
    places: Vec<usize>,
    room: usize,
}

impl Model for Places {
    ghost use Rattle.std.specs.Prelude.{◌≤◌, vec_capacity};
    ghost use Rattle.pm_raw.specs.Places.{Placed};

    ghost Value = { Placed };

    ghost view = { λ kept. record { items = kept.places.items; room = kept.room } };

    ghost invariant = { λ kept. kept.room ≤ vec_capacity kept.places };
}

impl Places {
    /// Makes an empty list with memory for `room` positions. No other call allocates.
    ///
    /// # Errors
    ///
    /// `AllocError`: out of memory.
    pub fn new(alloc: Global, room: usize) -> Result<Places, AllocError>
        ensures { IfOk result (λ places. places ≡ record { items = []; room = room }) }
    {
        let places = Vec::with_capacity(alloc, room)?;
        Ok(Places { places, room })
    }

    /// Returns the number of positions.
    pub fn len(&self) -> usize
        ensures { result ≡ length self.now.items }
    {
        self.places.len()
    }

    /// Returns position `i`, counted from 0.
    pub fn get(&self, i: usize) -> usize
        requires { i < length self.now.items }
        ensures { result ≡ slice_index self.now.items i }
    {
        self.places[i]
    }

    /// Returns how many positions are before the event with this index.
    pub fn before(&self, moment: usize) -> usize
        ensures { result ≡ count_below moment self.now.items }
    {
        count_of(&self.places, moment)
    }

    /// Removes all positions. The memory stays allocated.
    pub fn clear(&mut self)
        ensures { self.new ≡ record { items = []; room = self.old.room } }
    {
        self.places.clear();
    }

    /// Appends a position.
    pub fn push(&mut self, place: usize)
        requires { length self.old.items < self.old.room }
        ensures { self.new ≡ record { items = self.old.items ++ place ∷ []; room = self.old.room } }
    {
        self.places.push_reserved(place);
    }
}

/// Returns how many of these numbers are less than a bound.
fn count_of(places: &[usize], bound: usize) -> usize
    ensures { result ≡ count_below bound places.now }
{
    let mut count = 0;
    for place in places {
        if *place < bound {
            count += 1;
        }
    }
    count
}
