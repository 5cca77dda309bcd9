//! Crash points: which stores of a log survive.

ghost use Rattle.std.specs.Prelude.{◌≡◌, ◌<◌, [], ◌∷◌, ◌++◌, IfOk, length};

use std::alloc::{AllocError, Global};
use std::marker::Model;

/// Error: the crash point is not valid for the log. `moment` is past the end of the log, the log has fewer barriers
/// before `moment` than `epoch`, or the mask is longer than the number of the epoch's stores before `moment`.
#[derive(Clone, Copy, Debug, PartialEq, Eq)]
pub struct BadChoice;

/// A crash point of a log. `moment` is the number of events executed, `epoch` the epoch that was being written back
/// (the epoch of an event is the number of barriers before it), and `mask` says of each store of that epoch, in order,
/// whether it was written back. Stores past the end of the mask are lost. Stores of earlier epochs survive, those of
/// later ones are lost.
#[derive(Drop)]
pub struct Choice {
    moment: usize,
    epoch: usize,
    mask: Vec<bool>,
    room: usize,
}

impl Model for Choice {
    ghost use Rattle.std.specs.Prelude.{◌≤◌, vec_capacity};
    ghost use Rattle.pm_epochs.specs.Replay.{Chosen};

    ghost Value = { Chosen };

    ghost view = { λ c. record {
      cut = record { moment = c.moment; epoch = c.epoch; mask = c.mask.items };
      room = c.room;
    } };

    ghost invariant = { λ c. c.room ≤ vec_capacity c.mask };
}

impl Choice {
    /// Makes a crash point that keeps nothing, with memory for a mask of `room` positions.
    ///
    /// # Errors
    ///
    /// `AllocError`: out of memory.
    pub fn new(alloc: Global, room: usize) -> Result<Choice, AllocError>
        ensures { IfOk result (λ choice. choice ≡ record {
          cut = record { moment = 0; epoch = 0; mask = [] };
          room = room;
        }) }
    {
        let mask = Vec::with_capacity(alloc, room)?;
        Ok(Choice {
            moment: 0,
            epoch: 0,
            mask,
            room,
        })
    }

    /// Returns the number of positions for which the mask has memory.
    pub fn room(&self) -> usize
        ensures { result ≡ self.now.room }
    {
        self.room
    }

    /// Returns the number of events executed before the crash.
    pub fn moment(&self) -> usize
        ensures { result ≡ self.now.cut.moment }
    {
        self.moment
    }

    /// Returns the epoch that was being written back.
    pub fn epoch(&self) -> usize
        ensures { result ≡ self.now.cut.epoch }
    {
        self.epoch
    }

    /// Returns which stores of that epoch survive, in order.
    pub fn mask(&self) -> &[bool]
        ensures { result.now ≡ self.now.cut.mask }
    {
        &self.mask
    }

    /// Starts again at this event count and epoch, with an empty mask.
    pub fn start(&mut self, moment: usize, epoch: usize)
        ensures { self.new ≡ record {
          cut = record { moment = moment; epoch = epoch; mask = [] };
          room = self.old.room;
        } }
    {
        self.moment = moment;
        self.epoch = epoch;
        self.mask.clear();
    }

    /// Appends to the mask whether the next store of the epoch survives. Allocates nothing.
    pub fn push(&mut self, keep: bool)
        requires { length self.old.cut.mask < self.old.room }
        ensures { self.new ≡ record {
          cut = record self.old.cut { mask = self.old.cut.mask ++ keep ∷ [] };
          room = self.old.room;
        } }
    {
        let _ = self.mask.push(keep);
    }
}
