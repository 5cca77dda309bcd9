//! A count of the steps of a call, at no cost.

ghost use Rattle.std.specs.Prelude.{◌≡◌, ℕ, ◌+◌, ◌<◌, ◌≤◌};

use std::marker::Model;
use std::sync::ledger::{Blank, Book, Ledger, Share};

/// The number of steps taken. It takes no bytes, and only [`Steps::tick`] changes it.
#[derive(Drop)]
pub struct Steps<L: Ledger> {
    book: Book<L>,
    share: Share<L>,
}

impl<L: Ledger> Model for Steps<L> {
    ghost use Rattle.std.specs.Prelude.{ℕ, ◌<◌};

    ghost Value = { ℕ };

    ghost view = { λ s. s.book.total };

    ghost invariant = { λ s. 0 < s.share.parts };
}

impl<L: Ledger> Steps<L> {
    /// Makes a count of no steps, in a new ledger.
    pub fn new(blank: Blank) -> Steps<L>
        requires name { blank.name ≡ L.name }
        requires parts { blank.parts ≡ L.parts }
        requires some { 0 < L.parts }
        ensures { result ≡ 0 }
    {
        let (book, share) = blank.open::<L>();
        Steps { book, share }
    }

    /// Counts one step.
    pub fn tick(&mut self)
        ensures { self.new ≡ self.old + 1 }
    {
        self.book.add(&mut self.share, 1);
    }
}

/// A counter of looks at words.
pub(crate) trait Looks {
    /// The number of looks so far, if they are counted, and otherwise 0.
    ghost taken: { Self → ℕ };

    /// Counts a look at a word.
    fn look(&mut self)
        ensures { taken self.new ≤ taken self.old + 1 };
}

impl<L: Ledger> Looks for Steps<L> {
    ghost taken = { λ s. s };

    fn look(&mut self) {
        self.tick();
    }
}

/// The counter of a call that counts no looks.
#[derive(Drop)]
pub(crate) struct Uncounted;

impl Looks for Uncounted {
    ghost taken = { λ s. 0 };

    fn look(&mut self) {}
}
