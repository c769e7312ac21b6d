//! Counting steps, in a count that takes no bytes, or not at all.
ghost use Rattle.std.specs.Prelude.{◌≡◌, ◌+◌, ◌<◌, ◌≤◌, true};

use std::marker::Model;
use std::sync::ledger::{Blank, Book, Ledger, Share};

/// A counter that is called at each step, and may count it.
pub trait Counter {
    ghost use Rattle.std.specs.Prelude.{ℕ, Bool};

    // How many steps it has counted.
    ghost total: { Self → ℕ };

    // Whether it counts every step.
    ghost counts: { Bool };

    /// Counts one more step, or does nothing.
    fn count(&mut self)
        ensures most { total self.new ≤ total self.old + 1 }
        ensures exact { counts ≡ true → total self.new ≡ total self.old + 1 };
}

/// A count of steps that takes no bytes. A queue counts how many counts in its ring it reads or
/// changes, and a channel how often a receive looks for a message.
#[derive(Drop)]
pub struct Steps<L: Ledger> {
    book: Book<L>,
    share: Share<L>,
}

impl<L: Ledger> Model for Steps<L> {
    ghost use Rattle.std.specs.Prelude.{ℕ, ◌<◌};

    ghost Value = { ℕ };

    ghost view = { λ s. s.book.total };

    ghost invariant = { λ s. 0 < s.share.parts };
}

impl<L: Ledger> Steps<L> {
    /// A count of no steps.
    #[inline(always)]
    pub fn new(blank: Blank) -> Steps<L>
        requires name { blank.name ≡ L.name }
        requires parts { blank.parts ≡ L.parts }
        requires some { 0 < blank.parts }
        ensures { result ≡ 0 }
    {
        let (book, share) = blank.open::<L>();
        Steps { book, share }
    }
}

impl<L: Ledger> Counter for Steps<L> {
    ghost use Rattle.std.specs.Prelude.{true};

    ghost total = { λ steps. steps };

    ghost counts = { true };

    #[inline(always)]
    fn count(&mut self)
        ensures { self.new ≡ self.old + 1 }
    {
        self.book.add(&mut self.share, 1);
    }
}

/// A counter that counts no step.
#[derive(Drop)]
pub struct Uncounted;

impl Counter for Uncounted {
    ghost use Rattle.std.specs.Prelude.{false};

    ghost total = { λ _. 0 };

    ghost counts = { false };

    #[inline(always)]
    fn count(&mut self) {}
}
