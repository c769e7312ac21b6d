//! A small number for each id, under which a list keeps the position of the id's listener.
ghost use Rattle.std.specs.Prelude.{◌≡◌, ℕ, ◌-◌, ◌^◌, ◌==◌, min, refl};
ghost use Rattle.bcast_model.specs.Words.{IsTest};

use bcast_model::listener::Kind;

/// An id that has a number of its own.
///
/// A list has one entry for each number below its room, so ids that are in use together should
/// have small numbers.
pub trait Indexed: Eq {
    ghost number: { Self → ℕ };

    /// The number of the id, or the greatest `usize`, which is below no room, if it doesn't fit.
    fn index(self) -> usize
        ensures { result ≡ min (number self) (2 ^ 64 - 1) };

    ghost own: { (x y : Self) → Self.eq x y ≡ (number x == number y) };

    // `==` holds of an id and itself alone.
    ghost test: { IsTest Self.eq };
}

impl Indexed for usize {
    ghost use Rattle.bcast_waiting.specs.Words.{test_place};

    ghost number = { λ place. place };

    ghost own = { λ x y. refl };

    ghost test = { test_place };

    fn index(self) -> usize {
        self
    }
}

// A receiver's key has two numbers, one for each kind.
impl Indexed for (usize, Kind) {
    ghost use Rattle.bcast_waiting.specs.Words.{pair_number, pair_number-own, test_pair};

    ghost number = { pair_number };

    ghost own = { pair_number-own };

    ghost test = { test_pair };

    fn index(self) -> usize {
        let kind = match self.1 {
            Kind::Stream => 0,
            Kind::Future => 1,
        };
        self.0.saturating_mul(2).saturating_add(kind)
    }
}
