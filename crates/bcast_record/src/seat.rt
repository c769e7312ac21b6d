//! The seats of a recorder, which count their calls.
ghost use Rattle.std.specs.Prelude.{◌≡◌, ◌+◌, ◌<◌, ◌≤◌, ◌^◌, IfOk, vec_len, sum_by};
ghost use Rattle.bcast_record.specs.Seats.{new_seats};

use std::alloc::{AllocError, Allocator};
use std::marker::Model;
use std::sync::ledger::{Book, Ledger, Share};

/// A caller's seat at a recorder. It makes calls, and counts those that were answered.
///
/// It can't be cloned or copied. A contract sees its number and its count.
#[derive(Drop)]
pub struct Seat<R: Ledger> {
    number: usize,
    count: usize,
    // One part of the recorder's ledger of calls, with the count for its amount.
    share: Share<R>,
}

impl<R: Ledger> Model for Seat<R> {
    ghost use Rattle.std.specs.Prelude.{◌≡◌};
    ghost use Rattle.bcast_record.specs.Seats.{Seated};

    ghost Value = { Seated };

    ghost view = { λ s. record { number = s.number; count = s.count } };

    ghost invariant = { λ s. (s.share.parts ≡ 1) × (s.share.amount ≡ s.count) };
}

impl<R: Ledger> Seat<R> {
    /// The seat's number, from 0.
    pub fn number(&self) -> usize
        ensures { result ≡ self.now.number }
    {
        self.number
    }

    /// How many calls of the seat were answered.
    pub fn count(&self) -> usize
        ensures { result ≡ self.now.count }
    {
        self.count
    }

    // Counts one more call, in the ledger too.
    pub(crate) fn add_call(&mut self, calls: &mut Book<R>)
        requires { calls.old.total + 1 < 2 ^ 64 }
        ensures seat { self.new ≡ record { number = self.old.number; count = self.old.count + 1 } }
        ensures calls { calls.new.total ≡ calls.old.total + 1 }
    {
        calls.audit(&mut self.share);
        calls.add(&mut self.share, 1);
        self.count += 1;
    }
}

// Seats with a part each. One part is left.
pub(crate) fn make_seats<R: Ledger, A: Allocator>(
    alloc: A,
    rest: &mut Share<R>,
    seats: usize,
) -> Result<Vec<Seat<R>, A>, AllocError>
    requires { (rest.old.parts ≡ seats + 1) × (rest.old.amount ≡ 0) }
    ensures rest { rest.new.amount ≡ 0 }
    ensures left { IfOk result (λ made. rest.new.parts ≡ 1) }
    ensures made { IfOk result (λ made. (made.items ≡ new_seats seats) × (vec_len made ≡ seats)) }
{
    let mut made = Vec::new(alloc);
    for number in 0..seats {
        made.push(Seat {
            number,
            count: 0,
            share: rest.split_off(1, 0),
        })?;
    }
    Ok(made)
}

// The parts of all these seats and one more part, with all their calls.
pub(crate) fn gather<R: Ledger, A: Allocator>(rest: Share<R>, seats: Vec<Seat<R>, A>) -> Share<R>
    requires { (rest.parts ≡ 1) × (rest.amount ≡ 0) }
    ensures parts { result.parts ≡ vec_len seats + 1 }
    ensures apart { result.parts ≤ R.parts }
    ensures amount { result.amount ≡ sum_by (λ s. s.count) seats.items }
{
    let mut all = rest;
    let none = all.empty();
    all.merge(none);
    for seat in seats {
        let Seat { share, .. } = seat;
        all.merge(share);
    }
    all
}
