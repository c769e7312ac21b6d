//! Loops over the messages of a receiver: one that blocks the thread, and one that doesn't.
ghost use Rattle.std.specs.Prelude.{◌≡◌, ◌-◌, IfSome, IfNone};
ghost use Rattle.std.specs.Iterator.{at_most};
ghost use Rattle.std.specs.Sync.Forever.{forever_left};
ghost use Rattle.bcast_model.specs.declared.run.Call.TheVariants as call;
ghost use Rattle.bcast_model.specs.declared.run.Reply.TheVariants as reply;
ghost use Rattle.async_broadcast.specs.Ports.{as_try_recv};
ghost use Rattle.async_broadcast.specs.Timed.{as_received, IsNoEnd, EndsLoop};

use crate::port::Port;
use crate::receiver::Receiver;
use bcast_core::{RecvError, RecvResult, TryRecvError};
use std::alloc::{Allocator, Global};
use std::sync::{Forever, Wait};

/// The loop of `Receiver::iter`: each item is what `recv_blocking` returns, until that is `Closed`.
#[derive(Drop)]
pub struct Iter<'a, T: Clone, P: Port<T>, R: Wait, A: Allocator = Global> {
    receiver: &'a mut Receiver<T, P, A>,
    // Counts the turns of the loop, so that a proof about it has an end.
    turns: Forever<'a, R>,
}

impl<T: Clone, P: Port<T>, A: Allocator + Copy> Receiver<T, P, A> {
    /// Receives in a loop, and blocks the thread while there is no message and the channel is
    /// open.
    ///
    /// What is `for msg in receiver` for a receiver of std's or crossbeam's is
    /// `for received in receiver.iter(&rt)`. An item is a message, `Overflowed(n)`, or an
    /// `AllocError`, after which the loop may go on. `Closed` is no item: it ends the loop.
    ///
    /// ```rust
    /// let (sender, mut receiver) = broadcast(&rt, rt.alloc(), 2)?;
    /// assert!(rt; sender.try_broadcast(1).is_ok());
    /// assert!(rt; sender.try_broadcast(2).is_ok());
    /// drop(sender);
    /// let mut count = 0u64;
    /// for received in receiver.iter(&rt) {
    ///     count = count.wrapping_add(1);
    ///     assert!(rt; received? == Ok(count));
    /// }
    /// assert!(rt; count == 2);
    /// ```
    pub fn iter<'a, R: Wait>(&'a mut self, rt: &'a R) -> Iter<'a, T, P, R, A>
        ensures lent { result.receiver.now ≡ self.old }
        ensures same { result.receiver.ghost_name ≡ self.entry.ghost_name }
    {
        Iter {
            receiver: self,
            turns: rt.forever(),
        }
    }

    /// Receives in a loop what is there now, and never waits for a message.
    ///
    /// An item is a message, `Overflowed(n)`, or an `AllocError`, after which the loop may go on.
    /// `Empty` and `Closed` end it; while others send, it goes on. There are at most 2^64 - 1
    /// items, and a channel accepts no more messages than that.
    ///
    /// ```rust
    /// let (sender, mut receiver) = broadcast(&rt, rt.alloc(), 2)?;
    /// assert!(rt; sender.try_broadcast(1).is_ok());
    /// assert!(rt; sender.try_broadcast(2).is_ok());
    /// let mut count = 0u64;
    /// for received in receiver.try_iter() {
    ///     count = count.wrapping_add(1);
    ///     assert!(rt; received? == Ok(count));
    /// }
    /// assert!(rt; count == 2);
    /// assert!(rt; receiver.try_iter().next().is_none());
    /// ```
    pub fn try_iter(&mut self) -> TryIter<'_, T, P, A>
        ensures lent { result.receiver.now ≡ self.old }
        ensures same { result.receiver.ghost_name ≡ self.entry.ghost_name }
        ensures turns { result.turns ≡ u64.MAX }
    {
        TryIter {
            receiver: self,
            turns: u64::MAX,
        }
    }
}

impl<T: Clone, P: Port<T>, R: Wait, A: Allocator + Copy> Iterator for Iter<'_, T, P, R, A> {
    type Item = RecvResult<T, RecvError>;

    ghost next_gives = { λ old item new. (new.receiver.now ≡ old.receiver.now) × IfSome item IsNoEnd
        × P.gave old.receiver.now.port (call.TryRecv old.receiver.now.role.key)
        (reply.TryRecv (as_try_recv (as_received item))) };

    ghost remaining = { λ iter. at_most (forever_left iter.turns) };

    fn next(&mut self) -> Option<RecvResult<T, RecvError>> {
        self.turns.next();
        match self.receiver.recv_blocking() {
            Ok(Err(RecvError::Closed)) => None,
            received => Some(received),
        }
    }

    fn size_hint(&self) -> (usize, Option<usize>) {
        (0, None)
    }
}

/// The loop of `Receiver::try_iter`: each item is what `try_recv` returns, until that is `Empty` or
/// `Closed`. `next` may then be called again, and finds what came meanwhile.
#[derive(Drop)]
pub struct TryIter<'a, T: Clone, P: Port<T>, A: Allocator = Global> {
    receiver: &'a mut Receiver<T, P, A>,
    // How many turns of the loop are left, so that a proof about it has an end.
    turns: u64,
}

impl<T: Clone, P: Port<T>, A: Allocator + Copy> Iterator for TryIter<'_, T, P, A> {
    type Item = RecvResult<T, RecvError>;

    ghost next_gives = { λ old item new. (new.receiver.now ≡ old.receiver.now)
        × (new.turns ≡ old.turns - 1)
        × IfSome item (λ received. IsNoEnd received
        × P.gave old.receiver.now.port (call.TryRecv old.receiver.now.role.key)
        (reply.TryRecv (as_try_recv received)))
        × IfNone item (EndsLoop (λ found. P.gave old.receiver.now.port
        (call.TryRecv old.receiver.now.role.key) (reply.TryRecv found)) old.turns) };

    ghost remaining = { λ iter. at_most iter.turns };

    fn next(&mut self) -> Option<RecvResult<T, RecvError>> {
        self.turns = self.turns.checked_sub(1)?;
        match self.receiver.try_recv() {
            Ok(Ok(msg)) => Some(Ok(Ok(msg))),
            Ok(Err(TryRecvError::Overflowed(n))) => Some(Ok(Err(RecvError::Overflowed(n)))),
            Ok(Err(TryRecvError::Empty | TryRecvError::Closed)) => None,
            Err(error) => Some(Err(error)),
        }
    }

    fn size_hint(&self) -> (usize, Option<usize>) {
        (0, None)
    }
}
