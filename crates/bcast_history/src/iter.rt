//! Loops over the messages of a tracked receiver: one that blocks the thread, and one that doesn't.
ghost use Rattle.std.specs.Prelude.{◌≡◌, ◌-◌, IfSome, IfNone};
ghost use Rattle.std.specs.Iterator.{at_most};
ghost use Rattle.std.specs.Sync.Forever.{forever_left};
ghost use Rattle.async_broadcast.specs.Ports.{as_try_recv};
ghost use Rattle.async_broadcast.specs.Timed.{as_received, IsNoEnd, EndsLoop};
ghost use Rattle.bcast_history.specs.Makes.{ReceivesOnce};

use crate::port::HistoryPort;
use crate::receiver::TrackedReceiver;
use crate::tracker::Channel;
use async_broadcast::{RecvError, RecvResult, TryRecvError};
use std::sync::{Forever, Wait};

/// What a tracked receiver receives, for a loop that blocks the thread while there is no message:
/// as `Iter` of `async_broadcast`. Each item is what `recv_blocking` returns; at `Closed` it ends.
#[derive(Drop)]
pub struct TrackedIter<'a, T: Clone, P: HistoryPort<T, J>, J: Channel, R: Wait> {
    receiver: &'a mut TrackedReceiver<T, P, J>,
    // Counts the turns of the loop, so that a proof about it has an end.
    turns: Forever<'a, R>,
}

impl<T: Clone, P: HistoryPort<T, J>, J: Channel> TrackedReceiver<T, P, J> {
    /// Receives in a loop, and blocks the thread while there is no message and the channel is open:
    /// as `Receiver::iter`.
    pub fn iter<'a, R: Wait>(&'a mut self, rt: &'a R) -> TrackedIter<'a, T, P, J, R>
        ensures lent { result.receiver.now ≡ self.old }
        ensures same { result.receiver.ghost_name ≡ self.entry.ghost_name }
    {
        TrackedIter {
            receiver: self,
            turns: rt.forever(),
        }
    }

    /// Receives in a loop what is there now, and never waits for a message: as
    /// `Receiver::try_iter`.
    pub fn try_iter(&mut self) -> TrackedTryIter<'_, T, P, J>
        ensures lent { result.receiver.now ≡ self.old }
        ensures same { result.receiver.ghost_name ≡ self.entry.ghost_name }
        ensures turns { result.turns ≡ u64.MAX }
    {
        TrackedTryIter {
            receiver: self,
            turns: u64::MAX,
        }
    }
}

impl<T: Clone, P: HistoryPort<T, J>, J: Channel, R: Wait> Iterator for TrackedIter<'_, T, P, J, R> {
    type Item = RecvResult<T, RecvError>;

    ghost next_gives = { λ old item new. IfSome item IsNoEnd
        × ReceivesOnce P.learns T.is_clone J.opening old.receiver.now.tracker
        new.receiver.now.tracker (as_try_recv (as_received item)) };

    ghost remaining = { λ iter. at_most (forever_left iter.turns) };

    fn next(&mut self) -> Option<RecvResult<T, RecvError>> {
        self.turns.next();
        match self.receiver.recv_blocking() {
            Ok(Ok(msg)) => Some(Ok(Ok(msg))),
            Ok(Err(RecvError::Overflowed(n))) => Some(Ok(Err(RecvError::Overflowed(n)))),
            Ok(Err(RecvError::Closed)) => None,
            Err(error) => Some(Err(error)),
        }
    }

    fn size_hint(&self) -> (usize, Option<usize>) {
        (0, None)
    }
}

/// What a tracked receiver finds, for a loop that never waits for a message: as `TryIter` of
/// `async_broadcast`. Each item has the type that `recv_blocking` returns.
#[derive(Drop)]
pub struct TrackedTryIter<'a, T: Clone, P: HistoryPort<T, J>, J: Channel> {
    receiver: &'a mut TrackedReceiver<T, P, J>,
    // How many turns of the loop are left, so that a proof about it has an end.
    turns: u64,
}

impl<T: Clone, P: HistoryPort<T, J>, J: Channel> Iterator for TrackedTryIter<'_, T, P, J> {
    type Item = RecvResult<T, RecvError>;

    ghost next_gives = { λ old item new. (new.turns ≡ old.turns - 1)
        × IfSome item (λ received. IsNoEnd received × ReceivesOnce P.learns T.is_clone
        J.opening old.receiver.now.tracker new.receiver.now.tracker (as_try_recv received))
        × IfNone item (EndsLoop (ReceivesOnce P.learns T.is_clone J.opening
        old.receiver.now.tracker new.receiver.now.tracker) old.turns)
        × (old.turns ≡ 0 → new.receiver.now.tracker ≡ old.receiver.now.tracker) };

    ghost remaining = { λ iter. at_most iter.turns };

    fn next(&mut self) -> Option<RecvResult<T, RecvError>> {
        self.turns = self.turns.checked_sub(1)?;
        match self.receiver.try_recv() {
            Ok(Ok(msg)) => Some(Ok(Ok(msg))),
            Ok(Err(TryRecvError::Overflowed(n))) => Some(Ok(Err(RecvError::Overflowed(n)))),
            Ok(Err(TryRecvError::Empty | TryRecvError::Closed)) => None,
            Err(error) => Some(Err(error)),
        }
    }

    fn size_hint(&self) -> (usize, Option<usize>) {
        (0, None)
    }
}
