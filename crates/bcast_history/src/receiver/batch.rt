//! Receiving several messages at once.
ghost use Rattle.std.specs.Prelude.{◌≡◌, ◌<◌, ◌≤◌, vec_len, vec_capacity};
ghost use Rattle.std.specs.Prelude.{IfOk, IfSome, IfNone, OnErr};
ghost use Rattle.futures.specs.Task.{IsArmed, Keeps};
ghost use Rattle.futures.specs.Poll.{OnPending};
ghost use Rattle.async_broadcast.specs.Ports.{as_try_recv};
ghost use Rattle.async_broadcast.specs.Timed.{as_timed_try};
ghost use Rattle.bcast_history.specs.Batch.{TakesInto, TakesMany};
ghost use Rattle.bcast_history.specs.Makes.{MakesReceives, ReceivesOnce};
ghost use Rattle.bcast_history.specs.Reader.{Takes, as_found};

use super::TrackedReceiver;
use crate::port::{HistoryPort, TimedHistoryPort};
use crate::tracker::{Channel, ReceiverTracker, Tracker};
use async_broadcast::{RecvResult, RecvTimeoutError, put_last};
use bcast_core::{RecvError, TryRecvError};
use futures::task::{Context, Poll};
use std::alloc::{AllocError, Allocator};
use std::time::Duration;

impl<T: Clone, P: HistoryPort<T, J>, J: Channel> TrackedReceiver<T, P, J> {
    /// Receives the messages that are there, at most `limit`, puts them last into `msgs`, and
    /// returns how many they are: as `Receiver::try_recv_many`, with its errors. Each is a step.
    pub fn try_recv_many<B: Allocator>(
        &mut self,
        limit: usize,
        msgs: &mut Vec<T, B>,
    ) -> RecvResult<usize, TryRecvError>
        ensures only { MakesReceives P.learns self.old.tracker self.new.tracker }
        ensures takes { TakesMany T.is_clone J.opening (ReceivesOnce P.learns T.is_clone J.opening)
            (λ tried. tried) limit self.old.tracker msgs.old.items
            result msgs.new.items self.new.tracker }
    {
        match self.receive_kept(limit, msgs)? {
            Some(count) => Ok(Ok(count)),
            None => put_last(self.try_recv(), msgs),
        }
    }

    /// Receives the messages that are there. If there are none, it blocks the thread until there is
    /// one, or the channel is closed: as `Receiver::recv_many_blocking`, with its errors. Each try
    /// is a step.
    pub fn recv_many_blocking<B: Allocator>(
        &mut self,
        limit: usize,
        msgs: &mut Vec<T, B>,
    ) -> RecvResult<usize, RecvError>
        ensures only { MakesReceives P.learns self.old.tracker self.new.tracker }
        ensures takes { TakesMany T.is_clone J.opening (ReceivesOnce P.learns T.is_clone J.opening)
            as_try_recv limit self.old.tracker msgs.old.items
            result msgs.new.items self.new.tracker }
    {
        match self.receive_kept(limit, msgs)? {
            Some(count) => Ok(Ok(count)),
            None => put_last(self.recv_blocking(), msgs),
        }
    }

    /// Receives the messages that are there, or leaves the task waiting for one: as
    /// `Receiver::poll_recv_many`, with its errors. Each is a step.
    pub fn poll_recv_many<B: Allocator>(
        &mut self,
        cx: &mut Context<'_>,
        limit: usize,
        msgs: &mut Vec<T, B>,
    ) -> Result<Poll<Option<Result<usize, RecvError>>>, AllocError>
        ensures only { MakesReceives P.learns self.old.tracker self.new.tracker }
        ensures takes { TakesMany T.is_clone J.opening (Takes T.is_clone J.opening)
            (λ tried. tried) limit self.old.tracker msgs.old.items
            (as_found result) msgs.new.items self.new.tracker }
        ensures registered { IfOk result (λ poll. OnPending poll (IsArmed cx.new)) }
        ensures kept { Keeps cx.old cx.new }
    {
        if let Some(count) = self.receive_kept(limit, msgs)? {
            return Ok(Poll::Ready(Some(Ok(count))));
        }
        match self.poll_recv(cx)? {
            Poll::Ready(Some(Ok(msg))) => {
                msgs.push_reserved(msg);
                Ok(Poll::Ready(Some(Ok(1))))
            }
            Poll::Ready(Some(Err(error))) => Ok(Poll::Ready(Some(Err(error)))),
            Poll::Ready(None) => Ok(Poll::Ready(None)),
            Poll::Pending => Ok(Poll::Pending),
        }
    }

    // Receives the messages that are there, at most `limit`, and returns how many they are. `None`:
    // there are none, and `msgs` has room for one.
    fn receive_kept<B: Allocator>(
        &mut self,
        limit: usize,
        msgs: &mut Vec<T, B>,
    ) -> Result<Option<usize>, AllocError>
        ensures only { MakesReceives P.learns self.old.tracker self.new.tracker }
        ensures some { IfOk result (λ kept. IfSome kept (λ count. (count ≤ limit)
            × (0 < limit → 0 < count) × TakesInto T.is_clone J.opening self.old.tracker
            msgs.old.items count msgs.new.items self.new.tracker)) }
        ensures none { IfOk result (λ kept. IfNone kept ((0 < limit)
            × (self.new.tracker ≡ self.old.tracker) × (msgs.new.items ≡ msgs.old.items)
            × (vec_len msgs.new < vec_capacity msgs.new))) }
        ensures err { OnErr result ((self.new.tracker ≡ self.old.tracker)
            × (msgs.new.items ≡ msgs.old.items)) }
    {
        let ReceiverTracker { inner } = &mut self.tracker;
        let Tracker { caller } = inner;
        let key = caller.key();
        let count = self.port.receive_many(caller, key, limit, msgs);
        if count > 0 || limit == 0 {
            return Ok(Some(count));
        }
        msgs.reserve(1)?;
        Ok(None)
    }
}

impl<T: Clone, P: TimedHistoryPort<T, J>, J: Channel> TrackedReceiver<T, P, J> {
    /// Receives the messages that are there, as `recv_many_blocking` does, and gives up once `time`
    /// has passed and there is none: as `Receiver::recv_many_timeout`, with its errors.
    pub fn recv_many_timeout<B: Allocator>(
        &mut self,
        limit: usize,
        msgs: &mut Vec<T, B>,
        time: Duration,
    ) -> RecvResult<usize, RecvTimeoutError>
        ensures only { MakesReceives P.learns self.old.tracker self.new.tracker }
        ensures takes { TakesMany T.is_clone J.opening (ReceivesOnce P.learns T.is_clone J.opening)
            as_timed_try limit self.old.tracker msgs.old.items
            result msgs.new.items self.new.tracker }
    {
        match self.receive_kept(limit, msgs)? {
            Some(count) => Ok(Ok(count)),
            None => put_last(self.recv_timeout(time), msgs),
        }
    }
}
