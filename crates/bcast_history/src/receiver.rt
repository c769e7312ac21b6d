//! The receiving side.
ghost use Rattle.std.specs.Prelude.{◌≡◌, ◌⊎◌, ◌-◌, ℕ, min, true, Some, Ok, Err, IfOk, IfErr, OnErr};
ghost use Rattle.futures.specs.Task.{IsArmed, Keeps};
ghost use Rattle.futures.specs.Poll.{OnPending};
ghost use Rattle.bcast_model.specs.Words.{cursor_of};
ghost use Rattle.async_broadcast.specs.Ports.{as_try_recv};
ghost use Rattle.async_broadcast.specs.Timed.{as_timed_try};
ghost use Rattle.bcast_history.specs.History.{IsLawful, end_of};
ghost use Rattle.bcast_history.specs.Makes.{MakesCall, MakesLast, MakesNone};
ghost use Rattle.bcast_history.specs.Makes.{MakesReceives, PollsOnce, ReceivesOnce};
ghost use Rattle.bcast_history.specs.Reader.{IsShared, StaysAt, TakesNext};
ghost use Rattle.bcast_history.specs.Tracker.{IsReceiver, count_behind, number};

use crate::inactive::TrackedInactiveReceiver;
use crate::port::{HistoryPort, TimedHistoryPort};
use crate::tracker::{Channel, ReceiverTracker, Seen, Tracker};
use async_broadcast::{RecvResult, RecvTimeoutError, TaskWaker};
use bcast_core::{
    AddHandle, AddReceiver, Call, Change, Close, Count, HandleError, PollRecv, RecvError, Reply,
    TryRecv, TryRecvError,
};
use futures::task::{Context, Poll};
use std::alloc::AllocError;
use std::sync::Wait;
use std::time::Duration;

mod batch;

/// Receives each message that a channel with a history accepts, from the receiver's start on, or
/// the number of messages that it missed, as `Receiver` of `async_broadcast` does. It promises that
/// none is left out and none comes twice.
///
/// Contracts name its `tracker`: the receiver's key, the number of the message that it reads next,
/// and the steps that it knows, a beginning of those on the channel. Each receive says what the
/// receiver takes (`Takes`). The drop is a step, too.
pub struct TrackedReceiver<T: Clone, P: HistoryPort<T, J>, J: Channel> {
    port: P,
    tracker: ReceiverTracker<T, J>,
    // For the task that polls the receiver.
    waker: TaskWaker,
}

impl<T: Clone, P: HistoryPort<T, J>, J: Channel> TrackedReceiver<T, P, J> {
    /// A receiver that makes its calls through this port. Makes no call.
    pub(crate) fn new(port: P, tracker: Tracker<T, J>) -> Self
        requires { IsReceiver tracker }
        ensures { result.tracker ≡ tracker }
    {
        TrackedReceiver {
            port,
            tracker: ReceiverTracker { inner: tracker },
            waker: TaskWaker::new(),
        }
    }

    /// What the receiver knows, for other callers.
    pub fn seen(&self) -> Seen<T, J>
        ensures { result ≡ self.now.tracker.steps }
    {
        self.tracker.inner.caller.seen()
    }

    /// Proves that what the receiver knows is a run of the channel, of which all laws speak, and
    /// that it reads on there. Does nothing.
    pub fn invariant_holds(&self)
        ensures lawful { IsLawful T.is_clone J.opening self.now.tracker.steps }
        ensures there { cursor_of (end_of J.opening self.now.tracker.steps).control
            self.now.tracker.key ≡ self.now.tracker.next }
        ensures reads { IsReceiver self.now.tracker }
    {
        let ReceiverTracker { inner } = &self.tracker;
        inner.invariant_holds();
    }

    /// Receives the next message, if there is one: as `Receiver::try_recv`, with its errors.
    #[inline(always)]
    pub fn try_recv(&mut self) -> RecvResult<T, TryRecvError>
        ensures { ReceivesOnce P.learns T.is_clone J.opening
            self.old.tracker self.new.tracker result }
    {
        let ReceiverTracker { inner } = &mut self.tracker;
        let key = inner.key();
        inner.ask(&self.port, TryRecv(key))
    }

    /// Receives the next message, and blocks the thread while there is none and the channel is
    /// open: as `Receiver::recv_blocking`, with its errors. Each try is a step.
    pub fn recv_blocking(&mut self) -> RecvResult<T, RecvError>
        ensures { ReceivesOnce P.learns T.is_clone J.opening
            self.old.tracker self.new.tracker (as_try_recv result) }
    {
        let ReceiverTracker { inner } = &mut self.tracker;
        let Tracker { caller } = inner;
        let key = caller.key();
        self.port.receive_waiting(caller, key)
    }

    /// Receives the next message, or leaves the task waiting for it: as `Receiver::poll_recv`,
    /// with its errors.
    pub fn poll_recv(
        &mut self,
        cx: &mut Context<'_>,
    ) -> Result<Poll<Option<Result<T, RecvError>>>, AllocError>
        ensures polled { IfOk result (λ poll. PollsOnce P.learns T.is_clone J.opening
            self.old.tracker self.new.tracker (Ok poll)) }
        ensures refused { IfErr result (λ error. ((self.new.tracker ≡ self.old.tracker)
            × (self.new.waker.is_refused ≡ true)) ⊎ PollsOnce P.learns T.is_clone J.opening
            self.old.tracker self.new.tracker (Err error)) }
        ensures registered { IfOk result (λ poll. OnPending poll (IsArmed cx.new)) }
        ensures kept { Keeps cx.old cx.new }
    {
        let ReceiverTracker { inner } = &mut self.tracker;
        let Tracker { caller } = inner;
        let key = caller.key();
        match self.port.poll(caller, PollRecv(key), &mut self.waker, cx) {
            Ok(polled) => polled,
            Err(_) => Err(AllocError),
        }
    }

    /// Receives the next message that is kept for the receiver, or leaves the task waiting for it,
    /// as the stream of a `Receiver` does: what it missed is skipped.
    ///
    /// `Ready(None)`: every message was read, and the channel is closed.
    ///
    /// # Errors
    ///
    /// - `AllocError`: no memory for a notice, or for a clone of a message that others have still
    ///   to read. What was skipped till then stays skipped.
    pub fn poll_next(
        &mut self,
        rt: &impl Wait,
        cx: &mut Context<'_>,
    ) -> Result<Poll<Option<T>>, AllocError>
        ensures only { MakesReceives P.learns self.old.tracker self.new.tracker }
        ensures takes { TakesNext T.is_clone J.opening self.old.tracker self.new.tracker result }
        ensures refused { OnErr result ((self.new.waker.is_refused ≡ true)
            ⊎ IsShared (end_of J.opening self.new.tracker.steps)
            self.new.tracker.key (number self.new.tracker.next)) }
        ensures registered { IfOk result (λ poll. OnPending poll (IsArmed cx.new)) }
        ensures kept { Keeps cx.old cx.new }
    {
        for _ in rt.forever() {
            match self.poll_recv(cx)? {
                Poll::Ready(Some(Ok(msg))) => return Ok(Poll::Ready(Some(msg))),
                Poll::Ready(Some(Err(RecvError::Overflowed(_)))) => {}
                Poll::Ready(Some(Err(RecvError::Closed))) => return Ok(Poll::Ready(None)),
                Poll::Ready(None) => return Ok(Poll::Ready(None)),
                Poll::Pending => return Ok(Poll::Pending),
            }
        }
        unreachable!()
    }

    /// Makes another receiver, which has the same messages still to read: as `Receiver::clone`,
    /// with its errors.
    pub fn clone(&mut self) -> Result<Self, HandleError>
        ensures same { StaysAt self.old.tracker self.new.tracker }
        ensures made { IfOk result (λ made. (made.tracker.steps ≡ self.new.tracker.steps)
            × MakesCall P.learns T.is_clone J.opening self.old.tracker
            (Call.CloneReceiver self.old.tracker.key) (Reply.CloneReceiver (Ok made.tracker.key))
            self.new.tracker) }
        ensures starts { IfOk result (λ made. made.tracker.next ≡ self.old.tracker.next) }
        ensures refused { IfErr result (λ error. MakesNone P.learns T.is_clone J.opening
            (Call.CloneReceiver self.old.tracker.key) Reply.CloneReceiver
            self.old.tracker error self.new.tracker) }
    {
        let port = self.port.try_clone().ok_or(HandleError::Memory)?;
        let ReceiverTracker { inner } = &mut self.tracker;
        let call = AddReceiver::Clone(inner.key());
        let tracker = inner.add_receiver(&self.port, call)?;
        Ok(TrackedReceiver::new(port, tracker))
    }

    /// Turns the receiver into an inactive one: as `Receiver::deactivate`.
    ///
    /// # Errors
    ///
    /// Each hands the receiver back as it was, but for what it knows.
    ///
    /// - `TooMany`: the channel can't count one more inactive receiver.
    pub fn deactivate(self) -> Result<TrackedInactiveReceiver<T, P, J>, (Self, HandleError)>
        ensures made { IfOk result (λ made. MakesCall P.learns T.is_clone J.opening
            self.tracker (Call.Deactivate self.tracker.key) (Reply.Deactivate (Ok tt))
            made.tracker) }
        ensures refused { IfErr result (λ back. StaysAt self.tracker back.0.tracker
            × MakesCall P.learns T.is_clone J.opening self.tracker
            (Call.Deactivate self.tracker.key) (Reply.Deactivate (Err back.1)) back.0.tracker) }
    {
        let TrackedReceiver {
            port,
            tracker,
            waker: _,
        } = self;
        let ReceiverTracker { mut inner } = tracker;
        let call = AddHandle::Deactivated(inner.key());
        match inner.ask(&port, call) {
            Ok(()) => Ok(TrackedInactiveReceiver {
                port,
                tracker: inner,
            }),
            Err(error) => Err((TrackedReceiver::new(port, inner), error)),
        }
    }

    /// Closes the channel, and returns whether it was open: as `close` of any handle.
    pub fn close(&mut self) -> bool
        ensures same { StaysAt self.old.tracker self.new.tracker }
        ensures made { MakesCall P.learns T.is_clone J.opening self.old.tracker
            Call.Close (Reply.Close result) self.new.tracker }
        ensures closed { (end_of J.opening self.new.tracker.steps).control.closed ≡ true }
    {
        let ReceiverTracker { inner } = &mut self.tracker;
        inner.ask(&self.port, Close)
    }

    /// How many of the messages that the channel keeps this receiver has still to read: all of
    /// them, or those from its cursor on, whichever are fewer. It is a step.
    pub fn unread(&mut self) -> usize
        ensures same { StaysAt self.old.tracker self.new.tracker }
        ensures unread { (len : ℕ) × MakesCall P.learns T.is_clone J.opening self.old.tracker
            Call.Len (Reply.Len len) self.new.tracker
            × (result ≡ min len (count_behind J.opening self.new.tracker)) }
    {
        let len = self.len();
        len.min(self.behind() as usize)
    }

    /// How many messages were dropped before this receiver read them, and were not yet counted as
    /// missed: those from its cursor on, but for the ones that the channel keeps. It is a step.
    pub fn missed(&mut self) -> u64
        ensures same { StaysAt self.old.tracker self.new.tracker }
        ensures missed { (len : ℕ) × MakesCall P.learns T.is_clone J.opening self.old.tracker
            Call.Len (Reply.Len len) self.new.tracker
            × (result ≡ count_behind J.opening self.new.tracker - len) }
    {
        let len = self.len();
        self.behind().saturating_sub(len as u64)
    }

    /// How many messages the channel keeps. It is a step.
    pub fn len(&mut self) -> usize
        ensures same { StaysAt self.old.tracker self.new.tracker }
        ensures made { MakesCall P.learns T.is_clone J.opening self.old.tracker
            Call.Len (Reply.Len result) self.new.tracker }
    {
        let ReceiverTracker { inner } = &mut self.tracker;
        inner.ask(&self.port, Count::Len)
    }

    // How many messages there are from the receiver's cursor on, as far as it knows.
    fn behind(&self) -> u64
        ensures { result ≡ count_behind J.opening self.now.tracker }
    {
        self.tracker.inner.caller.end().saturating_sub(self.next())
    }

    /// The number of the message that is read next.
    pub fn next(&self) -> u64
        ensures { Some result ≡ self.now.tracker.next }
    {
        let ReceiverTracker { inner } = &self.tracker;
        inner.caller.next().unwrap_or(0)
    }
}

impl<T: Clone, P: TimedHistoryPort<T, J>, J: Channel> TrackedReceiver<T, P, J> {
    /// Receives the next message, and gives up once `limit` has passed: as
    /// `Receiver::recv_timeout`, with its errors. Each try is a step.
    pub fn recv_timeout(&mut self, limit: Duration) -> RecvResult<T, RecvTimeoutError>
        ensures { ReceivesOnce P.learns T.is_clone J.opening
            self.old.tracker self.new.tracker (as_timed_try result) }
    {
        let ReceiverTracker { inner } = &mut self.tracker;
        let Tracker { caller } = inner;
        let key = caller.key();
        self.port.receive_within(caller, key, limit)
    }
}

impl<T: Clone, P: HistoryPort<T, J>, J: Channel> Drop for TrackedReceiver<T, P, J> {
    fn drop(self)
        ensures { MakesLast P.learns self.tracker
            (Call.DropReceiver self.tracker.key) Reply.DropReceiver }
    {
        let TrackedReceiver {
            port,
            tracker,
            waker: _,
        } = self;
        let ReceiverTracker { mut inner } = tracker;
        let call = Change::DropReceiver(inner.key());
        inner.ask(&port, call);
    }
}
