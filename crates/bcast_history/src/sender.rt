//! The sending side, and the settings and counts of the channel through it.
ghost use Rattle.std.specs.Prelude.{◌≡◌, ◌<◌, true, Ok, IfOk, IfErr};
ghost use Rattle.bcast_model.specs.Encodings.{in_lists};
ghost use Rattle.bcast_model.specs.Words.{end_number};
ghost use Rattle.async_broadcast.specs.Timed.{as_attempt};
ghost use Rattle.bcast_history.specs.History.{IsLawful, end_of};
ghost use Rattle.bcast_history.specs.Makes.{MakesCall, MakesLast, MakesNone};
ghost use Rattle.bcast_history.specs.Reader.{StartsAtTheEnd};

use crate::port::{History, HistoryPort, TimedHistoryPort};
use crate::receiver::TrackedReceiver;
use crate::tracker::{Channel, Seen, Tracker};
use async_broadcast::SendTimeoutError;
use bcast_core::{
    AddHandle, AddReceiver, Call, Change, Close, Count, HandleError, Messages, Reply, SendError,
    SendPoll, SetCapacity, Snapshot, Test, TryBroadcast, TryBroadcastAll, TrySendError, in_vec,
};
use std::alloc::{AllocError, Allocator};
use std::sync::Wait;
use std::time::Duration;

/// Sends messages to all active receivers of a channel with a history, as `Sender` of
/// `async_broadcast` does, and knows where they stand in it.
///
/// Contracts name its `tracker.steps`, a beginning of the steps on the channel. Each call is made
/// once, and adds the steps that others made meanwhile, and last its own (`MakesCall`). The drop is
/// a step, too.
pub struct TrackedSender<T: Clone, P: HistoryPort<T, J>, J: Channel> {
    pub(crate) port: P,
    pub(crate) tracker: Tracker<T, J>,
}

impl<T: Clone, P: HistoryPort<T, J>, J: Channel> TrackedSender<T, P, J> {
    /// What the sender knows, for other callers.
    pub fn seen(&self) -> Seen<T, J>
        ensures { result ≡ self.now.tracker.steps }
    {
        self.tracker.caller.seen()
    }

    /// Proves that what the sender knows is a run of the channel, of which all laws speak. Does
    /// nothing.
    pub fn invariant_holds(&self)
        ensures { IsLawful T.is_clone J.opening self.now.tracker.steps }
    {
        self.tracker.invariant_holds();
    }

    /// The number of the message that came next after the sender's last call. If that sent a
    /// message, the message's own number is one less.
    pub fn end(&self) -> u64
        ensures { result ≡ end_number (end_of J.opening self.now.tracker.steps) }
    {
        self.tracker.caller.end()
    }

    /// Sends a message, unless the channel is closed, or has no active receiver, or no room for it:
    /// as `Sender::try_broadcast`.
    #[inline(always)]
    pub fn try_broadcast(&mut self, msg: T) -> Result<Option<T>, TrySendError<T>>
        ensures { MakesCall P.learns T.is_clone J.opening self.old.tracker
            (Call.TryBroadcast msg) (Reply.TryBroadcast result) self.new.tracker }
    {
        self.tracker.ask(&self.port, TryBroadcast(msg))
    }

    /// Sends a whole list of messages in one step, or none of them: as `Sender::try_broadcast_all`.
    pub fn try_broadcast_all(&mut self, msgs: Vec<T>) -> Result<(), TrySendError<Vec<T>>>
        ensures { MakesCall P.learns T.is_clone J.opening self.old.tracker
            (Call.TryBroadcastAll msgs.items) (Reply.TryBroadcastAll (in_lists result))
            self.new.tracker }
    {
        let call = TryBroadcastAll(Messages::new(msgs));
        in_vec(self.tracker.ask(&self.port, call))
    }

    /// Sends a message, and blocks the thread while the channel has no room for it: as
    /// `Sender::broadcast_blocking`. Each try is a step.
    pub fn broadcast_blocking(&mut self, msg: T) -> Result<Option<T>, SendError<T>>
        ensures { MakesCall P.learns T.is_clone J.opening self.old.tracker
            (Call.AttemptSend msg) (Reply.AttemptSend (SendPoll.Ready result)) self.new.tracker }
    {
        let Tracker { caller } = &mut self.tracker;
        self.port.send_waiting(caller, msg)
    }

    /// Closes the channel, and returns whether it was open: as `close` of any handle.
    pub fn close(&mut self) -> bool
        ensures made { MakesCall P.learns T.is_clone J.opening self.old.tracker
            Call.Close (Reply.Close result) self.new.tracker }
        ensures closed { (end_of J.opening self.new.tracker.steps).control.closed ≡ true }
    {
        self.tracker.ask(&self.port, Close)
    }

    /// Makes another sender of the channel, which knows as much: as `Sender::clone`, with its
    /// errors.
    pub fn clone(&mut self) -> Result<Self, HandleError>
        ensures made { IfOk result (λ made. (made.tracker.steps ≡ self.new.tracker.steps)
            × MakesCall P.learns T.is_clone J.opening self.old.tracker
            Call.NewSender (Reply.NewSender (Ok tt)) self.new.tracker) }
        ensures refused { IfErr result (λ error. MakesNone P.learns T.is_clone J.opening
            Call.NewSender Reply.NewSender self.old.tracker error self.new.tracker) }
    {
        let port = self.port.try_clone().ok_or(HandleError::Memory)?;
        self.tracker.ask(&self.port, AddHandle::Sender)?;
        let tracker = self.tracker.of_sender();
        Ok(TrackedSender { port, tracker })
    }

    /// Makes an active receiver, whose first message is the next one that is accepted: as
    /// `Sender::new_receiver`, with its errors.
    pub fn new_receiver(&mut self) -> Result<TrackedReceiver<T, P, J>, HandleError>
        ensures made { IfOk result (λ made. (made.tracker.steps ≡ self.new.tracker.steps)
            × MakesCall P.learns T.is_clone J.opening self.old.tracker
            Call.NewReceiver (Reply.NewReceiver (Ok made.tracker.key)) self.new.tracker) }
        ensures starts { IfOk result (λ made. StartsAtTheEnd J.opening made.tracker) }
        ensures refused { IfErr result (λ error. MakesNone P.learns T.is_clone J.opening
            Call.NewReceiver Reply.NewReceiver self.old.tracker error self.new.tracker) }
    {
        let port = self.port.try_clone().ok_or(HandleError::Memory)?;
        let tracker = self.tracker.add_receiver(&self.port, AddReceiver::New)?;
        Ok(TrackedReceiver::new(port, tracker))
    }
}

impl<T: Clone, P: TimedHistoryPort<T, J>, J: Channel> TrackedSender<T, P, J> {
    /// Sends a message, and gives up once `limit` has passed: as `Sender::broadcast_timeout`. Each
    /// try is a step.
    pub fn broadcast_timeout(
        &mut self,
        msg: T,
        limit: Duration,
    ) -> Result<Option<T>, SendTimeoutError<T>>
        ensures { MakesCall P.learns T.is_clone J.opening self.old.tracker
            (Call.AttemptSend msg) (Reply.AttemptSend (as_attempt result)) self.new.tracker }
    {
        let Tracker { caller } = &mut self.tracker;
        self.port.send_within(caller, msg, limit)
    }
}

/// Each is a step of the sender: as the method of that name of any handle of `async_broadcast`.
impl<T: Clone, P: HistoryPort<T, J>, J: Channel> TrackedSender<T, P, J> {
    /// How many messages the channel keeps at most.
    pub fn capacity(&mut self) -> usize
        ensures { MakesCall P.learns T.is_clone J.opening self.old.tracker
            Call.Capacity (Reply.Capacity result) self.new.tracker }
    {
        self.tracker.ask(&self.port, Count::Capacity)
    }

    /// Changes how many messages the channel keeps at most. If more are kept, the oldest are
    /// dropped.
    ///
    /// # Errors
    ///
    /// - `AllocError`: no memory for a greater capacity than any before. Nothing changed.
    pub fn set_capacity(&mut self, new_cap: usize) -> Result<(), AllocError>
        requires { 0 < new_cap }
        ensures { MakesCall P.learns T.is_clone J.opening self.old.tracker
            (Call.SetCapacity new_cap) (Reply.SetCapacity result) self.new.tracker }
    {
        // A program that isn't proved stops here.
        prove!(new_cap > 0);
        self.tracker.ask(&self.port, SetCapacity(new_cap))
    }

    /// Whether a full channel drops its oldest message to accept a new one.
    pub fn overflow(&mut self) -> bool
        ensures { MakesCall P.learns T.is_clone J.opening self.old.tracker
            Call.Overflow (Reply.Overflow result) self.new.tracker }
    {
        self.tracker.ask(&self.port, Test::Overflow)
    }

    /// Sets whether a full channel drops its oldest message to accept a new one.
    pub fn set_overflow(&mut self, on: bool)
        ensures { MakesCall P.learns T.is_clone J.opening self.old.tracker
            (Call.SetOverflow on) Reply.SetOverflow self.new.tracker }
    {
        self.tracker.ask(&self.port, Change::SetOverflow(on))
    }

    /// Whether sends wait for an active receiver, if there are only inactive ones.
    pub fn await_active(&mut self) -> bool
        ensures { MakesCall P.learns T.is_clone J.opening self.old.tracker
            Call.AwaitActive (Reply.AwaitActive result) self.new.tracker }
    {
        self.tracker.ask(&self.port, Test::AwaitActive)
    }

    /// Sets whether sends wait for an active receiver, if there are only inactive ones.
    pub fn set_await_active(&mut self, on: bool)
        ensures { MakesCall P.learns T.is_clone J.opening self.old.tracker
            (Call.SetAwaitActive on) Reply.SetAwaitActive self.new.tracker }
    {
        self.tracker.ask(&self.port, Change::SetAwaitActive(on))
    }

    /// How many messages the channel keeps.
    pub fn len(&mut self) -> usize
        ensures { MakesCall P.learns T.is_clone J.opening self.old.tracker
            Call.Len (Reply.Len result) self.new.tracker }
    {
        self.tracker.ask(&self.port, Count::Len)
    }

    /// How many active receivers there are.
    pub fn receiver_count(&mut self) -> usize
        ensures { MakesCall P.learns T.is_clone J.opening self.old.tracker
            Call.ReceiverCount (Reply.ReceiverCount result) self.new.tracker }
    {
        self.tracker.ask(&self.port, Count::ReceiverCount)
    }

    /// How many inactive receivers there are.
    pub fn inactive_receiver_count(&mut self) -> usize
        ensures { MakesCall P.learns T.is_clone J.opening self.old.tracker
            Call.InactiveReceiverCount (Reply.InactiveReceiverCount result) self.new.tracker }
    {
        self.tracker.ask(&self.port, Count::InactiveReceiverCount)
    }

    /// How many senders there are.
    pub fn sender_count(&mut self) -> usize
        ensures { MakesCall P.learns T.is_clone J.opening self.old.tracker
            Call.SenderCount (Reply.SenderCount result) self.new.tracker }
    {
        self.tracker.ask(&self.port, Count::SenderCount)
    }
}

impl<T: Clone, R: Wait + Clone, J: Channel, A: Allocator + Copy> TrackedSender<
    T,
    History<T, R, J, A>,
    J,
> {
    /// The view of the channel at one moment, with a clone of each message that it keeps: as
    /// `snapshot` of any handle. It is no step.
    ///
    /// # Errors
    ///
    /// - `AllocError`: no memory for the lists, or for the clone of a message.
    pub fn snapshot(&self, alloc: A) -> Result<Snapshot<T, A>, AllocError> {
        self.port.snapshot(alloc)
    }
}

impl<T: Clone, P: HistoryPort<T, J>, J: Channel> Drop for TrackedSender<T, P, J> {
    fn drop(self)
        ensures { MakesLast P.learns self.tracker Call.DropSender Reply.DropSender }
    {
        let TrackedSender { port, mut tracker } = self;
        tracker.ask(&port, Change::DropSender);
    }
}
