//! Sending, at once or by a pending send.
ghost use Rattle.std.specs.Prelude.{◌≡◌, true, false, IfOk, IfErr, OnErr};
ghost use Rattle.bcast_model.specs.Words.{NoClone, in_lists, Answers, must_wait};

use super::Inner;
use crate::parts::is_accepted;
use bcast_model::error::TrySendError;
use bcast_model::messages::{Messages, in_vec};
use bcast_model::run::{Call, Reply, SendPoll};
use bcast_waiting::notice::{MakesNotice, Notice, OwnedNotice};
use std::alloc::{AllocError, Allocator};

impl<T: Drop, N: Notice, A: Allocator + Copy> Inner<T, N, A> {
    /// Sends a message to every active receiver, and tells all that wait to receive.
    ///
    /// `Ok(Some(oldest))` hands back the oldest message, which a full channel dropped in overflow
    /// mode, even if some receivers have read it. The message that brings the end to `u64::MAX`
    /// closes the channel. Allocates nothing.
    ///
    /// # Errors
    ///
    /// The message is handed back and nothing changes, for the first reason that applies.
    /// - `Closed`: the channel is closed.
    /// - `Inactive`: there is no active receiver, in overflow mode too.
    /// - `Full`: as many messages are kept as the capacity allows, and overflow is off.
    #[inline(always)]
    pub fn try_broadcast(&mut self, msg: T) -> Result<Option<T>, TrySendError<T>>
        ensures { Answers NoClone self.old (Call.TryBroadcast msg) (Reply.TryBroadcast result)
            self.new }
    {
        let sent = self.parts.offer(msg);
        if !self.parts.nobody_waits() {
            self.parts.tell_of_message(sent.is_ok());
        }
        sent
    }

    /// Sends a whole list of messages to every active receiver, in one step: they are last, in
    /// their order, and no other message comes between. All that wait to receive are told once.
    ///
    /// It never drops a message, not even in overflow mode, and an empty list changes nothing. The
    /// list that brings the end to `u64::MAX` closes the channel. Allocates nothing.
    ///
    /// # Errors
    ///
    /// The whole list is handed back and nothing changes, for the first reason that applies.
    /// - `Closed`: the channel is closed.
    /// - `Inactive`: there is no active receiver.
    /// - `Full`: there are more messages than the capacity has room for, or than there are numbers
    ///   below `u64::MAX`.
    pub fn try_broadcast_all(&mut self, msgs: Vec<T>) -> Result<(), TrySendError<Vec<T>>>
        ensures { Answers NoClone self.old (Call.TryBroadcastAll msgs.items)
            (Reply.TryBroadcastAll (in_lists result)) self.new }
    {
        in_vec(self.offer_all(Messages::new(msgs)))
    }

    // Sends a list as `try_broadcast_all` does.
    pub(crate) fn offer_all(&mut self, msgs: Messages<T>) -> Result<(), TrySendError<Messages<T>>>
        ensures { Answers NoClone self.old (Call.TryBroadcastAll msgs)
            (Reply.TryBroadcastAll result) self.new }
    {
        let end = self.parts.store.end();
        let sent = self.parts.offer_all(msgs);
        let has_risen = self.parts.store.end() != end;
        self.parts.tell_of_message(has_risen);
        sent
    }

    /// One attempt of a send that may wait: it does what `try_broadcast` does.
    ///
    /// `Ready(Ok(..))`: the message was accepted. `Ready(Err(SendError(msg)))`: the channel is
    /// closed, or there is no active receiver and `await_active` is off. `Wait(msg)`: the channel
    /// is full, or there is no active receiver while `await_active` is on. Allocates nothing.
    pub fn attempt_send(&mut self, msg: T) -> SendPoll<T>
        ensures { Answers NoClone self.old (Call.AttemptSend msg) (Reply.AttemptSend result)
            self.new }
    {
        let sent = self.parts.attempt(msg);
        self.parts.tell_of_message(is_accepted(&sent));
        sent
    }

    /// Gives a place to a send that may wait, with the memory that it needs to wait. The first poll
    /// of it that must wait lists it.
    ///
    /// # Errors
    ///
    /// `AllocError`: memory for it was refused, and nothing changed.
    #[inline(always)]
    pub fn begin_send(&mut self) -> Result<usize, AllocError>
        ensures { Answers NoClone self.old Call.BeginSend (Reply.BeginSend result) self.new }
    {
        let begun = self.parts.begin_send();
        self.parts.tell_a_sender();
        begun
    }

    /// Tries the pending send of this place: it is answered as by `attempt_send`, and the place is
    /// free from then on; or it waits, and `notice` is called once it should be polled again.
    ///
    /// With a place that is not in use nothing changes, and `Wait(msg)` is returned. If the send is
    /// answered and sends are still ready, the next one that waits is told, unless one is told
    /// already. Allocates nothing.
    #[inline(always)]
    pub fn poll_send(&mut self, place: usize, msg: T, notice: N) -> SendPoll<T>
        ensures { Answers NoClone self.old (Call.PollSend place msg) (Reply.PollSend result)
            self.new }
    {
        match self.poll_send_by(place, msg, &mut OwnedNotice::new(notice)) {
            Ok(sent) => sent,
            Err(_) => unreachable!(),
        }
    }

    // Tries a pending send as `poll_send` does, with a maker of the notice, which is used if the send
    // must wait. If it makes no notice, the message is handed back and nothing changed.
    #[inline(always)]
    pub(crate) fn poll_send_by<M: MakesNotice<N>>(
        &mut self,
        place: usize,
        msg: T,
        maker: &mut M,
    ) -> Result<SendPoll<T>, T>
        ensures answers { IfOk result (λ sent. Answers NoClone self.old (Call.PollSend place msg)
            (Reply.PollSend sent) self.new) }

        ensures made { IfOk result (λ sent. must_wait (Reply.PollSend sent) ≡ true
            → M.made maker.old maker.new) }
        ensures idle { IfOk result (λ sent. must_wait (Reply.PollSend sent) ≡ false
            → maker.new ≡ maker.old) }
        ensures back { IfErr result (λ back. back ≡ msg) }
        ensures same { OnErr result (self.new ≡ self.old) }
        ensures refused { OnErr result (M.refused maker.old maker.new) }
    {
        if !self.parts.places.contains(place) {
            let Ok(_) = maker.make() else {
                return Err(msg);
            };
            return Ok(SendPoll::Wait(msg));
        }
        match self.parts.attempt(msg) {
            SendPoll::Ready(answer) => {
                self.parts.send_answered(place, answer.is_ok());
                Ok(SendPoll::Ready(answer))
            }
            SendPoll::Wait(msg) => {
                let Ok(()) = self.parts.sends.wait_again(place, maker) else {
                    return Err(msg);
                };
                Ok(SendPoll::Wait(msg))
            }
        }
    }

    /// Gives up the pending send of this place. If it was told, the next one that waits is told,
    /// unless one is told already. With a place that is not in use nothing changes.
    pub fn end_send(&mut self, place: usize)
        ensures { Answers NoClone self.old (Call.EndSend place) Reply.EndSend self.new }
    {
        self.parts.place_ended(place);
        self.parts.tell_a_sender();
    }
}
