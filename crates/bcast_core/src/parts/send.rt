//! Sending, and the capacity, which may make room.
ghost use Rattle.std.specs.Prelude.{◌≡◌, ◌==◌, ◌<◌, ◌≤◌, false, not, IfOk, OnOk, OnErr, is_ok};
ghost use Rattle.bcast_core.specs.Telling.{is_accepted};

use super::Parts;
use bcast_model::error::{SendError, TrySendError};
use bcast_model::messages::Messages;
use bcast_model::run::SendPoll;
use bcast_waiting::notice::Notice;
use std::alloc::{AllocError, Allocator};

impl<T: Drop, N: Notice, A: Allocator + Copy> Parts<T, N, A> {
    ghost use Rattle.bcast_model.specs.Words.{has_place, with_place, place_answered, place_ended};
    ghost use Rattle.bcast_model.specs.Words.{tell_if_ready, IsValidView, settle, resize, offer};
    ghost use Rattle.bcast_model.specs.Words.{try_broadcast_reply, attempt_send_reply};
    ghost use Rattle.bcast_model.specs.Words.{try_broadcast_all_reply, offer_all};
    ghost use Rattle.bcast_core.specs.Telling.{tell_news};

    /// Accepts a whole list, or hands it back with the reason. No one is told: the caller has to do
    /// that, if the end rose.
    #[tactic(auto, using(crate::proofs::Offers::lists, crate::proofs::Tail::news))]
    pub fn offer_all(&mut self, msgs: Messages<T>) -> Result<(), TrySendError<Messages<T>>>
        requires { IsValidView self.old }
        ensures reply { result ≡ try_broadcast_all_reply self.old msgs }
        ensures effect { tell_news (not (self.new.end == self.old.end)) self.new
            ≡ settle self.old (offer_all self.old msgs) }
    {
        if self.closed {
            return Err(TrySendError::Closed(msgs));
        }
        if self.store.has_no_receiver() {
            return Err(TrySendError::Inactive(msgs));
        }
        if msgs.is_empty() {
            return Ok(());
        }
        let room = self.capacity.saturating_sub(self.store.len());
        let numbers = (u64::MAX - self.store.end()) as usize;
        if room.min(numbers) < msgs.len() {
            return Err(TrySendError::Full(msgs));
        }
        self.store.push_all(msgs);
        if self.store.end() == u64::MAX {
            self.closed = true;
        }
        Ok(())
    }

    /// Accepts a message, or hands it back with the reason. No one is told: the caller has to do
    /// that, if it was accepted.
    #[inline(always)]
    pub fn offer(&mut self, msg: T) -> Result<Option<T>, TrySendError<T>>
        requires { IsValidView self.old }
        ensures reply { result ≡ try_broadcast_reply self.old msg }
        ensures effect { tell_news (is_ok result) self.new ≡ settle self.old (offer self.old msg) }
    {
        if self.closed {
            return Err(TrySendError::Closed(msg));
        }
        if self.store.has_no_receiver() {
            return Err(TrySendError::Inactive(msg));
        }
        let oldest = if self.store.len() == self.capacity {
            if !self.overflow {
                return Err(TrySendError::Full(msg));
            }
            self.store.pop()
        } else {
            None
        };
        let number = self.store.push(msg);
        if number + 1 == u64::MAX {
            self.closed = true;
        }
        Ok(oldest)
    }

    /// Accepts a message as `offer` does, for a send that may wait.
    #[inline(always)]
    pub fn attempt(&mut self, msg: T) -> SendPoll<T>
        requires { IsValidView self.old }
        ensures reply { result ≡ attempt_send_reply self.old msg }
        ensures effect { tell_news (is_accepted result) self.new
            ≡ settle self.old (offer self.old msg) }
    {
        let await_active = self.await_active;
        match self.offer(msg) {
            Ok(back) => SendPoll::Ready(Ok(back)),
            Err(TrySendError::Closed(msg)) => SendPoll::Ready(Err(SendError(msg))),
            Err(TrySendError::Full(msg)) => SendPoll::Wait(msg),
            Err(TrySendError::Inactive(msg)) => {
                if await_active {
                    SendPoll::Wait(msg)
                } else {
                    SendPoll::Ready(Err(SendError(msg)))
                }
            }
        }
    }

    /// Gives a place to a send that is to wait, and makes room to list it.
    #[inline(always)]
    pub fn begin_send(&mut self) -> Result<usize, AllocError>
        ensures free { IfOk result (λ place. has_place self.old.control place ≡ false) }
        ensures ok { IfOk result (λ place. self.new
            ≡ record self.old { control = with_place self.old.control place }) }
        ensures err { OnErr result (self.new ≡ self.old) }
    {
        let place = self.places.add()?;
        let Ok(()) = self.sends.reserve_for(place) else {
            self.places.remove(place);
            return Err(AllocError);
        };
        Ok(place)
    }

    /// The send of this place is dropped. What it was told is passed on.
    #[inline(always)]
    pub fn place_ended(&mut self, place: usize)
        ensures { self.new ≡ record self.old { control = place_ended self.old.control place } }
    {
        let _ = self.sends.abandon(place);
        self.places.remove(place);
    }

    // The send of this place is answered.
    #[inline(always)]
    fn place_answered(&mut self, place: usize)
        ensures { self.new ≡ record self.old { control = place_answered self.old.control place } }
    {
        self.sends.consume(place);
        self.places.remove(place);
    }

    /// The last step of a poll that answers the send of this place: if its message was accepted, all
    /// that wait to receive are told first.
    #[inline(always)]
    #[tactic(auto, using(crate::proofs::Tail::tails))]
    pub fn send_answered(&mut self, place: usize, is_accepted: bool)
        ensures { let told = tell_news is_accepted self.old in self.new
            ≡ tell_if_ready (record told { control = place_answered told.control place }) }
    {
        if self.nobody_waits() {
            self.place_answered(place);
        } else {
            self.tell_of_send(place, is_accepted);
        }
    }

    // In a function of its own, so that an answer while nobody waits costs two tests.
    #[inline(never)]
    fn tell_of_send(&mut self, place: usize, is_accepted: bool)
        ensures { let told = tell_news is_accepted self.old in self.new
            ≡ tell_if_ready (record told { control = place_answered told.control place }) }
    {
        self.tell_news(is_accepted);
        self.place_answered(place);
        self.tell_a_sender();
    }

    /// Sets the capacity. If fewer messages fit than are kept, the oldest are dropped.
    pub fn set_capacity(&mut self, n: usize) -> Result<(), AllocError>
        requires valid { IsValidView self.old }
        requires positive { 1 ≤ n }
        ensures ok { OnOk result (self.new ≡ settle self.old (resize self.old n)) }
        ensures refused { OnErr result (self.old.control.room < n) }
        ensures err { OnErr result (self.new ≡ self.old) }
    {
        if n > self.store.room() {
            self.store.grow(n)?;
        }
        let excess = self.store.len().saturating_sub(n);
        self.store.drop_first(excess);
        self.capacity = n;
        Ok(())
    }
}

/// Whether a send was accepted.
#[inline(always)]
pub fn is_accepted<T>(sent: &SendPoll<T>) -> bool
    ensures { result ≡ is_accepted sent.now }
{
    matches!(sent, SendPoll::Ready(Ok(_)))
}
