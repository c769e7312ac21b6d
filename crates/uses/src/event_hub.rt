//! Events for subscribers that come and go.
ghost use Rattle.std.specs.Prelude.{◌≡◌, ◌+◌, ◌<◌, ◌∷◌, [], ◌++◌, IfOk, IfErr, IfSome, IsOk, OnOk, OnErr};
ghost use Rattle.bcast_model.specs.Words.{unsent_message, opening, NoClone, IsGivenFrom, Answers, Represents};
ghost use Rattle.bcast_model.specs.declared.run.Call.TheVariants as call;
ghost use Rattle.bcast_model.specs.declared.run.Reply.TheVariants as reply;
ghost use Rattle.uses.specs.Hub.{IsOpened, IsNextEvent};
ghost use Rattle.uses.specs.Sends.{send_answer, send_reply};

use bcast_core::{HandleError, Inner, Silent, TrySendError};
use bcast_laws::states::received_is_given;
use std::alloc::{AllocError, Global};
use std::marker::Model;

/// A channel whose subscribers come and go: it stays open while there is none.
///
/// Contracts see the channel's view: its `queue` has the events that a subscriber is still to get.
#[derive(Drop)]
pub struct EventHub<E> {
    inner: Inner<E, Silent>,
}

impl<E> Model for EventHub<E> {
    ghost use Rattle.bcast_model.specs.Words.{View, view_code};
    ghost use Rattle.uses.specs.Hub.{IsHub};

    ghost Value = { View E };

    ghost coded = { view_code E.code };

    ghost view = { λ h. h.inner };

    ghost invariant = { λ h. IsHub h.inner };
}

impl<E: Clone> EventHub<E> {
    /// A hub without subscribers, which keeps at most `capacity` events.
    ///
    /// # Errors
    ///
    /// `Memory`: there is no memory for the channel.
    pub fn new(alloc: Global, capacity: usize) -> Result<Self, HandleError>
        requires { 0 < capacity }
        ensures { IfOk result (λ hub. IsOpened hub capacity) }
    {
        match Inner::new(alloc, capacity) {
            Ok((inner, first)) => Self::over(inner, first),
            Err(_) => Err(HandleError::Memory),
        }
    }

    // The hub keeps its first receiver as an inactive one.
    fn over(mut inner: Inner<E, Silent>, first: usize) -> Result<Self, HandleError>
        requires { Represents inner (opening inner.control.capacity 0 first) }
        ensures { IfOk result (λ hub. IsOpened hub inner.control.capacity) }
    {
        inner.deactivate(first)?;
        Ok(EventHub { inner })
    }

    /// Publishes an event to all subscribers that are there.
    ///
    /// # Errors
    ///
    /// The event is returned and nothing changes, for the first of these reasons that holds.
    /// - `Closed`: the hub has numbered as many events as it can.
    /// - `Inactive`: there is no subscriber.
    /// - `Full`: some subscriber is still to get the oldest of `capacity` events.
    pub fn publish(&mut self, event: E) -> Result<(), TrySendError<E>>
        ensures accepted { OnOk result (self.new.queue ≡ self.old.queue ++ event ∷ []) }
        ensures counted { OnOk result (self.new.end ≡ self.old.end + 1) }
        ensures back { IfErr result (λ error. unsent_message error ≡ event) }
        ensures err { OnErr result (self.new ≡ self.old) }
        ensures answer { result ≡ send_answer self.old event }
        ensures answers { Answers NoClone self.old (call.TryBroadcast event)
            (reply.TryBroadcast (send_reply result)) self.new }
    {
        self.inner.try_broadcast(event)?;
        Ok(())
    }

    /// Adds a subscriber that gets the events to come, and returns its key.
    ///
    /// # Errors
    ///
    /// `Memory`: there is no memory for it. Nothing changed.
    pub fn subscribe(&mut self) -> Result<usize, HandleError>
        ensures { Answers NoClone self.old call.NewReceiver (reply.NewReceiver result) self.new }
    {
        self.inner.new_receiver()
    }

    /// Adds a subscriber that gets what this one is still to get, and returns the new one's key.
    ///
    /// # Errors
    ///
    /// Nothing changed.
    /// - `Gone`: there is no such subscriber.
    /// - `Memory`: there is no memory for the new one.
    pub fn subscribe_like(&mut self, subscriber: usize) -> Result<usize, HandleError>
        ensures { Answers NoClone self.old (call.CloneReceiver subscriber)
            (reply.CloneReceiver result) self.new }
    {
        self.inner.clone_receiver(subscriber)
    }

    /// Takes a subscriber out. The hub stays open. An unknown key changes nothing.
    pub fn unsubscribe(&mut self, subscriber: usize)
        ensures answers { Answers NoClone self.old (call.DropReceiver subscriber)
            reply.DropReceiver self.new }
        ensures is_open { self.new.control.closed ≡ self.old.control.closed }
    {
        self.inner.drop_receiver(subscriber);
    }

    /// Gives a subscriber its next event. None: it has got all, or there is no such subscriber.
    ///
    /// # Errors
    ///
    /// `AllocError`: another subscriber is to get the event too, and there is no memory for a clone
    /// of it. Nothing changed.
    pub fn next_event(&mut self, subscriber: usize) -> Result<Option<E>, AllocError>
        ensures given { IfOk result (λ found.
            IfSome found (IsGivenFrom E.is_clone self.old.queue)) }
        ensures answers { IfOk result (λ found.
            IsNextEvent E.is_clone self.old subscriber found self.new) }
        ensures err { OnErr result (self.new ≡ self.old) }
        // If no clone fails, it succeeds.
        ensures sure { ((event : E) → E.is_infallible event) → IsOk result }
    {
        received_is_given::<E>();
        Ok(self.inner.try_recv(subscriber)?.ok())
    }
}
