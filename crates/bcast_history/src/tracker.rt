//! What a handle knows of its channel, who makes its calls, and where its receiver reads on, if it
//! has one.
ghost use Rattle.std.specs.Prelude.{◌≡◌, ℕ, Some, None, Ok, Err, IfSome, IfOk, IfErr};
ghost use Rattle.claims.specs.Claims.{claim_of, put, put_changed};
ghost use Rattle.bcast_model.specs.Words.{HasPositiveCapacity, Represents, cursor_of, end_number};
ghost use Rattle.bcast_core.specs.Calls.{receiver_call, receiver_reply};
ghost use Rattle.async_broadcast.specs.Ports.{moved_by};
ghost use Rattle.bcast_history.specs.History.{IsLawful, Opening, end_of};
ghost use Rattle.bcast_history.specs.Makes.{MakesCall};
ghost use Rattle.bcast_history.specs.Tracker.{Tracker as Known, Begins, HasNewSender, IsOf};
ghost use Rattle.bcast_history.specs.Tracker.{IsReceiver, next_of};

use crate::journal::{Named, Prefix};
use crate::port::HistoryPort;
use crate::step::Step;
use async_broadcast::{Caller, Wake};
use bcast_core::{AddReceiver, AtOnce, HandleError, Inner};
use claims::{Claim, Registry};
use std::alloc::Allocator;
use std::marker::{Brand, Model};

/// Names a channel in the types of all that belongs to it: its journal, what it was opened with,
/// and the registry in which its receivers' cursors are claimed.
pub trait Channel: Named {
    ghost opening: { Opening };

    ghost registry: { ℕ };
}

impl Channel for Brand {
    ghost opening = { record { capacity = 1; first_number = 0; first_key = 0 } };

    ghost registry = { 0 };
}

/// What is known of the steps on a channel: a beginning of them. A contract sees these steps.
///
/// All that is known of one channel are beginnings of one list. It has no bytes.
pub type Seen<T, J> = Prefix<Step<T>, J>;

/// Who makes calls on a channel: what is known of it, and of a receiver its key and the number of
/// the message that it reads next. Only who makes a receiver's calls can change that number: it has
/// the claim to both. A contract sees a `Tracker`.
///
/// It has no bound on `T`, since the checker can't yet give `u64` to an impl of `Caller` that has
/// one. That what is known is a run of the channel is said by the type `Tracker`.
#[derive(Drop)]
pub struct TrackedCaller<T, J: Channel> {
    seen: Seen<T, J>,
    // The number of the message that comes next after these steps.
    end: u64,
    key: usize,
    next: Option<u64>,
    claim: Claim,
}

impl<T, J: Channel> Model for TrackedCaller<T, J> {
    ghost Value = { Known T };

    ghost view = { λ c. record { steps = c.seen; key = c.key; next = c.next } };

    ghost invariant = { λ c. (c.end ≡ end_number (end_of J.opening c.seen))
        × (c.next ≡ next_of (end_of J.opening c.seen).control c.key c.next)
        × (c.claim.registry ≡ J.registry) × (c.claim.key ≡ c.key) × (c.claim.number ≡ c.next) };
}

impl<T, J: Channel> Caller for TrackedCaller<T, J> {
    ghost moves = { λ caller key. IsOf key caller };
}

impl<T: Clone, J: Channel> TrackedCaller<T, J> {
    /// Who makes the calls of a receiver whose key nobody has claimed. It knows these steps, after
    /// which the receiver reads `next`, and the message `end` comes next.
    pub(crate) fn new(
        registry: &mut Registry,
        seen: Seen<T, J>,
        end: u64,
        key: usize,
        next: u64,
    ) -> Self
        requires unclaimed { claim_of registry.old.claims key ≡ None }
        requires named { registry.old.name ≡ J.registry }
        requires end { end ≡ end_number (end_of J.opening seen) }
        requires there { cursor_of (end_of J.opening seen).control key ≡ Some next }
        ensures registry { (registry.new.name ≡ J.registry)
            × (registry.new.claims ≡ put registry.old.claims key (Some next)) }
        ensures made { result ≡ record { steps = seen; key = key; next = Some next } }
    {
        TrackedCaller {
            seen,
            end,
            key,
            next: Some(next),
            claim: registry.claim(key, next),
        }
    }

    /// Knows these steps after a call, which led to this channel: its receiver reads on where the
    /// channel says.
    #[inline(always)]
    pub(crate) fn read_on<A: Allocator + Copy>(
        &mut self,
        registry: &mut Registry,
        seen: Seen<T, J>,
        inner: &Inner<T, Wake, A>,
    )
        requires named { registry.old.name ≡ J.registry }
        requires shown { Represents inner.now (end_of J.opening seen) }
        ensures claimed { IfSome self.old.next
            (λ next. claim_of registry.old.claims self.old.key ≡ Some next) }
        ensures registry { (registry.new.name ≡ J.registry)
            × (registry.new.claims ≡ put_changed registry.old.claims self.old.key self.old.next
            self.new.next) }
        ensures reads { self.new ≡ record {
          steps = seen;
          key = self.old.key;
          next = next_of (end_of J.opening seen).control self.old.key self.old.next;
        } }
    {
        self.seen = seen;
        self.end = inner.end_number();
        if self.next.is_some() {
            self.next = inner.cursor(self.key);
        }
        registry.set(&mut self.claim, self.next);
    }

    /// What is known, for other callers.
    #[inline(always)]
    pub(crate) fn seen(&self) -> Seen<T, J>
        ensures { result ≡ self.now.steps }
    {
        self.seen.same()
    }

    #[inline(always)]
    pub(crate) fn end(&self) -> u64
        ensures { result ≡ end_number (end_of J.opening self.now.steps) }
    {
        self.end
    }

    /// The receiver's key, if there is one.
    #[inline(always)]
    pub(crate) fn key(&self) -> usize
        ensures { result ≡ self.now.key }
    {
        self.key
    }

    /// The number of the message that the receiver reads next. `None`: there is no receiver.
    #[inline(always)]
    pub(crate) fn next(&self) -> Option<u64>
        ensures { result ≡ self.now.next }
    {
        self.next
    }
}

/// What a handle knows of its channel, which is a run of it; and who makes the handle's calls.
#[derive(Drop)]
pub struct Tracker<T: Clone, J: Channel> {
    pub(crate) caller: TrackedCaller<T, J>,
}

impl<T: Clone, J: Channel> Model for Tracker<T, J> {
    ghost Value = { Known T };

    ghost view = { λ t. t.caller };

    ghost invariant = { λ t. IsLawful T.is_clone J.opening t.caller.steps };
}

impl<T: Clone, J: Channel> Tracker<T, J> {
    /// What a sender knows that the last step added, or the first one: as much as this handle. So
    /// only with a new sender comes another tracker.
    pub(crate) fn of_sender(&self) -> Self
        requires { HasNewSender self.now.steps }
        ensures { result.steps ≡ self.now.steps }
    {
        let caller = TrackedCaller {
            seen: self.caller.seen(),
            end: self.caller.end,
            key: self.caller.key,
            next: None,
            claim: self.caller.claim.none(),
        };
        Tracker { caller }
    }

    /// Makes a call through this port.
    #[inline(always)]
    pub(crate) fn ask<P: HistoryPort<T, J>, C: AtOnce<T>>(&mut self, port: &P, call: C) -> C::Answer
        requires capacity { HasPositiveCapacity (C.call call) }
        requires moves { IfSome (moved_by (C.call call)) (λ key. IsOf key self.old) }
        ensures { MakesCall P.learns T.is_clone J.opening self.old
            (C.call call) (C.reply call result) self.new }
    {
        port.ask(&mut self.caller, call)
    }

    /// Makes a call through this port that adds a receiver, with its errors. Returns what the
    /// receiver knows, which is as much.
    pub(crate) fn add_receiver<P: HistoryPort<T, J>>(
        &mut self,
        port: &P,
        call: AddReceiver,
    ) -> Result<Self, HandleError>
        ensures made { IfOk result (λ made. MakesCall P.learns T.is_clone J.opening self.old
            (receiver_call call) (receiver_reply call (Ok made.key)) self.new) }
        ensures begins { IfOk result (λ made. Begins J.opening made.key self.new made) }
        ensures refused { IfErr result (λ error. MakesCall P.learns T.is_clone J.opening self.old
            (receiver_call call) (receiver_reply call (Err error)) self.new) }
    {
        let (_key, made) = port.add_receiver(&mut self.caller, call)?;
        Ok(Tracker { caller: made })
    }

    #[inline(always)]
    pub(crate) fn key(&self) -> usize
        ensures { result ≡ self.now.key }
    {
        self.caller.key()
    }

    /// Proves that what is known is a run of the channel, and that the receiver, if there is one,
    /// is there. Does nothing.
    pub(crate) fn invariant_holds(&self)
        ensures lawful { IsLawful T.is_clone J.opening self.now.steps }
        ensures there { self.now.next ≡ next_of (end_of J.opening self.now.steps).control
            self.now.key self.now.next }
    {
        let _ = &self.caller.seen;
    }
}

/// What a receiver knows of its channel, by which it makes its calls: it always has a number that
/// is read next.
#[derive(Drop)]
pub struct ReceiverTracker<T: Clone, J: Channel> {
    pub(crate) inner: Tracker<T, J>,
}

impl<T: Clone, J: Channel> Model for ReceiverTracker<T, J> {
    ghost Value = { Known T };

    ghost view = { λ t. t.inner };

    ghost invariant = { λ t. IsReceiver t.inner };
}
