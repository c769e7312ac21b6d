//! Calls that make or drop a handle, close the channel, or set how it behaves.
ghost use Rattle.bcast_model.specs.declared.run.Call.TheVariants as call;
ghost use Rattle.bcast_model.specs.declared.run.Reply.TheVariants as reply;
ghost use Rattle.bcast_core.specs.Calls.{receiver_call, receiver_reply, handle_call, handle_reply};
ghost use Rattle.bcast_core.specs.Calls.{change_call, change_reply};

use super::{AtOnce, CallOf, RepliesTo};
use crate::state::Inner;
use bcast_model::error::HandleError;
use bcast_model::run::{Call, Reply};
use bcast_waiting::notice::Notice;
use std::alloc::{AllocError, Allocator};

/// A call that adds a receiver, and returns its key.
#[derive(Clone, Copy, Drop)]
pub enum AddReceiver {
    /// `Inner::new_receiver`.
    New,
    /// `Inner::activate`.
    Activate,
    /// `Inner::activate_cloned`.
    ActivateCloned,
    /// `Inner::clone_receiver`, of the receiver of this key.
    Clone(usize),
}

impl<T: Drop> CallOf<T> for AddReceiver {
    type Answer = Result<usize, HandleError>;

    ghost call = { receiver_call };

    ghost reply = { receiver_reply };

    fn answered_by<R: RepliesTo<T>>(self, port: &R) -> Self::Answer {
        let call = match self {
            AddReceiver::New => Call::NewReceiver,
            AddReceiver::Activate => Call::Activate,
            AddReceiver::ActivateCloned => Call::ActivateCloned,
            AddReceiver::Clone(key) => Call::CloneReceiver(key),
        };
        match port.reply_to(call) {
            Reply::NewReceiver(answer) => answer,
            Reply::Activate(answer) => answer,
            Reply::ActivateCloned(answer) => answer,
            Reply::CloneReceiver(answer) => answer,
            _ => unreachable!(),
        }
    }
}

impl<T: Clone> AtOnce<T> for AddReceiver {
    #[inline(always)]
    fn make<N: Notice, A: Allocator + Copy>(self, inner: &mut Inner<T, N, A>) -> Self::Answer {
        match self {
            AddReceiver::New => inner.new_receiver(),
            AddReceiver::Activate => inner.activate(),
            AddReceiver::ActivateCloned => inner.activate_cloned(),
            AddReceiver::Clone(key) => inner.clone_receiver(key),
        }
    }
}

/// A call that adds a handle that has no key.
#[derive(Clone, Copy, Drop)]
pub enum AddHandle {
    /// `Inner::new_sender`.
    Sender,
    /// `Inner::clone_inactive`.
    Inactive,
    /// `Inner::deactivate`, of the receiver of this key.
    Deactivated(usize),
}

impl<T: Drop> CallOf<T> for AddHandle {
    type Answer = Result<(), HandleError>;

    ghost call = { handle_call };

    ghost reply = { handle_reply };

    fn answered_by<R: RepliesTo<T>>(self, port: &R) -> Self::Answer {
        let call = match self {
            AddHandle::Sender => Call::NewSender,
            AddHandle::Inactive => Call::CloneInactive,
            AddHandle::Deactivated(key) => Call::Deactivate(key),
        };
        match port.reply_to(call) {
            Reply::NewSender(answer) => answer,
            Reply::CloneInactive(answer) => answer,
            Reply::Deactivate(answer) => answer,
            _ => unreachable!(),
        }
    }
}

impl<T: Clone> AtOnce<T> for AddHandle {
    #[inline(always)]
    fn make<N: Notice, A: Allocator + Copy>(self, inner: &mut Inner<T, N, A>) -> Self::Answer {
        match self {
            AddHandle::Sender => inner.new_sender(),
            AddHandle::Inactive => inner.clone_inactive(),
            AddHandle::Deactivated(key) => inner.deactivate(key),
        }
    }
}

/// A call that can't fail, and returns nothing: the state call of the same name.
#[derive(Clone, Copy, Drop)]
pub enum Change {
    /// `Inner::end_send`, of this place.
    EndSend(usize),
    /// `Inner::end_future`, of the receiver of this key.
    EndFuture(usize),
    SetOverflow(bool),
    SetAwaitActive(bool),
    DropSender,
    DropInactive,
    /// `Inner::drop_receiver`, of this key.
    DropReceiver(usize),
}

impl<T: Drop> CallOf<T> for Change {
    type Answer = ();

    ghost call = { change_call };

    ghost reply = { change_reply };

    fn answered_by<R: RepliesTo<T>>(self, port: &R) {
        let call = match self {
            Change::EndSend(place) => Call::EndSend(place),
            Change::EndFuture(key) => Call::EndFuture(key),
            Change::SetOverflow(on) => Call::SetOverflow(on),
            Change::SetAwaitActive(on) => Call::SetAwaitActive(on),
            Change::DropSender => Call::DropSender,
            Change::DropInactive => Call::DropInactive,
            Change::DropReceiver(key) => Call::DropReceiver(key),
        };
        port.reply_to(call);
    }
}

impl<T: Clone> AtOnce<T> for Change {
    #[inline(always)]
    fn make<N: Notice, A: Allocator + Copy>(self, inner: &mut Inner<T, N, A>) {
        match self {
            Change::EndSend(place) => inner.end_send(place),
            Change::EndFuture(key) => inner.end_future(key),
            Change::SetOverflow(on) => inner.set_overflow(on),
            Change::SetAwaitActive(on) => inner.set_await_active(on),
            Change::DropSender => inner.drop_sender(),
            Change::DropInactive => inner.drop_inactive(),
            Change::DropReceiver(key) => inner.drop_receiver(key),
        }
    }
}

/// `Inner::close`.
#[derive(Drop)]
pub struct Close;

impl<T: Drop> CallOf<T> for Close {
    type Answer = bool;

    ghost call = { λ _. call.Close };

    ghost reply = { λ _. reply.Close };

    fn answered_by<R: RepliesTo<T>>(self, port: &R) -> Self::Answer {
        match port.reply_to(Call::Close) {
            Reply::Close(answer) => answer,
            _ => unreachable!(),
        }
    }
}

impl<T: Clone> AtOnce<T> for Close {
    #[inline(always)]
    fn make<N: Notice, A: Allocator + Copy>(self, inner: &mut Inner<T, N, A>) -> Self::Answer {
        inner.close()
    }
}

/// `Inner::set_capacity`.
#[derive(Drop)]
pub struct SetCapacity(pub usize);

impl<T: Drop> CallOf<T> for SetCapacity {
    type Answer = Result<(), AllocError>;

    ghost call = { λ c. call.SetCapacity c.0 };

    ghost reply = { λ _. reply.SetCapacity };

    fn answered_by<R: RepliesTo<T>>(self, port: &R) -> Self::Answer {
        match port.reply_to(Call::SetCapacity(self.0)) {
            Reply::SetCapacity(answer) => answer,
            _ => unreachable!(),
        }
    }
}

impl<T: Clone> AtOnce<T> for SetCapacity {
    #[inline(always)]
    fn make<N: Notice, A: Allocator + Copy>(self, inner: &mut Inner<T, N, A>) -> Self::Answer {
        inner.set_capacity(self.0)
    }
}
