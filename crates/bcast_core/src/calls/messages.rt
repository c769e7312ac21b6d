//! Messages that are sent or received at once.
ghost use Rattle.bcast_model.specs.declared.run.Call.TheVariants as call;
ghost use Rattle.bcast_model.specs.declared.run.Reply.TheVariants as reply;

use super::{AtOnce, CallOf, RepliesTo};
use crate::state::{Inner, RecvResult};
use bcast_model::error::{TryRecvError, TrySendError};
use bcast_model::messages::Messages;
use bcast_model::run::{Call, Reply, SendPoll};
use bcast_waiting::notice::Notice;
use std::alloc::{AllocError, Allocator};

/// `Inner::try_broadcast`.
#[derive(Drop)]
pub struct TryBroadcast<T>(pub T);

impl<T: Drop> CallOf<T> for TryBroadcast<T> {
    type Answer = Result<Option<T>, TrySendError<T>>;

    ghost call = { λ c. call.TryBroadcast c.0 };

    ghost reply = { λ _. reply.TryBroadcast };

    fn answered_by<R: RepliesTo<T>>(self, port: &R) -> Self::Answer {
        match port.reply_to(Call::TryBroadcast(self.0)) {
            Reply::TryBroadcast(answer) => answer,
            _ => unreachable!(),
        }
    }
}

impl<T: Clone> AtOnce<T> for TryBroadcast<T> {
    #[inline(always)]
    fn make<N: Notice, A: Allocator + Copy>(self, inner: &mut Inner<T, N, A>) -> Self::Answer {
        inner.try_broadcast(self.0)
    }
}

/// `Inner::try_broadcast_all`.
#[derive(Drop)]
pub struct TryBroadcastAll<T>(pub Messages<T>);

impl<T: Drop> CallOf<T> for TryBroadcastAll<T> {
    type Answer = Result<(), TrySendError<Messages<T>>>;

    ghost call = { λ c. call.TryBroadcastAll c.0 };

    ghost reply = { λ _. reply.TryBroadcastAll };

    fn answered_by<R: RepliesTo<T>>(self, port: &R) -> Self::Answer {
        match port.reply_to(Call::TryBroadcastAll(self.0)) {
            Reply::TryBroadcastAll(answer) => answer,
            _ => unreachable!(),
        }
    }
}

impl<T: Clone> AtOnce<T> for TryBroadcastAll<T> {
    #[inline(always)]
    fn make<N: Notice, A: Allocator + Copy>(self, inner: &mut Inner<T, N, A>) -> Self::Answer {
        inner.offer_all(self.0)
    }
}

/// `Inner::attempt_send`.
#[derive(Drop)]
pub struct AttemptSend<T>(pub T);

impl<T: Drop> CallOf<T> for AttemptSend<T> {
    type Answer = SendPoll<T>;

    ghost call = { λ c. call.AttemptSend c.0 };

    ghost reply = { λ _. reply.AttemptSend };

    fn answered_by<R: RepliesTo<T>>(self, port: &R) -> Self::Answer {
        match port.reply_to(Call::AttemptSend(self.0)) {
            Reply::AttemptSend(answer) => answer,
            _ => unreachable!(),
        }
    }
}

impl<T: Clone> AtOnce<T> for AttemptSend<T> {
    #[inline(always)]
    fn make<N: Notice, A: Allocator + Copy>(self, inner: &mut Inner<T, N, A>) -> Self::Answer {
        inner.attempt_send(self.0)
    }
}

/// `Inner::begin_send`.
#[derive(Drop)]
pub struct BeginSend;

impl<T: Drop> CallOf<T> for BeginSend {
    type Answer = Result<usize, AllocError>;

    ghost call = { λ _. call.BeginSend };

    ghost reply = { λ _. reply.BeginSend };

    fn answered_by<R: RepliesTo<T>>(self, port: &R) -> Self::Answer {
        match port.reply_to(Call::BeginSend) {
            Reply::BeginSend(answer) => answer,
            _ => unreachable!(),
        }
    }
}

impl<T: Clone> AtOnce<T> for BeginSend {
    #[inline(always)]
    fn make<N: Notice, A: Allocator + Copy>(self, inner: &mut Inner<T, N, A>) -> Self::Answer {
        inner.begin_send()
    }
}

/// `Inner::try_recv`.
#[derive(Drop)]
pub struct TryRecv(pub usize);

impl<T: Drop> CallOf<T> for TryRecv {
    type Answer = RecvResult<T, TryRecvError>;

    ghost call = { λ c. call.TryRecv c.0 };

    ghost reply = { λ _. reply.TryRecv };

    fn answered_by<R: RepliesTo<T>>(self, port: &R) -> Self::Answer {
        match port.reply_to(Call::TryRecv(self.0)) {
            Reply::TryRecv(answer) => answer,
            _ => unreachable!(),
        }
    }
}

impl<T: Clone> AtOnce<T> for TryRecv {
    #[inline(always)]
    fn make<N: Notice, A: Allocator + Copy>(self, inner: &mut Inner<T, N, A>) -> Self::Answer {
        inner.try_recv(self.0)
    }
}
