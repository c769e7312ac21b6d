//! The four polls, which wait by a notice.
ghost use Rattle.bcast_model.specs.declared.run.Call.TheVariants as call;
ghost use Rattle.bcast_model.specs.declared.run.Reply.TheVariants as reply;

use super::{CallOf, Polls, RepliesTo};
use crate::parts::ReceivePoll;
use crate::state::Inner;
use bcast_model::error::RecvError;
use bcast_model::run::{Call, Reply, SendPoll};
use bcast_queue::Uncounted;
use bcast_waiting::notice::{MakesNotice, Notice};
use futures::task::Poll;
use std::alloc::{AllocError, Allocator};

/// `Inner::poll_send`.
#[derive(Drop)]
pub struct PollSend<T>(pub usize, pub T);

impl<T: Drop> CallOf<T> for PollSend<T> {
    type Answer = SendPoll<T>;

    ghost call = { λ c. call.PollSend c.0 c.1 };

    ghost reply = { λ _. reply.PollSend };

    fn answered_by<R: RepliesTo<T>>(self, port: &R) -> Self::Answer {
        match port.reply_to(Call::PollSend(self.0, self.1)) {
            Reply::PollSend(answer) => answer,
            _ => unreachable!(),
        }
    }
}

impl<T: Clone> Polls<T> for PollSend<T> {
    #[inline(always)]
    fn make_for<N: Notice, A: Allocator + Copy, M: MakesNotice<N>>(
        self,
        inner: &mut Inner<T, N, A>,
        maker: &mut M,
    ) -> Result<Self::Answer, Self> {
        let PollSend(place, msg) = self;
        inner
            .poll_send_by(place, msg, maker)
            .map_err(|msg| PollSend(place, msg))
    }
}

/// `Inner::poll_future`.
#[derive(Drop)]
pub struct PollFuture(pub usize);

impl<T: Drop> CallOf<T> for PollFuture {
    type Answer = Result<Poll<Result<T, RecvError>>, AllocError>;

    ghost call = { λ c. call.PollFuture c.0 };

    ghost reply = { λ _. reply.PollFuture };

    fn answered_by<R: RepliesTo<T>>(self, port: &R) -> Self::Answer {
        match port.reply_to(Call::PollFuture(self.0)) {
            Reply::PollFuture(answer) => answer,
            _ => unreachable!(),
        }
    }
}

impl<T: Clone> Polls<T> for PollFuture {
    #[inline(always)]
    fn make_for<N: Notice, A: Allocator + Copy, M: MakesNotice<N>>(
        self,
        inner: &mut Inner<T, N, A>,
        maker: &mut M,
    ) -> Result<Self::Answer, Self> {
        match inner.poll_receive(ReceivePoll::Future, self.0, maker, &mut Uncounted) {
            Ok(received) => Ok(received.of_future()),
            Err(_) => Err(self),
        }
    }
}

/// `Inner::poll_recv`.
#[derive(Drop)]
pub struct PollRecv(pub usize);

impl<T: Drop> CallOf<T> for PollRecv {
    type Answer = Result<Poll<Option<Result<T, RecvError>>>, AllocError>;

    ghost call = { λ c. call.PollRecv c.0 };

    ghost reply = { λ _. reply.PollRecv };

    fn answered_by<R: RepliesTo<T>>(self, port: &R) -> Self::Answer {
        match port.reply_to(Call::PollRecv(self.0)) {
            Reply::PollRecv(answer) => answer,
            _ => unreachable!(),
        }
    }
}

impl<T: Clone> Polls<T> for PollRecv {
    #[inline(always)]
    fn make_for<N: Notice, A: Allocator + Copy, M: MakesNotice<N>>(
        self,
        inner: &mut Inner<T, N, A>,
        maker: &mut M,
    ) -> Result<Self::Answer, Self> {
        match inner.poll_receive(ReceivePoll::Recv, self.0, maker, &mut Uncounted) {
            Ok(received) => Ok(received.of_recv()),
            Err(_) => Err(self),
        }
    }
}

/// `Inner::poll_next`.
#[derive(Drop)]
pub struct PollNext(pub usize);

impl<T: Drop> CallOf<T> for PollNext {
    type Answer = Result<Poll<Option<(T, u64)>>, AllocError>;

    ghost call = { λ c. call.PollNext c.0 };

    ghost reply = { λ _. reply.PollNext };

    fn answered_by<R: RepliesTo<T>>(self, port: &R) -> Self::Answer {
        match port.reply_to(Call::PollNext(self.0)) {
            Reply::PollNext(answer) => answer,
            _ => unreachable!(),
        }
    }
}

impl<T: Clone> Polls<T> for PollNext {
    #[inline(always)]
    fn make_for<N: Notice, A: Allocator + Copy, M: MakesNotice<N>>(
        self,
        inner: &mut Inner<T, N, A>,
        maker: &mut M,
    ) -> Result<Self::Answer, Self> {
        match inner.poll_receive(ReceivePoll::Next, self.0, maker, &mut Uncounted) {
            Ok(received) => Ok(received.of_next()),
            Err(_) => Err(self),
        }
    }
}
