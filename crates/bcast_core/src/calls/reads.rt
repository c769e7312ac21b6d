//! Calls that only read.
ghost use Rattle.bcast_model.specs.declared.run.Call.TheVariants as call;
ghost use Rattle.bcast_model.specs.declared.run.Reply.TheVariants as reply;
ghost use Rattle.bcast_core.specs.Calls.{count_call, count_reply, test_call, test_reply};

use super::{AtOnce, CallOf, RepliesTo};
use crate::state::Inner;
use bcast_model::run::{Call, Reply};
use bcast_waiting::notice::Notice;
use std::alloc::Allocator;

/// A call that reads a number: the state call of the same name.
#[derive(Clone, Copy, Drop)]
pub enum Count {
    Capacity,
    Len,
    ReceiverCount,
    InactiveReceiverCount,
    SenderCount,
}

impl<T: Drop> CallOf<T> for Count {
    type Answer = usize;

    ghost call = { count_call };

    ghost reply = { count_reply };

    fn answered_by<R: RepliesTo<T>>(self, port: &R) -> Self::Answer {
        let call = match self {
            Count::Capacity => Call::Capacity,
            Count::Len => Call::Len,
            Count::ReceiverCount => Call::ReceiverCount,
            Count::InactiveReceiverCount => Call::InactiveReceiverCount,
            Count::SenderCount => Call::SenderCount,
        };
        match port.reply_to(call) {
            Reply::Capacity(answer) => answer,
            Reply::Len(answer) => answer,
            Reply::ReceiverCount(answer) => answer,
            Reply::InactiveReceiverCount(answer) => answer,
            Reply::SenderCount(answer) => answer,
            _ => unreachable!(),
        }
    }
}

impl<T: Clone> AtOnce<T> for Count {
    #[inline(always)]
    fn make<N: Notice, A: Allocator + Copy>(self, inner: &mut Inner<T, N, A>) -> Self::Answer {
        inner.invariant_holds();
        match self {
            Count::Capacity => inner.capacity(),
            Count::Len => inner.len(),
            Count::ReceiverCount => inner.receiver_count(),
            Count::InactiveReceiverCount => inner.inactive_receiver_count(),
            Count::SenderCount => inner.sender_count(),
        }
    }
}

/// A call that reads whether something is so: the state call of the same name.
#[derive(Clone, Copy, Drop)]
pub enum Test {
    Overflow,
    AwaitActive,
    IsEmpty,
    IsFull,
    IsClosed,
    IsTerminated,
}

impl<T: Drop> CallOf<T> for Test {
    type Answer = bool;

    ghost call = { test_call };

    ghost reply = { test_reply };

    fn answered_by<R: RepliesTo<T>>(self, port: &R) -> Self::Answer {
        let call = match self {
            Test::Overflow => Call::Overflow,
            Test::AwaitActive => Call::AwaitActive,
            Test::IsEmpty => Call::IsEmpty,
            Test::IsFull => Call::IsFull,
            Test::IsClosed => Call::IsClosed,
            Test::IsTerminated => Call::IsTerminated,
        };
        match port.reply_to(call) {
            Reply::Overflow(answer) => answer,
            Reply::AwaitActive(answer) => answer,
            Reply::IsEmpty(answer) => answer,
            Reply::IsFull(answer) => answer,
            Reply::IsClosed(answer) => answer,
            Reply::IsTerminated(answer) => answer,
            _ => unreachable!(),
        }
    }
}

impl<T: Clone> AtOnce<T> for Test {
    #[inline(always)]
    fn make<N: Notice, A: Allocator + Copy>(self, inner: &mut Inner<T, N, A>) -> Self::Answer {
        inner.invariant_holds();
        match self {
            Test::Overflow => inner.overflow(),
            Test::AwaitActive => inner.await_active(),
            Test::IsEmpty => inner.is_empty(),
            Test::IsFull => inner.is_full(),
            Test::IsClosed => inner.is_closed(),
            Test::IsTerminated => inner.is_terminated(),
        }
    }
}

/// `Inner::end_number`.
#[derive(Drop)]
pub struct EndNumber;

impl<T: Drop> CallOf<T> for EndNumber {
    type Answer = u64;

    ghost call = { λ _. call.EndNumber };

    ghost reply = { λ _. reply.EndNumber };

    fn answered_by<R: RepliesTo<T>>(self, port: &R) -> Self::Answer {
        match port.reply_to(Call::EndNumber) {
            Reply::EndNumber(answer) => answer,
            _ => unreachable!(),
        }
    }
}

impl<T: Clone> AtOnce<T> for EndNumber {
    #[inline(always)]
    fn make<N: Notice, A: Allocator + Copy>(self, inner: &mut Inner<T, N, A>) -> Self::Answer {
        inner.invariant_holds();
        inner.end_number()
    }
}
