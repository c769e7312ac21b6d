//! What a recording port replies.
ghost use Rattle.bcast_core.specs.Kinds.{HandsBack, IsOfKind};

use async_broadcast::{
    Call, HandleError, Messages, RecvError, Reply, SendError, SendPoll, TryRecvError, TrySendError,
};
use futures::task::Poll;
use std::alloc::AllocError;

/// How a port replies.
#[derive(Clone, Copy, PartialEq)]
pub enum Outcome {
    /// What was asked for; to a question, yes.
    Grant,
    /// Full, no memory, too many handles; to a question, no.
    Refuse,
    /// The poll must wait.
    Wait,
    /// A send drops a message, a receive missed some; no memory for a handle.
    Overflow,
    /// Closed; the handle is gone.
    Close,
    /// A send finds no active receiver; no memory.
    Inactive,
}

/// The key or the place that a port gives.
const GIVEN: usize = 9;

/// The message that a receive is given.
const MESSAGE: u64 = 7;

/// The message that was dropped for a send.
const OLDEST: u64 = 6;

/// How many messages a receive missed.
const MISSED: u64 = 2;

pub(super) fn reply_to(outcome: Outcome, call: Call<u64>) -> Reply<u64>
    ensures { IsOfKind call result }
{
    let yes = outcome != Outcome::Refuse;
    match call {
        Call::TryBroadcast(msg) => Reply::TryBroadcast(tried(outcome, msg)),
        Call::TryBroadcastAll(msgs) => Reply::TryBroadcastAll(tried_all(outcome, msgs)),
        Call::AttemptSend(msg) => Reply::AttemptSend(polled(outcome, msg)),
        Call::BeginSend => Reply::BeginSend(begun(outcome)),
        Call::PollSend(_, msg) => Reply::PollSend(polled(outcome, msg)),
        Call::EndSend(_) => Reply::EndSend,
        Call::TryRecv(_) => Reply::TryRecv(received(outcome)),
        Call::PollFuture(_) => Reply::PollFuture(awaited(outcome, message(outcome))),
        Call::EndFuture(_) => Reply::EndFuture,
        Call::PollRecv(_) => Reply::PollRecv(awaited(outcome, item(outcome))),
        Call::PollNext(_) => Reply::PollNext(awaited(outcome, next(outcome))),
        Call::Close => Reply::Close(yes),
        Call::SetCapacity(_) => Reply::SetCapacity(grown(outcome)),
        Call::SetOverflow(_) => Reply::SetOverflow,
        Call::SetAwaitActive(_) => Reply::SetAwaitActive,
        Call::NewSender => Reply::NewSender(made(outcome, ())),
        Call::CloneInactive => Reply::CloneInactive(made(outcome, ())),
        Call::Deactivate(_) => Reply::Deactivate(made(outcome, ())),
        Call::NewReceiver => Reply::NewReceiver(made(outcome, GIVEN)),
        Call::Activate => Reply::Activate(made(outcome, GIVEN)),
        Call::ActivateCloned => Reply::ActivateCloned(made(outcome, GIVEN)),
        Call::CloneReceiver(_) => Reply::CloneReceiver(made(outcome, GIVEN)),
        Call::DropSender => Reply::DropSender,
        Call::DropInactive => Reply::DropInactive,
        Call::DropReceiver(_) => Reply::DropReceiver,
        Call::Overflow => Reply::Overflow(yes),
        Call::AwaitActive => Reply::AwaitActive(yes),
        Call::IsEmpty => Reply::IsEmpty(yes),
        Call::IsFull => Reply::IsFull(yes),
        Call::IsClosed => Reply::IsClosed(yes),
        Call::IsTerminated => Reply::IsTerminated(yes),
        Call::Capacity => Reply::Capacity(1),
        Call::Len => Reply::Len(1),
        Call::ReceiverCount => Reply::ReceiverCount(1),
        Call::InactiveReceiverCount => Reply::InactiveReceiverCount(1),
        Call::SenderCount => Reply::SenderCount(1),
        Call::EndNumber => Reply::EndNumber(1),
    }
}

fn tried<M: Drop>(outcome: Outcome, msg: M) -> Result<Option<u64>, TrySendError<M>> {
    match outcome {
        Outcome::Grant => Ok(None),
        Outcome::Overflow => Ok(Some(OLDEST)),
        Outcome::Refuse | Outcome::Wait => Err(TrySendError::Full(msg)),
        Outcome::Close => Err(TrySendError::Closed(msg)),
        Outcome::Inactive => Err(TrySendError::Inactive(msg)),
    }
}

fn tried_all(outcome: Outcome, msgs: Messages<u64>) -> Result<(), TrySendError<Messages<u64>>> {
    tried(outcome, msgs)?;
    Ok(())
}

/// What a send that needn't wait is given.
pub(super) fn answered(outcome: Outcome, msg: u64) -> Result<Option<u64>, SendError<u64>> {
    match outcome {
        Outcome::Grant | Outcome::Wait => Ok(None),
        Outcome::Overflow => Ok(Some(OLDEST)),
        Outcome::Refuse | Outcome::Close | Outcome::Inactive => Err(SendError(msg)),
    }
}

/// What the poll of a send is given.
pub(super) fn polled(outcome: Outcome, msg: u64) -> SendPoll<u64>
    ensures { HandsBack msg result }
{
    match outcome {
        Outcome::Wait => SendPoll::Wait(msg),
        _ => SendPoll::Ready(answered(outcome, msg)),
    }
}

fn begun(outcome: Outcome) -> Result<usize, AllocError> {
    made(outcome, GIVEN).ok().ok_or(AllocError)
}

fn grown(outcome: Outcome) -> Result<(), AllocError> {
    begun(outcome)?;
    Ok(())
}

/// What `try_recv` is given.
pub(super) fn received(outcome: Outcome) -> Result<Result<u64, TryRecvError>, AllocError> {
    match outcome {
        Outcome::Grant => Ok(Ok(MESSAGE)),
        Outcome::Wait => Ok(Err(TryRecvError::Empty)),
        Outcome::Overflow => Ok(Err(TryRecvError::Overflowed(MISSED))),
        Outcome::Close => Ok(Err(TryRecvError::Closed)),
        Outcome::Refuse | Outcome::Inactive => Err(AllocError),
    }
}

/// What a receive that needn't wait is given.
pub(super) fn waited(outcome: Outcome) -> Result<Result<u64, RecvError>, AllocError> {
    match outcome {
        Outcome::Refuse | Outcome::Inactive => Err(AllocError),
        _ => Ok(message(outcome)),
    }
}

// What a future is given.
fn message(outcome: Outcome) -> Result<u64, RecvError> {
    match outcome {
        Outcome::Overflow => Err(RecvError::Overflowed(MISSED)),
        Outcome::Close => Err(RecvError::Closed),
        _ => Ok(MESSAGE),
    }
}

// What `poll_recv` is given.
fn item(outcome: Outcome) -> Option<Result<u64, RecvError>> {
    match outcome {
        Outcome::Close => None,
        _ => Some(message(outcome)),
    }
}

// What a stream is given, with how many messages it skipped.
fn next(outcome: Outcome) -> Option<(u64, u64)> {
    match outcome {
        Outcome::Overflow => Some((MESSAGE, MISSED)),
        Outcome::Close => None,
        _ => Some((MESSAGE, 0)),
    }
}

fn awaited<M: Drop>(outcome: Outcome, answer: M) -> Result<Poll<M>, AllocError> {
    match outcome {
        Outcome::Wait => Ok(Poll::Pending),
        Outcome::Refuse | Outcome::Inactive => Err(AllocError),
        _ => Ok(Poll::Ready(answer)),
    }
}

fn made<K: Drop>(outcome: Outcome, key: K) -> Result<K, HandleError> {
    match outcome {
        Outcome::Grant | Outcome::Wait => Ok(key),
        Outcome::Refuse => Err(HandleError::TooMany),
        Outcome::Overflow | Outcome::Inactive => Err(HandleError::Memory),
        Outcome::Close => Err(HandleError::Gone),
    }
}
