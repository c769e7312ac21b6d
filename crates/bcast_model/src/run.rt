//! Calls on a channel, and their replies, as data.
use crate::error::{HandleError, RecvError, SendError, TryRecvError, TrySendError};
use crate::messages::Messages;
use futures::task::Poll;
use std::alloc::AllocError;

/// What one attempt of a send that may wait returns.
#[derive(Clone, Copy, PartialEq, Debug, Drop)]
pub enum SendPoll<T> {
    /// The message was accepted, and the oldest one is handed back if overflow dropped it;
    /// or the message is handed back: the channel is closed, or there is no active receiver and
    /// sends do not await one.
    Ready(Result<Option<T>, SendError<T>>),
    /// The send must wait. The message is handed back.
    Wait(T),
}

/// One call on a channel: the state call of the same name, with its arguments.
///
/// A `usize` is a receiver's key, in `PollSend` and `EndSend` a send's place, and in `SetCapacity`
/// the new capacity.
#[derive(Clone, PartialEq, Debug, Drop)]
pub enum Call<T> {
    TryBroadcast(T),
    TryBroadcastAll(Messages<T>),
    AttemptSend(T),
    BeginSend,
    PollSend(usize, T),
    EndSend(usize),
    TryRecv(usize),
    PollFuture(usize),
    EndFuture(usize),
    PollRecv(usize),
    PollNext(usize),
    Close,
    SetCapacity(usize),
    SetOverflow(bool),
    SetAwaitActive(bool),
    NewSender,
    CloneInactive,
    Deactivate(usize),
    NewReceiver,
    Activate,
    ActivateCloned,
    CloneReceiver(usize),
    DropSender,
    DropInactive,
    DropReceiver(usize),
    Overflow,
    AwaitActive,
    IsEmpty,
    IsFull,
    IsClosed,
    IsTerminated,
    Capacity,
    Len,
    ReceiverCount,
    InactiveReceiverCount,
    SenderCount,
    EndNumber,
}

/// What the state call of the same name returned.
#[derive(PartialEq, Drop)]
pub enum Reply<T> {
    TryBroadcast(Result<Option<T>, TrySendError<T>>),
    TryBroadcastAll(Result<(), TrySendError<Messages<T>>>),
    AttemptSend(SendPoll<T>),
    BeginSend(Result<usize, AllocError>),
    PollSend(SendPoll<T>),
    EndSend,
    TryRecv(Result<Result<T, TryRecvError>, AllocError>),
    PollFuture(Result<Poll<Result<T, RecvError>>, AllocError>),
    EndFuture,
    PollRecv(Result<Poll<Option<Result<T, RecvError>>>, AllocError>),
    PollNext(Result<Poll<Option<(T, u64)>>, AllocError>),
    Close(bool),
    SetCapacity(Result<(), AllocError>),
    SetOverflow,
    SetAwaitActive,
    NewSender(Result<(), HandleError>),
    CloneInactive(Result<(), HandleError>),
    Deactivate(Result<(), HandleError>),
    NewReceiver(Result<usize, HandleError>),
    Activate(Result<usize, HandleError>),
    ActivateCloned(Result<usize, HandleError>),
    CloneReceiver(Result<usize, HandleError>),
    DropSender,
    DropInactive,
    DropReceiver,
    Overflow(bool),
    AwaitActive(bool),
    IsEmpty(bool),
    IsFull(bool),
    IsClosed(bool),
    IsTerminated(bool),
    Capacity(usize),
    Len(usize),
    ReceiverCount(usize),
    InactiveReceiverCount(usize),
    SenderCount(usize),
    EndNumber(u64),
}
