//! Copies of calls and replies, if messages are `Copy`, and those that an entry needs.
ghost use Rattle.std.specs.Prelude.{◌≡◌, ◌<◌, ◌^◌, IfOk, IfSome, vec_len, vec_capacity};
ghost use Rattle.bcast_record.specs.Copies.{list_of, IsListOf};

use crate::entry::Entry;
use bcast_core::{Call, Messages, Reply, TrySendError};
use futures::task::Poll;
use std::alloc::{AllocError, Allocator};

// A copy of a value of this enum: first its variants without fields, then those with a field that
// is `Copy`, and then the others, each as written.
macro_rules! copied {
    ($on:expr, $of:ident [$($bare:ident)*] [$($one:ident)*] { $($other:pat => $copy:expr,)* }) => {
        match $on {
            $($of::$bare => $of::$bare,)*
            $($of::$one(field) => $of::$one(*field),)*
            $($other => $copy,)*
        }
    };
}

/// A copy of the call.
///
/// # Errors
///
/// - `AllocError`: no memory for its list of messages. A call without a list needs none.
pub fn copy_of_call<T: Copy>(call: &Call<T>) -> Result<Call<T>, AllocError>
    ensures { IfOk result (λ copy. copy ≡ call.now) }
{
    Ok(copied!(call, Call
        [BeginSend Close NewSender CloneInactive NewReceiver Activate ActivateCloned DropSender
            DropInactive Overflow AwaitActive IsEmpty IsFull IsClosed IsTerminated Capacity Len
            ReceiverCount InactiveReceiverCount SenderCount EndNumber]
        [TryBroadcast AttemptSend EndSend TryRecv PollFuture EndFuture PollRecv PollNext SetCapacity
            SetOverflow SetAwaitActive Deactivate CloneReceiver DropReceiver]
        {
            Call::TryBroadcastAll(msgs) => Call::TryBroadcastAll(msgs.copied()?),
            Call::PollSend(place, msg) => Call::PollSend(*place, *msg),
        }
    ))
}

/// A copy of the list of a call that has one.
pub(crate) fn copy_of_list<T: Copy>(call: &Call<T>) -> Result<Option<Messages<T>>, AllocError>
    ensures { IfOk result (λ list. list ≡ list_of call.now) }
{
    match call {
        Call::TryBroadcastAll(msgs) => Ok(Some(msgs.copied()?)),
        _ => Ok(None),
    }
}

/// A copy of the reply.
///
/// # Errors
///
/// - `AllocError`: no memory for the list of messages that it hands back. Any other reply needs
///   none.
pub fn copy_of_reply<T: Copy>(reply: &Reply<T>) -> Result<Reply<T>, AllocError>
    ensures { IfOk result (λ copy. copy ≡ reply.now) }
{
    let list = match reply {
        Reply::TryBroadcastAll(Err(TrySendError::Full(msgs))) => Some(msgs.copied()?),
        Reply::TryBroadcastAll(Err(TrySendError::Closed(msgs))) => Some(msgs.copied()?),
        Reply::TryBroadcastAll(Err(TrySendError::Inactive(msgs))) => Some(msgs.copied()?),
        _ => None,
    };
    Ok(copy_with(reply, list))
}

/// A copy of the reply. `list` is a copy of the list that it hands back, if it does.
pub(crate) fn copy_with<T: Copy>(reply: &Reply<T>, list: Option<Messages<T>>) -> Reply<T>
    requires { IsListOf list reply.now }
    ensures { result ≡ reply.now }
{
    copied!(reply, Reply
        [EndSend EndFuture SetOverflow SetAwaitActive DropSender DropInactive DropReceiver]
        [TryBroadcast AttemptSend BeginSend PollSend TryRecv Close SetCapacity NewSender
            CloneInactive Deactivate NewReceiver Activate ActivateCloned CloneReceiver Overflow
            AwaitActive IsEmpty IsFull IsClosed IsTerminated Capacity Len ReceiverCount
            InactiveReceiverCount SenderCount EndNumber]
        {
            Reply::TryBroadcastAll(Ok(())) => Reply::TryBroadcastAll(Ok(())),
            Reply::TryBroadcastAll(Err(error)) => {
                let Some(msgs) = list else { unreachable!() };
                Reply::TryBroadcastAll(Err(match error {
                    TrySendError::Full(_) => TrySendError::Full(msgs),
                    TrySendError::Closed(_) => TrySendError::Closed(msgs),
                    TrySendError::Inactive(_) => TrySendError::Inactive(msgs),
                }))
            },
            Reply::PollFuture(answer) => Reply::PollFuture(copy_of_poll(answer)),
            Reply::PollRecv(answer) => Reply::PollRecv(copy_of_poll(answer)),
            Reply::PollNext(answer) => Reply::PollNext(copy_of_poll(answer)),
        }
    )
}

fn copy_of_poll<X: Copy>(answer: &Result<Poll<X>, AllocError>) -> Result<Poll<X>, AllocError>
    ensures { result ≡ answer.now }
{
    match answer {
        Ok(Poll::Ready(item)) => Ok(Poll::Ready(*item)),
        Ok(Poll::Pending) => Ok(Poll::Pending),
        Err(error) => Err(*error),
    }
}

// More entries than the memory of a machine has room for.
const MOST_ENTRIES: usize = 1 << 60;

/// Two copies of a call, and one of its list, which the reply may hand back.
#[derive(Drop)]
pub(crate) struct Spares<T> {
    stored: Call<T>,
    given: Call<T>,
    list: Option<Messages<T>>,
}

impl<T: Copy> Spares<T> {
    /// Makes room for one more entry, and the copies that are needed for this call.
    pub(crate) fn of<A: Allocator>(
        entries: &mut Vec<Entry<T>, A>,
        call: &Call<T>,
    ) -> Option<Spares<T>>
        ensures items { entries.new.items ≡ entries.old.items }
        ensures len { vec_len entries.new ≡ vec_len entries.old }
        ensures room { IfSome result (λ spares. vec_len entries.new < vec_capacity entries.new) }
        ensures most { IfSome result (λ spares. vec_len entries.new < 2 ^ 60) }
        ensures stored { IfSome result (λ spares. spares.stored ≡ call.now) }
        ensures given { IfSome result (λ spares. spares.given ≡ call.now) }
        ensures list { IfSome result (λ spares. spares.list ≡ list_of call.now) }
    {
        if entries.len() >= MOST_ENTRIES {
            return None;
        }
        entries.reserve(1).ok()?;
        Some(Spares {
            stored: copy_of_call(call).ok()?,
            given: copy_of_call(call).ok()?,
            list: copy_of_list(call).ok()?,
        })
    }

    /// The entry of the call with this reply, for the log and for the receipt.
    pub(crate) fn into_entries(self, seat: usize, reply: Reply<T>) -> (Entry<T>, Entry<T>)
        requires { IsListOf self.list reply }
        ensures stored { result.0 ≡ record { seat = seat; call = self.stored; reply = reply } }
        ensures given { result.1 ≡ record { seat = seat; call = self.given; reply = reply } }
    {
        let Spares {
            stored,
            given,
            list,
        } = self;
        let stored = Entry {
            seat,
            call: stored,
            reply: copy_with(&reply, list),
        };
        let given = Entry {
            seat,
            call: given,
            reply,
        };
        (stored, given)
    }
}
