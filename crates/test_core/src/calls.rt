//! The channel that tests begin with, its calls, and their replies, as traces spell them.
ghost use Rattle.std.specs.Prelude.{◌<◌};

use bcast_core::{Inner, Reply, Silent, step};
use bcast_trace::call::read_call;
use bcast_trace::reply::write_reply;
use std::alloc::{AllocError, Allocator, Global};
use std::process::Abort;
use std::test::Fail;

/// A channel of numbers.
pub(crate) type Channel<A = Global> = Inner<u64, Silent, A>;

/// A new channel of this capacity, whose receiver has the key 0.
pub(crate) fn channel<T: Drop>(
    rt: &impl Abort,
    alloc: Global,
    capacity: usize,
) -> Result<Inner<T, Silent>, AllocError>
    requires { 0 < capacity }
{
    let (inner, key) = Inner::new(alloc, capacity)?;
    assert!(rt; key == 0);
    Ok(inner)
}

/// Makes the call of this text. The reply must be of its kind.
pub(crate) fn ask<A: Allocator + Copy>(
    alloc: Global,
    inner: &mut Channel<A>,
    call: &str,
) -> Result<Reply<u64>, Fail> {
    let reply = match read_call(alloc, call)? {
        Some(call) => step(inner, call, Silent),
        None => return Err(Fail::from(call)),
    };
    if !is_of_kind(call, &reply) {
        return Err(Fail::from(call));
    }
    Ok(reply)
}

/// Whether the call of this text gets the reply of that text.
pub(crate) fn gets<A: Allocator + Copy>(
    alloc: Global,
    inner: &mut Channel<A>,
    call: &str,
    reply: &str,
) -> Result<bool, Fail> {
    let mut text = Vec::new(alloc);
    write_reply(&ask(alloc, inner, call)?, &mut text)?;
    Ok(text.as_slice() == reply.as_bytes())
}

/// Whether the reply has the name of the call of this text. Replies of two names can be one text.
pub(crate) fn is_of_kind(call: &str, reply: &Reply<u64>) -> bool {
    call.split_whitespace().next() == Some(name_of(reply))
}

fn name_of(reply: &Reply<u64>) -> &'static str {
    match reply {
        Reply::TryBroadcast(_) => "TryBroadcast",
        Reply::TryBroadcastAll(_) => "TryBroadcastAll",
        Reply::AttemptSend(_) => "AttemptSend",
        Reply::BeginSend(_) => "BeginSend",
        Reply::PollSend(_) => "PollSend",
        Reply::EndSend => "EndSend",
        Reply::TryRecv(_) => "TryRecv",
        Reply::PollFuture(_) => "PollFuture",
        Reply::EndFuture => "EndFuture",
        Reply::PollRecv(_) => "PollRecv",
        Reply::PollNext(_) => "PollNext",
        Reply::Close(_) => "Close",
        Reply::SetCapacity(_) => "SetCapacity",
        Reply::SetOverflow => "SetOverflow",
        Reply::SetAwaitActive => "SetAwaitActive",
        Reply::NewSender(_) => "NewSender",
        Reply::CloneInactive(_) => "CloneInactive",
        Reply::Deactivate(_) => "Deactivate",
        Reply::NewReceiver(_) => "NewReceiver",
        Reply::Activate(_) => "Activate",
        Reply::ActivateCloned(_) => "ActivateCloned",
        Reply::CloneReceiver(_) => "CloneReceiver",
        Reply::DropSender => "DropSender",
        Reply::DropInactive => "DropInactive",
        Reply::DropReceiver => "DropReceiver",
        Reply::Overflow(_) => "Overflow",
        Reply::AwaitActive(_) => "AwaitActive",
        Reply::IsEmpty(_) => "IsEmpty",
        Reply::IsFull(_) => "IsFull",
        Reply::IsClosed(_) => "IsClosed",
        Reply::IsTerminated(_) => "IsTerminated",
        Reply::Capacity(_) => "Capacity",
        Reply::Len(_) => "Len",
        Reply::ReceiverCount(_) => "ReceiverCount",
        Reply::InactiveReceiverCount(_) => "InactiveReceiverCount",
        Reply::SenderCount(_) => "SenderCount",
        Reply::EndNumber(_) => "EndNumber",
    }
}
