//! The ways to make a call through a port.
ghost use Rattle.bcast_model.specs.Next.{HasPositiveCapacity};

use super::seen::accessors_of;
use async_broadcast::{Port, RecvError, TaskWaker};
use bcast_core::{
    AddHandle, AddReceiver, AtOnce, AttemptSend, BeginSend, Call, Change, Close, PollFuture,
    PollNext, PollRecv, PollSend, Polls, Reply, SendPoll, SetCapacity, TryBroadcast,
    TryBroadcastAll, TryRecv, TryRecvError,
};
use futures::test::MockTask;
use std::alloc::AllocError;

/// How the calls of a trace are made.
#[derive(Clone, Copy, Debug)]
pub(super) enum Way {
    /// Each as the type of call that it is.
    Typed,
    /// All as data.
    Data,
    /// By a call that waits if that needn't wait, and otherwise as `Typed`.
    Waiting,
    /// The first half on a channel that has no lock yet, and the others as `Typed`.
    LateLock,
}

/// A port, and the task that polls there.
#[derive(Drop)]
pub(super) struct Asked<'a, P> {
    pub(super) task: &'a MockTask,
    pub(super) port: &'a P,
}

impl<P: Port<u64>> Asked<'_, P> {
    /// Makes a call whose reply should be `wanted`. None: there was no memory for a notice.
    pub(super) fn ask(&self, way: Way, call: Call<u64>, wanted: &Reply<u64>) -> Option<Reply<u64>>
        requires { HasPositiveCapacity call }
    {
        match (way, wanted) {
            (Way::Data, _) => self.polled(call),
            (Way::Waiting, Reply::AttemptSend(SendPoll::Ready(_))) => waiting(self.port, call),
            (Way::Waiting, Reply::TryRecv(got)) if *got != Ok(Err(TryRecvError::Empty)) => {
                waiting(self.port, call)
            }
            _ => self.typed(call, wanted),
        }
    }

    /// Makes the call as the type that it is. An accessor is made with all others, and is looked
    /// for among their replies.
    fn typed(&self, call: Call<u64>, wanted: &Reply<u64>) -> Option<Reply<u64>>
        requires { HasPositiveCapacity call }
    {
        let port = self.port;
        let reply = match call {
            Call::PollSend(place, msg) => Reply::PollSend(self.polled(PollSend(place, msg))?),
            Call::PollFuture(key) => Reply::PollFuture(self.polled(PollFuture(key))?),
            Call::PollRecv(key) => Reply::PollRecv(self.polled(PollRecv(key))?),
            Call::PollNext(key) => Reply::PollNext(self.polled(PollNext(key))?),
            Call::EndFuture(key) => {
                port.end_future(&mut (), key, false);
                Reply::EndFuture
            }
            Call::TryBroadcast(msg) => Reply::TryBroadcast(made(port, TryBroadcast(msg))),
            Call::TryBroadcastAll(msgs) => {
                Reply::TryBroadcastAll(made(port, TryBroadcastAll(msgs)))
            }
            Call::AttemptSend(msg) => Reply::AttemptSend(made(port, AttemptSend(msg))),
            Call::BeginSend => Reply::BeginSend(made(port, BeginSend)),
            Call::TryRecv(key) => Reply::TryRecv(made(port, TryRecv(key))),
            Call::Close => Reply::Close(made(port, Close)),
            Call::SetCapacity(n) => Reply::SetCapacity(made(port, SetCapacity(n))),
            Call::NewSender => Reply::NewSender(made(port, AddHandle::Sender)),
            Call::CloneInactive => Reply::CloneInactive(made(port, AddHandle::Inactive)),
            Call::Deactivate(key) => Reply::Deactivate(made(port, AddHandle::Deactivated(key))),
            Call::NewReceiver => Reply::NewReceiver(made(port, AddReceiver::New)),
            Call::Activate => Reply::Activate(made(port, AddReceiver::Activate)),
            Call::ActivateCloned => Reply::ActivateCloned(made(port, AddReceiver::ActivateCloned)),
            Call::CloneReceiver(key) => Reply::CloneReceiver(made(port, AddReceiver::Clone(key))),
            Call::EndSend(place) => changed(port, Change::EndSend(place), Reply::EndSend),
            Call::SetOverflow(on) => changed(port, Change::SetOverflow(on), Reply::SetOverflow),
            Call::SetAwaitActive(on) => {
                changed(port, Change::SetAwaitActive(on), Reply::SetAwaitActive)
            }
            Call::DropSender => changed(port, Change::DropSender, Reply::DropSender),
            Call::DropInactive => changed(port, Change::DropInactive, Reply::DropInactive),
            Call::DropReceiver(key) => changed(
                port,
                Change::DropReceiver(key),
                Reply::DropReceiver,
            ),
            _ => return accessors_of(port).into_iter().find(|reply| reply == wanted),
        };
        Some(reply)
    }

    /// Makes a call that may have to wait, in the task. None: there was no memory for a notice.
    fn polled<C: Polls<u64>>(&self, call: C) -> Option<C::Answer>
        requires { HasPositiveCapacity (C.call call) }
    {
        let mut waker = TaskWaker::new();
        let port = self.port;
        self.task
            .enter(|cx| port.poll(&mut (), call, &mut waker, cx))
            .ok()
    }
}

/// Makes a call that never waits.
pub(super) fn made<P: Port<u64>, C: AtOnce<u64>>(port: &P, call: C) -> C::Answer
    requires { HasPositiveCapacity (C.call call) }
{
    port.ask(&mut (), call)
}

/// Makes a call that returns nothing, and returns the reply to it.
fn changed<P: Port<u64>>(port: &P, change: Change, reply: Reply<u64>) -> Reply<u64> {
    made(port, change);
    reply
}

/// Makes a call that waits until it needn't. None: it isn't one of those.
pub(super) fn waiting<P: Port<u64>>(port: &P, call: Call<u64>) -> Option<Reply<u64>> {
    match call {
        Call::AttemptSend(msg) => {
            let sent = port.send_waiting(&mut (), msg);
            Some(Reply::AttemptSend(SendPoll::Ready(sent)))
        }
        Call::TryRecv(key) => Some(Reply::TryRecv(tried(port.receive_waiting(&mut (), key)))),
        _ => None,
    }
}

/// What a receive that waited returned, as one at once returns it.
fn tried(
    received: Result<Result<u64, RecvError>, AllocError>,
) -> Result<Result<u64, TryRecvError>, AllocError> {
    Ok(received?.map_err(|error| match error {
        RecvError::Overflowed(missed) => TryRecvError::Overflowed(missed),
        RecvError::Closed => TryRecvError::Closed,
    }))
}
