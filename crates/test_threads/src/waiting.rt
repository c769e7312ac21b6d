//! Threads that sleep in a call, with or without a limit, until another thread makes one.
use crate::scripts::Change::{
    Activate, ActivateCloned, Capacity, CloneReceiver, Deactivate, DropInactive, DropReceiver,
    DropSenders, NewReceiver, NoAwaiting, Overflow,
};
use crate::scripts::Polled::{Future, HeldFuture, HeldSend, Next, Recv, Woken};
use crate::scripts::Step::{
    Change, Poll, Receive, ReceiveInTime, SendInTime, TryRecv, TrySend, TrySendBoth,
};
use crate::scripts::{Polled, Row, Script, Step, wakes};
use async_broadcast::{RecvError, RecvTimeoutError, SendError, SendTimeoutError, broadcast};
use std::test::Fail;
use std::time::Duration;

/// Two threads that must get this message.
const RECEIVE: &[Script] = &[&[Receive(0, Ok(7))], &[Receive(0, Ok(7))]];

/// A thread that must see that the channel closed.
const END: Script = &[Receive(0, Err(RecvError::Closed))];

/// Rows on a channel of capacity 2, with no calls before.
const RECEIVERS: &[(&str, &[Script], Script)] = &[
    ("broadcast_blocking", RECEIVE, &[Step::Send(0, 7, Ok(None))]),
    ("try_broadcast", RECEIVE, &[TrySend(0, 7, Ok(None))]),
    ("try_broadcast_all", RECEIVE, &[TrySendBoth(7, 8)]),
    ("a polled broadcast", RECEIVE, &[Poll(Polled::Send(7))]),
    ("close", &[END, END], &[Step::Close]),
    (
        "the drop of the last sender",
        &[END, END],
        &[Change(DropSenders)],
    ),
    (
        "a message, beside a stream",
        RECEIVE,
        &[
            Poll(Recv(None)),
            Poll(Woken(false)),
            TrySend(0, 7, Ok(None)),
            Poll(Woken(true)),
            Poll(Next(Some(7))),
            Poll(Next(None)),
            Poll(Woken(false)),
            Step::Close,
            Poll(Woken(true)),
        ],
    ),
    (
        "a message, beside a receive of a task",
        RECEIVE,
        &[Poll(HeldFuture(7))],
    ),
];

/// One message, which fills a channel of capacity 1.
const FULL: Script = &[TrySend(0, 1, Ok(None))];

/// One message in a channel of capacity 1, which one of two receivers has read.
const HALF_READ: Script = &[
    Change(CloneReceiver),
    TrySend(0, 1, Ok(None)),
    TryRecv(0, Ok(1)),
];

/// The only receiver is inactive.
const INACTIVE: Script = &[Change(Deactivate)];

/// A thread whose message must be accepted, and two such threads.
const SEND: &[Script] = &[&[Step::Send(0, 2, Ok(None))]];

const SEND_BOTH: &[Script] = &[&[Step::Send(0, 2, Ok(None))], &[Step::Send(0, 2, Ok(None))]];

/// A thread whose send must drop the oldest message.
const DROP_OLDEST: &[Script] = &[&[Step::Send(0, 2, Ok(Some(1)))]];

/// A thread whose send must be refused.
const REFUSED: Script = &[Step::Send(0, 2, Err(SendError(2)))];

/// Rows on a channel of capacity 1.
const SENDERS: &[Row] = &[
    ("try_recv", FULL, SEND, &[TryRecv(0, Ok(1))]),
    ("recv_blocking", FULL, SEND, &[Receive(0, Ok(1))]),
    ("a polled recv", FULL, SEND, &[Poll(Future(1))]),
    ("poll_recv", FULL, SEND, &[Poll(Recv(Some(1)))]),
    ("a polled stream", FULL, SEND, &[Poll(Next(Some(1)))]),
    (
        "a receive, beside a send of a task",
        FULL,
        SEND,
        &[Poll(HeldSend(3))],
    ),
    (
        "the drop of a receiver that lags",
        HALF_READ,
        SEND,
        &[Change(DropReceiver)],
    ),
    (
        "a receiver that lags is made inactive",
        HALF_READ,
        SEND,
        &[Change(Deactivate)],
    ),
    (
        "a capacity of two more",
        FULL,
        SEND_BOTH,
        &[Change(Capacity(3))],
    ),
    ("overflow", FULL, DROP_OLDEST, &[Change(Overflow)]),
    (
        "sends wait no more for a receiver",
        INACTIVE,
        &[REFUSED, REFUSED],
        &[Change(NoAwaiting)],
    ),
    ("activate", INACTIVE, SEND, &[Change(Activate)]),
    ("activate_cloned", INACTIVE, SEND, &[Change(ActivateCloned)]),
    ("new_receiver", INACTIVE, SEND, &[Change(NewReceiver)]),
    ("close", FULL, &[REFUSED, REFUSED], &[Step::Close]),
    (
        "the drop of the last receiver",
        FULL,
        &[REFUSED, REFUSED],
        &[Change(DropReceiver)],
    ),
    (
        "the drop of the last inactive receiver",
        INACTIVE,
        &[REFUSED, REFUSED],
        &[Change(DropInactive)],
    ),
];

// A thread that sleeps in `recv_blocking` is woken by what it can receive, and wakes the next.
#[test]
fn sleeping_receivers_go_on(rt: HostRuntime) -> Result<(), Fail> {
    for (name, asleep, calls) in RECEIVERS {
        let row: Row = (*name, &[], *asleep, *calls);
        wakes(rt, broadcast(rt, rt.alloc(), 2)?, Duration::ZERO, row, &[])?;
    }
    Ok(())
}

// A thread that sleeps in `broadcast_blocking` is woken if its send may end, and wakes the next.
#[test]
fn sleeping_senders_go_on(rt: HostRuntime) -> Result<(), Fail> {
    for row in SENDERS {
        wakes(rt, broadcast(rt, rt.alloc(), 1)?, Duration::ZERO, *row, &[])?;
    }
    Ok(())
}

/// Limits that are longer than a test may take, in seconds.
const LONG: [u64; 2] = [3600, u64::MAX];

/// Rows on a channel of capacity 1, each with the calls that are made in the end.
const IN_TIME: &[(Row, Script)] = &[(MESSAGE, &[]), (ROOM, &[TryRecv(0, Ok(8))]), (CLOSED, &[])];

const MESSAGE: Row = (
    "a message wakes a receive",
    &[],
    &[&[ReceiveInTime(Ok(7))]],
    &[TrySend(0, 7, Ok(None))],
);

const ROOM: Row = (
    "room wakes a send",
    FULL,
    &[&[SendInTime(8, Ok(None))]],
    &[TryRecv(0, Ok(1))],
);

// One of two receivers has read the message, and waits for the next; a send waits for the other.
const CLOSED: Row = (
    "the end wakes both sides",
    HALF_READ,
    &[
        &[ReceiveInTime(Err(RecvTimeoutError::Closed))],
        &[SendInTime(2, Err(SendTimeoutError::Refused(2)))],
    ],
    &[Step::Close],
);

#[test]
fn sleepers_are_woken_in_time(rt: HostRuntime) -> Result<(), Fail> {
    for (row, after) in IN_TIME {
        for limit in LONG {
            let limit = Duration::from_secs(limit);
            wakes(rt, broadcast(rt, rt.alloc(), 1)?, limit, *row, *after)?;
        }
    }
    Ok(())
}
