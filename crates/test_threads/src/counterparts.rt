//! Counterparts of most of async-broadcast's tests, and of the example of its README.
use crate::hands::Hands;
use crate::scripts::{Change, Row, Script, Step, begin, end};
use crate::steps::{Ends, Host, ThreadPort};
use async_broadcast::{RecvError, TryRecvError, TrySendError, broadcast};
use std::sync::{Arc, Barrier};
use std::test::Fail;

mod one_thread;

const PARALLEL_SENDS: Script = &[
    Step::Change(Change::CloneSender),
    Step::Meet(0),
    Step::TrySend(0, 7, Ok(None)),
    Step::TrySend(1, 8, Ok(None)),
    Step::TrySend(1, 9, Err(TrySendError::Full(9))),
    Step::TrySend(0, 10, Err(TrySendError::Full(10))),
    Step::Meet(1),
    Step::DropAll,
    Step::Meet(2),
];

const PARALLEL_RECEIVES: Script = &[
    Step::Change(Change::CloneReceiver),
    Step::TryRecv(0, Err(TryRecvError::Empty)),
    Step::TryRecv(1, Err(TryRecvError::Empty)),
    Step::Meet(0),
    Step::Meet(1),
    Step::TryRecv(0, Ok(7)),
    Step::TryRecv(0, Ok(8)),
    Step::TryRecv(1, Ok(7)),
    Step::TryRecv(1, Ok(8)),
    Step::Meet(2),
    Step::TryRecv(0, Err(TryRecvError::Closed)),
    Step::TryRecv(1, Err(TryRecvError::Closed)),
];

const WAITING_SENDS: Script = &[
    Step::Change(Change::CloneSender),
    Step::Meet(0),
    Step::Send(0, 7, Ok(None)),
    Step::Send(1, 8, Ok(None)),
    Step::TrySend(1, 9, Err(TrySendError::Full(9))),
    Step::TrySend(0, 10, Err(TrySendError::Full(10))),
    Step::Meet(1),
    Step::Send(0, 9, Ok(None)),
    Step::Send(1, 10, Ok(None)),
    Step::DropAll,
    Step::Meet(2),
];

const WAITING_RECEIVES: Script = &[
    Step::Change(Change::CloneReceiver),
    Step::TryRecv(0, Err(TryRecvError::Empty)),
    Step::TryRecv(1, Err(TryRecvError::Empty)),
    Step::Meet(0),
    Step::Meet(1),
    Step::Receive(0, Ok(7)),
    Step::Receive(1, Ok(7)),
    Step::Receive(0, Ok(8)),
    Step::Receive(1, Ok(8)),
    Step::Meet(2),
    Step::Receive(0, Ok(9)),
    Step::Receive(1, Ok(9)),
    Step::Receive(0, Ok(10)),
    Step::Receive(1, Ok(10)),
    Step::Receive(0, Err(RecvError::Closed)),
    Step::Receive(1, Err(RecvError::Closed)),
];

/// Plays a row over a new channel. As many threads as `meet` says meet at each barrier, the test's
/// own thread among them.
fn play<P: ThreadPort>(
    rt: impl Host + 'static,
    ends: Ends<P>,
    meet: &[usize],
    row: Row,
    after: Script,
) -> Result<(), Fail> {
    let mut barriers = Vec::new(rt.alloc());
    for met in meet {
        barriers.push(Barrier::new(*met))?;
    }
    let mut hands = Hands::both(rt.alloc(), ends)?;
    hands.barriers = Some(Arc::new(rt.alloc(), barriers)?);
    let group = begin(rt, &mut hands, row)?;
    end(rt, &mut hands, group, row, after);
    Ok(())
}

/// Leaves a channel to the threads that meet then.
const LEAVE: Script = &[Step::DropAll, Step::Meet(0)];

/// Plays a thread that sends, and one that receives, over a channel of capacity 2.
fn play_two(rt: impl Host + 'static, row: Row) -> Result<(), Fail> {
    play(rt, broadcast(rt, rt.alloc(), 2)?, &[3, 2, 2], row, &[])
}

const PARALLEL: Row = ("parallel", &[], &[PARALLEL_SENDS, PARALLEL_RECEIVES], LEAVE);

// A full channel refuses, what was sent is received, and the drop of the last sender closes.
#[test]
fn parallel(rt: HostRuntime) -> Result<(), Fail> {
    play_two(rt, PARALLEL)
}

const WAITING: Row = (
    "parallel_async",
    &[],
    &[WAITING_SENDS, WAITING_RECEIVES],
    LEAVE,
);

// As in `parallel`, with both sides waiting, and with two more messages.
#[test]
fn parallel_async(rt: HostRuntime) -> Result<(), Fail> {
    play_two(rt, WAITING)
}

const OVERFLOW_SENDS: Script = &[
    Step::Send(0, 7, Ok(None)),
    Step::Send(0, 8, Ok(None)),
    Step::Meet(0),
    Step::Send(0, 9, Ok(Some(7))),
    Step::Meet(1),
];

const OVERFLOW_RECEIVES: Script = &[
    Step::Receive(0, Ok(7)),
    Step::Receive(0, Ok(8)),
    Step::Meet(0),
    Step::Receive(0, Ok(9)),
    Step::Meet(1),
];

const OVERFLOW_LAGS: Script = &[
    Step::TryRecv(0, Err(TryRecvError::Overflowed(1))),
    Step::TryRecv(0, Ok(8)),
    Step::TryRecv(0, Ok(9)),
];

const OVERFLOW: Row = (
    "overflow",
    &[Step::Change(Change::ReceiverOverflow)],
    &[OVERFLOW_RECEIVES, OVERFLOW_RECEIVES, OVERFLOW_SENDS],
    &[],
);

// A receiver that reads nothing misses what is dropped, and others get all messages.
#[test]
fn overflow(rt: HostRuntime) -> Result<(), Fail> {
    play(
        rt,
        broadcast(rt, rt.alloc(), 2)?,
        &[3, 3],
        OVERFLOW,
        OVERFLOW_LAGS,
    )
}

const OPEN_SENDS: Script = &[
    Step::Change(Change::CloneSender),
    Step::Meet(0),
    Step::Send(0, 7, Ok(None)),
    Step::Send(1, 8, Ok(None)),
    Step::Meet(1),
    Step::TrySend(0, 9, Err(TrySendError::Inactive(9))),
    Step::TrySend(1, 10, Err(TrySendError::Inactive(10))),
    Step::Meet(2),
    Step::Send(0, 9, Ok(None)),
    Step::Send(1, 10, Ok(None)),
];

const OPEN_RECEIVES: Script = &[
    Step::Change(Change::Deactivate),
    Step::Meet(0),
    Step::Change(Change::ActivateCloned),
    Step::Receive(0, Ok(7)),
    Step::Receive(0, Ok(8)),
    Step::DropAll,
    Step::Meet(1),
    Step::Meet(2),
    Step::Change(Change::Activate),
    Step::Receive(0, Ok(9)),
    Step::Receive(0, Ok(10)),
];

const OPEN: Row = ("open_channel", &[], &[OPEN_SENDS, OPEN_RECEIVES], LEAVE);

// Sends that may wait do so while the only receiver is inactive, and the others are refused.
#[test]
fn open_channel(rt: HostRuntime) -> Result<(), Fail> {
    play_two(rt, OPEN)
}
