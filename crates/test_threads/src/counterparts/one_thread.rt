//! Counterparts that have one thread.
use crate::hands::Hands;
use crate::scripts::{Change, Script, Step};
use async_broadcast::{TryRecvError, TrySendError, broadcast};
use std::test::Fail;

/// Each with its name, and the capacity of its channel.
const ROWS: &[(&str, usize, Script)] = &[
    ("basic_sync", 10, BASIC_SYNC),
    ("basic_async", 10, BASIC_ASYNC),
    ("basic_blocking", 1, BASIC_BLOCKING),
    ("channel_shrink", 4, CHANNEL_SHRINK),
    ("readme", 2, README),
];

// Each receiver gets every message from its start on.
const BASIC_SYNC: Script = &[
    Step::Change(Change::CloneReceiver),
    Step::TrySend(0, 7, Ok(None)),
    Step::TryRecv(0, Ok(7)),
    Step::TryRecv(1, Ok(7)),
    Step::Change(Change::CloneReceiver),
    Step::TrySend(0, 8, Ok(None)),
    Step::TryRecv(0, Ok(8)),
    Step::TryRecv(1, Ok(8)),
    Step::TryRecv(2, Ok(8)),
];

// Receivers that are cloned receive in tasks, by futures and by streams.
const BASIC_ASYNC: Script = &[
    Step::Change(Change::CloneReceiver),
    Step::AwaitSend(0, 7),
    Step::AwaitRecv(0, 7),
    Step::AwaitRecv(1, 7),
    Step::Change(Change::CloneReceiver),
    Step::AwaitSend(0, 8),
    Step::AwaitNext(0, 8),
    Step::AwaitNext(1, 8),
    Step::AwaitNext(2, 8),
];

// A message that is sent in one way can be received in each way.
const BASIC_BLOCKING: Script = &[
    Step::Send(0, 7, Ok(None)),
    Step::TryRecv(0, Ok(7)),
    Step::Send(0, 8, Ok(None)),
    Step::AwaitRecv(0, 8),
    Step::AwaitSend(0, 9),
    Step::Receive(0, Ok(9)),
    Step::TryRecv(0, Err(TryRecvError::Empty)),
];

// A smaller capacity drops the oldest messages, and receivers get how many of theirs were dropped.
const CHANNEL_SHRINK: Script = &[
    Step::Change(Change::CloneReceiver),
    Step::Change(Change::CloneReceiver),
    Step::Change(Change::CloneReceiver),
    Step::TrySend(0, 1, Ok(None)),
    Step::TrySend(0, 2, Ok(None)),
    Step::TrySend(0, 3, Ok(None)),
    Step::TrySend(0, 4, Ok(None)),
    Step::TryRecv(1, Ok(1)),
    Step::TryRecv(1, Ok(2)),
    Step::TryRecv(2, Ok(1)),
    Step::TryRecv(2, Ok(2)),
    Step::TryRecv(2, Ok(3)),
    Step::TryRecv(3, Ok(1)),
    Step::TryRecv(3, Ok(2)),
    Step::TryRecv(3, Ok(3)),
    Step::TryRecv(3, Ok(4)),
    Step::Change(Change::ReceiverCapacity(2)),
    Step::TryRecv(0, Err(TryRecvError::Overflowed(2))),
    Step::TryRecv(0, Ok(3)),
    Step::TryRecv(0, Ok(4)),
    Step::TryRecv(0, Err(TryRecvError::Empty)),
    Step::TryRecv(1, Ok(3)),
    Step::TryRecv(1, Ok(4)),
    Step::TryRecv(1, Err(TryRecvError::Empty)),
    Step::TryRecv(2, Ok(4)),
    Step::TryRecv(2, Err(TryRecvError::Empty)),
    Step::TryRecv(3, Err(TryRecvError::Empty)),
];

// The example of the original's README.
const README: Script = &[
    Step::Change(Change::CloneSender),
    Step::Change(Change::CloneReceiver),
    Step::AwaitSend(0, 7),
    Step::AwaitSend(1, 8),
    Step::TrySend(1, 9, Err(TrySendError::Full(9))),
    Step::TrySend(0, 10, Err(TrySendError::Full(10))),
    Step::AwaitNext(0, 7),
    Step::AwaitRecv(0, 8),
    Step::AwaitNext(1, 7),
    Step::AwaitRecv(1, 8),
    Step::TryRecv(0, Err(TryRecvError::Empty)),
    Step::TryRecv(1, Err(TryRecvError::Empty)),
    Step::Change(Change::DropSenders),
    Step::TryRecv(0, Err(TryRecvError::Closed)),
    Step::TryRecv(1, Err(TryRecvError::Closed)),
];

#[test]
fn one_thread(rt: HostRuntime) -> Result<(), Fail> {
    for (name, capacity, script) in ROWS {
        let ends = broadcast(rt, rt.alloc(), (*capacity).max(1))?;
        Hands::both(rt.alloc(), ends)?.play(&rt, name, *script);
    }
    Ok(())
}
