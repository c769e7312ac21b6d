//! Calls and batches on a channel of capacity 3, with what each gives.
use crate::rows::Row;

/// A name, and the rows on a new channel whose receiver has the key 0.
pub(super) const ROWS: &[(&str, &[Row])] = &[
    (
        "one receiver takes batches, and the other one by one",
        TWO_RECEIVERS,
    ),
    ("a closed channel gives what is left", CLOSED),
    ("a receiver that missed some", MISSED),
    ("no receiver of this key", NO_RECEIVER),
    ("room for two tells one of two sends", TELLS_ONE),
    ("what another has still to read makes no room", TELLS_NONE),
    ("a stream that waited", STREAM),
];

const TWO_RECEIVERS: &[Row] = &[
    Row::Call("CloneReceiver 0", "ok 1"),
    Row::Batch(0, usize::MAX, &[]),
    Row::Call("TryBroadcast 1", "ok"),
    Row::Call("TryBroadcast 2", "ok"),
    Row::Call("TryBroadcast 3", "ok"),
    Row::Batch(0, 0, &[]),
    Row::Batch(0, 1, &[1]),
    Row::Batch(0, 2, &[2, 3]),
    Row::Batch(0, 1, &[]),
    Row::Call("TryRecv 0", "empty"),
    Row::Call("TryBroadcast 4", "full 4"),
    Row::Call("TryRecv 1", "got 1"),
    Row::Call("TryRecv 1", "got 2"),
    Row::Call("TryBroadcast 4", "ok"),
    // Only 3 is moved out: the other receiver has still to read 4.
    Row::Batch(1, usize::MAX, &[3, 4]),
    Row::Batch(0, usize::MAX, &[4]),
    Row::Batch(1, usize::MAX, &[]),
    Row::Call("TryBroadcast 5", "ok"),
    Row::Call("TryBroadcast 6", "ok"),
    Row::Call("TryRecv 0", "got 5"),
    Row::Batch(0, 2, &[6]),
    Row::Batch(1, 2, &[5, 6]),
];

const CLOSED: &[Row] = &[
    Row::Call("TryBroadcast 1", "ok"),
    Row::Call("TryBroadcast 2", "ok"),
    Row::Call("Close", "true"),
    Row::Batch(0, 1, &[1]),
    Row::Batch(0, usize::MAX, &[2]),
    Row::Batch(0, usize::MAX, &[]),
    Row::Call("TryRecv 0", "closed"),
];

const MISSED: &[Row] = &[
    Row::Call("SetOverflow true", "-"),
    Row::Call("CloneReceiver 0", "ok 1"),
    Row::Call("TryBroadcast 1", "ok"),
    Row::Call("TryBroadcast 2", "ok"),
    Row::Call("TryBroadcast 3", "ok"),
    Row::Call("TryBroadcast 4", "ok dropped 1"),
    Row::Call("TryBroadcast 5", "ok dropped 2"),
    Row::Batch(0, 0, &[]),
    Row::Batch(0, usize::MAX, &[]),
    Row::Call("TryRecv 0", "overflowed 2"),
    Row::Batch(0, 2, &[3, 4]),
    Row::Batch(1, 1, &[]),
    Row::Call("TryRecv 1", "overflowed 2"),
    Row::Call("TryRecv 1", "got 3"),
    // The receiver 0 has read all but 5, which is kept with 4.
    Row::Batch(1, usize::MAX, &[4, 5]),
    Row::Batch(0, usize::MAX, &[5]),
    Row::Call("TryRecv 0", "empty"),
];

const NO_RECEIVER: &[Row] = &[
    Row::Call("CloneReceiver 0", "ok 1"),
    Row::Call("TryBroadcast 1", "ok"),
    Row::Batch(7, usize::MAX, &[]),
    Row::Call("TryRecv 7", "closed"),
    Row::Call("DropReceiver 1", "-"),
    Row::Batch(1, 1, &[]),
    Row::Batch(0, 1, &[1]),
];

const TELLS_ONE: &[Row] = &[
    Row::Call("TryBroadcast 1", "ok"),
    Row::Call("TryBroadcast 2", "ok"),
    Row::Call("TryBroadcast 3", "ok"),
    Row::Call("BeginSend", "ok 0"),
    Row::Call("BeginSend", "ok 1"),
    Row::Call("PollSend 0 4", "wait 4"),
    Row::Call("PollSend 1 5", "wait 5"),
    Row::ToldSends(0),
    Row::Batch(0, 0, &[]),
    Row::ToldSends(0),
    Row::Batch(0, 2, &[1, 2]),
    Row::ToldSends(1),
    Row::Batch(0, 1, &[3]),
    Row::ToldSends(1),
    Row::Call("PollSend 0 4", "ready ok"),
    Row::ToldSends(1),
    Row::Call("PollSend 1 5", "ready ok"),
    Row::ToldSends(0),
    Row::Batch(0, usize::MAX, &[4, 5]),
];

const TELLS_NONE: &[Row] = &[
    Row::Call("CloneReceiver 0", "ok 1"),
    Row::Call("TryBroadcast 1", "ok"),
    Row::Call("TryBroadcast 2", "ok"),
    Row::Call("TryBroadcast 3", "ok"),
    Row::Call("BeginSend", "ok 0"),
    Row::Call("PollSend 0 4", "wait 4"),
    Row::Batch(0, usize::MAX, &[1, 2, 3]),
    Row::ToldSends(0),
    Row::Batch(1, 1, &[1]),
    Row::ToldSends(1),
];

const STREAM: &[Row] = &[
    Row::Call("PollRecv 0", "pending"),
    Row::Call("TryBroadcast 1", "ok"),
    Row::Call("TryBroadcast 2", "ok"),
    Row::Batch(0, 2, &[1, 2]),
    Row::Call("PollRecv 0", "pending"),
];
