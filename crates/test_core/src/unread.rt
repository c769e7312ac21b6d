//! Where receivers read on, what they have still to read, and what they missed, after each of
//! several calls.
use crate::calls::{Channel, ask, channel};
use std::test::Fail;

/// `cursor`, `unread` and `missed` of a receiver.
type Seen = (Option<u64>, usize, u64);

/// A call, and what is seen of the receivers 0 and 1 after it.
type Row = (&'static str, Seen, Seen);

/// Calls on a new channel of capacity 2, one after another.
const ROWS: &[Row] = &[
    ("SetOverflow true", (Some(0), 0, 0), (None, 0, 0)),
    ("NewReceiver", (Some(0), 0, 0), (Some(0), 0, 0)),
    ("TryBroadcast 1", (Some(0), 1, 0), (Some(0), 1, 0)),
    ("TryBroadcast 2", (Some(0), 2, 0), (Some(0), 2, 0)),
    // 1 is dropped.
    ("TryBroadcast 3", (Some(0), 2, 1), (Some(0), 2, 1)),
    ("TryRecv 0", (Some(1), 2, 0), (Some(0), 2, 1)),
    ("TryRecv 0", (Some(2), 1, 0), (Some(0), 2, 1)),
    // 2 is dropped, which the receiver 0 has read.
    ("SetCapacity 1", (Some(2), 1, 0), (Some(0), 1, 2)),
    ("TryRecv 0", (Some(3), 0, 0), (Some(0), 1, 2)),
    ("DropReceiver 1", (Some(3), 0, 0), (None, 0, 0)),
    ("TryBroadcast 4", (Some(3), 1, 0), (None, 0, 0)),
    ("Close", (Some(3), 1, 0), (None, 0, 0)),
    ("TryRecv 0", (Some(4), 0, 0), (None, 0, 0)),
    ("TryRecv 0", (Some(4), 0, 0), (None, 0, 0)),
];

fn seen(inner: &Channel, key: usize) -> Seen {
    (inner.cursor(key), inner.unread(key), inner.missed(key))
}

#[test]
fn cursor_unread_and_missed(rt: HostRuntime) -> Result<(), Fail> {
    let mut inner = channel(&rt, rt.alloc(), 2)?;
    for (call, left, right) in ROWS {
        drop(ask(rt.alloc(), &mut inner, call)?);
        assert!(rt; seen(&inner, 0) == *left);
        assert!(rt; seen(&inner, 1) == *right);
    }
    Ok(())
}
