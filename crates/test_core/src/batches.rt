//! Batches of messages, each beside as many single receives on another channel.
use crate::calls::{Channel, channel};
use crate::rows::Row;
use rows::ROWS;
use std::alloc::{AllocError, Global};
use std::process::Abort;
use std::test::Fail;

mod refused;
mod rows;

/// Whether these messages are given one by one.
fn gives_each(inner: &mut Channel, key: usize, msgs: &[u64]) -> Result<bool, AllocError> {
    let mut gives = true;
    for msg in msgs {
        gives &= inner.try_recv(key)? == Ok(*msg);
    }
    Ok(gives)
}

/// Whether a row holds on both channels: on the first by batches, and on the other one by single
/// receives.
fn holds(
    alloc: Global,
    batches: &mut Channel,
    singles: &mut Channel,
    row: Row,
) -> Result<bool, Fail> {
    let is_same = match row {
        Row::Batch(key, _, msgs) => gives_each(singles, key, msgs)?,
        row => row.holds(alloc, singles)?,
    };
    Ok(row.holds(alloc, batches)? && is_same)
}

/// What the accessors say of a channel, and of the receivers 0 and 1.
fn seen(inner: &Channel) -> ([usize; 3], [u64; 2], [Option<u64>; 2], [bool; 5]) {
    (
        [inner.len(), inner.unread(0), inner.unread(1)],
        [inner.missed(0), inner.missed(1)],
        [inner.cursor(0), inner.cursor(1)],
        [
            inner.is_empty(),
            inner.is_full(),
            inner.is_closed(),
            inner.is_terminated(),
            inner.sends_are_ready(),
        ],
    )
}

/// Whether two channels are the same by all that can be seen of them.
fn are_alike(alloc: Global, left: &Channel, right: &Channel) -> Result<bool, Fail> {
    let left_text = format!(in alloc; "{:?}", left.snapshot(alloc)?)?;
    let right_text = format!(in alloc; "{:?}", right.snapshot(alloc)?)?;
    Ok(seen(left) == seen(right) && left_text == right_text)
}

fn play(rt: &impl Abort, alloc: Global, name: &str, rows: &[Row]) -> Result<(), Fail> {
    let mut batches = channel(rt, alloc, 3)?;
    let mut singles = channel(rt, alloc, 3)?;
    for (index, row) in rows.iter().enumerate() {
        let is_so = holds(alloc, &mut batches, &mut singles, *row)?;
        assert!(rt; is_so, "{name}, row {index}");
        let is_alike = are_alike(alloc, &batches, &singles)?;
        assert!(rt; is_alike, "{name}, after row {index}");
    }
    Ok(())
}

#[test]
fn a_batch_is_as_many_single_receives(rt: HostRuntime) -> Result<(), Fail> {
    for (name, rows) in ROWS {
        play(&rt, rt.alloc(), name, rows)?;
    }
    Ok(())
}
