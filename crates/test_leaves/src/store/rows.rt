//! Calls in their order with what they leave, on both stores.
use super::plain::Plain;
use super::{Both, Call, new_both};
use std::alloc::{AllocError, Global};
use std::test::Fail;

// The name of a row, the call, the message that it returns, and then the front, the messages, and
// the cursors of the receivers.
type Row = (
    &'static str,
    Call,
    Option<u8>,
    u64,
    &'static [u8],
    &'static [u64],
);

const ALL_READ: &[Row] = &[
    ("another", Call::Add(7), None, 7, b"", &[7, 7]),
    ("a", Call::Push(b'a'), None, 7, b"a", &[7, 7]),
    ("b", Call::Push(b'b'), None, 7, b"ab", &[7, 7]),
    ("clone", Call::Read(0), Some(b'a'), 7, b"ab", &[8, 7]),
    ("ahead", Call::Read(0), Some(b'b'), 7, b"ab", &[9, 7]),
    ("last", Call::Read(1), Some(b'a'), 8, b"b", &[9, 8]),
    ("none left", Call::Read(1), Some(b'b'), 9, b"", &[9, 9]),
];

const LEAVE: &[Row] = &[
    ("another", Call::Add(0), None, 0, b"", &[0, 0]),
    ("a", Call::Push(b'a'), None, 0, b"a", &[0, 0]),
    ("b", Call::Push(b'b'), None, 0, b"ab", &[0, 0]),
    ("read", Call::Read(0), Some(b'a'), 0, b"ab", &[1, 0]),
    ("at the end", Call::Add(2), None, 0, b"ab", &[1, 0, 2]),
    ("the slow one", Call::Remove(1), None, 1, b"b", &[1, 2]),
    ("c", Call::Push(b'c'), None, 1, b"bc", &[1, 2]),
    ("the other", Call::Remove(0), None, 2, b"c", &[2]),
    ("all", Call::Remove(0), None, 3, b"", &[]),
];

const LAG: &[Row] = &[
    ("another", Call::Add(0), None, 0, b"", &[0, 0]),
    ("a", Call::Push(b'a'), None, 0, b"a", &[0, 0]),
    ("b", Call::Push(b'b'), None, 0, b"ab", &[0, 0]),
    ("overflow", Call::Pop, Some(b'a'), 1, b"b", &[0, 0]),
    ("c", Call::Push(b'c'), None, 1, b"bc", &[0, 0]),
    ("a copy lags too", Call::Add(0), None, 1, b"bc", &[0, 0, 0]),
    ("skip", Call::Skip(0), None, 1, b"bc", &[1, 0, 0]),
    ("late read", Call::Read(1), Some(b'b'), 1, b"bc", &[1, 2, 0]),
    ("leaves", Call::Remove(2), None, 1, b"bc", &[1, 2]),
    ("last", Call::Read(0), Some(b'b'), 2, b"c", &[2, 2]),
    ("shrink", Call::DropFirst, None, 3, b"", &[2, 2]),
    ("nothing", Call::Pop, None, 3, b"", &[2, 2]),
];

// Receivers that begin behind the front, and more room.
const BEHIND: &[Row] = &[
    ("a", Call::Push(b'a'), None, 5, b"a", &[5]),
    ("another", Call::Add(6), None, 5, b"a", &[5, 6]),
    ("b", Call::Push(b'b'), None, 5, b"ab", &[5, 6]),
    ("full", Call::Push(b'x'), None, 5, b"ab", &[5, 6]),
    ("the second", Call::Read(1), Some(b'b'), 5, b"ab", &[5, 7]),
    ("one comes", Call::Add(6), None, 5, b"ab", &[5, 7, 6]),
    ("one leaves", Call::Remove(2), None, 5, b"ab", &[5, 7]),
    ("at the end", Call::Add(7), None, 5, b"ab", &[5, 7, 7]),
    ("and leaves", Call::Remove(2), None, 5, b"ab", &[5, 7]),
    ("grow", Call::Grow, None, 5, b"ab", &[5, 7]),
    ("c", Call::Push(b'c'), None, 5, b"abc", &[5, 7]),
    ("overflow", Call::Pop, Some(b'a'), 6, b"bc", &[5, 7]),
    ("the slow one leaves", Call::Remove(0), None, 7, b"c", &[7]),
    ("moved", Call::Read(0), Some(b'c'), 8, b"", &[8]),
];

// Whether the plain store has this front, these messages and these cursors.
fn has(plain: &Plain, front: u64, messages: &[u8], cursors: &[u64]) -> bool {
    plain.front == front
        && plain.messages.as_slice() == messages
        && plain.cursors.as_slice() == cursors
}

// Makes the calls of a table on both stores, and returns the name of the first row that leaves
// something else.
fn first_wrong(
    both: &mut Both,
    alloc: Global,
    rows: &[Row],
) -> Result<Option<&'static str>, AllocError> {
    for (name, call, given, front, messages, cursors) in rows {
        let (message, are_same) = both.make(alloc, *call)?;
        let is_left = has(&both.plain, *front, messages, cursors);
        if !are_same || message != *given || !is_left {
            return Ok(Some(*name));
        }
    }
    Ok(None)
}

#[test]
fn messages_leave_once_all_have_read(rt: HostRuntime) -> Result<(), Fail> {
    for (front, rows) in [(7, ALL_READ), (0, LEAVE), (0, LAG), (5, BEHIND)] {
        let mut both = new_both(rt.alloc(), front, 2)?;
        assert_eq!(rt; first_wrong(&mut both, rt.alloc(), rows)?, None);
    }
    Ok(())
}
