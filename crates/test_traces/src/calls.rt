//! The text of each call, as it is read and as it is written.
use bcast_core::Call::{SetCapacity, TryBroadcast, TryBroadcastAll};
use bcast_core::{Call, Messages};
use bcast_trace::call::{read_call, write_call};
use bcast_trace::line::{Line, read_line};
use std::alloc::{AllocError, Global};
use std::io;
use std::process::Abort;

/// How many rows there are.
const ROWS: usize = 43;

/// These messages as a list.
pub fn messages(alloc: Global, msgs: &[u64]) -> Result<Messages<u64>, AllocError> {
    let mut list = Vec::new(alloc);
    list.extend_from_slice(msgs)?;
    Ok(Messages::new(list))
}

/// The row of this index: a text, and its call.
fn row(alloc: Global, index: usize) -> Result<(&'static str, Call<u64>), AllocError> {
    Ok(match index {
        0 => ("TryBroadcast 0", TryBroadcast(0)),
        1 => ("TryBroadcast 18446744073709551615", TryBroadcast(u64::MAX)),
        2 => ("TryBroadcastAll", TryBroadcastAll(messages(alloc, &[])?)),
        3 => ("TryBroadcastAll 7", TryBroadcastAll(messages(alloc, &[7])?)),
        4 => (
            "TryBroadcastAll 10 0 18446744073709551615",
            TryBroadcastAll(messages(alloc, &[10, 0, u64::MAX])?),
        ),
        5 => ("AttemptSend 12", Call::AttemptSend(12)),
        6 => ("BeginSend", Call::BeginSend),
        7 => ("PollSend 3 14", Call::PollSend(3, 14)),
        8 => ("EndSend 4", Call::EndSend(4)),
        9 => ("TryRecv 5", Call::TryRecv(5)),
        10 => ("PollFuture 6", Call::PollFuture(6)),
        11 => ("EndFuture 7", Call::EndFuture(7)),
        12 => ("PollRecv 8", Call::PollRecv(8)),
        13 => ("PollNext 9", Call::PollNext(9)),
        14 => ("Close", Call::Close),
        15 => ("SetCapacity 1", SetCapacity(1)),
        16 => ("SetCapacity 18446744073709551615", SetCapacity(usize::MAX)),
        17 => ("SetOverflow true", Call::SetOverflow(true)),
        18 => ("SetOverflow false", Call::SetOverflow(false)),
        19 => ("SetAwaitActive true", Call::SetAwaitActive(true)),
        20 => ("SetAwaitActive false", Call::SetAwaitActive(false)),
        21 => ("NewSender", Call::NewSender),
        22 => ("CloneInactive", Call::CloneInactive),
        23 => ("Deactivate 10", Call::Deactivate(10)),
        24 => ("NewReceiver", Call::NewReceiver),
        25 => ("Activate", Call::Activate),
        26 => ("ActivateCloned", Call::ActivateCloned),
        27 => ("CloneReceiver 11", Call::CloneReceiver(11)),
        28 => ("DropSender", Call::DropSender),
        29 => ("DropInactive", Call::DropInactive),
        30 => ("DropReceiver 12", Call::DropReceiver(12)),
        31 => ("Overflow", Call::Overflow),
        32 => ("AwaitActive", Call::AwaitActive),
        33 => ("IsEmpty", Call::IsEmpty),
        34 => ("IsFull", Call::IsFull),
        35 => ("IsClosed", Call::IsClosed),
        36 => ("IsTerminated", Call::IsTerminated),
        37 => ("Capacity", Call::Capacity),
        38 => ("Len", Call::Len),
        39 => ("ReceiverCount", Call::ReceiverCount),
        40 => ("InactiveReceiverCount", Call::InactiveReceiverCount),
        41 => ("SenderCount", Call::SenderCount),
        _ => ("EndNumber", Call::EndNumber),
    })
}

/// The text of `call`.
pub fn text_of(alloc: Global, call: &Call<u64>) -> io::Result<Vec<u8>> {
    let mut text = Vec::new(alloc);
    write_call(call, &mut text)?;
    Ok(text)
}

/// Whether `line` asks for `call`, and has `text` before its arrow.
pub fn asks(alloc: Global, line: &str, text: &str, call: &Call<u64>) -> Result<bool, AllocError> {
    Ok(match read_line(alloc, line)? {
        Some(Line::Call(read, asked)) => read == text && &asked == call,
        _ => false,
    })
}

/// Fails the test unless the text is read as the call, and written for it, and the line of the call
/// is read without what follows an arrow.
fn expect(rt: &impl Abort, alloc: Global, text: &str, call: &Call<u64>) -> io::Result<()> {
    let is_read = read_call(alloc, text)?.as_ref() == Some(call);
    assert!(rt; is_read, "{text} is read");
    let is_written = text_of(alloc, call)?.as_slice() == text.as_bytes();
    assert!(rt; is_written, "{text} is written");
    for end in ["", " -> ", " -> ok", " -> a -> b", " ->  -> 1"] {
        let line = format!(in alloc; "{text}{end}")?;
        let is_asked = asks(alloc, line.as_str(), text, call)?;
        assert!(rt; is_asked, "{text}{end} is asked for");
    }
    Ok(())
}

#[test]
fn each_call_is_read_and_written(rt: HostRuntime) -> io::Result<()> {
    for index in 0..ROWS {
        let (text, call) = row(rt.alloc(), index)?;
        expect(&rt, rt.alloc(), text, &call)?;
    }
    Ok(())
}
