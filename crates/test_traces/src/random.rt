//! Traces of random calls: they are read back as the calls that they were written for, and played
//! with the replies that a channel gives to these calls.
ghost use Rattle.std.specs.Prelude.{◌<◌, ◌+◌, ◌^◌, IfOk};
ghost use Rattle.bcast_model.specs.Next.{HasPositiveCapacity};

use crate::calls::{asks, messages, text_of};
use crate::refused::play;
use bcast_core::{Call, Inner, Silent, step};
use bcast_text::ending::Ending;
use bcast_trace::command::Command;
use bcast_trace::opening::read_opening;
use bcast_trace::reply::write_reply;
use rand_core::utils::NextWord;
use rand_pcg::Pcg32;
use std::alloc::{AllocError, Global};
use std::io::Write;
use std::{io, str};

/// How many traces there are.
const TRACES: u64 = 200;

/// How many calls a trace has.
const CALLS: u64 = 60;

/// A message: often a small number, and at times the greatest.
fn message(words: &mut Pcg32) -> u64 {
    match words.next_word() % 16 {
        0 => u64::MAX,
        1 => u64::from(words.next_word()),
        small => u64::from(small),
    }
}

/// A key or a place: often one that may be in use.
fn key(words: &mut Pcg32) -> usize {
    match words.next_word() % 32 {
        0 => usize::MAX,
        word => (word % 4) as usize,
    }
}

/// A new capacity.
fn capacity(words: &mut Pcg32) -> usize
    ensures { 0 < result }
{
    (words.next_word() % 5) as usize + 1
}

/// A flag.
fn flag(words: &mut Pcg32) -> bool {
    words.next_word() % 2 == 0
}

/// A call that sends, receives or polls.
fn sending_or_receiving(alloc: Global, words: &mut Pcg32) -> Result<Call<u64>, AllocError>
    ensures { IfOk result HasPositiveCapacity }
{
    Ok(match words.next_word() % 12 {
        0 => Call::TryBroadcast(message(words)),
        1 => Call::TryBroadcastAll(messages(alloc, &[])?),
        2 => Call::TryBroadcastAll(messages(alloc, &[message(words), message(words)])?),
        3 => Call::AttemptSend(message(words)),
        4 => Call::BeginSend,
        5 => Call::PollSend(key(words), message(words)),
        6 => Call::EndSend(key(words)),
        7 => Call::TryRecv(key(words)),
        8 => Call::PollFuture(key(words)),
        9 => Call::EndFuture(key(words)),
        10 => Call::PollRecv(key(words)),
        _ => Call::PollNext(key(words)),
    })
}

/// A call that changes a setting, or makes or drops a handle.
fn setting(words: &mut Pcg32) -> Call<u64>
    ensures { HasPositiveCapacity result }
{
    match words.next_word() % 15 {
        0 => Call::Close,
        1 => Call::SetCapacity(capacity(words)),
        2 => Call::SetOverflow(flag(words)),
        3 => Call::SetAwaitActive(flag(words)),
        4 => Call::NewSender,
        5 => Call::CloneInactive,
        6 => Call::Deactivate(key(words)),
        7 => Call::NewReceiver,
        8 => Call::Activate,
        9 => Call::ActivateCloned,
        10 => Call::CloneReceiver(key(words)),
        11 => Call::DropSender,
        12 => Call::DropInactive,
        _ => Call::DropReceiver(key(words)),
    }
}

/// A call that only asks.
fn question(words: &mut Pcg32) -> Call<u64>
    ensures { HasPositiveCapacity result }
{
    match words.next_word() % 12 {
        0 => Call::Overflow,
        1 => Call::AwaitActive,
        2 => Call::IsEmpty,
        3 => Call::IsFull,
        4 => Call::IsClosed,
        5 => Call::IsTerminated,
        6 => Call::Capacity,
        7 => Call::Len,
        8 => Call::ReceiverCount,
        9 => Call::InactiveReceiverCount,
        10 => Call::SenderCount,
        _ => Call::EndNumber,
    }
}

/// Any call, most often one that sends or receives.
fn any_call(alloc: Global, words: &mut Pcg32) -> Result<Call<u64>, AllocError>
    ensures { IfOk result HasPositiveCapacity }
{
    match words.next_word() % 8 {
        0 => Ok(question(words)),
        1 | 2 => Ok(setting(words)),
        _ => sending_or_receiving(alloc, words),
    }
}

/// The first line of a trace: sometimes its messages soon get the last number.
fn write_opening(words: &mut Pcg32, text: &mut Vec<u8>) -> io::Result<()> {
    let first = match words.next_word() % 4 {
        0 => u64::MAX - 5,
        word => u64::from(word),
    };
    writeln!(text, "open {} {first}", capacity(words))
}

/// The trace of this number, without replies. Every tenth line asks for the view.
fn write_trace(alloc: Global, number: u64) -> io::Result<Vec<u8>> {
    let mut words = Pcg32::new(number, 0);
    let mut text = Vec::new(alloc);
    write_opening(&mut words, &mut text)?;
    for index in 0..CALLS {
        let call = any_call(alloc, &mut words)?;
        text.extend_from_slice(text_of(alloc, &call)?.as_slice())?;
        text.push(b'\n')?;
        if index % 10 == 9 {
            text.extend_from_slice(b"=\n")?;
        }
    }
    Ok(text)
}

/// How many of the trace's calls are read back as they were made.
fn read_back(alloc: Global, number: u64, trace: &str) -> io::Result<u64> {
    let mut words = Pcg32::new(number, 0);
    write_opening(&mut words, &mut Vec::new(alloc))?;
    let mut same: u64 = 0;
    for line in trace.lines().skip(1).filter(|line| !line.starts_with('=')) {
        let call = any_call(alloc, &mut words)?;
        let text = text_of(alloc, &call)?;
        let text = str::from_utf8(text.as_slice()).unwrap_or("");
        if asks(alloc, line, text, &call)? {
            same = same.saturating_add(1);
        }
    }
    Ok(same)
}

/// The lines of the trace's calls with the replies of a channel to the calls as they were made.
fn answered(alloc: Global, number: u64, first: &str) -> io::Result<Vec<u8>> {
    let mut wrote = Vec::new(alloc);
    let Some(opening) = read_opening(first) else {
        return Ok(wrote);
    };
    let (mut inner, _) = Inner::starting_at(alloc, opening.capacity, opening.first)?;
    let mut words = Pcg32::new(number, 0);
    write_opening(&mut words, &mut wrote)?;
    for _ in 0..CALLS {
        let call = any_call(alloc, &mut words)?;
        wrote.extend_from_slice(text_of(alloc, &call)?.as_slice())?;
        wrote.extend_from_slice(b" -> ")?;
        write_reply(&step(&mut inner, call, Silent), &mut wrote)?;
        wrote.push(b'\n')?;
    }
    Ok(wrote)
}

/// The lines of a trace that are no views.
fn without_views(alloc: Global, text: &str) -> io::Result<Vec<u8>> {
    let mut left = Vec::new(alloc);
    for line in text.lines().filter(|line| !line.starts_with('=')) {
        writeln!(&mut left, "{line}")?;
    }
    Ok(left)
}

/// Plays `text`, which has no fault, and returns what is written.
fn played(alloc: Global, command: Command, text: &[u8]) -> io::Result<Vec<u8>> {
    let mut wrote = Vec::new(alloc);
    if play(alloc, command, text, &mut wrote) != Ending::Done {
        wrote.clear();
    }
    Ok(wrote)
}

#[test]
fn random_calls_are_read_back(rt: HostRuntime) -> io::Result<()> {
    let alloc = rt.alloc();
    for number in 0..TRACES {
        let bare = write_trace(alloc, number)?;
        let whole = played(alloc, Command::Trace, bare.as_slice())?;
        for text in [bare.as_slice(), whole.as_slice()] {
            let text = str::from_utf8(text).unwrap_or("");
            assert!(rt; read_back(alloc, number, text)? == CALLS, "trace {number}");
        }
    }
    Ok(())
}

#[test]
fn random_traces_are_played_again(rt: HostRuntime) -> io::Result<()> {
    let alloc = rt.alloc();
    for number in 0..TRACES {
        let bare = write_trace(alloc, number)?;
        let whole = played(alloc, Command::Trace, bare.as_slice())?;
        let again = played(alloc, Command::Trace, whole.as_slice())?;
        let is_same = again.as_slice() == whole.as_slice();
        assert!(rt; is_same, "trace {number}, again");
        let text = str::from_utf8(whole.as_slice()).unwrap_or("");
        let listed = without_views(alloc, text)?;
        let list = played(alloc, Command::List, whole.as_slice())?;
        let is_listed = list.as_slice() == listed.as_slice();
        assert!(rt; is_listed, "trace {number}, as a list");
        let first = text.lines().next().unwrap_or("");
        let wanted = answered(alloc, number, first)?;
        let is_answered = wanted.as_slice() == listed.as_slice();
        assert!(rt; is_answered, "trace {number}, its replies");
    }
    Ok(())
}
