//! Lines that are refused, with the message and the status that they are refused by.
use bcast_text::ending::{Ending, Program};
use bcast_trace::command::Command;
use bcast_trace::line::LONGEST;
use bcast_trace::{list, trace};
use std::alloc::{AllocError, Global};
use std::io;
use std::process::Abort;

/// Lines that open no channel.
const NO_OPENING: &[&str] = &[
    "",
    " ",
    "=",
    "Close",
    "open",
    "open ",
    "open 1",
    "open 1 ",
    "open  1",
    "open  1 0",
    "open 1  0",
    "open 1 0 ",
    "open 1 0 0",
    "open 1 0 -> ok",
    " open 1 0",
    "Open 1 0",
    "opens 1 0",
    "open 0 0",
    "open 01 0",
    "open 1 00",
    "open +1 0",
    "open 1 -0",
    "open 1 x",
    "open x 1",
    "open 1 18446744073709551615",
    "open 1 18446744073709551616",
    "open 18446744073709551616 0",
];

/// Lines after the first that ask for nothing. Each name of a call is here once, with too few or
/// too many words.
const NO_CALL: &[&str] = &[
    "",
    " ",
    " =",
    "-> true",
    " -> true",
    "open 1 0",
    "Nonsense",
    "Nonsense 1",
    "close",
    " Close",
    "Close ",
    "Close->",
    "Close ->",
    "Close-> true",
    "TryBroadcast",
    "TryBroadcast ",
    "TryBroadcast x",
    "TryBroadcast 01",
    "TryBroadcast 00",
    "TryBroadcast +1",
    "TryBroadcast -1",
    "TryBroadcast 1.0",
    "TryBroadcast  1",
    "TryBroadcast 1 ",
    "TryBroadcast 1 2",
    "TryBroadcast 18446744073709551616",
    "TryBroadcastAll ",
    "TryBroadcastAll x",
    "TryBroadcastAll 1 ",
    "TryBroadcastAll 1  2",
    "TryBroadcastAll 1 02",
    "AttemptSend",
    "BeginSend 0",
    "PollSend",
    "PollSend 1",
    "PollSend 1 ",
    "PollSend 1 x",
    "PollSend x 1",
    "PollSend 1 2 3",
    "EndSend",
    "TryRecv",
    "TryRecv true",
    "PollFuture",
    "EndFuture",
    "PollRecv",
    "PollNext",
    "Close 1",
    "SetCapacity",
    "SetCapacity 0",
    "SetCapacity 01",
    "SetCapacity 18446744073709551616",
    "SetOverflow",
    "SetOverflow 1",
    "SetOverflow True",
    "SetAwaitActive",
    "SetAwaitActive on",
    "SetAwaitActive true ",
    "NewSender 0",
    "CloneInactive 0",
    "Deactivate",
    "NewReceiver 0",
    "Activate 0",
    "ActivateCloned 0",
    "CloneReceiver",
    "DropSender 0",
    "DropInactive 0",
    "DropReceiver",
    "Overflow 0",
    "AwaitActive 0",
    "IsEmpty 0",
    "IsFull 0",
    "IsClosed 0",
    "IsTerminated 0",
    "Capacity 0",
    "Len 0",
    "ReceiverCount 0",
    "InactiveReceiverCount 0",
    "SenderCount 0",
    "EndNumber 0",
];

/// Plays `text` as `replay` does by this command, writes to `wrote`, and returns how that ended.
pub fn play(alloc: Global, command: Command, text: &[u8], wrote: &mut Vec<u8>) -> Ending {
    match command {
        Command::Trace => trace(alloc, alloc, text, wrote),
        Command::List => list(alloc, alloc, text, wrote),
    }
}

/// Whether `ending` has this text and this status.
fn says(alloc: Global, ending: Ending, text: &str, status: u8) -> Result<bool, AllocError> {
    let printed = format!(in alloc; "{ending}")?;
    Ok(printed.as_str() == text && ending.status() == status)
}

/// Whether `text`, played by this command, ends by this message, with status 2, after `wrote`.
fn is_refused(
    alloc: Global,
    command: Command,
    text: &[u8],
    message: &str,
    wrote: &str,
) -> Result<bool, AllocError> {
    let mut written = Vec::new(alloc);
    let ending = play(alloc, command, text, &mut written);
    Ok(says(alloc, ending, message, 2)? && written.as_slice() == wrote.as_bytes())
}

#[test]
fn lines_that_open_no_channel(rt: HostRuntime) -> io::Result<()> {
    let alloc = rt.alloc();
    for line in NO_OPENING {
        let text = format!(in alloc; "{line}\nLen\n")?;
        let text = text.as_str().as_bytes();
        for command in [Command::Trace, Command::List] {
            let told = is_refused(alloc, command, text, "line 1: not a call", "")?;
            assert!(rt; told, "{line:?}");
        }
    }
    Ok(())
}

/// Fails the test unless line 3 of `text` is refused, after what the first two lines write.
fn expect_third(rt: &impl Abort, alloc: Global, text: &[u8], name: &str) -> io::Result<()> {
    let message = "line 3: not a call";
    let played = is_refused(alloc, Command::Trace, text, message, "open 2 0\nLen -> 0\n")?;
    assert!(rt; played, "{name:?}, played");
    let listed = is_refused(alloc, Command::List, text, message, "")?;
    assert!(rt; listed, "{name:?}, as a list");
    Ok(())
}

#[test]
fn lines_that_ask_for_nothing(rt: HostRuntime) -> io::Result<()> {
    for line in NO_CALL {
        let text = format!(in rt.alloc(); "open 2 0\nLen\n{line}\nLen\n")?;
        expect_third(&rt, rt.alloc(), text.as_str().as_bytes(), line)?;
    }
    Ok(())
}

#[test]
fn lines_that_are_no_text_or_too_long(rt: HostRuntime) -> io::Result<()> {
    let alloc = rt.alloc();
    expect_third(&rt, alloc, b"open 2 0\nLen\n=\xff\nLen\n", "no text")?;
    let mut text = Vec::new(alloc);
    text.extend_from_slice(b"open 2 0\nLen\n=")?;
    for _ in 0..LONGEST {
        text.push(b'x')?;
    }
    text.extend_from_slice(b"\nLen\n")?;
    expect_third(&rt, alloc, text.as_slice(), "too long")?;
    for command in [Command::Trace, Command::List] {
        let is_told = is_refused(alloc, command, b"", "line 1: not a call", "")?;
        assert!(rt; is_told, "no line");
    }
    Ok(())
}

/// What arguments ask for, and nothing else.
const COMMANDS: &[(&str, Option<Command>)] = &[
    ("trace", Some(Command::Trace)),
    ("list", Some(Command::List)),
    ("", None),
    ("Trace", None),
    ("lists", None),
    ("trace ", None),
    ("script", None),
];

#[test]
fn arguments_and_endings(rt: HostRuntime) -> io::Result<()> {
    let alloc = rt.alloc();
    for (word, asked) in COMMANDS {
        let one = vec![in alloc; String::from_str(alloc, word)?]?;
        assert!(rt; Command::from_words(one.as_slice()) == *asked, "{word:?}");
    }
    let none = Vec::new(alloc);
    assert!(rt; Command::from_words(none.as_slice()).is_none(), "no word");
    let usage = "usage: replay trace | replay list";
    let is_used = says(alloc, Ending::WrongArguments(Program::Replay), usage, 2)?;
    assert!(rt; is_used, "usage");
    let mut written = Vec::new(alloc);
    let large = b"open 18446744073709551615 0\n".as_slice();
    let ending = play(alloc, Command::Trace, large, &mut written);
    let is_told = says(alloc, ending, "out of memory", 3)?;
    assert!(rt; is_told, "no memory for the channel");
    Ok(())
}
