//! The replies of a trace, as text.
use crate::call::write_messages;
use bcast_model::error::{HandleError, RecvError, SendError, TrySendError};
use bcast_model::messages::Messages;
use bcast_model::run::{Reply, SendPoll};
use bcast_text::script::answer::words_of;
use futures::task::Poll;
use std::io;
use std::io::Write;

/// Writes the line of a call: its text, and that of its reply.
///
/// # Errors
///
/// - The error of a write that failed.
pub fn write_answer<W: Write>(text: &str, reply: &Reply<u64>, output: &mut W) -> io::Result<()> {
    write!(output, "{text} -> ")?;
    write_reply(reply, output)?;
    output.write_all(b"\n")
}

/// Writes the text of `reply`.
///
/// # Errors
///
/// - The error of a write that failed.
pub fn write_reply<W: Write>(reply: &Reply<u64>, output: &mut W) -> io::Result<()> {
    match reply {
        Reply::TryBroadcast(_) | Reply::TryRecv(_) | Reply::SetCapacity(_) => {
            as_in_a_script(reply, output)
        }
        Reply::TryBroadcastAll(answer) => sent_all(answer, output),
        Reply::AttemptSend(answer) | Reply::PollSend(answer) => send_polled(answer, output),
        Reply::BeginSend(Ok(place)) => write!(output, "ok {place}"),
        Reply::BeginSend(Err(_)) => output.write_all(b"no memory"),
        Reply::PollFuture(_) | Reply::PollRecv(_) | Reply::PollNext(_) => polled(reply, output),
        Reply::NewSender(Ok(())) | Reply::CloneInactive(Ok(())) | Reply::Deactivate(Ok(())) => {
            output.write_all(b"ok")
        }
        Reply::NewReceiver(Ok(key))
        | Reply::Activate(Ok(key))
        | Reply::ActivateCloned(Ok(key))
        | Reply::CloneReceiver(Ok(key)) => write!(output, "ok {key}"),
        Reply::NewSender(Err(error))
        | Reply::CloneInactive(Err(error))
        | Reply::Deactivate(Err(error))
        | Reply::NewReceiver(Err(error))
        | Reply::Activate(Err(error))
        | Reply::ActivateCloned(Err(error))
        | Reply::CloneReceiver(Err(error)) => refused(*error, output),
        Reply::Close(answer)
        | Reply::Overflow(answer)
        | Reply::AwaitActive(answer)
        | Reply::IsEmpty(answer)
        | Reply::IsFull(answer)
        | Reply::IsClosed(answer)
        | Reply::IsTerminated(answer) => write!(output, "{answer}"),
        Reply::Capacity(count)
        | Reply::Len(count)
        | Reply::ReceiverCount(count)
        | Reply::InactiveReceiverCount(count)
        | Reply::SenderCount(count) => write!(output, "{count}"),
        Reply::EndNumber(number) => write!(output, "{number}"),
        _ => output.write_all(b"-"),
    }
}

/// A reply in the words of a script's answer, which has none where there was no memory.
fn as_in_a_script<W: Write>(reply: &Reply<u64>, output: &mut W) -> io::Result<()> {
    match words_of(reply) {
        Some((words, None)) => output.write_all(words.as_bytes()),
        Some((words, Some(number))) => write!(output, "{words}{number}"),
        None => output.write_all(b"no memory"),
    }
}

/// The reply of a send of a list, which doesn't wait.
fn sent_all<W: Write>(
    answer: &Result<(), TrySendError<Messages<u64>>>,
    output: &mut W,
) -> io::Result<()> {
    let (why, msgs) = match answer {
        Ok(()) => return output.write_all(b"ok"),
        Err(TrySendError::Full(msgs)) => ("full", msgs),
        Err(TrySendError::Closed(msgs)) => ("closed", msgs),
        Err(TrySendError::Inactive(msgs)) => ("inactive", msgs),
    };
    output.write_all(why.as_bytes())?;
    write_messages(msgs, output)
}

/// The reply of a send that may wait.
fn send_polled<W: Write>(answer: &SendPoll<u64>, output: &mut W) -> io::Result<()> {
    match answer {
        SendPoll::Ready(Ok(None)) => output.write_all(b"ready ok"),
        SendPoll::Ready(Ok(Some(oldest))) => write!(output, "ready ok dropped {oldest}"),
        SendPoll::Ready(Err(SendError(msg))) => write!(output, "ready senderror {msg}"),
        SendPoll::Wait(msg) => write!(output, "wait {msg}"),
    }
}

/// The reply of a poll by a future, or by a stream that does not skip what it missed, or that does.
fn polled<W: Write>(reply: &Reply<u64>, output: &mut W) -> io::Result<()> {
    match reply {
        Reply::PollFuture(Ok(Poll::Ready(answer))) => given("ready", answer, output),
        Reply::PollRecv(Ok(Poll::Ready(Some(answer)))) => given("ready some", answer, output),
        Reply::PollNext(Ok(Poll::Ready(Some((msg, skipped))))) => {
            write!(output, "ready some got {msg} skipped {skipped}")
        }
        Reply::PollRecv(Ok(Poll::Ready(None))) | Reply::PollNext(Ok(Poll::Ready(None))) => {
            output.write_all(b"ready none")
        }
        Reply::PollFuture(Ok(Poll::Pending))
        | Reply::PollRecv(Ok(Poll::Pending))
        | Reply::PollNext(Ok(Poll::Pending)) => output.write_all(b"pending"),
        _ => output.write_all(b"no memory"),
    }
}

/// What a poll that is ready was given.
fn given<W: Write>(ready: &str, answer: &Result<u64, RecvError>, output: &mut W) -> io::Result<()> {
    match answer {
        Ok(msg) => write!(output, "{ready} got {msg}"),
        Err(RecvError::Overflowed(n)) => write!(output, "{ready} overflowed {n}"),
        Err(RecvError::Closed) => write!(output, "{ready} closed"),
    }
}

/// Why there is no handle.
fn refused<W: Write>(error: HandleError, output: &mut W) -> io::Result<()> {
    match error {
        HandleError::Memory => output.write_all(b"no memory"),
        HandleError::TooMany => output.write_all(b"too many"),
        HandleError::Gone => output.write_all(b"gone"),
    }
}
