//! Blocking calls with a limit of time, and their errors.
ghost use Rattle.std.specs.Prelude.{◌≡◌, ◌↔◌, Some, IsTrue};
ghost use Rattle.async_broadcast.specs.Timed.{as_attempt, as_timed_try, unsent_message};
ghost use Rattle.async_broadcast.specs.Timed.{send_timeout_text, send_timeout_debug};
ghost use Rattle.async_broadcast.specs.Timed.{recv_timeout_text};

use crate::port::TimedPort;
use crate::receiver::Receiver;
use crate::sender::Sender;
use bcast_core::{Call, RecvResult, Reply};
use std::alloc::Allocator;
use std::error::Error;
use std::fmt;
use std::time::Duration;

impl<T: Clone, P: TimedPort<T>, A: Allocator + Copy> Sender<T, P, A> {
    /// Sends a message as `broadcast_blocking` does, and gives up once `limit` has passed. Waiting
    /// for the lock, and until the system runs the thread again, comes on top.
    ///
    /// It tries before it waits, also with a limit of zero, and once more when the time is over.
    /// If the clock can't be read, the time counts as over.
    ///
    /// # Errors
    ///
    /// Each hands the message back, and nothing changed.
    ///
    /// - `Timeout`: the time is over, and there is still no room, or, with `await_active`, no
    ///   active receiver.
    /// - `Refused`: the channel is closed, or it has no active receiver and `await_active` is off.
    ///
    /// ```rust
    /// let (sender, receiver) = broadcast(rt, rt.alloc(), 1)?;
    /// let limit = Duration::from_millis(1);
    /// assert!(&rt; sender.broadcast_timeout(7, limit).is_ok());
    /// let error = sender.broadcast_timeout(8, limit).err().ok_or("sent")?;
    /// assert!(&rt; error.is_timeout() && error.into_inner() == 8);
    /// drop(receiver);
    /// let refused = sender.broadcast_timeout(9, limit);
    /// assert!(&rt; matches!(refused, Err(SendTimeoutError::Refused(9))));
    /// ```
    pub fn broadcast_timeout(
        &self,
        msg: T,
        limit: Duration,
    ) -> Result<Option<T>, SendTimeoutError<T>>
        ensures { P.gave self.now.port (Call.AttemptSend msg)
            (Reply.AttemptSend (as_attempt result)) }
    {
        self.port.send_within(&mut (), msg, limit)
    }
}

impl<T: Clone, P: TimedPort<T>, A: Allocator + Copy> Receiver<T, P, A> {
    /// Receives the next message as `recv_blocking` does, and gives up once `limit` has passed.
    /// What `broadcast_timeout` says of its limit holds here, too.
    ///
    /// # Errors
    ///
    /// As `recv_blocking`, and `Timeout`: the time is over, every message was read, and the channel
    /// is open. Nothing changed.
    ///
    /// ```rust
    /// let (sender, mut receiver) = broadcast(rt, rt.alloc(), 1)?;
    /// let limit = Duration::from_millis(1);
    /// let received = receiver.recv_timeout(limit);
    /// assert!(&rt; matches!(received, Ok(Err(RecvTimeoutError::Timeout))));
    /// assert!(&rt; sender.try_broadcast(7).is_ok());
    /// drop(sender);
    /// assert!(&rt; matches!(receiver.recv_timeout(limit), Ok(Ok(7))));
    /// let ended = receiver.recv_timeout(limit);
    /// assert!(&rt; matches!(ended, Ok(Err(RecvTimeoutError::Closed))));
    /// ```
    pub fn recv_timeout(&mut self, limit: Duration) -> RecvResult<T, RecvTimeoutError>
        ensures asked { P.gave self.old.port (Call.TryRecv self.old.role.key)
            (Reply.TryRecv (as_timed_try result)) }
        ensures same { self.new ≡ self.old }
    {
        self.port.receive_within(&mut (), self.role.key, limit)
    }
}

/// Why `broadcast_timeout` did not accept a message, which it hands back. Printing it needs no
/// trait of `T`.
#[derive(Clone, Copy, Drop, PartialEq, Eq)]
pub enum SendTimeoutError<T> {
    /// The time is over: there is still no room, or, with `await_active`, no active receiver.
    Timeout(T),
    /// The channel is closed, or it has no active receiver and `await_active` is off.
    Refused(T),
}

/// Why `recv_timeout` gave no message.
#[derive(Clone, Copy, Debug, PartialEq, Eq)]
pub enum RecvTimeoutError {
    /// This many messages were dropped before the receiver read them. It continues after them.
    Overflowed(u64),
    /// The time is over: every message was read, and the channel is open.
    Timeout,
    /// Every message was read, and the channel is closed.
    Closed,
}

impl<T> SendTimeoutError<T> {
    /// The message that was not sent.
    ///
    /// Source: this crate's own, as `SendError::into_inner`.
    pub fn into_inner(self) -> T
        ensures { result ≡ unsent_message self }
    {
        match self {
            SendTimeoutError::Timeout(msg) | SendTimeoutError::Refused(msg) => msg,
        }
    }

    /// Whether this is `Timeout`. If not, the channel is closed, or it has no active receiver and
    /// `await_active` is off.
    pub fn is_timeout(&self) -> bool
        ensures { IsTrue result ↔ (self.now ≡ SendTimeoutError.Timeout (unsent_message self.now)) }
    {
        matches!(self, SendTimeoutError::Timeout(_))
    }
}

impl<T> fmt::Display for SendTimeoutError<T> {
    ghost output = { λ error. Some (send_timeout_text error) };

    fn fmt<W: fmt::Write>(&self, f: &mut fmt::Formatter<W>) -> fmt::Result {
        f.write_str(match self {
            SendTimeoutError::Timeout(_) => "sending timed out",
            SendTimeoutError::Refused(_) => "sending into a closed channel",
        })
    }
}

impl<T> fmt::Debug for SendTimeoutError<T> {
    ghost debug_output = { λ error. Some (send_timeout_debug error) };

    fn fmt<W: fmt::Write>(&self, f: &mut fmt::Formatter<W>) -> fmt::Result {
        f.write_str(match self {
            SendTimeoutError::Timeout(_) => "Timeout(..)",
            SendTimeoutError::Refused(_) => "Refused(..)",
        })
    }
}

impl<T: Drop> Error for SendTimeoutError<T> {}

impl fmt::Display for RecvTimeoutError {
    ghost output = { λ error. Some (recv_timeout_text error) };

    fn fmt<W: fmt::Write>(&self, f: &mut fmt::Formatter<W>) -> fmt::Result {
        match self {
            RecvTimeoutError::Overflowed(missed) => {
                write!(f, "receiving skipped {missed} messages")
            }
            RecvTimeoutError::Timeout => f.write_str("receiving timed out"),
            RecvTimeoutError::Closed => f.write_str("receiving from an empty and closed channel"),
        }
    }
}

impl Error for RecvTimeoutError {}
