//! What the errors print.
ghost use Rattle.std.specs.Prelude.{Some, codes};
ghost use Rattle.bcast_model.specs.Words.{handle_error_text, recv_error_text, try_recv_error_text};
ghost use Rattle.bcast_model.specs.Words.{try_send_error_text, try_send_error_debug};

use super::{HandleError, NoMemory, RecvError, SendError, TryRecvError, TrySendError};
use std::error::Error;
use std::fmt;

impl<T> fmt::Display for TrySendError<T> {
    ghost output = { λ error. Some (try_send_error_text error) };

    fn fmt<W: fmt::Write>(&self, f: &mut fmt::Formatter<W>) -> fmt::Result {
        f.write_str(match self {
            TrySendError::Full(_) => "sending into a full channel",
            TrySendError::Closed(_) => "sending into a closed channel",
            TrySendError::Inactive(_) => "sending into the void (no active receivers)",
        })
    }
}

impl<T> fmt::Debug for TrySendError<T> {
    ghost debug_output = { λ error. Some (try_send_error_debug error) };

    fn fmt<W: fmt::Write>(&self, f: &mut fmt::Formatter<W>) -> fmt::Result {
        f.write_str(match self {
            TrySendError::Full(_) => "Full(..)",
            TrySendError::Closed(_) => "Closed(..)",
            TrySendError::Inactive(_) => "Inactive(..)",
        })
    }
}

impl<T: Drop> Error for TrySendError<T> {}

impl<T> fmt::Display for SendError<T> {
    ghost output = { λ _. Some (codes "sending into a closed channel") };

    fn fmt<W: fmt::Write>(&self, f: &mut fmt::Formatter<W>) -> fmt::Result {
        f.write_str("sending into a closed channel")
    }
}

impl<T> fmt::Debug for SendError<T> {
    ghost debug_output = { λ _. Some (codes "SendError(..)") };

    fn fmt<W: fmt::Write>(&self, f: &mut fmt::Formatter<W>) -> fmt::Result {
        f.write_str("SendError(..)")
    }
}

impl<T: Drop> Error for SendError<T> {}

impl<T> fmt::Display for NoMemory<T> {
    ghost output = { λ _. Some (codes "out of memory") };

    fn fmt<W: fmt::Write>(&self, f: &mut fmt::Formatter<W>) -> fmt::Result {
        f.write_str("out of memory")
    }
}

impl<T> fmt::Debug for NoMemory<T> {
    ghost debug_output = { λ _. Some (codes "NoMemory(..)") };

    fn fmt<W: fmt::Write>(&self, f: &mut fmt::Formatter<W>) -> fmt::Result {
        f.write_str("NoMemory(..)")
    }
}

impl<T: Drop> Error for NoMemory<T> {}

impl fmt::Display for TryRecvError {
    ghost output = { λ error. Some (try_recv_error_text error) };

    fn fmt<W: fmt::Write>(&self, f: &mut fmt::Formatter<W>) -> fmt::Result {
        match self {
            TryRecvError::Overflowed(missed) => {
                write!(f, "receiving operation observed {missed} lost messages")
            }
            TryRecvError::Empty => f.write_str("receiving from an empty channel"),
            TryRecvError::Closed => f.write_str("receiving from an empty and closed channel"),
        }
    }
}

impl Error for TryRecvError {}

impl fmt::Display for RecvError {
    ghost output = { λ error. Some (recv_error_text error) };

    fn fmt<W: fmt::Write>(&self, f: &mut fmt::Formatter<W>) -> fmt::Result {
        match self {
            RecvError::Overflowed(missed) => write!(f, "receiving skipped {missed} messages"),
            RecvError::Closed => f.write_str("receiving from an empty and closed channel"),
        }
    }
}

impl Error for RecvError {}

impl fmt::Display for HandleError {
    ghost output = { λ error. Some (handle_error_text error) };

    fn fmt<W: fmt::Write>(&self, f: &mut fmt::Formatter<W>) -> fmt::Result {
        f.write_str(match self {
            HandleError::Memory => "no memory for a handle",
            HandleError::TooMany => "too many handles",
            HandleError::Gone => "no such handle",
        })
    }
}

impl Error for HandleError {}
