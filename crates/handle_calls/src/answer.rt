//! What calls on handles returned, as values that print.
use crate::seen::Seen;
use async_broadcast::{
    HandleError, RecvError, RecvTimeoutError, SendError, SendTimeoutError, TryRecvError,
    TrySendError,
};
use std::alloc::AllocError;

/// What a call returned.
#[derive(Clone, Copy, Debug)]
pub enum Answer {
    Accepted,
    /// Accepted, and this message was dropped for it.
    Dropped(u64),
    Full(u64),
    Closed(u64),
    Inactive(u64),
    /// This many messages of a list were handed back.
    AllFull(usize),
    AllClosed(usize),
    AllInactive(usize),
    /// A send that may wait is refused.
    Refused(u64),
    /// The time of a send is over.
    NotInTime(u64),
    Message(u64),
    /// How many messages a batch has, and its first four, with 0 for each that it lacks.
    Messages(usize, [u64; 4]),
    Overflowed(u64),
    Empty,
    /// The time of a receive is over.
    Timeout,
    /// The channel is closed, and nothing is left to receive.
    Ended,
    Pending,
    /// There is no memory for a send, which hands back this message.
    Unsent(u64),
    NoMemory,
    TooMany,
    Gone,
    /// The number of the handle that was made.
    Made(usize),
    Count(usize),
    Is(bool),
    /// What all handles see.
    All(Seen),
    /// The handles of the channel don't all see the same, or a list of messages has something else
    /// behind a batch than what was there and what the batch counts.
    Differs,
    Done,
}

impl From<TryRecvError> for Answer {
    fn from(error: TryRecvError) -> Answer {
        match error {
            TryRecvError::Overflowed(n) => Answer::Overflowed(n),
            TryRecvError::Empty => Answer::Empty,
            TryRecvError::Closed => Answer::Ended,
        }
    }
}

impl From<RecvError> for Answer {
    fn from(error: RecvError) -> Answer {
        match error {
            RecvError::Overflowed(n) => Answer::Overflowed(n),
            RecvError::Closed => Answer::Ended,
        }
    }
}

impl From<RecvTimeoutError> for Answer {
    fn from(error: RecvTimeoutError) -> Answer {
        match error {
            RecvTimeoutError::Overflowed(n) => Answer::Overflowed(n),
            RecvTimeoutError::Timeout => Answer::Timeout,
            RecvTimeoutError::Closed => Answer::Ended,
        }
    }
}

impl Answer {
    fn accepted(oldest: Option<u64>) -> Self {
        match oldest {
            None => Answer::Accepted,
            Some(oldest) => Answer::Dropped(oldest),
        }
    }

    /// What `try_broadcast` returned.
    pub fn of_try_send(answer: Result<Option<u64>, TrySendError<u64>>) -> Self {
        match answer {
            Ok(oldest) => Answer::accepted(oldest),
            Err(TrySendError::Full(back)) => Answer::Full(back),
            Err(TrySendError::Closed(back)) => Answer::Closed(back),
            Err(TrySendError::Inactive(back)) => Answer::Inactive(back),
        }
    }

    /// What `try_broadcast_all` returned.
    pub fn of_send_all(answer: Result<(), TrySendError<Vec<u64>>>) -> Self {
        match answer {
            Ok(()) => Answer::Accepted,
            Err(TrySendError::Full(back)) => Answer::AllFull(back.len()),
            Err(TrySendError::Closed(back)) => Answer::AllClosed(back.len()),
            Err(TrySendError::Inactive(back)) => Answer::AllInactive(back.len()),
        }
    }

    /// What a send that may wait returned.
    pub fn of_send(answer: Result<Option<u64>, SendError<u64>>) -> Self {
        match answer {
            Ok(oldest) => Answer::accepted(oldest),
            Err(SendError(back)) => Answer::Refused(back),
        }
    }

    /// What `broadcast_timeout` returned.
    pub fn of_timed_send(answer: Result<Option<u64>, SendTimeoutError<u64>>) -> Self {
        match answer {
            Ok(oldest) => Answer::accepted(oldest),
            Err(SendTimeoutError::Refused(back)) => Answer::Refused(back),
            Err(SendTimeoutError::Timeout(back)) => Answer::NotInTime(back),
        }
    }

    /// What the receive of one message returned.
    pub fn of_recv<E: Into<Answer>>(answer: Result<Result<u64, E>, AllocError>) -> Self {
        match answer {
            Ok(Ok(msg)) => Answer::Message(msg),
            Ok(Err(error)) => error.into(),
            Err(_) => Answer::NoMemory,
        }
    }

    /// Why a handle was not made.
    pub fn of_error(error: HandleError) -> Self {
        match error {
            HandleError::Memory => Answer::NoMemory,
            HandleError::TooMany => Answer::TooMany,
            HandleError::Gone => Answer::Gone,
        }
    }
}
