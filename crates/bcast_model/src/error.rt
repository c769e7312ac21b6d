//! The errors of the calls on a channel.
ghost use Rattle.std.specs.Prelude.{◌≡◌, ◌↔◌, IsTrue};
ghost use Rattle.bcast_model.specs.Errors.{unsent_message, IsOverflowed};

mod text;

/// Why `try_broadcast` did not accept a message, or `try_broadcast_all` a list. Each variant hands
/// back what was to be sent. Printing it needs no trait of `T`.
///
/// Source: `TrySendError` of async-broadcast 0.7.2.
#[derive(Clone, Copy, Drop, PartialEq, Eq)]
pub enum TrySendError<T> {
    /// There is no room. For one message: the channel is full, and overflow is off. For a list,
    /// overflow on or off: it needs more free capacity or more message numbers than are left.
    Full(T),
    /// The channel is closed.
    Closed(T),
    /// There is no active receiver.
    Inactive(T),
}

/// Why a send that may wait did not accept a message, which it hands back: the channel is closed,
/// or there is no active receiver and sends do not await one.
///
/// It prints the same text in both cases. Printing it needs no trait of `T`.
///
/// Source: `SendError` of async-broadcast 0.7.2.
#[derive(Clone, Copy, Drop, PartialEq, Eq)]
pub struct SendError<T>(pub T);

/// Out of memory: the message that was not sent, or the call that was not made. Nothing was done.
///
/// Printing it needs no trait of `T`.
#[derive(Clone, Copy, Drop, PartialEq, Eq)]
pub struct NoMemory<T>(pub T);

/// Why `try_recv` gave no message.
///
/// Source: `TryRecvError` of async-broadcast 0.7.2.
#[derive(Clone, Copy, Debug, PartialEq, Eq)]
pub enum TryRecvError {
    /// This many messages were dropped before the receiver read them. It continues after them.
    Overflowed(u64),
    /// Every message was read, and the channel is open.
    Empty,
    /// Every message was read, and the channel is closed.
    Closed,
}

/// Why a receive that may wait gave no message.
///
/// Source: `RecvError` of async-broadcast 0.7.2.
#[derive(Clone, Copy, Debug, PartialEq, Eq)]
pub enum RecvError {
    /// This many messages were dropped before the receiver read them. It continues after them.
    Overflowed(u64),
    /// Every message was read, and the channel is closed.
    Closed,
}

/// Why a handle was not made. Nothing changed.
#[derive(Clone, Copy, Debug, PartialEq, Eq)]
pub enum HandleError {
    /// Out of memory.
    Memory,
    /// The count of such handles is the greatest `usize`.
    TooMany,
    /// The handle from which it was to be made doesn't exist.
    Gone,
}

impl<T> TrySendError<T> {
    /// The message or the list that was not sent.
    ///
    /// Source: `TrySendError::into_inner` of async-broadcast 0.7.2.
    pub fn into_inner(self) -> T
        ensures { result ≡ unsent_message self }
    {
        match self {
            TrySendError::Full(msg) => msg,
            TrySendError::Closed(msg) => msg,
            TrySendError::Inactive(msg) => msg,
        }
    }

    /// Whether there was no room: the channel was open, and had an active receiver.
    ///
    /// Source: `TrySendError::is_full` of async-broadcast 0.7.2.
    pub fn is_full(&self) -> bool
        ensures { IsTrue result ↔ (self.now ≡ TrySendError.Full (unsent_message self.now)) }
    {
        matches!(self, TrySendError::Full(_))
    }

    /// Whether the channel was closed.
    ///
    /// Source: `TrySendError::is_closed` of async-broadcast 0.7.2.
    pub fn is_closed(&self) -> bool
        ensures { IsTrue result ↔ (self.now ≡ TrySendError.Closed (unsent_message self.now)) }
    {
        matches!(self, TrySendError::Closed(_))
    }

    /// Whether an open channel had no active receiver.
    ///
    /// Source: `TrySendError::is_disconnected` of async-broadcast 0.7.2.
    pub fn is_disconnected(&self) -> bool
        ensures { IsTrue result ↔ (self.now ≡ TrySendError.Inactive (unsent_message self.now)) }
    {
        matches!(self, TrySendError::Inactive(_))
    }
}

impl<T> SendError<T> {
    /// The message that was not sent.
    ///
    /// Source: `SendError::into_inner` of async-broadcast 0.7.2.
    pub fn into_inner(self) -> T
        ensures { result ≡ self.0 }
    {
        let SendError(msg) = self;
        msg
    }
}

impl<T> NoMemory<T> {
    /// The message that was not sent, or the call that was not made.
    ///
    /// Source: this crate's own, as `SendError::into_inner`.
    pub fn into_inner(self) -> T
        ensures { result ≡ self.0 }
    {
        let NoMemory(back) = self;
        back
    }
}

impl TryRecvError {
    /// Whether every message was read, in an open channel.
    ///
    /// Source: `TryRecvError::is_empty` of async-broadcast 0.7.2.
    pub fn is_empty(&self) -> bool
        ensures { IsTrue result ↔ (self.now ≡ TryRecvError.Empty) }
    {
        matches!(self, TryRecvError::Empty)
    }

    /// Whether every message was read, in a closed channel.
    ///
    /// Source: `TryRecvError::is_closed` of async-broadcast 0.7.2.
    pub fn is_closed(&self) -> bool
        ensures { IsTrue result ↔ (self.now ≡ TryRecvError.Closed) }
    {
        matches!(self, TryRecvError::Closed)
    }

    /// Whether the receiver missed messages.
    ///
    /// Source: `TryRecvError::is_overflowed` of async-broadcast 0.7.2.
    pub fn is_overflowed(&self) -> bool
        ensures { IsTrue result ↔ IsOverflowed self.now }
    {
        matches!(self, TryRecvError::Overflowed(_))
    }
}
