//! The sending side.
ghost use Rattle.std.specs.Prelude.{◌≡◌};
ghost use Rattle.bcast_model.specs.Encodings.{in_lists};
ghost use Rattle.bcast_core.specs.declared.calls.handles.Change.TheVariants as change;
ghost use Rattle.async_broadcast.specs.Handles.{MakesHandle};

use crate::handle::{Handle, Role};
use crate::port::Port;
use bcast_core::{
    AddHandle, Call, Change, HandleError, Messages, Reply, SendError, SendPoll, TryBroadcast,
    TryBroadcastAll, TrySendError, in_vec,
};
use std::alloc::{Allocator, Global};

/// Sends messages to all active receivers of a channel.
///
/// `clone` makes another one. When the last one is dropped the channel closes: no more messages
/// are accepted, and those that are kept can still be received. Contracts name its `port`.
///
/// Source: `Sender` of async-broadcast 0.7.2.
pub type Sender<T, P, A = Global> = Handle<T, P, Sending, A>;

/// The role of a `Sender`.
#[derive(Drop)]
pub struct Sending;

impl<T: Clone, P: Port<T>, A: Allocator + Copy> Sender<T, P, A> {
    /// A sender over this port, whose channel has counted it: its drop asks `DropSender`.
    ///
    /// Futures and handles that are made by it take their memory from `alloc`.
    pub fn from_port(port: P, alloc: A) -> Self
        ensures { result.port ≡ port }
    {
        Handle::new(port, Sending, alloc)
    }

    /// Sends a message, unless the channel is closed, or has no active receiver, or no room for it.
    ///
    /// Doesn't wait for room or for a receiver; behind a lock it waits for the lock.
    /// `Ok(Some(oldest))` hands back the message that a full channel dropped, in overflow mode.
    ///
    /// # Errors
    ///
    /// Each hands the message back. The first that applies is returned.
    ///
    /// - `Closed`: the channel is closed.
    /// - `Inactive`: there is no active receiver.
    /// - `Full`: the channel is full, and overflow mode is off.
    ///
    /// ```rust
    /// let (sender, receiver) = broadcast(&rt, rt.alloc(), 1)?;
    /// assert!(rt; matches!(sender.try_broadcast(1), Ok(None)));
    /// assert!(rt; matches!(sender.try_broadcast(2), Err(TrySendError::Full(2))));
    /// let inactive = receiver.deactivate().ok().ok_or("no handle")?;
    /// assert!(rt; matches!(sender.try_broadcast(3), Err(TrySendError::Inactive(3))));
    /// drop(inactive);
    /// assert!(rt; matches!(sender.try_broadcast(4), Err(TrySendError::Closed(4))));
    /// ```
    ///
    /// Source: `Sender::try_broadcast` of async-broadcast 0.7.2.
    #[inline(always)]
    pub fn try_broadcast(&self, msg: T) -> Result<Option<T>, TrySendError<T>>
        ensures { P.gave self.now.port (Call.TryBroadcast msg) (Reply.TryBroadcast result) }
    {
        self.port.ask(&mut (), TryBroadcast(msg))
    }

    /// Sends a whole list of messages in one step, unless the channel is closed, has no active
    /// receiver, or has no room for all of them.
    ///
    /// Waits as `try_broadcast` does, and allocates nothing. An accepted list is last, in its
    /// order, and no other message comes between. No message is dropped for it, not even in
    /// overflow mode. All that wait to receive are told once for the whole list. The channel closes
    /// if the list gets the last message number. An empty list is accepted or refused as any other,
    /// and changes nothing.
    ///
    /// # Errors
    ///
    /// Each hands the whole list back. The first that applies is returned.
    ///
    /// - `Closed`: the channel is closed.
    /// - `Inactive`: there is no active receiver.
    /// - `Full`: the list needs more room, or more message numbers, than the channel has left.
    ///
    /// ```rust
    /// let (sender, mut receiver) = broadcast(&rt, rt.alloc(), 3)?;
    /// assert!(rt; sender.try_broadcast_all(vec![in rt.alloc(); 1, 2]?).is_ok());
    /// let four = vec![in rt.alloc(); 3, 4]?;
    /// assert!(rt; matches!(sender.try_broadcast_all(four), Err(TrySendError::Full(_))));
    /// assert!(rt; sender.try_broadcast(3).is_ok());
    /// assert!(rt; matches!(receiver.try_recv(), Ok(Ok(1))));
    /// assert!(rt; matches!(receiver.try_recv(), Ok(Ok(2))));
    /// assert!(rt; matches!(receiver.try_recv(), Ok(Ok(3))));
    /// ```
    pub fn try_broadcast_all(&self, msgs: Vec<T>) -> Result<(), TrySendError<Vec<T>>>
        ensures { P.gave self.now.port (Call.TryBroadcastAll msgs.items)
            (Reply.TryBroadcastAll (in_lists result)) }
    {
        let call = TryBroadcastAll(Messages::new(msgs));
        in_vec(self.port.ask(&mut (), call))
    }

    /// Sends a message, and blocks the thread while the channel has no room for it, or, with
    /// `await_active`, no active receiver.
    ///
    /// `Ok(Some(oldest))` hands back the message that a full channel dropped for this one, in
    /// overflow mode.
    ///
    /// # Errors
    ///
    /// - `SendError(msg)`: the channel is closed, or it has no active receiver and `await_active`
    ///   is off. The message is handed back.
    ///
    /// ```rust
    /// let (sender, mut receiver) = broadcast(&rt, rt.alloc(), 1)?;
    /// assert!(rt; sender.broadcast_blocking(7).is_ok());
    /// assert!(rt; matches!(receiver.try_recv(), Ok(Ok(7))));
    /// assert!(rt; sender.broadcast_blocking(8).is_ok());
    /// assert!(rt; matches!(receiver.recv_blocking(), Ok(Ok(8))));
    /// drop(receiver);
    /// assert!(rt; matches!(sender.broadcast_blocking(9), Err(SendError(9))));
    /// ```
    ///
    /// Source: `Sender::broadcast_blocking` of async-broadcast 0.7.2.
    pub fn broadcast_blocking(&self, msg: T) -> Result<Option<T>, SendError<T>>
        ensures { P.gave self.now.port (Call.AttemptSend msg)
            (Reply.AttemptSend (SendPoll.Ready result)) }
    {
        self.port.send_waiting(&mut (), msg)
    }

    /// Makes another sender of the channel.
    ///
    /// # Errors
    ///
    /// - `Memory`: no memory for the handle. The channel was not called.
    /// - `TooMany`: the channel can't count one more.
    ///
    /// ```rust
    /// let (sender, mut receiver) = broadcast(&rt, rt.alloc(), 1)?;
    /// let other = sender.clone()?;
    /// drop(sender);
    /// assert!(rt; other.try_broadcast(1).is_ok());
    /// drop(other);
    /// assert!(rt; matches!(receiver.try_recv(), Ok(Ok(1))));
    /// assert!(rt; matches!(receiver.try_recv(), Ok(Err(TryRecvError::Closed))));
    /// ```
    ///
    /// Source: `Sender::clone` of async-broadcast 0.7.2, which never refuses.
    pub fn clone(&self) -> Result<Self, HandleError>
        ensures { MakesHandle P.gave P.lacks_memory self.now.port
            Call.NewSender Reply.NewSender (λ _. tt) result }
    {
        let port = self.port.try_clone().ok_or(HandleError::Memory)?;
        self.port.ask(&mut (), AddHandle::Sender)?;
        Ok(Sender::from_port(port, self.alloc))
    }
}

impl Role for Sending {
    ghost leaves = { λ _. change.DropSender };

    #[inline(always)]
    fn leaving(&self) -> Change {
        Change::DropSender
    }
}
