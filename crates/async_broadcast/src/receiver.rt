//! The receiving side.
ghost use Rattle.std.specs.Prelude.{◌≡◌, Ok, Err, IfOk, IfErr};
ghost use Rattle.bcast_core.specs.declared.calls.handles.Change.TheVariants as change;
ghost use Rattle.async_broadcast.specs.Handles.{MakesHandle};
ghost use Rattle.async_broadcast.specs.Ports.{as_try_recv};

use crate::handle::{Handle, Role};
use crate::inactive::{Inactive, InactiveReceiver};
use crate::port::Port;
use crate::sender::Sender;
use crate::wake::TaskWaker;
use bcast_core::{
    AddHandle, AddReceiver, Call, Change, HandleError, RecvError, RecvResult, Reply, Test, TryRecv,
    TryRecvError,
};
use std::alloc::{Allocator, Global};

/// Receives each message that a channel accepts, from the receiver's start on, or the number of
/// messages that it missed.
///
/// `clone` makes another one with the same messages still to read, `new_receiver` one that starts
/// with the next message. The channel closes when its last receiver is dropped, unless an inactive
/// one is left. Contracts name its `port`, and the `role.key` under which the channel has its
/// cursor.
///
/// A receiver is also a stream, which skips what it missed, and ends when every message was read
/// and the channel is closed. Its item is an `AllocError` if memory for a notice or for a clone
/// of a message was refused; nothing changed then, and the stream continues.
///
/// ```rust
/// let (sender, mut receiver) = broadcast(&rt, rt.alloc(), 1)?;
/// assert!(rt; sender.try_broadcast(1).is_ok());
/// drop(sender);
/// assert!(rt; matches!(block_on(&rt, receiver.next())?, Some(Ok(1))));
/// assert!(rt; matches!(block_on(&rt, receiver.next())?, None));
/// ```
///
/// Source: `Receiver` of async-broadcast 0.7.2.
pub type Receiver<T, P, A = Global> = Handle<T, P, Receiving, A>;

/// The role of a `Receiver`.
#[derive(Drop)]
pub struct Receiving {
    // The key under which the channel has the cursor.
    pub(crate) key: usize,
    // For the task that polls the receiver, as a stream or by a `Recv`.
    pub(crate) waker: TaskWaker,
}

impl Receiving {
    /// For the receiver of this key, which no task has polled.
    pub(crate) fn new(key: usize) -> Self
        ensures { result.key ≡ key }
    {
        Receiving {
            key,
            waker: TaskWaker::new(),
        }
    }
}

impl<T: Clone, P: Port<T>, A: Allocator + Copy> Receiver<T, P, A> {
    /// A receiver over this port, whose channel has its cursor under this key: its drop asks
    /// `DropReceiver`.
    ///
    /// Futures and handles that are made by it take their memory from `alloc`.
    pub fn from_port(port: P, key: usize, alloc: A) -> Self
        ensures { (result.port ≡ port) × (result.role.key ≡ key) }
    {
        Handle::new(port, Receiving::new(key), alloc)
    }

    /// Receives the next message, if there is one.
    ///
    /// Doesn't wait for a message; behind a lock it waits for the lock.
    ///
    /// # Errors
    ///
    /// - `AllocError`: no memory for a clone of a message that others have still to read. Nothing
    ///   changed.
    /// - `Overflowed(n)`: the next `n` messages were dropped. The receiver continues after them.
    /// - `Empty`: every message was read, and the channel is open.
    /// - `Closed`: every message was read, and the channel is closed.
    ///
    /// ```rust
    /// let (sender, mut receiver) = broadcast(&rt, rt.alloc(), 1)?;
    /// assert!(rt; matches!(receiver.try_recv(), Ok(Err(TryRecvError::Empty))));
    /// assert!(rt; sender.try_broadcast(1).is_ok());
    /// drop(sender);
    /// assert!(rt; matches!(receiver.try_recv(), Ok(Ok(1))));
    /// assert!(rt; matches!(receiver.try_recv(), Ok(Err(TryRecvError::Closed))));
    /// ```
    ///
    /// Source: `Receiver::try_recv` of async-broadcast 0.7.2, which never refuses for memory.
    #[inline(always)]
    pub fn try_recv(&mut self) -> RecvResult<T, TryRecvError>
        ensures asked { P.gave self.old.port (Call.TryRecv self.old.role.key)
            (Reply.TryRecv result) }
        ensures same { self.new ≡ self.old }
    {
        self.port.ask(&mut (), TryRecv(self.role.key))
    }

    /// Receives the next message, and blocks the thread while there is none and the channel is
    /// open.
    ///
    /// # Errors
    ///
    /// As `try_recv`, but for `Empty`.
    ///
    /// ```rust
    /// let (sender, mut receiver) = broadcast(&rt, rt.alloc(), 1)?;
    /// assert!(rt; sender.try_broadcast(1).is_ok());
    /// drop(sender);
    /// assert!(rt; matches!(receiver.recv_blocking(), Ok(Ok(1))));
    /// assert!(rt; matches!(receiver.recv_blocking(), Ok(Err(RecvError::Closed))));
    /// ```
    ///
    /// Source: `Receiver::recv_blocking` of async-broadcast 0.7.2, which never refuses for memory.
    pub fn recv_blocking(&mut self) -> RecvResult<T, RecvError>
        ensures asked { P.gave self.old.port (Call.TryRecv self.old.role.key)
            (Reply.TryRecv (as_try_recv result)) }
        ensures same { self.new ≡ self.old }
    {
        self.port.receive_waiting(&mut (), self.role.key)
    }

    /// Whether the channel is closed and keeps no message.
    ///
    /// A receiver that has read everything is done as soon as the channel is closed, also if this
    /// is false because another receiver has still to read.
    ///
    /// ```rust
    /// let (sender, mut receiver) = broadcast(&rt, rt.alloc(), 1)?;
    /// assert!(rt; sender.try_broadcast(1).is_ok());
    /// drop(sender);
    /// assert!(rt; !receiver.is_terminated());
    /// assert!(rt; matches!(receiver.try_recv(), Ok(Ok(1))));
    /// assert!(rt; receiver.is_terminated());
    /// ```
    ///
    /// Source: `Receiver::is_terminated` of async-broadcast 0.7.2.
    pub fn is_terminated(&self) -> bool
        ensures { P.gave self.now.port Call.IsTerminated (Reply.IsTerminated result) }
    {
        self.port.ask(&mut (), Test::IsTerminated)
    }

    /// Makes another active receiver, which has the same messages still to read.
    ///
    /// # Errors
    ///
    /// - `Memory`: no memory for the handle.
    ///
    /// ```rust
    /// let (sender, mut one) = broadcast(&rt, rt.alloc(), 1)?;
    /// assert!(rt; sender.try_broadcast(1).is_ok());
    /// let mut two = one.clone()?;
    /// assert!(rt; matches!(one.try_recv(), Ok(Ok(1))));
    /// assert!(rt; matches!(two.try_recv(), Ok(Ok(1))));
    /// ```
    ///
    /// Source: `Receiver::clone` of async-broadcast 0.7.2, which never refuses.
    #[inline(always)]
    pub fn clone(&self) -> Result<Self, HandleError>
        ensures { MakesHandle P.gave P.lacks_memory self.now.port
            (Call.CloneReceiver self.now.role.key) Reply.CloneReceiver (λ made. made.role.key)
            result }
    {
        let (port, key) = self.add_receiver(AddReceiver::Clone(self.role.key))?;
        Ok(Receiver::from_port(port, key, self.alloc))
    }

    /// Makes a sender of the channel. It doesn't open a closed one.
    ///
    /// # Errors
    ///
    /// - `Memory`: no memory for the handle. The channel was not called.
    /// - `TooMany`: the channel can't count one more.
    ///
    /// ```rust
    /// let (sender, mut receiver) = broadcast(&rt, rt.alloc(), 1)?;
    /// let other = receiver.new_sender()?;
    /// drop(sender);
    /// assert!(rt; other.try_broadcast(1).is_ok());
    /// assert!(rt; matches!(receiver.try_recv(), Ok(Ok(1))));
    /// ```
    ///
    /// Source: `Receiver::new_sender` of async-broadcast 0.7.2, which never refuses.
    pub fn new_sender(&self) -> Result<Sender<T, P, A>, HandleError>
        ensures { MakesHandle P.gave P.lacks_memory self.now.port
            Call.NewSender Reply.NewSender (λ _. tt) result }
    {
        let port = self.port.try_clone().ok_or(HandleError::Memory)?;
        self.port.ask(&mut (), AddHandle::Sender)?;
        Ok(Sender::from_port(port, self.alloc))
    }

    /// Turns the receiver into an inactive one, which receives nothing and keeps the channel open.
    ///
    /// What it had still to read is dropped if no other receiver has to read it.
    ///
    /// # Errors
    ///
    /// Each hands the receiver back as it was.
    ///
    /// - `TooMany`: the channel can't count one more inactive receiver.
    ///
    /// ```rust
    /// let (sender, receiver) = broadcast(&rt, rt.alloc(), 1)?;
    /// let inactive = receiver.deactivate().ok().ok_or("no handle")?;
    /// assert!(rt; matches!(sender.try_broadcast(1), Err(TrySendError::Inactive(1))));
    /// let mut receiver = inactive.activate().ok().ok_or("no handle")?;
    /// assert!(rt; sender.try_broadcast(2).is_ok());
    /// assert!(rt; matches!(receiver.try_recv(), Ok(Ok(2))));
    /// ```
    ///
    /// Source: `Receiver::deactivate` of async-broadcast 0.7.2, which never refuses.
    pub fn deactivate(self) -> Result<InactiveReceiver<T, P, A>, (Self, HandleError)>
        ensures made { IfOk result (λ made. (made.port ≡ self.port)
            × P.gave self.port (Call.Deactivate self.role.key) (Reply.Deactivate (Ok tt))) }
        ensures refused { IfErr result (λ back. (back.0 ≡ self)
            × P.gave self.port (Call.Deactivate self.role.key) (Reply.Deactivate (Err back.1))) }
    {
        let call = AddHandle::Deactivated(self.role.key);
        match self.port.ask(&mut (), call) {
            Ok(()) => Ok(self.with_role(Inactive)),
            Err(error) => Err((self, error)),
        }
    }
}

impl<T: Clone, P: Port<T>, H: Role, A: Allocator + Copy> Handle<T, P, H, A> {
    /// Makes an active receiver, whose first message is the next one that is accepted.
    ///
    /// On a closed channel it receives nothing, and doesn't open it.
    ///
    /// # Errors
    ///
    /// - `Memory`: no memory for the handle.
    ///
    /// ```rust
    /// let (sender, mut one) = broadcast(&rt, rt.alloc(), 2)?;
    /// assert!(rt; sender.try_broadcast(1).is_ok());
    /// let mut two = sender.new_receiver()?;
    /// assert!(rt; sender.try_broadcast(2).is_ok());
    /// assert!(rt; matches!(one.try_recv(), Ok(Ok(1))));
    /// assert!(rt; matches!(two.try_recv(), Ok(Ok(2))));
    /// ```
    ///
    /// Source: `Sender::new_receiver` and `Receiver::new_receiver` of async-broadcast 0.7.2, which
    /// never refuse.
    pub fn new_receiver(&self) -> Result<Receiver<T, P, A>, HandleError>
        ensures { MakesHandle P.gave P.lacks_memory self.now.port
            Call.NewReceiver Reply.NewReceiver (λ made. made.role.key) result }
    {
        let (port, key) = self.add_receiver(AddReceiver::New)?;
        Ok(Receiver::from_port(port, key, self.alloc))
    }
}

impl Role for Receiving {
    ghost leaves = { λ role. change.DropReceiver role.key };

    #[inline(always)]
    fn leaving(&self) -> Change {
        Change::DropReceiver(self.key)
    }
}
