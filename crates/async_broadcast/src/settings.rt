//! The settings and counts of a channel, through any handle.
ghost use Rattle.std.specs.Prelude.{◌≡◌, ◌<◌};

use crate::handle::{Handle, Role};
use crate::port::Ask;
use bcast_core::{Call, Change, Close, Count, Reply, SetCapacity, Test};
use std::alloc::{AllocError, Allocator};

impl<T: Clone, P: Ask<T, ()>, H: Role, A: Allocator> Handle<T, P, H, A> {
    /// The greatest number of messages that the channel keeps at once.
    ///
    /// ```rust
    /// let (sender, receiver) = broadcast::<u64, _, _>(&rt, rt.alloc(), 1)?;
    /// assert!(rt; sender.capacity() == 1);
    /// ```
    ///
    /// Source: `Sender::capacity` of async-broadcast 0.7.2.
    pub fn capacity(&self) -> usize
        ensures { P.gave self.now.port Call.Capacity (Reply.Capacity result) }
    {
        self.port.ask(&mut (), Count::Capacity)
    }

    /// Changes how many messages the channel keeps at once.
    ///
    /// If more than `new_cap` are kept, the oldest are dropped, and receivers that had still to
    /// read them see `Overflowed`, in overflow mode or not.
    ///
    /// # Errors
    ///
    /// - `AllocError`: no memory for a greater capacity than any before. Nothing changed.
    ///
    /// ```rust
    /// let (mut sender, mut receiver) = broadcast(&rt, rt.alloc(), 2)?;
    /// assert!(rt; sender.try_broadcast(1).is_ok());
    /// assert!(rt; sender.try_broadcast(2).is_ok());
    /// sender.set_capacity(1)?;
    /// assert!(rt; matches!(receiver.try_recv(), Ok(Err(TryRecvError::Overflowed(1)))));
    /// assert!(rt; matches!(receiver.try_recv(), Ok(Ok(2))));
    /// ```
    ///
    /// Source: `Sender::set_capacity` of async-broadcast 0.7.2, which never refuses.
    pub fn set_capacity(&mut self, new_cap: usize) -> Result<(), AllocError>
        requires { 0 < new_cap }
        ensures asked { P.gave self.old.port (Call.SetCapacity new_cap) (Reply.SetCapacity result) }
        ensures same { self.new ≡ self.old }
    {
        // A program that isn't proved stops here.
        prove!(new_cap > 0);
        self.port.ask(&mut (), SetCapacity(new_cap))
    }

    /// Whether a full channel drops its oldest message to accept a new one.
    ///
    /// ```rust
    /// let (mut sender, receiver) = broadcast::<u64, _, _>(&rt, rt.alloc(), 1)?;
    /// assert!(rt; !sender.overflow());
    /// sender.set_overflow(true);
    /// assert!(rt; sender.overflow());
    /// ```
    ///
    /// Source: `Sender::overflow` of async-broadcast 0.7.2.
    pub fn overflow(&self) -> bool
        ensures { P.gave self.now.port Call.Overflow (Reply.Overflow result) }
    {
        self.port.ask(&mut (), Test::Overflow)
    }

    /// Sets whether a full channel drops its oldest message to accept a new one.
    ///
    /// ```rust
    /// let (mut sender, mut receiver) = broadcast(&rt, rt.alloc(), 1)?;
    /// sender.set_overflow(true);
    /// assert!(rt; matches!(sender.try_broadcast(1), Ok(None)));
    /// assert!(rt; matches!(sender.try_broadcast(2), Ok(Some(1))));
    /// assert!(rt; matches!(receiver.try_recv(), Ok(Err(TryRecvError::Overflowed(1)))));
    /// assert!(rt; matches!(receiver.try_recv(), Ok(Ok(2))));
    /// ```
    ///
    /// Source: `Sender::set_overflow` of async-broadcast 0.7.2.
    pub fn set_overflow(&mut self, overflow: bool)
        ensures asked { P.gave self.old.port (Call.SetOverflow overflow) Reply.SetOverflow }
        ensures same { self.new ≡ self.old }
    {
        self.port.ask(&mut (), Change::SetOverflow(overflow))
    }

    /// Whether sends that may wait do so while there is no active receiver.
    ///
    /// ```rust
    /// let (mut sender, receiver) = broadcast::<u64, _, _>(&rt, rt.alloc(), 1)?;
    /// assert!(rt; sender.await_active());
    /// sender.set_await_active(false);
    /// assert!(rt; !sender.await_active());
    /// ```
    ///
    /// Source: `Sender::await_active` of async-broadcast 0.7.2.
    pub fn await_active(&self) -> bool
        ensures { P.gave self.now.port Call.AwaitActive (Reply.AwaitActive result) }
    {
        self.port.ask(&mut (), Test::AwaitActive)
    }

    /// Sets whether sends that may wait do so while there is no active receiver.
    ///
    /// ```rust
    /// let (mut sender, receiver) = broadcast(&rt, rt.alloc(), 1)?;
    /// let _inactive = receiver.deactivate().ok().ok_or("no handle")?;
    /// sender.set_await_active(false);
    /// assert!(rt; matches!(sender.broadcast_blocking(7), Err(SendError(7))));
    /// assert!(rt; !sender.is_closed());
    /// ```
    ///
    /// Source: `Sender::set_await_active` of async-broadcast 0.7.2.
    pub fn set_await_active(&mut self, await_active: bool)
        ensures asked { P.gave self.old.port (Call.SetAwaitActive await_active)
            Reply.SetAwaitActive }
        ensures same { self.new ≡ self.old }
    {
        self.port.ask(&mut (), Change::SetAwaitActive(await_active))
    }

    /// Closes the channel, and returns whether it was open.
    ///
    /// No more messages are accepted. Those that are kept can still be received.
    ///
    /// ```rust
    /// let (sender, receiver) = broadcast::<u64, _, _>(&rt, rt.alloc(), 1)?;
    /// assert!(rt; sender.close());
    /// assert!(rt; !sender.close());
    /// ```
    ///
    /// Source: `Sender::close` of async-broadcast 0.7.2.
    pub fn close(&self) -> bool
        ensures { P.gave self.now.port Call.Close (Reply.Close result) }
    {
        self.port.ask(&mut (), Close)
    }

    /// Whether the channel is closed.
    ///
    /// ```rust
    /// let (sender, receiver) = broadcast::<u64, _, _>(&rt, rt.alloc(), 1)?;
    /// assert!(rt; !sender.is_closed());
    /// receiver.close();
    /// assert!(rt; sender.is_closed());
    /// ```
    ///
    /// Source: `Sender::is_closed` of async-broadcast 0.7.2.
    pub fn is_closed(&self) -> bool
        ensures { P.gave self.now.port Call.IsClosed (Reply.IsClosed result) }
    {
        self.port.ask(&mut (), Test::IsClosed)
    }

    /// Whether the channel keeps no message.
    ///
    /// ```rust
    /// let (sender, receiver) = broadcast::<u64, _, _>(&rt, rt.alloc(), 1)?;
    /// assert!(rt; sender.is_empty());
    /// assert!(rt; sender.try_broadcast(7).is_ok());
    /// assert!(rt; !sender.is_empty());
    /// ```
    ///
    /// Source: `Sender::is_empty` of async-broadcast 0.7.2.
    pub fn is_empty(&self) -> bool
        ensures { P.gave self.now.port Call.IsEmpty (Reply.IsEmpty result) }
    {
        self.port.ask(&mut (), Test::IsEmpty)
    }

    /// Whether the channel keeps as many messages as its capacity allows.
    ///
    /// ```rust
    /// let (sender, receiver) = broadcast::<u64, _, _>(&rt, rt.alloc(), 1)?;
    /// assert!(rt; !sender.is_full());
    /// assert!(rt; sender.try_broadcast(7).is_ok());
    /// assert!(rt; sender.is_full());
    /// ```
    ///
    /// Source: `Sender::is_full` of async-broadcast 0.7.2.
    pub fn is_full(&self) -> bool
        ensures { P.gave self.now.port Call.IsFull (Reply.IsFull result) }
    {
        self.port.ask(&mut (), Test::IsFull)
    }

    /// The number of messages that the channel keeps.
    ///
    /// ```rust
    /// let (sender, receiver) = broadcast::<u64, _, _>(&rt, rt.alloc(), 1)?;
    /// assert!(rt; sender.try_broadcast(7).is_ok());
    /// assert!(rt; sender.len() == 1);
    /// ```
    ///
    /// Source: `Sender::len` of async-broadcast 0.7.2.
    pub fn len(&self) -> usize
        ensures { P.gave self.now.port Call.Len (Reply.Len result) }
    {
        self.port.ask(&mut (), Count::Len)
    }

    /// The number of active receivers.
    ///
    /// ```rust
    /// let (sender, receiver) = broadcast::<u64, _, _>(&rt, rt.alloc(), 1)?;
    /// let other = receiver.clone()?;
    /// assert!(rt; sender.receiver_count() == 2);
    /// ```
    ///
    /// Source: `Sender::receiver_count` of async-broadcast 0.7.2.
    pub fn receiver_count(&self) -> usize
        ensures { P.gave self.now.port Call.ReceiverCount (Reply.ReceiverCount result) }
    {
        self.port.ask(&mut (), Count::ReceiverCount)
    }

    /// The number of inactive receivers.
    ///
    /// ```rust
    /// let (sender, receiver) = broadcast::<u64, _, _>(&rt, rt.alloc(), 1)?;
    /// let _inactive = receiver.deactivate().ok().ok_or("no handle")?;
    /// assert!(rt; sender.inactive_receiver_count() == 1);
    /// ```
    ///
    /// Source: `Sender::inactive_receiver_count` of async-broadcast 0.7.2.
    pub fn inactive_receiver_count(&self) -> usize
        ensures { P.gave self.now.port Call.InactiveReceiverCount
            (Reply.InactiveReceiverCount result) }
    {
        self.port.ask(&mut (), Count::InactiveReceiverCount)
    }

    /// The number of senders.
    ///
    /// ```rust
    /// let (sender, receiver) = broadcast::<u64, _, _>(&rt, rt.alloc(), 1)?;
    /// let _sender = sender.clone()?;
    /// assert!(rt; sender.sender_count() == 2);
    /// ```
    ///
    /// Source: `Sender::sender_count` of async-broadcast 0.7.2.
    pub fn sender_count(&self) -> usize
        ensures { P.gave self.now.port Call.SenderCount (Reply.SenderCount result) }
    {
        self.port.ask(&mut (), Count::SenderCount)
    }
}
