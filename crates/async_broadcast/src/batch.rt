//! Receiving several messages at once.
ghost use Rattle.std.specs.Prelude.{◌≡◌, ◌<◌, ◌≤◌, vec_len, vec_capacity};
ghost use Rattle.std.specs.Prelude.{IfOk, IfSome, IfNone, OnErr};
ghost use Rattle.futures.specs.Task.{IsArmed, Keeps};
ghost use Rattle.futures.specs.Poll.{OnPending};
ghost use Rattle.async_broadcast.specs.Batch.{PollsMany, Receives, ReceivesMany, PutsLast};
ghost use Rattle.async_broadcast.specs.Ports.{as_try_recv};
ghost use Rattle.async_broadcast.specs.Timed.{as_timed_try};

use crate::port::{Port, TimedPort};
use crate::receiver::Receiver;
use crate::timed::RecvTimeoutError;
use bcast_core::{RecvError, RecvResult, TryRecvError};
use futures::task::{Context, Poll};
use std::alloc::{AllocError, Allocator};
use std::time::Duration;

impl<T: Clone, P: Port<T>, A: Allocator + Copy> Receiver<T, P, A> {
    /// Receives the messages that are there, at most `limit`, puts them last into `msgs`, and
    /// returns how many they are: at least one, or 0 if `limit` is 0, on a closed channel too.
    ///
    /// It is as many `try_recv` in a row, behind one lock, so that each message takes less time.
    /// If `msgs` is read and cleared, it can be used again, and then takes no memory.
    ///
    /// # Errors
    ///
    /// With each of them no message was received, and `msgs` has the same messages as before.
    ///
    /// - `AllocError`: no memory in `msgs`, or for a clone of a message that others have still to
    ///   read. Nothing changed. If memory for the clone of a later message is refused, those before
    ///   it are received, and the next receive begins with it.
    /// - `Overflowed(n)`: the next `n` messages were dropped. The receiver continues after them.
    /// - `Empty`: every message was read, and the channel is open.
    /// - `Closed`: every message was read, and the channel is closed.
    ///
    /// ```rust
    /// let (sender, mut receiver) = broadcast(&rt, rt.alloc(), 3)?;
    /// for msg in 1..4 {
    ///     assert!(rt; sender.try_broadcast(msg).is_ok());
    /// }
    /// let mut msgs = Vec::new(rt.alloc());
    /// assert!(rt; receiver.try_recv_many(2, &mut msgs)? == Ok(2));
    /// assert!(rt; msgs.as_slice() == [1, 2].as_slice());
    /// assert!(rt; receiver.try_recv_many(2, &mut msgs)? == Ok(1));
    /// assert!(rt; receiver.try_recv_many(2, &mut msgs)? == Err(TryRecvError::Empty));
    /// assert!(rt; msgs.as_slice() == [1, 2, 3].as_slice());
    /// ```
    #[inline(always)]
    pub fn try_recv_many<B: Allocator>(
        &mut self,
        limit: usize,
        msgs: &mut Vec<T, B>,
    ) -> RecvResult<usize, TryRecvError>
        ensures received { ReceivesMany (P.gave self.old.port) (λ tried. tried)
            self.old.role.key limit msgs.old.items result msgs.new.items }
        ensures same { self.new ≡ self.old }
    {
        match receive_kept(&self.port, self.role.key, limit, msgs)? {
            Some(count) => Ok(Ok(count)),
            None => put_last(self.try_recv(), msgs),
        }
    }

    /// Receives the messages that are there, as `try_recv_many` does. If there are none, it blocks
    /// the thread until there is one, which it returns alone, or until the channel is closed.
    ///
    /// # Errors
    ///
    /// As `try_recv_many`, but for `Empty`.
    ///
    /// ```rust
    /// let (sender, mut receiver) = broadcast(&rt, rt.alloc(), 2)?;
    /// assert!(rt; sender.try_broadcast(1).is_ok());
    /// assert!(rt; sender.try_broadcast(2).is_ok());
    /// drop(sender);
    /// let mut msgs = Vec::new(rt.alloc());
    /// assert!(rt; receiver.recv_many_blocking(16, &mut msgs)? == Ok(2));
    /// assert!(rt; receiver.recv_many_blocking(16, &mut msgs)? == Err(RecvError::Closed));
    /// ```
    pub fn recv_many_blocking<B: Allocator>(
        &mut self,
        limit: usize,
        msgs: &mut Vec<T, B>,
    ) -> RecvResult<usize, RecvError>
        ensures received { ReceivesMany (P.gave self.old.port) as_try_recv
            self.old.role.key limit msgs.old.items result msgs.new.items }
        ensures same { self.new ≡ self.old }
    {
        match receive_kept(&self.port, self.role.key, limit, msgs)? {
            Some(count) => Ok(Ok(count)),
            None => put_last(self.recv_blocking(), msgs),
        }
    }

    /// Receives the messages that are there, as `try_recv_many` does. If there are none, it leaves
    /// the task waiting for one, as `poll_recv` does.
    ///
    /// `Ready(None)`: every message was read, and the channel is closed.
    ///
    /// # Errors
    ///
    /// As `try_recv_many`, but for `Empty` and `Closed`; and `AllocError` also if there is no
    /// memory for a notice.
    ///
    /// ```rust
    /// let (sender, mut receiver) = broadcast(&rt, rt.alloc(), 2)?;
    /// let task = MockTask::new(&rt)?;
    /// let mut msgs = Vec::new(rt.alloc());
    /// let polled = task.enter(|cx| receiver.poll_recv_many(cx, 16, &mut msgs));
    /// assert!(rt; matches!(polled, Ok(Poll::Pending)));
    /// assert!(rt; sender.try_broadcast(1).is_ok());
    /// assert!(rt; sender.try_broadcast(2).is_ok());
    /// assert!(rt; task.is_woken());
    /// let polled = task.enter(|cx| receiver.poll_recv_many(cx, 16, &mut msgs));
    /// assert!(rt; matches!(polled, Ok(Poll::Ready(Some(Ok(2))))));
    /// assert!(rt; msgs.as_slice() == [1, 2].as_slice());
    /// ```
    pub fn poll_recv_many<B: Allocator>(
        &mut self,
        cx: &mut Context<'_>,
        limit: usize,
        msgs: &mut Vec<T, B>,
    ) -> Result<Poll<Option<Result<usize, RecvError>>>, AllocError>
        ensures received { PollsMany (P.gave self.old.port) self.old.role.key limit
            msgs.old.items result msgs.new.items }
        ensures same { (self.new.port ≡ self.old.port) × (self.new.role.key ≡ self.old.role.key) }
        ensures registered { IfOk result (λ poll. OnPending poll (IsArmed cx.new)) }
        ensures kept { Keeps cx.old cx.new }
    {
        if let Some(count) = receive_kept(&self.port, self.role.key, limit, msgs)? {
            return Ok(Poll::Ready(Some(Ok(count))));
        }
        match self.poll_recv(cx)? {
            Poll::Ready(Some(Ok(msg))) => {
                msgs.push_reserved(msg);
                Ok(Poll::Ready(Some(Ok(1))))
            }
            Poll::Ready(Some(Err(error))) => Ok(Poll::Ready(Some(Err(error)))),
            Poll::Ready(None) => Ok(Poll::Ready(None)),
            Poll::Pending => Ok(Poll::Pending),
        }
    }
}

impl<T: Clone, P: TimedPort<T>, A: Allocator + Copy> Receiver<T, P, A> {
    /// Receives the messages that are there, as `recv_many_blocking` does, and gives up once `time`
    /// has passed and there is none, as `recv_timeout` does.
    ///
    /// # Errors
    ///
    /// As `recv_many_blocking`, and `Timeout`: the time is over, every message was read, and the
    /// channel is open.
    ///
    /// ```rust
    /// let (sender, mut receiver) = broadcast(rt, rt.alloc(), 2)?;
    /// let time = Duration::from_millis(1);
    /// let mut msgs = Vec::new(rt.alloc());
    /// let received = receiver.recv_many_timeout(16, &mut msgs, time)?;
    /// assert!(&rt; received == Err(RecvTimeoutError::Timeout));
    /// assert!(&rt; sender.try_broadcast(7).is_ok());
    /// assert!(&rt; sender.try_broadcast(8).is_ok());
    /// drop(sender);
    /// assert!(&rt; receiver.recv_many_timeout(16, &mut msgs, time)? == Ok(2));
    /// assert!(&rt; msgs.as_slice() == [7, 8].as_slice());
    /// let ended = receiver.recv_many_timeout(16, &mut msgs, time)?;
    /// assert!(&rt; ended == Err(RecvTimeoutError::Closed));
    /// ```
    pub fn recv_many_timeout<B: Allocator>(
        &mut self,
        limit: usize,
        msgs: &mut Vec<T, B>,
        time: Duration,
    ) -> RecvResult<usize, RecvTimeoutError>
        ensures received { ReceivesMany (P.gave self.old.port) as_timed_try
            self.old.role.key limit msgs.old.items result msgs.new.items }
        ensures same { self.new ≡ self.old }
    {
        match receive_kept(&self.port, self.role.key, limit, msgs)? {
            Some(count) => Ok(Ok(count)),
            None => put_last(self.recv_timeout(time), msgs),
        }
    }
}

// Receives the messages that are there, as `receive_many` of the port does. `None`: there are none,
// and `msgs` has room for one.
#[inline(always)]
fn receive_kept<T: Clone, P: Port<T>, B: Allocator>(
    port: &P,
    key: usize,
    limit: usize,
    msgs: &mut Vec<T, B>,
) -> Result<Option<usize>, AllocError>
    ensures some { IfOk result (λ kept. IfSome kept (λ count. (count ≤ limit)
        × (0 < limit → 0 < count)
        × Receives (P.gave port.now) key msgs.old.items count msgs.new.items)) }
    ensures none { IfOk result (λ kept. IfNone kept ((0 < limit)
        × (msgs.new.items ≡ msgs.old.items) × (vec_len msgs.new < vec_capacity msgs.new))) }
    ensures err { OnErr result (msgs.new.items ≡ msgs.old.items) }
{
    let count = port.receive_many(&mut (), key, limit, msgs);
    if count > 0 || limit == 0 {
        return Ok(Some(count));
    }
    msgs.reserve(1)?;
    Ok(None)
}

/// Puts a message that was received last into `msgs`, which has room for it, and returns how many
/// messages these are: 1, or what the receive returned in place of a message. It is for receivers
/// over ports, as `TrackedReceiver` of `bcast_history`.
pub fn put_last<T, E, B: Allocator>(
    received: RecvResult<T, E>,
    msgs: &mut Vec<T, B>,
) -> RecvResult<usize, E>
    requires { vec_len msgs.old < vec_capacity msgs.old }
    ensures { PutsLast received msgs.old.items result msgs.new.items }
{
    match received {
        Ok(Ok(msg)) => {
            msgs.push_reserved(msg);
            Ok(Ok(1))
        }
        Ok(Err(error)) => Ok(Err(error)),
        Err(refused) => Err(refused),
    }
}
