//! Receiving in a task, one message at a time: by a future, by polls, or as a stream.
ghost use Rattle.std.specs.Prelude.{◌≡◌, ◌⊎◌, ⊤, true, false, [], Ok, Err, IfOk, IfErr, OnOk};
ghost use Rattle.std.specs.Prelude.{OnErr, IfSome, OnSome};
ghost use Rattle.futures.specs.Task.{Covers, IsArmed, Keeps};
ghost use Rattle.futures.specs.Poll.{IfReady, OnPending};
ghost use Rattle.futures.specs.Runs.{After, Within};
ghost use Rattle.async_broadcast.specs.Futures.{GivesReceived, YieldsItems};

use crate::handle::Handle;
use crate::port::Ask;
use crate::receiver::{Receiver, Receiving};
use bcast_core::{Call, PollFuture, PollNext, PollRecv, RecvError, RecvResult, Reply};
use futures::task::{Context, Poll};
use futures::{Future, Stream};
use std::alloc::{AllocError, Allocator, Global};

/// Receives the next message of its receiver.
///
/// Its output is that of `recv_blocking`. It is an `AllocError` also if memory for a notice was
/// refused, and then nothing changed. Polled again after its output it receives the next message.
///
/// Source: `Recv` of async-broadcast 0.7.2.
#[must_use]
pub struct Recv<'a, T: Clone, P: Ask<T, ()>, A: Allocator = Global> {
    receiver: &'a mut Receiver<T, P, A>,
    // Whether the last poll was answered, and not because it was out of memory.
    is_answered: bool,
}

impl<T: Clone, P: Ask<T, ()>, A: Allocator + Copy> Receiver<T, P, A> {
    /// Receives the next message in a task, by a future in a box.
    ///
    /// # Errors
    ///
    /// - `AllocError`: no memory for the box. Nothing changed.
    ///
    /// ```rust
    /// let (sender, mut receiver) = broadcast(&rt, rt.alloc(), 1)?;
    /// assert!(rt; sender.try_broadcast(1).is_ok());
    /// assert!(rt; matches!(block_on(&rt, &mut *receiver.recv()?)?, Ok(Ok(1))));
    /// ```
    ///
    /// Source: `Receiver::recv` of async-broadcast 0.7.2, which never refuses.
    pub fn recv(&mut self) -> Result<Box<Recv<'_, T, P, A>, A>, AllocError>
        ensures lent { IfOk result (λ recv. recv.value.receiver.now ≡ self.old) }
        ensures same { IfOk result
            (λ recv. recv.value.receiver.ghost_name ≡ self.entry.ghost_name) }
        ensures fresh { IfOk result (λ recv. recv.value.is_answered ≡ false) }
        // The future that had no box was given up.
        ensures refused { OnErr result
            (P.gave self.old.port (Call.EndFuture self.old.role.key) Reply.EndFuture) }
    {
        let alloc = self.alloc;
        match Box::new(alloc, self.recv_direct()) {
            Ok(recv) => Ok(recv),
            Err(refused) => {
                let _given_up = refused.value;
                Err(AllocError)
            }
        }
    }

    /// Receives the next message in a task, by a future.
    ///
    /// ```rust
    /// let (sender, mut receiver) = broadcast(&rt, rt.alloc(), 1)?;
    /// assert!(rt; sender.try_broadcast(1).is_ok());
    /// drop(sender);
    /// assert!(rt; matches!(block_on(&rt, receiver.recv_direct())?, Ok(Ok(1))));
    /// let ended = block_on(&rt, receiver.recv_direct())?;
    /// assert!(rt; matches!(ended, Ok(Err(RecvError::Closed))));
    /// ```
    ///
    /// Source: `Receiver::recv_direct` of async-broadcast 0.7.2.
    #[inline(always)]
    pub fn recv_direct(&mut self) -> Recv<'_, T, P, A>
        ensures lent { result.receiver.now ≡ self.old }
        ensures same { result.receiver.ghost_name ≡ self.entry.ghost_name }
        ensures fresh { result.is_answered ≡ false }
    {
        Recv {
            receiver: self,
            is_answered: false,
        }
    }

    /// Receives the next message, or leaves the task waiting for it. Meant for streams over a
    /// receiver that report missed messages to their callers.
    ///
    /// `Ready(None)`: every message was read, and the channel is closed.
    ///
    /// # Errors
    ///
    /// As `try_recv`, but for `Empty` and `Closed`; and `AllocError` also if there is no memory for
    /// a notice.
    ///
    /// ```rust
    /// let (sender, mut receiver) = broadcast(&rt, rt.alloc(), 1)?;
    /// let task = MockTask::new(&rt)?;
    /// assert!(rt; matches!(task.enter(|cx| receiver.poll_recv(cx)), Ok(Poll::Pending)));
    /// assert!(rt; sender.try_broadcast(1).is_ok());
    /// assert!(rt; task.is_woken());
    /// let polled = task.enter(|cx| receiver.poll_recv(cx));
    /// assert!(rt; matches!(polled, Ok(Poll::Ready(Some(Ok(1))))));
    /// ```
    ///
    /// Source: `Receiver::poll_recv` of async-broadcast 0.7.2, which never refuses for memory.
    pub fn poll_recv(
        &mut self,
        cx: &mut Context<'_>,
    ) -> Result<Poll<Option<Result<T, RecvError>>>, AllocError>
        ensures asked { IfOk result (λ poll. P.gave self.old.port
            (Call.PollRecv self.old.role.key) (Reply.PollRecv (Ok poll))) }
        ensures same { (self.new.port ≡ self.old.port) × (self.new.role.key ≡ self.old.role.key) }
        ensures notice { IfOk result (λ poll. OnPending poll
            (self.new.role.waker.is_refused ≡ false)) }
        ensures refused { IfErr result (λ error. (self.new.role.waker.is_refused ≡ true)
            ⊎ P.gave self.old.port (Call.PollRecv self.old.role.key) (Reply.PollRecv (Err error))) }
        ensures registered { IfOk result (λ poll. OnPending poll (IsArmed cx.new)) }
        ensures kept { Keeps cx.old cx.new }
    {
        let Receiving { key, waker } = &mut self.role;
        self.port
            .poll(&mut (), PollRecv(*key), waker, cx)
            .unwrap_or(Err(AllocError))
    }
}

impl<T: Clone, P: Ask<T, ()>, A: Allocator> Drop for Recv<'_, T, P, A> {
    fn drop(self)
        ensures asked { P.gave self.entry.receiver.now.port
            (Call.EndFuture self.entry.receiver.now.role.key) Reply.EndFuture }
        ensures back { self.exit.0.now ≡ self.entry.receiver.now }
    {
        let Recv {
            receiver,
            is_answered,
        } = self;
        let wake = receiver
            .port
            .end_future(&mut (), receiver.role.key, is_answered);
        receiver.role.waker.put_back(wake);
    }
}

impl<T: Clone, P: Ask<T, ()>, A: Allocator + Copy> Future for Recv<'_, T, P, A> {
    type Output = RecvResult<T, RecvError>;

    ghost gives = { λ r. GivesReceived P.gave r.receiver.now.port r.receiver.now.role.key };

    fn poll(&mut self, cx: &mut Context<'_>) -> Poll<RecvResult<T, RecvError>>
        ensures value { IfReady result
            (GivesReceived P.gave self.old.receiver.now.port self.old.receiver.now.role.key) }
        ensures again { OnPending result ⊤ }
        ensures same { OnPending result ((out : _)
            → GivesReceived P.gave self.new.receiver.now.port self.new.receiver.now.role.key out
            → GivesReceived P.gave self.old.receiver.now.port self.old.receiver.now.role.key out) }
        ensures registered { OnPending result (Covers cx.new (λ _. ⊥)) }
        ensures kept { Keeps cx.old cx.new }

        ensures waits { OnPending result (P.gave self.old.receiver.now.port
            (Call.PollFuture self.old.receiver.now.role.key) (Reply.PollFuture (Ok Poll.Pending))) }
        ensures notice { OnPending result (self.new.receiver.now.role.waker.is_refused ≡ false) }
        ensures refused { IfReady result (λ out. IfErr out (λ error.
            (self.new.receiver.now.role.waker.is_refused ≡ true)
            ⊎ P.gave self.old.receiver.now.port (Call.PollFuture self.old.receiver.now.role.key)
            (Reply.PollFuture (Err error)))) }
        ensures port { self.new.receiver.now.port ≡ self.old.receiver.now.port }
        ensures key { self.new.receiver.now.role.key ≡ self.old.receiver.now.role.key }
        ensures receiver { self.new.receiver.ghost_name ≡ self.old.receiver.ghost_name }
        ensures answered { IfReady result (λ out. OnOk out (self.new.is_answered ≡ true)) }
        ensures unanswered { OnPending result (self.new.is_answered ≡ false) }
        ensures out_of_memory { IfReady result (λ out. OnErr out (self.new.is_answered ≡ false)) }
    {
        self.is_answered = false;
        let receiver = &mut *self.receiver;
        let Handle { port, role, .. } = receiver;
        let Receiving { key, waker } = role;
        let polled = port.poll(&mut (), PollFuture(*key), waker, cx);
        match polled.unwrap_or(Err(AllocError)) {
            Ok(Poll::Ready(answer)) => {
                self.is_answered = true;
                Poll::Ready(Ok(answer))
            }
            Ok(Poll::Pending) => Poll::Pending,
            Err(error) => Poll::Ready(Err(error)),
        }
    }
}

impl<T: Clone, P: Ask<T, ()>, A: Allocator + Copy> Stream for Receiver<T, P, A> {
    type Item = Result<T, AllocError>;

    ghost yields = { λ r items last. YieldsItems P.gave r.port r.role.key items last };

    fn poll_next(&mut self, cx: &mut Context<'_>) -> Poll<Option<Result<T, AllocError>>>
        ensures value { IfReady result (YieldsItems P.gave self.old.port self.old.role.key []) }
        ensures rest { IfReady result (λ next. IfSome next (λ item.
            After (YieldsItems P.gave self.old.port self.old.role.key) item
            (YieldsItems P.gave self.new.port self.new.role.key))) }
        ensures goes { IfReady result (λ next. OnSome next ⊤) }
        ensures again { OnPending result ⊤ }
        ensures same { OnPending result (Within (YieldsItems P.gave self.old.port self.old.role.key)
            (YieldsItems P.gave self.new.port self.new.role.key)) }
        ensures registered { OnPending result (Covers cx.new (λ _. ⊥)) }
        ensures kept { Keeps cx.old cx.new }

        ensures waits { OnPending result (P.gave self.old.port (Call.PollNext self.old.role.key)
            (Reply.PollNext (Ok Poll.Pending))) }
        ensures notice { OnPending result (self.new.role.waker.is_refused ≡ false) }
        ensures refused { IfReady result (λ next. IfSome next (λ item. IfErr item (λ error.
            (self.new.role.waker.is_refused ≡ true)
            ⊎ P.gave self.old.port (Call.PollNext self.old.role.key)
            (Reply.PollNext (Err error))))) }
        ensures port { self.new.port ≡ self.old.port }
        ensures key { self.new.role.key ≡ self.old.role.key }
    {
        let Receiving { key, waker } = &mut self.role;
        let polled = self.port.poll(&mut (), PollNext(*key), waker, cx);
        match polled.unwrap_or(Err(AllocError)) {
            Ok(Poll::Ready(Some(next))) => Poll::Ready(Some(Ok(next.0))),
            Ok(Poll::Ready(None)) => Poll::Ready(None),
            Ok(Poll::Pending) => Poll::Pending,
            Err(error) => Poll::Ready(Some(Err(error))),
        }
    }
}
