//! Sends that wait in a task.
ghost use Rattle.std.specs.Prelude.{◌≡◌, ⊤, true, false, alloc_error};
ghost use Rattle.std.specs.Prelude.{Some, None, IfSome, IsSome, Err, IfOk, IfErr};
ghost use Rattle.futures.specs.Task.{Covers, Keeps};
ghost use Rattle.futures.specs.Poll.{IfReady, OnPending};
ghost use Rattle.async_broadcast.specs.Futures.{BeganSend, GivesSent, MustWait, RefusedSend};

use crate::port::Ask;
use crate::sender::Sender;
use crate::wake::TaskWaker;
use bcast_core::{BeginSend, Call, Change, NoMemory, PollSend, Reply, SendError, SendPoll};
use futures::Future;
use futures::task::{Context, Poll};
use std::alloc::{Allocator, Global};

/// A send that waits until the channel accepts its message.
///
/// Its output is that of `broadcast_blocking`, or `NoMemory` with the message if memory for a
/// notice was refused. Polled again after its output it is pending, and makes no call. Dropped
/// before its output it sends nothing.
///
/// Source: `Send` of async-broadcast 0.7.2, which panics when polled again.
#[must_use]
pub struct Send<'a, T: Clone, P: Ask<T, ()>, A: Allocator = Global> {
    sender: &'a Sender<T, P, A>,
    // The place that the channel gave to this send, until it is answered.
    place: Option<usize>,
    // The message, until the output.
    msg: Option<T>,
    waker: TaskWaker,
}

impl<T: Clone, P: Ask<T, ()>, A: Allocator + Copy> Sender<T, P, A> {
    /// Makes a send of this message, in a box. It sends nothing before it is polled.
    ///
    /// # Errors
    ///
    /// - `NoMemory(msg)`: no memory for its place in the channel, or for the box. The message
    ///   is handed back.
    ///
    /// ```rust
    /// let (sender, mut receiver) = broadcast(&rt, rt.alloc(), 1)?;
    /// let mut send = sender.broadcast(1)?;
    /// assert!(rt; matches!(receiver.try_recv(), Ok(Err(TryRecvError::Empty))));
    /// assert!(rt; matches!(block_on(&rt, &mut *send)?, Ok(Ok(None))));
    /// assert!(rt; matches!(receiver.try_recv(), Ok(Ok(1))));
    /// ```
    ///
    /// Source: `Sender::broadcast` of async-broadcast 0.7.2, which never refuses.
    pub fn broadcast(&self, msg: T) -> Result<Box<Send<'_, T, P, A>, A>, NoMemory<T>>
        ensures port { IfOk result (λ send. send.value.sender.now.port ≡ self.now.port) }
        ensures made { IfOk result (λ send. (send.value.msg ≡ Some msg)
            × BeganSend P.gave self.now.port send.value.place) }
        ensures back { IfErr result (λ error. error.0 ≡ msg) }
        ensures refused { IfErr result (λ _. RefusedSend P.gave self.now.port) }
    {
        match self.broadcast_direct(msg) {
            Ok(send) => match Box::new(self.alloc, send) {
                Ok(boxed) => Ok(boxed),
                Err(refused) => {
                    let mut given_up = refused.value;
                    let Some(msg) = given_up.msg.take() else {
                        unreachable!()
                    };
                    Err(NoMemory(msg))
                }
            },
            Err(error) => Err(error),
        }
    }

    /// Makes a send of this message. It sends nothing before it is polled.
    ///
    /// # Errors
    ///
    /// - `NoMemory(msg)`: no memory for its place in the channel. The message is handed back.
    ///
    /// ```rust
    /// let (sender, receiver) = broadcast(&rt, rt.alloc(), 1)?;
    /// assert!(rt; matches!(block_on(&rt, sender.broadcast_direct(1)?)?, Ok(Ok(None))));
    /// drop(receiver);
    /// let refused = block_on(&rt, sender.broadcast_direct(2)?)?;
    /// assert!(rt; matches!(refused, Ok(Err(SendError(2)))));
    /// ```
    ///
    /// Source: `Sender::broadcast_direct` of async-broadcast 0.7.2, which never refuses.
    #[inline(always)]
    pub fn broadcast_direct(&self, msg: T) -> Result<Send<'_, T, P, A>, NoMemory<T>>
        ensures port { IfOk result (λ send. send.sender.now.port ≡ self.now.port) }
        ensures made { IfOk result (λ send. (send.msg ≡ Some msg)
            × BeganSend P.gave self.now.port send.place) }
        ensures refused { IfErr result (λ error. (error.0 ≡ msg)
            × P.gave self.now.port Call.BeginSend (Reply.BeginSend (Err alloc_error))) }
    {
        match self.port.ask(&mut (), BeginSend) {
            Ok(place) => Ok(Send {
                sender: self,
                place: Some(place),
                msg: Some(msg),
                waker: TaskWaker::new(),
            }),
            Err(_) => Err(NoMemory(msg)),
        }
    }
}

impl<T: Clone, P: Ask<T, ()>, A: Allocator> Drop for Send<'_, T, P, A> {
    fn drop(self)
        ensures { IfSome self.entry.place (λ place.
            P.gave self.entry.sender.now.port (Call.EndSend place) Reply.EndSend) }
    {
        if let Some(place) = self.place {
            self.sender.port.ask(&mut (), Change::EndSend(place));
        }
        let Send {
            sender: _,
            place: _,
            msg: _,
            waker: _,
        } = self;
    }
}

impl<T: Clone, P: Ask<T, ()>, A: Allocator + Copy> Future for Send<'_, T, P, A> {
    type Output = Result<Result<Option<T>, SendError<T>>, NoMemory<T>>;

    ghost gives = { λ s out. GivesSent P.gave s.sender.now.port s.place s.msg out };

    fn poll(&mut self, cx: &mut Context<'_>) -> Poll<Self::Output>
        ensures value { IfReady result
            (GivesSent P.gave self.old.sender.now.port self.old.place self.old.msg) }
        ensures again { OnPending result ⊤ }
        ensures same { OnPending result ((out : _)
            → GivesSent P.gave self.new.sender.now.port self.new.place self.new.msg out
            → GivesSent P.gave self.old.sender.now.port self.old.place self.old.msg out) }
        ensures registered { OnPending result (Covers cx.new (λ _. ⊥)) }
        ensures kept { Keeps cx.old cx.new }

        ensures answered { IfReady result (λ out. IfOk out
            (λ _. (self.new.place ≡ None) × (self.new.msg ≡ None))) }
        ensures refused { IfReady result (λ out. IfErr out
            (λ _. (self.new.place ≡ self.old.place) × (self.new.msg ≡ None))) }
        ensures memory { IfReady result (λ out. IfErr out (λ _. self.new.waker.is_refused ≡ true)) }
        ensures waits { OnPending result
            (MustWait P.gave self.old.sender.now.port self.old.place self.old.msg) }
        ensures notice { OnPending result (IsSome self.new.place → IsSome self.new.msg
            → self.new.waker.is_refused ≡ false) }
        ensures unchanged { OnPending result
            ((self.new.place ≡ self.old.place) × (self.new.msg ≡ self.old.msg)) }
        ensures port { self.new.sender.now.port ≡ self.old.sender.now.port }
    {
        let Some(place) = self.place else {
            self.waker.register_idle(cx);
            return Poll::Pending;
        };
        let Some(msg) = self.msg.take() else {
            self.waker.register_idle(cx);
            return Poll::Pending;
        };
        let port = &self.sender.port;
        let poll = PollSend(place, msg);
        match port.poll(&mut (), poll, &mut self.waker, cx) {
            Ok(SendPoll::Ready(answer)) => {
                self.place = None;
                Poll::Ready(Ok(answer))
            }
            Ok(SendPoll::Wait(msg)) => {
                self.msg = Some(msg);
                Poll::Pending
            }
            Err(back) => Poll::Ready(Err(NoMemory(back.1))),
        }
    }
}
