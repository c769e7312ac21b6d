//! Calls on receivers.
use crate::answer::Answer;
use crate::handles::{Handles, add, drop_at};
use crate::held::of_recv_poll;
use crate::line::Request;
use crate::seen::Shows;
use crate::settings::by_handle;
use bcast_text::input::Fault;
use futures::StreamExt;
use futures::task::Poll;
use std::alloc::Allocator;
use std::time::Duration;

impl<P: Shows<A>, A: Allocator + Copy> Handles<P, A> {
    /// Makes a call on a receiver: one of its own, or one that every handle has.
    pub fn by_receiver(&mut self, request: Request<'_>) -> Result<Answer, Fault> {
        let Some(Some(receiver)) = self.receivers.get_mut(request.index) else {
            return Err(Fault::NotACall);
        };
        match (request.method, request.argument) {
            ("clone", _) => add(receiver.clone(), &mut self.receivers),
            ("new_receiver", _) => add(receiver.new_receiver(), &mut self.receivers),
            ("new_sender", _) => add(receiver.new_sender(), &mut self.senders),
            ("deactivate", _) => self.deactivate(request.index),
            ("drop", _) => drop_at(&mut self.receivers, request.index),
            ("try_recv", None) => Ok(Answer::of_recv(receiver.try_recv())),
            ("recv_blocking", None) => Ok(Answer::of_recv(receiver.recv_blocking())),
            ("recv_timeout", Some(nanoseconds)) => {
                let received = receiver.recv_timeout(Duration::from_nanos(nanoseconds));
                Ok(Answer::of_recv(received))
            }
            ("unread", None) => P::unread(receiver)
                .map(Answer::Count)
                .ok_or(Fault::NotACall),
            ("is_terminated", None) => Ok(Answer::Is(receiver.is_terminated())),
            _ => by_handle(receiver, request).ok_or(Fault::NotACall),
        }
    }

    /// Polls a receiver in a task.
    pub fn poll_receiver(&mut self, request: Request<'_>) -> Option<Answer> {
        let task = self.tasks.get(request.argument? as usize)?;
        let receiver = self.receivers.get_mut(request.index)?.as_mut()?;
        match request.method {
            "poll_recv" => match task.enter(|cx| receiver.poll_recv(cx)) {
                Ok(Poll::Ready(Some(answer))) => Some(Answer::of_recv(Ok(answer))),
                Ok(Poll::Ready(None)) => Some(Answer::Ended),
                Ok(Poll::Pending) => Some(Answer::Pending),
                Err(_) => Some(Answer::NoMemory),
            },
            "poll_next" => match task.poll(&mut receiver.next()) {
                Poll::Ready(Some(Ok(msg))) => Some(Answer::Message(msg)),
                Poll::Ready(Some(Err(_))) => Some(Answer::NoMemory),
                Poll::Ready(None) => Some(Answer::Ended),
                Poll::Pending => Some(Answer::Pending),
            },
            // Makes a future, polls it once and drops it.
            "poll_future" => Some(of_recv_poll(task.poll(&mut receiver.recv_direct()))),
            _ => None,
        }
    }

    fn deactivate(&mut self, index: usize) -> Result<Answer, Fault> {
        let slot = self.receivers.get_mut(index).ok_or(Fault::NotACall)?;
        let receiver = slot.take().ok_or(Fault::NotACall)?;
        match receiver.deactivate() {
            Ok(made) => add(Ok(made), &mut self.inactive),
            Err((back, error)) => {
                *slot = Some(back);
                Ok(Answer::of_error(error))
            }
        }
    }
}
