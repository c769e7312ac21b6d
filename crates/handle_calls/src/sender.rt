//! Calls on senders.
use crate::answer::Answer;
use crate::handles::{Handles, add, drop_at};
use crate::held::of_send_poll;
use crate::line::Request;
use crate::settings::by_handle;
use async_broadcast::{NoMemory, Sender, TimedPort};
use bcast_text::input::Fault;
use bcast_text::number::numbers;
use futures::test::MockTask;
use std::alloc::Allocator;
use std::time::Duration;

impl<P: TimedPort<u64>, A: Allocator + Copy> Handles<P, A> {
    /// Makes a call on a sender: one of its own, or one that every handle has.
    pub fn by_sender(&mut self, request: Request<'_>) -> Result<Answer, Fault> {
        let alloc = *self.senders.allocator();
        let Some(Some(sender)) = self.senders.get_mut(request.index) else {
            return Err(Fault::NotACall);
        };
        match (request.method, request.argument) {
            ("clone", _) => add(sender.clone(), &mut self.senders),
            ("new_receiver", _) => add(sender.new_receiver(), &mut self.receivers),
            ("drop", _) => drop_at(&mut self.senders, request.index),
            ("try_broadcast", Some(msg)) => Ok(Answer::of_try_send(sender.try_broadcast(msg))),
            ("try_broadcast_all", _) => {
                let msgs = match request.list {
                    "" => Vec::new(alloc),
                    list => numbers(alloc, list)?.ok_or(Fault::NotACall)?.into_vec(),
                };
                Ok(Answer::of_send_all(sender.try_broadcast_all(msgs)))
            }
            ("broadcast_blocking", Some(msg)) => {
                Ok(Answer::of_send(sender.broadcast_blocking(msg)))
            }
            ("broadcast_timeout", Some(msg)) => {
                let sent = sender.broadcast_timeout(msg, Duration::ZERO);
                Ok(Answer::of_timed_send(sent))
            }
            ("poll_broadcast", Some(msg)) => {
                let task = self.tasks.first().ok_or(Fault::NotACall)?;
                Ok(poll_broadcast(sender, msg, task))
            }
            _ => by_handle(sender, request).ok_or(Fault::NotACall),
        }
    }
}

/// Makes a send in a box, polls it once and drops it.
fn poll_broadcast<P: TimedPort<u64>, A: Allocator + Copy>(
    sender: &Sender<u64, P, A>,
    msg: u64,
    task: &MockTask,
) -> Answer {
    match sender.broadcast(msg) {
        Ok(mut send) => of_send_poll(task.poll(&mut *send)),
        Err(NoMemory(back)) => Answer::Unsent(back),
    }
}
