//! Batches that receivers take.
use crate::answer::Answer;
use crate::handles::Handles;
use crate::line::Request;
use async_broadcast::{Receiver, TimedPort};
use futures::task::Poll;
use futures::test::MockTask;
use std::alloc::{AllocError, Allocator};
use std::time::Duration;

/// The message that a list has before a batch is put into it.
const BEFORE: u64 = 99;

impl<P: TimedPort<u64>, A: Allocator + Copy> Handles<P, A> {
    /// Takes a batch, whose limit is the argument.
    pub fn by_batch(&mut self, request: Request<'_>) -> Option<Answer> {
        let limit = request.argument? as usize;
        let mut list = Vec::new(*self.receivers.allocator());
        list.push(BEFORE).ok()?;
        let task = self.tasks.first()?;
        let receiver = self.receivers.get_mut(request.index)?.as_mut()?;
        batch_of(receiver, task, request.method, limit, &mut list)
    }
}

/// Takes a batch by this method, and puts it last into the list.
fn batch_of<P: TimedPort<u64>, A: Allocator + Copy>(
    receiver: &mut Receiver<u64, P, A>,
    task: &MockTask,
    method: &str,
    limit: usize,
    list: &mut Vec<u64>,
) -> Option<Answer> {
    Some(match method {
        "try_recv_many" => answer_of(receiver.try_recv_many(limit, list), list),
        "recv_many_blocking" => answer_of(receiver.recv_many_blocking(limit, list), list),
        "recv_many_timeout" => {
            answer_of(
                receiver.recv_many_timeout(limit, list, Duration::ZERO),
                list,
            )
        }
        "poll_recv_many" => match task.enter(|cx| receiver.poll_recv_many(cx, limit, list)) {
            Ok(Poll::Ready(Some(given))) => answer_of(Ok(given), list),
            Ok(Poll::Ready(None)) => Answer::Ended,
            Ok(Poll::Pending) => Answer::Pending,
            Err(_) => Answer::NoMemory,
        },
        _ => return None,
    })
}

/// What the receive of a batch returned, with what it put behind `BEFORE` into the list.
fn answer_of<E: Into<Answer>>(given: Result<Result<usize, E>, AllocError>, list: &[u64]) -> Answer {
    let mut msgs = [0; 4];
    for (slot, msg) in msgs.iter_mut().zip(list.iter().skip(1)) {
        *slot = *msg;
    }
    let (count, answer) = match given {
        Ok(Ok(count)) => (count, Answer::Messages(count, msgs)),
        Ok(Err(error)) => (0, error.into()),
        Err(_) => (0, Answer::NoMemory),
    };
    match list.split_first() {
        Some((&BEFORE, rest)) if rest.len() == count => answer,
        _ => Answer::Differs,
    }
}
