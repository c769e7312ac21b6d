//! Futures that are held between lines: sends, and receives.
use crate::answer::Answer;
use crate::handles::{add, drop_at};
use crate::line::Request;
use async_broadcast::{NoMemory, Receiver, Recv, Send, Sender, TimedPort};
use bcast_text::input::Fault;
use futures::task::Poll;
use futures::test::MockTask;
use std::alloc::{AllocError, Allocator, Global};

/// The handles that only make futures: sends, or one receive each.
#[derive(Drop)]
pub struct Makers<P: TimedPort<u64>, A: Allocator> {
    pub sender: Option<Sender<u64, P, A>>,
    pub receiver: Option<Receiver<u64, P, A>>,
    pub second: Option<Receiver<u64, P, A>>,
}

#[derive(Drop)]
enum HeldSend<'a, P: TimedPort<u64>, A: Allocator> {
    Plain(Send<'a, u64, P, A>),
    Boxed(Box<Send<'a, u64, P, A>, A>),
}

#[derive(Drop)]
enum HeldRecv<'a, P: TimedPort<u64>, A: Allocator> {
    Plain(Recv<'a, u64, P, A>),
    Boxed(Box<Recv<'a, u64, P, A>, A>),
}

/// The futures of one channel. Sends, and receives, are numbered in the order of making. The number
/// of a future that was dropped is not given again.
#[derive(Drop)]
pub struct Held<'a, P: TimedPort<u64>, A: Allocator> {
    sender: Option<&'a Sender<u64, P, A>>,
    // Each is borrowed by its receive, once.
    receiver: Option<&'a mut Receiver<u64, P, A>>,
    second: Option<&'a mut Receiver<u64, P, A>>,
    sends: Vec<Option<HeldSend<'a, P, A>>>,
    recvs: Vec<Option<HeldRecv<'a, P, A>>>,
}

/// What the poll of a send returned.
type SendPoll = Poll<Result<Result<Option<u64>, async_broadcast::SendError<u64>>, NoMemory<u64>>>;

/// What the poll of a receive returned.
type RecvPoll = Poll<Result<Result<u64, async_broadcast::RecvError>, AllocError>>;

/// What a poll of a send returned, as an answer.
pub fn of_send_poll(polled: SendPoll) -> Answer {
    match polled {
        Poll::Ready(Ok(answer)) => Answer::of_send(answer),
        Poll::Ready(Err(NoMemory(back))) => Answer::Unsent(back),
        Poll::Pending => Answer::Pending,
    }
}

/// What a poll of a receive returned, as an answer.
pub fn of_recv_poll(polled: RecvPoll) -> Answer {
    match polled {
        Poll::Ready(answer) => Answer::of_recv(answer),
        Poll::Pending => Answer::Pending,
    }
}

impl<'a, P: TimedPort<u64>, A: Allocator + Copy> Held<'a, P, A> {
    /// No futures yet. They are made by these handles.
    pub fn new(alloc: Global, makers: &'a mut Makers<P, A>) -> Self {
        Held {
            sender: makers.sender.as_ref(),
            receiver: makers.receiver.as_mut(),
            second: makers.second.as_mut(),
            sends: Vec::new(alloc),
            recvs: Vec::new(alloc),
        }
    }

    /// Begins, polls or drops a send or a receive.
    pub fn ask(&mut self, tasks: &[MockTask], request: Request<'_>) -> Result<Answer, Fault> {
        match (request.subject, request.method, request.argument) {
            ("send", "begin", Some(msg)) => self.begin_send(msg),
            ("send", "begin_boxed", Some(msg)) => self.begin_boxed_send(msg),
            ("send", "drop", None) => drop_at(&mut self.sends, request.index),
            ("recv", "begin", None) => self.begin_recv(),
            ("recv", "begin_boxed", None) => self.begin_boxed_recv(),
            ("recv", "drop", None) => drop_at(&mut self.recvs, request.index),
            (subject, "poll", Some(number)) => {
                let task = tasks.get(number as usize).ok_or(Fault::NotACall)?;
                self.poll(subject, request.index, task)
                    .ok_or(Fault::NotACall)
            }
            _ => Err(Fault::NotACall),
        }
    }

    fn begin_send(&mut self, msg: u64) -> Result<Answer, Fault> {
        match self.sender.ok_or(Fault::NotACall)?.broadcast_direct(msg) {
            Ok(send) => add(Ok(HeldSend::Plain(send)), &mut self.sends),
            Err(NoMemory(back)) => Ok(Answer::Unsent(back)),
        }
    }

    fn begin_boxed_send(&mut self, msg: u64) -> Result<Answer, Fault> {
        match self.sender.ok_or(Fault::NotACall)?.broadcast(msg) {
            Ok(send) => add(Ok(HeldSend::Boxed(send)), &mut self.sends),
            Err(NoMemory(back)) => Ok(Answer::Unsent(back)),
        }
    }

    /// The next receiver that has made no receive.
    fn maker(&mut self) -> Result<&'a mut Receiver<u64, P, A>, Fault> {
        let first = self.receiver.take();
        first.or_else(|| self.second.take()).ok_or(Fault::NotACall)
    }

    fn begin_recv(&mut self) -> Result<Answer, Fault> {
        let recv = self.maker()?.recv_direct();
        add(Ok(HeldRecv::Plain(recv)), &mut self.recvs)
    }

    fn begin_boxed_recv(&mut self) -> Result<Answer, Fault> {
        match self.maker()?.recv() {
            Ok(recv) => add(Ok(HeldRecv::Boxed(recv)), &mut self.recvs),
            Err(_) => Ok(Answer::NoMemory),
        }
    }

    /// Polls the send or the receive of this number.
    fn poll(&mut self, subject: &str, index: usize, task: &MockTask) -> Option<Answer> {
        if subject == "send" {
            return Some(of_send_poll(match self.sends.get_mut(index)?.as_mut()? {
                HeldSend::Plain(send) => task.poll(send),
                HeldSend::Boxed(send) => task.poll(&mut **send),
            }));
        }
        Some(of_recv_poll(match self.recvs.get_mut(index)?.as_mut()? {
            HeldRecv::Plain(recv) => task.poll(recv),
            HeldRecv::Boxed(recv) => task.poll(&mut **recv),
        }))
    }
}
