//! The handles of a thread, which play scripts.
use crate::scripts::{Change, Polled, Script, Step};
use crate::steps::{Ends, Host, Receiving, Sending};
use async_broadcast::{InactiveReceiver, TimedPort};
use futures::StreamExt;
use futures::executor::block_on;
use futures::task::Poll;
use futures::test::MockTask;
use std::alloc::{AllocError, Global};
use std::sync::{Arc, Barrier};
use std::time::Duration;

/// The handles of a thread.
#[derive(Drop)]
pub struct Hands<P: TimedPort<u64>> {
    senders: Vec<Sending<P>>,
    receivers: Vec<Receiving<P>>,
    inactive: Option<InactiveReceiver<u64, P>>,
    /// The task that polls.
    pub task: Option<MockTask>,
    /// The limit of calls that have one.
    pub limit: Duration,
    /// Where it meets other threads.
    pub barriers: Option<Arc<Vec<Barrier>>>,
    alloc: Global,
}

impl<P: TimedPort<u64>> Hands<P> {
    // No handles yet, no task, and a limit that is over at once.
    fn new(alloc: Global) -> Self {
        Hands {
            senders: Vec::new(alloc),
            receivers: Vec::new(alloc),
            inactive: None,
            task: None,
            limit: Duration::ZERO,
            barriers: None,
            alloc,
        }
    }

    /// The handles of a new channel.
    pub fn both(alloc: Global, (sender, receiver): Ends<P>) -> Result<Self, AllocError> {
        let mut hands = Hands::new(alloc);
        hands.senders.push(sender)?;
        hands.receivers.push(receiver)?;
        Ok(hands)
    }

    /// The handles for a script: a clone of the first sender if it begins with a send or a clone of
    /// it, or else of the first receiver.
    pub fn cloned_for(&self, script: Script) -> Option<Self> {
        let mut made = Hands::new(self.alloc);
        made.limit = self.limit;
        if let Some(barriers) = &self.barriers {
            made.barriers = Some(Arc::try_clone(barriers).ok()?);
        }
        match script.first()? {
            Step::Send(..) | Step::SendInTime(..) | Step::Change(Change::CloneSender) => {
                made.senders.push(self.senders.first()?.clone().ok()?).ok()?;
            }
            _ => made
                .receivers
                .push(self.receivers.first()?.clone().ok()?)
                .ok()?,
        }
        Some(made)
    }

    /// Makes all calls, each of which must return its answer.
    pub fn play<R: Host>(&mut self, rt: &R, name: &str, script: Script) {
        for (index, step) in script.iter().enumerate() {
            assert!(rt; self.make(rt, *step) == Some(true), "{name}: step {index}");
        }
    }

    /// Makes a call, and says whether it returned its answer. None: there is no such handle or
    /// barrier, or no memory for one.
    pub fn make<R: Host>(&mut self, rt: &R, step: Step) -> Option<bool> {
        Some(match step {
            Step::TrySend(number, msg, answer) => {
                self.senders.get(number)?.try_broadcast(msg) == answer
            }
            Step::TrySendBoth(one, other) => {
                let both = vec![in self.alloc; one, other].ok()?;
                self.senders.first()?.try_broadcast_all(both).is_ok()
            }
            Step::Send(number, msg, answer) => {
                self.senders.get(number)?.broadcast_blocking(msg) == answer
            }
            Step::SendInTime(msg, answer) => {
                self.senders.first()?.broadcast_timeout(msg, self.limit) == answer
            }
            Step::TryRecv(number, answer) => {
                self.receivers.get_mut(number)?.try_recv() == Ok(answer)
            }
            Step::Receive(number, answer) => {
                self.receivers.get_mut(number)?.recv_blocking() == Ok(answer)
            }
            Step::ReceiveInTime(answer) => {
                self.receivers.first_mut()?.recv_timeout(self.limit) == Ok(answer)
            }
            Step::Keeps(count) => self.senders.first()?.len() == count,
            Step::Close => self.senders.first()?.close(),
            Step::Poll(polled) => return self.poll(polled),
            Step::Change(change) => return self.change(change),
            Step::DropAll => {
                self.senders.clear();
                self.receivers.clear();
                true
            }
            _ => return self.wait(rt, step),
        })
    }

    /// Meets other threads, or awaits a send, a receive or an item.
    fn wait<R: Host>(&mut self, rt: &R, step: Step) -> Option<bool> {
        Some(match step {
            Step::Meet(number) => {
                self.barriers.as_ref()?.get(number)?.wait(rt);
                true
            }
            Step::AwaitSend(number, msg) => {
                let mut send = self.senders.get(number)?.broadcast(msg).ok()?;
                matches!(block_on(rt, &mut *send), Ok(Ok(Ok(None))))
            }
            Step::AwaitRecv(number, msg) => {
                let mut receive = self.receivers.get_mut(number)?.recv().ok()?;
                matches!(block_on(rt, &mut *receive), Ok(Ok(Ok(given))) if given == msg)
            }
            Step::AwaitNext(number, msg) => {
                let receiver = self.receivers.get_mut(number)?;
                matches!(block_on(rt, receiver.next()), Ok(Some(Ok(given))) if given == msg)
            }
            _ => return None,
        })
    }

    fn poll(&mut self, polled: Polled) -> Option<bool> {
        let (sender, receiver) = (self.senders.first()?, self.receivers.first_mut()?);
        Some(polls(self.task.as_ref()?, sender, receiver, polled))
    }

    fn change(&mut self, change: Change) -> Option<bool> {
        match change {
            Change::Capacity(cap) => self.senders.first_mut()?.set_capacity(cap.max(1)).ok()?,
            Change::ReceiverCapacity(cap) => {
                self.receivers.first_mut()?.set_capacity(cap.max(1)).ok()?
            }
            Change::Overflow => self.senders.first_mut()?.set_overflow(true),
            Change::ReceiverOverflow => self.receivers.first_mut()?.set_overflow(true),
            Change::NoAwaiting => self.senders.first_mut()?.set_await_active(false),
            Change::CloneSender => {
                let made = self.senders.first()?.clone().ok()?;
                self.senders.push(made).ok()?;
            }
            Change::Deactivate => self.inactive = Some(self.receivers.pop()?.deactivate().ok()?),
            Change::DropReceiver => drop(self.receivers.pop()?),
            Change::DropInactive => self.inactive = None,
            Change::DropSenders => self.senders.clear(),
            _ => {
                let made = self.receiver(change)?;
                self.receivers.push(made).ok()?;
            }
        }
        Some(true)
    }

    // Another receiver, which is made in this way.
    fn receiver(&mut self, change: Change) -> Option<Receiving<P>> {
        match change {
            Change::CloneReceiver => self.receivers.first()?.clone().ok(),
            Change::NewReceiver => self.senders.first()?.new_receiver().ok(),
            Change::ActivateCloned => self.inactive.as_ref()?.activate_cloned().ok(),
            Change::Activate => self.inactive.take()?.activate().ok(),
            _ => None,
        }
    }
}

/// Whether a poll gives what it must.
fn polls<P: TimedPort<u64>>(
    task: &MockTask,
    sender: &Sending<P>,
    receiver: &mut Receiving<P>,
    polled: Polled,
) -> bool {
    match polled {
        Polled::Woken(expected) => task.is_woken() == expected,
        Polled::Send(msg) => sends(task, sender, msg),
        Polled::HeldSend(msg) => wakes_a_send(task, sender, receiver, msg),
        Polled::HeldFuture(msg) => wakes_a_receive(task, sender, receiver, msg),
        Polled::Future(msg) => task.poll(&mut receiver.recv_direct()) == Poll::Ready(Ok(Ok(msg))),
        Polled::Recv(None) => task.enter(|cx| receiver.poll_recv(cx)) == Ok(Poll::Pending),
        Polled::Recv(Some(msg)) => {
            task.enter(|cx| receiver.poll_recv(cx)) == Ok(Poll::Ready(Some(Ok(msg))))
        }
        Polled::Next(None) => task.poll(&mut receiver.next()) == Poll::Pending,
        Polled::Next(Some(msg)) => task.poll(&mut receiver.next()) == Poll::Ready(Some(Ok(msg))),
    }
}

/// Whether a send of the task is accepted at once.
fn sends<P: TimedPort<u64>>(task: &MockTask, sender: &Sending<P>, msg: u64) -> bool {
    let Ok(mut send) = sender.broadcast_direct(msg) else {
        return false;
    };
    task.poll(&mut send) == Poll::Ready(Ok(Ok(None)))
}

/// Whether a send of the task waits, and a receive wakes it.
fn wakes_a_send<P: TimedPort<u64>>(
    task: &MockTask,
    sender: &Sending<P>,
    receiver: &mut Receiving<P>,
    msg: u64,
) -> bool {
    let Ok(mut send) = sender.broadcast_direct(msg) else {
        return false;
    };
    let waits = matches!(task.poll(&mut send), Poll::Pending) && !task.is_woken();
    waits && matches!(receiver.try_recv(), Ok(Ok(_))) && task.is_woken()
}

/// Whether a receive of the task waits, and a send wakes it.
fn wakes_a_receive<P: TimedPort<u64>>(
    task: &MockTask,
    sender: &Sending<P>,
    receiver: &mut Receiving<P>,
    msg: u64,
) -> bool {
    let mut receive = receiver.recv_direct();
    let waits = matches!(task.poll(&mut receive), Poll::Pending) && !task.is_woken();
    waits && sender.try_broadcast(msg).is_ok() && task.is_woken()
}
