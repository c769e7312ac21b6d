//! The tasks, whose polls are counted.
use async_broadcast::{Port, Receiver, Send, Sender};
use futures::stream::{Count, TryCollect};
use futures::task::{Context, Poll};
use futures::{Future, Stream, StreamExt, TryStreamExt};
use std::alloc::{AllocError, Global};
use std::sync::atomic::{AtomicU64, Ordering};
use std::sync::{Mutex, Wait};

/// The counts of all tasks.
#[derive(Drop)]
pub struct Counts {
    receive_polls: AtomicU64,
    send_polls: AtomicU64,
    // How many senders have still to send.
    senders: AtomicU64,
}

impl Counts {
    pub fn new(senders: u64) -> Self {
        Counts {
            receive_polls: AtomicU64::new(0),
            send_polls: AtomicU64::new(0),
            senders: AtomicU64::new(senders),
        }
    }

    pub fn receive_polls(&self) -> u64 {
        self.receive_polls.load(Ordering::SeqCst)
    }

    pub fn send_polls(&self) -> u64 {
        self.send_polls.load(Ordering::SeqCst)
    }
}

/// A receiver as a stream.
#[derive(Drop)]
struct Received<'a, P: Port<u64>> {
    receiver: Receiver<u64, P>,
    counts: &'a Counts,
}

impl<P: Port<u64>> Stream for Received<'_, P> {
    type Item = Result<u64, AllocError>;

    fn poll_next(&mut self, cx: &mut Context<'_>) -> Poll<Option<Result<u64, AllocError>>> {
        self.counts.receive_polls.fetch_add(1, Ordering::SeqCst);
        self.receiver.poll_next(cx)
    }
}

/// The sends of a sender, one after another. An item says that a number was accepted, and the
/// stream ends after the last number, or if one is refused.
#[derive(Drop)]
struct Sends<'a, P: Port<u64>> {
    sender: &'a Sender<u64, P>,
    next: u64,
    end: u64,
    // The send of the number before `next`, until it is accepted.
    send: Option<Send<'a, u64, P>>,
    counts: &'a Counts,
}

impl<P: Port<u64>> Stream for Sends<'_, P> {
    type Item = ();

    fn poll_next(&mut self, cx: &mut Context<'_>) -> Poll<Option<()>> {
        if self.send.is_none() && self.next < self.end {
            self.send = self.sender.broadcast_direct(self.next).ok();
            self.next += 1;
        }
        let Some(send) = &mut self.send else {
            return Poll::Ready(None);
        };
        self.counts.send_polls.fetch_add(1, Ordering::SeqCst);
        let Poll::Ready(answer) = send.poll(cx) else {
            return Poll::Pending;
        };
        self.send = None;
        match answer {
            Ok(Ok(_)) => Poll::Ready(Some(())),
            _ => Poll::Ready(None),
        }
    }
}

/// A task of the pool.
#[derive(Drop)]
pub enum Task<'a, R: Wait + Drop, P: Port<u64>> {
    Receiving(Receiving<'a, R, P>),
    Sending(Sending<'a, P>),
}

/// Receives to the end, and keeps the list of what was received.
#[derive(Drop)]
pub struct Receiving<'a, R: Wait + Drop, P: Port<u64>> {
    rt: R,
    list: TryCollect<Received<'a, P>, u64>,
    lists: &'a Mutex<Vec<Vec<u64>>>,
}

/// Sends numbers. The last of the senders closes the channel.
#[derive(Drop)]
pub struct Sending<'a, P: Port<u64>> {
    sender: &'a Sender<u64, P>,
    count: Count<Sends<'a, P>>,
    counts: &'a Counts,
}

impl<'a, R: Wait + Drop, P: Port<u64>> Task<'a, R, P> {
    /// Receives to the end, and adds what was received to `lists`.
    pub fn receiving(
        rt: R,
        alloc: Global,
        receiver: Receiver<u64, P>,
        counts: &'a Counts,
        lists: &'a Mutex<Vec<Vec<u64>>>,
    ) -> Self {
        let list = Received { receiver, counts }.try_collect(alloc);
        Task::Receiving(Receiving { rt, list, lists })
    }

    /// Sends `count` numbers from `first` on.
    pub fn sending(sender: &'a Sender<u64, P>, first: u64, count: u64, counts: &'a Counts) -> Self {
        let sends = Sends {
            sender,
            next: first,
            end: first.saturating_add(count),
            send: None,
            counts,
        };
        Task::Sending(Sending {
            sender,
            count: sends.count(),
            counts,
        })
    }
}

impl<R: Wait + Drop, P: Port<u64>> Future for Receiving<'_, R, P> {
    type Output = ();

    fn poll(&mut self, cx: &mut Context<'_>) -> Poll<()> {
        let Poll::Ready(list) = self.list.poll(cx) else {
            return Poll::Pending;
        };
        keep(&self.rt, self.lists, list);
        Poll::Ready(())
    }
}

// If there is no memory for a list, the test finds that it is missing.
fn keep<R: Wait>(rt: &R, lists: &Mutex<Vec<Vec<u64>>>, list: Result<Vec<u64>, AllocError>) {
    if let Ok(list) = list {
        let _kept = lists.lock(rt).push(list);
    }
}

impl<P: Port<u64>> Future for Sending<'_, P> {
    type Output = ();

    fn poll(&mut self, cx: &mut Context<'_>) -> Poll<()> {
        let Poll::Ready(_) = self.count.poll(cx) else {
            return Poll::Pending;
        };
        if self.counts.senders.fetch_sub(1, Ordering::SeqCst) == 1 {
            self.sender.close();
        }
        Poll::Ready(())
    }
}

impl<R: Wait + Drop, P: Port<u64>> Future for Task<'_, R, P> {
    type Output = ();

    fn poll(&mut self, cx: &mut Context<'_>) -> Poll<()> {
        match self {
            Task::Receiving(receiving) => receiving.poll(cx),
            Task::Sending(sending) => sending.poll(cx),
        }
    }
}
