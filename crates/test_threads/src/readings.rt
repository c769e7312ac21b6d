//! What the calls of tracked handles give, one after the other.
ghost use Rattle.bcast_history.specs.Reader.{StartsAtTheFirst};

use crate::history::{Row, run_row};
use crate::steps::Host;
use async_broadcast::{RecvTimeoutError, SendTimeoutError};
use bcast_core::TryRecvError;
use bcast_history::{
    Channel, TimedHistoryPort, TrackedInactiveReceiver, TrackedReceiver, TrackedSender,
};
use futures::task::Poll;
use futures::test::MockTask;
use std::test::Fail;
use std::time::{Duration, Instant};

mod batches;
mod logs;

/// The first handles of a channel that keeps a history.
#[derive(Drop)]
pub struct Tracked<J: Channel, P: TimedHistoryPort<u64, J>> {
    pub sender: TrackedSender<u64, P, J>,
    pub receiver: TrackedReceiver<u64, P, J>,
}

/// What is read on a channel of its own, which keeps two messages.
#[derive(Clone, Copy)]
pub enum Reading {
    Take,
    Batches,
    WholeLog,
    CutLogs,
    Start,
    Room,
    Count,
    Limit,
    Set,
}

// Each call gives the message that comes next, or says how many were missed. A stream skips those.
#[test]
fn a_receiver_is_given_each_message_in_turn(rt: HostRuntime) -> Result<(), Fail> {
    run_row(rt, 2, Row::Read(Reading::Take))
}

// A batch is all that is there, at most its limit; if there is nothing, it waits as one receive does.
#[test]
fn a_batch_is_all_that_is_there(rt: HostRuntime) -> Result<(), Fail> {
    run_row(rt, 2, Row::Read(Reading::Batches))
}

// A new receiver and an activated one start at the end, a clone where its original reads on.
#[test]
fn a_receiver_starts_where_it_says(rt: HostRuntime) -> Result<(), Fail> {
    run_row(rt, 2, Row::Read(Reading::Start))
}

// No receiver is made beside those that are returned: once they are gone, or have read all, there
// is room again.
#[test]
fn makers_leave_no_receiver_behind(rt: HostRuntime) -> Result<(), Fail> {
    run_row(rt, 2, Row::Read(Reading::Room))
}

// What is unread and what was missed.
#[test]
fn a_receiver_counts_what_it_has_still_to_read(rt: HostRuntime) -> Result<(), Fail> {
    run_row(rt, 2, Row::Read(Reading::Count))
}

// A call with a limit that finds nothing, or no room, waits until its time is over.
#[test]
fn limits_are_waited_for(rt: HostRuntime) -> Result<(), Fail> {
    run_row(rt, 2, Row::Read(Reading::Limit))
}

// Each setting, each count, and a whole list.
#[test]
fn a_sender_sets_and_counts(rt: HostRuntime) -> Result<(), Fail> {
    run_row(rt, 2, Row::Read(Reading::Set))
}

/// Sends a message for which there is room, or one that drops the oldest.
fn send<J: Channel, P: TimedHistoryPort<u64, J>>(
    rt: &impl Host,
    sender: &mut TrackedSender<u64, P, J>,
    msg: u64,
) {
    assert!(rt; sender.try_broadcast(msg).is_ok(), "{msg} is sent");
}

impl<J: Channel, P: TimedHistoryPort<u64, J>> Tracked<J, P> {
    /// Reads so. The receiver has read nothing yet.
    pub fn read(&mut self, rt: &impl Host, reading: Reading) -> Result<(), Fail>
        requires { StartsAtTheFirst J.opening self.old.receiver.tracker }
    {
        match reading {
            Reading::Take => self.take_each(rt),
            Reading::Batches => self.take_batches(rt),
            Reading::WholeLog => self.take_whole_log(rt),
            Reading::CutLogs => self.take_cut_logs(rt),
            Reading::Start => self.start_each(rt),
            Reading::Room => self.make_each(rt),
            Reading::Count => self.count_each(rt),
            Reading::Limit => self.wait_each(rt),
            Reading::Set => self.set_each(rt),
        }
    }

    /// What `poll_recv` gives; 0 if it waits.
    fn polled(&mut self, task: &MockTask) -> Option<u64> {
        match task.enter(|cx| self.receiver.poll_recv(cx)) {
            Ok(Poll::Ready(Some(Ok(msg)))) => Some(msg),
            Ok(Poll::Pending) => Some(0),
            _ => None,
        }
    }

    fn poll_next(&mut self, rt: &impl Host, task: &MockTask) -> Option<Poll<Option<u64>>> {
        task.enter(|cx| self.receiver.poll_next(rt, cx)).ok()
    }

    /// A receiver that was made inactive.
    fn inactive(&mut self) -> Result<TrackedInactiveReceiver<u64, P, J>, Fail> {
        let made = self.sender.new_receiver()?;
        Ok(made.deactivate().ok().ok_or("no handle")?)
    }

    fn take_each(&mut self, rt: &impl Host) -> Result<(), Fail> {
        self.sender.set_overflow(true);
        let task = MockTask::new(&rt)?;
        let limit = Duration::from_millis(1);
        assert!(rt; self.receiver.try_recv() == Ok(Err(TryRecvError::Empty)));
        assert!(rt; self.receiver.recv_timeout(limit) == Ok(Err(RecvTimeoutError::Timeout)));
        assert!(rt; self.polled(&task) == Some(0));
        assert!(rt; !task.is_woken());
        send(rt, &mut self.sender, 1);
        assert!(rt; task.is_woken());
        assert!(rt; self.polled(&task) == Some(1));
        send(rt, &mut self.sender, 2);
        send(rt, &mut self.sender, 3);
        assert!(rt; self.receiver.recv_timeout(limit) == Ok(Ok(2)));
        assert!(rt; self.receiver.recv_blocking() == Ok(Ok(3)));
        for msg in 4..=6 {
            send(rt, &mut self.sender, msg);
        }
        assert!(rt; self.receiver.try_recv() == Ok(Err(TryRecvError::Overflowed(1))));
        assert!(rt; self.receiver.try_recv() == Ok(Ok(5)));
        send(rt, &mut self.sender, 7);
        send(rt, &mut self.sender, 8);
        assert!(rt; self.poll_next(rt, &task) == Some(Poll::Ready(Some(7))));
        assert!(rt; self.poll_next(rt, &task) == Some(Poll::Ready(Some(8))));
        assert!(rt; self.poll_next(rt, &task) == Some(Poll::Pending));
        assert!(rt; self.receiver.next() == 8 && self.sender.end() == 8);
        assert!(rt; self.sender.close() && !self.sender.close());
        assert!(rt; self.poll_next(rt, &task) == Some(Poll::Ready(None)));
        assert!(rt; self.receiver.try_recv() == Ok(Err(TryRecvError::Closed)));
        Ok(())
    }

    fn start_each(&mut self, rt: &impl Host) -> Result<(), Fail> {
        send(rt, &mut self.sender, 1);
        let mut cloned = self.receiver.clone()?;
        let mut made = self.sender.new_receiver()?;
        let mut activated = self.inactive()?.activate().ok().ok_or("no handle")?;
        send(rt, &mut self.sender, 2);
        assert!(rt; made.try_recv() == Ok(Ok(2)));
        assert!(rt; activated.try_recv() == Ok(Ok(2)));
        for msg in 1..=2 {
            assert!(rt; self.receiver.try_recv() == Ok(Ok(msg)));
            assert!(rt; cloned.try_recv() == Ok(Ok(msg)));
        }
        Ok(())
    }

    fn make_each(&mut self, rt: &impl Host) -> Result<(), Fail> {
        let activated = self.inactive()?.activate().ok().ok_or("no handle")?;
        assert!(rt;
            self.sender.receiver_count() == 2 && self.sender.inactive_receiver_count() == 0
        );
        drop((self.receiver.clone()?, activated));
        let other = self.sender.clone()?;
        assert!(rt; self.sender.receiver_count() == 1 && self.sender.sender_count() == 2);
        drop(other);
        send(rt, &mut self.sender, 1);
        send(rt, &mut self.sender, 2);
        assert!(rt; self.sender.len() == 2 && self.sender.try_broadcast(3).is_err());
        for msg in 1..=2 {
            assert!(rt; self.receiver.try_recv() == Ok(Ok(msg)));
        }
        assert!(rt; self.sender.len() == 0 && self.sender.sender_count() == 1);
        send(rt, &mut self.sender, 3);
        Ok(())
    }

    fn count_each(&mut self, rt: &impl Host) -> Result<(), Fail> {
        let Tracked { sender, receiver } = self;
        sender.set_overflow(true);
        for msg in 1..=3 {
            send(rt, sender, msg);
        }
        assert!(rt; receiver.unread() == 2 && receiver.missed() == 1);
        assert!(rt; receiver.try_recv() == Ok(Err(TryRecvError::Overflowed(1))));
        assert!(rt; receiver.unread() == 2 && receiver.missed() == 0);
        assert!(rt; receiver.try_recv() == Ok(Ok(2)));
        assert!(rt; receiver.unread() == 1 && receiver.missed() == 0);
        let mut found = receiver.try_iter();
        assert!(rt; found.next() == Some(Ok(Ok(3))));
        assert!(rt; found.next().is_none());
        send(rt, sender, 4);
        drop(sender.close());
        let mut count = 0u64;
        for received in receiver.iter(rt) {
            assert!(rt; received == Ok(Ok(4)));
            count = count.wrapping_add(1);
        }
        assert!(rt; count == 1 && receiver.unread() == 0);
        Ok(())
    }

    fn wait_each(&mut self, rt: &impl Host) -> Result<(), Fail> {
        let limit = Duration::from_millis(2);
        let start = Instant::now(rt)?;
        assert!(rt; self.receiver.recv_timeout(limit) == Ok(Err(RecvTimeoutError::Timeout)));
        assert!(rt; start.elapsed(rt)? >= limit);
        send(rt, &mut self.sender, 1);
        send(rt, &mut self.sender, 2);
        let start = Instant::now(rt)?;
        assert!(rt; self.sender.broadcast_timeout(3, limit) == Err(SendTimeoutError::Timeout(3)));
        assert!(rt; start.elapsed(rt)? >= limit);
        Ok(())
    }

    /// Makes each call on a channel that has one receiver, and no message.
    fn set_each(&mut self, rt: &impl Host) -> Result<(), Fail> {
        let sender = &mut self.sender;
        sender.set_capacity(3)?;
        sender.set_await_active(false);
        assert!(rt; sender.capacity() == 3 && !sender.overflow() && !sender.await_active());
        sender.set_await_active(true);
        assert!(rt; sender.await_active());
        let all = vec![in rt.alloc(); 1, 2, 3]?;
        assert!(rt; sender.try_broadcast_all(all).is_ok() && sender.len() == 3);
        let more = vec![in rt.alloc(); 4]?;
        assert!(rt; sender.try_broadcast_all(more).is_err() && sender.len() == 3);
        let inactive = self.inactive()?;
        assert!(rt;
            self.sender.receiver_count() == 1 && self.sender.inactive_receiver_count() == 1
        );
        drop(inactive);
        let sender = &mut self.sender;
        assert!(rt; sender.receiver_count() == 1 && sender.inactive_receiver_count() == 0);
        sender.set_overflow(true);
        assert!(rt; sender.overflow() && sender.capacity() == 3 && sender.sender_count() == 1);
        Ok(())
    }
}
