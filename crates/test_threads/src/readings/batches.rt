//! What a `TrackedReceiver` is given several at once.
use super::{Tracked, send};
use crate::steps::Host;
use async_broadcast::RecvTimeoutError;
use bcast_core::{RecvError, TryRecvError};
use bcast_history::{Channel, TimedHistoryPort};
use futures::task::Poll;
use futures::test::MockTask;
use std::test::Fail;
use std::time::{Duration, Instant};

/// More messages than the channel keeps.
const MANY: usize = 3;

impl<J: Channel, P: TimedHistoryPort<u64, J>> Tracked<J, P> {
    /// How many messages a poll gives; 0 if it waits.
    fn poll_many(&mut self, task: &MockTask, msgs: &mut Vec<u64>) -> Option<usize> {
        match task.enter(|cx| self.receiver.poll_recv_many(cx, MANY, msgs)) {
            Ok(Poll::Ready(Some(Ok(count)))) => Some(count),
            Ok(Poll::Pending) => Some(0),
            _ => None,
        }
    }

    /// Receives all that is there, in each way, on a channel of capacity 2.
    pub(super) fn take_batches(&mut self, rt: &impl Host) -> Result<(), Fail> {
        let mut msgs = Vec::new(rt.alloc());
        send(rt, &mut self.sender, 1);
        send(rt, &mut self.sender, 2);
        assert!(rt; self.receiver.try_recv_many(MANY, &mut msgs)? == Ok(2));
        assert!(rt; self.receiver.try_recv_many(MANY, &mut msgs)? == Err(TryRecvError::Empty));
        self.wait_for_batch(rt, &mut msgs)?;
        self.sender.set_overflow(true);
        for msg in 3..=5 {
            send(rt, &mut self.sender, msg);
        }
        assert!(rt;
            self.receiver.recv_many_blocking(MANY, &mut msgs)? == Err(RecvError::Overflowed(1))
        );
        assert!(rt; self.receiver.recv_many_blocking(1, &mut msgs)? == Ok(1));
        assert!(rt;
            self.receiver
                .recv_many_timeout(MANY, &mut msgs, Duration::ZERO)?
                == Ok(1)
        );
        let task = MockTask::new(rt)?;
        assert!(rt; self.poll_many(&task, &mut msgs) == Some(0));
        assert!(rt; !task.is_woken());
        send(rt, &mut self.sender, 6);
        send(rt, &mut self.sender, 7);
        assert!(rt; task.is_woken());
        assert!(rt; self.poll_many(&task, &mut msgs) == Some(2));
        assert!(rt; matches!(msgs.as_slice(), [1, 2, 4, 5, 6, 7]));
        assert!(rt; self.receiver.close() && !self.receiver.close());
        Ok(())
    }

    /// Waits for a message that doesn't come, until the time is over.
    fn wait_for_batch(&mut self, rt: &impl Host, msgs: &mut Vec<u64>) -> Result<(), Fail> {
        let limit = Duration::from_millis(2);
        let start = Instant::now(rt)?;
        let received = self.receiver.recv_many_timeout(MANY, msgs, limit)?;
        assert!(rt; received == Err(RecvTimeoutError::Timeout));
        assert!(rt; start.elapsed(rt)? >= limit);
        Ok(())
    }
}
