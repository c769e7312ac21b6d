//! Of `batch.rt`, without a clock.
use crate::channels::{Opens, TestResult, broadcast};
use async_broadcast::{RecvError, TryRecvError};
use futures::task::Poll;
use futures::test::MockTask;

// Of `try_recv_many`.
pub fn tries(rt: impl Opens) -> TestResult {
    let (sender, mut receiver) = broadcast(&rt, rt.alloc(), 3)?;
    for msg in 1..4 {
        assert!(rt; sender.try_broadcast(msg).is_ok());
    }
    let mut msgs = Vec::new(rt.alloc());
    assert!(rt; receiver.try_recv_many(2, &mut msgs)? == Ok(2));
    assert!(rt; msgs.as_slice() == [1, 2].as_slice());
    assert!(rt; receiver.try_recv_many(2, &mut msgs)? == Ok(1));
    assert!(rt; receiver.try_recv_many(2, &mut msgs)? == Err(TryRecvError::Empty));
    assert!(rt; msgs.as_slice() == [1, 2, 3].as_slice());
    Ok(())
}

// Of `recv_many_blocking`.
pub fn blocks(rt: impl Opens) -> TestResult {
    let (sender, mut receiver) = broadcast(&rt, rt.alloc(), 2)?;
    assert!(rt; sender.try_broadcast(1).is_ok());
    assert!(rt; sender.try_broadcast(2).is_ok());
    drop(sender);
    let mut msgs = Vec::new(rt.alloc());
    assert!(rt; receiver.recv_many_blocking(16, &mut msgs)? == Ok(2));
    assert!(rt; receiver.recv_many_blocking(16, &mut msgs)? == Err(RecvError::Closed));
    Ok(())
}

// Of `poll_recv_many`.
pub fn polls(rt: impl Opens) -> TestResult {
    let (sender, mut receiver) = broadcast(&rt, rt.alloc(), 2)?;
    let task = MockTask::new(&rt)?;
    let mut msgs = Vec::new(rt.alloc());
    let polled = task.enter(|cx| receiver.poll_recv_many(cx, 16, &mut msgs));
    assert!(rt; matches!(polled, Ok(Poll::Pending)));
    assert!(rt; sender.try_broadcast(1).is_ok());
    assert!(rt; sender.try_broadcast(2).is_ok());
    assert!(rt; task.is_woken());
    let polled = task.enter(|cx| receiver.poll_recv_many(cx, 16, &mut msgs));
    assert!(rt; matches!(polled, Ok(Poll::Ready(Some(Ok(2))))));
    assert!(rt; msgs.as_slice() == [1, 2].as_slice());
    Ok(())
}
