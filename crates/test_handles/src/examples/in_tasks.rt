//! Of `future/send.rt` and `future/recv.rt`.
use crate::channels::{Opens, TestResult, broadcast};
use async_broadcast::{RecvError, SendError, TryRecvError};
use futures::executor::block_on;
use futures::task::Poll;
use futures::test::MockTask;

// Of `broadcast`.
pub fn sends_in_a_box(rt: impl Opens) -> TestResult {
    let (sender, mut receiver) = broadcast(&rt, rt.alloc(), 1)?;
    let mut send = sender.broadcast(1)?;
    assert!(rt; matches!(receiver.try_recv(), Ok(Err(TryRecvError::Empty))));
    assert!(rt; matches!(block_on(&rt, &mut *send)?, Ok(Ok(None))));
    assert!(rt; matches!(receiver.try_recv(), Ok(Ok(1))));
    Ok(())
}

// Of `broadcast_direct`.
pub fn sends_directly(rt: impl Opens) -> TestResult {
    let (sender, receiver) = broadcast(&rt, rt.alloc(), 1)?;
    assert!(rt; matches!(block_on(&rt, sender.broadcast_direct(1)?)?, Ok(Ok(None))));
    drop(receiver);
    let refused = block_on(&rt, sender.broadcast_direct(2)?)?;
    assert!(rt; matches!(refused, Ok(Err(SendError(2)))));
    Ok(())
}

// Of `recv`.
pub fn receives_in_a_box(rt: impl Opens) -> TestResult {
    let (sender, mut receiver) = broadcast(&rt, rt.alloc(), 1)?;
    assert!(rt; sender.try_broadcast(1).is_ok());
    assert!(rt; matches!(block_on(&rt, &mut *receiver.recv()?)?, Ok(Ok(1))));
    Ok(())
}

// Of `recv_direct`.
pub fn receives_directly(rt: impl Opens) -> TestResult {
    let (sender, mut receiver) = broadcast(&rt, rt.alloc(), 1)?;
    assert!(rt; sender.try_broadcast(1).is_ok());
    drop(sender);
    assert!(rt; matches!(block_on(&rt, receiver.recv_direct())?, Ok(Ok(1))));
    let ended = block_on(&rt, receiver.recv_direct())?;
    assert!(rt; matches!(ended, Ok(Err(RecvError::Closed))));
    Ok(())
}

// Of `poll_recv`.
pub fn polls(rt: impl Opens) -> TestResult {
    let (sender, mut receiver) = broadcast(&rt, rt.alloc(), 1)?;
    let task = MockTask::new(&rt)?;
    assert!(rt; matches!(task.enter(|cx| receiver.poll_recv(cx)), Ok(Poll::Pending)));
    assert!(rt; sender.try_broadcast(1).is_ok());
    assert!(rt; task.is_woken());
    let polled = task.enter(|cx| receiver.poll_recv(cx));
    assert!(rt; matches!(polled, Ok(Poll::Ready(Some(Ok(1))))));
    Ok(())
}
