//! Of `receiver.rt` and `iter.rt`, and one of a setting of the channel that a receiver makes.
use crate::channels::{Opens, TestResult, broadcast};
use async_broadcast::{RecvError, SendError, TryRecvError, TrySendError};
use futures::StreamExt;
use futures::executor::block_on;

// Of `Receiver`, as a stream.
pub fn streams(rt: impl Opens) -> TestResult {
    let (sender, mut receiver) = broadcast(&rt, rt.alloc(), 1)?;
    assert!(rt; sender.try_broadcast(1).is_ok());
    drop(sender);
    assert!(rt; matches!(block_on(&rt, receiver.next())?, Some(Ok(1))));
    assert!(rt; matches!(block_on(&rt, receiver.next())?, None));
    Ok(())
}

// Of `try_recv`.
pub fn tries(rt: impl Opens) -> TestResult {
    let (sender, mut receiver) = broadcast(&rt, rt.alloc(), 1)?;
    assert!(rt; matches!(receiver.try_recv(), Ok(Err(TryRecvError::Empty))));
    assert!(rt; sender.try_broadcast(1).is_ok());
    drop(sender);
    assert!(rt; matches!(receiver.try_recv(), Ok(Ok(1))));
    assert!(rt; matches!(receiver.try_recv(), Ok(Err(TryRecvError::Closed))));
    Ok(())
}

// Of `recv_blocking`.
pub fn blocks(rt: impl Opens) -> TestResult {
    let (sender, mut receiver) = broadcast(&rt, rt.alloc(), 1)?;
    assert!(rt; sender.try_broadcast(1).is_ok());
    drop(sender);
    assert!(rt; matches!(receiver.recv_blocking(), Ok(Ok(1))));
    assert!(rt; matches!(receiver.recv_blocking(), Ok(Err(RecvError::Closed))));
    Ok(())
}

// Of `iter`.
pub fn loops(rt: impl Opens) -> TestResult {
    let (sender, mut receiver) = broadcast(&rt, rt.alloc(), 2)?;
    assert!(rt; sender.try_broadcast(1).is_ok());
    assert!(rt; sender.try_broadcast(2).is_ok());
    drop(sender);
    let mut count = 0u64;
    for received in receiver.iter(&rt) {
        count = count.wrapping_add(1);
        assert!(rt; received? == Ok(count));
    }
    assert!(rt; count == 2);
    Ok(())
}

// Of `try_iter`.
pub fn loops_over_what_is_there(rt: impl Opens) -> TestResult {
    let (sender, mut receiver) = broadcast(&rt, rt.alloc(), 2)?;
    assert!(rt; sender.try_broadcast(1).is_ok());
    assert!(rt; sender.try_broadcast(2).is_ok());
    let mut count = 0u64;
    for received in receiver.try_iter() {
        count = count.wrapping_add(1);
        assert!(rt; received? == Ok(count));
    }
    assert!(rt; count == 2);
    assert!(rt; receiver.try_iter().next().is_none());
    Ok(())
}

// Of `is_terminated`.
pub fn sees_the_end(rt: impl Opens) -> TestResult {
    let (sender, mut receiver) = broadcast(&rt, rt.alloc(), 1)?;
    assert!(rt; sender.try_broadcast(1).is_ok());
    drop(sender);
    assert!(rt; !receiver.is_terminated());
    assert!(rt; matches!(receiver.try_recv(), Ok(Ok(1))));
    assert!(rt; receiver.is_terminated());
    Ok(())
}

// Of `clone`.
pub fn clones(rt: impl Opens) -> TestResult {
    let (sender, mut one) = broadcast(&rt, rt.alloc(), 1)?;
    assert!(rt; sender.try_broadcast(1).is_ok());
    let mut two = one.clone()?;
    assert!(rt; matches!(one.try_recv(), Ok(Ok(1))));
    assert!(rt; matches!(two.try_recv(), Ok(Ok(1))));
    Ok(())
}

// Of `new_receiver`.
pub fn adds_a_receiver(rt: impl Opens) -> TestResult {
    let (sender, one) = broadcast(&rt, rt.alloc(), 2)?;
    assert!(rt; sender.try_broadcast(1).is_ok());
    let mut two = one.new_receiver()?;
    assert!(rt; sender.try_broadcast(2).is_ok());
    assert!(rt; matches!(two.try_recv(), Ok(Ok(2))));
    Ok(())
}

// Of `new_sender`.
pub fn adds_a_sender(rt: impl Opens) -> TestResult {
    let (sender, mut receiver) = broadcast(&rt, rt.alloc(), 1)?;
    let other = receiver.new_sender()?;
    drop(sender);
    assert!(rt; other.try_broadcast(1).is_ok());
    assert!(rt; matches!(receiver.try_recv(), Ok(Ok(1))));
    Ok(())
}

// Of `deactivate`.
pub fn pauses(rt: impl Opens) -> TestResult {
    let (sender, receiver) = broadcast(&rt, rt.alloc(), 1)?;
    let inactive = receiver.deactivate().ok().ok_or("no handle")?;
    assert!(rt; matches!(sender.try_broadcast(1), Err(TrySendError::Inactive(1))));
    let mut receiver = inactive.activate().ok().ok_or("no handle")?;
    assert!(rt; sender.try_broadcast(2).is_ok());
    assert!(rt; matches!(receiver.try_recv(), Ok(Ok(2))));
    Ok(())
}

// Of `set_await_active`, by a receiver.
pub fn awaits_nobody(rt: impl Opens) -> TestResult {
    let (sender, mut receiver) = broadcast(&rt, rt.alloc(), 2)?;
    assert!(rt; matches!(block_on(&rt, &mut *sender.broadcast(1)?)?, Ok(Ok(None))));
    receiver.set_await_active(false);
    assert!(rt; !sender.await_active());
    let _inactive = receiver.deactivate().ok().ok_or("no handle")?;
    let refused = block_on(&rt, &mut *sender.broadcast(2)?)?;
    assert!(rt; matches!(refused, Ok(Err(SendError(2)))));
    assert!(rt; !sender.is_closed());
    Ok(())
}
