//! Of `sender.rt`.
use crate::channels::{Opens, TestResult, broadcast};
use async_broadcast::{SendError, TryRecvError, TrySendError};

// Of `try_broadcast`.
pub fn tries(rt: impl Opens) -> TestResult {
    let (sender, receiver) = broadcast(&rt, rt.alloc(), 1)?;
    assert!(rt; matches!(sender.try_broadcast(1), Ok(None)));
    assert!(rt; matches!(sender.try_broadcast(2), Err(TrySendError::Full(2))));
    let inactive = receiver.deactivate().ok().ok_or("no handle")?;
    assert!(rt; matches!(sender.try_broadcast(3), Err(TrySendError::Inactive(3))));
    drop(inactive);
    assert!(rt; matches!(sender.try_broadcast(4), Err(TrySendError::Closed(4))));
    Ok(())
}

// Of `try_broadcast_all`.
pub fn sends_a_list(rt: impl Opens) -> TestResult {
    let (sender, mut receiver) = broadcast(&rt, rt.alloc(), 3)?;
    assert!(rt; sender.try_broadcast_all(vec![in rt.alloc(); 1, 2]?).is_ok());
    let four = vec![in rt.alloc(); 3, 4]?;
    assert!(rt; matches!(sender.try_broadcast_all(four), Err(TrySendError::Full(_))));
    assert!(rt; sender.try_broadcast(3).is_ok());
    assert!(rt; matches!(receiver.try_recv(), Ok(Ok(1))));
    assert!(rt; matches!(receiver.try_recv(), Ok(Ok(2))));
    assert!(rt; matches!(receiver.try_recv(), Ok(Ok(3))));
    Ok(())
}

// Of `broadcast_blocking`.
pub fn blocks(rt: impl Opens) -> TestResult {
    let (sender, mut receiver) = broadcast(&rt, rt.alloc(), 1)?;
    assert!(rt; sender.broadcast_blocking(7).is_ok());
    assert!(rt; matches!(receiver.try_recv(), Ok(Ok(7))));
    assert!(rt; sender.broadcast_blocking(8).is_ok());
    assert!(rt; matches!(receiver.recv_blocking(), Ok(Ok(8))));
    drop(receiver);
    assert!(rt; matches!(sender.broadcast_blocking(9), Err(SendError(9))));
    Ok(())
}

// Of `clone`.
pub fn clones(rt: impl Opens) -> TestResult {
    let (sender, mut receiver) = broadcast(&rt, rt.alloc(), 1)?;
    let other = sender.clone()?;
    drop(sender);
    assert!(rt; other.try_broadcast(1).is_ok());
    drop(other);
    assert!(rt; matches!(receiver.try_recv(), Ok(Ok(1))));
    assert!(rt; matches!(receiver.try_recv(), Ok(Err(TryRecvError::Closed))));
    Ok(())
}

// Of `new_receiver`.
pub fn adds_a_receiver(rt: impl Opens) -> TestResult {
    let (sender, mut one) = broadcast(&rt, rt.alloc(), 2)?;
    assert!(rt; sender.try_broadcast(1).is_ok());
    let mut two = sender.new_receiver()?;
    assert!(rt; sender.try_broadcast(2).is_ok());
    assert!(rt; matches!(one.try_recv(), Ok(Ok(1))));
    assert!(rt; matches!(two.try_recv(), Ok(Ok(2))));
    Ok(())
}
