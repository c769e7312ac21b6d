//! Of `lock.rt` and `lib.rt`.
use crate::channels::{Opens, TestResult, broadcast};
use async_broadcast::{NoMemory, TryRecvError, TrySendError};
use futures::StreamExt;
use futures::executor::block_on;

// Of `broadcast`.
pub fn plays_two(rt: impl Opens) -> TestResult {
    let (sender, mut one) = broadcast(&rt, rt.alloc(), 2)?;
    let mut two = one.clone()?;
    assert!(rt; sender.try_broadcast(7).is_ok());
    assert!(rt; sender.try_broadcast(8).is_ok());
    assert!(rt; matches!(sender.try_broadcast(9), Err(TrySendError::Full(9))));

    assert!(rt; matches!(one.try_recv(), Ok(Ok(7))));
    assert!(rt; matches!(block_on(&rt, one.next())?, Some(Ok(8))));
    assert!(rt; matches!(two.recv_blocking(), Ok(Ok(7))));
    assert!(rt; matches!(block_on(&rt, two.recv_direct())?, Ok(Ok(8))));
    assert!(rt; matches!(one.try_recv(), Ok(Err(TryRecvError::Empty))));

    drop(sender);
    assert!(rt; matches!(two.try_recv(), Ok(Err(TryRecvError::Closed))));
    Ok(())
}

// Of the crate, on its errors.
pub fn refuses(rt: impl Opens) -> TestResult {
    let (sender, mut receiver) = broadcast(&rt, rt.alloc(), 1)?;
    let error = receiver.try_recv()?.err().ok_or("received")?;
    assert!(rt; error.is_empty() && !error.is_closed() && !error.is_overflowed());
    assert!(rt; sender.try_broadcast(1).is_ok());
    let error = sender.try_broadcast(2).err().ok_or("sent")?;
    assert!(rt; error.is_full() && !error.is_closed() && !error.is_disconnected());
    assert!(rt; error.into_inner() == 2);
    sender.close();
    let error = sender.broadcast_blocking(3).err().ok_or("sent")?;
    assert!(rt; error.into_inner() == 3);

    assert!(rt; NoMemory(7).into_inner() == 7);
    Ok(())
}
