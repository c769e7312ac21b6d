//! Of `settings.rt`.
use crate::channels::{Host, Opens, TestResult, broadcast};
use async_broadcast::{Port, Receiver, SendError, Sender, TryRecvError};

// Of the calls that return the channel's settings and counts.
pub fn says(rt: impl Opens) -> TestResult {
    let (sender, receiver) = broadcast(&rt, rt.alloc(), 1)?;
    says_what_is_kept(&rt, &sender);
    counts_handles(&rt, &sender, receiver)
}

fn says_what_is_kept<P: Port<u64>>(rt: &impl Host, sender: &Sender<u64, P>) {
    assert!(rt; sender.capacity() == 1);
    assert!(rt; sender.is_empty());
    assert!(rt; !sender.is_full());
    assert!(rt; sender.try_broadcast(7).is_ok());
    assert!(rt; !sender.is_empty());
    assert!(rt; sender.is_full());
    assert!(rt; sender.len() == 1);
}

fn counts_handles<P: Port<u64>>(
    rt: &impl Host,
    sender: &Sender<u64, P>,
    receiver: Receiver<u64, P>,
) -> TestResult {
    let _sender = sender.clone()?;
    assert!(rt; sender.sender_count() == 2);
    let other = receiver.clone()?;
    assert!(rt; sender.receiver_count() == 2);
    drop(other);
    let _inactive = receiver.deactivate().ok().ok_or("no handle")?;
    assert!(rt; sender.inactive_receiver_count() == 1);
    Ok(())
}

// Of `overflow`, `await_active` and `close`.
pub fn changes_modes(rt: impl Opens) -> TestResult {
    let (mut sender, _receiver) = broadcast(&rt, rt.alloc(), 1)?;
    assert!(rt; !sender.overflow());
    sender.set_overflow(true);
    assert!(rt; sender.overflow());
    assert!(rt; sender.await_active());
    sender.set_await_active(false);
    assert!(rt; !sender.await_active());
    assert!(rt; sender.close());
    assert!(rt; !sender.close());
    Ok(())
}

// Of `is_closed`.
pub fn sees_the_end(rt: impl Opens) -> TestResult {
    let (sender, receiver) = broadcast(&rt, rt.alloc(), 1)?;
    assert!(rt; !sender.is_closed());
    receiver.close();
    assert!(rt; sender.is_closed());
    Ok(())
}

// Of `set_capacity`.
pub fn shrinks(rt: impl Opens) -> TestResult {
    let (mut sender, mut receiver) = broadcast(&rt, rt.alloc(), 2)?;
    assert!(rt; sender.try_broadcast(1).is_ok());
    assert!(rt; sender.try_broadcast(2).is_ok());
    sender.set_capacity(1)?;
    assert!(rt; matches!(receiver.try_recv(), Ok(Err(TryRecvError::Overflowed(1)))));
    assert!(rt; matches!(receiver.try_recv(), Ok(Ok(2))));
    Ok(())
}

// Of `set_overflow`.
pub fn overflows(rt: impl Opens) -> TestResult {
    let (mut sender, mut receiver) = broadcast(&rt, rt.alloc(), 1)?;
    sender.set_overflow(true);
    assert!(rt; matches!(sender.try_broadcast(1), Ok(None)));
    assert!(rt; matches!(sender.try_broadcast(2), Ok(Some(1))));
    assert!(rt; matches!(receiver.try_recv(), Ok(Err(TryRecvError::Overflowed(1)))));
    assert!(rt; matches!(receiver.try_recv(), Ok(Ok(2))));
    Ok(())
}

// Of `set_await_active`.
pub fn awaits_nobody(rt: impl Opens) -> TestResult {
    let (mut sender, receiver) = broadcast(&rt, rt.alloc(), 1)?;
    let _inactive = receiver.deactivate().ok().ok_or("no handle")?;
    sender.set_await_active(false);
    assert!(rt; matches!(sender.broadcast_blocking(7), Err(SendError(7))));
    assert!(rt; !sender.is_closed());
    Ok(())
}
