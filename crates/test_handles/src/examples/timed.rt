//! Of `timed.rt`, and one of `batch.rt`, whose calls ask a clock.
use crate::channels::{Opens, TestResult, broadcast};
use async_broadcast::{RecvTimeoutError, SendTimeoutError};
use std::time::Duration;

// Of `broadcast_timeout`.
#[test]
fn sends_in_time(rt: HostRuntime) -> TestResult {
    sends(&rt)
}

fn sends(rt: impl Opens) -> TestResult {
    let (sender, receiver) = broadcast(&rt, rt.alloc(), 1)?;
    let limit = Duration::from_millis(1);
    assert!(&rt; sender.broadcast_timeout(7, limit).is_ok());
    let error = sender.broadcast_timeout(8, limit).err().ok_or("sent")?;
    assert!(&rt; error.is_timeout() && error.into_inner() == 8);
    drop(receiver);
    let refused = sender.broadcast_timeout(9, limit);
    assert!(&rt; matches!(refused, Err(SendTimeoutError::Refused(9))));
    Ok(())
}

// Of `recv_timeout`.
#[test]
fn receives_in_time(rt: HostRuntime) -> TestResult {
    receives(&rt)
}

fn receives(rt: impl Opens) -> TestResult {
    let (sender, mut receiver) = broadcast(&rt, rt.alloc(), 1)?;
    let limit = Duration::from_millis(1);
    let received = receiver.recv_timeout(limit);
    assert!(&rt; matches!(received, Ok(Err(RecvTimeoutError::Timeout))));
    assert!(&rt; sender.try_broadcast(7).is_ok());
    drop(sender);
    assert!(&rt; matches!(receiver.recv_timeout(limit), Ok(Ok(7))));
    let ended = receiver.recv_timeout(limit);
    assert!(&rt; matches!(ended, Ok(Err(RecvTimeoutError::Closed))));
    Ok(())
}

// Of `recv_many_timeout`.
#[test]
fn receives_many_in_time(rt: HostRuntime) -> TestResult {
    receives_many(&rt)
}

fn receives_many(rt: impl Opens) -> TestResult {
    let (sender, mut receiver) = broadcast(&rt, rt.alloc(), 2)?;
    let time = Duration::from_millis(1);
    let mut msgs = Vec::new(rt.alloc());
    let received = receiver.recv_many_timeout(16, &mut msgs, time)?;
    assert!(&rt; received == Err(RecvTimeoutError::Timeout));
    assert!(&rt; sender.try_broadcast(7).is_ok());
    assert!(&rt; sender.try_broadcast(8).is_ok());
    drop(sender);
    assert!(&rt; receiver.recv_many_timeout(16, &mut msgs, time)? == Ok(2));
    assert!(&rt; msgs.as_slice() == [7, 8].as_slice());
    let ended = receiver.recv_many_timeout(16, &mut msgs, time)?;
    assert!(&rt; ended == Err(RecvTimeoutError::Closed));
    Ok(())
}
