//! Threads that are woken and wake the next one: by finding nothing to receive, or by a send.
use crate::steps::{Group, Host, ThreadPort, wait_for};
use async_broadcast::{Lock, Port, TimedPort};
use bcast_core::{AddReceiver, Close, Inner, TryBroadcast, TryRecv, TryRecvError};
use std::alloc::AllocError;
use std::sync::Arc;
use std::sync::atomic::{AtomicU64, Ordering};
use std::test::Fail;
use std::time::Duration;

/// Waits for the next message of the receiver `key`, with a limit if there is one, and counts it.
fn receive<P: TimedPort<u64>>(port: P, key: usize, limit: Option<Duration>, received: &AtomicU64) {
    let has_message = match limit {
        Some(limit) => matches!(port.receive_within(&mut (), key, limit), Ok(Ok(7))),
        None => matches!(port.receive_waiting(&mut (), key), Ok(Ok(7))),
    };
    if has_message {
        received.fetch_add(1, Ordering::SeqCst);
    }
}

/// Starts threads that wait for the messages of these receivers, each when those before it sleep.
/// `received` counts those that get one.
pub fn start<P: ThreadPort>(
    rt: impl Host + 'static,
    port: &P,
    keys: &[usize],
    limit: Option<Duration>,
    received: &Arc<AtomicU64>,
) -> Result<Group, Fail> {
    let mut group = Group::new(rt.alloc())?;
    for key in keys {
        let (own, key) = (port.try_clone().ok_or("no port")?, *key);
        let shared = Arc::try_clone(received)?;
        group.start(&rt, move || receive(own, key, limit, &shared))?;
        group.wait_for_sleep(&rt, "receive_waiting, or receive_within");
    }
    Ok(group)
}

/// Sends to three threads of two receivers, and closes the channel when two of them got the
/// message.
fn all_go_on<P: ThreadPort>(rt: impl Host + 'static, port: P, key: usize) -> Result<(), Fail> {
    let other = port.ask(&mut (), AddReceiver::New)?;
    let received = Arc::new(rt.alloc(), AtomicU64::new(0))?;
    let group = start(rt, &port, &[key, key, other], None, &received)?;
    assert!(&rt; received.load(Ordering::SeqCst) == 0, "all wait");
    assert!(&rt; matches!(port.ask(&mut (), TryBroadcast(7)), Ok(None)));
    wait_for(&rt, &received, 2, "one thread of each receiver got it");
    assert!(&rt; port.ask(&mut (), Close));
    group.join(&rt, "the third saw that it closed");
    assert!(&rt; received.load(Ordering::SeqCst) == 2, "and got nothing");
    Ok(())
}

// Two threads wait for one receiver's message, and a third, behind them, for another receiver's.
// All three are woken in turn. The second finds nothing, since the first has the message.
#[test]
fn a_thread_that_finds_nothing_wakes_the_next(rt: HostRuntime) -> Result<(), Fail> {
    let (inner, key) = Inner::new(rt.alloc(), 1)?;
    all_go_on(rt, Lock::new(rt, rt.alloc(), inner)?, key)
}

/// Waits until it can send a message, and makes no call then.
fn send<P: Port<u64>>(port: P) {
    let _sent = port.send_waiting(&mut (), 7);
}

/// Has a receiver wait that has read everything, and a sender for which the other receiver has to
/// make room.
fn goes_on_by_a_send<P: ThreadPort>(
    rt: impl Host + 'static,
    port: P,
    key: usize,
) -> Result<(), Fail> {
    let late = port.ask(&mut (), AddReceiver::New)?;
    assert!(&rt; matches!(port.ask(&mut (), TryBroadcast(1)), Ok(None)));
    let first: Result<Result<u64, TryRecvError>, AllocError> = port.ask(&mut (), TryRecv(key));
    assert!(&rt; first == Ok(Ok(1)));
    let received = Arc::new(rt.alloc(), AtomicU64::new(0))?;
    let mut group = start(rt, &port, &[key], None, &received)?;
    let own = port.try_clone().ok_or("no port")?;
    group.start(&rt, move || send(own))?;
    group.wait_for_sleep(&rt, "receive_waiting and send_waiting");
    let room: Result<Result<u64, TryRecvError>, AllocError> = port.ask(&mut (), TryRecv(late));
    assert!(&rt; room == Ok(Ok(1)));
    wait_for(&rt, &received, 1, "the receiver got the message");
    group.join(&rt, "both end");
    Ok(())
}

// The last call on the channel is the second try of a sender that waited: it wakes the receiver.
#[test]
fn a_send_that_waited_wakes_a_receiver(rt: HostRuntime) -> Result<(), Fail> {
    let (inner, key) = Inner::new(rt.alloc(), 1)?;
    goes_on_by_a_send(rt, Lock::new(rt, rt.alloc(), inner)?, key)
}
