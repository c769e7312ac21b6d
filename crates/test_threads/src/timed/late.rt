//! Threads that are woken when their time is over, or for nothing; and a clock that can't be read.
use crate::hands::Hands;
use crate::passing_on::start;
use crate::scripts::{Change, Row, Script, Step, begin, end};
use crate::steps::{Ends, Host, ThreadPort, wait_for};
use async_broadcast::{Lock, RecvTimeoutError, TimedPort, broadcast};
use bcast_core::{Inner, TryBroadcast};
use std::alloc::{AllocError, Global};
use std::io;
use std::io::ErrorKind;
use std::sync::atomic::{AtomicU64, Ordering};
use std::sync::{Arc, Wait};
use std::test::Fail;
use std::time::{Clock, Duration};

/// What the clock shows, in seconds, and how often it was read.
#[derive(Drop)]
struct Dial {
    seconds: AtomicU64,
    reads: AtomicU64,
    // After so many times it can't be read any more.
    most: u64,
}

/// A runtime whose clock shows what is set.
#[derive(Clone, Drop)]
struct SetClock<R: Wait> {
    rt: R,
    dial: Arc<Dial>,
}

impl<R: Wait + Drop> SetClock<R> {
    /// A clock that shows 0 and can be read `most` times, and its dial.
    fn new(rt: R, alloc: Global, most: u64) -> Result<(Self, Arc<Dial>), AllocError> {
        let made = Dial {
            seconds: AtomicU64::new(0),
            reads: AtomicU64::new(0),
            most,
        };
        let dial = Arc::new(alloc, made)?;
        let own = Arc::try_clone(&dial)?;
        Ok((SetClock { rt, dial: own }, dial))
    }
}

impl<R: Wait> Wait for SetClock<R> {}

impl<R: Wait> Clock for SetClock<R> {
    fn monotonic(&self) -> io::Result<Duration> {
        if self.dial.reads.fetch_add(1, Ordering::SeqCst) >= self.dial.most {
            return Err(io::Error::from(ErrorKind::Other));
        }
        Ok(Duration::from_secs(self.dial.seconds.load(Ordering::SeqCst)))
    }

    fn since_1970(&self) -> io::Result<Duration> {
        Ok(Duration::ZERO)
    }
}

/// The limit of each call, in seconds.
const LIMIT: u64 = 3600;

/// How often two calls have read the clock when both sleep: at the start, for what is left, and
/// for the sleep.
const BOTH_SLEEP: u64 = 6;

const RECEIVE: Script = &[Step::ReceiveInTime(Ok(7))];

const SEND: Script = &[Step::SendInTime(2, Ok(None))];

const RECEIVES: Row = (
    "receives",
    &[],
    &[RECEIVE, RECEIVE],
    &[Step::TrySend(0, 7, Ok(None))],
);

// A greater capacity makes room for both at once.
const SENDS: Row = (
    "sends",
    &[Step::TrySend(0, 1, Ok(None))],
    &[SEND, SEND],
    &[Step::Change(Change::Capacity(3))],
);

// Two calls whose time is over when they are woken: each tries once more, and the first wakes the
// other. Makes the calls `after` in the end.
fn all_end(rt: impl Host + 'static, row: Row, after: Script) -> Result<(), Fail> {
    let (clock, dial) = SetClock::new(rt, rt.alloc(), u64::MAX)?;
    play(rt, &dial, broadcast(clock, rt.alloc(), 1)?, row, after)
}

fn play<P: ThreadPort>(
    rt: impl Host + 'static,
    dial: &Dial,
    ends: Ends<P>,
    row: Row,
    after: Script,
) -> Result<(), Fail> {
    let mut hands = Hands::both(rt.alloc(), ends)?;
    hands.limit = Duration::from_secs(LIMIT);
    let group = begin(rt, &mut hands, row)?;
    wait_for(&rt, &dial.reads, BOTH_SLEEP, row.0);
    dial.seconds.store(LIMIT, Ordering::SeqCst);
    end(rt, &mut hands, group, row, after);
    Ok(())
}

#[test]
fn late_receives_try_and_wake_the_next(rt: HostRuntime) -> Result<(), Fail> {
    all_end(rt, RECEIVES, &[])
}

#[test]
fn late_sends_try_and_wake_the_next(rt: HostRuntime) -> Result<(), Fail> {
    let after = &[Step::Keeps(3)];
    all_end(rt, SENDS, after)
}

// Of two threads with one receiver, one gets the message. The other is woken too, finds nothing,
// and waits on for what is left of its limit, and no longer.
#[test]
fn a_wait_goes_on_to_its_limit(rt: HostRuntime) -> Result<(), Fail> {
    let (inner, key) = Inner::new(rt.alloc(), 1)?;
    let (clock, dial) = SetClock::new(rt, rt.alloc(), u64::MAX)?;
    one_goes_on(rt, &dial, Lock::new(clock, rt.alloc(), inner)?, key)
}

fn one_goes_on<P: ThreadPort>(
    rt: impl Host + 'static,
    dial: &Dial,
    port: P,
    key: usize,
) -> Result<(), Fail> {
    let received = Arc::new(rt.alloc(), AtomicU64::new(0))?;
    let limit = Some(Duration::from_secs(LIMIT));
    let group = start(rt, &port, &[key, key], limit, &received)?;
    wait_for(&rt, &dial.reads, BOTH_SLEEP, "both sleep");
    dial.seconds.store(LIMIT - 1, Ordering::SeqCst);
    assert!(&rt; matches!(port.ask(&mut (), TryBroadcast(7)), Ok(None)));
    wait_for(&rt, &received, 1, "one receives");
    // Each has read whether its time is over, and the other twice more, to sleep for a second.
    wait_for(&rt, &dial.reads, BOTH_SLEEP + 4, "the other sleeps again");
    dial.seconds.store(LIMIT, Ordering::SeqCst);
    group.join(&rt, "and not for longer than its limit");
    assert!(&rt; received.load(Ordering::SeqCst) == 1, "only one got it");
    Ok(())
}

// Whether the clock can't be read at the start, or later: the wait ends.
#[test]
fn without_a_clock_no_call_waits(rt: HostRuntime) -> Result<(), Fail> {
    for most in [0, 1] {
        let (clock, _dial) = SetClock::new(rt, rt.alloc(), most)?;
        ends_at_once(&rt, broadcast(clock, rt.alloc(), 1)?);
    }
    Ok(())
}

fn ends_at_once<P: TimedPort<u64>>(rt: &impl Host, (_sender, mut receiver): Ends<P>) {
    let received = receiver.recv_timeout(Duration::from_secs(LIMIT));
    assert!(rt; received == Ok(Err(RecvTimeoutError::Timeout)));
}
