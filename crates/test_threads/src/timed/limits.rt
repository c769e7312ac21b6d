//! What the calls return when nobody else makes one: each answer, at once or when the time is over.
use crate::hands::Hands;
use crate::scripts::{Change, Script, Step};
use crate::steps::{Ends, Host};
use async_broadcast::{RecvTimeoutError, SendTimeoutError, TimedPort, TryRecvError, broadcast};
use std::error::Error;
use std::test::Fail;
use std::time::{Duration, Instant};

/// Limits, in milliseconds.
const LIMITS: [u64; 2] = [0, 2];

/// Whether the time of a call must be over.
fn is_late(step: Step) -> bool {
    matches!(
        step,
        Step::SendInTime(_, Err(SendTimeoutError::Timeout(_)))
            | Step::ReceiveInTime(Err(RecvTimeoutError::Timeout))
    )
}

/// Each call must return its answer, and only if the time is over may it take as long as the limit.
fn play<P: TimedPort<u64>>(
    rt: &impl Host,
    ends: Ends<P>,
    limit: Duration,
    script: Script,
) -> Result<(), Fail> {
    let mut hands = Hands::both(rt.alloc(), ends)?;
    hands.limit = limit;
    for (index, step) in script.iter().enumerate() {
        let start = Instant::now(rt)?;
        assert!(rt; hands.make(rt, *step) == Some(true), "step {index}");
        let waited = start.elapsed(rt)? >= limit;
        assert!(rt; waited || !is_late(*step), "it waits for the whole time");
    }
    Ok(())
}

/// Makes the calls on a channel of capacity 1 with each of the limits.
fn play_all<R: Host>(rt: R, script: Script) -> Result<(), Fail> {
    for limit in LIMITS {
        let limit = Duration::from_millis(limit);
        play(&rt, broadcast(rt, rt.alloc(), 1)?, limit, script)?;
    }
    Ok(())
}

const SENDS: Script = &[
    Step::SendInTime(1, Ok(None)),
    Step::SendInTime(2, Err(SendTimeoutError::Timeout(2))),
    Step::Keeps(1),
    Step::Change(Change::Overflow),
    Step::SendInTime(3, Ok(Some(1))),
    Step::TryRecv(0, Err(TryRecvError::Overflowed(1))),
    Step::TryRecv(0, Ok(3)),
    Step::Change(Change::Deactivate),
    Step::SendInTime(4, Err(SendTimeoutError::Timeout(4))),
    Step::Change(Change::NoAwaiting),
    Step::SendInTime(5, Err(SendTimeoutError::Refused(5))),
    Step::Change(Change::DropInactive),
    Step::SendInTime(6, Err(SendTimeoutError::Refused(6))),
    Step::Keeps(0),
];

// What a send returns: accepted, with or without a message that it drops; no room; no receiver that
// is active; refused. When its time is over, its message is handed back and was not accepted.
#[test]
fn sends_return(rt: HostRuntime) -> Result<(), Fail> {
    play_all(rt, SENDS)
}

const RECEIVES: Script = &[
    Step::ReceiveInTime(Err(RecvTimeoutError::Timeout)),
    Step::Change(Change::Overflow),
    Step::TrySend(0, 1, Ok(None)),
    Step::TrySend(0, 2, Ok(Some(1))),
    Step::TrySend(0, 3, Ok(Some(2))),
    Step::ReceiveInTime(Err(RecvTimeoutError::Overflowed(2))),
    Step::ReceiveInTime(Ok(3)),
    Step::ReceiveInTime(Err(RecvTimeoutError::Timeout)),
    Step::Change(Change::DropSenders),
    Step::ReceiveInTime(Err(RecvTimeoutError::Closed)),
];

// What a receive returns: nothing, a message, how many it missed, the end.
#[test]
fn receives_return(rt: HostRuntime) -> Result<(), Fail> {
    play_all(rt, RECEIVES)
}

/// A message with neither a `Display` nor a `Debug`.
#[derive(Drop)]
struct Opaque;

/// Fails the test unless `{}` and `{:?}` print the error so.
fn expect_both<E: Error>(rt: &impl Host, error: &E, text: &str, debug: &str) {
    let printed = format!(in rt.alloc(); "{error}|{error:?}");
    let expected = format!(in rt.alloc(); "{text}|{debug}");
    assert!(rt; printed.is_ok() && printed.ok() == expected.ok(), "{text}");
}

// The errors print their texts, and hand the message back.
#[test]
fn errors_print(rt: HostRuntime) {
    expect_both(
        &rt,
        &RecvTimeoutError::Timeout,
        "receiving timed out",
        "Timeout",
    );
    let closed = "receiving from an empty and closed channel";
    expect_both(&rt, &RecvTimeoutError::Closed, closed, "Closed");
    let skipped = "receiving skipped 2 messages";
    expect_both(
        &rt,
        &RecvTimeoutError::Overflowed(2),
        skipped,
        "Overflowed(2)",
    );
    let late = SendTimeoutError::Timeout(Opaque);
    expect_both(&rt, &late, "sending timed out", "Timeout(..)");
    let refused = SendTimeoutError::Refused(Opaque);
    expect_both(
        &rt,
        &refused,
        "sending into a closed channel",
        "Refused(..)",
    );
    assert!(&rt; late.is_timeout() && !refused.is_timeout());
    assert!(&rt; RecvTimeoutError::Overflowed(1) != RecvTimeoutError::Overflowed(2));
    assert!(&rt; SendTimeoutError::Timeout(1) != SendTimeoutError::Timeout(2));
    assert!(&rt; SendTimeoutError::Timeout(7).into_inner() == 7);
    assert!(&rt; SendTimeoutError::Refused(8).into_inner() == 8);
}
