//! What each error prints. The message is of a type that prints nothing itself.
use bcast_core::{HandleError, NoMemory, RecvError, SendError, TryRecvError, TrySendError};
use std::alloc::Global;
use std::error::Error;
use std::process::Abort;

/// A message with neither a `Display` nor a `Debug`.
#[derive(Clone, Copy)]
struct Opaque;

/// Whether `{}` prints the error so.
fn displays<E: Error>(alloc: Global, error: &E, text: &str) -> bool {
    format!(in alloc; "{error}").is_ok_and(|printed| printed.as_str() == text)
}

/// Fails the test unless `{}` and `{:?}` print the error so.
fn expect_both<E: Error>(rt: &impl Abort, alloc: Global, error: &E, display: &str, debug: &str) {
    assert!(rt; displays(alloc, error, display), "{display}");
    let printed = format!(in alloc; "{error:?}");
    assert!(rt; printed.is_ok_and(|text| text.as_str() == debug), "{debug}");
}

#[test]
fn send_errors_print(rt: HostRuntime) {
    let alloc = rt.alloc();
    let void = "sending into the void (no active receivers)";
    let full = "sending into a full channel";
    let closed = "sending into a closed channel";
    let memory = "out of memory";
    for (error, display, debug) in [
        (TrySendError::Full(Opaque), full, "Full(..)"),
        (TrySendError::Closed(Opaque), closed, "Closed(..)"),
        (TrySendError::Inactive(Opaque), void, "Inactive(..)"),
    ] {
        expect_both(&rt, alloc, &error, display, debug);
    }
    expect_both(&rt, alloc, &SendError(Opaque), closed, "SendError(..)");
    expect_both(&rt, alloc, &NoMemory(Opaque), memory, "NoMemory(..)");
}

const TRY_RECV: &[(TryRecvError, &str)] = &[
    (
        TryRecvError::Overflowed(0),
        "receiving operation observed 0 lost messages",
    ),
    (
        TryRecvError::Overflowed(1),
        "receiving operation observed 1 lost messages",
    ),
    (TryRecvError::Empty, "receiving from an empty channel"),
    (
        TryRecvError::Closed,
        "receiving from an empty and closed channel",
    ),
];

const RECV: &[(RecvError, &str)] = &[
    (RecvError::Overflowed(2), "receiving skipped 2 messages"),
    (
        RecvError::Overflowed(u64::MAX),
        "receiving skipped 18446744073709551615 messages",
    ),
    (
        RecvError::Closed,
        "receiving from an empty and closed channel",
    ),
];

const HANDLE: &[(HandleError, &str)] = &[
    (HandleError::Memory, "no memory for a handle"),
    (HandleError::TooMany, "too many handles"),
    (HandleError::Gone, "no such handle"),
];

/// Fails the test unless each error is printed as its text.
fn expect_texts<E: Error>(rt: &impl Abort, alloc: Global, rows: &[(E, &str)]) {
    for (error, text) in rows {
        assert!(rt; displays(alloc, error, text), "{text}");
    }
}

#[test]
fn other_errors_display(rt: HostRuntime) {
    expect_texts(&rt, rt.alloc(), TRY_RECV);
    expect_texts(&rt, rt.alloc(), RECV);
    expect_texts(&rt, rt.alloc(), HANDLE);
}
