//! What the functions of each error return, which message it gives back, and what it equals.
use bcast_core::{HandleError, NoMemory, RecvError, SendError, TryRecvError, TrySendError};
use std::alloc::AllocError;
use std::process::Abort;
use std::string::String;

/// Errors, the message that each gives back, and whether it is full, closed, inactive.
const SENDING: &[(TrySendError<u64>, u64, [bool; 3])] = &[
    (TrySendError::Full(1), 1, [true, false, false]),
    (TrySendError::Closed(2), 2, [false, true, false]),
    (TrySendError::Inactive(3), 3, [false, false, true]),
];

/// Errors, and whether each is empty, closed, overflowed.
const RECEIVING: &[(TryRecvError, [bool; 3])] = &[
    (TryRecvError::Empty, [true, false, false]),
    (TryRecvError::Closed, [false, true, false]),
    (TryRecvError::Overflowed(0), [false, false, true]),
    (TryRecvError::Overflowed(2), [false, false, true]),
];

#[test]
fn one_test_of_an_error_is_true(rt: HostRuntime) {
    for (index, (error, _, answers)) in SENDING.iter().enumerate() {
        let given = [error.is_full(), error.is_closed(), error.is_disconnected()];
        assert!(rt; given == *answers, "{index}");
    }
    for (index, (error, answers)) in RECEIVING.iter().enumerate() {
        let given = [error.is_empty(), error.is_closed(), error.is_overflowed()];
        assert!(rt; given == *answers, "{index}");
    }
}

#[test]
fn messages_come_back(rt: HostRuntime) {
    for (error, msg, _) in SENDING {
        assert!(rt; error.into_inner() == *msg);
    }
    assert!(rt; SendError(4).into_inner() == 4);
    assert!(rt; NoMemory(5).into_inner() == 5);
}

#[test]
fn texts_come_back_from_a_clone(rt: HostRuntime) -> Result<(), AllocError> {
    let sent = SendError(String::from_str(rt.alloc(), "to all")?);
    assert!(rt; sent.clone()?.into_inner().as_str() == "to all");
    assert!(rt; sent.into_inner().as_str() == "to all");
    Ok(())
}

/// Fails the test unless a copy and a clone of the error equal it, and the other doesn't.
fn expect_equal_to_copies<E: Copy + PartialEq>(
    rt: &impl Abort,
    error: E,
    other: E,
) -> Result<(), AllocError> {
    let copy = error;
    assert!(rt; error.clone()? == copy && copy == error && error != other);
    Ok(())
}

#[test]
fn copies_are_equal_and_others_differ(rt: HostRuntime) -> Result<(), AllocError> {
    expect_equal_to_copies(&rt, TrySendError::Full(1), TrySendError::Full(2))?;
    expect_equal_to_copies(&rt, TrySendError::Full(1), TrySendError::Closed(1))?;
    expect_equal_to_copies(&rt, SendError(1), SendError(2))?;
    expect_equal_to_copies(&rt, NoMemory(1), NoMemory(2))?;
    expect_equal_to_copies(&rt, TryRecvError::Overflowed(0), TryRecvError::Empty)?;
    expect_equal_to_copies(&rt, RecvError::Overflowed(1), RecvError::Overflowed(2))?;
    expect_equal_to_copies(&rt, HandleError::Gone, HandleError::Memory)?;
    Ok(())
}
