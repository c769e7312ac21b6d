//! Every short list of calls, and long lists from a fixed seed, on a store and on the plain one.
use super::{Both, Call, new_both};
use std::alloc::{AllocError, Global};
use std::test::Fail;

// The call for a digit below 12.
fn call_of_digit(digit: usize, msg: u8) -> Call {
    match digit {
        0 => Call::Push(msg),
        1 => Call::Read(0),
        2 => Call::Read(1),
        3 => Call::Pop,
        4 => Call::DropFirst,
        5 => Call::Grow,
        6 => Call::AddLike(0),
        7 => Call::AddAtEnd,
        8 => Call::Remove(0),
        9 => Call::Remove(1),
        10 => Call::Skip(0),
        _ => Call::Skip(1),
    }
}

// Whether four calls, chosen by the digits of a number, do the same on both.
fn short_list(both: &mut Both, alloc: Global, list: usize) -> Result<bool, AllocError> {
    let mut is = both.make(alloc, Call::AddAtEnd)?.1;
    is &= both.make(alloc, Call::Push(b'x'))?.1;
    let mut rest = list;
    for msg in 0..4 {
        is &= both.make(alloc, call_of_digit(rest % 12, msg))?.1;
        rest /= 12;
    }
    Ok(is)
}

// The call for a random number.
fn call_of(random: u64, msg: u8) -> Call {
    let receiver = (random >> 40) as usize;
    match random >> 60 {
        0..=5 => Call::Push(msg),
        6..=9 => Call::Read(receiver),
        10 => Call::Pop,
        11 => Call::AddLike(receiver),
        12 => Call::AddAtEnd,
        13 => Call::Remove(receiver),
        14 => Call::Skip(receiver),
        _ => Call::DropFirst,
    }
}

// The next random number.
fn next(random: u64) -> u64 {
    random
        .wrapping_mul(6364136223846793005)
        .wrapping_add(1442695040888963407)
}

// Whether 250 calls from this random number on do the same on both. Leaves the last random number.
fn long_list(both: &mut Both, alloc: Global, random: &mut u64) -> Result<bool, AllocError> {
    let mut is = true;
    for msg in 0..250 {
        *random = next(*random);
        is &= both.make(alloc, call_of(*random, msg))?.1;
    }
    Ok(is)
}

#[test]
fn every_short_list_of_calls(rt: HostRuntime) -> Result<(), Fail> {
    for list in 0..20736 {
        let mut both = new_both(rt.alloc(), 7, 2)?;
        assert!(rt; short_list(&mut both, rt.alloc(), list)?, "list {list}");
    }
    Ok(())
}

#[test]
fn long_lists_of_calls(rt: HostRuntime) -> Result<(), Fail> {
    let mut random = 20;
    for run in 0..40 {
        let mut both = new_both(rt.alloc(), 7, 3)?;
        assert!(rt; long_list(&mut both, rt.alloc(), &mut random)?, "run {run}");
    }
    Ok(())
}
