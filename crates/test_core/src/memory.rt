//! Channels, runs and snapshots over heaps of every small size.
use crate::calls::{Channel, ask, channel};
use crate::heaps::{Outcome, refused_in_turn};
use bcast_core::{Call, HandleError, Inner, Snapshot, run};
use std::alloc::{AllocError, Allocator};
use std::test::Fail;

/// The most receivers that are made.
const MOST: usize = 9;

/// Makes receivers until there is no memory for one more.
fn add_receivers<A: Allocator + Copy>(inner: &mut Channel<A>, first: usize) -> Outcome {
    for count in 1..MOST {
        if let Err(error) = inner.clone_receiver(first) {
            let is_right = error == HandleError::Memory && inner.receiver_count() == count;
            return Outcome::Refused.if_right(is_right);
        }
    }
    Outcome::Done
}

/// Makes a channel and its receivers.
fn receivers<A: Allocator + Copy>(alloc: A) -> Result<Outcome, AllocError> {
    let (mut inner, first) = Inner::new(alloc, 4)?;
    Ok(add_receivers(&mut inner, first))
}

#[test]
fn a_channel_and_its_receivers_are_refused_in_turn(rt: HostRuntime) -> Result<(), AllocError> {
    refused_in_turn(&rt, rt.alloc(), |heap| receivers(heap))
}

/// Runs two calls, which are returned if that is refused memory.
fn run_two<A: Allocator + Copy>(alloc: A) -> Result<Outcome, AllocError> {
    let calls = vec![in alloc; Call::TryBroadcast(7), Call::Close]?;
    let made = run(alloc, 1, 0, calls);
    Ok(match &made {
        Ok(made) => { Outcome::Done.if_right(made.channel.is_closed() && made.replies.len() == 2) }
        Err(calls) => Outcome::Refused.if_right(matches!(
            calls.as_slice(),
            [Call::TryBroadcast(7), Call::Close]
        )),
    })
}

#[test]
fn a_refused_run_hands_its_calls_back(rt: HostRuntime) -> Result<(), AllocError> {
    refused_in_turn(&rt, rt.alloc(), |heap| run_two(heap))
}

/// Calls on a channel of capacity 2, which keeps 8 and 9 then. It has two receivers, one of which
/// waits, and a send that waits.
const CALLS: &[&str] = &[
    "CloneReceiver 0",
    "TryBroadcast 8",
    "TryRecv 1",
    "TryBroadcast 9",
    "TryRecv 1",
    "PollRecv 1",
    "BeginSend",
    "PollSend 0 7",
];

/// Whether this shows all of that channel.
fn is_whole<A: Allocator>(seen: &Snapshot<u64, A>) -> bool {
    seen.queue.as_slice() == [8, 9].as_slice()
        && seen.cursors.iter().map(|entry| entry.1).eq([0, 2])
        && seen.places.as_slice() == [0].as_slice()
        && seen.waiting_sends.ids.as_slice() == [0].as_slice()
        && seen.waiting_receives.ids.len() == 1
}

/// Makes a snapshot of that channel.
fn show<A: Allocator + Copy>(alloc: A, inner: &Channel) -> Outcome {
    match inner.snapshot(alloc) {
        Ok(seen) => Outcome::Done.if_right(is_whole(&seen)),
        Err(AllocError) => Outcome::Refused,
    }
}

#[test]
fn a_snapshot_is_refused_or_whole(rt: HostRuntime) -> Result<(), Fail> {
    let mut inner = channel(&rt, rt.alloc(), 2)?;
    for call in CALLS {
        drop(ask(rt.alloc(), &mut inner, call)?);
    }
    refused_in_turn(&rt, rt.alloc(), |heap| Ok(show(heap, &inner)))?;
    Ok(())
}
