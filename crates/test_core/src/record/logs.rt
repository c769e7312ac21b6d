//! Logs: what they store, and what they refuse while there is no memory for an entry.
ghost use Rattle.std.specs.Prelude.{◌≡◌};

use super::entries::{CLOSE, RECEIVE, SEND, SEND_ALL, SEND_TOO_MANY, Step};
use crate::heaps::{Outcome, refused_in_turn};
use bcast_core::NoMemory;
use bcast_record::{Journal, Log, Named, Note, Seat};
use linked_list_allocator::LocalHeap;
use std::alloc::{AllocError, Global};
use std::marker::Brand;
use std::sync::ledger::{Blank, Ledger};

/// Calls on a new log of capacity 2 and two seats, each with the seat's number.
type Play<'a> = &'a [(usize, Step)];

const PLAYS: &[Play<'static>] = &[
    &[(0, SEND), (1, RECEIVE), (0, CLOSE)],
    &[(0, SEND_ALL), (0, SEND_TOO_MANY)],
];

/// Makes a call, which is stored behind the others, with its reply, or else handed back.
fn store<R: Ledger + Named>(
    alloc: Global,
    log: &mut Log<u64, R, &LocalHeap>,
    seat: &mut Seat<R>,
    number: usize,
    call: Step,
) -> Result<Outcome, AllocError> {
    let (place, count) = (log.entries().len(), seat.count());
    let made = log.step(seat, call.call(alloc)?);
    let added = usize::from(made.is_ok());
    let counts = (log.entries().len(), seat.count());
    let are_right = counts == (place.wrapping_add(added), count.wrapping_add(added));
    Ok(match &made {
        Ok(receipt) => Outcome::Done.if_right(
            are_right && receipt.place() == place && call.is_stored(alloc, number, receipt.entry()),
        ),
        Err(NoMemory(back)) => Outcome::Refused.if_right(are_right && call.is(alloc, back)),
    })
}

/// Makes calls on a new log, in order, until one is handed back.
fn store_all<R: Ledger + Named>(
    alloc: Global,
    log: &mut Log<u64, R, &LocalHeap>,
    seats: &mut [Seat<R>],
    play: Play<'_>,
) -> Result<Outcome, AllocError> {
    let mut outcome = Outcome::Done;
    for (number, call) in play {
        let seat = seats.get_mut(*number).ok_or(AllocError)?;
        outcome = store(alloc, log, seat, *number, *call)?;
        if outcome != Outcome::Done {
            break;
        }
    }
    let entries = log.entries();
    let mut pairs = entries.iter().zip(play);
    let are_stored = pairs.all(|(entry, (number, call))| call.is_stored(alloc, *number, entry));
    let are_all = entries.len() == play.len();
    Ok(outcome.if_right(are_stored && are_all == (outcome == Outcome::Done)))
}

/// Makes calls on a new log on this heap. If `is_full_first`, the first is also made before, while
/// the heap is full, and must be handed back.
fn store_on_new<R: Ledger + Named>(
    alloc: Global,
    heap: &LocalHeap,
    is_full_first: bool,
    play: Play<'_>,
    calls: Blank,
    journal: Journal<Note<u64>>,
) -> Result<Outcome, AllocError>
    requires calls { (calls.name ≡ R.name) × (calls.parts ≡ R.parts) × (calls.parts ≡ 3) }
    requires journal { journal ≡ R.book }
{
    let (mut log, _, mut seats) = Log::<u64, R, &LocalHeap>::new(heap, 2, 2, calls, journal)?;
    if is_full_first {
        let _rest = Vec::<u8, &LocalHeap>::with_capacity(heap, heap.free())?;
        let outcome = store_all(alloc, &mut log, seats.as_mut_slice(), play)?;
        if outcome != Outcome::Refused || !log.entries().is_empty() {
            return Ok(Outcome::Wrong);
        }
    }
    store_all(alloc, &mut log, seats.as_mut_slice(), play)
}

/// Makes calls on a new log on this heap.
///
/// # Errors
///
/// - `AllocError`: there is no memory for the log.
fn store_on(
    alloc: Global,
    heap: &LocalHeap,
    is_full_first: bool,
    play: Play<'_>,
) -> Result<Outcome, AllocError> {
    store_on_new::<Brand>(
        alloc,
        heap,
        is_full_first,
        play,
        Blank::new(3),
        Journal::new(),
    )
}

#[test]
fn a_log_stores_each_call_with_its_reply(rt: HostRuntime) -> Result<(), AllocError> {
    for play in PLAYS {
        let heap = LocalHeap::new(rt.alloc(), 4096)?;
        assert!(rt; store_on(rt.alloc(), &heap, false, play)? == Outcome::Done);
    }
    Ok(())
}

#[test]
fn a_refused_call_was_not_made(rt: HostRuntime) -> Result<(), AllocError> {
    let heap = LocalHeap::new(rt.alloc(), 4096)?;
    assert!(rt; store_on(rt.alloc(), &heap, true, &[(0, SEND)])? == Outcome::Done);
    Ok(())
}

#[test]
fn a_log_and_its_calls_are_refused_in_turn(rt: HostRuntime) -> Result<(), AllocError> {
    let alloc = rt.alloc();
    refused_in_turn(&rt, alloc, |heap| {
        store_on(alloc, heap, false, &[(0, SEND), (0, RECEIVE)])
    })
}
