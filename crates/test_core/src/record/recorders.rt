//! Recorders, from `new` to `finish`, and their calls while memory is refused.
ghost use Rattle.std.specs.Prelude.{◌≡◌};

use super::entries::{RECEIVE, SEND, SEND_ALL, Step, are_entries};
use crate::heaps::{Outcome, refused_in_turn};
use bcast_core::NoMemory;
use bcast_record::{Journal, Named, Note, Receipt, Recorder, Seat};
use linked_list_allocator::LocalHeap;
use std::alloc::{AllocError, Global};
use std::marker::Brand;
use std::sync::Wait;
use std::sync::ledger::{Blank, Ledger};

/// The calls of a first seat, on a recorder of capacity 2 and two seats.
const CALLS: &[&[Step]] = &[
    &[SEND, RECEIVE],
    &[SEND_ALL],
    // These need memory for entries more than once.
    &[SEND, RECEIVE, SEND, RECEIVE, SEND, RECEIVE],
];

/// The size in bytes of a heap that has memory for a recorder and its entries.
const HEAP: usize = 4096;

/// So many bytes are enough for each call.
const ENOUGH: usize = 2048;

/// Makes calls on a recorder by a seat, and keeps their receipts.
#[derive(Drop)]
struct Caller<'a, 'h, R: Ledger + Named> {
    alloc: Global,
    heap: &'h LocalHeap,
    /// How many bytes of the heap are free when a call is first made.
    left: usize,
    recorder: &'a Recorder<u64, R, &'h LocalHeap>,
    seat: &'a mut Seat<R>,
    receipts: Vec<Receipt<u64, R>>,
}

/// What takes the memory of a heap, so that others can't.
type Blocks<'h> = Vec<Vec<u8, &'h LocalHeap>>;

impl<'h, R: Ledger + Named> Caller<'_, 'h, R> {
    /// Takes all memory but the bytes that are left.
    fn fill(&self) -> Result<Blocks<'h>, AllocError> {
        let _kept = Vec::<u8, &LocalHeap>::with_capacity(self.heap, self.left)?;
        let mut taken = Vec::new(self.alloc);
        for _ in 0..HEAP / 16 {
            match Vec::with_capacity(self.heap, 16) {
                Ok(block) => taken.push(block)?,
                Err(AllocError) => break,
            }
        }
        Ok(taken)
    }

    /// Makes a call of the first seat with little memory, and again with all of it if it is handed
    /// back.
    fn ask(&mut self, rt: &impl Wait, step: Step) -> Result<Outcome, AllocError> {
        let (count, taken) = (self.seat.count(), self.fill()?);
        let made = self.recorder.call(rt, self.seat, step.call(self.alloc)?);
        drop(taken);
        let (outcome, receipt) = match made {
            Ok(receipt) => (Outcome::Done, receipt),
            Err(NoMemory(back)) => {
                let is_back = self.seat.count() == count && step.is(self.alloc, &back);
                let made = self.recorder.call(rt, self.seat, back);
                (
                    Outcome::Refused.if_right(is_back),
                    made.ok().ok_or(AllocError)?,
                )
            }
        };
        let is_counted = receipt.place() == count && self.seat.count() == count.wrapping_add(1);
        let is_right = is_counted && step.is_stored(self.alloc, 0, receipt.entry());
        self.receipts.push(receipt)?;
        Ok(outcome.if_right(is_right))
    }

    /// Makes calls in order.
    fn ask_all(&mut self, rt: &impl Wait, steps: &[Step]) -> Result<Outcome, AllocError> {
        let mut was_refused = false;
        for step in steps {
            match self.ask(rt, *step)? {
                Outcome::Done => {}
                Outcome::Refused => was_refused = true,
                Outcome::Wrong => return Ok(Outcome::Wrong),
            }
        }
        Ok(if was_refused {
            Outcome::Refused
        } else {
            Outcome::Done
        })
    }
}

/// Whether the recorder and one of its two seats are returned, and this many entries when both are
/// given, those of the receipts.
fn finishes<'a, R: Ledger + Named>(
    recorder: Recorder<u64, R, &'a LocalHeap>,
    mut seats: Vec<Seat<R>, &'a LocalHeap>,
    calls: usize,
    receipts: &[Receipt<u64, R>],
) -> Result<bool, AllocError> {
    let second = seats.pop().ok_or(AllocError)?;
    let (recorder, mut seats) = recorder.finish(seats).err().ok_or(AllocError)?;
    let is_first = seats.len() == 1 && seats.iter().all(|seat| seat.number() == 0);
    seats.push(second)?;
    let finished = recorder.finish(seats).ok().ok_or(AllocError)?;
    let are_all = finished.entries().len() == calls;
    Ok(is_first && are_all && are_entries(&finished, 0, calls, receipts))
}

/// Makes calls on a new recorder on this heap, each with this many bytes of memory at first. The
/// recorder must have an entry for each at its end.
///
/// # Errors
///
/// - `AllocError`: there is no memory for the recorder.
fn record<R: Ledger + Named>(
    rt: &impl Wait,
    alloc: Global,
    heap: &LocalHeap,
    left: usize,
    steps: &[Step],
    calls: Blank,
    journal: Journal<Note<u64>>,
) -> Result<Outcome, AllocError>
    requires calls { (calls.name ≡ R.name) × (calls.parts ≡ R.parts) × (calls.parts ≡ 3) }
    requires journal { journal ≡ R.book }
{
    let (recorder, key, mut seats) = Recorder::<u64, R, &LocalHeap>::new(
        heap, 2, 2, calls, journal,
    )?;
    let is_new = key == 0 && seats.len() == 2;
    let mut caller = Caller {
        alloc,
        heap,
        left,
        recorder: &recorder,
        seat: seats.first_mut().ok_or(AllocError)?,
        receipts: Vec::new(alloc),
    };
    let outcome = caller.ask_all(rt, steps)?;
    let receipts = caller.receipts;
    let is_whole = finishes(recorder, seats, steps.len(), receipts.as_slice())?;
    Ok(outcome.if_right(is_new && is_whole))
}

fn record_on(
    rt: &impl Wait,
    alloc: Global,
    heap: &LocalHeap,
    left: usize,
    steps: &[Step],
) -> Result<Outcome, AllocError> {
    record::<Brand>(rt, alloc, heap, left, steps, Blank::new(3), Journal::new())
}

#[test]
fn a_refused_recorder_is_not_made(rt: HostRuntime) -> Result<(), AllocError> {
    let alloc = rt.alloc();
    refused_in_turn(
        &rt,
        alloc,
        |heap| match record_on(&rt, alloc, heap, 0, &[]) {
            Err(AllocError) => Ok(Outcome::Refused.if_right(heap.used() == 0)),
            outcome => outcome,
        },
    )
}

#[test]
fn a_recorder_gives_its_entries_once_all_seats_are_back(rt: HostRuntime) -> Result<(), AllocError> {
    for steps in CALLS {
        let heap = LocalHeap::new(rt.alloc(), HEAP)?;
        assert!(rt; record_on(&rt, rt.alloc(), &heap, ENOUGH, steps)? == Outcome::Done);
    }
    Ok(())
}

#[test]
fn a_refused_call_is_made_again(rt: HostRuntime) -> Result<(), AllocError> {
    for steps in CALLS {
        let mut was_refused = false;
        for left in 0..ENOUGH / 64 {
            let heap = LocalHeap::new(rt.alloc(), HEAP)?;
            let outcome = record_on(&rt, rt.alloc(), &heap, left * 64, steps)?;
            assert!(rt; outcome != Outcome::Wrong, "{left}");
            was_refused |= outcome == Outcome::Refused;
        }
        assert!(rt; was_refused, "a call was refused");
    }
    Ok(())
}
