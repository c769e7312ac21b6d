//! Threads over one recorder, whose calls are made again in one thread.
ghost use Rattle.std.specs.Prelude.{◌≡◌, ◌+◌, ◌<◌, ◌^◌};
ghost use Rattle.bcast_model.specs.Next.{HasPositiveCapacity};

use super::entries::are_entries;
use bcast_core::{Call, Inner, Reply, Silent, step};
use bcast_record::{Finished, Journal, Named, Note, Receipt, Recorder, Seat};
use std::alloc::{AllocError, Global};
use std::marker::Brand;
use std::sync::Wait;
use std::sync::ledger::{Blank, Ledger};
use std::thread::{Threads, map_vec};

/// Which calls the seats make.
#[derive(Clone, Copy)]
enum Work {
    /// The first two seats send, and the others receive.
    Halves,
    /// Each seat sends, receives, makes receivers, sets a capacity and drops receivers in turn.
    Busy,
}

/// How many seats a recorder of this capacity has, and how many calls each of them makes.
#[derive(Clone, Copy)]
struct Plan {
    capacity: usize,
    seats: usize,
    calls: usize,
    work: Work,
}

/// A seat, and the receipts of its calls in order.
#[derive(Drop)]
struct Asked<R: Ledger + Named> {
    seat: Seat<R>,
    receipts: Vec<Receipt<u64, R>>,
}

/// Seats, and the receipts of each.
type Parted<R> = (Vec<Seat<R>>, Vec<Vec<Receipt<u64, R>>>);

/// The call of this index of a seat, on a channel whose first receiver has this key. `made` has the
/// receivers that the seat made and didn't drop.
fn call_of(work: Work, seat: usize, index: usize, key: usize, made: &mut Vec<usize>) -> Call<u64>
    ensures { HasPositiveCapacity result }
{
    let msg = seat.wrapping_mul(1000).wrapping_add(index) as u64;
    match work {
        Work::Halves if seat < 2 => Call::TryBroadcast(msg),
        Work::Halves => Call::TryRecv(key),
        Work::Busy => match seat.wrapping_add(index) % 5 {
            0 => Call::TryBroadcast(msg),
            1 => Call::TryRecv(key),
            2 => Call::CloneReceiver(key),
            3 => Call::SetCapacity(1 + index % 3),
            _ => made.pop().map_or(Call::Len, |key| Call::DropReceiver(key)),
        },
    }
}

/// Keeps the key of a receiver that was made.
fn keep_key(made: &mut Vec<usize>, reply: &Reply<u64>) {
    if let Reply::CloneReceiver(Ok(key)) = reply {
        let _kept = made.push(*key);
    }
}

/// Makes a seat's calls. A receipt for which there is no memory is missing later.
fn ask<R: Ledger + Named>(
    rt: &impl Wait,
    alloc: Global,
    recorder: &Recorder<u64, R>,
    key: usize,
    plan: Plan,
    mut seat: Seat<R>,
) -> Asked<R> {
    let mut made = Vec::new(alloc);
    let mut receipts = Vec::new(alloc);
    for index in 0..plan.calls {
        let call = call_of(plan.work, seat.number(), index, key, &mut made);
        if let Ok(receipt) = recorder.call(rt, &mut seat, call) {
            keep_key(&mut made, &receipt.entry().reply);
            let _kept = receipts.push(receipt);
        }
    }
    Asked { seat, receipts }
}

/// Whether a call, made again, gets the reply that was stored.
fn is_same(inner: &mut Inner<u64, Silent>, call: Call<u64>, stored: &Reply<u64>) -> bool {
    match call {
        // This call is never made.
        Call::SetCapacity(0) => false,
        call => step(inner, call, Silent) == *stored,
    }
}

/// Whether the calls, made again in one thread, get the replies that were stored.
fn replays<R: Ledger + Named>(
    alloc: Global,
    finished: &Finished<u64, R>,
) -> Result<bool, AllocError> {
    let opening = finished.opening();
    let (mut inner, key) = Inner::new(alloc, opening.capacity)?;
    let mut is_all_same = key == opening.first_key;
    let calls = finished.calls(alloc)?;
    is_all_same &= calls.len() == finished.entries().len();
    for (call, entry) in calls.into_iter().zip(finished.entries()) {
        is_all_same &= is_same(&mut inner, call, &entry.reply);
    }
    Ok(is_all_same)
}

/// Whether the entries are those of the receipts, and one thread gets the same replies.
fn is_whole<R: Ledger + Named>(
    alloc: Global,
    finished: &Finished<u64, R>,
    plan: Plan,
    lists: &[Vec<Receipt<u64, R>>],
) -> Result<bool, AllocError> {
    let mut seats = lists.iter().enumerate();
    let are_entries = seats.all(|(seat, list)| are_entries(
        finished,
        seat,
        plan.calls,
        list.as_slice(),
    ));
    let count = plan.seats.saturating_mul(plan.calls);
    Ok(are_entries && finished.entries().len() == count && replays(alloc, finished)?)
}

/// The seats, and the receipts of each.
fn part<R: Ledger + Named>(alloc: Global, asked: Vec<Asked<R>>) -> Result<Parted<R>, AllocError> {
    let (mut seats, mut lists) = (Vec::new(alloc), Vec::new(alloc));
    for Asked { seat, receipts } in asked {
        seats.push(seat)?;
        lists.push(receipts)?;
    }
    Ok((seats, lists))
}

/// Threads use one recorder, each with a seat of its own, and one thread makes their calls again.
fn record<R: Ledger + Named + Send + Sync>(
    rt: &(impl Threads + Wait + Sync),
    alloc: Global,
    plan: Plan,
    calls: Blank,
    journal: Journal<Note<u64>>,
) -> Result<bool, AllocError>
    requires capacity { 0 < plan.capacity }
    requires calls { (calls.name ≡ R.name) × (calls.parts ≡ R.parts)
        × (calls.parts ≡ plan.seats + 1) }
    requires journal { journal ≡ R.book }
{
    let (recorder, key, seats) = Recorder::<u64, R>::new(
        alloc,
        plan.capacity,
        plan.seats,
        calls,
        journal,
    )?;
    let asked = map_vec(
        rt,
        seats,
        &|seat| ask(rt, alloc, &recorder, key, plan, seat),
    )?;
    let (seats, lists) = part(alloc, asked)?;
    match recorder.finish(seats) {
        Ok(finished) => is_whole(alloc, &finished, plan, lists.as_slice()),
        Err(_) => Err(AllocError),
    }
}

/// Whether threads record this, and one thread gets the same replies.
fn is_replayed(
    rt: &(impl Threads + Wait + Sync),
    alloc: Global,
    plan: Plan,
) -> Result<bool, AllocError>
    requires capacity { 0 < plan.capacity }
    requires seats { plan.seats + 1 < 2 ^ 64 }
{
    record::<Brand>(
        rt,
        alloc,
        plan,
        Blank::new(plan.seats as u64 + 1),
        Journal::new(),
    )
}

#[test]
fn busy(rt: HostRuntime) -> Result<(), AllocError> {
    let plan = Plan {
        capacity: 2,
        seats: 8,
        calls: 500,
        work: Work::Busy,
    };
    assert!(rt; is_replayed(&rt, rt.alloc(), plan)?);
    Ok(())
}

#[test]
fn seats(rt: HostRuntime) -> Result<(), AllocError> {
    let plan = Plan {
        capacity: 8,
        seats: 4,
        calls: 1000,
        work: Work::Halves,
    };
    assert!(rt; is_replayed(&rt, rt.alloc(), plan)?);
    Ok(())
}
