//! A log: producers write records from threads of their own, and each consumer reads all of them,
//! one by one or all that are there at once.
use anyhow::Result;
use async_broadcast::{Port, Receiver, RecvError, Sender, broadcast};
use std::alloc::{AllocError, AllocGlobal};
use std::sync::Wait;
use std::thread;
use std::thread::Threads;

/// How many records each producer writes.
const RECORDS: u64 = 200;

/// What a consumer saw.
#[derive(Clone, Copy, Default)]
struct Seen {
    records: u64,
    missed: u64,
}

/// Writes the first records. They are next to one another in the log, or none is written.
fn begin<T: Clone, P: Port<T>>(log: &Sender<T, P>, header: Vec<T>) -> bool {
    log.try_broadcast_all(header).is_ok()
}

fn produce<P: Port<u64>>(log: Sender<u64, P>, first: u64) {
    for record in first..first.saturating_add(RECORDS) {
        if log.broadcast_blocking(record).is_err() {
            break;
        }
    }
}

/// Reads until the last producer's sender is dropped.
fn consume<T: Clone, P: Port<T>>(
    rt: &impl Wait,
    mut log: Receiver<T, P>,
) -> Result<Seen, AllocError> {
    let mut seen = Seen::default();
    for received in log.iter(rt) {
        match received? {
            Ok(_) => seen.records = seen.records.saturating_add(1),
            Err(RecvError::Overflowed(n)) => seen.missed = seen.missed.saturating_add(n),
            Err(RecvError::Closed) => break,
        }
    }
    Ok(seen)
}

/// Reads as `consume` does, but all records that are there at once.
fn consume_batches<T: Clone, P: Port<T>>(
    rt: &(impl Wait + AllocGlobal),
    mut log: Receiver<T, P>,
) -> Result<Seen, AllocError> {
    let mut seen = Seen::default();
    let mut records = Vec::new(rt.alloc());
    for _ in rt.forever() {
        match log.recv_many_blocking(usize::MAX, &mut records)? {
            Ok(count) => seen.records = seen.records.saturating_add(count as u64),
            Err(RecvError::Overflowed(n)) => seen.missed = seen.missed.saturating_add(n),
            Err(RecvError::Closed) => break,
        }
        records.clear();
    }
    Ok(seen)
}

pub fn run<R>(rt: R) -> Result<()>
where
    R: Threads + Wait + AllocGlobal + Print + Copy + Send + Drop + 'static,
{
    let (log, one) = broadcast(rt, rt.alloc(), 8)?;
    fan_out(rt, log, one)
}

/// Starts two producers and a consumer, and is the other consumer.
fn fan_out<R, P>(rt: R, log: Sender<u64, P>, one: Receiver<u64, P>) -> Result<()>
where
    R: Threads + Wait + AllocGlobal + Print + Copy + Send + Drop + 'static,
    P: Port<u64> + Send + 'static,
{
    write_header(&rt, &log)?;
    let two = one.clone()?;
    let other = log.clone()?;

    let first = thread::spawn(&rt, move || produce(log, 0))?;
    let second = thread::spawn(&rt, move || produce(other, RECORDS))?;
    let reading = thread::spawn(&rt, move || consume_batches(&rt, one))?;
    let seen = consume(&rt, two)?;
    first.join(&rt);
    second.join(&rt);
    let other_seen = reading.join(&rt)?;
    report(&rt, "one consumer", seen)?;
    report(&rt, "the other", other_seen)
}

fn write_header<P: Port<u64>>(rt: &(impl AllocGlobal + Print), log: &Sender<u64, P>) -> Result<()> {
    let header = vec![in rt.alloc(); 1_000, 1_001, 1_002]?;
    println!(rt; "header written whole: {}", begin(log, header))?;
    Ok(())
}

fn report(rt: &impl Print, who: &str, seen: Seen) -> Result<()> {
    println!(rt; "{who}: {} records, {} missed", seen.records, seen.missed)?;
    Ok(())
}
