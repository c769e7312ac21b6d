//! Runs of threads.
ghost use Rattle.std.specs.Prelude.{◌≡◌};
ghost use Rattle.bcast_history.specs.Reader.{StartsAtTheFirst};

use crate::arguments::words_of;
use crate::cases::Runtime;
use crate::streams::Limited;
use bcast_history::{Channel, HistoryPort, Opened, TrackedReceiver, TrackedSender, broadcast};
use bcast_text::script::command::Command;
use bcast_text::threads::print_seen;
use bcast_threads::plan::{Plan, run as run_plan, threads};
use bcast_threads::work::{receive_all, send_all};
use linked_list_allocator::LocalHeap;
use std::alloc::Global;
use std::io;
use std::io::{BufWriter, Write};
use std::marker::Brand;
use std::sync::Wait;

/// Runs threads as each line asks `bcast` for, and others, and writes what is printed and how it
/// ends.
pub fn run<R: Runtime>(rt: &R, lines: &str, output: &mut Vec<u8>) -> io::Result<()> {
    for line in lines.lines() {
        one_order(rt, line, output)?;
    }
    no_thread(rt, output)?;
    write_fails(rt, output)?;
    compared(rt.alloc(), output)?;
    for its in [Row::Order, Row::Refused(100), Row::Refused(0), Row::Closed] {
        run_row(rt, its, output)?;
    }
    Ok(())
}

/// Runs the threads that a line asks for.
fn one_order<R: Runtime>(rt: &R, line: &str, output: &mut Vec<u8>) -> io::Result<()> {
    let words = words_of(rt.alloc(), line)?;
    match Command::from_words(words.as_slice()) {
        Some(Command::Threads(s, r, m)) => {
            let ending = threads(rt, rt.alloc(), s, r, m, output);
            writeln!(output, "-- {ending:?}")
        }
        _ => output.write_all(b"no threads\n"),
    }
}

/// Stacks for which there is no memory: for no receiver, and for no sender while receivers wait.
fn no_thread<R: Runtime>(rt: &R, output: &mut Vec<u8>) -> io::Result<()> {
    for (sender_stack, receiver_stack) in [(1 << 18, 1 << 50), (1 << 50, 1 << 18)] {
        let plan = Plan {
            senders: 2,
            receivers: 2,
            messages: 10,
            capacity: 16,
            sender_stack,
            receiver_stack,
        };
        let mut printed = Vec::new(rt.alloc());
        let ending = run_plan(rt, rt.alloc(), plan, &mut printed);
        writeln!(output, "-- {ending:?} after {} bytes", printed.len())?;
    }
    Ok(())
}

/// Writes that take 20 bytes at most, directly and through a buffer, and fail after some calls.
fn write_fails<R: Runtime>(rt: &R, output: &mut Vec<u8>) -> io::Result<()> {
    for calls in [0, 1, 2, 100] {
        let mut taker = Limited::new(Vec::new(rt.alloc()), 20, calls);
        let ending = threads(rt, rt.alloc(), 1, 2, 3, &mut taker);
        writeln!(output, "-- {ending:?} after {calls} writes")?;
        taker.calls = calls;
        let mut buffer = BufWriter::new(rt.alloc(), &mut taker)?;
        let ending = threads(rt, rt.alloc(), 1, 2, 3, &mut buffer);
        writeln!(output, "-- {ending:?} after {calls} writes of a buffer")?;
    }
    Ok(())
}

/// What receivers saw, and what is printed for it.
fn compared(alloc: Global, output: &mut Vec<u8>) -> io::Result<()> {
    for (first, second) in [
        ([0, 1, 2], [0, 1, 2]),
        ([1, 0, 2], [1, 0, 2]),
        ([0, 1, 2], [1, 0, 2]),
        ([0, 1, 1], [0, 1, 1]),
        ([0, 1, 3], [0, 1, 3]),
    ] {
        let mut lists: Vec<Vec<u64>> = Vec::new(alloc);
        lists.push(Vec::from_slice(alloc, &first)?)?;
        lists.push(Vec::from_slice(alloc, &second)?)?;
        let ending = print_seen(alloc, lists.as_slice(), 3, output);
        writeln!(output, "-- {ending:?} of {first:?} and {second:?}")?;
    }
    Ok(())
}

/// What is done on a channel of its own.
#[derive(Clone, Copy)]
enum Row {
    /// What a receiver received is in the order of receiving.
    Order,
    /// A receiver that is refused memory closes the channel, whether it takes memory for so many
    /// messages at first or for one after another, and another receiver can still read what it had
    /// to read.
    Refused(usize),
    /// A sender ends if the channel is closed.
    Closed,
}

fn run_row<R: Runtime>(rt: &R, row: Row, output: &mut Vec<u8>) -> io::Result<()> {
    let opened = Opened::new(rt.alloc(), 100)?;
    run_row_over::<Brand, R>(rt, opened, row, output)
}

fn run_row_over<J: Channel, R: Runtime>(
    rt: &R,
    opened: Opened<u64>,
    row: Row,
    output: &mut Vec<u8>,
) -> io::Result<()>
    requires { (opened.book ≡ J.book) × (opened.opening ≡ J.opening)
        × (opened.registry ≡ J.registry) }
{
    let (mut sender, mut receiver) = broadcast::<u64, R, J, _>(rt.clone()?, rt.alloc(), opened)?;
    match row {
        Row::Order => order(rt, rt.alloc(), &mut sender, &mut receiver, output),
        Row::Refused(count) => no_memory(rt, rt.alloc(), &mut sender, &mut receiver, count, output),
        Row::Closed => closed(&mut sender, &mut receiver, output),
    }
}

fn order<J: Channel, P: HistoryPort<u64, J>>(
    rt: &impl Wait,
    alloc: Global,
    sender: &mut TrackedSender<u64, P, J>,
    receiver: &mut TrackedReceiver<u64, P, J>,
    output: &mut Vec<u8>,
) -> io::Result<()>
    requires start { StartsAtTheFirst J.opening receiver.old.tracker }
{
    for msg in [2u64, 0, 1] {
        try_send(sender, msg, output)?;
    }
    sender.close();
    match receive_all(rt, alloc, receiver, 3) {
        Ok(log) => writeln!(output, "received {:?}", log.into_list().as_slice()),
        Err(fault) => writeln!(output, "{fault:?}"),
    }
}

fn no_memory<J: Channel, P: HistoryPort<u64, J>>(
    rt: &impl Wait,
    alloc: Global,
    sender: &mut TrackedSender<u64, P, J>,
    receiver: &mut TrackedReceiver<u64, P, J>,
    awaited: usize,
    output: &mut Vec<u8>,
) -> io::Result<()>
    requires start { StartsAtTheFirst J.opening receiver.old.tracker }
{
    for msg in 0..100u64 {
        try_send(sender, msg, output)?;
    }
    let Ok(mut other) = receiver.clone() else {
        return output.write_all(b"no clone\n");
    };
    let heap = LocalHeap::new(alloc, 64)?;
    let is_err = receive_all(rt, &heap, receiver, awaited).is_err();
    let is_closed = !other.close();
    let len = other.len();
    writeln!(output, "no memory {is_err}, closed {is_closed}, kept {len}")
}

fn try_send<J: Channel, P: HistoryPort<u64, J>>(
    sender: &mut TrackedSender<u64, P, J>,
    msg: u64,
    output: &mut Vec<u8>,
) -> io::Result<()> {
    if sender.try_broadcast(msg).is_err() {
        output.write_all(b"not sent\n")?;
    }
    Ok(())
}

fn closed<J: Channel, P: HistoryPort<u64, J>>(
    sender: &mut TrackedSender<u64, P, J>,
    receiver: &mut TrackedReceiver<u64, P, J>,
    output: &mut Vec<u8>,
) -> io::Result<()> {
    let Ok(other) = sender.clone() else {
        return output.write_all(b"no clone\n");
    };
    receiver.close();
    let sent = send_all(other, 0, 100);
    let kept = receiver.len();
    writeln!(output, "closed, and {} sent, {kept} kept", sent.end)
}
