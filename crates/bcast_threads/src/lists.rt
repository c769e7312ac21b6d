//! The lists of a run: what each receiver received.
ghost use Rattle.std.specs.Prelude.{◌≡◌, ◌<◌, IfOk, All, length, vec_len};
ghost use Rattle.std.specs.Bool.{OnTrue};
ghost use Rattle.bcast_threads.specs.Lists.{AreLists, HasAll};

use crate::fault::Fault;
use crate::plan::Plan;
use crate::running::Running;
use bcast_history::{Channel, Opened, WholeLog, broadcast};
use std::alloc::Global;
use std::marker::Brand;
use std::sync::Wait;
use std::thread::Threads;

/// Runs the plan's threads to their end, and returns what each receiver received: all that the
/// channel accepted, so all lists are the same. Each number that was to be sent is there once.
///
/// # Errors
///
/// After each, every thread that was started has ended.
///
/// - `NoMemory`: there was no memory, in this thread or another. The channel, if any, was closed.
/// - `NoThread`: a thread could not be started. The channel was closed.
/// - `Missed`: a receiver did not receive all that the channel accepted, or the numbers that it
///   accepted are not those that were to be sent, or the plan has no receiver.
pub fn lists_of<R: Threads + Wait + Clone + Send + 'static>(
    rt: &R,
    alloc: Global,
    plan: Plan,
) -> Result<Vec<Vec<u64>>, Fault>
    requires { 0 < plan.capacity }
    ensures { IfOk result (λ lists. AreLists plan (λ list. list.items) lists.items) }
{
    let opened = Opened::new(alloc, plan.capacity)?;
    lists_over::<Brand, R>(rt, alloc, plan, opened)
}

// Runs the threads over this channel. Once its two handles are dropped here, no sender is left but
// those of threads, so the channel is closed in the end, and all threads end.
fn lists_over<J: Channel + Send + Sync + 'static, R: Threads + Wait + Clone + Send + 'static>(
    rt: &R,
    alloc: Global,
    plan: Plan,
    opened: Opened<u64>,
) -> Result<Vec<Vec<u64>>, Fault>
    requires name { (opened.book ≡ J.book) × (opened.opening ≡ J.opening)
        × (opened.registry ≡ J.registry) }
    ensures { IfOk result (λ lists. AreLists plan (λ list. list.items) lists.items) }
{
    let its_rt = rt.clone()?;
    let (mut sender, receiver) = broadcast::<u64, R, J, _>(its_rt, alloc, opened)?;
    let mut threads = Running::new(alloc);
    let started = threads.start(rt, alloc, plan, &mut sender, receiver);
    if started.is_err() {
        sender.close();
    }
    drop(sender);
    let lists = match started {
        Ok(()) => lists_received(rt, alloc, plan, &mut threads),
        Err(fault) => Err(fault),
    };
    threads.join(rt);
    lists
}

/// What the receivers received, if each number that was to be sent was sent, and nothing else.
fn lists_received<J: Channel, R: Threads>(
    rt: &R,
    alloc: Global,
    plan: Plan,
    threads: &mut Running<J>,
) -> Result<Vec<Vec<u64>>, Fault>
    requires { vec_len threads.old.receivers ≡ plan.receivers }
    ensures { IfOk result (λ lists. AreLists plan (λ list. list.items) lists.items) }
{
    let thread = threads.receivers.pop().ok_or(Fault::Missed)?;
    let log = thread.join(rt)?;
    let total = plan
        .senders
        .checked_mul(plan.messages)
        .ok_or(Fault::Missed)?;
    let are_sent = are_all_sent(rt, threads, &log, total);
    let mut lists = other_lists(rt, alloc, threads, &log)?;
    let list = log.into_list();
    if !are_sent || list.len() as u64 != total {
        return Err(Fault::Missed);
    }
    lists.push(list)?;
    Ok(lists)
}

/// Whether the senders sent each number below `total`: if so, they are in this log. Joins them.
fn are_all_sent<J: Channel, R: Threads>(
    rt: &R,
    threads: &mut Running<J>,
    log: &WholeLog<u64, J>,
    total: u64,
) -> bool
    ensures sent { OnTrue result (HasAll 0 total log.now.list) }
    ensures receivers { threads.new.receivers ≡ threads.old.receivers }
{
    log.invariant_holds();
    // The numbers from here on were sent. The sender that was started last sent the last ones.
    let mut first = total;
    while let Some(thread) = threads.senders.pop() {
        let sent = thread.join(rt);
        let mut both = log.seen();
        both.learn(&sent.seen);
        if sent.end == first {
            first = sent.first;
        }
    }
    first == 0
}

/// What the other receivers received: the same as this one's log has.
fn other_lists<J: Channel, R: Threads>(
    rt: &R,
    alloc: Global,
    threads: &mut Running<J>,
    log: &WholeLog<u64, J>,
) -> Result<Vec<Vec<u64>>, Fault>
    ensures count { IfOk result (λ lists. length lists.items ≡ vec_len threads.old.receivers) }
    ensures same { IfOk result (λ lists. All (λ list. list.items ≡ log.now.list) lists.items) }
{
    let mut lists = Vec::new(alloc);
    while let Some(thread) = threads.receivers.pop() {
        let other = thread.join(rt)?;
        log.agrees_with(&other);
        lists.push(other.into_list())?;
    }
    Ok(lists)
}
