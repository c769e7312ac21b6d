//! How many threads are run, and the run of them.
ghost use Rattle.std.specs.Prelude.{◌≢◌, ◌<◌, ◌≤◌, ◌*◌};
ghost use Rattle.std.specs.Io.KnownBytes.{Appends};
ghost use Rattle.bcast_text.specs.Outcome.{IsEnding, printed_text};

use crate::fault::Fault;
use crate::lists::lists_of;
use bcast_text::ending::Ending;
use bcast_text::threads::print_seen;
use std::alloc::Global;
use std::io::Write;
use std::sync::Wait;
use std::thread::Threads;

/// How many messages the channel of `threads` keeps.
const CAPACITY: usize = 16;

/// The bytes of each thread's stack.
const STACK: usize = 1 << 18;

/// What a run is made of.
#[derive(Clone, Copy, Debug, PartialEq, Eq)]
pub struct Plan {
    /// How many threads send.
    pub senders: u64,
    /// How many threads receive.
    pub receivers: u64,
    /// How many messages each sender sends.
    pub messages: u64,
    /// How many messages the channel keeps.
    pub capacity: usize,
    /// The bytes of the stack of each thread that sends.
    pub sender_stack: usize,
    /// The bytes of the stack of each thread that receives.
    pub receiver_stack: usize,
}

/// Lets so many senders send so many messages each, which are numbers, over one channel to so many
/// receivers, a thread each, and prints on `output` whether all receivers saw one order: the same
/// numbers, each of the `senders * messages` once.
///
/// Sender number i, from 0 on, sends the numbers from `i * messages` on in rising order. All
/// receivers are made before a thread starts.
///
/// Returns `Done` or `Differ` by what was seen. All receivers see the same list (`lists_of`), so
/// `Differ` says that it isn't each number once, or that a receiver missed messages. `NoThread` if
/// a thread could not be started, `NoMemory` if there was no memory: every started thread has ended
/// then too, and nothing was written; and `OutputFailed` if the write failed.
pub fn threads<R: Threads + Wait + Clone + Send + 'static, W: Write>(
    rt: &R,
    alloc: Global,
    senders: u64,
    receivers: u64,
    messages: u64,
    output: &mut W,
) -> Ending
    requires senders { (0 < senders) × (senders ≤ 64) }
    requires receivers { (0 < receivers) × (receivers ≤ 64) }
    requires messages { (0 < messages) × (messages ≤ 100000) }
    ensures ending { IsEnding result }
    ensures text { result ≢ Ending.OutputFailed → Appends (W.contents output.old)
        (W.contents output.new) (printed_text result receivers (senders * messages)) }
{
    let plan = Plan {
        senders,
        receivers,
        messages,
        capacity: CAPACITY,
        sender_stack: STACK,
        receiver_stack: STACK,
    };
    run(rt, alloc, plan, output)
}

/// Runs the threads of `plan`, as `threads` does.
pub fn run<R: Threads + Wait + Clone + Send + 'static, W: Write>(
    rt: &R,
    alloc: Global,
    plan: Plan,
    output: &mut W,
) -> Ending
    requires total { plan.senders * plan.messages ≤ 6400000 }
    requires capacity { 0 < plan.capacity }
    ensures ending { IsEnding result }
    ensures text { result ≢ Ending.OutputFailed → Appends (W.contents output.old)
        (W.contents output.new)
        (printed_text result plan.receivers (plan.senders * plan.messages)) }
{
    let total = plan.senders * plan.messages;
    match lists_of(rt, alloc, plan) {
        Ok(lists) => print_seen(alloc, lists.as_slice(), total, output),
        // Without lists there is no order that all receivers saw.
        Err(Fault::Missed) => print_seen(alloc, Vec::new(alloc).as_slice(), total, output),
        Err(Fault::NoMemory) => Ending::NoMemory,
        Err(Fault::NoThread) => Ending::NoThread,
    }
}
