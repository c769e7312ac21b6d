//! What each thread does with its handle.
ghost use Rattle.std.specs.Prelude.{◌≡◌, true, IfErr};
ghost use Rattle.bcast_history.specs.History.{end_of};
ghost use Rattle.bcast_history.specs.Reader.{StartsAtTheFirst};
ghost use Rattle.bcast_threads.specs.Lists.{WereSent};

use crate::fault::Fault;
use bcast_history::{
    Channel, HistoryPort, Seen, TrackedReceiver, TrackedSender, WholeLog, sends_stand_last,
};
use std::alloc::Allocator;
use std::sync::Wait;

/// The numbers that a sender sent: from `first` on, up to the one before `end`. The channel had
/// accepted them before it was closed.
#[derive(Drop)]
pub struct Sent<J: Channel> {
    pub first: u64,
    pub end: u64,
    pub seen: Seen<u64, J>,
    ghost were: { WereSent J.opening first end seen },
}

/// Sends `count` numbers from `first` on, in rising order, until one is refused. Returns those that
/// it sent.
pub fn send_all<J: Channel, P: HistoryPort<u64, J>>(
    sender: TrackedSender<u64, P, J>,
    first: u64,
    count: u64,
) -> Sent<J>
    ensures { result.first ≡ first }
{
    sends_stand_last::<u64>();
    let mut sender = sender;
    let mut end = first;
    for msg in first..first.saturating_add(count) {
        if sender.broadcast_blocking(msg).is_err() {
            break;
        }
        end = msg + 1;
    }
    sender.invariant_holds();
    let seen = sender.seen();
    Sent { first, end, seen }
}

/// Returns what the receiver receives until the channel is closed. It has read nothing before.
///
/// Memory for `count` messages is taken before the first one is received.
///
/// # Errors
///
/// Each closes the channel.
///
/// - `NoMemory`: there was no memory for a message, or for the list.
/// - `Missed`: the receiver missed messages.
pub fn receive_all<J: Channel, P: HistoryPort<u64, J>, A: Allocator>(
    rt: &impl Wait,
    alloc: A,
    receiver: &mut TrackedReceiver<u64, P, J>,
    count: usize,
) -> Result<WholeLog<u64, J, A>, Fault>
    requires start { StartsAtTheFirst J.opening receiver.old.tracker }
    ensures closed { IfErr result (λ _.
        (end_of J.opening receiver.new.tracker.steps).control.closed ≡ true) }
{
    match receiver.recv_all_blocking(rt, alloc, count) {
        Ok(log) => Ok(log),
        Err(cut) => {
            receiver.close();
            cut.missed?;
            Err(Fault::Missed)
        }
    }
}
