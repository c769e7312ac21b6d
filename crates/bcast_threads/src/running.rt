//! The threads of a run: they are started over one channel, and joined.
ghost use Rattle.std.specs.Prelude.{◌≡◌, ◌+◌, All, IfOk, OnOk, vec_len};
ghost use Rattle.bcast_history.specs.Reader.{StartsAtTheFirst};

use crate::fault::Fault;
use crate::plan::Plan;
use crate::work::{Sent, receive_all, send_all};
use bcast_history::{Channel, HistoryPort, TrackedReceiver, TrackedSender, WholeLog};
use std::alloc::Global;
use std::sync::Wait;
use std::thread::{Builder, JoinHandle, Threads};

/// Threads that were started. It can't be dropped: the threads must be joined.
pub(crate) struct Running<J: Channel> {
    pub(crate) senders: Vec<JoinHandle<Sent<J>>>,
    pub(crate) receivers: Vec<JoinHandle<Result<WholeLog<u64, J>, Fault>>>,
}

impl<J: Channel + Send + Sync + 'static> Running<J> {
    /// No threads yet.
    pub(crate) fn new(alloc: Global) -> Self
        ensures { (vec_len result.senders ≡ 0) × (vec_len result.receivers ≡ 0) }
    {
        Running {
            senders: Vec::new(alloc),
            receivers: Vec::new(alloc),
        }
    }

    /// Starts the plan's receivers, and then its senders: clones of these two.
    pub(crate) fn start<R, P>(
        &mut self,
        rt: &R,
        alloc: Global,
        plan: Plan,
        sender: &mut TrackedSender<u64, P, J>,
        receiver: TrackedReceiver<u64, P, J>,
    ) -> Result<(), Fault>
    where
        R: Threads + Wait + Clone + Send + 'static,
        P: HistoryPort<u64, J> + Send + 'static,
        requires none { (vec_len self.old.senders ≡ 0) × (vec_len self.old.receivers ≡ 0) }
        requires start { StartsAtTheFirst J.opening receiver.tracker }
        ensures senders { OnOk result (vec_len self.new.senders ≡ plan.senders) }
        ensures receivers { OnOk result (vec_len self.new.receivers ≡ plan.receivers) }
    {
        let receivers = clones_of(alloc, receiver, plan.receivers)?;
        start_receivers(rt, alloc, plan, receivers, &mut self.receivers)?;
        for number in 0..plan.senders {
            let sender = sender.clone()?;
            let first = number.saturating_mul(plan.messages);
            start(rt, plan.sender_stack, &mut self.senders, move || {
                send_all(sender, first, plan.messages)
            })?;
        }
        Ok(())
    }

    /// Joins the threads that are left.
    pub(crate) fn join<R: Threads>(self, rt: &R) {
        let Running { senders, receivers } = self;
        for thread in receivers {
            let _ = thread.join(rt);
        }
        for thread in senders {
            let _ = thread.join(rt);
        }
    }
}

// Starts a thread for each of these receivers. These are the last ones then.
fn start_receivers<J, R, P>(
    rt: &R,
    alloc: Global,
    plan: Plan,
    mut receivers: Vec<TrackedReceiver<u64, P, J>>,
    running: &mut Vec<JoinHandle<Result<WholeLog<u64, J>, Fault>>>,
) -> Result<(), Fault>
where
    J: Channel + Send + Sync + 'static,
    R: Threads + Wait + Clone + Send + 'static,
    P: HistoryPort<u64, J> + Send + 'static,
    requires start { All (λ receiver. StartsAtTheFirst J.opening receiver.tracker) receivers.items }
    ensures { OnOk result (vec_len running.new ≡ vec_len running.old + vec_len receivers) }
{
    let total = plan.senders.saturating_mul(plan.messages) as usize;
    while let Some(mut receiver) = receivers.pop() {
        let its_rt = rt.clone()?;
        start(rt, plan.receiver_stack, running, move || {
            receive_all(&its_rt, alloc, &mut receiver, total)
        })?;
    }
    Ok(())
}

// Starts a thread that does this work, with this many bytes of stack. It is the last one then.
fn start<T: Send + Drop + 'static, R: Threads, F: FnOnce() -> T + Send + Drop + 'static>(
    rt: &R,
    stack: usize,
    running: &mut Vec<JoinHandle<T>>,
    work: F,
) -> Result<(), Fault>
    requires { F.pre work }
    ensures { OnOk result (vec_len running.new ≡ vec_len running.old + 1) }
{
    running.reserve(1)?;
    let thread = Builder::new().stack_size(stack).spawn(rt, work)?;
    running.push_reserved(thread);
    Ok(())
}

// This many clones of a receiver that has read nothing.
fn clones_of<J: Channel, P: HistoryPort<u64, J>>(
    alloc: Global,
    receiver: TrackedReceiver<u64, P, J>,
    count: u64,
) -> Result<Vec<TrackedReceiver<u64, P, J>>, Fault>
    requires start { StartsAtTheFirst J.opening receiver.tracker }
    ensures count { IfOk result (λ receivers. vec_len receivers ≡ count) }
    ensures start { IfOk result (λ receivers.
        All (λ receiver. StartsAtTheFirst J.opening receiver.tracker) receivers.items) }
{
    let mut receiver = receiver;
    let mut receivers = Vec::new(alloc);
    for _ in 0..count {
        receivers.push(receiver.clone()?)?;
    }
    Ok(receivers)
}
