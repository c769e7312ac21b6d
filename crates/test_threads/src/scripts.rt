//! Scripts are lists of calls on the handles of a thread. Threads play them, while the test makes the
//! calls that these wait for.
use crate::hands::Hands;
use crate::steps::{Ends, Group, Host, ThreadPort};
use async_broadcast::{
    RecvError, RecvTimeoutError, SendError, SendTimeoutError, TimedPort, TryRecvError, TrySendError,
};
use futures::test::MockTask;
use std::test::Fail;
use std::time::Duration;

/// What a thread does, with its sender or receiver of this number, or with its first one; and what
/// the call must return, where it isn't said.
#[derive(Clone, Copy)]
pub enum Step {
    /// Waits at the barrier of this number for the other threads that wait there.
    Meet(usize),
    TrySend(usize, u64, Result<Option<u64>, TrySendError<u64>>),
    /// Sends two messages as a list, which is accepted.
    TrySendBoth(u64, u64),
    /// Waits until the message is accepted.
    Send(usize, u64, Result<Option<u64>, SendError<u64>>),
    /// Waits until the message is accepted, or the limit of the handles is over.
    SendInTime(u64, Result<Option<u64>, SendTimeoutError<u64>>),
    /// Waits in a task until the message is accepted.
    AwaitSend(usize, u64),
    TryRecv(usize, Result<u64, TryRecvError>),
    /// Waits until there is a message.
    Receive(usize, Result<u64, RecvError>),
    /// Waits until there is a message, or the limit of the handles is over.
    ReceiveInTime(Result<u64, RecvTimeoutError>),
    /// Waits in a task until there is this message.
    AwaitRecv(usize, u64),
    /// Waits in a task until this message is the stream's next item.
    AwaitNext(usize, u64),
    /// The channel keeps so many messages.
    Keeps(usize),
    /// Closes the channel, which is open.
    Close,
    Poll(Polled),
    Change(Change),
    /// Drops all senders and receivers of the thread.
    DropAll,
}

/// What is polled once in a task, by the first sender or receiver; and the message that a receive
/// gives, or none if it must wait.
#[derive(Clone, Copy)]
pub enum Polled {
    /// A send that is accepted, and dropped then.
    Send(u64),
    /// A receive that is dropped then.
    Future(u64),
    /// `poll_recv`.
    Recv(Option<u64>),
    /// The stream.
    Next(Option<u64>),
    /// A send that waits until the first receiver receives: its task is woken then, and not before.
    HeldSend(u64),
    /// A receive that waits until the first sender sends this: the same.
    HeldFuture(u64),
    /// Nothing is polled: whether the task is woken.
    Woken(bool),
}

/// A change of a setting or of the handles.
#[derive(Clone, Copy)]
pub enum Change {
    Capacity(usize),
    /// By the first receiver.
    ReceiverCapacity(usize),
    Overflow,
    /// Overflow mode, by the first receiver.
    ReceiverOverflow,
    /// Sends don't wait for an active receiver any more.
    NoAwaiting,
    CloneSender,
    CloneReceiver,
    NewReceiver,
    /// Makes the last receiver inactive.
    Deactivate,
    /// Makes another receiver of the inactive one.
    ActivateCloned,
    /// Makes a receiver of the inactive one.
    Activate,
    /// Drops the last receiver.
    DropReceiver,
    DropInactive,
    DropSenders,
}

/// What a thread does.
pub type Script = &'static [Step];

/// A name, the calls before, the scripts that a thread each plays, and the calls beside them.
pub type Row = (&'static str, Script, &'static [Script], Script);

fn play<P: TimedPort<u64>>(rt: impl Host, mut hands: Hands<P>, name: &str, script: Script) {
    hands.play(&rt, name, script);
}

/// Makes the calls before, and starts the threads of a row.
pub fn begin<P: ThreadPort>(
    rt: impl Host + 'static,
    hands: &mut Hands<P>,
    (name, before, scripts, _): Row,
) -> Result<Group, Fail> {
    hands.play(&rt, name, before);
    let mut group = Group::new(rt.alloc())?;
    for script in scripts {
        let (own, script) = (hands.cloned_for(*script).ok_or("no handles")?, *script);
        group.start(&rt, move || play(rt, own, name, script))?;
    }
    Ok(group)
}

/// Makes the calls beside the threads, waits for these, and makes the calls `after`.
pub fn end<P: TimedPort<u64>>(
    rt: impl Host + 'static,
    hands: &mut Hands<P>,
    group: Group,
    (name, _, _, calls): Row,
    after: Script,
) {
    hands.play(&rt, name, calls);
    group.join(&rt, name);
    hands.play(&rt, name, after);
}

/// Plays a row over a new channel, with this limit of calls that have one: its threads must sleep
/// until the calls beside them are made, and then all of them must wake and end their calls.
pub fn wakes<P: ThreadPort>(
    rt: impl Host + 'static,
    ends: Ends<P>,
    limit: Duration,
    row: Row,
    after: Script,
) -> Result<(), Fail> {
    let mut hands = Hands::both(rt.alloc(), ends)?;
    hands.limit = limit;
    hands.task = Some(MockTask::new(&rt)?);
    let group = begin(rt, &mut hands, row)?;
    group.wait_for_sleep(&rt, row.0);
    end(rt, &mut hands, group, row, after);
    Ok(())
}
