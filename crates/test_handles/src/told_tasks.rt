//! Tasks that all wait for one channel: how many polls follow after a call tells some of them.
use crate::channels::{Host, TestResult};
use async_broadcast::{LockSender, Port, Receiver, Send, Sender, broadcast};
use futures::StreamExt;
use futures::test::MockTask;
use std::sync::Wait;

/// A call on the channel.
#[derive(Clone, Copy)]
enum Ask {
    Send,
    Receive,
    Capacity(usize),
    Overflow,
    Close,
}

/// A name, how many streams and how many sends wait on a channel of capacity 1, the calls that are
/// made then, and how many polls follow until no task is woken.
type Row = (&'static str, u64, u64, &'static [Ask], u64);

const ROWS: &[Row] = &[
    ("a message for one stream", 1, 0, &[Ask::Send], 1),
    ("a message for all streams", 64, 0, &[Ask::Send], 64),
    ("room for one send", 0, 64, &[Ask::Receive], 1),
    (
        "room that is taken",
        0,
        64,
        &[Ask::Capacity(2), Ask::Send],
        1,
    ),
    (
        "room for all sends, in turn",
        0,
        64,
        &[Ask::Capacity(65)],
        64,
    ),
    ("sends that drop the oldest", 0, 64, &[Ask::Overflow], 64),
    ("a send for all streams", 64, 64, &[Ask::Receive], 65),
    ("sends for all streams", 64, 64, &[Ask::Capacity(65)], 128),
    ("closed for all", 64, 64, &[Ask::Close], 128),
    ("nothing is asked", 64, 64, &[], 0),
];

/// More rounds than any row may take.
const MANY: usize = 100_000;

/// What a task waits for.
#[derive(Drop)]
enum Awaited<'a, P: Port<u64>> {
    Message(Receiver<u64, P>),
    Room(Send<'a, u64, P>),
}

/// A task that polls until it needn't wait, and then keeps what it has waited for.
#[derive(Drop)]
struct Listener<'a, P: Port<u64>> {
    task: MockTask,
    awaited: Awaited<'a, P>,
    is_answered: bool,
}

impl<'a, P: Port<u64>> Listener<'a, P> {
    fn new(rt: &impl Host, awaited: Awaited<'a, P>) -> TestResult<Self> {
        let task = MockTask::new(rt)?;
        Ok(Listener {
            task,
            awaited,
            is_answered: false,
        })
    }

    /// Polls, if the task is woken and still waits. Returns whether it polled.
    fn polls(&mut self) -> bool {
        let polls = !self.is_answered && self.task.is_woken();
        if polls {
            self.is_answered = match &mut self.awaited {
                Awaited::Message(receiver) => self.task.poll(&mut receiver.next()).is_ready(),
                Awaited::Room(send) => self.task.poll(send).is_ready(),
            };
        }
        polls
    }
}

/// The tasks of a row: streams, and then sends.
fn tasks_of<'a, P: Port<u64>>(
    rt: &impl Host,
    (streams, sends): (u64, u64),
    sender: &'a Sender<u64, P>,
    reader: &Receiver<u64, P>,
) -> TestResult<Vec<Listener<'a, P>>> {
    let mut tasks = Vec::new(rt.alloc());
    for _ in 0..streams {
        let awaited = Awaited::Message(reader.new_receiver()?);
        tasks.push(Listener::new(rt, awaited)?)?;
    }
    for _ in 0..sends {
        let awaited = Awaited::Room(sender.broadcast_direct(1)?);
        tasks.push(Listener::new(rt, awaited)?)?;
    }
    Ok(tasks)
}

/// Polls the tasks that are woken, in rounds, until none is. Returns how many polls this took.
fn polls_to_rest<P: Port<u64>>(tasks: &mut [Listener<'_, P>]) -> u64 {
    let mut polls = 0u64;
    for _ in 0..MANY {
        let before = polls;
        for task in tasks.iter_mut() {
            if task.polls() {
                polls = polls.wrapping_add(1);
            }
        }
        if polls == before {
            break;
        }
    }
    polls
}

/// Makes a call, and returns whether it returns what the row needs.
fn is_made<P: Port<u64>>(ask: Ask, sender: &Sender<u64, P>, reader: &mut Receiver<u64, P>) -> bool {
    match ask {
        Ask::Send => sender.try_broadcast(1).is_ok(),
        Ask::Receive => matches!(reader.try_recv(), Ok(Ok(_))),
        Ask::Capacity(cap) => reader.set_capacity(cap.max(1)).is_ok(),
        Ask::Overflow => {
            reader.set_overflow(true);
            true
        }
        Ask::Close => sender.close(),
    }
}

/// A sender whose channel says who waits there. Functions with this bound name no lock.
trait Waiting {
    /// How many listeners wait, and how many of them are told.
    fn waiting(&self) -> TestResult<(u64, u64)>;
}

impl<R: Wait + Clone> Waiting for LockSender<u64, R> {
    fn waiting(&self) -> TestResult<(u64, u64)> {
        let seen = self.snapshot()?;
        let (sends, receives) = (&seen.waiting_sends, &seen.waiting_receives);
        let listeners = sends.ids.len().saturating_add(receives.ids.len());
        let told = sends.told.saturating_add(receives.told);
        Ok((listeners as u64, told as u64))
    }
}

/// Plays a row over any port. The channel is new, and its capacity is 1.
fn plays<P: Port<u64>>(
    rt: &impl Host,
    sender: &Sender<u64, P>,
    reader: &mut Receiver<u64, P>,
    (name, streams, sends, asks, polls): Row,
) -> TestResult
where
    Sender<u64, P>: Waiting,
{
    assert!(rt; sends == 0 || sender.try_broadcast(0).is_ok());
    let mut tasks = tasks_of(rt, (streams, sends), sender, reader)?;
    polls_to_rest(tasks.as_mut_slice());
    let (listeners, _) = sender.waiting()?;
    assert!(rt;
        listeners == streams.saturating_add(sends),
        "{name}: all wait"
    );
    for ask in asks {
        assert!(rt; is_made(*ask, sender, reader), "{name}: a call is refused");
    }
    let made = polls_to_rest(tasks.as_mut_slice());
    let (_, told) = sender.waiting()?;
    assert!(rt;
        made == polls && told == 0,
        "{name}: {made} polls, {told} are told"
    );
    let most = listeners.saturating_mul(listeners.saturating_add(1)) / 2;
    assert!(rt; made <= most, "{name}");
    Ok(())
}

// No call is made except the polls of tasks that were woken, and each of them polls once whenever
// it is woken. So the polls of a row follow one another, and are compared with the bound of the law
// that told polls end: at most n (n + 1) / 2, if n listeners wait. The test doesn't look at whether
// a woken task was told: one that wasn't would be a poll too many for its row.
#[test]
fn told_tasks_come_to_rest(rt: HostRuntime) -> TestResult {
    for row in ROWS {
        let (sender, mut reader) = broadcast(&rt, rt.alloc(), 1)?;
        plays(&rt, &sender, &mut reader, *row)?;
    }
    Ok(())
}
