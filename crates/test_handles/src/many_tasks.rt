//! Many tasks in one thread: senders that wait, and receivers as streams.
use crate::channels::TestResult;
use async_broadcast::{Port, Receiver, Sender, broadcast};
use futures::executor::{LocalPool, LocalSpawner};
use std::alloc::{AllocError, AllocGlobal};
use std::process::Abort;
use std::random::RandomSource;
use std::sync::{Mutex, Wait};
use tasks::{Counts, Task};

mod tasks;

const SENDERS: u64 = 4;

const RECEIVERS: u64 = 64;

/// How many messages each sender sends, and all of them.
const SHARE: u64 = 2_500;

const MESSAGES: u64 = SENDERS * SHARE;

/// How many messages the channel keeps at once.
const CAPACITY: usize = 100;

/// How often the channel is filled, if it is emptied each time in between.
const FILLS: u64 = MESSAGES / CAPACITY as u64;

/// The most polls of receivers: one per message and receiver, and two per receiver and fill.
const MOST_RECEIVE_POLLS: u64 = RECEIVERS * (MESSAGES + 2 * FILLS);

/// The most polls of sends: one per message, and one per sender and fill.
const MOST_SEND_POLLS: u64 = MESSAGES + SENDERS * FILLS;

// All receivers see the same order, and few polls find nothing to do.
#[test]
fn many_receivers_get_one_order(rt: HostRuntime) -> TestResult {
    let (sender, receiver) = broadcast(rt, rt.alloc(), CAPACITY)?;
    let counts = Counts::new(SENDERS);
    let lists = Mutex::new(Vec::new(rt.alloc()));
    run_all(rt, &sender, receiver, &counts, &lists)?;
    expect_one_order(&rt, lists.into_inner().as_slice())?;
    let (received, sent) = (counts.receive_polls(), counts.send_polls());
    println!(rt; "{received} polls of receivers, {sent} of sends")?;
    assert!(rt; received <= MOST_RECEIVE_POLLS && sent <= MOST_SEND_POLLS);
    Ok(())
}

/// Runs all tasks to their end.
fn run_all<'a, R, P>(
    rt: R,
    sender: &'a Sender<u64, P>,
    receiver: Receiver<u64, P>,
    counts: &'a Counts,
    lists: &'a Mutex<Vec<Vec<u64>>>,
) -> TestResult
where
    R: Wait + RandomSource + AllocGlobal + Copy + Drop,
    P: Port<u64> + 'static,
{
    let mut pool = LocalPool::new(&rt)?;
    start_all(rt, &pool.spawner()?, sender, receiver, counts, lists)?;
    pool.run(&rt);
    Ok(())
}

/// Starts the task of each receiver, and of each sender.
fn start_all<'a, R: Wait + AllocGlobal + Copy + Drop, P: Port<u64>>(
    rt: R,
    spawner: &LocalSpawner<Task<'a, R, P>>,
    sender: &'a Sender<u64, P>,
    receiver: Receiver<u64, P>,
    counts: &'a Counts,
    lists: &'a Mutex<Vec<Vec<u64>>>,
) -> TestResult {
    for _ in 0..RECEIVERS {
        let clone = receiver.clone()?;
        let task = Task::receiving(rt, rt.alloc(), clone, counts, lists);
        spawner.spawn(task).ok().ok_or("no task")?;
    }
    for number in 0..SENDERS {
        let task = Task::sending(sender, number * SHARE, SHARE, counts);
        spawner.spawn(task).ok().ok_or("no task")?;
    }
    Ok(())
}

// The lists are equal, and have each number once.
fn expect_one_order(rt: &impl Abort, lists: &[Vec<u64>]) -> Result<(), AllocError> {
    assert!(rt;
        lists.len() as u64 == RECEIVERS,
        "each receiver saw the end"
    );
    let Some(first) = lists.first() else {
        return Ok(());
    };
    for list in lists {
        assert!(rt; list.as_slice() == first.as_slice(), "one order");
    }
    let mut sorted = first.clone()?;
    sorted.sort()?;
    assert!(rt; sorted.iter().copied().eq(0..MESSAGES), "each number once");
    Ok(())
}
