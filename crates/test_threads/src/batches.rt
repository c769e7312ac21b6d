//! Threads that take batches of what another one sends, and loops over a receiver, which block while
//! there is no message.
use crate::steps::{Ends, Group, Host, Receiving, Sending, ThreadPort};
use async_broadcast::{Port, RecvError, broadcast};
use std::test::Fail;
use std::thread;

/// How many messages are sent.
const MESSAGES: u64 = 1000;

/// The most messages of a batch.
const LIMIT: usize = 5;

/// A name, whether overflow mode is on, how many messages are sent before the threads start, and
/// the least and the most that each receiver may miss.
type Row = (&'static str, bool, u64, (u64, u64));

/// Rows on a channel of capacity 16. In overflow mode its last 16 messages are never dropped.
const ROWS: &[Row] = &[
    ("sends wait for both receivers", false, 0, (0, 0)),
    ("the oldest are dropped", true, 100, (84, 984)),
];

/// Sends the messages of these numbers.
fn send<P: Port<u64>>(rt: &impl Host, sender: &Sending<P>, first: u64, end: u64) {
    for msg in first..end {
        assert!(rt; sender.broadcast_blocking(msg).is_ok());
    }
}

/// Whether these are the next numbers. They are counted.
fn are_next(msgs: &[u64], next: &mut u64) -> bool {
    let mut are = true;
    for msg in msgs {
        are &= *msg == *next;
        *next = (*next).wrapping_add(1);
    }
    are
}

/// Takes batches until the channel is closed. A message's number is how many came before it or were
/// missed, and no more or fewer are missed than the row says.
fn take_all<P: Port<u64>>(rt: &impl Host, mut receiver: Receiving<P>, row: Row) {
    let (name, _, _, (least, most)) = row;
    let (mut next, mut missed) = (0u64, 0u64);
    let mut msgs = Vec::new(rt.alloc());
    for _ in 0..=MESSAGES {
        match receiver.recv_many_blocking(LIMIT, &mut msgs) {
            Ok(Ok(count)) => {
                assert!(rt;
                    0 < count && count <= LIMIT && count == msgs.len(),
                    "{name}"
                );
                assert!(rt; are_next(msgs.as_slice(), &mut next), "{name}");
                msgs.clear();
            }
            Ok(Err(RecvError::Overflowed(dropped))) => {
                next = next.wrapping_add(dropped);
                missed = missed.wrapping_add(dropped);
            }
            Ok(Err(RecvError::Closed)) => break,
            Err(_) => panic!(rt; "{name}: no memory"),
        }
    }
    assert!(rt; next == MESSAGES, "{name}: all numbers are given or missed");
    assert!(rt; least <= missed && missed <= most, "{name}");
}

/// Has two threads take what this one sends.
fn play<P: ThreadPort>(
    rt: impl Host + 'static,
    (mut sender, receiver): Ends<P>,
    row: Row,
) -> Result<(), Fail> {
    let (name, overflows, before, _) = row;
    let other = receiver.clone()?;
    sender.set_overflow(overflows);
    send(&rt, &sender, 0, before);
    let mut group = Group::new(rt.alloc())?;
    group.start(&rt, move || take_all(&rt, receiver, row))?;
    group.start(&rt, move || take_all(&rt, other, row))?;
    send(&rt, &sender, before, MESSAGES);
    drop(sender);
    group.join(&rt, name);
    Ok(())
}

#[test]
fn batches_of_threads_have_all_messages_in_order(rt: HostRuntime) -> Result<(), Fail> {
    for row in ROWS {
        play(rt, broadcast(rt, rt.alloc(), 16)?, *row)?;
    }
    Ok(())
}

/// Fills a channel of capacity 2, so that a thread sleeps in its send, and takes one batch.
fn wakes_by_a_batch<P: ThreadPort>(
    rt: impl Host + 'static,
    (sender, mut receiver): Ends<P>,
) -> Result<(), Fail> {
    send(&rt, &sender, 0, 2);
    let mut group = Group::new(rt.alloc())?;
    group.start(&rt, move || send(&rt, &sender, 2, 3))?;
    group.wait_for_sleep(&rt, "broadcast_blocking");
    let mut msgs = Vec::new(rt.alloc());
    assert!(&rt; receiver.try_recv_many(2, &mut msgs)? == Ok(2));
    group.join(&rt, "the message is sent");
    Ok(())
}

#[test]
fn a_batch_wakes_a_sender_that_sleeps(rt: HostRuntime) -> Result<(), Fail> {
    wakes_by_a_batch(rt, broadcast(rt, rt.alloc(), 2)?)
}

// Each message that another thread sends, in order, until it drops its sender.
#[test]
fn a_loop_gets_each_message(rt: HostRuntime) -> Result<(), Fail> {
    gets_each_message(rt, broadcast(rt, rt.alloc(), 1)?)
}

fn gets_each_message<P: ThreadPort>(
    rt: impl Host + 'static,
    (sender, mut receiver): Ends<P>,
) -> Result<(), Fail> {
    let thread = thread::spawn(&rt, move || send(&rt, &sender, 0, MESSAGES))?;
    receive_all(&rt, &mut receiver);
    thread.join(&rt);
    Ok(())
}

fn receive_all<P: Port<u64>>(rt: &impl Host, receiver: &mut Receiving<P>) {
    let mut next = 0u64;
    for received in receiver.iter(rt) {
        assert!(rt; matches!(received, Ok(Ok(msg)) if msg == next));
        next = next.wrapping_add(1);
    }
    assert!(rt; next == MESSAGES);
}

// What was missed is an item, as a message is. After its end the loop has no more items.
#[test]
fn a_loop_says_what_was_missed(rt: HostRuntime) -> Result<(), Fail> {
    says_what_was_missed(&rt, broadcast(rt, rt.alloc(), 2)?);
    Ok(())
}

fn says_what_was_missed<P: Port<u64>>(rt: &impl Host, (mut sender, mut receiver): Ends<P>) {
    sender.set_overflow(true);
    send(rt, &sender, 0, 5);
    let mut received = receiver.iter(rt);
    assert!(rt; matches!(received.next(), Some(Ok(Err(RecvError::Overflowed(3))))));
    assert!(rt; matches!(received.next(), Some(Ok(Ok(3)))));
    drop(sender);
    assert!(rt; matches!(received.next(), Some(Ok(Ok(4)))));
    assert!(rt; matches!(received.next(), None));
    assert!(rt; matches!(received.next(), None));
}
