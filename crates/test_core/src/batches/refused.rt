//! Batches for which there is too little memory.
use crate::heaps::{Outcome, refused_in_turn};
use crate::heavy::Heavy;
use bcast_core::{Inner, Silent};
use linked_list_allocator::LocalHeap;
use std::alloc::{AllocError, Allocator, Global};
use std::process::Abort;
use std::test::Fail;

/// How many messages are sent.
const MESSAGES: usize = 3;

/// Sends the messages 0, 1 and 2 on a channel that has a second receiver, which reads none.
fn send_all(alloc: Global, heap: &LocalHeap) -> Result<Inner<Heavy<'_>, Silent>, Fail> {
    let (mut inner, first) = Inner::new(alloc, MESSAGES)?;
    inner.clone_receiver(first).ok().ok_or("no receiver")?;
    for number in 0..MESSAGES as u64 {
        let sent = inner.try_broadcast(Heavy::new(number, heap));
        sent.ok().ok_or("not sent")?;
    }
    Ok(inner)
}

/// Whether these are the messages from this one on.
fn begin_with(msgs: &[Heavy<'_>], first: usize) -> bool {
    let mut are = true;
    for (index, msg) in msgs.iter().enumerate() {
        are &= msg.number == (first as u64).wrapping_add(index as u64);
    }
    are
}

/// Takes batches of all three messages, of which so many clones fit in the heap at once, and drops
/// each batch before the next one. Returns how many messages the first one gave.
fn take_all(rt: &impl Abort, alloc: Global, inner: &mut Inner<Heavy<'_>, Silent>) -> usize {
    let mut first = None;
    let mut taken = 0usize;
    for _ in 0..MESSAGES {
        let mut msgs = Vec::new(alloc);
        let count = inner.receive_many(0, MESSAGES, &mut msgs);
        assert!(rt; msgs.len() == count && begin_with(msgs.as_slice(), taken));
        taken = taken.wrapping_add(count);
        assert!(rt; inner.cursor(0) == Some(taken as u64));
        assert!(rt; (inner.unread(1), inner.len()) == (MESSAGES, MESSAGES));
        if count == 0 && taken < MESSAGES {
            assert!(rt; inner.try_recv(0).is_err());
        }
        first = first.or(Some(count));
    }
    let first = first.unwrap_or(0);
    assert!(rt; taken == if first == 0 { 0 } else { MESSAGES });
    first
}

#[test]
fn a_batch_ends_before_a_refused_clone(rt: HostRuntime) -> Result<(), Fail> {
    let mut has_given = [false; MESSAGES + 1];
    for size in 0..64 {
        let heap = LocalHeap::new(rt.alloc(), size * 16)?;
        let mut inner = send_all(rt.alloc(), &heap)?;
        let count = take_all(&rt, rt.alloc(), &mut inner);
        if let Some(given) = has_given.get_mut(count) {
            *given = true;
        }
    }
    assert!(rt; has_given == [true; MESSAGES + 1], "{has_given:?}");
    Ok(())
}

/// Takes a batch of three numbers into a list in this memory. If there is too little for the list,
/// nothing changes.
fn take_into<A: Allocator>(alloc: Global, memory: A) -> Result<Outcome, AllocError> {
    let (mut inner, key) = Inner::<u64, Silent>::new(alloc, MESSAGES)?;
    for number in 0..MESSAGES as u64 {
        inner.try_broadcast(number).ok().ok_or(AllocError)?;
    }
    let before = format!(in alloc; "{:?}", inner.snapshot(alloc)?)?;
    let mut msgs = Vec::new(memory);
    let count = inner.receive_many(key, MESSAGES, &mut msgs);
    if count == 0 {
        let after = format!(in alloc; "{:?}", inner.snapshot(alloc)?)?;
        return Ok(Outcome::Refused.if_right(after == before && msgs.is_empty()));
    }
    let is_right = count == MESSAGES && msgs.as_slice() == [0, 1, 2].as_slice();
    Ok(Outcome::Done.if_right(is_right))
}

#[test]
fn a_batch_without_room_in_the_list_changes_nothing(rt: HostRuntime) -> Result<(), AllocError> {
    let alloc = rt.alloc();
    refused_in_turn(&rt, alloc, |heap| take_into(alloc, heap))
}
