//! The calls that take no memory, made on a heap that is full.
use crate::calls::Channel;
use crate::rows::Row;
use bcast_core::Inner;
use linked_list_allocator::LocalHeap;
use std::alloc::{Allocator, Global};
use std::process::Abort;
use std::test::Fail;

/// What the rows need on a channel of capacity 2 beside its receiver 0: a receiver 1, and a pending
/// send at place 0.
const FIRST: &[Row] = &[
    Row::Call("CloneReceiver 0", "ok 1"),
    Row::Call("BeginSend", "ok 0"),
];

/// Calls on that channel. None takes memory.
const ROWS: &[Row] = &[
    Row::Call("PollFuture 0", "pending"),
    Row::Call("PollRecv 0", "pending"),
    Row::Call("PollNext 1", "pending"),
    Row::Call("TryBroadcast 10", "ok"),
    Row::Call("AttemptSend 11", "ready ok"),
    Row::Call("TryBroadcast 12", "full 12"),
    Row::Call("AttemptSend 12", "wait 12"),
    Row::Call("PollSend 0 12", "wait 12"),
    Row::Call("SetOverflow true", "-"),
    Row::Call("PollSend 0 12", "ready ok dropped 10"),
    Row::Call("SetOverflow false", "-"),
    Row::Call("TryRecv 0", "overflowed 1"),
    Row::Call("SetCapacity 1", "ok"),
    Row::Call("SetCapacity 2", "ok"),
    Row::Call("TryRecv 1", "overflowed 2"),
    Row::Call("Deactivate 1", "ok"),
    Row::Call("TryRecv 0", "overflowed 1"),
    Row::Call("PollRecv 0", "ready some got 12"),
    Row::Call("PollFuture 0", "pending"),
    Row::Call("EndFuture 0", "-"),
    Row::Call("TryBroadcast 13", "ok"),
    Row::Call("PollNext 0", "ready some got 13 skipped 0"),
    Row::Call("TryBroadcastAll 20 21", "ok"),
    Row::Call("TryBroadcastAll 22", "full 22"),
    Row::Call("TryRecv 0", "got 20"),
    Row::Call("TryRecv 0", "got 21"),
    Row::Call("NewSender", "ok"),
    Row::Call("CloneInactive", "ok"),
    Row::Call("DropSender", "-"),
    Row::Call("DropInactive", "-"),
    Row::Call("SetAwaitActive false", "-"),
    Row::Call("Overflow", "false"),
    Row::Call("AwaitActive", "false"),
    Row::Call("IsEmpty", "true"),
    Row::Call("IsFull", "false"),
    Row::Call("IsClosed", "false"),
    Row::Call("IsTerminated", "false"),
    Row::Call("Capacity", "2"),
    Row::Call("Len", "0"),
    Row::Call("ReceiverCount", "1"),
    Row::Call("InactiveReceiverCount", "1"),
    Row::Call("SenderCount", "1"),
    Row::Call("EndNumber", "6"),
    Row::List(&[23, 24], "Ok(())"),
    Row::List(&[25], "Err(Full(..))"),
    Row::Call("TryRecv 0", "got 23"),
    Row::Call("TryRecv 0", "got 24"),
    Row::Call("DropReceiver 0", "-"),
    Row::Call("TryBroadcast 14", "inactive 14"),
    Row::Call("TryBroadcastAll", "inactive"),
    Row::List(&[], "Err(Inactive(..))"),
    Row::Call("AttemptSend 14", "ready senderror 14"),
    Row::Call("EndSend 0", "-"),
    Row::Call("Close", "true"),
    Row::List(&[26], "Err(Closed(..))"),
    Row::Call("TryRecv 0", "closed"),
    Row::Call("PollRecv 0", "ready none"),
];

/// Fails unless each row holds on the channel.
fn play<A: Allocator + Copy>(
    rt: &impl Abort,
    alloc: Global,
    inner: &mut Channel<A>,
    rows: &[Row],
) -> Result<(), Fail> {
    for (index, row) in rows.iter().enumerate() {
        assert!(rt; row.holds(alloc, inner)?, "row {index}");
    }
    Ok(())
}

/// Makes the rows' calls on a channel of this heap, while there is no free memory in the heap.
fn play_on_full_heap(
    rt: &impl Abort,
    alloc: Global,
    heap: &LocalHeap,
    inner: &mut Channel<&LocalHeap>,
) -> Result<(), Fail> {
    let _rest = Vec::<u8, &LocalHeap>::with_capacity(heap, heap.free())?;
    let full = heap.free();
    assert!(rt; Vec::<u8, &LocalHeap>::with_capacity(heap, 1).is_err());
    play(rt, alloc, inner, ROWS)?;
    assert!(rt; heap.free() == full);
    Ok(())
}

#[test]
fn calls_that_take_no_memory_go_through(rt: HostRuntime) -> Result<(), Fail> {
    let heap = LocalHeap::new(rt.alloc(), 4096)?;
    let (mut inner, first) = Inner::new(&heap, 2)?;
    assert!(rt; first == 0);
    play(&rt, rt.alloc(), &mut inner, FIRST)?;
    play_on_full_heap(&rt, rt.alloc(), &heap, &mut inner)
}
