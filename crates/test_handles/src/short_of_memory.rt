//! Handles of a channel whose heap is full: what is refused is handed back, and nothing is lost.
use crate::channels::{Host, TestResult};
use async_broadcast::{NoMemory, Port, Receiver, Sender, Snapshot, broadcast};
use futures::StreamExt;
use futures::task::Poll;
use futures::test::MockTask;
use linked_list_allocator::LocalHeap;
use std::alloc::{AllocError, Allocator, Global};

/// The size of a channel's heap in bytes.
const HEAP: usize = 4096;

/// A block of a heap, which only keeps others from having it.
type Block<'a> = Vec<u8, &'a LocalHeap>;

const TEXT: &[u8] = b"a message of some length";

/// A message whose clone takes memory of the heap.
#[derive(PartialEq, Drop)]
struct Heavy<'a> {
    text: Vec<u8, &'a LocalHeap>,
}

impl<'a> Heavy<'a> {
    fn new(heap: &'a LocalHeap) -> Result<Self, AllocError> {
        let text = Vec::from_slice(heap, TEXT)?;
        Ok(Heavy { text })
    }
}

impl<'a> Clone for Heavy<'a> {
    fn clone(&self) -> Result<Heavy<'a>, AllocError> {
        let text = self.text.clone()?;
        Ok(Heavy { text })
    }
}

/// Takes all memory that is left in the heap.
fn fill<'a>(alloc: Global, heap: &'a LocalHeap) -> Result<Vec<Block<'a>>, AllocError> {
    let mut taken = Vec::new(alloc);
    for _ in 0..HEAP {
        let Ok(block) = Vec::<u8, &LocalHeap>::with_capacity(heap, 1) else {
            break;
        };
        taken.push(block)?;
    }
    Ok(taken)
}

// A stream whose message can't be cloned returns an error, and gives the message when there is
// memory. The other receiver gets it too: it is the last to read it, so it needs no memory.
#[test]
fn a_stream_goes_on_after_a_refused_clone(rt: HostRuntime) -> TestResult {
    let heap = LocalHeap::new(rt.alloc(), HEAP)?;
    goes_on(&rt, &heap, Heavy::new(&heap)?, &Heavy::new(&heap)?)
}

// The message's type is a parameter, so that the handles' types name no heap.
fn goes_on<T>(rt: &impl Host, heap: &LocalHeap, msg: T, wanted: &T) -> TestResult
where
    T: Clone + PartialEq,
{
    let (sender, mut one) = broadcast(rt, rt.alloc(), 1)?;
    let mut two = one.clone()?;
    assert!(rt; sender.try_broadcast(msg).is_ok());
    gives_the_message_later(rt, heap, (&mut one, &mut two), wanted)
}

fn gives_the_message_later<T: Clone + PartialEq, A: Allocator + Copy, P: Port<T>>(
    rt: &impl Host,
    heap: &LocalHeap,
    (one, two): (&mut Receiver<T, P, A>, &mut Receiver<T, P, A>),
    msg: &T,
) -> TestResult {
    let task = MockTask::new(rt)?;
    let taken = fill(rt.alloc(), heap)?;
    let refused = task.poll(&mut one.next());
    assert!(rt;
        matches!(refused, Poll::Ready(Some(Err(AllocError)))),
        "no memory"
    );
    assert!(rt; matches!(one.recv_blocking(), Err(AllocError)));
    assert!(rt; matches!(one.iter(rt).next(), Some(Err(AllocError))));
    assert!(rt; matches!(one.try_iter().next(), Some(Err(AllocError))));
    drop(taken);
    let later = task.poll(&mut one.next());
    assert!(rt; gives(&later, msg), "the message, later");
    let _taken = fill(rt.alloc(), heap)?;
    let moved = task.poll(&mut two.next());
    assert!(rt; gives(&moved, msg), "the message, moved");
    Ok(())
}

/// Whether the poll of a stream gave this message.
fn gives<T: Clone + PartialEq>(polled: &Poll<Option<Result<T, AllocError>>>, msg: &T) -> bool {
    matches!(polled, Poll::Ready(Some(Ok(given))) if given == msg)
}

// A send for whose box there is no memory hands its message back, and its place is free again.
#[test]
fn a_send_without_a_box_frees_its_place(rt: HostRuntime) -> TestResult {
    let heap = LocalHeap::new(rt.alloc(), HEAP)?;
    let (sender, _receiver) = broadcast(&rt, &heap, 1)?;
    hands_back_without_a_box(&rt, &heap, &sender)?;
    expect_places(&rt, &sender.snapshot()?, &[]);
    let _send = sender.broadcast_direct(8)?;
    expect_places(&rt, &sender.snapshot()?, &[0]);
    Ok(())
}

fn hands_back_without_a_box<A: Allocator + Copy, P: Port<u64>>(
    rt: &impl Host,
    heap: &LocalHeap,
    sender: &Sender<u64, P, A>,
) -> TestResult {
    // The channel keeps the memory of a place, so that only the box is refused.
    drop(sender.broadcast_direct(1)?);
    let _taken = fill(rt.alloc(), heap)?;
    assert!(rt; sender.broadcast_direct(2).is_ok(), "a place");
    assert!(rt; matches!(sender.broadcast(7), Err(NoMemory(7))), "no box");
    Ok(())
}

/// Fails the test unless sends have these places, and none of them waits.
fn expect_places(rt: &impl Host, seen: &Snapshot<u64, &LocalHeap>, places: &[usize]) {
    assert!(rt; seen.places.as_slice() == places);
    assert!(rt; seen.waiting_sends.ids.is_empty());
}
