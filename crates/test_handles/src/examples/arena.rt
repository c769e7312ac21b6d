//! Of docs/GUIDE.md: a channel whose memory is an arena.
use crate::channels::TestResult;
use async_broadcast::{Port, Receiver, Sender, broadcast};
use linked_list_allocator::LocalHeap;
use std::alloc::Allocator;
use std::process::Abort;

#[test]
fn a_channel_in_an_arena(rt: HostRuntime) -> TestResult {
    let heap = LocalHeap::new(rt.alloc(), 4096)?;
    let (sender, receiver) = broadcast(&rt, &heap, 2)?;
    keeps_to_the_arena(&rt, sender, receiver)
}

fn keeps_to_the_arena<A: Allocator + Copy, P: Port<u64>>(
    rt: &impl Abort,
    mut sender: Sender<u64, P, A>,
    mut receiver: Receiver<u64, P, A>,
) -> TestResult {
    // The arena has no memory for this much room, and the capacity stays 2.
    assert!(rt; sender.set_capacity(100_000).is_err());
    assert!(rt; sender.capacity() == 2);
    assert!(rt; sender.try_broadcast(7).is_ok());
    assert!(rt; matches!(receiver.try_recv(), Ok(Ok(7))));
    Ok(())
}
