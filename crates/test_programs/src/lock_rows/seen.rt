//! What is seen of a lock, and of a channel that has no lock.
use super::Part;
use super::asking::made;
use async_broadcast::{Lock, Port};
use bcast_core::{Count, EndNumber, Inner, Reply, Silent, Snapshot, Test};
use std::alloc::{AllocError, Allocator, Global};
use std::sync::Wait;

/// A port that shows all that is seen of its channel.
pub(super) trait Shows {
    fn shows(&self, alloc: Global) -> Result<Snapshot<u64>, AllocError>;
}

impl<R: Wait + Clone> Shows for Lock<u64, R> {
    fn shows(&self, alloc: Global) -> Result<Snapshot<u64>, AllocError> {
        self.snapshot(alloc)
    }
}

/// What a port sees that is different on a channel without a lock. None: nothing.
pub(super) fn differs<P: Port<u64> + Shows>(
    alloc: Global,
    port: &P,
    alone: &Inner<u64, Silent>,
) -> Result<Option<Part>, AllocError> {
    if accessors_of(port) != accessors_of_inner(alone) {
        return Ok(Some(Part::Accessors));
    }
    let shown = format!(in alloc; "{:?}", port.shows(alloc)?)?;
    let wanted = format!(in alloc; "{:?}", alone.snapshot(alloc)?)?;
    Ok((shown != wanted).then_some(Part::Snapshot))
}

/// What a port replies to all accessors.
pub(super) fn accessors_of<P: Port<u64>>(port: &P) -> [Reply<u64>; 12] {
    [
        Reply::Overflow(made(port, Test::Overflow)),
        Reply::AwaitActive(made(port, Test::AwaitActive)),
        Reply::IsEmpty(made(port, Test::IsEmpty)),
        Reply::IsFull(made(port, Test::IsFull)),
        Reply::IsClosed(made(port, Test::IsClosed)),
        Reply::IsTerminated(made(port, Test::IsTerminated)),
        Reply::Capacity(made(port, Count::Capacity)),
        Reply::Len(made(port, Count::Len)),
        Reply::ReceiverCount(made(port, Count::ReceiverCount)),
        Reply::InactiveReceiverCount(made(port, Count::InactiveReceiverCount)),
        Reply::SenderCount(made(port, Count::SenderCount)),
        Reply::EndNumber(made(port, EndNumber)),
    ]
}

/// What a channel without a lock replies to all accessors.
pub fn accessors_of_inner<T: Drop, A: Allocator + Copy>(
    alone: &Inner<T, Silent, A>,
) -> [Reply<u64>; 12] {
    [
        Reply::Overflow(alone.overflow()),
        Reply::AwaitActive(alone.await_active()),
        Reply::IsEmpty(alone.is_empty()),
        Reply::IsFull(alone.is_full()),
        Reply::IsClosed(alone.is_closed()),
        Reply::IsTerminated(alone.is_terminated()),
        Reply::Capacity(alone.capacity()),
        Reply::Len(alone.len()),
        Reply::ReceiverCount(alone.receiver_count()),
        Reply::InactiveReceiverCount(alone.inactive_receiver_count()),
        Reply::SenderCount(alone.sender_count()),
        Reply::EndNumber(alone.end_number()),
    ]
}
