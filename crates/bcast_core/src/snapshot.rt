//! The view of a channel, as a value.
ghost use Rattle.std.specs.Prelude.{IfOk};
ghost use Rattle.std.specs.List.{AllZip};

use bcast_model::listener::Kind;
use bcast_store::Store;
use std::alloc::{AllocError, Allocator, Global};

/// The view of a channel between two calls, with a clone of each message that it keeps.
///
/// `{:?}` prints each field by its name, in this order.
#[derive(Debug, Drop)]
pub struct Snapshot<T, A: Allocator = Global> {
    /// The number of the first kept message, or of the next one if none is kept.
    pub front: u64,
    /// A clone of each kept message, from the front.
    pub queue: Vec<T, A>,
    /// The number that the next accepted message gets.
    pub end: u64,
    /// The receivers' keys in rising order, each with the number of the message that it reads next.
    pub cursors: Vec<(usize, u64), A>,
    /// How many senders there are.
    pub senders: usize,
    /// How many inactive receivers there are.
    pub inactive: usize,
    /// Whether the channel is closed.
    pub closed: bool,
    /// Whether a full channel drops its oldest message for a new one.
    pub overflow: bool,
    /// Whether sends wait while there is no active receiver.
    pub await_active: bool,
    /// How many messages the channel keeps at most.
    pub capacity: usize,
    /// The greatest capacity so far.
    pub room: usize,
    /// The places of the pending sends, in rising order.
    pub places: Vec<usize, A>,
    /// The pending sends that wait, each by its place.
    pub waiting_sends: Waiting<usize, A>,
    /// The receivers' listeners that wait, each by its receiver's key and its kind.
    pub waiting_receives: Waiting<(usize, Kind), A>,
}

/// The listeners that wait, in the order of registering.
#[derive(Debug, Drop)]
pub struct Waiting<I, A: Allocator = Global> {
    /// The id of each of them, from the front.
    pub ids: Vec<I, A>,
    /// How many of them, from the front, are told.
    pub told: usize,
}

/// A clone of each message, from the front.
pub(crate) fn clones_of<T: Clone, A: Allocator + Copy, B: Allocator>(
    store: &Store<T, A>,
    alloc: B,
) -> Result<Vec<T, B>, AllocError>
    ensures { IfOk result (λ clones. AllZip T.is_clone store.now.queue clones.items) }
{
    let mut clones = Vec::with_capacity(alloc, store.len())?;
    for index in 0..store.len() {
        let Some(msg) = store.get(index) else {
            unreachable!()
        };
        clones.push_reserved(msg.clone()?);
    }
    Ok(clones)
}
