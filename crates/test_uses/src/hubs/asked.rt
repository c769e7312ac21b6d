//! Requests as data.
ghost use Rattle.std.specs.Prelude.{IfOk};
ghost use Rattle.std.specs.List.{AllByRecursion};
ghost use Rattle.topics.specs.Request.{OpensPositive};

use bcast_core::{Reply, TryRecvError, TrySendError};
use std::alloc::{AllocError, Allocator};
use topics::{Answer, Request};

/// What is asked of the topic of a name.
#[derive(Clone, Copy)]
pub enum Asked {
    /// Opens a topic of this capacity, or of capacity 1 if this is 0.
    Open(usize),
    Follow,
    Publish(u64),
    /// Receives by the follower of this number, counted in the order in which they came.
    Receive(usize),
    Leave(usize),
    Close,
}

/// An answer, as rows have it.
#[derive(Clone, Copy, PartialEq, Eq)]
pub enum Answered {
    BadName,
    Opened,
    Exists,
    NoTopic,
    /// There is one more follower, whatever its key.
    Followed,
    Sent,
    Full(u64),
    Inactive(u64),
    Got(u64),
    /// There is nothing to receive, and the topic is closed.
    Ended,
    Left,
    /// Whether it was open.
    Closed(bool),
    /// An answer that no row has.
    Other,
}

/// A request on the topic of a name, and its answer.
pub type Row = (&'static str, Asked, Answered);

/// This answer, as rows have it.
pub fn as_row(answer: &Answer<u64>) -> Answered {
    match answer {
        Answer::BadName => Answered::BadName,
        Answer::Opened => Answered::Opened,
        Answer::Exists => Answered::Exists,
        Answer::NoTopic => Answered::NoTopic,
        Answer::Done(Reply::NewReceiver(Ok(_))) => Answered::Followed,
        Answer::Done(Reply::TryBroadcast(Ok(None))) => Answered::Sent,
        Answer::Done(Reply::TryBroadcast(Err(TrySendError::Full(msg)))) => Answered::Full(*msg),
        Answer::Done(Reply::TryBroadcast(Err(TrySendError::Inactive(msg)))) => {
            Answered::Inactive(*msg)
        }
        Answer::Done(Reply::TryRecv(Ok(Ok(msg)))) => Answered::Got(*msg),
        Answer::Done(Reply::TryRecv(Ok(Err(TryRecvError::Closed)))) => Answered::Ended,
        Answer::Done(Reply::DropReceiver) => Answered::Left,
        Answer::Done(Reply::Close(was_open)) => Answered::Closed(*was_open),
        _ => Answered::Other,
    }
}

/// The request, with its name in memory of `alloc`. `keys` has the key of each follower.
pub fn request<A: Allocator + Copy>(
    alloc: A,
    keys: &[usize],
    name: &str,
    asked: Asked,
) -> Result<Request<u64, A>, AllocError>
    ensures { IfOk result OpensPositive }
{
    let name = String::from_str(alloc, name)?;
    Ok(match asked {
        Asked::Open(capacity) => Request::Open(name, capacity.max(1)),
        Asked::Follow => Request::Follow(name),
        Asked::Publish(msg) => Request::Publish(name, msg),
        Asked::Receive(number) => Request::Receive(name, key(keys, number)),
        Asked::Leave(number) => Request::Leave(name, key(keys, number)),
        Asked::Close => Request::Close(name),
    })
}

fn key(keys: &[usize], number: usize) -> usize {
    keys.get(number).copied().unwrap_or(usize::MAX)
}

/// The rows' requests as one list, in memory of `alloc`.
pub fn list_of<A: Allocator + Copy>(
    alloc: A,
    keys: &[usize],
    rows: &[Row],
) -> Result<Vec<Request<u64, A>, A>, AllocError>
    ensures { IfOk result (λ list. AllByRecursion OpensPositive list.items) }
{
    let mut list = Vec::new(alloc);
    for row in rows {
        list.push(request(alloc, keys, row.0, row.1)?)?;
    }
    Ok(list)
}
