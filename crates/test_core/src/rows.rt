//! Rows: what is done with a channel, and what that gives.
use crate::calls::{Channel, gets};
use std::alloc::{AllocError, Allocator, Global};
use std::test::Fail;

#[derive(Clone, Copy)]
pub(crate) enum Row {
    /// A call and its reply, as traces spell them.
    Call(&'static str, &'static str),
    /// A send of a list by `Inner::try_broadcast_all`, and what is printed of what it returns.
    /// Unless the list is accepted, it comes back.
    List(&'static [u64], &'static str),
    /// The receiver, the limit, and the messages that it is given.
    Batch(usize, usize, &'static [u64]),
    /// How many of the sends that wait are told.
    ToldSends(usize),
}

impl Row {
    /// Whether the row holds on a channel. Lists, and texts of replies, take their memory from
    /// `alloc`.
    pub(crate) fn holds<A: Allocator + Copy>(
        self,
        alloc: Global,
        inner: &mut Channel<A>,
    ) -> Result<bool, Fail> {
        match self {
            Row::Call(call, reply) => gets(alloc, inner, call, reply),
            Row::List(msgs, printed) => Ok(sends(alloc, inner, msgs, printed)?),
            Row::Batch(key, limit, msgs) => Ok(gives(alloc, inner, key, limit, msgs)?),
            Row::ToldSends(told) => Ok(inner.snapshot(alloc)?.waiting_sends.told == told),
        }
    }
}

/// Whether the send of a list returns what is printed so, with the list unless it was accepted.
fn sends<A: Allocator + Copy>(
    alloc: Global,
    inner: &mut Channel<A>,
    msgs: &[u64],
    printed: &str,
) -> Result<bool, AllocError> {
    let sent = inner.try_broadcast_all(Vec::from_slice(alloc, msgs)?);
    let is_printed = format!(in alloc; "{sent:?}")?.as_str() == printed;
    let is_back = match sent {
        Ok(()) => true,
        Err(error) => error.into_inner().as_slice() == msgs,
    };
    Ok(is_printed && is_back)
}

/// Whether a batch gives these messages, behind one that is there before.
fn gives<A: Allocator + Copy>(
    alloc: Global,
    inner: &mut Channel<A>,
    key: usize,
    limit: usize,
    msgs: &[u64],
) -> Result<bool, AllocError> {
    let mut given = Vec::from_slice(alloc, &[99])?;
    let count = inner.receive_many(key, limit, &mut given);
    let Some((first, given)) = given.as_slice().split_first() else {
        return Ok(false);
    };
    Ok(*first == 99 && given == msgs && count == msgs.len())
}
