//! Receiving: one message, or all that are there, at once, or by a future or a stream, which wait
//! if there is nothing.
ghost use Rattle.std.specs.Prelude.{vec_len, vec_capacity, ◌≡◌, ◌⊎◌, ◌+◌, ◌≤◌, min};
ghost use Rattle.std.specs.Prelude.{true, false, IfOk, OnErr, IsOk};
ghost use Rattle.bcast_model.specs.Words.{NoClone, Answers, missed, stream_of, unread};
ghost use Rattle.bcast_core.specs.Batch.{MayBeRefused, ReceivesInto};
ghost use Rattle.bcast_core.specs.Parts.{finds_nothing, tries_by};
ghost use Rattle.bcast_core.specs.Polls.{kind_of, call_of, reply_of};
ghost use Rattle.bcast_core.specs.Tries.{tries_of};

use super::Inner;
use crate::parts::ReceivePoll;
use bcast_model::error::{RecvError, TryRecvError};
use bcast_model::listener::Kind;
use bcast_model::run::{Call, Reply};
use bcast_queue::{Counter, Steps, Uncounted};
use bcast_waiting::notice::{MakesNotice, NoNotice, Notice, OwnedNotice};
use futures::task::Poll;
use std::alloc::{AllocError, Allocator};
use std::sync::ledger::Ledger;

/// What a receive returns: the message (if it receives several, their number), or why there is
/// none; or that memory was refused.
pub type RecvResult<T, E> = Result<Result<T, E>, AllocError>;

/// What a receive found, as `try_recv` returns it, and how many messages it skipped before.
#[derive(Drop)]
pub struct Received<T> {
    /// The message, why there is none, or that memory for a clone was refused.
    pub found: RecvResult<T, TryRecvError>,
    /// How many messages were skipped.
    pub skips: u64,
}

impl<T: Drop> Received<T> {
    /// What `poll_future` returns.
    #[inline(always)]
    pub fn of_future(self) -> Result<Poll<Result<T, RecvError>>, AllocError>
        ensures { Reply.PollFuture result ≡ reply_of ReceivePoll.Future self }
    {
        match self.found? {
            Ok(msg) => Ok(Poll::Ready(Ok(msg))),
            Err(TryRecvError::Overflowed(n)) => Ok(Poll::Ready(Err(RecvError::Overflowed(n)))),
            Err(TryRecvError::Closed) => Ok(Poll::Ready(Err(RecvError::Closed))),
            Err(TryRecvError::Empty) => Ok(Poll::Pending),
        }
    }

    /// What `poll_recv` returns.
    #[inline(always)]
    pub fn of_recv(self) -> Result<Poll<Option<Result<T, RecvError>>>, AllocError>
        ensures { Reply.PollRecv result ≡ reply_of ReceivePoll.Recv self }
    {
        match self.found? {
            Ok(msg) => Ok(Poll::Ready(Some(Ok(msg)))),
            Err(TryRecvError::Overflowed(n)) => {
                Ok(Poll::Ready(Some(Err(RecvError::Overflowed(n)))))
            }
            Err(TryRecvError::Closed) => Ok(Poll::Ready(None)),
            Err(TryRecvError::Empty) => Ok(Poll::Pending),
        }
    }

    /// What `poll_next` returns.
    #[inline(always)]
    pub fn of_next(self) -> Result<Poll<Option<(T, u64)>>, AllocError>
        ensures { Reply.PollNext result ≡ reply_of ReceivePoll.Next self }
    {
        match self.found? {
            Ok(msg) => Ok(Poll::Ready(Some((msg, self.skips)))),
            Err(TryRecvError::Overflowed(_) | TryRecvError::Closed) => Ok(Poll::Ready(None)),
            Err(TryRecvError::Empty) => Ok(Poll::Pending),
        }
    }
}

impl<T: Clone, N: Notice, A: Allocator + Copy> Inner<T, N, A> {
    /// Gives the receiver of this key its next message: the message itself, or a clone of it if
    /// another receiver is still to read it.
    ///
    /// # Errors
    ///
    /// In the `Ok`:
    /// - `Overflowed(n)`: the receiver missed `n` messages, which were dropped before it read them.
    ///   It continues after them.
    /// - `Closed`: it has read everything and the channel is closed, or there is no such receiver.
    /// - `Empty`: it has read everything, and the channel is open.
    ///
    /// `AllocError`: the message is also for another receiver, and memory for its clone was
    /// refused. Nothing changed.
    #[inline(always)]
    pub fn try_recv(&mut self, key: usize) -> RecvResult<T, TryRecvError>
        ensures answers { Answers T.is_clone self.old (Call.TryRecv key) (Reply.TryRecv result)
            self.new }
        // If no clone can fail, it isn't out of memory.
        ensures sure { ((msg : T) → T.is_infallible msg) → IsOk result }
    {
        let at = self.parts.store.cursor(key);
        let received = self.parts.receive(key, Kind::Future, at, &mut Uncounted);
        if !self.parts.sends.is_empty() {
            self.parts.tell_a_sender();
        }
        received
    }

    /// Gives the receiver of this key those of its next messages that are there, at most `limit`:
    /// puts them last into `msgs`, and returns how many they are.
    ///
    /// It is as many `try_recv` in a row. If the receiver missed messages, or there is none for it,
    /// it gives none, and `try_recv` says why. Memory in `msgs` for those that are there is taken
    /// first: if it is refused, none is given. If memory for the clone of one is refused, those
    /// before it are given.
    pub fn receive_many<B: Allocator>(
        &mut self,
        key: usize,
        limit: usize,
        msgs: &mut Vec<T, B>,
    ) -> usize
        ensures at_most { result ≤ limit }
        ensures received { ReceivesInto (Answers T.is_clone) key
            self.old msgs.old.items result msgs.new.items self.new }
        // If `msgs` has room, all that are there are given, or those up to one whose clone may fail.
        ensures sure { missed self.old key ≡ 0
            → vec_len msgs.old + limit ≤ vec_capacity msgs.old
            → (result ≡ min limit (unread self.old key)) ⊎ MayBeRefused T.is_infallible self.new key }
    {
        let Some(cursor) = self.parts.store.cursor(key) else {
            return 0;
        };
        if cursor < self.parts.store.front() {
            return 0;
        }
        let count = ((self.parts.store.end() - cursor) as usize).min(limit);
        if count == 0 || msgs.reserve(count).is_err() {
            return 0;
        }
        let given = self.parts.store.read_many(key, cursor, count, msgs);
        self.parts.tell_a_sender();
        given
    }

    /// Receives as `try_recv` does, by a future. If there is nothing it waits: `notice` is told
    /// once it is to be polled again.
    ///
    /// # Errors
    ///
    /// `AllocError` as for `try_recv`; nothing changed.
    #[inline(always)]
    pub fn poll_future<L: Ledger>(
        &mut self,
        key: usize,
        notice: N,
        steps: &mut Steps<L>,
    ) -> Result<Poll<Result<T, RecvError>>, AllocError>
        ensures answers { Answers T.is_clone self.old (Call.PollFuture key)
            (Reply.PollFuture result) self.new }
        ensures sure { ((msg : T) → T.is_infallible msg) → IsOk result }
        ensures steps { steps.new ≡ steps.old + 1 }
    {
        let mut maker = OwnedNotice::new(notice);
        match self.poll_receive(ReceivePoll::Future, key, &mut maker, steps) {
            Ok(received) => received.of_future(),
            Err(_) => unreachable!(),
        }
    }

    /// Receives as `try_recv` does, by the stream. `Ready(None)` says that everything was read and
    /// the channel is closed. If there is nothing it waits, as `poll_future` does. A stream that
    /// waits and was not told doesn't look for a message, since there is none.
    ///
    /// # Errors
    ///
    /// `AllocError` as for `try_recv`; nothing changed.
    pub fn poll_recv<L: Ledger>(
        &mut self,
        key: usize,
        notice: N,
        steps: &mut Steps<L>,
    ) -> Result<Poll<Option<Result<T, RecvError>>>, AllocError>
        ensures answers { Answers T.is_clone self.old (Call.PollRecv key) (Reply.PollRecv result)
            self.new }
        ensures sure { ((msg : T) → T.is_infallible msg) → IsOk result }
        ensures steps { steps.new ≡ steps.old + tries_of self.old.control (stream_of key) }
    {
        match self.poll_receive(ReceivePoll::Recv, key, &mut OwnedNotice::new(notice), steps) {
            Ok(received) => received.of_recv(),
            Err(_) => unreachable!(),
        }
    }

    /// Receives as `poll_recv` does, but skips what the receiver missed. The number beside the
    /// message is how many messages it skipped.
    ///
    /// # Errors
    ///
    /// `AllocError` as for `try_recv`; nothing changed, and nothing was skipped.
    pub fn poll_next<L: Ledger>(
        &mut self,
        key: usize,
        notice: N,
        steps: &mut Steps<L>,
    ) -> Result<Poll<Option<(T, u64)>>, AllocError>
        ensures answers { Answers T.is_clone self.old (Call.PollNext key) (Reply.PollNext result)
            self.new }
        ensures sure { ((msg : T) → T.is_infallible msg) → IsOk result }
        ensures steps { steps.new ≡ steps.old + tries_of self.old.control (stream_of key) }
    {
        match self.poll_receive(ReceivePoll::Next, key, &mut OwnedNotice::new(notice), steps) {
            Ok(received) => received.of_next(),
            Err(_) => unreachable!(),
        }
    }

    // Any of the three receives that wait, with what makes the notice if it must wait.
    #[inline(always)]
    pub(crate) fn poll_receive<C: Counter, M: MakesNotice<N>>(
        &mut self,
        poll: ReceivePoll,
        key: usize,
        maker: &mut M,
        steps: &mut C,
    ) -> Result<Received<T>, NoNotice>
        ensures answers { IfOk result (λ received. Answers T.is_clone self.old (call_of poll key)
            (reply_of poll received) self.new) }
        ensures sure { ((msg : T) → T.is_infallible msg)
            → IfOk result (λ received. IsOk received.found) }

        ensures made { IfOk result (λ received. finds_nothing received.found ≡ true
            → M.made maker.old maker.new) }
        ensures idle { IfOk result (λ received. finds_nothing received.found ≡ false
            → maker.new ≡ maker.old) }
        ensures same { OnErr result (self.new ≡ self.old) }
        ensures refused { OnErr result (M.refused maker.old maker.new) }

        ensures steps { C.counts ≡ true → C.total steps.new ≡ C.total steps.old
            + tries_by (kind_of poll) self.old.control (key, kind_of poll) }
    {
        let (at, skips) = self.parts.reads_at(poll, key);
        let found = self.parts.poll(key, poll.kind(), at, maker, steps)?;
        Ok(Received { found, skips })
    }
}

impl<T: Drop, N: Notice, A: Allocator + Copy> Inner<T, N, A> {
    /// Gives up the future of the receiver of this key. If it was told, the first listener that is
    /// left is told in its place, unless it is told already. If it doesn't wait, nothing changes.
    pub fn end_future(&mut self, key: usize)
        ensures { Answers NoClone self.old (Call.EndFuture key) Reply.EndFuture self.new }
    {
        let _ = self.take_future(key);
    }

    /// Gives up the future of the receiver of this key, as `end_future` does, and returns its
    /// notice if it waited.
    pub fn take_future(&mut self, key: usize) -> Option<N>
        ensures { Answers NoClone self.old (Call.EndFuture key) Reply.EndFuture self.new }
    {
        let notice = self.parts.pair_ended(key, Kind::Future);
        self.parts.tell_a_sender();
        notice
    }
}
