//! Receiving.
ghost use Rattle.std.specs.Prelude.{◌≡◌, ◌⊎◌, ◌+◌, true, false, Ok, Err, IfOk, OnOk, OnErr, IsOk};
ghost use Rattle.bcast_model.specs.Receiving.{is_empty_reply};
ghost use Rattle.bcast_core.specs.Polls.{kind_of, reads_at, skips_of};

use super::Parts;
use crate::state::RecvResult;
use bcast_model::error::TryRecvError;
use bcast_model::listener::Kind;
use bcast_queue::Counter;
use bcast_waiting::notice::{MakesNotice, NoNotice, Notice};
use std::alloc::Allocator;

/// Which call a receive that waits is.
#[derive(Clone, Copy)]
pub enum ReceivePoll {
    /// `poll_future`.
    Future,
    /// `poll_recv`.
    Recv,
    /// `poll_next`, which skips what the receiver missed.
    Next,
}

impl ReceivePoll {
    /// Which listener of the receiver waits.
    #[inline(always)]
    pub fn kind(self) -> Kind
        ensures { result ≡ kind_of self }
    {
        match self {
            ReceivePoll::Future => Kind::Future,
            ReceivePoll::Recv | ReceivePoll::Next => Kind::Stream,
        }
    }
}

impl<T: Clone, N: Notice, A: Allocator + Copy> Parts<T, N, A> {
    ghost use Rattle.bcast_model.specs.Words.{IsValidView, IsReceivedBy, receive, receive_poll};
    ghost use Rattle.bcast_model.specs.Words.{skipped_to, settle, sets, cursor_of};
    ghost use Rattle.bcast_model.specs.Words.{pair_answered, tell_if_ready};
    ghost use Rattle.bcast_core.specs.Parts.{tries_by, finds_nothing};
    ghost use Rattle.bcast_core.specs.Telling.{is_untold};

    /// Gives a receiver the message of this number, or says why there is none. Counts one step, but
    /// not for a stream that is listed and not told: since no wake-up is lost there is none, and it
    /// doesn't look. `try_recv` looks as a future does.
    #[inline(always)]
    pub fn receive<C: Counter>(
        &mut self,
        key: usize,
        kind: Kind,
        at: Option<u64>,
        steps: &mut C,
    ) -> RecvResult<T, TryRecvError>
        requires valid { IsValidView self.old }
        requires at { (at ≡ cursor_of self.old.control key)
            ⊎ (at ≡ skipped_to self.old.front (cursor_of self.old.control key)) }
        ensures found { IsReceivedBy T.is_clone self.old key at (λ found. found) result }
        ensures ok { OnOk result (self.new ≡ settle self.old (sets (receive self.old key at))) }
        ensures err { OnErr result (self.new ≡ self.old) }
        ensures sure { ((msg : T) → T.is_infallible msg) → IsOk result }

        ensures steps { C.counts ≡ true → C.total steps.new
            ≡ C.total steps.old + tries_by kind self.old.control (key, kind) }
    {
        if kind == Kind::Stream && self.is_untold(key, kind) {
            return Ok(Err(TryRecvError::Empty));
        }
        steps.count();
        let Some(cursor) = at else {
            return Ok(Err(TryRecvError::Closed));
        };
        let front = self.store.front();
        if cursor < front {
            self.store.skip(key);
            return Ok(Err(TryRecvError::Overflowed(front - cursor)));
        }
        let index = cursor - front;
        if index < self.store.len() as u64 {
            return match self.store.read(key, cursor) {
                Ok(msg) => Ok(Ok(msg)),
                Err(refused) => Err(refused),
            };
        }
        if self.closed {
            Ok(Err(TryRecvError::Closed))
        } else {
            Ok(Err(TryRecvError::Empty))
        }
    }

    /// Where a receive that waits reads: at the receiver's cursor, or, if it skips what was missed,
    /// no lower than the front. Beside it how many messages it skips.
    #[inline(always)]
    pub fn reads_at(&self, poll: ReceivePoll, key: usize) -> (Option<u64>, u64)
        ensures at { result.0 ≡ reads_at poll self.now key }
        ensures skips { result.1 ≡ skips_of poll self.now key }
    {
        let at = self.store.cursor(key);
        match poll {
            ReceivePoll::Future | ReceivePoll::Recv => (at, 0),
            ReceivePoll::Next => {
                let front = self.store.front();
                match at {
                    Some(cursor) => (Some(cursor.max(front)), front.saturating_sub(cursor)),
                    None => (None, 0),
                }
            }
        }
    }

    // Whether a receiver's listener is listed and not told.
    #[inline(always)]
    fn is_untold(&self, key: usize, kind: Kind) -> bool
        ensures { result ≡ is_untold self.now.control (key, kind) }
    {
        self.receives.is_untold((key, kind))
    }

    /// A poll by a listener, whose notice is made if it must wait.
    #[inline(always)]
    pub fn poll<C: Counter, M: MakesNotice<N>>(
        &mut self,
        key: usize,
        kind: Kind,
        at: Option<u64>,
        maker: &mut M,
        steps: &mut C,
    ) -> Result<RecvResult<T, TryRecvError>, NoNotice>
        requires valid { IsValidView self.old }
        requires at { (at ≡ cursor_of self.old.control key)
            ⊎ (at ≡ skipped_to self.old.front (cursor_of self.old.control key)) }
        ensures found { IfOk result (IsReceivedBy T.is_clone self.old key at (λ found. found)) }
        ensures ok { IfOk result (λ received. OnOk received (self.new ≡ tell_if_ready
            (settle self.old (sets (receive_poll self.old (key, kind) at))))) }
        ensures err { IfOk result (λ received. OnErr received (self.new ≡ self.old)) }
        ensures sure { ((msg : T) → T.is_infallible msg) → IfOk result IsOk }

        ensures made { IfOk result (λ received. finds_nothing received ≡ true
            → M.made maker.old maker.new) }
        ensures idle { IfOk result (λ received. finds_nothing received ≡ false
            → maker.new ≡ maker.old) }
        ensures same { OnErr result (self.new ≡ self.old) }
        ensures refused { OnErr result (M.refused maker.old maker.new) }

        ensures steps { C.counts ≡ true → C.total steps.new
            ≡ C.total steps.old + tries_by kind self.old.control (key, kind) }
    {
        let answer = match self.receive(key, kind, at, steps) {
            Ok(answer) => answer,
            Err(refused) => return Ok(Err(refused)),
        };
        if is_empty(&answer) {
            let Ok(()) = self.receives.wait_again((key, kind), maker) else {
                return Err(NoNotice);
            };
            return Ok(Ok(answer));
        }
        if !self.nobody_waits() {
            self.tell_of_receive(key, kind);
        }
        Ok(Ok(answer))
    }

    // What else there is to do for a listener that got its answer, while somebody waits.
    #[inline(never)]
    fn tell_of_receive(&mut self, key: usize, kind: Kind)
        ensures { self.new ≡ tell_if_ready
            (record self.old { control = pair_answered self.old.control (key, kind) }) }
    {
        self.receives.consume((key, kind));
        self.tell_a_sender();
    }
}

// Whether a receive found nothing, and the channel is open.
#[inline(always)]
fn is_empty<T>(answer: &Result<T, TryRecvError>) -> bool
    ensures { result ≡ is_empty_reply answer.now }
{
    matches!(answer, Err(TryRecvError::Empty))
}
