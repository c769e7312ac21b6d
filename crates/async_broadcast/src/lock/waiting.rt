//! Calls of threads that wait until they are answered, or their time is over.
ghost use Rattle.std.specs.Prelude.{◌≡◌, Bool, ⊤, true, false, not, IfSome};
ghost use Rattle.bcast_model.specs.Words.{HasPositiveCapacity, IsPossible};
ghost use Rattle.async_broadcast.specs.Counted.{EndsWait};
ghost use Rattle.async_broadcast.specs.Ports.{is_answer, as_try_recv, moved_by};
ghost use Rattle.async_broadcast.specs.Timed.{as_attempt, as_timed_try};

use super::Lock;
use super::channel::{Limit, lock};
use super::threads::{Side, Threads, WaitingThread};
use crate::journal::CallJournal;
use crate::timed::{RecvTimeoutError, SendTimeoutError};
use bcast_core::{
    AtOnce, AttemptSend, RecvError, RecvResult, Reply, SendError, SendPoll, TryRecv, TryRecvError,
};
use std::alloc::Allocator;
use std::snapshot::Snapshot;
use std::sync::Wait;
use std::thread::yield_now;

/// A call that is made again and again until it needn't wait.
pub(super) trait Attempt<T: Clone, C: AtOnce<T>> {
    // Holds of the call that is made each time.
    ghost makes: { Self → C → Type 0 };

    /// With whom a thread waits that must wait.
    fn side(&self) -> Side;

    /// Whether this answer says that the call must wait.
    fn must_wait(&self, answer: &C::Answer) -> bool
        ensures { (call : C) → is_answer (C.reply call answer.now) ≡ not result };

    /// The call once more, since this answer says that it must wait.
    fn again(&self, call: &Snapshot<C>, answer: C::Answer) -> C
        requires makes { makes self.now call.now.value }
        requires waits { is_answer (C.reply call.now.value answer) ≡ false }
        requires reply { IsPossible T.is_clone (C.call call.now.value)
            (C.reply call.now.value answer) }
        ensures { result ≡ call.now.value };

    /// Counts a thread no more that has waited and tried again, with this answer.
    fn end(&self, threads: &mut Threads, waiting: WaitingThread, answer: &C::Answer)
        ensures { (must_wait : Bool)
            × ((call : C) → is_answer (C.reply call answer.now) ≡ not must_wait)
            × EndsWait waiting must_wait threads.old threads.new }
    {
        let must_wait = self.must_wait(answer);
        threads.end_waiting(waiting, must_wait);
    }
}

/// Sends a message. A thread that must wait gets it back.
pub(super) struct Sends;

/// Receives a message by the receiver of this key.
#[derive(Drop)]
pub(super) struct Receives {
    pub(super) key: usize,
}

impl<T: Clone> Attempt<T, AttemptSend<T>> for Sends {
    ghost makes = { λ _ _. ⊤ };

    fn side(&self) -> Side {
        Side::Senders
    }

    fn must_wait(&self, answer: &SendPoll<T>) -> bool {
        matches!(answer, SendPoll::Wait(_))
    }

    fn again(&self, _call: &Snapshot<AttemptSend<T>>, answer: SendPoll<T>) -> AttemptSend<T> {
        match answer {
            SendPoll::Wait(back) => AttemptSend(back),
            SendPoll::Ready(_) => unreachable!(),
        }
    }
}

impl<T: Clone> Attempt<T, TryRecv> for Receives {
    ghost makes = { λ receives call. call.0 ≡ receives.key };

    fn side(&self) -> Side {
        Side::Receivers
    }

    fn must_wait(&self, answer: &RecvResult<T, TryRecvError>) -> bool {
        matches!(answer, Ok(Err(TryRecvError::Empty)))
    }

    fn again(&self, _call: &Snapshot<TryRecv>, _answer: RecvResult<T, TryRecvError>) -> TryRecv {
        TryRecv(self.key)
    }
}

impl<T: Clone, R: Wait + Clone, A: Allocator + Copy, J: CallJournal<T>> Lock<T, R, A, J> {
    /// Makes a call again and again, and waits between, until it needn't wait or the time is over.
    pub(super) fn make_until<C: AtOnce<T>, B: Attempt<T, C>, L: Limit<R>>(
        &self,
        caller: &mut J::Caller,
        attempt: &B,
        call: C,
        limit: &L,
    ) -> C::Answer
        requires makes { B.makes attempt.now call }
        requires capacity { HasPositiveCapacity (C.call call) }
        requires moves { IfSome (moved_by (C.call call)) (J.Caller.moves caller.old) }
        ensures learned { J.learns caller.old (C.call call) (C.reply call result) caller.new }
        ensures reply { IsPossible T.is_clone (C.call call) (C.reply call result) }
        ensures answered { L.is_endless → is_answer (C.reply call result) ≡ true }
    {
        let mut call = call;
        let mut waits = false;
        for _ in self.rt.forever() {
            let made = Snapshot::of(&call);
            let (answer, is_over) = self.make_or_wait(caller, attempt, call, waits, limit);
            if is_over || !attempt.must_wait(&answer) {
                return answer;
            }
            call = attempt.again(&made, answer);
            // Meanwhile others may make room or send, and then this thread needn't sleep.
            yield_now();
            waits = true;
        }
        unreachable!()
    }

    // Makes a call, and if it must wait and `waits`, waits once and makes it again. Returns also
    // whether the time is over.
    fn make_or_wait<C: AtOnce<T>, B: Attempt<T, C>, L: Limit<R>>(
        &self,
        caller: &mut J::Caller,
        attempt: &B,
        call: C,
        waits: bool,
        limit: &L,
    ) -> (C::Answer, bool)
        requires makes { B.makes attempt.now call }
        requires capacity { HasPositiveCapacity (C.call call) }
        requires moves { IfSome (moved_by (C.call call)) (J.Caller.moves caller.old) }
        ensures learned { J.learns caller.old (C.call call) (C.reply call result.0) caller.new }
        ensures reply { IsPossible T.is_clone (C.call call) (C.reply call result.0) }
        ensures endless { L.is_endless → result.1 ≡ false }
    {
        let channel = &*self.channel;
        let mut guard = lock!(channel, &self.rt);
        let state = &mut *guard;
        let made = Snapshot::of(&call);
        let before = Snapshot::of(&state.inner);
        let answer = call.make(&mut state.inner);
        state
            .journal
            .append(caller, &made, &answer, &before, &state.inner);
        if !waits || !attempt.must_wait(&answer) {
            if let Some(woken) = state.threads.choose_woken(&state.inner) {
                channel.unlock(guard, woken);
            }
            return (answer, false);
        }
        let call = attempt.again(&made, answer);
        let side = attempt.side();
        let waiting = state.threads.begin_waiting(side, &state.inner);
        if let Some(woken) = state.threads.choose_woken(&state.inner) {
            channel.wake(woken);
        }
        let (mut guard, is_over) = limit.wait(&self.rt, channel.condition(side), guard);
        let state = &mut *guard;
        let before = Snapshot::of(&state.inner);
        let answer = call.make(&mut state.inner);
        state
            .journal
            .append(caller, &made, &answer, &before, &state.inner);
        attempt.end(&mut state.threads, waiting, &answer);
        if let Some(woken) = state.threads.choose_woken(&state.inner) {
            channel.unlock(guard, woken);
        }
        (answer, is_over)
    }
}

/// What a send returned that needn't wait.
pub(super) fn answer_of_send<T>(sent: SendPoll<T>) -> Result<Option<T>, SendError<T>>
    requires { is_answer (Reply.AttemptSend sent) ≡ true }
    ensures { SendPoll.Ready result ≡ sent }
{
    match sent {
        SendPoll::Ready(answer) => answer,
        SendPoll::Wait(_) => unreachable!(),
    }
}

/// What a receive returned that found a message, or that there will be none.
pub(super) fn answer_of_receive<T>(
    received: RecvResult<T, TryRecvError>,
) -> RecvResult<T, RecvError>
    requires { is_answer (Reply.TryRecv received) ≡ true }
    ensures { as_try_recv result ≡ received }
{
    match received {
        Ok(Ok(msg)) => Ok(Ok(msg)),
        Ok(Err(TryRecvError::Overflowed(n))) => Ok(Err(RecvError::Overflowed(n))),
        Ok(Err(TryRecvError::Closed)) => Ok(Err(RecvError::Closed)),
        Ok(Err(TryRecvError::Empty)) => unreachable!(),
        Err(error) => Err(error),
    }
}

/// What a send returned before its time was over, or that it is over.
pub(super) fn sent_in_time<T>(sent: SendPoll<T>) -> Result<Option<T>, SendTimeoutError<T>>
    ensures { as_attempt result ≡ sent }
{
    match sent {
        SendPoll::Ready(Ok(dropped)) => Ok(dropped),
        SendPoll::Ready(Err(SendError(back))) => Err(SendTimeoutError::Refused(back)),
        SendPoll::Wait(back) => Err(SendTimeoutError::Timeout(back)),
    }
}

/// What a receive returned before its time was over, or that it is over.
pub(super) fn received_in_time<T>(
    received: RecvResult<T, TryRecvError>,
) -> RecvResult<T, RecvTimeoutError>
    ensures { as_timed_try result ≡ received }
{
    match received {
        Ok(Ok(msg)) => Ok(Ok(msg)),
        Ok(Err(TryRecvError::Overflowed(n))) => Ok(Err(RecvTimeoutError::Overflowed(n))),
        Ok(Err(TryRecvError::Empty)) => Ok(Err(RecvTimeoutError::Timeout)),
        Ok(Err(TryRecvError::Closed)) => Ok(Err(RecvTimeoutError::Closed)),
        Err(error) => Err(error),
    }
}
