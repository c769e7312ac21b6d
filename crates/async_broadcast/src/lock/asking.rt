//! A call on a channel behind its lock, and a poll, whose notice is made under the same lock.
ghost use Rattle.std.specs.Prelude.{◌≡◌, true, false, Ok, Err, IfSome, IfOk, IfErr, OnErr};
ghost use Rattle.futures.specs.Task.{IsArmed, Keeps};
ghost use Rattle.bcast_model.specs.Words.{Answers, HasPositiveCapacity, IsPossible, must_wait};
ghost use Rattle.bcast_core.specs.Calls.{receiver_call, receiver_reply};
ghost use Rattle.async_broadcast.specs.OfKind.{possible};
ghost use Rattle.async_broadcast.specs.Ports.{moved_by};

use super::Lock;
use super::channel::lock;
use crate::journal::CallJournal;
use crate::port::Ask;
use crate::wake::{ForTask, TaskWaker, Wake};
use bcast_core::{AddReceiver, AtOnce, Change, HandleError, Inner, Polls};
use futures::task::Context;
use std::alloc::Allocator;
use std::snapshot::Snapshot;
use std::sync::Wait;

// Records a call that was to add a receiver. Returns the receiver's key, and who makes its calls.
fn append_added<T: Clone, J: CallJournal<T>, A: Allocator + Copy>(
    journal: &mut J,
    caller: &mut J::Caller,
    call: AddReceiver,
    added: Result<usize, HandleError>,
    before: &Snapshot<Inner<T, Wake, A>>,
    after: &Inner<T, Wake, A>,
) -> Result<(usize, J::Caller), HandleError>
    requires recorded { ∥ J.records journal.old before.now.value ∥₁ }
    requires answers { Answers T.is_clone before.now.value (receiver_call call)
        (receiver_reply call added) after.now }
    ensures records { ∥ J.records journal.new after.now ∥₁ }
    ensures learned { IfOk result (λ made. J.learns caller.old (receiver_call call)
        (receiver_reply call (Ok made.0)) caller.new) }
    ensures begins { IfOk result (λ made. J.begins made.0 caller.new made.1) }
    ensures refused { IfErr result (λ error. J.learns caller.old (receiver_call call)
        (receiver_reply call (Err error)) caller.new) }
{
    match added {
        Ok(key) => {
            let made = journal.append_receiver(caller, call, key, before, after);
            Ok((key, made))
        }
        Err(error) => {
            let asked = Snapshot::of(&call);
            journal.append(caller, &asked, &Err(error), before, after);
            Err(error)
        }
    }
}

impl<T: Clone, R: Wait + Clone, A: Allocator + Copy, J: CallJournal<T>> Ask<T, J::Caller>
    for Lock<T, R, A, J> {
    ghost gave = { λ port call reply. IsPossible T.is_clone call reply };

    ghost learns = { J.learns };

    ghost of_kind = { λ port call reply gave. possible T.is_clone call reply gave };

    #[inline(always)]
    fn ask<C: AtOnce<T>>(&self, caller: &mut J::Caller, call: C) -> C::Answer {
        let channel = &*self.channel;
        let mut guard = lock!(channel, &self.rt);
        let state = &mut *guard;
        let asked = Snapshot::of(&call);
        let before = Snapshot::of(&state.inner);
        let answer = call.make(&mut state.inner);
        state
            .journal
            .append(caller, &asked, &answer, &before, &state.inner);
        if let Some(woken) = state.threads.choose_woken(&state.inner) {
            channel.unlock(guard, woken);
        }
        answer
    }

    #[inline(always)]
    fn poll<C: Polls<T>>(
        &self,
        caller: &mut J::Caller,
        call: C,
        task: &mut TaskWaker,
        cx: &mut Context<'_>,
    ) -> Result<C::Answer, C>
        requires capacity { HasPositiveCapacity (C.call call) }
        requires moves { IfSome (moved_by (C.call call)) (J.Caller.moves caller.old) }
        ensures gave { IfOk result (λ answer. IsPossible T.is_clone (C.call call)
            (C.reply call answer)) }
        ensures learned { IfOk result (λ answer. J.learns caller.old (C.call call)
            (C.reply call answer) caller.new) }
        ensures back { IfErr result (λ back. (back ≡ call) × (caller.new ≡ caller.old)) }

        ensures notice { IfOk result (λ answer. must_wait (C.reply call answer) ≡ true
            → task.new.is_refused ≡ false) }
        ensures refused { OnErr result (task.new.is_refused ≡ true) }
        ensures registered { IfOk result (λ answer. must_wait (C.reply call answer) ≡ true
            → IsArmed cx.new) }
        ensures again { OnErr result (IsArmed cx.new) }
        ensures kept { Keeps cx.old cx.new }
        // A call that is answered doesn't change the task's waker and the poll's context.
        ensures answered { IfOk result (λ answer. must_wait (C.reply call answer) ≡ false
            → (task.new ≡ task.old) × (cx.new ≡ cx.old)) }
    {
        let channel = &*self.channel;
        let mut guard = lock!(channel, &self.rt);
        let state = &mut *guard;
        let asked = Snapshot::of(&call);
        let before = Snapshot::of(&state.inner);
        let answer = call.make_for(&mut state.inner, &mut ForTask { task, cx })?;
        state
            .journal
            .append(caller, &asked, &answer, &before, &state.inner);
        if let Some(woken) = state.threads.choose_woken(&state.inner) {
            channel.unlock(guard, woken);
        }
        Ok(answer)
    }

    // An answered poll has taken its listener off the list, and no other poll can have put it
    // back: so the call would change nothing, and isn't made.
    #[inline(always)]
    fn end_future(&self, caller: &mut J::Caller, key: usize, is_answered: bool) -> Wake {
        if is_answered {
            return Wake::none();
        }
        let channel = &*self.channel;
        let mut guard = lock!(channel, &self.rt);
        let state = &mut *guard;
        let asked = Snapshot::of(&Change::EndFuture(key));
        let before = Snapshot::of(&state.inner);
        let notice = state.inner.take_future(key);
        state
            .journal
            .append(caller, &asked, &(), &before, &state.inner);
        // The lock is released before the notice is handed on.
        match state.threads.choose_woken(&state.inner) {
            Some(woken) => channel.unlock(guard, woken),
            None => drop(guard),
        }
        notice.unwrap_or(Wake::none())
    }
}

impl<T: Clone, R: Wait + Clone, A: Allocator + Copy, J: CallJournal<T>> Lock<T, R, A, J> {
    /// Adds a receiver by this call, as `ask` does, with its errors. Returns its key, and who makes
    /// its calls: both are made while the lock is held, so no other call comes between.
    pub fn add_receiver(
        &self,
        caller: &mut J::Caller,
        call: AddReceiver,
    ) -> Result<(usize, J::Caller), HandleError>
        ensures learned { IfOk result (λ made. J.learns caller.old (receiver_call call)
            (receiver_reply call (Ok made.0)) caller.new) }
        ensures begins { IfOk result (λ made. J.begins made.0 caller.new made.1) }
        ensures refused { IfErr result (λ error. J.learns caller.old (receiver_call call)
            (receiver_reply call (Err error)) caller.new) }
    {
        let channel = &*self.channel;
        let mut guard = lock!(channel, &self.rt);
        let state = &mut *guard;
        let old = Snapshot::of(&state.inner);
        let added = call.make(&mut state.inner);
        let made = append_added(&mut state.journal, caller, call, added, &old, &state.inner);
        if let Some(woken) = state.threads.choose_woken(&state.inner) {
            channel.unlock(guard, woken);
        }
        made
    }
}
