//! The journal of such a channel: the steps on it.
ghost use Rattle.std.specs.Prelude.{◌≡◌, ◌<◌, ◌++◌, List, [], Ok, length, map};
ghost use mathlib.Core.List.{IsPrefix};
ghost use Rattle.bcast_model.specs.Words.{IsValid, Represents};
ghost use Rattle.bcast_core.specs.Calls.{receiver_call, receiver_reply};
ghost use Rattle.bcast_history.specs.Batch.{received};
ghost use Rattle.bcast_history.specs.History.{IsLawful, Step, end_of, start_of};
ghost use Rattle.bcast_history.specs.Tracker.{AreCursors, Begins, Learns};

use crate::journal::{Notes, Writer};
use crate::step::Step;
use crate::tracker::{Channel, Seen, TrackedCaller};
use async_broadcast::{CallJournal, Wake};
use bcast_core::{AddReceiver, CallOf, Inner};
use claims::Registry;
use std::alloc::Allocator;
use std::marker::{Model, PhantomData};
use std::snapshot::Snapshot;

/// The steps on a channel, for contracts. They are a run of it.
#[derive(Drop)]
pub struct StepJournal<T: Clone, J: Channel> {
    writer: Writer<Step<T>, J>,
    // The receivers' cursors that are claimed: where each reads on.
    registry: Registry,
}

impl<T: Clone, J: Channel> Model for StepJournal<T, J> {
    ghost Value = { List (Step T) };

    ghost view = { λ s. s.writer };

    ghost invariant = { λ s. IsLawful T.is_clone J.opening s.writer
        × AreCursors (end_of J.opening s.writer).control s.registry.claims
        × (s.registry.name ≡ J.registry) };
}

impl<T: Clone, J: Channel> StepJournal<T, J> {
    // No step was made.
    pub(crate) fn new(writer: Writer<Step<T>, J>, registry: Registry) -> StepJournal<T, J>
        requires empty { writer ≡ [] }
        requires valid { IsValid (start_of {T = T} J.opening) }
        requires cursors { AreCursors (start_of {T = T} J.opening).control registry.claims }
        requires registry { registry.name ≡ J.registry }
        ensures { result ≡ [] }
    {
        StepJournal { writer, registry }
    }
}

// What was made, as a step.
#[derive(Drop)]
struct ShownStep<'a, T, C: CallOf<T>> {
    call: &'a Snapshot<C>,
    answer: &'a C::Answer,
    messages: PhantomData<T>,
}

impl<'a, T, C: CallOf<T>> Notes<Step<T>> for ShownStep<'a, T, C> {
    ghost note = { λ shown. record {
      call = C.call shown.call.now.value;
      reply = C.reply shown.call.now.value shown.answer.now;
    } };
}

// The call that added a receiver, with the receiver's key, as a step.
impl<T> Notes<Step<T>> for (AddReceiver, usize) {
    ghost note = { λ shown. record {
      call = receiver_call shown.0;
      reply = receiver_reply shown.0 (Ok shown.1);
    } };
}

// A receive by the receiver of this key that gave this message, as a step.
impl<'a, T> Notes<Step<T>> for (usize, &'a T) {
    ghost note = { λ shown. received shown.0 shown.1.now };
}

// Appends a receive by this receiver for each of these messages, in their order.
fn append_each<T: Clone, J: Channel>(
    writer: &mut Writer<Step<T>, J>,
    known: &mut Seen<T, J>,
    key: usize,
    msgs: &[T],
)
    requires { 0 < length msgs.now }
    ensures appended { writer.new ≡ writer.old ++ map (received key) msgs.now }
    ensures before { IsPrefix known.old writer.old }
    ensures knows { known.new ≡ writer.new }
{
    for msg in msgs {
        writer.append(known, &(key, msg));
    }
}

impl<T: Clone, J: Channel> CallJournal<T> for StepJournal<T, J> {
    ghost use Rattle.bcast_history.specs.Learning.{again, moves_on};

    type Caller = TrackedCaller<T, J>;

    ghost learns = { Learns T.is_clone J.opening };

    ghost again = { λ before between after call reply last waits first second.
        again waits first second };

    ghost moves_on = { λ before between call reply key waits learned moves.
        moves_on waits learned moves };

    ghost begins = { Begins J.opening };

    ghost records = { λ steps v. Represents v (end_of J.opening steps) };

    #[inline(always)]
    fn append<C: CallOf<T>, A: Allocator + Copy>(
        &mut self,
        caller: &mut TrackedCaller<T, J>,
        call: &Snapshot<C>,
        answer: &C::Answer,
        _before: &Snapshot<Inner<T, Wake, A>>,
        after: &Inner<T, Wake, A>,
    ) {
        let step = ShownStep {
            call,
            answer,
            messages: PhantomData,
        };
        let mut seen = caller.seen();
        self.writer.append(&mut seen, &step);
        caller.read_on(&mut self.registry, seen, after);
    }

    fn append_receiver<A: Allocator + Copy>(
        &mut self,
        caller: &mut TrackedCaller<T, J>,
        call: AddReceiver,
        key: usize,
        _before: &Snapshot<Inner<T, Wake, A>>,
        after: &Inner<T, Wake, A>,
    ) -> TrackedCaller<T, J> {
        let mut seen = caller.seen();
        self.writer.append(&mut seen, &(call, key));
        caller.read_on(&mut self.registry, seen, after);
        let Some(next) = after.cursor(key) else {
            unreachable!()
        };
        let known = caller.seen();
        TrackedCaller::new(&mut self.registry, known, caller.end(), key, next)
    }

    fn append_receives<A: Allocator + Copy>(
        &mut self,
        caller: &mut TrackedCaller<T, J>,
        key: usize,
        msgs: &[T],
        _before: &Snapshot<Inner<T, Wake, A>>,
        after: &Inner<T, Wake, A>,
    ) {
        if msgs.is_empty() {
            return;
        }
        let mut seen = caller.seen();
        append_each(&mut self.writer, &mut seen, key, msgs);
        caller.read_on(&mut self.registry, seen, after);
    }
}
