//! The journal that a lock may keep of the calls on its channel.
ghost use Rattle.std.specs.Prelude.{◌≡◌, ⊤, ℕ, Ok, false, IfSome};
ghost use Rattle.bcast_model.specs.declared.run.Call.{Call};
ghost use Rattle.bcast_model.specs.declared.run.Reply.{Reply};
ghost use Rattle.bcast_model.specs.Words.{Answers, HasPositiveCapacity, View};
ghost use Rattle.bcast_core.specs.Batch.{ReceivesEach};
ghost use Rattle.bcast_core.specs.Calls.{receiver_call, receiver_reply};
ghost use Rattle.async_broadcast.specs.Ports.{is_answer, moved_by};

use crate::port::Caller;
use crate::wake::Wake;
use bcast_core::{AddReceiver, CallOf, Inner};
use std::alloc::Allocator;
use std::snapshot::Snapshot;

/// What a lock records of the calls on its channel, beside the channel. It is for contracts alone.
pub trait CallJournal<T: Clone>: Sized + Drop {
    /// Who makes calls on the channel, and what it knows of them.
    type Caller: Caller;

    // Holds of a caller before a call, the call and its reply, and the caller then.
    ghost learns: { Self.Caller → Call T → Reply T → Self.Caller → Type 0 };

    // Who makes a call again that had to wait learns of the last one.
    ghost again: { (before between after : Self.Caller) (call : Call T) (reply last : Reply T)
        → is_answer reply ≡ false → learns before call reply between
        → learns between call last after → learns before call last after };

    // Holds of a receiver's key, of who has added the receiver, and of who makes its calls.
    ghost begins: { ℕ → Self.Caller → Self.Caller → Type 0 };

    // Holds of the journal, and of the channel, whenever the lock is free.
    ghost records: { Self → View T → Type 0 };

    /// Records a call that this caller made, and that led from one state of the channel to another.
    fn append<C: CallOf<T>, A: Allocator + Copy>(
        &mut self,
        caller: &mut Self::Caller,
        call: &Snapshot<C>,
        answer: &C::Answer,
        before: &Snapshot<Inner<T, Wake, A>>,
        after: &Inner<T, Wake, A>,
    )
        requires capacity { HasPositiveCapacity (C.call call.now.value) }
        requires moves { IfSome (moved_by (C.call call.now.value)) (Self.Caller.moves caller.old) }
        requires recorded { ∥ records self.old before.now.value ∥₁ }
        requires answers { Answers T.is_clone before.now.value (C.call call.now.value)
            (C.reply call.now.value answer.now) after.now }
        ensures records { ∥ records self.new after.now ∥₁ }
        ensures learned { learns caller.old (C.call call.now.value)
            (C.reply call.now.value answer.now) caller.new };

    /// Records a call that added the receiver `key`. Returns who makes the receiver's calls.
    fn append_receiver<A: Allocator + Copy>(
        &mut self,
        caller: &mut Self::Caller,
        call: AddReceiver,
        key: usize,
        before: &Snapshot<Inner<T, Wake, A>>,
        after: &Inner<T, Wake, A>,
    ) -> Self::Caller
        requires recorded { ∥ records self.old before.now.value ∥₁ }
        requires answers { Answers T.is_clone before.now.value (receiver_call call)
            (receiver_reply call (Ok key)) after.now }
        ensures records { ∥ records self.new after.now ∥₁ }
        ensures learned { learns caller.old (receiver_call call) (receiver_reply call (Ok key))
            caller.new }
        ensures begins { begins key caller.new result };

    /// Records `TryRecv`s of the receiver `key` that this caller made, one after the other, each of
    /// which gave the next of these messages.
    fn append_receives<A: Allocator + Copy>(
        &mut self,
        caller: &mut Self::Caller,
        key: usize,
        msgs: &[T],
        before: &Snapshot<Inner<T, Wake, A>>,
        after: &Inner<T, Wake, A>,
    )
        requires moves { Self.Caller.moves caller.old key }
        requires recorded { ∥ records self.old before.now.value ∥₁ }
        requires received { ReceivesEach (Answers T.is_clone) key
            before.now.value msgs.now after.now }
        ensures records { ∥ records self.new after.now ∥₁ }
        ensures learned { ReceivesEach learns key caller.old msgs.now caller.new };

    // The receiver of a caller that had to wait is still its own.
    ghost moves_on: { (before between : Self.Caller) (call : Call T) (reply : Reply T) (key : ℕ)
        → is_answer reply ≡ false → learns before call reply between
        → Self.Caller.moves before key → Self.Caller.moves between key };
}

/// The journal of a channel that `broadcast` made: it records nothing.
#[derive(Drop)]
pub struct NoJournal;

impl<T: Clone> CallJournal<T> for NoJournal {
    type Caller = ();

    ghost learns = { λ before call reply after. ⊤ };

    ghost again = { λ before between after call reply last waits first second. tt };

    ghost moves_on = { λ before between call reply key waits learned moves. tt };

    ghost begins = { λ key maker made. ⊤ };

    ghost records = { λ journal v. ⊤ };

    #[inline(always)]
    fn append<C: CallOf<T>, A: Allocator + Copy>(
        &mut self,
        _caller: &mut (),
        _call: &Snapshot<C>,
        _answer: &C::Answer,
        _before: &Snapshot<Inner<T, Wake, A>>,
        _after: &Inner<T, Wake, A>,
    ) {}

    #[inline(always)]
    fn append_receiver<A: Allocator + Copy>(
        &mut self,
        _caller: &mut (),
        _call: AddReceiver,
        _key: usize,
        _before: &Snapshot<Inner<T, Wake, A>>,
        _after: &Inner<T, Wake, A>,
    ) {}

    #[inline(always)]
    #[tactic(auto, using(crate::proofs::Batches::each_unlearned))]
    fn append_receives<A: Allocator + Copy>(
        &mut self,
        _caller: &mut (),
        _key: usize,
        _msgs: &[T],
        _before: &Snapshot<Inner<T, Wake, A>>,
        _after: &Inner<T, Wake, A>,
    ) {}
}
