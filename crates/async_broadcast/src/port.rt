//! Ports: how a handle calls its channel.
ghost use Rattle.std.specs.Prelude.{◌≡◌, ◌≤◌, ◌⊎◌, ⊤, ℕ, true, false};
ghost use Rattle.std.specs.Prelude.{IfSome, IfNone, IfOk, IfErr, OnErr};
ghost use Rattle.futures.specs.Task.{IsArmed, Keeps};
ghost use Rattle.bcast_model.specs.Words.{must_wait, HasPositiveCapacity};
ghost use Rattle.bcast_core.specs.Batch.{ReceivesInto};
ghost use Rattle.async_broadcast.specs.Ports.{Gives, IsSame, as_try_recv, moved_by};
ghost use Rattle.async_broadcast.specs.Timed.{as_attempt, as_timed_try};

use crate::timed::{RecvTimeoutError, SendTimeoutError};
use crate::wake::{TaskWaker, Wake};
use bcast_core::{AtOnce, Call, Change, Polls, RecvError, RecvResult, Reply, SendError, SendPoll};
use futures::task::Context;
use std::alloc::Allocator;
use std::time::Duration;

/// Who makes calls on a channel: what it knows of them, and which receivers are its own.
///
/// A call that moves a receiver, or takes it from the channel, is made by the receiver's owner.
/// `()` may make every call, and knows nothing.
pub trait Caller: Drop {
    // Holds of a caller that may move the receiver of this key.
    ghost moves: { Self → ℕ → Type 0 };
}

impl Caller for () {
    ghost moves = { λ _ _. ⊤ };
}

/// The way from a handle to its channel: it makes a call, and returns its reply.
///
/// The contracts of handles and futures hold over every port: what a method returns is the reply
/// that the port gave to the method's call. `K` is who makes the calls. It is lent to each call,
/// which adds itself to what the caller knows.
///
/// This is all that the structs of handles and of futures need of a port. It is small, so that
/// proofs about several futures at once are small too.
pub trait Ask<T: Clone, K: Caller>: Sized + Drop {
    ghost use Rattle.bcast_model.specs.declared.run.Call.{Call};
    ghost use Rattle.bcast_model.specs.declared.run.Reply.{Reply};
    ghost use Rattle.bcast_core.specs.Kinds.{IsOfKind};

    // Holds of a call and a reply that the port may give to it.
    ghost gave: { Self → Call T → Reply T → Type 0 };

    // Holds of a caller before a call, the call and its reply, and the caller then.
    ghost learns: { K → Call T → Reply T → K → Type 0 };

    /// Makes one call that never waits.
    fn ask<C: AtOnce<T>>(&self, caller: &mut K, call: C) -> C::Answer
        requires capacity { HasPositiveCapacity (C.call call) }
        requires moves { IfSome (moved_by (C.call call)) (K.moves caller.old) }
        ensures gave { gave self.now (C.call call) (C.reply call result) }
        ensures learned { learns caller.old (C.call call) (C.reply call result) caller.new };

    /// Makes one call that may have to wait, for a task: one of the four polls, or any call as
    /// data. If it must wait, the task is registered, and a notice for it left there. A port that
    /// needs the notice before it makes the poll registers the task of every poll.
    ///
    /// # Errors
    ///
    /// The call is handed back, and was not made: memory for a notice was refused.
    fn poll<C: Polls<T>>(
        &self,
        caller: &mut K,
        call: C,
        task: &mut TaskWaker,
        cx: &mut Context<'_>,
    ) -> Result<C::Answer, C>
        requires capacity { HasPositiveCapacity (C.call call) }
        requires moves { IfSome (moved_by (C.call call)) (K.moves caller.old) }
        ensures gave { IfOk result (λ answer. gave self.now (C.call call) (C.reply call answer)) }
        ensures learned { IfOk result (λ answer. learns caller.old (C.call call)
            (C.reply call answer) caller.new) }
        ensures back { IfErr result (λ back. (back ≡ call) × (caller.new ≡ caller.old)) }

        ensures notice { IfOk result (λ answer. must_wait (C.reply call answer) ≡ true
            → task.new.is_refused ≡ false) }
        ensures refused { OnErr result (task.new.is_refused ≡ true) }
        ensures registered { IfOk result (λ answer. must_wait (C.reply call answer) ≡ true
            → IsArmed cx.new) }
        ensures again { OnErr result (IsArmed cx.new) }
        ensures kept { Keeps cx.old cx.new };

    /// Gives up the receive of the receiver `key`. `is_answered`: its future's last poll was
    /// answered, and was not out of memory. Asks `EndFuture`; a port may leave that out if it
    /// would change nothing.
    ///
    /// Returns the notice of the receive that was given up, or one that wakes no task if the port
    /// doesn't give notices back.
    fn end_future(&self, caller: &mut K, key: usize, is_answered: bool) -> Wake
        ensures gave { gave self.now (Call.EndFuture key) Reply.EndFuture }
        ensures learned { (caller.new ≡ caller.old)
            ⊎ learns caller.old (Call.EndFuture key) Reply.EndFuture caller.new }
    {
        self.ask(caller, Change::EndFuture(key));
        Wake::none()
    }

    // A reply is of its call's kind.
    ghost of_kind: { (port : Self) (call : Call T) (reply : Reply T)
        → gave port call reply → IsOfKind call reply };
}

/// A port that can also wait, and that handles can share, for callers of this type. `Lock` is the
/// port of a channel that `broadcast` made.
pub trait PortFor<T: Clone, K: Caller>: Ask<T, K> {
    /// Makes an `AttemptSend` again and again, and waits between, until it needn't wait.
    fn send_waiting(&self, caller: &mut K, msg: T) -> Result<Option<T>, SendError<T>>
        ensures gave { Self.gave self.now (Call.AttemptSend msg)
            (Reply.AttemptSend (SendPoll.Ready result)) }
        ensures learned { Self.learns caller.old (Call.AttemptSend msg)
            (Reply.AttemptSend (SendPoll.Ready result)) caller.new };

    /// Makes a `TryRecv` again and again, and waits between, until it doesn't find `Empty`.
    fn receive_waiting(&self, caller: &mut K, key: usize) -> RecvResult<T, RecvError>
        requires moves { K.moves caller.old key }
        ensures gave { Self.gave self.now (Call.TryRecv key) (Reply.TryRecv (as_try_recv result)) }
        ensures learned { Self.learns caller.old (Call.TryRecv key)
            (Reply.TryRecv (as_try_recv result)) caller.new };

    /// Receives those messages that are there for the receiver `key`, at most `limit`, by a
    /// `TryRecv` for each: puts them last into `msgs`, and returns how many they are. A port that
    /// can't make several calls at once receives none.
    fn receive_many<B: Allocator>(
        &self,
        caller: &mut K,
        key: usize,
        limit: usize,
        msgs: &mut Vec<T, B>,
    ) -> usize
        requires moves { K.moves caller.old key }
        ensures at_most { result ≤ limit }
        ensures received { ReceivesInto (Gives Self.gave Self.learns self.now) key
            caller.old msgs.old.items result msgs.new.items caller.new }
    {
        0
    }

    // Holds of a port that may be out of memory for another one.
    ghost lacks_memory: { Self → Type 0 };

    /// Another port of the same channel. None: there was no memory for it.
    fn try_clone(&self) -> Option<Self>
        ensures channel { IfSome result (λ port. IsSame Self.gave port self.now) }
        ensures refused { IfNone result (lacks_memory self.now) };
}

/// A port that can also wait with a limit of time, after which it tries once more. If the clock
/// can't be read, the time counts as over. `Lock` is one if its runtime has a clock.
pub trait TimedPortFor<T: Clone, K: Caller>: PortFor<T, K> {
    /// Sends as `send_waiting` does, until `limit` has passed.
    fn send_within(
        &self,
        caller: &mut K,
        msg: T,
        limit: Duration,
    ) -> Result<Option<T>, SendTimeoutError<T>>
        ensures gave { Self.gave self.now (Call.AttemptSend msg)
            (Reply.AttemptSend (as_attempt result)) }
        ensures learned { Self.learns caller.old (Call.AttemptSend msg)
            (Reply.AttemptSend (as_attempt result)) caller.new };

    /// Receives as `receive_waiting` does, until `limit` has passed.
    fn receive_within(
        &self,
        caller: &mut K,
        key: usize,
        limit: Duration,
    ) -> RecvResult<T, RecvTimeoutError>
        requires moves { K.moves caller.old key }
        ensures gave { Self.gave self.now (Call.TryRecv key) (Reply.TryRecv (as_timed_try result)) }
        ensures learned { Self.learns caller.old (Call.TryRecv key)
            (Reply.TryRecv (as_timed_try result)) caller.new };
}

/// A port whose callers needn't know anything of the channel. Functions over handles are written
/// over it: `P: Port<u64>`.
pub trait Port<T: Clone>: PortFor<T, ()> {}

impl<T: Clone, P: PortFor<T, ()>> Port<T> for P {}

/// Such a port that can also wait with a limit of time.
pub trait TimedPort<T: Clone>: Port<T> + TimedPortFor<T, ()> {}

impl<T: Clone, P: TimedPortFor<T, ()>> TimedPort<T> for P {}
