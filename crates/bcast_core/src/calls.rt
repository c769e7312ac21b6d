//! Each call on a channel as a type, so that what is done with any call is written once.
//!
//! | type | its calls | what they return |
//! |---|---|---|
//! | `Count`, `Test`, `EndNumber` | the twelve that read | a number; whether it is so |
//! | `AddReceiver`, `AddHandle` | the seven that make a handle | the new receiver's key; nothing |
//! | `Change` | the seven that can't fail | nothing |
//! | `Close`, `SetCapacity`, `BeginSend` | one each | as the state calls of their names |
//! | `TryBroadcast`, `TryBroadcastAll`, `AttemptSend`, `TryRecv` | one each | as these |
//! | `PollSend`, `PollFuture`, `PollRecv`, `PollNext` | the four polls | as these |
ghost use Rattle.std.specs.Prelude.{◌≡◌, true, false, IfOk, IfErr, OnErr};
ghost use Rattle.bcast_model.specs.declared.run.Call.{Call};
ghost use Rattle.bcast_model.specs.declared.run.Reply.{Reply};
ghost use Rattle.bcast_model.specs.Words.{HasPositiveCapacity, Answers, must_wait};
ghost use Rattle.bcast_model.specs.Replies.{is_receive_refused};
ghost use Rattle.bcast_core.specs.Kinds.{IsOfKind};

use crate::state::Inner;
use bcast_model::run::{Call, Reply};
use bcast_waiting::notice::{MakesNotice, Notice};
use std::alloc::Allocator;

pub mod handles;
pub mod messages;
pub mod reads;
pub mod waiting;

/// A call on a channel: contracts name the call that it is, and the reply that holds its answer.
pub trait CallOf<T>: Drop {
    /// What the call returns.
    type Answer;

    // The call, as data.
    ghost call: { Self → Call T };

    // The reply to it that holds this answer.
    ghost reply: { Self → Self.Answer → Reply T };

    /// Has the call answered as data.
    fn answered_by<R: RepliesTo<T>>(self, port: &R) -> Self::Answer
        ensures { R.gave port.now (call self) (reply self result) };
}

/// What replies to calls as data: a port that is written by hand, for all calls at once.
pub trait RepliesTo<T> {
    // Holds of a call and a reply that may be given to it.
    ghost gave: { Self → Call T → Reply T → Type 0 };

    /// Replies to a call.
    fn reply_to(&self, call: Call<T>) -> Reply<T>
        ensures gave { gave self.now call result }
        ensures kind { IsOfKind call result };
}

/// A call that never waits.
pub trait AtOnce<T: Clone>: CallOf<T> {
    /// Makes the call.
    fn make<N: Notice, A: Allocator + Copy>(self, inner: &mut Inner<T, N, A>) -> Self::Answer
        requires { HasPositiveCapacity (Self.call self) }
        ensures answers { Answers T.is_clone inner.old (Self.call self) (Self.reply self result)
            inner.new }
        // If no clone fails, no receive is refused.
        ensures sure { ((msg : T) → T.is_infallible msg)
            → is_receive_refused (Self.reply self result) ≡ false };
}

/// A call that may have to wait, and leaves a notice then.
pub trait Polls<T: Clone>: CallOf<T> {
    /// Makes the call. `maker` makes the notice if it must wait, and isn't called otherwise.
    ///
    /// # Errors
    ///
    /// The call is returned: no notice was made, and nothing changed.
    fn make_for<N: Notice, A: Allocator + Copy, M: MakesNotice<N>>(
        self,
        inner: &mut Inner<T, N, A>,
        maker: &mut M,
    ) -> Result<Self::Answer, Self>
        requires { HasPositiveCapacity (Self.call self) }
        ensures answers { IfOk result (λ answer. Answers T.is_clone inner.old (Self.call self)
            (Self.reply self answer) inner.new) }
        // If no clone fails, no receive is refused.
        ensures sure { ((msg : T) → T.is_infallible msg)
            → IfOk result (λ answer. is_receive_refused (Self.reply self answer) ≡ false) }

        ensures made { IfOk result (λ answer. must_wait (Self.reply self answer) ≡ true
            → M.made maker.old maker.new) }
        ensures idle { IfOk result (λ answer. must_wait (Self.reply self answer) ≡ false
            → maker.new ≡ maker.old) }
        ensures back { IfErr result (λ back. back ≡ self) }
        ensures same { OnErr result (inner.new ≡ inner.old) }
        ensures refused { OnErr result (M.refused maker.old maker.new) };
}
