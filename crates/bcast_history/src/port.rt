//! Ports of a channel whose calls have their places in one history.
ghost use Rattle.std.specs.Prelude.{ℕ, Ok, Err, IfOk, IfErr};
ghost use Rattle.bcast_model.specs.declared.run.Call.{Call};
ghost use Rattle.bcast_model.specs.declared.run.Reply.{Reply};
ghost use Rattle.bcast_core.specs.Calls.{receiver_call, receiver_reply};
ghost use Rattle.bcast_history.specs.Tracker.{Begins, Learns, Tracker};

use crate::steps::StepJournal;
use crate::tracker::{Channel, TrackedCaller};
use async_broadcast::{CallJournal, Lock, PortFor, TimedPortFor};
use bcast_core::{AddReceiver, HandleError};
use std::alloc::{Allocator, Global};
use std::sync::Wait;

/// A port to the channel that `J` names, for its handles. Functions over tracked handles are
/// written over it: `P: HistoryPort<u64, J>`. `History` is one.
pub trait HistoryPort<T: Clone, J: Channel>: PortFor<T, TrackedCaller<T, J>> {
    /// Adds a receiver by this call, with its errors. Returns the receiver's key, and who makes its
    /// calls, which knows as much as `caller` then.
    fn add_receiver(
        &self,
        caller: &mut TrackedCaller<T, J>,
        call: AddReceiver,
    ) -> Result<(usize, TrackedCaller<T, J>), HandleError>
        ensures learned { IfOk result (λ made. Self.learns caller.old
            (receiver_call call) (receiver_reply call (Ok made.0)) caller.new) }
        ensures begins { IfOk result (λ made. Begins J.opening made.0 caller.new made.1) }
        ensures refused { IfErr result (λ error. Self.learns caller.old
            (receiver_call call) (receiver_reply call (Err error)) caller.new) };

    // A call adds itself, and those before it, to what its caller knows.
    ghost follows: { (known after : Tracker T) (call : Call T) (reply : Reply T)
        → Self.learns known call reply after
        → Learns T.is_clone J.opening known call reply after };
}

/// Such a port that can also wait with a limit of time.
pub trait TimedHistoryPort<T: Clone, J: Channel>: HistoryPort<T, J>
    + TimedPortFor<T, TrackedCaller<T, J>> {}

impl<
    T: Clone,
    J: Channel,
    P: HistoryPort<T, J> + TimedPortFor<T, TrackedCaller<T, J>>,
> TimedHistoryPort<T, J> for P {}

/// The journal of a lock whose port is such a port. `StepJournal` is one.
///
/// It is a trait of its own, and not `StepJournal` alone, since the checker can't yet give `u64` to
/// an impl of `HistoryPort` that names `StepJournal<T, J>`.
pub trait TracksCalls<T: Clone, J: Channel>: CallJournal<T, Caller = TrackedCaller<T, J>> {
    ghost follows: { (known after : Tracker T) (call : Call T) (reply : Reply T)
        → Self.learns known call reply after
        → Learns T.is_clone J.opening known call reply after };

    ghost starts: { (key : ℕ) (maker made : Tracker T)
        → Self.begins key maker made → Begins J.opening key maker made };
}

impl<T: Clone, J: Channel> TracksCalls<T, J> for StepJournal<T, J> {
    ghost follows = { λ known after call reply learned. learned };

    ghost starts = { λ key maker made begins. begins };
}

/// The port of a channel that `broadcast` made.
pub type History<T, R, J, A = Global> = Lock<T, R, A, StepJournal<T, J>>;

impl<T: Clone, R: Wait + Clone, J: Channel, A: Allocator + Copy, K: TracksCalls<T, J>> HistoryPort<
    T,
    J,
> for Lock<T, R, A, K> {
    ghost follows = { λ known after call reply learned.
        K.TracksCalls.follows known after call reply learned };

    fn add_receiver(
        &self,
        caller: &mut TrackedCaller<T, J>,
        call: AddReceiver,
    ) -> Result<(usize, TrackedCaller<T, J>), HandleError> {
        Lock::add_receiver(self, caller, call)
    }
}
