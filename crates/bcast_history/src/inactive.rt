//! Receivers that receive nothing, and keep the channel open.
ghost use Rattle.std.specs.Prelude.{◌≡◌, Ok, Err, IfOk, IfErr};
ghost use Rattle.bcast_history.specs.Makes.{MakesCall, MakesLast};
ghost use Rattle.bcast_history.specs.Reader.{StartsAtTheEnd};
ghost use Rattle.bcast_history.specs.Tracker.{Tracker as Known};

use crate::port::HistoryPort;
use crate::receiver::TrackedReceiver;
use crate::tracker::{Channel, Seen, Tracker};
use bcast_core::{AddReceiver, Call, Change, HandleError, Reply};

/// Receives nothing, and can become an active receiver, as `InactiveReceiver` of `async_broadcast`.
///
/// Contracts name its `tracker.steps`, a beginning of the steps on the channel. The drop is a step.
pub struct TrackedInactiveReceiver<T: Clone, P: HistoryPort<T, J>, J: Channel> {
    pub(crate) port: P,
    pub(crate) tracker: Tracker<T, J>,
}

impl<T: Clone, P: HistoryPort<T, J>, J: Channel> TrackedInactiveReceiver<T, P, J> {
    /// What it knows, for other callers.
    pub fn seen(&self) -> Seen<T, J>
        ensures { result ≡ self.now.tracker.steps }
    {
        self.tracker.caller.seen()
    }

    /// Turns the inactive receiver into an active one, whose first message is the next one that is
    /// accepted: as `InactiveReceiver::activate`.
    ///
    /// # Errors
    ///
    /// Each hands the inactive receiver back.
    ///
    /// - `Memory`: no memory for its cursor.
    pub fn activate(self) -> Result<TrackedReceiver<T, P, J>, (Self, HandleError)>
        ensures made { IfOk result (λ made. (after : Known T) × (after.steps ≡ made.tracker.steps)
            × MakesCall P.learns T.is_clone J.opening self.tracker
            Call.Activate (Reply.Activate (Ok made.tracker.key)) after) }
        ensures starts { IfOk result (λ made. StartsAtTheEnd J.opening made.tracker) }
        ensures refused { IfErr result (λ back. MakesCall P.learns T.is_clone J.opening self.tracker
            Call.Activate (Reply.Activate (Err back.1)) back.0.tracker) }
    {
        let TrackedInactiveReceiver { port, mut tracker } = self;
        match tracker.add_receiver(&port, AddReceiver::Activate) {
            Ok(made) => Ok(TrackedReceiver::new(port, made)),
            Err(error) => Err((TrackedInactiveReceiver { port, tracker }, error)),
        }
    }
}

impl<T: Clone, P: HistoryPort<T, J>, J: Channel> Drop for TrackedInactiveReceiver<T, P, J> {
    fn drop(self)
        ensures { MakesLast P.learns self.tracker Call.DropInactive Reply.DropInactive }
    {
        let TrackedInactiveReceiver { port, mut tracker } = self;
        tracker.ask(&port, Change::DropInactive);
    }
}
