//! Two messages that stand in order.
ghost use Rattle.std.specs.Prelude.{◌≡◌, true};
ghost use Rattle.one_history.specs.Order.{StandInOrder};

use bcast_history::{Channel, HistoryPort, TrackedSender, sends_stand_last};

/// Sends two messages, and returns whether both were accepted. Then the second stands after the
/// first, whatever other threads sent in between, and before both stands all that the sender knew.
pub fn send_both<J: Channel, P: HistoryPort<u64, J>>(
    sender: &mut TrackedSender<u64, P, J>,
    first: u64,
    second: u64,
) -> bool
    ensures { result ≡ true → StandInOrder J.opening sender.old.tracker.steps first second
        sender.new.tracker.steps }
{
    sends_stand_last::<u64>();
    sender.try_broadcast(first).is_ok() && sender.try_broadcast(second).is_ok()
}
