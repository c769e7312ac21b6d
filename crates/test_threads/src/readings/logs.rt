//! What a `TrackedReceiver` is given till its channel is closed.
ghost use Rattle.bcast_history.specs.Reader.{StartsAtTheFirst};

use super::{Reading, Tracked, send};
use crate::history::{Row, run_row};
use crate::steps::Host;
use bcast_history::{Channel, TimedHistoryPort};
use std::test::Fail;

#[test]
fn a_whole_log_has_each_message(rt: HostRuntime) -> Result<(), Fail> {
    run_row(rt, 2, Row::Read(Reading::WholeLog))
}

#[test]
fn a_log_that_is_cut_short_says_why(rt: HostRuntime) -> Result<(), Fail> {
    run_row(rt, 2, Row::Read(Reading::CutLogs))
}

impl<J: Channel, P: TimedHistoryPort<u64, J>> Tracked<J, P> {
    /// Receives all of two messages, on a channel that is closed.
    pub(super) fn take_whole_log(&mut self, rt: &impl Host) -> Result<(), Fail>
        requires { StartsAtTheFirst J.opening self.old.receiver.tracker }
    {
        let Tracked { sender, receiver } = self;
        send(rt, sender, 1);
        send(rt, sender, 2);
        assert!(rt; sender.close());
        let log = receiver.recv_all_blocking(rt, rt.alloc(), 0)?;
        assert!(rt; matches!(log.into_list().as_slice(), [1, 2]));
        Ok(())
    }

    /// Receives while there is no memory for so many messages; and on a channel of capacity 2, whose
    /// first message was dropped.
    pub(super) fn take_cut_logs(&mut self, rt: &impl Host) -> Result<(), Fail>
        requires { StartsAtTheFirst J.opening self.old.receiver.tracker }
    {
        let Tracked { sender, receiver } = self;
        let mut other = receiver.clone()?;
        let Err(refused) = other.recv_all_blocking(rt, rt.alloc(), usize::MAX) else {
            panic!(rt; "there is memory for any list");
        };
        assert!(rt; refused.list.is_empty() && refused.missed.is_err());
        sender.set_overflow(true);
        for msg in 1..=3 {
            send(rt, sender, msg);
        }
        let Err(cut) = receiver.recv_all_blocking(rt, rt.alloc(), 0) else {
            panic!(rt; "nothing was missed");
        };
        assert!(rt; cut.list.is_empty() && cut.missed == Ok(1));
        assert!(rt; matches!(receiver.try_recv()?, Ok(2)));
        Ok(())
    }
}
