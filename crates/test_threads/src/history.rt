//! Threads over a channel whose handles promise one history.
ghost use Rattle.std.specs.Prelude.{◌≡◌, ◌<◌};
ghost use Rattle.bcast_history.specs.Reader.{StartsAtTheFirst};

use crate::readings::{Reading, Tracked};
use crate::steps::Host;
use crate::timed::runs::{RUNS, run};
use bcast_history::{
    Channel, HistoryPort, Opened, TimedHistoryPort, TrackedReceiver, TrackedSender, broadcast,
};
use std::alloc::AllocError;
use std::marker::Brand;
use std::process::Abort;
use std::test::Fail;
use std::thread::join;

/// How many messages each sender sends.
const SHARE: u64 = 2000;

type List = Result<Vec<u64>, AllocError>;

/// What is done on a channel of its own.
#[derive(Clone, Copy)]
pub enum Row {
    /// The run of this number, of the thousand.
    Run(u64),
    /// Two threads send, and two receive.
    Share,
    Read(Reading),
}

/// Does this on a new channel that keeps at most `capacity` messages.
pub fn run_row<R: Host + 'static>(rt: R, capacity: usize, row: Row) -> Result<(), Fail>
    requires { 0 < capacity }
{
    let opened = Opened::new(rt.alloc(), capacity)?;
    run_over::<Brand, R>(rt, opened, row)
}

fn run_over<J, R>(rt: R, opened: Opened<u64>, row: Row) -> Result<(), Fail>
where
    J: Channel + Send + Sync + 'static,
    R: Host + 'static,
    requires { (opened.book ≡ J.book) × (opened.opening ≡ J.opening)
        × (opened.registry ≡ J.registry) }
{
    let (sender, receiver) = broadcast::<u64, R, J, _>(rt, rt.alloc(), opened)?;
    Tracked { sender, receiver }.do_row(rt, row)
}

// The handles make the same calls as those of a channel that keeps no history.
#[test]
fn a_thousand_runs_over_a_history_end(rt: HostRuntime) -> Result<(), Fail> {
    for number in 0..RUNS {
        run_row(rt, 1, Row::Run(number))?;
    }
    Ok(())
}

// Each sender is told at which number of the history each of its messages stands, and there both
// receivers find it.
#[test]
fn messages_stand_where_their_senders_were_told(rt: HostRuntime) -> Result<(), Fail> {
    run_row(rt, 4, Row::Share)
}

impl<J, P> Tracked<J, P>
where
    J: Channel + Send + Sync + 'static,
    P: TimedHistoryPort<u64, J> + Send + 'static,
{
    fn do_row(mut self, rt: impl Host + 'static, row: Row) -> Result<(), Fail>
        requires { StartsAtTheFirst J.opening self.receiver.tracker }
    {
        match row {
            Row::Run(number) => self.run_all(rt, number),
            Row::Share => self.share(rt),
            Row::Read(reading) => self.read(&rt, reading),
        }
    }

    /// Has two threads send and two receive, of which one each has random limits.
    fn run_all(self, rt: impl Host + 'static, number: u64) -> Result<(), Fail> {
        let Tracked {
            mut sender,
            mut receiver,
        } = self;
        sender.set_overflow(number % 2 == 1);
        let (other, copy) = (sender.clone()?, receiver.clone()?);
        run(rt, number, (other, sender), (copy, receiver))
    }

    /// Has two threads send and two receive, and compares what these got.
    fn share(self, rt: impl Host) -> Result<(), Fail> {
        let Tracked {
            mut sender,
            mut receiver,
        } = self;
        let (other, copy) = (sender.clone()?, receiver.clone()?);
        let ((first, second), (log, same)) = join(
            &rt,
            move || join(
                &rt,
                move || send_all(&rt, sender, 0),
                move || send_all(&rt, other, SHARE),
            ),
            move || join(
                &rt,
                move || receive_all(&rt, receiver),
                move || receive_all(&rt, copy),
            ),
        );
        let log = log?;
        assert!(&rt; log == same? && log.len() as u64 == 2 * SHARE);
        expect_there(&rt, log.as_slice(), 0, first?.as_slice());
        expect_there(&rt, log.as_slice(), SHARE, second?.as_slice());
        Ok(())
    }
}

/// Sends the messages from `first` on, and returns the number at which each stands.
fn send_all<J: Channel, P: HistoryPort<u64, J>>(
    rt: &impl Host,
    mut sender: TrackedSender<u64, P, J>,
    first: u64,
) -> List {
    let mut places = Vec::new(rt.alloc());
    for msg in first..first.wrapping_add(SHARE) {
        if sender.broadcast_blocking(msg).is_ok() {
            places.push(sender.end().wrapping_sub(1))?;
        }
    }
    Ok(places)
}

/// Receives until the channel is closed.
fn receive_all<J: Channel, P: HistoryPort<u64, J>>(
    rt: &impl Host,
    mut receiver: TrackedReceiver<u64, P, J>,
) -> List {
    let mut log = Vec::new(rt.alloc());
    for _ in rt.forever() {
        match receiver.recv_blocking()? {
            Ok(msg) => log.push(msg)?,
            Err(_) => break,
        }
    }
    Ok(log)
}

// The messages from `first` on stand at these places of the log.
fn expect_there(rt: &impl Abort, log: &[u64], first: u64, places: &[u64]) {
    assert!(rt; places.len() as u64 == SHARE, "all were sent");
    for (index, place) in places.iter().enumerate() {
        let msg = first.wrapping_add(index as u64);
        assert!(rt;
            log.get(*place as usize) == Some(&msg),
            "{msg} stands at {place}"
        );
    }
}
