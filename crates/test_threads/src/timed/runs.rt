//! A thousand runs of threads of which some wait with random limits, and the others without one.
use crate::steps::{Ends, Group, Host, Receiving, Sending, ThreadPort};
use async_broadcast::{
    RecvError, RecvTimeoutError, SendError, SendTimeoutError, TimedPort, broadcast,
};
use bcast_history::{Channel, TimedHistoryPort, TrackedReceiver, TrackedSender};
use rand_core::utils::NextWord;
use rand_pcg::Pcg32;
use std::alloc::AllocError;
use std::sync::Wait;
use std::test::Fail;
use std::time::Duration;

/// What a send with a limit returns.
type Sent = Result<Option<u64>, SendTimeoutError<u64>>;

/// What a receive with a limit returns.
type Received = Result<Result<u64, RecvTimeoutError>, AllocError>;

/// A sender whose calls may have a limit of time.
pub trait Sends: Drop {
    fn send(&mut self, msg: u64, limit: Option<Duration>) -> Sent;
}

/// A receiver whose calls may have a limit of time.
pub trait Receives: Drop {
    fn receive(&mut self, limit: Option<Duration>) -> Received;
}

fn of_send(sent: Result<Option<u64>, SendError<u64>>) -> Sent {
    sent.map_err(|refused| SendTimeoutError::Refused(refused.0))
}

fn of_recv(received: Result<Result<u64, RecvError>, AllocError>) -> Received {
    match received? {
        Ok(msg) => Ok(Ok(msg)),
        Err(RecvError::Overflowed(missed)) => Ok(Err(RecvTimeoutError::Overflowed(missed))),
        Err(RecvError::Closed) => Ok(Err(RecvTimeoutError::Closed)),
    }
}

impl<P: TimedPort<u64>> Sends for Sending<P> {
    fn send(&mut self, msg: u64, limit: Option<Duration>) -> Sent {
        match limit {
            Some(limit) => self.broadcast_timeout(msg, limit),
            None => of_send(self.broadcast_blocking(msg)),
        }
    }
}

impl<P: TimedPort<u64>> Receives for Receiving<P> {
    fn receive(&mut self, limit: Option<Duration>) -> Received {
        match limit {
            Some(limit) => self.recv_timeout(limit),
            None => of_recv(self.recv_blocking()),
        }
    }
}

impl<J: Channel, P: TimedHistoryPort<u64, J>> Sends for TrackedSender<u64, P, J> {
    fn send(&mut self, msg: u64, limit: Option<Duration>) -> Sent {
        match limit {
            Some(limit) => self.broadcast_timeout(msg, limit),
            None => of_send(self.broadcast_blocking(msg)),
        }
    }
}

impl<J: Channel, P: TimedHistoryPort<u64, J>> Receives for TrackedReceiver<u64, P, J> {
    fn receive(&mut self, limit: Option<Duration>) -> Received {
        match limit {
            Some(limit) => self.recv_timeout(limit),
            None => of_recv(self.recv_blocking()),
        }
    }
}

/// How long the calls of a thread wait at most, before it tries again: a random time, or for ever.
#[derive(Drop)]
pub struct Patience(Option<Pcg32>);

impl Patience {
    /// Up to 255 microseconds, random for this run and thread.
    pub fn random(run: u64, thread: u64) -> Patience {
        Patience(Some(Pcg32::new(run, thread)))
    }

    pub fn endless() -> Patience {
        Patience(None)
    }

    fn limit(&mut self) -> Option<Duration> {
        let micros = self.0.as_mut()?.next_word() % 256;
        Some(Duration::from_micros(u64::from(micros)))
    }

    /// Sends a message, as often as the time is over.
    pub fn send<S: Sends>(&mut self, rt: &impl Wait, sender: &mut S, msg: u64) -> Sent {
        for _ in rt.forever() {
            let sent = sender.send(msg, self.limit());
            if sent != Err(SendTimeoutError::Timeout(msg)) {
                return sent;
            }
        }
        unreachable!()
    }

    /// Receives, as often as the time is over.
    pub fn receive<Q: Receives>(&mut self, rt: &impl Wait, receiver: &mut Q) -> Received {
        for _ in rt.forever() {
            let received = receiver.receive(self.limit());
            if received != Ok(Err(RecvTimeoutError::Timeout)) {
                return received;
            }
        }
        unreachable!()
    }
}

pub const RUNS: u64 = 1000;

/// The messages of the first sender, from 0, and those of the second, from here, are so many.
const MESSAGES: u64 = 8;

/// Sends the messages from `first` on.
fn send_all<S: Sends>(rt: &impl Host, first: u64, mut sender: S, mut patience: Patience) {
    for index in 0..MESSAGES {
        let msg = first.wrapping_add(index);
        assert!(rt;
            patience.send(rt, &mut sender, msg).is_ok(),
            "{msg} is sent"
        );
    }
}

/// Receives until the channel is closed. Each message must come once, in the order of its sender,
/// or be counted as missed.
fn receive_all<Q: Receives>(rt: &impl Host, mut receiver: Q, mut patience: Patience) {
    let (mut first, mut second, mut known) = (0, MESSAGES, 0u64);
    for _ in 0..=2 * MESSAGES {
        match patience.receive(rt, &mut receiver) {
            Ok(Ok(msg)) => {
                let next = if msg < MESSAGES {
                    &mut first
                } else {
                    &mut second
                };
                assert!(rt; *next <= msg, "{msg} comes once, and in order");
                *next = msg.wrapping_add(1);
                known = known.wrapping_add(1);
            }
            Ok(Err(RecvTimeoutError::Overflowed(missed))) => known = known.wrapping_add(missed),
            _ => break,
        }
    }
    assert!(rt; known == 2 * MESSAGES, "{known} were received or missed");
}

/// Two threads send, and two receive. Of each two, one has random limits.
pub fn run<S: Sends + Send + 'static, Q: Receives + Send + 'static>(
    rt: impl Host + 'static,
    number: u64,
    senders: (S, S),
    receivers: (Q, Q),
) -> Result<(), Fail> {
    let mut group = Group::new(rt.alloc())?;
    let (one, two) = receivers;
    let (random, endless) = (Patience::random(number, 1), Patience::endless());
    group.start(&rt, move || receive_all(&rt, one, random))?;
    group.start(&rt, move || receive_all(&rt, two, endless))?;
    let (one, two) = senders;
    let (random, endless) = (Patience::random(number, 2), Patience::endless());
    group.start(&rt, move || send_all(&rt, 0, one, random))?;
    group.start(&rt, move || send_all(&rt, MESSAGES, two, endless))?;
    group.join(&rt, "all threads end");
    Ok(())
}

fn run_handles<P: ThreadPort>(
    rt: impl Host + 'static,
    number: u64,
    (mut sender, receiver): Ends<P>,
) -> Result<(), Fail> {
    sender.set_overflow(number % 2 == 1);
    let (other, copy) = (sender.clone()?, receiver.clone()?);
    run(rt, number, (other, sender), (copy, receiver))
}

// Every run ends, in half of them in overflow mode. No wake-up is lost by a thread whose time is
// over, or those that wait without a limit would sleep for ever.
#[test]
fn a_thousand_runs_end(rt: HostRuntime) -> Result<(), Fail> {
    for number in 0..RUNS {
        let capacity = if number % 4 < 2 { 1 } else { 2 };
        run_handles(rt, number, broadcast(rt, rt.alloc(), capacity)?)?;
    }
    Ok(())
}
