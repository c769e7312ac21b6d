//! Two threads that reply to each other over two channels.
use crate::steps::{Ends, Group, Host, ThreadPort};
use crate::timed::runs::Patience;
use async_broadcast::{TimedPort, broadcast};
use std::test::Fail;

/// How many messages each thread sends.
const ROUNDS: u64 = 500;

// No thread can finish alone: each waits for what the other sends.
#[test]
fn handshake(rt: HostRuntime) -> Result<(), Fail> {
    both_finish(rt, (Patience::endless(), Patience::endless()))
}

// As in `handshake`, with random limits of time.
#[test]
fn handshake_with_limits(rt: HostRuntime) -> Result<(), Fail> {
    both_finish(rt, (Patience::random(0, 1), Patience::random(0, 2)))
}

fn both_finish(rt: impl Host + 'static, patience: (Patience, Patience)) -> Result<(), Fail> {
    let (there, back) = (broadcast(rt, rt.alloc(), 1)?, broadcast(rt, rt.alloc(), 1)?);
    play_both(rt, there, back, patience)
}

fn play_both<P: ThreadPort>(
    rt: impl Host + 'static,
    there: Ends<P>,
    back: Ends<P>,
    patience: (Patience, Patience),
) -> Result<(), Fail> {
    let (asking, answering) = ((there.0, back.1), (back.0, there.1));
    let (first, second) = patience;
    let mut group = Group::new(rt.alloc())?;
    group.start(&rt, move || play(&rt, true, asking, first))?;
    group.start(&rt, move || play(&rt, false, answering, second))?;
    group.join(&rt, "both threads finish");
    Ok(())
}

// Sends each number, and waits until it is sent back; or waits for each number, and sends it back.
fn play<P: TimedPort<u64>>(
    rt: &impl Host,
    asks: bool,
    (mut sender, mut receiver): Ends<P>,
    mut patience: Patience,
) {
    for number in 1..=ROUNDS {
        if asks {
            assert!(rt; patience.send(rt, &mut sender, number) == Ok(None));
        }
        assert!(rt; patience.receive(rt, &mut receiver) == Ok(Ok(number)));
        if !asks {
            assert!(rt; patience.send(rt, &mut sender, number) == Ok(None));
        }
    }
}
