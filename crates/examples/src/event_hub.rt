//! An event hub: a publisher waits until the slowest subscriber has room, and the hub stays open
//! while there is no subscriber.
ghost use Rattle.std.specs.Prelude.{IfOk};

use anyhow::Result;
use async_broadcast::{InactiveReceiver, Port, Receiver, Sender, broadcast};
use futures::Future;
use futures::executor::block_on;
use futures::future::join3;
use std::alloc::AllocGlobal;
use std::io;
use std::random::RandomSource;
use std::sync::Wait;

/// Two handles of the channel: the inactive one keeps it open, and makes the subscribers.
#[derive(Drop)]
struct Hub<E: Clone, P: Port<E>> {
    events: Sender<E, P>,
    idle: InactiveReceiver<E, P>,
}

impl<E: Clone, P: Port<E>> Hub<E, P> {
    fn new(events: Sender<E, P>, first: Receiver<E, P>) -> Result<Self> {
        let idle = first.deactivate().map_err(|(_first, error)| error)?;
        Ok(Hub { events, idle })
    }

    /// Publishes an event while both subscribers receive one, so that a full hub gets room.
    fn publish_to<R: Wait + RandomSource + AllocGlobal>(
        &self,
        rt: &R,
        event: E,
        one: &mut Receiver<E, P>,
        two: &mut Receiver<E, P>,
    ) -> Result<(E, E)> {
        let send = self.events.broadcast_direct(event)?;
        let (sent, a, b) = wait_for(rt, send, one.recv_direct(), two.recv_direct())?;
        sent??;
        Ok((a??, b??))
    }
}

/// Waits for all three.
fn wait_for<R, A, B, C>(rt: &R, a: A, b: B, c: C) -> io::Result<(A::Output, B::Output, C::Output)>
where
    R: Wait + RandomSource + AllocGlobal,
    A: Future<Output: Drop> + Drop,
    B: Future<Output: Drop> + Drop,
    C: Future<Output: Drop> + Drop,
    requires { A.can_poll a × B.can_poll b × C.can_poll c }
    ensures { IfOk result (λ all. A.gives a all.0 × B.gives b all.1 × C.gives c all.2) }
{
    block_on(rt, join3(a, b, c))
}

fn talk<R, P>(rt: &R, hub: &Hub<String, P>) -> Result<()>
where
    R: Wait + RandomSource + AllocGlobal + Print,
    P: Port<String>,
{
    let mut one = hub.idle.activate_cloned()?;
    let mut two = hub.idle.activate_cloned()?;
    let opened = format!(in rt.alloc(); "door opened")?;
    hub.events.try_broadcast(opened)?;
    let closed = format!(in rt.alloc(); "door closed")?;
    let (a, b) = hub.publish_to(rt, closed, &mut one, &mut two)?;
    println!(rt; "{a}, {b}, and {} more", hub.events.len())?;
    Ok(())
}

pub fn run<R: Wait + RandomSource + AllocGlobal + Print>(rt: &R) -> Result<()> {
    let (events, first) = broadcast(rt, rt.alloc(), 1)?;
    open(rt, &Hub::new(events, first)?)
}

/// Publishes to nobody, and then to two subscribers, which leave again.
fn open<R, P>(rt: &R, hub: &Hub<String, P>) -> Result<()>
where
    R: Wait + RandomSource + AllocGlobal + Print,
    P: Port<String>,
{
    let lost = format!(in rt.alloc(); "nobody hears")?;
    if let Err(error) = hub.events.try_broadcast(lost) {
        println!(rt; "{error}")?;
    }
    talk(rt, hub)?;
    println!(rt; "closed: {}", hub.events.is_closed())?;
    Ok(())
}
