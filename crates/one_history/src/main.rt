//! A log fan-out: two threads send, and each promises where its messages stand. Then two threads
//! receive all that was sent, and it is proved that both have the same list.
#![tactic(auto)]

ghost use Rattle.std.specs.Prelude.{◌≡◌, IfOk};

mod order;

use anyhow::Result;
use bcast_history::{Channel, HistoryPort, Opened, TrackedSender, broadcast};
use order::send_both;
use std::alloc::AllocGlobal;
use std::marker::Brand;
use std::sync::Wait;
use std::thread::{self, Threads};

fn main(rt: HostRuntime) -> Result<()> {
    let opened = Opened::new(rt.alloc(), 4)?;
    let (log, same) = fan_out::<Brand, _>(&rt, opened)?;
    println!(rt; "messages in the log: {}", log.len())?;
    println!(rt; "both logs are the same: {}", log == same)?;
    Ok(())
}

fn fan_out<J: Channel + Send + Sync, R: Threads + Wait + Sync + Print + AllocGlobal>(
    rt: &R,
    opened: Opened<u64>,
) -> Result<(Vec<u64>, Vec<u64>)>
    requires { (opened.book ≡ J.book) × (opened.opening ≡ J.opening)
        × (opened.registry ≡ J.registry) }
    ensures { IfOk result (λ logs. logs.0.items ≡ logs.1.items) }
{
    let alloc = rt.alloc();
    let (sender, mut receiver) = broadcast::<u64, _, J, _>(rt, alloc, opened)?;
    let mut copy = receiver.clone()?;
    send_from_two_threads(rt, sender)?;
    let (log, same) = thread::join(
        rt,
        || receiver.recv_all_blocking(rt, alloc, 0),
        || copy.recv_all_blocking(rt, alloc, 0),
    );
    Ok(log?.into_lists(same?))
}

fn send_from_two_threads<J, R, P>(rt: &R, mut sender: TrackedSender<u64, P, J>) -> Result<()>
where
    J: Channel + Send + Sync,
    R: Threads + Wait + Sync + Print + AllocGlobal,
    P: HistoryPort<u64, J> + Send + Sync,
{
    let mut other = sender.clone()?;
    let (odd, even) = thread::join(
        rt,
        || send_both(&mut sender, 1, 3),
        || send_both(&mut other, 2, 4),
    );
    println!(rt; "1 stands before 3: {odd}")?;
    println!(rt; "2 stands before 4: {even}")?;
    Ok(())
}
