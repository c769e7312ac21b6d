//! Two threads and a task over one channel: the first example of README.md.
#![tactic(auto)]

use anyhow::Result;
use async_broadcast::broadcast;
use futures::executor::block_on;
use std::thread;

fn main(rt: HostRuntime) -> Result<()> {
    let (sender, mut one) = broadcast::<u64, _, _>(&rt, rt.alloc(), 1)?;
    let mut two = one.clone()?;
    // One thread sends, and drops the last sender, while another waits for the message.
    let (_, received) = thread::join(
        &rt,
        move || sender.broadcast_blocking(7),
        move || one.recv_blocking(),
    );
    println!(rt; "{}", received??)?;
    println!(rt; "{}", block_on(&rt, two.recv_direct())???)?;
    if let Err(error) = two.try_recv()? {
        println!(rt; "{error}")?;
    }
    Ok(())
}
