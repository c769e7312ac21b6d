//! Channels that their program owns, and promises about them: the examples of docs/CONTRACTS.md.
#![tactic(auto)]

mod promises;

use anyhow::Result;
use bcast_core::{Inner, Silent};

/// Two receivers of one message, and what a full channel hands back.
pub fn two_readers(rt: &impl Print, channel: &mut Inner<u64, Silent>, first: usize) -> Result<()> {
    let second = channel.clone_receiver(first)?;
    println!(rt; "{:?}", channel.try_broadcast(10))?;
    println!(rt; "{:?}", channel.try_broadcast(20))?;
    println!(rt; "{:?}", channel.try_recv(first)?)?;
    println!(rt; "{:?}", channel.try_recv(second)?)?;
    Ok(())
}

fn main(rt: HostRuntime) -> Result<()> {
    let (mut channel, first) = Inner::new(rt.alloc(), 1)?;
    two_readers(&rt, &mut channel, first)?;
    show_refusal(&rt, &mut channel)?;
    let got = promises::relay(rt.alloc(), &[3, 1, 4, 1, 5])?;
    println!(rt; "{got:?}")?;
    promises::show_both(&rt, rt.alloc())
}

fn show_refusal(rt: &impl Print, channel: &mut Inner<u64, Silent>) -> Result<()> {
    channel.close();
    if channel.is_closed() {
        println!(rt; "refused: {}", promises::is_refused_as_closed(channel, 7))?;
    }
    Ok(())
}
