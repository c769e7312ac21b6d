//! What its program may promise of a channel. The first follows from a law, with no proof file.
ghost use Rattle.std.specs.Prelude.{◌≡◌, ◌+◌, ◌^◌, ◌<◌, ◌∷◌, ◌++◌, [], length, true, IfOk, OnOk};
ghost use Rattle.uses.specs.Log.{unread, IsLog, IsReader};
ghost use Rattle.uses.specs.Reading.{HasRoom};

use anyhow::Result;
use bcast_core::{HandleError, Inner, Silent, TrySendError};
use bcast_laws::stays_closed;
use std::alloc::{AllocError, Global};
use uses::laws::{clones_with_room, opens_with_room, reads_in_order, sends_with_room};

/// Whether a send on a closed channel is refused for that reason: it is.
pub fn is_refused_as_closed(channel: &mut Inner<u64, Silent>, number: u64) -> bool
    requires { channel.old.control.closed ≡ true }
    ensures { result ≡ true }
{
    stays_closed::<u64>();
    matches!(channel.try_broadcast(number), Err(TrySendError::Closed(_)))
}

/// Clones a receiver and sends a number, for which there is room. Returns the key of the clone:
/// both are to be given the number last.
///
/// # Errors
///
/// `Memory`: there is no memory for the clone. Nothing was sent.
pub fn send_to_both(
    channel: &mut Inner<u64, Silent>,
    first: usize,
    number: u64,
) -> Result<usize, HandleError>
    requires room { HasRoom channel.old 1 }
    requires reader { IsReader channel.old first }
    ensures first { OnOk result
        (unread channel.new first ≡ unread channel.old first ++ number ∷ []) }
    ensures second { IfOk result (λ second.
        unread channel.new second ≡ unread channel.old first ++ number ∷ []) }
{
    clones_with_room::<u64>();
    sends_with_room::<u64>();
    let second = channel.clone_receiver(first)?;
    match channel.try_broadcast(number) {
        Ok(_) => Ok(second),
        Err(_) => unreachable!(),
    }
}

/// Sends all numbers over a new channel, and returns them as they are received: in order.
///
/// # Errors
///
/// `AllocError`: there is no memory for the channel or for the list.
pub fn relay(alloc: Global, numbers: &[u64]) -> Result<Vec<u64>, AllocError>
    requires some { 0 < length numbers.now }
    requires few { length numbers.now + 1 < 2 ^ 64 }
    ensures { IfOk result (λ got. got.items ≡ numbers.now) }
{
    opens_with_room::<u64>();
    let (mut channel, reader) = Inner::<u64, Silent>::new(alloc, numbers.len())?;
    send_all(&mut channel, numbers, reader);
    receive_all(alloc, &mut channel, reader, numbers.len())
}

// There is room for all of them.
fn send_all(channel: &mut Inner<u64, Silent>, numbers: &[u64], reader: usize)
    requires room { HasRoom channel.old (length numbers.now) }
    requires reader { IsReader channel.old reader }
    ensures log { IsLog channel.new }
    ensures added { unread channel.new reader ≡ unread channel.old reader ++ numbers.now }
{
    sends_with_room::<u64>();
    for number in numbers {
        match channel.try_broadcast(*number) {
            Ok(_) => {}
            Err(_) => unreachable!(),
        }
    }
}

// Receives `count` messages, which are all that there are.
fn receive_all(
    alloc: Global,
    channel: &mut Inner<u64, Silent>,
    reader: usize,
    count: usize,
) -> Result<Vec<u64>, AllocError>
    requires log { IsLog channel.old }
    requires count { length (unread channel.old reader) ≡ count }
    ensures { IfOk result (λ got. got.items ≡ unread channel.old reader) }
{
    reads_in_order::<u64>();
    let mut got = Vec::new(alloc);
    for _ in 0..count {
        match channel.try_recv(reader)? {
            Ok(number) => got.push(number)?,
            Err(_) => unreachable!(),
        }
    }
    Ok(got)
}

/// Shows what both are given, of a new channel.
pub fn show_both(rt: &impl Print, alloc: Global) -> Result<()> {
    opens_with_room::<u64>();
    let (mut channel, first) = Inner::new(alloc, 1)?;
    let second = send_to_both(&mut channel, first, 7)?;
    println!(rt; "{:?}", channel.try_recv(first)?)?;
    println!(rt; "{:?}", channel.try_recv(second)?)?;
    Ok(())
}
