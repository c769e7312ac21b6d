//! The calls that lines of a trace name, as text.
ghost use Rattle.std.specs.Prelude.{IfOk, IfSome};
ghost use Rattle.bcast_model.specs.Next.{HasPositiveCapacity};

use bcast_model::messages::Messages;
use bcast_model::run::Call;
use bcast_text::number::{number, numbers, positive};
use std::alloc::{AllocError, Global};
use std::io;
use std::io::Write;

/// The call that `text` is: its variant's name, and the arguments, with one space before each.
/// None: it is not a call.
///
/// # Errors
///
/// - `AllocError`: there is no memory for the messages of a `TryBroadcastAll`. Other calls take no
///   memory.
pub fn read_call(alloc: Global, text: &str) -> Result<Option<Call<u64>>, AllocError>
    ensures { IfOk result (λ read. IfSome read HasPositiveCapacity) }
{
    match text.split_once(' ') {
        Some((name, list)) if name == "TryBroadcastAll" => {
            Ok(numbers(alloc, list)?.map(Call::TryBroadcastAll))
        }
        Some((name, arguments)) => Ok(with_arguments(name, arguments)),
        None => Ok(alone(alloc, text)),
    }
}

/// A call without arguments.
fn alone(alloc: Global, name: &str) -> Option<Call<u64>>
    ensures { IfSome result HasPositiveCapacity }
{
    match name {
        "TryBroadcastAll" => Some(Call::TryBroadcastAll(Messages::new(Vec::new(alloc)))),
        "BeginSend" => Some(Call::BeginSend),
        "Close" => Some(Call::Close),
        "NewSender" => Some(Call::NewSender),
        "CloneInactive" => Some(Call::CloneInactive),
        "NewReceiver" => Some(Call::NewReceiver),
        "Activate" => Some(Call::Activate),
        "ActivateCloned" => Some(Call::ActivateCloned),
        "DropSender" => Some(Call::DropSender),
        "DropInactive" => Some(Call::DropInactive),
        "Overflow" => Some(Call::Overflow),
        "AwaitActive" => Some(Call::AwaitActive),
        "IsEmpty" => Some(Call::IsEmpty),
        "IsFull" => Some(Call::IsFull),
        "IsClosed" => Some(Call::IsClosed),
        "IsTerminated" => Some(Call::IsTerminated),
        "Capacity" => Some(Call::Capacity),
        "Len" => Some(Call::Len),
        "ReceiverCount" => Some(Call::ReceiverCount),
        "InactiveReceiverCount" => Some(Call::InactiveReceiverCount),
        "SenderCount" => Some(Call::SenderCount),
        "EndNumber" => Some(Call::EndNumber),
        _ => None,
    }
}

/// A call with arguments, except `TryBroadcastAll`: its name, and what follows the first space.
fn with_arguments(name: &str, arguments: &str) -> Option<Call<u64>>
    ensures { IfSome result HasPositiveCapacity }
{
    match name {
        "SetCapacity" => Some(Call::SetCapacity(positive(arguments)? as usize)),
        "SetOverflow" => Some(Call::SetOverflow(arguments.parse::<bool>().ok()?)),
        "SetAwaitActive" => Some(Call::SetAwaitActive(arguments.parse::<bool>().ok()?)),
        "PollSend" => {
            let (place, msg) = arguments.split_once(' ')?;
            Some(Call::PollSend(number(place)? as usize, number(msg)?))
        }
        _ => with_number(name, arguments),
    }
}

/// A call with one number: a message, a key or a place.
fn with_number(name: &str, argument: &str) -> Option<Call<u64>>
    ensures { IfSome result HasPositiveCapacity }
{
    let n = number(argument)?;
    match name {
        "TryBroadcast" => Some(Call::TryBroadcast(n)),
        "AttemptSend" => Some(Call::AttemptSend(n)),
        "EndSend" => Some(Call::EndSend(n as usize)),
        "TryRecv" => Some(Call::TryRecv(n as usize)),
        "PollFuture" => Some(Call::PollFuture(n as usize)),
        "EndFuture" => Some(Call::EndFuture(n as usize)),
        "PollRecv" => Some(Call::PollRecv(n as usize)),
        "PollNext" => Some(Call::PollNext(n as usize)),
        "Deactivate" => Some(Call::Deactivate(n as usize)),
        "CloneReceiver" => Some(Call::CloneReceiver(n as usize)),
        "DropReceiver" => Some(Call::DropReceiver(n as usize)),
        _ => None,
    }
}

/// Writes the text of `call`, which `read_call` reads as this call.
///
/// # Errors
///
/// - The error of a write that failed.
pub fn write_call<W: Write>(call: &Call<u64>, output: &mut W) -> io::Result<()> {
    output.write_all(name_of(call).as_bytes())?;
    match call {
        Call::TryBroadcastAll(msgs) => write_messages(msgs, output),
        Call::PollSend(place, msg) => write!(output, " {place} {msg}"),
        Call::SetOverflow(on) | Call::SetAwaitActive(on) => write!(output, " {on}"),
        Call::TryBroadcast(msg) | Call::AttemptSend(msg) => write!(output, " {msg}"),
        Call::EndSend(n)
        | Call::TryRecv(n)
        | Call::PollFuture(n)
        | Call::EndFuture(n)
        | Call::PollRecv(n)
        | Call::PollNext(n)
        | Call::SetCapacity(n)
        | Call::Deactivate(n)
        | Call::CloneReceiver(n)
        | Call::DropReceiver(n) => write!(output, " {n}"),
        _ => Ok(()),
    }
}

/// Writes messages, with a space before each.
pub(crate) fn write_messages<W: Write>(msgs: &Messages<u64>, output: &mut W) -> io::Result<()> {
    for msg in msgs.as_slice() {
        write!(output, " {msg}")?;
    }
    Ok(())
}

/// The call's name.
fn name_of(call: &Call<u64>) -> &'static str {
    match call {
        Call::TryBroadcast(_) => "TryBroadcast",
        Call::TryBroadcastAll(_) => "TryBroadcastAll",
        Call::AttemptSend(_) => "AttemptSend",
        Call::BeginSend => "BeginSend",
        Call::PollSend(_, _) => "PollSend",
        Call::EndSend(_) => "EndSend",
        Call::TryRecv(_) => "TryRecv",
        Call::PollFuture(_) => "PollFuture",
        Call::EndFuture(_) => "EndFuture",
        Call::PollRecv(_) => "PollRecv",
        Call::PollNext(_) => "PollNext",
        Call::Close => "Close",
        Call::SetCapacity(_) => "SetCapacity",
        Call::SetOverflow(_) => "SetOverflow",
        Call::SetAwaitActive(_) => "SetAwaitActive",
        Call::NewSender => "NewSender",
        Call::CloneInactive => "CloneInactive",
        Call::Deactivate(_) => "Deactivate",
        Call::NewReceiver => "NewReceiver",
        Call::Activate => "Activate",
        Call::ActivateCloned => "ActivateCloned",
        Call::CloneReceiver(_) => "CloneReceiver",
        Call::DropSender => "DropSender",
        Call::DropInactive => "DropInactive",
        Call::DropReceiver(_) => "DropReceiver",
        Call::Overflow => "Overflow",
        Call::AwaitActive => "AwaitActive",
        Call::IsEmpty => "IsEmpty",
        Call::IsFull => "IsFull",
        Call::IsClosed => "IsClosed",
        Call::IsTerminated => "IsTerminated",
        Call::Capacity => "Capacity",
        Call::Len => "Len",
        Call::ReceiverCount => "ReceiverCount",
        Call::InactiveReceiverCount => "InactiveReceiverCount",
        Call::SenderCount => "SenderCount",
        Call::EndNumber => "EndNumber",
    }
}
