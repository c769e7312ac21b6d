//! The calls that lines ask for, and what their replies do to the names of receivers.
ghost use Rattle.std.specs.Prelude.{◌≡◌, ◌<◌, ℕ, List, OnOk, IfOk, IfSome};
ghost use Rattle.std.specs.BTreeMap.{get_by_text};
ghost use Rattle.bcast_model.specs.Next.{HasPositiveCapacity};
ghost use Rattle.bcast_text.specs.ScriptLine.{IsInForm};
ghost use Rattle.bcast_text.specs.ScriptCall.{call_of, batch_of, names_after, unless_used};

use crate::script::line::Line;
use crate::script::name::{Names, free_name, give_name};
use bcast_model::run::{Call, Reply};
use std::alloc::{AllocError, Allocator};

/// The key of each receiver, by its name.
pub type Keys<A> = Names<usize, A>;

/// The key of the receiver with this name.
fn key_by<A: Allocator>(names: &Keys<A>, name: &str) -> Option<usize>
    ensures { result ≡ get_by_text names.now name.now }
{
    names.get(name).copied()
}

/// `call`, which makes a receiver under a new name: none if the name is in use.
fn under<A: Allocator>(names: &Keys<A>, new: &str, call: Option<Call<u64>>) -> Option<Call<u64>>
    ensures { result ≡ unless_used (get_by_text names.now) new.now call }
{
    if names.contains_key(new) { None } else { call }
}

/// The call that `line` asks for. None: it makes a channel or asks for a batch, a name in it must
/// be in use and is not, or the new name is in use already.
///
/// # Errors
///
/// - `AllocError`: there is no memory for the messages of a `sendall`. Other lines take no memory.
pub fn call_by<A: Allocator>(
    names: &Keys<A>,
    line: &Line<'_>,
) -> Result<Option<Call<u64>>, AllocError>
    requires { IsInForm line.now }
    ensures call { IfOk result (λ call. call ≡ call_of (get_by_text names.now) line.now) }
    ensures positive { IfOk result (λ call. IfSome call HasPositiveCapacity) }
{
    Ok(match line {
        Line::Cap(_) | Line::RecvMany(..) => None,
        Line::Send(msg) => Some(Call::TryBroadcast(*msg)),
        Line::SendAll(msgs) => Some(Call::TryBroadcastAll(msgs.copied()?)),
        Line::Recv(name) => key_by(names, name).map(Call::TryRecv),
        Line::Clone(name, new) => {
            let key = key_by(names, name);
            under(names, new, key.map(Call::CloneReceiver))
        }
        Line::New(new) => under(names, new, Some(Call::NewReceiver)),
        Line::Drop(name) => key_by(names, name).map(Call::DropReceiver),
        Line::NewSender => Some(Call::NewSender),
        Line::DropSender => Some(Call::DropSender),
        Line::Close => Some(Call::Close),
        Line::Capacity(n) => Some(Call::SetCapacity(*n as usize)),
        Line::Overflow(on) => Some(Call::SetOverflow(*on)),
        Line::Await(on) => Some(Call::SetAwaitActive(*on)),
        Line::Deactivate(name) => key_by(names, name).map(Call::Deactivate),
        Line::Activate(new) => under(names, new, Some(Call::Activate)),
        Line::DropInactive => Some(Call::DropInactive),
        Line::Len => Some(Call::Len),
    })
}

/// The receiver of the batch that `line` asks for, and its limit. None: it asks for none, or the
/// name in it is not in use.
pub fn batch_by<A: Allocator>(names: &Keys<A>, line: &Line<'_>) -> Option<(usize, usize)>
    requires { IsInForm line.now }
    ensures batch { result ≡ batch_of (get_by_text names.now) line.now }
    ensures positive { IfSome result (λ batch. 0 < batch.1) }
{
    match line {
        Line::RecvMany(name, limit) => Some((key_by(names, name)?, *limit as usize)),
        _ => None,
    }
}

/// Gives the receiver that `reply` made its name, or frees the name of the one that left.
///
/// Takes memory for a new name.
///
/// # Errors
///
/// - `AllocError`: there is no memory for the name.
pub fn record<A: Allocator + Copy>(
    alloc: A,
    names: &mut Keys<A>,
    line: &Line<'_>,
    reply: &Reply<u64>,
) -> Result<(), AllocError>
    ensures ok { OnOk result ((name : List ℕ) → get_by_text names.new name
        ≡ names_after (get_by_text names.old) line.now reply.now name) }
{
    match (line, reply) {
        (Line::Clone(_, new), Reply::CloneReceiver(Ok(key)))
        | (Line::New(new), Reply::NewReceiver(Ok(key)))
        | (Line::Activate(new), Reply::Activate(Ok(key))) => {
            return give_name(alloc, names, new, *key);
        }
        (Line::Drop(name), _) | (Line::Deactivate(name), Reply::Deactivate(Ok(()))) => {
            free_name(names, name)
        }
        _ => {}
    }
    Ok(())
}
