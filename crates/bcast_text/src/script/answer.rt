//! The answers of a script, as text.
ghost use Rattle.std.specs.Prelude.{◌≡◌, ◌≢◌, ◌↔◌, Some, Err, OnOk, IfErr, IsNone, IsSome, IfSome, ◌++◌, ◌∷◌, []};
ghost use Rattle.std.specs.Io.KnownBytes.{Appends};
ghost use Rattle.bcast_text.specs.ScriptAnswer.{answer_of, batch_text, words_text};

use crate::input::Fault;
use bcast_model::error::{HandleError, TryRecvError, TrySendError};
use bcast_model::run::Reply;
use std::io::Write;

/// Writes the line that answers a call with this reply.
///
/// # Errors
///
/// - `NoMemory`: the reply has no answer: there was no memory for the call, or no line asks for it.
/// - `OutputFailed`: a write failed.
pub fn answer<W: Write>(reply: &Reply<u64>, output: &mut W) -> Result<(), Fault>
    ensures text { OnOk result (IfSome (answer_of reply.now) (λ text.
        Appends (W.contents output.old) (W.contents output.new) (text ++ 10 ∷ []))) }
    ensures answered { OnOk result (IsSome (answer_of reply.now)) }
    ensures unwritten { result ≡ Err Fault.NoMemory → output.new ≡ output.old }
    ensures not_a_call { result ≢ Err Fault.NotACall }
    ensures no_memory { (result ≡ Err Fault.NoMemory) ↔ IsNone (answer_of reply.now) }
{
    match words_of(reply) {
        Some((words, None)) => writeln!(output, "{words}")?,
        Some((words, Some(number))) => writeln!(output, "{words}{number}")?,
        None => return Err(Fault::NoMemory),
    }
    Ok(())
}

/// Writes the line that answers a batch of these messages.
///
/// # Errors
///
/// - `OutputFailed`: a write failed.
pub fn answer_batch<W: Write>(msgs: &[u64], output: &mut W) -> Result<(), Fault>
    ensures text { OnOk result (Appends (W.contents output.old) (W.contents output.new)
        (batch_text msgs.now ++ 10 ∷ [])) }
    ensures output_failed { IfErr result (λ fault. fault ≡ Fault.OutputFailed) }
{
    output.write_all(b"got")?;
    for msg in msgs {
        write!(output, " {msg}")?;
    }
    output.write_all(b"\n")?;
    Ok(())
}

/// The words of the answer to `reply`, and the number that follows them. None: it has no answer.
pub fn words_of(reply: &Reply<u64>) -> Option<(&'static str, Option<u64>)>
    ensures some { IfSome result (λ words.
        answer_of reply.now ≡ Some (words_text words.0.now words.1)) }
    ensures none { IsNone result → IsNone (answer_of reply.now) }
{
    Some(match reply {
        Reply::TryBroadcast(Ok(None)) => ("ok", None),
        Reply::TryBroadcast(Ok(Some(oldest))) => ("ok dropped ", Some(*oldest)),
        Reply::TryBroadcast(Err(TrySendError::Full(msg))) => ("full ", Some(*msg)),
        Reply::TryBroadcast(Err(TrySendError::Closed(msg))) => ("closed ", Some(*msg)),
        Reply::TryBroadcast(Err(TrySendError::Inactive(msg))) => ("inactive ", Some(*msg)),
        Reply::TryBroadcastAll(Ok(())) => ("ok", None),
        Reply::TryBroadcastAll(Err(TrySendError::Full(_))) => ("full all", None),
        Reply::TryBroadcastAll(Err(TrySendError::Closed(_))) => ("closed all", None),
        Reply::TryBroadcastAll(Err(TrySendError::Inactive(_))) => ("inactive all", None),
        Reply::TryRecv(Ok(Ok(msg))) => ("got ", Some(*msg)),
        Reply::TryRecv(Ok(Err(TryRecvError::Overflowed(n)))) => ("overflowed ", Some(*n)),
        Reply::TryRecv(Ok(Err(TryRecvError::Empty))) => ("empty", None),
        Reply::TryRecv(Ok(Err(TryRecvError::Closed))) => ("closed", None),
        Reply::Close(true) => ("true", None),
        Reply::Close(false) => ("false", None),
        Reply::Len(len) => ("", Some(*len as u64)),
        Reply::SetCapacity(Ok(())) => ("ok", None),
        Reply::SetOverflow | Reply::SetAwaitActive => ("ok", None),
        Reply::DropSender | Reply::DropInactive | Reply::DropReceiver => ("ok", None),
        Reply::NewSender(Ok(())) | Reply::Deactivate(Ok(())) => ("ok", None),
        Reply::CloneReceiver(Ok(_)) | Reply::NewReceiver(Ok(_)) | Reply::Activate(Ok(_)) => {
            ("ok", None)
        }
        Reply::NewSender(Err(HandleError::TooMany))
        | Reply::Deactivate(Err(HandleError::TooMany)) => ("too many", None),
        Reply::Activate(Err(HandleError::Gone)) => ("gone", None),
        _ => return None,
    })
}
