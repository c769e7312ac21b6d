//! What a line of a script says.
ghost use Rattle.std.specs.Prelude.{◌≡◌, ◌≢◌, ℕ, List, Bool, Some, None, IfOk, IfSome, IsNone, ◌++◌, ◌∷◌, codes};
ghost use Rattle.std.specs.List.{AllByRecursion};
ghost use Rattle.bcast_text.specs.Words.{numbers_text, IsU64};
ghost use Rattle.bcast_text.specs.Name.{IsName};
ghost use Rattle.bcast_text.specs.ScriptLine.{flag_text, word_of, arguments_of, text_of, IsInForm};
ghost use Rattle.bcast_text.specs.declared.script.line.Line.{Line};

use crate::number::{number, numbers, positive};
use crate::script::name::as_name;
use bcast_model::messages::Messages;
use std::alloc::{AllocError, Global};

/// A line of a script: a command and its arguments, numbers or receivers' names.
#[derive(Drop)]
pub enum Line<'a> {
    /// `cap N`: make the channel.
    Cap(u64),
    /// `send V`
    Send(u64),
    /// `sendall V V ..`: at least one number.
    SendAll(Messages<u64>),
    /// `recv R`
    Recv(&'a str),
    /// `recvmany R N`: at most N messages, in one step.
    RecvMany(&'a str, u64),
    /// `clone R Q`: Q becomes the name of a clone of R.
    Clone(&'a str, &'a str),
    /// `new Q`
    New(&'a str),
    /// `drop R`
    Drop(&'a str),
    /// `newsender`
    NewSender,
    /// `dropsender`
    DropSender,
    /// `close`
    Close,
    /// `capacity N`
    Capacity(u64),
    /// `overflow on`, `overflow off`
    Overflow(bool),
    /// `await on`, `await off`
    Await(bool),
    /// `deactivate R`
    Deactivate(&'a str),
    /// `activate Q`
    Activate(&'a str),
    /// `dropinactive`
    DropInactive,
    /// `len`
    Len,
}

/// The line that `text` is. None: it is not a line of a script.
///
/// `text` has no LF. Whether the names are in use is not checked here.
///
/// # Errors
///
/// - `AllocError`: there is no memory for the numbers of a `sendall`. Other lines take no memory.
pub fn read_line(alloc: Global, text: &str) -> Result<Option<Line<'_>>, AllocError>
    ensures text { IfOk result (λ read. IfSome read (λ line. text.now ≡ text_of line)) }
    ensures form { IfOk result (λ read. IfSome read IsInForm) }
    ensures none { IfOk result (λ read. IsNone read → (line : Line) → IsInForm line
        → text.now ≢ text_of line) }
{
    match text.split_once(' ') {
        Some(("sendall", rest)) => match numbers(alloc, rest)? {
            Some(msgs) => Ok(Some(Line::SendAll(msgs))),
            None => Ok(None),
        },
        Some((first, rest)) => Ok(with_arguments(first, rest)),
        None => Ok(alone(text)),
    }
}

/// A command without arguments. `sendall` is not one.
fn alone<'a>(text: &str) -> Option<Line<'a>>
    ensures text { IfSome result (λ line. text.now ≡ text_of line) }
    ensures form { IfSome result IsInForm }
    ensures none { IsNone result → text.now ≢ codes "sendall" → (line : Line)
        → arguments_of line ≡ None → text.now ≢ word_of line }
{
    match text {
        "newsender" => Some(Line::NewSender),
        "dropsender" => Some(Line::DropSender),
        "close" => Some(Line::Close),
        "dropinactive" => Some(Line::DropInactive),
        "len" => Some(Line::Len),
        _ => None,
    }
}

/// A command with arguments, except `sendall`: its first word, and what follows the first space.
fn with_arguments<'a>(first: &str, rest: &'a str) -> Option<Line<'a>>
    ensures text { IfSome result (λ line. first.now ++ 32 ∷ rest.now ≡ text_of line) }
    ensures form { IfSome result IsInForm }
    ensures none { IsNone result → first.now ≢ codes "sendall" → (line : Line) → IsInForm line
        → first.now ≡ word_of line → arguments_of line ≢ Some rest.now }
{
    match first {
        "cap" => Some(Line::Cap(positive(rest)?)),
        "send" => Some(Line::Send(number(rest)?)),
        "capacity" => Some(Line::Capacity(positive(rest)?)),
        "overflow" => Some(Line::Overflow(flag(rest)?)),
        "await" => Some(Line::Await(flag(rest)?)),
        "recv" => Some(Line::Recv(as_name(rest)?)),
        "new" => Some(Line::New(as_name(rest)?)),
        "drop" => Some(Line::Drop(as_name(rest)?)),
        "deactivate" => Some(Line::Deactivate(as_name(rest)?)),
        "activate" => Some(Line::Activate(as_name(rest)?)),
        "clone" => {
            let (of, new) = name_and(rest)?;
            Some(Line::Clone(of, as_name(new)?))
        }
        "recvmany" => {
            let (of, limit) = name_and(rest)?;
            Some(Line::RecvMany(of, positive(limit)?))
        }
        _ => None,
    }
}

/// A name, and what follows the space after it.
fn name_and(arguments: &str) -> Option<(&str, &str)>
    ensures text { IfSome result (λ found. arguments.now ≡ found.0.now ++ 32 ∷ found.1.now) }
    ensures form { IfSome result (λ found. IsName found.0.now) }
    ensures only { IfSome result (λ found. (first last : List ℕ) → IsName first
        → arguments.now ≡ first ++ 32 ∷ last → (first ≡ found.0.now) × (last ≡ found.1.now)) }
    ensures none { IsNone result → (first last : List ℕ) → IsName first
        → arguments.now ≢ first ++ 32 ∷ last }
{
    let (first, last) = arguments.split_once(' ')?;
    Some((as_name(first)?, last))
}

/// The argument of a setting.
fn flag(word: &str) -> Option<bool>
    ensures text { IfSome result (λ on. word.now ≡ flag_text on) }
    ensures none { IsNone result → (on : Bool) → word.now ≢ flag_text on }
{
    match word {
        "on" => Some(true),
        "off" => Some(false),
        _ => None,
    }
}
