//! Callers of a broadcast channel, as programs write them: a text for two receivers, events,
//! settings, a log and a signal to stop.
#![tactic(auto)]

ghost use Rattle.std.specs.Prelude.{◌≡◌, IfOk, IfSome, string_bytes};

use bcast_core::{Inner, Silent};
use bcast_laws::states::received_is_given;
use std::alloc::{AllocError, Global};
use std::string::String;

pub mod config_watcher;
pub mod event_hub;
pub mod laws;
pub mod log_fan_out;
pub mod shutdown;

/// Sends a text over a new channel of capacity 1 to two receivers, and returns what each got.
///
/// Each returned text has the bytes of `text`. `None` says that there was no memory for the second
/// receiver, or that the channel refused the text or gave none.
///
/// # Errors
///
/// `AllocError`: there is no memory for the channel, or for a clone of the text.
pub fn send_to_two(alloc: Global, text: String) -> Result<Option<(String, String)>, AllocError>
    ensures first { IfOk result (λ some. IfSome some (λ got.
        string_bytes got.0 ≡ string_bytes text)) }
    ensures second { IfOk result (λ some. IfSome some (λ got.
        string_bytes got.1 ≡ string_bytes text)) }
{
    received_is_given::<String>();
    let (mut inner, one) = Inner::<String, Silent>::new(alloc, 1)?;
    let Ok(two) = inner.clone_receiver(one) else {
        return Ok(None);
    };
    let Ok(_) = inner.try_broadcast(text) else {
        return Ok(None);
    };
    let Ok(first) = inner.try_recv(one)? else {
        return Ok(None);
    };
    let Ok(second) = inner.try_recv(two)? else {
        return Ok(None);
    };
    Ok(Some((first, second)))
}
