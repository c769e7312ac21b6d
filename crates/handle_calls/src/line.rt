//! What a line of a script says.
use bcast_text::number::{number, positive};

/// The call that a line asks for.
#[derive(Clone, Copy)]
pub struct Request<'a> {
    /// What the call is made on.
    pub subject: &'a str,
    pub index: usize,
    pub method: &'a str,
    pub argument: Option<u64>,
    /// The messages of a list, as text.
    pub list: &'a str,
}

/// Which futures of a channel are held between lines.
#[derive(Clone, Copy)]
pub enum Futures {
    Nothing,
    Sends,
    Receive,
    TwoReceives,
}

/// The handles that the next lines of a script use.
#[derive(Clone, Copy)]
pub enum Opening {
    /// Those of a channel that keeps at most so many messages.
    Channel(usize, Futures),
    /// Handles over recording ports.
    Recorded,
    /// Handles over recording ports, whose memory is refused.
    WithoutMemory,
}

/// The opening that `text` is.
pub fn read_opening(text: &str) -> Option<Opening> {
    let (word, capacity) = text.split_once(' ').unwrap_or((text, ""));
    let futures = match word {
        "records" => return Some(Opening::Recorded),
        "no_memory" => return Some(Opening::WithoutMemory),
        "open" => Futures::Nothing,
        "sends" => Futures::Sends,
        "receives" => Futures::Receive,
        "two_receives" => Futures::TwoReceives,
        _ => return None,
    };
    Some(Opening::Channel(positive(capacity)? as usize, futures))
}

/// The request that `text` is: `SUBJECT INDEX METHOD [ARGUMENT]`, or `sender INDEX
/// try_broadcast_all MESSAGE ..`.
pub fn read_request(text: &str) -> Option<Request<'_>> {
    let (subject, rest) = text.split_once(' ')?;
    let (index, rest) = rest.split_once(' ')?;
    let (method, argument, list) = match rest.split_once(' ') {
        None => (rest, None, ""),
        Some((method, list)) if method == "try_broadcast_all" => (method, None, list),
        Some((method, argument)) => (method, Some(number(argument)?), ""),
    };
    Some(Request {
        subject,
        index: number(index)? as usize,
        method,
        argument,
        list,
    })
}
