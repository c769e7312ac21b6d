//! What is asked of a hub, and what it answers.
ghost use Rattle.std.specs.Prelude.{◌≡◌, IsTrue, ◌↔◌};
ghost use Rattle.topics.specs.Name.{IsName};
ghost use Rattle.topics.specs.Request.{name_of};

use bcast_core::Reply;
use std::alloc::{Allocator, Global};

/// A request to a hub, about the topic of a name.
#[derive(Drop)]
pub enum Request<T, A: Allocator = Global> {
    /// Opens a topic whose channel has this capacity, which must be positive.
    Open(String<A>, usize),
    /// Adds a receiver: `NewReceiver`.
    Follow(String<A>),
    /// Sends a message: `TryBroadcast`.
    Publish(String<A>, T),
    /// Receives the next message of the receiver of this key: `TryRecv`.
    Receive(String<A>, usize),
    /// Takes the receiver of this key out: `DropReceiver`.
    Leave(String<A>, usize),
    /// Closes the topic's channel: `Close`.
    Close(String<A>),
}

/// A hub's answer: the first of these that fits.
#[derive(PartialEq, Drop)]
pub enum Answer<T> {
    /// The request's name is not one: a name has 1 to 32 letters from a to z, digits and dots.
    BadName,
    /// To `Open`: a topic of this name was opened before.
    Exists,
    /// To `Open`: there was no memory for the topic. The hub is unchanged.
    Memory,
    /// To `Open`: the topic was opened.
    Opened,
    /// To the others: no topic of this name was opened.
    NoTopic,
    /// To the others: the reply of the topic's channel to the call.
    Done(Reply<T>),
}

impl<T, A: Allocator> Request<T, A> {
    /// The name of the topic.
    pub fn name(&self) -> &str
        ensures { result.now ≡ name_of self.now }
    {
        match self {
            Request::Open(name, _) => name.as_str(),
            Request::Follow(name) => name.as_str(),
            Request::Publish(name, _) => name.as_str(),
            Request::Receive(name, _) => name.as_str(),
            Request::Leave(name, _) => name.as_str(),
            Request::Close(name) => name.as_str(),
        }
    }
}

/// Whether `word` is a topic's name: 1 to 32 letters from a to z, digits and dots.
pub fn is_name(word: &str) -> bool
    ensures { IsTrue result ↔ IsName word.now }
{
    let bytes = word.as_bytes();
    0 < bytes.len()
        && bytes.len() <= 32
        && bytes.iter().all(|b| b.is_ascii_lowercase() || b.is_ascii_digit() || *b == b'.')
}
