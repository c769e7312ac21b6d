//! What is noted of a channel.
use bcast_core::{Call, Reply};

/// What a channel was opened with.
#[derive(Clone, Copy)]
pub struct Opening {
    /// How many messages the channel keeps at most.
    pub capacity: usize,
    /// The number of its first message.
    pub first_number: u64,
    /// The key of its first receiver.
    pub first_key: usize,
}

/// A call on a channel, and its reply.
#[derive(Drop)]
pub struct Step<T> {
    pub call: Call<T>,
    pub reply: Reply<T>,
}
