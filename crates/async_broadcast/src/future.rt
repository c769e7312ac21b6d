//! Sending and receiving by polls.
mod recv;
mod send;

pub use recv::Recv;
pub use send::Send;
