//! Traces: calls on a channel with their replies, as text. They are read, played and written again.
//!
//! Its functions end without a fault. What the texts are is said by no clause: tests carry it.
#![tactic(auto)]

pub mod call;
mod collector;
pub mod command;
pub mod line;
pub mod opening;
mod player;
pub mod reply;
mod view;

pub use collector::list;
pub use player::trace;
