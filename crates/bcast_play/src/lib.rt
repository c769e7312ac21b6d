//! Scripts, played on a channel, and lines on topics.
#![tactic(auto)]

mod channel;
mod hub;
mod session;

pub use hub::{hub_script, seeded_hub_script};
pub use session::script;
