//! Topics: channels that are opened and named by their callers, each a channel of its own.
#![tactic(auto)]

mod hub;
mod request;

pub use hub::{Hub, run_hub};
pub use request::{Answer, Request, is_name};
