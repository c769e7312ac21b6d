//! What each call on a broadcast channel does: the definitions that the code is proved against.
#![tactic(auto)]

pub mod error;
pub mod listener;
pub mod messages;
pub mod run;
