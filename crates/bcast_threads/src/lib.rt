//! Senders and receivers in threads of their own, and whether all receivers saw one order.
#![tactic(auto)]

pub mod fault;
pub mod lists;
pub mod plan;
mod running;
pub mod work;

pub use plan::threads;
