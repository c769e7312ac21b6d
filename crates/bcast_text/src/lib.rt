//! What the programs read and print: arguments, lines, numbers, scripts, and how a run ends.
#![tactic(auto)]

pub mod arguments;
pub mod ending;
pub mod input;
pub mod lines;
pub mod number;
pub mod script;
pub mod threads;
