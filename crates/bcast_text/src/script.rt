//! Scripts: the lines that `bcast` reads, the calls that they ask for, and the answers.
pub mod answer;
pub mod call;
pub mod command;
pub mod line;
pub mod name;
