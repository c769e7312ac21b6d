//! Tests of `async_broadcast`: the examples of its documentation, tasks that wait, and handles
//! short of memory.
//!
//! `examples` has those of the documentation: the first line of each file names its source.
#![tactic(auto)]

#[cfg(test)]
mod channels;
#[cfg(test)]
mod examples;
#[cfg(test)]
mod many_tasks;
#[cfg(test)]
mod short_of_memory;
#[cfg(test)]
mod told_tasks;
