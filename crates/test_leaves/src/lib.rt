//! Tests of the store, the queue and the lists of what waits: tables of steps, and lists of calls.
#![tactic(auto)]

#[cfg(test)]
mod event;
#[cfg(test)]
mod keys;
#[cfg(test)]
mod queue;
#[cfg(test)]
mod store;
