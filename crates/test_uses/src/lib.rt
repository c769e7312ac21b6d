//! Tests of the four uses of a channel, of channels by name, of a text sent to two receivers, and
//! of what a page shows.
#![tactic(auto)]

#[cfg(test)]
mod callers;
#[cfg(test)]
mod hubs;
#[cfg(test)]
mod pages;
