//! Tests of the core, of its errors and of logs and recorders, by their public calls.
#![tactic(auto)]

#[cfg(test)]
mod batches;
#[cfg(test)]
mod calls;
#[cfg(test)]
mod errors;
#[cfg(test)]
mod full_heap;
#[cfg(test)]
mod heaps;
#[cfg(test)]
mod heavy;
#[cfg(test)]
mod memory;
#[cfg(test)]
mod record;
#[cfg(test)]
mod rows;
#[cfg(test)]
mod unread;
