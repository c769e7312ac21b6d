//! Tests of threads that wait for one another: which of them sleep in a call and what wakes them,
//! calls with a limit, and counterparts of most of async-broadcast's own tests.
#![tactic(auto)]

#[cfg(test)]
mod batches;
#[cfg(test)]
mod counterparts;
#[cfg(test)]
mod hands;
#[cfg(test)]
mod handshake;
#[cfg(test)]
mod history;
#[cfg(test)]
mod passing_on;
#[cfg(test)]
mod readings;
#[cfg(test)]
mod scripts;
#[cfg(test)]
mod steps;
#[cfg(test)]
mod timed;
#[cfg(test)]
mod waiting;
