//! Tests of the texts of traces: each word of a call and of a reply, each line that is refused, and
//! traces of random calls.
#![tactic(auto)]

#[cfg(test)]
mod calls;
#[cfg(test)]
mod random;
#[cfg(test)]
mod refused;
#[cfg(test)]
mod replies;
