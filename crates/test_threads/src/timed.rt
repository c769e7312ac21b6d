//! Calls with a limit of time.
mod late;
mod limits;
pub mod runs;
