//! A channel that records its calls: those of all threads together are one run of the channel.
//!
//! A `Log` is the channel with its entries, for one thread; a `Recorder` is a log behind a lock. A
//! caller has a `Seat`, and gets a `Receipt` for each call. Once all seats are given back, `finish`
//! returns the entries, `Finished::entry_of` the entry of a receipt, and `Finished::calls` the
//! calls, which `run` can make again.
//!
//! All types of one recorder carry a parameter `R: Ledger + Named` that names it, as those of a
//! ledger of the standard library do. A program makes, uses and ends a recorder inside a function
//! over `R`, here `work`, and calls it at `Brand` of `std::marker` with `calls`, a new `Blank` of
//! `std::sync::ledger`, and `journal`, a new `Journal`. The caller's `Invariants.antt` says that `R`
//! names those:
//!
//! ```text
//! ghosts-work-R-Ledger g a = record { name = a.calls.name; parts = a.calls.parts }
//! ghosts-work-R-Named g a = record { book = a.journal }
//! ```
#![tactic(auto)]

mod copy;
mod entry;
mod finished;
mod log;
mod recorder;
mod seat;

pub use bcast_core::{
    Call, HandleError, Kind, Messages, NoMemory, RecvError, Reply, SendError, SendPoll,
    TryRecvError, TrySendError, Waiting, run,
};
pub use bcast_history::{Journal, Named, Opening};
pub use copy::{copy_of_call, copy_of_reply};
pub use entry::{Entry, Note, Receipt};
pub use finished::Finished;
pub use log::Log;
pub use recorder::Recorder;
pub use seat::Seat;
