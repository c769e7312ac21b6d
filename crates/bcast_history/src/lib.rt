//! A channel behind a lock whose handles promise more: each call has its place in one history of
//! the channel, which only grows.
//!
//! `Opened` makes a channel with a journal of the steps on it, each a call with its reply, and
//! `broadcast` its first handles: a `TrackedSender` and a `TrackedReceiver`. They have some of the
//! calls of the handles of `async_broadcast`, under the same names: the sender all that send but
//! for futures, `new_receiver`, the settings, the counts and `snapshot`; the receiver all that
//! receive but for futures, `deactivate`, `len`, `unread` and `missed`; both have `clone` and
//! `close`. A function over them is written over their port, a `HistoryPort<T, J>`.
//!
//! A handle knows a beginning of the steps. It makes each call once, and no other with it
//! (`MakesCall`), and knows after it the steps that others made meanwhile, too, and last its own
//! (`Follows`). All that any handle of the channel knows are beginnings of one list, which is a run
//! of the channel. So the laws of `bcast_laws` speak of it.
//!
//! A receive promises that the receiver is given the accepted messages one after the other, from
//! its start on, or told how many it missed (`Takes`). A clone starts where its original reads on,
//! a new receiver at the end.
//!
//! No step is stored: the journal is a word, which stays 0, and what contracts know of its notes.
//! One `Writer` knows them all, and is guarded by the lock; a `Prefix` has no bytes, and knows a
//! beginning. The lock also guards a registry without bytes, in which each receiver's cursor is
//! claimed: so what a handle knows of its receiver is so, and needs no look at the channel.
//!
//! The channel's parameter is `J: Channel`, which names it. A program uses the channel inside a
//! function over `J`, here `work`, and calls it at `Brand` of `std::marker` with `opened`, an
//! `Opened`. The caller's `Invariants.antt` says that `J` names this channel:
//!
//! ```text
//! ghosts-work-J-Channel g a = record { opening = a.opened.opening; registry = a.opened.registry }
//! ghosts-work-J-Named g a = record { book = a.opened.book }
//! ```
#![tactic(auto)]

mod inactive;
mod iter;
mod journal;
mod laws;
mod log;
mod opened;
mod port;
mod receiver;
mod rule;
mod sender;
mod step;
mod steps;
mod tracker;

pub use inactive::TrackedInactiveReceiver;
pub use iter::{TrackedIter, TrackedTryIter};
pub use journal::{Journal, Named, Notes, Prefix, Whole, Writer};
pub use laws::{
    closed_is_last, end_is_last, logs_are_accepted, messages_stay, receivers_read_on,
    sends_stand_last,
};
pub use log::{CutLog, WholeLog};
pub use opened::{FirstHandles, Opened, broadcast};
pub use port::{History, HistoryPort, TimedHistoryPort};
pub use receiver::TrackedReceiver;
pub use sender::TrackedSender;
pub use step::{Opening, Step};
pub use steps::StepJournal;
pub use tracker::{Channel, ReceiverTracker, Seen, TrackedCaller, Tracker};
