//! The state of a broadcast channel, its calls, and runs of calls.
//!
//! Code without clauses needs this crate alone: it has the state (`Inner`), its view as a value
//! (`Snapshot`), each call as a type (`CallOf`), calls as data (`step`, `run`), the notices, and
//! re-exports the errors, calls and replies of `bcast_model`. Clauses about a channel also name
//! `bcast_model`.
#![tactic(auto)]

mod calls;
mod data;
mod parts;
mod snapshot;
#[tactic(auto, using(crate::proofs::Does::valid_shown))]
mod state;

pub use bcast_model::error::{
    HandleError, NoMemory, RecvError, SendError, TryRecvError, TrySendError,
};
pub use bcast_model::listener::Kind;
pub use bcast_model::messages::{Messages, in_vec};
pub use bcast_model::run::{Call, Reply, SendPoll};
pub use bcast_queue::Steps;
pub use bcast_waiting::notice::{MakesNotice, NoNotice, Notice, OwnedNotice, Silent};
pub use calls::handles::{AddHandle, AddReceiver, Change, Close, SetCapacity};
pub use calls::messages::{AttemptSend, BeginSend, TryBroadcast, TryBroadcastAll, TryRecv};
pub use calls::reads::{Count, EndNumber, Test};
pub use calls::waiting::{PollFuture, PollNext, PollRecv, PollSend};
pub use calls::{AtOnce, CallOf, Polls, RepliesTo};
pub use data::{Ran, run, step};
pub use snapshot::{Snapshot, Waiting};
pub use state::{Inner, RecvResult};
