//! A bounded broadcast channel: every active receiver gets each message, or the number of messages
//! that it missed.
//!
//! What was refused is returned as an error, which hands back a message that was not sent.
//!
//! ```rust
//! let (sender, mut receiver) = broadcast(&rt, rt.alloc(), 1)?;
//! let error = receiver.try_recv()?.err().ok_or("received")?;
//! assert!(rt; error.is_empty() && !error.is_closed() && !error.is_overflowed());
//! assert!(rt; sender.try_broadcast(1).is_ok());
//! let error = sender.try_broadcast(2).err().ok_or("sent")?;
//! assert!(rt; error.is_full() && !error.is_closed() && !error.is_disconnected());
//! assert!(rt; error.into_inner() == 2);
//! sender.close();
//! let error = sender.broadcast_blocking(3).err().ok_or("sent")?;
//! assert!(rt; error.into_inner() == 3);
//!
//! assert!(rt; NoMemory(7).into_inner() == 7);
//! ```
#![tactic(auto)]

mod batch;
mod future;
mod handle;
mod inactive;
mod iter;
mod journal;
mod lock;
mod port;
mod receiver;
mod sender;
mod settings;
mod text;
mod timed;
mod wake;

pub use batch::put_last;
pub use bcast_core::{
    Call, HandleError, Kind, Messages, NoMemory, RecvError, RecvResult, Reply, SendError, SendPoll,
    Snapshot, TryRecvError, TrySendError, Waiting,
};
pub use future::{Recv, Send};
pub use handle::{Handle, Role};
pub use inactive::{Inactive, InactiveReceiver};
pub use iter::{Iter, TryIter};
pub use journal::{CallJournal, NoJournal};
pub use lock::{Lock, LockInactiveReceiver, LockReceiver, LockSender, broadcast};
pub use port::{Ask, Caller, Port, PortFor, TimedPort, TimedPortFor};
pub use receiver::{Receiver, Receiving};
pub use sender::{Sender, Sending};
pub use timed::{RecvTimeoutError, SendTimeoutError};
pub use wake::{TaskWaker, Wake};
