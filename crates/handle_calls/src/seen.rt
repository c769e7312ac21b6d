//! What handles see of their channel.
use crate::answer::Answer;
use crate::handles::Handles;
use crate::line::Request;
use crate::recording::RecordingPort;
use async_broadcast::{Handle, Lock, Receiver, Role, Snapshot, TimedPort};
use bcast_text::input::Fault;
use std::alloc::{Allocator, Global};
use std::io::Write;
use std::sync::Wait;
use std::time::Clock;

/// What the ten calls that each handle has and that change nothing return.
#[derive(Clone, Copy, Debug, PartialEq, Eq)]
pub struct Seen {
    pub capacity: usize,
    pub len: usize,
    pub receivers: usize,
    pub inactive: usize,
    pub senders: usize,
    pub overflow: bool,
    pub await_active: bool,
    pub is_empty: bool,
    pub is_full: bool,
    pub is_closed: bool,
}

impl Seen {
    fn by<P: TimedPort<u64>, K: Role, A: Allocator + Copy>(handle: &Handle<u64, P, K, A>) -> Self {
        Seen {
            capacity: handle.capacity(),
            len: handle.len(),
            receivers: handle.receiver_count(),
            inactive: handle.inactive_receiver_count(),
            senders: handle.sender_count(),
            overflow: handle.overflow(),
            await_active: handle.await_active(),
            is_empty: handle.is_empty(),
            is_full: handle.is_full(),
            is_closed: handle.is_closed(),
        }
    }
}

/// What the handles so far have seen, and those of a list. `Done` stands for no handle.
fn agreed<P: TimedPort<u64>, K: Role, A: Allocator + Copy>(
    before: Answer,
    handles: &[Option<Handle<u64, P, K, A>>],
) -> Answer {
    let mut answer = before;
    for handle in handles {
        if let Some(handle) = handle {
            let seen = Seen::by(handle);
            answer = match answer {
                Answer::Done => Answer::All(seen),
                Answer::All(before) if before == seen => Answer::All(seen),
                _ => Answer::Differs,
            };
        }
    }
    answer
}

/// A port whose handles may show their channel. None: they don't, or there is no memory.
pub trait Shows<A: Allocator>: TimedPort<u64> {
    fn snapshot<K: Role>(_handle: &Handle<u64, Self, K, A>) -> Option<Snapshot<u64>> {
        None
    }

    fn unread(_receiver: &Receiver<u64, Self, A>) -> Option<usize> {
        None
    }
}

impl<A: Allocator> Shows<A> for RecordingPort {}

impl<R: Wait + Clone + Clock> Shows<Global> for Lock<u64, R> {
    fn snapshot<K: Role>(handle: &Handle<u64, Self, K>) -> Option<Snapshot<u64>> {
        handle.snapshot().ok()
    }

    fn unread(receiver: &Receiver<u64, Self>) -> Option<usize> {
        Some(receiver.unread())
    }
}

fn snapshot_at<P: Shows<A>, K: Role, A: Allocator>(
    handles: &[Option<Handle<u64, P, K, A>>],
    index: usize,
) -> Option<Snapshot<u64>> {
    P::snapshot(handles.get(index)?.as_ref()?)
}

impl<P: Shows<A>, A: Allocator + Copy> Handles<P, A> {
    /// What each handle sees of the channel, or that they don't all see the same.
    pub fn seen(&self) -> Answer {
        let by_senders = agreed(Answer::Done, self.senders.as_slice());
        let by_receivers = agreed(by_senders, self.receivers.as_slice());
        agreed(by_receivers, self.inactive.as_slice())
    }

    /// Writes the snapshot of a handle.
    pub fn show<W: Write>(&self, request: Request<'_>, output: &mut W) -> Result<(), Fault> {
        let shown = match request.subject {
            "sender" => snapshot_at(self.senders.as_slice(), request.index),
            "receiver" => snapshot_at(self.receivers.as_slice(), request.index),
            "inactive" => snapshot_at(self.inactive.as_slice(), request.index),
            _ => None,
        };
        let snapshot = shown.ok_or(Fault::NotACall)?;
        write!(output, " -> {snapshot:?}")?;
        Ok(())
    }
}
