//! The state of a channel, which some valid history shows after every call.
ghost use Rattle.std.specs.Prelude.{◌≡◌, ◌==◌, ◌&&◌, ◌^◌, ◌+◌, ◌<◌, length, IfOk};
ghost use Rattle.std.specs.FinMap.{len};
ghost use Rattle.bcast_model.specs.History.{opening};
ghost use Rattle.bcast_model.specs.Words.{cursor_of, unread, missed};
ghost use Rattle.bcast_core.specs.Snapshot.{Shows};

use crate::parts::Parts;
use crate::snapshot::{Snapshot, Waiting, clones_of};
use bcast_model::listener::Kind;
use bcast_store::Store;
use bcast_waiting::notice::Notice;
use bcast_waiting::{Event, Places};
use std::alloc::{AllocError, Allocator, Global};
use std::marker::Model;

mod handles;
mod receive;
mod send;

pub use receive::RecvResult;

/// The state of a broadcast channel: its messages, the receivers' cursors, the counts of senders
/// and inactive receivers, the settings, and the listeners that wait.
///
/// Each call on it is atomic. With a lock around it, it is a channel for many threads. A receiver
/// is named by its key, and a pending send by its place: a key or place may be given again after
/// its receiver or its send is gone.
///
/// Source: `Inner` of async-broadcast 0.7.2. Handles and futures name that of each call.
pub struct Inner<T, N: Notice, A: Allocator = Global> {
    parts: Parts<T, N, A>,
}

impl<T, N: Notice, A: Allocator> Model for Inner<T, N, A> {
    ghost use Rattle.bcast_model.specs.Words.{View, view_code, IsShown};

    ghost Value = { View T };

    ghost coded = { view_code T.code };

    ghost view = { λ s. s.parts };

    ghost invariant = { λ s. IsShown s.parts };
}

/// Drops the messages that are kept, and the notices of the listeners that wait.
///
/// It isn't derived, so that the proof of a drop of a channel needn't prove the drop of each part.
impl<T: Drop, N: Notice, A: Allocator> Drop for Inner<T, N, A> {
    fn drop(self) {
        let Inner { parts: _ } = self;
    }
}

impl<T: Drop, N: Notice, A: Allocator + Copy> Inner<T, N, A> {
    ghost use Rattle.bcast_model.specs.Words.{IsValid, Represents, IsShown, sends_are_ready};

    /// A new channel of this capacity, and the key of its first receiver.
    ///
    /// It is open and empty, has one sender and no inactive receiver, overflow is off, and sends
    /// await an active receiver. The first message gets the number 0.
    ///
    /// # Errors
    ///
    /// `AllocError`: memory for `cap` messages or for the receiver was refused.
    pub fn new(alloc: A, cap: usize) -> Result<(Self, usize), AllocError>
        requires { 0 < cap }
        ensures opened { IfOk result (λ made. Represents made.0 (opening cap 0 made.1)) }
        ensures valid { IfOk result (λ made. IsValid {T = T} (opening cap 0 made.1)) }
    {
        Self::starting_at(alloc, cap, 0)
    }

    /// Makes a channel as `new` does, with its errors. The first message gets the number `first`.
    pub fn starting_at(alloc: A, cap: usize, first: u64) -> Result<(Self, usize), AllocError>
        requires capacity { 0 < cap }
        requires number { first + 1 < 2 ^ 64 }
        ensures opened { IfOk result (λ made. Represents made.0 (opening cap first made.1)) }
        ensures valid { IfOk result (λ made. IsValid {T = T} (opening cap first made.1)) }
    {
        // A program that isn't proved stops here.
        prove!(cap > 0);
        let mut store = Store::new(alloc, first, cap)?;
        let key = store.add(first)?;
        let mut receives = Event::new(alloc);
        receives.reserve_for((key, Kind::Future))?;
        // Put together last: a larger value would be copied at each step that may be refused.
        let parts = Parts {
            store,
            places: Places::new(alloc),
            sends: Event::new(alloc),
            receives,
            senders: 1,
            inactive: 0,
            closed: false,
            overflow: false,
            await_active: true,
            capacity: cap,
        };
        Ok((Inner { parts }, key))
    }

    /// The capacity: how many messages the channel keeps at most.
    pub fn capacity(&self) -> usize
        ensures { result ≡ self.now.control.capacity }
    {
        self.parts.capacity
    }

    /// Whether a full channel drops its oldest message for a new one.
    pub fn overflow(&self) -> bool
        ensures { result ≡ self.now.control.overflow }
    {
        self.parts.overflow
    }

    /// Whether sends wait while there is no active receiver.
    pub fn await_active(&self) -> bool
        ensures { result ≡ self.now.control.await_active }
    {
        self.parts.await_active
    }

    /// How many messages are kept.
    pub fn len(&self) -> usize
        ensures { result ≡ length self.now.queue }
    {
        self.parts.store.len()
    }

    /// Whether no message is kept.
    pub fn is_empty(&self) -> bool
        ensures { result ≡ (length self.now.queue == 0) }
    {
        self.parts.store.len() == 0
    }

    /// Whether as many messages are kept as the capacity allows.
    pub fn is_full(&self) -> bool
        ensures { result ≡ (length self.now.queue == self.now.control.capacity) }
    {
        self.parts.store.len() == self.parts.capacity
    }

    /// Whether the channel is closed. Messages that are kept can still be received.
    pub fn is_closed(&self) -> bool
        ensures { result ≡ self.now.control.closed }
    {
        self.parts.closed
    }

    /// Whether a send would be answered without waiting: there is room for it, or it is refused.
    pub fn sends_are_ready(&self) -> bool
        ensures { result ≡ sends_are_ready self.now }
    {
        self.parts.sends_are_ready()
    }

    /// Whether the channel is closed and no message is kept, for any receiver.
    pub fn is_terminated(&self) -> bool
        ensures { result ≡ self.now.control.closed && (length self.now.queue == 0) }
    {
        self.parts.closed && self.parts.store.len() == 0
    }

    /// How many active receivers there are.
    pub fn receiver_count(&self) -> usize
        ensures { result ≡ len self.now.control.cursors }
    {
        self.parts.store.receivers()
    }

    /// How many inactive receivers there are.
    pub fn inactive_receiver_count(&self) -> usize
        ensures { result ≡ self.now.control.inactive }
    {
        self.parts.inactive
    }

    /// How many senders there are.
    pub fn sender_count(&self) -> usize
        ensures { result ≡ self.now.control.senders }
    {
        self.parts.senders
    }

    /// The number that the next accepted message gets.
    pub fn end_number(&self) -> u64
        ensures { result ≡ self.now.end }
    {
        self.parts.store.end()
    }

    /// The number of the message that the receiver `key` reads next, which may have been dropped;
    /// `None` if there is no such receiver.
    ///
    /// Source: `Receiver::pos` of async-broadcast 0.7.2, which is private.
    #[inline(always)]
    pub fn cursor(&self, key: usize) -> Option<u64>
        ensures { result ≡ cursor_of self.now.control key }
    {
        self.parts.store.cursor(key)
    }

    /// How many of the kept messages the receiver `key` has still to read; 0 if there is no such
    /// receiver.
    ///
    /// As many `try_recv` in a row give it a message, after one that says what it missed, if it
    /// missed any.
    pub fn unread(&self, key: usize) -> usize
        ensures { result ≡ unread self.now key }
    {
        let Some(cursor) = self.parts.store.cursor(key) else {
            return 0;
        };
        let at = cursor.max(self.parts.store.front());
        self.parts.store.end().saturating_sub(at) as usize
    }

    /// How many messages were dropped before the receiver `key` read them, and not yet counted as
    /// missed: if that isn't 0, its next `try_recv` returns `Overflowed` with it. 0 if there is no
    /// such receiver.
    pub fn missed(&self, key: usize) -> u64
        ensures { result ≡ missed self.now key }
    {
        let Some(cursor) = self.parts.store.cursor(key) else {
            return 0;
        };
        self.parts.store.front().saturating_sub(cursor)
    }

    /// Proves that some valid history shows the state. Does nothing.
    pub fn invariant_holds(&self)
        ensures { IsShown self.now }
    {
        let _ = &self.parts;
    }
}

impl<T: Clone, N: Notice, A: Allocator + Copy> Inner<T, N, A> {
    /// The view of the channel, as a value of its own: each kept message is cloned.
    ///
    /// Changes nothing. Allocates the lists from `alloc`; clones may allocate too.
    ///
    /// # Errors
    ///
    /// `AllocError`: memory for the lists, or for the clone of a message, was refused.
    pub fn snapshot<B: Allocator + Copy>(&self, alloc: B) -> Result<Snapshot<T, B>, AllocError>
        ensures { IfOk result (λ snapshot. Shows T.is_clone snapshot self.now) }
    {
        Ok(Snapshot {
            front: self.parts.store.front(),
            queue: clones_of(&self.parts.store, alloc)?,
            end: self.parts.store.end(),
            cursors: self.parts.store.cursors(alloc)?,
            senders: self.parts.senders,
            inactive: self.parts.inactive,
            closed: self.parts.closed,
            overflow: self.parts.overflow,
            await_active: self.parts.await_active,
            capacity: self.parts.capacity,
            room: self.parts.store.room(),
            places: self.parts.places.items(alloc)?,
            waiting_sends: Waiting {
                ids: self.parts.sends.ids(alloc)?,
                told: self.parts.sends.told(),
            },
            waiting_receives: Waiting {
                ids: self.parts.receives.ids(alloc)?,
                told: self.parts.receives.told(),
            },
        })
    }
}
