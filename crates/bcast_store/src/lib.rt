//! The kept messages, and the receivers that have still to read them.
#![tactic(auto)]

ghost use Rattle.std.specs.Prelude.{◌≡◌, ◌==◌, ◌+◌, ◌^◌, ◌<◌, ◌≤◌, [], ◌∷◌, ◌++◌, length, drop, slice_get};
ghost use Rattle.std.specs.Prelude.{IfOk, OnOk, OnErr, IfNone, IfSome, OnSome};
ghost use Rattle.std.specs.Option.{option_copied};
ghost use Rattle.std.specs.FinMap.{empty, entries, get, len};
ghost use Rattle.bcast_store.specs.Stored.{IsSettled, end_of};

use crate::cursors::Cursors;
use bcast_model::messages::Messages;
use bcast_queue::{Queue, Uncounted};
use std::alloc::{AllocError, Allocator, Global};
use std::marker::Model;

// Public only so that tests above can call it.
pub mod cursors;
mod readers;

/// The messages that a channel keeps, and the cursors of its receivers.
///
/// A message number counts all messages that were ever accepted, and an index the kept ones from
/// the front. A cursor is the number of the message that a receiver reads next. A message leaves
/// the queue once every receiver has read it. `room` is how many messages fit.
#[derive(Drop)]
pub struct Store<T, A: Allocator = Global> {
    // Each message with the number of receivers that are still to read it.
    queue: Queue<T, A>,
    cursors: Cursors<A>,
}

impl<T, A: Allocator> Model for Store<T, A> {
    ghost use Rattle.bcast_store.specs.Stored.{Stored, stored_code};

    ghost Value = { Stored T };

    ghost coded = { stored_code T.code };

    ghost use Rattle.bcast_store.specs.Sound.{store_of, IsSound};

    ghost view = { λ s. store_of s.queue s.cursors };

    ghost invariant = { λ s. IsSound s.queue s.cursors };
}

impl<T: Drop, A: Allocator + Copy> Store<T, A> {
    /// A store with no messages and no receivers.
    ///
    /// `first` is the number of the first message, and `room` how many messages fit. Allocates
    /// memory for all of them.
    #[inline(always)]
    #[tactic(auto, using(crate::proofs::Messages::message_calls))]
    pub fn new(alloc: A, first: u64, room: usize) -> Result<Self, AllocError>
        requires { 0 < room }
        ensures { IfOk result (λ store. store ≡ record {
          front = first;
          queue = [];
          cursors = empty;
          room = room;
        }) }
    {
        let queue = Queue::new(alloc, first, room)?;
        Ok(Store {
            queue,
            cursors: Cursors::new(alloc),
        })
    }

    /// What holds of every store, for a proof that needs it. Does nothing.
    #[tactic(auto, using(crate::proofs::Counted::settled))]
    pub fn invariant_holds(&self)
        ensures { IsSettled self.now }
    {
        self.queue.invariant_holds();
        self.cursors.len();
    }

    /// The number of the first message, or of the next one if there is none.
    pub fn front(&self) -> u64
        ensures { result ≡ self.now.front }
    {
        self.queue.front()
    }

    /// The number that the next message gets.
    pub fn end(&self) -> u64
        ensures { result ≡ end_of self.now }
    {
        self.queue.end()
    }

    /// How many messages there are.
    pub fn len(&self) -> usize
        ensures { result ≡ length self.now.queue }
    {
        self.queue.len()
    }

    /// Whether there is no message.
    pub fn is_empty(&self) -> bool
        ensures { result ≡ (length self.now.queue == 0) }
    {
        self.queue.len() == 0
    }

    /// How many messages fit.
    pub fn room(&self) -> usize
        ensures { result ≡ self.now.room }
    {
        self.queue.room()
    }

    /// How many receivers there are.
    pub fn receivers(&self) -> usize
        ensures { result ≡ len self.now.cursors }
    {
        self.cursors.len()
    }

    /// Whether there is no receiver.
    pub fn has_no_receiver(&self) -> bool
        ensures { result ≡ (len self.now.cursors == 0) }
    {
        self.cursors.len() == 0
    }

    /// The cursor of the receiver `key`, or `None` if there is no such receiver.
    pub fn cursor(&self, key: usize) -> Option<u64>
        ensures { result ≡ get self.now.cursors key }
    {
        self.cursors.get(key)
    }

    /// The message at `index`, or `None` if the queue ends before it. This doesn't read it for a
    /// receiver.
    pub fn get(&self, index: usize) -> Option<&T>
        ensures { option_copied result ≡ slice_get self.now.queue index }
    {
        self.queue.get(index)
    }

    /// The receivers' keys in rising order, each with its cursor. Allocates the list.
    pub fn cursors<B: Allocator>(&self, alloc: B) -> Result<Vec<(usize, u64), B>, AllocError>
        ensures { IfOk result (λ cursors. cursors.items ≡ entries self.now.cursors) }
    {
        self.cursors.entries(alloc)
    }

    /// Appends `msg`, for every receiver, and returns its number. Allocates nothing.
    #[inline(always)]
    #[tactic(auto, using(crate::proofs::Messages::message_calls))]
    pub fn push(&mut self, msg: T) -> u64
        requires someone { 0 < len self.old.cursors }
        requires room { length self.old.queue < self.old.room }
        requires number { end_of self.old + 1 < 2 ^ 64 }
        ensures number { result ≡ end_of self.old }
        ensures pushed { self.new ≡ record self.old { queue = self.old.queue ++ msg ∷ [] } }
    {
        self.queue.invariant_holds();
        self.queue.push(msg, self.cursors.len())
    }

    /// Appends all these messages, in their order, for every receiver. Allocates nothing.
    pub fn push_all(&mut self, msgs: Messages<T>)
        requires someone { 0 < len self.old.cursors }
        requires room { length self.old.queue + length msgs ≤ self.old.room }
        requires number { end_of self.old + length msgs < 2 ^ 64 }
        ensures { self.new ≡ record self.old { queue = self.old.queue ++ msgs } }
    {
        for msg in msgs.into_vec() {
            self.push(msg);
        }
    }

    /// Takes the first message out, even if receivers have still to read it; returns `None` if
    /// there is none.
    pub fn pop(&mut self) -> Option<T>
        ensures oldest { IfSome result (λ msg. self.old.queue ≡ msg ∷ self.new.queue) }
        ensures rest { OnSome result (self.new ≡ record self.old {
          front = self.old.front + 1;
          queue = self.new.queue;
        }) }

        ensures empty { IfNone result (self.old.queue ≡ []) }
        ensures none { IfNone result (self.new ≡ self.old) }
    {
        self.queue.invariant_holds();
        self.queue.pop(&mut Uncounted)
    }

    /// Drops the first `count` messages, even if receivers have still to read them.
    pub fn drop_first(&mut self, count: usize)
        requires { count ≤ length self.old.queue }
        ensures { self.new ≡ record self.old {
          front = self.old.front + count;
          queue = drop count self.old.queue;
        } }
    {
        for _index in 0..count {
            self.pop();
        }
    }

    /// Makes room for `room` messages in all. May allocate memory; the messages stay.
    pub fn grow(&mut self, room: usize) -> Result<(), AllocError>
        requires { self.old.room ≤ room }
        ensures ok { OnOk result (self.new ≡ record self.old { room = room }) }
        ensures err { OnErr result (self.new ≡ self.old) }
    {
        self.queue.grow(room)
    }
}
