//! The messages that some receiver has still to read, in the order of their numbers.
#![tactic(auto)]

ghost use Rattle.std.specs.Prelude.{◌≡◌, ◌+◌, ◌^◌, ◌<◌, ◌≤◌, [], ◌∷◌, ◌++◌, length, All};
ghost use Rattle.std.specs.Prelude.{slice_get, IfOk, IfNone, OnOk, OnErr, OnSome};
ghost use Rattle.std.specs.List.Sorted.{IsNonDecreasing};
ghost use Rattle.std.specs.Option.{ForSome, option_copied};
ghost use Rattle.bcast_queue.specs.Queue.{last_item, queue_with, without};

use circular_buffer::HeapCircularBuffer;
use counts::add_readers;
use entry::Entry;
use std::alloc::{AllocError, Allocator, Global};
use std::marker::Model;
pub use steps::{Counter, Steps, Uncounted};

mod counts;
mod entry;
mod readers;
mod steps;

/// A ring of messages, each with the number of readers that have still to read it.
///
/// An index counts the messages from the front, and a number all messages that were ever sent: the
/// message at index `i` has the number `front + i`. The count of a message is at least 1, and at
/// least the count of the message before it. `room` is how many messages fit.
///
/// A reader is counted once, at the message that it reads next. So one reader more or fewer
/// changes one count, however many messages there are.
#[derive(Drop)]
pub struct Queue<T, A: Allocator = Global> {
    ring: HeapCircularBuffer<Entry<T>, A>,
    // The number of the first message, or of the next one if there is none.
    front: u64,
    // How many owing readers there are.
    total: usize,
    // How many messages fit. The ring may have room for more.
    room: usize,
}

impl<T, A: Allocator> Model for Queue<T, A> {
    ghost use Rattle.bcast_queue.specs.Queue.{Queued};

    ghost Value = { Queued T };

    ghost use Rattle.bcast_queue.specs.Entries.{queue_of, IsSound};

    ghost view = { λ q. queue_of q.front q.ring q.room };

    ghost invariant = { λ q. IsSound q.front q.total q.room q.ring };
}

impl<T, A: Allocator> Queue<T, A> {
    /// An empty queue.
    ///
    /// `first` is the number of its first message, and `room` how many messages fit. Allocates
    /// memory for all of them.
    #[inline(always)]
    pub fn new(alloc: A, first: u64, room: usize) -> Result<Queue<T, A>, AllocError>
        requires { 0 < room }
        ensures { IfOk result (λ q. q ≡ queue_with first [] [] room) }
    {
        let ring = HeapCircularBuffer::with_capacity(alloc, room)?;
        Ok(Queue {
            ring,
            front: first,
            total: 0,
            room,
        })
    }

    /// What holds of every queue, for a proof that needs it. Does nothing.
    pub fn invariant_holds(&self)
        ensures lengths { length self.now.owed ≡ length self.now.messages }
        ensures owed { All (λ n. 1 ≤ n) self.now.owed }
        ensures never_falls { IsNonDecreasing self.now.owed }
        ensures fits { length self.now.messages ≤ self.now.room }
        ensures numbered { self.now.front + length self.now.messages < 2 ^ 64 }
    {
        self.ring.len();
    }

    /// How many messages there are.
    pub fn len(&self) -> usize
        ensures { result ≡ length self.now.messages }
    {
        self.ring.len()
    }

    /// The number of the first message, or of the next one if there is none.
    pub fn front(&self) -> u64
        ensures { result ≡ self.now.front }
    {
        self.front
    }

    /// The number that the next message gets.
    pub fn end(&self) -> u64
        ensures { result ≡ self.now.front + length self.now.messages }
    {
        self.front + self.ring.len() as u64
    }

    /// How many messages fit.
    pub fn room(&self) -> usize
        ensures { result ≡ self.now.room }
    {
        self.room
    }

    /// The message at `index`, or `None` if there are not so many. No reader has read it by this.
    pub fn get(&self, index: usize) -> Option<&T>
        ensures { option_copied result ≡ slice_get self.now.messages index }
    {
        match self.ring.get(index) {
            Some(entry) => Some(&entry.message),
            None => None,
        }
    }

    /// Makes room for `room` messages in all. The messages stay.
    ///
    /// Allocates memory for `room` messages, or for twice as many as there was memory for if that
    /// is more, so that messages are seldom moved. If the larger is refused, `room` is tried.
    pub fn grow(&mut self, room: usize) -> Result<(), AllocError>
    where
        A: Clone,
        requires { self.old.room ≤ room }
        ensures ok { OnOk result (self.new ≡ record self.old { room = room }) }
        ensures err { OnErr result (self.new ≡ self.old) }
    {
        make_room(&mut self.ring, room)?;
        self.room = room;
        Ok(())
    }

    /// Appends `msg`, which `owing` readers have to read, and returns its number. Never allocates.
    #[inline(always)]
    pub fn push(&mut self, msg: T, owing: usize) -> u64
        requires fits { length self.old.messages < self.old.room }
        requires owed { 1 ≤ owing }
        requires never_falls { ForSome (last_item self.old.owed) (λ n. n ≤ owing) }
        requires numbered { self.old.front + length self.old.messages + 1 < 2 ^ 64 }
        ensures number { result ≡ self.old.front + length self.old.messages }
        ensures pushed { self.new ≡ record self.old {
          messages = self.old.messages ++ msg ∷ [];
          owed = self.old.owed ++ owing ∷ [];
        } }
    {
        let number = self.front + self.ring.len() as u64;
        // The readers that have read all messages read this one next.
        let next = owing - self.total;
        match self.ring.try_push_back(Entry::new(msg, next)) {
            Ok(()) => {}
            Err(_) => unreachable!(),
        }
        self.total = owing;
        number
    }

    /// Takes the first message out, even if readers owe it; returns `None` if there is none.
    #[inline(always)]
    pub fn pop<C: Counter>(&mut self, steps: &mut C) -> Option<T>
        ensures value { result ≡ slice_get self.old.messages 0 }
        ensures some { OnSome result (self.new ≡ without 1 self.old) }
        ensures none { IfNone result (self.new ≡ self.old) }
        ensures steps { C.total steps.new ≤ C.total steps.old + 1 }
    {
        let mut entry = self.ring.pop_front()?;
        self.front += 1;
        let next = entry.change(0, 0, &mut Uncounted);
        add_readers(&mut self.ring, &mut self.total, 0, next, steps);
        Some(entry.message)
    }
}

// Makes room for `room` items in all, and keeps them.
fn make_room<T, A: Allocator + Clone>(
    ring: &mut HeapCircularBuffer<T, A>,
    room: usize,
) -> Result<(), AllocError>
    ensures ok { OnOk result (room ≤ ring.new.capacity) }
    ensures items { ring.new.items ≡ ring.old.items }
    ensures err { OnErr result (ring.new ≡ ring.old) }
{
    if room <= ring.capacity() {
        return Ok(());
    }
    let doubled = ring.capacity() * 2;
    if room < doubled && ring.resize(doubled).is_ok() {
        return Ok(());
    }
    ring.resize(room)
}
