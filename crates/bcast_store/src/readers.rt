//! Receivers are added, leave, and read.
ghost use Rattle.std.specs.Prelude.{◌≡◌, ◌+◌, ◌-◌, ◌<◌, ◌≤◌, None, Some, if◌then◌else◌};
ghost use Rattle.std.specs.Prelude.{IfOk, IsOk, OnOk, OnErr, IsSomeAnd, max};
ghost use Rattle.std.specs.Prelude.{length, take, drop, slice_get, vec_len, vec_capacity};
ghost use Rattle.std.specs.List.{AppendsClones};
ghost use Rattle.std.specs.FinMap as map;
ghost use Rattle.bcast_store.specs.Stored.{AreHandedOut, IsHandedOut, IsOwed, end_of, with_cursors};

use crate::Store;
use bcast_queue::{Queue, Uncounted};
use std::alloc::{AllocError, Allocator};

impl<T: Drop, A: Allocator + Copy> Store<T, A> {
    /// Moves the cursor of the receiver `key`, which lags, to the front. Allocates nothing.
    pub fn skip(&mut self, key: usize)
        requires lags { IsSomeAnd (map.get self.old.cursors key) (λ c. c < self.old.front) }
        ensures { self.new ≡ record self.old {
          cursors = map.insert self.old.cursors key self.old.front;
        } }
    {
        self.cursors.replace(key, self.queue.front());
    }

    /// Adds a receiver with this cursor, and returns its key, which no other receiver has.
    #[inline(always)]
    pub fn add(&mut self, cursor: u64) -> Result<usize, AllocError>
        requires { cursor ≤ end_of self.old }
        ensures free { IfOk result (λ key. map.get self.old.cursors key ≡ None) }
        ensures ok { IfOk result (λ key. self.new ≡ record self.old {
          cursors = map.insert self.old.cursors key cursor;
        }) }
        ensures err { OnErr result (self.new ≡ self.old) }
    {
        self.queue.invariant_holds();
        let key = self.cursors.add(cursor)?;
        let index = cursor.saturating_sub(self.queue.front()) as usize;
        self.queue.share(index, &mut Uncounted);
        Ok(key)
    }

    /// Removes the receiver `key`, drops the messages that no receiver has to read any more, and
    /// returns whether there was such a receiver. Allocates nothing.
    #[inline(always)]
    #[tactic(auto, using(crate::proofs::Leaving::leaving_calls))]
    pub fn remove(&mut self, key: usize) -> bool
        ensures found { result ≡ map.contains_key self.old.cursors key }
        ensures rest { self.new ≡ (if result
            then with_cursors self.old (map.remove self.old.cursors key)
            else self.old) }
    {
        self.queue.invariant_holds();
        let Some(cursor) = self.cursors.remove(key) else {
            return false;
        };
        let index = cursor.saturating_sub(self.queue.front()) as usize;
        self.queue.leave(index, &mut Uncounted);
        self.queue.invariant_holds();
        true
    }
}

impl<T: Clone, A: Allocator + Copy> Store<T, A> {
    /// Gives the receiver `key` the message numbered `number`, and moves its cursor past it.
    ///
    /// `number` is the receiver's cursor, or the front if it lags. If this receiver is the last to
    /// read the message, the message itself is given, and leaves the queue; else a clone is given.
    /// Only the clone may allocate memory.
    #[inline(always)]
    pub fn read(&mut self, key: usize, number: u64) -> Result<T, AllocError>
        requires at { IsSomeAnd (map.get self.old.cursors key)
            (λ cursor. number ≡ max cursor self.old.front) }
        requires below { number < end_of self.old }
        ensures given { IfOk result (λ given. IsHandedOut T.is_clone self.old key number given) }
        ensures ok { OnOk result
            (self.new ≡ with_cursors self.old (map.insert self.old.cursors key (number + 1))) }
        ensures sure { ((msg : T) → T.is_infallible msg) → IsOk result }

        ensures owed { OnErr result (IsOwed self.old key number) }
        ensures err { OnErr result (self.new ≡ self.old) }
    {
        self.queue.invariant_holds();
        let index = (number - self.queue.front()) as usize;
        let cursor = self.cursors.replace(key, number + 1).unwrap_or(number);
        match self.queue.read(index, &mut Uncounted) {
            Ok(msg) => {
                self.queue.invariant_holds();
                Ok(msg)
            }
            Err(refused) => {
                self.cursors.replace(key, cursor);
                Err(refused)
            }
        }
    }

    /// Gives the receiver `key` the `count` messages from its cursor, `number`, on: puts them last
    /// into `msgs`, which has room for them, moves its cursor past them, and returns how many they
    /// are.
    ///
    /// Those that it is the last to read are moved out of the queue, and of the others clones are
    /// given. They are fewer than `count` only if memory for a clone was refused. Only the clones
    /// may allocate memory.
    #[inline(always)]
    pub fn read_many<B: Allocator>(
        &mut self,
        key: usize,
        number: u64,
        count: usize,
        msgs: &mut Vec<T, B>,
    ) -> usize
        requires at { map.get self.old.cursors key ≡ Some number }
        requires kept { self.old.front ≤ number }
        requires within { number + count ≤ end_of self.old }
        requires room { vec_len msgs.old + count ≤ vec_capacity msgs.old }
        ensures at_most { result ≤ count }
        ensures given { AreHandedOut (IsHandedOut T.is_clone self.old key) number
            msgs.old.items result msgs.new.items }
        ensures passed { self.new
            ≡ with_cursors self.old (map.insert self.old.cursors key (number + result)) }
        ensures refused { result < count → IsSomeAnd
            (slice_get self.old.queue (number + result - self.old.front))
            (λ msg. T.is_infallible msg → ⊥) }
    {
        self.queue.invariant_holds();
        let index = (number - self.queue.front()) as usize;
        let own = self.queue.take_own(index, count, msgs, &mut Uncounted);
        let shared = put_clones(&self.queue, index, count - own, msgs);
        self.queue.pass(index, shared, &mut Uncounted);
        self.cursors.replace(key, number + (own + shared) as u64);
        self.queue.invariant_holds();
        own + shared
    }
}

// Puts clones of the `count` messages from `index` on last into `msgs`, and returns how many: fewer
// only if memory for a clone was refused.
#[inline(never)]
fn put_clones<T: Clone, A: Allocator, B: Allocator>(
    queue: &Queue<T, A>,
    index: usize,
    count: usize,
    msgs: &mut Vec<T, B>,
) -> usize
    requires within { index + count ≤ length queue.now.messages }
    requires room { vec_len msgs.old + count ≤ vec_capacity msgs.old }
    ensures at_most { result ≤ count }
    ensures given { AppendsClones T.is_clone msgs.old.items msgs.new.items
        (take result (drop index queue.now.messages)) }
    ensures refused { result < count → IsSomeAnd
        (slice_get queue.now.messages (index + result)) (λ msg. T.is_infallible msg → ⊥) }
    ensures len { vec_len msgs.new ≡ vec_len msgs.old + result }
    ensures capacity { vec_capacity msgs.new ≡ vec_capacity msgs.old }
{
    queue.invariant_holds();
    for i in 0..count {
        let Some(msg) = queue.get(index + i) else {
            unreachable!()
        };
        let Ok(given) = msg.clone() else {
            return i;
        };
        msgs.push_reserved(given);
    }
    count
}
