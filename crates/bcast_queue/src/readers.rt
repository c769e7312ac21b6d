//! The readers that owe messages: they are added, move on, leave, and read.
ghost use Rattle.std.specs.Prelude.{◌≡◌, ◌+◌, ◌-◌, ◌*◌, ◌<◌, ◌≤◌, ◌==◌, ◌↔◌, ◌++◌, length, take};
ghost use Rattle.std.specs.Prelude.{Some, slice_get, vec_len, vec_capacity};
ghost use Rattle.std.specs.Prelude.{slice_index, IfOk, IsOk, OnOk, OnErr, IsTrue};
ghost use Rattle.std.specs.Option.{ForSome, IsSomeAnd};
ghost use Rattle.std.specs.Result.{IsOkAnd};
ghost use Rattle.bcast_queue.specs.Queue.{last_item, with_reader, passed, without, without_reader, read_at};

use crate::counts::{add_readers, change_at, drop_unowed};
use crate::{Counter, Queue};
use std::alloc::{AllocError, Allocator};

impl<T, A: Allocator> Queue<T, A> {
    /// Adds a reader of the message at `index` and of those behind it. Allocates nothing.
    ///
    /// At an `index` that is the length it changes nothing.
    #[inline(always)]
    pub fn share<C: Counter>(&mut self, index: usize, steps: &mut C)
        requires within { index ≤ length self.old.messages }
        requires fits { ForSome (last_item self.old.owed) (λ n. n < usize.MAX) }
        ensures shared { self.new ≡ with_reader index self.old }
        ensures steps { C.total steps.new ≤ C.total steps.old + 1 }
    {
        if index < self.ring.len() {
            self.total += 1;
            add_readers(&mut self.ring, &mut self.total, index, 1, steps);
        }
    }

    /// Moves a reader on, from the message at `index` to that at `index + count`, past messages
    /// that other readers owe too. Allocates nothing.
    ///
    /// It changes two counts, however many messages are passed.
    #[inline(always)]
    pub fn pass<C: Counter>(&mut self, index: usize, count: usize, steps: &mut C)
        requires within { index + count ≤ length self.old.messages }
        requires owed { 0 < index → index < length self.old.messages
            → slice_index self.old.owed (index - 1) < slice_index self.old.owed index }
        requires shared { 0 < count → 1 < slice_index self.old.owed index }
        ensures passed { self.new ≡ passed index count self.old }
        ensures steps { C.total steps.new ≤ C.total steps.old + 2 }
    {
        self.invariant_holds();
        if count == 0 {
            return;
        }
        change_at(&mut self.ring, index, 0, 1, steps);
        add_readers(&mut self.ring, &mut self.total, index + count, 1, steps);
    }

    /// Takes out those of the `count` messages from `index` on that one reader alone owes, puts
    /// them last into `msgs`, which has room for them, and returns how many they are.
    ///
    /// They are the first ones. At an `index` above 0 there are none, since who owes the message
    /// before it owes these, too.
    #[inline(always)]
    pub fn take_own<B: Allocator, C: Counter>(
        &mut self,
        index: usize,
        count: usize,
        msgs: &mut Vec<T, B>,
        steps: &mut C,
    ) -> usize
        requires within { index + count ≤ length self.old.messages }
        requires owed { 0 < index → index < length self.old.messages
            → slice_index self.old.owed (index - 1) < slice_index self.old.owed index }
        requires room { vec_len msgs.old + count ≤ vec_capacity msgs.old }
        ensures at_most { result ≤ count }
        ensures taken { msgs.new.items ≡ msgs.old.items ++ take result self.old.messages }
        ensures rest { self.new ≡ without result self.old }
        ensures first { 0 < result → index ≡ 0 }
        // The last of them has one reader, and so each.
        ensures own { 0 < result → slice_index self.old.owed (result - 1) ≡ 1 }
        ensures shared { result < count → 1 < slice_index self.old.owed (index + result) }
        ensures steps { C.total steps.new ≤ C.total steps.old + 2 * result + 1 }

        ensures len { vec_len msgs.new ≡ vec_len msgs.old + result }
        ensures capacity { vec_capacity msgs.new ≡ vec_capacity msgs.old }
    {
        self.invariant_holds();
        if index > 0 {
            return 0;
        }
        for taken in 0..count {
            if self.is_first_shared(steps) {
                return taken;
            }
            let Some(msg) = self.pop(steps) else {
                unreachable!()
            };
            msgs.push_reserved(msg);
        }
        count
    }

    // Whether more than one reader owes the first message.
    #[inline(always)]
    #[tactic(auto, using(crate::proofs::Queues::looked_at_first))]
    fn is_first_shared<C: Counter>(&mut self, steps: &mut C) -> bool
        requires some { 0 < length self.old.messages }
        ensures value { IsTrue result ↔ (1 < slice_index self.old.owed 0) }
        ensures unchanged { self.new ≡ self.old }
        ensures steps { C.total steps.new ≤ C.total steps.old + 1 }
    {
        change_at(&mut self.ring, 0, 0, 0, steps) != 1
    }
}

impl<T: Drop, A: Allocator> Queue<T, A> {
    /// Takes a reader away from the message at `index` and those behind it. The messages that no
    /// reader owes then are dropped, and the front moves past them.
    ///
    /// At an `index` that is the length it changes nothing.
    #[inline(always)]
    pub fn leave<C: Counter>(&mut self, index: usize, steps: &mut C)
        requires within { index ≤ length self.old.messages }
        requires owed { 0 < index → index < length self.old.messages
            → slice_index self.old.owed (index - 1) < slice_index self.old.owed index }
        ensures left { self.new ≡ without_reader index self.old }
        ensures steps { C.total steps.new + length self.new.messages
            ≤ C.total steps.old + length self.old.messages + 1 }
    {
        if index >= self.ring.len() {
            return;
        }
        let next = change_at(&mut self.ring, index, 0, 1, steps);
        self.total -= 1;
        if index == 0 {
            drop_unowed(&mut self.ring, &mut self.front, next, steps);
        }
    }
}

impl<T: Clone, A: Allocator> Queue<T, A> {
    /// Gives the message at `index` to one of its readers: a clone, or the message itself if no
    /// other reader owes it. It is the first message then, and the front moves past it.
    ///
    /// Only the clone may allocate memory. The messages that stay are unchanged.
    #[inline(always)]
    pub fn read<C: Counter>(&mut self, index: usize, steps: &mut C) -> Result<T, AllocError>
        requires within { index < length self.old.messages }
        requires owed { 0 < index
            → slice_index self.old.owed (index - 1) < slice_index self.old.owed index }
        ensures moved { slice_index self.old.owed index ≡ 1
            → IsOkAnd result (λ m. slice_get self.old.messages index ≡ Some m) }
        ensures cloned { 1 < slice_index self.old.owed index
            → IsSomeAnd (slice_get self.old.messages index) (λ m. IfOk result (T.is_clone m)) }
        ensures sure { ((x : T) → T.is_infallible x) → IsOk result }

        ensures ok { OnOk result (self.new ≡ read_at index self.old) }
        ensures err { OnErr result (self.new ≡ self.old) }
        ensures refused { OnErr result (1 < slice_index self.old.owed index) }
        ensures steps { C.total steps.new ≤ C.total steps.old + 3 }
    {
        let Some(entry) = self.ring.get_mut(index) else {
            unreachable!()
        };
        let next = entry.change(0, 0, steps);
        if index == 0 && next == 1 {
            let Some(message) = self.pop(steps) else {
                unreachable!()
            };
            return Ok(message);
        }
        let message = entry.message.clone()?;
        entry.change(0, 1, steps);
        add_readers(&mut self.ring, &mut self.total, index + 1, 1, steps);
        Ok(message)
    }
}
