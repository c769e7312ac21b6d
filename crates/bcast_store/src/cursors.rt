//! The cursor of each receiver.
#![tactic(auto, using(crate::proofs::CursorEntries::cursor_calls))]

ghost use Rattle.std.specs.Prelude.{◌≡◌, ◌<◌, ◌^◌, None, IfOk, OnOk, OnErr, IfNone, OnSome};
ghost use Rattle.std.specs.FinMap as map;
ghost use Rattle.slab.specs.Slab.{entries};

use slab::Slab;
use std::alloc::{AllocError, Allocator, Global};
use std::marker::Model;
use std::mem;

/// The receivers, each under its key: the number of the message that it reads next.
///
/// In async-broadcast 0.7.2 each receiver keeps its own number.
#[derive(Drop)]
pub struct Cursors<A: Allocator = Global> {
    numbers: Slab<u64, A>,
}

impl<A: Allocator> Model for Cursors<A> {
    ghost use Rattle.std.specs.Prelude.{ℕ};
    ghost use Rattle.std.specs.Coded.{coded_ℕ};
    ghost use Rattle.std.specs.Ordering.{nat_cmp};
    ghost use Rattle.std.specs.FinMap.{FinMap, code};

    ghost Value = { FinMap nat_cmp ℕ };

    ghost coded = { code coded_ℕ coded_ℕ };

    ghost use Rattle.bcast_store.specs.Cursors.{cursors_of};

    ghost view = { λ c. cursors_of c.numbers };
}

impl<A: Allocator> Cursors<A> {
    /// No receivers. Allocates nothing.
    pub fn new(alloc: A) -> Cursors<A>
        ensures { result ≡ map.empty }
    {
        Cursors {
            numbers: Slab::new(alloc),
        }
    }

    /// Adds a receiver that reads `number` next, under a key that no receiver has. A key that was
    /// removed may be given again.
    #[inline(always)]
    pub fn add(&mut self, number: u64) -> Result<usize, AllocError>
        ensures fresh { IfOk result (λ key. map.get self.old key ≡ None) }
        ensures ok { IfOk result (λ key. self.new ≡ map.insert self.old key number) }
        ensures fits { OnOk result (map.len self.new < 2 ^ 64) }

        ensures err { OnErr result (self.new ≡ self.old) }
    {
        self.numbers.reserve(1)?;
        let key = self.numbers.insert_reserved(number);
        let _len = self.numbers.len();
        Ok(key)
    }

    /// Removes a receiver, and returns the number that it would have read next. If no receiver has
    /// the key, returns `None` and changes nothing.
    #[inline(always)]
    pub fn remove(&mut self, key: usize) -> Option<u64>
        ensures value { result ≡ map.get self.old key }
        ensures rest { self.new ≡ map.remove self.old key }
    {
        self.numbers.try_remove(key)
    }

    /// The number of the message that a receiver reads next; `None` if no receiver has the key.
    pub fn get(&self, key: usize) -> Option<u64>
        ensures { result ≡ map.get self.now key }
    {
        self.numbers.get(key).copied()
    }

    /// Sets the number that a receiver reads next, and returns the one before. If no receiver has
    /// the key, returns `None` and changes nothing.
    #[inline(always)]
    pub fn replace(&mut self, key: usize, number: u64) -> Option<u64>
        ensures value { result ≡ map.get self.old key }
        ensures some { OnSome result (self.new ≡ map.insert self.old key number) }
        ensures none { IfNone result (self.new ≡ self.old) }
    {
        let Some(cursor) = self.numbers.get_mut(key) else {
            return None;
        };
        Some(mem::replace(cursor, number))
    }

    /// How many receivers there are.
    pub fn len(&self) -> usize
        ensures { result ≡ map.len self.now }
    {
        self.numbers.len()
    }

    /// The keys in rising order, each with the number that its receiver reads next.
    ///
    /// Allocates the list from `alloc`.
    pub fn entries<B: Allocator>(&self, alloc: B) -> Result<Vec<(usize, u64), B>, AllocError>
        ensures { IfOk result (λ entries. entries.items ≡ map.entries self.now) }
    {
        numbers_of(&self.numbers, alloc)
    }
}

// The keys in rising order, each with its number.
fn numbers_of<A: Allocator, B: Allocator>(
    numbers: &Slab<u64, A>,
    alloc: B,
) -> Result<Vec<(usize, u64), B>, AllocError>
    ensures { IfOk result (λ all. all.items ≡ entries numbers.now) }
{
    numbers
        .iter()
        .map(|(key, number)| (key, *number))
        .collect(alloc)
}
