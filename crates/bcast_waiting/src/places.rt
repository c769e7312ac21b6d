//! The places of pending sends.
ghost use Rattle.std.specs.Prelude.{◌≡◌, ◌<◌, ◌^◌, false, IfOk, OnOk, OnErr, map};
ghost use Rattle.std.specs.FinSet as set;
ghost use Rattle.std.specs.List.Sorted.{IsStrictlyIncreasing};
ghost use Rattle.bcast_waiting.specs.Keys.{key_of};
ghost use Rattle.slab.specs.Slab.{entries};

use slab::Slab;
use std::alloc::{AllocError, Allocator, Global};
use std::marker::Model;

/// The places in use.
///
/// In async-broadcast 0.7.2 a pending send keeps its own listener.
#[derive(Drop)]
pub struct Places<A: Allocator = Global> {
    slots: Slab<(), A>,
}

impl<A: Allocator> Model for Places<A> {
    ghost use Rattle.std.specs.Ordering.{nat_cmp};
    ghost use Rattle.std.specs.FinSet.{FinSet, code};
    ghost use Rattle.std.specs.Coded.{coded_ℕ};
    ghost use Rattle.bcast_waiting.specs.Keys.{keys_in};

    ghost Value = { FinSet nat_cmp };

    ghost coded = { code coded_ℕ };

    ghost view = { λ p. keys_in p.slots };
}

#[tactic(auto, using(crate::proofs::Keys::keys))]
impl<A: Allocator> Places<A> {
    /// No places. Allocates nothing.
    pub fn new(alloc: A) -> Places<A>
        ensures { result ≡ set.empty }
    {
        Places {
            slots: Slab::new(alloc),
        }
    }

    /// Takes a place that is not in use, and returns it. One that was removed may be taken again.
    ///
    /// # Errors
    ///
    /// `AllocError`: memory for the place was refused, and nothing changed.
    pub fn add(&mut self) -> Result<usize, AllocError>
        ensures fresh { IfOk result (λ place. set.contains self.old place ≡ false) }
        ensures ok { IfOk result (λ place. self.new ≡ set.insert self.old place) }
        ensures fits { OnOk result (set.len self.new < 2 ^ 64) }

        ensures err { OnErr result (self.new ≡ self.old) }
    {
        self.slots.reserve(1)?;
        let place = self.slots.insert_reserved(());
        let _len = self.slots.len();
        Ok(place)
    }

    /// Removes a place, and returns whether it was in use. If it was not, nothing changes.
    pub fn remove(&mut self, place: usize) -> bool
        ensures found { result ≡ set.contains self.old place }
        ensures rest { self.new ≡ set.remove self.old place }
    {
        self.slots.try_remove(place).is_some()
    }

    /// Whether the place is in use.
    pub fn contains(&self, place: usize) -> bool
        ensures { result ≡ set.contains self.now place }
    {
        self.slots.get(place).is_some()
    }

    /// How many places are in use.
    pub fn len(&self) -> usize
        ensures { result ≡ set.len self.now }
    {
        self.slots.len()
    }

    /// The places in use, in rising order.
    pub fn items<B: Allocator>(&self, alloc: B) -> Result<Vec<usize, B>, AllocError>
        ensures same { IfOk result (λ places. set.from_list places.items ≡ self.now) }
        ensures rising { IfOk result (λ places. IsStrictlyIncreasing places.items) }
    {
        keys_of(&self.slots, alloc)
    }
}

// The keys in rising order.
fn keys_of<A: Allocator, B: Allocator>(
    slots: &Slab<(), A>,
    alloc: B,
) -> Result<Vec<usize, B>, AllocError>
    ensures { IfOk result (λ keys. keys.items ≡ map key_of (entries slots.now)) }
{
    slots.iter().map(|(key, _)| key).collect(alloc)
}
