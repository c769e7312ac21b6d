//! The slots of listeners in the order of registering. Some of them may be empty.
ghost use Rattle.std.specs.Prelude.{◌≡◌, ◌+◌, ◌*◌, ◌<◌, ◌≤◌, Some, None, true, false, [], ◌∷◌, ◌++◌, length, map, is_some, MatchOption, OnOk, OnErr, IfOk, IsOk, slice_index_or, slice_set};
ghost use Rattle.std.specs.List.{filter_map, AllByRecursion};
ghost use Rattle.bcast_waiting.specs.Words.{slot_id, ids_in, IsIndexed, listed, front, has};
ghost use Rattle.bcast_model.specs.Listeners.{is_in, IsDistinct};

use crate::indexed::Indexed;
use crate::notice::{MakesNotice, NoNotice, Notice};
use std::alloc::{AllocError, Allocator};
use std::marker::Model;
use std::mem::replace;

// Slots in the order in which they were filled. A slot keeps its position when its listener leaves,
// until the empty slots are taken out.
#[derive(Drop)]
pub struct Slots<I: Copy + Eq + Indexed, N: Notice, A: Allocator> {
    listeners: Vec<Option<Listener<I, N>>, A>,
    // For the number of each id that is listed, its position. Another number's entry may be
    // anything.
    positions: Vec<usize, A>,
}

#[derive(Drop)]
struct Listener<I, N> {
    id: I,
    notice: N,
}

impl<I, N> Listener<I, N> {
    // Replaces its notice by that of another poll.
    #[inline(always)]
    fn renew<M: MakesNotice<N>>(&mut self, maker: &mut M) -> Result<(), NoNotice>
        ensures same { self.new.id ≡ self.old.id }
        ensures made { OnOk result (M.made maker.old maker.new) }
        ensures refused { OnErr result (M.refused maker.old maker.new) }
    {
        maker.renew(&mut self.notice)
    }
}

impl<I: Copy + Eq + Indexed, N: Notice, A: Allocator> Model for Slots<I, N, A> {
    ghost use Rattle.bcast_waiting.specs.Slots.{Slots as Ids};

    ghost Value = { Ids I };

    ghost use Rattle.bcast_waiting.specs.Words.{slots_of, ids_in, AreKept};
    ghost use Rattle.std.specs.Prelude.{vec_capacity};

    ghost view = { λ s. slots_of s.listeners s.positions };

    ghost invariant = { λ s.
        AreKept I.number (ids_in s.listeners.items) s.positions.items (vec_capacity s.listeners) };
}

impl<I: Copy + Eq + Indexed, N: Notice, A: Allocator + Copy> Slots<I, N, A> {
    // No slots. Allocates nothing.
    pub fn new(alloc: A) -> Self
        ensures { result.ids ≡ [] }
    {
        Slots {
            listeners: Vec::new(alloc),
            positions: Vec::new(alloc),
        }
    }
}

#[tactic(auto, using(crate::proofs::InSlots::slots))]
impl<I: Copy + Eq + Indexed, N: Notice, A: Allocator> Slots<I, N, A> {
    // How many slots there are, with the empty ones.
    pub fn len(&self) -> usize
        ensures { result ≡ length self.now.ids }
    {
        self.listeners.len()
    }

    // An id with a number below this can be listed without allocating.
    pub fn room(&self) -> usize
        ensures { result ≡ self.now.room }
    {
        self.positions.len()
    }

    // The ids in the slots, from the front.
    pub fn ids<B: Allocator>(&self, alloc: B) -> Result<Vec<I, B>, AllocError>
        ensures { IfOk result (λ ids. ids.items ≡ listed self.now.ids) }
    {
        ids_of(&self.listeners, alloc)
    }

    // Allocates memory for the positions of all ids whose numbers are below `room`, and for twice
    // as many slots. In a function of its own, so that a receiver for which there is room costs one
    // test.
    #[inline(never)]
    pub fn reserve(&mut self, room: usize) -> Result<(), AllocError>
        ensures ok { OnOk result (room ≤ self.new.room) }
        ensures succeeds { room ≤ self.old.room → IsOk result }

        ensures ids { self.new.ids ≡ self.old.ids }
        ensures room { self.old.room ≤ self.new.room }
    {
        if room <= self.positions.len() {
            return Ok(());
        }
        let Some(capacity) = room.checked_mul(2) else {
            return Err(AllocError);
        };
        let len = self.listeners.len();
        if capacity > len {
            self.listeners.reserve(capacity - len)?;
        }
        self.positions.resize(room, 0)?;
        Ok(())
    }

    // Whether the id is in the slot at the position.
    fn has(&self, position: usize, id: I) -> bool
        ensures { result ≡ has I.eq id (slice_index_or self.now.ids position None) }
    {
        if position < self.listeners.len()
            && let Some(listener) = &self.listeners[position]
        {
            id == listener.id
        } else {
            false
        }
    }

    // The position of the id's slot. Takes constant time.
    pub fn find(&self, id: I) -> Option<usize>
        ensures { MatchOption result (is_in I.eq id (listed self.now.ids) ≡ false)
            (λ position. has I.eq id (slice_index_or self.now.ids position None) ≡ true) }
    {
        let index = id.index();
        if index >= self.positions.len() {
            return None;
        }
        let position = self.positions[index];
        if self.has(position, id) {
            Some(position)
        } else {
            None
        }
    }

    // Adds a slot with this id and notice, the last one.
    pub fn push(&mut self, id: I, notice: N)
        requires slots { length self.old.ids < 2 * self.old.room }
        requires room { I.number id < self.old.room }
        requires absent { is_in I.eq id (listed self.old.ids) ≡ false }
        ensures { self.new ≡ record self.old { ids = self.old.ids ++ Some id ∷ [] } }
    {
        self.positions[id.index()] = self.listeners.len();
        self.listeners.push_reserved(Some(Listener { id, notice }));
    }

    // Empties a slot, which keeps its position, and returns the notice of its listener.
    #[inline(always)]
    pub fn take_at(&mut self, position: usize) -> Option<N>
        requires { position < length self.old.ids }
        ensures { self.new ≡ record self.old { ids = slice_set self.old.ids position None } }
    {
        let left = replace(&mut self.listeners[position], None);
        left.map(|listener| listener.notice)
    }

    // Replaces the notice of the listener in a slot by that of another poll.
    #[inline(always)]
    pub fn renew<M: MakesNotice<N>>(
        &mut self,
        position: usize,
        maker: &mut M,
    ) -> Result<(), NoNotice>
        requires within { position < length self.old.ids }
        requires there { is_some (slice_index_or self.old.ids position None) ≡ true }
        ensures same { self.new ≡ self.old }
        ensures made { OnOk result (M.made maker.old maker.new) }
        ensures refused { OnErr result (M.refused maker.old maker.new) }
    {
        match &mut self.listeners[position] {
            Some(listener) => listener.renew(maker),
            None => unreachable!(),
        }
    }

    // Calls the notice of the listener in a slot. Returns whether there is one.
    fn tell_at(&mut self, position: usize) -> bool
        requires { position < length self.old.ids }
        ensures there { result ≡ is_some (slice_index_or self.old.ids position None) }
        ensures same { self.new ≡ self.old }
    {
        match &mut self.listeners[position] {
            Some(listener) => {
                listener.notice.tell();
                true
            }
            None => false,
        }
    }

    // Calls the notices of the next `count` listeners, from a position on. Returns the
    // position behind the last of them.
    pub fn tell(&mut self, from: usize, count: usize) -> usize
        requires within { from ≤ length self.old.ids }
        requires enough { front self.old.ids from + count ≤ length (listed self.old.ids) }
        ensures within { result ≤ length self.new.ids }
        ensures told { front self.new.ids result ≡ front self.new.ids from + count }
        ensures same { self.new ≡ self.old }
    {
        let end = self.len();
        let mut left = count;
        for position in from..end {
            if left == 0 {
                return position;
            }
            if self.tell_at(position) {
                left -= 1;
            }
        }
        end
    }

    // Takes out the empty slots. The others keep their order.
    fn compact(&mut self)
        requires distinct { IsDistinct I.eq (listed self.old.ids) }
        requires room { AllByRecursion (λ id. I.number id < self.old.room) (listed self.old.ids) }
        ensures { self.new ≡ record self.old { ids = map Some (listed self.old.ids) } }
    {
        self.listeners.retain(|slot| slot.is_some());
        set_positions(&mut self.positions, &self.listeners);
    }

    // Takes out the empty slots, if they are more than the others. `len` listeners are listed, of
    // which `told` are in the slots before `told_end`. Returns what `told_end` is then.
    pub fn compact_if_sparse(&mut self, len: usize, told: usize, told_end: usize) -> usize
        requires len { len ≡ length (listed self.old.ids) }
        requires told { told ≡ front self.old.ids told_end }
        requires within { told_end ≤ length self.old.ids }
        requires distinct { IsDistinct I.eq (listed self.old.ids) }
        requires room { AllByRecursion (λ id. I.number id < self.old.room) (listed self.old.ids) }

        ensures few { length self.new.ids ≤ 2 * len + 1 }
        ensures listed { listed self.new.ids ≡ listed self.old.ids }
        ensures told { told ≡ front self.new.ids result }
        ensures within { result ≤ length self.new.ids }
        ensures room { self.new.room ≡ self.old.room }
    {
        if self.len() / 2 <= len {
            return told_end;
        }
        self.compact();
        told
    }
}

// The ids in the slots, from the front.
fn ids_of<I: Copy, N, A: Allocator, B: Allocator>(
    listeners: &Vec<Option<Listener<I, N>>, A>,
    alloc: B,
) -> Result<Vec<I, B>, AllocError>
    ensures { IfOk result (λ ids. ids.items ≡ filter_map slot_id listeners.now.items) }
{
    listeners
        .iter()
        .filter_map(|slot| slot.as_ref().map(|listener| listener.id))
        .collect(alloc)
}

// Sets the entry of each id's number to the id's position.
fn set_positions<I: Copy + Eq + Indexed, N>(
    positions: &mut [usize],
    listeners: &[Option<Listener<I, N>>],
)
    requires distinct { IsDistinct I.eq (listed (ids_in listeners.now)) }
    requires room { AllByRecursion (λ id. I.number id < length positions.old)
        (listed (ids_in listeners.now)) }
    ensures len { length positions.new ≡ length positions.old }
    ensures indexed { IsIndexed I.number (ids_in listeners.now) positions.new }
{
    for position in 0..listeners.len() {
        if let Some(listener) = &listeners[position] {
            positions[listener.id.index()] = position;
        }
    }
}
