//! The listeners in the order of registering, of which a front part is told.
ghost use Rattle.std.specs.Prelude.{◌≡◌, ◌↔◌, ◌<◌, ◌≤◌, true, false, OnOk, OnErr, IfOk, IsOk, length, option_map};
ghost use Rattle.bcast_model.specs.Listeners.{no_listeners, tell, tell_all, join, consume, abandon, wait_again, is_in, untold_ids, AreInOrder};
ghost use Rattle.bcast_waiting.specs.Event.{is_told};

use crate::indexed::Indexed;
use crate::notice::{MakesNotice, NoNotice, Notice};
use crate::slots::Slots;
use std::alloc::{AllocError, Allocator, Global};
use std::marker::Model;

/// The listeners in the order of registering, each with its id and its notice. The told ones are a
/// front part. Nobody is listed twice.
///
/// A call for one listener takes constant time, amortised over the calls, in whatever order they
/// leave. Each is found by the number of its id ([`Indexed`]).
///
/// Source: `event_listener::Event`, as async-broadcast 0.7.2 uses it.
#[derive(Drop)]
pub struct Event<I: Copy + Eq + Indexed, N: Notice, A: Allocator = Global> {
    slots: Slots<I, N, A>,
    // How many listeners are listed.
    len: usize,
    // How many listeners, from the front on, are told.
    told: usize,
    // The told ones are those in the slots below this position.
    told_end: usize,
}

impl<I: Copy + Eq + Indexed, N: Notice, A: Allocator> Model for Event<I, N, A> {
    ghost use Rattle.bcast_waiting.specs.Event.{Event as Listed};

    ghost Value = { Listed I };

    ghost use Rattle.bcast_waiting.specs.EventInvariant.{listeners_of, IsKept};

    ghost view = { λ e. record {
      listeners = listeners_of e.slots.ids e.told;
      room = e.slots.room;
    } };

    ghost invariant = { λ e. IsKept I.eq I.number e.slots e.len e.told e.told_end };
}

impl<I: Copy + Eq + Indexed, N: Notice, A: Allocator + Copy> Event<I, N, A> {
    /// An event that nobody waits for. Takes no memory.
    pub fn new(alloc: A) -> Event<I, N, A>
        ensures { result.listeners ≡ no_listeners }
    {
        Event {
            slots: Slots::new(alloc),
            len: 0,
            told: 0,
            told_end: 0,
        }
    }
}

#[tactic(auto, using(crate::proofs::Listeners::listing))]
impl<I: Copy + Eq + Indexed, N: Notice, A: Allocator> Event<I, N, A> {
    /// What always holds: nobody is listed twice, no more are told than are listed, and no more are
    /// listed than there is room for.
    pub fn invariant_holds(&self)
        ensures in_order { AreInOrder I.eq self.now.listeners }
        ensures fits { length self.now.listeners.ids ≤ self.now.room }
    {
        let _slots = &self.slots;
    }

    /// How many listeners are listed.
    pub fn len(&self) -> usize
        ensures { result ≡ length self.now.listeners.ids }
    {
        self.len
    }

    /// Whether nobody is listed.
    #[inline(always)]
    pub fn is_empty(&self) -> bool
        ensures { (result ≡ true) ↔ (self.now.listeners ≡ no_listeners) }
    {
        self.invariant_holds();
        self.len == 0
    }

    /// The ids of the listeners, from the front.
    pub fn ids<B: Allocator>(&self, alloc: B) -> Result<Vec<I, B>, AllocError>
        ensures { IfOk result (λ ids. ids.items ≡ self.now.listeners.ids) }
    {
        self.slots.ids(alloc)
    }

    /// How many listeners, from the front, are told.
    pub fn told(&self) -> usize
        ensures { result ≡ self.now.listeners.told }
    {
        self.told
    }

    /// Makes room for a listener, and for each whose id has a smaller number. The listeners stay as
    /// they are, and the room doesn't fall.
    ///
    /// Takes memory for twice as many, so that the places of those that leave are cleared rarely.
    ///
    /// # Errors
    ///
    /// `AllocError`: there was no room for it, and memory for more was refused.
    #[inline(always)]
    pub fn reserve_for(&mut self, id: I) -> Result<(), AllocError>
        ensures ok { OnOk result (I.number id < self.new.room) }
        ensures succeeds { I.number id < self.old.room → IsOk result }

        ensures listeners { self.new.listeners ≡ self.old.listeners }
        ensures room { self.old.room ≤ self.new.room }
    {
        let index = id.index();
        if index < self.slots.room() {
            return Ok(());
        }
        let Some(room) = index.checked_add(1) else {
            return Err(AllocError);
        };
        self.slots.reserve(room)
    }

    /// Whether a listener is told, if it is listed.
    #[inline(always)]
    pub fn is_told(&self, id: I) -> Option<bool>
        ensures { result ≡ is_told I.eq id self.now.listeners }
    {
        let Some(position) = self.slots.find(id) else {
            return None;
        };
        Some(position < self.told_end)
    }

    /// Whether a listener is listed and not told.
    #[inline(always)]
    pub fn is_untold(&self, id: I) -> bool
        ensures { result ≡ is_in I.eq id (untold_ids self.now.listeners) }
    {
        self.invariant_holds();
        if self.told == self.len {
            return false;
        }
        match self.is_told(id) {
            Some(told) => !told,
            None => false,
        }
    }

    /// Lists a listener, last and untold. Takes no memory, and constant time, amortised.
    pub fn join(&mut self, id: I, notice: N)
        requires absent { is_in I.eq id self.old.listeners.ids ≡ false }
        requires room { I.number id < self.old.room }
        ensures { self.new ≡ record self.old { listeners = join id self.old.listeners } }
    {
        self.told_end = self
            .slots
            .compact_if_sparse(self.len, self.told, self.told_end);
        self.slots.push(id, notice);
        let _room = self.slots.room();
        self.len += 1;
    }

    /// Tells the first `count` listeners. The notice of each that was not told yet is called, once
    /// and front first.
    ///
    /// Takes time for those that were not told yet alone, amortised.
    #[inline(always)]
    pub fn tell(&mut self, count: usize)
        ensures { self.new ≡ record self.old { listeners = tell count self.old.listeners } }
    {
        let end = count.min(self.len);
        if self.told < end {
            self.tell_up_to(end);
        }
    }

    // Tells the listeners before `end`, some of whom aren't told yet. In a function of its own, so
    // that a call with nobody to tell costs one test.
    #[inline(never)]
    fn tell_up_to(&mut self, end: usize)
        requires more { self.old.listeners.told < end }
        requires within { end ≤ length self.old.listeners.ids }
        ensures { self.new ≡ record self.old { listeners = tell end self.old.listeners } }
    {
        self.told_end = self.slots.tell(self.told_end, end - self.told);
        self.told = end;
    }

    /// Tells every listener, as [`Event::tell`] does.
    #[inline(always)]
    pub fn tell_all(&mut self)
        ensures { self.new ≡ record self.old { listeners = tell_all self.old.listeners } }
    {
        let len = self.len;
        self.tell(len);
    }

    /// Takes out a listener that got what it waited for, and returns whether it was told;
    /// `None` if it is not listed, which changes nothing.
    #[inline(always)]
    pub fn consume(&mut self, id: I) -> Option<bool>
        ensures told { result ≡ is_told I.eq id self.old.listeners }
        ensures rest { self.new
            ≡ record self.old { listeners = consume I.eq id self.old.listeners } }
    {
        match self.take(id) {
            Some((is_told, _)) => Some(is_told),
            None => None,
        }
    }

    // Takes out a listener, and returns whether it was told, and its notice.
    #[inline(always)]
    fn take(&mut self, id: I) -> Option<(bool, Option<N>)>
        ensures told { option_map (λ taken. taken.0) result ≡ is_told I.eq id self.old.listeners }
        ensures rest { self.new
            ≡ record self.old { listeners = consume I.eq id self.old.listeners } }
    {
        if self.len == 0 {
            return None;
        }
        let Some(position) = self.slots.find(id) else {
            return None;
        };
        let notice = self.slots.take_at(position);
        self.len -= 1;
        if position < self.told_end {
            self.told -= 1;
            Some((true, notice))
        } else {
            Some((false, notice))
        }
    }

    /// Takes out a listener that gave up, and returns its notice. If it was told, the first of the
    /// others is told in its place, unless that one is told already. If it is not listed, nothing
    /// changes.
    #[inline(always)]
    pub fn abandon(&mut self, id: I) -> Option<N>
        ensures { self.new ≡ record self.old { listeners = abandon I.eq id self.old.listeners } }
    {
        let Some((was_told, notice)) = self.take(id) else {
            return None;
        };
        if was_told {
            self.tell(1);
        }
        notice
    }

    /// Lists a listener that must wait, with the notice that is made for it. One that is listed and
    /// not told keeps its position, and its notice is made into that of this poll; any other is
    /// listed last and untold, and taken out first if it was listed.
    ///
    /// # Errors
    ///
    /// `NoNotice`: the maker made no notice, and nothing changed.
    #[inline(always)]
    pub fn wait_again<M: MakesNotice<N>>(&mut self, id: I, maker: &mut M) -> Result<(), NoNotice>
        requires room { I.number id < self.old.room }
        ensures waits { OnOk result (self.new
            ≡ record self.old { listeners = wait_again I.eq id self.old.listeners }) }
        ensures made { OnOk result (M.made maker.old maker.new) }
        ensures same { OnErr result (self.new ≡ self.old) }
        ensures refused { OnErr result (M.refused maker.old maker.new) }
    {
        match self.slots.find(id) {
            Some(position) if position >= self.told_end => self.slots.renew(position, maker),
            _ => {
                let notice = maker.make()?;
                self.list_last(id, notice);
                Ok(())
            }
        }
    }

    // Lists a listener that is told or not listed, last and untold. In a function of its own, so
    // that less is compiled into each poll.
    #[inline(never)]
    fn list_last(&mut self, id: I, notice: N)
        requires room { I.number id < self.old.room }
        requires not_untold { is_in I.eq id (untold_ids self.old.listeners) ≡ false }
        ensures { self.new
            ≡ record self.old { listeners = wait_again I.eq id self.old.listeners } }
    {
        self.consume(id);
        self.join(id, notice);
    }
}
