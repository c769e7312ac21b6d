//! The parts of a channel's state, and the steps that its calls are made of.
ghost use Rattle.std.specs.Prelude.{◌≡◌, ◌≤◌, true, false, is_some};

use bcast_model::error::HandleError;
use bcast_model::listener::Kind;
use bcast_store::Store;
use bcast_waiting::notice::Notice;
use bcast_waiting::{Event, Places};
use std::alloc::{Allocator, Global};
use std::marker::Model;

mod receive;
mod send;

pub use receive::ReceivePoll;
pub use send::is_accepted;

/// The state of a channel between the steps of a call. It need not be a valid state.
#[derive(Drop)]
pub struct Parts<T, N: Notice, A: Allocator = Global> {
    pub(crate) store: Store<T, A>,
    // The places of pending sends, and the listeners of those that wait.
    pub(crate) places: Places<A>,
    pub(crate) sends: Event<usize, N, A>,
    pub(crate) receives: Event<(usize, Kind), N, A>,
    pub(crate) senders: usize,
    pub(crate) inactive: usize,
    pub(crate) closed: bool,
    pub(crate) overflow: bool,
    pub(crate) await_active: bool,
    pub(crate) capacity: usize,
}

impl<T, N: Notice, A: Allocator> Model for Parts<T, N, A> {
    ghost use Rattle.bcast_model.specs.Words.{View, view_code};
    ghost use Rattle.bcast_core.specs.Parts.{seen_of, control_of};

    ghost Value = { View T };

    ghost coded = { view_code T.code };

    ghost view = { λ p. seen_of p.store
        (control_of p.store p.places p.sends p.receives p.senders p.inactive p.closed p.overflow
        p.await_active p.capacity) };

    ghost use Rattle.bcast_core.specs.Parts.{AllHaveRoom};

    // There is room to list both listeners of each receiver, and each pending send.
    ghost invariant = { λ p. AllHaveRoom p.store.cursors p.receives.room p.places p.sends.room };
}

impl<T: Drop, N: Notice, A: Allocator + Copy> Parts<T, N, A> {
    ghost use Rattle.bcast_model.specs.Words.{close, close_if_deserted, sends_are_ready};
    ghost use Rattle.bcast_model.specs.Words.{tell_if_ready, IsValidView, settle, sets, cursor_of};
    ghost use Rattle.bcast_model.specs.Words.{without_receiver, pair_ended, stream_of, future_of};
    ghost use Rattle.bcast_core.specs.Parts.{Adds};
    ghost use Rattle.bcast_core.specs.Telling.{tell_news, NobodyWaits};

    /// Whether a send would be answered without waiting.
    pub fn sends_are_ready(&self) -> bool
        ensures { result ≡ sends_are_ready self.now }
    {
        let nobody = self.store.has_no_receiver();
        self.closed
            || (!nobody && (self.overflow || self.store.len() != self.capacity))
            || (nobody && !self.await_active)
    }

    /// Whether no send waits, and no receiver.
    #[inline(always)]
    pub fn nobody_waits(&self) -> bool
        ensures { result ≡ true → NobodyWaits self.now.control }
    {
        self.sends.is_empty() && self.receives.is_empty()
    }

    /// The last step of a call: tells the first send that waits, if sends are ready now and none is
    /// told already.
    ///
    /// Calls that are made often ask before whether a send waits: after each call of a function that
    /// may wait, as the drop of a notice may, the compiler adds a test.
    #[inline(always)]
    #[tactic(auto, using(crate::proofs::Tail::tails))]
    pub fn tell_a_sender(&mut self)
        ensures { self.new ≡ tell_if_ready self.old }
    {
        if !self.sends.is_empty() {
            self.tell_first_sender();
        }
    }

    // In a function of its own, so that a call while no send waits costs one test.
    #[inline(never)]
    fn tell_first_sender(&mut self)
        ensures { self.new ≡ tell_if_ready self.old }
    {
        if self.sends_are_ready() {
            self.sends.tell(1);
        }
    }

    /// The last step of a call that sends: if it accepted a message, all that wait to receive are
    /// told first.
    #[inline(always)]
    #[tactic(auto, using(crate::proofs::Tail::tails))]
    pub fn tell_of_message(&mut self, is_accepted: bool)
        ensures { self.new ≡ tell_if_ready (tell_news is_accepted self.old) }
    {
        if !self.nobody_waits() {
            self.tell_waiting(is_accepted);
        }
    }

    // In a function of its own, so that a call while nobody waits costs two tests.
    #[inline(never)]
    fn tell_waiting(&mut self, is_accepted: bool)
        ensures { self.new ≡ tell_if_ready (tell_news is_accepted self.old) }
    {
        self.tell_news(is_accepted);
        self.tell_first_sender();
    }

    // Tells all that wait to receive, if a message was accepted, and all sends, if it closed the
    // channel.
    fn tell_news(&mut self, news: bool)
        ensures { self.new ≡ tell_news news self.old }
    {
        if !news {
            return;
        }
        self.receives.tell_all();
        if self.closed {
            self.sends.tell_all();
        }
    }

    /// Closes an open channel: all that wait are told.
    #[inline(never)]
    pub fn close(&mut self)
        ensures { self.new ≡ record self.old { control = close self.old.control } }
    {
        if !self.closed {
            self.closed = true;
            self.sends.tell_all();
            self.receives.tell_all();
        }
    }

    /// Closes the channel if one side has no handle left.
    #[inline(always)]
    pub fn close_if_deserted(&mut self)
        ensures { self.new ≡ record self.old { control = close_if_deserted self.old.control } }
    {
        if self.senders == 0 || (self.store.has_no_receiver() && self.inactive == 0) {
            self.close();
        }
    }

    /// Adds a receiver that reads the message of this number next, under a key that none has.
    #[inline(always)]
    pub fn add_receiver(&mut self, cursor: u64) -> Result<usize, HandleError>
        requires valid { IsValidView self.old }
        requires reach { cursor ≤ self.old.end }
        ensures { Adds self.old cursor result self.new }
    {
        let Ok(key) = self.store.add(cursor) else {
            return Err(HandleError::Memory);
        };
        let Ok(()) = self.receives.reserve_for((key, Kind::Future)) else {
            self.store.remove(key);
            return Err(HandleError::Memory);
        };
        self.store.invariant_holds();
        Ok(key)
    }

    /// Removes a receiver, if there is one, with its stream and its future. Returns whether there
    /// was one.
    #[inline(always)]
    pub fn remove_receiver(&mut self, key: usize) -> bool
        ensures found { result ≡ is_some (cursor_of self.old.control key) }
        ensures removed { result ≡ true
            → self.new ≡ settle self.old (sets (without_receiver self.old.control key)) }
        ensures same { result ≡ false → self.new ≡ self.old }
    {
        if !self.store.remove(key) {
            return false;
        }
        if !self.receives.is_empty() {
            self.end_listeners(key);
        }
        true
    }

    /// A receiver's listener is dropped, and its notice returned. What it was told is passed on.
    #[inline(always)]
    pub fn pair_ended(&mut self, key: usize, kind: Kind) -> Option<N>
        ensures { self.new
            ≡ record self.old { control = pair_ended self.old.control (key, kind) } }
    {
        self.receives.abandon((key, kind))
    }

    // In a function of its own, so that a receiver that leaves while none waits costs one test.
    #[inline(never)]
    fn end_listeners(&mut self, key: usize)
        ensures { self.new ≡ record self.old {
          control = pair_ended (pair_ended self.old.control (stream_of key)) (future_of key);
        } }
    {
        let _ = self.pair_ended(key, Kind::Stream);
        let _ = self.pair_ended(key, Kind::Future);
    }
}
