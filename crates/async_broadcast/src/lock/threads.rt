//! The threads that wait for the channel, and which of them to wake.
ghost use Rattle.std.specs.Prelude.{◌≡◌, false, IfSome, IfNone};
ghost use Rattle.async_broadcast.specs.Woken.{AreSenders, HasNoThread, HasWokenSender, KnowsTail};
ghost use Rattle.async_broadcast.specs.Woken.{ChoosesReceivers, HasWokenReceiver, MovesReceivers};
ghost use Rattle.async_broadcast.specs.Woken.{Chooses, ChoosesSender};
ghost use Rattle.async_broadcast.specs.Counted.{BeginsWait, EndsWait, tail_of};

use crate::wake::Wake;
use bcast_core::Inner;
use std::alloc::Allocator;

/// The threads that wait, to send or for a message, and which of them to wake.
///
/// A call wakes at most one of each kind, and none while one is marked as woken, so that few
/// threads want the lock at once. A thread that has tried, also one whose time is over, takes the
/// mark away, and wakes the next.
///
/// A condition variable may wake any of its threads, so also one that has nothing to receive,
/// while one sleeps that has. Then a new round begins: all that wait for a message are woken, and
/// none is counted any more. Who finds nothing waits again, and is counted in the new round.
#[derive(Drop)]
pub(super) struct Threads {
    // How many threads wait to send, and whether one of them was woken and hasn't tried yet.
    senders: u64,
    is_sender_woken: bool,
    // How many threads wait for a message: those that have nothing to receive, and those that have.
    caught_up_receivers: u64,
    due_receivers: u64,
    // What those that have nothing to receive know (`tail`).
    known: (u64, bool),
    // Whether one that has something to receive was woken and hasn't tried yet.
    is_receiver_woken: bool,
    // Whether the thread that tried last had waited for a message, and found none.
    is_misled: bool,
    // How often all that wait for a message were woken.
    rounds: u64,
}

/// Which threads to wake. It can't be dropped, so they have to be woken.
pub(super) struct Woken {
    /// Whether to wake one that waits to send.
    pub(super) sender: bool,
    pub(super) receivers: WokenReceivers,
}

/// How many of the threads to wake that wait for a message.
#[derive(Clone, Copy, PartialEq)]
pub(super) enum WokenReceivers {
    Nobody,
    One,
    All,
}

/// With whom a thread waits.
#[derive(Clone, Copy)]
pub(super) enum Side {
    /// With those that wait to send.
    Senders,
    /// With those that wait for a message.
    Receivers,
}

/// A thread that is counted as one that waits. It can't be dropped, so it has to be given to
/// `end_waiting`. The thread does that after its next try; `choose_woken` then has another woken if
/// there is something for it.
pub(super) enum WaitingThread {
    ToSend,
    /// With what it knew when it began (`tail`), and in which round.
    ToReceive((u64, bool), u64),
}

impl Threads {
    /// No thread waits, and none was woken.
    pub(super) fn none() -> Threads
        ensures threads { HasNoThread result }
        ensures sender { result.is_sender_woken ≡ false }
        ensures receiver { result.is_receiver_woken ≡ false }
    {
        Threads {
            senders: 0,
            is_sender_woken: false,
            caught_up_receivers: 0,
            due_receivers: 0,
            known: (0, false),
            is_receiver_woken: false,
            is_misled: false,
            rounds: 0,
        }
    }

    /// Chooses which of the threads to wake that can do something after the last call on the
    /// channel. `None`: no thread waits.
    #[inline(always)]
    #[tactic(auto, using(std::proofs::lemmas::Nat::le_or_l, std::proofs::lemmas::Nat::le_or_r))]
    pub(super) fn choose_woken<T: Clone, A: Allocator + Copy>(
        &mut self,
        inner: &Inner<T, Wake, A>,
    ) -> Option<Woken>
        ensures knows { KnowsTail inner.now self.new }
        ensures sends { HasWokenSender inner.now self.new }
        ensures receives { HasWokenReceiver self.new }

        ensures nobody { IfNone result (self.new ≡ self.old) }
        ensures chosen { IfSome result (Chooses inner.now self.old self.new) }
    {
        // One test in place of three.
        if (self.senders | self.caught_up_receivers | self.due_receivers) == 0 {
            return None;
        }
        Some(self.choose_among(inner))
    }

    // In a function of its own, so that a call while no thread waits costs one test.
    #[inline(never)]
    fn choose_among<T: Clone, A: Allocator + Copy>(&mut self, inner: &Inner<T, Wake, A>) -> Woken
        ensures knows { KnowsTail inner.now self.new }
        ensures sends { HasWokenSender inner.now self.new }
        ensures receives { HasWokenReceiver self.new }
        ensures chosen { Chooses inner.now self.old self.new result }
    {
        let sender = self.choose_sender(inner);
        self.move_receivers(inner);
        let receivers = self.choose_receivers();
        Woken { sender, receivers }
    }

    // Whether to wake a thread that waits to send.
    fn choose_sender<T: Clone, A: Allocator + Copy>(&mut self, inner: &Inner<T, Wake, A>) -> bool
        ensures chosen { ChoosesSender inner.now self.old self.new result }
        ensures sends { HasWokenSender inner.now self.new }
    {
        let is_woken = self.senders > 0 && !self.is_sender_woken && inner.sends_are_ready();
        self.is_sender_woken |= is_woken;
        is_woken
    }

    // Counts the threads that wait for a message among those that have something to receive, if
    // there is more than they know.
    fn move_receivers<T: Clone, A: Allocator + Copy>(&mut self, inner: &Inner<T, Wake, A>)
        ensures moved { MovesReceivers inner.now self.old self.new }
        ensures senders { AreSenders self.old self.new }
    {
        let tail = tail(inner);
        if tail != self.known {
            self.due_receivers = self.due_receivers.wrapping_add(self.caught_up_receivers);
            self.caught_up_receivers = 0;
        }
        self.known = tail;
    }

    // Which of the threads to wake that wait for a message.
    fn choose_receivers(&mut self) -> WokenReceivers
        ensures chosen { ChoosesReceivers self.old self.new result }
        ensures senders { AreSenders self.old self.new }
    {
        let is_misled = self.is_misled;
        self.is_misled = false;
        if self.due_receivers == 0 {
            return WokenReceivers::Nobody;
        }
        if is_misled {
            self.caught_up_receivers = 0;
            self.due_receivers = 0;
            self.rounds = self.rounds.wrapping_add(1);
            return WokenReceivers::All;
        }
        if self.is_receiver_woken {
            return WokenReceivers::Nobody;
        }
        self.is_receiver_woken = true;
        WokenReceivers::One
    }

    /// Counts a thread that is about to wait, for a message if it has none to receive.
    pub(super) fn begin_waiting<T: Clone, A: Allocator + Copy>(
        &mut self,
        side: Side,
        inner: &Inner<T, Wake, A>,
    ) -> WaitingThread
        ensures { BeginsWait inner.now side self.old self.new result }
    {
        match side {
            Side::Senders => {
                self.senders = self.senders.wrapping_add(1);
                WaitingThread::ToSend
            }
            Side::Receivers => {
                self.caught_up_receivers = self.caught_up_receivers.wrapping_add(1);
                self.known = tail(inner);
                self.is_misled = false;
                WaitingThread::ToReceive(self.known, self.rounds)
            }
        }
    }

    /// Counts a thread no more that has waited and tried again. `must_wait`: it wasn't answered.
    pub(super) fn end_waiting(&mut self, waiting: WaitingThread, must_wait: bool)
        ensures { EndsWait waiting must_wait self.old self.new }
    {
        match waiting {
            WaitingThread::ToSend => {
                self.senders = self.senders.wrapping_sub(1);
                self.is_sender_woken = false;
            }
            WaitingThread::ToReceive(_, round) if self.rounds != round => {}
            WaitingThread::ToReceive(known, _) => {
                if self.known == known {
                    self.caught_up_receivers = self.caught_up_receivers.wrapping_sub(1);
                } else {
                    self.due_receivers = self.due_receivers.wrapping_sub(1);
                }
                self.is_receiver_woken = false;
                self.is_misled = must_wait;
            }
        }
    }
}

// What changes when a receiver that had read everything has something to receive: the number after
// the last message, and whether the channel is closed.
fn tail<T: Clone, A: Allocator + Copy>(inner: &Inner<T, Wake, A>) -> (u64, bool)
    ensures { result ≡ tail_of inner.now }
{
    (inner.end_number(), inner.is_closed())
}
