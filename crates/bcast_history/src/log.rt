//! A receiver's log: a whole one, of all messages that a channel had accepted when it was closed,
//! and one that is cut short.
ghost use Rattle.std.specs.Prelude.{◌≡◌, Some, IfOk, IfErr, OnOk, codes};
ghost use Rattle.bcast_model.specs.Words.{ClonesEqual};
ghost use Rattle.bcast_history.specs.Laws.{HasReadAll};
ghost use Rattle.bcast_history.specs.Log.{IsCutLog, IsWholeLog, Logged, cut_log_text};
ghost use Rattle.bcast_history.specs.Makes.{MakesReceives};
ghost use Rattle.bcast_history.specs.Reader.{StartsAtTheFirst};

use crate::port::HistoryPort;
use crate::receiver::TrackedReceiver;
use crate::tracker::{Channel, Seen};
use bcast_core::RecvError;
use std::alloc::{AllocError, Allocator, Global};
use std::error::Error;
use std::fmt;
use std::marker::Model;
use std::sync::Wait;

/// All messages that a channel had accepted when it was closed, in order, as a receiver was given
/// them: each itself, or a clone. A contract sees the `list` of them, and the `steps` on the
/// channel that its receiver knew then.
#[derive(Drop)]
pub struct WholeLog<T: Clone, J: Channel, A: Allocator = Global> {
    list: Vec<T, A>,
    seen: Seen<T, J>,
}

impl<T: Clone, J: Channel, A: Allocator> Model for WholeLog<T, J, A> {
    ghost Value = { Logged T };

    ghost view = { λ l. record { list = l.list.items; steps = l.seen } };

    ghost invariant = { λ l. IsWholeLog T.is_clone J.opening l.list.items l.seen };
}

impl<T: Clone, J: Channel, A: Allocator> WholeLog<T, J, A> {
    /// The messages.
    pub fn into_list(self) -> Vec<T, A>
        ensures { result.items ≡ self.list }
    {
        let WholeLog { list, seen: _ } = self;
        list
    }

    /// What the receiver knew, for other callers.
    pub fn seen(&self) -> Seen<T, J>
        ensures { result ≡ self.now.steps }
    {
        self.seen.same()
    }

    /// Proves that the log is whole: it has all that the channel had accepted when these steps had
    /// closed it. Does nothing.
    pub fn invariant_holds(&self)
        ensures { IsWholeLog T.is_clone J.opening self.now.list self.now.steps }
    {
        let _ = &self.seen;
    }

    /// Proves that another log of this channel has the same messages, if clones are equal. Does
    /// nothing.
    pub fn agrees_with<B: Allocator>(&self, other: &WholeLog<T, J, B>)
        ensures { ClonesEqual T.is_clone → self.now.list ≡ other.now.list }
    {
        let mut both = self.seen.same();
        both.learn(&other.seen);
    }

    /// The messages of this log and those of another one of this channel: the same list twice, if
    /// clones are equal.
    pub fn into_lists<B: Allocator>(self, other: WholeLog<T, J, B>) -> (Vec<T, A>, Vec<T, B>)
        ensures own { (result.0.items ≡ self.list) × (result.1.items ≡ other.list) }
        ensures same { ClonesEqual T.is_clone → result.0.items ≡ result.1.items }
    {
        self.agrees_with(&other);
        (self.into_list(), other.into_list())
    }
}

/// What a receiver was given till it missed messages, or memory was refused. Printing it needs no
/// trait of `T`.
#[derive(Drop)]
pub struct CutLog<T, A: Allocator = Global> {
    /// The messages that were received, in order.
    pub list: Vec<T, A>,
    /// How many messages the receiver missed after them; or that memory was refused, and then it
    /// has missed none.
    pub missed: Result<u64, AllocError>,
}

impl<T, A: Allocator> fmt::Display for CutLog<T, A> {
    ghost output = { λ cut. Some (cut_log_text cut.missed) };

    fn fmt<W: fmt::Write>(&self, f: &mut fmt::Formatter<W>) -> fmt::Result {
        match self.missed {
            Ok(missed) => write!(f, "{}", RecvError::Overflowed(missed)),
            Err(_) => f.write_str("out of memory"),
        }
    }
}

impl<T, A: Allocator> fmt::Debug for CutLog<T, A> {
    ghost debug_output = { λ _. Some (codes "CutLog(..)") };

    fn fmt<W: fmt::Write>(&self, f: &mut fmt::Formatter<W>) -> fmt::Result {
        f.write_str("CutLog(..)")
    }
}

impl<T: Drop, A: Allocator> Error for CutLog<T, A> {}

impl<T: Clone, P: HistoryPort<T, J>, J: Channel> TrackedReceiver<T, P, J> {
    /// Receives until the channel is closed, and returns all messages that it had accepted, of
    /// which this receiver has read none before. Memory for `count` of them is taken before the
    /// first one is received.
    ///
    /// # Errors
    ///
    /// Each hands back the messages that were received till then, in `list`.
    ///
    /// - `missed: Ok(n)`: the next `n` messages were dropped. The receiver continues after them.
    /// - `missed: Err(AllocError)`: no memory for a message, or for the list. The receiver
    ///   continues after those in the list.
    pub fn recv_all_blocking<A: Allocator>(
        &mut self,
        rt: &impl Wait,
        alloc: A,
        count: usize,
    ) -> Result<WholeLog<T, J, A>, CutLog<T, A>>
        requires { StartsAtTheFirst J.opening self.old.tracker }
        ensures only { MakesReceives P.learns self.old.tracker self.new.tracker }
        ensures log { IfOk result (λ log. log.steps ≡ self.new.tracker.steps) }
        ensures read { OnOk result (HasReadAll J.opening self.new.tracker) }
        ensures cut { IfErr result (λ cut. IsCutLog P.learns T.is_clone J.opening
            cut.list.items cut.missed self.new.tracker) }
    {
        let mut list = Vec::new(alloc);
        if let Err(refused) = list.reserve(count) {
            let missed = Err(refused);
            return Err(CutLog { list, missed });
        }
        for _ in rt.forever() {
            match self.recv_many_blocking(usize::MAX, &mut list) {
                Ok(Ok(_)) => {}
                Ok(Err(RecvError::Closed)) => {
                    self.invariant_holds();
                    let seen = self.seen();
                    return Ok(WholeLog { list, seen });
                }
                Ok(Err(RecvError::Overflowed(missed))) => {
                    let missed = Ok(missed);
                    return Err(CutLog { list, missed });
                }
                Err(refused) => {
                    let missed = Err(refused);
                    return Err(CutLog { list, missed });
                }
            }
        }
        unreachable!()
    }
}
