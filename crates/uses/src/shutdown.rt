//! A signal to stop, given by the drop of the last sender.
ghost use Rattle.std.specs.Prelude.{◌≡◌, ◌+◌, ◌-◌, ◌==◌, ◌<◌, ◌^◌, IfOk, OnOk, OnErr, IsOk, IsErrOf};
ghost use Rattle.std.specs.FinMap.{empty, insert};
ghost use Rattle.uses.specs.Signal.{IsWorker, AddsWorker, is_closed_reply};

use bcast_core::{HandleError, Inner, RecvResult, Silent, TryRecvError};
use std::alloc::{AllocError, Global};
use std::marker::Model;

/// A channel on which nothing is ever sent: its workers run until nobody holds a sender.
///
/// Contracts see the count of holders, and the workers' keys. The signal is given once there is no
/// holder left, and is never taken back.
#[derive(Drop)]
pub struct Shutdown {
    inner: Inner<(), Silent>,
}

impl Model for Shutdown {
    ghost use Rattle.uses.specs.Signal.{Signal, signal_code, signal_of, IsSignal};

    ghost Value = { Signal };

    ghost coded = { signal_code };

    ghost view = { λ s. signal_of s.inner };

    ghost invariant = { λ s. IsSignal s.inner };
}

impl Shutdown {
    /// A signal that one holder holds, and the key of its first worker.
    ///
    /// # Errors
    ///
    /// `AllocError`: there is no memory for the channel.
    #[tactic(auto, using(bcast_core::proofs::Settle::inserted))]
    pub fn new(alloc: Global) -> Result<(Self, usize), AllocError>
        ensures holders { IfOk result (λ made. made.0.holders ≡ 1) }
        ensures worker { IfOk result (λ made. IsWorker made.0 made.1) }
        ensures only { IfOk result (λ made. made.0.workers ≡ insert empty made.1 0) }
    {
        let (inner, worker) = Inner::new(alloc, 1)?;
        Ok((Shutdown { inner }, worker))
    }

    /// Adds one to the count of holders.
    ///
    /// # Errors
    ///
    /// Nothing changed.
    /// - `Gone`: the signal is given, since nobody holds it.
    /// - `TooMany`: the count is the greatest `usize`.
    pub fn hold(&mut self) -> Result<(), HandleError>
        ensures ok { OnOk result (self.new ≡ record self.old { holders = self.old.holders + 1 }) }
        ensures err { OnErr result (self.new ≡ self.old) }
        ensures gone { self.old.holders ≡ 0 → IsErrOf result HandleError.Gone }
        ensures too_many { self.old.holders + 1 ≡ 2 ^ 64 → IsErrOf result HandleError.TooMany }
        ensures sure { 0 < self.old.holders → self.old.holders + 1 < 2 ^ 64 → IsOk result }
    {
        if self.inner.is_closed() {
            return Err(HandleError::Gone);
        }
        self.inner.new_sender()
    }

    /// Takes one from the count of holders. If there is none left it changes nothing.
    pub fn release(&mut self)
        ensures { self.new ≡ record self.old { holders = self.old.holders - 1 } }
    {
        self.inner.drop_sender();
    }

    /// Adds a worker, and returns its key.
    ///
    /// # Errors
    ///
    /// `Memory`: there is no memory for it. Nothing changed.
    pub fn add_worker(&mut self) -> Result<usize, HandleError>
        ensures ok { IfOk result (λ worker. AddsWorker self.old self.new worker) }
        ensures err { OnErr result (self.new ≡ self.old) }
    {
        self.inner.new_receiver()
    }

    /// Whether a worker finds that the signal is given: there is no holder left. Changes nothing.
    pub fn is_given(&mut self, worker: usize) -> bool
        requires { IsWorker self.old worker }
        ensures given { result ≡ (self.old.holders == 0) }
        ensures same { self.new ≡ self.old }
    {
        let answer = self.inner.try_recv(worker);
        says_closed(&answer)
    }
}

// Whether a receive found that the channel is closed and everything was read.
fn says_closed(answer: &RecvResult<(), TryRecvError>) -> bool
    ensures { result ≡ is_closed_reply answer.now }
{
    matches!(answer, Ok(Err(TryRecvError::Closed)))
}
