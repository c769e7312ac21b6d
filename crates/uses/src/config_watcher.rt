//! Settings that change, for watchers that may look late.
ghost use Rattle.std.specs.Prelude.{◌≡◌, ◌+◌, ◌<◌, ◌^◌, [], ◌∷◌, false, Some, IfOk, IfErr, IfSome, IfNone, OnOk, OnErr, IsOk};
ghost use Rattle.std.specs.FinMap.{get};
ghost use Rattle.bcast_model.specs.Words.{Answers, NoClone};
ghost use Rattle.bcast_model.specs.declared.run.Call.TheVariants as call;
ghost use Rattle.bcast_model.specs.declared.run.Reply.TheVariants as reply;
ghost use Rattle.uses.specs.Config.{IsUnset, IsSet, IsLatest, IsUpToDate, KeepsOthers, IsLook, set_answer, change_of};

use bcast_core::{HandleError, Inner, OwnedNotice, PollNext, Polls, Silent, TrySendError};
use futures::task::Poll;
use std::alloc::{AllocError, Global};
use std::marker::Model;

/// The latest settings, as a channel of capacity 1 in overflow mode: new settings replace those
/// that some watcher hasn't looked at yet.
///
/// Contracts see the channel's view: `end` counts all settings so far, and a watcher's cursor
/// counts those that were set before its last look.
#[derive(Drop)]
pub struct Config<S> {
    inner: Inner<S, Silent>,
}

impl<S> Model for Config<S> {
    ghost use Rattle.bcast_model.specs.Words.{View, view_code};
    ghost use Rattle.uses.specs.Config.{IsConfig};

    ghost Value = { View S };

    ghost coded = { view_code S.code };

    ghost view = { λ c. c.inner };

    ghost invariant = { λ c. IsConfig c.inner };
}

/// What a watcher finds if it hasn't seen the latest settings.
#[derive(Drop)]
pub struct Change<S> {
    /// The latest settings.
    pub settings: S,
    /// How many settings before them it missed.
    pub missed: u64,
}

impl<S: Clone> Config<S> {
    /// A channel for settings, none of which are set yet, and the key of its first watcher.
    ///
    /// # Errors
    ///
    /// `AllocError`: there is no memory for the channel.
    pub fn new(alloc: Global) -> Result<(Self, usize), AllocError>
        ensures unused { IfOk result (λ made. made.0.end ≡ 0) }
        ensures watcher { IfOk result (λ made. get made.0.control.cursors made.1 ≡ Some 0) }
        ensures is_open { IfOk result (λ made. made.0.control.closed ≡ false) }
        ensures unset { IfOk result (λ made. IsUnset made.0 made.1) }
    {
        let (mut inner, watcher) = Inner::new(alloc, 1)?;
        inner.set_overflow(true);
        Ok((Config { inner }, watcher))
    }

    /// Sets new settings, for all watchers.
    ///
    /// # Errors
    ///
    /// The settings are returned and nothing changes: the channel is closed, since it has numbered
    /// as many settings as it can.
    pub fn set(&mut self, settings: S) -> Result<(), S>
        ensures latest { OnOk result (self.new.queue ≡ settings ∷ []) }
        ensures counted { OnOk result (self.new.end ≡ self.old.end + 1) }
        ensures watchers { self.new.control.cursors ≡ self.old.control.cursors }

        ensures back { IfErr result (λ back. back ≡ settings) }
        ensures err { OnErr result (self.new ≡ self.old) }
        ensures is_open { self.old.control.closed ≡ false → IsOk result }
        ensures stays { self.old.control.closed ≡ false → self.old.end + 2 < 2 ^ 64
            → self.new.control.closed ≡ false }
        ensures answers { IsSet self.old settings result self.new }
    {
        into_settings(self.inner.try_broadcast(settings))
    }

    /// Adds a watcher that has seen the latest settings, and returns its key.
    ///
    /// # Errors
    ///
    /// `Memory`: there is no memory for it. Nothing changed.
    pub fn watch(&mut self) -> Result<usize, HandleError>
        ensures watcher { IfOk result (λ made.
            get self.new.control.cursors made ≡ Some self.old.end) }
        ensures others { IfOk result (λ made. KeepsOthers self.old self.new made) }
        ensures err { OnErr result (self.new ≡ self.old) }
        ensures answers { Answers NoClone self.old call.NewReceiver (reply.NewReceiver result)
            self.new }
    {
        self.inner.new_receiver()
    }

    /// Shows a watcher the latest settings, and how many it missed before them. None: it has seen
    /// them, none are set, or there is no such watcher.
    ///
    /// # Errors
    ///
    /// `AllocError`: another watcher has still to look, and there is no memory for a clone of the
    /// settings. Nothing changed, so those that this watcher missed are still counted.
    pub fn look(&mut self, watcher: usize) -> Result<Option<Change<S>>, AllocError>
        ensures change { IfOk result (λ found. IfSome found (λ change.
            IsLatest S.is_clone self.old watcher change)) }
        ensures none { IfOk result (λ found. IfNone found (IsUpToDate self.old watcher)) }
        ensures seen { OnOk result (IsUpToDate self.new watcher) }
        ensures others { KeepsOthers self.old self.new watcher }
        ensures answers { IfOk result (λ found. IsLook S.is_clone self.old watcher found self.new) }
        ensures err { OnErr result (self.new ≡ self.old) }
        // If no clone fails, it succeeds.
        ensures sure { ((settings : S) → S.is_infallible settings) → IsOk result }
    {
        Ok(into_change(poll_next(&mut self.inner, watcher)?))
    }
}

// The poll of a watcher. Nobody is to be told.
fn poll_next<S: Clone>(
    inner: &mut Inner<S, Silent>,
    watcher: usize,
) -> Result<Poll<Option<(S, u64)>>, AllocError>
    ensures answers { Answers S.is_clone inner.old (call.PollNext watcher) (reply.PollNext result)
        inner.new }
    ensures sure { ((settings : S) → S.is_infallible settings) → IsOk result }
{
    match PollNext(watcher).make_for(inner, &mut OwnedNotice::new(Silent)) {
        Ok(polled) => polled,
        Err(_) => unreachable!(),
    }
}

// The settings that were refused.
fn into_settings<S: Drop>(sent: Result<Option<S>, TrySendError<S>>) -> Result<(), S>
    ensures { result ≡ set_answer sent }
{
    match sent {
        Ok(_replaced) => Ok(()),
        Err(error) => Err(error.into_inner()),
    }
}

// What the stream gave, if it gave something.
fn into_change<S: Drop>(polled: Poll<Option<(S, u64)>>) -> Option<Change<S>>
    ensures { result ≡ change_of polled }
{
    match polled {
        Poll::Ready(Some((settings, missed))) => Some(Change { settings, missed }),
        _ => None,
    }
}
