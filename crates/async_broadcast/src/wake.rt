//! What wakes the task that a poll left waiting.
ghost use Rattle.std.specs.Prelude.{◌≡◌, true, false, not, is_some, IfOk, OnOk, OnErr};
ghost use Rattle.futures.specs.Task.{IsArmed, Keeps};

use bcast_core::{MakesNotice, NoNotice, Notice};
use futures::task::{Context, Poll, Source, Waker};
use std::marker::Model;

/// The notice of a poll: when it is called it wakes the poll's task, or no task.
#[derive(Drop)]
pub struct Wake {
    waker: Option<Waker>,
}

impl Wake {
    /// A notice that wakes no task, for a call that never waits, or a poll that registers its task.
    pub fn none() -> Self {
        Wake { waker: None }
    }
}

impl Notice for Wake {
    fn tell(&mut self) {
        // A waker that is dropped wakes its task.
        self.waker = None;
    }
}

/// Registers the task of a future or a receiver, from one poll to the next. Handles and futures
/// keep one; code that polls a port by itself makes one for each of its futures.
#[derive(Drop)]
pub struct TaskWaker {
    source: Source,
    // The waker of a notice that was not needed any more, for the next notice.
    unused: Option<Waker>,
    // Whether memory for a notice was refused at the last poll.
    is_refused: bool,
}

impl Model for TaskWaker {
    ghost use Rattle.async_broadcast.specs.Futures.{TaskWaker as Seen};

    ghost Value = { Seen };

    ghost view = { λ task. record { is_refused = task.is_refused } };
}

impl TaskWaker {
    /// For a task that was not registered yet.
    pub fn new() -> Self {
        TaskWaker {
            source: Source::new(),
            unused: None,
            is_refused: false,
        }
    }

    /// Registers the poll's task in a notice: a new one, or the one that the last poll left where
    /// the port keeps it. Returns whether the notice has the task's waker then; it has none if
    /// there was no memory for one.
    pub fn register(&mut self, wake: &mut Wake, cx: &mut Context<'_>) -> bool
        ensures refused { self.new.is_refused ≡ not result }
        ensures waker { is_some wake.new.waker ≡ result }
        ensures registered { IsArmed cx.new }
        ensures kept { Keeps cx.old cx.new }
    {
        if wake.waker.is_none() {
            wake.waker = self.unused.take();
        }
        let _: Poll<()> = cx.register(&self.source, &mut wake.waker);
        let has_waker = wake.waker.is_some();
        self.is_refused = !has_waker;
        has_waker
    }

    /// Has the task polled again, for a port that had no memory for the poll's notice.
    pub fn refuse(&mut self, cx: &mut Context<'_>)
        ensures refused { self.new.is_refused ≡ true }
        ensures registered { IsArmed cx.new }
        ensures kept { Keeps cx.old cx.new }
    {
        let _: Poll<()> = cx.yield_now();
        self.is_refused = true;
    }

    /// Takes back a notice that is not needed any more: if its waker were dropped, it would wake
    /// the task.
    #[inline(always)]
    pub fn put_back(&mut self, wake: Wake)
        ensures { self.new ≡ self.old }
    {
        let Wake { waker } = wake;
        if waker.is_some() {
            self.unused = waker;
        }
    }

    /// Registers the task of a poll that makes no call. In a function of its own, so that a poll
    /// that makes one clears no memory for a notice.
    #[inline(never)]
    pub(crate) fn register_idle(&mut self, cx: &mut Context<'_>)
        ensures registered { IsArmed cx.new }
        ensures kept { Keeps cx.old cx.new }
    {
        let mut wake = Wake::none();
        self.register(&mut wake, cx);
        self.put_back(wake);
    }
}

/// Makes the notice of a poll by registering the poll's task.
#[derive(Drop)]
pub(crate) struct ForTask<'a, 'c> {
    pub(crate) task: &'a mut TaskWaker,
    pub(crate) cx: &'a mut Context<'c>,
}

impl MakesNotice<Wake> for ForTask<'_, '_> {
    ghost use Rattle.async_broadcast.specs.Made.{RegistersTask};

    ghost made = { RegistersTask false };

    ghost refused = { RegistersTask true };

    #[inline(always)]
    fn make(&mut self) -> Result<Wake, NoNotice>
        ensures waker { IfOk result (λ wake. is_some wake.waker ≡ true) }
        ensures made { OnOk result (RegistersTask false self.old self.new) }
        ensures refused { OnErr result (RegistersTask true self.old self.new) }
    {
        let mut wake = Wake { waker: None };
        self.renew(&mut wake)?;
        Ok(wake)
    }

    #[inline(always)]
    fn renew(&mut self, wake: &mut Wake) -> Result<(), NoNotice>
        ensures waker { OnOk result (is_some wake.new.waker ≡ true) }
        ensures made { OnOk result (RegistersTask false self.old self.new) }
        ensures refused { OnErr result (RegistersTask true self.old self.new) }
    {
        if self.task.register(wake, self.cx) {
            Ok(())
        } else {
            Err(NoNotice)
        }
    }
}
