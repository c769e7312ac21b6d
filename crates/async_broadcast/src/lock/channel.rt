//! The lock, what it guards, the condition variables that threads wait on, and how long they wait.
ghost use Rattle.std.specs.Prelude.{◌≡◌, ⊤, false};
ghost use Rattle.async_broadcast.specs.Woken.{KnowsTail, HasWokenSender, HasWokenReceiver};

use super::threads::{Side, Threads, Woken, WokenReceivers};
use crate::journal::CallJournal;
use crate::wake::Wake;
use bcast_core::Inner;
use std::alloc::Allocator;
use std::sync::{Condvar, Mutex, MutexGuard, Wait};
use std::time::{Clock, Duration, Instant};

/// A channel behind its lock.
#[derive(Drop)]
pub(super) struct Channel<T: Clone, A: Allocator, J: CallJournal<T>> {
    pub(super) state: Mutex<State<T, A, J>>,
    // Notified once a thread that waits to send should try again.
    send_ready: Condvar,
    // Notified once a thread that waits for a message should try again.
    message_ready: Condvar,
}

/// What the lock guards: the channel, the journal of its calls, and the threads that wait for it.
/// Once the lock is taken, it was chosen for every earlier call which threads it has to wake.
#[derive(Drop)]
pub(crate) struct State<T: Clone, A: Allocator, J: CallJournal<T>> {
    pub(super) inner: Inner<T, Wake, A>,
    pub(super) journal: J,
    pub(super) threads: Threads,
    ghost records: { ∥ J.records journal inner ∥₁ },
    ghost knows: { KnowsTail inner threads },
    ghost sends: { HasWokenSender inner threads },
    ghost receives: { HasWokenReceiver threads },
}

/// The state, while the lock is held.
pub(super) type Locked<'a, T, A, J> = MutexGuard<'a, State<T, A, J>>;

impl<T: Clone, A: Allocator + Copy, J: CallJournal<T>> Channel<T, A, J> {
    pub(super) fn new(inner: Inner<T, Wake, A>, journal: J) -> Self
        requires { ∥ J.records journal inner ∥₁ }
    {
        let threads = Threads::none();
        Channel {
            state: Mutex::new(State {
                inner,
                journal,
                threads,
            }),
            send_ready: Condvar::new(),
            message_ready: Condvar::new(),
        }
    }

    /// Releases the lock, and then wakes these threads. In a function of its own, so that a call
    /// while no thread waits costs one test.
    #[inline(never)]
    pub(super) fn unlock(&self, state: Locked<'_, T, A, J>, woken: Woken) {
        drop(state);
        self.wake(woken);
    }

    /// Wakes these threads. Best called once the lock is free.
    pub(super) fn wake(&self, woken: Woken) {
        let Woken { sender, receivers } = woken;
        if sender {
            self.send_ready.notify_one();
        }
        match receivers {
            WokenReceivers::Nobody => {}
            WokenReceivers::One => self.message_ready.notify_one(),
            WokenReceivers::All => self.message_ready.notify_all(),
        }
    }

    /// What a thread of this side waits on.
    pub(super) fn condition(&self, side: Side) -> &Condvar {
        match side {
            Side::Senders => &self.send_ready,
            Side::Receivers => &self.message_ready,
        }
    }
}

/// How long a thread waits.
pub(crate) trait Limit<R: Wait> {
    // Holds if `wait` never returns that the time is over.
    ghost is_endless: { Type 0 };

    /// Releases the lock until the condition is notified or the time is over, and returns whether
    /// it is over. If it is over already, the lock is kept.
    fn wait<'a, T: Clone, A: Allocator, J: CallJournal<T>>(
        &self,
        rt: &R,
        condition: &Condvar,
        state: Locked<'a, T, A, J>,
    ) -> (Locked<'a, T, A, J>, bool)
        ensures { is_endless → result.1 ≡ false };
}

/// Until the call is answered.
pub(crate) struct NoLimit;

/// This long, counted from `start`. If the clock couldn't be read, `start` is `None` and the time
/// is over.
#[derive(Drop)]
pub(crate) struct TimeLimit {
    start: Option<Instant>,
    limit: Duration,
}

impl TimeLimit {
    /// This long, from now.
    pub(super) fn from_now(clock: &impl Clock, limit: Duration) -> TimeLimit {
        TimeLimit {
            start: Instant::now(clock).ok(),
            limit,
        }
    }

    // How much is left. `None`: the time is over.
    fn left(&self, clock: &impl Clock) -> Option<Duration> {
        self.limit.checked_sub(self.start?.elapsed(clock).ok()?)
    }
}

impl<R: Wait> Limit<R> for NoLimit {
    ghost is_endless = { ⊤ };

    fn wait<'a, T: Clone, A: Allocator, J: CallJournal<T>>(
        &self,
        rt: &R,
        condition: &Condvar,
        state: Locked<'a, T, A, J>,
    ) -> (Locked<'a, T, A, J>, bool) {
        (condition.wait(rt, state), false)
    }
}

impl<R: Wait + Clock> Limit<R> for TimeLimit {
    ghost is_endless = { ⊥ };

    fn wait<'a, T: Clone, A: Allocator, J: CallJournal<T>>(
        &self,
        rt: &R,
        condition: &Condvar,
        state: Locked<'a, T, A, J>,
    ) -> (Locked<'a, T, A, J>, bool) {
        let Some(left) = self.left(rt) else {
            return (state, true);
        };
        let (state, waited) = condition.wait_timeout(rt, state, left);
        (state, waited.timed_out())
    }
}

/// Takes the lock of a channel. Tries once before it waits, since most often the lock is free.
///
/// It is a macro, since the compiler adds a test after each call of a function that may wait.
macro_rules! lock {
    ($channel:expr, $rt:expr) => {
        match $channel.state.try_lock() {
            Some(state) => state,
            None => $channel.state.lock($rt),
        }
    };
}

/// Reads the channel of a port, while its lock is held.
macro_rules! with_channel {
    ($port:expr, |$inner:ident| $read:expr) => {{
        let state = lock!($port.channel, &$port.rt);
        let $inner = &state.inner;
        $inner.invariant_holds();
        $read
    }};
}

pub(super) use lock;
pub(super) use with_channel;
