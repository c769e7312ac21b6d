//! The channel of several handles, behind one lock.
ghost use Rattle.std.specs.Prelude.{◌≡◌, ◌<◌, ⊤, IfOk};
ghost use Rattle.bcast_model.specs.Words.{View, IsShown, unread, missed};
ghost use Rattle.async_broadcast.specs.Ports.{ShowsSomeState};

use crate::handle::{Handle, Role};
use crate::inactive::InactiveReceiver;
use crate::journal::{CallJournal, NoJournal};
use crate::port::{PortFor, TimedPortFor};
use crate::receiver::Receiver;
use crate::sender::Sender;
use crate::timed::{RecvTimeoutError, SendTimeoutError};
use crate::wake::Wake;
use bcast_core::{AttemptSend, Inner, RecvError, RecvResult, SendError, Snapshot, TryRecv};
use channel::{Channel, NoLimit, TimeLimit, lock, with_channel};
use std::alloc::{AllocError, Allocator, Global};
use std::sync::{Arc, Wait};
use std::time::{Clock, Duration};
use waiting::{Receives, Sends, answer_of_receive, answer_of_send, received_in_time, sent_in_time};

mod asking;
mod channel;
mod threads;
mod waiting;

/// The port of a channel that `broadcast` made. All ports of the channel share one lock, and each
/// call waits for it.
///
/// A reply is one that the channel gives in some valid history. A contract knows nothing more of
/// the channel, since its other handles change it too, unless the lock keeps a journal of the calls
/// (`J`).
///
/// A message is cloned and dropped, and a waker is dropped, while the lock is held: none of these
/// may use a handle of the same channel, which would wait for the lock for ever.
pub struct Lock<T: Clone, R: Wait + Clone, A: Allocator = Global, J: CallJournal<T> = NoJournal> {
    channel: Arc<Channel<T, A, J>, A>,
    rt: R,
}

/// A sender of a channel that `broadcast` made.
pub type LockSender<T, R, A = Global> = Sender<T, Lock<T, R, A>, A>;

/// A receiver of a channel that `broadcast` made.
pub type LockReceiver<T, R, A = Global> = Receiver<T, Lock<T, R, A>, A>;

/// An inactive receiver of a channel that `broadcast` made.
pub type LockInactiveReceiver<T, R, A = Global> = InactiveReceiver<T, Lock<T, R, A>, A>;

/// Makes a channel that keeps at most `cap` messages at once, with its first sender and receiver.
///
/// It is open and empty. Overflow mode is off: a full channel accepts no message before every
/// active receiver has read the oldest one. `await_active` is on. Both handles are of this one
/// channel, and so is each handle that is made by them.
///
/// # Errors
///
/// - `AllocError`: no memory for the channel.
///
/// ```rust
/// let (sender, mut one) = broadcast(&rt, rt.alloc(), 2)?;
/// let mut two = one.clone()?;
/// assert!(rt; sender.try_broadcast(7).is_ok());
/// assert!(rt; sender.try_broadcast(8).is_ok());
/// assert!(rt; matches!(sender.try_broadcast(9), Err(TrySendError::Full(9))));
///
/// assert!(rt; matches!(one.try_recv(), Ok(Ok(7))));
/// assert!(rt; matches!(block_on(&rt, one.next())?, Some(Ok(8))));
/// assert!(rt; matches!(two.recv_blocking(), Ok(Ok(7))));
/// assert!(rt; matches!(block_on(&rt, two.recv_direct())?, Ok(Ok(8))));
/// assert!(rt; matches!(one.try_recv(), Ok(Err(TryRecvError::Empty))));
///
/// drop(sender);
/// assert!(rt; matches!(two.try_recv(), Ok(Err(TryRecvError::Closed))));
/// ```
///
/// Source: `broadcast` of async-broadcast 0.7.2, which takes the capacity alone and never refuses.
pub fn broadcast<T: Clone, R: Wait + Clone, A: Allocator + Copy>(
    rt: R,
    alloc: A,
    cap: usize,
) -> Result<(LockSender<T, R, A>, LockReceiver<T, R, A>), AllocError>
    requires { 0 < cap }
{
    // A program that isn't proved stops here.
    prove!(cap > 0);
    let (inner, key) = Inner::new(alloc, cap)?;
    let port = Lock::new(rt, alloc, inner)?;
    let other = port.try_clone().ok_or(AllocError)?;
    Ok((
        Sender::from_port(port, alloc),
        Receiver::from_port(other, key, alloc),
    ))
}

impl<T: Clone, R: Wait + Clone, A: Allocator + Copy> Lock<T, R, A> {
    /// The port of a channel that the caller made. `broadcast` makes both.
    ///
    /// The handles that `inner` counts are to be made over it and over its `try_clone`: for a new
    /// `Inner` one sender, and one receiver with the key that came with it. `rt` is what waits for
    /// the lock, and what the ports share is allocated from `alloc`.
    ///
    /// # Errors
    ///
    /// - `AllocError`: no memory for what the ports share. The channel is dropped.
    ///
    /// ```rust
    /// let (inner, key) = Inner::starting_at(rt.alloc(), 2, 100)?;
    /// let port = Lock::new(&rt, rt.alloc(), inner)?;
    /// let other = port.try_clone().ok_or("no memory")?;
    /// let sender = Sender::from_port(port, rt.alloc());
    /// let mut receiver = Receiver::from_port(other, key, rt.alloc());
    /// assert!(rt; sender.try_broadcast(7).is_ok());
    /// assert!(rt; matches!(receiver.try_recv(), Ok(Ok(7))));
    /// assert!(rt; sender.snapshot()?.end == 101);
    /// ```
    pub fn new(rt: R, alloc: A, inner: Inner<T, Wake, A>) -> Result<Self, AllocError> {
        Lock::with_journal(rt, alloc, inner, NoJournal)
    }
}

impl<T: Clone, R: Wait + Clone, A: Allocator + Copy, J: CallJournal<T>> Lock<T, R, A, J> {
    /// The port of a channel that the caller made, as `new` makes it, with its errors. Its lock
    /// begins with `journal`, which records the calls on the channel.
    pub fn with_journal(
        rt: R,
        alloc: A,
        inner: Inner<T, Wake, A>,
        journal: J,
    ) -> Result<Self, AllocError>
        requires { ∥ J.records journal inner ∥₁ }
    {
        let channel = Arc::new(alloc, Channel::new(inner, journal))?;
        Ok(Lock { channel, rt })
    }

    /// The view of the channel, as a value: that of `Handle::snapshot`, with its errors. It is
    /// allocated from `alloc`.
    pub fn snapshot(&self, alloc: A) -> Result<Snapshot<T, A>, AllocError>
        ensures { IfOk result (λ snapshot. ShowsSomeState T.is_clone snapshot) }
    {
        with_channel!(self, |inner| inner.snapshot(alloc))
    }
}

impl<T: Clone, R: Wait + Clone, A: Allocator + Copy, H: Role> Handle<T, Lock<T, R, A>, H, A> {
    /// The view of the channel at one moment, with a clone of each message that it keeps.
    ///
    /// Waits for the lock, and changes nothing: no receiver has read a message by this. Some valid
    /// history has this view.
    ///
    /// # Errors
    ///
    /// - `AllocError`: no memory for the lists, or for the clone of a message.
    pub fn snapshot(&self) -> Result<Snapshot<T, A>, AllocError>
        ensures { IfOk result (λ snapshot. ShowsSomeState T.is_clone snapshot) }
    {
        self.port.snapshot(self.alloc)
    }
}

impl<T: Clone, R: Wait + Clone, A: Allocator + Copy> LockReceiver<T, R, A> {
    /// How many of the messages that the channel keeps this receiver has still to read. `len` is
    /// how many the channel keeps, for all receivers.
    ///
    /// Waits for the lock, and changes nothing. While no other call comes between, as many
    /// `try_recv` in a row give a message, after one that says what was missed, if any was.
    ///
    /// ```rust
    /// let (mut sender, mut receiver) = broadcast(&rt, rt.alloc(), 2)?;
    /// sender.set_overflow(true);
    /// for msg in [1, 2, 3] {
    ///     assert!(rt; sender.try_broadcast(msg).is_ok());
    /// }
    /// assert!(rt; receiver.unread() == 2 && receiver.missed() == 1);
    /// assert!(rt; matches!(receiver.try_recv(), Ok(Err(TryRecvError::Overflowed(1)))));
    /// assert!(rt; matches!(receiver.try_recv(), Ok(Ok(2))));
    /// assert!(rt; receiver.unread() == 1 && receiver.missed() == 0);
    /// ```
    ///
    /// Source: this crate's own; `Receiver::len` of tokio's broadcast counts what was missed too.
    pub fn unread(&self) -> usize
        ensures { (v : View T) × IsShown v × (result ≡ unread v self.now.role.key) }
    {
        with_channel!(self.port, |inner| inner.unread(self.role.key))
    }

    /// How many messages were dropped before this receiver read them, and were not yet counted as
    /// missed: if that isn't 0, the next receive says so.
    ///
    /// Waits for the lock, and changes nothing. The example is that of `unread`.
    pub fn missed(&self) -> u64
        ensures { (v : View T) × IsShown v × (result ≡ missed v self.now.role.key) }
    {
        with_channel!(self.port, |inner| inner.missed(self.role.key))
    }
}

impl<T: Clone, R: Wait + Clone, A: Allocator + Copy, J: CallJournal<T>> PortFor<T, J::Caller>
    for Lock<T, R, A, J> {
    fn send_waiting(&self, caller: &mut J::Caller, msg: T) -> Result<Option<T>, SendError<T>> {
        answer_of_send(self.make_until(caller, &Sends, AttemptSend(msg), &NoLimit))
    }

    fn receive_waiting(&self, caller: &mut J::Caller, key: usize) -> RecvResult<T, RecvError> {
        answer_of_receive(self.make_until(caller, &Receives { key }, TryRecv(key), &NoLimit))
    }

    // One lock for all of them.
    #[inline(always)]
    fn receive_many<B: Allocator>(
        &self,
        caller: &mut J::Caller,
        key: usize,
        limit: usize,
        msgs: &mut Vec<T, B>,
    ) -> usize {
        let channel = &*self.channel;
        let mut guard = lock!(channel, &self.rt);
        let state = &mut *guard;
        let before = std::snapshot::Snapshot::of(&state.inner);
        let start = msgs.len();
        let count = state.inner.receive_many(key, limit, msgs);
        state
            .journal
            .append_receives(caller, key, &msgs[start..], &before, &state.inner);
        if let Some(woken) = state.threads.choose_woken(&state.inner) {
            channel.unlock(guard, woken);
        }
        count
    }

    ghost lacks_memory = { λ _. ⊤ };

    fn try_clone(&self) -> Option<Self> {
        let rt = self.rt.clone().ok()?;
        let channel = Arc::try_clone(&self.channel).ok()?;
        Some(Lock { channel, rt })
    }
}

impl<T: Clone, R: Wait + Clone + Clock, A: Allocator + Copy, J: CallJournal<T>> TimedPortFor<
    T,
    J::Caller,
> for Lock<T, R, A, J> {
    fn send_within(
        &self,
        caller: &mut J::Caller,
        msg: T,
        limit: Duration,
    ) -> Result<Option<T>, SendTimeoutError<T>> {
        let limit = TimeLimit::from_now(&self.rt, limit);
        sent_in_time(self.make_until(caller, &Sends, AttemptSend(msg), &limit))
    }

    fn receive_within(
        &self,
        caller: &mut J::Caller,
        key: usize,
        limit: Duration,
    ) -> RecvResult<T, RecvTimeoutError> {
        let limit = TimeLimit::from_now(&self.rt, limit);
        received_in_time(self.make_until(caller, &Receives { key }, TryRecv(key), &limit))
    }
}

impl<T: Clone, R: Wait + Clone, A: Allocator, J: CallJournal<T>> Drop for Lock<T, R, A, J> {
    fn drop(self) {
        let Lock { channel: _, rt: _ } = self;
    }
}
