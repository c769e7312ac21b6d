//! The threads of a test, and their steps, which it waits for.
use async_broadcast::{Receiver, Sender, TimedPort};
use std::alloc::{AllocGlobal, Global};
use std::process::Abort;
use std::random::RandomSource;
use std::sync::atomic::{AtomicU64, Ordering};
use std::sync::{Arc, Wait};
use std::test::Fail;
use std::thread;
use std::thread::{JoinHandle, Threads};
use std::time::Clock;

/// A runtime that threads can be given, with what tests need of it.
pub trait Host: Threads + Wait + Clock + Abort + RandomSource + AllocGlobal + Copy + Send + Drop {}

impl<R: Threads + Wait + Clock + Abort + RandomSource + AllocGlobal + Copy + Send + Drop> Host
    for R {}

/// A port that threads can be given.
pub trait ThreadPort: TimedPort<u64> + Send + 'static {}

impl<P: TimedPort<u64> + Send + 'static> ThreadPort for P {}

/// The sender of a thread.
pub type Sending<P> = Sender<u64, P, Global>;

/// The receiver of a thread.
pub type Receiving<P> = Receiver<u64, P, Global>;

/// The ends of a channel, or those of a thread: it sends by the one, and receives by the other.
pub type Ends<P> = (Sending<P>, Receiving<P>);

/// How often a test looks for what threads have done, before it fails.
const MOST_LOOKS: u64 = 20_000_000;

/// Looks and yields until the count gets to `target`. Fails the test if it doesn't.
pub fn wait_for(rt: &impl Abort, count: &AtomicU64, target: u64, what: &str) {
    for _ in 0..MOST_LOOKS {
        if count.load(Ordering::SeqCst) == target {
            return;
        }
        thread::yield_now();
    }
    panic!(rt; "{what}: {target} are not reached");
}

/// Lets other threads run, so that those that wait are asleep.
fn pause() {
    for _ in 0..2000u64 {
        thread::yield_now();
    }
}

/// How many threads began their work, and how many ended it.
#[derive(Drop)]
struct Counts {
    begun: AtomicU64,
    ended: AtomicU64,
}

/// Threads that are started one by one, counted, and joined together.
#[derive(Drop)]
pub struct Group {
    counts: Arc<Counts>,
    threads: Vec<JoinHandle<()>>,
}

impl Group {
    /// No threads yet.
    pub fn new(alloc: Global) -> Result<Group, Fail> {
        let (begun, ended) = (AtomicU64::new(0), AtomicU64::new(0));
        let counts = Arc::new(alloc, Counts { begun, ended })?;
        let threads = Vec::new(alloc);
        Ok(Group { counts, threads })
    }

    /// Starts a thread that does this work.
    pub fn start<R: Threads, F: FnOnce() + Send + Drop + 'static>(
        &mut self,
        rt: &R,
        work: F,
    ) -> Result<(), Fail>
        requires { F.pre work }
    {
        let own = Arc::try_clone(&self.counts)?;
        let counted = move ||
            requires { F.pre work }
        {
            own.begun.fetch_add(1, Ordering::SeqCst);
            work();
            own.ended.fetch_add(1, Ordering::SeqCst);
        };
        let thread = thread::spawn(rt, counted)?;
        self.threads.push(thread)?;
        Ok(())
    }

    /// Waits until all of them sleep in their work. A failure prints the name, as of the call in
    /// which they must sleep.
    pub fn wait_for_sleep(&self, rt: &impl Abort, name: &str) {
        let threads = self.threads.len() as u64;
        wait_for(rt, &self.counts.begun, threads, name);
        pause();
        let ended = self.counts.ended.load(Ordering::SeqCst);
        assert!(rt; ended == 0, "{name}: all wait");
    }

    /// Waits until all of them ended their work.
    pub fn join(self, rt: &(impl Threads + Abort), name: &str) {
        let Group { counts, threads } = self;
        let count = threads.len() as u64;
        wait_for(rt, &counts.ended, count, name);
        for thread in threads {
            thread.join(rt);
        }
    }
}
