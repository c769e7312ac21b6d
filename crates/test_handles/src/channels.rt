//! What tests need of a runtime, and the channels that it opens for examples.
ghost use Rattle.std.specs.Prelude.{◌<◌};

use async_broadcast::{Lock, Receiver, Sender, TimedPort};
use std::alloc::{AllocError, AllocGlobal, Global};
use std::process::Abort;
use std::random::RandomSource;
use std::sync::Wait;
use std::test::Fail;
use std::time::Clock;

/// A runtime, with what tests need of it.
pub trait Host: Abort + Wait + Clock + RandomSource + AllocGlobal {}

impl<R: Abort + Wait + Clock + RandomSource + AllocGlobal> Host for R {}

/// What tests return, and functions that they call.
pub type TestResult<T = ()> = Result<T, Fail>;

/// The handles of a channel.
pub type Pair<P> = (Sender<u64, P>, Receiver<u64, P>);

/// A runtime that opens channels. What is done on them names no lock.
pub trait Opens: Host + Copy {
    type Port: TimedPort<u64>;

    fn open(&self, alloc: Global, cap: usize) -> Result<Pair<Self::Port>, AllocError>
        requires { 0 < cap };
}

impl<'a, R: Host> Opens for &'a R {
    type Port = Lock<u64, &'a R>;

    fn open(&self, alloc: Global, cap: usize) -> Result<Pair<Self::Port>, AllocError> {
        async_broadcast::broadcast(*self, alloc, cap)
    }
}

/// A new channel, by the words with which examples open it.
pub fn broadcast<R: Opens>(rt: &R, alloc: Global, cap: usize) -> Result<Pair<R::Port>, AllocError>
    requires { 0 < cap }
{
    rt.open(alloc, cap)
}
