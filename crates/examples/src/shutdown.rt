//! A signal to stop: it is given by the drop of its last sender. Workers first finish the jobs that
//! they were sent before.
use anyhow::Result;
use async_broadcast::{Port, Receiver, Sender, broadcast};
use futures::executor::block_on;
use futures::future::{Either, select};
use std::alloc::AllocGlobal;
use std::random::RandomSource;
use std::sync::Wait;
use std::thread;
use std::thread::Threads;

/// Does jobs until the signal is given, and then those that are left. Returns how many it did.
fn work<R, J, S, P, Q>(rt: &R, mut jobs: Receiver<J, P>, mut signal: Receiver<S, Q>) -> Result<u64>
where
    R: Wait + RandomSource + AllocGlobal,
    J: Clone,
    S: Clone,
    P: Port<J>,
    Q: Port<S>,
{
    let mut done = 0u64;
    for _ in rt.forever() {
        match block_on(rt, select(jobs.recv_direct(), signal.recv_direct()))? {
            Either::Left((job, _signal)) => {
                job??;
                done = done.saturating_add(1);
            }
            Either::Right(_) => break,
        }
    }
    let mut left = Vec::new(rt.alloc());
    let count = jobs.try_recv_many(usize::MAX, &mut left)?.unwrap_or(0);
    Ok(done.saturating_add(count as u64))
}

pub fn run<R>(rt: R) -> Result<()>
where
    R: Threads + Wait + RandomSource + AllocGlobal + Print + Copy + Send + Drop + 'static,
{
    let jobs = broadcast(rt, rt.alloc(), 2)?;
    let signal = broadcast::<(), _, _>(rt, rt.alloc(), 1)?;
    direct(rt, jobs, signal)
}

/// The handles of a channel.
type Ends<T, P> = (Sender<T, P>, Receiver<T, P>);

/// Starts two workers, sends them jobs, and gives the signal.
fn direct<R, P, Q>(rt: R, (jobs, one): Ends<u64, P>, (signal, told): Ends<(), Q>) -> Result<()>
where
    R: Threads + Wait + RandomSource + AllocGlobal + Print + Copy + Send + Drop + 'static,
    P: Port<u64> + Send + 'static,
    Q: Port<()> + Send + 'static,
{
    let two = one.clone()?;
    let also_told = told.clone()?;
    let first = thread::spawn(&rt, move || work(&rt, one, told))?;
    let second = thread::spawn(&rt, move || work(&rt, two, also_told))?;
    for job in 0..5 {
        jobs.broadcast_blocking(job)?;
    }
    drop(signal);
    println!(rt; "{} jobs done", first.join(&rt)?)?;
    println!(rt; "{} jobs done", second.join(&rt)?)?;
    Ok(())
}
