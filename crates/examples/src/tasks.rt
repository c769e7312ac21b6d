//! Tasks in one thread, over the streams of two receivers: `for_each` with a closure, and a type
//! with a `poll` of its own. A thread sends.
use anyhow::Result;
use async_broadcast::{Port, Receiver, Sender, broadcast};
use futures::executor::block_on;
use futures::future::ready;
use futures::task::{Context, Poll};
use futures::{Future, Stream, StreamExt};
use std::alloc::AllocGlobal;
use std::random::RandomSource;
use std::sync::Wait;
use std::thread::Threads;
use std::{io, thread};

/// The numbers from 1 on, and then the end: the last sender is dropped.
fn send_all<P: Port<u64>>(numbers: Sender<u64, P>, count: u64) {
    for number in 1..count.saturating_add(1) {
        if numbers.broadcast_blocking(number).is_err() {
            break;
        }
    }
}

/// The sum of what this receiver gets, by `for_each`, which is a task that `block_on` runs.
fn sum<R, P>(rt: &R, numbers: Receiver<u64, P>) -> io::Result<u64>
where
    R: Wait + RandomSource + AllocGlobal,
    P: Port<u64>,
{
    let mut sum = 0u64;
    let adding = numbers.for_each(|number| {
        sum = sum.saturating_add(number.unwrap_or(0));
        ready(())
    });
    block_on(rt, adding)?;
    Ok(sum)
}

/// The largest number that a receiver gets, as a task of its own type.
#[derive(Drop)]
struct Largest<P: Port<u64>> {
    numbers: Receiver<u64, P>,
    largest: u64,
}

impl<P: Port<u64>> Future for Largest<P> {
    type Output = u64;

    fn poll(&mut self, cx: &mut Context<'_>) -> Poll<u64> {
        for _ in 0..128 {
            match self.numbers.poll_next(cx) {
                Poll::Ready(Some(number)) => {
                    self.largest = self.largest.max(number.unwrap_or(0));
                }
                Poll::Ready(None) => return Poll::Ready(self.largest),
                Poll::Pending => return Poll::Pending,
            }
        }
        cx.yield_now()
    }
}

pub fn run<R>(rt: R) -> Result<()>
where
    R: Threads + Wait + RandomSource + AllocGlobal + Print + Copy + Send + Drop + 'static,
{
    let (sender, one) = broadcast(rt, rt.alloc(), 8)?;
    play(rt, sender, one)
}

/// Runs two tasks, one after the other, on what a thread sends.
fn play<R, P>(rt: R, sender: Sender<u64, P>, one: Receiver<u64, P>) -> Result<()>
where
    R: Threads + Wait + RandomSource + AllocGlobal + Print + Copy + Send + Drop + 'static,
    P: Port<u64> + Send + 'static,
{
    let numbers = one.clone()?;
    let sending = thread::spawn(&rt, move || send_all(sender, 5))?;
    let sum = sum(&rt, one)?;
    let task = Largest {
        numbers,
        largest: 0,
    };
    let largest = block_on(&rt, task)?;
    sending.join(&rt);
    println!(&rt; "sum {sum}\nlargest {largest}")?;
    Ok(())
}
