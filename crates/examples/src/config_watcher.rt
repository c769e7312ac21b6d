//! A configuration watcher: a watcher that looks late gets the latest settings, and how many it
//! missed.
use anyhow::Result;
use async_broadcast::{Port, Receiver, RecvError, Sender, broadcast};
use futures::StreamExt;
use futures::executor::block_on;
use std::alloc::AllocGlobal;
use std::random::RandomSource;
use std::sync::Wait;

/// The settings of a program.
#[derive(Clone, Copy)]
struct Settings {
    version: u64,
    limit: u32,
}

/// Sets five versions. A channel of capacity 1 in overflow mode keeps the latest one.
fn set_all<P: Port<Settings>>(source: &Sender<Settings, P>) -> Result<()> {
    for version in 1..6 {
        source.try_broadcast(Settings { version, limit: 10 })?;
    }
    Ok(())
}

/// The next settings by futures, and how many were missed before them.
fn look<R, S, P>(rt: &R, watch: &mut Receiver<S, P>) -> Result<Option<(S, u64)>>
where
    R: Wait + RandomSource + AllocGlobal,
    S: Clone,
    P: Port<S>,
{
    let mut missed = 0u64;
    for _ in rt.forever() {
        match block_on(rt, watch.recv_direct())?? {
            Ok(settings) => return Ok(Some((settings, missed))),
            Err(RecvError::Overflowed(n)) => missed = missed.saturating_add(n),
            Err(RecvError::Closed) => return Ok(None),
        }
    }
    unreachable!()
}

/// The next settings by the stream, which skips those that were missed.
fn next<R, S, P>(rt: &R, watch: &mut Receiver<S, P>) -> Result<Option<S>>
where
    R: Wait + RandomSource + AllocGlobal,
    S: Clone,
    P: Port<S>,
{
    match block_on(rt, watch.next())? {
        Some(settings) => Ok(Some(settings?)),
        None => Ok(None),
    }
}

pub fn run<R: Wait + RandomSource + AllocGlobal + Print>(rt: &R) -> Result<()> {
    let (source, one) = broadcast(rt, rt.alloc(), 1)?;
    watch(rt, source, one)
}

/// Sets versions, which two watchers look for too late.
fn watch<R: Wait + RandomSource + AllocGlobal + Print, P: Port<Settings>>(
    rt: &R,
    mut source: Sender<Settings, P>,
    mut one: Receiver<Settings, P>,
) -> Result<()> {
    source.set_overflow(true);
    let mut two = one.clone()?;
    set_all(&source)?;
    if let Some((settings, missed)) = look(rt, &mut one)? {
        println!(rt;
            "version {}, limit {}, {missed} missed",
            settings.version, settings.limit
        )?;
    }
    drop(source);
    let version = next(rt, &mut two)?.map_or(0, |settings| settings.version);
    println!(rt; "by the stream: version {version}")?;
    println!(rt; "and no more: {}", next(rt, &mut two)?.is_none())?;
    Ok(())
}
