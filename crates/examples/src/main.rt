//! Five programs over handles, one after another, or the one that is named: `rt try -- event_hub`.
//! Each is a module; the `main` of a program of its own would call its `run`, as the one here does.
#![tactic(auto)]

use anyhow::{Result, bail};
use std::alloc::AllocGlobal;
use std::env;
use std::io::Print;
use std::random::RandomSource;
use std::sync::Wait;
use std::thread::Threads;

mod config_watcher;
mod event_hub;
mod log_fan_out;
mod shutdown;
mod tasks;

fn main(rt: HostRuntime) -> Result<()> {
    let Some(name) = env::args(&rt)?.nth(1) else {
        return run_all(rt);
    };
    match name.as_str() {
        "event_hub" => event_hub::run(&rt),
        "config_watcher" => config_watcher::run(&rt),
        "log_fan_out" => log_fan_out::run(rt),
        "shutdown" => shutdown::run(rt),
        "tasks" => tasks::run(rt),
        _ => bail!("no example has this name"),
    }
}

fn run_all<R>(rt: R) -> Result<()>
where
    R: Threads + Wait + RandomSource + AllocGlobal + Print + Copy + Send + Drop + 'static,
{
    println!(&rt; "# event_hub")?;
    event_hub::run(&rt)?;
    println!(&rt; "# config_watcher")?;
    config_watcher::run(&rt)?;
    println!(&rt; "# log_fan_out")?;
    log_fan_out::run(rt)?;
    println!(&rt; "# shutdown")?;
    shutdown::run(rt)?;
    println!(&rt; "# tasks")?;
    tasks::run(rt)
}
