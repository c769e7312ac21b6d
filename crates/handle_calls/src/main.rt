//! The program `handle_calls`: plays a script of calls on the handles of channels, and writes each
//! line with what its call returned.
//!
//! A script opens channels, one after the other:
//!
//! - `open N`: a channel of capacity N, with `sender 0` and `receiver 0`.
//! - `sends N`, `receives N`: also a sender, or a clone of the receiver, that only makes the
//!   futures that are held between lines; `two_receives N`: two such clones, one for each `recv`.
//! - `records`, `no_memory`: no channel, but ports that record their calls; one handle of each
//!   kind, and both that make futures. After `no_memory` there is no memory for them.
//!
//! Lines before the first opening are as after `records`.
//!
//! Every other line is `SUBJECT INDEX METHOD`, or has an argument as well. The subjects `sender`,
//! `receiver` and `inactive` are numbered in the order of making; `send` and `recv` are the held
//! futures; `task` is one of four that poll; `handles` writes what all handles see, and `port` sets
//! how recording ports reply. The argument of `try_recv_many`, `recv_many_blocking`,
//! `poll_recv_many`, in task 0, and `recv_many_timeout`, whose time is over at once, is the batch's
//! limit. `sender N poll_broadcast MESSAGE` makes a send in a box, polls it in task 0 and drops it.
//! `snapshot`, of any handle, writes its view. A line that begins with `#` is written back.
#![tactic(auto)]

mod answer;
mod batch;
mod handles;
mod held;
mod inactive;
mod line;
mod receiver;
mod recording;
mod script;
mod seen;
mod sender;
mod session;
mod settings;

use bcast_text::ending::{Ending, report};
use script::play;
use std::io::{ErrorKind, Read};
use std::process::ExitCode;

fn main(rt: HostRuntime) -> ExitCode {
    let mut text = String::new(rt.alloc());
    let read = rt.stdin().read_to_string(&mut text);
    let ending = match read {
        Ok(_) => play(&rt, rt.alloc(), text.as_str(), rt.stdout()),
        Err(error) if error.kind() == ErrorKind::OutOfMemory => Ending::NoMemory,
        Err(_) => Ending::InputFailed,
    };
    report(ending, &mut rt.stderr())
}
