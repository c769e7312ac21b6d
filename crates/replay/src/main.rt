//! The program `replay`: plays a trace of calls on one broadcast channel, and writes the trace
//! again with the replies and views of the channel.
#![tactic(auto)]

use bcast_text::arguments::arguments;
use bcast_text::ending::{Ending, Program, report};
use bcast_trace::command::Command;
use bcast_trace::{list, trace};
use std::alloc::{AllocError, Global};
use std::io::{BufWriter, Read, Write};
use std::process::ExitCode;

fn main(rt: HostRuntime) -> ExitCode {
    let ending = match arguments(&rt) {
        Ok(Some(words)) => match Command::from_words(words.as_slice()) {
            Some(command) => match BufWriter::new(rt.alloc(), rt.stdout()) {
                Ok(mut output) => run(rt.alloc(), command, rt.stdin(), &mut output),
                Err(_) => Ending::NoMemory,
            },
            None => Ending::WrongArguments(Program::Replay),
        },
        Ok(None) => Ending::WrongArguments(Program::Replay),
        Err(AllocError) => Ending::NoMemory,
    };
    report(ending, &mut rt.stderr())
}

/// Plays the trace that `input` holds, as `command` says, and returns how the run ended.
fn run<I: Read + Drop, W: Write>(
    alloc: Global,
    command: Command,
    input: I,
    output: &mut W,
) -> Ending {
    match command {
        Command::Trace => trace(alloc, alloc, input, output),
        Command::List => list(alloc, alloc, input, output),
    }
}
