//! The program `bcast`: a broadcast channel that is used by the lines of a script or by threads,
//! and topics that are used by lines.
#![tactic(auto)]

ghost use Rattle.std.specs.Prelude.{◌≢◌};
ghost use Rattle.bcast_text.specs.ScriptCommand.{IsInRange};
ghost use Rattle.bcast.specs.Run.{HasWritten};

use bcast_play::{script, seeded_hub_script};
use bcast_text::arguments::arguments;
use bcast_text::ending::{Ending, Program, report};
use bcast_text::script::command::Command;
use bcast_threads::threads;
use std::alloc::{AllocError, Global};
use std::io::{BufWriter, Read, Write};
use std::process::ExitCode;
use std::random::RandomSource;
use std::sync::Wait;
use std::thread::Threads;

fn main(rt: HostRuntime) -> ExitCode {
    let ending = match arguments(&rt) {
        Ok(Some(words)) => match Command::from_words(words.as_slice()) {
            Some(command) => match BufWriter::new(rt.alloc(), rt.stdout()) {
                Ok(mut output) => run(&rt, rt.alloc(), command, rt.stdin(), &mut output),
                Err(_) => Ending::NoMemory,
            },
            None => Ending::WrongArguments(Program::Bcast),
        },
        Ok(None) => Ending::WrongArguments(Program::Bcast),
        Err(AllocError) => Ending::NoMemory,
    };
    report(ending, &mut rt.stderr())
}

/// Does what the arguments ask for, and returns how the run ended.
fn run<R, I, W>(rt: &R, alloc: Global, command: Command, input: I, output: &mut W) -> Ending
where
    R: Threads + Wait + RandomSource + Clone + Send + 'static,
    I: Read + Drop,
    W: Write,
    requires { IsInRange command }
    ensures { result ≢ Ending.OutputFailed → HasWritten command (I.remaining input)
        (W.contents output.old) (W.contents output.new) result }
{
    match command {
        Command::Script => script(alloc, alloc, input, output),
        Command::Topics => seeded_hub_script(rt, alloc, input, output),
        Command::Threads(s, r, m) => threads(rt, alloc, s, r, m, output),
    }
}
