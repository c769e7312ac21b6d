//! What is on standard error, and the status, for each way in which a run ends.
use crate::play::{Player, Text, text_of};
use bcast_text::ending::{Ending, Program, report};
use std::alloc::Global;
use std::io;
use std::io::Write;
use std::process::ExitCode;

const ENDINGS: [Ending; 10] = [
    Ending::Done,
    Ending::Differ,
    Ending::WrongArguments(Program::Bcast),
    Ending::WrongArguments(Program::Replay),
    Ending::NotACall(1),
    Ending::NotACall(u64::MAX),
    Ending::NoMemory,
    Ending::NoThread,
    Ending::InputFailed,
    Ending::OutputFailed,
];

/// Writes what is reported of each ending.
pub fn all(alloc: Global, output: &mut Vec<u8>) -> io::Result<()> {
    for ending in ENDINGS {
        write!(output, "{ending:?} -- ")?;
        reported(alloc, ending, output)?;
    }
    Ok(())
}

/// Writes what a script writes, and what is reported of how it ended.
pub fn script(alloc: Global, text: &str, output: &mut Vec<u8>) -> io::Result<()> {
    let played = Text::new(alloc, Player::Script, text.as_bytes()).play(7);
    write!(output, "{:?} -- ", text_of(played.wrote.as_slice()))?;
    reported(alloc, played.ending, output)
}

/// Writes what is reported of this ending.
fn reported(alloc: Global, ending: Ending, output: &mut Vec<u8>) -> io::Result<()> {
    let mut errors = Vec::new(alloc);
    let code = report(ending, &mut errors);
    let wrote = text_of(errors.as_slice());
    let status = ending.status();
    if code == ExitCode::from(status) {
        return writeln!(output, "{wrote:?}, status {status}");
    }
    writeln!(output, "{wrote:?}, {code:?}, and not status {status}")
}
