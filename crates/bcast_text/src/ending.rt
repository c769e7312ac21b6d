//! How a run of a program ends: its text on standard error, and its exit status.
ghost use Rattle.std.specs.Prelude.{◌≡◌, OnOk};
ghost use Rattle.std.specs.Io.KnownBytes.{Appends};
ghost use Rattle.std.specs.Process.{exit_status};
ghost use Rattle.bcast_text.specs.Ending.{status_of, line_of};

use crate::script;
use std::io::Write;
use std::process::ExitCode;
use std::{fmt, io};

/// One of the programs whose runs have an `Ending`.
#[derive(Clone, Copy, Debug, PartialEq, Eq)]
pub enum Program {
    /// `bcast`
    Bcast,
    /// `replay`
    Replay,
}

/// How a run ended.
#[derive(Clone, Copy, Debug, PartialEq, Eq)]
pub enum Ending {
    /// Every line was run, or every thread, and nothing was wrong.
    Done,
    /// The receivers of a run of threads did not all see one order.
    Differ,
    /// The arguments ask for nothing that this program does.
    WrongArguments(Program),
    /// The line of this number, counted from 1, is not a call. The lines before it were run.
    NotACall(u64),
    /// There was no memory.
    NoMemory,
    /// A thread could not be started.
    NoThread,
    /// A read failed.
    InputFailed,
    /// A write failed.
    OutputFailed,
}

impl Ending {
    /// The exit status of a program with this ending.
    pub fn status(self) -> u8
        ensures { result ≡ status_of self }
    {
        match self {
            Ending::Done => 0,
            Ending::Differ => 1,
            Ending::WrongArguments(_) | Ending::NotACall(_) => 2,
            Ending::NoMemory | Ending::NoThread => 3,
            Ending::InputFailed | Ending::OutputFailed => 4,
        }
    }

    /// Writes the line of this ending. `Done` and `Differ` have none: their text is the output.
    pub fn write_line<W: Write>(self, errors: &mut W) -> io::Result<()>
        ensures { OnOk result (Appends (W.contents errors.old) (W.contents errors.new)
            (line_of self)) }
    {
        match self {
            Ending::Done | Ending::Differ => Ok(()),
            _ => writeln!(errors, "{self}"),
        }
    }
}

impl fmt::Display for Ending {
    ghost use Rattle.std.specs.Prelude.{Some};
    ghost use Rattle.bcast_text.specs.Ending.{text_of};

    ghost output = { λ e. Some (text_of e) };

    fn fmt<W: fmt::Write>(&self, f: &mut fmt::Formatter<W>) -> fmt::Result {
        match self {
            Ending::Done | Ending::Differ => Ok(()),
            Ending::WrongArguments(Program::Bcast) => f.write_str(script::command::USAGE),
            Ending::WrongArguments(Program::Replay) => {
                f.write_str("usage: replay trace | replay list")
            }
            Ending::NotACall(line) => write!(f, "line {line}: not a call"),
            Ending::NoMemory => f.write_str("out of memory"),
            Ending::NoThread => f.write_str("no thread"),
            Ending::InputFailed => f.write_str("input failed"),
            Ending::OutputFailed => f.write_str("output failed"),
        }
    }
}

/// Writes how the run ended on `errors`, the standard error of the program, and returns the exit
/// status, also if the write fails.
pub fn report<W: Write>(ending: Ending, errors: &mut W) -> ExitCode
    ensures { exit_status result ≡ status_of ending }
{
    let _ = ending.write_line(errors);
    ExitCode::from(ending.status())
}
