//! The run of a program over the lines of its input.
ghost use Rattle.std.specs.Prelude.{◌≡◌, ◌≢◌, ◌≤◌, ◌⊎◌, ℕ, List, Bool, true, Err, OnOk, IfErr};
ghost use Rattle.std.specs.Io.KnownBytes.{Appends, Keeps, IsAtEnd};
ghost use Rattle.bcast_text.specs.Lines.{unread, longest_of};
ghost use Rattle.bcast_text.specs.declared.input.Fault.TheVariants.{NoMemory, OutputFailed};
ghost use Rattle.bcast_text.specs.Run.{Answered, EndsLines, IsRun, IsRefused, IsNumbered};

use crate::ending::Ending;
use crate::lines::{Found, Lines};
use std::alloc::{AllocError, Allocator};
use std::io::{Read, Write};
use std::{io, str};

/// Why a line was not run to its end.
#[derive(Debug, Drop)]
pub enum Fault {
    /// The line is not a call, and nothing was done.
    NotACall,
    /// There was no memory.
    NoMemory,
    /// The answer could not be written.
    OutputFailed,
}

impl From<AllocError> for Fault {
    ghost from_gives = { λ _ fault. fault ≡ NoMemory };

    fn from(_refused: AllocError) -> Fault {
        Fault::NoMemory
    }
}

impl From<io::Error> for Fault {
    ghost from_gives = { λ _ fault. fault ≡ OutputFailed };

    fn from(_failed: io::Error) -> Fault {
        Fault::OutputFailed
    }
}

/// A program that is run line by line.
pub trait RunLine {
    // What contracts see of the program.
    ghost State: { Type 0 };

    ghost state: { Self → State };

    // In the first state, the line is answered by the text, and leads to the second state.
    ghost answers: { State → List ℕ → List ℕ → State → Type 0 };

    // In this state, the line is not a call.
    ghost refuses: { State → List ℕ → Type 0 };

    ghost MAY_BE_EMPTY: { Bool };

    /// Whether an input without lines is done. If not, it has a fault in line 1.
    const MAY_BE_EMPTY: bool;

    /// Runs one line, given without its LF, and writes its answer.
    ///
    /// # Errors
    ///
    /// - `NotACall`, `NoMemory`: nothing was written.
    /// - `OutputFailed`: a write failed.
    fn run_line<W: Write>(&mut self, line: &str, output: &mut W) -> Result<(), Fault>
        ensures ok { OnOk result ((text : List ℕ)
            × answers (state self.old) line.now text (state self.new)
            × Appends (W.contents output.old) (W.contents output.new) text) }
        ensures unwritten { (result ≡ Err Fault.NotACall) ⊎ (result ≡ Err Fault.NoMemory)
            → output.new ≡ output.old }
        ensures refused { result ≡ Err Fault.NotACall → refuses (state self.old) line.now };
}

/// Runs each line of `input`, of at most `longest` bytes, on `program`.
///
/// The answers are written before each read that may wait for more input, and at the end. An input
/// without lines has a fault in line 1, unless the program may be empty. A line of number
/// `u64::MAX` is not run.
pub fn run_lines<A: Allocator + Copy, R: Read + Drop, W: Write, P: RunLine>(
    alloc: A,
    input: R,
    longest: u32,
    output: &mut W,
    program: &mut P,
) -> Ending
    ensures { result ≢ Ending.OutputFailed
        → IsRun P.refuses P.MAY_BE_EMPTY longest P.answers (R.remaining input)
        (W.contents output.old) (W.contents output.new)
        (P.state program.old) (P.state program.new) result }
{
    let Ok(mut lines) = Lines::new(alloc, input, longest) else {
        return Ending::NoMemory;
    };
    let ending = each_line(&mut lines, output, program);
    match (output.flush(), ending) {
        (Err(_), Ending::Done | Ending::NotACall(_)) => return Ending::OutputFailed,
        _ => {}
    }
    ending
}

/// Runs the lines up to the first one that is not run to its end.
fn each_line<A: Allocator + Copy, R: Read + Drop, W: Write, P: RunLine>(
    lines: &mut Lines<R, A>,
    output: &mut W,
    program: &mut P,
) -> Ending
    ensures { result ≢ Ending.OutputFailed
        → IsRun P.refuses P.MAY_BE_EMPTY (longest_of lines.old) P.answers
        (unread R.remaining lines.old) (W.contents output.old) (W.contents output.new)
        (P.state program.old) (P.state program.new) result }
{
    let mut number = 1;
    while number < u64::MAX {
        match next_line(number, lines, output, program) {
            Ok(()) => number += 1,
            Err(ending) => return ending,
        }
    }
    Ending::NotACall(u64::MAX)
}

/// Runs the next line, which has this number, if there is one, or returns how the run ends.
fn next_line<A: Allocator + Copy, R: Read + Drop, W: Write, P: RunLine>(
    number: u64,
    lines: &mut Lines<R, A>,
    output: &mut W,
    program: &mut P,
) -> Result<(), Ending>
    ensures ok { OnOk result (Answered P.answers
        (unread R.remaining lines.old) (unread R.remaining lines.new)
        (W.contents output.old) (W.contents output.new)
        (P.state program.old) (P.state program.new) 1) }
    ensures unwritten { IfErr result (λ ending. ending ≢ Ending.OutputFailed
        → Keeps (W.contents output.old) (W.contents output.new)) }
    ensures done { result ≡ Err Ending.Done → IsAtEnd (unread R.remaining lines.old)
        × (program.new ≡ program.old) × (number ≤ 1 → P.MAY_BE_EMPTY ≡ true) }
    ensures not_a_call { IfErr result (IsNumbered number) }
    ensures ends { IfErr result EndsLines }
    ensures refused { (line : ℕ) → result ≡ Err (Ending.NotACall line)
        → IsRefused P.refuses P.MAY_BE_EMPTY (longest_of lines.old)
        (unread R.remaining lines.old) (P.state program.old) number }
    ensures longest { longest_of lines.new ≡ longest_of lines.old }
{
    if !lines.is_ahead() && output.flush().is_err() {
        return Err(Ending::OutputFailed);
    }
    match lines.next() {
        Err(_) => return Err(Ending::InputFailed),
        Ok(Found::End) if number > 1 || P::MAY_BE_EMPTY => return Err(Ending::Done),
        Ok(Found::End | Found::TooLong) => return Err(Ending::NotACall(number)),
        Ok(Found::Line) => {}
    }
    let Ok(line) = str::from_utf8(lines.text()) else {
        return Err(Ending::NotACall(number));
    };
    match program.run_line(line, output) {
        Ok(()) => Ok(()),
        Err(Fault::NotACall) => Err(Ending::NotACall(number)),
        Err(Fault::NoMemory) => Err(Ending::NoMemory),
        Err(Fault::OutputFailed) => Err(Ending::OutputFailed),
    }
}
