//! The calls of a trace played as one list.
ghost use Rattle.bcast_trace.specs.Positive.{AllPositive, AllPositive-prop};

use crate::line::{LONGEST, Line, read_line};
use crate::opening::{Opening, read_opening};
use crate::reply::write_answer;
use bcast_core::{Call, run};
use bcast_text::ending::Ending;
use bcast_text::input::{Fault, RunLine, run_lines};
use std::alloc::{Allocator, Global};
use std::io::{Read, Write};

/// The channel of a trace, and its calls, of which none is made yet. New capacities are positive.
#[derive(Drop)]
struct Collector<A: Allocator> {
    alloc: A,
    // For the lists of messages.
    heap: Global,
    opening: Option<Opening>,
    list: Vec<Call<u64>, A>,
    // The text of each call.
    texts: Vec<String<A>, A>,
    ghost positive: { AllPositive list.items } by { AllPositive-prop list.items },
}

impl<A: Allocator + Copy> Collector<A> {
    /// Keeps the channel that line 1 opens, and each call after it.
    fn collect(&mut self, line: &str) -> Result<(), Fault> {
        if self.opening.is_none() {
            self.opening = Some(read_opening(line).ok_or(Fault::NotACall)?);
            return Ok(());
        }
        if let Line::Call(text, call) = read_line(self.heap, line)?.ok_or(Fault::NotACall)? {
            let text = String::from_str(self.alloc, text)?;
            self.texts.push(text).ok().ok_or(Fault::NoMemory)?;
            self.list.push(call).ok().ok_or(Fault::NoMemory)?;
        }
        Ok(())
    }

    /// Makes the calls as one list, and writes line 1 and each call with its reply. `NotACall`:
    /// line 1 was not read.
    fn play<W: Write>(self, output: &mut W) -> Result<(), Fault> {
        let opening = self.opening.ok_or(Fault::NotACall)?;
        let Ok(made) = run(self.alloc, opening.capacity, opening.first, self.list) else {
            return Err(Fault::NoMemory);
        };
        writeln!(output, "open {} {}", opening.capacity, opening.first)?;
        for (text, reply) in self.texts.as_slice().iter().zip(made.replies.as_slice()) {
            write_answer(text.as_str(), reply, output)?;
        }
        Ok(())
    }
}

// Nothing is written for a line.
impl<A: Allocator + Copy> RunLine for Collector<A> {
    ghost use Rattle.std.specs.Prelude.{Bool, false, true, ⊤};

    ghost State = { Bool };

    ghost state = { λ _. true };

    ghost answers = { λ _ _ _ _. ⊤ };

    ghost refuses = { λ _ _. ⊤ };

    ghost MAY_BE_EMPTY = { false };

    const MAY_BE_EMPTY: bool = false;

    fn run_line<W: Write>(&mut self, line: &str, _output: &mut W) -> Result<(), Fault> {
        self.collect(line)?;
        Ok(())
    }
}

/// Plays the calls of the trace that `input` holds as one list, after all of it is read, and writes
/// line 1 and each call with the reply that `run` gives. Nothing is written if a line is out of
/// form.
///
/// Takes memory for the calls, their texts and their replies, and for the messages of lists from
/// `heap`.
pub fn list<A: Allocator + Copy, R: Read + Drop, W: Write>(
    alloc: A,
    heap: Global,
    input: R,
    output: &mut W,
) -> Ending {
    let mut collector = Collector {
        alloc,
        heap,
        opening: None,
        list: Vec::new(alloc),
        texts: Vec::new(alloc),
    };
    let ending = run_lines(alloc, input, LONGEST, output, &mut collector);
    if ending != Ending::Done {
        return ending;
    }
    let played = collector.play(output);
    match (output.flush(), played) {
        (_, Err(Fault::NotACall)) => Ending::NotACall(1),
        (_, Err(Fault::NoMemory)) => Ending::NoMemory,
        (Err(_), _) | (_, Err(Fault::OutputFailed)) => Ending::OutputFailed,
        (Ok(()), Ok(())) => Ending::Done,
    }
}
