//! A trace played call by call.
use crate::line::{LONGEST, Line, read_line};
use crate::opening::read_opening;
use crate::reply::write_answer;
use crate::view::write_view;
use bcast_core::{Inner, Silent, step};
use bcast_text::ending::Ending;
use bcast_text::input::{Fault, RunLine, run_lines};
use std::alloc::{Allocator, Global};
use std::io::{Read, Write};

/// The channel of a trace, which line 1 opens.
#[derive(Drop)]
struct Player<A: Allocator> {
    alloc: A,
    // For the lists of messages.
    heap: Global,
    inner: Option<Inner<u64, Silent, A>>,
    // What the last line is answered by.
    text: Vec<u8, A>,
}

impl<A: Allocator + Copy> Player<A> {
    /// Does what `line` asks for, and puts what is written of it into `text`.
    fn answer(&mut self, line: &str) -> Result<(), Fault> {
        self.text.clear();
        let written = match &mut self.inner {
            Some(inner) => match read_line(self.heap, line)?.ok_or(Fault::NotACall)? {
                Line::View => write_view(&inner.snapshot(self.alloc)?, &mut self.text),
                Line::Call(text, call) => {
                    let reply = step(inner, call, Silent);
                    write_answer(text, &reply, &mut self.text)
                }
            },
            None => {
                let opening = read_opening(line).ok_or(Fault::NotACall)?;
                let (inner, _) = Inner::starting_at(self.alloc, opening.capacity, opening.first)?;
                self.inner = Some(inner);
                writeln!(&mut self.text, "{line}")
            }
        };
        written.ok().ok_or(Fault::NoMemory)
    }
}

// No clause says what a line is answered by.
impl<A: Allocator + Copy> RunLine for Player<A> {
    ghost use Rattle.std.specs.Prelude.{Bool, false, true, ⊤};

    ghost State = { Bool };

    ghost state = { λ _. true };

    ghost answers = { λ _ _ _ _. ⊤ };

    ghost refuses = { λ _ _. ⊤ };

    ghost MAY_BE_EMPTY = { false };

    const MAY_BE_EMPTY: bool = false;

    fn run_line<W: Write>(&mut self, line: &str, output: &mut W) -> Result<(), Fault> {
        self.answer(line)?;
        output.write_all(self.text.as_slice())?;
        Ok(())
    }
}

/// Plays the trace that `input` holds, line by line, and writes it again: line 1, each call with
/// the reply that `step` gives, and each view.
///
/// `output` is flushed before each read that may wait for more input, and at the end. The first
/// line that is out of form ends the run. The messages of a list take their memory from `heap`, and
/// all else from `alloc`.
pub fn trace<A: Allocator + Copy, R: Read + Drop, W: Write>(
    alloc: A,
    heap: Global,
    input: R,
    output: &mut W,
) -> Ending {
    let mut player = Player {
        alloc,
        heap,
        inner: None,
        text: Vec::new(alloc),
    };
    run_lines(alloc, input, LONGEST, output, &mut player)
}
