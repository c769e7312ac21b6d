//! The run of a script.
ghost use Rattle.std.specs.Prelude.{◌≢◌, None, Option, false};
ghost use Rattle.bcast_text.specs.Run.{IsRun};
ghost use Rattle.bcast_play.specs.ScriptRun.{Named, IsScriptLine, IsNoScriptLine};

use crate::channel::Channel;
use bcast_text::ending::Ending;
use bcast_text::input::{Fault, RunLine, run_lines};
use bcast_text::script::line::{Line, read_line};
use std::alloc::{Allocator, Global};
use std::io::{Read, Write};

/// The most bytes that a line may have, its LF aside.
pub const LONGEST: u32 = 200;

/// A script that is being run. Line 1 makes the channel, and is answered by `ok`.
#[derive(Drop)]
struct Session<A: Allocator> {
    alloc: A,
    // For the lists of messages.
    heap: Global,
    channel: Option<Channel<A>>,
}

impl<A: Allocator + Copy> RunLine for Session<A> {
    ghost use Rattle.bcast_play.specs.ScriptRun.{Named, IsScriptLine, IsNoScriptLine};
    ghost use Rattle.bcast_play.specs.Shown.{session_of};
    ghost use Rattle.std.specs.Prelude.{Option, false};

    ghost State = { Option Named };

    ghost state = { session_of };

    ghost answers = { IsScriptLine };

    ghost refuses = { IsNoScriptLine };

    ghost MAY_BE_EMPTY = { false };

    const MAY_BE_EMPTY: bool = false;

    fn run_line<W: Write>(&mut self, line: &str, output: &mut W) -> Result<(), Fault> {
        let line = read_line(self.heap, line)?.ok_or(Fault::NotACall)?;
        match &mut self.channel {
            Some(channel) => channel.run(self.alloc, &line, output),
            None => {
                let Line::Cap(capacity) = line else {
                    return Err(Fault::NotACall);
                };
                self.channel = Some(Channel::open(self.alloc, capacity as usize)?);
                output.write_all(b"ok\n")?;
                Ok(())
            }
        }
    }
}

/// Runs the script that `input` holds, line by line, and writes an answer to each line.
///
/// `output` is flushed before each read that may wait for more input, and at the end. The first
/// line that is not a call ends the run. The messages of a `sendall` take their memory from `heap`,
/// and all else from `alloc`.
pub fn script<A: Allocator + Copy, R: Read + Drop, W: Write>(
    alloc: A,
    heap: Global,
    input: R,
    output: &mut W,
) -> Ending
    ensures { result ≢ Ending.OutputFailed → (last : Option Named)
        × IsRun IsNoScriptLine false LONGEST IsScriptLine (R.remaining input)
        (W.contents output.old) (W.contents output.new) None last result }
{
    let mut session = Session {
        alloc,
        heap,
        channel: None,
    };
    run_lines(alloc, input, LONGEST, output, &mut session)
}
