//! Reads, writes and requests for memory that fail, each in turn.
ghost use Rattle.std.specs.Prelude.{◌<◌};

use crate::play::{Played, Player, Text};
use bcast_text::ending::Ending;
use linked_list_allocator::LocalHeap;
use std::alloc::AllocError;
use std::io;
use std::io::Write;

/// How a text fails that has too little of something, how many bytes a read gives it, and with how
/// much it seldom failed before it had enough.
const FAILURES: [(Ending, usize, u64); 4] = [
    (Ending::InputFailed, 7, 9),
    (Ending::OutputFailed, 7, 9),
    (Ending::OutputFailed, 8192, 9),
    (Ending::NoMemory, 7, 999),
];

/// Plays `text` with more and more reads before one fails, and so with writes, and with memory,
/// until none fails.
pub fn each_fails(text: &Text<'_>, output: &mut Vec<u8>) -> io::Result<()> {
    for (failure, given, seldom) in FAILURES {
        let whole = text.play(given);
        match enough(text, failure, given, &whole, output)? {
            Some(count) => {
                let how = if count > seldom { "often" } else { "seldom" };
                writeln!(
                    output,
                    "{:?}: {failure:?} {how}, and then none",
                    text.player
                )?;
            }
            None => output.write_all(b"it never ends\n")?,
        }
    }
    Ok(())
}

/// How much `text` needs to be played as `whole` was. With less it must end as `failure`, after
/// part of the same output; else how it ended is written.
fn enough(
    text: &Text<'_>,
    failure: Ending,
    given: usize,
    whole: &Played,
    output: &mut Vec<u8>,
) -> io::Result<Option<u64>> {
    for count in 0..4096 {
        let played = play_with(text, failure, given, count)?;
        if played == *whole {
            return Ok(Some(count));
        }
        if played.ending != failure
            || !whole.wrote.as_slice().starts_with(played.wrote.as_slice())
        {
            played.describe("it fails as", output)?;
        }
    }
    Ok(None)
}

/// Plays `text` with `count` reads, or writes, or with a small heap that grows with `count`.
fn play_with(
    text: &Text<'_>,
    failure: Ending,
    given: usize,
    count: u64,
) -> Result<Played, AllocError>
    requires { count < 4096 }
{
    match failure {
        Ending::InputFailed => Ok(text.play_over(text.alloc, given, count, u64::MAX)),
        Ending::OutputFailed => Ok(text.play_over(text.alloc, given, u64::MAX, count)),
        _ => {
            // The memory for a line of the greatest length.
            let least = match text.player {
                Player::Script | Player::Topics => 16,
                Player::Trace | Player::List => (1 << 20) + 16,
            };
            let heap = LocalHeap::new(text.alloc, least + 16 * count as usize)?;
            Ok(text.play_over(&heap, given, u64::MAX, u64::MAX))
        }
    }
}

/// Plays the beginnings of a script, or of lines on topics. Each is done, or ends at the line that
/// is cut.
pub fn cut_after_each_byte(text: &Text<'_>, output: &mut Vec<u8>) -> io::Result<()> {
    let bytes = text.bytes;
    for cut in 0..bytes.len() {
        let beginning = &bytes[..cut];
        let played = Text::new(text.alloc, text.player, beginning).play(7);
        let lines = beginning.iter().filter(|byte| **byte == b'\n').count() as u64;
        if played.ending != Ending::Done && played.ending != Ending::NotACall(lines + 1) {
            played.describe("a beginning", output)?;
        }
    }
    output.write_all(b"cut after each byte\n")
}
