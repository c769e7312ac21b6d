//! The cases of standard input.
use crate::failing::{cut_after_each_byte, each_fails};
use crate::lock_rows::{Tally, beside};
use crate::play::{Played, Player, Text, players};
use crate::short::write_refused;
use crate::told::write_notices;
use crate::{arguments, endings, threads, unusual};
use bcast_text::ending::Ending;
use std::alloc::{AllocGlobal, Global};
use std::io;
use std::io::Write;
use std::random::RandomSource;
use std::sync::Wait;
use std::thread::Threads;

/// What cases need of what runs them.
pub trait Runtime: Threads + Wait + RandomSource + AllocGlobal + Clone + Send + 'static {}

impl<R: Threads + Wait + RandomSource + AllocGlobal + Clone + Send + 'static> Runtime for R {}

/// Runs a case: the first line has its kind and its name.
pub fn run<R: Runtime>(
    rt: &R,
    case: &str,
    tally: &mut Tally,
    output: &mut Vec<u8>,
) -> io::Result<()> {
    let (head, body) = case.split_once('\n').unwrap_or((case, ""));
    writeln!(output, "# {head}")?;
    let (kind, name) = head.split_once(' ').unwrap_or((head, ""));
    let (alloc, bytes) = (rt.alloc(), body.as_bytes());
    match kind {
        "script" => write_played(&Text::new(alloc, Player::Script, bytes), output).map(drop),
        "topics" => write_played(&Text::new(alloc, Player::Topics, bytes), output).map(drop),
        "trace" => trace_case(rt, body, tally, output).map(drop),
        "told" => {
            let listed = trace_case(rt, body, tally, output)?;
            write_notices(alloc, body, listed.as_slice(), output)
        }
        "failing" => failing_case(alloc, name, body, output),
        "refused" => unusual::refused_lines(alloc, name, body, output),
        "bcast" | "replay" => arguments::commands(alloc, kind, body, output),
        "lock_rows" => tally.write(output),
        "beside" => beside(rt, name, body, output),
        "ending" => endings::script(alloc, body, output),
        "threads" => threads::run(rt, body, output),
        _ => fixed(alloc, head, body, output),
    }
}

/// Runs a case that the code has, all of it or all but its text.
fn fixed(alloc: Global, head: &str, body: &str, output: &mut Vec<u8>) -> io::Result<()> {
    match head {
        "lines that a text file does not show" => unusual::unseen(alloc, output),
        "lines of the greatest length, and one byte more" => unusual::longest(alloc, output),
        "how often answers are written" => unusual::writes(alloc, body.as_bytes(), output),
        "no random bytes" => unusual::no_seed(alloc, body.as_bytes(), output),
        "endings" => endings::all(alloc, output),
        "an argument that is text, and two that are none" => arguments::run(alloc, output),
        _ => output.write_all(b"no such kind of case\n"),
    }
}

/// Writes what is written for `text` and how that ends. Then plays it in small pieces, and without
/// its last LF, and writes a line for each way that ends differently, or writes something else.
fn write_played(text: &Text<'_>, output: &mut Vec<u8>) -> io::Result<Played> {
    let played = text.play(8192);
    output.write_all(played.wrote.as_slice())?;
    writeln!(output, "-- {:?}", played.ending)?;
    let whole = text.bytes;
    let cut = whole.strip_suffix(b"\n").unwrap_or(whole);
    for (name, bytes, given) in [
        ("in pieces of 1", whole, 1),
        ("in pieces of 2", whole, 2),
        ("in pieces of 7", whole, 7),
        ("without the last LF", cut, 7),
    ] {
        let other = Text::new(text.alloc, text.player, bytes).play(given);
        if other != played {
            other.describe(name, output)?;
        }
    }
    Ok(played)
}

/// Writes what a trace writes, and how it ends; which of its calls are refused if there is no
/// memory; whether a lock does the same; and whether the list of its calls does, views aside.
/// Returns what the list should write.
fn trace_case<R: Runtime>(
    rt: &R,
    text: &str,
    tally: &mut Tally,
    output: &mut Vec<u8>,
) -> io::Result<Vec<u8>> {
    let alloc = rt.alloc();
    let played = write_played(&Text::new(alloc, Player::Trace, text.as_bytes()), output)?;
    if played.ending == Ending::Done {
        write_refused(alloc, text, output)?;
        tally.play(rt, text, output)?;
    } else {
        output.write_all(b"-- lock_rows: not played\n")?;
    }
    let wanted = listed_from(alloc, &played)?;
    let listed = Text::new(alloc, Player::List, text.as_bytes()).play(7);
    if listed == wanted {
        output.write_all(b"-- the list: the same without views\n")?;
    } else {
        listed.describe("the list", output)?;
    }
    Ok(wanted.wrote)
}

/// How `replay list` ends if `replay trace` ended so, and what it writes: the lines that are not
/// views, or nothing if a line was not a call.
fn listed_from(alloc: Global, traced: &Played) -> io::Result<Played> {
    let mut wrote = Vec::new(alloc);
    if traced.ending == Ending::Done {
        for line in traced
            .wrote
            .as_slice()
            .split_inclusive(|byte| *byte == b'\n')
        {
            if line.first() != Some(&b'=') {
                wrote.extend_from_slice(line)?;
            }
        }
    }
    let ending = traced.ending;
    Ok(Played { ending, wrote })
}

/// Plays a script, lines on topics, or else a trace, with reads, writes and requests for memory
/// that fail in turn.
fn failing_case(alloc: Global, name: &str, text: &str, output: &mut Vec<u8>) -> io::Result<()> {
    for (_, player) in players(name) {
        let text = Text::new(alloc, *player, text.as_bytes());
        if matches!(player, Player::Script | Player::Topics) {
            cut_after_each_byte(&text, output)?;
        }
        each_fails(&text, output)?;
    }
    Ok(())
}
