//! Lines that are not calls, of which some do not show in a text file, and when answers are
//! written.
use crate::play::{Played, Player, Text, players};
use crate::streams::{Bytes, Limited};
use bcast_play::seeded_hub_script;
use std::alloc::Global;
use std::io;
use std::io::Write;

/// A program, its first line, and a line after it that is not a call.
const UNSEEN: &[(&str, &str, &str)] = &[
    ("script", "cap 2", "len\r"),
    ("script", "cap 2", "\u{0}"),
    ("script", "cap 2", "\u{feff}len"),
    ("topics", "open a 1", "close a\r"),
    ("topics", "open a 1", "close\ta"),
    ("trace", "", "open\t1 0"),
    ("trace", "", "open 1 0\r"),
    ("trace", "open 2 0", "Close\r"),
    ("trace", "open 2 0", "\u{feff}Len"),
];

/// Bytes that are not UTF-8 text.
const NO_TEXT: &[(Player, &[u8])] = &[
    (Player::Script, b"cap 2\nlen\xff\n"),
    (Player::Script, b"cap 2\n\xff\n"),
    (Player::Topics, b"open a 1\nclose a\xff\n"),
    (Player::Trace, b"open 2 0\nLen -> \xff\n"),
];

/// A first line, and how many bytes are in the line after it, which are all this one.
const LONG: &[(Player, &str, &str, usize)] = &[
    (Player::Topics, "open a 1\n", "a", 201),
    (Player::Trace, "open 2 0\n", "=", 1 << 20),
    (Player::Trace, "open 2 0\n", "=", (1 << 20) + 1),
    (Player::List, "open 2 0\n", "=", 1 << 20),
    (Player::List, "open 2 0\n", "=", (1 << 20) + 1),
];

/// Plays each of `lines` as the line after `first`, and alone if there is no `first`.
///
/// `first` is the program and its first line, as `script cap 2` or `topics open a 1`, or `trace`
/// alone.
pub fn refused_lines(
    alloc: Global,
    first: &str,
    lines: &str,
    output: &mut Vec<u8>,
) -> io::Result<()> {
    let (program, first) = first.split_once(' ').unwrap_or((first, ""));
    for line in lines.lines() {
        refused(alloc, program, first, line, output)?;
    }
    Ok(())
}

/// Plays `first` and `line`, with and without a last LF, and writes how the text ended, and if that
/// differs, how it ended without its last LF.
fn refused(
    alloc: Global,
    program: &str,
    first: &str,
    line: &str,
    output: &mut Vec<u8>,
) -> io::Result<()> {
    let end = if first.is_empty() { "" } else { "\n" };
    let text = format!(in alloc; "{first}{end}{line}\n")?;
    let whole = text.as_str().as_bytes();
    let cut = whole.strip_suffix(b"\n").unwrap_or(whole);
    for (name, player) in players(program) {
        let played = Text::new(alloc, *player, whole).play(7);
        let other = Text::new(alloc, *player, cut).play(7);
        write!(output, "{line:?} ")?;
        played.describe(name, output)?;
        if other != played {
            other.describe("without a last LF", output)?;
        }
    }
    Ok(())
}

/// Plays lines and bytes that a text file does not show.
pub fn unseen(alloc: Global, output: &mut Vec<u8>) -> io::Result<()> {
    for (program, first, line) in UNSEEN {
        refused(alloc, program, first, line, output)?;
    }
    for (player, text) in NO_TEXT {
        let played = Text::new(alloc, *player, text).play(7);
        played.describe("bytes that are no text", output)?;
    }
    Ok(())
}

/// Plays lines of the greatest length, and such with one byte more.
pub fn longest(alloc: Global, output: &mut Vec<u8>) -> io::Result<()> {
    for (player, first, byte, count) in LONG {
        let mut text = String::from_str(alloc, first)?;
        for _ in 0..*count {
            text.push_str(byte)?;
        }
        let played = Text::new(alloc, *player, text.as_str().as_bytes()).play(8192);
        write!(output, "{player:?} {count} ")?;
        // A view is long, and other cases show what it has.
        if played.wrote.len() > first.len() {
            writeln!(output, "-- {:?} after a view", played.ending)?;
        } else {
            played.describe("bytes", output)?;
        }
    }
    Ok(())
}

/// Plays a script whose lines have six bytes, and writes how many writes were made for its answers.
pub fn writes(alloc: Global, script: &[u8], output: &mut Vec<u8>) -> io::Result<()> {
    for given in [6, 8192] {
        let reader = Limited::new(script, given, 100);
        let mut writer = Limited::new(Vec::new(alloc), 100, 100);
        let ending = Text::new(alloc, Player::Script, script).play_into(alloc, reader, &mut writer);
        let made = 100u64.saturating_sub(writer.calls);
        writeln!(output, "in pieces of {given}: {made} -- {ending:?}")?;
    }
    Ok(())
}

/// Plays lines on topics without a seed for the hash of their names.
pub fn no_seed(alloc: Global, lines: &[u8], output: &mut Vec<u8>) -> io::Result<()> {
    let mut wrote = Vec::new(alloc);
    let ending = seeded_hub_script(&Bytes(None), alloc, lines, &mut wrote);
    Played { ending, wrote }.describe("a line", output)
}
