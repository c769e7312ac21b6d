//! A text played in one way.
use crate::streams::{Bytes, Limited};
use bcast_play::{script, seeded_hub_script};
use bcast_text::ending::Ending;
use bcast_trace::{list, trace};
use std::alloc::{Allocator, Global};
use std::io::{BufWriter, Read, Write};
use std::{io, str};

/// What plays a text.
#[derive(Clone, Copy, Debug, PartialEq, Eq)]
pub enum Player {
    /// `bcast script`
    Script,
    /// `bcast topics`
    Topics,
    /// `replay trace`
    Trace,
    /// `replay list`
    List,
}

/// What plays the texts of a program, each with its name. A trace is played in both ways.
pub fn players(program: &str) -> &'static [(&'static str, Player)] {
    match program {
        "script" => &[("script", Player::Script)],
        "topics" => &[("topics", Player::Topics)],
        _ => &[("trace", Player::Trace), ("list", Player::List)],
    }
}

/// How a text ended, and what was written.
#[derive(PartialEq, Drop)]
pub struct Played {
    pub ending: Ending,
    pub wrote: Vec<u8>,
}

/// A text, and what plays it.
#[derive(Clone, Copy)]
pub struct Text<'a> {
    /// For what is written, and for the messages of lists.
    pub alloc: Global,
    pub player: Player,
    pub bytes: &'a [u8],
}

impl<'a> Text<'a> {
    /// A text that `play` plays with memory of `alloc`.
    pub fn new(alloc: Global, player: Player, bytes: &'a [u8]) -> Self {
        Text {
            alloc,
            player,
            bytes,
        }
    }

    /// Plays it in pieces of `given` bytes, and nothing fails.
    pub fn play(&self, given: usize) -> Played {
        self.play_over(self.alloc, given, u64::MAX, u64::MAX)
    }

    /// Plays it in pieces of `given` bytes, with memory of this `alloc`. `reads` and `writes` say
    /// how many are made before one fails.
    pub fn play_over<A>(&self, alloc: A, given: usize, reads: u64, writes: u64) -> Played
    where
        A: Allocator + Copy,
    {
        let reader = Limited::new(self.bytes, given, reads);
        let mut writer = Limited::new(Vec::new(self.alloc), 3, writes);
        let ending = self.play_into(alloc, reader, &mut writer);
        Played {
            ending,
            wrote: writer.stream,
        }
    }

    /// Plays what `reader` gives, as the programs do, through a buffer.
    pub fn play_into<A, R, W>(&self, alloc: A, reader: R, writer: &mut W) -> Ending
    where
        A: Allocator + Copy,
        R: Read + Drop,
        W: Write,
    {
        let Ok(mut output) = BufWriter::new(alloc, writer) else {
            return Ending::NoMemory;
        };
        match self.player {
            Player::Script => script(alloc, self.alloc, reader, &mut output),
            Player::Topics => seeded_hub_script(&Bytes(Some(7)), alloc, reader, &mut output),
            Player::Trace => trace(alloc, self.alloc, reader, &mut output),
            Player::List => list(alloc, self.alloc, reader, &mut output),
        }
    }
}

impl Played {
    /// Writes in one line what it wrote, and how it ended.
    pub fn describe(&self, name: &str, output: &mut Vec<u8>) -> io::Result<()> {
        let wrote = text_of(self.wrote.as_slice());
        writeln!(output, "-- {name}: {:?} after {wrote:?}", self.ending)
    }
}

pub fn text_of(bytes: &[u8]) -> &str {
    str::from_utf8(bytes).unwrap_or("bytes that are no text")
}
