//! The first line of a trace, which makes the channel.
ghost use Rattle.std.specs.Prelude.{◌<◌, ◌+◌, ◌^◌};

use bcast_text::number::{number, positive};

/// The channel that a trace is played on.
#[derive(Clone, Copy)]
pub struct Opening {
    /// Its capacity.
    pub capacity: usize,
    /// The number that its first message gets.
    pub first: u64,
    ghost positive: { 0 < capacity },
    ghost below_last: { first + 1 < 2 ^ 64 },
}

/// The channel that `line` opens. None: it is not `open CAP FIRST` of a possible channel.
pub fn read_opening(line: &str) -> Option<Opening> {
    let (word, arguments) = line.split_once(' ')?;
    let (capacity, first) = arguments.split_once(' ')?;
    let capacity = positive(capacity)? as usize;
    let first = number(first)?;
    if word != "open" || first == u64::MAX {
        return None;
    }
    Some(Opening { capacity, first })
}
