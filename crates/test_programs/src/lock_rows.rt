//! Traces played on a lock, through two of its ports in turn, and on a channel that has no lock.
//! Calls made on a lock while a thread waits there.
ghost use Rattle.std.specs.Prelude.{IfOk, IfSome};
ghost use Rattle.bcast_model.specs.Next.{HasPositiveCapacity};

use crate::cases::Runtime;
use asking::{Asked, Way, made, waiting};
use async_broadcast::{Lock, Port, PortFor, Wake};
use bcast_core::{Call, Close, Inner, Silent, step};
use bcast_trace::line::{Line, read_line};
use bcast_trace::opening::{Opening, read_opening};
use futures::test::MockTask;
use seen::{Shows, differs};
use std::alloc::{AllocError, Global};
use std::io::Write;
use std::sync::Wait;
use std::thread::Threads;
use std::{io, thread};

mod asking;
pub mod seen;

/// The ways in which each trace is played.
const WAYS: [Way; 4] = [Way::Typed, Way::Data, Way::Waiting, Way::LateLock];

/// What is different on a lock and on a channel without one.
#[derive(Clone, Copy, Debug)]
enum Part {
    Reply,
    Accessors,
    Snapshot,
}

/// How many calls of a trace were made in one way, and did the same. Or the line whose call did
/// something else.
type Outcome = Result<u64, (usize, Part)>;

/// How many traces did the same in all ways, and how many calls they have.
#[derive(Clone, Copy, Default)]
pub struct Tally {
    traces: u64,
    calls: u64,
}

/// Two ports of a lock, the task that polls, and a channel without a lock for the same calls.
#[derive(Drop)]
struct Row<P> {
    task: MockTask,
    port: P,
    same: P,
    alone: Inner<u64, Silent>,
}

impl<P: Port<u64> + Shows> Row<P> {
    /// Makes a call on one port and without a lock, and returns whether the replies are equal.
    fn is_same_reply(&mut self, way: Way, is_odd: bool, calls: (Call<u64>, Call<u64>)) -> bool
        requires call { HasPositiveCapacity calls.0 }
        requires again { HasPositiveCapacity calls.1 }
    {
        let (call, again) = calls;
        let wanted = step(&mut self.alone, again, Silent);
        let task = &self.task;
        let port = if is_odd { &self.same } else { &self.port };
        Asked { task, port }.ask(way, call, &wanted) == Some(wanted)
    }

    /// What the ports see that is different without a lock. None: nothing.
    fn differs(&self, alloc: Global) -> Result<Option<Part>, AllocError> {
        match differs(alloc, &self.port, &self.alone)? {
            Some(part) => Ok(Some(part)),
            None => differs(alloc, &self.same, &self.alone),
        }
    }

    /// Makes the calls of all lines except the first `before`. The first of `calls` is line 2 of
    /// its trace.
    fn play(
        &mut self,
        alloc: Global,
        way: Way,
        before: usize,
        calls: &str,
    ) -> Result<Outcome, AllocError> {
        let mut count = 0u64;
        for (index, line) in calls.lines().enumerate().skip(before) {
            let Some(calls) = calls_of(alloc, line)? else {
                continue;
            };
            let number = index.saturating_add(2);
            if !self.is_same_reply(way, count % 2 == 1, calls) {
                return Ok(Err((number, Part::Reply)));
            }
            if let Some(part) = self.differs(alloc)? {
                return Ok(Err((number, part)));
            }
            count = count.wrapping_add(1);
        }
        Ok(Ok(count))
    }

    /// Makes the calls of lines, of which the last ends the wait of a thread. None: each reply is
    /// the same.
    fn play_case(&mut self, alloc: Global, calls: &str) -> Result<Option<Part>, AllocError> {
        let (calls, last) = calls.rsplit_once('\n').unwrap_or(("", calls));
        if let Err((_, part)) = self.play(alloc, Way::Typed, 0, calls)? {
            return Ok(Some(part));
        }
        let Some(calls) = calls_of(alloc, last)? else {
            return Ok(Some(Part::Reply));
        };
        let is_same = self.is_same_reply(Way::Typed, false, calls);
        Ok((!is_same).then_some(Part::Reply))
    }
}

/// The call of a line, twice. None: it has none.
fn calls_of(alloc: Global, line: &str) -> Result<Option<(Call<u64>, Call<u64>)>, AllocError>
    ensures first { IfOk result (λ read. IfSome read (λ calls. HasPositiveCapacity calls.0)) }
    ensures second { IfOk result (λ read. IfSome read (λ calls. HasPositiveCapacity calls.1)) }
{
    match (read_line(alloc, line)?, read_line(alloc, line)?) {
        (Some(Line::Call(_, call)), Some(Line::Call(_, again))) => Ok(Some((call, again))),
        _ => Ok(None),
    }
}

/// Two channels that have made the calls of the first `before` lines.
fn open_both(
    alloc: Global,
    opening: Opening,
    before: usize,
    calls: &str,
) -> Result<(Inner<u64, Wake>, Inner<u64, Silent>), AllocError> {
    let (mut locked, _) = Inner::starting_at(alloc, opening.capacity, opening.first)?;
    let (mut alone, _) = Inner::starting_at(alloc, opening.capacity, opening.first)?;
    for line in calls.lines().take(before) {
        if let Some((call, again)) = calls_of(alloc, line)? {
            step(&mut locked, call, Wake::none());
            step(&mut alone, again, Silent);
        }
    }
    Ok((locked, alone))
}

/// A lock with one channel, and another channel, which have made the calls of the first `before`
/// lines.
fn open_row<R: Runtime, L: Wait + Clone>(
    rt: &R,
    waits: L,
    opening: Opening,
    before: usize,
    calls: &str,
) -> io::Result<Row<Lock<u64, L>>> {
    let task = MockTask::new(rt)?;
    let (locked, alone) = open_both(rt.alloc(), opening, before, calls)?;
    let port = Lock::new(waits, rt.alloc(), locked)?;
    let same = port.try_clone().ok_or(AllocError)?;
    Ok(Row {
        task,
        port,
        same,
        alone,
    })
}

/// Plays the calls of a trace in one way.
fn play<R: Runtime>(rt: &R, way: Way, opening: Opening, calls: &str) -> io::Result<Outcome> {
    let before = match way {
        Way::LateLock => calls.lines().count() / 2,
        _ => 0,
    };
    let mut row = open_row(rt, rt, opening, before, calls)?;
    Ok(row.play(rt.alloc(), way, before, calls)?)
}

impl Tally {
    /// Plays a trace in each way, and writes the first call that did something else, if one did.
    pub fn play<R: Runtime>(&mut self, rt: &R, text: &str, output: &mut Vec<u8>) -> io::Result<()> {
        let (first, calls) = text.split_once('\n').unwrap_or((text, ""));
        let Some(opening) = read_opening(first) else {
            return output.write_all(b"-- lock_rows: no channel\n");
        };
        let mut count = 0u64;
        for way in WAYS {
            match play(rt, way, opening, calls)? {
                Ok(made) => count = made.max(count),
                Err((line, part)) => {
                    return writeln!(output, "-- lock_rows: {way:?}, line {line}: other {part:?}");
                }
            }
        }
        self.traces = self.traces.wrapping_add(1);
        self.calls = self.calls.wrapping_add(count);
        output.write_all(b"-- lock_rows: the same\n")
    }

    /// Writes how much was played.
    pub fn write(&self, output: &mut Vec<u8>) -> io::Result<()> {
        let Tally { traces, calls } = self;
        writeln!(output, "lock_rows: {traces} traces, {calls} calls")
    }
}

/// Lets a thread make the first of two equal calls on `port`, and makes those of lines meanwhile.
fn play_beside<R: Threads, P: Port<u64> + Shows + Send + 'static>(
    rt: &R,
    alloc: Global,
    calls: &str,
    row: &mut Row<P>,
    port: P,
    awaited: (Call<u64>, Call<u64>),
) -> io::Result<Option<Part>>
    requires { HasPositiveCapacity awaited.1 }
{
    let (awaited, again) = awaited;
    let thread = thread::spawn(rt, move || waiting(&port, awaited))?;
    // This lets the thread run, so that it is asleep if it waits.
    for _ in 0..2000u64 {
        thread::yield_now();
    }
    let found = row.play_case(alloc, calls);
    if !matches!(found, Ok(None)) {
        // This lets the thread end.
        made(&row.port, Close);
    }
    let reply = thread.join(rt);
    let wanted = Some(step(&mut row.alone, again, Silent));
    match found? {
        Some(part) => Ok(Some(part)),
        None if reply != wanted => Ok(Some(Part::Reply)),
        None => Ok(row.differs(alloc)?),
    }
}

/// Plays the case of a text on a lock with one channel, and on another channel. None: both do the
/// same.
///
/// The text is a trace, an empty line, the line of the call that the thread makes, those of calls
/// while it waits, and that of the call that ends the wait.
fn play_waiting<R: Runtime>(rt: &R, alloc: Global, text: &str) -> io::Result<Option<Part>> {
    let (first, calls) = text.split_once("\n\n").unwrap_or((text, ""));
    let (opening, first) = first.split_once('\n').unwrap_or((first, ""));
    let (awaited, calls) = calls.split_once('\n').unwrap_or((calls, ""));
    let (Some(opening), Some(awaited)) = (read_opening(opening), calls_of(alloc, awaited)?) else {
        return Ok(Some(Part::Reply));
    };
    let mut row = open_row(rt, rt.clone()?, opening, usize::MAX, first)?;
    let other = row.port.try_clone().ok_or(AllocError)?;
    play_beside(rt, alloc, calls.trim_end(), &mut row, other, awaited)
}

/// Plays the case of a text, and writes what is different.
pub fn beside<R: Runtime>(rt: &R, name: &str, text: &str, output: &mut Vec<u8>) -> io::Result<()> {
    write!(output, "lock_rows beside a thread that waits for {name}: ")?;
    match play_waiting(rt, rt.alloc(), text)? {
        None => output.write_all(b"the same\n"),
        Some(part) => writeln!(output, "other {part:?}"),
    }
}
