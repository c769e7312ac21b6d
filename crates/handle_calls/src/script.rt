//! A script, played line by line.
use crate::handles::{Handles, add};
use crate::held::{Held, Makers};
use crate::line::{Futures, Opening, read_opening, read_request};
use crate::recording::RecordingPort;
use crate::seen::Shows;
use crate::session::tasks_of;
use async_broadcast::{InactiveReceiver, Receiver, Sender, broadcast};
use bcast_text::ending::Ending;
use bcast_text::input::Fault;
use futures::test::MockTask;
use linked_list_allocator::LocalHeap;
use std::alloc::{AllocGlobal, Allocator, Global};
use std::io::{BufWriter, Write};
use std::random::RandomSource;
use std::str::Lines;
use std::sync::Wait;
use std::time::Clock;

/// The lines of a script that are still to be played.
#[derive(Drop)]
struct Script<'a> {
    lines: Lines<'a>,
    // The number of the last line that was read.
    number: u64,
}

impl<'a> Script<'a> {
    /// The next line. None: there is no more.
    fn next(&mut self) -> Option<&'a str> {
        self.number = self.number.saturating_add(1);
        self.lines.next()
    }
}

/// Plays lines up to the next opening. None: up to the end.
fn play_lines<P: Shows<A>, A: Allocator + Copy, W: Write>(
    recorder: Option<&RecordingPort>,
    handles: &mut Handles<P, A>,
    held: &mut Held<'_, P, A>,
    script: &mut Script<'_>,
    output: &mut W,
) -> Result<Option<Opening>, Fault> {
    for _ in 0..u64::MAX {
        let Some(text) = script.next() else {
            return Ok(None);
        };
        output.write_all(text.as_bytes())?;
        if let Some(opening) = read_opening(text) {
            output.write_all(b"\n")?;
            return Ok(Some(opening));
        }
        if !text.starts_with('#') {
            let request = read_request(text).ok_or(Fault::NotACall)?;
            if request.method == "snapshot" {
                handles.show(request, output)?;
            } else {
                let answer = handles.answer(recorder, held, request)?;
                write!(output, " -> {answer:?}")?;
            }
            if let Some(recorder) = recorder {
                recorder.write_record(output)?;
            }
        }
        output.write_all(b"\n")?;
    }
    Ok(None)
}

/// Plays the lines of the sender and the receiver of a channel.
fn play_handles<P: Shows<Global>, W: Write>(
    alloc: Global,
    tasks: Vec<MockTask>,
    futures: Futures,
    sender: Sender<u64, P>,
    receiver: Receiver<u64, P>,
    script: &mut Script<'_>,
    output: &mut W,
) -> Result<Option<Opening>, Fault> {
    let mut makers = Makers {
        sender: None,
        receiver: None,
        second: None,
    };
    match futures {
        Futures::Nothing => {}
        Futures::Sends => makers.sender = sender.clone().ok(),
        Futures::Receive => makers.receiver = receiver.clone().ok(),
        Futures::TwoReceives => {
            makers.receiver = receiver.clone().ok();
            makers.second = receiver.clone().ok();
        }
    }
    let mut handles = Handles::new(alloc, tasks);
    add(Ok(sender), &mut handles.senders)?;
    add(Ok(receiver), &mut handles.receivers)?;
    let mut held = Held::new(alloc, &mut makers);
    play_lines(None, &mut handles, &mut held, script, output)
}

/// Plays the lines of handles over recording ports. The handles take their memory from `memory`.
fn play_recorded<A: Allocator + Copy, W: Write>(
    recorder: &RecordingPort,
    alloc: Global,
    memory: A,
    tasks: Vec<MockTask>,
    script: &mut Script<'_>,
    output: &mut W,
) -> Result<Option<Opening>, Fault> {
    let mut makers = Makers {
        sender: Some(Sender::from_port(recorder.other()?, memory)),
        receiver: Some(Receiver::from_port(recorder.other()?, 4, memory)),
        second: None,
    };
    let mut handles = Handles::new(alloc, tasks);
    let sender = Sender::from_port(recorder.other()?, memory);
    add(Ok(sender), &mut handles.senders)?;
    let receiver = Receiver::from_port(recorder.other()?, 3, memory);
    add(Ok(receiver), &mut handles.receivers)?;
    let inactive = InactiveReceiver::from_port(recorder.other()?, memory);
    add(Ok(inactive), &mut handles.inactive)?;
    let mut held = Held::new(alloc, &mut makers);
    play_lines(Some(recorder), &mut handles, &mut held, script, output)
}

/// Plays the lines up to the next opening.
fn play_opening<S: Wait + Clock + RandomSource + AllocGlobal, W: Write>(
    rt: &S,
    alloc: Global,
    opening: Opening,
    script: &mut Script<'_>,
    output: &mut W,
) -> Result<Option<Opening>, Fault> {
    let tasks = tasks_of(rt, alloc)?;
    match opening {
        Opening::Channel(capacity, futures) => {
            let (sender, receiver) = broadcast(rt, alloc, capacity.max(1))?;
            play_handles(alloc, tasks, futures, sender, receiver, script, output)
        }
        Opening::Recorded => {
            let recorder = RecordingPort::new(alloc, true)?;
            play_recorded(&recorder, alloc, alloc, tasks, script, output)
        }
        Opening::WithoutMemory => {
            let recorder = RecordingPort::new(alloc, false)?;
            let heap = LocalHeap::new(alloc, 16)?;
            let _all = Vec::<u8, &LocalHeap>::with_capacity(&heap, heap.free())?;
            play_recorded(&recorder, alloc, &heap, tasks, script, output)
        }
    }
}

/// Plays all lines, as after `records` at first.
fn play_script<S: Wait + Clock + RandomSource + AllocGlobal, W: Write>(
    rt: &S,
    alloc: Global,
    script: &mut Script<'_>,
    output: &mut W,
) -> Result<(), Fault> {
    let mut next = Some(Opening::Recorded);
    for _ in 0..u64::MAX {
        match next {
            Some(opening) => next = play_opening(rt, alloc, opening, script, output)?,
            None => break,
        }
    }
    Ok(())
}

/// Plays the script `text`, and writes each line with what its call returned.
pub fn play<S: Wait + Clock + RandomSource + AllocGlobal, W: Write + Drop>(
    rt: &S,
    alloc: Global,
    text: &str,
    output: W,
) -> Ending {
    let Ok(mut output) = BufWriter::new(alloc, output) else {
        return Ending::NoMemory;
    };
    let lines = text.lines();
    let mut script = Script { lines, number: 0 };
    let ended = play_script(rt, alloc, &mut script, &mut output);
    match (output.flush(), ended) {
        (Err(_), _) | (_, Err(Fault::OutputFailed)) => Ending::OutputFailed,
        (_, Ok(())) => Ending::Done,
        (_, Err(Fault::NoMemory)) => Ending::NoMemory,
        (_, Err(Fault::NotACall)) => Ending::NotACall(script.number),
    }
}
