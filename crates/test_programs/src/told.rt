//! Traces played with notices that count how often they are called.
use bcast_core::{Inner, Notice, step};
use bcast_trace::line::{Line, read_line};
use bcast_trace::opening::read_opening;
use bcast_trace::reply::write_answer;
use std::alloc::Global;
use std::cell::Cell;
use std::io;
use std::io::Write;
use std::rc::Rc;

/// Counts how often it is called.
#[derive(Drop)]
struct Counted(Rc<Cell<u64>>);

impl Notice for Counted {
    fn tell(&mut self) {
        self.0.set(self.0.get().wrapping_add(1));
    }
}

/// Writes which lines' notices the call of this line called, each as often as it was called.
fn write_told(line: usize, counts: &[Rc<Cell<u64>>], output: &mut Vec<u8>) -> io::Result<()> {
    if counts.iter().all(|count| count.get() == 0) {
        return Ok(());
    }
    write!(output, "-- line {line} tells")?;
    for (index, count) in counts.iter().enumerate() {
        for _ in 0..count.replace(0) {
            write!(output, " {}", index.saturating_add(2))?;
        }
    }
    output.write_all(b"\n")
}

/// Plays a trace, each call with a notice of its own, and writes after which line the notices of
/// which lines were called. The lines of a trace are counted from 1.
///
/// `listed` is the trace without its views, as it is written when it is played without notices.
pub fn write_notices(
    alloc: Global,
    text: &str,
    listed: &[u8],
    output: &mut Vec<u8>,
) -> io::Result<()> {
    let (first, calls) = text.split_once('\n').unwrap_or((text, ""));
    let Some(opening) = read_opening(first) else {
        return output.write_all(b"-- no channel\n");
    };
    let (mut inner, _) = Inner::starting_at(alloc, opening.capacity, opening.first)?;
    let mut counts = Vec::new(alloc);
    let mut wrote = Vec::new(alloc);
    writeln!(&mut wrote, "{first}")?;
    for (index, line) in calls.lines().enumerate() {
        let count = Rc::new(alloc, Cell::new(0))?;
        let notice = Counted(count.clone()?);
        counts.push(count)?;
        if let Some(Line::Call(text, call)) = read_line(alloc, line)? {
            let reply = step(&mut inner, call, notice);
            write_answer(text, &reply, &mut wrote)?;
        }
        write_told(index.saturating_add(2), counts.as_slice(), output)?;
    }
    if wrote.as_slice() != listed {
        output.write_all(b"-- other replies with notices\n")?;
    }
    Ok(())
}
