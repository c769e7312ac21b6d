//! The view lines of a trace.
use bcast_core::{Kind, Snapshot};
use std::alloc::Allocator;
use std::io;
use std::io::Write;

/// Writes the view line of what `seen` holds.
pub fn write_view<B: Allocator, W: Write>(
    seen: &Snapshot<u64, B>,
    output: &mut W,
) -> io::Result<()> {
    write!(output, "= front={} end={} queue=[", seen.front, seen.end)?;
    for (index, msg) in seen.queue.as_slice().iter().enumerate() {
        write!(output, "{}{msg}", comma(index))?;
    }
    output.write_all(b"] C={")?;
    for (index, (key, cursor)) in seen.cursors.as_slice().iter().enumerate() {
        write!(output, "{}{key}:{cursor}", comma(index))?;
    }
    write!(output, "}} senders={}", seen.senders)?;
    write!(output, " inactive={}", seen.inactive)?;
    write!(output, " closed={} overflow={}", seen.closed, seen.overflow)?;
    write!(output, " await={}", seen.await_active)?;
    write!(output, " capacity={} room={}", seen.capacity, seen.room)?;
    write_waiting(seen, output)
}

/// The places of pending sends, the sends and the receivers that wait, and the end of the line.
fn write_waiting<B: Allocator, W: Write>(
    seen: &Snapshot<u64, B>,
    output: &mut W,
) -> io::Result<()> {
    output.write_all(b" S={")?;
    for (index, place) in seen.places.as_slice().iter().enumerate() {
        write!(output, "{}{place}", comma(index))?;
    }
    output.write_all(b"} WS=[")?;
    for (index, place) in seen.waiting_sends.ids.as_slice().iter().enumerate() {
        write!(output, "{}{place}", comma(index))?;
    }
    write!(output, "]/{} WR=[", seen.waiting_sends.told)?;
    for (index, (key, kind)) in seen.waiting_receives.ids.as_slice().iter().enumerate() {
        write!(output, "{}{key}{}", comma(index), letter(*kind))?;
    }
    writeln!(output, "]/{}", seen.waiting_receives.told)
}

/// A comma, but before the first of a list.
fn comma(index: usize) -> &'static str {
    if index == 0 { "" } else { "," }
}

/// The letter of a stream, or of a future.
fn letter(kind: Kind) -> &'static str {
    match kind {
        Kind::Stream => "s",
        Kind::Future => "f",
    }
}
