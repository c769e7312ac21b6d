//! Traces played on a channel that is short of memory, and on one that isn't.
ghost use Rattle.std.specs.Prelude.{IfOk, IfSome};
ghost use Rattle.bcast_model.specs.Next.{HasPositiveCapacity};

use crate::lock_rows::seen::accessors_of_inner;
use bcast_core::{Call, HandleError, Inner, Messages, Reply, Silent, step};
use bcast_trace::line::{Line, read_line};
use bcast_trace::opening::read_opening;
use linked_list_allocator::LocalHeap;
use std::alloc::{AllocError, Global};
use std::io;
use std::io::Write;

/// The bytes of the heap of a channel that is short of memory.
const HEAP: usize = 1 << 14;

/// The sizes of blocks that fill a heap.
const BLOCKS: [usize; 8] = [4096, 1024, 512, 256, 128, 64, 32, 16];

/// A message whose clone takes memory: a number, three times.
type Heavy<'a> = Vec<u64, &'a LocalHeap>;

fn heavy(heap: &LocalHeap, number: u64) -> Result<Heavy<'_>, AllocError> {
    Vec::from_slice(heap, &[number, number, number])
}

/// The call with messages whose memory is of the heap. None: it is an accessor.
///
/// A list itself takes its memory from `alloc`.
fn with_memory<'a>(
    alloc: Global,
    heap: &'a LocalHeap,
    call: &Call<u64>,
) -> Result<Option<Call<Heavy<'a>>>, AllocError>
    requires { HasPositiveCapacity call.now }
    ensures { IfOk result (λ made. IfSome made HasPositiveCapacity) }
{
    match call {
        Call::TryBroadcast(number) => Ok(Some(Call::TryBroadcast(heavy(heap, *number)?))),
        Call::TryBroadcastAll(numbers) => {
            let mut msgs = Vec::new(alloc);
            for number in numbers.as_slice() {
                msgs.push(heavy(heap, *number)?)?;
            }
            Ok(Some(Call::TryBroadcastAll(Messages::new(msgs))))
        }
        Call::AttemptSend(number) => Ok(Some(Call::AttemptSend(heavy(heap, *number)?))),
        Call::PollSend(place, number) => Ok(Some(Call::PollSend(*place, heavy(heap, *number)?))),
        Call::BeginSend => Ok(Some(Call::BeginSend)),
        Call::EndSend(place) => Ok(Some(Call::EndSend(*place))),
        Call::TryRecv(key) => Ok(Some(Call::TryRecv(*key))),
        Call::PollFuture(key) => Ok(Some(Call::PollFuture(*key))),
        Call::EndFuture(key) => Ok(Some(Call::EndFuture(*key))),
        Call::PollRecv(key) => Ok(Some(Call::PollRecv(*key))),
        Call::PollNext(key) => Ok(Some(Call::PollNext(*key))),
        Call::Close => Ok(Some(Call::Close)),
        Call::SetCapacity(capacity) => Ok(Some(Call::SetCapacity(*capacity))),
        Call::SetOverflow(on) => Ok(Some(Call::SetOverflow(*on))),
        Call::SetAwaitActive(on) => Ok(Some(Call::SetAwaitActive(*on))),
        Call::NewSender => Ok(Some(Call::NewSender)),
        Call::CloneInactive => Ok(Some(Call::CloneInactive)),
        Call::Deactivate(key) => Ok(Some(Call::Deactivate(*key))),
        Call::NewReceiver => Ok(Some(Call::NewReceiver)),
        Call::Activate => Ok(Some(Call::Activate)),
        Call::ActivateCloned => Ok(Some(Call::ActivateCloned)),
        Call::CloneReceiver(key) => Ok(Some(Call::CloneReceiver(*key))),
        Call::DropSender => Ok(Some(Call::DropSender)),
        Call::DropInactive => Ok(Some(Call::DropInactive)),
        Call::DropReceiver(key) => Ok(Some(Call::DropReceiver(*key))),
        _ => Ok(None),
    }
}

/// Whether a call was refused memory.
fn is_refused(reply: &Reply<Heavy<'_>>) -> bool {
    matches!(
        reply,
        Reply::BeginSend(Err(_))
            | Reply::TryRecv(Err(_))
            | Reply::PollFuture(Err(_))
            | Reply::PollRecv(Err(_))
            | Reply::PollNext(Err(_))
            | Reply::SetCapacity(Err(_))
            | Reply::NewReceiver(Err(HandleError::Memory))
            | Reply::Activate(Err(HandleError::Memory))
            | Reply::ActivateCloned(Err(HandleError::Memory))
            | Reply::CloneReceiver(Err(HandleError::Memory))
    )
}

/// A block of a heap, which only keeps others from having it.
type Block<'a> = Vec<u8, &'a LocalHeap>;

/// Takes all memory of the heap except `left` bytes.
fn fill<'a>(alloc: Global, heap: &'a LocalHeap, left: usize) -> Result<Vec<Block<'a>>, AllocError> {
    let _kept = Vec::<u8, &LocalHeap>::with_capacity(heap, left)?;
    let mut taken = Vec::new(alloc);
    for size in BLOCKS {
        for _ in 0..HEAP {
            let Ok(block) = Vec::<u8, &LocalHeap>::with_capacity(heap, size) else {
                break;
            };
            taken.push(block)?;
        }
    }
    Ok(taken)
}

/// A channel on a heap, and one that always has memory.
#[derive(Drop)]
struct Pair<'a> {
    heap: &'a LocalHeap,
    ample: &'a LocalHeap,
    short: Inner<Heavy<'a>, Silent, &'a LocalHeap>,
    other: Inner<Heavy<'a>, Silent>,
}

impl Pair<'_> {
    /// Makes a call with `left` bytes of memory, and again with more of it if it was refused.
    ///
    /// Returns whether it was refused. None: it was refused and changed something, or its reply was
    /// not the one that it has with memory.
    fn make(
        &mut self,
        alloc: Global,
        left: usize,
        call: Call<u64>,
    ) -> Result<Option<bool>, AllocError>
        requires { HasPositiveCapacity call }
    {
        let Some(wanted) = with_memory(alloc, self.ample, &call)? else {
            return Ok(Some(false));
        };
        let (Some(first), Some(again)) = (
            with_memory(alloc, self.heap, &call)?,
            with_memory(alloc, self.heap, &call)?,
        ) else {
            return Ok(None);
        };
        let taken = fill(alloc, self.heap, left)?;
        let reply = step(&mut self.short, first, Silent);
        let is_unchanged = accessors_of_inner(&self.short) == accessors_of_inner(&self.other);
        drop(taken);
        let wanted = step(&mut self.other, wanted, Silent);
        if reply == wanted {
            return Ok(Some(false));
        }
        if !is_refused(&reply) || !is_unchanged {
            return Ok(None);
        }
        let is_right = step(&mut self.short, again, Silent) == wanted;
        Ok(is_right.then_some(true))
    }

    /// Makes the calls of lines. The first of them is line 2 of its trace.
    fn play(
        &mut self,
        alloc: Global,
        calls: &str,
        left: usize,
        output: &mut Vec<u8>,
    ) -> io::Result<Option<Vec<usize>>> {
        let mut refused = Vec::new(alloc);
        for (index, line) in calls.lines().enumerate() {
            let Some(Line::Call(_, call)) = read_line(alloc, line)? else {
                continue;
            };
            let number = index.saturating_add(2);
            match self.make(alloc, left, call)? {
                Some(true) => refused.push(number)?,
                Some(false) => {}
                None => {
                    writeln!(output, "-- short of memory, line {number} is wrong")?;
                    return Ok(None);
                }
            }
        }
        Ok(Some(refused))
    }
}

/// Plays the calls of a trace, each with `left` bytes of memory at first.
///
/// Returns the lines whose calls were refused, changed nothing, and had the right reply when they
/// were made again. None: a call had another reply, or changed something, and its line was written.
fn play(
    alloc: Global,
    text: &str,
    left: usize,
    output: &mut Vec<u8>,
) -> io::Result<Option<Vec<usize>>> {
    let (first, calls) = text.split_once('\n').unwrap_or((text, ""));
    let Some(opening) = read_opening(first) else {
        output.write_all(b"-- short of memory, no channel\n")?;
        return Ok(None);
    };
    let heap = LocalHeap::new(alloc, HEAP)?;
    let ample = LocalHeap::new(alloc, HEAP)?;
    let (short, _) = Inner::starting_at(&heap, opening.capacity, opening.first)?;
    let (other, _) = Inner::starting_at(alloc, opening.capacity, opening.first)?;
    let mut pair = Pair {
        heap: &heap,
        ample: &ample,
        short,
        other,
    };
    pair.play(alloc, calls, left, output)
}

/// Plays the calls of a trace with more and more memory until none is refused. Writes the lines
/// whose calls are refused if there is none, and what is wrong.
pub fn write_refused(alloc: Global, text: &str, output: &mut Vec<u8>) -> io::Result<()> {
    for count in 0..HEAP / 32 {
        let Some(lines) = play(alloc, text, count * 16, output)? else {
            return Ok(());
        };
        if count == 0 {
            write_lines(lines.as_slice(), output)?;
        }
        if lines.is_empty() {
            return Ok(());
        }
    }
    output.write_all(b"-- memory is refused for ever\n")
}

/// Writes which lines' calls were refused, and made again.
fn write_lines(lines: &[usize], output: &mut Vec<u8>) -> io::Result<()> {
    if lines.is_empty() {
        return output.write_all(b"-- memory: none is taken\n");
    }
    output.write_all(b"-- memory: refused, and made again, in lines")?;
    for line in lines {
        write!(output, " {line}")?;
    }
    output.write_all(b"\n")
}
