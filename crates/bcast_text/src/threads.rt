//! Runs of threads: whether all receivers saw one order, what is printed, and how the run ends.
ghost use Rattle.std.specs.Prelude.{◌≡◌, ◌≢◌, ◌↔◌, ◌⊎◌, ◌<◌, ℕ, IfOk, IsTrue, OnOk, map, length, All, Contains, true, slice_set};
ghost use Rattle.std.specs.Io.KnownBytes.{Appends};
ghost use Rattle.bcast_text.specs.Order.{HoldsEachOnce, IsOneOrder, IsMarked};
ghost use Rattle.bcast_text.specs.Outcome.{outcome_text, printed_text, IsEnding};

use crate::ending::Ending;
use std::alloc::{AllocError, Global};
use std::io;
use std::io::Write;

/// Prints whether all lists are one order of the `total` numbers, and returns how the run ends.
pub fn print_seen<W: Write>(alloc: Global, lists: &[Vec<u64>], total: u64, output: &mut W) -> Ending
    ensures ending { IsEnding result }
    ensures done { result ≡ Ending.Done → IsOneOrder (map (λ list. list.items) lists.now) total }
    ensures differ { result ≡ Ending.Differ
        → IsOneOrder (map (λ list. list.items) lists.now) total → ⊥ }
    ensures text { result ≢ Ending.OutputFailed → Appends (W.contents output.old)
        (W.contents output.new) (printed_text result (length lists.now) total) }
{
    let Ok(is_one_order) = is_one_order(alloc, lists, total as usize) else {
        return Ending::NoMemory;
    };
    if write_outcome(is_one_order, lists.len() as u64, total, output).is_err() {
        return Ending::OutputFailed;
    }
    if is_one_order {
        return Ending::Done;
    }
    Ending::Differ
}

fn write_outcome<W: Write>(
    is_one_order: bool,
    receivers: u64,
    messages: u64,
    output: &mut W,
) -> io::Result<()>
    ensures { OnOk result (Appends (W.contents output.old) (W.contents output.new)
        (outcome_text is_one_order receivers messages)) }
{
    if is_one_order {
        writeln!(
            output,
            "{receivers} receivers, {messages} messages each, one order"
        )?;
        return output.flush();
    }
    output.write_all(b"orders differ\n")?;
    output.flush()
}

/// Whether all lists are equal, and hold each number below `count` once.
///
/// Takes memory for a mark for each number.
pub fn is_one_order(alloc: Global, lists: &[Vec<u64>], count: usize) -> Result<bool, AllocError>
    ensures { IfOk result (λ answer. IsTrue answer
        ↔ IsOneOrder (map (λ list. list.items) lists.now) count) }
{
    let Some((first, others)) = lists.split_first() else {
        return Ok(false);
    };
    if !are_equal_to(first, others) {
        return Ok(false);
    }
    holds_each_once(alloc, first.as_slice(), count)
}

fn are_equal_to(first: &Vec<u64>, others: &[Vec<u64>]) -> bool
    ensures { IsTrue result ↔ All (λ list. list.items ≡ first.now.items) others.now }
{
    others.iter().all(|list| list == first)
}

fn holds_each_once(alloc: Global, list: &[u64], count: usize) -> Result<bool, AllocError>
    ensures { IfOk result (λ answer. IsTrue answer ↔ HoldsEachOnce list.now count) }
{
    if list.len() != count {
        return Ok(false);
    }
    let mut held = vec![in alloc; false; count]?;
    mark_all(list, held.as_mut_slice());
    Ok(are_marked(held.as_slice()))
}

/// Marks the place of each number in the list.
fn mark_all(list: &[u64], held: &mut [bool])
    ensures length { length held.new ≡ length held.old }
    ensures marked { (n : ℕ) → n < length held.old
        → (IsMarked held.new n ↔ (IsMarked held.old n ⊎ Contains list.now n)) }
{
    for number in list {
        mark(held, *number as usize);
    }
}

#[tactic(auto, using(std::proofs::lemmas::List::set_past))]
fn mark(held: &mut [bool], number: usize)
    ensures { held.new ≡ slice_set held.old number true }
{
    if number >= held.len() {
        return;
    }
    held[number] = true;
}

fn are_marked(held: &[bool]) -> bool
    ensures { IsTrue result ↔ All (λ is_held. is_held ≡ true) held.now }
{
    held.iter().all(|is_held| *is_held)
}
