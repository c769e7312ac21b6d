//! Rows of calls on the queue, with who owes each message then, and the steps of the calls.
ghost use Rattle.std.specs.Prelude.{◌≡◌, ◌+◌, ◌≤◌, [], ◌∷◌, Ok};
ghost use Rattle.bcast_queue.specs.Queue.{queue_with};

use bcast_queue::{Counter, Queue, Uncounted};
use std::alloc::{AllocError, Global};
use std::marker::Model;
use std::test::Fail;

// A message that shows whether it is a copy. To a contract it is the letter.
#[derive(Drop)]
struct Letter {
    letter: u8,
    is_copy: bool,
}

impl Model for Letter {
    ghost use Rattle.std.specs.Prelude.{ℕ};

    ghost Value = { ℕ };

    ghost view = { λ l. l.letter };
}

impl Clone for Letter {
    ghost use Rattle.std.specs.Prelude.{◌≡◌, ⊤};

    ghost is_clone = { λ x y. y ≡ x };

    ghost is_infallible = { λ _. ⊤ };

    fn clone(&self) -> Result<Letter, AllocError> {
        let (letter, is_copy) = (self.letter, true);
        Ok(Letter { letter, is_copy })
    }
}

fn new_letter(letter: u8) -> Letter
    ensures { result ≡ letter }
{
    let is_copy = false;
    Letter { letter, is_copy }
}

// Whether it is a message of this letter itself, and no copy.
fn is_own(msg: &Letter, letter: u8) -> bool {
    msg.letter == letter && !msg.is_copy
}

// Whether the queue has this front, and the messages of these letters.
fn has(queue: &Queue<Letter>, front: u64, letters: &[u8]) -> bool {
    let mut has = queue.front() == front && queue.len() == letters.len();
    for (index, letter) in letters.iter().enumerate() {
        has &= queue.get(index).is_some_and(|msg| is_own(msg, *letter));
    }
    has
}

fn three_messages<C: Counter>(queue: &mut Queue<Letter>, steps: &mut C)
    requires { queue.old ≡ queue_with 0 [] [] 4 }
    ensures owed { queue.new ≡ queue_with 0 (97 ∷ 98 ∷ 99 ∷ []) (1 ∷ 2 ∷ 2 ∷ []) 4 }
    ensures steps { C.total steps.new ≤ C.total steps.old + 1 }
{
    queue.push(new_letter(b'a'), 1);
    queue.share(1, steps);
    queue.push(new_letter(b'b'), 2);
    queue.push(new_letter(b'c'), 2);
}

fn one_comes<C: Counter>(queue: &mut Queue<Letter>, steps: &mut C)
    requires { queue.old ≡ queue_with 0 (97 ∷ 98 ∷ 99 ∷ []) (1 ∷ 2 ∷ 2 ∷ []) 4 }
    ensures owed { queue.new ≡ queue_with 0 (97 ∷ 98 ∷ 99 ∷ []) (1 ∷ 3 ∷ 3 ∷ []) 4 }
    ensures steps { C.total steps.new ≤ C.total steps.old + 1 }
{
    queue.share(1, steps);
}

fn one_leaves<C: Counter>(queue: &mut Queue<Letter>, steps: &mut C)
    requires { queue.old ≡ queue_with 0 (97 ∷ 98 ∷ 99 ∷ []) (1 ∷ 3 ∷ 3 ∷ []) 4 }
    ensures owed { queue.new ≡ queue_with 0 (97 ∷ 98 ∷ 99 ∷ []) (1 ∷ 2 ∷ 2 ∷ []) 4 }
    ensures steps { C.total steps.new ≤ C.total steps.old + 1 }
{
    queue.leave(1, steps);
}

fn the_slow_one_leaves<C: Counter>(queue: &mut Queue<Letter>, steps: &mut C)
    requires { queue.old ≡ queue_with 0 (97 ∷ 98 ∷ 99 ∷ []) (1 ∷ 2 ∷ 2 ∷ []) 4 }
    ensures owed { queue.new ≡ queue_with 1 (98 ∷ 99 ∷ []) (1 ∷ 1 ∷ []) 4 }
    ensures steps { C.total steps.new ≤ C.total steps.old + 2 }
{
    queue.leave(0, steps);
}

fn the_last_leaves<C: Counter>(queue: &mut Queue<Letter>, steps: &mut C)
    requires { queue.old ≡ queue_with 1 (98 ∷ 99 ∷ []) (1 ∷ 1 ∷ []) 4 }
    ensures owed { queue.new ≡ queue_with 3 [] [] 4 }
    ensures steps { C.total steps.new ≤ C.total steps.old + 3 }
{
    queue.leave(0, steps);
}

fn one_is_popped(queue: &mut Queue<Letter>)
    requires { queue.old ≡ queue_with 3 [] [] 4 }
    ensures { queue.new ≡ queue_with 4 (101 ∷ []) (1 ∷ []) 4 }
{
    queue.push(new_letter(b'd'), 2);
    queue.pop(&mut Uncounted);
    queue.push(new_letter(b'e'), 1);
}

#[test]
fn readers_come_and_leave(rt: HostRuntime) -> Result<(), Fail> {
    let mut queue = Queue::new(rt.alloc(), 0, 4)?;
    three_messages(&mut queue, &mut Uncounted);
    assert!(rt; has(&queue, 0, b"abc"));
    one_comes(&mut queue, &mut Uncounted);
    assert!(rt; has(&queue, 0, b"abc"));
    one_leaves(&mut queue, &mut Uncounted);
    assert!(rt; has(&queue, 0, b"abc"));
    the_slow_one_leaves(&mut queue, &mut Uncounted);
    assert!(rt; has(&queue, 1, b"bc"));
    the_last_leaves(&mut queue, &mut Uncounted);
    assert!(rt; has(&queue, 3, b""));
    one_is_popped(&mut queue);
    assert!(rt; has(&queue, 4, b"e"));
    queue.leave(0, &mut Uncounted);
    assert!(rt; has(&queue, 5, b""));
    Ok(())
}

fn three_are_pushed(queue: &mut Queue<Letter>)
    requires { queue.old ≡ queue_with 0 [] [] 4 }
    ensures { queue.new ≡ queue_with 0 (97 ∷ 98 ∷ 99 ∷ []) (2 ∷ 2 ∷ 3 ∷ []) 4 }
{
    queue.push(new_letter(b'a'), 2);
    queue.push(new_letter(b'b'), 2);
    queue.push(new_letter(b'c'), 3);
}

fn one_passes_two<C: Counter>(queue: &mut Queue<Letter>, steps: &mut C)
    requires { queue.old ≡ queue_with 0 (97 ∷ 98 ∷ 99 ∷ []) (2 ∷ 2 ∷ 3 ∷ []) 4 }
    ensures owed { queue.new ≡ queue_with 0 (97 ∷ 98 ∷ 99 ∷ []) (1 ∷ 1 ∷ 3 ∷ []) 4 }
    ensures steps { C.total steps.new ≤ C.total steps.old + 2 }
{
    queue.pass(0, 2, steps);
}

fn it_passes_the_last<C: Counter>(queue: &mut Queue<Letter>, steps: &mut C)
    requires { queue.old ≡ queue_with 0 (97 ∷ 98 ∷ 99 ∷ []) (1 ∷ 1 ∷ 3 ∷ []) 4 }
    ensures owed { queue.new ≡ queue_with 0 (97 ∷ 98 ∷ 99 ∷ []) (1 ∷ 1 ∷ 2 ∷ []) 4 }
    ensures steps { C.total steps.new ≤ C.total steps.old + 2 }
{
    queue.pass(2, 1, steps);
}

fn it_passes_none_at_the_end<C: Counter>(queue: &mut Queue<Letter>, steps: &mut C)
    requires { queue.old ≡ queue_with 0 (97 ∷ 98 ∷ 99 ∷ []) (1 ∷ 1 ∷ 2 ∷ []) 4 }
    ensures { queue.new ≡ queue.old }
{
    queue.pass(3, 0, steps);
}

fn the_two_others_leave(queue: &mut Queue<Letter>)
    requires { queue.old ≡ queue_with 0 (97 ∷ 98 ∷ 99 ∷ []) (1 ∷ 1 ∷ 2 ∷ []) 4 }
    ensures { queue.new ≡ queue_with 2 (99 ∷ []) (1 ∷ []) 4 }
{
    queue.leave(0, &mut Uncounted);
}

#[test]
fn a_reader_passes_what_others_owe(rt: HostRuntime) -> Result<(), Fail> {
    let mut queue = Queue::new(rt.alloc(), 0, 4)?;
    three_are_pushed(&mut queue);
    assert!(rt; has(&queue, 0, b"abc"));
    one_passes_two(&mut queue, &mut Uncounted);
    assert!(rt; has(&queue, 0, b"abc"));
    it_passes_the_last(&mut queue, &mut Uncounted);
    it_passes_none_at_the_end(&mut queue, &mut Uncounted);
    assert!(rt; has(&queue, 0, b"abc"));
    the_two_others_leave(&mut queue);
    assert!(rt; has(&queue, 2, b"c"));
    queue.leave(0, &mut Uncounted);
    assert!(rt; has(&queue, 3, b""));
    Ok(())
}

// Takes out what one reader alone owes of the first `count` messages. Returns whether these are the
// letters, and what stays has this front and the other letters.
fn takes(
    queue: &mut Queue<Letter>,
    alloc: Global,
    count: usize,
    letters: &[u8],
    front: u64,
    others: &[u8],
) -> bool {
    let Ok(mut msgs) = Vec::with_capacity(alloc, count) else {
        return false;
    };
    if count <= queue.len() {
        queue.take_own(0, count, &mut msgs, &mut Uncounted);
    }
    let mut are = msgs.len() == letters.len() && has(queue, front, others);
    for (msg, letter) in msgs.iter().zip(letters) {
        are &= is_own(msg, *letter);
    }
    are
}

#[test]
fn what_one_reader_owes_is_taken_out(rt: HostRuntime) -> Result<(), Fail> {
    let mut queue = Queue::new(rt.alloc(), 0, 4)?;
    queue.push(new_letter(b'a'), 1);
    queue.push(new_letter(b'b'), 1);
    queue.push(new_letter(b'c'), 3);
    assert!(rt; takes(&mut queue, rt.alloc(), 0, b"", 0, b"abc"));
    assert!(rt; takes(&mut queue, rt.alloc(), 1, b"a", 1, b"bc"));
    assert!(rt; takes(&mut queue, rt.alloc(), 2, b"b", 2, b"c"));
    assert!(rt; takes(&mut queue, rt.alloc(), 1, b"", 2, b"c"));
    let mut queue = Queue::new(rt.alloc(), 0, 4)?;
    three_are_pushed(&mut queue);
    assert!(rt; takes(&mut queue, rt.alloc(), 3, b"", 0, b"abc"));
    Ok(())
}

fn two_are_pushed(queue: &mut Queue<Letter>)
    requires { queue.old ≡ queue_with 0 [] [] 3 }
    ensures { queue.new ≡ queue_with 0 (97 ∷ 98 ∷ []) (2 ∷ 2 ∷ []) 3 }
{
    queue.push(new_letter(b'a'), 2);
    queue.push(new_letter(b'b'), 2);
}

fn one_reads(queue: &mut Queue<Letter>) -> Result<Letter, AllocError>
    requires { queue.old ≡ queue_with 0 (97 ∷ 98 ∷ []) (2 ∷ 2 ∷ []) 3 }
    ensures answer { result ≡ Ok 97 }
    ensures owed { queue.new ≡ queue_with 0 (97 ∷ 98 ∷ []) (1 ∷ 2 ∷ []) 3 }
{
    queue.read(0, &mut Uncounted)
}

fn the_other_reads(queue: &mut Queue<Letter>) -> Result<Letter, AllocError>
    requires { queue.old ≡ queue_with 0 (97 ∷ 98 ∷ []) (1 ∷ 2 ∷ []) 3 }
    ensures answer { result ≡ Ok 97 }
    ensures owed { queue.new ≡ queue_with 1 (98 ∷ []) (2 ∷ []) 3 }
{
    queue.read(0, &mut Uncounted)
}

fn a_third_comes(queue: &mut Queue<Letter>)
    requires { queue.old ≡ queue_with 1 (98 ∷ []) (2 ∷ []) 3 }
    ensures { queue.new ≡ queue_with 1 (98 ∷ []) (3 ∷ []) 3 }
{
    queue.share(0, &mut Uncounted);
}

fn one_of_three_leaves(queue: &mut Queue<Letter>)
    requires { queue.old ≡ queue_with 1 (98 ∷ []) (3 ∷ []) 3 }
    ensures { queue.new ≡ queue_with 1 (98 ∷ []) (2 ∷ []) 3 }
{
    queue.leave(0, &mut Uncounted);
}

fn one_of_two_leaves(queue: &mut Queue<Letter>)
    requires { queue.old ≡ queue_with 1 (98 ∷ []) (2 ∷ []) 3 }
    ensures { queue.new ≡ queue_with 1 (98 ∷ []) (1 ∷ []) 3 }
{
    queue.leave(0, &mut Uncounted);
}

fn the_last_of_three_leaves(queue: &mut Queue<Letter>)
    requires { queue.old ≡ queue_with 1 (98 ∷ []) (1 ∷ []) 3 }
    ensures { queue.new ≡ queue_with 2 [] [] 3 }
{
    queue.leave(0, &mut Uncounted);
}

#[test]
fn two_read_and_a_third_comes(rt: HostRuntime) -> Result<(), Fail> {
    let mut queue = Queue::new(rt.alloc(), 0, 3)?;
    two_are_pushed(&mut queue);
    assert!(rt; has(&queue, 0, b"ab"));
    let msg = one_reads(&mut queue)?;
    assert!(rt; msg.letter == b'a' && msg.is_copy && has(&queue, 0, b"ab"));
    let msg = the_other_reads(&mut queue)?;
    assert!(rt; is_own(&msg, b'a') && has(&queue, 1, b"b"));
    a_third_comes(&mut queue);
    assert!(rt; has(&queue, 1, b"b"));
    one_of_three_leaves(&mut queue);
    assert!(rt; has(&queue, 1, b"b"));
    one_of_two_leaves(&mut queue);
    assert!(rt; has(&queue, 1, b"b"));
    the_last_of_three_leaves(&mut queue);
    assert!(rt; has(&queue, 2, b""));
    Ok(())
}
