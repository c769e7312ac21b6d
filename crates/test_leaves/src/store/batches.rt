//! Rows of two receivers that are given several messages at once, themselves or as clones.
use super::push;
use bcast_store::Store;
use std::alloc::{AllocError, Global};
use std::test::Fail;

// A message that shows whether it is a clone. No clone is made of the letter x.
#[derive(Drop)]
struct Letter {
    letter: u8,
    is_clone: bool,
}

impl Clone for Letter {
    fn clone(&self) -> Result<Letter, AllocError> {
        if self.letter == b'x' {
            return Err(AllocError);
        }
        Ok(Letter {
            letter: self.letter,
            is_clone: true,
        })
    }
}

// The name of a row, the receiver, how many messages it asks for; then the letters that it is
// given, themselves and as clones, the cursors of both receivers, and the front.
type Row = (
    &'static str,
    usize,
    usize,
    &'static [u8],
    &'static [u8],
    [u64; 2],
    u64,
);

const ALL_GIVEN: &[Row] = &[
    ("none", 0, 0, b"", b"", [7, 7], 7),
    ("two clones", 0, 2, b"", b"ab", [9, 7], 7),
    ("not past the end", 0, 3, b"", b"", [9, 7], 7),
    ("two of its own, two clones", 1, 4, b"ab", b"cd", [9, 11], 9),
    ("none at the end", 1, 0, b"", b"", [9, 11], 9),
    ("one of its own", 0, 1, b"c", b"", [10, 11], 10),
    ("the last", 0, 1, b"d", b"", [11, 11], 11),
];

const ONE_REFUSED: &[Row] = &[
    ("the clones before it", 1, 4, b"", b"ab", [7, 9], 7),
    ("none", 1, 2, b"", b"", [7, 9], 7),
    ("its own before it", 0, 4, b"ab", b"", [9, 9], 9),
    ("none, and it stays", 0, 2, b"", b"", [9, 9], 9),
];

// What a receiver is given for so many messages at its cursor: none if there are not so many.
fn given(
    store: &mut Store<Letter>,
    alloc: Global,
    key: usize,
    count: usize,
) -> Result<Vec<Letter>, AllocError> {
    let mut msgs = Vec::with_capacity(alloc, count)?;
    if let Some(number) = store.cursor(key)
        && number >= store.front()
        && number <= store.end()
        && count as u64 <= store.end() - number
    {
        store.read_many(key, number, count, &mut msgs);
    }
    Ok(msgs)
}

// Whether a message is the letter's own, or a clone.
fn is(msg: Option<&Letter>, letter: u8, is_clone: bool) -> bool {
    msg.is_some_and(|msg| msg.letter == letter && msg.is_clone == is_clone)
}

// Whether a row's call gives what it says, and leaves that: of the letters from the number 7 on
// those from its front on, which are no clones.
fn is_right(
    store: &mut Store<Letter>,
    alloc: Global,
    keys: [usize; 2],
    letters: &[u8],
    row: &Row,
) -> Result<bool, AllocError> {
    let (_name, receiver, count, own, cloned, cursors, front) = row;
    let given = given(store, alloc, keys[*receiver % 2], *count)?;
    let is_whole = given.len().checked_sub(own.len()) == Some(cloned.len());
    let mut is_right = is_whole && store.front() == *front;
    for (index, letter) in own.iter().chain(cloned.iter()).enumerate() {
        is_right &= is(given.get(index), *letter, index >= own.len());
    }
    let gone = front.saturating_sub(7) as usize;
    is_right &= store.len() == letters.len().saturating_sub(gone);
    for (index, letter) in letters.iter().skip(gone).enumerate() {
        is_right &= is(store.get(index), *letter, false);
    }
    Ok(is_right && keys.map(|key| store.cursor(key)) == [Some(cursors[0]), Some(cursors[1])])
}

// Makes the calls of a table on a store with two receivers and these messages, and returns the name
// of the first row that gives or leaves something else.
fn first_wrong(
    alloc: Global,
    letters: &[u8],
    rows: &[Row],
) -> Result<Option<&'static str>, AllocError> {
    let mut store = Store::new(alloc, 7, 4)?;
    let keys = [store.add(7)?, store.add(7)?];
    let is_clone = false;
    for letter in letters.iter().copied() {
        push(&mut store, Letter { letter, is_clone });
    }
    for row in rows {
        if !is_right(&mut store, alloc, keys, letters, row)? {
            return Ok(Some(row.0));
        }
    }
    Ok(None)
}

#[test]
fn a_batch_gives_what_is_there_until_a_clone_is_refused(rt: HostRuntime) -> Result<(), Fail> {
    for (letters, rows) in [(b"abcd", ALL_GIVEN), (b"abxd", ONE_REFUSED)] {
        assert_eq!(rt; first_wrong(rt.alloc(), letters, rows)?, None);
    }
    Ok(())
}
