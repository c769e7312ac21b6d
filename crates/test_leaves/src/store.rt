//! A store beside a plain one: each call is made on both, if it is allowed.
use bcast_store::Store;
use plain::Plain;
use std::alloc::{AllocError, Allocator, Global};

mod batches;
mod compared;
mod plain;
mod refused;
mod rows;

// A call. A receiver is named by its index among those that there are, modulo their count.
#[derive(Clone, Copy)]
enum Call {
    Push(u8),
    Pop,
    DropFirst,
    Grow,
    Add(u64),
    AddLike(usize),
    AddAtEnd,
    Remove(usize),
    Skip(usize),
    Read(usize),
}

// A store and a plain one, and the keys of the store's receivers in the order of the plain one's.
// A call that is not allowed, as a push to a full store, does nothing.
#[derive(Drop)]
struct Both {
    store: Store<u8>,
    keys: Vec<usize>,
    plain: Plain,
}

impl Both {
    // Makes a call on both. Returns the message that the plain store returns, and whether the store
    // returns what it must, and has the same messages and receivers then.
    fn make(&mut self, alloc: Global, call: Call) -> Result<(Option<u8>, bool), AllocError> {
        let (mut given, mut plainly, mut is_right) = (None, None, true);
        match call {
            Call::Push(msg) => {
                push(&mut self.store, msg);
                self.plain.push(msg)?;
            }
            Call::Pop => (given, plainly) = (self.store.pop(), self.plain.pop()),
            Call::DropFirst => self.drop_first(),
            Call::Grow => self.grow()?,
            Call::Add(cursor) => self.add(cursor)?,
            Call::AddLike(receiver) => {
                if let Some(cursor) = self.cursor(receiver) {
                    self.add(cursor)?;
                }
            }
            Call::AddAtEnd => {
                let end = self.end();
                self.add(end)?;
            }
            Call::Remove(receiver) => is_right = self.remove(self.index(receiver)),
            Call::Skip(receiver) => self.skip(self.index(receiver)),
            Call::Read(receiver) => (given, plainly) = self.read(self.index(receiver))?,
        }
        Ok((
            plainly,
            is_right && given == plainly && self.are_same(alloc)?,
        ))
    }

    fn index(&self, receiver: usize) -> usize {
        receiver.checked_rem(self.keys.len()).unwrap_or(0)
    }

    fn cursor(&self, receiver: usize) -> Option<u64> {
        self.plain.cursor(self.index(receiver))
    }

    fn end(&self) -> u64 {
        self.plain.end()
    }

    fn drop_first(&mut self) {
        if self.store.len() > 0 {
            self.store.drop_first(1);
        }
        self.plain.pop();
    }

    fn grow(&mut self) -> Result<(), AllocError> {
        let room = self.store.room();
        if room < 4 {
            self.store.grow(room + 1)?;
        }
        self.plain.grow();
        Ok(())
    }

    fn add(&mut self, cursor: u64) -> Result<(), AllocError> {
        if cursor <= self.store.end() {
            self.keys.push(self.store.add(cursor)?)?;
        }
        self.plain.add(cursor)
    }

    // Takes a receiver out, and returns whether its key had a receiver before, and has none then.
    fn remove(&mut self, index: usize) -> bool {
        if index >= self.keys.len() {
            return true;
        }
        self.plain.remove(index);
        let key = self.keys.remove(index);
        self.store.remove(key) && !self.store.remove(key)
    }

    fn skip(&mut self, index: usize) {
        if let Some(key) = self.keys.get(index).copied()
            && let Some(cursor) = self.store.cursor(key)
            && cursor < self.store.front()
        {
            self.store.skip(key);
        }
        self.plain.skip(index);
    }

    fn read(&mut self, index: usize) -> Result<(Option<u8>, Option<u8>), AllocError> {
        let given = match self.keys.get(index).copied() {
            Some(key) => read(&mut self.store, key)?,
            None => None,
        };
        Ok((given, self.plain.read(index)))
    }

    // Whether the store has what the plain one has.
    fn are_same(&self, alloc: Global) -> Result<bool, AllocError> {
        let (store, plain) = (&self.store, &self.plain);
        let mut are = store.front() == plain.front && store.end() == plain.end();
        are &= store.len() == plain.messages.len() && store.room() == plain.room;
        are &= store.is_empty() == plain.messages.is_empty();
        are &= store.receivers() == plain.cursors.len();
        are &= store.has_no_receiver() == plain.cursors.is_empty();
        are &= self.keys.len() == plain.cursors.len();
        are &= store.cursors(alloc)?.len() == plain.cursors.len();
        for index in 0..5 {
            are &= store.get(index).copied() == plain.messages.get(index).copied();
        }
        for (key, cursor) in self.keys.iter().zip(plain.cursors.iter()) {
            are &= store.cursor(*key) == Some(*cursor);
        }
        Ok(are)
    }
}

// Both stores with this front, this much room, and a receiver.
fn new_both(alloc: Global, front: u64, room: usize) -> Result<Both, AllocError> {
    let (store, plain) = (
        Store::new(alloc, front, room.max(1))?,
        Plain::new(alloc, front, room),
    );
    let keys = Vec::new(alloc);
    let mut both = Both { store, keys, plain };
    both.add(front)?;
    Ok(both)
}

// Appends a message, if there is a receiver, room and a number for it.
fn push<T: Drop, A: Allocator + Copy>(store: &mut Store<T, A>, msg: T) {
    if !store.has_no_receiver() && store.len() < store.room() && store.end() < u64::MAX {
        store.push(msg);
    }
}

// What a receiver reads next: the first message, if it is behind. None: there is none for it.
fn read<T: Clone + Drop, A: Allocator + Copy>(
    store: &mut Store<T, A>,
    key: usize,
) -> Result<Option<T>, AllocError> {
    let Some(cursor) = store.cursor(key) else {
        return Ok(None);
    };
    let number = cursor.max(store.front());
    if number >= store.end() {
        return Ok(None);
    }
    Ok(Some(store.read(key, number)?))
}
