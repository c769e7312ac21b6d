//! A plain store: each call looks at every message and every receiver.
use std::alloc::{AllocError, Global};

// The store as a list of messages and a list of cursors. It has no counts and no contracts. A call
// that is not allowed does nothing.
#[derive(Drop)]
pub(super) struct Plain {
    // The number of the first message, or of the next one if there is none.
    pub(super) front: u64,
    // The messages that a receiver is still to read, in the order of sending.
    pub(super) messages: Vec<u8>,
    // The number that each receiver reads next, in the order in which they were added.
    pub(super) cursors: Vec<u64>,
    pub(super) room: usize,
}

impl Plain {
    // A store with no message and no receiver.
    pub(super) fn new(alloc: Global, front: u64, room: usize) -> Plain {
        let (messages, cursors) = (Vec::new(alloc), Vec::new(alloc));
        Plain {
            front,
            messages,
            cursors,
            room,
        }
    }

    // The number of the next message.
    pub(super) fn end(&self) -> u64 {
        self.front.wrapping_add(self.messages.len() as u64)
    }

    pub(super) fn cursor(&self, index: usize) -> Option<u64> {
        self.cursors.get(index).copied()
    }

    pub(super) fn push(&mut self, msg: u8) -> Result<(), AllocError> {
        let is_full = self.messages.len() >= self.room || self.end() == u64::MAX;
        if !is_full && !self.cursors.is_empty() {
            self.messages.push(msg)?;
        }
        Ok(())
    }

    pub(super) fn pop(&mut self) -> Option<u8> {
        if self.messages.is_empty() {
            return None;
        }
        self.front = self.front.wrapping_add(1);
        Some(self.messages.remove(0))
    }

    // Drops the messages that no receiver is still to read.
    fn drop_read(&mut self) {
        let mut least = self.end();
        for cursor in &self.cursors {
            least = least.min(*cursor);
        }
        for _message in self.front..least {
            self.pop();
        }
    }

    pub(super) fn grow(&mut self) {
        if self.room < 4 {
            self.room += 1;
        }
    }

    pub(super) fn add(&mut self, cursor: u64) -> Result<(), AllocError> {
        if cursor <= self.end() {
            self.cursors.push(cursor)?;
        }
        Ok(())
    }

    pub(super) fn remove(&mut self, index: usize) {
        if index < self.cursors.len() {
            self.cursors.remove(index);
        }
        self.drop_read();
    }

    pub(super) fn skip(&mut self, index: usize) {
        if let Some(cursor) = self.cursors.get_mut(index) {
            *cursor = (*cursor).max(self.front);
        }
    }

    pub(super) fn read(&mut self, index: usize) -> Option<u8> {
        let number = self.cursor(index)?.max(self.front);
        let offset = number.saturating_sub(self.front) as usize;
        let msg = self.messages.get(offset).copied()?;
        if let Some(cursor) = self.cursors.get_mut(index) {
            *cursor = number.wrapping_add(1);
        }
        self.drop_read();
        Some(msg)
    }
}
