//! A message of a queue, with the count of its readers, which one call alone reads and changes.
ghost use Rattle.std.specs.Prelude.{◌≡◌, ◌+◌, ◌-◌, ◌<◌, ◌≤◌, ◌^◌, true};

use crate::Counter;

// A message, and how many readers read it next. Those that read a message next that is gone are
// counted at the first one.
#[derive(Drop)]
pub(crate) struct Entry<T> {
    pub(crate) message: T,
    next: usize,
}

impl<T> Entry<T> {
    // A message that so many readers read next.
    #[inline(always)]
    pub(crate) fn new(message: T, next: usize) -> Entry<T>
        ensures { result ≡ record { message = message; next = next } }
    {
        Entry { message, next }
    }

    // Counts so many readers more and fewer, and returns how many read the message next then. This
    // is one step: no other code can look at the count, since its field is private here.
    #[inline(always)]
    pub(crate) fn change<C: Counter>(&mut self, more: usize, fewer: usize, steps: &mut C) -> usize
        requires enough { fewer ≤ self.old.next }
        requires fits { self.old.next + more < 2 ^ 64 }
        ensures value { result ≡ self.old.next + more - fewer }
        ensures changed { self.new ≡ record self.old { next = result } }
        ensures counted { C.counts ≡ true → C.total steps.new ≡ C.total steps.old + 1 }
        ensures steps { C.total steps.new ≤ C.total steps.old + 1 }
    {
        steps.count();
        self.next = self.next + more - fewer;
        self.next
    }
}
