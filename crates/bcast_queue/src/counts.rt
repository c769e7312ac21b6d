//! How many owing readers read each message next.
ghost use Rattle.std.specs.Prelude.{◌≡◌, ◌+◌, ◌-◌, ◌<◌, ◌≤◌, ◌^◌, ◌==◌, drop, sum, length};
ghost use Rattle.std.specs.Prelude.{slice_index, slice_set};
ghost use Rattle.std.specs.List.{prefix_len};
ghost use Rattle.bcast_queue.specs.Entries.{counts, messages, owed_by, more_from};

use crate::Counter;
use crate::entry::Entry;
use circular_buffer::HeapCircularBuffer;
use std::alloc::Allocator;

// Changes how many read the message at `index` next, and returns how many that are then. This is
// one step.
#[inline(always)]
#[tactic(auto, using(crate::proofs::Entries::changed_count))]
pub(crate) fn change_at<T, A: Allocator, C: Counter>(
    ring: &mut HeapCircularBuffer<Entry<T>, A>,
    index: usize,
    more: usize,
    fewer: usize,
    steps: &mut C,
) -> usize
    requires within { index < length ring.old.items }
    requires enough { fewer ≤ slice_index (counts ring.old) index }
    requires fits { slice_index (counts ring.old) index + more < 2 ^ 64 }
    ensures value { result ≡ slice_index (counts ring.old) index + more - fewer }
    ensures counts { counts ring.new ≡ slice_set (counts ring.old) index result }
    ensures messages { messages ring.new ≡ messages ring.old }
    ensures capacity { ring.new.capacity ≡ ring.old.capacity }
    ensures steps { C.total steps.new ≤ C.total steps.old + 1 }
{
    let Some(entry) = ring.get_mut(index) else {
        unreachable!()
    };
    entry.change(more, fewer, steps)
}

// Adds readers, who are in the total already, at the message at `index`. If there are not so many,
// they owe nothing, and leave the total.
#[inline(always)]
#[tactic(auto, using(crate::proofs::OwedBy::added_readers))]
pub(crate) fn add_readers<T, A: Allocator, C: Counter>(
    ring: &mut HeapCircularBuffer<Entry<T>, A>,
    total: &mut usize,
    index: usize,
    readers: usize,
    steps: &mut C,
)
    requires summed { total.old ≡ sum (counts ring.old) + readers }
    requires fits { total.old < 2 ^ 64 }
    ensures owed { owed_by 0 (counts ring.new)
        ≡ more_from readers index (owed_by 0 (counts ring.old)) }
    ensures summed { total.new ≡ sum (counts ring.new) }
    ensures messages { messages ring.new ≡ messages ring.old }
    ensures capacity { ring.new.capacity ≡ ring.old.capacity }
    ensures steps { C.total steps.new ≤ C.total steps.old + 1 }
{
    if index < ring.len() {
        change_at(ring, index, readers, 0, steps);
    } else {
        *total -= readers;
    }
}

// Drops the messages at the front that no reader reads next. `next` is how many read the first
// message next.
pub(crate) fn drop_unowed<T: Drop, A: Allocator, C: Counter>(
    ring: &mut HeapCircularBuffer<Entry<T>, A>,
    front: &mut u64,
    next: usize,
    steps: &mut C,
)
    requires some { 0 < length ring.old.items }
    requires next { next ≡ slice_index (counts ring.old) 0 }
    requires numbered { front.old + length ring.old.items < 2 ^ 64 }
    requires fits { sum (counts ring.old) < 2 ^ 64 }
    ensures messages { messages ring.new
        ≡ drop (prefix_len (λ n. n == 0) (counts ring.old)) (messages ring.old) }
    ensures counts { counts ring.new
        ≡ drop (prefix_len (λ n. n == 0) (counts ring.old)) (counts ring.old) }
    ensures front { front.new ≡ front.old + prefix_len (λ n. n == 0) (counts ring.old) }
    ensures numbered { front.new + length ring.new.items < 2 ^ 64 }
    ensures capacity { ring.new.capacity ≡ ring.old.capacity }
    ensures steps { C.total steps.new + length ring.new.items
        ≤ C.total steps.old + length ring.old.items }
{
    let mut next = next;
    while next == 0 {
        ring.pop_front();
        *front += 1;
        if ring.is_empty() {
            return;
        }
        next = change_at(ring, 0, 0, 0, steps);
    }
}
