//! The calls that take memory, made while it is refused. Messages take memory too.
use super::{push, read};
use bcast_store::Store;
use linked_list_allocator::LocalHeap;
use std::alloc::{AllocError, Allocator};
use std::process::Abort;
use std::test::Fail;

type Texts<A> = Store<String<A>, A>;

const TEXT: &str = "a message of some length";

// Adds a receiver with this cursor, which is not past the end.
fn add<T: Drop, A: Allocator + Copy>(
    store: &mut Store<T, A>,
    cursor: u64,
) -> Result<usize, AllocError> {
    store.add(cursor.min(store.end()))
}

// A store with room for one message, and the key of its receiver.
fn with_receiver<A: Allocator + Copy>(alloc: A) -> Result<(Texts<A>, usize), AllocError> {
    let mut store = Store::new(alloc, 7, 1)?;
    let key = add(&mut store, 7)?;
    Ok((store, key))
}

// Whether more room was refused, if the room is as great as it must be then.
fn grow<A: Allocator + Copy>(store: &mut Texts<A>) -> Option<bool> {
    if store.room() > 9 {
        return None;
    }
    let is_refused = store.grow(9).is_err();
    let room = if is_refused { 1 } else { 9 };
    (store.room() == room).then_some(is_refused)
}

// Whether a receiver is given a message, and it is whole. None: it is given none.
fn reads<A: Allocator + Copy>(store: &mut Texts<A>, key: usize) -> Option<bool> {
    let msg = read(store, key).ok()??;
    Some(msg.as_str() == TEXT)
}

// Two receivers read a message, with what memory there is; a failure prints `size`. Returns whether
// there was some for more room, and for the first one's clone. None: there was none for the store.
fn two_read<A: Allocator + Copy>(
    rt: &impl Abort,
    alloc: A,
    size: usize,
) -> Result<Option<(bool, bool)>, AllocError> {
    let msg = String::from_str(alloc, TEXT)?;
    let Ok((mut store, first)) = with_receiver(alloc) else {
        return Ok(None);
    };
    push(&mut store, msg);
    let second = add(&mut store, 7)?;
    let grow = grow(&mut store);
    let read = reads(&mut store, first);
    let mut is_right = grow.is_some() && read != Some(false) && store.len() == 1;
    if read.is_none() {
        is_right &= store.cursor(first) == Some(7);
        store.remove(first);
    }
    // The last reader's read takes no memory.
    is_right &= reads(&mut store, second) == Some(true) && store.front() == 8;
    assert!(rt; is_right, "{size}");
    Ok(Some((grow == Some(false), read.is_some())))
}

#[test]
fn refused_memory_changes_nothing(rt: HostRuntime) -> Result<(), Fail> {
    let (mut new, mut both, mut last) = (false, false, None);
    for size in 4..64 {
        let heap = LocalHeap::new(rt.alloc(), size * 16)?;
        if let Ok(made) = two_read(&rt, &heap, size) {
            new |= made.is_none();
            both |= made == Some((false, false));
            last = made;
        }
    }
    assert!(rt; new, "new");
    assert!(rt; both, "grow and read");
    assert!(rt; last == Some((true, true)));
    Ok(())
}

// Adds receivers until one is refused, and returns how many were added.
fn fill<A: Allocator + Copy>(store: &mut Store<u8, A>) -> Option<usize> {
    for added in 0..64 {
        if add(store, 7).is_err() {
            return Some(added);
        }
    }
    None
}

#[test]
fn a_refused_receiver_is_not_added(rt: HostRuntime) -> Result<(), Fail> {
    let heap = LocalHeap::new(rt.alloc(), 512)?;
    let mut store = Store::new(&heap, 7, 1)?;
    assert!(rt; fill(&mut store) == Some(store.receivers()));
    assert!(rt; store.end() == 7);
    Ok(())
}

// Whether the only message is dropped once all receivers are removed.
fn is_dropped<A: Allocator + Copy>(store: &mut Store<u8, A>) -> bool {
    let is_kept = store.len() == 1;
    for key in 0..64 {
        store.remove(key);
    }
    is_kept && store.has_no_receiver() && store.is_empty() && store.front() == 8
}

#[test]
fn a_refused_receiver_owes_nothing(rt: HostRuntime) -> Result<(), Fail> {
    let heap = LocalHeap::new(rt.alloc(), 512)?;
    let mut store = Store::new(&heap, 7, 1)?;
    add(&mut store, 7)?;
    push(&mut store, b'a');
    assert!(rt; fill(&mut store).is_some());
    assert!(rt; is_dropped(&mut store));
    Ok(())
}

// Whether a receiver that is behind has the same cursor after its read was refused. None: it was
// not refused.
fn lags_still<A: Allocator + Copy>(alloc: A) -> Result<Option<bool>, AllocError> {
    let msg = String::from_str(alloc, TEXT)?;
    let (mut store, first) = with_receiver(alloc)?;
    push(&mut store, msg);
    let Some(msg) = store.pop() else {
        return Ok(Some(false));
    };
    push(&mut store, msg);
    add(&mut store, 8)?;
    if reads(&mut store, first).is_some() {
        return Ok(None);
    }
    Ok(Some(store.cursor(first) == Some(7)))
}

#[test]
fn a_refused_read_skips_nothing(rt: HostRuntime) -> Result<(), Fail> {
    let mut refused = false;
    for size in 4..64 {
        let heap = LocalHeap::new(rt.alloc(), size * 16)?;
        let Ok(Some(lags)) = lags_still(&heap) else {
            continue
        };
        assert!(rt; lags, "{size}");
        refused = true;
    }
    assert!(rt; refused, "refused");
    Ok(())
}

// Whether more room was refused: for four messages instead of three, and then for six.
fn grow_twice(heap: &LocalHeap) -> Result<(bool, bool), AllocError> {
    let mut store = Store::<u64, &LocalHeap>::new(heap, 7, 3)?;
    Ok((store.grow(4).is_err(), store.grow(6).is_err()))
}

#[test]
fn exact_room_if_twice_as_much_is_refused(rt: HostRuntime) -> Result<(), Fail> {
    let (mut exact, mut twice) = (false, false);
    for size in 4..64 {
        let heap = LocalHeap::new(rt.alloc(), size * 16)?;
        let refused = grow_twice(&heap).ok();
        exact |= refused == Some((false, true));
        twice |= refused == Some((false, false));
    }
    assert!(rt; exact, "exact");
    assert!(rt; twice, "twice");
    Ok(())
}
