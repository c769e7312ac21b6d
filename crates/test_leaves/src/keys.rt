//! Keys of a few receivers, and a few places of sends.
use bcast_store::cursors::Cursors;
use bcast_waiting::places::Places;
use linked_list_allocator::LocalHeap;
use std::alloc::{AllocError, Allocator};
use std::process::Abort;
use std::test::Fail;

fn number_receivers(rt: &impl Abort, cursors: &mut Cursors) -> Result<(), AllocError> {
    assert!(rt; cursors.len() == 0);
    assert!(rt; cursors.add(5)? == 0);
    assert!(rt; cursors.add(8)? == 1);
    assert!(rt; cursors.replace(0, 6) == Some(5));
    assert!(rt; cursors.get(0) == Some(6));
    assert!(rt; cursors.get(1) == Some(8));
    assert!(rt; cursors.get(usize::MAX).is_none());
    assert!(rt; cursors.len() == 2);
    assert!(rt; cursors.remove(0) == Some(6));
    assert!(rt; cursors.replace(0, 7).is_none());
    assert!(rt; cursors.get(0).is_none());
    assert!(rt; cursors.len() == 1);
    assert!(rt; cursors.add(9)? == 0);
    assert!(rt; cursors.len() == 2);
    Ok(())
}

#[test]
fn numbers_stand_under_their_keys(rt: HostRuntime) -> Result<(), Fail> {
    let mut cursors = Cursors::new(rt.alloc());
    number_receivers(&rt, &mut cursors)?;
    let entries = cursors.entries(rt.alloc())?;
    assert!(rt; entries.as_slice() == [(0, 9), (1, 8)].as_slice());
    Ok(())
}

fn give_places(rt: &impl Abort, places: &mut Places) -> Result<(), AllocError> {
    assert!(rt; places.add()? == 0);
    assert!(rt; places.add()? == 1);
    assert!(rt; places.contains(0) && places.contains(1));
    assert!(rt; !places.contains(usize::MAX));
    assert!(rt; places.len() == 2);
    assert!(rt; places.remove(0));
    assert!(rt; !places.remove(0));
    assert!(rt; !places.contains(0));
    assert!(rt; places.add()? == 0);
    assert!(rt; places.len() == 2);
    Ok(())
}

#[test]
fn a_place_is_given_again(rt: HostRuntime) -> Result<(), Fail> {
    let mut places = Places::new(rt.alloc());
    give_places(&rt, &mut places)?;
    let items = places.items(rt.alloc())?;
    assert!(rt; items.as_slice() == [0, 1].as_slice());
    Ok(())
}

// Adds places until one is refused. Returns how many there are, if that is as many as were added.
fn fill<A: Allocator + Copy>(alloc: A, most: usize) -> Option<usize> {
    let mut places = Places::new(alloc);
    for count in 0..most {
        if places.add().is_err() {
            return (places.len() == count).then_some(count);
        }
    }
    None
}

#[test]
fn a_refused_place_changes_nothing(rt: HostRuntime) -> Result<(), Fail> {
    let heap = LocalHeap::new(rt.alloc(), 1 << 10)?;
    assert!(rt; matches!(fill(&heap, 1 << 10), Some(1..)));
    Ok(())
}
