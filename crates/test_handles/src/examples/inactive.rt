//! Of `inactive.rt`.
use crate::channels::{Opens, TestResult, broadcast};

// Of `activate`.
pub fn activates(rt: impl Opens) -> TestResult {
    let (sender, receiver) = broadcast(&rt, rt.alloc(), 1)?;
    let inactive = receiver.deactivate().ok().ok_or("no handle")?;
    let mut receiver = inactive.activate().ok().ok_or("no handle")?;
    assert!(rt; sender.try_broadcast(1).is_ok());
    assert!(rt; matches!(receiver.try_recv(), Ok(Ok(1))));
    Ok(())
}

// Of `activate_cloned`.
pub fn activates_clones(rt: impl Opens) -> TestResult {
    let (sender, receiver) = broadcast(&rt, rt.alloc(), 1)?;
    let inactive = receiver.deactivate().ok().ok_or("no handle")?;
    let mut one = inactive.activate_cloned()?;
    let mut two = inactive.activate_cloned()?;
    assert!(rt; sender.try_broadcast(1).is_ok());
    assert!(rt; matches!(one.try_recv(), Ok(Ok(1))));
    assert!(rt; matches!(two.try_recv(), Ok(Ok(1))));
    Ok(())
}

// Of `clone`.
pub fn keeps_it_open(rt: impl Opens) -> TestResult {
    let (sender, receiver) = broadcast(&rt, rt.alloc(), 1)?;
    let one = receiver.deactivate().ok().ok_or("no handle")?;
    let two = one.clone()?;
    drop(one);
    assert!(rt; !sender.is_closed());
    drop(two);
    assert!(rt; sender.is_closed());
    Ok(())
}
