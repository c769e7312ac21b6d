//! Heaps of every small size, on which memory is refused in turn.
use linked_list_allocator::LocalHeap;
use std::alloc::{AllocError, Global};
use std::process::Abort;

/// How something ended for which a heap may have too little memory.
#[derive(Clone, Copy, Debug, PartialEq, Eq)]
pub(crate) enum Outcome {
    /// It was refused memory, and nothing was lost.
    Refused,
    /// It had all memory that it needs.
    Done,
    /// It went wrong.
    Wrong,
}

impl Outcome {
    /// This outcome, if all is right with it.
    pub(crate) fn if_right(self, is_right: bool) -> Outcome {
        if is_right { self } else { Outcome::Wrong }
    }
}

/// Tries something on heaps of more and more bytes. Fails unless it is refused memory on some of
/// them, is done on the last, and goes wrong on none.
///
/// `try_on` returns an error if there is no memory for what it needs first.
pub(crate) fn refused_in_turn<F: Fn(&LocalHeap) -> Result<Outcome, AllocError>>(
    rt: &impl Abort,
    alloc: Global,
    try_on: F,
) -> Result<(), AllocError>
    requires { F.IsAlwaysCallable try_on }
{
    let (mut was_refused, mut last) = (false, Err(AllocError));
    for size in 0..256 {
        let heap = LocalHeap::new(alloc, size * 16)?;
        last = try_on(&heap);
        assert!(rt; last != Ok(Outcome::Wrong), "{size}");
        was_refused |= last == Ok(Outcome::Refused);
    }
    assert!(rt; was_refused, "memory was refused");
    assert!(rt; last == Ok(Outcome::Done));
    Ok(())
}
