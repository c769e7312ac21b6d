//! The handles of one channel, each with its number, and the tasks that poll.
use crate::answer::Answer;
use async_broadcast::{HandleError, InactiveReceiver, Receiver, Sender, TimedPort};
use bcast_text::input::Fault;
use futures::test::MockTask;
use std::alloc::{Allocator, Global};

/// The handles of one channel, and the tasks that poll. Each kind of handle is numbered in the
/// order of making. The number of a handle that left is not given again.
#[derive(Drop)]
pub struct Handles<P: TimedPort<u64>, A: Allocator> {
    pub tasks: Vec<MockTask>,
    pub senders: Vec<Option<Sender<u64, P, A>>>,
    pub receivers: Vec<Option<Receiver<u64, P, A>>>,
    pub inactive: Vec<Option<InactiveReceiver<u64, P, A>>>,
}

impl<P: TimedPort<u64>, A: Allocator + Copy> Handles<P, A> {
    /// No handles yet, and the tasks.
    pub fn new(alloc: Global, tasks: Vec<MockTask>) -> Self {
        Handles {
            tasks,
            senders: Vec::new(alloc),
            receivers: Vec::new(alloc),
            inactive: Vec::new(alloc),
        }
    }
}

/// Adds a handle or a future that was made, with the next number, or returns why there is none.
pub fn add<H: Drop>(
    made: Result<H, HandleError>,
    list: &mut Vec<Option<H>>,
) -> Result<Answer, Fault> {
    let made = match made {
        Ok(made) => made,
        Err(error) => return Ok(Answer::of_error(error)),
    };
    let number = list.len();
    list.push(Some(made)).ok().ok_or(Fault::NoMemory)?;
    Ok(Answer::Made(number))
}

/// Drops the handle or the future of this number.
pub fn drop_at<H: Drop>(list: &mut Vec<Option<H>>, index: usize) -> Result<Answer, Fault> {
    let slot = list.get_mut(index).ok_or(Fault::NotACall)?;
    *slot = None;
    Ok(Answer::Done)
}
