//! The calls of a script on the handles of one channel.
use crate::answer::Answer;
use crate::handles::Handles;
use crate::held::Held;
use crate::line::Request;
use crate::recording::RecordingPort;
use crate::seen::Shows;
use bcast_text::input::Fault;
use futures::test::MockTask;
use std::alloc::{AllocGlobal, Allocator, Global};
use std::random::RandomSource;

impl<P: Shows<A>, A: Allocator + Copy> Handles<P, A> {
    /// Makes the call that a line asks for. Recording ports have a recorder.
    pub fn answer(
        &mut self,
        recorder: Option<&RecordingPort>,
        held: &mut Held<'_, P, A>,
        request: Request<'_>,
    ) -> Result<Answer, Fault> {
        match (request.subject, recorder) {
            ("sender", _) => self.by_sender(request),
            ("inactive", _) => self.by_inactive(request),
            ("receiver", _) if request.method.contains("recv_many") => {
                self.by_batch(request).ok_or(Fault::NotACall)
            }
            ("receiver", _) if request.method.starts_with("poll_") => {
                self.poll_receiver(request).ok_or(Fault::NotACall)
            }
            ("receiver", _) => self.by_receiver(request),
            ("task", _) => match self.tasks.get(request.index) {
                Some(task) => Ok(Answer::Is(task.is_woken())),
                None => Err(Fault::NotACall),
            },
            ("handles", _) => Ok(self.seen()),
            ("port", Some(recorder)) if recorder.set(request.method) => Ok(Answer::Done),
            _ => held.ask(self.tasks.as_slice(), request),
        }
    }
}

/// The tasks that poll.
pub fn tasks_of<R: RandomSource + AllocGlobal>(
    rt: &R,
    alloc: Global,
) -> Result<Vec<MockTask>, Fault> {
    let mut tasks = Vec::new(alloc);
    for _ in 0..4 {
        let task = MockTask::new(rt)?;
        tasks.push(task).ok().ok_or(Fault::NoMemory)?;
    }
    Ok(tasks)
}
