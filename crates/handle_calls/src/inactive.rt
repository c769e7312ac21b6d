//! Calls on inactive receivers.
use crate::answer::Answer;
use crate::handles::{Handles, add, drop_at};
use crate::line::Request;
use crate::settings::by_handle;
use async_broadcast::TimedPort;
use bcast_text::input::Fault;
use std::alloc::Allocator;

impl<P: TimedPort<u64>, A: Allocator + Copy> Handles<P, A> {
    /// Makes a call on an inactive receiver.
    pub fn by_inactive(&mut self, request: Request<'_>) -> Result<Answer, Fault> {
        let Some(Some(inactive)) = self.inactive.get_mut(request.index) else {
            return Err(Fault::NotACall);
        };
        match request.method {
            "clone" => add(inactive.clone(), &mut self.inactive),
            "activate_cloned" => add(inactive.activate_cloned(), &mut self.receivers),
            "activate" => self.activate(request.index),
            "drop" => drop_at(&mut self.inactive, request.index),
            _ => by_handle(inactive, request).ok_or(Fault::NotACall),
        }
    }

    fn activate(&mut self, index: usize) -> Result<Answer, Fault> {
        let slot = self.inactive.get_mut(index).ok_or(Fault::NotACall)?;
        let inactive = slot.take().ok_or(Fault::NotACall)?;
        match inactive.activate() {
            Ok(made) => add(Ok(made), &mut self.receivers),
            Err((back, error)) => {
                *slot = Some(back);
                Ok(Answer::of_error(error))
            }
        }
    }
}
