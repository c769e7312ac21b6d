//! What every handle returns of its channel's settings and sets there.
use crate::answer::Answer;
use crate::line::Request;
use async_broadcast::{Handle, Role, TimedPort};
use std::alloc::Allocator;

/// Makes a call that every handle has. None: it is not one, or it sets the capacity 0.
pub fn by_handle<P: TimedPort<u64>, K: Role, A: Allocator + Copy>(
    handle: &mut Handle<u64, P, K, A>,
    request: Request<'_>,
) -> Option<Answer> {
    match (request.method, request.argument) {
        ("capacity", None) => Some(Answer::Count(handle.capacity())),
        ("overflow", None) => Some(Answer::Is(handle.overflow())),
        ("await_active", None) => Some(Answer::Is(handle.await_active())),
        ("close", None) => Some(Answer::Is(handle.close())),
        ("is_closed", None) => Some(Answer::Is(handle.is_closed())),
        ("is_empty", None) => Some(Answer::Is(handle.is_empty())),
        ("is_full", None) => Some(Answer::Is(handle.is_full())),
        ("len", None) => Some(Answer::Count(handle.len())),
        ("receiver_count", None) => Some(Answer::Count(handle.receiver_count())),
        ("inactive_receiver_count", None) => Some(Answer::Count(handle.inactive_receiver_count())),
        ("sender_count", None) => Some(Answer::Count(handle.sender_count())),
        ("set_capacity", Some(number)) if number > 0 => {
            if handle.set_capacity(number as usize).is_err() {
                return Some(Answer::NoMemory);
            }
            Some(Answer::Done)
        }
        ("set_overflow", Some(number)) => {
            handle.set_overflow(number != 0);
            Some(Answer::Done)
        }
        ("set_await_active", Some(number)) => {
            handle.set_await_active(number != 0);
            Some(Answer::Done)
        }
        _ => None,
    }
}
