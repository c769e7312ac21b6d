//! The examples in the documentation of `async_broadcast`.
//!
//! The first line of each file here names the files of `async_broadcast/src` whose examples it has.
//! A function has the lines of one of them, or of some that are short.
use crate::channels::TestResult;

mod arena;
mod batch;
mod broadcast_and_errors;
mod in_tasks;
mod inactive;
mod lock;
mod receiver;
mod sender;
mod sender_settings;
mod timed;

#[test]
fn examples(rt: HostRuntime) -> TestResult {
    batch::tries(&rt)?;
    batch::blocks(&rt)?;
    batch::polls(&rt)?;
    broadcast_and_errors::plays_two(&rt)?;
    broadcast_and_errors::refuses(&rt)?;
    in_tasks::sends_in_a_box(&rt)?;
    in_tasks::sends_directly(&rt)?;
    in_tasks::receives_in_a_box(&rt)?;
    in_tasks::receives_directly(&rt)?;
    in_tasks::polls(&rt)?;
    inactive::activates(&rt)?;
    inactive::activates_clones(&rt)?;
    inactive::keeps_it_open(&rt)?;
    receiver::streams(&rt)?;
    receiver::tries(&rt)?;
    receiver::blocks(&rt)?;
    receiver::loops(&rt)?;
    receiver::loops_over_what_is_there(&rt)?;
    receiver::sees_the_end(&rt)?;
    receiver::clones(&rt)?;
    receiver::adds_a_receiver(&rt)?;
    receiver::adds_a_sender(&rt)?;
    receiver::pauses(&rt)?;
    receiver::awaits_nobody(&rt)?;
    sender::tries(&rt)?;
    sender::sends_a_list(&rt)?;
    sender::blocks(&rt)?;
    sender::clones(&rt)?;
    sender::adds_a_receiver(&rt)?;
    sender_settings::says(&rt)?;
    sender_settings::changes_modes(&rt)?;
    sender_settings::sees_the_end(&rt)?;
    sender_settings::shrinks(&rt)?;
    sender_settings::overflows(&rt)?;
    sender_settings::awaits_nobody(&rt)
}
