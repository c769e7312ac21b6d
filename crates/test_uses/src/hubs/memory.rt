//! Hubs over heaps of every small size.
use super::asked::{Answered, Asked, Row, list_of};
use bcast_core::Reply;
use linked_list_allocator::LocalHeap;
use std::alloc::{AllocError, Allocator};
use std::process::Abort;
use std::test::Fail;
use topics::{Answer, Hub, Request, run_hub};

/// The topics that are opened.
const NAMES: &[&str] = &["a", "b", "c", "d", "e", "f"];

/// Opens the topics in turn, until there is no memory for one, and returns how many there are.
///
/// That one must not be open then, and those before it must still be: each is closed.
fn open_topics<A: Allocator + Copy>(rt: &impl Abort, alloc: A) -> Result<usize, AllocError> {
    let mut hub: Hub<u64, A> = Hub::new(alloc);
    let mut count = NAMES.len();
    for (index, name) in NAMES.iter().enumerate() {
        // Taken first, so that the memory that is refused is the hub's.
        let again = String::from_str(alloc, name)?;
        let answer = hub.ask(Request::Open(String::from_str(alloc, name)?, 1));
        if answer != Answer::Opened {
            assert!(rt; answer == Answer::Memory);
            assert!(rt; hub.ask(Request::Close(again)) == Answer::NoTopic);
            count = index;
            break;
        }
    }
    for name in NAMES.iter().take(count) {
        let closed = hub.ask(Request::Close(String::from_str(alloc, name)?));
        assert!(rt; closed == Answer::Done(Reply::Close(true)));
    }
    Ok(count)
}

#[test]
fn topics_are_refused_in_turn(rt: HostRuntime) -> Result<(), Fail> {
    let mut last = None;
    let mut is_partly_refused = false;
    for size in 0..512 {
        let heap = LocalHeap::new(rt.alloc(), size * 16)?;
        last = open_topics(&rt, &heap).ok();
        is_partly_refused |= last.is_some_and(|count| 0 < count && count < NAMES.len());
    }
    assert!(rt; is_partly_refused, "a topic was refused");
    assert!(rt; last == Some(NAMES.len()));
    Ok(())
}

/// Requests that take no memory for a topic.
const REFUSED: &[Row] = &[
    ("a", Asked::Publish(7), Answered::NoTopic),
    ("b", Asked::Close, Answered::NoTopic),
];

/// Whether there was memory for a list of two requests. If not, they were returned. None: there is
/// no memory for the requests.
fn runs<A: Allocator + Copy>(rt: &impl Abort, alloc: A) -> Option<bool> {
    match run_hub(alloc, list_of(alloc, &[], REFUSED).ok()?) {
        Ok((_, answers)) => {
            assert!(rt; matches!(answers.as_slice(), [Answer::NoTopic, Answer::NoTopic]));
            Some(true)
        }
        Err(requests) => {
            let back = requests.as_slice();
            assert!(rt; matches!(back, [Request::Publish(_, 7), Request::Close(_)]));
            Some(false)
        }
    }
}

#[test]
fn a_refused_list_comes_back(rt: HostRuntime) -> Result<(), Fail> {
    let mut last = None;
    let mut is_refused = false;
    for size in 0..128 {
        let heap = LocalHeap::new(rt.alloc(), size * 16)?;
        last = runs(&rt, &heap);
        is_refused |= last == Some(false);
    }
    assert!(rt; is_refused, "a list was refused");
    assert!(rt; last == Some(true));
    Ok(())
}
