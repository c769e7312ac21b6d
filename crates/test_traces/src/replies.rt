//! The text of each reply, as it is written.
use crate::calls::messages;
use bcast_core::{Reply, SendError, TryRecvError};
use bcast_trace::reply::{write_answer, write_reply};
use std::alloc::{AllocError, AllocGlobal};
use std::io;
use std::process::Abort;

/// Fails the test unless this reply is written so, alone and after its call.
fn expect<R: Abort + AllocGlobal>(rt: &R, text: &str, reply: &Reply<u64>) -> io::Result<()> {
    let alloc = rt.alloc();
    let mut wrote = Vec::new(alloc);
    write_reply(reply, &mut wrote)?;
    assert!(rt; wrote.as_slice() == text.as_bytes(), "{text}");
    let mut line = Vec::new(alloc);
    write_answer("its call", reply, &mut line)?;
    let wanted = format!(in alloc; "its call -> {text}\n")?;
    let is_line = line.as_slice() == wanted.as_str().as_bytes();
    assert!(rt; is_line, "the line of {text}");
    Ok(())
}

#[test]
fn sending_replies(rt: HostRuntime) -> io::Result<()> {
    use bcast_core::Reply::{
        AttemptSend, BeginSend, EndSend, PollSend, TryBroadcast, TryBroadcastAll,
    };
    use bcast_core::SendPoll::{Ready, Wait};
    use bcast_core::TrySendError::{Closed, Full, Inactive};
    expect(&rt, "ok", &TryBroadcast(Ok(None)))?;
    expect(&rt, "ok dropped 1", &TryBroadcast(Ok(Some(1))))?;
    expect(&rt, "full 2", &TryBroadcast(Err(Full(2))))?;
    expect(&rt, "closed 3", &TryBroadcast(Err(Closed(3))))?;
    expect(&rt, "inactive 4", &TryBroadcast(Err(Inactive(4))))?;
    expect(&rt, "ok", &TryBroadcastAll(Ok(())))?;
    expect(
        &rt,
        "full 5 6",
        &TryBroadcastAll(Err(Full(messages(rt.alloc(), &[5, 6])?))),
    )?;
    expect(
        &rt,
        "closed 7 8 9",
        &TryBroadcastAll(Err(Closed(messages(rt.alloc(), &[7, 8, 9])?))),
    )?;
    expect(
        &rt,
        "inactive 10",
        &TryBroadcastAll(Err(Inactive(messages(rt.alloc(), &[10])?))),
    )?;
    expect(&rt, "ready ok", &AttemptSend(Ready(Ok(None))))?;
    expect(
        &rt,
        "ready ok dropped 11",
        &AttemptSend(Ready(Ok(Some(11)))),
    )?;
    expect(
        &rt,
        "ready senderror 12",
        &AttemptSend(Ready(Err(SendError(12)))),
    )?;
    expect(&rt, "wait 13", &AttemptSend(Wait(13)))?;
    expect(&rt, "ok 14", &BeginSend(Ok(14)))?;
    expect(&rt, "no memory", &BeginSend(Err(AllocError)))?;
    expect(&rt, "ready ok", &PollSend(Ready(Ok(None))))?;
    expect(&rt, "ready ok dropped 15", &PollSend(Ready(Ok(Some(15)))))?;
    expect(
        &rt,
        "ready senderror 16",
        &PollSend(Ready(Err(SendError(16)))),
    )?;
    expect(&rt, "wait 17", &PollSend(Wait(17)))?;
    expect(&rt, "-", &EndSend)?;
    Ok(())
}

#[test]
fn receiving_replies(rt: HostRuntime) -> io::Result<()> {
    use bcast_core::RecvError::{Closed, Overflowed};
    use bcast_core::Reply::{EndFuture, PollFuture, PollNext, PollRecv, TryRecv};
    use futures::task::Poll::{Pending, Ready};
    expect(&rt, "-", &EndFuture)?;
    expect(&rt, "got 18446744073709551615", &TryRecv(Ok(Ok(u64::MAX))))?;
    expect(
        &rt,
        "overflowed 18",
        &TryRecv(Ok(Err(TryRecvError::Overflowed(18)))),
    )?;
    expect(&rt, "empty", &TryRecv(Ok(Err(TryRecvError::Empty))))?;
    expect(&rt, "closed", &TryRecv(Ok(Err(TryRecvError::Closed))))?;
    expect(&rt, "no memory", &TryRecv(Err(AllocError)))?;
    expect(&rt, "ready got 19", &PollFuture(Ok(Ready(Ok(19)))))?;
    expect(
        &rt,
        "ready overflowed 20",
        &PollFuture(Ok(Ready(Err(Overflowed(20))))),
    )?;
    expect(&rt, "ready closed", &PollFuture(Ok(Ready(Err(Closed)))))?;
    expect(&rt, "pending", &PollFuture(Ok(Pending)))?;
    expect(&rt, "no memory", &PollFuture(Err(AllocError)))?;
    expect(&rt, "ready some got 21", &PollRecv(Ok(Ready(Some(Ok(21))))))?;
    expect(
        &rt,
        "ready some overflowed 22",
        &PollRecv(Ok(Ready(Some(Err(Overflowed(22)))))),
    )?;
    expect(&rt, "ready none", &PollRecv(Ok(Ready(None))))?;
    expect(&rt, "pending", &PollRecv(Ok(Pending)))?;
    expect(&rt, "no memory", &PollRecv(Err(AllocError)))?;
    expect(
        &rt,
        "ready some got 23 skipped 24",
        &PollNext(Ok(Ready(Some((23, 24))))),
    )?;
    expect(&rt, "ready none", &PollNext(Ok(Ready(None))))?;
    expect(&rt, "pending", &PollNext(Ok(Pending)))?;
    expect(&rt, "no memory", &PollNext(Err(AllocError)))?;
    Ok(())
}

#[test]
fn handle_replies(rt: HostRuntime) -> io::Result<()> {
    use bcast_core::HandleError::{Gone, Memory, TooMany};
    use bcast_core::Reply::{Activate, ActivateCloned, CloneInactive, CloneReceiver, Deactivate};
    use bcast_core::Reply::{DropInactive, DropReceiver, DropSender, NewReceiver, NewSender};
    expect(&rt, "-", &DropSender)?;
    expect(&rt, "-", &DropInactive)?;
    expect(&rt, "-", &DropReceiver)?;
    expect(&rt, "ok", &NewSender(Ok(())))?;
    expect(&rt, "ok", &CloneInactive(Ok(())))?;
    expect(&rt, "ok", &Deactivate(Ok(())))?;
    expect(&rt, "ok 25", &NewReceiver(Ok(25)))?;
    expect(&rt, "ok 26", &Activate(Ok(26)))?;
    expect(&rt, "ok 27", &ActivateCloned(Ok(27)))?;
    expect(&rt, "ok 28", &CloneReceiver(Ok(28)))?;
    let errors = [("no memory", Memory), ("too many", TooMany), ("gone", Gone)];
    for (text, error) in errors {
        expect(&rt, text, &NewSender(Err(error)))?;
        expect(&rt, text, &CloneInactive(Err(error)))?;
        expect(&rt, text, &Deactivate(Err(error)))?;
        expect(&rt, text, &NewReceiver(Err(error)))?;
        expect(&rt, text, &Activate(Err(error)))?;
        expect(&rt, text, &ActivateCloned(Err(error)))?;
        expect(&rt, text, &CloneReceiver(Err(error)))?;
    }
    Ok(())
}

#[test]
fn setting_replies(rt: HostRuntime) -> io::Result<()> {
    use bcast_core::Reply::*;
    expect(&rt, "ok", &SetCapacity(Ok(())))?;
    expect(&rt, "no memory", &SetCapacity(Err(AllocError)))?;
    expect(&rt, "-", &SetOverflow)?;
    expect(&rt, "-", &SetAwaitActive)?;
    expect(&rt, "30", &Capacity(30))?;
    expect(&rt, "31", &Len(31))?;
    expect(&rt, "32", &ReceiverCount(32))?;
    expect(&rt, "33", &InactiveReceiverCount(33))?;
    expect(&rt, "34", &SenderCount(34))?;
    expect(&rt, "35", &EndNumber(35))?;
    for (text, answer) in [("true", true), ("false", false)] {
        expect(&rt, text, &Close(answer))?;
        expect(&rt, text, &Overflow(answer))?;
        expect(&rt, text, &AwaitActive(answer))?;
        expect(&rt, text, &IsEmpty(answer))?;
        expect(&rt, text, &IsFull(answer))?;
        expect(&rt, text, &IsClosed(answer))?;
        expect(&rt, text, &IsTerminated(answer))?;
    }
    Ok(())
}
