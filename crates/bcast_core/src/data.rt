//! Calls as data: one at a time, and a whole list.
ghost use Rattle.std.specs.Prelude.{◌≡◌, ◌+◌, ◌^◌, ◌<◌, false, [], IfOk, IfErr};
ghost use Rattle.std.specs.List.{All, AllByRecursion};
ghost use Rattle.bcast_model.specs.Words.{HasPositiveCapacity, Answers, IsPossible, Represents};
ghost use Rattle.bcast_model.specs.Words.{opening, IsRun, end_of_run, IsValid, NoClone};
ghost use Rattle.bcast_model.specs.Words.{ClonesEqual, dropped_in, MissesWhatWasDropped};
ghost use Rattle.bcast_model.specs.Words.{AtEachPoint, AreAllExact, WaitsAsItsTry, ComesToRest};
ghost use Rattle.std.specs.List.Sorted.{IsStrictlyIncreasing};
ghost use Rattle.bcast_model.specs.Replies.{is_receive_refused};

use crate::calls::handles::{AddHandle, AddReceiver, Change, Close, SetCapacity};
use crate::calls::messages::{AttemptSend, BeginSend, TryBroadcast, TryBroadcastAll, TryRecv};
use crate::calls::reads::{Count, EndNumber, Test};
use crate::calls::waiting::{PollFuture, PollNext, PollRecv, PollSend};
use crate::calls::{AtOnce, CallOf, Polls, RepliesTo};
use crate::state::Inner;
use bcast_model::run::{Call, Reply};
use bcast_waiting::notice::{MakesNotice, Notice, OwnedNotice, Silent};
use std::alloc::{Allocator, Global};

/// Makes the one state call that `call` names, and returns its reply.
///
/// `notice` is told once a poll that waits is to be made again; only the four polls use it. A new
/// capacity must be positive.
#[inline(always)]
pub fn step<T: Clone, N: Notice, A: Allocator + Copy>(
    inner: &mut Inner<T, N, A>,
    call: Call<T>,
    notice: N,
) -> Reply<T>
    requires { HasPositiveCapacity call }
    ensures answers { Answers T.is_clone inner.old call result inner.new }
    ensures possible { IsPossible T.is_clone call result }
    // If no clone fails, no receive is refused.
    ensures sure { ((msg : T) → T.is_infallible msg) → is_receive_refused result ≡ false }
    // If a clone equals its original, receives give the messages themselves.
    ensures exact { ClonesEqual T.is_clone → Answers NoClone inner.old call result inner.new }
{
    match call.make_for(inner, &mut OwnedNotice::new(notice)) {
        Ok(reply) => reply,
        Err(_) => unreachable!(),
    }
}

impl<T: Drop> CallOf<T> for Call<T> {
    type Answer = Reply<T>;

    ghost call = { λ call. call };

    ghost reply = { λ _ reply. reply };

    fn answered_by<R: RepliesTo<T>>(self, port: &R) -> Reply<T> {
        port.reply_to(self)
    }
}

impl<T: Clone> Polls<T> for Call<T> {
    fn make_for<N: Notice, A: Allocator + Copy, M: MakesNotice<N>>(
        self,
        inner: &mut Inner<T, N, A>,
        maker: &mut M,
    ) -> Result<Reply<T>, Self> {
        match self {
            Call::TryBroadcast(msg) => Ok(Reply::TryBroadcast(TryBroadcast(msg).make(inner))),
            Call::TryBroadcastAll(msgs) => {
                Ok(Reply::TryBroadcastAll(TryBroadcastAll(msgs).make(inner)))
            }
            Call::AttemptSend(msg) => Ok(Reply::AttemptSend(AttemptSend(msg).make(inner))),
            Call::BeginSend => Ok(Reply::BeginSend(BeginSend.make(inner))),
            Call::PollSend(place, msg) => match PollSend(place, msg).make_for(inner, maker) {
                Ok(answer) => Ok(Reply::PollSend(answer)),
                Err(PollSend(place, msg)) => Err(Call::PollSend(place, msg)),
            },
            Call::EndSend(place) => {
                Change::EndSend(place).make(inner);
                Ok(Reply::EndSend)
            }
            Call::TryRecv(key) => Ok(Reply::TryRecv(TryRecv(key).make(inner))),
            Call::PollFuture(key) => match PollFuture(key).make_for(inner, maker) {
                Ok(answer) => Ok(Reply::PollFuture(answer)),
                Err(PollFuture(key)) => Err(Call::PollFuture(key)),
            },
            Call::EndFuture(key) => {
                Change::EndFuture(key).make(inner);
                Ok(Reply::EndFuture)
            }
            Call::PollRecv(key) => match PollRecv(key).make_for(inner, maker) {
                Ok(answer) => Ok(Reply::PollRecv(answer)),
                Err(PollRecv(key)) => Err(Call::PollRecv(key)),
            },
            Call::PollNext(key) => match PollNext(key).make_for(inner, maker) {
                Ok(answer) => Ok(Reply::PollNext(answer)),
                Err(PollNext(key)) => Err(Call::PollNext(key)),
            },
            Call::Close => Ok(Reply::Close(Close.make(inner))),
            Call::SetCapacity(n) => Ok(Reply::SetCapacity(SetCapacity(n).make(inner))),
            Call::SetOverflow(on) => {
                Change::SetOverflow(on).make(inner);
                Ok(Reply::SetOverflow)
            }
            Call::SetAwaitActive(on) => {
                Change::SetAwaitActive(on).make(inner);
                Ok(Reply::SetAwaitActive)
            }
            Call::NewSender => Ok(Reply::NewSender(AddHandle::Sender.make(inner))),
            Call::CloneInactive => Ok(Reply::CloneInactive(AddHandle::Inactive.make(inner))),
            Call::Deactivate(key) => {
                Ok(Reply::Deactivate(AddHandle::Deactivated(key).make(inner)))
            }
            Call::NewReceiver => Ok(Reply::NewReceiver(AddReceiver::New.make(inner))),
            Call::Activate => Ok(Reply::Activate(AddReceiver::Activate.make(inner))),
            Call::ActivateCloned => {
                Ok(Reply::ActivateCloned(AddReceiver::ActivateCloned.make(inner)))
            }
            Call::CloneReceiver(key) => {
                Ok(Reply::CloneReceiver(AddReceiver::Clone(key).make(inner)))
            }
            Call::DropSender => {
                Change::DropSender.make(inner);
                Ok(Reply::DropSender)
            }
            Call::DropInactive => {
                Change::DropInactive.make(inner);
                Ok(Reply::DropInactive)
            }
            Call::DropReceiver(key) => {
                Change::DropReceiver(key).make(inner);
                Ok(Reply::DropReceiver)
            }
            Call::Overflow => Ok(Reply::Overflow(Test::Overflow.make(inner))),
            Call::AwaitActive => Ok(Reply::AwaitActive(Test::AwaitActive.make(inner))),
            Call::IsEmpty => Ok(Reply::IsEmpty(Test::IsEmpty.make(inner))),
            Call::IsFull => Ok(Reply::IsFull(Test::IsFull.make(inner))),
            Call::IsClosed => Ok(Reply::IsClosed(Test::IsClosed.make(inner))),
            Call::IsTerminated => Ok(Reply::IsTerminated(Test::IsTerminated.make(inner))),
            Call::Capacity => Ok(Reply::Capacity(Count::Capacity.make(inner))),
            Call::Len => Ok(Reply::Len(Count::Len.make(inner))),
            Call::ReceiverCount => Ok(Reply::ReceiverCount(Count::ReceiverCount.make(inner))),
            Call::InactiveReceiverCount => {
                Ok(Reply::InactiveReceiverCount(Count::InactiveReceiverCount.make(inner)))
            }
            Call::SenderCount => Ok(Reply::SenderCount(Count::SenderCount.make(inner))),
            Call::EndNumber => Ok(Reply::EndNumber(EndNumber.make(inner))),
        }
    }
}

/// What `run` returns.
#[derive(Drop)]
pub struct Ran<T, A: Allocator = Global> {
    /// The channel after the last call.
    pub channel: Inner<T, Silent, A>,
    /// The key of its first receiver.
    pub first_key: usize,
    /// The replies, one for each call, in order.
    pub replies: Vec<Reply<T>, A>,
}

/// Makes all calls in order, on a channel of its own: `starting_at(alloc, cap, first)`.
///
/// A call may name any key and place, also one that the channel never gave. New capacities must be
/// positive. No error of a call ends the run.
///
/// # Errors
///
/// The calls are returned, and none was made: memory for the channel or for the replies was
/// refused.
pub fn run<T: Clone, A: Allocator + Copy>(
    alloc: A,
    cap: usize,
    first: u64,
    calls: Vec<Call<T>, A>,
) -> Result<Ran<T, A>, Vec<Call<T>, A>>
    requires capacity { 0 < cap }
    requires number { first + 1 < 2 ^ 64 }
    requires positive { AllByRecursion HasPositiveCapacity calls.items }
    // The replies are those of a run of the machine, and what is returned shows its end.
    ensures replies { IfOk result (λ made.
        IsRun T.is_clone (opening cap first made.first_key) calls.items made.replies.items) }
    ensures end { IfOk result (λ made. Represents made.channel
        (end_of_run (opening cap first made.first_key) calls.items made.replies.items)) }
    ensures valid { IfOk result (λ made. IsValid
        (end_of_run (opening cap first made.first_key) calls.items made.replies.items)) }
    // Every receiver was given the accepted messages from its start to its cursor, in order, and
    // told how many it missed.
    ensures deliveries { IfOk result (λ made. AtEachPoint (AreAllExact T.is_clone)
        (opening cap first made.first_key) calls.items made.replies.items) }
    // No message was dropped twice.
    ensures dropped { IfOk result (λ made. IsStrictlyIncreasing
        (dropped_in (opening cap first made.first_key) calls.items made.replies.items)) }
    // What a receiver was told that it missed, an earlier call dropped; what it was given, none
    // did.
    ensures missed { IfOk result (λ made. MissesWhatWasDropped []
        (opening cap first made.first_key) calls.items made.replies.items) }
    // A poll that was not refused memory waited exactly if the try of the same name found nothing.
    ensures polls { IfOk result (λ made. AtEachPoint WaitsAsItsTry
        (opening cap first made.first_key) calls.items made.replies.items) }
    // Polls of listeners that were told came to rest.
    ensures rest { IfOk result (λ made. AtEachPoint (ComesToRest T.is_clone)
        (opening cap first made.first_key) calls.items made.replies.items) }
    // If a clone equals its original, the replies are exactly those of the definitions.
    ensures exact { ClonesEqual T.is_clone → IfOk result (λ made.
        IsRun NoClone (opening cap first made.first_key) calls.items made.replies.items) }
    // If no clone fails, no receive is refused.
    ensures sure { ((msg : T) → T.is_infallible msg)
        → IfOk result (λ made. All (λ r. is_receive_refused r ≡ false) made.replies.items) }

    ensures refused { IfErr result (λ back. back.items ≡ calls.items) }
{
    let Ok(mut replies) = Vec::with_capacity(alloc, calls.len()) else {
        return Err(calls);
    };
    let Ok((mut channel, first_key)) = Inner::starting_at(alloc, cap, first) else {
        return Err(calls);
    };
    for call in calls {
        replies.push_reserved(step(&mut channel, call, Silent));
    }
    Ok(Ran {
        channel,
        first_key,
        replies,
    })
}
