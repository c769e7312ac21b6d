//! What users of a channel can rely on over several calls: laws of the definitions.
//!
//! Each law is the contract of a function that does nothing. To use the law, call it.
#![tactic(auto)]

ghost use Rattle.bcast_laws.specs.Sends.{RefusedChangesNothing, OnlyAcceptedIsAdded, DroppedSendAddsNothing};
ghost use Rattle.bcast_laws.specs.Closing.{StaysClosed, TerminatedGivesNothing};
ghost use Rattle.bcast_laws.specs.Receives.{KeepsAtMostCapacity, MissedThenGiven, ReadsByOwnCursor, ClonesAnswerAlike};
ghost use Rattle.bcast_laws.specs.Unread.{UnreadIsGiven};
ghost use Rattle.bcast_laws.specs.Order.{RunsHaveOneOrder};
ghost use Rattle.bcast_laws.specs.SendAll.{ListsStandInOnePiece};

pub mod deliveries;
pub mod states;

/// Law: a refused call leaves the channel as it was, and a refused send hands back its message, or
/// its list.
#[tactic(auto, using(crate::proofs::Refusals::refused_changes_nothing))]
pub fn refused_changes_nothing<T: Clone>()
    ensures { RefusedChangesNothing T.is_clone }
{}

/// Law: a call adds its messages, in their order, if its reply says that they were accepted, else
/// it adds none.
#[tactic(auto, using(crate::proofs::Sends::messages_added, crate::proofs::Sends::nothing_added))]
pub fn only_accepted_is_added<T: Clone>()
    ensures { OnlyAcceptedIsAdded T.is_clone }
{}

/// Law: a list that `try_broadcast_all` accepted is last, in its order, and in one piece: no other
/// message comes between, whatever calls follow. Each receiver that was there and reads past the
/// list is given each of its messages, or the message is counted as missed.
#[tactic(auto, using(crate::proofs::SendAll::stands_in_one_piece))]
pub fn lists_stand_in_one_piece<T: Clone>()
    ensures { ListsStandInOnePiece T.is_clone }
{}

/// Law: a pending send that is dropped before it is answered adds no message.
#[tactic(auto, using(crate::proofs::Sends::nothing_added))]
pub fn dropped_send_adds_nothing<T: Clone>()
    ensures { DroppedSendAddsNothing T.is_clone }
{}

/// Law: a closed channel stays closed, and each send on it is refused with its message.
#[tactic(auto, using(crate::proofs::Closing::stays_closed))]
pub fn stays_closed<T: Clone>()
    ensures { StaysClosed T.is_clone }
{}

/// Law: if `is_terminated` returns true, each receive returns that the channel is closed.
#[tactic(auto, using(crate::proofs::Closing::nothing_given))]
pub fn terminated_gives_nothing<T: Clone>()
    ensures { TerminatedGivesNothing T.is_clone }
{}

/// Law: a channel keeps at most as many messages as its capacity, and none without receivers.
#[tactic(auto, using(crate::proofs::Closing::none_kept, crate::proofs::Closing::len_within))]
pub fn keeps_at_most_capacity<T: Clone>()
    ensures { KeepsAtMostCapacity T.is_clone }
{}

/// Law: a `try_recv` that returns how many messages were missed counts at least one, and the next
/// one finds a message if it follows at once.
pub fn missed_then_given<T>()
    ensures { MissedThenGiven T }
{}

/// Law: a receiver that missed no message is given as many in a row as `unread` says, if no other
/// call comes between; one that missed some is told `missed` of them first.
#[tactic(auto, using(crate::proofs::Unread::unread_given))]
pub fn unread_is_given<T>()
    ensures { UnreadIsGiven T }
{}

/// Law: what a receive returns doesn't depend on what the other receivers read.
#[tactic(auto, using(crate::proofs::Answers::own_answer, crate::proofs::Answers::others_answer))]
pub fn reads_by_own_cursor<T>()
    ensures { ReadsByOwnCursor T }
{}

/// Law: a receiver and its new clone receive alike, also once the original has received.
pub fn clones_answer_alike<T: Clone>()
    ensures { ClonesAnswerAlike T.is_clone }
{}

/// Law: all receivers of a run are given the messages in one order, that of their acceptance.
#[tactic(auto, using(crate::proofs::Order::has_one_order))]
pub fn one_order<T: Clone>()
    ensures { RunsHaveOneOrder T.is_clone }
{}
