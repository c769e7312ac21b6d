//! What follows from what calls tell.
ghost use Rattle.bcast_model.specs.Words.{NoClone};
ghost use Rattle.bcast_history.specs.Laws.{MessagesStay, SendsStandLast, ReceiversReadOn};
ghost use Rattle.bcast_history.specs.Laws.{ClosedIsLast, EndIsLast};
ghost use Rattle.bcast_history.specs.Log.{LogsAreAccepted};

/// Law: a message keeps its number, whatever calls follow. So what two receivers are given of the
/// same number is the same message, or a clone of it.
#[tactic(auto, using(crate::proofs::Sent::messages_stay))]
pub fn messages_stay<T: Clone>()
    ensures { MessagesStay T }
{}

/// Law: the messages of a call that were accepted come last of all that were accepted till then.
/// Before them are all that the caller knew of, in the order in which it knew them.
pub fn sends_stand_last<T: Clone>()
    ensures { SendsStandLast T.is_clone }
{}

/// Law: what a call gives a receiver are the accepted messages from its cursor on, each the message
/// itself, a clone, or that it is counted as missed; and its cursor is then after them.
pub fn receivers_read_on<T: Clone>()
    ensures { ReceiversReadOn T.is_clone }
{}

/// Law: a receiver's log of all messages from the first on is what the channel had accepted, if it
/// ends where the channel ended: of the messages themselves, or of clones if these are equal. So
/// two such logs are the same list.
pub fn logs_are_accepted<T: Clone>()
    ensures messages { LogsAreAccepted {T = T} NoClone }
    ensures clones { LogsAreAccepted T.is_clone }
{}

/// Law: once a receive has returned `Closed`, each later one of the same receiver does. So after
/// `Closed` there is never a message.
#[tactic(auto, using(crate::proofs::Closed::closed_is_last))]
pub fn closed_is_last<T: Clone>()
    ensures { ClosedIsLast T.is_clone }
{}

/// Law: once a stream has ended, it stays so, if memory isn't refused.
#[tactic(auto, using(crate::proofs::Closed::end_is_last))]
pub fn end_is_last<T: Clone>()
    ensures { EndIsLast T.is_clone }
{}
