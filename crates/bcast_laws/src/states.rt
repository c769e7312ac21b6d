//! What holds of each state, each reply and each list: laws of the definitions.
ghost use Rattle.bcast_model.specs.Laws.{OpeningIsValid, NextIsValid, ViewsAreShown, RepliesAreExact, ReceivedIsGiven, PollsWaitWhereTriesFindNothing};
ghost use Rattle.bcast_model.specs.ListLaws.{ListsStayInOrder};
ghost use Rattle.bcast_model.specs.ToldPolls.{ToldPollsComeToRest};

/// Law: a new channel is in a valid state.
pub fn opening_is_valid<T>()
    ensures { OpeningIsValid T }
{}

/// Law: a legal reply to a call leads from a valid state to a valid one. So no wake-up is lost.
#[tactic(auto, using(bcast_model::proofs::Answers::next_valid))]
pub fn next_is_valid<T: Clone>()
    ensures { NextIsValid T.is_clone }
{}

/// Law: a view is the view of some valid state exactly if its own parts fit
/// together.
pub fn views_are_shown<T>()
    ensures { ViewsAreShown T }
{}

/// Law: if a clone equals its original, a receive gives the accepted message itself.
#[tactic(auto, using(bcast_model::proofs::Clones::legal_exact))]
pub fn replies_are_exact<T: Clone>()
    ensures { RepliesAreExact T.is_clone }
{}

/// Law: what a receive hands out is one of the messages that are kept, or a clone of one.
#[tactic(auto, using(bcast_model::proofs::Clones::received_given))]
pub fn received_is_given<T: Clone>()
    ensures { ReceivedIsGiven T.is_clone }
{}

/// Law: a poll waits exactly if the try of the same name finds nothing to return.
#[tactic(auto, using(bcast_model::proofs::Polls::polls_wait))]
pub fn polls_wait_where_tries_find_nothing<T: Clone>()
    ensures { PollsWaitWhereTriesFindNothing T.is_clone }
{}

/// Law: told polls come to rest. If n listeners wait, then at most n (n + 1) / 2 calls in a row
/// poll a listener that is told just before, if none is out of memory. If no listener is told,
/// none of their polls would be answered.
#[tactic(auto, using(bcast_model::proofs::ToldPolls::comes_to_rest))]
pub fn told_polls_come_to_rest<T: Clone>()
    ensures { ToldPollsComeToRest T.is_clone }
{}

/// Law: the lists of listeners. No id is listed twice, no more are told than wait, and each keeps
/// its position.
pub fn lists_stay_in_order<A>()
    ensures { ListsStayInOrder A }
{}
