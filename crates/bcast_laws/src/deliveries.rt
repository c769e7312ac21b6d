//! What the receivers of a run are given: laws of the definitions.
ghost use Rattle.bcast_model.specs.DeliveryLaws.{DeliveriesAreExact, DeliveriesTile, DroppedNumbersRise, MissedWereDropped};

/// Law: in each run the deliveries of every receiver are exact. They are the accepted messages from
/// its start to its cursor, in order: each message itself or a clone of it, or a missed one.
#[tactic(auto, using(bcast_model::proofs::DeliveryLemmas::deliveries_exact))]
pub fn deliveries_are_exact<T: Clone>()
    ensures { DeliveriesAreExact T.is_clone }
{}

/// Law: the messages that a run drops have rising numbers. So none is dropped twice, and those that
/// overflow hands back are in the order of their acceptance.
#[tactic(auto, using(bcast_model::proofs::MissedLemmas::dropped_rise))]
pub fn dropped_numbers_rise<T: Clone>()
    ensures { DroppedNumbersRise T.is_clone }
{}

/// Law: at each point of each run, what a receive counts as missed was dropped by an earlier call,
/// and the message that it gives was not.
pub fn missed_were_dropped<T: Clone>()
    ensures { MissedWereDropped T.is_clone }
{}

/// Law: from each point of each run on, the deliveries of every receiver are the messages that it
/// was given and those that calls of the run dropped. None is given after it was dropped.
pub fn deliveries_tile<T: Clone>()
    ensures { DeliveriesTile T.is_clone }
{}
