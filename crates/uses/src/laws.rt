//! Laws of what is seen of a channel without overflow, on which callers rely from one call to the
//! next.
ghost use Rattle.uses.specs.Reading.{OpensWithRoom, SendsWithRoom, ReadsInOrder, ClonesWithRoom, AddsWithRoom};

/// Law: a new channel has room for as many messages as its capacity, if that is not the greatest
/// `usize`, and its receiver has none to read.
pub fn opens_with_room<T>()
    ensures { OpensWithRoom T }
{}

/// Law: a message for which there is room is accepted, comes last for every reader, and takes the
/// room of one.
pub fn sends_with_room<T>()
    ensures { SendsWithRoom T }
{}

/// Law: if a clone equals its original, each reader is given the messages in the order of sending.
pub fn reads_in_order<T: Clone>()
    ensures { ReadsInOrder T.is_clone }
{}

/// Law: a clone of a receiver has a key of its own, and is still to read what its original is. What
/// the others are still to read stays, and so does the room.
pub fn clones_with_room<T>()
    ensures { ClonesWithRoom T }
{}

/// Law: a new receiver has a key of its own, and nothing to read yet. What the others are still to
/// read stays, and so does the room.
pub fn adds_with_room<T>()
    ensures { AddsWithRoom T }
{}
