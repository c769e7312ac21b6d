//! The kinds of listeners that a receiver has.

/// Whether a receiver's listener is the receiver itself, as a stream, or a future over it.
#[derive(Clone, Copy, Debug, PartialEq, Eq)]
pub enum Kind {
    /// The receiver, polled as a stream.
    Stream,
    /// A future made by the receiver.
    Future,
}
