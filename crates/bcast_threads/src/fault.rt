//! Why a run of threads has no lists.
ghost use Rattle.std.specs.Prelude.{◌≡◌};
ghost use Rattle.bcast_threads.specs.declared.fault.Fault.TheVariants.{NoMemory, NoThread};

use async_broadcast::HandleError;
use std::alloc::{AllocError, AllocFailed};
use std::io;

/// Why a run has no lists to compare.
#[derive(Clone, Copy, Debug, PartialEq, Eq)]
pub enum Fault {
    /// There was no memory in some thread.
    NoMemory,
    /// A thread could not be started.
    NoThread,
    /// A receiver missed messages.
    Missed,
}

impl From<AllocError> for Fault {
    ghost from_gives = { λ _ fault. fault ≡ NoMemory };

    fn from(_refused: AllocError) -> Fault {
        Fault::NoMemory
    }
}

impl<T: Drop> From<AllocFailed<T>> for Fault {
    ghost from_gives = { λ _ fault. fault ≡ NoMemory };

    fn from(_refused: AllocFailed<T>) -> Fault {
        Fault::NoMemory
    }
}

// A run has too few handles for the channel to reply `TooMany`.
impl From<HandleError> for Fault {
    ghost from_gives = { λ _ fault. fault ≡ NoMemory };

    fn from(_refused: HandleError) -> Fault {
        Fault::NoMemory
    }
}

impl From<io::Error> for Fault {
    ghost from_gives = { λ _ fault. fault ≡ NoThread };

    fn from(_refused: io::Error) -> Fault {
        Fault::NoThread
    }
}
