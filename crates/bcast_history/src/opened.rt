//! A channel that was made, before it has a name, and its first handles.
ghost use Rattle.std.specs.Prelude.{◌≡◌, ◌<◌, [], Some, IfOk};

use crate::journal::Journal;
use crate::port::History;
use crate::receiver::TrackedReceiver;
use crate::sender::TrackedSender;
use crate::step::{Opening, Step};
use crate::steps::StepJournal;
use crate::tracker::{Channel, TrackedCaller, Tracker};
use async_broadcast::{Lock, PortFor, Wake};
use bcast_core::Inner;
use claims::Registry;
use std::alloc::{AllocError, Allocator, Global};
use std::marker::Model;
use std::sync::Wait;

/// A channel on which no call was made, its journal, and the registry in which its receivers'
/// cursors are claimed. They have no name yet. A contract sees what a name has to say of them.
#[derive(Drop)]
pub struct Opened<T: Clone, A: Allocator = Global> {
    inner: Inner<T, Wake, A>,
    opening: Opening,
    journal: Journal<Step<T>>,
    registry: Registry,
}

impl<T: Clone, A: Allocator> Model for Opened<T, A> {
    ghost use Rattle.std.specs.Prelude.{◌≡◌, []};
    ghost use Rattle.bcast_model.specs.Words.{IsValid, Represents};
    ghost use Rattle.bcast_history.specs.History.{Opened, start_of};

    ghost Value = { Opened };

    ghost view = { λ o. record {
      book = o.journal;
      opening = o.opening;
      registry = o.registry.name;
    } };

    ghost invariant = { λ o. Represents o.inner (start_of {T = T} o.opening)
        × IsValid (start_of {T = T} o.opening) × (o.registry.claims ≡ []) };
}

impl<T: Clone, A: Allocator + Copy> Opened<T, A> {
    /// A channel that keeps at most `cap` messages at once, as `async_broadcast::broadcast` makes
    /// it.
    ///
    /// # Errors
    ///
    /// - `AllocError`: no memory for the channel.
    pub fn new(alloc: A, cap: usize) -> Result<Self, AllocError>
        requires { 0 < cap }
        ensures { IfOk result (λ opened. (opened.opening.capacity ≡ cap)
            × (opened.opening.first_number ≡ 0)) }
    {
        let (inner, first_key) = Inner::new(alloc, cap)?;
        let opening = Opening {
            capacity: cap,
            first_number: 0,
            first_key,
        };
        Ok(Opened {
            inner,
            opening,
            journal: Journal::new(),
            registry: Registry::new(),
        })
    }
}

/// The first sender and the first receiver of a channel.
pub type FirstHandles<T, P, J> = (TrackedSender<T, P, J>, TrackedReceiver<T, P, J>);

/// Makes the first sender and the first receiver of this channel, whose name is `J`. They know no
/// step.
///
/// # Errors
///
/// - `AllocError`: no memory for what the handles share. The channel is dropped.
pub fn broadcast<T: Clone, R: Wait + Clone, J: Channel, A: Allocator + Copy>(
    rt: R,
    alloc: A,
    opened: Opened<T, A>,
) -> Result<FirstHandles<T, History<T, R, J, A>, J>, AllocError>
    requires { (opened.book ≡ J.book) × (opened.opening ≡ J.opening)
        × (opened.registry ≡ J.registry) }
    ensures sender { IfOk result (λ made. made.0.tracker.steps ≡ []) }
    ensures receiver { IfOk result (λ made. made.1.tracker ≡ record {
      steps = [];
      key = J.opening.first_key;
      next = Some J.opening.first_number;
    }) }
{
    let Opened {
        inner,
        opening,
        journal,
        mut registry,
    } = opened;
    let writer = journal.into_writer();
    let (key, first) = (opening.first_key, opening.first_number);
    let caller = TrackedCaller::new(&mut registry, writer.prefix(), first, key, first);
    let receives = Tracker { caller };
    let tracker = receives.of_sender();
    let steps = StepJournal::new(writer, registry);
    let port = Lock::with_journal(rt, alloc, inner, steps)?;
    let other = port.try_clone().ok_or(AllocError)?;
    Ok((
        TrackedSender { port, tracker },
        TrackedReceiver::new(other, receives),
    ))
}
