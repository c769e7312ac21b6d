//! Receivers that receive nothing, and keep the channel open.
ghost use Rattle.std.specs.Prelude.{◌≡◌, Ok, Err, IfOk, IfErr};
ghost use Rattle.bcast_core.specs.declared.calls.handles.Change.TheVariants as change;
ghost use Rattle.async_broadcast.specs.Handles.{MakesHandle};

use crate::handle::{Handle, Role};
use crate::port::Port;
use crate::receiver::{Receiver, Receiving};
use bcast_core::{AddHandle, AddReceiver, Call, Change, HandleError, Reply};
use std::alloc::{Allocator, Global};

/// Receives nothing, and can become an active receiver.
///
/// While there is one, the channel isn't closed because receivers leave. Contracts name its `port`.
///
/// Source: `InactiveReceiver` of async-broadcast 0.7.2.
pub type InactiveReceiver<T, P, A = Global> = Handle<T, P, Inactive, A>;

/// The role of an `InactiveReceiver`.
#[derive(Drop)]
pub struct Inactive;

impl<T: Clone, P: Port<T>, A: Allocator + Copy> InactiveReceiver<T, P, A> {
    /// An inactive receiver over this port, whose channel has counted it: its drop asks
    /// `DropInactive`.
    ///
    /// Handles that are made by it take their memory from `alloc`.
    pub fn from_port(port: P, alloc: A) -> Self
        ensures { result.port ≡ port }
    {
        Handle::new(port, Inactive, alloc)
    }

    /// Turns the inactive receiver into an active one, whose first message is the next one that
    /// is accepted.
    ///
    /// # Errors
    ///
    /// Each hands the inactive receiver back as it was.
    ///
    /// - `Memory`: no memory for its cursor.
    ///
    /// ```rust
    /// let (sender, receiver) = broadcast(&rt, rt.alloc(), 1)?;
    /// let inactive = receiver.deactivate().ok().ok_or("no handle")?;
    /// let mut receiver = inactive.activate().ok().ok_or("no handle")?;
    /// assert!(rt; sender.try_broadcast(1).is_ok());
    /// assert!(rt; matches!(receiver.try_recv(), Ok(Ok(1))));
    /// ```
    ///
    /// Source: `InactiveReceiver::activate` of async-broadcast 0.7.2, which never refuses.
    pub fn activate(self) -> Result<Receiver<T, P, A>, (Self, HandleError)>
        ensures made { IfOk result (λ made. (made.port ≡ self.port)
            × P.gave self.port Call.Activate (Reply.Activate (Ok made.role.key))) }
        ensures refused { IfErr result (λ back. (back.0 ≡ self)
            × P.gave self.port Call.Activate (Reply.Activate (Err back.1))) }
    {
        match self.port.ask(&mut (), AddReceiver::Activate) {
            Ok(key) => Ok(self.with_role(Receiving::new(key))),
            Err(error) => Err((self, error)),
        }
    }

    /// Makes an active receiver, whose first message is the next one that is accepted. The
    /// inactive one stays.
    ///
    /// # Errors
    ///
    /// - `Memory`: no memory for the handle.
    ///
    /// ```rust
    /// let (sender, receiver) = broadcast(&rt, rt.alloc(), 1)?;
    /// let inactive = receiver.deactivate().ok().ok_or("no handle")?;
    /// let mut one = inactive.activate_cloned()?;
    /// let mut two = inactive.activate_cloned()?;
    /// assert!(rt; sender.try_broadcast(1).is_ok());
    /// assert!(rt; matches!(one.try_recv(), Ok(Ok(1))));
    /// assert!(rt; matches!(two.try_recv(), Ok(Ok(1))));
    /// ```
    ///
    /// Source: `InactiveReceiver::activate_cloned` of async-broadcast 0.7.2, which never refuses.
    pub fn activate_cloned(&self) -> Result<Receiver<T, P, A>, HandleError>
        ensures { MakesHandle P.gave P.lacks_memory self.now.port
            Call.ActivateCloned Reply.ActivateCloned (λ made. made.role.key) result }
    {
        let (port, key) = self.add_receiver(AddReceiver::ActivateCloned)?;
        Ok(Receiver::from_port(port, key, self.alloc))
    }

    /// Makes another inactive receiver of the channel.
    ///
    /// # Errors
    ///
    /// - `Memory`: no memory for the handle. The channel was not called.
    /// - `TooMany`: the channel can't count one more.
    ///
    /// ```rust
    /// let (sender, receiver) = broadcast::<u64, _, _>(&rt, rt.alloc(), 1)?;
    /// let one = receiver.deactivate().ok().ok_or("no handle")?;
    /// let two = one.clone()?;
    /// drop(one);
    /// assert!(rt; !sender.is_closed());
    /// drop(two);
    /// assert!(rt; sender.is_closed());
    /// ```
    ///
    /// Source: `InactiveReceiver::clone` of async-broadcast 0.7.2, which never refuses.
    pub fn clone(&self) -> Result<Self, HandleError>
        ensures { MakesHandle P.gave P.lacks_memory self.now.port
            Call.CloneInactive Reply.CloneInactive (λ _. tt) result }
    {
        let port = self.port.try_clone().ok_or(HandleError::Memory)?;
        self.port.ask(&mut (), AddHandle::Inactive)?;
        Ok(InactiveReceiver::from_port(port, self.alloc))
    }
}

impl Role for Inactive {
    ghost leaves = { λ _. change.DropInactive };

    #[inline(always)]
    fn leaving(&self) -> Change {
        Change::DropInactive
    }
}
