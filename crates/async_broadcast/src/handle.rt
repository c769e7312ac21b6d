//! The type of all handles.
ghost use Rattle.std.specs.Prelude.{◌≡◌, ◌⊎◌, Ok, Err, IfOk, IfErr};
ghost use Rattle.bcast_core.specs.Calls.{change_call, change_reply, receiver_call, receiver_reply};
ghost use Rattle.async_broadcast.specs.Ports.{IsSame};

use crate::port::{Ask, Port};
use bcast_core::{AddReceiver, Change, HandleError};
use std::alloc::{Allocator, Global};
use std::marker::PhantomData;

/// A handle of a channel: a `Sender`, a `Receiver` or an `InactiveReceiver`, by its role.
///
/// Contracts name its `port`, and of a receiver `role.key`.
pub struct Handle<T: Clone, P: Ask<T, ()>, H: Role, A: Allocator = Global> {
    pub(crate) port: P,
    pub(crate) role: H,
    // For futures, and for handles made here.
    pub(crate) alloc: A,
    messages: PhantomData<T>,
}

/// What a handle is counted as by its channel.
pub trait Role: Sized + Drop {
    ghost use Rattle.bcast_core.specs.declared.calls.handles.Change.{Change};

    // The call that the handle's drop makes.
    ghost leaves: { Self → Change };

    /// The call that the handle's drop makes.
    fn leaving(&self) -> Change
        ensures { result ≡ leaves self.now };
}

impl<T: Clone, P: Ask<T, ()>, H: Role, A: Allocator> Handle<T, P, H, A> {
    pub(crate) fn new(port: P, role: H, alloc: A) -> Self
        ensures { (result.port ≡ port) × (result.role ≡ role) }
    {
        Handle {
            port,
            role,
            alloc,
            messages: PhantomData,
        }
    }

    // The handle in another role. Makes no call.
    pub(crate) fn with_role<I: Role>(self, role: I) -> Handle<T, P, I, A>
        ensures { (result.port ≡ self.port) × (result.role ≡ role) }
    {
        let Handle {
            port,
            role: _,
            alloc,
            messages: _,
        } = self;
        Handle::new(port, role, alloc)
    }
}

impl<T: Clone, P: Port<T>, H: Role, A: Allocator + Copy> Handle<T, P, H, A> {
    /// Another port of the channel, and the key of the receiver that this call adds. The call isn't
    /// made if there is no memory for the port.
    ///
    /// The handle is made of both by the caller: a handle in a `Result` would be copied once more.
    #[inline(always)]
    pub(crate) fn add_receiver(&self, call: AddReceiver) -> Result<(P, usize), HandleError>
        ensures channel { IfOk result (λ made. IsSame P.gave made.0 self.now.port) }
        ensures made { IfOk result (λ made. P.gave self.now.port (receiver_call call)
            (receiver_reply call (Ok made.1))) }
        ensures refused { IfErr result (λ error.
            ((error ≡ HandleError.Memory) × P.lacks_memory self.now.port)
            ⊎ P.gave self.now.port (receiver_call call) (receiver_reply call (Err error))) }
    {
        let port = self.port.try_clone().ok_or(HandleError::Memory)?;
        let key = self.port.ask(&mut (), call)?;
        Ok((port, key))
    }
}

impl<T: Clone, P: Ask<T, ()>, H: Role, A: Allocator> Drop for Handle<T, P, H, A> {
    fn drop(self)
        ensures { P.gave self.port (change_call (H.leaves self.role))
            (change_reply (H.leaves self.role) tt) }
    {
        self.port.ask(&mut (), self.role.leaving());
        let Handle {
            port: _,
            role: _,
            alloc: _,
            messages: _,
        } = self;
    }
}
