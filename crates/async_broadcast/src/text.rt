//! What `{:?}` prints of handles and futures: the type's name. The channel itself is behind the
//! lock.
ghost use Rattle.std.specs.Prelude.{Some, codes};

use crate::future::{Recv, Send};
use crate::inactive::InactiveReceiver;
use crate::port::Ask;
use crate::receiver::Receiver;
use crate::sender::Sender;
use std::alloc::Allocator;
use std::fmt;

impl<T: Clone, P: Ask<T, ()>, A: Allocator> fmt::Debug for Sender<T, P, A> {
    ghost debug_output = { λ _. Some (codes "Sender { .. }") };

    fn fmt<W: fmt::Write>(&self, f: &mut fmt::Formatter<W>) -> fmt::Result {
        f.write_str("Sender { .. }")
    }
}

impl<T: Clone, P: Ask<T, ()>, A: Allocator> fmt::Debug for Receiver<T, P, A> {
    ghost debug_output = { λ _. Some (codes "Receiver { .. }") };

    fn fmt<W: fmt::Write>(&self, f: &mut fmt::Formatter<W>) -> fmt::Result {
        f.write_str("Receiver { .. }")
    }
}

impl<T: Clone, P: Ask<T, ()>, A: Allocator> fmt::Debug for InactiveReceiver<T, P, A> {
    ghost debug_output = { λ _. Some (codes "InactiveReceiver { .. }") };

    fn fmt<W: fmt::Write>(&self, f: &mut fmt::Formatter<W>) -> fmt::Result {
        f.write_str("InactiveReceiver { .. }")
    }
}

impl<T: Clone, P: Ask<T, ()>, A: Allocator> fmt::Debug for Send<'_, T, P, A> {
    ghost debug_output = { λ _. Some (codes "Send { .. }") };

    fn fmt<W: fmt::Write>(&self, f: &mut fmt::Formatter<W>) -> fmt::Result {
        f.write_str("Send { .. }")
    }
}

impl<T: Clone, P: Ask<T, ()>, A: Allocator> fmt::Debug for Recv<'_, T, P, A> {
    ghost debug_output = { λ _. Some (codes "Recv { .. }") };

    fn fmt<W: fmt::Write>(&self, f: &mut fmt::Formatter<W>) -> fmt::Result {
        f.write_str("Recv { .. }")
    }
}
