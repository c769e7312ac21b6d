//! A list of messages, as one value of a call.
ghost use Rattle.std.specs.Prelude.{◌≡◌, ◌==◌, length, IfOk};
ghost use Rattle.std.specs.Cmp.Lexicographic.{pointwise, lists_per};
ghost use Rattle.std.specs.List.{AllZip};
ghost use Rattle.bcast_model.specs.Encodings.{in_lists};

use crate::error::TrySendError;
use std::alloc::AllocError;
use std::fmt;
use std::marker::Model;

/// Messages in order, which one call sends as a whole. A contract sees the list of them.
#[derive(Drop)]
pub struct Messages<T> {
    items: Vec<T>,
}

impl<T> Model for Messages<T> {
    ghost use Rattle.std.specs.Prelude.{List};
    ghost use Rattle.std.specs.Coded.{coded_list};

    ghost Value = { List T };

    ghost coded = { coded_list T.code };

    ghost view = { λ m. m.items.items };
}

impl<T> Messages<T> {
    /// These messages. Allocates nothing.
    pub fn new(items: Vec<T>) -> Messages<T>
        ensures { result ≡ items.items }
    {
        Messages { items }
    }

    /// The messages, in the vector in which they were given. Allocates nothing.
    pub fn into_vec(self) -> Vec<T>
        ensures { result.items ≡ self }
    {
        let Messages { items } = self;
        items
    }

    /// How many messages there are.
    pub fn len(&self) -> usize
        ensures { result ≡ length self.now }
    {
        self.items.len()
    }

    /// Whether there is no message.
    pub fn is_empty(&self) -> bool
        ensures { result ≡ (length self.now == 0) }
    {
        self.items.len() == 0
    }

    /// The messages in order.
    pub fn as_slice(&self) -> &[T]
        ensures { result.now ≡ self.now }
    {
        self.items.as_slice()
    }
}

impl<T: Copy> Messages<T> {
    /// A copy of the messages.
    ///
    /// # Errors
    ///
    /// - `AllocError`: out of memory.
    pub fn copied(&self) -> Result<Messages<T>, AllocError>
        ensures { IfOk result (λ copy. copy ≡ self.now) }
    {
        let items = Vec::from_slice(*self.items.allocator(), self.items.as_slice())?;
        Ok(Messages { items })
    }
}

impl<T: Clone> Clone for Messages<T> {
    ghost is_clone = { AllZip T.is_clone };

    fn clone(&self) -> Result<Self, AllocError> {
        let items = self.items.clone()?;
        Ok(Messages { items })
    }
}

impl<T: PartialEq> PartialEq for Messages<T> {
    ghost eq = { pointwise T.eq };

    ghost laws = { lists_per T.laws };

    fn eq(&self, other: &Self) -> bool {
        self.as_slice() == other.as_slice()
    }
}

impl<T: fmt::Debug> fmt::Debug for Messages<T> {
    fn fmt<W: fmt::Write>(&self, f: &mut fmt::Formatter<W>) -> fmt::Result {
        f.debug_list().entries(self.as_slice()).finish()
    }
}

/// The result with refused messages in the vector in which they were given.
pub fn in_vec<T>(sent: Result<(), TrySendError<Messages<T>>>) -> Result<(), TrySendError<Vec<T>>>
    ensures { in_lists result ≡ sent }
{
    match sent {
        Ok(()) => Ok(()),
        Err(TrySendError::Full(msgs)) => Err(TrySendError::Full(msgs.into_vec())),
        Err(TrySendError::Closed(msgs)) => Err(TrySendError::Closed(msgs.into_vec())),
        Err(TrySendError::Inactive(msgs)) => Err(TrySendError::Inactive(msgs.into_vec())),
    }
}
