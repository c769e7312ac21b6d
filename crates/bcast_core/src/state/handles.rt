//! Handles that are made or dropped, closing, and the settings.
ghost use Rattle.std.specs.Prelude.{◌<◌};
ghost use Rattle.bcast_model.specs.Words.{NoClone, Answers};

use super::Inner;
use bcast_model::error::HandleError;
use bcast_model::run::{Call, Reply};
use bcast_waiting::notice::Notice;
use std::alloc::{AllocError, Allocator};

impl<T: Drop, N: Notice, A: Allocator + Copy> Inner<T, N, A> {
    /// Counts one more sender. A closed channel stays closed.
    ///
    /// # Errors
    ///
    /// `TooMany`: the count is the greatest `usize`. Nothing changed.
    #[inline(always)]
    pub fn new_sender(&mut self) -> Result<(), HandleError>
        ensures { Answers NoClone self.old Call.NewSender (Reply.NewSender result) self.new }
    {
        if self.parts.senders == usize::MAX {
            return Err(HandleError::TooMany);
        }
        self.parts.senders += 1;
        Ok(())
    }

    /// Counts one more inactive receiver.
    ///
    /// # Errors
    ///
    /// Nothing changed.
    /// - `Gone`: there is no inactive receiver.
    /// - `TooMany`: the count is the greatest `usize`.
    pub fn clone_inactive(&mut self) -> Result<(), HandleError>
        ensures { Answers NoClone self.old Call.CloneInactive (Reply.CloneInactive result)
            self.new }
    {
        if self.parts.inactive == 0 {
            return Err(HandleError::Gone);
        }
        if self.parts.inactive == usize::MAX {
            return Err(HandleError::TooMany);
        }
        self.parts.inactive += 1;
        Ok(())
    }

    /// Makes the receiver of this key inactive, in one step: an open channel stays open. Its cursor
    /// is removed, and the messages that no other receiver has to read are dropped.
    ///
    /// # Errors
    ///
    /// Nothing changed.
    /// - `Gone`: there is no such receiver.
    /// - `TooMany`: the count of inactive receivers is the greatest `usize`.
    pub fn deactivate(&mut self, key: usize) -> Result<(), HandleError>
        ensures { Answers NoClone self.old (Call.Deactivate key) (Reply.Deactivate result)
            self.new }
    {
        let Some(_) = self.parts.store.cursor(key) else {
            return Err(HandleError::Gone);
        };
        if self.parts.inactive == usize::MAX {
            return Err(HandleError::TooMany);
        }
        self.parts.remove_receiver(key);
        self.parts.inactive += 1;
        self.parts.tell_a_sender();
        Ok(())
    }

    /// Adds a receiver that reads the messages sent from now on, and returns its key.
    ///
    /// # Errors
    ///
    /// `Memory`: memory for it was refused. Nothing changed.
    #[inline(always)]
    pub fn new_receiver(&mut self) -> Result<usize, HandleError>
        ensures { Answers NoClone self.old Call.NewReceiver (Reply.NewReceiver result) self.new }
    {
        let end = self.parts.store.end();
        let made = self.parts.add_receiver(end);
        if !self.parts.sends.is_empty() {
            self.parts.tell_a_sender();
        }
        made
    }

    /// Makes an inactive receiver an active one, which reads the messages sent from now on.
    ///
    /// # Errors
    ///
    /// Nothing changed.
    /// - `Gone`: there is no inactive receiver.
    /// - `Memory`: memory for the receiver was refused.
    pub fn activate(&mut self) -> Result<usize, HandleError>
        ensures { Answers NoClone self.old Call.Activate (Reply.Activate result) self.new }
    {
        if self.parts.inactive == 0 {
            return Err(HandleError::Gone);
        }
        let end = self.parts.store.end();
        let Ok(active) = self.parts.add_receiver(end) else {
            return Err(HandleError::Memory);
        };
        self.parts.inactive -= 1;
        self.parts.tell_a_sender();
        Ok(active)
    }

    /// Adds a receiver that reads the messages sent from now on, and keeps the inactive one.
    ///
    /// # Errors
    ///
    /// Nothing changed.
    /// - `Gone`: there is no inactive receiver.
    /// - `Memory`: memory for the receiver was refused.
    pub fn activate_cloned(&mut self) -> Result<usize, HandleError>
        ensures { Answers NoClone self.old Call.ActivateCloned (Reply.ActivateCloned result)
            self.new }
    {
        if self.parts.inactive == 0 {
            return Err(HandleError::Gone);
        }
        let end = self.parts.store.end();
        let cloned = self.parts.add_receiver(end);
        self.parts.tell_a_sender();
        cloned
    }

    /// Adds a receiver that has the same messages to read as the receiver of this key.
    ///
    /// # Errors
    ///
    /// Nothing changed.
    /// - `Gone`: there is no such receiver.
    /// - `Memory`: memory for the new one was refused.
    #[inline(always)]
    pub fn clone_receiver(&mut self, key: usize) -> Result<usize, HandleError>
        ensures { Answers NoClone self.old (Call.CloneReceiver key) (Reply.CloneReceiver result)
            self.new }
    {
        let Some(cursor) = self.parts.store.cursor(key) else {
            return Err(HandleError::Gone);
        };
        let made = self.parts.add_receiver(cursor);
        if !self.parts.sends.is_empty() {
            self.parts.tell_a_sender();
        }
        made
    }

    /// Counts one sender fewer. If none is left then, the channel is closed. If there was none,
    /// nothing changes.
    #[inline(always)]
    pub fn drop_sender(&mut self)
        ensures { Answers NoClone self.old Call.DropSender Reply.DropSender self.new }
    {
        if self.parts.senders > 0 {
            self.parts.senders -= 1;
            self.parts.close_if_deserted();
        }
    }

    /// Counts one inactive receiver fewer. If neither an inactive nor an active one is left then,
    /// the channel is closed. If there was no inactive one, nothing changes.
    pub fn drop_inactive(&mut self)
        ensures { Answers NoClone self.old Call.DropInactive Reply.DropInactive self.new }
    {
        if self.parts.inactive > 0 {
            self.parts.inactive -= 1;
            self.parts.close_if_deserted();
        }
    }

    /// Removes the receiver of this key: its stream and its future wait no more, and the messages
    /// that no other receiver has to read are dropped. If neither an active nor an inactive one is
    /// left, the channel is closed. With an unknown key nothing changes.
    #[inline(always)]
    pub fn drop_receiver(&mut self, key: usize)
        ensures { Answers NoClone self.old (Call.DropReceiver key) Reply.DropReceiver self.new }
    {
        if !self.parts.remove_receiver(key) {
            return;
        }
        self.parts.close_if_deserted();
        if !self.parts.sends.is_empty() {
            self.parts.tell_a_sender();
        }
    }

    /// Closes the channel, and returns whether it was open. All that wait are told.
    ///
    /// It never opens again. Messages that are kept can still be received. Allocates nothing.
    pub fn close(&mut self) -> bool
        ensures { Answers NoClone self.old Call.Close (Reply.Close result) self.new }
    {
        let was_open = !self.parts.closed;
        self.parts.close();
        self.parts.tell_a_sender();
        was_open
    }

    /// Sets the capacity. If fewer messages fit than are kept, the oldest are dropped, also if
    /// overflow is off.
    ///
    /// # Errors
    ///
    /// `AllocError`: `n` is greater than every capacity so far, and memory for it was refused.
    /// Nothing changed.
    #[inline(always)]
    pub fn set_capacity(&mut self, n: usize) -> Result<(), AllocError>
        requires { 0 < n }
        ensures { Answers NoClone self.old (Call.SetCapacity n) (Reply.SetCapacity result)
            self.new }
    {
        // A program that isn't proved stops here.
        prove!(n > 0);
        let set = self.parts.set_capacity(n);
        self.parts.tell_a_sender();
        set
    }

    /// Sets whether a full channel drops its oldest message for a new one.
    pub fn set_overflow(&mut self, on: bool)
        ensures { Answers NoClone self.old (Call.SetOverflow on) Reply.SetOverflow self.new }
    {
        self.parts.overflow = on;
        self.parts.tell_a_sender();
    }

    /// Sets whether sends wait while there is no active receiver.
    pub fn set_await_active(&mut self, on: bool)
        ensures { Answers NoClone self.old (Call.SetAwaitActive on) Reply.SetAwaitActive self.new }
    {
        self.parts.await_active = on;
        self.parts.tell_a_sender();
    }
}
