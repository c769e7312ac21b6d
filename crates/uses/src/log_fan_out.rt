//! A log whose readers agree on the order.
ghost use Rattle.std.specs.Prelude.{◌≡◌, ◌↔◌, ◌<◌, ◌∷◌, [], false, IfOk, IfErr, IfSome, IfNone, OnOk, OnErr, IsErrOf};
ghost use Rattle.bcast_model.specs.Words.{unsent_message, NoClone, opening, Answers, Represents};
ghost use Rattle.bcast_model.specs.declared.run.Call.TheVariants as call;
ghost use Rattle.bcast_model.specs.declared.run.Reply.TheVariants as reply;
ghost use Rattle.uses.specs.Sends.{send_answer, send_reply};
ghost use Rattle.uses.specs.Log.{unread, record_of, IsReader, IsFresh, KeepsReaders, AddsUnread, KeepsUnread, IsRead};

use bcast_core::{HandleError, Inner, RecvResult, Silent, TryRecvError, TrySendError};
use std::alloc::{AllocError, Global};
use std::marker::Model;

/// A log of numbers. Each reader reads them in the order of writing, from where it starts.
///
/// Contracts see the channel's view, and in it the `unread` records of each reader: a write puts
/// one record last for all of them, and a read takes the first of one reader.
#[derive(Drop)]
pub struct Log {
    inner: Inner<u64, Silent>,
}

impl Model for Log {
    ghost use Rattle.bcast_model.specs.Words.{View, view_code};
    ghost use Rattle.uses.specs.Log.{IsLog};
    ghost use Rattle.std.specs.Prelude.{ℕ};
    ghost use Rattle.std.specs.Coded.{coded_ℕ};

    ghost Value = { View ℕ };

    ghost coded = { view_code coded_ℕ };

    ghost view = { λ l. l.inner };

    ghost invariant = { λ l. IsLog l.inner };
}

impl Log {
    /// A log that keeps at most `capacity` records for its slowest reader, and the key of its first
    /// reader.
    ///
    /// # Errors
    ///
    /// `AllocError`: there is no memory for it.
    pub fn new(alloc: Global, capacity: usize) -> Result<(Self, usize), AllocError>
        requires { 0 < capacity }
        ensures reader { IfOk result (λ made. IsReader made.0 made.1) }
        ensures empty { IfOk result (λ made. unread made.0 made.1 ≡ []) }
        ensures capacity { IfOk result (λ made. made.0.control.capacity ≡ capacity) }
        ensures is_open { IfOk result (λ made. made.0.control.closed ≡ false) }
        ensures opened { IfOk result (λ made. Represents made.0 (opening capacity 0 made.1)) }
    {
        let (inner, reader) = Inner::new(alloc, capacity)?;
        Ok((Log { inner }, reader))
    }

    /// Writes a record, for all readers.
    ///
    /// # Errors
    ///
    /// The record is returned and nothing changes, for the first of these reasons that holds.
    /// - `Closed`: the log has numbered as many records as it can.
    /// - `Inactive`: there is no reader. No call here takes a reader out.
    /// - `Full`: some reader has `capacity` records still to read.
    pub fn write(&mut self, entry: u64) -> Result<(), TrySendError<u64>>
        ensures written { OnOk result (AddsUnread self.old self.new entry) }
        ensures readers { KeepsReaders self.old self.new }
        ensures back { IfErr result (λ error. unsent_message error ≡ entry) }
        ensures err { OnErr result (self.new ≡ self.old) }
        ensures answer { result ≡ send_answer self.old entry }
        ensures answers { Answers NoClone self.old (call.TryBroadcast entry)
            (reply.TryBroadcast (send_reply result)) self.new }
    {
        self.inner.try_broadcast(entry)?;
        Ok(())
    }

    /// Adds a reader that reads what this one is still to read, and returns the new one's key.
    ///
    /// # Errors
    ///
    /// Nothing changed.
    /// - `Gone`: there is no such reader.
    /// - `Memory`: there is no memory for the new one.
    pub fn add_reader(&mut self, reader: usize) -> Result<usize, HandleError>
        ensures added { IfOk result (λ made. unread self.new made ≡ unread self.old reader) }
        ensures others { IfOk result (λ made. KeepsUnread self.old self.new made) }
        ensures reader { IfOk result (IsReader self.new) }
        ensures fresh { IfOk result (IsFresh self.old) }
        ensures readers { KeepsReaders self.old self.new }
        ensures err { OnErr result (self.new ≡ self.old) }
        ensures gone { IsErrOf result HandleError.Gone ↔ (IsReader self.old reader → ⊥) }
        ensures memory { IsReader self.old reader
            → IfErr result (λ error. error ≡ HandleError.Memory) }
        ensures answers { Answers NoClone self.old (call.CloneReceiver reader)
            (reply.CloneReceiver result) self.new }
    {
        self.inner.clone_receiver(reader)
    }

    /// Reads a reader's next record. None: it has read all of them, or there is no such reader.
    pub fn read(&mut self, reader: usize) -> Option<u64>
        ensures first { IfSome result (λ entry.
            unread self.old reader ≡ entry ∷ unread self.new reader) }
        ensures none { IfNone result (unread self.old reader ≡ []) }
        ensures others { KeepsUnread self.old self.new reader }
        ensures readers { KeepsReaders self.old self.new }
        ensures answers { IsRead self.old reader result self.new }
    {
        into_record(self.inner.try_recv(reader))
    }
}

// The record that a receive gave, if it gave one.
fn into_record(received: RecvResult<u64, TryRecvError>) -> Option<u64>
    ensures { result ≡ record_of received }
{
    received.ok()?.ok()
}
