//! What a recorder stores, and the receipts that callers get for it.
ghost use Rattle.std.specs.Prelude.{◌≡◌};

use bcast_core::{Call, Reply};
use bcast_history::{Named, Notes, Opening, Prefix};
use std::marker::Model;
use std::sync::ledger::Ledger;

/// One call on a recorder, and its reply.
#[derive(Drop)]
pub struct Entry<T> {
    /// The number of the seat that made the call.
    pub seat: usize,
    pub call: Call<T>,
    pub reply: Reply<T>,
}

/// What the journal of a recorder notes: first what it was opened with, and then each entry.
/// Contracts see it; no value of it is made.
#[derive(Drop)]
pub enum Note<T> {
    Opened(Opening),
    Answered(Entry<T>),
}

impl<T> Notes<Note<T>> for Opening {
    ghost use Rattle.bcast_record.specs.declared.entry.Note.TheVariants as variant;

    ghost note = { λ opening. variant.Opened opening };
}

impl<T> Notes<Note<T>> for Entry<T> {
    ghost use Rattle.bcast_record.specs.declared.entry.Note.TheVariants as variant;

    ghost note = { λ entry. variant.Answered entry };
}

/// Names an entry of a recorder. A contract sees the entry and its index.
#[derive(Drop)]
pub struct Receipt<T, R: Ledger + Named> {
    pub(crate) place: usize,
    pub(crate) entry: Entry<T>,
    // The recorder's journal up to the entry, at least.
    pub(crate) known: Prefix<Note<T>, R>,
}

impl<T, R: Ledger + Named> Model for Receipt<T, R> {
    ghost use Rattle.std.specs.Prelude.{◌≡◌, suc, Some, slice_get};
    ghost use Rattle.bcast_record.specs.declared.entry.Note.TheVariants as note;
    ghost use Rattle.bcast_record.specs.Recording.{Placed};

    ghost Value = { Placed T };

    ghost view = { λ r. record { place = r.place; entry = r.entry } };

    ghost invariant = { λ r. slice_get r.known (suc r.place) ≡ Some (note.Answered r.entry) };
}

impl<T, R: Ledger + Named> Receipt<T, R> {
    /// The index of the entry among the recorder's entries.
    pub fn place(&self) -> usize
        ensures { result ≡ self.now.place }
    {
        self.place
    }

    /// The entry: the seat's number, the call and the reply.
    pub fn entry(&self) -> &Entry<T>
        ensures { result.now ≡ self.now.entry }
    {
        &self.entry
    }
}
