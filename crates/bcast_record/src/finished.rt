//! What a recorder stored, once it has ended.
ghost use Rattle.std.specs.Prelude.{◌≡◌, ◌<◌, Some, slice_get, map, IfOk};
ghost use Rattle.std.specs.List.{AllByRecursion};
ghost use Rattle.bcast_model.specs.Next.{HasPositiveCapacity};
ghost use Rattle.bcast_record.specs.Replay.{calls_of};

use crate::copy::copy_of_call;
use crate::entry::{Entry, Note, Receipt};
use bcast_core::Call;
use bcast_history::{Named, Opening, Whole};
use std::alloc::{AllocError, Allocator, Global};
use std::marker::Model;
use std::sync::ledger::Ledger;

/// What a recorder stored. A contract sees the recording.
#[derive(Drop)]
pub struct Finished<T, R: Ledger + Named, A: Allocator = Global> {
    pub(crate) opening: Opening,
    pub(crate) entries: Vec<Entry<T>, A>,
    pub(crate) journal: Whole<Note<T>, R>,
}

impl<T, R: Ledger + Named, A: Allocator> Model for Finished<T, R, A> {
    ghost use Rattle.std.specs.Prelude.{◌≡◌};
    ghost use Rattle.bcast_record.specs.Recording.{Recording, recording, notes_of};
    ghost use Rattle.bcast_record.specs.Replay.{MayRunAgain};

    ghost Value = { Recording T };

    ghost view = { λ f. recording f.opening f.entries.items };

    ghost invariant = { λ f. (f.journal ≡ notes_of f.opening f.entries.items)
        × MayRunAgain (recording f.opening f.entries.items) };
}

impl<T: Drop, R: Ledger + Named, A: Allocator> Finished<T, R, A> {
    /// What the recorder's channel was opened with.
    pub fn opening(&self) -> Opening
        ensures same { result ≡ self.now.opening }
        ensures positive { 0 < result.capacity }
    {
        self.opening
    }

    /// All calls with their replies, in the order in which they were answered.
    pub fn entries(&self) -> &[Entry<T>]
        ensures { result.now ≡ self.now.entries }
    {
        self.entries.as_slice()
    }

    /// The entry of a receipt of this recorder: with the seat's number, the call and the reply that
    /// the receipt names.
    pub fn entry_of(&self, receipt: &Receipt<T, R>) -> &Entry<T>
        ensures place { slice_get self.now.entries receipt.now.place ≡ Some result.now }
        ensures entry { result.now ≡ receipt.now.entry }
    {
        let place = receipt.place;
        self.journal.compare(&receipt.known);
        &self.entries[place]
    }
}

impl<T: Copy, R: Ledger + Named, A: Allocator + Copy> Finished<T, R, A> {
    /// The calls in order, to make them again: `run` takes them, with the capacity of the opening.
    ///
    /// # Errors
    ///
    /// - `AllocError`: no memory for the calls.
    pub fn calls(&self, alloc: A) -> Result<Vec<Call<T>, A>, AllocError>
        ensures same { IfOk result (λ calls. calls.items ≡ calls_of self.now) }
        ensures positive { IfOk result (λ calls. AllByRecursion HasPositiveCapacity calls.items) }
    {
        let calls = copies(alloc, self.entries.as_slice())?;
        Ok(calls)
    }
}

fn copies<T: Copy, A: Allocator + Copy>(
    alloc: A,
    entries: &[Entry<T>],
) -> Result<Vec<Call<T>, A>, AllocError>
    ensures { IfOk result (λ calls. calls.items ≡ map (λ entry. entry.call) entries.now) }
{
    let mut calls = Vec::with_capacity(alloc, entries.len())?;
    for entry in entries {
        calls.push_reserved(copy_of_call(&entry.call)?);
    }
    Ok(calls)
}
