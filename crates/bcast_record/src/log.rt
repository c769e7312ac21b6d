//! A channel with the calls that were made on it, and their replies.
ghost use Rattle.std.specs.Prelude.{◌≡◌, ◌+◌, ◌<◌, ◌≤◌, length, Some, IfOk, IfErr, OnOk, vec_len, slice_get, sum_by};
ghost use Rattle.bcast_model.specs.Next.{HasPositiveCapacity};
ghost use Rattle.bcast_record.specs.declared.entry.Note.TheVariants as note;
ghost use Rattle.bcast_record.specs.Recording.{new_recording, notes_of, with_entry};
ghost use Rattle.bcast_record.specs.Replay.{IsRecordedRun, Replays};
ghost use Rattle.bcast_record.specs.Seats.{new_seats, answered};

use crate::copy::Spares;
use crate::entry::{Entry, Note, Receipt};
use crate::finished::Finished;
use crate::seat::{Seat, gather, make_seats};
use bcast_core::{Call, Inner, NoMemory, Silent, step};
use bcast_history::{Journal, Named, Opening, Prefix, Writer};
use std::alloc::{AllocError, Allocator, Global};
use std::marker::Model;
use std::sync::ledger::{Blank, Book, Ledger, Share};

/// A channel that stores each call that is made on it, with the seat's number and the reply.
///
/// A contract sees the recording: what the channel was opened with, and the entries.
#[derive(Drop)]
pub struct Log<T: Copy + Clone, R: Ledger + Named, A: Allocator = Global> {
    opening: Opening,
    inner: Inner<T, Silent, A>,
    entries: Vec<Entry<T>, A>,
    journal: Writer<Note<T>, R>,
    // How many calls of all seats together were answered.
    calls: Book<R>,
    // The part of the ledger that no seat has.
    rest: Share<R>,
}

impl<T: Copy + Clone, R: Ledger + Named, A: Allocator> Model for Log<T, R, A> {
    ghost use Rattle.std.specs.Prelude.{◌≡◌, vec_len};
    ghost use Rattle.bcast_record.specs.Recording.{Recording, recording, notes_of};
    ghost use Rattle.bcast_record.specs.Replay.{Replays, MayRunAgain};

    ghost Value = { Recording T };

    ghost view = { λ s. recording s.opening s.entries.items };

    ghost invariant = { λ s. Replays T.is_clone (recording s.opening s.entries.items) s.inner
        × (s.journal ≡ notes_of s.opening s.entries.items)
        × (s.calls.total ≡ vec_len s.entries)
        × ((s.rest.parts ≡ 1) × (s.rest.amount ≡ 0))
        × MayRunAgain (recording s.opening s.entries.items) };
}

impl<T: Copy + Clone, R: Ledger + Named, A: Allocator + Copy> Log<T, R, A> {
    /// A new channel of this capacity, the key of its first receiver, and this many seats.
    ///
    /// The channel is as `Inner::new` makes it. The seats are numbered from 0.
    ///
    /// `calls` is a new ledger, with a part for each seat and one more, and `journal` a new
    /// journal: those that the parameter `R` names.
    ///
    /// # Errors
    ///
    /// - `AllocError`: no memory for the channel or the seats.
    pub fn new(
        alloc: A,
        cap: usize,
        seats: usize,
        calls: Blank,
        journal: Journal<Note<T>>,
    ) -> Result<(Self, usize, Vec<Seat<R>, A>), AllocError>
        requires capacity { 0 < cap }
        requires calls { (calls.name ≡ R.name) × (calls.parts ≡ R.parts)
            × (calls.parts ≡ seats + 1) }
        requires journal { journal ≡ R.book }
        ensures log { IfOk result (λ made. made.0 ≡ new_recording cap made.1) }
        ensures seats { IfOk result (λ made. made.2.items ≡ new_seats seats) }
    {
        let (inner, first_key) = Inner::new(alloc, cap)?;
        let opening = Opening {
            capacity: cap,
            first_number: 0,
            first_key,
        };
        let (calls, mut rest) = calls.open::<R>();
        let made = make_seats(alloc, &mut rest, seats)?;
        let mut journal = journal.into_writer::<R>();
        let mut known = journal.prefix();
        journal.append(&mut known, &opening);
        let log = Log {
            opening,
            inner,
            entries: Vec::new(alloc),
            journal,
            calls,
            rest,
        };
        Ok((log, first_key, made))
    }

    /// Makes one call on the channel, for a seat of this log, and stores it with its reply.
    ///
    /// The seat then counts one more call. A new capacity must be positive. If the channel
    /// itself is out of memory, that is a reply, and stored like any other.
    ///
    /// # Errors
    ///
    /// - `NoMemory(call)`: no memory for the entry, or for copies of the call's list for the entry,
    ///   the receipt and the reply. The call was not made: nothing changed.
    pub fn step(
        &mut self,
        seat: &mut Seat<R>,
        call: Call<T>,
    ) -> Result<Receipt<T, R>, NoMemory<Call<T>>>
        requires { HasPositiveCapacity call }
        ensures entry { IfOk result (λ receipt. self.new ≡ with_entry self.old receipt.entry) }
        ensures place { IfOk result (λ receipt. receipt.place ≡ length self.old.entries) }
        ensures seat { IfOk result (λ receipt. receipt.entry.seat ≡ seat.old.number) }
        ensures asked { IfOk result (λ receipt. receipt.entry.call ≡ call) }
        // The reply is legal, after all calls that were stored before.
        ensures run { IsRecordedRun T.is_clone self.new }
        ensures count { OnOk result (seat.new ≡ answered seat.old) }

        ensures refused { IfErr result (λ back. (back.0 ≡ call)
            × (self.new ≡ self.old) × (seat.new ≡ seat.old)) }
    {
        let Some(spares) = Spares::of(&mut self.entries, &call) else {
            return Err(NoMemory(call));
        };
        let place = self.entries.len();
        let reply = step(&mut self.inner, call, Silent);
        let (stored, entry) = spares.into_entries(seat.number(), reply);
        seat.add_call(&mut self.calls);
        self.entries.push_reserved(stored);
        let mut known = self.journal.prefix();
        self.journal.append(&mut known, &entry);
        Ok(Receipt {
            place,
            entry,
            known,
        })
    }

    /// The channel after the stored calls.
    pub fn inner(&self) -> &Inner<T, Silent, A>
        ensures { Replays T.is_clone self.now result.now }
    {
        &self.inner
    }

    /// All calls so far with their replies, in order.
    pub fn entries(&self) -> &[Entry<T>]
        ensures { result.now ≡ self.now.entries }
    {
        self.entries.as_slice()
    }

    // The journal so far.
    pub(crate) fn known(&self) -> Prefix<Note<T>, R>
        ensures { result ≡ notes_of self.now.opening self.now.entries }
    {
        self.journal.prefix()
    }

    // Ends the log, once all its seats are given back. `known` is a prefix of the journal.
    pub(crate) fn finish(
        self,
        known: &Prefix<Note<T>, R>,
        seats: Vec<Seat<R>, A>,
    ) -> Finished<T, R, A>
        requires { R.parts ≤ vec_len seats + 1 }
        ensures same { result ≡ self }
        ensures opening { (opening : Opening)
            → slice_get known.now 0 ≡ Some (note.Opened opening) → result.opening ≡ opening }
        ensures run { IsRecordedRun T.is_clone result }
        ensures count { length result.entries ≡ sum_by (λ s. s.count) seats.items }
    {
        let Log {
            opening,
            inner: _,
            entries,
            journal,
            mut calls,
            rest,
        } = self;
        calls.audit(&mut gather(rest, seats));
        let journal = journal.end();
        journal.compare(known);
        Finished {
            opening,
            entries,
            journal,
        }
    }
}
