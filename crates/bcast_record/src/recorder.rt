//! A log behind a lock.
ghost use Rattle.std.specs.Prelude.{◌≡◌, ◌+◌, ◌<◌, ◌↔◌, IfOk, IfErr, IsErr, OnOk, vec_len, length, sum_by};
ghost use Rattle.bcast_model.specs.Words.{ClonesEqual, NoClone, HasPositiveCapacity};
ghost use Rattle.bcast_record.specs.Replay.{IsRecordedRun};
ghost use Rattle.bcast_record.specs.Seats.{Opened, new_seats, answered};

use crate::entry::{Note, Receipt};
use crate::finished::Finished;
use crate::log::Log;
use crate::seat::Seat;
use bcast_core::{Call, NoMemory};
use bcast_history::{Journal, Named, Opening, Prefix};
use std::alloc::{AllocError, Allocator, Global};
use std::marker::Model;
use std::sync::ledger::{Blank, Ledger};
use std::sync::{Mutex, Wait};

/// A channel for many threads, which stores each call that is made on it with its reply.
///
/// Whenever its lock is taken, the entries are a run of the channel. A contract sees what the
/// channel was opened with, and how many seats were made.
#[derive(Drop)]
pub struct Recorder<T: Copy + Clone, R: Ledger + Named, A: Allocator = Global> {
    log: Mutex<Log<T, R, A>>,
    opening: Opening,
    seats: usize,
    // The journal's beginning, which has the opening.
    known: Prefix<Note<T>, R>,
}

impl<T: Copy + Clone, R: Ledger + Named, A: Allocator> Model for Recorder<T, R, A> {
    ghost use Rattle.std.specs.Prelude.{◌≡◌, ◌+◌, Some, slice_get};
    ghost use Rattle.bcast_record.specs.declared.entry.Note.TheVariants as note;
    ghost use Rattle.bcast_record.specs.Seats.{Opened};

    ghost Value = { Opened };

    ghost view = { λ s. record { opening = s.opening; seats = s.seats } };

    ghost invariant = { λ s. (s.seats + 1 ≡ R.parts)
        × (slice_get s.known 0 ≡ Some (note.Opened s.opening)) };
}

impl<T: Copy + Clone, R: Ledger + Named, A: Allocator + Copy> Recorder<T, R, A> {
    /// A new channel, the key of its first receiver, and the seats, as `Log::new` makes them.
    ///
    /// # Errors
    ///
    /// - `AllocError`: no memory for the channel or the seats.
    pub fn new(
        alloc: A,
        cap: usize,
        seats: usize,
        calls: Blank,
        journal: Journal<Note<T>>,
    ) -> Result<(Self, usize, Vec<Seat<R>, A>), AllocError>
        requires capacity { 0 < cap }
        requires calls { (calls.name ≡ R.name) × (calls.parts ≡ R.parts)
            × (calls.parts ≡ seats + 1) }
        requires journal { journal ≡ R.book }
        ensures recorder { IfOk result (λ made. made.0 ≡ record {
          opening = record { capacity = cap; first_number = 0; first_key = made.1 };
          seats = seats;
        }) }
        ensures seats { IfOk result (λ made. made.2.items ≡ new_seats seats) }
    {
        let (log, first_key, made) = Log::new(alloc, cap, seats, calls, journal)?;
        let known = log.known();
        let recorder = Recorder {
            log: Mutex::new(log),
            opening: Opening {
                capacity: cap,
                first_number: 0,
                first_key,
            },
            seats,
            known,
        };
        Ok((recorder, first_key, made))
    }

    /// Waits for the lock, and makes one call on the channel for a seat of this recorder, as
    /// `Log::step` does.
    ///
    /// # Errors
    ///
    /// - `NoMemory(call)`: no memory for the entry or the copies. The call was not made.
    pub fn call(
        &self,
        rt: &impl Wait,
        seat: &mut Seat<R>,
        call: Call<T>,
    ) -> Result<Receipt<T, R>, NoMemory<Call<T>>>
        requires { HasPositiveCapacity call }
        ensures seat { IfOk result (λ receipt. receipt.entry.seat ≡ seat.old.number) }
        ensures asked { IfOk result (λ receipt. receipt.entry.call ≡ call) }
        ensures count { OnOk result (seat.new ≡ answered seat.old) }
        ensures refused { IfErr result (λ back. (back.0 ≡ call) × (seat.new ≡ seat.old)) }
    {
        self.log.lock(rt).step(seat, call)
    }

    /// Ends the recorder, once all its seats are given back, and returns what it stored.
    ///
    /// # Errors
    ///
    /// The recorder and the seats are handed back: fewer seats were given than were made.
    pub fn finish(
        self,
        seats: Vec<Seat<R>, A>,
    ) -> Result<Finished<T, R, A>, (Self, Vec<Seat<R>, A>)>
        // The entries are a run of the channel, as many as the seats' counts together.
        ensures run { IfOk result (λ finished. IsRecordedRun T.is_clone finished) }
        // If a clone equals its original, the entries are a run in which messages are never cloned.
        ensures exact { ClonesEqual T.is_clone
            → IfOk result (λ finished. IsRecordedRun NoClone finished) }
        ensures opening { IfOk result (λ finished. finished.opening ≡ self.opening) }
        ensures count { IfOk result (λ finished. length finished.entries
            ≡ sum_by (λ s. s.count) seats.items) }

        ensures refused { IsErr result ↔ (vec_len seats < self.seats) }
        ensures back { IfErr result (λ back. (back.0 ≡ self) × (back.1 ≡ seats)) }
    {
        if seats.len() < self.seats {
            return Err((self, seats));
        }
        let Recorder { log, known, .. } = self;
        Ok(log.into_inner().finish(&known, seats))
    }
}
