//! The calls that the tests make on a channel that records, and what is stored of them.
ghost use Rattle.std.specs.Prelude.{IfOk};
ghost use Rattle.bcast_model.specs.Next.{HasPositiveCapacity};

use crate::calls::is_of_kind;
use bcast_core::Call;
use bcast_record::{Entry, Finished, Named, Receipt, copy_of_reply};
use bcast_trace::call::{read_call, write_call};
use bcast_trace::reply::write_reply;
use std::alloc::{AllocError, Allocator, Global};
use std::sync::ledger::Ledger;

/// A call on a channel whose first receiver has the key 0, and its reply, as traces spell them.
#[derive(Clone, Copy)]
pub(crate) struct Step(&'static str, &'static str);

pub(crate) const SEND: Step = Step("TryBroadcast 5", "ok");

pub(crate) const RECEIVE: Step = Step("TryRecv 0", "got 5");

pub(crate) const CLOSE: Step = Step("Close", "true");

pub(crate) const SEND_ALL: Step = Step("TryBroadcastAll 1 2", "ok");

pub(crate) const SEND_TOO_MANY: Step = Step("TryBroadcastAll 3", "full 3");

impl Step {
    /// The call. Of a text that is no call it is another one, which `is` refuses.
    pub(crate) fn call(self, alloc: Global) -> Result<Call<u64>, AllocError>
        ensures { IfOk result HasPositiveCapacity }
    {
        Ok(read_call(alloc, self.0)?.unwrap_or(Call::EndNumber))
    }

    /// Whether this is the call.
    pub(crate) fn is(self, alloc: Global, call: &Call<u64>) -> bool {
        let mut text = Vec::new(alloc);
        write_call(call, &mut text).is_ok() && text.as_slice() == self.0.as_bytes()
    }

    /// Whether the entry is of this call, which was made for this seat, and of its reply, which a
    /// copy must equal.
    pub(crate) fn is_stored(self, alloc: Global, seat: usize, entry: &Entry<u64>) -> bool {
        let Ok(reply) = copy_of_reply(&entry.reply) else {
            return false;
        };
        let mut text = Vec::new(alloc);
        let is_written = write_reply(&reply, &mut text).is_ok();
        let is_answered = is_written && text.as_slice() == self.1.as_bytes();
        let is_copied = reply == entry.reply && is_of_kind(self.0, &reply);
        self.is(alloc, &entry.call) && is_answered && is_copied && entry.seat == seat
    }
}

/// Whether there is a receipt for each call of this seat, their places rise, and each names an
/// entry of the seat.
pub(crate) fn are_entries<R: Ledger + Named, A: Allocator>(
    finished: &Finished<u64, R, A>,
    seat: usize,
    calls: usize,
    receipts: &[Receipt<u64, R>],
) -> bool {
    let mut least = 0;
    for receipt in receipts {
        let entry = finished.entry_of(receipt);
        let named = receipt.entry();
        let is_same = entry.call == named.call && entry.reply == named.reply;
        if !is_same || entry.seat != seat || receipt.place() < least {
            return false;
        }
        least = receipt.place().saturating_add(1);
    }
    receipts.len() == calls
}
