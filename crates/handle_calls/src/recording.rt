//! Ports that record the calls made through them, and reply as a script sets.
ghost use Rattle.bcast_core.specs.Kinds.{IsOfKind};

use async_broadcast::{
    Ask, Call, PortFor, RecvError, RecvTimeoutError, Reply, SendError, SendPoll, SendTimeoutError,
    TaskWaker, TimedPortFor, TryRecvError, Wake,
};
use bcast_core::{AtOnce, Notice, Polls, RepliesTo};
use futures::task::Context;
use replies::{Outcome, answered, polled, received, reply_to, waited};
use std::alloc::{AllocError, Global};
use std::cell::Cell;
use std::io;
use std::io::Write;
use std::rc::Rc;
use std::time::Duration;

mod replies;

/// The calls since they were last written: nothing, one call, two in this order, or this many, of
/// which the last is kept.
#[derive(Debug, Drop)]
enum Record {
    Nothing,
    Once(Call<u64>),
    Twice(Call<u64>, Call<u64>),
    Times(u64, Call<u64>),
}

/// What recording ports share.
#[derive(Drop)]
struct State {
    record: Cell<Record>,
    outcome: Cell<Outcome>,
    // Whether there is memory for another port, and for a poll.
    has_others: Cell<bool>,
    has_memory: Cell<bool>,
}

/// A port that records each call, and replies to it by itself.
#[derive(Drop)]
pub struct RecordingPort {
    state: Rc<State>,
}

impl RecordingPort {
    /// Nothing is recorded yet. The port and those made of it grant what they are asked.
    pub fn new(alloc: Global, has_memory: bool) -> Result<Self, AllocError> {
        let state = State {
            record: Cell::new(Record::Nothing),
            outcome: Cell::new(Outcome::Grant),
            has_others: Cell::new(true),
            has_memory: Cell::new(has_memory),
        };
        let state = Rc::new(alloc, state)?;
        Ok(RecordingPort { state })
    }

    /// A port whose calls are recorded together with those of this one.
    pub fn other(&self) -> Result<Self, AllocError> {
        let state = self.state.clone()?;
        Ok(RecordingPort { state })
    }

    /// Sets how the ports reply from now on, or what there is memory for. False: this is not such a
    /// word.
    pub fn set(&self, word: &str) -> bool {
        match word {
            "grants" => self.state.outcome.set(Outcome::Grant),
            "refuses" => self.state.outcome.set(Outcome::Refuse),
            "waits" => self.state.outcome.set(Outcome::Wait),
            "overflows" => self.state.outcome.set(Outcome::Overflow),
            "closes" => self.state.outcome.set(Outcome::Close),
            "is_inactive" => self.state.outcome.set(Outcome::Inactive),
            "has_no_other" => self.state.has_others.set(false),
            "has_memory" => self.state.has_memory.set(true),
            _ => return false,
        }
        true
    }

    /// Writes the calls since they were last written.
    pub fn write_record<W: Write>(&self, output: &mut W) -> io::Result<()> {
        let record = self.state.record.replace(Record::Nothing);
        write!(output, " asked {record:?}")
    }
}

impl State {
    // A call for whose list there is no memory is not recorded.
    fn record(&self, call: &Call<u64>) {
        let Ok(call) = call.clone() else {
            return;
        };
        let record = match self.record.replace(Record::Nothing) {
            Record::Nothing => Record::Once(call),
            Record::Once(first) => Record::Twice(first, call),
            Record::Twice(_, _) => Record::Times(3, call),
            Record::Times(count, _) => Record::Times(count.wrapping_add(1), call),
        };
        self.record.replace(record);
    }
}

impl RepliesTo<u64> for RecordingPort {
    ghost gave = { λ _ call reply. IsOfKind call reply };

    fn reply_to(&self, call: Call<u64>) -> Reply<u64>
        ensures gave { IsOfKind call result }
        ensures kind { IsOfKind call result }
    {
        self.state.record(&call);
        reply_to(self.state.outcome.get(), call)
    }
}

impl Ask<u64, ()> for RecordingPort {
    ghost use Rattle.std.specs.Prelude.{⊤};
    ghost use Rattle.bcast_core.specs.Kinds.{IsOfKind};

    ghost gave = { λ _ call reply. IsOfKind call reply };

    ghost learns = { λ _ _ _ _. ⊤ };

    ghost of_kind = { λ _ call reply gave. gave };

    fn ask<C: AtOnce<u64>>(&self, _caller: &mut (), call: C) -> C::Answer {
        call.answered_by(self)
    }

    // A port that replies that a poll must wait tells it at once.
    fn poll<C: Polls<u64>>(
        &self,
        _caller: &mut (),
        call: C,
        task: &mut TaskWaker,
        cx: &mut Context<'_>,
    ) -> Result<C::Answer, C> {
        if !self.state.has_memory.get() {
            task.refuse(cx);
            return Err(call);
        }
        let mut wake = Wake::none();
        if !task.register(&mut wake, cx) {
            return Err(call);
        }
        if self.state.outcome.get() == Outcome::Wait {
            wake.tell();
        }
        task.put_back(wake);
        Ok(call.answered_by(self))
    }
}

impl PortFor<u64, ()> for RecordingPort {
    ghost use Rattle.std.specs.Prelude.{⊤};

    fn send_waiting(&self, _caller: &mut (), msg: u64) -> Result<Option<u64>, SendError<u64>> {
        self.state.record(&Call::AttemptSend(msg));
        answered(self.state.outcome.get(), msg)
    }

    fn receive_waiting(
        &self,
        _caller: &mut (),
        key: usize,
    ) -> Result<Result<u64, RecvError>, AllocError> {
        self.state.record(&Call::TryRecv(key));
        waited(self.state.outcome.get())
    }

    ghost lacks_memory = { λ _. ⊤ };

    fn try_clone(&self) -> Option<Self> {
        match self.state.has_others.get() {
            true => self.other().ok(),
            false => None,
        }
    }
}

// A wait that the port replies is one whose time is over.
impl TimedPortFor<u64, ()> for RecordingPort {
    fn send_within(
        &self,
        _caller: &mut (),
        msg: u64,
        _limit: Duration,
    ) -> Result<Option<u64>, SendTimeoutError<u64>> {
        self.state.record(&Call::AttemptSend(msg));
        match polled(self.state.outcome.get(), msg) {
            SendPoll::Ready(Ok(oldest)) => Ok(oldest),
            SendPoll::Ready(Err(SendError(back))) => Err(SendTimeoutError::Refused(back)),
            SendPoll::Wait(back) => Err(SendTimeoutError::Timeout(back)),
        }
    }

    fn receive_within(
        &self,
        _caller: &mut (),
        key: usize,
        _limit: Duration,
    ) -> Result<Result<u64, RecvTimeoutError>, AllocError> {
        self.state.record(&Call::TryRecv(key));
        match received(self.state.outcome.get())? {
            Ok(msg) => Ok(Ok(msg)),
            Err(TryRecvError::Overflowed(n)) => Ok(Err(RecvTimeoutError::Overflowed(n))),
            Err(TryRecvError::Closed) => Ok(Err(RecvTimeoutError::Closed)),
            Err(TryRecvError::Empty) => Ok(Err(RecvTimeoutError::Timeout)),
        }
    }
}
