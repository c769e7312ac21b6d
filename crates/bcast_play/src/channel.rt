//! The channel of a script, with its receivers' names.
ghost use Rattle.std.specs.Prelude.{◌≡◌, ◌≢◌, ◌<◌, ◌⊎◌, ℕ, List, [], ◌∷◌, ◌++◌, Some, Err, IfOk, OnOk};
ghost use Rattle.std.specs.Io.KnownBytes.{Appends};
ghost use Rattle.bcast_text.specs.ScriptLine.{IsInForm};
ghost use Rattle.bcast_play.specs.ScriptRun.{AreGiven, AsksForNone, IsGivenNone, IsMade, IsNew};
ghost use Rattle.bcast_play.specs.Shown.{named_of};

use bcast_core::{Inner, Reply, Silent, step};
use bcast_text::input::Fault;
use bcast_text::script::answer::{answer, answer_batch};
use bcast_text::script::call::{Keys, batch_by, call_by, record};
use bcast_text::script::line::Line;
use bcast_text::script::name::give_name;
use std::alloc::{AllocError, Allocator};
use std::io::Write;

/// One channel whose receivers have names.
#[derive(Drop)]
pub struct Channel<A: Allocator> {
    inner: Inner<u64, Silent, A>,
    names: Keys<A>,
}

impl<A: Allocator + Copy> Channel<A> {
    /// A new channel of this capacity, whose one receiver is named `r1`.
    pub fn open(alloc: A, capacity: usize) -> Result<Self, AllocError>
        requires { 0 < capacity }
        ensures { IfOk result (λ channel. IsNew (named_of channel) capacity) }
    {
        let (inner, key) = Inner::new(alloc, capacity)?;
        let mut names = Keys::new(alloc);
        give_name(alloc, &mut names, "r1", key)?;
        Ok(Channel { inner, names })
    }

    /// Does what `line` asks for, and writes the answer.
    pub fn run<W: Write>(&mut self, alloc: A, line: &Line<'_>, output: &mut W) -> Result<(), Fault>
        requires { IsInForm line.now }
        ensures ok { OnOk result ((answer : List ℕ)
            × IsMade (named_of self.old) line.now answer (named_of self.new)
            × Appends (W.contents output.old) (W.contents output.new) answer) }
        ensures unwritten { (result ≡ Err Fault.NotACall) ⊎ (result ≡ Err Fault.NoMemory)
            → output.new ≡ output.old }
        ensures refused { result ≡ Err Fault.NotACall
            → AsksForNone (Some (named_of self.old)) line.now }
    {
        if let Some((key, limit)) = batch_by(&self.names, line) {
            return self.receive_many(alloc, key, limit, output);
        }
        let call = call_by(&self.names, line)?.ok_or(Fault::NotACall)?;
        let reply = step(&mut self.inner, call, Silent);
        record(alloc, &mut self.names, line, &reply)?;
        answer(&reply, output)
    }

    // Receives the messages that are there, at most `limit`, and writes them, or why there is none.
    fn receive_many<W: Write>(
        &mut self,
        alloc: A,
        key: usize,
        limit: usize,
        output: &mut W,
    ) -> Result<(), Fault>
        requires { 0 < limit }
        ensures ok { OnOk result ((text : List ℕ)
            × (AreGiven self.old.inner key limit text self.new.inner
            ⊎ IsGivenNone self.old.inner key text self.new.inner)
            × Appends (W.contents output.old) (W.contents output.new) (text ++ 10 ∷ [])) }
        ensures names { self.new.names ≡ self.old.names }
        ensures unwritten { result ≡ Err Fault.NoMemory → output.new ≡ output.old }
        ensures is_asked { result ≢ Err Fault.NotACall }
    {
        let limit = limit.min(self.inner.unread(key));
        let mut msgs = Vec::new(alloc);
        msgs.reserve(limit)?;
        if self.inner.receive_many(key, limit, &mut msgs) > 0 {
            return answer_batch(msgs.as_slice(), output);
        }
        let reply = Reply::TryRecv(self.inner.try_recv(key));
        answer(&reply, output)
    }
}
