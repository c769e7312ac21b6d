//! The run of lines on topics.
ghost use Rattle.std.specs.Prelude.{◌≡◌, ◌≢◌, ◌↔◌, ◌⊎◌, [], ◌∷◌, ◌++◌, Err, OnOk, IsNone, IsSome, IfSome, true};
ghost use Rattle.std.specs.Io.KnownBytes.{Appends};
ghost use Rattle.bcast_text.specs.Run.{IsRun};
ghost use Rattle.topics.specs.Hub.{topic_of};
ghost use Rattle.bcast_play.specs.TopicsRun.{Followed, answer_of, IsTopicsLine, IsNoTopicsLine, IsWithoutTopics, IsWithoutFollowers};

mod followers;
mod line;

use crate::session::LONGEST;
use bcast_text::ending::Ending;
use bcast_text::input::{Fault, RunLine, run_lines};
use bcast_text::script;
use followers::{Followers, record, request_by};
use line::read_line;
use std::alloc::Allocator;
use std::hash::{BuildHasher, RandomState};
use std::io::{Read, Write};
use std::random::RandomSource;
use topics::{Answer, Hub};

/// Lines on topics that are being run: the topics, and their followers by name.
#[derive(Drop)]
struct HubSession<A: Allocator, S: BuildHasher> {
    alloc: A,
    hub: Hub<u64, A, S>,
    followers: Followers<A>,
}

impl<A: Allocator + Copy, S: BuildHasher> RunLine for HubSession<A, S> {
    ghost use Rattle.bcast_play.specs.TopicsRun.{Followed, IsTopicsLine, IsNoTopicsLine};
    ghost use Rattle.std.specs.Prelude.{true};
    ghost use Rattle.bcast_play.specs.Shown.{followed_of};

    ghost State = { Followed };

    ghost state = { followed_of };

    ghost answers = { IsTopicsLine A };

    ghost refuses = { IsNoTopicsLine A };

    ghost MAY_BE_EMPTY = { true };

    const MAY_BE_EMPTY: bool = true;

    fn run_line<W: Write>(&mut self, line: &str, output: &mut W) -> Result<(), Fault> {
        let line = read_line(line).ok_or(Fault::NotACall)?;
        let request = request_by(self.alloc, &self.followers, line)?;
        let answered = self.hub.ask(request);
        record(self.alloc, &mut self.followers, line, &answered)?;
        answer(&answered, output)
    }
}

/// Writes the line that answers a request to which the hub gave this answer.
fn answer<W: Write>(answered: &Answer<u64>, output: &mut W) -> Result<(), Fault>
    ensures text { OnOk result (IfSome (answer_of answered.now) (λ text.
        Appends (W.contents output.old) (W.contents output.new) (text ++ 10 ∷ []))) }
    ensures answered { OnOk result (IsSome (answer_of answered.now)) }
    ensures not_a_call { (result ≡ Err Fault.NotACall) ↔ (answered.now ≡ Answer.BadName) }
    ensures no_memory { result ≡ Err Fault.NoMemory → IsNone (answer_of answered.now) }
    ensures unwritten { (result ≡ Err Fault.NotACall) ⊎ (result ≡ Err Fault.NoMemory)
        → output.new ≡ output.old }
{
    match answered {
        Answer::BadName => return Err(Fault::NotACall),
        Answer::Memory => return Err(Fault::NoMemory),
        Answer::Opened => output.write_all(b"ok\n")?,
        Answer::Exists => output.write_all(b"exists\n")?,
        Answer::NoTopic => output.write_all(b"no topic\n")?,
        Answer::Done(reply) => script::answer::answer(reply, output)?,
    }
    Ok(())
}

/// Runs the lines on topics that `input` holds on `hub`, as `script` runs those of a script.
///
/// An input without lines is done. No follower has a name at the start. The hub hashes the names of
/// topics by a `RandomState`, since lines choose them.
pub fn hub_script<A: Allocator + Copy, R: Read + Drop, W: Write>(
    alloc: A,
    hub: Hub<u64, A, RandomState>,
    input: R,
    output: &mut W,
) -> Ending
    ensures { result ≢ Ending.OutputFailed → (first last : Followed)
        × IsWithoutFollowers (topic_of hub) first
        × IsRun (IsNoTopicsLine A) true LONGEST (IsTopicsLine A) (R.remaining input)
        (W.contents output.old) (W.contents output.new) first last result }
{
    let mut session = HubSession {
        alloc,
        hub,
        followers: Followers::new(alloc),
    };
    run_lines(alloc, input, LONGEST, output, &mut session)
}

/// Runs lines on topics as `hub_script` does, on a hub without topics.
///
/// The names are hashed by a `RandomState` that is made from `source`. No clause is about hashes.
/// If there is no seed the run ends as if a read failed, and nothing is written.
pub fn seeded_hub_script<N, A, R, W>(source: &N, alloc: A, input: R, output: &mut W) -> Ending
where
    N: RandomSource,
    A: Allocator + Copy,
    R: Read + Drop,
    W: Write,
    ensures { result ≢ Ending.OutputFailed → (first last : Followed) × IsWithoutTopics first
        × IsRun (IsNoTopicsLine A) true LONGEST (IsTopicsLine A) (R.remaining input)
        (W.contents output.old) (W.contents output.new) first last result }
{
    match RandomState::new(source) {
        Ok(seed) => hub_script(alloc, Hub::with_hasher(alloc, seed), input, output),
        Err(_) => Ending::InputFailed,
    }
}
