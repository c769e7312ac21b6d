//! The arguments of `bcast`.
ghost use Rattle.std.specs.Prelude.{◌≡◌, ◌≢◌, ℕ, [], ◌∷◌, codes, IfSome, IsNone, map, string_bytes, decimal};
ghost use Rattle.bcast_text.specs.ScriptCommand.{words_of, IsUpTo, IsInRange};
ghost use Rattle.bcast_text.specs.declared.script.command.Command.{Command};

use crate::number::positive;

/// How `bcast` is used, if its arguments ask for nothing that it does.
pub const USAGE: &str = "usage: bcast script | bcast topics | bcast threads S R M";

/// What the arguments of `bcast` ask for.
#[derive(Clone, Copy, Debug, PartialEq, Eq)]
pub enum Command {
    /// Run the script that standard input holds.
    Script,
    /// Run the lines on topics that standard input holds.
    Topics,
    /// Run threads: how many send, how many receive, and how many messages each sender sends.
    Threads(u64, u64, u64),
}

impl Command {
    /// What `words`, the arguments after the program's name, ask for. None: they are wrong.
    pub fn from_words(words: &[String]) -> Option<Command>
        ensures words { IfSome result (λ asked. map string_bytes words.now ≡ words_of asked) }
        ensures range { IfSome result IsInRange }
        ensures none { IsNone result → (asked : Command) → IsInRange asked
            → map string_bytes words.now ≢ words_of asked }
    {
        match words {
            [only] => alone(only.as_str()),
            [first, s, r, m] if first.as_str() == "threads" => {
                with_numbers(s.as_str(), r.as_str(), m.as_str())
            }
            _ => None,
        }
    }
}

fn alone(word: &str) -> Option<Command>
    ensures words { IfSome result (λ asked. words_of asked ≡ word.now ∷ []) }
    ensures range { IfSome result IsInRange }
    ensures none { IsNone result → (word.now ≢ codes "script") × (word.now ≢ codes "topics") }
{
    match word {
        "script" => Some(Command::Script),
        "topics" => Some(Command::Topics),
        _ => None,
    }
}

fn with_numbers(s: &str, r: &str, m: &str) -> Option<Command>
    ensures words { IfSome result (λ asked. words_of asked
        ≡ codes "threads" ∷ s.now ∷ r.now ∷ m.now ∷ []) }
    ensures range { IfSome result IsInRange }
    ensures none { IsNone result → (senders receivers messages : ℕ)
        → IsInRange (Command.Threads senders receivers messages)
        → (s.now ≡ decimal senders) → (r.now ≡ decimal receivers) → m.now ≢ decimal messages }
{
    Some(Command::Threads(up_to(64, s)?, up_to(64, r)?, up_to(100_000, m)?))
}

/// The number from 1 to `most` that `word` spells.
#[tactic(auto, using(std::proofs::lemmas::Fmt::decimal_injective))]
fn up_to(most: u64, word: &str) -> Option<u64>
    ensures spelt { IfSome result (λ n. word.now ≡ decimal n) }
    ensures range { IfSome result (IsUpTo most) }
    ensures none { IsNone result → (n : ℕ) → IsUpTo most n → word.now ≢ decimal n }
{
    let n = positive(word)?;
    if n <= most { Some(n) } else { None }
}
