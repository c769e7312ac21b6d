//! The numbers of scripts, topics, traces and arguments.
ghost use Rattle.bcast_text.specs.Words.{numbers_text, IsU64};
ghost use Rattle.std.specs.List.{AllByRecursion};
ghost use Rattle.std.specs.Prelude.{◌≡◌, ◌≢◌, ◌<◌, ◌^◌, ℕ, List, length, Some, IsNone, IfOk, IfSome, decimal};

use bcast_model::messages::Messages;
use std::alloc::{AllocError, Global};

/// The number that `word` spells: decimal, without sign or leading zeros, and at most `u64::MAX`.
#[tactic(auto, using(crate::proofs::Numbers::plain_words))]
pub fn number(word: &str) -> Option<u64>
    ensures spelt { IfSome result (λ n. word.now ≡ decimal n) }
    ensures none { IsNone result → (n : ℕ) → n < 2 ^ 64 → word.now ≢ decimal n }
{
    let bytes = word.as_bytes();
    if bytes.is_empty() || bytes[0] == b'+' || (bytes[0] == b'0' && bytes.len() > 1) {
        return None;
    }
    word.parse::<u64>().ok()
}

/// The number from 1 on that `word` spells, as `number` reads it.
#[tactic(auto, using(std::proofs::lemmas::Fmt::decimal_injective))]
pub fn positive(word: &str) -> Option<u64>
    ensures spelt { IfSome result (λ n. word.now ≡ decimal n) }
    ensures positive { IfSome result (λ n. 0 < n) }
    ensures none { IsNone result → (n : ℕ) → 0 < n → n < 2 ^ 64 → word.now ≢ decimal n }
{
    let n = number(word)?;
    if n > 0 { Some(n) } else { None }
}

/// The numbers that `text` spells, at least one, with one space between two of them. None: it
/// spells none.
///
/// # Errors
///
/// - `AllocError`: there is no memory for them.
pub fn numbers(alloc: Global, text: &str) -> Result<Option<Messages<u64>>, AllocError>
    ensures spelt { IfOk result
        (λ read. IfSome read (λ msgs. numbers_text msgs ≡ Some text.now)) }
    ensures some { IfOk result (λ read. IfSome read (λ msgs. 0 < length msgs)) }
    ensures fit { IfOk result (λ read. IfSome read (AllByRecursion IsU64)) }
    ensures none { IfOk result (λ read. IsNone read → (msgs : List ℕ)
        → AllByRecursion IsU64 msgs → numbers_text msgs ≢ Some text.now) }
{
    let mut msgs = Vec::new(alloc);
    let mut rest = text;
    while let Some((first, others)) = rest.split_once(' ') {
        let Some(n) = number(first) else {
            return Ok(None);
        };
        msgs.push(n)?;
        rest = others;
    }
    let Some(n) = number(rest) else {
        return Ok(None);
    };
    msgs.push(n)?;
    Ok(Some(Messages::new(msgs)))
}
