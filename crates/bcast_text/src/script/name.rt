//! Names: what is one, and what has each of those that are in use.
ghost use Rattle.std.specs.Prelude.{IsTrue, IfSome, IsNone, ◌↔◌, ◌≡◌, ℕ, List, Some, None, OnOk, bytes_eq};
ghost use Rattle.std.specs.Map.{update};
ghost use Rattle.std.specs.BTreeMap.{get_by_text};
ghost use Rattle.bcast_text.specs.Name.{IsName};

use std::alloc::{AllocError, Allocator};
use std::collections::BTreeMap;

/// What has each name that is in use.
pub type Names<X, A> = BTreeMap<String<A>, X, A>;

/// Whether `word` is a name: a lower case letter, then at most 15 lower case letters or digits.
pub fn is_name(word: &str) -> bool
    ensures { IsTrue result ↔ IsName word.now }
{
    let Some((first, others)) = word.as_bytes().split_first() else {
        return false;
    };
    others.len() <= 15
        && first.is_ascii_lowercase()
        && others
            .iter()
            .all(|b| b.is_ascii_lowercase() || b.is_ascii_digit())
}

/// `word`, if it is a name.
pub fn as_name(word: &str) -> Option<&str>
    ensures same { IfSome result (λ name. name.now ≡ word.now) }
    ensures form { IfSome result (λ name. IsName name.now) }
    ensures none { IsNone result → IsName word.now → ⊥ }
{
    if is_name(word) { Some(word) } else { None }
}

/// Gives `named` a new name.
///
/// # Errors
///
/// - `AllocError`: there is no memory for the name.
#[tactic(auto, using(std::proofs::lemmas::Map::Text::text_keys))]
pub fn give_name<X: Drop, A: Allocator + Copy>(
    alloc: A,
    names: &mut Names<X, A>,
    new: &str,
    named: X,
) -> Result<(), AllocError>
    ensures ok { OnOk result ((name : List ℕ) → get_by_text names.new name
        ≡ update bytes_eq (get_by_text names.old) new.now (Some named) name) }
{
    let text = String::from_str(alloc, new)?;
    let Ok(_) = names.insert(text, named) else {
        return Err(AllocError);
    };
    Ok(())
}

/// Frees a name.
pub fn free_name<X: Drop, A: Allocator>(names: &mut Names<X, A>, name: &str)
    ensures { (other : List ℕ) → get_by_text names.new other
        ≡ update bytes_eq (get_by_text names.old) name.now None other }
{
    names.remove(name);
}
