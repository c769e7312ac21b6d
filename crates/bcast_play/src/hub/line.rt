//! What a line on topics says.
ghost use Rattle.std.specs.Prelude.{◌≡◌, ◌≢◌, ℕ, List, IsNone, IfSome, ◌++◌, ◌∷◌};
ghost use Rattle.topics.specs.Name as topic_name;
ghost use Rattle.bcast_play.specs.TopicsLine.{word_of, arguments_of, text_of, IsInForm};
ghost use Rattle.bcast_play.specs.declared.hub.line.Line.{Line};

use bcast_text::number::{number, positive};
use bcast_text::script::name::as_name;

/// A line on topics: a command and its arguments, a topic, a number or a follower's name.
#[derive(Clone, Copy)]
pub enum Line<'a> {
    /// `open T N`: open the topic with this capacity.
    Open(&'a str, u64),
    /// `follow T Q`: Q becomes the name of a new follower of the topic.
    Follow(&'a str, &'a str),
    /// `publish T V`
    Publish(&'a str, u64),
    /// `receive Q`
    Receive(&'a str),
    /// `leave Q`
    Leave(&'a str),
    /// `close T`
    Close(&'a str),
}

/// The line that `text` is. None: it is not a line on topics.
///
/// `text` has no LF. Which names are in use is not checked here.
pub fn read_line(text: &str) -> Option<Line<'_>>
    ensures text { IfSome result (λ line. text.now ≡ text_of line) }
    ensures form { IfSome result IsInForm }
    ensures none { IsNone result → (line : Line) → IsInForm line → text.now ≢ text_of line }
{
    let (first, rest) = text.split_once(' ')?;
    with_arguments(first, rest)
}

/// A command with its arguments: its first word, and what follows the first space.
fn with_arguments<'a>(first: &str, rest: &'a str) -> Option<Line<'a>>
    ensures text { IfSome result (λ line. first.now ++ 32 ∷ rest.now ≡ text_of line) }
    ensures form { IfSome result IsInForm }
    ensures none { IsNone result → (line : Line) → IsInForm line → first.now ≡ word_of line
        → rest.now ≢ arguments_of line }
{
    match first {
        "receive" => Some(Line::Receive(as_name(rest)?)),
        "leave" => Some(Line::Leave(as_name(rest)?)),
        "close" => Some(Line::Close(topic(rest)?)),
        "open" => {
            let (topic, n) = topic_and(rest)?;
            Some(Line::Open(topic, positive(n)?))
        }
        "follow" => {
            let (topic, new) = topic_and(rest)?;
            Some(Line::Follow(topic, as_name(new)?))
        }
        "publish" => {
            let (topic, msg) = topic_and(rest)?;
            Some(Line::Publish(topic, number(msg)?))
        }
        _ => None,
    }
}

/// A topic's name, and what follows the space after it.
fn topic_and(rest: &str) -> Option<(&str, &str)>
    ensures text { IfSome result (λ found. rest.now ≡ found.0.now ++ 32 ∷ found.1.now) }
    ensures form { IfSome result (λ found. topic_name.IsName found.0.now) }
    ensures only { IfSome result (λ found. (name last : List ℕ) → topic_name.IsName name
        → rest.now ≡ name ++ 32 ∷ last → (name ≡ found.0.now) × (last ≡ found.1.now)) }
    ensures none { IsNone result → (name last : List ℕ) → topic_name.IsName name
        → rest.now ≢ name ++ 32 ∷ last }
{
    let (name, last) = rest.split_once(' ')?;
    Some((topic(name)?, last))
}

/// A topic's name.
fn topic(word: &str) -> Option<&str>
    ensures same { IfSome result (λ name. name.now ≡ word.now) }
    ensures form { IfSome result (λ name. topic_name.IsName name.now) }
    ensures none { IsNone result → topic_name.IsName word.now → ⊥ }
{
    topics::is_name(word).then_some(word)
}
