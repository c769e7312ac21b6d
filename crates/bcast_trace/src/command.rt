//! The arguments of `replay`.

/// What the arguments of `replay` ask for.
#[derive(Clone, Copy, Debug, PartialEq, Eq)]
pub enum Command {
    /// Play the trace on standard input one call at a time.
    Trace,
    /// Play the calls of the trace on standard input as one list.
    List,
}

impl Command {
    /// What `words`, the arguments after the program's name, ask for. None: they are wrong.
    pub fn from_words(words: &[String]) -> Option<Command> {
        match words {
            [only] if only.as_str() == "trace" => Some(Command::Trace),
            [only] if only.as_str() == "list" => Some(Command::List),
            _ => None,
        }
    }
}
