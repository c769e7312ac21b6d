//! The lines of an input, read into memory that does not grow.
ghost use Rattle.std.specs.Prelude.{◌≡◌, ◌≢◌, ◌<◌, ◌≤◌, ◌-◌, [], ◌∷◌, Ok, true, length, take, All, IfOk, OnOk, OnSome, IsTrue, ◌↔◌, slice_index};
ghost use Rattle.std.specs.Io.{StartsWith, StopsAt, IsEmptyOrEndsWith, appended_bytes};
ghost use Rattle.std.specs.Io.KnownBytes.{Consumes, IsAtEnd};
ghost use Rattle.bcast_text.specs.Lines.{ReadsLines, EndsOrIsLast, BeginsTooLong, unread, text_of, longest_of};

use std::alloc::{AllocError, Allocator, Global};
use std::io;
use std::io::{BufRead, BufReader, ErrorKind, Read};

/// What a read of a line found.
#[derive(Clone, Copy, Debug, PartialEq, Eq)]
pub enum Found {
    /// A line of at most the longest length. The last one may lack its LF.
    Line,
    /// A longer line, with or without its LF.
    TooLong,
    /// The end of the input, with no line before it.
    End,
}

/// A reader of lines that end with LF and have at most `longest` bytes, the LF aside.
///
/// All its memory is taken when it is made.
#[derive(Drop)]
pub struct Lines<R, A: Allocator = Global> {
    input: BufReader<R, A>,
    // The last line that was read, without its LF.
    text: Vec<u8, A>,
    longest: u32,
}

impl<R: Read + Drop, A: Allocator + Clone> Lines<R, A> {
    /// A reader of the lines of `input`, of at most `longest` bytes each, the LF aside.
    ///
    /// # Errors
    ///
    /// - `AllocError`: there is no memory for a line and what is read ahead.
    pub fn new(alloc: A, input: R, longest: u32) -> Result<Self, AllocError>
        ensures unread { IfOk result (λ lines. unread R.remaining lines ≡ R.remaining input) }
        ensures longest { IfOk result (λ lines. longest_of lines ≡ longest) }
    {
        let text = Vec::with_capacity(alloc.clone()?, longest as usize + 1)?;
        match BufReader::new(alloc, input) {
            Ok(input) => Ok(Lines {
                input,
                text,
                longest,
            }),
            Err(_) => Err(AllocError),
        }
    }

    /// The line that `next` found, without its LF.
    pub fn text(&self) -> &[u8]
        ensures { result.now ≡ text_of self.now }
    {
        self.text.as_slice()
    }

    /// Whether the whole next line is in memory already, so that `next` will not read.
    pub fn is_ahead(&self) -> bool {
        self.input.buffer().contains(&b'\n')
    }

    /// Reads the next line, for `text`.
    ///
    /// # Errors
    ///
    /// - The error of a read that failed.
    #[tactic(auto, using(crate::proofs::LineLemmas::lines_read))]
    pub fn next(&mut self) -> io::Result<Found>
        ensures line { result ≡ Ok Found.Line → ReadsLines (unread R.remaining self.old)
            (text_of self.new ∷ []) (unread R.remaining self.new) }
        ensures end { result ≡ Ok Found.End → IsAtEnd (unread R.remaining self.old) }
        ensures too_long { result ≡ Ok Found.TooLong
            → BeginsTooLong (longest_of self.old) (unread R.remaining self.old) }
        ensures longest { longest_of self.new ≡ longest_of self.old }
    {
        self.text.clear();
        let most = self.longest as usize + 1;
        read_through(&mut self.input, most, &mut self.text)?;
        let len = self.text.len();
        if len == 0 {
            return Ok(Found::End);
        }
        if ends_with_lf(self.text.as_slice()) {
            self.text.pop();
            return Ok(Found::Line);
        }
        if len >= most {
            return Ok(Found::TooLong);
        }
        Ok(Found::Line)
    }
}

/// Whether the last byte is an LF.
fn ends_with_lf(text: &[u8]) -> bool
    ensures { IsTrue result
        ↔ ((0 < length text.now) × (slice_index text.now (length text.now - 1) ≡ 10)) }
{
    let len = text.len();
    len > 0 && text[len - 1] == b'\n'
}

/// Moves bytes of `input` into the empty `text`: those up to the first LF and the LF, or all if
/// there is none, but at most `most`.
#[tactic(auto, using(crate::proofs::Parts::parts))]
fn read_through<B: BufRead, A: Allocator>(
    input: &mut B,
    most: usize,
    text: &mut Vec<u8, A>,
) -> io::Result<()>
    requires { text.old.items ≡ [] }
    ensures bytes { Consumes (B.remaining input.old) (B.remaining input.new) text.new.items }
    ensures stops { StopsAt text.new.items 10 }
    ensures whole { OnOk result (length text.new.items < most → EndsOrIsLast text.new.items
        (B.remaining input.old) (B.remaining input.new)) }
{
    for _ in 0..u64::MAX {
        let len = text.len();
        if len >= most {
            return Ok(());
        }
        if take_part(input, most - len, text)? {
            return Ok(());
        }
    }
    Err(io::Error::from(ErrorKind::Other))
}

/// Moves the bytes that `input` has buffered into `text`, up to the first LF, and at most `most`.
/// Returns whether it met the LF, or the end of the input.
#[tactic(auto, using(std::proofs::lemmas::Grind::common_steps))]
fn take_part<B: BufRead, A: Allocator>(
    input: &mut B,
    most: usize,
    text: &mut Vec<u8, A>,
) -> io::Result<bool>
    requires { 0 < most }
    ensures appends { StartsWith text.new.items text.old.items }
    ensures stops { StopsAt (appended_bytes text.old.items text.new.items) 10 }
    ensures bytes { Consumes (B.remaining input.old) (B.remaining input.new)
        (appended_bytes text.old.items text.new.items) }
    ensures end { result ≡ Ok true → length (appended_bytes text.old.items text.new.items) ≡ 0
        → OnSome (B.remaining input.old) (IsAtEnd (B.remaining input.new)) }
    ensures more { result ≢ Ok true
        → All (λ byte. byte ≢ 10) (appended_bytes text.old.items text.new.items) }
    ensures done { result ≡ Ok true
        → IsEmptyOrEndsWith (appended_bytes text.old.items text.new.items) 10 }
{
    let available = match input.fill_buf() {
        Ok(available) => available,
        Err(error) if error.kind() == ErrorKind::Interrupted => return Ok(false),
        Err(error) => return Err(error),
    };
    let end = len_through(available, most);
    text.extend_from_slice(&available[..end])?;
    let is_done = end == 0 || available[end - 1] == b'\n';
    input.consume(end);
    Ok(is_done)
}

/// How many bytes there are up to the first LF, the LF included, but at most `most`.
fn len_through(bytes: &[u8], most: usize) -> usize
    requires { 0 < most }
    ensures bound { result ≤ length bytes.now }
    ensures some { 0 < length bytes.now → 0 < result }
    ensures before { All (λ byte. byte ≢ 10) (take (result - 1) bytes.now) }
{
    let end = bytes.len().min(most);
    match bytes[..end].iter().position(|byte| *byte == b'\n') {
        Some(at) => at + 1,
        None => end,
    }
}
