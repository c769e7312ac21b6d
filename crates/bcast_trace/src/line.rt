//! The lines of a trace.
ghost use Rattle.std.specs.Prelude.{IfOk, IfSome};
ghost use Rattle.bcast_trace.specs.Line.{IsInForm};

use crate::call::read_call;
use bcast_model::run::Call;
use std::alloc::{AllocError, Global};

/// The most bytes that a line may have, its LF aside.
pub const LONGEST: u32 = 1 << 20;

/// What a line after the first asks for.
#[derive(Drop)]
pub enum Line<'a> {
    /// The view.
    View,
    /// A call, after its text.
    Call(&'a str, Call<u64>),
}

/// What `line` asks for. None: neither the view nor a call.
///
/// What follows `=` or ` -> ` is not read.
///
/// # Errors
///
/// - `AllocError`: there is no memory for the call.
pub fn read_line(alloc: Global, line: &str) -> Result<Option<Line<'_>>, AllocError>
    ensures { IfOk result (λ read. IfSome read IsInForm) }
{
    if line.starts_with('=') {
        return Ok(Some(Line::View));
    }
    let text = line.split_once(" -> ").map_or(line, |(text, _)| text);
    Ok(read_call(alloc, text)?.map(|call| Line::Call(text, call)))
}
