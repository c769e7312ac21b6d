//! The words that a program is started with.
use std::alloc::AllocError;
use std::env;
use std::env::Env;
use std::io::ErrorKind;

/// The arguments after the program's name. None: one of them is not UTF-8 text.
///
/// # Errors
///
/// - `AllocError`: there is no memory for them.
pub fn arguments<R: Env + Alloc>(rt: &R) -> Result<Option<Vec<String<R::A>, R::A>>, AllocError> {
    match env::args(rt) {
        Ok(words) => Ok(Some(words.skip(1).collect(rt.alloc())?)),
        Err(error) if error.kind() == ErrorKind::InvalidData => Ok(None),
        Err(_) => Err(AllocError),
    }
}
