//! Arguments of both programs.
use bcast_text::arguments::arguments;
use bcast_text::script;
use bcast_trace::command::Command;
use std::alloc::{AllocError, Global};
use std::env::{Env, FillError};
use std::io;
use std::io::Write;

/// Writes what each line asks the program for.
pub fn commands(alloc: Global, program: &str, lines: &str, output: &mut Vec<u8>) -> io::Result<()> {
    for line in lines.lines() {
        let words = words_of(alloc, line)?;
        command(program, line, words.as_slice(), output)?;
    }
    Ok(())
}

fn command(program: &str, line: &str, words: &[String], output: &mut Vec<u8>) -> io::Result<()> {
    if program == "bcast" {
        let command = script::command::Command::from_words(words);
        return writeln!(output, "{line}: {command:?}");
    }
    writeln!(output, "{line}: {:?}", Command::from_words(words))
}

/// The words of a line, each of which has a slash before it.
pub fn words_of(alloc: Global, line: &str) -> Result<Vec<String>, AllocError> {
    let mut words = Vec::new(alloc);
    for word in line.split('/').skip(1) {
        words.push(String::from_str(alloc, word)?)?;
    }
    Ok(words)
}

/// A program's name, and one argument.
#[derive(Drop)]
struct OneArgument<'a>(&'a [u8]);

impl<'a> Env for OneArgument<'a> {
    fn arg(&self, i: usize, buf: &mut [u8]) -> Result<usize, FillError> {
        match i {
            0 => Ok(0),
            1 if self.0.len() <= buf.len() => {
                buf[..self.0.len()].copy_from_slice(self.0);
                Ok(self.0.len())
            }
            1 => Err(FillError::TooLong),
            _ => Err(FillError::NotPresent),
        }
    }

    fn var(&self, _name: &str, _buf: &mut [u8]) -> Result<usize, FillError> {
        Err(FillError::NotPresent)
    }

    fn var_at(&self, _i: usize, _buf: &mut [u8]) -> Result<usize, FillError> {
        Err(FillError::NotPresent)
    }
}

/// Writes how arguments are read that are UTF-8 text and that are not.
pub fn run(alloc: Global, output: &mut Vec<u8>) -> io::Result<()> {
    for word in [b"list".as_slice(), b"\xff", b"list\xff"] {
        match arguments(&(OneArgument(word), alloc))? {
            Some(words) => writeln!(output, "{} {:?}", words.len(), words.first())?,
            None => output.write_all(b"no text\n")?,
        }
    }
    Ok(())
}
