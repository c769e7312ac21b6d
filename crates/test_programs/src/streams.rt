//! Streams in memory, which fail after some calls, and sources of random bytes.
ghost use Rattle.std.specs.Prelude.{◌≤◌, IfOk};

use std::io;
use std::io::{ErrorKind, Read, Write};
use std::random::RandomSource;

/// A stream that gives or takes at most `piece` bytes at a call, and fails after `calls` calls.
#[derive(Drop)]
pub struct Limited<S> {
    pub stream: S,
    pub piece: usize,
    pub calls: u64,
}

impl<S> Limited<S> {
    pub fn new(stream: S, piece: usize, calls: u64) -> Self {
        Limited {
            stream,
            piece,
            calls,
        }
    }

    /// How many of `len` bytes this call gives or takes at most.
    fn most(&mut self, len: usize) -> io::Result<usize>
        ensures { IfOk result (λ most. most ≤ len) }
    {
        if self.calls == 0 {
            return Err(io::Error::from(ErrorKind::Other));
        }
        self.calls -= 1;
        Ok(self.piece.min(len))
    }
}

impl Read for Limited<&[u8]> {
    fn read(&mut self, buf: &mut [u8]) -> io::Result<usize> {
        let most = self.most(buf.len())?;
        self.stream.read(&mut buf[..most])
    }
}

impl Write for Limited<Vec<u8>> {
    fn write(&mut self, buf: &[u8]) -> io::Result<usize> {
        let most = self.most(buf.len())?;
        self.stream.write(&buf[..most])
    }

    fn flush(&mut self) -> io::Result<()> {
        Ok(())
    }
}

/// A source whose random bytes are all this one. None: it fails.
pub struct Bytes(pub Option<u8>);

impl RandomSource for Bytes {
    fn fill_bytes(&self, buf: &mut [u8]) -> io::Result<()> {
        match self.0 {
            Some(byte) => {
                buf.fill(byte);
                Ok(())
            }
            None => Err(io::Error::from(ErrorKind::Other)),
        }
    }
}
