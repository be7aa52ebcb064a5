//! Readers and writers that fail behind a number of reads and writes.

use std::alloc::Global;
use std::io;
use std::io::{ErrorKind, Read, Write};

// How many bytes a read or a write moves at most.
const PIECE: usize = 16;

/// A reader that gives few bytes at a time, and fails behind a number of reads.
#[derive(Drop)]
pub struct FailingReader<'a> {
    left: &'a [u8],
    good: usize,
}

impl<'a> FailingReader<'a> {
    /// Gives these bytes, unless they take more reads than so many.
    pub fn new(left: &'a [u8], good: usize) -> FailingReader<'a> {
        FailingReader { left, good }
    }
}

impl<'a> Read for FailingReader<'a> {
    fn read(&mut self, buf: &mut [u8]) -> io::Result<usize> {
        let Some(good) = self.good.checked_sub(1) else {
            return Err(io::Error::from(ErrorKind::TimedOut));
        };
        self.good = good;
        let most = if buf.len() < PIECE { buf.len() } else { PIECE };
        self.left.read(&mut buf[..most])
    }
}

/// A writer that takes few bytes at a time, and fails behind a number of writes.
#[derive(Drop)]
pub struct FailingWriter {
    /// What it took.
    pub taken: Vec<u8>,
    good: usize,
}

impl FailingWriter {
    /// Takes so many writes.
    pub fn new(alloc: Global, good: usize) -> FailingWriter {
        FailingWriter {
            taken: Vec::new(alloc),
            good,
        }
    }
}

impl Write for FailingWriter {
    fn write(&mut self, buf: &[u8]) -> io::Result<usize> {
        let Some(good) = self.good.checked_sub(1) else {
            return Err(io::Error::from(ErrorKind::TimedOut));
        };
        self.good = good;
        let most = if buf.len() < PIECE { buf.len() } else { PIECE };
        self.taken.extend_from_slice(&buf[..most])?;
        Ok(most)
    }

    fn flush(&mut self) -> io::Result<()> {
        Ok(())
    }
}
