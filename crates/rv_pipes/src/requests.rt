//! Where a job reads requests.

use crate::carrier::Asked;
use crate::pair::Pipes;
use std::io;
use std::io::Read;
use std::sync::Wait;

/// The requests of a task as a reader, which waits for the next line.
#[derive(Drop)]
pub struct Requests<'a, R> {
    rt: &'a R,
    pipes: &'a Pipes,
    // The line that is read, and how much of it was.
    line: Vec<u8>,
    next: usize,
    is_over: bool,
}

impl<'a, R: Wait> Requests<'a, R> {
    /// What comes by these pipes.
    pub(crate) fn new(rt: &'a R, pipes: &'a Pipes) -> Requests<'a, R> {
        Requests {
            rt,
            pipes,
            line: Vec::new(pipes.alloc),
            next: 0,
            is_over: false,
        }
    }

    // Waits for the next line, unless the last was the end.
    fn take(&mut self) {
        if self.is_over {
            return;
        }
        match self.pipes.requests.recv(self.rt) {
            Ok(Asked::Line(line)) => {
                self.line = line.bytes;
                self.next = 0;
            }
            Ok(Asked::Over) | Err(_) => self.is_over = true,
        }
    }

    // What is left of the line.
    fn rest(&self) -> &[u8] {
        match self.line.as_slice().get(self.next..) {
            Some(rest) => rest,
            None => &[],
        }
    }
}

impl<R: Wait> Read for Requests<'_, R> {
    fn read(&mut self, buf: &mut [u8]) -> io::Result<usize> {
        if self.next >= self.line.len() {
            self.take();
        }
        let mut rest = self.rest();
        let count = rest.read(buf)?;
        self.next = self.next.saturating_add(count);
        Ok(count)
    }
}
