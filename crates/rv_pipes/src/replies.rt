//! Where a job writes what requests come to.

use crate::pair::Pipes;
use std::io;
use std::io::{ErrorKind, Write};
use std::sync::Wait;

/// What is told of a request behind the end of its task.
pub(crate) const STOPPED: &[u8] = b"stopped\n";

/// What the requests of a task come to, as a writer that waits for nobody: each write is a whole line.
#[derive(Drop)]
pub struct Replies<'a, R> {
    rt: &'a R,
    pipes: &'a Pipes,
}

impl<'a, R: Wait> Replies<'a, R> {
    /// What goes by these pipes.
    pub(crate) fn new(rt: &'a R, pipes: &'a Pipes) -> Replies<'a, R> {
        Replies { rt, pipes }
    }

    /// Tells a line. Who waits until it is written begins to wait with it.
    pub(crate) fn tell(&self, bytes: &[u8]) -> io::Result<()> {
        let mut line = Vec::new(self.pipes.alloc);
        if line.extend_from_slice(bytes).is_err() {
            return Err(io::Error::from(ErrorKind::OutOfMemory));
        }
        let _ = self.pipes.written.try_recv(self.rt);
        match self.pipes.replies.send(self.rt, line) {
            Ok(()) => Ok(()),
            Err(_) => Err(io::Error::from(ErrorKind::BrokenPipe)),
        }
    }
}

impl<R: Wait> Write for Replies<'_, R> {
    fn write(&mut self, buf: &[u8]) -> io::Result<usize> {
        self.tell(buf)?;
        Ok(buf.len())
    }

    fn flush(&mut self) -> io::Result<()> {
        Ok(())
    }
}
