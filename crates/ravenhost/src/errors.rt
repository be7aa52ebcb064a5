//! Standard error, as a writer of text.

use crate::colours::tell;
use std::io;
use std::io::{ErrorKind, Write};

/// Writes whole lines of text to standard error. Bytes that are no text are refused.
#[derive(Clone, Copy)]
pub struct StandardError<'a, R> {
    pub rt: &'a R,
    /// Whether colours are shown.
    pub is_coloured: bool,
}

impl<R: Eprint> Write for StandardError<'_, R> {
    fn write(&mut self, buf: &[u8]) -> io::Result<usize> {
        let Ok(text) = str::from_utf8(buf) else {
            return Err(io::Error::from(ErrorKind::InvalidData));
        };
        tell(self.rt, self.is_coloured, text)?;
        Ok(buf.len())
    }

    fn flush(&mut self) -> io::Result<()> {
        Ok(())
    }
}
