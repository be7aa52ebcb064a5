//! Writing a text.

ghost use Rattle.rv_fault.specs.Written.{Puts};

use crate::failure::Failure;
use rv_script::write_whole;
use std::io::Write;

/// Writes a text. After a failure a prefix of it is written.
pub fn put<W: Write>(writer: &mut W, text: &str) -> Result<(), Failure>
    ensures { Puts (W.contents writer.old) (W.contents writer.new) text.now result }
{
    match write_whole(writer, text.as_bytes()) {
        Ok(()) => Ok(()),
        Err(e) => Err(Failure::Io(e)),
    }
}
