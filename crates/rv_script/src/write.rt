//! Writing, with what was written told at a failure.

ghost use Rattle.std.specs.Prelude.{◌≡◌, OnOk, IfErr};
ghost use Rattle.std.specs.Io.KnownBytes.{Appends};
ghost use Rattle.rv_script.specs.Prefixes.{WritesPrefix};

use std::io;
use std::io::{ErrorKind, Write};

/// Writes all of the bytes. After an error a prefix of them is written.
pub fn write_whole<W: Write>(writer: &mut W, bytes: &[u8]) -> io::Result<()>
    ensures ok { OnOk result (Appends (W.contents writer.old) (W.contents writer.new) bytes.now) }
    ensures prefix { WritesPrefix (W.contents writer.old) (W.contents writer.new) bytes.now }
{
    let mut rest = bytes;
    while rest.len() > 0 {
        let count = writer.write(rest)?;
        if count < 1 {
            return Err(io::Error::from(ErrorKind::WriteZero));
        }
        let (_, after) = rest.split_at(count);
        rest = after;
    }
    Ok(())
}
