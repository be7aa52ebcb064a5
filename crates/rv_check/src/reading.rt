//! Reads a script, and looks at it.

ghost use Rattle.std.specs.Prelude.{IfErr, IfSome};
ghost use Rattle.rv_fault.specs.Written.{Writes, WritesScript};
ghost use Rattle.rv_check.specs.Checks.{KeepsRefused, outcome_of};
ghost use Rattle.rv_check.specs.Scripts.{outcome_when};

use crate::check::check_text;
use crate::script::check_script_text;
use rv_fault::Failure;
use rv_script::{read_script, text_of};
use std::alloc::Global;
use std::io::{Read, Write};

// Looks at the text of a script.
fn check_given_text<W: Write>(
    alloc: Global,
    writer: &mut W,
    is_whole: bool,
    text: &str,
) -> Result<(), Failure>
    ensures { Writes (W.contents writer.old) (W.contents writer.new) (outcome_when is_whole text.now) result }
{
    if is_whole {
        check_script_text(alloc, writer, text)
    } else {
        check_text(alloc, writer, text)
    }
}

// Looks at the script that bytes are, if they are text.
fn check_bytes<W: Write>(
    alloc: Global,
    writer: &mut W,
    is_whole: bool,
    bytes: &[u8],
) -> Result<(), Failure>
    ensures { WritesScript (W.contents writer.old) (W.contents writer.new) (outcome_when is_whole) bytes.now result }
{
    let text = text_of(bytes)?;
    check_given_text(alloc, writer, is_whole, text)
}

/// Looks at the script that a reader gives, and writes a line for each section that is well formed, but none for settings. It
/// stops at the first fault. Gives back what was read of the script, at most its first `MOST_BYTES` + 1 bytes, so that a fault
/// can be explained.
///
/// Where it isn't whole, its sections are looked at in order, as `check` says. A whole one is taken as the command takes it that
/// it is for, `play`, `run` or `audit`, with its steps, commands or journal: the first section that one of them alone takes
/// tells which; without one it is for `play`. That each load is accepted is taken for granted.
pub fn check_kept<R: Read, W: Write>(
    alloc: Global,
    reader: &mut R,
    writer: &mut W,
    is_whole: bool,
) -> (Vec<u8>, Result<(), Failure>)
    ensures told { IfSome (R.remaining reader.old) (λ script.
        WritesScript (W.contents writer.old) (W.contents writer.new) (outcome_when is_whole) script result.1) }
    ensures kept { IfErr result.1 (λ failure. KeepsRefused (R.remaining reader.old) result.0.items failure) }
{
    match read_script(alloc, reader) {
        Ok(bytes) => {
            let done = check_bytes(alloc, writer, is_whole, bytes.as_slice());
            (bytes, done)
        }
        Err(error) => (Vec::new(alloc), Err(Failure::from(error))),
    }
}

/// Looks at the sections of the script that a reader gives, in order, and writes a line for each that is well formed, but
/// none for settings. It stops at the first fault. A shape, and the unit that a unit text gives, must fit those of the
/// sections before.
pub fn check<R: Read, W: Write>(
    alloc: Global,
    reader: &mut R,
    writer: &mut W,
) -> Result<(), Failure>
    ensures { IfSome (R.remaining reader.old) (λ script.
        WritesScript (W.contents writer.old) (W.contents writer.new) outcome_of script result) }
{
    let (_, done) = check_kept(alloc, reader, writer, false);
    done
}
