//! What stands before the commands of an input, and what is read with it.

ghost use Rattle.std.specs.Prelude.{◌≡◌, ◌++◌, take, IfOk, IfSome};
ghost use Rattle.std.specs.Io.KnownBytes.{Consumes};
ghost use Rattle.rv_input.specs.Coming.{IsBefore, most_before};

use crate::fault::InputFault;
use crate::input::{Input, Preamble};
use crate::lines::keep_line;
use std::alloc::Global;
use std::io::Read;

/// What was read of an input up to its commands.
#[derive(Drop)]
pub struct Before {
    /// What stands before the line `@run`, or all where there is none; up to one byte past the greatest length.
    pub sections: Vec<u8>,
    /// That line as it came, and what was read ahead of the commands.
    pub rest: Vec<u8>,
}

/// Reads what stands before the commands. What it gives and what the reader has left are the whole input.
///
/// # Errors
/// As the first read or growth that fails.
pub fn read_before<R: Read>(alloc: Global, reader: &mut R) -> Result<Before, InputFault>
    ensures whole { IfOk result (λ before. Consumes (R.remaining reader.old) (R.remaining reader.new) (before.sections.items ++ before.rest.items)) }
    ensures sections { IfOk result (λ before. IfSome (R.remaining reader.old) (λ input. IsBefore before.sections.items (take most_before input))) }
{
    let mut input = Input::new(alloc);
    let Preamble { bytes, run, .. } = input.preamble(reader)?;
    let mut rest = run;
    keep_line(&mut rest, input.ahead())?;
    Ok(Before {
        sections: bytes,
        rest,
    })
}
