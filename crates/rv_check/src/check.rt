//! Looks at the parts of a script, one by one, and says of each that it is well formed.

ghost use Rattle.std.specs.Prelude.{◌≡◌, []};
ghost use Rattle.rv_fault.specs.Written.{Writes};
ghost use Rattle.rv_check.specs.Checks.{TellsAll, checking, outcome_of};

use crate::sections::check_part;
use rv_fault::{Failure, Parts, What, refused, settings_of};
use rv_script::open;
use rv_shape::catalogue::Catalogue;
use std::alloc::Global;
use std::io::Write;

// Looks at parts, in order, up to the first that something stands against.
fn check_parts<W: Write>(alloc: Global, writer: &mut W, mut parts: Parts<'_>) -> Result<(), Failure>
    ensures { TellsAll checking (W.contents writer.old) (W.contents writer.new) parts.entry result }
{
    let mut catalogue = Catalogue::new(alloc);
    'each: while let Some(part) = parts.next_part() {
        match check_part(alloc, writer, &mut catalogue, &part) {
            Ok(()) => {}
            Err(failure) => return Err(failure),
        }
    }
    Ok(())
}

/// Looks at the text of a script: at its settings, of which nothing is said, and then at its parts, up to the first that
/// something stands against.
pub(crate) fn check_text<W: Write>(alloc: Global, writer: &mut W, text: &str) -> Result<(), Failure>
    ensures { Writes (W.contents writer.old) (W.contents writer.new) (outcome_of text.now) result }
{
    let script = match open(text) {
        Ok(script) => script,
        Err(line) => return Err(refused(line, What::BadSection)),
    };
    let _settings = settings_of(alloc, &script.settings)?;
    check_parts(alloc, writer, Parts::of(script.sections))
}
