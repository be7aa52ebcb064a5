//! The lines of the waits that last.

ghost use Rattle.std.specs.Prelude.{◌≡◌, ◌++◌, OnOk, string_bytes};
ghost use Rattle.rv_waits.specs.Waits.{lasting_line, lasting_lines};

use crate::taking::takes;
use rv_lasting::lines::put_wait;
use rv_lasting::track::Begun;
use rv_refused::Filter;
use rv_shape::catalogue::Catalogue;
use std::alloc::{AllocError, Global};

// Puts the line of one that lasts, where the filter takes it.
fn put_lasting(
    alloc: Global,
    text: &mut String,
    filter: &Filter<'_>,
    catalogue: &Catalogue,
    tick: u64,
    it: &Begun,
) -> Result<(), AllocError>
    ensures { OnOk result (string_bytes text.new ≡ string_bytes text.old ++ lasting_line filter.now catalogue.now tick it.now) }
{
    if takes(alloc, filter, catalogue, it)? {
        return put_wait(text, catalogue, it, "still waits", tick);
    }
    Ok(())
}

/// Puts the lines of those that last at this tick and that a filter takes, the oldest first, of these, which come the newest first.
pub fn put_all_lasting(
    alloc: Global,
    text: &mut String,
    filter: &Filter<'_>,
    catalogue: &Catalogue,
    tick: u64,
    begun: &[Begun],
) -> Result<(), AllocError>
    ensures { OnOk result (string_bytes text.new ≡ string_bytes text.old ++ lasting_lines filter.now catalogue.now tick begun.now) }
{
    let [it, begun @ ..] = begun else {
        return Ok(());
    };
    put_all_lasting(alloc, text, filter, catalogue, tick, begun)?;
    put_lasting(alloc, text, filter, catalogue, tick, it)
}
