//! How long a journal lasts by ticks alone.

ghost use Rattle.std.specs.Prelude.{◌≡◌, ◌*◌, ◌/◌, IfOk, string_bytes};
ghost use Rattle.rv_pace.specs.Durations.{lasting_line, time_text};

use std::alloc::{AllocError, Global};

// So many seconds, in minutes and the rest.
fn time_text(alloc: Global, seconds: u64) -> Result<String, AllocError>
    ensures { IfOk result (λ text. string_bytes text ≡ time_text seconds) }
{
    let minutes = seconds / 60;
    let rest = seconds % 60;
    format!(in alloc; "{minutes} min {rest} s")
}

// A line on entries that last so long.
fn line(alloc: Global, entries: u32, time: &str) -> Result<String, AllocError>
    ensures { IfOk result (λ line. string_bytes line ≡ lasting_line entries time.now) }
{
    format!(in alloc; "note: {entries} entries last {time} by ticks alone\n")
}

/// A line that says how long so many entries last where a tick of the clock makes one in each period, in milliseconds.
pub fn lasting(alloc: Global, entries: u32, period: u32) -> Result<String, AllocError>
    ensures { IfOk result (λ line. string_bytes line ≡ lasting_line entries (time_text (entries * period / 1000))) }
{
    let time = time_text(alloc, entries as u64 * period as u64 / 1000)?;
    line(alloc, entries, time.as_str())
}
