//! What is said of a unit that has spent its allowance.

ghost use Rattle.std.specs.Prelude.{◌≡◌, IfOk, string_bytes};
ghost use Rattle.rv_tally.specs.Spending.{spent_line, spent_words};

use crate::words::grouped;
use std::alloc::{AllocError, Global};

// The same of a number that was written.
fn spent_words(alloc: Global, unit: &str, quota: &str) -> Result<String, AllocError>
    ensures { IfOk result (λ line. string_bytes line ≡ spent_words unit.now quota.now) }
{
    format!(in alloc;
        "quota: {unit} has spent its {quota} entries; what it asks behind them is answered full\n"
    )
}

/// What is said of a unit to which as many entries are charged as its quota has, a line. Err where memory was refused.
pub fn spent_line(alloc: Global, unit: &str, quota: u32) -> Result<String, AllocError>
    ensures { IfOk result (λ line. string_bytes line ≡ spent_line unit.now quota) }
{
    let quota = grouped(alloc, quota as u64)?;
    spent_words(alloc, unit, quota.as_str())
}
