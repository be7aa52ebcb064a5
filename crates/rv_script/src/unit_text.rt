//! Unit texts without carriage returns at the ends of their lines.

ghost use Rattle.std.specs.Prelude.{◌≡◌, IfOk, string_bytes};
ghost use Rattle.rv_script.specs.UnitTexts.{without_returns};

use rv_text::without_return;
use std::alloc::{AllocError, Global};

/// The greatest length of a unit text, in bytes.
pub const MOST_UNIT_BYTES: usize = 262_144;

/// A unit text without each carriage return that stands before a line feed: places and the length of a
/// unit text count without them.
pub fn unit_text(alloc: Global, text: &str) -> Result<String, AllocError>
    ensures { IfOk result (λ kept. string_bytes kept ≡ without_returns text.now) }
{
    if !text.as_bytes().contains(&b'\r') {
        return String::from_str(alloc, text);
    }
    let mut kept = String::new(alloc);
    let mut rest = text;
    while let Some((line, after)) = rest.split_once('\n') {
        kept.push_str(without_return(line))?;
        kept.push_str("\n")?;
        rest = after;
    }
    kept.push_str(rest)?;
    Ok(kept)
}
