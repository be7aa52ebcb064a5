//! The words of the lines of lists, each once.

ghost use Rattle.std.specs.Prelude.{◌≡◌, OnOk, map, string_bytes};
ghost use Rattle.rv_hits.specs.Hits.{with_lines};

use rv_access::Line;
use rv_tallied::words::put_words;
use std::alloc::{AllocError, Global};

/// Puts the words of lines behind others, each where it isn't among them. Err where memory was refused.
pub fn put_lines(alloc: Global, seen: &mut Vec<String>, lines: &[Line]) -> Result<(), AllocError>
    ensures { OnOk result (map string_bytes seen.new.items ≡ with_lines (map string_bytes seen.old.items) lines.now) }
{
    let [line, lines @ ..] = lines else {
        return Ok(());
    };
    put_words(seen, line.text(alloc)?)?;
    put_lines(alloc, seen, lines)
}
