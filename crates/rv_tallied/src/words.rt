//! Words, each once.

ghost use Rattle.std.specs.Prelude.{◌≡◌, OnOk, map, string_bytes};
ghost use Rattle.std.specs.List.{list_any};
ghost use Rattle.std.specs.Str.{bytes_eq};
ghost use Rattle.rv_tallied.specs.Tallies.{with_words};

use std::alloc::AllocError;

// Whether words are among others.
fn has(seen: &[String], words: &str) -> bool
    ensures { result ≡ list_any (bytes_eq words.now) (map string_bytes seen.now) }
{
    for other in seen {
        if words == other.as_str() {
            return true;
        }
    }
    false
}

/// Puts words behind others, where they aren't among them. Err where memory was refused.
pub fn put_words(seen: &mut Vec<String>, words: String) -> Result<(), AllocError>
    ensures { OnOk result (map string_bytes seen.new.items ≡ with_words (map string_bytes seen.old.items) (string_bytes words)) }
{
    if has(seen.as_slice(), words.as_str()) {
        return Ok(());
    }
    seen.push(words)?;
    Ok(())
}
