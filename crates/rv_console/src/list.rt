//! The list in force, as the console shows it.

ghost use Rattle.std.specs.Prelude.{◌≡◌, IfOk, string_bytes};
ghost use Rattle.rv_console.specs.Texts.{list_text, numbered_line};

use crate::numbered::{Numbered, put_each};
use rv_access::Line;
use rv_view::View;
use std::alloc::{AllocError, Global};

impl Numbered<()> for Line {
    ghost line_of = { λ _ number line. numbered_line number line };

    // Behind its number.
    fn line(&self, alloc: Global, _none: &(), number: usize) -> Result<String, AllocError> {
        let line = self.text(alloc)?;
        let line = line.as_str();
        format!(in alloc; "{number} {line}\n")
    }
}

/// The version of the list in force, and its lines as `remove` and `replace` count them. Err where memory was refused.
pub fn list_text(alloc: Global, view: &View) -> Result<String, AllocError>
    ensures { IfOk result (λ text. string_bytes text ≡ list_text view.now) }
{
    let version = view.version();
    let mut text = format!(in alloc; "version {version}\n")?;
    put_each(&mut text, alloc, &(), 1, view.list().lines())?;
    Ok(text)
}
