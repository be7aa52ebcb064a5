//! Lines of a text, each with the next number.

ghost use Rattle.std.specs.Prelude.{◌≡◌, ◌++◌, ℕ, IfOk, List, OnOk, string_bytes};
ghost use Rattle.rv_console.specs.Texts.{lines_from};

use std::alloc::{AllocError, Global};

/// What stands in a list, and has a line that says its number there, or what has this number.
pub trait Numbered<C> {
    // The line.
    ghost line_of: { C → ℕ → Self → List ℕ };

    /// The line, by these names. Err where memory was refused.
    fn line(&self, alloc: Global, names: &C, number: usize) -> Result<String, AllocError>
        ensures { IfOk result (λ line. string_bytes line ≡ line_of names.now number self.now) };
}

/// Adds the lines of these, the first of which has this number. Err where memory was refused.
pub fn put_each<C, T: Numbered<C>>(
    text: &mut String,
    alloc: Global,
    names: &C,
    number: usize,
    items: &[T],
) -> Result<(), AllocError>
    ensures { OnOk result (string_bytes text.new ≡ string_bytes text.old ++ lines_from (T.line_of names.now) number items.now) }
{
    let Some((item, others)) = items.split_first() else {
        return Ok(());
    };
    let line = item.line(alloc, names, number)?;
    text.push_str(line.as_str())?;
    // No list is so long that its numbers end.
    let Some(next) = number.checked_add(1) else {
        return Err(AllocError);
    };
    put_each(text, alloc, names, next, others)
}
