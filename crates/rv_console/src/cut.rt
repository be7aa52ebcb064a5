//! Lines cut to the columns that there are.

ghost use Rattle.std.specs.Prelude.{◌≡◌, ◌++◌, IfOk, OnOk, length, string_bytes, take};
ghost use Rattle.std.specs.Str.{chars, encode_utf8_all};
ghost use Rattle.std.specs.Str.Lines.{lines};
ghost use Rattle.rv_console.specs.Cut.{cut_line, cut_lines, cut_text};

use rv_text::next_line;
use std::alloc::{AllocError, Global};

// How many characters a line has.
fn width(line: &str) -> usize
    ensures { result ≡ length (chars line.now) }
{
    line.chars().count()
}

// The first characters of a line, at most so many.
fn front(alloc: Global, count: usize, line: &str) -> Result<String, AllocError>
    ensures { IfOk result (λ text. string_bytes text ≡ encode_utf8_all (take count (chars line.now))) }
{
    line.chars().take(count).collect(alloc)
}

// A line as so many columns, 1 or more, show it.
fn cut_line(alloc: Global, columns: usize, line: &str) -> Result<String, AllocError>
    ensures { IfOk result (λ text. string_bytes text ≡ cut_line columns line.now) }
{
    if width(line) <= columns {
        return String::from_str(alloc, line);
    }
    let mut text = front(alloc, columns.saturating_sub(1), line)?;
    text.push_str(">")?;
    Ok(text)
}

// Adds the lines of a text, each as so many columns show it.
fn put_lines(
    shown: &mut String,
    alloc: Global,
    columns: usize,
    text: &str,
) -> Result<(), AllocError>
    ensures { OnOk result (string_bytes shown.new ≡ string_bytes shown.old ++ cut_lines columns (lines text.now)) }
{
    let Some((line, rest)) = next_line(text) else {
        return Ok(());
    };
    let line = cut_line(alloc, columns, line)?;
    shown.push_str(line.as_str())?;
    shown.push_str("\n")?;
    put_lines(shown, alloc, columns, rest)
}

/// A text of lines each of which is cut to so many columns, where there are any: of one that has more characters the last
/// that is shown is `>`. No column counts as one. Err where memory was refused.
pub fn cut_text(alloc: Global, columns: Option<usize>, text: String) -> Result<String, AllocError>
    ensures { IfOk result (λ shown. string_bytes shown ≡ cut_text columns (string_bytes text)) }
{
    let Some(columns) = columns else {
        return Ok(text);
    };
    let mut shown = String::new(alloc);
    put_lines(&mut shown, alloc, columns.max(1), text.as_str())?;
    Ok(shown)
}
