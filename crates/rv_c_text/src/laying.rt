//! Laying what is told into a buffer.

ghost use Rattle.std.specs.Prelude.{◌≡◌};
ghost use Rattle.rv_c_text.specs.Laid.{Gets, laid};

use crate::text::Text;

/// Lays a text over the front of a buffer, as much of it as there is room for.
pub fn lay(text: &[u8], buffer: &mut [u8])
    ensures { buffer.new ≡ laid text.now buffer.old }
{
    let count = text.len().min(buffer.len());
    buffer[..count].copy_from_slice(&text[..count]);
}

/// Lays values over the front of others, as many of them as there is room for.
pub fn lay_values(values: &[i64], cells: &mut [i64])
    ensures { cells.new ≡ laid values.now cells.old }
{
    let count = values.len().min(cells.len());
    cells[..count].copy_from_slice(&values[..count]);
}

/// Tells a caller a text, of which so many bytes stand before the line of a fault.
pub fn tell(text: &mut Text<'_>, all: &[u8], before: usize)
    ensures { Gets all.now before text.old text.new }
{
    lay(all, text.bytes);
    text.length = all.len();
    text.fault = before;
}
