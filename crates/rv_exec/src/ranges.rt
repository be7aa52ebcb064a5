//! The ranges of loops (5.5).

ghost use Rattle.std.specs.Prelude.{◌≡◌, ◌<◌, ◌≤ℤ◌, pos, negsuc, IsTrue};
ghost use Rattle.rv_exec.specs.Activations.{fits, is_within, span, value_before};
ghost use Rattle.rv_value.specs.Arithmetic.{is_integer};

use rv_shape::kind::Range;

fn is_integer(value: i64) -> bool
    ensures value { result ≡ is_integer value }
    ensures within { IsTrue result → (negsuc 2147483647 ≤ℤ value) × (value ≤ℤ pos 2147483647) }
{
    -2147483648 <= value && value <= 2147483647
}

fn is_within(range: Range, low: i64, high: i64) -> bool
    ensures { result ≡ is_within range low high }
{
    range.low <= low && high <= range.high
}

/// Whether the bounds of a loop's range lie in its subtype (3.2.2, 3.5).
pub fn fits(range: Range, low: i64, high: i64) -> bool
    ensures value { result ≡ fits range low high }
    ensures low { IsTrue result → negsuc 2147483647 ≤ℤ low }
    ensures high { IsTrue result → high ≤ℤ pos 2147483647 }
{
    is_within(range, low, high) && is_integer(low) && is_integer(high)
}

/// What a `for` says besides its bounds (5.5).
#[derive(Clone, Copy)]
pub struct Scheme {
    /// The slot of the loop parameter.
    pub parameter: usize,
    pub is_reverse: bool,
    /// The range in which the bounds lie where the loop turns at all (3.5).
    pub range: Range,
}

/// The values from one Integer to another that isn't less, and the slot that takes them.
#[derive(Clone, Copy)]
pub struct Values {
    pub slot: usize,
    pub is_reverse: bool,
    pub low: i64,
    pub high: i64,
    ghost from: { negsuc 2147483647 ≤ℤ low },
    ghost to: { high ≤ℤ pos 2147483647 },
    ghost ordered: { low ≤ℤ high },
}

/// How many values there are.
pub fn span(values: Values) -> u64
    ensures { result ≡ span values.low values.high }
{
    values.high.abs_diff(values.low) + 1
}

/// The value that so many others follow.
pub fn value_before(values: Values, others: u64) -> i64
    requires { others < span values.low values.high }
    ensures { result ≡ value_before values.is_reverse values.low values.high others }
{
    if values.is_reverse {
        values.low + others as i64
    } else {
        values.high - others as i64
    }
}
