//! Ranges of a scalar's values.

ghost use Rattle.std.specs.Prelude.{◌≤ℤ◌, IsTrue, ◌↔◌};

/// Whether a value lies in the range `low .. high` (ISO/IEC 8652:2012, 3.5); none lies in a null range.
pub fn in_range(value: i64, low: i64, high: i64) -> bool
    ensures { IsTrue result ↔ ((low ≤ℤ value) × (value ≤ℤ high)) }
{
    low <= value && value <= high
}
