//! Ranges of values (3.5).

ghost use Rattle.std.specs.Prelude.{◌≡◌};
ghost use Rattle.rv_code.specs.ExpressionView.{expression_view};
ghost use Rattle.rv_ranged.specs.Ranged.{covers, gives, time_parameter, first_of};

use rv_code::Expression;
use rv_shape::kind::{Parameter, ParameterMode, Range, ValueType};

/// Whether the bounds of the second range lie in the first.
pub(crate) fn covers(range: Range, inner: Range) -> bool
    ensures { result ≡ covers range inner }
{
    range.low <= inner.low && inner.high <= range.high
}

/// Whether an expression gives values of a range alone.
pub(crate) fn gives(range: Range, e: &Expression) -> bool
    ensures { result ≡ gives range (expression_view e.now) }
{
    match e {
        Expression::Value(n) => range.holds(*n),
        Expression::Within(inner, _) => covers(range, *inner),
        _ => false,
    }
}

/// The time of a `delay until`, which is any Time (9.6).
pub(crate) fn time_parameter() -> Parameter
    ensures { result ≡ time_parameter }
{
    Parameter {
        mode: ParameterMode::In,
        range: Range {
            of: ValueType::Time,
            low: -1_000_000_000_000_000,
            high: 1_000_000_000_000_000,
        },
    }
}

/// What an `out` parameter of a type starts at, where its range has this low bound.
pub(crate) fn first_of(of: ValueType, low: i64) -> i64
    ensures { result ≡ first_of of low }
{
    match of {
        ValueType::Integer | ValueType::Boolean => low,
        ValueType::Time | ValueType::TimeSpan => 0,
    }
}
