//! What declarations of library packages mean in static expressions (3.5.3, 3.5.4, 13.7, A.1, D.1, D.8).

ghost use Rattle.std.specs.Prelude.{◌≡◌};
ghost use Rattle.rv_scope.specs.Statics.{predefined_meaning as meaning_of_predefined, whole_range as range_of_type, integers as integers_between, natural_range, positive_range, priority_range, interrupt_priority_range, any_priority_range};

use crate::predefined::Predefined;
use rv_shape::kind::{Range, ValueType};
use rv_static::Meaning;

/// The priority of a task that is given none (D.1); its value is our own.
pub const DEFAULT_PRIORITY: i64 = 15;

/// All values of a type.
pub fn whole_range(of: ValueType) -> Range
    ensures { result ≡ range_of_type of }
{
    match of {
        ValueType::Integer => Range {
            of,
            low: -2147483648,
            high: 2147483647,
        },
        ValueType::Boolean => Range {
            of,
            low: 0,
            high: 1,
        },
        ValueType::Time => Range {
            of,
            low: -1000000000000000,
            high: 1000000000000000,
        },
        ValueType::TimeSpan => Range {
            of,
            low: -1000000000000000,
            high: 1000000000000000,
        },
    }
}

/// The values of Integer from one to another.
pub fn integers(low: i64, high: i64) -> Range
    ensures { result ≡ integers_between low high }
{
    Range {
        of: ValueType::Integer,
        low,
        high,
    }
}

/// What a declaration of a library package means in a static expression.
pub fn predefined_meaning(item: Predefined) -> Meaning
    ensures { result ≡ meaning_of_predefined item }
{
    match item {
        Predefined::Integer => Meaning::Subtype(whole_range(ValueType::Integer)),
        Predefined::Natural => Meaning::Subtype(integers(0, 2147483647)),
        Predefined::Positive => Meaning::Subtype(integers(1, 2147483647)),
        Predefined::Boolean => Meaning::Subtype(whole_range(ValueType::Boolean)),
        Predefined::True => Meaning::Constant(ValueType::Boolean, 1),
        Predefined::False => Meaning::Constant(ValueType::Boolean, 0),
        Predefined::Priority => Meaning::Subtype(integers(1, 30)),
        Predefined::InterruptPriority => Meaning::Subtype(integers(31, 40)),
        Predefined::AnyPriority => Meaning::Subtype(integers(1, 40)),
        Predefined::DefaultPriority => Meaning::Constant(ValueType::Integer, DEFAULT_PRIORITY),
        Predefined::Time => Meaning::Subtype(whole_range(ValueType::Time)),
        Predefined::TimeSpan => Meaning::Subtype(whole_range(ValueType::TimeSpan)),
        Predefined::Milliseconds => Meaning::Milliseconds,
        _ => Meaning::NotStatic,
    }
}
