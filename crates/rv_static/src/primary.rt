//! What literals, constants and attributes give, and how a value stands in a range (3.5, 4.9).

ghost use Rattle.std.specs.Prelude.{◌≡◌};
ghost use Rattle.rv_tree.specs.NameView.{identifier_view};
ghost use Rattle.rv_shape.specs.declared.kind.ValueType.TheVariants.{Integer, Boolean};
ghost use Rattle.rv_static.specs.Meanings.{same_type, static_of_type, shown, constant_in, placed};
ghost use Rattle.rv_static.specs.Static.{literal_number, bound_of, is_discrete};
ghost use Rattle.rv_static.specs.Told.{told_unless};

use crate::fault::{Faults, TypeFault};
use crate::meaning::{Meaning, Number, Static};
use rv_shape::kind::{Range, ValueType};
use rv_text::is_same_name;
use rv_tree::Identifier;

fn shown(is_evaluated: bool, number: i64) -> Number
    ensures { result ≡ shown is_evaluated number }
{
    if is_evaluated {
        Number::Known(number)
    } else {
        Number::Skipped
    }
}

/// Whether two types are the same.
pub fn same_type(left: ValueType, right: ValueType) -> bool
    ensures { result ≡ same_type left right }
{
    match (left, right) {
        (ValueType::Integer, ValueType::Integer)
        | (ValueType::Boolean, ValueType::Boolean)
        | (ValueType::Time, ValueType::Time)
        | (ValueType::TimeSpan, ValueType::TimeSpan) => true,
        _ => false,
    }
}

pub(crate) fn literal(
    is_evaluated: bool,
    number: u64,
    at: usize,
    faults: &mut Faults,
) -> Option<Number>
    ensures value { result ≡ literal_number is_evaluated number }
    ensures told { faults.new ≡ told_unless result faults.old }
{
    if !is_evaluated {
        return Some(Number::Skipped);
    }
    if number <= 2147483647 {
        return Some(Number::Known(number as i64));
    }
    faults.tell(TypeFault::TooLarge(at));
    None
}

// The value of a constant.
pub(crate) fn constant(
    is_evaluated: bool,
    meaning: Meaning,
    at: usize,
    faults: &mut Faults,
) -> Option<Static>
    ensures value { result ≡ constant_in is_evaluated meaning }
    ensures told { faults.new ≡ told_unless result faults.old }
{
    match meaning {
        Meaning::Constant(of, number) => Some(Static {
            of,
            number: shown(is_evaluated, number),
        }),
        _ => {
            faults.tell(TypeFault::NotStatic(at));
            None
        }
    }
}

// The bound that `First` or `Last` asks for.
pub(crate) fn bound(
    is_evaluated: bool,
    meaning: Meaning,
    attribute: &Identifier,
    at: usize,
    faults: &mut Faults,
) -> Option<Number>
    ensures value { result ≡ bound_of is_evaluated meaning (identifier_view attribute.now).text }
    ensures told { faults.new ≡ told_unless result faults.old }
{
    if let Meaning::Subtype(range) = meaning {
        if same_type(range.of, ValueType::Integer) {
            if is_same_name(attribute.text.as_str(), "First") {
                return Some(shown(is_evaluated, range.low));
            }
            if is_same_name(attribute.text.as_str(), "Last") {
                return Some(shown(is_evaluated, range.high));
            }
        }
    }
    faults.tell(TypeFault::Mismatch(at));
    None
}

// A number within a range.
pub(crate) fn placed(range: Range, number: Number, at: usize, faults: &mut Faults) -> Option<Number>
    ensures value { result ≡ placed range number }
    ensures told { faults.new ≡ told_unless result faults.old }
{
    let Number::Known(value) = number else {
        return Some(Number::Skipped);
    };
    if range.low <= value && value <= range.high {
        return Some(Number::Known(value));
    }
    faults.tell(TypeFault::TooLarge(at));
    None
}

pub(crate) fn integer(number: Number) -> Static
    ensures { result ≡ static_of_type Integer number }
{
    Static {
        of: ValueType::Integer,
        number,
    }
}

pub(crate) fn boolean(number: Number) -> Static
    ensures { result ≡ static_of_type Boolean number }
{
    Static {
        of: ValueType::Boolean,
        number,
    }
}

/// Whether the type is discrete: a range constraint applies to no other, and its values alone are compared (ISO/IEC 8652:2012, 3.2,
/// 3.2.2).
pub fn is_discrete(of: ValueType) -> bool
    ensures { result ≡ is_discrete of }
{
    match of {
        ValueType::Integer | ValueType::Boolean => true,
        ValueType::Time | ValueType::TimeSpan => false,
    }
}
