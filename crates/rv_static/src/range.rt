//! Subtypes with their ranges, and what a component starts at.

ghost use Rattle.std.specs.Prelude.{◌≡◌, true};
ghost use Rattle.rv_tree.specs.NameView.{name_view};
ghost use Rattle.rv_tree.specs.DeclarationView.{maybe};
ghost use Rattle.rv_tree.specs.ExpressionView.{expression_view, range_view};
ghost use Rattle.rv_static.specs.Meanings.{range_in, in_bounds};
ghost use Rattle.rv_static.specs.Ranges.{static_number, bounded, constrained, narrowed, default_start, within, value_in, start_of};
ghost use Rattle.rv_static.specs.Told.{told_unless};

use crate::fault::{Faults, TypeFault};
use crate::meaning::{Meaning, Meanings, Number};
use crate::primary::is_discrete;
use crate::value::operand;
use rv_shape::kind::{Range, ValueType};
use rv_tree::{Expression, Name, RangeConstraint};

/// The range of the subtype that a mark names (3.2.2); or `None`, where a fault was told.
pub fn subtype<N: Meanings>(mark: &Name, names: &N, faults: &mut Faults) -> Option<Range>
    ensures value { result ≡ range_in (N.means names.now (name_view mark.now)) }
    ensures told { faults.new ≡ told_unless result faults.old }
{
    match names.meaning(mark) {
        Meaning::Subtype(range) => Some(range),
        _ => {
            faults.tell(TypeFault::Mismatch(mark.first.at));
            None
        }
    }
}

/// The number of a static expression of the range's type (4.9); or `None`, where a fault was told.
#[tactic(auto, unfolding(crate::specs::Ranges::static_number))]
pub fn static_number<N: Meanings>(
    range: Range,
    e: &Expression,
    names: &N,
    faults: &mut Faults,
) -> Option<i64>
    ensures value { result ≡ static_number (N.means names.now) range (expression_view e.now) }
    ensures told { faults.new ≡ told_unless result faults.old }
{
    match operand(range.of, e, true, names, faults) {
        Some(Number::Known(number)) => Some(number),
        Some(Number::Skipped) => {
            faults.tell(TypeFault::NotStatic(e.place()));
            None
        }
        None => {
            tell_types(range, e, names, faults);
            None
        }
    }
}

// Where an expression with a fault has a value that is too large, a type that doesn't fit may stand before.
fn tell_types<N: Meanings>(range: Range, e: &Expression, names: &N, faults: &mut Faults)
    ensures { faults.old ≡ true → faults.new ≡ true }
{
    let _ = operand(range.of, e, false, names, faults);
}

fn in_bounds(range: Range, number: i64) -> bool
    ensures { result ≡ in_bounds range number }
{
    range.low <= number && number <= range.high
}

// The range between two bounds, whose places are told where they aren't in the subtype.
fn bounded(
    range: Range,
    low: i64,
    high: i64,
    places: (usize, usize),
    faults: &mut Faults,
) -> Option<Range>
    ensures value { result ≡ bounded range low high }
    ensures told { faults.new ≡ told_unless result faults.old }
{
    let found = Range {
        of: range.of,
        low,
        high,
    };
    if high < low {
        return Some(found);
    }
    if !in_bounds(range, low) {
        faults.tell(TypeFault::TooLarge(places.0));
        return None;
    }
    if !in_bounds(range, high) {
        faults.tell(TypeFault::TooLarge(places.1));
        return None;
    }
    Some(found)
}

// The range between the bounds of a range constraint.
fn constrained<N: Meanings>(
    range: Range,
    constraint: &RangeConstraint,
    names: &N,
    faults: &mut Faults,
) -> Option<Range>
    ensures value { result ≡ constrained (N.means names.now) range (range_view constraint.now) }
    ensures told { faults.new ≡ told_unless result faults.old }
{
    let low = static_number(range, &constraint.low, names, faults)?;
    let high = static_number(range, &constraint.high, names, faults)?;
    let places = (constraint.low.place(), constraint.high.place());
    bounded(range, low, high, places, faults)
}

/// A subtype with a range constraint, if one is written (3.2.2); or `None`, where a fault was told.
pub fn narrowed<N: Meanings>(
    range: Range,
    constraint: &Option<RangeConstraint>,
    names: &N,
    faults: &mut Faults,
) -> Option<Range>
    ensures value { result ≡ narrowed (N.means names.now) range (maybe range_view constraint.now) }
    ensures told { faults.new ≡ told_unless result faults.old }
{
    match constraint {
        None => Some(range),
        Some(constraint) => {
            if is_discrete(range.of) {
                return constrained(range, constraint, names, faults);
            }
            faults.tell(TypeFault::Mismatch(constraint.low.place()));
            None
        }
    }
}

/// What a value of a range starts at where none is given: the first one, and 0 for Time and Time_Span (own).
pub fn default_start(range: Range) -> i64
    ensures { result ≡ default_start range }
{
    if is_discrete(range.of) { range.low } else { 0 }
}

/// The value of a static expression, which is in the range; or `None`, where a fault was told.
pub fn value_in<N: Meanings>(
    range: Range,
    e: &Expression,
    names: &N,
    faults: &mut Faults,
) -> Option<i64>
    ensures value { result ≡ value_in (N.means names.now) range (expression_view e.now) }
    ensures told { faults.new ≡ told_unless result faults.old }
{
    let number = static_number(range, e, names, faults)?;
    if in_bounds(range, number) {
        return Some(number);
    }
    faults.tell(TypeFault::TooLarge(e.place()));
    None
}

/// What a component of a range starts at; or `None`, where a fault was told.
pub fn start<N: Meanings>(
    range: Range,
    given: &Option<Expression>,
    names: &N,
    faults: &mut Faults,
) -> Option<i64>
    ensures value { result ≡ start_of (N.means names.now) range (maybe expression_view given.now) }
    ensures told { faults.new ≡ told_unless result faults.old }
{
    match given {
        None => Some(default_start(range)),
        Some(e) => value_in(range, e, names, faults),
    }
}
