//! Which values the selector of a case statement may have (5.4).

ghost use Rattle.std.specs.Prelude.{◌≡◌};
ghost use Rattle.rv_tree.specs.NameView.{name_view};
ghost use Rattle.rv_tree.specs.ExpressionView.{expression_view};
ghost use Rattle.rv_types.specs.Selectors.{range_of as subtype_range, named_subtype as subtype_of_name, called_subtype as subtype_of_call, selector_subtype as subtype_of_selector};
ghost use Rattle.rv_types.specs.Points.{static_meaning};

use crate::denoted::Denoted;
use crate::point::Point;
use rv_shape::kind::Range;
use rv_static::{Meaning, Meanings};
use rv_tree::{Expression, Name};

// The subtype of a variable, of a component, and of the result of a function.
fn range_of(found: Denoted) -> Option<Range>
    ensures { result ≡ subtype_range found }
{
    match found {
        Denoted::Variable(_, range, _) => Some(range),
        Denoted::Component(_, range) => Some(range),
        Denoted::Function(_, range) => Some(range),
        _ => None,
    }
}

fn named_subtype(name: &Name, point: &Point) -> Option<Range>
    ensures { result ≡ subtype_of_name point.now (name_view name.now) }
{
    if let Some(range) = point.constant_subtype(name) {
        return Some(range);
    }
    range_of(point.denoted(name))
}

// The subtype of a conversion, or of a function call.
fn called_subtype(name: &Name, point: &Point) -> Option<Range>
    ensures { result ≡ subtype_of_call point.now (name_view name.now) (static_meaning point.now (name_view name.now)) }
{
    match point.meaning(name) {
        Meaning::Subtype(range) => Some(range),
        _ => named_subtype(name, point),
    }
}

/// The subtype of a selector: its own where it is a name, a conversion or a function call, else all values of its type.
#[tactic(auto, unfolding(crate::specs::Selectors::selector_subtype))]
pub(crate) fn selector_subtype(whole: Range, selector: &Expression, point: &Point) -> Range
    ensures { result ≡ subtype_of_selector point.now whole (expression_view selector.now) }
{
    let found = match selector {
        Expression::Name(name) => named_subtype(name, point),
        Expression::Call(name, _) => called_subtype(name, point),
        _ => None,
    };
    match found {
        Some(range) => range,
        None => whole,
    }
}
