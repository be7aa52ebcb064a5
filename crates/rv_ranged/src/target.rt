//! What takes values (5.2, 6.4.1).

ghost use Rattle.std.specs.Prelude.{◌≡◌};
ghost use Rattle.std.specs.List.{list_all};
ghost use Rattle.rv_code.specs.ExpressionView.{expression_view};
ghost use Rattle.rv_ranged.specs.Ranged.{place_keeps, target_keeps, result_given};

use crate::range::{covers, gives};
use crate::stand::Stand;
use rv_code::{Expression, Place, Target};
use rv_shape::kind::Range;

fn place_keeps(range: Range, place: Place, stand: &Stand<'_>) -> bool
    ensures { result ≡ place_keeps stand.now range place }
{
    match place {
        Place::Variable(slot) => match stand.parameters.get(slot) {
            Some(parameter) => covers(parameter.range, range),
            None => true,
        },
        Place::Component(index) => match stand.components.get(index) {
            Some(component) => covers(component.range, range),
            None => true,
        },
    }
}

/// Whether a target keeps to the range of its parameter or component, if it is one.
pub(crate) fn target_keeps(target: &Target, stand: &Stand<'_>) -> bool
    ensures { result ≡ target_keeps stand.now target.now }
{
    place_keeps(target.range, target.place, stand)
}

/// Whether all of these do.
pub(crate) fn targets_keep(targets: &Vec<Target>, stand: &Stand<'_>) -> bool
    ensures { result ≡ list_all (target_keeps stand.now) targets.now.items }
{
    for target in targets {
        if !target_keeps(target, stand) {
            return false;
        }
    }
    true
}

/// Whether what is returned lies in the range of the result, if there is one (6.5).
pub(crate) fn result_given(e: &Expression, stand: &Stand<'_>) -> bool
    ensures { result ≡ result_given stand.now.result (expression_view e.now) }
{
    match stand.result {
        Some(range) => gives(range, e),
        None => true,
    }
}
