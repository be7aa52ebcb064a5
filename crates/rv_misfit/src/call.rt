//! Whether the values of a call fit what it calls.

ghost use Rattle.std.specs.Prelude.{◌≡◌, ◌≤◌, length};
ghost use Rattle.rv_history.specs.Fitting.{ranges_in};
ghost use Rattle.rv_shape.specs.Readers.{target_of};
ghost use Rattle.rv_misfit.specs.Misfits.{first_outside, ranges_at, values_misfit};

use crate::misfit::{Called, Misfit};
use rv_shape::actor::Callee;
use rv_shape::kind::{Parameter, Range};

// How many parameters a call gives values to (6.2).
fn count_in(parameters: &[Parameter]) -> usize
    ensures value { result ≡ length (ranges_in parameters.now) }
    ensures few { result ≤ length parameters.now }
{
    let [parameter, others @ ..] = parameters else {
        return 0;
    };
    let count = count_in(others);
    if parameter.mode.goes_in() {
        count + 1
    } else {
        count
    }
}

// The first value that is outside its range, with the range.
fn first_outside(parameters: &[Parameter], values: &[i64]) -> Option<(Range, i64)>
    ensures { result ≡ first_outside (ranges_in parameters.now) values.now }
{
    let [parameter, others @ ..] = parameters else {
        return None;
    };
    if !parameter.mode.goes_in() {
        return first_outside(others, values);
    }
    let [value, rest @ ..] = values else {
        return None;
    };
    if parameter.range.holds(*value) {
        return first_outside(others, rest);
    }
    Some((parameter.range, *value))
}

// Why these values never fit these parameters.
#[tactic(auto, using(crate::proofs::Values::of_another_count, crate::proofs::Values::of_the_count))]
fn values_misfit(called: Called, parameters: &[Parameter], values: &[i64]) -> Option<Misfit>
    ensures { result ≡ values_misfit called (ranges_in parameters.now) values.now }
{
    let due = count_in(parameters);
    if values.len() != due {
        return Some(Misfit::Count(called, values.len(), due));
    }
    match first_outside(parameters, values) {
        Some((range, value)) => Some(Misfit::Outside(called, value, range)),
        None => None,
    }
}

/// Why these values never fit a call of this callee, whose numbers these are. A suspension object's operations take none (D.10).
pub(crate) fn callee_misfit(called: Called, callee: &Callee<'_>, values: &[i64]) -> Option<Misfit>
    ensures { result ≡ values_misfit called (ranges_at (target_of callee.now)) values.now }
{
    match *callee {
        Callee::Protected(_, _, operation) => {
            values_misfit(called, operation.parameters(), values)
        }
        Callee::Nowhere | Callee::Suspension(_, _, _) => values_misfit(called, &[], values),
    }
}
