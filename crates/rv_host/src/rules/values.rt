//! Whether values fit the parameters, the result or the components that they are for.

ghost use Rattle.std.specs.Prelude.{◌≡◌, ◌&&◌, [], ◌∷◌, map, if◌then◌else◌};
ghost use Rattle.rv_shape.specs.Catalogue as catalogues;
ghost use Rattle.rv_history.specs.Fitting as fitting;
ghost use Rattle.rv_host.specs.Going.{going, ranges_going};

use rv_event::entry::Exit;
use rv_shape::kind::{Component, Kind, Parameter, ParameterMode, Range};

// Whether a parameter of this mode takes a value in or, where that is asked for, gives one back (6.2).
fn is_going(mode: ParameterMode, outward: bool) -> bool
    ensures { result ≡ going outward mode }
{
    if outward {
        mode.goes_out()
    } else {
        mode.goes_in()
    }
}

// Whether there is one value in range for each parameter that has one to take in or to give back.
fn fit_going(parameters: &[Parameter], values: &[i64], outward: bool) -> bool
    ensures { result ≡ fitting.all_fit (ranges_going outward parameters.now) values.now }
{
    let [parameter, others @ ..] = parameters else {
        return values.len() == 0;
    };
    if !is_going(parameter.mode, outward) {
        return fit_going(others, values, outward);
    }
    let [value, rest @ ..] = values else {
        return false;
    };
    parameter.range.holds(*value) && fit_going(others, rest, outward)
}

/// Whether there is one value in range for each parameter that takes one in.
pub fn fit_parameters(parameters: &[Parameter], values: &[i64]) -> bool
    ensures { result ≡ fitting.all_fit (fitting.ranges_in parameters.now) values.now }
{
    fit_going(parameters, values, false)
}

// Whether there is one value in range for each parameter that gives one back.
fn fit_outward(parameters: &[Parameter], values: &[i64]) -> bool
    ensures { result ≡ fitting.all_fit (fitting.ranges_out parameters.now) values.now }
{
    fit_going(parameters, values, true)
}

// Whether there is one value in range for each component.
fn fit_components(components: &[Component], values: &[i64]) -> bool
    ensures { result ≡ fitting.all_fit (map (λ c. c.range) components.now) values.now }
{
    let [component, others @ ..] = components else {
        return values.len() == 0;
    };
    let [value, rest @ ..] = values else {
        return false;
    };
    component.range.holds(*value) && fit_components(others, rest)
}

// Whether there is one value, the function's result.
fn fit_result(range: &Range, values: &[i64]) -> bool
    ensures { result ≡ fitting.all_fit (range.now ∷ []) values.now }
{
    let [value, rest @ ..] = values else {
        return false;
    };
    range.holds(*value) && rest.len() == 0
}

// Whether the values are those of a return.
fn fit_results(kind: Kind, parameters: &[Parameter], values: &[i64]) -> bool
    ensures { result ≡ fitting.all_fit (fitting.results kind parameters.now) values.now }
{
    match kind {
        Kind::Function(range) => fit_result(&range, values),
        Kind::Procedure | Kind::Entry(_) | Kind::Handler(_) => fit_outward(parameters, values),
    }
}

/// Whether an exit's values, where it returns, are those of the operation.
pub fn fit_exit(kind: Kind, parameters: &[Parameter], exit: &Exit) -> bool
    ensures { result ≡ fitting.exit_fits (fitting.results kind parameters.now) exit.now }
{
    match exit {
        Exit::Return(values) => fit_results(kind, parameters, values.as_slice()),
        _ => true,
    }
}

/// Whether the scalars of an end are those that the operation leaves: none for a function, else
/// one in range for each component.
pub fn fit_scalars(kind: Kind, components: &[Component], values: &[i64]) -> bool
    ensures { result ≡ fitting.all_fit (if catalogues.is_function kind then [] else map (λ c. c.range) components.now) values.now }
{
    match kind {
        Kind::Function(_) => values.len() == 0,
        Kind::Procedure | Kind::Entry(_) | Kind::Handler(_) => fit_components(components, values),
    }
}
