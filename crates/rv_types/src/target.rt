//! What statements write, and what calls are given.

ghost use Rattle.std.specs.Prelude.{◌≡◌, ◌++◌, ◌∷◌, [], IfOk, OnOk, Some, map, true};
ghost use Rattle.rv_tree.specs.NameView.{name_view};
ghost use Rattle.rv_tree.specs.Expressions.{expressions_of};
ghost use Rattle.rv_tree.specs.ExpressionView.{expression_view, expressions_view};
ghost use Rattle.rv_code.specs.ExpressionView.{expression_view as code_view};
ghost use Rattle.rv_code.specs.StatementView.{statement_view};
ghost use Rattle.rv_types.specs.Points.{denotes, profile};
ghost use Rattle.rv_types.specs.Typed.{argument_for, suspension_of};
ghost use Rattle.rv_types.specs.Targets.{target_in as target_of_denoted, may_write as may_be_written, target_of as target_of_name, assigned as assigned_target, assignment_code, with_argument, with_target, read_from as code_of_place, fitting as fitting_target, object_named as object_of_expression, is_writable as is_object_writable, target_for as target_of_parameter, passing, passed_onto, nothing_passed, setter as setter_of, called as called_statement, may_call as may_be_called};
ghost use Rattle.rv_types.specs.LoopView.{passed_view};

use crate::denoted::{Denoted, SuspensionOperation};
use crate::expression::{expression, expression_as, suspension_argument};
use crate::operators::within_range;
use crate::point::Point;
use crate::refused::{Refused, least, mismatch};
use rv_code::{Callee, Expression as Code, Place, Statement as Action, Target};
use rv_shape::kind::{Parameter, ParameterMode};
use rv_static::{TypeFault, same_type};
use rv_tree::{Expression, Name};
use std::alloc::Global;

/// What a call is given: the values of its `in` and `in out` parameters, and what takes those of the `out` and `in out`
/// ones.
#[derive(Drop)]
pub struct Passed {
    pub arguments: Vec<Code>,
    pub targets: Vec<Target>,
}

// Where the object that a name denotes is kept.
fn target_in(denoted: Denoted, at: usize) -> Result<Target, Refused>
    ensures { IfOk result (λ t. target_of_denoted denoted ≡ Some t) }
{
    match denoted {
        Denoted::Variable(slot, range, _) => Ok(Target {
            place: Place::Variable(slot),
            range,
        }),
        Denoted::Component(index, range) => Ok(Target {
            place: Place::Component(index),
            range,
        }),
        _ => Err(mismatch(at)),
    }
}

// Whether what a name denotes may be written: no constant, `in` parameter or loop parameter (3.3), and in a function no
// component (9.5.1).
fn may_write(denoted: Denoted, point: &Point) -> bool
    ensures { result ≡ may_be_written point.now.result denoted }
{
    match denoted {
        Denoted::Variable(_, _, is_written) => is_written,
        Denoted::Component(_, _) => point.result_range().is_none(),
        _ => false,
    }
}

/// The object that an assignment names.
#[tactic(auto, unfolding(crate::specs::Targets::target_of))]
fn assigned_object(name: &Name, point: &Point) -> Result<Target, Refused>
    ensures { IfOk result (λ t. target_of_name point.now (name_view name.now) ≡ Some t) }
{
    let denoted = point.denoted(name);
    if !may_write(denoted, point) {
        return Err(Refused(TypeFault::ConstantWritten(name.first.at)));
    }
    target_in(denoted, name.first.at)
}

// An assignment to a target.
fn assign_to(
    alloc: Global,
    target: Target,
    e: &Expression,
    point: &Point,
) -> Result<Action, Refused>
    ensures { IfOk result (λ s. assigned_target point.now (expression_view e.now) target ≡ Some (statement_view s)) }
{
    let value = expression_as(alloc, target.range.of, e, point)?;
    Ok(Action::Assign(target, value))
}

/// An assignment.
pub(crate) fn assignment(
    alloc: Global,
    name: &Name,
    e: &Expression,
    point: &Point,
) -> Result<Action, Refused>
    ensures { IfOk result (λ s. assignment_code point.now (name_view name.now) (expression_view e.now) ≡ Some (statement_view s)) }
{
    let target = assigned_object(name, point)?;
    assign_to(alloc, target, e, point)
}

// The value of what is kept there.
fn read_from(place: Place) -> Code
    ensures { code_view result ≡ code_of_place place }
{
    match place {
        Place::Variable(slot) => Code::Variable(slot),
        Place::Component(index) => Code::Component(index),
    }
}

// Why an argument can't take a value: it is no variable, or may not be written.
fn refused_target(alloc: Global, parameter: Parameter, e: &Expression, point: &Point) -> Refused {
    let bad_mode = Refused(TypeFault::BadMode(e.place()));
    match expression(alloc, e, false, point) {
        Ok(found) => {
            if same_type(found.of, parameter.range.of) {
                bad_mode
            } else {
                mismatch(e.place())
            }
        }
        Err(fault) => least(fault, bad_mode),
    }
}

// An object of the parameter's type.
fn fitting(parameter: Parameter, target: Target, at: usize) -> Result<Target, Refused>
    ensures { IfOk result (λ t. fitting_target parameter target ≡ Some t) }
{
    if same_type(target.range.of, parameter.range.of) {
        Ok(target)
    } else {
        Err(mismatch(at))
    }
}

// Why an object that an argument names may not be written.
fn refused_object(denoted: Denoted, at: usize) -> Refused {
    match denoted {
        Denoted::Component(_, _) => Refused(TypeFault::ConstantWritten(at)),
        _ => Refused(TypeFault::BadMode(at)),
    }
}

// The object that an argument names may be written.
fn writable(e: &Expression, point: &Point) -> Result<(), Refused>
    ensures { OnOk result (is_object_writable point.now (expression_view e.now) ≡ true) }
{
    let Expression::Name(name) = e else {
        return Err(Refused(TypeFault::BadMode(e.place())));
    };
    let denoted = point.denoted(name);
    if may_write(denoted, point) {
        Ok(())
    } else {
        Err(refused_object(denoted, name.first.at))
    }
}

// The object that an argument names.
fn object_named(
    alloc: Global,
    parameter: Parameter,
    e: &Expression,
    point: &Point,
) -> Result<Target, Refused>
    ensures { IfOk result (λ t. object_of_expression point.now (expression_view e.now) ≡ Some t) }
{
    if let Expression::Name(name) = e {
        if let Ok(target) = target_in(point.denoted(name), name.first.at) {
            return Ok(target);
        }
    }
    Err(refused_target(alloc, parameter, e, point))
}

// The object that an argument for an `out` or `in out` parameter names.
fn target_for(
    alloc: Global,
    parameter: Parameter,
    e: &Expression,
    point: &Point,
) -> Result<Target, Refused>
    ensures { IfOk result (λ t. target_of_parameter point.now parameter (expression_view e.now) ≡ Some t) }
{
    let target = object_named(alloc, parameter, e, point)?;
    let target = fitting(parameter, target, e.place())?;
    writable(e, point)?;
    Ok(target)
}

fn push_argument(passed: &mut Passed, value: Code) -> Result<(), Refused>
    ensures { OnOk result (passed_view passed.new ≡ with_argument (code_view value) (passed_view passed.old)) }
{
    passed.arguments.push(value)?;
    Ok(())
}

fn push_target(passed: &mut Passed, target: Target) -> Result<(), Refused>
    ensures { OnOk result (passed_view passed.new ≡ with_target target (passed_view passed.old)) }
{
    passed.targets.push(target)?;
    Ok(())
}

// An argument for an `in` parameter.
fn pass_in(
    alloc: Global,
    parameter: Parameter,
    e: &Expression,
    point: &Point,
    passed: &mut Passed,
) -> Result<(), Refused>
    ensures { OnOk result (passing point.now parameter (expression_view e.now) ParameterMode.In (passed_view passed.old) ≡ Some (passed_view passed.new)) }
{
    let value = expression_as(alloc, parameter.range.of, e, point)?;
    let value = within_range(alloc, parameter.range, value)?;
    push_argument(passed, value)
}

// An argument for an `in out` parameter.
fn pass_in_out(
    alloc: Global,
    parameter: Parameter,
    e: &Expression,
    point: &Point,
    passed: &mut Passed,
) -> Result<(), Refused>
    ensures { OnOk result (passing point.now parameter (expression_view e.now) ParameterMode.InOut (passed_view passed.old) ≡ Some (passed_view passed.new)) }
{
    let target = target_for(alloc, parameter, e, point)?;
    let value = within_range(alloc, parameter.range, read_from(target.place))?;
    push_argument(passed, value)?;
    push_target(passed, target)
}

// An argument for a parameter.
fn pass(
    alloc: Global,
    parameter: Parameter,
    e: &Expression,
    point: &Point,
    passed: &mut Passed,
) -> Result<(), Refused>
    ensures { OnOk result (passing point.now parameter (expression_view e.now) parameter.mode (passed_view passed.old) ≡ Some (passed_view passed.new)) }
{
    match parameter.mode {
        ParameterMode::In => pass_in(alloc, parameter, e, point, passed),
        ParameterMode::Out => {
            let target = target_for(alloc, parameter, e, point)?;
            push_target(passed, target)
        }
        ParameterMode::InOut => pass_in_out(alloc, parameter, e, point, passed),
    }
}

// The arguments of a call at a place, for its parameters, of which there are as many.
fn pass_all(
    alloc: Global,
    parameters: &[Parameter],
    list: &Vec<Expression>,
    at: usize,
    point: &Point,
) -> Result<Passed, Refused>
    ensures { IfOk result (λ passed. passed_onto point.now parameters.now (expressions_of (expressions_view list.now.items)) nothing_passed ≡ Some (passed_view passed)) }
{
    let mut passed = Passed {
        arguments: Vec::new(alloc),
        targets: Vec::new(alloc),
    };
    let mut left = parameters;
    for e in list {
        let [parameter, others @ ..] = left else {
            return Err(mismatch(at));
        };
        pass(alloc, *parameter, e, point, &mut passed)?;
        left = others;
    }
    match left {
        [] => Ok(passed),
        [_parameter, _others @ ..] => Err(mismatch(at)),
    }
}

fn setter(operation: SuspensionOperation, object: usize) -> Callee
    ensures { result ≡ setter_of operation object }
{
    match operation {
        SuspensionOperation::SetTrue => Callee::SetTrue(object),
        SuspensionOperation::SetFalse => Callee::SetFalse(object),
        SuspensionOperation::SuspendUntilTrue => Callee::SuspendUntilTrue(object),
    }
}

// A function calls no internal procedure (9.5.1).
fn may_call(callee: Callee, at: usize, point: &Point) -> Result<(), Refused>
    ensures { OnOk result (may_be_called point.now.result callee ≡ true) }
{
    let Callee::Internal(_) = callee else {
        return Ok(());
    };
    match point.result_range() {
        Some(_) => Err(Refused(TypeFault::ConstantWritten(at))),
        None => Ok(()),
    }
}

/// A call as a statement.
#[tactic(auto, unfolding(crate::specs::Targets::called))]
pub(crate) fn call_statement(
    alloc: Global,
    name: &Name,
    list: &Vec<Expression>,
    point: &Point,
) -> Result<Action, Refused>
    ensures { IfOk result (λ s. called_statement point.now (name_view name.now) (expressions_of (expressions_view list.now.items)) ≡ Some (statement_view s)) }
{
    let at = name.first.at;
    match point.denoted(name) {
        Denoted::Procedure(callee) => {
            let parameters = point.parameters(name);
            if parameters.len() != list.len() {
                return Err(mismatch(at));
            }
            may_call(callee, at, point)?;
            let Passed { arguments, targets } = pass_all(alloc, parameters, list, at, point)?;
            Ok(Action::Call(callee, arguments, targets))
        }
        Denoted::Setter(operation) => {
            let object = suspension_argument(list, at, point)?;
            let callee = setter(operation, object);
            Ok(Action::Call(callee, Vec::new(alloc), Vec::new(alloc)))
        }
        _ => Err(mismatch(at)),
    }
}
