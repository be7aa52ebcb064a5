//! Bodies of operations and tasks.

ghost use Rattle.std.specs.Prelude.{◌≡◌, ◌++◌, ◌∷◌, [], IfOk, OnOk, Some, map};
ghost use Rattle.std.specs.Option.{option_map};
ghost use Rattle.rv_tree.specs.NameView.{identifier_view, identifiers_view};
ghost use Rattle.rv_tree.specs.DeclarationView.{parameter_view};
ghost use Rattle.rv_tree.specs.BodyView.{block_view, operation_body_view, task_body_view};
ghost use Rattle.rv_code.specs.BodyView.{body_view};
ghost use Rattle.rv_types.specs.BodiesOf.{name_taken, names_taken, parameters_taken, all_taken as all_are_taken, result_of as range_of_result, body_of, operation_code, body_named as body_of_name, operations_onto, task_code};

use crate::block::block;
use crate::point::Point;
use crate::refused::{Refused, mismatch};
use crate::setting::Setting;
use rv_code::Body;
use rv_scope::Scope;
use rv_scope::members::declare_parameters;
use rv_shape::kind::{Kind, Parameter, Range};
use rv_shape::object::Operation;
use rv_text::is_same_name;
use rv_tree::body::{Block, OperationBody, TaskBody};
use rv_tree::declaration::Parameter as Specification;
use rv_tree::name::Identifier;
use std::alloc::Global;

// A parameter takes the next slot.
fn take_name(parameters: &[Parameter], name: &Identifier, point: &mut Point) -> Result<(), Refused>
    ensures code { OnOk result (name_taken parameters.now (identifier_view name.now) point.old ≡ Some point.new) }
    ensures scope { OnOk result (point.new.scope ≡ point.old.scope) }
{
    match parameters.get(point.slots()) {
        Some(parameter) => {
            point.take_parameter(name.at, parameter.range, parameter.mode.goes_out())
        }
        None => Err(mismatch(name.at)),
    }
}

fn take_names(
    parameters: &[Parameter],
    names: &Vec<Identifier>,
    point: &mut Point,
) -> Result<(), Refused>
    ensures code { OnOk result (names_taken parameters.now (identifiers_view names.now.items) point.old ≡ Some point.new) }
    ensures scope { OnOk result (point.new.scope ≡ point.old.scope) }
{
    for name in names {
        take_name(parameters, name, point)?;
    }
    Ok(())
}

fn take_parameters(
    parameters: &[Parameter],
    list: &Vec<Specification>,
    point: &mut Point,
) -> Result<(), Refused>
    ensures code { OnOk result (parameters_taken parameters.now (map parameter_view list.now.items) point.old ≡ Some point.new) }
    ensures scope { OnOk result (point.new.scope ≡ point.old.scope) }
{
    for one in list {
        take_names(parameters, &one.names, point)?;
    }
    Ok(())
}

// The operation has no other parameters.
fn all_taken(parameters: &[Parameter], at: usize, point: &Point) -> Result<(), Refused>
    ensures { OnOk result (all_are_taken parameters.now point.now ≡ Some point.now) }
{
    if point.slots() == parameters.len() {
        Ok(())
    } else {
        Err(mismatch(at))
    }
}

fn copied(alloc: Global, parameters: &[Parameter]) -> Result<Vec<Parameter>, Refused>
    ensures { IfOk result (λ v. v.items ≡ parameters.now) }
{
    let copy = Vec::from_slice(alloc, parameters)?;
    Ok(copy)
}

// The range of the result of a function.
fn result_range(kind: Kind) -> Option<Range>
    ensures { result ≡ range_of_result kind }
{
    match kind {
        Kind::Function(range) => Some(range),
        _ => None,
    }
}

// A block with parameters, as the body of an operation of this identifier.
fn block_body<'a>(
    alloc: Global,
    setting: &Setting<'a>,
    operation: &Operation,
    name: &Identifier,
    parameters: &Vec<Specification>,
    part: &Block,
    around: Scope<'a>,
) -> Result<(Body, Scope<'a>), Refused>
    ensures code { IfOk result (λ r. body_of setting.now around.entry operation.now (identifier_view name.now) (map parameter_view parameters.now.items) (block_view part.now) ≡ Some (body_view r.0)) }
    ensures scope { IfOk result (λ r. r.1 ≡ around.entry) }
{
    let mut scope = around;
    let outer = scope.enter_body(name)?;
    declare_parameters(parameters, &mut scope)?;
    let result_part = result_range(operation.kind());
    let mut point = Point::new(alloc, setting, scope, result_part);
    take_parameters(operation.parameters(), parameters, &mut point)?;
    all_taken(operation.parameters(), name.at, &point)?;
    let own = copied(alloc, operation.parameters())?;
    let body = block(alloc, own, result_part.is_some(), part, &mut point)?;
    let mut scope = point.into_scope();
    scope.leave_body(outer);
    Ok((body, scope))
}

/// The body of an operation.
pub(crate) fn operation_body<'a>(
    alloc: Global,
    setting: &Setting<'a>,
    operation: &Operation,
    body: &OperationBody,
    scope: Scope<'a>,
) -> Result<(Body, Scope<'a>), Refused>
    ensures code { IfOk result (λ r. operation_code setting.now scope.entry operation.now (operation_body_view body.now) ≡ Some (body_view r.0)) }
    ensures scope { IfOk result (λ r. r.1 ≡ scope.entry) }
{
    block_body(
        alloc,
        setting,
        operation,
        body.name(),
        body.parameters(),
        body.block(),
        scope,
    )
}

// The body of a name.
fn body_named<'b>(name: &str, bodies: &'b Vec<OperationBody>) -> Option<&'b OperationBody>
    ensures { option_map (λ b. operation_body_view b.now) result ≡ body_of_name name.now (map operation_body_view bodies.now.items) }
{
    for body in bodies {
        if is_same_name(name, body.name().text.as_str()) {
            return Some(body);
        }
    }
    None
}

/// The bodies of operations, in the order of their numbers; at a place where one has none.
pub(crate) fn operation_bodies<'a>(
    alloc: Global,
    setting: &Setting<'a>,
    operations: &[Operation],
    bodies: &Vec<OperationBody>,
    at: usize,
    around: Scope<'a>,
) -> Result<(Vec<Body>, Scope<'a>), Refused>
    ensures code { IfOk result (λ r. operations_onto setting.now around.entry (map operation_body_view bodies.now.items) operations.now [] ≡ Some (map body_view r.0.items)) }
    ensures scope { IfOk result (λ r. r.1 ≡ around.entry) }
{
    let mut done = Vec::new(alloc);
    let mut scope = around;
    for operation in operations {
        let Some(body) = body_named(operation.name(), bodies) else {
            return Err(mismatch(at));
        };
        let (compiled, left) = operation_body(alloc, setting, operation, body, scope)?;
        scope = left;
        done.push(compiled)?;
    }
    Ok((done, scope))
}

/// The body of a task.
pub(crate) fn task_body<'a>(
    alloc: Global,
    setting: &Setting<'a>,
    body: &TaskBody,
    around: Scope<'a>,
) -> Result<(Body, Scope<'a>), Refused>
    ensures code { IfOk result (λ r. task_code setting.now around.entry (task_body_view body.now) ≡ Some (body_view r.0)) }
    ensures scope { IfOk result (λ r. r.1 ≡ around.entry) }
{
    let mut scope = around;
    let outer = scope.enter_body(&body.name)?;
    let mut point = Point::new(alloc, setting, scope, None);
    let compiled = block(alloc, Vec::new(alloc), false, &body.block, &mut point)?;
    let mut scope = point.into_scope();
    scope.leave_body(outer);
    Ok((compiled, scope))
}
