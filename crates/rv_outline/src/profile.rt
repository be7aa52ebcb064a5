//! The parameters and results of operations (6.1).

ghost use Rattle.std.specs.Prelude.{◌≡◌, OnOk, IfOk, IfSome, map, [], Some, is_some};
ghost use Rattle.rv_tree.specs.NameView.{identifier_view, identifiers_view};
ghost use Rattle.rv_tree.specs.DeclarationView.{maybe, parameter_view};
ghost use Rattle.rv_scope.specs.Scope.{OnlyDeclares, entered};
ghost use Rattle.rv_scope.specs.DeclarationUses.{with_parameters};
ghost use Rattle.rv_scope.specs.Statics.{means};
ghost use Rattle.rv_shape.specs.Forms.{is_in as is_in_mode};
ghost use Rattle.rv_static.specs.Told.{told_unless};
ghost use Rattle.rv_outline.specs.Profiles.{passing as passing_of, for_each_name, parameter_of, parameters_onto, operation_of, kind_of_head, operation_in};

use rv_scope::declare::{Form, declare_all};
use rv_scope::members::hide_all;
use rv_scope::{Head, OperationKind, Point, Scope, Table};
use rv_shape::kind::{Barrier, Kind, Parameter, ParameterMode};
use rv_shape::object::Operation;
use rv_static::{Faults, TypeFault, subtype};
use rv_tree::{Identifier, Mode};
use std::alloc::{AllocError, Global};

/// How a parameter is passed; a mode that isn't written is `in`.
pub fn passing(mode: Mode) -> ParameterMode
    ensures { result ≡ passing_of mode }
{
    match mode {
        Mode::NotWritten => ParameterMode::In,
        Mode::In => ParameterMode::In,
        Mode::Out => ParameterMode::Out,
        Mode::InOut => ParameterMode::InOut,
    }
}

// One parameter for each name, behind those that are there.
fn push_parameters(
    parameter: Parameter,
    names: &Vec<Identifier>,
    done: &mut Vec<Parameter>,
) -> Result<(), AllocError>
    ensures { OnOk result (done.new.items ≡ for_each_name parameter (identifiers_view names.now.items) done.old.items) }
{
    for _name in names {
        done.push(parameter)?;
    }
    Ok(())
}

// The place of the first of these names, and of the mark where there is none.
fn place_of(part: &rv_tree::Parameter) -> usize {
    match part.names.first() {
        Some(name) => name.at,
        None => part.mark.place(),
    }
}

// Whether values go with the call alone.
fn is_in(mode: ParameterMode) -> bool
    ensures { result ≡ is_in_mode mode }
{
    match mode {
        ParameterMode::In => true,
        ParameterMode::Out => false,
        ParameterMode::InOut => false,
    }
}

// A parameter whose mark stands at this point.
fn parameter(
    of_function: bool,
    part: &rv_tree::Parameter,
    scope: &Scope,
    known: &Table,
    faults: &mut Faults,
) -> Option<Parameter>
    ensures value { result ≡ parameter_of of_function known.now scope.now (parameter_view part.now) }
    ensures told { faults.new ≡ told_unless result faults.old }
{
    let mode = passing(part.mode);
    if of_function && !is_in(mode) {
        faults.tell(TypeFault::BadMode(place_of(part)));
        return None;
    }
    let range = subtype(&part.mark, &Point { scope, known }, faults)?;
    Some(Parameter { mode, range })
}

/// The parameters of an operation, which are declared in the innermost region; or `None`, where a fault was told.
pub fn parameters(
    alloc: Global,
    of_function: bool,
    list: &Vec<rv_tree::Parameter>,
    scope: &mut Scope,
    known: &Table,
    faults: &mut Faults,
) -> Result<Option<Vec<Parameter>>, AllocError>
    ensures value { IfOk result (λ found. maybe (λ v. v.items) found
        ≡ parameters_onto of_function known.now scope.old (map parameter_view list.now.items) []) }
    ensures told { IfOk result (λ found. faults.new ≡ told_unless found faults.old) }
    ensures scope { IfOk result (λ found. IfSome found (λ v. scope.new ≡ with_parameters (map parameter_view list.now.items) scope.old)) }
    ensures only { OnOk result (OnlyDeclares scope.old scope.new) }
{
    let mut done = Vec::new(alloc);
    for part in list {
        hide_all(&part.names, scope)?;
        let Some(parameter) = parameter(of_function, part, scope, known, faults) else {
            return Ok(None);
        };
        push_parameters(parameter, &part.names, &mut done)?;
        declare_all(&part.names, Form::Parameter, scope)?;
    }
    Ok(Some(done))
}

// An operation of a name and a kind, and whether it stands before `private`.
fn operation(
    alloc: Global,
    declared: &Identifier,
    kind: Kind,
    is_visible: bool,
    parameters: Vec<Parameter>,
) -> Result<Operation, AllocError>
    ensures { IfOk result (λ o. o ≡ operation_of (identifier_view declared.now) kind is_visible parameters.items) }
{
    let name = String::from_str(alloc, declared.text.as_str())?;
    Ok(Operation::new(name, kind, parameters, is_visible))
}

fn is_function(head: &Head) -> bool
    ensures { result ≡ is_some head.now.mark }
{
    match head.mark {
        Some(_) => true,
        None => false,
    }
}

// The kind of an operation, if no other is given to it: a function has the range of its mark, a procedure handles no line,
// and an entry is closed. `None`, where a fault was told.
fn kind_declared(head: &Head, scope: &Scope, known: &Table, faults: &mut Faults) -> Option<Kind>
    ensures value { result ≡ kind_of_head (means scope.now known.now) head.now }
    ensures told { faults.new ≡ told_unless result faults.old }
{
    match head.mark {
        Some(mark) => {
            let range = subtype(mark, &Point { scope, known }, faults)?;
            Some(Kind::Function(range))
        }
        None => match head.kind {
            OperationKind::Entry => Some(Kind::Entry(Barrier::AlwaysClosed)),
            _ => Some(Kind::Procedure),
        },
    }
}

// An operation whose parameters are declared in the innermost region.
fn operation_inside(
    alloc: Global,
    head: &Head,
    is_visible: bool,
    scope: &mut Scope,
    known: &Table,
    faults: &mut Faults,
) -> Result<Option<Operation>, AllocError>
    ensures value { IfOk result (λ found. found ≡ operation_in known.now scope.old is_visible head.now) }
    ensures told { IfOk result (λ found. faults.new ≡ told_unless found faults.old) }
    ensures only { OnOk result (OnlyDeclares scope.old scope.new) }
{
    let of_function = is_function(head);
    let Some(all) = parameters(alloc, of_function, head.parameters, scope, known, faults)? else {
        return Ok(None);
    };
    let Some(kind) = kind_declared(head, scope, known, faults) else {
        return Ok(None);
    };
    let found = operation(alloc, head.name, kind, is_visible, all)?;
    Ok(Some(found))
}

/// An operation, at the point where its declaration begins; or `None`, where a fault was told.
pub(crate) fn operation_declared(
    alloc: Global,
    head: &Head,
    is_visible: bool,
    scope: &mut Scope,
    known: &Table,
    faults: &mut Faults,
) -> Result<Option<Operation>, AllocError>
    ensures value { IfOk result (λ found. found ≡ operation_in known.now (entered scope.old) is_visible head.now) }
    ensures told { IfOk result (λ found. faults.new ≡ told_unless found faults.old) }
    ensures scope { OnOk result (scope.new ≡ scope.old) }
{
    scope.enter()?;
    let found = operation_inside(alloc, head, is_visible, scope, known, faults)?;
    scope.leave();
    Ok(found)
}
