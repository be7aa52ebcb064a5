//! Operations with their profiles, each mark as what it denotes where it stands (6.1).

ghost use Rattle.std.specs.Prelude.{◌≡◌, ◌++◌, map, OnOk, IfOk};
ghost use Rattle.rv_tree.specs.NameView.{identifier_view, identifiers_view, name_view};
ghost use Rattle.rv_tree.specs.DeclarationView.{maybe, parameter_view};
ghost use Rattle.rv_tree.specs.BodyView.{operation_body_view};
ghost use Rattle.rv_scope.specs.Scope.{OnlyDeclares, hiding_all, declaring_all};
ghost use Rattle.rv_scope.specs.DeclarationUses.{with_parameters};
ghost use Rattle.rv_conform.specs.Profiles.{body_kind as kind_of_body, body_head as head_of_body, mark_at, formal_of, parameter_formals, formals_in, operation_in};

use crate::mark::Mark;
use rv_scope::declare::{Form, declare_all};
use rv_scope::members::hide_all;
use rv_scope::{Head, OperationKind, Scope, Table};
use rv_tree::body::OperationBody;
use rv_tree::declaration::{Mode, Parameter};
use rv_tree::name::{Identifier, Name};
use std::alloc::AllocError;
use std::marker::Model;

/// A formal parameter.
#[derive(Drop)]
pub(crate) struct Formal<'a> {
    pub(crate) name: &'a str,
    pub(crate) mode: Mode,
    pub(crate) mark: Mark,
}

impl<'a> Model for Formal<'a> {
    ghost use Rattle.rv_conform.specs.Profiles.{Formal as FormalView};

    ghost Value = { FormalView };

    ghost view = { λ f. record { name = f.name.now; mode = f.mode; mark = f.mark } };
}

/// An operation with its profile.
pub(crate) struct Operation<'a> {
    pub(crate) name: &'a Identifier,
    pub(crate) kind: OperationKind,
    pub(crate) formals: Vec<Formal<'a>>,
    pub(crate) result_mark: Option<Mark>,
}

impl Drop for Operation<'_> {
    // A function of its own: a derived one is written out wherever a value is let go, and proved there.
    fn drop(self) {
        let Operation {
            name: _,
            kind: _,
            formals: _,
            result_mark: _,
        } = self;
    }
}

impl<'a> Model for Operation<'a> {
    ghost use Rattle.rv_tree.specs.NameView.{identifier_view};
    ghost use Rattle.rv_conform.specs.Profiles.{Operation as OperationView};

    ghost Value = { OperationView };

    ghost view = { λ o. record {
      name = identifier_view o.name.now;
      kind = o.kind;
      formals = o.formals.items;
      result_mark = o.result_mark;
    } };
}

fn body_kind(body: &OperationBody) -> OperationKind
    ensures { result ≡ kind_of_body (operation_body_view body.now) }
{
    match body {
        OperationBody::Function { .. } => OperationKind::Function,
        OperationBody::Procedure { .. } => OperationKind::Procedure,
        OperationBody::Entry { .. } => OperationKind::Entry,
    }
}

/// What a body says of its operation.
pub(crate) fn body_head(body: &OperationBody) -> Head<'_>
    ensures { result ≡ head_of_body (operation_body_view body.now) }
{
    Head {
        name: body.name(),
        kind: body_kind(body),
        parameters: body.parameters(),
        mark: body.mark(),
    }
}

// One formal parameter for each name, behind those that are there.
fn push_formals<'a>(
    names: &'a Vec<Identifier>,
    mode: Mode,
    mark: Mark,
    done: &mut Vec<Formal<'a>>,
) -> Result<(), AllocError>
    ensures { OnOk result (done.new.items ≡ done.old.items ++ map (formal_of mode mark) (identifiers_view names.now.items)) }
{
    for identifier in names {
        let name = identifier.text.as_str();
        done.push(Formal { name, mode, mark })?;
    }
    Ok(())
}

// The formal parameters of one declaration, behind those that are there.
fn parameter<'a>(
    part: &'a Parameter,
    scope: &mut Scope,
    statics: &Table,
    done: &mut Vec<Formal<'a>>,
) -> Result<(), AllocError>
    ensures done { OnOk result (done.new.items ≡ done.old.items ++ parameter_formals statics.now scope.old (parameter_view part.now)) }
    ensures scope { OnOk result (scope.new
        ≡ declaring_all Form.Parameter (identifiers_view part.now.names.items) (hiding_all (identifiers_view part.now.names.items) scope.old)) }
    ensures only { OnOk result (OnlyDeclares scope.old scope.new) }
{
    hide_all(&part.names, scope)?;
    let mark = Mark::of(&part.mark, scope, statics);
    push_formals(&part.names, part.mode, mark, done)?;
    declare_all(&part.names, Form::Parameter, scope)?;
    Ok(())
}

// The formal parameters of an operation, which are declared in the innermost region.
fn formals<'a>(
    list: &'a Vec<Parameter>,
    scope: &mut Scope,
    statics: &Table,
) -> Result<Vec<Formal<'a>>, AllocError>
    ensures value { IfOk result (λ all. all.items ≡ formals_in statics.now scope.old (map parameter_view list.now.items)) }
    ensures scope { OnOk result (scope.new ≡ with_parameters (map parameter_view list.now.items) scope.old) }
    ensures only { OnOk result (OnlyDeclares scope.old scope.new) }
{
    let mut done = Vec::new(scope.allocator());
    for part in list {
        parameter(part, scope, statics, &mut done)?;
    }
    Ok(done)
}

// What the mark of a result denotes, if there is one.
fn result_mark(mark: Option<&Name>, scope: &Scope, statics: &Table) -> Option<Mark>
    ensures { result ≡ maybe (mark_at statics.now scope.now) (maybe (λ n. name_view n.now) mark.entry) }
{
    match mark {
        None => None,
        Some(mark) => Some(Mark::of(mark, scope, statics)),
    }
}

/// The operation of a head, whose parameters are declared in the innermost region. Err where memory was refused.
pub(crate) fn profiled<'a>(
    head: &Head<'a>,
    scope: &mut Scope,
    statics: &Table,
) -> Result<Operation<'a>, AllocError>
    ensures value { IfOk result (λ o. o ≡ operation_in statics.now scope.old head.now) }
    ensures only { OnOk result (OnlyDeclares scope.old scope.new) }
{
    let formals = formals(head.parameters, scope, statics)?;
    Ok(Operation {
        name: head.name,
        kind: head.kind,
        formals,
        result_mark: result_mark(head.mark, scope, statics),
    })
}
