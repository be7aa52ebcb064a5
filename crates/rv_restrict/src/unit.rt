//! Violations in blocks, bodies and whole units.

ghost use Rattle.std.specs.Prelude.{◌≡◌, ◌↔◌, not, map, None, IfSome};
ghost use Rattle.std.specs.List.{list_any};
ghost use Rattle.rv_tree.specs.Bodies as bodies;
ghost use Rattle.rv_tree.specs.Units as units;
ghost use Rattle.rv_tree.specs.NameView.{name_view, names_view};
ghost use Rattle.rv_tree.specs.ExpressionView.{expression_view};
ghost use Rattle.rv_tree.specs.DeclarationView.{parameter_view};
ghost use Rattle.rv_tree.specs.BodyView.{local_view, block_view, operation_body_view, protected_body_view, handler_view};
ghost use Rattle.rv_tree.specs.UnitView.{body_item_view, unit_view, context_item_view};
ghost use Rattle.rv_restrict.specs.Conforms.{violations, Conforms, IsFirst};
ghost use Rattle.rv_restrict.specs.Found.{earlier, broken_unless, first_of, each_noted};
ghost use Rattle.rv_restrict.specs.Scope.{is_type, names_protected_type as protected_type_is_named};
ghost use Rattle.rv_restrict.specs.declared.violation.Restriction.TheVariants.{NoLocalProtectedObjects};
ghost use Rattle.rv_restrict.specs.UnitWalk.{local_noted, block_noted, barrier_noted, with_noted, operation_body_noted, protected_body_noted, item_noted, unit_noted, handler_noted, context_noted};

use crate::barrier::is_simple_barrier;
use crate::dependence::{is_dynamic_priorities, is_excluded};
use crate::first::{First, Judged};
use crate::mark::{has_types, names_protected_type};
use crate::statement::statements;
use crate::violation::{Restriction, Violation};
use rv_tree::{
    Block, BodyItem, ContextItem, Expression, Handler, Local, Name, OperationBody, Parameter,
    ProtectedBody, UnitTree,
};

// The mark of an object of a block, which isn't looked up behind a violation.
#[tactic(auto, using(crate::proofs::Behind::unchanged))]
fn local_mark(
    tree: &UnitTree,
    unit: &str,
    parameters: &[Parameter],
    locals: &Vec<Local>,
    types: bool,
    place: usize,
    mark: &Name,
    first: &mut First,
)
    requires { types ≡ list_any is_type (map local_view locals.now.items) }
    ensures { first.new ≡ broken_unless earlier
        (not (protected_type_is_named (unit_view tree.now) unit.now (map parameter_view parameters.now) (map local_view locals.now.items) (name_view mark.now)))
        NoLocalProtectedObjects place first.old }
{
    let restriction = Restriction::NoLocalProtectedObjects;
    if first.precedes(Violation { restriction, place }) {
        return;
    }
    let keeps = !names_protected_type(tree, unit, parameters, locals, types, mark);
    first.note_unless(keeps, restriction, place);
}

// A declaration of a block with these declarations; whether a protected type is among them.
fn local(
    tree: &UnitTree,
    unit: &str,
    parameters: &[Parameter],
    locals: &Vec<Local>,
    types: bool,
    local: &Local,
    first: &mut First,
)
    requires { types ≡ list_any is_type (map local_view locals.now.items) }
    ensures { first.new ≡ local_noted earlier (unit_view tree.now) unit.now (map parameter_view parameters.now) (map local_view locals.now.items) (local_view local.now) first.old }
{
    match local {
        Local::Object {
            mark,
            range,
            value,
            ..
        } => {
            let place = local.place();
            local_mark(tree, unit, parameters, locals, types, place, mark, first);
            first.maybe(range);
            first.maybe(value);
        }
        Local::Pragma(pragma) => pragma.judge(first),
        Local::Protected(inner) => {
            first.note_unless(
                inner.is_type,
                Restriction::NoLocalProtectedObjects,
                inner.at,
            );
            inner.judge(first);
        }
        Local::Task(task) => {
            first.note(Restriction::NoTaskHierarchy, task.at);
            task.judge(first);
        }
    }
}

fn locals(
    tree: &UnitTree,
    unit: &str,
    parameters: &[Parameter],
    list: &Vec<Local>,
    first: &mut First,
)
    ensures { first.new ≡ each_noted (local_noted earlier (unit_view tree.now) unit.now (map parameter_view parameters.now) (map local_view list.now.items)) (map local_view list.now.items) first.old }
{
    let types = has_types(list);
    for one in list {
        local(tree, unit, parameters, list, types, one, first);
    }
}

impl Judged for Handler {
    ghost Tree = { bodies.Handler };

    ghost view = { handler_view };

    ghost noted = { handler_noted earlier };

    fn judge(&self, first: &mut First) {
        statements(&self.statements, first);
    }
}

#[tactic(auto, unfolding(crate::specs::UnitWalk::block_noted))]
fn block(tree: &UnitTree, unit: &str, parameters: &[Parameter], block: &Block, first: &mut First)
    ensures { first.new ≡ block_noted earlier (unit_view tree.now) unit.now (map parameter_view parameters.now) (block_view block.now) first.old }
{
    locals(tree, unit, parameters, &block.locals, first);
    statements(&block.statements, first);
    first.each(block.handlers.as_slice());
}

// The barrier of an entry with these parameters.
fn barrier(tree: &UnitTree, unit: &str, parameters: &[Parameter], e: &Expression, first: &mut First)
    ensures { first.new ≡ barrier_noted earlier (unit_view tree.now) unit.now (map parameter_view parameters.now) (expression_view e.now) first.old }
{
    let keeps = is_simple_barrier(tree, unit, parameters, e);
    first.note_unless(keeps, Restriction::SimpleBarriers, e.place());
    e.judge(first);
}

// The body of an operation of the protected unit of this name.
fn operation_body(tree: &UnitTree, unit: &str, body: &OperationBody, first: &mut First)
    ensures { first.new ≡ operation_body_noted earlier (unit_view tree.now) unit.now (operation_body_view body.now) first.old }
{
    let parameters = body.parameters().as_slice();
    if let OperationBody::Entry { barrier: e, .. } = body {
        barrier(tree, unit, parameters, e, first);
    }
    block(tree, unit, parameters, body.block(), first);
}

fn protected_body(tree: &UnitTree, body: &ProtectedBody, first: &mut First)
    ensures { first.new ≡ protected_body_noted earlier (unit_view tree.now) (protected_body_view body.now) first.old }
{
    let unit = body.name.text.as_str();
    for operation in &body.operations {
        operation_body(tree, unit, operation, first);
    }
}

fn item(tree: &UnitTree, item: &BodyItem, first: &mut First)
    ensures { first.new ≡ item_noted earlier (unit_view tree.now) (body_item_view item.now) first.old }
{
    match item {
        BodyItem::Declaration(declaration) => declaration.judge(first),
        BodyItem::Protected(body) => protected_body(tree, body, first),
        BodyItem::Task(body) => block(tree, body.name.text.as_str(), &[], &body.block, first),
    }
}

fn items(tree: &UnitTree, list: &Vec<BodyItem>, first: &mut First)
    ensures { first.new ≡ each_noted (item_noted earlier (unit_view tree.now)) (map body_item_view list.now.items) first.old }
{
    for one in list {
        item(tree, one, first);
    }
}

// A name of a `with`.
#[tactic(auto, unfolding(crate::specs::UnitWalk::with_noted))]
fn with(name: &Name, first: &mut First)
    ensures { first.new ≡ with_noted earlier (name_view name.now) first.old }
{
    let place = name.first.at;
    first.note_unless(
        !is_dynamic_priorities(name),
        Restriction::NoDynamicPriorities,
        place,
    );
    first.note_unless(!is_excluded(name), Restriction::NoDependence, place);
}

fn withs(names: &Vec<Name>, first: &mut First)
    ensures { first.new ≡ each_noted (with_noted earlier) (names_view names.now.items) first.old }
{
    for name in names {
        with(name, first);
    }
}

impl Judged for ContextItem {
    ghost Tree = { units.ContextItem };

    ghost view = { context_item_view };

    ghost noted = { context_noted earlier };

    fn judge(&self, first: &mut First) {
        match self {
            ContextItem::Pragma(pragma) => pragma.judge(first),
            ContextItem::With(_, names) => withs(names, first),
            ContextItem::Use { .. } => {}
        }
    }
}

// All violations of a unit, the first of which is kept.
#[tactic(auto, unfolding(crate::specs::UnitWalk::unit_noted))]
fn unit(tree: &UnitTree, first: &mut First)
    ensures { first.new ≡ unit_noted earlier (unit_view tree.now) first.old }
{
    first.each(tree.context.as_slice());
    first.each(tree.specification.declarations.as_slice());
    items(tree, &tree.body.items, first);
}

// The first of all violations of a unit.
#[tactic(auto, using(crate::proofs::Noted::first_noted))]
fn first_of_all(tree: &UnitTree) -> Option<Violation>
    ensures { result ≡ first_of (violations (unit_view tree.now)) }
{
    let mut first = First::new();
    unit(tree, &mut first);
    first.found()
}

/// The first violation of a unit in the order of its text, or `None` where it conforms. Of two at one place that of
/// the lesser row is the first. It takes no memory.
#[tactic(auto, using(crate::proofs::FirstOf::first_none, crate::proofs::FirstOf::first_is))]
pub fn first_violation(tree: &UnitTree) -> Option<Violation>
    ensures conforms { result ≡ None ↔ Conforms (unit_view tree.now) }
    ensures first { IfSome result (λ v. IsFirst v (violations (unit_view tree.now))) }
{
    first_of_all(tree)
}
