//! Blocks: their declarations, statements and handlers.

ghost use Rattle.std.specs.Prelude.{◌≡◌, ◌++◌, ◌∷◌, [], IfOk, OnOk, Some, map};
ghost use Rattle.rv_tree.specs.NameView.{identifiers_view, name_view};
ghost use Rattle.rv_tree.specs.ExpressionView.{expression_view, range_view};
ghost use Rattle.rv_tree.specs.DeclarationView.{maybe};
ghost use Rattle.rv_tree.specs.BodyView.{local_view, exception_choice_view, handler_view as tree_handler_view, block_view};
ghost use Rattle.rv_static.specs.Ranges.{value_in as value_in_range};
ghost use Rattle.rv_scope.specs.Subtypes.{subtype_of as subtype_of_mark};
ghost use Rattle.rv_code.specs.ExpressionView.{expression_view as code_view};
ghost use Rattle.rv_code.specs.BodyView.{declaration_view, handler_view, body_view};
ghost use Rattle.rv_code.specs.StatementView.{statement_view as action_view};
ghost use Rattle.rv_scope.specs.Scope.{OnlyDeclares};
ghost use Rattle.rv_types.specs.Points.{static_meaning};
ghost use Rattle.rv_types.specs.Blocks.{initial_of, starts_in, opened_with, objects_onto, noting_all, constants_onto, declared_onto, object_onto as object_declared_onto, hiding_names, local_onto, locals_onto, exception_of, exceptions_onto, handler_with, handlers_onto, declaration_of, block_of};

use crate::denoted::Denoted;
use crate::expression::expression_as;
use crate::point::Point;
use crate::refused::{Refused, least, mismatch, told};
use crate::statement::statements;
use crate::static_form::is_static;
use rv_code::{
    Body, Declaration, ExceptionChoice as Caught, Expression as Code, Handler as CodeHandler,
    Place, Statement as Action, Target,
};
use rv_scope::known::Known;
use rv_scope::subtype::constrained_subtype;
use rv_shape::kind::{Parameter, Range};
use rv_static::{Faults, TypeFault, default_start, value_in};
use rv_tree::{
    Block, ExceptionChoice, Expression, Handler, Identifier, Local, Name, RangeConstraint,
};
use std::alloc::Global;

// What a variable starts at.
fn initial(
    alloc: Global,
    range: Range,
    given: &Option<Expression>,
    point: &Point,
) -> Result<Code, Refused>
    ensures { IfOk result (λ c. initial_of point.now range (maybe expression_view given.now) ≡ Some (code_view c)) }
{
    match given {
        None => Ok(Code::Value(default_start(range))),
        Some(e) => expression_as(alloc, range.of, e, point),
    }
}

// The values that a variable may start at.
fn starts_in(range: Range, given: &Option<Expression>) -> Range
    ensures { result ≡ starts_in range (maybe expression_view given.now) }
{
    match given {
        None => {
            let start = default_start(range);
            Range {
                of: range.of,
                low: start,
                high: start,
            }
        }
        Some(_) => range,
    }
}

fn push_declaration(
    done: &mut Vec<Declaration>,
    slot: usize,
    range: Range,
    initial: Code,
) -> Result<(), Refused>
    ensures { OnOk result (map declaration_view done.new.items ≡ map declaration_view done.old.items ++ declaration_of slot range (code_view initial) ∷ []) }
{
    let target = Target {
        place: Place::Variable(slot),
        range,
    };
    done.push(Declaration { target, initial })?;
    Ok(())
}

// Variables, or constants whose value isn't static: each takes the next slot.
fn objects(
    alloc: Global,
    range: Range,
    is_written: bool,
    given: &Option<Expression>,
    names: &Vec<Identifier>,
    point: &mut Point,
    done: &mut Vec<Declaration>,
) -> Result<(), Refused>
    ensures code { OnOk result (objects_onto range is_written (maybe expression_view given.now) (identifiers_view names.now.items)
        (opened_with point.old (map declaration_view done.old.items)) ≡ Some (opened_with point.new (map declaration_view done.new.items))) }
    ensures scope { OnOk result (point.new.scope ≡ point.old.scope) }
{
    let starts = starts_in(range, given);
    for name in names {
        let value = initial(alloc, range, given, point)?;
        push_declaration(done, point.slots(), starts, value)?;
        point.take_object(name.at, range, is_written)?;
    }
    Ok(())
}

// The value of a static expression in a range.
fn static_in(range: Range, e: &Expression, point: &Point) -> Result<i64, Refused>
    ensures { IfOk result (λ z. value_in_range (static_meaning point.now) range (expression_view e.now) ≡ Some z) }
{
    let mut faults = Faults::new();
    if let Some(value) = value_in(range, e, point, &mut faults) {
        return Ok(value);
    }
    Err(told(&faults, e.place()))
}

// Constants that are known by their value.
fn note_constants(
    range: Range,
    value: i64,
    names: &Vec<Identifier>,
    point: &mut Point,
) -> Result<(), Refused>
    ensures code { OnOk result (point.new ≡ noting_all range value (identifiers_view names.now.items) point.old) }
    ensures scope { OnOk result (point.new.scope ≡ point.old.scope) }
{
    for name in names {
        point.note(name.at, Known::Constant(range, value))?;
    }
    Ok(())
}

// Constants.
fn constants(
    alloc: Global,
    range: Range,
    e: &Expression,
    given: &Option<Expression>,
    names: &Vec<Identifier>,
    point: &mut Point,
    done: &mut Vec<Declaration>,
) -> Result<(), Refused>
    requires { maybe expression_view given.now ≡ Some (expression_view e.now) }
    ensures code { OnOk result (constants_onto range (expression_view e.now) (identifiers_view names.now.items)
        (opened_with point.old (map declaration_view done.old.items)) ≡ Some (opened_with point.new (map declaration_view done.new.items))) }
    ensures scope { OnOk result (point.new.scope ≡ point.old.scope) }
{
    if is_static(e, true, point) {
        let value = static_in(range, e, point)?;
        return note_constants(range, value, names, point);
    }
    objects(alloc, range, false, given, names, point, done)
}

// The objects of a declaration at a place.
fn declared(
    alloc: Global,
    range: Range,
    is_constant: bool,
    given: &Option<Expression>,
    names: &Vec<Identifier>,
    point: &mut Point,
    done: &mut Vec<Declaration>,
) -> Result<(), Refused>
    ensures code { OnOk result (declared_onto is_constant range (maybe expression_view given.now) (identifiers_view names.now.items)
        (opened_with point.old (map declaration_view done.old.items)) ≡ Some (opened_with point.new (map declaration_view done.new.items))) }
    ensures scope { OnOk result (point.new.scope ≡ point.old.scope) }
{
    if !is_constant {
        return objects(alloc, range, true, given, names, point, done);
    }
    match given {
        Some(e) => constants(alloc, range, e, given, names, point, done),
        None => Err(mismatch(first_place(names))),
    }
}

// The place of the first of some identifiers.
fn first_place(names: &Vec<Identifier>) -> usize {
    match names.first() {
        Some(name) => name.at,
        None => 0,
    }
}

// The range of a mark, with a range constraint if one is written.
fn subtype(
    mark: &Name,
    constraint: &Option<RangeConstraint>,
    point: &Point,
) -> Result<Range, Refused>
    ensures { IfOk result (λ r. subtype_of_mark (static_meaning point.now) (name_view mark.now) (maybe range_view constraint.now) ≡ Some r) }
{
    let mut faults = Faults::new();
    if let Some(range) = constrained_subtype(mark, constraint, point, &mut faults) {
        return Ok(range);
    }
    Err(told(&faults, mark.first.at))
}

// Objects, whose identifiers are hidden in their declaration.
#[tactic(auto, using(crate::proofs::Ended::declares_from))]
fn object(
    alloc: Global,
    names: &Vec<Identifier>,
    is_constant: bool,
    mark: &Name,
    constraint: &Option<RangeConstraint>,
    given: &Option<Expression>,
    point: &mut Point,
    done: &mut Vec<Declaration>,
) -> Result<(), Refused>
    ensures code { OnOk result (object_declared_onto (identifiers_view names.now.items) is_constant (name_view mark.now) (maybe range_view constraint.now)
        (maybe expression_view given.now) (opened_with point.old (map declaration_view done.old.items))
        ≡ Some (opened_with point.new (map declaration_view done.new.items))) }
    ensures only { OnOk result (OnlyDeclares point.old.scope point.new.scope) }
{
    if is_constant && given.is_none() {
        return Err(mismatch(first_place(names)));
    }
    let range = subtype(mark, constraint, point)?;
    declared(alloc, range, is_constant, given, names, point, done)?;
    point.reveal(is_constant, names)
}

// Whether objects take slots: all but constants whose value is static.
fn takes_slots(is_constant: bool, given: &Option<Expression>, point: &Point) -> bool {
    match given {
        Some(e) => !is_constant || !is_static(e, true, point),
        None => !is_constant,
    }
}

// The fault of a declaration for which so many slots are left: the identifier behind the last of these stands first.
fn too_many(fault: Refused, names: &Vec<Identifier>, left: usize) -> Refused {
    match names.get(left) {
        Some(name) => least(fault, Refused(TypeFault::TooLarge(name.at))),
        None => fault,
    }
}

#[tactic(auto, using(rv_scope::proofs::Scopes::declares_on))]
fn local(
    alloc: Global,
    one: &Local,
    point: &mut Point,
    done: &mut Vec<Declaration>,
) -> Result<(), Refused>
    ensures code { OnOk result (local_onto (local_view one.now) (opened_with point.old (map declaration_view done.old.items))
        ≡ Some (opened_with point.new (map declaration_view done.new.items))) }
    ensures only { OnOk result (OnlyDeclares point.old.scope point.new.scope) }
{
    match one {
        Local::Object {
            names,
            is_constant,
            mark,
            range,
            value,
        } => {
            let left = point.slots_left(*is_constant);
            point.hide(names)?;
            match object(alloc, names, *is_constant, mark, range, value, point, done) {
                Ok(()) => Ok(()),
                Err(fault) => {
                    if takes_slots(*is_constant, value, point) {
                        return Err(too_many(fault, names, left));
                    }
                    Err(fault)
                }
            }
        }
        Local::Pragma(_) => Ok(()),
        Local::Protected(unit) => Err(mismatch(unit.at)),
        Local::Task(task) => Err(mismatch(task.at)),
    }
}

#[tactic(auto, using(rv_scope::proofs::Scopes::declares_on))]
fn locals(
    alloc: Global,
    list: &Vec<Local>,
    point: &mut Point,
    done: &mut Vec<Declaration>,
) -> Result<(), Refused>
    ensures code { OnOk result (locals_onto (map local_view list.now.items) (opened_with point.old (map declaration_view done.old.items))
        ≡ Some (opened_with point.new (map declaration_view done.new.items))) }
    ensures only { OnOk result (OnlyDeclares point.old.scope point.new.scope) }
{
    for one in list {
        local(alloc, one, point, done)?;
    }
    Ok(())
}

fn exception(choice: &ExceptionChoice, point: &Point) -> Result<Caught, Refused>
    ensures { IfOk result (λ c. exception_of point.now (exception_choice_view choice.now) ≡ Some c) }
{
    match choice {
        ExceptionChoice::Others(_) => Ok(Caught::Others),
        ExceptionChoice::Name(name) => match point.denoted(name) {
            Denoted::Exception(exception) => Ok(Caught::Named(exception)),
            _ => Err(mismatch(name.first.at)),
        },
    }
}

fn exceptions(
    alloc: Global,
    list: &Vec<ExceptionChoice>,
    point: &Point,
) -> Result<Vec<Caught>, Refused>
    ensures { IfOk result (λ v. exceptions_onto point.now (map exception_choice_view list.now.items) [] ≡ Some v.items) }
{
    let mut done = Vec::new(alloc);
    for one in list {
        let caught = exception(one, point)?;
        done.push(caught)?;
    }
    Ok(done)
}

fn push_handler(
    done: &mut Vec<CodeHandler>,
    choices: Vec<Caught>,
    statements: Vec<Action>,
) -> Result<(), Refused>
    ensures { OnOk result (map handler_view done.new.items ≡ map handler_view done.old.items ++ handler_with choices.items (map action_view statements.items) ∷ []) }
{
    done.push(CodeHandler {
        choices,
        statements,
    })?;
    Ok(())
}

fn handlers(
    alloc: Global,
    list: &Vec<Handler>,
    point: &mut Point,
) -> Result<Vec<CodeHandler>, Refused>
    ensures code { IfOk result (λ v. handlers_onto point.old (map tree_handler_view list.now.items) [] ≡ Some (map handler_view v.items)) }
    ensures point { OnOk result (point.new ≡ point.old) }
{
    let mut done = Vec::new(alloc);
    for one in list {
        let choices = exceptions(alloc, &one.choices, point)?;
        let actions = statements(alloc, &one.statements, point)?;
        push_handler(&mut done, choices, actions)?;
    }
    Ok(done)
}

/// A block, as the body of an operation or a task with these parameters.
pub(crate) fn block(
    alloc: Global,
    parameters: Vec<Parameter>,
    is_function: bool,
    part: &Block,
    point: &mut Point,
) -> Result<Body, Refused>
    ensures code { IfOk result (λ b. block_of parameters.items is_function point.old (block_view part.now) ≡ Some (body_view b)) }
    ensures only { OnOk result (OnlyDeclares point.old.scope point.new.scope) }
{
    point.begin_block();
    let mut declarations = Vec::new(alloc);
    locals(alloc, &part.locals, point, &mut declarations)?;
    let statements = statements(alloc, &part.statements, point)?;
    let handlers = handlers(alloc, &part.handlers, point)?;
    Ok(Body {
        parameters,
        is_function,
        declarations,
        statements,
        handlers,
    })
}
