//! Prints the statements that hold no others, and the words around those that others hold.

ghost use Rattle.std.specs.Prelude.{◌≡◌, OnOk, map};
ghost use Rattle.rv_lex.specs.declared.kind.Kind.TheVariants as k;
ghost use Rattle.rv_tree.specs.Onto.{kind_onto, flag_onto, maybe_onto, listed_onto};
ghost use Rattle.rv_tree.specs.NameView.{identifier_view, name_view};
ghost use Rattle.rv_tree.specs.NamePrint.{identifier_onto, name_onto};
ghost use Rattle.rv_tree.specs.Expressions.{expressions_of};
ghost use Rattle.rv_tree.specs.ExpressionView.{expression_view, expressions_view};
ghost use Rattle.rv_tree.specs.ExpressionPrint.{expression_onto, arguments_onto};
ghost use Rattle.rv_tree.specs.DeclarationView.{maybe, parameter_view};
ghost use Rattle.rv_tree.specs.DeclarationPrint.{initial_onto, parameters_onto};
ghost use Rattle.rv_tree.specs.StatementPrint.{condition_onto, with_abort_onto};

use crate::declaration::Parameter;
use crate::expression::Expression;
use crate::name::{Identifier, Name};
use crate::print_expression::{print_arguments, print_expression};
use crate::print_iteration::{print_condition, print_with_abort};
use crate::print_part::{print_initial, print_parameters};
use crate::printer::{Printed, Printer};
use rv_lex::kind::Kind;
use std::alloc::AllocError;

/// `first e second`.
pub(crate) fn print_between(
    first: Kind,
    e: &Expression,
    second: Kind,
    out: &mut Printer,
) -> Result<(), AllocError>
    ensures { OnOk result (out.new ≡ kind_onto second (expression_onto (expression_view e.now) (kind_onto first out.old))) }
{
    out.kind(first)?;
    print_expression(e, out)?;
    out.kind(second)
}

/// `"end" word ";"`.
pub(crate) fn print_closing(word: Kind, out: &mut Printer) -> Result<(), AllocError>
    ensures { OnOk result (out.new ≡ kind_onto k.Semicolon (kind_onto word (kind_onto k.End out.old))) }
{
    out.kind(Kind::End)?;
    out.kind(word)?;
    out.kind(Kind::Semicolon)
}

pub(crate) fn print_null(out: &mut Printer) -> Result<(), AllocError>
    ensures { OnOk result (out.new ≡ kind_onto k.Semicolon (kind_onto k.Null out.old)) }
{
    out.kind(Kind::Null)?;
    out.kind(Kind::Semicolon)
}

pub(crate) fn print_assignment(
    name: &Name,
    value: &Expression,
    out: &mut Printer,
) -> Result<(), AllocError>
    ensures { OnOk result
        (out.new ≡ kind_onto k.Semicolon (initial_onto (expression_view value.now) (name_onto (name_view name.now) out.old))) }
{
    name.print(out)?;
    print_initial(value, out)?;
    out.kind(Kind::Semicolon)
}

pub(crate) fn print_call(
    name: &Name,
    arguments: &Vec<Expression>,
    out: &mut Printer,
) -> Result<(), AllocError>
    ensures { OnOk result
        (out.new ≡ kind_onto k.Semicolon (arguments_onto (expressions_of (expressions_view arguments.now.items)) (name_onto (name_view name.now) out.old))) }
{
    name.print(out)?;
    print_arguments(arguments, out)?;
    out.kind(Kind::Semicolon)
}

pub(crate) fn print_exit(
    condition: &Option<Expression>,
    out: &mut Printer,
) -> Result<(), AllocError>
    ensures { OnOk result
        (out.new ≡ kind_onto k.Semicolon (maybe_onto condition_onto (maybe expression_view condition.now) (kind_onto k.Exit out.old))) }
{
    out.kind(Kind::Exit)?;
    print_condition(condition, out)?;
    out.kind(Kind::Semicolon)
}

/// `word [part] ";"`.
pub(crate) fn print_optional<T: Printed>(
    word: Kind,
    part: &Option<T>,
    out: &mut Printer,
) -> Result<(), AllocError>
    ensures { OnOk result
        (out.new ≡ kind_onto k.Semicolon (maybe_onto T.onto (maybe T.view part.now) (kind_onto word out.old))) }
{
    out.kind(word)?;
    out.maybe(part)?;
    out.kind(Kind::Semicolon)
}

pub(crate) fn print_delay(
    is_until: bool,
    time: &Expression,
    out: &mut Printer,
) -> Result<(), AllocError>
    ensures { OnOk result
        (out.new ≡ kind_onto k.Semicolon (expression_onto (expression_view time.now) (flag_onto k.Until is_until (kind_onto k.Delay out.old)))) }
{
    out.kind(Kind::Delay)?;
    out.flag(Kind::Until, is_until)?;
    print_expression(time, out)?;
    out.kind(Kind::Semicolon)
}

pub(crate) fn print_abort(names: &Vec<Name>, out: &mut Printer) -> Result<(), AllocError>
    ensures { OnOk result
        (out.new ≡ kind_onto k.Semicolon (listed_onto k.Comma name_onto (map name_view names.now.items) (kind_onto k.Abort out.old))) }
{
    out.kind(Kind::Abort)?;
    out.listed(Kind::Comma, names)?;
    out.kind(Kind::Semicolon)
}

pub(crate) fn print_requeue(
    target: &Name,
    with_abort: bool,
    out: &mut Printer,
) -> Result<(), AllocError>
    ensures { OnOk result
        (out.new ≡ kind_onto k.Semicolon (with_abort_onto with_abort (name_onto (name_view target.now) (kind_onto k.Requeue out.old)))) }
{
    out.kind(Kind::Requeue)?;
    target.print(out)?;
    print_with_abort(with_abort, out)?;
    out.kind(Kind::Semicolon)
}

/// `"accept" id [params]`.
pub(crate) fn print_accepted(
    entry: &Identifier,
    parameters: &Vec<Parameter>,
    out: &mut Printer,
) -> Result<(), AllocError>
    ensures { OnOk result
        (out.new ≡ parameters_onto (map parameter_view parameters.now.items) (identifier_onto (identifier_view entry.now) (kind_onto k.Accept out.old))) }
{
    out.kind(Kind::Accept)?;
    entry.print(out)?;
    print_parameters(parameters, out)
}
