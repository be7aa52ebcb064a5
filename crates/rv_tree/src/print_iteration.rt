//! Prints the parts of statements that hold no statements: choices, bounds of loops, guards.

ghost use Rattle.std.specs.Prelude.{◌≡◌, OnOk};
ghost use Rattle.rv_tree.specs.Onto.{maybe_onto};
ghost use Rattle.rv_tree.specs.ExpressionView.{expression_view};
ghost use Rattle.rv_tree.specs.DeclarationView.{maybe};
ghost use Rattle.rv_tree.specs.StatementPrint.{condition_onto, with_abort_onto};

use crate::expression::Expression;
use crate::print_expression::print_expression;
use crate::printer::{Printed, Printer};
use crate::statement::{Choice, Guard, Iteration, LoopBounds};
use rv_lex::kind::Kind;
use std::alloc::AllocError;

pub(crate) fn print_condition(
    condition: &Option<Expression>,
    out: &mut Printer,
) -> Result<(), AllocError>
    ensures { OnOk result
        (out.new ≡ maybe_onto condition_onto (maybe expression_view condition.now) out.old) }
{
    match condition {
        None => Ok(()),
        Some(condition) => {
            out.kind(Kind::When)?;
            print_expression(condition, out)
        }
    }
}

pub(crate) fn print_with_abort(with_abort: bool, out: &mut Printer) -> Result<(), AllocError>
    ensures { OnOk result (out.new ≡ with_abort_onto with_abort out.old) }
{
    if with_abort {
        out.kind(Kind::With)?;
        out.kind(Kind::Abort)
    } else {
        Ok(())
    }
}

impl Printed for Choice {
    ghost use Rattle.rv_tree.specs.Statements as tree;
    ghost use Rattle.rv_tree.specs.StatementView.{choice_view};
    ghost use Rattle.rv_tree.specs.StatementPrint.{choice_onto};

    ghost Tree = { tree.Choice };

    ghost view = { choice_view };

    ghost onto = { choice_onto };

    fn print(&self, out: &mut Printer) -> Result<(), AllocError> {
        match self {
            Choice::Others(_) => out.kind(Kind::Others),
            Choice::Value(value) => print_expression(value, out),
            Choice::Range(low, high) => {
                print_expression(low, out)?;
                out.kind(Kind::DoubleDot)?;
                print_expression(high, out)
            }
        }
    }
}

impl Printed for LoopBounds {
    ghost use Rattle.rv_tree.specs.Statements as tree;
    ghost use Rattle.rv_tree.specs.StatementView.{bounds_view};
    ghost use Rattle.rv_tree.specs.StatementPrint.{bounds_onto};

    ghost Tree = { tree.LoopBounds };

    ghost view = { bounds_view };

    ghost onto = { bounds_onto };

    fn print(&self, out: &mut Printer) -> Result<(), AllocError> {
        match self {
            LoopBounds::Whole(expression) => print_expression(expression, out),
            LoopBounds::Between(low, high) => {
                print_expression(low, out)?;
                out.kind(Kind::DoubleDot)?;
                print_expression(high, out)
            }
            LoopBounds::Constrained(mark, range) => {
                mark.print(out)?;
                range.print(out)
            }
        }
    }
}

impl Printed for Iteration {
    ghost use Rattle.rv_tree.specs.Statements as tree;
    ghost use Rattle.rv_tree.specs.StatementView.{iteration_view};
    ghost use Rattle.rv_tree.specs.StatementPrint.{iteration_onto};

    ghost Tree = { tree.Iteration };

    ghost view = { iteration_view };

    ghost onto = { iteration_onto };

    fn print(&self, out: &mut Printer) -> Result<(), AllocError> {
        match self {
            Iteration::Forever => out.kind(Kind::Loop),
            Iteration::While(condition) => {
                out.kind(Kind::While)?;
                print_expression(condition, out)?;
                out.kind(Kind::Loop)
            }
            Iteration::For {
                parameter,
                is_reverse,
                bounds,
            } => {
                out.kind(Kind::For)?;
                parameter.print(out)?;
                out.kind(Kind::In)?;
                out.flag(Kind::Reverse, *is_reverse)?;
                bounds.print(out)?;
                out.kind(Kind::Loop)
            }
        }
    }
}

impl Printed for Guard {
    ghost use Rattle.rv_tree.specs.Statements as tree;
    ghost use Rattle.rv_tree.specs.StatementView.{guard_view};
    ghost use Rattle.rv_tree.specs.StatementPrint.{guard_onto};

    ghost Tree = { tree.Guard };

    ghost view = { guard_view };

    ghost onto = { guard_onto };

    fn print(&self, out: &mut Printer) -> Result<(), AllocError> {
        out.kind(Kind::When)?;
        print_expression(&self.condition, out)?;
        out.kind(Kind::Arrow)
    }
}
