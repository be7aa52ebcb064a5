//! Prints statements that hold others.

ghost use Rattle.std.specs.Prelude.{◌≡◌, OnOk};
ghost use Rattle.rv_tree.specs.NameView.{identifier_view};
ghost use Rattle.rv_tree.specs.DeclarationView.{maybe};
ghost use Rattle.rv_tree.specs.Statements.{statements_of, elsif_parts_of, alternatives_of, selectives_of};
ghost use Rattle.rv_tree.specs.StatementView.{statement_view, statements_view, elsif_parts_view, alternatives_view, selective_view, selectives_view};
ghost use Rattle.rv_tree.specs.StatementPrint.{statement_onto, statements_onto, elsif_parts_onto, else_onto, alternatives_onto, accept_body_onto, selective_onto, selectives_onto, then_abort_onto};

use crate::name::Identifier;
use crate::print_simple::{
    print_abort, print_accepted, print_assignment, print_between, print_call, print_closing,
    print_delay, print_exit, print_null, print_optional, print_requeue,
};
use crate::printer::{Printed, Printer};
use crate::statement::{CaseAlternative, ElsifPart, SelectAlternative, Statement};
use rv_lex::kind::Kind;
use std::alloc::AllocError;

#[cycle(print_statement)]
fn print_statement(statement: &Statement, out: &mut Printer) -> Result<(), AllocError>
    ensures { OnOk result (out.new ≡ statement_onto (statement_view statement.now) out.old) }
{
    match statement {
        Statement::Null(_) => print_null(out),
        Statement::Assignment(name, value) => print_assignment(name, value, out),
        Statement::Call(name, arguments) => print_call(name, arguments, out),
        Statement::If {
            at: _,
            condition,
            statements,
            elsif_parts,
            else_statements,
        } => {
            print_between(Kind::If, condition, Kind::Then, out)?;
            print_statements(statements, out)?;
            print_elsif_parts(elsif_parts, out)?;
            print_else(else_statements, out)?;
            print_closing(Kind::If, out)
        }
        Statement::Case {
            at: _,
            selector,
            alternatives,
        } => {
            print_between(Kind::Case, selector, Kind::Is, out)?;
            print_alternatives(alternatives, out)?;
            print_closing(Kind::Case, out)
        }
        Statement::Loop {
            at: _,
            iteration,
            statements,
        } => {
            iteration.print(out)?;
            print_statements(statements, out)?;
            print_closing(Kind::Loop, out)
        }
        Statement::Exit(_, condition) => print_exit(condition, out),
        Statement::Return(_, value) => print_optional(Kind::Return, value, out),
        Statement::Raise(_, name) => print_optional(Kind::Raise, name, out),
        Statement::Delay {
            at: _,
            is_until,
            time,
        } => print_delay(*is_until, time, out),
        Statement::Abort(_, names) => print_abort(names, out),
        Statement::Requeue {
            at: _,
            target,
            with_abort,
        } => print_requeue(target, *with_abort, out),
        Statement::Accept {
            at: _,
            entry,
            parameters,
            statements,
            end_name,
        } => {
            print_accepted(entry, parameters, out)?;
            print_accept_body(statements, end_name, out)?;
            out.kind(Kind::Semicolon)
        }
        Statement::Select {
            at: _,
            alternatives,
            else_statements,
            abort_statements,
        } => {
            out.kind(Kind::Select)?;
            print_selectives(alternatives, out)?;
            print_else(else_statements, out)?;
            print_then_abort(abort_statements, out)?;
            print_closing(Kind::Select, out)
        }
    }
}

#[cycle(print_statement)]
pub(crate) fn print_statements(
    statements: &Vec<Statement>,
    out: &mut Printer,
) -> Result<(), AllocError>
    ensures { OnOk result
        (out.new ≡ statements_onto (statements_of (statements_view statements.now.items)) out.old) }
{
    for statement in statements {
        print_statement(statement, out)?;
    }
    Ok(())
}

#[cycle(print_statement)]
fn print_elsif_parts(parts: &Vec<ElsifPart>, out: &mut Printer) -> Result<(), AllocError>
    ensures { OnOk result
        (out.new ≡ elsif_parts_onto (elsif_parts_of (elsif_parts_view parts.now.items)) out.old) }
{
    for part in parts {
        print_between(Kind::Elsif, &part.condition, Kind::Then, out)?;
        print_statements(&part.statements, out)?;
    }
    Ok(())
}

#[cycle(print_statement)]
fn print_alternatives(
    alternatives: &Vec<CaseAlternative>,
    out: &mut Printer,
) -> Result<(), AllocError>
    ensures { OnOk result
        (out.new ≡ alternatives_onto (alternatives_of (alternatives_view alternatives.now.items)) out.old) }
{
    for alternative in alternatives {
        out.kind(Kind::When)?;
        out.listed(Kind::Bar, &alternative.choices)?;
        out.kind(Kind::Arrow)?;
        print_statements(&alternative.statements, out)?;
    }
    Ok(())
}

#[cycle(print_statement)]
fn print_else(statements: &Vec<Statement>, out: &mut Printer) -> Result<(), AllocError>
    ensures { OnOk result
        (out.new ≡ else_onto (statements_of (statements_view statements.now.items)) out.old) }
{
    match statements.as_slice() {
        [] => Ok(()),
        [_, ..] => {
            out.kind(Kind::Else)?;
            print_statements(statements, out)
        }
    }
}

#[cycle(print_statement)]
fn print_accept_body(
    statements: &Vec<Statement>,
    end_name: &Option<Identifier>,
    out: &mut Printer,
) -> Result<(), AllocError>
    ensures { OnOk result
        (out.new ≡ accept_body_onto (statements_of (statements_view statements.now.items)) (maybe identifier_view end_name.now) out.old) }
{
    match statements.as_slice() {
        [] => Ok(()),
        [_, ..] => {
            out.kind(Kind::Do)?;
            print_statements(statements, out)?;
            out.kind(Kind::End)?;
            out.maybe(end_name)
        }
    }
}

#[cycle(print_statement)]
fn print_then_abort(statements: &Vec<Statement>, out: &mut Printer) -> Result<(), AllocError>
    ensures { OnOk result
        (out.new ≡ then_abort_onto (statements_of (statements_view statements.now.items)) out.old) }
{
    match statements.as_slice() {
        [] => Ok(()),
        [_, ..] => {
            out.kind(Kind::Then)?;
            out.kind(Kind::Abort)?;
            print_statements(statements, out)
        }
    }
}

#[cycle(print_statement)]
fn print_selective(alternative: &SelectAlternative, out: &mut Printer) -> Result<(), AllocError>
    ensures { OnOk result (out.new ≡ selective_onto (selective_view alternative.now) out.old) }
{
    match alternative {
        SelectAlternative::Statements(guard, statements) => {
            out.maybe(guard)?;
            print_statements(statements, out)
        }
        SelectAlternative::Terminate(guard, _) => {
            out.maybe(guard)?;
            out.kind(Kind::Terminate)?;
            out.kind(Kind::Semicolon)
        }
    }
}

#[cycle(print_statement)]
fn print_selectives(
    alternatives: &Vec<SelectAlternative>,
    out: &mut Printer,
) -> Result<(), AllocError>
    ensures { OnOk result
        (out.new ≡ selectives_onto (selectives_of (selectives_view alternatives.now.items)) out.old) }
{
    match alternatives.as_slice() {
        [] => Ok(()),
        [first, more @ ..] => {
            print_selective(first, out)?;
            for alternative in more {
                out.kind(Kind::Or)?;
                print_selective(alternative, out)?;
            }
            Ok(())
        }
    }
}
