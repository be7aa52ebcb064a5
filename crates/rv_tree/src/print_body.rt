//! Prints blocks and bodies.

ghost use Rattle.std.specs.Prelude.{◌≡◌, map, OnOk};
ghost use Rattle.rv_tree.specs.BodyView.{handler_view};
ghost use Rattle.rv_tree.specs.BodyPrint.{handlers_onto};

use crate::body::{Block, ExceptionChoice, Handler, Local, OperationBody, ProtectedBody, TaskBody};
use crate::print_expression::print_expression;
use crate::print_part::{print_end, print_identifiers, print_maybe_initial, print_parameters};
use crate::print_statement::print_statements;
use crate::printer::{Printed, Printer};
use rv_lex::kind::Kind;
use std::alloc::AllocError;

fn print_handlers(handlers: &Vec<Handler>, out: &mut Printer) -> Result<(), AllocError>
    ensures { OnOk result (out.new ≡ handlers_onto (map handler_view handlers.now.items) out.old) }
{
    match handlers.as_slice() {
        [] => Ok(()),
        [first, more @ ..] => {
            out.kind(Kind::Exception)?;
            first.print(out)?;
            out.each(more)
        }
    }
}

impl Printed for Local {
    ghost use Rattle.rv_tree.specs.Bodies as tree;
    ghost use Rattle.rv_tree.specs.BodyView.{local_view};
    ghost use Rattle.rv_tree.specs.BodyPrint.{local_onto};

    ghost Tree = { tree.Local };

    ghost view = { local_view };

    ghost onto = { local_onto };

    fn print(&self, out: &mut Printer) -> Result<(), AllocError> {
        match self {
            Local::Object {
                names,
                is_constant,
                mark,
                range,
                value,
            } => {
                print_identifiers(names, out)?;
                out.kind(Kind::Colon)?;
                out.flag(Kind::Constant, *is_constant)?;
                mark.print(out)?;
                out.maybe(range)?;
                print_maybe_initial(value, out)?;
                out.kind(Kind::Semicolon)
            }
            Local::Pragma(pragma) => pragma.print(out),
            Local::Protected(unit) => unit.print(out),
            Local::Task(task) => task.print(out),
        }
    }
}

impl Printed for ExceptionChoice {
    ghost use Rattle.rv_tree.specs.Bodies as tree;
    ghost use Rattle.rv_tree.specs.BodyView.{exception_choice_view};
    ghost use Rattle.rv_tree.specs.BodyPrint.{exception_choice_onto};

    ghost Tree = { tree.ExceptionChoice };

    ghost view = { exception_choice_view };

    ghost onto = { exception_choice_onto };

    fn print(&self, out: &mut Printer) -> Result<(), AllocError> {
        match self {
            ExceptionChoice::Name(name) => name.print(out),
            ExceptionChoice::Others(_) => out.kind(Kind::Others),
        }
    }
}

impl Printed for Handler {
    ghost use Rattle.rv_tree.specs.Bodies as tree;
    ghost use Rattle.rv_tree.specs.BodyView.{handler_view};
    ghost use Rattle.rv_tree.specs.BodyPrint.{handler_onto};

    ghost Tree = { tree.Handler };

    ghost view = { handler_view };

    ghost onto = { handler_onto };

    fn print(&self, out: &mut Printer) -> Result<(), AllocError> {
        out.kind(Kind::When)?;
        out.listed(Kind::Bar, &self.choices)?;
        out.kind(Kind::Arrow)?;
        print_statements(&self.statements, out)
    }
}

impl Printed for Block {
    ghost use Rattle.rv_tree.specs.Bodies as tree;
    ghost use Rattle.rv_tree.specs.BodyView.{block_view};
    ghost use Rattle.rv_tree.specs.BodyPrint.{block_onto};

    ghost Tree = { tree.Block };

    ghost view = { block_view };

    ghost onto = { block_onto };

    fn print(&self, out: &mut Printer) -> Result<(), AllocError> {
        out.each(&self.locals)?;
        out.kind(Kind::Begin)?;
        print_statements(&self.statements, out)?;
        print_handlers(&self.handlers, out)?;
        print_end(&self.end_name, out)
    }
}

impl Printed for OperationBody {
    ghost use Rattle.rv_tree.specs.Bodies as tree;
    ghost use Rattle.rv_tree.specs.BodyView.{operation_body_view};
    ghost use Rattle.rv_tree.specs.BodyPrint.{operation_body_onto};

    ghost Tree = { tree.OperationBody };

    ghost view = { operation_body_view };

    ghost onto = { operation_body_onto };

    fn print(&self, out: &mut Printer) -> Result<(), AllocError> {
        match self {
            OperationBody::Function {
                at: _,
                name,
                parameters,
                mark,
                block,
            } => {
                out.kind(Kind::Function)?;
                name.print(out)?;
                print_parameters(parameters, out)?;
                out.kind(Kind::Return)?;
                mark.print(out)?;
                out.kind(Kind::Is)?;
                block.print(out)
            }
            OperationBody::Procedure {
                at: _,
                name,
                parameters,
                block,
            } => {
                out.kind(Kind::Procedure)?;
                name.print(out)?;
                print_parameters(parameters, out)?;
                out.kind(Kind::Is)?;
                block.print(out)
            }
            OperationBody::Entry {
                at: _,
                name,
                parameters,
                barrier,
                block,
            } => {
                out.kind(Kind::Entry)?;
                name.print(out)?;
                print_parameters(parameters, out)?;
                out.kind(Kind::When)?;
                print_expression(barrier, out)?;
                out.kind(Kind::Is)?;
                block.print(out)
            }
        }
    }
}

impl Printed for ProtectedBody {
    ghost use Rattle.rv_tree.specs.Bodies as tree;
    ghost use Rattle.rv_tree.specs.BodyView.{protected_body_view};
    ghost use Rattle.rv_tree.specs.BodyPrint.{protected_body_onto};

    ghost Tree = { tree.ProtectedBody };

    ghost view = { protected_body_view };

    ghost onto = { protected_body_onto };

    fn print(&self, out: &mut Printer) -> Result<(), AllocError> {
        out.kind(Kind::Protected)?;
        out.kind(Kind::Body)?;
        self.name.print(out)?;
        out.kind(Kind::Is)?;
        out.each(&self.operations)?;
        print_end(&self.end_name, out)
    }
}

impl Printed for TaskBody {
    ghost use Rattle.rv_tree.specs.Bodies as tree;
    ghost use Rattle.rv_tree.specs.BodyView.{task_body_view};
    ghost use Rattle.rv_tree.specs.BodyPrint.{task_body_onto};

    ghost Tree = { tree.TaskBody };

    ghost view = { task_body_view };

    ghost onto = { task_body_onto };

    fn print(&self, out: &mut Printer) -> Result<(), AllocError> {
        out.kind(Kind::Task)?;
        out.kind(Kind::Body)?;
        self.name.print(out)?;
        out.kind(Kind::Is)?;
        self.block.print(out)
    }
}
