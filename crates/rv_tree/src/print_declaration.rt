//! Prints declarations.

ghost use Rattle.std.specs.Prelude.{◌≡◌, OnOk};
ghost use Rattle.rv_tree.specs.DeclarationView.{maybe, task_definition_view};
ghost use Rattle.rv_tree.specs.DeclarationPrint.{task_definition_onto};

use crate::declaration::{
    Declaration, EntryDeclaration, OperationDeclaration, Pragma, ProtectedElement, ProtectedUnit,
    TaskDefinition, TaskItem, TaskUnit,
};
use crate::print_part::{
    print_aspects, print_end, print_identifiers, print_initial, print_maybe_initial,
    print_parameters,
};
use crate::printer::{Printed, Printer};
use rv_lex::kind::Kind;
use std::alloc::AllocError;

fn print_task_definition(
    definition: &Option<TaskDefinition>,
    out: &mut Printer,
) -> Result<(), AllocError>
    ensures { OnOk result
        (out.new ≡ task_definition_onto (maybe task_definition_view definition.now) out.old) }
{
    match definition {
        None => out.kind(Kind::Semicolon),
        Some(definition) => {
            out.kind(Kind::Is)?;
            out.each(&definition.items)?;
            print_end(&definition.end_name, out)
        }
    }
}

impl Printed for EntryDeclaration {
    ghost use Rattle.rv_tree.specs.Declarations as tree;
    ghost use Rattle.rv_tree.specs.DeclarationView.{entry_view};
    ghost use Rattle.rv_tree.specs.DeclarationPrint.{entry_onto};

    ghost Tree = { tree.EntryDeclaration };

    ghost view = { entry_view };

    ghost onto = { entry_onto };

    fn print(&self, out: &mut Printer) -> Result<(), AllocError> {
        out.kind(Kind::Entry)?;
        self.name.print(out)?;
        print_parameters(&self.parameters, out)?;
        out.kind(Kind::Semicolon)
    }
}

impl Printed for OperationDeclaration {
    ghost use Rattle.rv_tree.specs.Declarations as tree;
    ghost use Rattle.rv_tree.specs.DeclarationView.{operation_view};
    ghost use Rattle.rv_tree.specs.DeclarationPrint.{operation_onto};

    ghost Tree = { tree.OperationDeclaration };

    ghost view = { operation_view };

    ghost onto = { operation_onto };

    fn print(&self, out: &mut Printer) -> Result<(), AllocError> {
        match self {
            OperationDeclaration::Pragma(pragma) => pragma.print(out),
            OperationDeclaration::Function {
                at: _,
                name,
                parameters,
                mark,
            } => {
                out.kind(Kind::Function)?;
                name.print(out)?;
                print_parameters(parameters, out)?;
                out.kind(Kind::Return)?;
                mark.print(out)?;
                out.kind(Kind::Semicolon)
            }
            OperationDeclaration::Procedure {
                at: _,
                name,
                parameters,
                aspects,
            } => {
                out.kind(Kind::Procedure)?;
                name.print(out)?;
                print_parameters(parameters, out)?;
                print_aspects(aspects, out)?;
                out.kind(Kind::Semicolon)
            }
            OperationDeclaration::Entry(entry) => entry.print(out),
        }
    }
}

impl Printed for ProtectedElement {
    ghost use Rattle.rv_tree.specs.Declarations as tree;
    ghost use Rattle.rv_tree.specs.DeclarationView.{element_view};
    ghost use Rattle.rv_tree.specs.DeclarationPrint.{element_onto};

    ghost Tree = { tree.ProtectedElement };

    ghost view = { element_view };

    ghost onto = { element_onto };

    fn print(&self, out: &mut Printer) -> Result<(), AllocError> {
        match self {
            ProtectedElement::Operation(operation) => operation.print(out),
            ProtectedElement::Component {
                names,
                mark,
                range,
                value,
            } => {
                print_identifiers(names, out)?;
                out.kind(Kind::Colon)?;
                mark.print(out)?;
                out.maybe(range)?;
                print_maybe_initial(value, out)?;
                out.kind(Kind::Semicolon)
            }
        }
    }
}

impl Printed for ProtectedUnit {
    ghost use Rattle.rv_tree.specs.Declarations as tree;
    ghost use Rattle.rv_tree.specs.DeclarationView.{protected_unit_view};
    ghost use Rattle.rv_tree.specs.DeclarationPrint.{protected_unit_onto};

    ghost Tree = { tree.ProtectedUnit };

    ghost view = { protected_unit_view };

    ghost onto = { protected_unit_onto };

    fn print(&self, out: &mut Printer) -> Result<(), AllocError> {
        out.kind(Kind::Protected)?;
        out.flag(Kind::Type, self.is_type)?;
        self.name.print(out)?;
        print_aspects(&self.aspects, out)?;
        out.kind(Kind::Is)?;
        out.each(&self.operations)?;
        if let Some(elements) = &self.private {
            out.kind(Kind::Private)?;
            out.each(elements)?;
        }
        print_end(&self.end_name, out)
    }
}

impl Printed for TaskItem {
    ghost use Rattle.rv_tree.specs.Declarations as tree;
    ghost use Rattle.rv_tree.specs.DeclarationView.{task_item_view};
    ghost use Rattle.rv_tree.specs.DeclarationPrint.{task_item_onto};

    ghost Tree = { tree.TaskItem };

    ghost view = { task_item_view };

    ghost onto = { task_item_onto };

    fn print(&self, out: &mut Printer) -> Result<(), AllocError> {
        match self {
            TaskItem::Pragma(pragma) => pragma.print(out),
            TaskItem::Entry(entry) => entry.print(out),
        }
    }
}

impl Printed for TaskUnit {
    ghost use Rattle.rv_tree.specs.Declarations as tree;
    ghost use Rattle.rv_tree.specs.DeclarationView.{task_view};
    ghost use Rattle.rv_tree.specs.DeclarationPrint.{task_onto};

    ghost Tree = { tree.TaskUnit };

    ghost view = { task_view };

    ghost onto = { task_onto };

    fn print(&self, out: &mut Printer) -> Result<(), AllocError> {
        out.kind(Kind::Task)?;
        self.name.print(out)?;
        print_aspects(&self.aspects, out)?;
        print_task_definition(&self.definition, out)
    }
}

impl Printed for Declaration {
    ghost use Rattle.rv_tree.specs.Declarations as tree;
    ghost use Rattle.rv_tree.specs.DeclarationView.{declaration_view};
    ghost use Rattle.rv_tree.specs.DeclarationPrint.{declaration_onto};

    ghost Tree = { tree.Declaration };

    ghost view = { declaration_view };

    ghost onto = { declaration_onto };

    fn print(&self, out: &mut Printer) -> Result<(), AllocError> {
        match self {
            Declaration::Pragma(pragma) => pragma.print(out),
            Declaration::Subtype {
                at: _,
                name,
                mark,
                range,
            } => {
                out.kind(Kind::Subtype)?;
                name.print(out)?;
                out.kind(Kind::Is)?;
                mark.print(out)?;
                out.maybe(range)?;
                out.kind(Kind::Semicolon)
            }
            Declaration::Protected(unit) => unit.print(out),
            Declaration::Task(task) => task.print(out),
            Declaration::Variable { names, mark } => {
                print_identifiers(names, out)?;
                out.kind(Kind::Colon)?;
                mark.print(out)?;
                out.kind(Kind::Semicolon)
            }
            Declaration::Constant { names, mark, value } => {
                print_identifiers(names, out)?;
                out.kind(Kind::Colon)?;
                out.kind(Kind::Constant)?;
                out.maybe(mark)?;
                print_initial(value, out)?;
                out.kind(Kind::Semicolon)
            }
        }
    }
}
