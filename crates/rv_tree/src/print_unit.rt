//! Prints whole unit texts.

ghost use Rattle.std.specs.Prelude.{◌≡◌, [], ◌∷◌, ◌++◌, IfOk, string_bytes};
ghost use Rattle.rv_tree.specs.UnitView.{unit_view};
ghost use Rattle.rv_tree.specs.UnitPrint.{unit_onto};
ghost use Rattle.rv_tree.specs.Printed.{PrintsTree};

use crate::print_part::print_end;
use crate::printer::{Printed, Printer};
use crate::unit::{BodyItem, ContextItem, PackageBody, PackageSpecification, UnitTree};
use rv_lex::kind::Kind;
use std::alloc::{AllocError, Global};

impl Printed for ContextItem {
    ghost use Rattle.rv_tree.specs.Units as tree;
    ghost use Rattle.rv_tree.specs.UnitView.{context_item_view};
    ghost use Rattle.rv_tree.specs.UnitPrint.{context_item_onto};

    ghost Tree = { tree.ContextItem };

    ghost view = { context_item_view };

    ghost onto = { context_item_onto };

    fn print(&self, out: &mut Printer) -> Result<(), AllocError> {
        match self {
            ContextItem::Pragma(pragma) => pragma.print(out),
            ContextItem::With(_, names) => {
                out.kind(Kind::With)?;
                out.listed(Kind::Comma, names)?;
                out.kind(Kind::Semicolon)
            }
            ContextItem::Use {
                at: _,
                is_type,
                names,
            } => {
                out.kind(Kind::Use)?;
                out.flag(Kind::Type, *is_type)?;
                out.listed(Kind::Comma, names)?;
                out.kind(Kind::Semicolon)
            }
        }
    }
}

impl Printed for PackageSpecification {
    ghost use Rattle.rv_tree.specs.Units as tree;
    ghost use Rattle.rv_tree.specs.UnitView.{specification_view};
    ghost use Rattle.rv_tree.specs.UnitPrint.{specification_onto};

    ghost Tree = { tree.PackageSpecification };

    ghost view = { specification_view };

    ghost onto = { specification_onto };

    fn print(&self, out: &mut Printer) -> Result<(), AllocError> {
        out.kind(Kind::Package)?;
        self.name.print(out)?;
        out.kind(Kind::Is)?;
        out.each(&self.declarations)?;
        print_end(&self.end_name, out)
    }
}

impl Printed for BodyItem {
    ghost use Rattle.rv_tree.specs.Units as tree;
    ghost use Rattle.rv_tree.specs.UnitView.{body_item_view};
    ghost use Rattle.rv_tree.specs.UnitPrint.{body_item_onto};

    ghost Tree = { tree.BodyItem };

    ghost view = { body_item_view };

    ghost onto = { body_item_onto };

    fn print(&self, out: &mut Printer) -> Result<(), AllocError> {
        match self {
            BodyItem::Declaration(declaration) => declaration.print(out),
            BodyItem::Protected(body) => body.print(out),
            BodyItem::Task(body) => body.print(out),
        }
    }
}

impl Printed for PackageBody {
    ghost use Rattle.rv_tree.specs.Units as tree;
    ghost use Rattle.rv_tree.specs.UnitView.{body_view};
    ghost use Rattle.rv_tree.specs.UnitPrint.{body_onto};

    ghost Tree = { tree.PackageBody };

    ghost view = { body_view };

    ghost onto = { body_onto };

    fn print(&self, out: &mut Printer) -> Result<(), AllocError> {
        out.kind(Kind::Package)?;
        out.kind(Kind::Body)?;
        self.name.print(out)?;
        out.kind(Kind::Is)?;
        out.each(&self.items)?;
        print_end(&self.end_name, out)
    }
}

impl Printed for UnitTree {
    ghost use Rattle.rv_tree.specs.Units as tree;
    ghost use Rattle.rv_tree.specs.UnitView.{unit_view};
    ghost use Rattle.rv_tree.specs.UnitPrint.{unit_onto};
    ghost use Rattle.rv_tree.specs.Printed.{PrintsTree};

    ghost Tree = { tree.UnitTree };

    ghost view = { unit_view };

    ghost onto = { unit_onto };

    fn print(&self, out: &mut Printer) -> Result<(), AllocError> {
        out.each(&self.context)?;
        self.specification.print(out)?;
        self.body.print(out)
    }
}

/// The tree's words, each with a space before it and one at the end: the reserved words in small letters, the
/// identifiers as they were written, the literals in decimal.
pub fn print(alloc: Global, tree: &UnitTree) -> Result<String, AllocError>
    ensures text { IfOk result
        (λ text. string_bytes text ≡ unit_onto (unit_view tree.now) [] ++ 32 ∷ []) }
    ensures derives { IfOk result (λ text. PrintsTree (string_bytes text) (unit_view tree.now)) }
{
    let mut out = Printer::new(alloc);
    tree.print(&mut out)?;
    out.finish()
}
