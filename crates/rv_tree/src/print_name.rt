//! Prints identifiers and names.

use crate::name::{Identifier, Name};
use crate::printer::{Printed, Printer};
use rv_lex::kind::Kind;
use std::alloc::AllocError;

impl Printed for Identifier {
    ghost use Rattle.rv_tree.specs.Names as tree;
    ghost use Rattle.rv_tree.specs.NameView.{identifier_view};
    ghost use Rattle.rv_tree.specs.NamePrint.{identifier_onto};

    ghost Tree = { tree.Identifier };

    ghost view = { identifier_view };

    ghost onto = { identifier_onto };

    fn print(&self, out: &mut Printer) -> Result<(), AllocError> {
        out.word(self.text.as_str())
    }
}

impl Printed for Name {
    ghost use Rattle.rv_tree.specs.Names as tree;
    ghost use Rattle.rv_tree.specs.NameView.{name_view};
    ghost use Rattle.rv_tree.specs.NamePrint.{name_onto};

    ghost Tree = { tree.Name };

    ghost view = { name_view };

    ghost onto = { name_onto };

    fn print(&self, out: &mut Printer) -> Result<(), AllocError> {
        self.first.print(out)?;
        out.each_after(Kind::Dot, &self.more)
    }
}
