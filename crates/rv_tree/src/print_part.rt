//! Prints the parts that declarations are made of: lists of names, initial values, pragmas, aspects and parameters.

ghost use Rattle.std.specs.Prelude.{◌≡◌, map, OnOk};
ghost use Rattle.rv_tree.specs.NameView.{identifier_view, identifiers_view};
ghost use Rattle.rv_tree.specs.NamePrint.{identifier_onto, end_onto};
ghost use Rattle.rv_tree.specs.Onto.{maybe_onto, listed_onto};
ghost use Rattle.rv_tree.specs.ExpressionView.{expression_view};
ghost use Rattle.rv_tree.specs.DeclarationView.{maybe, aspect_view, parameter_view};
ghost use Rattle.rv_tree.specs.DeclarationPrint.{named_onto, given_onto, initial_onto, aspects_onto, mode_onto, parameters_onto};
ghost use Rattle.rv_lex.specs.declared.kind.Kind.TheVariants as k;

use crate::declaration::{Aspect, Mode, Parameter, Pragma, PragmaArgument};
use crate::expression::Expression;
use crate::name::Identifier;
use crate::print_expression::print_expression;
use crate::printer::{Printed, Printer};
use rv_lex::kind::Kind;
use std::alloc::AllocError;

pub(crate) fn print_identifiers(
    names: &Vec<Identifier>,
    out: &mut Printer,
) -> Result<(), AllocError>
    ensures { OnOk result
        (out.new ≡ listed_onto k.Comma identifier_onto (identifiers_view names.now.items) out.old) }
{
    out.listed(Kind::Comma, names)
}

pub(crate) fn print_end(name: &Option<Identifier>, out: &mut Printer) -> Result<(), AllocError>
    ensures { OnOk result (out.new ≡ end_onto (maybe identifier_view name.now) out.old) }
{
    out.kind(Kind::End)?;
    out.maybe(name)?;
    out.kind(Kind::Semicolon)
}

fn print_named(name: &Option<Identifier>, out: &mut Printer) -> Result<(), AllocError>
    ensures { OnOk result
        (out.new ≡ maybe_onto named_onto (maybe identifier_view name.now) out.old) }
{
    match name {
        None => Ok(()),
        Some(name) => {
            name.print(out)?;
            out.kind(Kind::Arrow)
        }
    }
}

fn print_given(value: &Option<Expression>, out: &mut Printer) -> Result<(), AllocError>
    ensures { OnOk result
        (out.new ≡ maybe_onto given_onto (maybe expression_view value.now) out.old) }
{
    match value {
        None => Ok(()),
        Some(value) => {
            out.kind(Kind::Arrow)?;
            print_expression(value, out)
        }
    }
}

pub(crate) fn print_initial(value: &Expression, out: &mut Printer) -> Result<(), AllocError>
    ensures { OnOk result (out.new ≡ initial_onto (expression_view value.now) out.old) }
{
    out.kind(Kind::Becomes)?;
    print_expression(value, out)
}

pub(crate) fn print_maybe_initial(
    value: &Option<Expression>,
    out: &mut Printer,
) -> Result<(), AllocError>
    ensures { OnOk result
        (out.new ≡ maybe_onto initial_onto (maybe expression_view value.now) out.old) }
{
    match value {
        None => Ok(()),
        Some(value) => print_initial(value, out),
    }
}

pub(crate) fn print_aspects(aspects: &Vec<Aspect>, out: &mut Printer) -> Result<(), AllocError>
    ensures { OnOk result (out.new ≡ aspects_onto (map aspect_view aspects.now.items) out.old) }
{
    match aspects.as_slice() {
        [] => Ok(()),
        [first, more @ ..] => {
            out.kind(Kind::With)?;
            first.print(out)?;
            out.each_after(Kind::Comma, more)
        }
    }
}

fn print_mode(mode: Mode, out: &mut Printer) -> Result<(), AllocError>
    ensures { OnOk result (out.new ≡ mode_onto mode out.old) }
{
    match mode {
        Mode::NotWritten => Ok(()),
        Mode::In => out.kind(Kind::In),
        Mode::Out => out.kind(Kind::Out),
        Mode::InOut => {
            out.kind(Kind::In)?;
            out.kind(Kind::Out)
        }
    }
}

pub(crate) fn print_parameters(
    parameters: &Vec<Parameter>,
    out: &mut Printer,
) -> Result<(), AllocError>
    ensures { OnOk result
        (out.new ≡ parameters_onto (map parameter_view parameters.now.items) out.old) }
{
    out.enclosed(
        Kind::LeftParenthesis,
        Kind::Semicolon,
        Kind::RightParenthesis,
        parameters,
    )
}

impl Printed for PragmaArgument {
    ghost use Rattle.rv_tree.specs.Declarations as tree;
    ghost use Rattle.rv_tree.specs.DeclarationView.{pragma_argument_view};
    ghost use Rattle.rv_tree.specs.DeclarationPrint.{pragma_argument_onto};

    ghost Tree = { tree.PragmaArgument };

    ghost view = { pragma_argument_view };

    ghost onto = { pragma_argument_onto };

    fn print(&self, out: &mut Printer) -> Result<(), AllocError> {
        print_named(&self.name, out)?;
        print_expression(&self.value, out)
    }
}

impl Printed for Pragma {
    ghost use Rattle.rv_tree.specs.Declarations as tree;
    ghost use Rattle.rv_tree.specs.DeclarationView.{pragma_view};
    ghost use Rattle.rv_tree.specs.DeclarationPrint.{pragma_onto};

    ghost Tree = { tree.Pragma };

    ghost view = { pragma_view };

    ghost onto = { pragma_onto };

    fn print(&self, out: &mut Printer) -> Result<(), AllocError> {
        out.kind(Kind::Pragma)?;
        self.name.print(out)?;
        out.enclosed(
            Kind::LeftParenthesis,
            Kind::Comma,
            Kind::RightParenthesis,
            &self.arguments,
        )?;
        out.kind(Kind::Semicolon)
    }
}

impl Printed for Aspect {
    ghost use Rattle.rv_tree.specs.Declarations as tree;
    ghost use Rattle.rv_tree.specs.DeclarationView.{aspect_view};
    ghost use Rattle.rv_tree.specs.DeclarationPrint.{aspect_onto};

    ghost Tree = { tree.Aspect };

    ghost view = { aspect_view };

    ghost onto = { aspect_onto };

    fn print(&self, out: &mut Printer) -> Result<(), AllocError> {
        self.name.print(out)?;
        print_given(&self.value, out)
    }
}

impl Printed for Parameter {
    ghost use Rattle.rv_tree.specs.Declarations as tree;
    ghost use Rattle.rv_tree.specs.DeclarationView.{parameter_view};
    ghost use Rattle.rv_tree.specs.DeclarationPrint.{parameter_onto};

    ghost Tree = { tree.Parameter };

    ghost view = { parameter_view };

    ghost onto = { parameter_onto };

    fn print(&self, out: &mut Printer) -> Result<(), AllocError> {
        print_identifiers(&self.names, out)?;
        out.kind(Kind::Colon)?;
        print_mode(self.mode, out)?;
        self.mark.print(out)
    }
}
