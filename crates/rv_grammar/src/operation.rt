//! Declarations of operations, with their parameters.

ghost use Rattle.std.specs.Prelude.{◌≡◌, map};
ghost use Rattle.rv_lex.specs.declared.kind.Kind.TheVariants as k;
ghost use Rattle.rv_tree.specs.Declarations as t;
ghost use Rattle.rv_tree.specs.DeclarationView as view;
ghost use Rattle.rv_grammar.specs.Reading as spec;
ghost use Rattle.rv_grammar.specs.DeclarationRules as rules;
ghost use Rattle.rv_grammar.specs.Contract.{Reads};

use crate::cursor::Cursor;
use crate::fault::ParseFault;
use crate::part::aspects;
use crate::phrase::{Phrase, enclosed, listed};
use rv_lex::kind::Kind;
use rv_tree::{EntryDeclaration, Identifier, Mode, Name, OperationDeclaration, Parameter, Pragma};
use std::alloc::Global;

// ["in"] ["out"]
#[tactic(auto, unfolding(crate::specs::DeclarationRules::mode))]
fn mode(tokens: &mut Cursor<'_>) -> Mode
    ensures { rules.mode tokens.old ≡ spec.read_to result tokens.new }
{
    let is_in = tokens.eat(Kind::In);
    let is_out = tokens.eat(Kind::Out);
    match (is_in, is_out) {
        (true, true) => Mode::InOut,
        (true, false) => Mode::In,
        (false, true) => Mode::Out,
        (false, false) => Mode::NotWritten,
    }
}

// ids ":" ["in"] ["out"] mark
impl Phrase for Parameter {
    ghost Tree = { t.Parameter };

    ghost view = { view.parameter_view };

    ghost starts = { spec.sees k.Identifier };

    ghost rule = { rules.parameter };

    fn begins(tokens: &Cursor<'_>) -> bool {
        tokens.sees(Kind::Identifier)
    }

    #[tactic(auto, unfolding(crate::specs::DeclarationRules::parameter))]
    fn read(alloc: Global, tokens: &mut Cursor<'_>) -> Result<Parameter, ParseFault> {
        let names = listed(alloc, tokens, Kind::Comma)?;
        tokens.expect(Kind::Colon)?;
        let mode = mode(tokens);
        let mark = Name::read(alloc, tokens)?;
        Ok(Parameter { names, mode, mark })
    }
}

/// `["(" param {";" param} ")"]`.
#[tactic(auto, unfolding(crate::specs::DeclarationRules::parameters))]
pub fn parameters(alloc: Global, tokens: &mut Cursor<'_>) -> Result<Vec<Parameter>, ParseFault>
    ensures { Reads (λ v. map view.parameter_view v.items) (rules.parameters tokens.old) result tokens.new }
{
    enclosed(alloc, tokens, Kind::Semicolon)
}

// "entry" id [params] ";"
impl Phrase for EntryDeclaration {
    ghost Tree = { t.EntryDeclaration };

    ghost view = { view.entry_view };

    ghost starts = { spec.sees k.Entry };

    ghost rule = { rules.entry };

    fn begins(tokens: &Cursor<'_>) -> bool {
        tokens.sees(Kind::Entry)
    }

    #[tactic(auto, unfolding(crate::specs::DeclarationRules::entry))]
    fn read(alloc: Global, tokens: &mut Cursor<'_>) -> Result<EntryDeclaration, ParseFault> {
        let at = tokens.expect(Kind::Entry)?;
        let name = Identifier::read(alloc, tokens)?;
        let parameters = parameters(alloc, tokens)?;
        tokens.expect(Kind::Semicolon)?;
        Ok(EntryDeclaration {
            at,
            name,
            parameters,
        })
    }
}

#[tactic(auto, unfolding(crate::specs::DeclarationRules::function))]
fn function(alloc: Global, tokens: &mut Cursor<'_>) -> Result<OperationDeclaration, ParseFault>
    ensures { Reads view.operation_view (rules.function tokens.old) result tokens.new }
{
    let at = tokens.expect(Kind::Function)?;
    let name = Identifier::read(alloc, tokens)?;
    let parameters = parameters(alloc, tokens)?;
    tokens.expect(Kind::Return)?;
    let mark = Name::read(alloc, tokens)?;
    tokens.expect(Kind::Semicolon)?;
    Ok(OperationDeclaration::Function {
        at,
        name,
        parameters,
        mark,
    })
}

#[tactic(auto, unfolding(crate::specs::DeclarationRules::procedure))]
fn procedure(alloc: Global, tokens: &mut Cursor<'_>) -> Result<OperationDeclaration, ParseFault>
    ensures { Reads view.operation_view (rules.procedure tokens.old) result tokens.new }
{
    let at = tokens.expect(Kind::Procedure)?;
    let name = Identifier::read(alloc, tokens)?;
    let parameters = parameters(alloc, tokens)?;
    let aspects = aspects(alloc, tokens)?;
    tokens.expect(Kind::Semicolon)?;
    Ok(OperationDeclaration::Procedure {
        at,
        name,
        parameters,
        aspects,
    })
}

// pragma | op
impl Phrase for OperationDeclaration {
    ghost Tree = { t.OperationDeclaration };

    ghost view = { view.operation_view };

    ghost starts = { spec.starts_by rules.begins_operation };

    ghost rule = { rules.operation };

    #[tactic(auto, unfolding(crate::specs::Reading::starts_by, crate::specs::Reading::kind))]
    fn begins(tokens: &Cursor<'_>) -> bool {
        match tokens.kind() {
            Some(Kind::Pragma | Kind::Function | Kind::Procedure | Kind::Entry) => true,
            _ => false,
        }
    }

    #[tactic(auto, unfolding(crate::specs::DeclarationRules::operation, crate::specs::Reading::kind))]
    fn read(alloc: Global, tokens: &mut Cursor<'_>) -> Result<OperationDeclaration, ParseFault> {
        match tokens.kind() {
            Some(Kind::Pragma) => Ok(OperationDeclaration::Pragma(Pragma::read(alloc, tokens)?)),
            Some(Kind::Function) => function(alloc, tokens),
            Some(Kind::Procedure) => procedure(alloc, tokens),
            Some(Kind::Entry) => Ok(OperationDeclaration::Entry(EntryDeclaration::read(
                alloc, tokens,
            )?)),
            _ => Err(ParseFault::Unexpected(tokens.place())),
        }
    }
}
