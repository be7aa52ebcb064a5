//! Declarations of packages.

ghost use Rattle.rv_tree.specs.Declarations as t;
ghost use Rattle.rv_tree.specs.NameView.{identifiers_view};
ghost use Rattle.rv_tree.specs.DeclarationView as view;
ghost use Rattle.rv_grammar.specs.Reading as spec;
ghost use Rattle.rv_grammar.specs.DeclarationRules as rules;
ghost use Rattle.rv_grammar.specs.Contract.{Reads};

use crate::closing::before;
use crate::cursor::Cursor;
use crate::fault::ParseFault;
use crate::phrase::{Phrase, listed, optional};
use rv_lex::kind::Kind;
use rv_tree::{Declaration, Expression, Identifier, Name, Pragma, ProtectedUnit, TaskUnit};
use std::alloc::Global;

// "subtype" id "is" mark [range] ";"
#[tactic(auto, unfolding(crate::specs::DeclarationRules::a_subtype))]
fn subtype(alloc: Global, tokens: &mut Cursor<'_>) -> Result<Declaration, ParseFault>
    ensures { Reads view.declaration_view (rules.a_subtype tokens.old) result tokens.new }
{
    let at = tokens.expect(Kind::Subtype)?;
    let name = Identifier::read(alloc, tokens)?;
    tokens.expect(Kind::Is)?;
    let mark = Name::read(alloc, tokens)?;
    let range = optional(alloc, tokens)?;
    let read = Declaration::Subtype {
        at,
        name,
        mark,
        range,
    };
    before(tokens, Kind::Semicolon, read)
}

// "constant" [mark] ":=" expr ";"
#[tactic(auto, unfolding(crate::specs::DeclarationRules::constant))]
fn constant(
    alloc: Global,
    tokens: &mut Cursor<'_>,
    names: Vec<Identifier>,
) -> Result<Declaration, ParseFault>
    ensures { Reads view.declaration_view (rules.constant (identifiers_view names.items) tokens.old) result tokens.new }
{
    tokens.expect(Kind::Constant)?;
    let mark = optional(alloc, tokens)?;
    tokens.expect(Kind::Becomes)?;
    let value = Expression::read(alloc, tokens)?;
    let read = Declaration::Constant { names, mark, value };
    before(tokens, Kind::Semicolon, read)
}

// mark ";"
#[tactic(auto, unfolding(crate::specs::DeclarationRules::variable))]
fn variable(
    alloc: Global,
    tokens: &mut Cursor<'_>,
    names: Vec<Identifier>,
) -> Result<Declaration, ParseFault>
    ensures { Reads view.declaration_view (rules.variable (identifiers_view names.items) tokens.old) result tokens.new }
{
    let mark = Name::read(alloc, tokens)?;
    before(
        tokens,
        Kind::Semicolon,
        Declaration::Variable { names, mark },
    )
}

// ids ":" (mark | "constant" [mark] ":=" expr) ";"
#[tactic(auto, unfolding(crate::specs::DeclarationRules::object))]
fn object(alloc: Global, tokens: &mut Cursor<'_>) -> Result<Declaration, ParseFault>
    ensures { Reads view.declaration_view (rules.object tokens.old) result tokens.new }
{
    let names = listed(alloc, tokens, Kind::Comma)?;
    tokens.expect(Kind::Colon)?;
    if tokens.sees(Kind::Constant) {
        constant(alloc, tokens, names)
    } else {
        variable(alloc, tokens, names)
    }
}

impl Phrase for Declaration {
    ghost Tree = { t.Declaration };

    ghost view = { view.declaration_view };

    ghost starts = { spec.starts_by rules.begins_declaration };

    ghost rule = { rules.declaration };

    #[tactic(auto, unfolding(crate::specs::Reading::starts_by, crate::specs::Reading::kind))]
    fn begins(tokens: &Cursor<'_>) -> bool {
        match tokens.kind() {
            Some(Kind::Pragma | Kind::Subtype | Kind::Protected | Kind::Task | Kind::Identifier) =>
                true,
            _ => false,
        }
    }

    #[tactic(auto, unfolding(crate::specs::DeclarationRules::declaration, crate::specs::Reading::kind))]
    fn read(alloc: Global, tokens: &mut Cursor<'_>) -> Result<Declaration, ParseFault> {
        match tokens.kind() {
            Some(Kind::Pragma) => Ok(Declaration::Pragma(Pragma::read(alloc, tokens)?)),
            Some(Kind::Subtype) => subtype(alloc, tokens),
            Some(Kind::Protected) => Ok(Declaration::Protected(ProtectedUnit::read(
                alloc, tokens,
            )?)),
            Some(Kind::Task) => Ok(Declaration::Task(TaskUnit::read(alloc, tokens)?)),
            Some(Kind::Identifier) => object(alloc, tokens),
            _ => Err(ParseFault::Unexpected(tokens.place())),
        }
    }
}
