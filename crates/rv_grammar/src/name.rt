//! Identifiers and names.

ghost use Rattle.std.specs.Prelude.{◌≡◌, map};
ghost use Rattle.rv_lex.specs.Lexes.{Lexeme};
ghost use Rattle.rv_lex.specs.declared.kind.Kind.TheVariants as k;
ghost use Rattle.rv_tree.specs.Names as t;
ghost use Rattle.rv_tree.specs.NameView.{identifier_view, name_view};
ghost use Rattle.rv_tree.specs.DeclarationView.{maybe};
ghost use Rattle.rv_grammar.specs.Reading as spec;
ghost use Rattle.rv_grammar.specs.NameRules as rules;
ghost use Rattle.rv_grammar.specs.Contract.{Reads};

use crate::cursor::Cursor;
use crate::fault::ParseFault;
use crate::phrase::{Phrase, more_after, optional};
use rv_lex::kind::Kind;
use rv_tree::{Identifier, Name};
use std::alloc::Global;

impl Phrase for Identifier {
    ghost Tree = { t.Identifier };

    ghost view = { identifier_view };

    ghost starts = { spec.sees k.Identifier };

    ghost rule = { rules.identifier };

    fn begins(tokens: &Cursor<'_>) -> bool {
        tokens.sees(Kind::Identifier)
    }

    #[tactic(auto, unfolding(crate::specs::NameRules::identifier))]
    fn read(alloc: Global, tokens: &mut Cursor<'_>) -> Result<Identifier, ParseFault> {
        if !tokens.sees(Kind::Identifier) {
            return Err(ParseFault::Unexpected(tokens.place()));
        }
        let found = Identifier {
            at: tokens.at(),
            text: String::from_str(alloc, tokens.text())?,
        };
        tokens.skip();
        Ok(found)
    }
}

// id {"." id}
impl Phrase for Name {
    ghost Tree = { t.Name };

    ghost view = { name_view };

    ghost starts = { spec.sees k.Identifier };

    ghost rule = { rules.name };

    fn begins(tokens: &Cursor<'_>) -> bool {
        tokens.sees(Kind::Identifier)
    }

    #[tactic(auto, unfolding(crate::specs::NameRules::name))]
    fn read(alloc: Global, tokens: &mut Cursor<'_>) -> Result<Name, ParseFault> {
        let first = Identifier::read(alloc, tokens)?;
        let more = more_after(alloc, tokens, Kind::Dot, Vec::new(alloc))?;
        Ok(Name { first, more })
    }
}

/// `"end" [id] ";"`.
#[tactic(auto, unfolding(crate::specs::NameRules::end_name))]
pub fn end_name(alloc: Global, tokens: &mut Cursor<'_>) -> Result<Option<Identifier>, ParseFault>
    ensures { Reads (maybe identifier_view) (rules.end_name tokens.old) result tokens.new }
{
    tokens.expect(Kind::End)?;
    let name = optional(alloc, tokens)?;
    tokens.expect(Kind::Semicolon)?;
    Ok(name)
}
