//! How statements and declarations are closed.

ghost use Rattle.std.specs.Prelude.{◌≡◌, IfOk};
ghost use Rattle.rv_tree.specs.StatementView.{statement_view};
ghost use Rattle.rv_grammar.specs.Reading as reading;
ghost use Rattle.rv_grammar.specs.Closing as spec;
ghost use Rattle.rv_grammar.specs.Contract.{Reads};

use crate::cursor::Cursor;
use crate::fault::ParseFault;
use rv_lex::kind::Kind;
use rv_tree::Statement;

/// A token of that kind, behind what was read. Where it isn't there, what was read is let go here, by one call.
#[tactic(auto, using(crate::proofs::Lists::place_is), unfolding(crate::specs::Reading::expect))]
pub(crate) fn before<T: Drop>(tokens: &mut Cursor<'_>, what: Kind, read: T) -> Result<T, ParseFault>
    ensures same { IfOk result (λ t. t ≡ read) }
    ensures reads { Reads (λ _. reading.place tokens.old) (reading.expect what tokens.old) result tokens.new }
{
    tokens.expect(what)?;
    Ok(read)
}

/// `"end" word ";"`, behind what a statement holds.
pub(crate) fn closed(
    tokens: &mut Cursor<'_>,
    word: Kind,
    read: Statement,
) -> Result<Statement, ParseFault>
    ensures { Reads statement_view (spec.closed word (statement_view read) tokens.old) result tokens.new }
{
    let read = before(tokens, Kind::End, read)?;
    let read = before(tokens, word, read)?;
    before(tokens, Kind::Semicolon, read)
}
