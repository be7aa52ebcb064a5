//! What the rules of the grammar have in common: phrases, and lists of them.

ghost use Rattle.std.specs.Prelude.{◌≡◌, ℕ, List, Bool, Option, [], ◌∷◌, ◌++◌, map, Ok};
ghost use Rattle.rv_lex.specs.Lexes.{Lexeme};
ghost use Rattle.rv_tree.specs.DeclarationView.{maybe};
ghost use Rattle.rv_grammar.specs.Reading as spec;
ghost use Rattle.rv_grammar.specs.Contract.{Reads};

use crate::cursor::Cursor;
use crate::fault::ParseFault;
use rv_lex::kind::Kind;
use std::alloc::Global;

/// What one rule of the grammar reads.
pub trait Phrase: Drop {
    // The tree that a value stands for.
    ghost Tree: { Type 0 };

    ghost view: { Self → Tree };

    // Whether one begins here, where it may also be left out.
    ghost starts: { List Lexeme → Bool };

    ghost rule: { List Lexeme → spec.Outcome Tree };

    /// Whether the next tokens begin one, where it may also be left out.
    fn begins(tokens: &Cursor<'_>) -> bool
        ensures { result ≡ starts tokens.now };

    /// Reads one.
    fn read(alloc: Global, tokens: &mut Cursor<'_>) -> Result<Self, ParseFault>
        ensures { Reads view (rule tokens.old) result tokens.new };
}

/// `{x}`, behind those that were found.
pub fn more<P: Phrase>(
    alloc: Global,
    tokens: &mut Cursor<'_>,
    mut found: Vec<P>,
) -> Result<Vec<P>, ParseFault>
    ensures { Reads (λ v. map P.view v.items) (spec.more_of P.starts P.rule (map P.view found.items) tokens.old) result tokens.new }
{
    'each: for _turn in 0..tokens.len() {
        if !P::begins(tokens) {
            return Ok(found);
        }
        found.push(P::read(alloc, tokens)?)?;
    }
    Ok(found)
}

/// `{between x}`, behind those that were found.
pub fn more_after<P: Phrase>(
    alloc: Global,
    tokens: &mut Cursor<'_>,
    between: Kind,
    mut found: Vec<P>,
) -> Result<Vec<P>, ParseFault>
    ensures { Reads (λ v. map P.view v.items) (spec.more_after between P.rule (map P.view found.items) tokens.old) result tokens.new }
{
    'each: for _turn in 0..tokens.len() {
        if !tokens.eat(between) {
            return Ok(found);
        }
        found.push(P::read(alloc, tokens)?)?;
    }
    Ok(found)
}

/// `{x}`: as many as there are.
#[tactic(auto, unfolding(crate::specs::Reading::many))]
pub fn many<P: Phrase>(alloc: Global, tokens: &mut Cursor<'_>) -> Result<Vec<P>, ParseFault>
    ensures { Reads (λ v. map P.view v.items) (spec.many P.starts P.rule tokens.old) result tokens.new }
{
    more(alloc, tokens, Vec::new(alloc))
}

/// `x {x}`.
#[tactic(auto, unfolding(crate::specs::Reading::at_least_one))]
pub fn at_least_one<P: Phrase>(alloc: Global, tokens: &mut Cursor<'_>) -> Result<Vec<P>, ParseFault>
    ensures { Reads (λ v. map P.view v.items) (spec.at_least_one P.starts P.rule tokens.old) result tokens.new }
{
    let mut found = Vec::new(alloc);
    found.push(P::read(alloc, tokens)?)?;
    more(alloc, tokens, found)
}

/// `x {between x}`.
#[tactic(auto, unfolding(crate::specs::Reading::listed))]
pub fn listed<P: Phrase>(
    alloc: Global,
    tokens: &mut Cursor<'_>,
    between: Kind,
) -> Result<Vec<P>, ParseFault>
    ensures { Reads (λ v. map P.view v.items) (spec.listed between P.rule tokens.old) result tokens.new }
{
    let mut found = Vec::new(alloc);
    found.push(P::read(alloc, tokens)?)?;
    more_after(alloc, tokens, between, found)
}

/// `["(" x {between x} ")"]`, with no items where it is not there.
#[tactic(auto, unfolding(crate::specs::Reading::enclosed))]
pub fn enclosed<P: Phrase>(
    alloc: Global,
    tokens: &mut Cursor<'_>,
    between: Kind,
) -> Result<Vec<P>, ParseFault>
    ensures { Reads (λ v. map P.view v.items) (spec.enclosed between P.rule tokens.old) result tokens.new }
{
    if !tokens.eat(Kind::LeftParenthesis) {
        return Ok(Vec::new(alloc));
    }
    let found = listed(alloc, tokens, between)?;
    tokens.expect(Kind::RightParenthesis)?;
    Ok(found)
}

/// `[x]`.
#[tactic(auto, unfolding(crate::specs::Reading::optional))]
pub fn optional<P: Phrase>(alloc: Global, tokens: &mut Cursor<'_>) -> Result<Option<P>, ParseFault>
    ensures { Reads (maybe P.view) (spec.optional P.starts P.rule tokens.old) result tokens.new }
{
    if P::begins(tokens) {
        Ok(Some(P::read(alloc, tokens)?))
    } else {
        Ok(None)
    }
}

/// `[word x]`.
#[tactic(auto, unfolding(crate::specs::Reading::optional_after))]
pub fn optional_after<P: Phrase>(
    alloc: Global,
    tokens: &mut Cursor<'_>,
    word: Kind,
) -> Result<Option<P>, ParseFault>
    ensures { Reads (maybe P.view) (spec.optional_after word P.rule tokens.old) result tokens.new }
{
    if tokens.eat(word) {
        Ok(Some(P::read(alloc, tokens)?))
    } else {
        Ok(None)
    }
}
