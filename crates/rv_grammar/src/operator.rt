//! The operators of expressions.

ghost use Rattle.std.specs.Prelude.{◌≡◌, Ok, Option};
ghost use Rattle.rv_tree.specs.declared.expression.LogicalOperator.{LogicalOperator};
ghost use Rattle.rv_grammar.specs.Reading.{kind};
ghost use Rattle.rv_grammar.specs.ExpressionRules as rules;
ghost use Rattle.rv_grammar.specs.Contract.{Reads};

use crate::cursor::Cursor;
use crate::fault::ParseFault;
use rv_lex::kind::Kind;
use rv_tree::{
    AddingOperator, HighestOperator, LogicalOperator, MultiplyingOperator, RelationalOperator,
};

/// The relational operator that comes next.
#[tactic(auto, unfolding(crate::specs::ExpressionRules::operator))]
pub fn relational(tokens: &Cursor<'_>) -> Option<RelationalOperator>
    ensures { result ≡ rules.operator rules.relational_of tokens.now }
{
    match tokens.kind() {
        Some(Kind::Equal) => Some(RelationalOperator::Equal),
        Some(Kind::NotEqual) => Some(RelationalOperator::NotEqual),
        Some(Kind::Less) => Some(RelationalOperator::Less),
        Some(Kind::LessEqual) => Some(RelationalOperator::LessEqual),
        Some(Kind::Greater) => Some(RelationalOperator::Greater),
        Some(Kind::GreaterEqual) => Some(RelationalOperator::GreaterEqual),
        _ => None,
    }
}

/// The sign, or the binary adding operator, that comes next.
#[tactic(auto, unfolding(crate::specs::ExpressionRules::operator))]
pub fn adding(tokens: &Cursor<'_>) -> Option<AddingOperator>
    ensures { result ≡ rules.operator rules.adding_of tokens.now }
{
    match tokens.kind() {
        Some(Kind::Plus) => Some(AddingOperator::Plus),
        Some(Kind::Minus) => Some(AddingOperator::Minus),
        _ => None,
    }
}

/// The multiplying operator that comes next.
#[tactic(auto, unfolding(crate::specs::ExpressionRules::operator))]
pub fn multiplying(tokens: &Cursor<'_>) -> Option<MultiplyingOperator>
    ensures { result ≡ rules.operator rules.multiplying_of tokens.now }
{
    match tokens.kind() {
        Some(Kind::Times) => Some(MultiplyingOperator::Times),
        Some(Kind::Divide) => Some(MultiplyingOperator::Divide),
        Some(Kind::Mod) => Some(MultiplyingOperator::Mod),
        Some(Kind::Rem) => Some(MultiplyingOperator::Rem),
        _ => None,
    }
}

/// `abs` or `not`, if it comes next.
#[tactic(auto, unfolding(crate::specs::ExpressionRules::operator))]
pub fn highest(tokens: &Cursor<'_>) -> Option<HighestOperator>
    ensures { result ≡ rules.operator rules.highest_of tokens.now }
{
    match tokens.kind() {
        Some(Kind::Abs) => Some(HighestOperator::Abs),
        Some(Kind::Not) => Some(HighestOperator::Not),
        _ => None,
    }
}

/// Takes the logical operator or short-circuit form that comes next.
#[tactic(auto, unfolding(crate::specs::ExpressionRules::joining))]
pub fn joining(tokens: &mut Cursor<'_>) -> Option<LogicalOperator>
    ensures { rules.joining tokens.old ≡ Ok (result, tokens.new) }
{
    if tokens.eat(Kind::And) {
        if tokens.eat(Kind::Then) {
            Some(LogicalOperator::AndThen)
        } else {
            Some(LogicalOperator::And)
        }
    } else if tokens.eat(Kind::Or) {
        if tokens.eat(Kind::Else) {
            Some(LogicalOperator::OrElse)
        } else {
            Some(LogicalOperator::Or)
        }
    } else if tokens.eat(Kind::Xor) {
        Some(LogicalOperator::Xor)
    } else {
        None
    }
}

#[tactic(auto, unfolding(crate::specs::ExpressionRules::both_words))]
fn both_words(tokens: &mut Cursor<'_>, first: Kind, second: Kind) -> Result<bool, ParseFault>
    ensures { Reads (λ b. b) (rules.both_words first second tokens.old) result tokens.new }
{
    if !tokens.eat(first) {
        return Ok(false);
    }
    tokens.expect(second)?;
    Ok(true)
}

/// Whether the operator comes next, which is then taken.
pub fn joined(tokens: &mut Cursor<'_>, operator: LogicalOperator) -> Result<bool, ParseFault>
    ensures { Reads (λ b. b) (rules.joined operator tokens.old) result tokens.new }
{
    match operator {
        LogicalOperator::And => Ok(tokens.eat(Kind::And)),
        LogicalOperator::Or => Ok(tokens.eat(Kind::Or)),
        LogicalOperator::Xor => Ok(tokens.eat(Kind::Xor)),
        LogicalOperator::AndThen => both_words(tokens, Kind::And, Kind::Then),
        LogicalOperator::OrElse => both_words(tokens, Kind::Or, Kind::Else),
    }
}
