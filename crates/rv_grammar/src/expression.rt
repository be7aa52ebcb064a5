//! Expressions. The rules that hold parentheses take the function that reads what stands inside as a field.

ghost use Rattle.std.specs.Prelude.{◌≡◌, ◌<◌, ℕ, List, [], ◌∷◌, ◌++◌, map, IsOk, OnOk};
ghost use Rattle.rv_tree.specs.Expressions as t;
ghost use Rattle.rv_tree.specs.ExpressionView.{expression_view, expressions_view, factors_view, terms_view};
ghost use Rattle.rv_grammar.specs.ExpressionRules as rules;
ghost use Rattle.rv_grammar.specs.Contract.{Reads, Refuses};
ghost use Rattle.rv_grammar.specs.Nests.{Nests};

use crate::cursor::Cursor;
use crate::fault::ParseFault;
use crate::held::Held;
use crate::operator::{adding, highest, joined, joining, multiplying, relational};
use crate::phrase::Phrase;
use rv_lex::kind::Kind;
use rv_tree::{
    AddingOperator, Expression, Factor, Identifier, LogicalOperator, MultiplyingOperator, Name,
    Term,
};
use std::alloc::{AllocError, Global};

/// How many parentheses may be open one inside another.
pub const MAX_OPEN: usize = 64;

/// The rules of an expression at a depth: `expression` reads one inside parentheses (4.4).
#[derive(Clone, Copy)]
pub struct Grammar<F> {
    pub alloc: Global,
    /// How many more parentheses may be open.
    pub depth: usize,
    pub expression: F,
}

/// An expression in which at most `depth` parentheses are open one inside another.
pub fn expression(
    alloc: Global,
    tokens: &mut Cursor<'_>,
    depth: usize,
) -> Result<Expression, ParseFault>
    ensures { Reads expression_view (rules.expression depth tokens.old) result tokens.new }
{
    Grammar {
        alloc,
        depth,
        expression,
    }
    .whole(tokens)
}

#[tactic(auto, unfolding(crate::specs::ExpressionRules::literal))]
fn literal(tokens: &mut Cursor<'_>) -> Expression
    ensures { rules.literal tokens.old ≡ Ok (expression_view result, tokens.new) }
{
    let found = Expression::Literal(tokens.at(), tokens.value());
    tokens.skip();
    found
}

// A parenthesis that would be one too many, or none.
#[tactic(auto, unfolding(crate::specs::ExpressionRules::opening))]
fn no_opening(tokens: &Cursor<'_>) -> ParseFault
    ensures { Refuses result (rules.opening 0 tokens.now) }
{
    if tokens.sees(Kind::LeftParenthesis) {
        ParseFault::TooDeep(tokens.place())
    } else {
        ParseFault::Unexpected(tokens.place())
    }
}

#[tactic(auto, using(crate::proofs::Views::push_factor_view))]
fn push_factor(
    found: &mut Vec<Factor>,
    operator: MultiplyingOperator,
    operand: Expression,
) -> Result<(), AllocError>
    ensures { OnOk result (factors_view found.new.items ≡ factors_view found.old.items ++ t.factor_by operator (expression_view operand) ∷ []) }
{
    found.push(Factor { operator, operand })?;
    Ok(())
}

#[tactic(auto, using(crate::proofs::Views::push_term_view))]
fn push_term(
    found: &mut Vec<Term>,
    operator: AddingOperator,
    operand: Expression,
) -> Result<(), AllocError>
    ensures { OnOk result (terms_view found.new.items ≡ terms_view found.old.items ++ t.term_by operator (expression_view operand) ∷ []) }
{
    found.push(Term { operator, operand })?;
    Ok(())
}

impl<F: Fn(Global, &mut Cursor<'_>, usize) -> Result<Expression, ParseFault>> Grammar<F> {
    // "(", of which so many may still be open
    fn opening(&self, tokens: &mut Cursor<'_>) -> Result<usize, ParseFault>
        ensures reads { Reads (λ (at : ℕ). at) (rules.opening self.now.depth tokens.old) result tokens.new }
        ensures some { IsOk result → 0 < self.now.depth }
    {
        if self.depth == 0 {
            return Err(no_opening(tokens));
        }
        tokens.expect(Kind::LeftParenthesis)
    }

    fn inside(&self, tokens: &mut Cursor<'_>) -> Result<Expression, ParseFault>
        requires some { 0 < self.now.depth }
        requires nests { Nests self.now.depth (F.pre self.now.expression) (F.post self.now.expression) }
        ensures { Reads expression_view (rules.inside self.now.depth tokens.old) result tokens.new }
    {
        (self.expression)(self.alloc, tokens, self.depth - 1)
    }

    // "(" expr {"," expr} ")"
    /// The arguments of a call or a conversion, in parentheses, at least one (6.4).
    pub fn arguments(&self, tokens: &mut Cursor<'_>) -> Result<Vec<Expression>, ParseFault>
        requires { Nests self.now.depth (F.pre self.now.expression) (F.post self.now.expression) }
        ensures { Reads (λ v. expressions_view v.items) (rules.arguments (rules.opening self.now.depth) (rules.inside self.now.depth) tokens.old) result tokens.new }
    {
        self.opening(tokens)?;
        let mut found = Vec::new(self.alloc);
        found.push(self.inside(tokens)?)?;
        'each: for _turn in 0..tokens.len() {
            if !tokens.eat(Kind::Comma) {
                tokens.expect(Kind::RightParenthesis)?;
                return Ok(found);
            }
            found.push(self.inside(tokens)?)?;
        }
        Err(ParseFault::Unexpected(tokens.place()))
    }

    // "(" expr ")"
    #[tactic(auto, unfolding(crate::specs::ExpressionRules::parenthesized))]
    fn parenthesized(&self, tokens: &mut Cursor<'_>) -> Result<Expression, ParseFault>
        requires { Nests self.now.depth (F.pre self.now.expression) (F.post self.now.expression) }
        ensures { Reads expression_view (rules.parenthesized (rules.opening self.now.depth) (rules.inside self.now.depth) tokens.old) result tokens.new }
    {
        let at = self.opening(tokens)?;
        let inner = Box::new(self.alloc, self.inside(tokens)?)?;
        tokens.expect(Kind::RightParenthesis)?;
        Ok(Expression::Parenthesized(at, inner))
    }

    // name | name "'" id | name args
    #[tactic(auto, unfolding(crate::specs::ExpressionRules::named))]
    fn named(&self, tokens: &mut Cursor<'_>) -> Result<Expression, ParseFault>
        requires { Nests self.now.depth (F.pre self.now.expression) (F.post self.now.expression) }
        ensures { Reads expression_view (rules.named (rules.opening self.now.depth) (rules.inside self.now.depth) tokens.old) result tokens.new }
    {
        let name = Name::read(self.alloc, tokens)?;
        if tokens.eat(Kind::Apostrophe) {
            let attribute = Identifier::read(self.alloc, tokens)?;
            return Ok(Expression::Attribute(name, attribute));
        }
        if tokens.sees(Kind::LeftParenthesis) {
            let arguments = self.arguments(tokens)?;
            return Ok(Expression::Call(name, arguments));
        }
        Ok(Expression::Name(name))
    }

    #[tactic(auto, unfolding(crate::specs::ExpressionRules::primary))]
    fn primary(&self, tokens: &mut Cursor<'_>) -> Result<Expression, ParseFault>
        requires { Nests self.now.depth (F.pre self.now.expression) (F.post self.now.expression) }
        ensures { Reads expression_view (rules.primary (rules.opening self.now.depth) (rules.inside self.now.depth) tokens.old) result tokens.new }
    {
        if tokens.sees(Kind::Literal) {
            Ok(literal(tokens))
        } else if tokens.sees(Kind::Identifier) {
            self.named(tokens)
        } else {
            self.parenthesized(tokens)
        }
    }

    // ["abs" | "not"] primary
    #[tactic(auto, unfolding(crate::specs::ExpressionRules::factor))]
    fn factor(&self, tokens: &mut Cursor<'_>) -> Result<Expression, ParseFault>
        requires { Nests self.now.depth (F.pre self.now.expression) (F.post self.now.expression) }
        ensures { Reads expression_view (rules.factor (rules.opening self.now.depth) (rules.inside self.now.depth) tokens.old) result tokens.new }
    {
        let Some(operator) = highest(tokens) else {
            return self.primary(tokens);
        };
        let at = tokens.at();
        tokens.skip();
        let operand = Box::new(self.alloc, self.primary(tokens)?)?;
        Ok(Expression::Highest(at, operator, operand))
    }

    // {multiplying factor}
    fn factors(&self, tokens: &mut Cursor<'_>) -> Result<Vec<Factor>, ParseFault>
        requires { Nests self.now.depth (F.pre self.now.expression) (F.post self.now.expression) }
        ensures { Reads (λ v. factors_view v.items) (rules.factors (rules.opening self.now.depth) (rules.inside self.now.depth) tokens.old) result tokens.new }
    {
        let mut found = Vec::new(self.alloc);
        'each: for _turn in 0..tokens.len() {
            let Some(operator) = multiplying(tokens) else {
                return Ok(found);
            };
            tokens.skip();
            let operand = self.factor(tokens)?;
            push_factor(&mut found, operator, operand)?;
        }
        Ok(found)
    }

    // factor {multiplying factor}
    #[tactic(auto, unfolding(crate::specs::ExpressionRules::term))]
    fn term(&self, tokens: &mut Cursor<'_>) -> Result<Expression, ParseFault>
        requires { Nests self.now.depth (F.pre self.now.expression) (F.post self.now.expression) }
        ensures { Reads expression_view (rules.term (rules.opening self.now.depth) (rules.inside self.now.depth) tokens.old) result tokens.new }
    {
        let first = self.factor(tokens)?;
        let held = Held::new(first);
        let more = self.factors(tokens)?;
        if more.is_empty() {
            return Ok(held.take());
        }
        Ok(Expression::Product(Box::new(self.alloc, held.take())?, more))
    }

    // [sign] term
    #[tactic(auto, unfolding(crate::specs::ExpressionRules::signed_term))]
    fn signed_term(&self, tokens: &mut Cursor<'_>) -> Result<Expression, ParseFault>
        requires { Nests self.now.depth (F.pre self.now.expression) (F.post self.now.expression) }
        ensures { Reads expression_view (rules.signed_term (rules.opening self.now.depth) (rules.inside self.now.depth) tokens.old) result tokens.new }
    {
        let Some(operator) = adding(tokens) else {
            return self.term(tokens);
        };
        let at = tokens.at();
        tokens.skip();
        let operand = Box::new(self.alloc, self.term(tokens)?)?;
        Ok(Expression::Signed(at, operator, operand))
    }

    // {adding term}
    fn terms(&self, tokens: &mut Cursor<'_>) -> Result<Vec<Term>, ParseFault>
        requires { Nests self.now.depth (F.pre self.now.expression) (F.post self.now.expression) }
        ensures { Reads (λ v. terms_view v.items) (rules.terms (rules.opening self.now.depth) (rules.inside self.now.depth) tokens.old) result tokens.new }
    {
        let mut found = Vec::new(self.alloc);
        'each: for _turn in 0..tokens.len() {
            let Some(operator) = adding(tokens) else {
                return Ok(found);
            };
            tokens.skip();
            let operand = self.term(tokens)?;
            push_term(&mut found, operator, operand)?;
        }
        Ok(found)
    }

    // [sign] term {adding term}
    #[tactic(auto, unfolding(crate::specs::ExpressionRules::simple))]
    fn simple(&self, tokens: &mut Cursor<'_>) -> Result<Expression, ParseFault>
        requires { Nests self.now.depth (F.pre self.now.expression) (F.post self.now.expression) }
        ensures { Reads expression_view (rules.simple (rules.opening self.now.depth) (rules.inside self.now.depth) tokens.old) result tokens.new }
    {
        let first = self.signed_term(tokens)?;
        let held = Held::new(first);
        let more = self.terms(tokens)?;
        if more.is_empty() {
            return Ok(held.take());
        }
        Ok(Expression::Sum(Box::new(self.alloc, held.take())?, more))
    }

    // simple [relational simple]
    #[tactic(auto, unfolding(crate::specs::ExpressionRules::relation))]
    fn relation(&self, tokens: &mut Cursor<'_>) -> Result<Expression, ParseFault>
        requires { Nests self.now.depth (F.pre self.now.expression) (F.post self.now.expression) }
        ensures { Reads expression_view (rules.relation (rules.opening self.now.depth) (rules.inside self.now.depth) tokens.old) result tokens.new }
    {
        let first = self.simple(tokens)?;
        let Some(operator) = relational(tokens) else {
            return Ok(first);
        };
        tokens.skip();
        let first = Box::new(self.alloc, first)?;
        let second = Box::new(self.alloc, self.simple(tokens)?)?;
        Ok(Expression::Relation(first, operator, second))
    }

    // rel {operator rel}
    fn relations(
        &self,
        tokens: &mut Cursor<'_>,
        operator: LogicalOperator,
    ) -> Result<Vec<Expression>, ParseFault>
        requires { Nests self.now.depth (F.pre self.now.expression) (F.post self.now.expression) }
        ensures { Reads (λ v. expressions_view v.items) (rules.relations (rules.opening self.now.depth) (rules.inside self.now.depth) operator tokens.old) result tokens.new }
    {
        let mut found = Vec::new(self.alloc);
        'each: for _turn in 0..tokens.len() {
            found.push(self.relation(tokens)?)?;
            if !joined(tokens, operator)? {
                return Ok(found);
            }
        }
        Err(ParseFault::Unexpected(tokens.place()))
    }

    /// A whole expression.
    #[tactic(auto, unfolding(crate::specs::ExpressionRules::whole))]
    pub fn whole(&self, tokens: &mut Cursor<'_>) -> Result<Expression, ParseFault>
        requires { Nests self.now.depth (F.pre self.now.expression) (F.post self.now.expression) }
        ensures { Reads expression_view (rules.whole (rules.opening self.now.depth) (rules.inside self.now.depth) tokens.old) result tokens.new }
    {
        let first = self.relation(tokens)?;
        let Some(operator) = joining(tokens) else {
            return Ok(first);
        };
        let first = Box::new(self.alloc, first)?;
        let more = self.relations(tokens, operator)?;
        Ok(Expression::Logical(operator, first, more))
    }
}
