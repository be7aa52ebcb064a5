//! Statements that hold no others, and the parts of the others that do not.

ghost use Rattle.std.specs.Prelude.{◌≡◌, ℕ, List, [], ◌∷◌, map, Ok};
ghost use Rattle.rv_lex.specs.declared.kind.Kind.TheVariants as k;
ghost use Rattle.rv_tree.specs.Statements as t;
ghost use Rattle.rv_tree.specs.NameView.{name_view};
ghost use Rattle.rv_tree.specs.ExpressionView.{expression_view, expressions_view};
ghost use Rattle.rv_tree.specs.StatementView as view;
ghost use Rattle.rv_grammar.specs.Reading as spec;
ghost use Rattle.rv_grammar.specs.ExpressionRules.{begins_expression};
ghost use Rattle.rv_grammar.specs.StatementRules as rules;
ghost use Rattle.rv_grammar.specs.Contract.{Reads};

use crate::closing::before;
use crate::cursor::Cursor;
use crate::expression::{Grammar, MAX_OPEN, expression};
use crate::fault::ParseFault;
use crate::held::Held;
use crate::phrase::{Phrase, listed, optional, optional_after};
use rv_lex::kind::Kind;
use rv_tree::{
    Choice, Expression, Guard, Identifier, Iteration, LoopBounds, Name, RangeConstraint, Statement,
};
use std::alloc::Global;

// "others" | expr [".." expr]
impl Phrase for Choice {
    ghost Tree = { t.Choice };

    ghost view = { view.choice_view };

    ghost starts = { rules.sees_choice };

    ghost rule = { rules.choice };

    fn begins(tokens: &Cursor<'_>) -> bool {
        tokens.sees(Kind::Others) || Expression::begins(tokens)
    }

    #[tactic(auto, unfolding(crate::specs::StatementRules::choice))]
    fn read(alloc: Global, tokens: &mut Cursor<'_>) -> Result<Choice, ParseFault> {
        if tokens.sees(Kind::Others) {
            return Ok(Choice::Others(tokens.expect(Kind::Others)?));
        }
        let low = Held::new(Expression::read(alloc, tokens)?);
        if !tokens.eat(Kind::DoubleDot) {
            return Ok(Choice::Value(low.take()));
        }
        let high = Expression::read(alloc, tokens)?;
        Ok(Choice::Range(low.take(), high))
    }
}

// [".." expr], behind an expression
fn bounds_from(
    alloc: Global,
    tokens: &mut Cursor<'_>,
    low: Expression,
) -> Result<LoopBounds, ParseFault>
    ensures { Reads view.bounds_view (rules.two_from (expression_view low) tokens.old) result tokens.new }
{
    if !tokens.eat(Kind::DoubleDot) {
        return Ok(LoopBounds::Whole(low));
    }
    let low = Held::new(low);
    let high = Expression::read(alloc, tokens)?;
    Ok(LoopBounds::Between(low.take(), high))
}

// expr [".." expr] | name range
#[tactic(auto, unfolding(crate::specs::StatementRules::bounds))]
fn bounds(alloc: Global, tokens: &mut Cursor<'_>) -> Result<LoopBounds, ParseFault>
    ensures { Reads view.bounds_view (rules.bounds tokens.old) result tokens.new }
{
    match Expression::read(alloc, tokens)? {
        Expression::Name(mark) => {
            if tokens.sees(Kind::Range) {
                let range = RangeConstraint::read(alloc, tokens)?;
                return Ok(LoopBounds::Constrained(mark, range));
            }
            bounds_from(alloc, tokens, Expression::Name(mark))
        }
        low => bounds_from(alloc, tokens, low),
    }
}

// id "in" ["reverse"] bounds "loop"
#[tactic(auto, unfolding(crate::specs::StatementRules::for_loop))]
fn for_loop(alloc: Global, tokens: &mut Cursor<'_>) -> Result<Iteration, ParseFault>
    ensures { Reads view.iteration_view (rules.for_loop tokens.old) result tokens.new }
{
    let parameter = Identifier::read(alloc, tokens)?;
    tokens.expect(Kind::In)?;
    let is_reverse = tokens.eat(Kind::Reverse);
    let bounds = bounds(alloc, tokens)?;
    let read = Iteration::For {
        parameter,
        is_reverse,
        bounds,
    };
    before(tokens, Kind::Loop, read)
}

/// `["while" expr | "for" id "in" ["reverse"] bounds] "loop"`.
#[tactic(auto, unfolding(crate::specs::StatementRules::iteration, crate::specs::StatementRules::while_loop))]
pub fn iteration(alloc: Global, tokens: &mut Cursor<'_>) -> Result<Iteration, ParseFault>
    ensures { Reads view.iteration_view (rules.iteration tokens.old) result tokens.new }
{
    if tokens.eat(Kind::While) {
        let condition = Expression::read(alloc, tokens)?;
        return before(tokens, Kind::Loop, Iteration::While(condition));
    }
    if tokens.eat(Kind::For) {
        return for_loop(alloc, tokens);
    }
    tokens.expect(Kind::Loop)?;
    Ok(Iteration::Forever)
}

#[tactic(auto, unfolding(crate::specs::StatementRules::null_statement))]
fn null_statement(tokens: &mut Cursor<'_>) -> Result<Statement, ParseFault>
    ensures { Reads view.statement_view (rules.null_statement tokens.old) result tokens.new }
{
    let at = tokens.expect(Kind::Null)?;
    tokens.expect(Kind::Semicolon)?;
    Ok(Statement::Null(at))
}

// [args]
#[tactic(auto, unfolding(crate::specs::StatementRules::call_arguments))]
fn call_arguments(alloc: Global, tokens: &mut Cursor<'_>) -> Result<Vec<Expression>, ParseFault>
    ensures { Reads (λ v. expressions_view v.items) (rules.call_arguments tokens.old) result tokens.new }
{
    if !tokens.sees(Kind::LeftParenthesis) {
        return Ok(Vec::new(alloc));
    }
    Grammar {
        alloc,
        depth: MAX_OPEN,
        expression,
    }
    .arguments(tokens)
}

// name (":=" expr | [args]) ";"
#[tactic(auto, unfolding(crate::specs::StatementRules::named_statement))]
fn named_statement(alloc: Global, tokens: &mut Cursor<'_>) -> Result<Statement, ParseFault>
    ensures { Reads view.statement_view (rules.named_statement tokens.old) result tokens.new }
{
    let name = Name::read(alloc, tokens)?;
    if tokens.eat(Kind::Becomes) {
        let value = Expression::read(alloc, tokens)?;
        return before(tokens, Kind::Semicolon, Statement::Assignment(name, value));
    }
    let arguments = call_arguments(alloc, tokens)?;
    before(tokens, Kind::Semicolon, Statement::Call(name, arguments))
}

#[tactic(auto, unfolding(crate::specs::StatementRules::exit_statement))]
fn exit_statement(alloc: Global, tokens: &mut Cursor<'_>) -> Result<Statement, ParseFault>
    ensures { Reads view.statement_view (rules.exit_statement tokens.old) result tokens.new }
{
    let at = tokens.expect(Kind::Exit)?;
    let condition = optional_after(alloc, tokens, Kind::When)?;
    before(tokens, Kind::Semicolon, Statement::Exit(at, condition))
}

#[tactic(auto, unfolding(crate::specs::StatementRules::return_statement))]
fn return_statement(alloc: Global, tokens: &mut Cursor<'_>) -> Result<Statement, ParseFault>
    ensures { Reads view.statement_view (rules.return_statement tokens.old) result tokens.new }
{
    let at = tokens.expect(Kind::Return)?;
    let value = optional(alloc, tokens)?;
    before(tokens, Kind::Semicolon, Statement::Return(at, value))
}

#[tactic(auto, unfolding(crate::specs::StatementRules::raise_statement))]
fn raise_statement(alloc: Global, tokens: &mut Cursor<'_>) -> Result<Statement, ParseFault>
    ensures { Reads view.statement_view (rules.raise_statement tokens.old) result tokens.new }
{
    let at = tokens.expect(Kind::Raise)?;
    let exception = optional(alloc, tokens)?;
    before(tokens, Kind::Semicolon, Statement::Raise(at, exception))
}

#[tactic(auto, unfolding(crate::specs::StatementRules::delay_statement))]
fn delay_statement(alloc: Global, tokens: &mut Cursor<'_>) -> Result<Statement, ParseFault>
    ensures { Reads view.statement_view (rules.delay_statement tokens.old) result tokens.new }
{
    let at = tokens.expect(Kind::Delay)?;
    let is_until = tokens.eat(Kind::Until);
    let time = Expression::read(alloc, tokens)?;
    before(
        tokens,
        Kind::Semicolon,
        Statement::Delay { at, is_until, time },
    )
}

#[tactic(auto, unfolding(crate::specs::StatementRules::abort_statement))]
fn abort_statement(alloc: Global, tokens: &mut Cursor<'_>) -> Result<Statement, ParseFault>
    ensures { Reads view.statement_view (rules.abort_statement tokens.old) result tokens.new }
{
    let at = tokens.expect(Kind::Abort)?;
    let names = listed(alloc, tokens, Kind::Comma)?;
    before(tokens, Kind::Semicolon, Statement::Abort(at, names))
}

// ["with" "abort"]
#[tactic(auto, unfolding(crate::specs::StatementRules::with_abort))]
fn with_abort(tokens: &mut Cursor<'_>) -> Result<bool, ParseFault>
    ensures { Reads (λ b. b) (rules.with_abort tokens.old) result tokens.new }
{
    if !tokens.eat(Kind::With) {
        return Ok(false);
    }
    tokens.expect(Kind::Abort)?;
    Ok(true)
}

#[tactic(auto, unfolding(crate::specs::StatementRules::requeue_statement))]
fn requeue_statement(alloc: Global, tokens: &mut Cursor<'_>) -> Result<Statement, ParseFault>
    ensures { Reads view.statement_view (rules.requeue_statement tokens.old) result tokens.new }
{
    let at = tokens.expect(Kind::Requeue)?;
    let target = Name::read(alloc, tokens)?;
    let with_abort = with_abort(tokens)?;
    let read = Statement::Requeue {
        at,
        target,
        with_abort,
    };
    before(tokens, Kind::Semicolon, read)
}

/// A statement that holds no others.
#[tactic(auto, unfolding(crate::specs::StatementRules::simple_statement, crate::specs::Reading::kind))]
pub fn simple_statement(alloc: Global, tokens: &mut Cursor<'_>) -> Result<Statement, ParseFault>
    ensures { Reads view.statement_view (rules.simple_statement tokens.old) result tokens.new }
{
    match tokens.kind() {
        Some(Kind::Identifier) => named_statement(alloc, tokens),
        Some(Kind::Null) => null_statement(tokens),
        Some(Kind::Exit) => exit_statement(alloc, tokens),
        Some(Kind::Return) => return_statement(alloc, tokens),
        Some(Kind::Raise) => raise_statement(alloc, tokens),
        Some(Kind::Delay) => delay_statement(alloc, tokens),
        Some(Kind::Abort) => abort_statement(alloc, tokens),
        Some(Kind::Requeue) => requeue_statement(alloc, tokens),
        _ => Err(ParseFault::Unexpected(tokens.place())),
    }
}

// "when" expr "=>"
impl Phrase for Guard {
    ghost Tree = { t.Guard };

    ghost view = { view.guard_view };

    ghost starts = { spec.sees k.When };

    ghost rule = { rules.guard };

    fn begins(tokens: &Cursor<'_>) -> bool {
        tokens.sees(Kind::When)
    }

    #[tactic(auto, unfolding(crate::specs::StatementRules::guard))]
    fn read(alloc: Global, tokens: &mut Cursor<'_>) -> Result<Guard, ParseFault> {
        let at = tokens.expect(Kind::When)?;
        let condition = Expression::read(alloc, tokens)?;
        before(tokens, Kind::Arrow, Guard { at, condition })
    }
}
