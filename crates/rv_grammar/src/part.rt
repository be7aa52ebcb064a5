//! Parts of declarations: values, ranges, pragmas and aspects.

ghost use Rattle.std.specs.Prelude.{map};
ghost use Rattle.rv_lex.specs.declared.kind.Kind.TheVariants as k;
ghost use Rattle.rv_tree.specs.Expressions as e;
ghost use Rattle.rv_tree.specs.Declarations as t;
ghost use Rattle.rv_tree.specs.NameView.{identifier_view};
ghost use Rattle.rv_tree.specs.ExpressionView.{expression_view, range_view};
ghost use Rattle.rv_tree.specs.DeclarationView as view;
ghost use Rattle.rv_grammar.specs.Reading as spec;
ghost use Rattle.rv_grammar.specs.ExpressionRules.{begins_expression};
ghost use Rattle.rv_grammar.specs.DeclarationRules as rules;
ghost use Rattle.rv_grammar.specs.Contract.{Reads};

use crate::cursor::Cursor;
use crate::expression::{MAX_OPEN, expression};
use crate::fault::ParseFault;
use crate::held::Held;
use crate::phrase::{Phrase, enclosed, listed, optional_after};
use rv_lex::kind::Kind;
use rv_tree::{Aspect, Expression, Identifier, Pragma, PragmaArgument, RangeConstraint};
use std::alloc::Global;

impl Phrase for Expression {
    ghost Tree = { e.Expression };

    ghost view = { expression_view };

    ghost starts = { spec.starts_by begins_expression };

    ghost rule = { rules.any_expression };

    #[tactic(auto, unfolding(crate::specs::Reading::starts_by, crate::specs::Reading::kind))]
    fn begins(tokens: &Cursor<'_>) -> bool {
        match tokens.kind() {
            Some(
                Kind::Literal
                | Kind::Identifier
                | Kind::LeftParenthesis
                | Kind::Plus
                | Kind::Minus
                | Kind::Abs
                | Kind::Not,
            ) => true,
            _ => false,
        }
    }

    fn read(alloc: Global, tokens: &mut Cursor<'_>) -> Result<Expression, ParseFault> {
        expression(alloc, tokens, MAX_OPEN)
    }
}

// "range" expr ".." expr
impl Phrase for RangeConstraint {
    ghost Tree = { e.RangeConstraint };

    ghost view = { range_view };

    ghost starts = { spec.sees k.Range };

    ghost rule = { rules.range };

    fn begins(tokens: &Cursor<'_>) -> bool {
        tokens.sees(Kind::Range)
    }

    #[tactic(auto, unfolding(crate::specs::DeclarationRules::range))]
    fn read(alloc: Global, tokens: &mut Cursor<'_>) -> Result<RangeConstraint, ParseFault> {
        let at = tokens.expect(Kind::Range)?;
        let low = Held::new(Expression::read(alloc, tokens)?);
        tokens.expect(Kind::DoubleDot)?;
        let high = Expression::read(alloc, tokens)?;
        Ok(RangeConstraint {
            at,
            low: low.take(),
            high,
        })
    }
}

// [id "=>"]
#[tactic(auto, unfolding(crate::specs::DeclarationRules::argument_name))]
fn argument_name(alloc: Global, tokens: &mut Cursor<'_>) -> Result<Option<Identifier>, ParseFault>
    ensures { Reads (view.maybe identifier_view) (rules.argument_name tokens.old) result tokens.new }
{
    if tokens.sees(Kind::Identifier) && tokens.sees_second(Kind::Arrow) {
        let name = Identifier::read(alloc, tokens)?;
        tokens.expect(Kind::Arrow)?;
        return Ok(Some(name));
    }
    Ok(None)
}

// [id "=>"] expr, inside the parenthesis of the pragma
impl Phrase for PragmaArgument {
    ghost Tree = { t.PragmaArgument };

    ghost view = { view.pragma_argument_view };

    ghost starts = { spec.starts_by begins_expression };

    ghost rule = { rules.pragma_argument };

    fn begins(tokens: &Cursor<'_>) -> bool {
        Expression::begins(tokens)
    }

    #[tactic(auto, unfolding(crate::specs::DeclarationRules::pragma_argument))]
    fn read(alloc: Global, tokens: &mut Cursor<'_>) -> Result<PragmaArgument, ParseFault> {
        let name = argument_name(alloc, tokens)?;
        let value = expression(alloc, tokens, MAX_OPEN - 1)?;
        Ok(PragmaArgument { name, value })
    }
}

// "pragma" id ["(" parg {"," parg} ")"] ";"
impl Phrase for Pragma {
    ghost Tree = { t.Pragma };

    ghost view = { view.pragma_view };

    ghost starts = { spec.sees k.Pragma };

    ghost rule = { rules.a_pragma };

    fn begins(tokens: &Cursor<'_>) -> bool {
        tokens.sees(Kind::Pragma)
    }

    #[tactic(auto, unfolding(crate::specs::DeclarationRules::a_pragma))]
    fn read(alloc: Global, tokens: &mut Cursor<'_>) -> Result<Pragma, ParseFault> {
        let at = tokens.expect(Kind::Pragma)?;
        let name = Identifier::read(alloc, tokens)?;
        let arguments = enclosed(alloc, tokens, Kind::Comma)?;
        tokens.expect(Kind::Semicolon)?;
        Ok(Pragma {
            at,
            name,
            arguments,
        })
    }
}

// id ["=>" expr]
impl Phrase for Aspect {
    ghost Tree = { t.Aspect };

    ghost view = { view.aspect_view };

    ghost starts = { spec.sees k.Identifier };

    ghost rule = { rules.aspect };

    fn begins(tokens: &Cursor<'_>) -> bool {
        tokens.sees(Kind::Identifier)
    }

    #[tactic(auto, unfolding(crate::specs::DeclarationRules::aspect))]
    fn read(alloc: Global, tokens: &mut Cursor<'_>) -> Result<Aspect, ParseFault> {
        let name = Identifier::read(alloc, tokens)?;
        let value = optional_after(alloc, tokens, Kind::Arrow)?;
        Ok(Aspect { name, value })
    }
}

// ["with" aspect {"," aspect}]
#[tactic(auto, unfolding(crate::specs::DeclarationRules::aspects))]
pub(crate) fn aspects(alloc: Global, tokens: &mut Cursor<'_>) -> Result<Vec<Aspect>, ParseFault>
    ensures { Reads (λ v. map view.aspect_view v.items) (rules.aspects tokens.old) result tokens.new }
{
    if tokens.eat(Kind::With) {
        listed(alloc, tokens, Kind::Comma)
    } else {
        Ok(Vec::new(alloc))
    }
}
