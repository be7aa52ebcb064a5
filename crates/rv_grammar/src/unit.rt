//! Units: all the words of a text.

ghost use Rattle.std.specs.Prelude.{◌≡◌, [], map, IfOk};
ghost use Rattle.rv_tree.specs.Units as t;
ghost use Rattle.rv_tree.specs.UnitView as view;
ghost use Rattle.rv_tree.specs.UnitGrammar.{IsUnit};
ghost use Rattle.rv_lex.specs.Lexes.{lexemes};
ghost use Rattle.rv_grammar.specs.Words.{ReadsTree, HasWords, DeepWords};
ghost use Rattle.rv_grammar.specs.Reading as spec;
ghost use Rattle.rv_grammar.specs.DeclarationRules.{begins_declaration};
ghost use Rattle.rv_grammar.specs.UnitRules as rules;
ghost use Rattle.rv_grammar.specs.Contract.{Reads};

use crate::body::{protected_body, task_body};
use crate::cursor::Cursor;
use crate::fault::ParseFault;
use crate::name::end_name;
use crate::phrase::{Phrase, listed, many};
use rv_lex::kind::Kind;
use rv_lex::token::Token;
use rv_tree::{
    BodyItem, ContextItem, Declaration, Identifier, PackageBody, PackageSpecification, Pragma,
    UnitTree,
};
use std::alloc::Global;

// "with" name {"," name} ";"
#[tactic(auto, unfolding(crate::specs::UnitRules::with_clause))]
fn with_clause(alloc: Global, tokens: &mut Cursor<'_>) -> Result<ContextItem, ParseFault>
    ensures { Reads view.context_item_view (rules.with_clause tokens.old) result tokens.new }
{
    let at = tokens.expect(Kind::With)?;
    let names = listed(alloc, tokens, Kind::Comma)?;
    tokens.expect(Kind::Semicolon)?;
    Ok(ContextItem::With(at, names))
}

// "use" ["type"] name {"," name} ";"
#[tactic(auto, unfolding(crate::specs::UnitRules::use_clause))]
fn use_clause(alloc: Global, tokens: &mut Cursor<'_>) -> Result<ContextItem, ParseFault>
    ensures { Reads view.context_item_view (rules.use_clause tokens.old) result tokens.new }
{
    let at = tokens.expect(Kind::Use)?;
    let is_type = tokens.eat(Kind::Type);
    let names = listed(alloc, tokens, Kind::Comma)?;
    tokens.expect(Kind::Semicolon)?;
    Ok(ContextItem::Use { at, is_type, names })
}

// pragma | context
impl Phrase for ContextItem {
    ghost Tree = { t.ContextItem };

    ghost view = { view.context_item_view };

    ghost starts = { spec.starts_by rules.begins_context_item };

    ghost rule = { rules.context_item };

    #[tactic(auto, unfolding(crate::specs::Reading::starts_by, crate::specs::Reading::kind))]
    fn begins(tokens: &Cursor<'_>) -> bool {
        match tokens.kind() {
            Some(Kind::Pragma | Kind::With | Kind::Use) => true,
            _ => false,
        }
    }

    #[tactic(auto, unfolding(crate::specs::UnitRules::context_item, crate::specs::Reading::kind))]
    fn read(alloc: Global, tokens: &mut Cursor<'_>) -> Result<ContextItem, ParseFault> {
        match tokens.kind() {
            Some(Kind::Pragma) => Ok(ContextItem::Pragma(Pragma::read(alloc, tokens)?)),
            Some(Kind::With) => with_clause(alloc, tokens),
            Some(Kind::Use) => use_clause(alloc, tokens),
            _ => Err(ParseFault::Unexpected(tokens.place())),
        }
    }
}

// "package" id "is" {decl} "end" [id] ";"
#[tactic(auto, unfolding(crate::specs::UnitRules::specification))]
fn specification(alloc: Global, tokens: &mut Cursor<'_>) -> Result<PackageSpecification, ParseFault>
    ensures { Reads view.specification_view (rules.specification tokens.old) result tokens.new }
{
    let at = tokens.expect(Kind::Package)?;
    let name = Identifier::read(alloc, tokens)?;
    tokens.expect(Kind::Is)?;
    let declarations = many(alloc, tokens)?;
    let end_name = end_name(alloc, tokens)?;
    Ok(PackageSpecification {
        at,
        name,
        declarations,
        end_name,
    })
}

// decl | pbody | tbody
impl Phrase for BodyItem {
    ghost Tree = { t.BodyItem };

    ghost view = { view.body_item_view };

    ghost starts = { spec.starts_by begins_declaration };

    ghost rule = { rules.body_item };

    fn begins(tokens: &Cursor<'_>) -> bool {
        Declaration::begins(tokens)
    }

    #[tactic(auto, unfolding(crate::specs::UnitRules::body_item))]
    fn read(alloc: Global, tokens: &mut Cursor<'_>) -> Result<BodyItem, ParseFault> {
        if tokens.sees_second(Kind::Body) {
            if tokens.sees(Kind::Protected) {
                return Ok(BodyItem::Protected(protected_body(alloc, tokens)?));
            }
            if tokens.sees(Kind::Task) {
                return Ok(BodyItem::Task(task_body(alloc, tokens)?));
            }
        }
        Ok(BodyItem::Declaration(Declaration::read(alloc, tokens)?))
    }
}

// "package" "body" id "is" {decl | pbody | tbody} "end" [id] ";"
#[tactic(auto, unfolding(crate::specs::UnitRules::body, crate::specs::BodyRules::body_of))]
fn body(alloc: Global, tokens: &mut Cursor<'_>) -> Result<PackageBody, ParseFault>
    ensures { Reads view.body_view (rules.body tokens.old) result tokens.new }
{
    let at = tokens.expect(Kind::Package)?;
    tokens.expect(Kind::Body)?;
    let name = Identifier::read(alloc, tokens)?;
    tokens.expect(Kind::Is)?;
    let items = many(alloc, tokens)?;
    let end_name = end_name(alloc, tokens)?;
    Ok(PackageBody {
        at,
        name,
        items,
        end_name,
    })
}

// {pragma | context} spec body
#[tactic(auto, unfolding(crate::specs::UnitRules::unit))]
fn unit(alloc: Global, tokens: &mut Cursor<'_>) -> Result<UnitTree, ParseFault>
    ensures { Reads view.unit_view (rules.unit tokens.old) result tokens.new }
{
    let context = many(alloc, tokens)?;
    let specification = specification(alloc, tokens)?;
    let body = body(alloc, tokens)?;
    Ok(UnitTree {
        context,
        specification,
        body,
    })
}

/// The one tree that all the words of a text of that length derive.
///
/// # Errors
/// `Unexpected` names the first token after which no text of the grammar can go on, `TooDeep` the 65th statement or
/// parenthesis that is open: of the two the one that comes first.
pub fn read_words(alloc: Global, words: &[Token<'_>], end: usize) -> Result<UnitTree, ParseFault>
    ensures sound { IfOk result (λ tree. IsUnit (view.unit_view tree) (lexemes words.now) []) }
    ensures complete { (tree : t.UnitTree) → IsUnit tree (lexemes words.now) [] → ReadsTree tree result }
    ensures words { HasWords result }
    ensures deep { DeepWords (lexemes words.now) result }
{
    let mut cursor = Cursor::new(words, end);
    let tree = unit(alloc, &mut cursor)?;
    if cursor.len() != 0 {
        return Err(ParseFault::Unexpected(cursor.place()));
    }
    Ok(tree)
}
