//! Declarations of protected units and of tasks.

ghost use Rattle.std.specs.Prelude.{map};
ghost use Rattle.rv_lex.specs.declared.kind.Kind.TheVariants as k;
ghost use Rattle.rv_tree.specs.Declarations as t;
ghost use Rattle.rv_tree.specs.DeclarationView as view;
ghost use Rattle.rv_grammar.specs.Reading as spec;
ghost use Rattle.rv_grammar.specs.DeclarationRules as rules;
ghost use Rattle.rv_grammar.specs.Contract.{Reads};

use crate::closing::before;
use crate::cursor::Cursor;
use crate::fault::ParseFault;
use crate::held::Held;
use crate::name::end_name;
use crate::part::aspects;
use crate::phrase::{Phrase, listed, many, optional, optional_after};
use rv_lex::kind::Kind;
use rv_tree::{
    EntryDeclaration, Identifier, Name, OperationDeclaration, Pragma, ProtectedElement,
    ProtectedUnit, TaskDefinition, TaskItem, TaskUnit,
};
use std::alloc::Global;

// ids ":" mark [range] [":=" expr] ";"
#[tactic(auto, unfolding(crate::specs::DeclarationRules::component))]
fn component(alloc: Global, tokens: &mut Cursor<'_>) -> Result<ProtectedElement, ParseFault>
    ensures { Reads view.element_view (rules.component tokens.old) result tokens.new }
{
    let names = listed(alloc, tokens, Kind::Comma)?;
    tokens.expect(Kind::Colon)?;
    let mark = Name::read(alloc, tokens)?;
    let range = Held::new(optional(alloc, tokens)?);
    let value = optional_after(alloc, tokens, Kind::Becomes)?;
    let read = ProtectedElement::Component {
        names,
        mark,
        range: range.take(),
        value,
    };
    before(tokens, Kind::Semicolon, read)
}

// pragma | op | comp
impl Phrase for ProtectedElement {
    ghost Tree = { t.ProtectedElement };

    ghost view = { view.element_view };

    ghost starts = { spec.starts_by rules.begins_element };

    ghost rule = { rules.element };

    #[tactic(auto, unfolding(crate::specs::Reading::starts_by, crate::specs::Reading::kind))]
    fn begins(tokens: &Cursor<'_>) -> bool {
        match tokens.kind() {
            Some(
                Kind::Identifier | Kind::Pragma | Kind::Function | Kind::Procedure | Kind::Entry,
            ) => true,
            _ => false,
        }
    }

    #[tactic(auto, unfolding(crate::specs::DeclarationRules::element))]
    fn read(alloc: Global, tokens: &mut Cursor<'_>) -> Result<ProtectedElement, ParseFault> {
        if tokens.sees(Kind::Identifier) {
            return component(alloc, tokens);
        }
        let operation = OperationDeclaration::read(alloc, tokens)?;
        Ok(ProtectedElement::Operation(operation))
    }
}

// ["private" {pragma | op | comp}]
#[tactic(auto, unfolding(crate::specs::DeclarationRules::private_part))]
fn private_part(
    alloc: Global,
    tokens: &mut Cursor<'_>,
) -> Result<Option<Vec<ProtectedElement>>, ParseFault>
    ensures { Reads (view.maybe (λ v. map view.element_view v.items)) (rules.private_part tokens.old) result tokens.new }
{
    if tokens.eat(Kind::Private) {
        Ok(Some(many(alloc, tokens)?))
    } else {
        Ok(None)
    }
}

// "protected" ["type"] id [aspects] "is" {pragma | op} ["private" {pragma | op | comp}] "end" [id] ";"
impl Phrase for ProtectedUnit {
    ghost Tree = { t.ProtectedUnit };

    ghost view = { view.protected_unit_view };

    ghost starts = { spec.sees k.Protected };

    ghost rule = { rules.protected_unit };

    fn begins(tokens: &Cursor<'_>) -> bool {
        tokens.sees(Kind::Protected)
    }

    #[tactic(auto, unfolding(crate::specs::DeclarationRules::protected_unit))]
    fn read(alloc: Global, tokens: &mut Cursor<'_>) -> Result<ProtectedUnit, ParseFault> {
        let at = tokens.expect(Kind::Protected)?;
        let is_type = tokens.eat(Kind::Type);
        let name = Identifier::read(alloc, tokens)?;
        let aspects = aspects(alloc, tokens)?;
        tokens.expect(Kind::Is)?;
        let operations = many(alloc, tokens)?;
        let private = private_part(alloc, tokens)?;
        let end_name = end_name(alloc, tokens)?;
        Ok(ProtectedUnit {
            at,
            is_type,
            name,
            aspects,
            operations,
            private,
            end_name,
        })
    }
}

// pragma | entry
impl Phrase for TaskItem {
    ghost Tree = { t.TaskItem };

    ghost view = { view.task_item_view };

    ghost starts = { spec.starts_by rules.begins_task_item };

    ghost rule = { rules.task_item };

    #[tactic(auto, unfolding(crate::specs::Reading::starts_by, crate::specs::Reading::kind))]
    fn begins(tokens: &Cursor<'_>) -> bool {
        match tokens.kind() {
            Some(Kind::Pragma | Kind::Entry) => true,
            _ => false,
        }
    }

    #[tactic(auto, unfolding(crate::specs::DeclarationRules::task_item))]
    fn read(alloc: Global, tokens: &mut Cursor<'_>) -> Result<TaskItem, ParseFault> {
        if tokens.sees(Kind::Pragma) {
            return Ok(TaskItem::Pragma(Pragma::read(alloc, tokens)?));
        }
        Ok(TaskItem::Entry(EntryDeclaration::read(alloc, tokens)?))
    }
}

// ";" | "is" {pragma | entry} "end" [id] ";"
#[tactic(auto, unfolding(crate::specs::DeclarationRules::task_definition))]
fn task_definition(
    alloc: Global,
    tokens: &mut Cursor<'_>,
) -> Result<Option<TaskDefinition>, ParseFault>
    ensures { Reads (view.maybe view.task_definition_view) (rules.task_definition tokens.old) result tokens.new }
{
    if !tokens.eat(Kind::Is) {
        tokens.expect(Kind::Semicolon)?;
        return Ok(None);
    }
    let items = many(alloc, tokens)?;
    let end_name = end_name(alloc, tokens)?;
    Ok(Some(TaskDefinition { items, end_name }))
}

// "task" id [aspects] (";" | "is" {pragma | entry} "end" [id] ";")
impl Phrase for TaskUnit {
    ghost Tree = { t.TaskUnit };

    ghost view = { view.task_view };

    ghost starts = { spec.sees k.Task };

    ghost rule = { rules.task };

    fn begins(tokens: &Cursor<'_>) -> bool {
        tokens.sees(Kind::Task)
    }

    #[tactic(auto, unfolding(crate::specs::DeclarationRules::task))]
    fn read(alloc: Global, tokens: &mut Cursor<'_>) -> Result<TaskUnit, ParseFault> {
        let at = tokens.expect(Kind::Task)?;
        let name = Identifier::read(alloc, tokens)?;
        let aspects = aspects(alloc, tokens)?;
        let definition = task_definition(alloc, tokens)?;
        Ok(TaskUnit {
            at,
            name,
            aspects,
            definition,
        })
    }
}
