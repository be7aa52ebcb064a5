//! Blocks, and the bodies of operations, protected units and tasks.

ghost use Rattle.std.specs.Prelude.{◌≡◌, map};
ghost use Rattle.rv_lex.specs.declared.kind.Kind.TheVariants as k;
ghost use Rattle.rv_tree.specs.Bodies as t;
ghost use Rattle.rv_tree.specs.StatementView.{statements_view};
ghost use Rattle.rv_tree.specs.BodyView as view;
ghost use Rattle.rv_grammar.specs.Reading as spec;
ghost use Rattle.rv_grammar.specs.BodyRules as rules;
ghost use Rattle.rv_grammar.specs.Contract.{Reads};

use crate::closing::before;
use crate::cursor::Cursor;
use crate::fault::ParseFault;
use crate::held::Held;
use crate::name::end_name;
use crate::operation::parameters;
use crate::phrase::{Phrase, at_least_one, listed, many, optional, optional_after};
use crate::statement::statements;
use rv_lex::kind::Kind;
use rv_tree::{
    Block, ExceptionChoice, Expression, Handler, Identifier, Local, Name, OperationBody, Pragma,
    ProtectedBody, ProtectedUnit, TaskBody, TaskUnit,
};
use std::alloc::Global;

// ids ":" ["constant"] mark [range] [":=" expr] ";"
#[tactic(auto, unfolding(crate::specs::BodyRules::local_object))]
fn local_object(alloc: Global, tokens: &mut Cursor<'_>) -> Result<Local, ParseFault>
    ensures { Reads view.local_view (rules.local_object tokens.old) result tokens.new }
{
    let names = listed(alloc, tokens, Kind::Comma)?;
    tokens.expect(Kind::Colon)?;
    let is_constant = tokens.eat(Kind::Constant);
    let mark = Name::read(alloc, tokens)?;
    let range = Held::new(optional(alloc, tokens)?);
    let value = optional_after(alloc, tokens, Kind::Becomes)?;
    let read = Local::Object {
        names,
        is_constant,
        mark,
        range: range.take(),
        value,
    };
    before(tokens, Kind::Semicolon, read)
}

impl Phrase for Local {
    ghost Tree = { t.Local };

    ghost view = { view.local_view };

    ghost starts = { spec.starts_by rules.begins_local };

    ghost rule = { rules.a_local };

    #[tactic(auto, unfolding(crate::specs::Reading::starts_by, crate::specs::Reading::kind))]
    fn begins(tokens: &Cursor<'_>) -> bool {
        match tokens.kind() {
            Some(Kind::Identifier | Kind::Pragma | Kind::Protected | Kind::Task) => true,
            _ => false,
        }
    }

    #[tactic(auto, unfolding(crate::specs::BodyRules::a_local, crate::specs::Reading::kind))]
    fn read(alloc: Global, tokens: &mut Cursor<'_>) -> Result<Local, ParseFault> {
        match tokens.kind() {
            Some(Kind::Identifier) => local_object(alloc, tokens),
            Some(Kind::Pragma) => Ok(Local::Pragma(Pragma::read(alloc, tokens)?)),
            Some(Kind::Protected) => Ok(Local::Protected(ProtectedUnit::read(alloc, tokens)?)),
            Some(Kind::Task) => Ok(Local::Task(TaskUnit::read(alloc, tokens)?)),
            _ => Err(ParseFault::Unexpected(tokens.place())),
        }
    }
}

// name | "others"
impl Phrase for ExceptionChoice {
    ghost Tree = { t.ExceptionChoice };

    ghost view = { view.exception_choice_view };

    ghost starts = { spec.starts_by rules.begins_exception_choice };

    ghost rule = { rules.exception_choice };

    #[tactic(auto, unfolding(crate::specs::Reading::starts_by, crate::specs::Reading::kind))]
    fn begins(tokens: &Cursor<'_>) -> bool {
        match tokens.kind() {
            Some(Kind::Identifier | Kind::Others) => true,
            _ => false,
        }
    }

    #[tactic(auto, unfolding(crate::specs::BodyRules::exception_choice))]
    fn read(alloc: Global, tokens: &mut Cursor<'_>) -> Result<ExceptionChoice, ParseFault> {
        if tokens.sees(Kind::Others) {
            return Ok(ExceptionChoice::Others(tokens.expect(Kind::Others)?));
        }
        Ok(ExceptionChoice::Name(Name::read(alloc, tokens)?))
    }
}

// "when" choice {"|" choice} "=>" stmts
impl Phrase for Handler {
    ghost Tree = { t.Handler };

    ghost view = { view.handler_view };

    ghost starts = { spec.sees k.When };

    ghost rule = { rules.handler };

    fn begins(tokens: &Cursor<'_>) -> bool {
        tokens.sees(Kind::When)
    }

    #[tactic(auto, unfolding(crate::specs::BodyRules::handler, crate::specs::BodyRules::any_statements))]
    fn read(alloc: Global, tokens: &mut Cursor<'_>) -> Result<Handler, ParseFault> {
        let at = tokens.expect(Kind::When)?;
        let choices = listed(alloc, tokens, Kind::Bar)?;
        tokens.expect(Kind::Arrow)?;
        let statements = statements(alloc, tokens)?;
        Ok(Handler {
            at,
            choices,
            statements,
        })
    }
}

// ["exception" handler {handler}]
#[tactic(auto, unfolding(crate::specs::BodyRules::handlers))]
fn handlers(alloc: Global, tokens: &mut Cursor<'_>) -> Result<Vec<Handler>, ParseFault>
    ensures { Reads (λ v. map view.handler_view v.items) (rules.handlers tokens.old) result tokens.new }
{
    if tokens.eat(Kind::Exception) {
        at_least_one(alloc, tokens)
    } else {
        Ok(Vec::new(alloc))
    }
}

// {local} "begin" stmts ["exception" handler {handler}] "end" [id] ";"
#[tactic(auto, unfolding(crate::specs::BodyRules::block, crate::specs::BodyRules::any_statements))]
fn block(alloc: Global, tokens: &mut Cursor<'_>) -> Result<Block, ParseFault>
    ensures { Reads view.block_view (rules.block tokens.old) result tokens.new }
{
    let locals = many(alloc, tokens)?;
    tokens.expect(Kind::Begin)?;
    let statements = statements(alloc, tokens)?;
    let handlers = handlers(alloc, tokens)?;
    let end_name = end_name(alloc, tokens)?;
    Ok(Block {
        locals,
        statements,
        handlers,
        end_name,
    })
}

// "function" id [params] "return" mark "is" block
#[tactic(auto, unfolding(crate::specs::BodyRules::function_body))]
fn function_body(alloc: Global, tokens: &mut Cursor<'_>) -> Result<OperationBody, ParseFault>
    ensures { Reads view.operation_body_view (rules.function_body tokens.old) result tokens.new }
{
    let at = tokens.expect(Kind::Function)?;
    let name = Identifier::read(alloc, tokens)?;
    let parameters = parameters(alloc, tokens)?;
    tokens.expect(Kind::Return)?;
    let mark = Name::read(alloc, tokens)?;
    tokens.expect(Kind::Is)?;
    let block = block(alloc, tokens)?;
    Ok(OperationBody::Function {
        at,
        name,
        parameters,
        mark,
        block,
    })
}

// "procedure" id [params] "is" block
#[tactic(auto, unfolding(crate::specs::BodyRules::procedure_body))]
fn procedure_body(alloc: Global, tokens: &mut Cursor<'_>) -> Result<OperationBody, ParseFault>
    ensures { Reads view.operation_body_view (rules.procedure_body tokens.old) result tokens.new }
{
    let at = tokens.expect(Kind::Procedure)?;
    let name = Identifier::read(alloc, tokens)?;
    let parameters = parameters(alloc, tokens)?;
    tokens.expect(Kind::Is)?;
    let block = block(alloc, tokens)?;
    Ok(OperationBody::Procedure {
        at,
        name,
        parameters,
        block,
    })
}

// "entry" id [params] "when" expr "is" block
#[tactic(auto, unfolding(crate::specs::BodyRules::entry_body))]
fn entry_body(alloc: Global, tokens: &mut Cursor<'_>) -> Result<OperationBody, ParseFault>
    ensures { Reads view.operation_body_view (rules.entry_body tokens.old) result tokens.new }
{
    let at = tokens.expect(Kind::Entry)?;
    let name = Identifier::read(alloc, tokens)?;
    let parameters = parameters(alloc, tokens)?;
    tokens.expect(Kind::When)?;
    let barrier = Held::new(Expression::read(alloc, tokens)?);
    tokens.expect(Kind::Is)?;
    let block = block(alloc, tokens)?;
    Ok(OperationBody::Entry {
        at,
        name,
        parameters,
        barrier: barrier.take(),
        block,
    })
}

impl Phrase for OperationBody {
    ghost Tree = { t.OperationBody };

    ghost view = { view.operation_body_view };

    ghost starts = { spec.starts_by rules.begins_operation_body };

    ghost rule = { rules.operation_body };

    #[tactic(auto, unfolding(crate::specs::Reading::starts_by, crate::specs::Reading::kind))]
    fn begins(tokens: &Cursor<'_>) -> bool {
        match tokens.kind() {
            Some(Kind::Function | Kind::Procedure | Kind::Entry) => true,
            _ => false,
        }
    }

    #[tactic(auto, unfolding(crate::specs::BodyRules::operation_body, crate::specs::Reading::kind))]
    fn read(alloc: Global, tokens: &mut Cursor<'_>) -> Result<OperationBody, ParseFault> {
        match tokens.kind() {
            Some(Kind::Function) => function_body(alloc, tokens),
            Some(Kind::Procedure) => procedure_body(alloc, tokens),
            Some(Kind::Entry) => entry_body(alloc, tokens),
            _ => Err(ParseFault::Unexpected(tokens.place())),
        }
    }
}

/// `"protected" "body" id "is" {obody} "end" [id] ";"`.
#[tactic(auto, unfolding(crate::specs::BodyRules::protected_body, crate::specs::BodyRules::body_of))]
pub fn protected_body(alloc: Global, tokens: &mut Cursor<'_>) -> Result<ProtectedBody, ParseFault>
    ensures { Reads view.protected_body_view (rules.protected_body tokens.old) result tokens.new }
{
    let at = tokens.expect(Kind::Protected)?;
    tokens.expect(Kind::Body)?;
    let name = Identifier::read(alloc, tokens)?;
    tokens.expect(Kind::Is)?;
    let operations = many(alloc, tokens)?;
    let end_name = end_name(alloc, tokens)?;
    Ok(ProtectedBody {
        at,
        name,
        operations,
        end_name,
    })
}

/// `"task" "body" id "is" block`.
#[tactic(auto, unfolding(crate::specs::BodyRules::task_body))]
pub fn task_body(alloc: Global, tokens: &mut Cursor<'_>) -> Result<TaskBody, ParseFault>
    ensures { Reads view.task_body_view (rules.task_body tokens.old) result tokens.new }
{
    let at = tokens.expect(Kind::Task)?;
    tokens.expect(Kind::Body)?;
    let name = Identifier::read(alloc, tokens)?;
    tokens.expect(Kind::Is)?;
    let block = block(alloc, tokens)?;
    Ok(TaskBody { at, name, block })
}
