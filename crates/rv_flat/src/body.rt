//! Bodies of operations and tasks, put into a table.

ghost use Rattle.std.specs.Prelude.{◌≡◌, ℕ, List, IfOk, map};
ghost use Rattle.rv_code.specs.BodyView.{body_view, declaration_view, handler_view};
ghost use Rattle.rv_flat.specs.FlatView.{BodyStands, IsAmong, body_in};
ghost use Rattle.rv_flat.specs.Tables.{trees};
ghost use Rattle.rv_flat.specs.Trees.{Stands, Tree, as_declarations, as_exceptions, as_handlers};

use crate::code::{Code, Kind};
use crate::expressions::add_expression;
use crate::statements::add_statements;
use rv_code::{Body, Declaration, ExceptionChoice, Handler};
use rv_shape::kind::Parameter;
use std::alloc::AllocError;

/// The body of an operation or a task: its parameters, and the numbers of its declarations, its statements and its
/// handlers in a table.
#[derive(Drop)]
pub struct FlatBody {
    /// The parameters, which have the slots from 0 on.
    pub parameters: Vec<Parameter>,
    /// Whether it is a function's.
    pub is_function: bool,
    /// The first of its declarations.
    pub declarations: usize,
    /// The first of its statements.
    pub statements: usize,
    /// The first of its handlers.
    pub handlers: usize,
}

// Adds declarations.
fn add_declarations(code: &mut Code, declarations: &Vec<Declaration>) -> Result<usize, AllocError>
    ensures { IfOk result (λ n. Stands as_declarations (trees code.old) (trees code.new) n (map declaration_view declarations.now.items)) }
{
    let mut rest: usize = 0;
    let mut left = declarations.len();
    while left > 0 {
        left -= 1;
        let declaration = &declarations[left];
        let first = add_expression(code, &declaration.initial)?;
        rest = code.two(Kind::Declarations(declaration.target), first, rest)?;
    }
    Ok(rest)
}

// Adds the choices of a handler.
fn add_exceptions(code: &mut Code, choices: &Vec<ExceptionChoice>) -> Result<usize, AllocError>
    ensures { IfOk result (λ n. Stands as_exceptions (trees code.old) (trees code.new) n choices.now.items) }
{
    let mut rest: usize = 0;
    let mut left = choices.len();
    while left > 0 {
        left -= 1;
        rest = code.one(Kind::Exceptions(choices[left]), rest)?;
    }
    Ok(rest)
}

// Adds handlers.
fn add_handlers(code: &mut Code, handlers: &Vec<Handler>) -> Result<usize, AllocError>
    ensures { IfOk result (λ n. Stands as_handlers (trees code.old) (trees code.new) n (map handler_view handlers.now.items)) }
{
    let mut rest: usize = 0;
    let mut left = handlers.len();
    while left > 0 {
        left -= 1;
        let handler = &handlers[left];
        let first = add_exceptions(code, &handler.choices)?;
        let second = add_statements(code, &handler.statements)?;
        rest = code.three(Kind::Handlers, first, second, rest)?;
    }
    Ok(rest)
}

impl FlatBody {
    /// Puts a body into a table. Err where memory was refused; what the table had stays.
    pub fn of(code: &mut Code, body: &Body) -> Result<FlatBody, AllocError>
        ensures { IfOk result (λ flat. BodyStands (trees code.old) (trees code.new) flat (body_view body.now)) }
    {
        let parameters = body.parameters.clone()?;
        let declarations = add_declarations(code, &body.declarations)?;
        let statements = add_statements(code, &body.statements)?;
        let handlers = add_handlers(code, &body.handlers)?;
        Ok(FlatBody {
            parameters,
            is_function: body.is_function,
            declarations,
            statements,
            handlers,
        })
    }

    /// The same numbers once more. Err where memory was refused.
    pub fn copy(&self) -> Result<FlatBody, AllocError>
        ensures body { IfOk result (λ flat. (ts : List Tree) → body_in ts flat ≡ body_in ts self.now) }
        ensures among { IfOk result (λ flat. (n : ℕ) → IsAmong n self.now → IsAmong n flat) }
    {
        let parameters = self.parameters.clone()?;
        Ok(FlatBody {
            parameters,
            is_function: self.is_function,
            declarations: self.declarations,
            statements: self.statements,
            handlers: self.handlers,
        })
    }
}
