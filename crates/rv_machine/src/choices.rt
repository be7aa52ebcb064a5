//! Which alternative of a case statement, and which handler of a body, is chosen, in a unit's table.

ghost use Rattle.std.specs.Prelude.{◌≡◌, IfSome, IsNone, Some, None};
ghost use Rattle.rv_exec.specs.Choices.{covered, named, handler_of};
ghost use Rattle.rv_flat.specs.Tables.{trees};
ghost use Rattle.rv_flat.specs.Trees.{tree_at, as_statements, as_choices, as_handlers, as_exceptions};

use crate::nodes::{choices_at, exceptions_at, handlers_at};
use rv_event::entry::Exception;
use rv_exec::choices::{covers, names};
use rv_flat::code::Code;

/// Whether one of the choices covers the value (3.8.1).
pub fn covered(code: &Code, choices: usize, value: i64) -> bool
    ensures { result ≡ covered (as_choices (tree_at (trees code.now) choices)) value }
{
    let mut rest = choices;
    'choices: while let Some(choice) = choices_at(code, rest) {
        if covers(choice.choice, value) {
            return true;
        }
        rest = choice.rest;
    }
    false
}

fn named(code: &Code, choices: usize, exception: Exception) -> bool
    ensures { result ≡ named (as_exceptions (tree_at (trees code.now) choices)) exception }
{
    let mut rest = choices;
    'choices: while let Some(choice) = exceptions_at(code, rest) {
        if names(choice.choice, exception) {
            return true;
        }
        rest = choice.rest;
    }
    false
}

/// The statements of the first handler that names the exception, or `others` (11.2).
pub fn handler_of(code: &Code, handlers: usize, exception: Exception) -> Option<usize>
    ensures found { IfSome result (λ n. handler_of (as_handlers (tree_at (trees code.now) handlers)) exception ≡ Some (as_statements (tree_at (trees code.now) n))) }
    ensures none { IsNone result → handler_of (as_handlers (tree_at (trees code.now) handlers)) exception ≡ None }
{
    let mut rest = handlers;
    'handlers: while let Some(handler) = handlers_at(code, rest) {
        if named(code, handler.condition, exception) {
            return Some(handler.statements);
        }
        rest = handler.rest;
    }
    None
}
