//! What was asked, and why it was refused, in words.

ghost use Rattle.std.specs.Prelude.{◌≡◌, ◌++◌, IfOk, codes, option_copied, string_bytes};
ghost use Rattle.rv_shape.specs.Printed.{target_text};
ghost use Rattle.rv_shape.specs.Readers.{target_of};
ghost use Rattle.rv_refused.specs.Refusals.{asked_text, cause_text, line_words};

use rv_access::Line;
use rv_event::entry::{Request, Rule};
use rv_event::text::text_of_request;
use rv_shape::actor::Callee;
use rv_shape::catalogue::Catalogue;
use std::alloc::{AllocError, Global};

/// The words of a line of a list, or that there is none. Err where memory was refused.
pub fn line_words(alloc: Global, line: Option<&Line>) -> Result<String, AllocError>
    ensures { IfOk result (λ words. string_bytes words ≡ line_words (option_copied line.entry)) }
{
    match line {
        Some(line) => line.text(alloc),
        None => String::from_str(alloc, "no line"),
    }
}

/// A rule in words; of the grant also the words of the line that decides. Err where memory was refused.
pub fn cause_text(alloc: Global, rule: Rule, line: &str) -> Result<String, AllocError>
    ensures { IfOk result (λ text. string_bytes text ≡ cause_text rule line.now) }
{
    let words = match rule {
        Rule::Grant => return format!(in alloc; "not granted: {line}"),
        Rule::Blocking => "might block inside a protected action",
        Rule::Reentry => "holds the object already",
        Rule::Ceiling => "above the ceiling",
        Rule::Queue => "the queue is full",
        Rule::Waiter => "another task waits there",
    };
    String::from_str(alloc, words)
}

// What is called, behind a word for how.
fn called_text(alloc: Global, how: &str, callee: &Callee<'_>) -> Result<String, AllocError>
    ensures { IfOk result (λ text. string_bytes text ≡ how.now ++ target_text (target_of callee.now)) }
{
    format!(in alloc; "{how}{callee}")
}

/// What was asked, where this is what was called. Err where memory was refused.
pub fn asked_text(
    alloc: Global,
    catalogue: &Catalogue,
    request: &Request,
    callee: &Callee<'_>,
) -> Result<String, AllocError>
    ensures { IfOk result (λ text. string_bytes text ≡ asked_text catalogue.now request.now (target_of callee.now)) }
{
    match *request {
        Request::Call(_, _, _) => called_text(alloc, "call ", callee),
        Request::Fire => called_text(alloc, "fire ", callee),
        Request::Resume => called_text(alloc, "resume ", callee),
        _ => text_of_request(alloc, catalogue, request),
    }
}
