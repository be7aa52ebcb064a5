//! Where the text of a unit has the body of an operation (9.4, 9.5.1, 9.5.2).

ghost use Rattle.std.specs.Prelude.{◌≡◌, ◌++◌, List, IfOk, OnOk, string_bytes};
ghost use Rattle.rv_lex.specs.Lexes.{IsNoMemory, Lexeme, Lexes, lexemes};
ghost use Rattle.rv_placed.specs.Places.{begins_operation, body_place, declares, is_body, is_body_of, is_named, is_package, is_protected, first_line, line_number, number_line, operation_place, place_in, place_line};

use crate::placing::NoMemory;
use rv_lex::fault::LexFault;
use rv_lex::kind::Kind;
use rv_lex::lexer::tokens;
use rv_lex::token::Token;
use rv_text::{is_same_name, without_return};
use std::alloc::{AllocError, Global};

fn is_package(kind: Kind) -> bool
    ensures { result ≡ is_package kind }
{
    matches!(kind, Kind::Package)
}

fn is_body(kind: Kind) -> bool
    ensures { result ≡ is_body kind }
{
    matches!(kind, Kind::Body)
}

fn is_protected(kind: Kind) -> bool
    ensures { result ≡ is_protected kind }
{
    matches!(kind, Kind::Protected)
}

fn begins_operation(kind: Kind) -> bool
    ensures { result ≡ begins_operation kind }
{
    matches!(kind, Kind::Procedure | Kind::Function | Kind::Entry)
}

// Whether the first of words is this name.
fn is_named(name: &str, words: &[Token<'_>]) -> bool
    ensures { result ≡ is_named name.now (lexemes words.now) }
{
    match words {
        [word, ..] => is_same_name(word.text, name),
        [] => false,
    }
}

// Whether the package that words declare is of this name (7.1).
fn declares(unit: &str, words: &[Token<'_>]) -> bool
    ensures { result ≡ declares unit.now (lexemes words.now) }
{
    let mut rest = words;
    while let [word, others @ ..] = rest {
        if is_package(word.kind) {
            return is_named(unit, others);
        }
        rest = others;
    }
    false
}

// Whether words go on with `body` and this name.
fn is_body_of(object: &str, words: &[Token<'_>]) -> bool
    ensures { result ≡ is_body_of object.now (lexemes words.now) }
{
    match words {
        [word, others @ ..] => is_body(word.kind) && is_named(object, others),
        [] => false,
    }
}

// Where the first operation of this name begins, before the next protected unit.
fn operation_place(operation: &str, words: &[Token<'_>]) -> Option<usize>
    ensures { result ≡ operation_place operation.now (lexemes words.now) }
{
    let mut rest = words;
    while let [word, others @ ..] = rest {
        if is_protected(word.kind) {
            return None;
        }
        if begins_operation(word.kind) && is_named(operation, others) {
            return Some(word.place);
        }
        rest = others;
    }
    None
}

// Where the body of an operation of an object begins.
fn body_place(object: &str, operation: &str, words: &[Token<'_>]) -> Option<usize>
    ensures { result ≡ body_place object.now operation.now (lexemes words.now) }
{
    let mut rest = words;
    while let [word, others @ ..] = rest {
        if is_protected(word.kind) && is_body_of(object, others) {
            return operation_place(operation, others);
        }
        rest = others;
    }
    None
}

// Where words have the body of an operation of a unit.
fn place_among(words: &[Token<'_>], unit: &str, object: &str, operation: &str) -> Option<usize>
    ensures { result ≡ place_in unit.now object.now operation.now (lexemes words.now) }
{
    if declares(unit, words) {
        body_place(object, operation, words)
    } else {
        None
    }
}

// What has no words has it nowhere, but for want of memory.
fn nowhere(fault: LexFault) -> Result<Option<usize>, NoMemory>
    ensures { IfOk result (λ place. (place ≡ None) × (IsNoMemory fault → ⊥)) }
{
    if fault == LexFault::NoMemory {
        return Err(NoMemory {});
    }
    Ok(None)
}

/// Where the text of a unit has the body of an operation, if it is that unit's and has one: the place of its first byte. Err where
/// memory was refused.
pub fn place_in(
    alloc: Global,
    text: &str,
    unit: &str,
    object: &str,
    operation: &str,
) -> Result<Option<usize>, NoMemory>
    ensures { IfOk result (λ place. (words : List Lexeme) → Lexes text.now words → place ≡ place_in unit.now object.now operation.now words) }
{
    match tokens(alloc, text) {
        Ok(words) => Ok(place_among(words.as_slice(), unit, object, operation)),
        Err(fault) => nowhere(fault),
    }
}

// The number of the line behind this front of a text, from 1.
fn line_number(front: &[u8]) -> usize
    ensures { result ≡ line_number front.now }
{
    1 + front.iter().filter(|byte| **byte == b'\n').count()
}

// The first line of a text.
fn first_line(text: &str) -> &str
    ensures { result.now ≡ first_line text.now }
{
    match text.split_once('\n') {
        Some((line, _)) => without_return(line),
        None => without_return(text),
    }
}

// Puts that a body stands in a line of this number of the text of a unit, and the words of the line.
fn put_line(text: &mut String, number: usize, unit: &str, line: &str) -> Result<(), AllocError>
    ensures { OnOk result (string_bytes text.new ≡ string_bytes text.old ++ number_line number unit.now line.now) }
{
    write!(
        text,
        "its body stands in line {number} of the text of {unit}: {line}\n"
    )
}

/// Puts which line of the text of a unit stands behind this front of it, and what is left of that line. Err where memory was refused.
pub fn put_place(text: &mut String, unit: &str, front: &str, rest: &str) -> Result<(), AllocError>
    ensures { OnOk result (string_bytes text.new ≡ string_bytes text.old ++ place_line unit.now front.now rest.now) }
{
    put_line(text, line_number(front.as_bytes()), unit, first_line(rest))
}
