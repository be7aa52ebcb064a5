//! Declarations without a body, where a body without a declaration has a name that is near.

use rv_cause::around::Around;
use rv_cause::cause::Cause;
use rv_cause::known::{Group, Known, near_among};
use rv_cause::words::Words;
use rv_lex::token::Token;
use rv_text::is_same_name;
use std::alloc::{AllocError, Global};

const NEAR: &str =
    "{0} has no body, and the body of {1}, in line {line}, has no declaration; they may be meant to be one (3.11.1)";

// Whether the body of an operation of a protected unit begins here, or of a task or a protected unit where that is wanted.
fn is_body(words: &Words<'_, '_>, around: &Around<'_>, home: &str) -> bool {
    if home.is_empty() {
        return words.fit("task|protected body ^NAME");
    }
    around.is_body && is_same_name(around.home, home) && words.fit("function|procedure|entry ^NAME")
}

// The names of bodies, of a protected unit's operations or else of a package, which have no declaration.
fn undeclared<'a>(
    alloc: Global,
    tokens: &[Token<'a>],
    known: &Known<'a>,
    unit: &str,
    home: &str,
) -> Result<Vec<&'a str>, AllocError> {
    let mut names = Vec::new(alloc);
    let mut around = Around::nothing();
    let group = if home.is_empty() {
        Group::Package(unit)
    } else {
        Group::Members(unit, home)
    };
    for here in 0..tokens.len() {
        let words = Words::from(tokens, here);
        around.pass(&words);
        if is_body(&words, &around, home) && known.find(group, words.word(0)).is_none() {
            names.push(words.word(0))?;
        }
    }
    Ok(names)
}

// Where the body of a name begins, with its name.
fn place_of(tokens: &[Token<'_>], name: &str, home: &str) -> usize {
    let mut around = Around::nothing();
    for here in 0..tokens.len() {
        let words = Words::from(tokens, here);
        around.pass(&words);
        if is_body(&words, &around, home) && is_same_name(words.word(0), name) {
            return words.place(0);
        }
    }
    0
}

// The name that has no body, where its declaration begins here; empty where none does.
fn declared_here<'a>(words: &Words<'_, 'a>) -> &'a str {
    if words.fit("^task|protected type") {
        return words.word(2);
    }
    if words.fit("^task|protected|function|procedure|entry NAME") {
        return words.word(1);
    }
    ""
}

/// That a declaration has no body, and a body with a name that is near has no declaration. `None` where there is none. Err where memory was
/// refused.
pub fn misspelt<'a>(
    alloc: Global,
    tokens: &[Token<'a>],
    words: &Words<'_, 'a>,
    around: &Around<'a>,
    known: &Known<'a>,
) -> Result<Option<Cause<'a>>, AllocError> {
    let name = declared_here(words);
    if name.is_empty() {
        return Ok(None);
    }
    let home = if words.fit("^task|protected") {
        ""
    } else {
        around.home
    };
    let names = undeclared(alloc, tokens, known, around.unit, home)?;
    let near = near_among(alloc, name, names.as_slice())?;
    if near.is_empty() {
        return Ok(None);
    }
    let cause = Cause::pair(words.place(0), NEAR, name, near);
    Ok(Some(cause.with_other(place_of(tokens, near, home))))
}
