//! Names that nothing is declared by where they stand, but elsewhere: in another unit, or in a protected unit of this one.

use crate::judged::Judged;
use rv_cause::around::Around;
use rv_cause::cause::Cause;
use rv_cause::declared::{Declared, Sort};
use rv_cause::known::{Group, Known};
use rv_cause::words::Words;
use rv_lex::token::Token;
use rv_text::is_same_name;

const OF_UNIT: &str = "{0} is declared in {2}: write {2}.{0} (4.1.3)";

const COMPONENT: &str = "{0} is a component of {1}, and is seen in its bodies only (9.4)";

const HIDDEN: &str = "{0} stands behind private in {1}, and is seen in its bodies only (9.4)";

const OPERATION: &str = "{0} is declared in {1}: write {1}.{0} (9.5.1)";

// Whether a name stands here that is looked up by itself.
fn is_looked_up(words: &Words<'_, '_>, around: &Around<'_>) -> bool {
    let is_declared = words.fit("body|function|procedure|entry|pragma|'|. ^_");
    let is_aspect = around.is_in_head && words.fit("with|, ^_");
    !is_declared && !is_aspect && !around.unit.is_empty()
}

// What is said of a part of a protected unit.
fn said_of(part: &Declared<'_>) -> &'static str {
    if part.sort == Sort::Component {
        COMPONENT
    } else if part.is_hidden {
        HIDDEN
    } else {
        OPERATION
    }
}

// The part of a protected unit of this package, other than the one around, that has the name which stands here.
fn part_of<'k, 'a>(
    tokens: &[Token<'a>],
    words: &Words<'_, 'a>,
    around: &Around<'a>,
    known: &'k Known<'a>,
) -> Option<&'k Declared<'a>> {
    for here in 0..tokens.len() {
        let unit = Words::from(tokens, here);
        if unit.was(1, "protected") && !is_same_name(unit.word(0), around.home) {
            let members = Group::Members(around.unit, unit.word(0));
            if let Some(found) = known.find(members, words.word(0)) {
                return Some(found);
            }
        }
    }
    None
}

// The object of another unit, which is loaded before the text, that has the name which stands here.
fn object_of<'k, 'a>(
    words: &Words<'_, 'a>,
    judged: &Judged<'_, '_, 'k, 'a>,
) -> Option<&'k Declared<'a>> {
    for shape in judged.scope.shapes() {
        let found = judged.known.find(Group::Shown(shape.name()), words.word(0));
        if found.is_some() {
            return found;
        }
    }
    None
}

/// Why a name denotes nothing where it stands, by which something is declared elsewhere.
pub fn unknown<'a>(
    tokens: &[Token<'a>],
    words: &Words<'_, 'a>,
    around: &Around<'a>,
    judged: &Judged<'_, '_, '_, 'a>,
) -> Option<Cause<'a>> {
    if !is_looked_up(words, around) || judged.scope.direct(words.word(0)).is_some() {
        return None;
    }
    let at = words.place(0);
    if let Some(part) = part_of(tokens, words, around, judged.known) {
        return Some(part.cause(at, said_of(part)));
    }
    match object_of(words, judged) {
        Some(object) => Some(object.cause(at, OF_UNIT)),
        None => None,
    }
}
