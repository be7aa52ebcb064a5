//! Names that aren't seen where they stand, that are there twice, or end what has another name.

use crate::judged::Judged;
use crate::library;
use rv_cause::around::Around;
use rv_cause::cases::{Case, Within, first_of, told};
use rv_cause::cause::Cause;
use rv_cause::declared::Declared;
use rv_cause::known::{Group, Known};
use rv_cause::words::Words;
use rv_lex::token::Token;
use rv_scope::Declared as Meaning;
use rv_seen::Stop;
use rv_text::is_same_name;

const SECOND_BODY: &str = "{0} has a body already (3.11.1)";

const SECOND_PRIORITY: &str = "a priority is given already (D.1)";

const TWICE: &str = "{0} is declared here already; give one of them another name (8.3)";

const TWICE_IN: &str =
    "{0} is declared in line {line} already; give one of them another name (8.3)";

// What is there twice.
const DUPLICATES: [Case; 5] = [
    Case {
        within: Within::Anywhere,
        words: "body ^_",
        said: SECOND_BODY,
    },
    Case {
        within: Within::Body,
        words: "function|procedure|entry ^_",
        said: SECOND_BODY,
    },
    Case {
        within: Within::Anywhere,
        words: "pragma ^_",
        said: SECOND_PRIORITY,
    },
    Case {
        within: Within::Anywhere,
        words: "^Priority|Interrupt_Priority",
        said: SECOND_PRIORITY,
    },
    Case {
        within: Within::Anywhere,
        words: "^Attach_Handler",
        said: "a line is given already (C.3.1)",
    },
];

// Whether a context clause of a text names a word.
fn is_in_context(tokens: &[Token<'_>], word: &str) -> bool {
    for token in tokens {
        if is_same_name(token.text, "package") {
            return false;
        }
        if is_same_name(token.text, word) {
            return true;
        }
    }
    false
}

// That a name needs clauses for a library package.
fn needs_library<'a>(
    tokens: &[Token<'_>],
    at: usize,
    word: &'a str,
    library: &'a str,
) -> Cause<'a> {
    let last = match library.rsplit_once('.') {
        Some((_, last)) => last,
        None => library,
    };
    let said = if library::home_of(word).is_none() {
        "{1} needs: with {1}; (10.1.2)"
    } else if is_in_context(tokens, last) {
        "{0} needs: use {1}; (8.4)"
    } else {
        "{0} needs: with {1}; use {1}; (8.4)"
    };
    Cause::new(at, said, [word, library, ""])
}

// That a declaration isn't seen from a place of its text.
fn unseen<'a>(item: &Declared<'a>, at: usize) -> Cause<'a> {
    if item.at < at {
        return item.cause(at, "{0} denotes nothing within its own declaration (8.3)");
    }
    item.told(
        at,
        "{0} is declared further down, in line {line}; put that before this (8.3)",
        "{0} is declared further down; put that before this (8.3)",
    )
}

// That the part of a name behind a point isn't seen at a place.
fn unseen_part<'a>(item: &Declared<'a>, at: usize, around: &Around<'_>) -> Cause<'a> {
    if item.is_hidden && !item.home.is_empty() && !is_same_name(item.home, around.home) {
        return item.told(
            at,
            "{0} stands behind private in {1}, in line {line}, and is seen in its bodies only (9.4)",
            "{0} stands behind private in {1}, and is seen in its bodies only (9.4)",
        );
    }
    if !is_same_name(item.unit, around.unit) {
        let said = "{0} is declared in the body of {2}, and is seen there only (7.2)";
        return item.cause(at, said);
    }
    item.told(
        at,
        "{0} isn't declared yet; put its declaration, in line {line}, before this (8.3)",
        "{0} isn't declared yet; put its declaration before this (8.3)",
    )
}

// The library package that a name would be of.
fn library_of<'a>(words: &Words<'_, 'a>) -> Option<&'a str> {
    if words.is(0, "Ada") {
        return library::ends_with(words.word(2));
    }
    match library::home_of(words.word(0)) {
        Some(library) => Some(library),
        None => library::ends_with(words.word(0)),
    }
}

// Why the part of a name behind these words isn't seen, where what stands before it denotes this.
fn unseen_behind<'a>(
    words: &Words<'_, 'a>,
    behind: usize,
    prefix: Meaning,
    around: &Around<'a>,
    judged: &Judged<'_, '_, '_, 'a>,
) -> Option<Cause<'a>> {
    let whole = judged.item(prefix)?;
    let parts = match prefix {
        Meaning::OwnUnit | Meaning::Unit(_) => Group::Package(whole.unit),
        _ => Group::Members(whole.unit, whole.operations_home()),
    };
    let item = judged.known.find(parts, words.word(behind))?;
    Some(unseen_part(item, words.place(behind), around))
}

// Why a name isn't seen, as the texts have it.
fn unseen_name<'a>(
    words: &Words<'_, 'a>,
    around: &Around<'a>,
    judged: &Judged<'_, '_, '_, 'a>,
) -> Option<Cause<'a>> {
    if let Stop::Part(number, prefix) = judged.stop {
        let behind = number.saturating_mul(2);
        return unseen_behind(words, behind, prefix, around, judged);
    }
    let item = judged.known.standing(words.word(0), around)?;
    Some(unseen(item, words.place(0)))
}

/// Why a name isn't seen where it stands.
pub fn not_visible<'a>(
    tokens: &[Token<'_>],
    words: &Words<'_, 'a>,
    around: &Around<'a>,
    judged: &Judged<'_, '_, '_, 'a>,
) -> Cause<'a> {
    let word = words.word(0);
    if words.was(1, "body") {
        return words.cause(0, "the body of {0} stands before its declaration (3.11.1)");
    }
    let is_unit = judged.known.has_unit(word) && !is_same_name(word, around.unit);
    if is_unit && !is_in_context(tokens, word) {
        return words.cause(0, "{0} needs: with {0}; (10.1.2)");
    }
    if let Some(cause) = unseen_name(words, around, judged) {
        return cause;
    }
    match library_of(words) {
        Some(library) => needs_library(tokens, words.place(0), word, library),
        None => words.cause(
            0,
            "{0} isn't seen here; its declaration stands elsewhere (8.3)",
        ),
    }
}

/// What is there twice.
pub fn duplicate<'a>(words: &Words<'_, 'a>, around: &Around<'a>, known: &Known<'a>) -> Cause<'a> {
    if let Some(cause) = first_of(&DUPLICATES, words, around) {
        return cause;
    }
    match known.before(words.place(0)) {
        Some(first) => told(words, around, TWICE_IN).with_other(first.at),
        None => told(words, around, TWICE),
    }
}

/// What a name behind `end` has to be.
pub fn end_name<'a>(tokens: &[Token<'a>], words: &Words<'_, 'a>) -> Cause<'a> {
    let before = words.before(1);
    let around = Around::of(tokens, before.place(0));
    Cause::of(
        words.place(0),
        "what ends here is {0}: write end {0};",
        around.innermost(),
    )
}
