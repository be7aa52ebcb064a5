//! The cause of a fault of a unit text.

use crate::attached::attached_in;
use crate::ceilings::ceiling_too_low;
use crate::explanation::{Explanation, of_part};
use crate::grammar::Stop;
use crate::judge::{Judge, NO_MEMORY, Seen, of_judge, seen_at};
use crate::parts::{catalogue_before, known_before, texts_before};
use crate::places::place_of;
use crate::taken::line_taken;
use crate::{lexical, shapes};
use rv_cause::cause::Cause;
use rv_cause::known::Known;
use rv_cause::words::Words;
use rv_cause::{grammar, nulls};
use rv_fault::Part;
use rv_lex::fault::LexFault;
use rv_lex::lexer::tokens;
use rv_lex::token::Token;
use rv_parse::{ParseFault, parse};
use rv_reason::reason_of;
use rv_script::unit_text::unit_text;
use rv_shape::fault::ShapeFault;
use rv_unit::UnitFault;
use std::alloc::{AllocError, Global};

const NOT_ASCII: &str = "characters that aren't ASCII stand in comments only (2.1)";

// The cause of digits with a fraction, where the words before them make it clearer.
fn of_fraction(alloc: Global, text: &str, at: usize) -> Option<Cause<'_>> {
    let Ok(front) = tokens(alloc, text.get(..at)?) else {
        return None;
    };
    let words = front.as_slice();
    let behind = Words::from(words, words.len());
    lexical::bad_fraction(text, at, &behind)
}

// The cause of a fault of words.
fn of_words(alloc: Global, text: &str, fault: LexFault) -> Cause<'_> {
    match fault {
        LexFault::BadCharacter(at) => lexical::bad_character(text, at),
        LexFault::BadLiteral(at) => match of_fraction(alloc, text, at) {
            Some(cause) => cause,
            None => lexical::bad_number(text, at),
        },
        LexFault::BadIdentifier(at) => lexical::bad_name(text, at),
        LexFault::NotAscii(at) => Cause::plain(at, NOT_ASCII),
        LexFault::NoMemory => Cause::plain(0, NO_MEMORY),
    }
}

// The cause of a fault of the grammar.
fn of_grammar<'a>(
    alloc: Global,
    text: &'a str,
    seen: &Seen<'_, 'a, '_>,
    fault: ParseFault,
) -> Cause<'a> {
    match fault {
        ParseFault::Lex(fault) => of_words(alloc, text, fault),
        ParseFault::Unexpected(at) => {
            let stop = Stop {
                tokens: seen.tokens,
                words: seen.words,
                around: seen.around,
                at,
            };
            stop.cause(&reason_of(alloc, seen.tokens, text.len(), at))
        }
        ParseFault::TooDeep(at) => grammar::too_deep(seen.tokens, at),
        ParseFault::NoMemory => Cause::plain(0, NO_MEMORY),
    }
}

// What is said of a fault of a unit text's shape.
fn said_of_shape(fault: ShapeFault) -> &'static str {
    match fault {
        ShapeFault::NameTaken => "{0} stands twice",
        ShapeFault::TooMany => {
            "with this unit there would be more units, tasks, objects or parts than fit"
        }
        ShapeFault::LineTaken => "an interrupt line of this unit has a handler already (C.3.1)",
        ShapeFault::CeilingTooLow => {
            "a protected unit with a handler has a priority of 31 .. 40 (C.3.1)"
        }
        ShapeFault::BadRange => "a part of this unit is of a subtype that has no values (3.5)",
        ShapeFault::BadText => "this unit has no shape",
        ShapeFault::NoMemory => NO_MEMORY,
    }
}

// The cause of a fault of a unit text's shape, seen from its package; known is what stands before.
fn of_shape<'a>(seen: &Seen<'_, 'a, '_>, fault: ShapeFault) -> Cause<'a> {
    let at = seen.words.place(1);
    let name = seen.words.word(1);
    if fault == ShapeFault::NameTaken {
        if let Some(cause) = shapes::unit_name(at, name, seen.known) {
            return cause;
        }
    }
    if fault == ShapeFault::BadRange {
        if let Some(cause) = nulls::null_part(seen.tokens) {
            return cause;
        }
    }
    Cause::of(at, said_of_shape(fault), name)
}

// The place of a text's package.
fn package_place(tokens: &[Token<'_>]) -> usize {
    for token in tokens {
        if token.text.eq_ignore_ascii_case("package") {
            return token.place;
        }
    }
    0
}

// The cause of a fault of a text that has words, other than of what its names denote.
fn cause_of<'a>(
    alloc: Global,
    text: &'a str,
    tokens: &[Token<'a>],
    known: &Known<'a>,
    fault: UnitFault,
) -> Cause<'a> {
    let place = place_of(fault).unwrap_or(package_place(tokens));
    let seen = seen_at(tokens, known, place);
    match fault {
        UnitFault::Lex(fault) => of_words(alloc, text, fault),
        UnitFault::Parse(fault) => of_grammar(alloc, text, &seen, fault),
        UnitFault::Shape(fault) => of_shape(&seen, fault),
        _ => Cause::plain(0, NO_MEMORY),
    }
}

// Whether what the text itself declares matters to a fault.
fn knows_itself(fault: UnitFault) -> bool {
    match fault {
        UnitFault::Shape(_) => false,
        _ => true,
    }
}

// The cause of a fault of a text that has no words.
fn without_words(alloc: Global, text: &str, fault: UnitFault) -> Cause<'_> {
    match fault {
        UnitFault::Lex(fault) => of_words(alloc, text, fault),
        _ => Cause::plain(0, NO_MEMORY),
    }
}

// What is said of a fault of procedures that are attached to lines of interrupts, if it is one whose place is found.
fn of_attached<'a>(
    alloc: Global,
    script: &'a str,
    part: &Part<'a>,
    tokens: &[Token<'_>],
    fault: ShapeFault,
) -> Result<Option<Explanation<'a>>, AllocError> {
    let attached = attached_in(alloc, tokens)?;
    match fault {
        ShapeFault::LineTaken => {
            let at = Words::at(tokens, package_place(tokens)).place(1);
            let told = line_taken(alloc, script, part, attached.as_slice(), at)?;
            Ok(Some(told))
        }
        ShapeFault::CeilingTooLow => match ceiling_too_low(tokens, attached.as_slice()) {
            Some(cause) => Ok(Some(of_part(alloc, part, &cause, &Known::new(alloc))?)),
            None => Ok(None),
        },
        _ => Ok(None),
    }
}

// What is said of a fault of a text of these words whose names are looked up, at a place.
fn of_derived<'a, 't>(
    alloc: Global,
    script: &'a str,
    part: &Part<'a>,
    text: &'t str,
    tokens: &[Token<'t>],
    known: &Known<'t>,
    place: usize,
    fault: UnitFault,
) -> Result<Explanation<'a>, AllocError> {
    let catalogue = catalogue_before(alloc, script, part.line)?;
    let Ok(tree) = parse(alloc, text) else {
        return of_part(alloc, part, &Cause::plain(0, NO_MEMORY), known);
    };
    let judge = Judge {
        text,
        tokens,
        known,
        tree: &tree,
        catalogue: &catalogue,
    };
    of_judge(alloc, part, &judge, place, fault)
}

// What is said of a fault of a text of these words, where this is known.
fn of_known<'a, 't>(
    alloc: Global,
    script: &'a str,
    part: &Part<'a>,
    text: &'t str,
    tokens: &[Token<'t>],
    known: &Known<'t>,
    fault: UnitFault,
) -> Result<Explanation<'a>, AllocError> {
    match fault {
        UnitFault::Restriction(_) | UnitFault::Names(_) | UnitFault::Types(_) => {
            if let Some(place) = place_of(fault) {
                return of_derived(alloc, script, part, text, tokens, known, place, fault);
            }
        }
        UnitFault::Shape(fault) => {
            if let Some(told) = of_attached(alloc, script, part, tokens, fault)? {
                return Ok(told);
            }
        }
        _ => {}
    }
    let cause = cause_of(alloc, text, tokens, known, fault);
    of_part(alloc, part, &cause, known)
}

/// What is said of a fault of the unit text of a part.
pub(crate) fn of_unit<'a>(
    alloc: Global,
    script: &'a str,
    part: &Part<'a>,
    fault: UnitFault,
) -> Result<Explanation<'a>, AllocError> {
    let text = unit_text(alloc, part.text)?;
    let Ok(own) = tokens(alloc, text.as_str()) else {
        let cause = without_words(alloc, text.as_str(), fault);
        return of_part(alloc, part, &cause, &Known::new(alloc));
    };
    let texts = texts_before(alloc, script, part.line)?;
    let mut known = known_before(alloc, script, part.line, texts.as_slice())?;
    if knows_itself(fault) {
        known.add_text(own.as_slice(), true)?;
    }
    of_known(
        alloc,
        script,
        part,
        text.as_str(),
        own.as_slice(),
        &known,
        fault,
    )
}
