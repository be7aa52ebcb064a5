//! Types, modes and static values that don't fit.

use crate::handlers::bad_attachment;
use crate::judged::Judged;
use crate::ranges::outside;
use rv_cause::around::Around;
use rv_cause::cases::{Case, Within, first_of};
use rv_cause::cause::Cause;
use rv_cause::declared::{Declared, Sort, is_a};
use rv_cause::known::{Group, Known};
use rv_cause::words::{Words, is_among, is_literal};
use rv_scope::Table;
use rv_text::is_same_name;

const CONDITION: &str = "a condition is Boolean; what begins with {0} isn't (5.3)";

// What is wrong from what stands before an expression.
const BEFORE: [Case; 8] = [
    Case {
        within: Within::Anywhere,
        words: "exit when ^_",
        said: CONDITION,
    },
    Case {
        within: Within::Head,
        words: "when ^_",
        said: CONDITION,
    },
    Case {
        within: Within::Anywhere,
        words: "if|elsif|while ^_",
        said: CONDITION,
    },
    Case {
        within: Within::Head,
        words: "with|, ^Priority",
        said: "the aspect {0} takes a number: write {0} => 20 (D.1)",
    },
    Case {
        within: Within::Anywhere,
        words: "pragma ^Priority|Interrupt_Priority",
        said: "the pragma {0} takes one number (J.15.11)",
    },
    Case {
        within: Within::Anywhere,
        words: "until ^_",
        said: "delay until takes a Time, which this isn't (9.6)",
    },
    Case {
        within: Within::NoFunction,
        words: "return ^_",
        said: "only a function returns a value (6.5)",
    },
    Case {
        within: Within::Anywhere,
        words: "^return",
        said: "a function returns a value: write it behind return (6.5)",
    },
];

// What is said of a declaration that isn't written: `{0}` is its name, `{1}` its home and `{2}` its sort.
fn said_of_unwritable(sort: Sort) -> &'static str {
    match sort {
        Sort::Component => {
            "{0} is a component of {1}, declared in line {line}; a function may not write it (9.5.1); a procedure may"
        }
        Sort::Procedure => {
            "{0} is a procedure of {1}, declared in line {line}; a function may not call it (9.5.1); a procedure may"
        }
        Sort::Given => {
            "{0} is an in parameter, declared in line {line}, which isn't written (6.1); one that is in out may be"
        }
        Sort::LoopParameter => {
            "{0} is a loop parameter, declared in line {line}, which isn't written (5.5)"
        }
        _ => "{0} is {2}, declared in line {line}, which isn't written (3.3)",
    }
}

/// Why what stands at a word may not be written.
pub fn constant_written<'a>(words: &Words<'_, 'a>, judged: &Judged<'_, '_, '_, 'a>) -> Cause<'a> {
    match judged.denoted(words) {
        Some((item, behind)) if item.is_own => {
            let said = [item.name, item.home, item.sort.words()];
            let cause = Cause::new(words.place(behind), said_of_unwritable(item.sort), said);
            cause.with_other(item.at)
        }
        _ => words.cause(0, "{0} is a constant, which isn't written (3.3)"),
    }
}

/// Why a mode doesn't fit at a word.
pub fn bad_mode<'a>(
    words: &Words<'_, 'a>,
    around: &Around<'a>,
    judged: &Judged<'_, '_, '_, 'a>,
) -> Cause<'a> {
    if around.is_in_head {
        return words.cause(
            0,
            "{0} is a parameter of a function, and so has to be in (6.1)",
        );
    }
    if let Some((item, behind)) = judged.denoted(words) {
        let next = words.word(behind.saturating_add(1));
        if next == "," || next == ")" {
            let said = "; a parameter that is out takes a variable (6.4.1)";
            return is_a(words.place(behind), item, said);
        }
    }
    words.cause(
        0,
        "this is an expression; a parameter that is out takes a variable (6.4.1)",
    )
}

/// Why a value has to be known from the text.
pub fn not_static<'a>(words: &Words<'_, 'a>) -> Cause<'a> {
    words.cause(
        words.last_part(),
        "{0} isn't known from the text alone, as it has to be here (4.9)",
    )
}

// Whether the expression that begins at a word has the divisor 0; it is sought up to the next semicolon.
fn divides_by_zero(words: &Words<'_, '_>) -> bool {
    let mut is_divided = false;
    for behind in 0..257usize {
        let word = words.word(behind);
        if is_divided && word == "0" {
            return true;
        }
        if word == ";" {
            return false;
        }
        is_divided = is_among(word, "/|mod|rem");
    }
    false
}

/// What is too large, or one too many, where this is known of the text's declarations.
pub fn too_large<'a>(
    words: &Words<'_, 'a>,
    judged: &Judged<'_, '_, '_, 'a>,
    table: &Table,
) -> Cause<'a> {
    if judged.known.own_at(words.place(0)).is_some() {
        let said = "{0} is one too many: 64 may be open in a body, constants counted apart";
        return words.cause(0, said);
    }
    if divides_by_zero(words) {
        return words.cause(0, "the divisor is 0 here (4.5.5)");
    }
    match outside(words, judged, table) {
        Some(cause) => cause,
        None => words.cause(
            0,
            "the value that begins with {0} is outside the range that is wanted here (3.5)",
        ),
    }
}

/// What is wrong with the choices of a case statement.
pub fn bad_choice<'a>(words: &Words<'_, 'a>) -> Cause<'a> {
    let said = if words.is(0, "others") {
        "others stands alone, once, in the last alternative (5.4)"
    } else if words.was(1, "case") {
        "a value of {0} stands in no choice: write when others => (5.4)"
    } else {
        "{0} stands in a choice before this one already (5.4)"
    };
    words.cause(0, said)
}

// How many arguments stand behind a name whose last part is so many words behind.
fn arguments(words: &Words<'_, '_>, behind: usize) -> usize {
    let open = behind.saturating_add(1);
    if !words.is(open, "(") {
        return 0;
    }
    let mut depth = 0usize;
    let mut count = 1usize;
    for number in open..open.saturating_add(512) {
        match words.word(number) {
            "(" => depth = depth.saturating_add(1),
            ")" => {
                depth = depth.saturating_sub(1);
                if depth == 0 {
                    return count;
                }
            }
            "," => {
                if depth == 1 {
                    count = count.saturating_add(1);
                }
            }
            _ => {}
        }
    }
    count
}

// That a call has other arguments than there are parameters, if it has.
fn bad_count<'a>(
    words: &Words<'_, 'a>,
    item: &Declared<'a>,
    behind: usize,
    known: &Known<'a>,
) -> Option<Cause<'a>> {
    let parameters = Group::Parameters(item.unit, item.home, item.name);
    let count = known.count(parameters);
    if !item.sort.is_operation() || count == arguments(words, behind) {
        return None;
    }
    let at = words.place(behind);
    if count == 0 {
        return Some(item.told(
            at,
            "{0}, declared in line {line}, takes no arguments (6.4)",
            "{0} takes no arguments (6.4)",
        ));
    }
    let cause = item.told(
        at,
        "{0}, declared in line {line}, takes one argument for each of its parameters (6.4)",
        "{0} takes one argument for each of its parameters (6.4)",
    );
    Some(cause.with_names(": ", "", parameters))
}

// The type of a word that is no name of the text; empty where it isn't known.
fn type_of(word: &str) -> &'static str {
    if is_literal(word) {
        "Integer"
    } else if is_among(word, "True|False|Current_State") {
        "Boolean"
    } else if is_among(word, "Clock") {
        "Time"
    } else if is_among(word, "Milliseconds") {
        "Time_Span"
    } else {
        ""
    }
}

// What is said of an expression that doesn't fit: it is of a type, and another is wanted; what isn't known is empty.
fn said_of_types(given: &str, wanted: &str) -> &'static str {
    if given.is_empty() && wanted.is_empty() {
        "what begins with {0} isn't of the type that is wanted here (8.6)"
    } else if given.is_empty() {
        "what begins with {0} isn't {2}, which is wanted here (8.6)"
    } else if wanted.is_empty() {
        "{0} is {1}, which doesn't fit here (8.6)"
    } else {
        "{0} is {1}; {2} is wanted here (8.6)"
    }
}

// That what stands so many words behind is of a type where another is wanted; empty where one isn't known.
fn other_type<'a>(
    words: &Words<'_, 'a>,
    behind: usize,
    given: &'a str,
    wanted: &'static str,
) -> Cause<'a> {
    if !given.is_empty() && is_same_name(given, wanted) {
        let said = "{0} isn't of the type, or hasn't the arguments, that are wanted (8.6)";
        return words.cause(behind, said);
    }
    let said = said_of_types(given, wanted);
    Cause::new(
        words.place(behind),
        said,
        [words.word(behind), given, wanted],
    )
}

// That a name or a literal is of a type that doesn't fit, where another is wanted, or of the whole expression that it begins; empty
// where that isn't known.
fn bad_type<'a>(
    words: &Words<'_, 'a>,
    found: Option<(&Declared<'a>, usize)>,
    wanted: &'static str,
    whole: &'static str,
) -> Cause<'a> {
    if !whole.is_empty() {
        let said = said_of_types("", whole);
        return Cause::new(words.place(0), said, [words.word(0), "", whole]);
    }
    if let Some((item, behind)) = found {
        return other_type(words, behind, item.mark, wanted);
    }
    let given = type_of(words.word(0));
    other_type(words, 0, given, wanted)
}

// The constant that a text declares at a word, if it does.
fn constant_at<'k, 'a>(words: &Words<'_, 'a>, known: &'k Known<'a>) -> Option<&'k Declared<'a>> {
    match known.own_at(words.place(0)) {
        Some(item) if item.sort == Sort::Constant => Some(item),
        _ => None,
    }
}

/// Why a type, or a number of arguments, doesn't fit at a word, where this type is wanted, or this one of the whole expression that it
/// begins; empty where that isn't known.
pub fn mismatch<'a>(
    words: &Words<'_, 'a>,
    around: &Around<'a>,
    judged: &Judged<'_, '_, '_, 'a>,
    wanted: &'static str,
    whole: &'static str,
) -> Cause<'a> {
    if let Some(cause) = bad_attachment(words, around) {
        return cause;
    }
    if let Some(item) = constant_at(words, judged.known) {
        return item.cause(
            words.place(0),
            "the constant {0} needs a value, behind := (3.3.1)",
        );
    }
    let found = judged.denoted(words);
    if let Some((item, behind)) = found {
        if let Some(cause) = bad_count(words, item, behind, judged.known) {
            return cause;
        }
    }
    match first_of(&BEFORE, words, around) {
        Some(cause) => cause,
        None => bad_type(words, found, wanted, whole),
    }
}
