//! Names that denote what can't stand where they do, and bodies that aren't as declared.

use crate::handlers::is_attached;
use crate::judged::{Judged, words_of_sort};
use rv_cause::around::Around;
use rv_cause::cases::{Case, Within, first_of};
use rv_cause::cause::Cause;
use rv_cause::declared::{Declared, Sort, is_a, phrase};
use rv_cause::known::{Group, Known};
use rv_cause::words::{Words, is_among};
use rv_seen::Stop;
use rv_text::is_same_name;

// What has no body, and what can't stand where it does.
const WRONG_KINDS: [Case; 9] = [
    Case {
        within: Within::Anywhere,
        words: "^exit",
        said: "exit stands in loops only (5.7)",
    },
    Case {
        within: Within::Anywhere,
        words: "^raise",
        said: "raise without a name stands in handlers only (11.3)",
    },
    Case {
        within: Within::Anywhere,
        words: "^task|protected type",
        said: "{2} has no body; the package's body has to have it (3.11.1)",
    },
    Case {
        within: Within::Anywhere,
        words: "^task|protected",
        said: "{1} has no body; the package's body has to have it (3.11.1)",
    },
    Case {
        within: Within::Anywhere,
        words: "^function|procedure|entry",
        said: "{1} has no body; the body of {5} has to have it (9.4)",
    },
    Case {
        within: Within::Specification,
        words: "pragma ^Attach_Handler",
        said: "the pragma Attach_Handler takes the name of a procedure and a line (J.15.7)",
    },
    Case {
        within: Within::Anywhere,
        words: "pragma ^Attach_Handler",
        said: "the pragma Attach_Handler stands in the declaration of a protected unit only (J.15.7)",
    },
    Case {
        within: Within::Anywhere,
        words: "pragma ^_",
        said: "the pragma {0} stands in the declaration of a protected unit or a task only (J.15.11)",
    },
    Case {
        within: Within::Anywhere,
        words: "^Attach_Handler",
        said: "a procedure that is attached to a line has no parameters (C.3.1)",
    },
];

// Whether the body of an operation is one of this sort.
fn is_body_of(words: &Words<'_, '_>, sort: Sort) -> bool {
    match sort {
        Sort::Function => words.was(1, "function"),
        Sort::Procedure => words.was(1, "procedure"),
        Sort::Entry => words.was(1, "entry"),
        _ => false,
    }
}

// How many words behind a word the next of a profile stands: `in` may be left out where no `out` follows.
fn behind_in(words: &Words<'_, '_>, count: usize) -> usize {
    let next = count.saturating_add(1);
    if words.is(count, "in") && !words.is(next, "out") {
        return next;
    }
    count
}

// How many words behind a word the last part of the name stands that begins so many behind.
fn last_behind(words: &Words<'_, '_>, count: usize) -> usize {
    let mut last = count;
    for _part in 0..2 {
        if words.is(last.saturating_add(1), ".") {
            last = last.saturating_add(2);
        }
    }
    last
}

// Where two profiles differ, behind their names: at these words, or, where a declaration ends there, in what stands before a point.
fn first_difference(
    declared: &Words<'_, '_>,
    at: (usize, usize),
    prefix: Option<(usize, usize)>,
) -> (usize, usize) {
    match prefix {
        Some(prefix) if is_among(declared.word(at.0), ";|with") => prefix,
        _ => at,
    }
}

// How many words behind two names the first words stand in which their profiles differ.
fn differing(declared: &Words<'_, '_>, body: &Words<'_, '_>) -> (usize, usize) {
    let mut first = 1usize;
    let mut second = 1usize;
    let mut prefix = None;
    for _turn in 0..256usize {
        first = behind_in(declared, first);
        second = behind_in(body, second);
        if !is_same_name(declared.word(first), body.word(second)) {
            let whole = last_behind(declared, first);
            let other = last_behind(body, second);
            if !is_same_name(declared.word(whole), body.word(other)) {
                return first_difference(declared, (first, second), prefix);
            }
            if prefix.is_none() {
                prefix = Some((first, second));
            }
            first = whole;
            second = other;
        }
        first = first.saturating_add(1);
        second = second.saturating_add(1);
    }
    (first, second)
}

// The mode of a parameter, where this word stands behind its colon, or behind a mode in.
fn mode_by<'w>(word: &str) -> &'w str {
    if is_same_name(word, "in") {
        "in out"
    } else if is_same_name(word, "out") {
        "out"
    } else {
        "in"
    }
}

// The parameter whose mode or subtype stands so many words behind.
fn parameter_before<'a>(words: &Words<'_, 'a>, count: usize) -> &'a str {
    let before = count.saturating_sub(2);
    if words.is(before, ":") {
        return words.word(count.saturating_sub(3));
    }
    words.word(before)
}

const PROFILE: &str =
    "the parameters or the result of {0} aren't as in line {line}, which has `{1}` where `{2}` stands here (6.3.1)";

const MODE: &str =
    "the mode of {0} is `{1}` in line {line}, and `{2}` here; a body has the modes of its declaration (6.3.1)";

// What is wrong with the parameters or the result of a body.
fn bad_profile<'a>(words: &Words<'_, 'a>, declared: &Declared<'a>) -> Cause<'a> {
    let there = words.seen_from(declared.at);
    let (first, second) = differing(&there, words);
    let one = there.word(first);
    let other = words.word(second);
    let at = words.place(0);
    if is_among(one, "in|out") || is_among(other, "in|out") {
        let said = [
            parameter_before(words, second),
            mode_by(one),
            mode_by(other),
        ];
        return Cause::new(at, MODE, said).with_other(declared.at);
    }
    Cause::new(at, PROFILE, [words.word(0), one, other]).with_other(declared.at)
}

// What is wrong with a body whose declaration is there.
fn bad_body<'a>(words: &Words<'_, 'a>, around: &Around<'a>, known: &Known<'a>) -> Cause<'a> {
    let word = words.word(0);
    let members = Group::Members(around.unit, around.home);
    let found = match known.find(members, word) {
        Some(item) if is_body_of(words, item.sort) => return bad_profile(words, item),
        Some(item) => Some(item),
        None => known.find(Group::Package(around.unit), word),
    };
    match found {
        Some(item) => is_a(
            words.place(0),
            item,
            "; this is a body of another kind (3.11.1)",
        ),
        None => words.cause(0, "{0} isn't declared as what this is the body of (3.11.1)"),
    }
}

const VALUE: &str = "; a value has to stand here (4.4)";

// Where a name stands that denotes something of the wrong sort: the words around its first part, and the word behind its last.
#[derive(Clone, Copy)]
struct Place {
    words: &'static str,
    next: &'static str,
    said: &'static str,
}

const PLACES: [Place; 5] = [
    Place {
        words: ":|constant|in|out|is ^_",
        next: "_",
        said: "; a subtype has to stand here (3.2.2)",
    },
    Place {
        words: "^_",
        next: ":=",
        said: "; what is assigned is a variable or a component (5.2)",
    },
    Place {
        words: "raise ^_",
        next: "_",
        said: "; what is raised is an exception (11.3)",
    },
    Place {
        words: ";|begin|then|else|loop|=> ^_",
        next: "_",
        said: "; a statement calls a procedure or an entry (6.4)",
    },
    Place {
        words: "^_",
        next: "(",
        said: "; an expression calls a function (6.4)",
    },
];

const STATEMENT: &str =
    "; a statement calls a procedure or an entry, and a result stands behind return (6.5)";

const OBJECT: &str =
    "; packages have no variables here: an object is of a protected type or Suspension_Object";

const RAISED: &str = "; a handler takes exceptions (11.2)";

// Whether the type of an object of a package stands here.
fn is_object(words: &Words<'_, '_>, around: &Around<'_>) -> bool {
    around.home.is_empty() && around.parentheses == 0 && words.was(1, ":")
}

// Whether an exception of a handler stands here.
fn is_in_handler(words: &Words<'_, '_>) -> bool {
    if !words.was(1, "when") && !words.was(1, "|") || words.was(2, "exit") {
        return false;
    }
    let mut ended = 0usize;
    for count in 2..4096usize {
        if words.was(count, "exception") {
            return true;
        }
        if words.was(count, "case") {
            if words.was(count.saturating_add(1), "end") {
                ended = ended.saturating_add(1);
            } else if ended == 0 {
                return false;
            } else {
                ended = ended.saturating_sub(1);
            }
        }
        if words.back(count).is_empty() || words.was(count, "entry") {
            return false;
        }
    }
    false
}

// What would have to stand where a name stands whose last part is so many words behind.
fn wanted<'w>(words: &Words<'_, '_>, around: &Around<'_>, behind: usize) -> &'w str {
    if is_attached(words) {
        return "; a pragma attaches a procedure to a line (J.15.7)";
    }
    if around.is_in_head && words.fit("=> ^_") {
        return VALUE;
    }
    if is_object(words, around) {
        return OBJECT;
    }
    if is_in_handler(words) {
        return RAISED;
    }
    let next = words.word(behind.saturating_add(1));
    if next == ";" && around.is_function && words.fit(";|begin|then|else|loop|=> ^_") {
        return STATEMENT;
    }
    for place in &PLACES {
        if is_among(next, place.next) && words.fit(place.words) {
            return place.said;
        }
    }
    VALUE
}

// That a part of a protected type is named behind that, outside its body.
fn of_type<'a>(words: &Words<'_, 'a>, judged: &Judged<'_, '_, '_, 'a>) -> Option<Cause<'a>> {
    let Stop::Part(number, prefix) = judged.stop else {
        return None;
    };
    let behind = number.saturating_sub(1).saturating_mul(2);
    let said = "; what it declares is named behind one of its objects (9.4)";
    Some(is_a(words.place(behind), judged.item(prefix)?, said))
}

// That what a name denotes can't stand here.
fn bad_sort<'a>(
    words: &Words<'_, 'a>,
    around: &Around<'a>,
    judged: &Judged<'_, '_, '_, 'a>,
) -> Cause<'a> {
    if let Some(cause) = of_type(words, judged) {
        return cause;
    }
    let last = words.last_part();
    let at = words.place(last);
    if let Some((item, _)) = judged.denoted(words) {
        return is_a(at, item, wanted(words, around, last));
    }
    match judged.stop {
        Stop::Denotes(found) => phrase(
            at,
            words.word(last),
            words_of_sort(found.sort()),
            wanted(words, around, last),
        ),
        _ => words.cause(0, "{0} denotes nothing that can stand here (8.6)"),
    }
}

// Whether the name of a body stands here, or that of an operation in one.
pub(crate) fn is_body(words: &Words<'_, '_>, around: &Around<'_>) -> bool {
    words.was(1, "body") || around.is_body && words.fit("function|procedure|entry ^_")
}

/// Why what stands at a word can't stand there.
pub fn wrong_kind<'a>(
    words: &Words<'_, 'a>,
    around: &Around<'a>,
    judged: &Judged<'_, '_, '_, 'a>,
) -> Cause<'a> {
    if let Some(cause) = first_of(&WRONG_KINDS, words, around) {
        return cause;
    }
    if is_body(words, around) {
        return bad_body(words, around, judged.known);
    }
    if around.unit.is_empty() {
        let said = "{0} is a unit; use takes library packages only: write {0}. before its names";
        return words.cause(0, said);
    }
    bad_sort(words, around, judged)
}
