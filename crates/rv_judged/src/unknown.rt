//! Names that nothing is declared by.

use crate::judged::Judged;
use crate::library;
use crate::wrong::is_body;
use rv_cause::around::Around;
use rv_cause::cases::{Case, Within, first_of};
use rv_cause::cause::Cause;
use rv_cause::declared::Declared;
use rv_cause::forms::{Form, is_listed, said_of_name};
use rv_cause::known::{Group, Known, near_among};
use rv_cause::words::Words;
use rv_scope::{Declared as Meaning, Library};
use rv_seen::{Stop, nearest_seen};
use rv_text::is_same_name;
use std::alloc::{AllocError, Global};

// What is said of an attribute, and of a body that has no declaration.
const CASES: [Case; 4] = [
    Case {
        within: Within::Anywhere,
        words: "' ^_",
        said: "{0} is no attribute here; First and Last are (3.5)",
    },
    Case {
        within: Within::Anywhere,
        words: "package body ^_",
        said: "this is the body of {0}; the package is {4}",
    },
    Case {
        within: Within::Anywhere,
        words: "body ^_",
        said: "nothing named {0} is declared that this is the body of (3.11.1)",
    },
    Case {
        within: Within::Anywhere,
        words: "accept ^_",
        said: "there is no entry {0}: tasks have none here, and accept nothing (D.7)",
    },
];

const FLOAT: &str =
    "{0} isn't in the part of Ada that is taken here; write Integer in smaller units, as hundredths";

const TEXT: &str =
    "{0} isn't in the part of Ada that is taken here; there are no strings and characters (2.6)";

const CLOCK: &str = "this host's clock counts milliseconds: write Milliseconds (..) (D.8)";

// Names of Ada that this host doesn't have, and names of other languages.
const OTHER: [Form; 18] = [
    Form {
        word: "Float",
        said: FLOAT,
    },
    Form {
        word: "Long_Float",
        said: FLOAT,
    },
    Form {
        word: "Duration",
        said: "Duration isn't in the part of Ada that is taken here; spans are of Ada.Real_Time.Time_Span",
    },
    Form {
        word: "Long_Integer",
        said: "Long_Integer isn't in the part of Ada that is taken here; Integer has 32 bits (3.5.4)",
    },
    Form {
        word: "Short_Integer",
        said: "Short_Integer isn't in the part of Ada that is taken here; write Integer with a range (3.5.4)",
    },
    Form {
        word: "Character",
        said: TEXT,
    },
    Form {
        word: "String",
        said: TEXT,
    },
    Form {
        word: "Seconds",
        said: CLOCK,
    },
    Form {
        word: "Minutes",
        said: CLOCK,
    },
    Form {
        word: "Microseconds",
        said: CLOCK,
    },
    Form {
        word: "Nanoseconds",
        said: CLOCK,
    },
    Form {
        word: "Put_Line",
        said: "this host has no Put_Line: units neither read nor write texts",
    },
    Form {
        word: "Bool",
        said: "the type of truth values is Boolean in Ada: write Boolean (3.5.3)",
    },
    Form {
        word: "Int",
        said: "the type of whole numbers is Integer in Ada: write Integer (3.5.4)",
    },
    Form {
        word: "Unsigned",
        said: "whole numbers from 0 on are of the subtype Natural in Ada: write Natural (3.5.4)",
    },
    Form {
        word: "Break",
        said: "there is no break in Ada: exit leaves a loop (5.7)",
    },
    Form {
        word: "Continue",
        said: "there is no continue in Ada: write if .. end if around what is left out (5.3)",
    },
    Form {
        word: "Sleep",
        said: "a task delays until a time: write delay until Clock + Milliseconds (..) (D.7)",
    },
];

// A part of a name that isn't there: how many words behind it stands, what it would be a part of, and which parts there are.
#[derive(Clone, Copy)]
struct Part<'a> {
    behind: usize,
    whole: &'a str,
    group: Group<'a>,
}

// That a part isn't there, with what there is.
fn no_part<'a>(
    alloc: Global,
    words: &Words<'_, 'a>,
    part: Part<'a>,
    known: &Known<'a>,
) -> Result<Cause<'a>, AllocError> {
    let word = words.word(part.behind);
    let near = known.near(alloc, word, part.group)?;
    let place = words.place(part.behind);
    let cause = Cause::new(place, "{0} has no {1}", [part.whole, word, ""]);
    Ok(cause.with_names("; it has ", near, part.group))
}

// What is named behind a declaration and a point: within its protected unit all, elsewhere what others call.
fn parts_of<'a>(item: &Declared<'a>, around: &Around<'a>) -> Group<'a> {
    let home = item.operations_home();
    if is_same_name(item.unit, around.unit) && is_same_name(home, around.home) {
        Group::Members(item.unit, home)
    } else {
        Group::Called(item.unit, home)
    }
}

// What is named behind what denotes this and a point.
fn named_behind<'a>(prefix: Meaning, item: &Declared<'a>, around: &Around<'a>) -> Group<'a> {
    match prefix {
        Meaning::OwnUnit => Group::Objects(item.unit),
        Meaning::Unit(_) => Group::Shown(item.unit),
        _ => parts_of(item, around),
    }
}

const NOT_KNOWN: &str = "{0} has no {1} that is known here";

const NOT_HELD: &str = "{0} has no {1} that is known here; it has {2}";

// A sentence about what a library package has in place of a word.
fn of_library<'a>(
    at: usize,
    said: &'static str,
    whole: &'a str,
    word: &'a str,
    has: &'a str,
) -> Cause<'a> {
    Cause::new(at, said, [whole, word, has])
}

// That a library package, whose name ends at a word, hasn't what stands behind it, with what is near or all that it has.
fn no_item<'a>(
    alloc: Global,
    words: &Words<'_, 'a>,
    behind: usize,
    library: Library,
) -> Result<Cause<'a>, AllocError> {
    let word = words.word(behind);
    let at = words.place(behind);
    if let Some(said) = said_of_name(&OTHER, word) {
        return Ok(Cause::plain(at, said));
    }
    let whole = library::name_of(library);
    let near = library::near_in(alloc, library, word)?;
    if !near.is_empty() {
        return Ok(of_library(at, "{0} has no {1}; it has {2}", whole, word, near));
    }
    let held = library::held_by(library);
    if held.is_empty() {
        return Ok(Cause::pair(at, NOT_KNOWN, whole, word));
    }
    Ok(of_library(at, NOT_HELD, whole, word, held))
}

// Which part of a name with points isn't there.
fn dotted<'a>(
    alloc: Global,
    words: &Words<'_, 'a>,
    around: &Around<'a>,
    judged: &Judged<'_, '_, '_, 'a>,
) -> Result<Cause<'a>, AllocError> {
    let Stop::Part(number, prefix) = judged.stop else {
        return simple(alloc, words, around, judged);
    };
    let behind = number.saturating_mul(2);
    if let Meaning::LibraryPackage(library) = prefix {
        return no_item(alloc, words, behind, library);
    }
    match judged.item(prefix) {
        Some(item) => {
            let part = Part {
                behind,
                whole: words.word(behind.saturating_sub(2)),
                group: named_behind(prefix, item, around),
            };
            no_part(alloc, words, part, judged.known)
        }
        None => simple(alloc, words, around, judged),
    }
}

// The predefined name that is nearest to a word; empty where none is near.
fn near_predefined(alloc: Global, word: &str) -> Result<&'static str, AllocError> {
    near_among(alloc, word, &library::NAMES)
}

// The name that is nearest to a word of those that are seen, else of those that stand around it, else of the predefined ones; empty where
// none is near.
fn near_name<'a>(
    alloc: Global,
    word: &str,
    around: &Around<'a>,
    judged: &Judged<'_, '_, '_, 'a>,
) -> Result<&'a str, AllocError> {
    let names = judged.known.names(alloc)?;
    if let Some(near) = nearest_seen(alloc, judged.scope, None, word, names.as_slice())? {
        return Ok(near);
    }
    match judged.known.near(alloc, word, Group::seen(around))? {
        "" => near_predefined(alloc, word),
        near => Ok(near),
    }
}

// Reserved words that are statements, or begin one that may look like a call.
const STATEMENTS: [&str; 5] = ["null", "return", "exit", "raise", "others"];

// The priorities that an aspect or a pragma takes whose value stands here; empty where none does.
fn priorities_at<'w>(words: &Words<'_, '_>) -> &'w str {
    if words.fit("Interrupt_Priority =>|( ^_") {
        "31 .. 40"
    } else if words.fit("Priority =>|( ^_") {
        "1 .. 40"
    } else {
        ""
    }
}

const NO_EXCEPTION: &str =
    "nothing named {0} is declared; exceptions are Constraint_Error, Program_Error and Host.Access_Denied (11.1)";

const NO_PRIORITY: &str =
    "nothing named {0} is declared; a priority is a whole number, {1} here (D.1)";

// That nothing of a simple name is declared, and nothing of a name near to it; it may be a reserved word.
fn nameless<'a>(alloc: Global, words: &Words<'_, 'a>) -> Result<Cause<'a>, AllocError> {
    let word = words.word(0);
    if words.was(1, "raise") {
        return Ok(words.cause(0, NO_EXCEPTION));
    }
    let priorities = priorities_at(words);
    if !priorities.is_empty() {
        return Ok(Cause::pair(words.place(0), NO_PRIORITY, word, priorities));
    }
    match near_among(alloc, word, &STATEMENTS)? {
        "" => Ok(words.cause(0, "nothing named {0} is declared (8.3)")),
        near => Ok(Cause::pair(
            words.place(0),
            "nothing named {0} is declared; {1} is a reserved word",
            word,
            near,
        )),
    }
}

// That nothing of a simple name is declared.
fn simple<'a>(
    alloc: Global,
    words: &Words<'_, 'a>,
    around: &Around<'a>,
    judged: &Judged<'_, '_, '_, 'a>,
) -> Result<Cause<'a>, AllocError> {
    let word = words.word(0);
    if let Some(said) = said_of_name(&OTHER, word) {
        return Ok(words.cause(0, said));
    }
    match near_name(alloc, word, around, judged)? {
        "" => nameless(alloc, words),
        near => {
            let item = match judged.meaning(near) {
                Some(item) => Some(item),
                None => judged.known.standing(near, around),
            };
            Ok(near_to(words, near, item))
        }
    }
}

// That nothing of the name is declared that stands here, but something is of one near to it, and where that is.
fn near_to<'a>(words: &Words<'_, 'a>, near: &'a str, item: Option<&Declared<'a>>) -> Cause<'a> {
    let at = words.place(0);
    let word = words.word(0);
    match item {
        Some(item) if item.is_own => {
            let said = "nothing named {0} is declared; {1} is, in line {line}";
            Cause::pair(at, said, word, near).with_other(item.at)
        }
        _ => Cause::pair(at, "nothing named {0} is declared; {1} is", word, near),
    }
}

// The words of a name, and behind them one more.
fn with_last<'a>(name: [&'a str; 6], last: &'a str) -> [&'a str; 6] {
    let [first, point, second, next, third, _] = name;
    [first, point, second, next, third, last]
}

// That there is no library package of a name with points, with one that is near to it.
fn no_package<'a>(alloc: Global, words: &Words<'_, 'a>) -> Result<Cause<'a>, AllocError> {
    let at = words.place(0);
    let name = words.name();
    let [first, point, second, next, third, _] = name;
    let whole = format!(in alloc; "{first}{point}{second}{next}{third}")?;
    let near = library::near_package(alloc, whole.as_str())?;
    if near.is_empty() {
        let said = "this host has no library package {0}{1}{2}{3}{4} (10.1.2)";
        return Ok(Cause::full(at, said, name));
    }
    let said = "this host has no library package {0}{1}{2}{3}{4}; {5} is there (10.1.2)";
    Ok(Cause::full(at, said, with_last(name, near)))
}

// That a context clause names no library unit.
fn in_context<'a>(
    alloc: Global,
    words: &Words<'_, 'a>,
    known: &Known<'a>,
) -> Result<Cause<'a>, AllocError> {
    let word = words.word(0);
    let at = words.place(0);
    if words.is(1, ".") {
        return no_package(alloc, words);
    }
    let own = words.package();
    if is_same_name(own, word) {
        return Ok(words.cause(0, "{0} is this package itself; with takes others (10.1.2)"));
    }
    match known.near(alloc, word, Group::Units)? {
        near if near.is_empty() || is_same_name(near, own) => Ok(words.cause(
            0,
            "no unit {0} is loaded before this one (10.1.2)",
        )),
        near => Ok(Cause::new(at, "no unit {0} is loaded here; {1} is", [word, near, ""])),
    }
}

// What is said of an aspect that isn't there.
fn said_of_aspect(name: &str) -> &'static str {
    if is_listed(&["Ceiling", "Ceiling_Priority"], name) {
        "the ceiling of a protected unit is its Priority: write Priority in place of {0} (D.3)"
    } else {
        "the aspect {0} has no effect here (13.1.1)"
    }
}

/// Why a name denotes nothing at all. Err where memory was refused.
pub fn unknown<'a>(
    alloc: Global,
    words: &Words<'_, 'a>,
    around: &Around<'a>,
    judged: &Judged<'_, '_, '_, 'a>,
) -> Result<Cause<'a>, AllocError> {
    if let Some(cause) = first_of(&CASES, words, around) {
        return Ok(cause);
    }
    if is_body(words, around) {
        let operations = Part {
            behind: 0,
            whole: around.home,
            group: Group::Operations(around.unit, around.home),
        };
        return no_part(alloc, words, operations, judged.known);
    }
    if around.unit.is_empty() {
        return in_context(alloc, words, judged.known);
    }
    if around.is_in_head && words.fit("with|, ^_") {
        return Ok(words.cause(0, said_of_aspect(words.word(0))));
    }
    if words.is(1, ".") {
        return dotted(alloc, words, around, judged);
    }
    simple(alloc, words, around, judged)
}
