//! Words of other Ada, behind which no text of the grammar goes on.

use crate::around::Around;
use crate::cases::{Case, Within, first_of};
use crate::cause::Cause;
use crate::forms::is_listed;
use crate::words::Words;
use rv_lex::token::Token;

// Reserved words of Ada that no production has.
const OTHER_WORDS: [&str; 23] = [
    "abstract",
    "access",
    "aliased",
    "all",
    "array",
    "at",
    "delta",
    "digits",
    "generic",
    "goto",
    "interface",
    "limited",
    "new",
    "of",
    "overriding",
    "record",
    "renames",
    "separate",
    "some",
    "synchronized",
    "tagged",
    "declare",
    "type",
];

// What can't be declared here, and names that are none.
const DECLARATIONS: [Case; 12] = [
    Case {
        within: Within::Package,
        words: "^procedure|function",
        said: "{0} can't stand in a package here; subprograms stand in protected units only",
    },
    Case {
        within: Within::Anywhere,
        words: "^type _ is range|new|mod",
        said: "types can't be declared here: write subtype {1} is Integer range .. (3.2.1)",
    },
    Case {
        within: Within::Anywhere,
        words: "^type _ is (",
        said: "types can't be declared here: write a constant of Integer for each value of {1} (3.2.1)",
    },
    Case {
        within: Within::Anywhere,
        words: "^type _ is record|array",
        said: "types can't be declared here: write a component for each of those of {1} (3.2.1)",
    },
    Case {
        within: Within::Anywhere,
        words: "^type",
        said: "types can't be declared here; subtypes and protected types can (3.2.1)",
    },
    Case {
        within: Within::Anywhere,
        words: ": ^exception",
        said: "exceptions can't be declared; Constraint_Error, Program_Error and Host.Access_Denied are there (11.1)",
    },
    Case {
        within: Within::Anywhere,
        words: "^declare",
        said: "there are no block statements here; declare before the body's begin (5.6)",
    },
    Case {
        within: Within::Text,
        words: ";|is ^use|with",
        said: "{0} clauses stand before the package only (10.1.2)",
    },
    Case {
        within: Within::Function,
        words: "is ^(",
        said: "there are no expression functions here; write begin return .. ; end (6.8)",
    },
    Case {
        within: Within::Reserved,
        words: "protected|task|function|procedure|package ^NAME",
        said: RESERVED,
    },
    Case {
        within: Within::Reserved,
        words: "subtype|entry|for|. ^NAME",
        said: RESERVED,
    },
    Case {
        within: Within::OtherAda,
        words: "^_",
        said: "{0} isn't in the part of Ada that is taken here",
    },
];

const RESERVED: &str = "{0} is a reserved word, and no name (2.9)";

const DEFAULT: &str = "no initial value stands here: parameters and objects of packages have none";

// What is said of operators and signs.
const OPERATORS: [Case; 6] = [
    Case {
        within: Within::Statement,
        words: "NAME|NUMBER|) ^in",
        said: "there are no membership tests here: write {3} >= .. and then {3} <= .. (4.5.2)",
    },
    Case {
        within: Within::Anywhere,
        words: "= ^=",
        said: "write one = to compare (4.5.2)",
    },
    Case {
        within: Within::Anywhere,
        words: ": _ ^:=",
        said: DEFAULT,
    },
    Case {
        within: Within::Anywhere,
        words: ": _ _ ^:=",
        said: DEFAULT,
    },
    Case {
        within: Within::Parentheses,
        words: "NAME ^=>",
        said: "arguments have no names here; give them in order (6.4)",
    },
    Case {
        within: Within::Anywhere,
        words: "NAME|NUMBER|) ^and|or|xor",
        said: "{0} can't follow another logical operator without parentheses (4.4)",
    },
];

/// Whether a word is reserved in Ada, but in no production.
pub(crate) fn is_other_ada(word: &str) -> bool {
    is_listed(&OTHER_WORDS, word)
}

/// Why a word that other Ada has can't stand here, and what to write instead; `None` where it has no such word.
pub fn other_ada<'a>(words: &Words<'_, 'a>, around: &Around<'a>) -> Option<Cause<'a>> {
    match first_of(&DECLARATIONS, words, around) {
        Some(cause) => Some(cause),
        None => first_of(&OPERATORS, words, around),
    }
}

/// Why a word nests too deep.
pub fn too_deep<'a>(tokens: &[Token<'a>], place: usize) -> Cause<'a> {
    let said = if Words::at(tokens, place).is(0, "(") {
        "this parenthesis is the 65th that is open; 64 may be"
    } else {
        "this statement is the 65th that is open; 64 may be"
    };
    Cause::plain(place, said)
}
