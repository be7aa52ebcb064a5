//! Lines behind a line `@run` that are no commands.

use crate::line::{Line, said_of};
use rv_cause::cause::Cause;
use rv_cause::forms::Form;
use rv_text::integer_of;

const ENDING: &str = "nothing may stand behind halt, nor behind quit";

// What a command takes, by its word.
const COMMANDS: [Form; 9] = [
    Form {
        word: "append",
        said: "append takes a line of a list",
    },
    Form {
        word: "remove",
        said: "remove takes the number of a line of the list",
    },
    Form {
        word: "replace",
        said: "replace takes the number of a line, and a line of a list",
    },
    Form {
        word: "tick",
        said: "tick takes how many ticks, 1 .. 1000000",
    },
    Form {
        word: "raise",
        said: "raise takes the number of an interrupt line, 0 .. 9",
    },
    Form {
        word: "journal",
        said: "journal takes the number of the first entry to print, 1 or more",
    },
    Form {
        word: "load",
        said: "load stands alone; behind it come a unit text and a line @end",
    },
    Form {
        word: "halt",
        said: ENDING,
    },
    Form {
        word: "quit",
        said: ENDING,
    },
];

// Whether a command takes one number.
fn is_numbered(word: &str) -> bool {
    word == "tick" || word == "remove" || word == "raise" || word == "journal"
}

// The number of the word at fault of a command that takes something.
fn at_fault(line: &Line<'_>) -> usize {
    let is_more = line.is(0, "replace") || line.has(2) && is_numbered(line.word(0));
    if is_more && integer_of(line.word(1)).is_some() {
        2
    } else {
        1
    }
}

/// Why a line is no command.
pub(crate) fn bad_command<'a>(line: &Line<'a>) -> Cause<'a> {
    if line.count() == 0 {
        return line.cause(0, "a blank line is no command");
    }
    match said_of(&COMMANDS, line.word(0)) {
        Some(said) => line.cause(at_fault(line), said),
        None => line.cause(
            0,
            "{0} is no command; there are append, remove, replace, tick, raise, halt, load, journal and quit",
        ),
    }
}
