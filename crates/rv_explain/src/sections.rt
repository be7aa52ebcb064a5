//! Lines that open no section where they stand.

use crate::line::Line;
use rv_cause::cause::Cause;
use rv_near::nearest;
use rv_script::{Opening, opening_of};
use std::alloc::{AllocError, Global};

const OPENINGS: [&str; 7] = [
    "@host.toml",
    "@unit",
    "@shape",
    "@list",
    "@steps",
    "@journal",
    "@run",
];

// What is said of a line that opens what one command alone takes, behind a section of this opening: which command that is, and by which
// flag another may look at it.
fn of_one_command(opening: Opening, before: Option<Opening>) -> &'static str {
    match before {
        Some(Opening::Steps) => "{0} can't stand behind @steps: a script is for one command",
        Some(Opening::Journal) => { "{0} can't stand behind @journal: a script is for one command" }
        _ => match opening {
            Opening::Steps => {
                "only play takes steps; check looks at them with --script, and ./ravenhost audit --script passes over them"
            }
            Opening::Run => {
                "only run takes commands; check looks at them with --script, and ./ravenhost audit --script passes over them"
            }
            _ => {
                "only audit takes a journal, and none with --journal; check looks at it with --script"
            }
        },
    }
}

// What is said of a line that opens something elsewhere, behind a section of this opening.
fn elsewhere(opening: Opening, before: Option<Opening>) -> &'static str {
    match opening {
        Opening::Settings => "{0} may only stand first",
        Opening::AccessList => {
            "an audit takes no list; ./ravenhost audit --script passes over lists, steps and commands"
        }
        Opening::Shape => {
            "run takes no shapes, since its threads run the texts of units: write @unit"
        }
        Opening::Steps | Opening::Run | Opening::Journal => of_one_command(opening, before),
        Opening::UnitText => "{0} has no place in this command",
    }
}

// What is said of a word that opens no section, and may be meant for an opening that is near to it.
fn unknown<'a>(alloc: Global, word: &'a str) -> Result<Cause<'a>, AllocError> {
    match nearest(alloc, word, &OPENINGS)? {
        Some(near) => Ok(Cause::pair(0, "there is no section {0}; did you mean {1}?", word, near)),
        None => Ok(Cause::of(
            0,
            "there is no section {0}; there are @host.toml, @unit, @shape, @list, @steps, @journal and @run",
            word,
        )),
    }
}

/// Why a line opens no section, behind a section of this opening.
pub(crate) fn bad_section<'a>(
    alloc: Global,
    line: &'a str,
    before: Option<Opening>,
) -> Result<Cause<'a>, AllocError> {
    if let Some(behind) = line.strip_prefix("\u{feff}") {
        let said = "a byte order mark stands before {0}; a script has none";
        return Ok(Cause::of(0, said, behind));
    }
    let words = Line::of(alloc, line, 0)?;
    let word = words.word(0);
    if !line.starts_with("@") {
        return Ok(words.cause(0, "{0} stands before the first section"));
    }
    if let Some(opening) = opening_of(line) {
        return Ok(Cause::of(0, elsewhere(opening, before), word));
    }
    if opening_of(word).is_some() {
        let said = "nothing may stand behind {0}, not even a blank";
        return Ok(Cause::of(word.len(), said, word));
    }
    unknown(alloc, word)
}
