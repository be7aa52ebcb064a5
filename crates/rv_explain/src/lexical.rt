//! Characters of a unit text that make no word.

use rv_cause::cause::Cause;
use rv_cause::forms::Form;
use rv_cause::words::Words;
use rv_misread::{NameReason, NumberReason, name_reason, number_reason};

// What is said of a character, by what stands there.
const CHARACTERS: [Form; 12] = [
    Form {
        word: "\"",
        said: "there are no strings here, nor characters in quotes (2.6)",
    },
    Form {
        word: "**",
        said: "** is no operator here; multiply instead (4.5.6)",
    },
    Form {
        word: "&",
        said: "& joins no values here; write and for Boolean ones (4.5)",
    },
    Form {
        word: "!=",
        said: "write /= for not equal (4.5.2)",
    },
    Form {
        word: "_",
        said: "a name begins with a letter, and no underscore (2.3)",
    },
    Form {
        word: "!",
        said: "! is no operator in Ada: write not (4.5.6)",
    },
    Form {
        word: "%",
        said: "% is no operator in Ada: write mod or rem (4.5.5)",
    },
    Form {
        word: "#",
        said: "a comment begins with -- in Ada (2.7)",
    },
    Form {
        word: "{",
        said: "there are no braces in Ada: words as is, begin, then and loop open what an end closes",
    },
    Form {
        word: "}",
        said: "there are no braces in Ada: words as is, begin, then and loop open what an end closes",
    },
    Form {
        word: "[",
        said: "there are no square brackets here, nor arrays (3.6)",
    },
    Form {
        word: "\\",
        said: "a backslash stands in comments only (2.1)",
    },
];

const RELATIVE: &str =
    "there is no relative delay in the profile Ravenscar (D.7), and numbers are whole: write delay until Clock + Milliseconds (..)";

const REAL: &str =
    "{1} isn't in the part of Ada that is taken here, nor are fractions, as {0}: write Integer in smaller units, as hundredths";

const PRIORITY: &str = "{0} has a fraction; a priority is a whole number, {1} here (D.1)";

// The priorities that the aspect or the pragma takes whose value stands here.
fn bounds_of<'w>(words: &Words<'_, '_>) -> &'w str {
    if words.was(2, "Priority") {
        "1 .. 40"
    } else {
        "31 .. 40"
    }
}

// What stands from a byte of a text on.
fn rest_from(text: &str, at: usize) -> &str {
    text.get(at..).unwrap_or("")
}

// What stands at the front of a text, up to a blank or a sign.
fn front_of(rest: &str) -> &str {
    for (place, byte) in rest.as_bytes().iter().enumerate() {
        let is_part = byte.is_ascii_alphanumeric()
            || *byte == b'_'
            || *byte == b'#'
            || *byte == b'.';
        if !is_part {
            return rest.get(..place).unwrap_or("");
        }
    }
    rest
}

// What stands before the first point of a word.
fn before_point(word: &str) -> &str {
    match word.split_once('.') {
        Some((front, _)) => front,
        None => word,
    }
}

/// Why a character begins no word.
pub(crate) fn bad_character<'a>(text: &'a str, at: usize) -> Cause<'a> {
    let rest = rest_from(text, at);
    for form in &CHARACTERS {
        if rest.starts_with(form.word) {
            return Cause::plain(at, form.said);
        }
    }
    Cause::plain(at, "no word begins with this character (2.2)")
}

// What is said of digits that are no number.
fn said_of_number(reason: NumberReason) -> &'static str {
    match reason {
        NumberReason::NotBased => {
            "{0} is no based number: a base of 2 .. 16, and digits below it between two # (2.4.2)"
        }
        NumberReason::Fraction => "{0} has a fraction; numbers are whole here (2.4.1)",
        NumberReason::StrayUnderscore => {
            "{0} has an underscore that isn't between two digits (2.4.1)"
        }
        NumberReason::TooGreat => "{0} is above the greatest number, 2147483647",
        NumberReason::Exponent => "{0} has an exponent; write the number out (2.4.1)",
        NumberReason::Letter => "a letter stands directly behind the digits of {0} (2.4)",
    }
}

/// Why digits with a fraction stand behind these words of a text; `None` where they make it no clearer, or there is no fraction.
pub(crate) fn bad_fraction<'a>(
    text: &'a str,
    at: usize,
    before: &Words<'_, 'a>,
) -> Option<Cause<'a>> {
    let rest = rest_from(text, at);
    let Some(NumberReason::Fraction) = number_reason(rest.as_bytes()) else {
        return None;
    };
    if before.was(1, "delay") {
        return Some(Cause::plain(at, RELATIVE));
    }
    if before.fit("Priority|Interrupt_Priority =>|( ^_") {
        return Some(Cause::pair(at, PRIORITY, front_of(rest), bounds_of(before)));
    }
    if before.fit("Float|Long_Float|Duration := ^_") {
        return Some(Cause::pair(at, REAL, front_of(rest), before.back(2)));
    }
    None
}

// What is shown of what stands at the front of a text: a fraction or a based number whole, and else what stands before a point.
fn shown_of(rest: &str, reason: NumberReason) -> &str {
    match reason {
        NumberReason::Fraction | NumberReason::NotBased => front_of(rest),
        _ => before_point(front_of(rest)),
    }
}

/// Why digits are no number.
pub(crate) fn bad_number<'a>(text: &'a str, at: usize) -> Cause<'a> {
    let rest = rest_from(text, at);
    if let Some(("0", digits)) = front_of(rest).split_once('x') {
        let said = "a number of the base 16 has another form in Ada: write 16#{0}# (2.4.2)";
        return Cause::of(at, said, digits);
    }
    let reason = number_reason(rest.as_bytes()).unwrap_or(NumberReason::Letter);
    Cause::of(at, said_of_number(reason), shown_of(rest, reason))
}

/// Why a word that begins with a letter is no name.
pub(crate) fn bad_name<'a>(text: &'a str, at: usize) -> Cause<'a> {
    let rest = rest_from(text, at);
    let said = match name_reason(rest.as_bytes()) {
        Some(NameReason::StrayUnderscore) => {
            "{0} has an underscore that isn't between two letters or digits (2.3)"
        }
        _ => "this name has over 64 characters, which is the most here (2.3)",
    };
    Cause::of(at, said, before_point(front_of(rest)))
}
