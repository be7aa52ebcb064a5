//! Static values outside the range that is wanted (3.5): which that is says what is known of the declaration that a name denotes there.

use crate::judged::Judged;
use rv_cause::cause::Cause;
use rv_cause::known::mark_of_list;
use rv_cause::words::{Words, is_among, is_literal};
use rv_scope::Table;
use rv_seen::range_of;

// A range: what is said of a value outside it, its bounds, and what has it, with the place where that is declared.
#[derive(Clone, Copy)]
struct Wanted<'a> {
    said: &'static str,
    low: i64,
    high: i64,
    of: &'a str,
    at: Option<usize>,
}

const HERE: &str = "{0}{1} is outside {2} .. {3}, the range that is written here (3.5)";

const PREDEFINED: &str = "{0}{1} is outside {low} .. {high}, the range of {2} (3.5)";

const DECLARED: &str =
    "{0}{1} is outside {low} .. {high}, the range of {2}, declared in line {line} (3.5)";

const PRIORITY: &str = "{0}{1} is outside {low} .. {high}, which {2} takes (D.1)";

// The range that an aspect or a pragma takes which gives a priority.
fn of_priority<'a>(words: &Words<'_, 'a>) -> Wanted<'a> {
    Wanted {
        said: PRIORITY,
        low: if words.was(2, "Priority") { 1 } else { 31 },
        high: 40,
        of: words.back(2),
        at: None,
    }
}

// The range of what a name denotes, as far as something is known of that.
fn of_name<'a>(
    judged: &Judged<'_, '_, '_, 'a>,
    table: &Table,
    name: &'a str,
) -> Option<Wanted<'a>> {
    let found = judged.scope.direct(name)?;
    let range = range_of(table, found)?;
    let (said, of, at) = match judged.item(found) {
        Some(item) => (DECLARED, item.name, Some(item.at)),
        None => (PREDEFINED, name, None),
    };
    Some(Wanted {
        said,
        low: range.low,
        high: range.high,
        of,
        at,
    })
}

// The range of a selector: that of its subtype, or its own where that is narrower.
fn of_selector<'a>(
    judged: &Judged<'_, '_, '_, 'a>,
    table: &Table,
    name: &'a str,
) -> Option<Wanted<'a>> {
    let own = of_name(judged, table, name);
    let Some(whole) = of_name(judged, table, judged.meaning(name)?.mark) else {
        return own;
    };
    match own {
        Some(own) if own.low != whole.low || own.high != whole.high => Some(own),
        _ => Some(whole),
    }
}

// The range of what the case statement chooses by whose choice stands here, where that is a name of the text.
fn of_choice<'a>(
    words: &Words<'_, 'a>,
    judged: &Judged<'_, '_, '_, 'a>,
    table: &Table,
) -> Option<Wanted<'a>> {
    let mut ended = 0usize;
    for count in 1..4096usize {
        if words.was(count, "case") {
            if words.was(count.saturating_add(1), "end") {
                ended = ended.saturating_add(1);
            } else if ended > 0 {
                ended = ended.saturating_sub(1);
            } else {
                return of_selector(judged, table, words.back(count.saturating_sub(1)));
            }
        }
    }
    None
}

// The subtype of the declaration whose value, behind `:=`, stands here. What is assigned has to be an Integer only.
fn mark_of_value<'a>(words: &Words<'_, 'a>) -> &'a str {
    for count in 2..12usize {
        if words.was(count, ":") {
            let declared = words.before(count);
            return mark_of_list(&declared, 0);
        }
        if is_among(words.back(count), ";|begin|is|then|else|loop|=>") {
            return "Integer";
        }
    }
    ""
}

// The subtype whose range the value here has to be of; empty where it isn't known.
fn mark_wanted<'a>(words: &Words<'_, 'a>) -> &'a str {
    if words.is(1, "(") {
        return words.word(0);
    }
    if words.was(1, "range") {
        return words.back(2);
    }
    if words.fit("range _ .. ^_") {
        return words.back(4);
    }
    if words.was(1, ":=") {
        return mark_of_value(words);
    }
    ""
}

// The range that the value here has to be of.
fn range_wanted<'a>(
    words: &Words<'_, 'a>,
    judged: &Judged<'_, '_, '_, 'a>,
    table: &Table,
) -> Option<Wanted<'a>> {
    if words.fit("Priority|Interrupt_Priority =>|( ^_") {
        return Some(of_priority(words));
    }
    match mark_wanted(words) {
        "" if is_among(words.back(1), "when|..") || words.back(1) == "|" => {
            of_choice(words, judged, table)
        }
        mark => of_name(judged, table, mark),
    }
}

// How many words behind the value stands of an expression that is a number, with a sign or in a conversion.
fn number_behind(words: &Words<'_, '_>) -> Option<usize> {
    let behind = if words.is(0, "-") {
        1usize
    } else if words.fit("^NAME ( NUMBER )") {
        2
    } else {
        0
    };
    let next = words.word(behind.saturating_add(1));
    if is_literal(words.word(behind)) && is_among(next, ";|)|,|=>|..|:=|is|with") {
        return Some(behind);
    }
    None
}

// What stands before the word that tells the value of an expression.
fn before_value<'w>(behind: Option<usize>) -> &'w str {
    match behind {
        Some(1) => "-",
        Some(_) => "",
        None => "what begins with ",
    }
}

/// That the value that begins at a word is outside the range that is wanted there, where that is known.
pub(crate) fn outside<'a>(
    words: &Words<'_, 'a>,
    judged: &Judged<'_, '_, '_, 'a>,
    table: &Table,
) -> Option<Cause<'a>> {
    let behind = number_behind(words);
    let before = before_value(behind);
    let value = words.word(behind.unwrap_or(0));
    let at = words.place(0);
    if words.fit("range NUMBER .. NUMBER := ^_") {
        let said = [before, value, words.back(4), words.back(2), "", ""];
        return Some(Cause::full(at, HERE, said));
    }
    let wanted = range_wanted(words, judged, table)?;
    let said = [before, value, wanted.of, "", "", ""];
    let cause = Cause::full(at, wanted.said, said).with_bounds(wanted.low, wanted.high);
    match wanted.at {
        Some(at) => Some(cause.with_other(at)),
        None => Some(cause),
    }
}
