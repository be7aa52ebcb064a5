//! The answers of lines.

use crate::actors::of_actor;
use crate::reason::Reason;
use crate::values::{of_behind, of_natural, of_one};
use rv_shape::catalogue::Catalogue;
use rv_text::next_word;

const NO_ANSWER: &str =
    "{0} is no answer that a journal has: those are started, queued, refused, done, suspended, delayed, woken and accepted";

const NOTHING: &str = "no answer stands behind the arrow";

const REFUSED: &str =
    "behind refused stand a rule of 1 .. 6, line and its number, version and its number";

const DONE: &str =
    "behind done stands nothing, or handed and an actor, or dropped, an actor, line and its number";

// Whether a word is the number of a rule.
fn is_rule(word: &str) -> bool {
    match word {
        "1" | "2" | "3" | "4" | "5" | "6" => true,
        _ => false,
    }
}

// Why this word and a number don't stand there with nothing behind them, by this sentence.
fn of_last<'a>(text: &'a str, wanted: &str, said: &'static str) -> Option<Reason<'a>> {
    let Some((word, rest)) = next_word(text) else {
        return Some(Reason::plain(said));
    };
    let Some((number, behind)) = next_word(rest) else {
        return Some(Reason::plain(said));
    };
    if word != wanted {
        return Some(Reason::plain(said));
    }
    match of_natural(number) {
        Some(reason) => Some(reason),
        None => of_behind(number, behind),
    }
}

// Why the line and the version of a refusal aren't there.
fn of_line_and_version<'a>(text: &'a str) -> Option<Reason<'a>> {
    let Some((word, rest)) = next_word(text) else {
        return Some(Reason::plain(REFUSED));
    };
    let Some((number, behind)) = next_word(rest) else {
        return Some(Reason::plain(REFUSED));
    };
    if word != "line" {
        return Some(Reason::plain(REFUSED));
    }
    match of_natural(number) {
        Some(reason) => Some(reason),
        None => of_last(behind, "version", REFUSED),
    }
}

// Why what stands behind `refused` isn't as it should be.
fn of_refused<'a>(text: &'a str) -> Option<Reason<'a>> {
    match next_word(text) {
        Some((rule, behind)) if is_rule(rule) => of_line_and_version(behind),
        _ => Some(Reason::plain(REFUSED)),
    }
}

// Why what stands behind `handed` or `dropped` isn't as it should be.
fn of_next<'a>(loaded: &'a Catalogue, key: &'a str, text: &'a str) -> Option<Reason<'a>> {
    let Some((actor, behind)) = next_word(text) else {
        return Some(Reason::plain(DONE));
    };
    if let Some(reason) = of_actor(loaded, actor) {
        return Some(reason);
    }
    match key {
        "handed" => of_behind(actor, behind),
        "dropped" => of_last(behind, "line", DONE),
        _ => Some(Reason::plain(DONE)),
    }
}

// Why what stands behind `done` isn't as it should be.
fn of_done<'a>(loaded: &'a Catalogue, text: &'a str) -> Option<Reason<'a>> {
    match next_word(text) {
        Some((key, behind)) => of_next(loaded, key, behind),
        None => None,
    }
}

/// Why a text is no answer that a journal has, where these units are loaded, if it is none.
pub(crate) fn of_answer<'a>(loaded: &'a Catalogue, text: &'a str) -> Option<Reason<'a>> {
    let Some((key, behind)) = next_word(text) else {
        return Some(Reason::plain(NOTHING));
    };
    match key {
        "started" | "queued" | "suspended" | "delayed" | "woken" => of_behind(key, behind),
        "accepted" => of_one(key, behind),
        "refused" => of_refused(behind),
        "done" => of_done(loaded, behind),
        _ => Some(Reason::of(NO_ANSWER, key)),
    }
}
