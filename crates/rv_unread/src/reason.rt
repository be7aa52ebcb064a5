//! Why a line can't be read.

use rv_shown::put_shown;
use std::fmt;

/// Why a line of a journal can't be read.
#[derive(Clone, Copy, Drop)]
pub enum Reason<'a> {
    /// It is the last, and has no line feed.
    NoFeed,
    /// It names this unit, which no entry before it loads.
    NotLoaded(&'a str),
    /// It loads a unit of exactly this name, and the script gives none.
    NotGiven(&'a str),
    /// A sentence with words, of which some may be empty: `{0}`, `{1}` and `{2}` in it stand for them.
    Said(&'static str, &'a str, &'a str, &'a str),
}

// How many characters of a word are said.
const MOST: usize = 100;

const NO_FEED: &str =
    "it has no line feed, as where a crash cut it off; with --torn such a line of a file isn't judged";

// Writes a word as it is shown; of a long one the first part.
fn put_word<W: fmt::Write>(f: &mut fmt::Formatter<W>, word: &str) -> fmt::Result {
    for (count, character) in word.chars().enumerate() {
        if count >= MOST {
            return f.write_str("...");
        }
        put_shown(f, character)?;
    }
    Ok(())
}

// The word that a hole of a sentence stands for.
fn filling<'a>(words: &[&'a str; 3], hole: &str) -> &'a str {
    match hole {
        "0" => words[0],
        "1" => words[1],
        _ => words[2],
    }
}

// Writes a sentence with words.
fn put_said<W: fmt::Write>(
    f: &mut fmt::Formatter<W>,
    said: &str,
    words: &[&str; 3],
) -> fmt::Result {
    for part in said.split('{') {
        match part.split_once('}') {
            Some((hole, behind)) => {
                put_word(f, filling(words, hole))?;
                f.write_str(behind)?;
            }
            None => f.write_str(part)?,
        }
    }
    Ok(())
}

impl<'a> Reason<'a> {
    /// A sentence without words.
    pub(crate) fn plain(said: &'static str) -> Reason<'a> {
        Reason::Said(said, "", "", "")
    }

    /// A sentence with one word.
    pub(crate) fn of(said: &'static str, word: &'a str) -> Reason<'a> {
        Reason::Said(said, word, "", "")
    }

    /// A sentence with two words.
    pub(crate) fn pair(said: &'static str, word: &'a str, other: &'a str) -> Reason<'a> {
        Reason::Said(said, word, other, "")
    }
}

impl fmt::Display for Reason<'_> {
    fn fmt<W: fmt::Write>(&self, f: &mut fmt::Formatter<W>) -> fmt::Result {
        match *self {
            Reason::NoFeed => f.write_str(NO_FEED),
            Reason::NotLoaded(unit) => {
                put_said(f, "no entry before it loads the unit {0}", &[unit, "", ""])
            }
            Reason::NotGiven(unit) => {
                put_said(
                    f,
                    "the script gives no unit {0}, which it loads",
                    &[unit, "", ""],
                )
            }
            Reason::Said(said, first, second, third) => put_said(f, said, &[first, second, third]),
        }
    }
}
