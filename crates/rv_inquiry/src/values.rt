//! What the values of arguments say.

ghost use Rattle.std.specs.Prelude.{◌≡◌, Some, IfOk, codes, option_map};
ghost use Rattle.clap.specs.Matches.{found_of};
ghost use Rattle.clap.specs.Walk.{first_of, rows_of};
ghost use Rattle.rv_inquiry.specs.Inquiries.{from_instant, from_of, from_parts, from_word, number_of, or_instant};
ghost use Rattle.rv_times.specs.Times.{instant};

use crate::inquiry::From;
use crate::misuse::{Given, Misuse};
use clap::ArgMatches;
use rv_text::natural_of;
use rv_times::times::instant;

// Since when entries are asked for, by the two parts of a word.
fn from_parts(kind: &str, number: Option<u64>) -> Option<From>
    ensures { result ≡ from_parts kind.now number }
{
    let Some(number) = number else {
        return None;
    };
    if kind == "entry" {
        return Some(From::Entry(number));
    }
    if kind == "tick" {
        return Some(From::Tick(number));
    }
    None
}

// Since when entries are asked for, by a word of two parts; none for another word than `entry:N` or `tick:N`.
fn from_word(word: &str) -> Option<From>
    ensures { result ≡ from_word word.now }
{
    match word.split_once(':') {
        Some((kind, number)) => from_parts(kind, natural_of(number)),
        None => None,
    }
}

// Since when they are, by a word that is an instant.
fn from_instant(word: &str) -> Option<From>
    ensures { result ≡ from_instant (instant word.now) }
{
    match instant(word) {
        Some(at) => Some(From::Instant(at)),
        None => None,
    }
}

// Since when they are, by a word, if it is one of these.
fn from_some(word: &str) -> Option<From>
    ensures { result ≡ or_instant (from_word word.now) word.now }
{
    match from_word(word) {
        Some(from) => Some(from),
        None => from_instant(word),
    }
}

// Since when they are, by the word that was given, if one was.
fn from_of(word: Option<&str>) -> Option<From>
    ensures { result ≡ from_of (option_map (λ w. w.now) word.entry) }
{
    match word {
        Some(word) => from_some(word),
        None => Some(From::Start),
    }
}

// The number of an entry, by the word that was given; none for another word.
fn number_of(word: Option<&str>) -> Option<Option<u64>>
    ensures { result ≡ number_of (option_map (λ w. w.now) word.entry) }
{
    let Some(word) = word else {
        return Some(None);
    };
    match natural_of(word) {
        Some(number) => Some(Some(number)),
        None => None,
    }
}

// What a word says, where it says something; else what is wrong with it.
fn said_by<'a, T: Drop>(
    given: Given,
    word: Option<&'a str>,
    said: Option<T>,
) -> Result<T, Misuse<'a>>
    ensures { IfOk result (λ it. said ≡ Some it) }
{
    match said {
        Some(it) => Ok(it),
        None => Err(Misuse::Word(given, word.unwrap_or(""))),
    }
}

/// Since when entries are asked for, by what a subcommand was given.
pub fn given_since<'a>(words: &ArgMatches<'a>) -> Result<From, Misuse<'a>>
    ensures { IfOk result (λ since. from_of (first_of (codes "since") (rows_of (found_of words.now))) ≡ Some since) }
{
    let word = words.get_str("since");
    said_by(Given::Since, word, from_of(word))
}

/// The number of an entry, by what a subcommand was given under a name.
pub fn given_number<'a>(
    words: &ArgMatches<'a>,
    given: Given,
    name: &str,
) -> Result<Option<u64>, Misuse<'a>>
    ensures { IfOk result (λ number. number_of (first_of name.now (rows_of (found_of words.now))) ≡ Some number) }
{
    let word = words.get_str(name);
    said_by(given, word, number_of(word))
}
