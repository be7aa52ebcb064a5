//! What the words of a command line ask.

ghost use Rattle.std.specs.Prelude.{◌≡◌, List, Some, IfSome, IfOk, codes, map};
ghost use Rattle.clap.specs.Matches.{found_of};
ghost use Rattle.clap.specs.Walk.{Row, Text, first_of, one_of, rows_of};
ghost use Rattle.clap.specs.Words.{subcommand_rows_of};
ghost use Rattle.rv_inquiry.specs.Inquiries.{Asks, IsFlag, IsGiven, IsInquiry, from_of, name_of};

use crate::command::command;
use crate::inquiry::{From, Inquiry, Question, Unasked};
use crate::misuse::{Given, Misuse};
use crate::values::{given_number, given_since};
use clap::ArgMatches;
use clap::error::ErrorKind;
use std::alloc::Global;

// What the subcommand of a name asks of entries, if it does.
fn of_entries(name: &str) -> Option<Question>
    ensures { IfSome result (λ question. name.now ≡ name_of question) }
{
    if name == "refusals" {
        return Some(Question::Refusals);
    }
    if name == "waits" {
        return Some(Question::Waits);
    }
    if name == "state" {
        return Some(Question::State);
    }
    if name == "explain" {
        return Some(Question::Explain);
    }
    if name == "timeline" {
        return Some(Question::Timeline);
    }
    None
}

// What the subcommand of a name asks, if there is one.
fn question_of(name: &str) -> Option<Question>
    ensures { IfSome result (λ question. name.now ≡ name_of question) }
{
    if name == "access" {
        return Some(Question::Access);
    }
    if name == "who" {
        return Some(Question::Who);
    }
    if name == "hits" {
        return Some(Question::Hits);
    }
    if name == "whatif" {
        return Some(Question::WhatIf);
    }
    if name == "export" {
        return Some(Question::Export);
    }
    of_entries(name)
}

// Whether it is an instant since when entries are asked for.
fn is_instant(since: From) -> bool {
    matches!(since, From::Instant(_))
}

// Whether a last line was cut off, by what a subcommand was given.
fn given_torn<'a>(words: &ArgMatches<'a>) -> Result<bool, Misuse<'a>>
    ensures { IfOk result (λ torn. IsFlag (one_of (codes "torn") (rows_of (found_of words.now))) torn) }
{
    let takes_torn = words.get_flag("torn");
    if takes_torn && words.get_str("journal").is_none() {
        return Err(Misuse::TornAlone);
    }
    Ok(takes_torn)
}

// Since when entries are asked for, by what a subcommand was given; an instant needs times.
fn given_from<'a>(words: &ArgMatches<'a>) -> Result<From, Misuse<'a>>
    ensures { IfOk result (λ since. from_of (first_of (codes "since") (rows_of (found_of words.now))) ≡ Some since) }
{
    let since = given_since(words)?;
    if is_instant(since) && words.get_str("times").is_none() {
        return Err(Misuse::InstantAlone);
    }
    Ok(since)
}

// Whether a timeline is a picture, by what a subcommand was given.
fn given_svg<'a>(words: &ArgMatches<'a>) -> Result<bool, Misuse<'a>>
    ensures { IfOk result (λ svg. IsFlag (one_of (codes "svg") (rows_of (found_of words.now))) svg) }
{
    let is_svg = words.get_flag("svg");
    if is_svg && words.get_flag("text") {
        return Err(Misuse::TwoForms);
    }
    Ok(is_svg)
}

// Whether rows are JSON, by what a subcommand was given.
fn given_json(words: &ArgMatches<'_>) -> bool
    ensures { IsFlag (one_of (codes "json") (rows_of (found_of words.now))) result }
{
    words.get_flag("json")
}

// What is asked by what a subcommand was given.
fn asked_with<'a>(question: Question, words: &ArgMatches<'a>) -> Result<Inquiry<'a>, Misuse<'a>>
    ensures question { IfOk result (λ asked. asked.question ≡ question) }
    ensures given { IfOk result (λ asked. IsGiven (rows_of (found_of words.now)) asked) }
{
    let takes_torn = given_torn(words)?;
    let since = given_from(words)?;
    let entry = given_number(words, Given::Entry, "entry")?;
    let first = given_number(words, Given::First, "from")?;
    let last = given_number(words, Given::Last, "to")?;
    let is_svg = given_svg(words)?;
    Ok(Inquiry {
        question,
        journal: words.get_str("journal"),
        times: words.get_str("times"),
        takes_torn,
        since,
        by: words.get_str("by"),
        of: words.get_str("of"),
        entry,
        list: words.get_str("list"),
        first,
        last,
        is_svg,
        is_json: given_json(words),
    })
}

// What a command line that was read asks.
fn inquiry_of<'a>(matches: &ArgMatches<'a>) -> Result<Inquiry<'a>, Unasked<'a>>
    ensures { IfOk result (λ asked. (found : Text × List Row) × (subcommand_rows_of matches.now ≡ Some found) × IsInquiry found asked) }
{
    let Some((name, words)) = matches.subcommand() else {
        return Err(Unasked::Unknown);
    };
    let Some(question) = question_of(name) else {
        return Err(Unasked::Unknown);
    };
    match asked_with(question, words) {
        Ok(inquiry) => Ok(inquiry),
        Err(misuse) => Err(Unasked::Misused(misuse)),
    }
}

/// What the words of a command line ask, the first of which is the program's name.
///
/// # Errors
/// `Usage`, `Unknown` and `Misused` where the words ask nothing; `NoMemory` where memory was refused.
pub fn inquiry<'a>(alloc: Global, words: &'a [&'a str]) -> Result<Inquiry<'a>, Unasked<'a>>
    ensures { IfOk result (λ asked. Asks (map (λ w. w.now) words.now) asked) }
{
    let Ok(command) = command(alloc) else {
        return Err(Unasked::NoMemory);
    };
    let matches = match command.try_get_matches_from(words) {
        Ok(matches) => matches,
        Err(e) => {
            if e.kind() == ErrorKind::OutOfMemory {
                return Err(Unasked::NoMemory);
            }
            return Err(Unasked::Usage(e));
        }
    };
    inquiry_of(&matches)
}
