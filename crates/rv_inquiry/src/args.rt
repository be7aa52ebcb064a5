//! The arguments of the subcommands.

ghost use Rattle.std.specs.Prelude.{◌≡◌, false, codes, IfOk};
ghost use Rattle.clap.specs.Words.{app_of, rule_of, with_rule};
ghost use Rattle.clap.specs.declared.builder.command.Command.TheViews.{out-Command as fields_of};
ghost use Rattle.rv_inquiry.specs.Inquiries.{flag_rule, list_rule, needed_rule, value_rule, with_forms, with_journal, with_json, with_filter, with_span, word_rule};

use clap::{Arg, ArgAction, Command};
use std::alloc::{AllocError, Global};

// A flag.
fn flag<'a>(alloc: Global, name: &'a str, help: &'a str) -> Arg<'a>
    ensures rule { rule_of result ≡ flag_rule name.now }
    ensures local { result.global ≡ false }
{
    Arg::new(alloc, name)
        .long(name)
        .help(help)
        .action(ArgAction::SetTrue)
}

// An argument with a value that has a name.
fn valued<'a>(alloc: Global, name: &'a str, value: &'a str, help: &'a str) -> Arg<'a>
    ensures rule { rule_of result ≡ value_rule name.now }
    ensures local { result.global ≡ false }
{
    Arg::new(alloc, name)
        .long(name)
        .value_name(value)
        .help(help)
        .action(ArgAction::Set)
}

// A word that is no flag, by the name that help shows.
fn word_arg<'a>(alloc: Global, name: &'a str, value: &'a str, help: &'a str) -> Arg<'a>
    ensures rule { rule_of result ≡ word_rule name.now }
    ensures local { result.global ≡ false }
{
    Arg::new(alloc, name)
        .value_name(value)
        .help(help)
        .action(ArgAction::Set)
}

// A word that is no flag and has to be given, by the name that help shows.
fn needed_arg<'a>(alloc: Global, name: &'a str, value: &'a str, help: &'a str) -> Arg<'a>
    ensures rule { rule_of result ≡ needed_rule name.now }
    ensures local { result.global ≡ false }
{
    word_arg(alloc, name, value, help).required(true)
}

// The other list that an access list is compared with.
fn list_arg<'a>(alloc: Global) -> Arg<'a>
    ensures rule { rule_of result ≡ list_rule }
    ensures local { result.global ≡ false }
{
    Arg::new(alloc, "list")
        .long("against")
        .value_name("LIST")
        .help("Say what the list in this file would grant otherwise, and by which lines")
        .action(ArgAction::Set)
}

/// A subcommand that may be given the file of a journal, that its end was cut off, and by when its entries were written.
pub fn over_journal<'a>(alloc: Global, command: Command<'a>) -> Result<Command<'a>, AllocError>
    requires { (fields_of command).has_globals ≡ false }
    ensures app { IfOk result (λ c. app_of c ≡ with_journal (app_of command.entry)) }
    ensures local { IfOk result (λ c. (fields_of c).has_globals ≡ false) }
{
    let journal = valued(
        alloc,
        "journal",
        "FILE",
        "Review the journal in this file, of any length, instead of one in the script",
    );
    let torn = flag(
        alloc,
        "torn",
        "With --journal: take a last line without its line feed as cut off by a crash",
    );
    let times = valued(
        alloc,
        "times",
        "FILE",
        "Put the time beside each entry, by this file's lines ENTRY UTC",
    );
    command.arg(journal)?.arg(torn)?.arg(times)
}

/// A subcommand that may be told since when entries are asked for.
pub fn since<'a>(alloc: Global, command: Command<'a>) -> Result<Command<'a>, AllocError>
    requires { (fields_of command).has_globals ≡ false }
    ensures app { IfOk result (λ c. app_of c ≡ with_rule (app_of command.entry) (value_rule (codes "since"))) }
    ensures local { IfOk result (λ c. (fields_of c).has_globals ≡ false) }
{
    let since = valued(
        alloc,
        "since",
        "WHEN",
        "Leave out what was before entry:N, tick:N or, with --times, a time as 2026-11-30T14:20:00Z",
    );
    command.arg(since)
}

/// A subcommand that may be told whose calls, and calls of what, are asked for.
pub fn filtered<'a>(alloc: Global, command: Command<'a>) -> Result<Command<'a>, AllocError>
    requires { (fields_of command).has_globals ≡ false }
    ensures app { IfOk result (λ c. app_of c ≡ with_filter (app_of command.entry)) }
    ensures local { IfOk result (λ c. (fields_of c).has_globals ≡ false) }
{
    let by = valued(
        alloc,
        "by",
        "CALLER",
        "Leave out other callers than this task Unit.Task, or the tasks of this unit",
    );
    let of = valued(
        alloc,
        "of",
        "CALLED",
        "Leave out calls of others than this unit, Unit.Object or Unit.Object.Operation",
    );
    command.arg(by)?.arg(of)
}

/// A subcommand whose word that is no flag says calls of what are asked for.
pub fn named<'a>(alloc: Global, command: Command<'a>) -> Result<Command<'a>, AllocError>
    requires { (fields_of command).has_globals ≡ false }
    ensures app { IfOk result (λ c. app_of c ≡ with_rule (app_of command.entry) (word_rule (codes "of"))) }
    ensures local { IfOk result (λ c. (fields_of c).has_globals ≡ false) }
{
    let of = word_arg(
        alloc,
        "of",
        "CALLED",
        "The unit, Unit.Object or Unit.Object.Operation that is called; all of them, if left out",
    );
    command.arg(of)
}

/// A subcommand that is about the entry of a number.
pub fn about_entry<'a>(
    alloc: Global,
    command: Command<'a>,
    help: &'a str,
) -> Result<Command<'a>, AllocError>
    requires { (fields_of command).has_globals ≡ false }
    ensures app { IfOk result (λ c. app_of c ≡ with_rule (app_of command.entry) (needed_rule (codes "entry"))) }
    ensures local { IfOk result (λ c. (fields_of c).has_globals ≡ false) }
{
    let entry = needed_arg(alloc, "entry", "N", help);
    command.arg(entry)
}

/// A subcommand that is about another list.
pub fn about_list<'a>(alloc: Global, command: Command<'a>) -> Result<Command<'a>, AllocError>
    requires { (fields_of command).has_globals ≡ false }
    ensures app { IfOk result (λ c. app_of c ≡ with_rule (app_of command.entry) (needed_rule (codes "list"))) }
    ensures local { IfOk result (λ c. (fields_of c).has_globals ≡ false) }
{
    let list = needed_arg(
        alloc,
        "list",
        "LIST",
        "The file of the list that stands in for each list of the journal",
    );
    command.arg(list)
}

/// A subcommand that may compare with another list.
pub fn against_list<'a>(alloc: Global, command: Command<'a>) -> Result<Command<'a>, AllocError>
    requires { (fields_of command).has_globals ≡ false }
    ensures app { IfOk result (λ c. app_of c ≡ with_rule (app_of command.entry) list_rule) }
    ensures local { IfOk result (λ c. (fields_of c).has_globals ≡ false) }
{
    let list = list_arg(alloc);
    command.arg(list)
}

/// A subcommand whose rows may be JSON.
pub fn as_json<'a>(alloc: Global, command: Command<'a>) -> Result<Command<'a>, AllocError>
    requires { (fields_of command).has_globals ≡ false }
    ensures app { IfOk result (λ c. app_of c ≡ with_json (app_of command.entry)) }
    ensures local { IfOk result (λ c. (fields_of c).has_globals ≡ false) }
{
    let json = flag(alloc, "json", "Write each row as a line of JSON");
    command.arg(json)
}

/// A subcommand that may be told the first and the last entry to show.
pub fn spanned<'a>(alloc: Global, command: Command<'a>) -> Result<Command<'a>, AllocError>
    requires { (fields_of command).has_globals ≡ false }
    ensures app { IfOk result (λ c. app_of c ≡ with_span (app_of command.entry)) }
    ensures local { IfOk result (λ c. (fields_of c).has_globals ≡ false) }
{
    let first = valued(
        alloc,
        "from",
        "N",
        "Show nothing before the entry of this number",
    );
    let last = valued(
        alloc,
        "to",
        "N",
        "Show nothing behind the entry of this number",
    );
    command.arg(first)?.arg(last)
}

/// A subcommand that may be told what form its picture has.
pub fn drawn<'a>(alloc: Global, command: Command<'a>) -> Result<Command<'a>, AllocError>
    requires { (fields_of command).has_globals ≡ false }
    ensures app { IfOk result (λ c. app_of c ≡ with_forms (app_of command.entry)) }
    ensures local { IfOk result (λ c. (fields_of c).has_globals ≡ false) }
{
    let text = flag(alloc, "text", "Show text for a terminal (the default)");
    let svg = flag(
        alloc,
        "svg",
        "Show an SVG picture, one file for a browser, with titles on hover",
    );
    command.arg(text)?.arg(svg)
}
