//! The arguments that subcommands share.

ghost use Rattle.std.specs.Prelude.{◌≡◌, false, IfOk, codes};
ghost use Rattle.clap.specs.Words.{app_of, rule_of, with_rule};
ghost use Rattle.clap.specs.declared.builder.command.Command.TheViews.{out-Command as fields_of};
ghost use Rattle.rv_choice.specs.Choices.{file_rule, flag_rule, many_rule, notes_rule, sync_rule, value_rule, with_color, with_explanations, with_file, with_notes, word_rule};

use clap::{Arg, ArgAction, Command};
use std::alloc::{AllocError, Global};

/// A flag.
pub fn flag<'a>(alloc: Global, name: &'a str, help: &'a str) -> Arg<'a>
    ensures rule { rule_of result ≡ flag_rule name.now }
    ensures local { result.global ≡ false }
{
    Arg::new(alloc, name)
        .long(name)
        .help(help)
        .action(ArgAction::SetTrue)
}

// An argument with a value that has a name.
fn valued<'a>(alloc: Global, name: &'a str, value: &'a str, help: &'a str) -> Arg<'a>
    ensures rule { rule_of result ≡ value_rule name.now }
    ensures local { result.global ≡ false }
{
    Arg::new(alloc, name)
        .long(name)
        .value_name(value)
        .help(help)
        .action(ArgAction::Set)
}

// The same, which may be given more than once.
fn repeated<'a>(alloc: Global, name: &'a str, value: &'a str, help: &'a str) -> Arg<'a>
    ensures rule { rule_of result ≡ many_rule name.now }
    ensures local { result.global ≡ false }
{
    Arg::new(alloc, name)
        .long(name)
        .value_name(value)
        .help(help)
        .action(ArgAction::Append)
}

/// The flag that asks for explanations.
pub fn explain_flag<'a>(alloc: Global, help: &'a str) -> Arg<'a>
    ensures rule { rule_of result ≡ flag_rule (codes "explain") }
    ensures local { result.global ≡ false }
{
    flag(alloc, "explain", help)
}

/// A subcommand over a script, whose fault may be explained always, or never.
pub fn explained<'a>(alloc: Global, command: Command<'a>) -> Result<Command<'a>, AllocError>
    requires { (fields_of command).has_globals ≡ false }
    ensures app { IfOk result (λ c. app_of c ≡ with_explanations (app_of command.entry)) }
    ensures local { IfOk result (λ c. (fields_of c).has_globals ≡ false) }
{
    let silent = flag(
        alloc,
        "no-explain",
        "Explain no fault, at a terminal either; it goes before --explain",
    );
    command.arg(explain_flag(alloc, FAULT_HELP))?.arg(silent)
}

// When notes are told.
fn notes_flag<'a>(alloc: Global, help: &'a str) -> Arg<'a>
    ensures rule { rule_of result ≡ notes_rule }
    ensures local { result.global ≡ false }
{
    valued(alloc, "notes", "WHEN", help)
}

// When standard error has colours.
fn color_flag<'a>(alloc: Global) -> Arg<'a>
    ensures rule { rule_of result ≡ value_rule (codes "color") }
    ensures local { result.global ≡ false }
{
    valued(
        alloc,
        "color",
        "WHEN",
        "Show colours on standard error: auto (at a terminal, unless NO_COLOR is set), always or never",
    )
}

// A word that is no flag, by the name that help shows.
fn word_arg<'a>(alloc: Global, name: &'a str, value: &'a str, help: &'a str) -> Arg<'a>
    ensures rule { rule_of result ≡ word_rule name.now }
    ensures local { result.global ≡ false }
{
    Arg::new(alloc, name)
        .value_name(value)
        .help(help)
        .action(ArgAction::Set)
}

/// The subcommand that a manual is of.
pub fn subject_arg<'a>(alloc: Global) -> Arg<'a>
    ensures rule { rule_of result ≡ word_rule (codes "command") }
    ensures local { result.global ≡ false }
{
    word_arg(
        alloc,
        "command",
        "COMMAND",
        "The command whose help is printed; without one that of the program",
    )
}

/// A subcommand that may be told the file of its script.
pub fn with_file<'a>(
    alloc: Global,
    command: Command<'a>,
    help: &'a str,
) -> Result<Command<'a>, AllocError>
    requires { (fields_of command).has_globals ≡ false }
    ensures app { IfOk result (λ c. app_of c ≡ with_file (app_of command.entry)) }
    ensures local { IfOk result (λ c. (fields_of c).has_globals ≡ false) }
{
    command.arg(word_arg(alloc, "file", "FILE", help))
}

/// The name of a journal's file.
pub fn file_arg<'a>(alloc: Global, help: &'a str) -> Arg<'a>
    ensures rule { rule_of result ≡ file_rule }
    ensures local { result.global ≡ false }
{
    valued(alloc, "journal", "FILE", help)
}

/// When the file of a journal is synced.
pub fn sync_arg<'a>(alloc: Global) -> Arg<'a>
    ensures rule { rule_of result ≡ sync_rule }
    ensures local { result.global ≡ false }
{
    valued(
        alloc,
        "sync",
        "HOW",
        "With --journal: when the file is synced with its disk: each (before each answer), second or never",
    )
}

/// A subcommand that may be given a value by a flag of this name.
pub fn with_value<'a>(
    alloc: Global,
    command: Command<'a>,
    name: &'a str,
    value: &'a str,
    help: &'a str,
) -> Result<Command<'a>, AllocError>
    requires { (fields_of command).has_globals ≡ false }
    ensures app { IfOk result (λ c. app_of c ≡ with_rule (app_of command.entry) (value_rule name.now)) }
    ensures local { IfOk result (λ c. (fields_of c).has_globals ≡ false) }
{
    command.arg(valued(alloc, name, value, help))
}

/// A subcommand that may be given a value by a flag of this name, once or more.
pub fn with_values<'a>(
    alloc: Global,
    command: Command<'a>,
    name: &'a str,
    value: &'a str,
    help: &'a str,
) -> Result<Command<'a>, AllocError>
    requires { (fields_of command).has_globals ≡ false }
    ensures app { IfOk result (λ c. app_of c ≡ with_rule (app_of command.entry) (many_rule name.now)) }
    ensures local { IfOk result (λ c. (fields_of c).has_globals ≡ false) }
{
    command.arg(repeated(alloc, name, value, help))
}

/// A subcommand that judges journals, which may be told when notes are told.
pub fn told<'a>(alloc: Global, command: Command<'a>) -> Result<Command<'a>, AllocError>
    requires { (fields_of command).has_globals ≡ false }
    ensures app { IfOk result (λ c. app_of c ≡ with_rule (app_of command.entry) notes_rule) }
    ensures local { IfOk result (λ c. (fields_of c).has_globals ≡ false) }
{
    command.arg(notes_flag(alloc, UNREAD_HELP))
}

/// A subcommand that looks at lists: it may be told when notes on them are told, and that they are errors.
pub fn noted<'a>(alloc: Global, command: Command<'a>) -> Result<Command<'a>, AllocError>
    requires { (fields_of command).has_globals ≡ false }
    ensures app { IfOk result (λ c. app_of c ≡ with_notes (app_of command.entry)) }
    ensures local { IfOk result (λ c. (fields_of c).has_globals ≡ false) }
{
    let are_errors = flag(
        alloc,
        "warnings-are-errors",
        "End with status 1 before the first step or thread where such a note is due",
    );
    command.arg(notes_flag(alloc, NOTES_HELP))?.arg(are_errors)
}

/// A subcommand that may be told when standard error has colours.
pub fn coloured<'a>(alloc: Global, command: Command<'a>) -> Result<Command<'a>, AllocError>
    requires { (fields_of command).has_globals ≡ false }
    ensures app { IfOk result (λ c. app_of c ≡ with_color (app_of command.entry)) }
    ensures local { IfOk result (λ c. (fields_of c).has_globals ≡ false) }
{
    command.arg(color_flag(alloc))
}

/// Where a script is read from.
pub const SCRIPT_HELP: &str = "Read the script from this file, in place of standard input";

// What notes tell of a script.
const NOTES_HELP: &str =
    "Tell of lines of lists that can't be meant so and of calls that can never start, on standard error: auto (at a terminal), always or never";

// What they tell of a journal.
const UNREAD_HELP: &str =
    "Say on standard error why a line is unreadable, and explain a script's fault: auto (at a terminal), always or never";

// What is explained of a refused script.
const FAULT_HELP: &str =
    "Below a fault, show the line with its place, and say what the fault means; at a terminal this is done unless --notes is never";
